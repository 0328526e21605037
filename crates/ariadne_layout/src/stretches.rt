//! Stretches of the places of a line, through each of which the same label is shown.

ghost use Rattle.std.specs.Prelude.{◌≡◌, ◌+◌, ◌-◌, ◌<◌, ◌≤◌, [], length, max};
ghost use Rattle.std.specs.Prelude.{IfOk, IfSome, IsTrue, OnOk};
ghost use Rattle.std.specs.List.{All};
ghost use Rattle.std.specs.List.Sorted.{IsStrictlyIncreasing};
ghost use Rattle.ariadne_layout.specs.Candidates.{AreThere, infos_among};
ghost use Rattle.ariadne_layout.specs.Choices.{inline_infos};
ghost use Rattle.ariadne_layout.specs.LabelRuns.{ShowLabelRuns};
ghost use Rattle.ariadne_layout.specs.Tables.{AreAllStretches, ArePaints, AreStretches};
ghost use Rattle.ariadne_layout.specs.Tables.{AreUnderlines, OthersHoldNone};

use crate::candidates::Candidates;
use crate::label_runs::{LabelRun, find_label_runs};
use crate::layout::LineLayout;
use ariadne_picture::label_info::{LabelInfo, LineLabel};
use ariadne_picture::switches::Switches;
use std::alloc::AllocError;

/// Up to so many labels are all looked at for each stretch, which takes no memory beside it.
const FEW: usize = 48;

/// The places from the end of the stretch before it, or from 0, to its own end.
#[derive(Clone, Copy)]
pub struct Stretch {
    /// One past its last place.
    pub end: usize,
    /// The position of the label that is shown there, if there is one.
    pub position: Option<usize>,
}

/// Finds the stretches of the places below `len` that each show one underline, or none, in the row
/// below the line that has underlines.
///
/// On `Err` there was no memory for them, and what is held is of no line.
pub fn find_underlines(
    switches: &Switches,
    layout: &LineLayout<'_>,
    len: usize,
    list: &mut Vec<Stretch>,
) -> Result<(), AllocError>
    ensures { OnOk result (AreUnderlines switches.now layout.now len list.new.items) }
{
    if !switches.underlines {
        list.clear();
        return Ok(());
    }
    let labels = layout.labels();
    if take_apart(list, labels, layout.offset(), len)? {
        return Ok(());
    }
    fill(list, &Candidates::inline(labels), layout.offset(), len)
}

/// Takes the stretches of those labels that lie within their line, if each of them starts behind
/// those before it. Then no two compete for a place, and nothing else takes memory. It tells whether
/// they do.
///
/// `offset` counts the characters of the source before the line, which has `len` places. On `Err`
/// there was no memory for the stretches. On that, and where it is not so, what is held is of no
/// line.
fn take_apart(
    list: &mut Vec<Stretch>,
    labels: &[LineLabel],
    offset: usize,
    len: usize,
) -> Result<bool, AllocError>
    ensures { IfOk result (λ apart. IsTrue apart →
        AreAllStretches (inline_infos labels.now) offset list.new.items) }
{
    list.clear();
    list.reserve_exact(labels.len().saturating_mul(2).min(len))?;
    let mut place = 0;
    for label in labels {
        if label.side.is_inline() {
            let Some((start, end)) = places_from(&label.info, offset, place) else {
                return Ok(false);
            };
            list.push(Stretch {
                end: start,
                position: None,
            })?;
            list.push(Stretch {
                end,
                position: Some(label.info.position),
            })?;
            place = end;
        }
    }
    Ok(true)
}

/// The place at which a label starts and the one behind its last, if it starts at `place` or behind.
fn places_from(info: &LabelInfo, offset: usize, place: usize) -> Option<(usize, usize)>
    ensures start { IfSome result (λ r. info.now.start ≡ offset + r.0) }
    ensures behind { IfSome result (λ r. place ≤ r.0) }
    ensures end { IfSome result (λ r. r.1 ≡ max r.0 (info.now.end - offset)) }
{
    let start = info.start.checked_sub(offset)?;
    if start < place {
        return None;
    }
    Some((start, start.max(info.end.saturating_sub(offset))))
}

/// Finds the stretches of the shown characters of a line that each have the colour of one label, or
/// of none.
///
/// `multi_line` are the multi-line labels of the line's group, and `touching` the numbers, rising,
/// of those that may hold a shown character of the line. On `Err` there was no memory for the
/// stretches, and what is held is of no line.
pub fn find_paints(
    layout: &LineLayout<'_>,
    multi_line: &[LabelInfo],
    touching: &[usize],
    list: &mut Vec<Stretch>,
) -> Result<(), AllocError>
    requires within { All (λ i. i < length multi_line.now) touching.now }
    requires rising { IsStrictlyIncreasing touching.now }
    requires touching { OthersHoldNone multi_line.now touching.now layout.now }
    ensures { OnOk result (ArePaints multi_line.now layout.now list.new.items) }
{
    let margin = layout.margin();
    let labels = Candidates::painters(margin.as_ref(), multi_line, touching, layout.labels());
    fill(list, &labels, layout.offset(), layout.shown_len())
}

/// Takes the stretches of the places below `len` that each show one of some labels, or none.
///
/// `offset` counts the characters of the source before the line. On `Err` there was no memory for
/// them, and what is held is of no line.
fn fill(
    list: &mut Vec<Stretch>,
    labels: &Candidates<'_>,
    offset: usize,
    len: usize,
) -> Result<(), AllocError>
    requires { AreThere labels.now }
    ensures { OnOk result (AreStretches (infos_among labels.now) offset len list.new.items) }
{
    list.clear();
    if labels.count() > FEW {
        let runs = find_label_runs(*list.allocator(), labels, offset, len)?;
        push_label_runs(list, &runs)
    } else {
        push_chosen(list, labels, offset, len)
    }
}

/// Appends a stretch for each run. On `Err` there was no memory for them.
fn push_label_runs(list: &mut Vec<Stretch>, runs: &[LabelRun<'_>]) -> Result<(), AllocError>
    requires { list.old.items ≡ [] }
    ensures { OnOk result (ShowLabelRuns list.new.items runs.now) }
{
    list.reserve_exact(runs.len())?;
    for run in runs {
        list.push(Stretch {
            end: run.end,
            position: run.label.map(|label| label.position),
        })?;
    }
    Ok(())
}

/// Appends the stretches of the places below `len`, looking at all labels for each. On `Err` there
/// was no memory for them.
fn push_chosen(
    list: &mut Vec<Stretch>,
    labels: &Candidates<'_>,
    offset: usize,
    len: usize,
) -> Result<(), AllocError>
    requires empty { list.old.items ≡ [] }
    requires there { AreThere labels.now }
    ensures { OnOk result (AreStretches (infos_among labels.now) offset len list.new.items) }
{
    list.reserve_exact(labels.count().saturating_mul(2).saturating_add(1).min(len))?;
    let mut place = 0;
    while place < len {
        let choice = labels.choose(offset, place, len - place);
        place += choice.len();
        list.push(Stretch {
            end: place,
            position: choice.position(),
        })?;
    }
    Ok(())
}
