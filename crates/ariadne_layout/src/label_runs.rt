//! The runs of a line that each show one of many labels: found for either half of the labels, and
//! merged.

ghost use Rattle.std.specs.Prelude.{◌≡◌, ℕ, List, ◌++◌, IfOk, option_copied};
ghost use Rattle.ariadne_picture.specs.declared.label_info.LabelInfo.{LabelInfo};
ghost use Rattle.ariadne_layout.specs.Candidates.{AreThere, infos_among};
ghost use Rattle.ariadne_layout.specs.LabelRuns.{AreLabelRuns, better_one};

use crate::candidates::Candidates;
use ariadne_picture::label_info::LabelInfo;
use std::alloc::{AllocError, Global};

/// The places from the end of the run before it, or from 0, to its own end.
#[derive(Clone, Copy)]
pub struct LabelRun<'a> {
    /// One past its last place.
    pub end: usize,
    /// The label that is shown there, if there is one.
    pub label: Option<&'a LabelInfo>,
}

/// So few labels are all looked at for each run.
const FEW: usize = 16;

/// Finds the runs of the places below `len` that each show one of some labels, or none.
///
/// `offset` counts the characters of the source before the line.
pub(crate) fn find_label_runs<'a>(
    alloc: Global,
    labels: &Candidates<'a>,
    offset: usize,
    len: usize,
) -> Result<Vec<LabelRun<'a>>, AllocError>
    requires { AreThere labels.now }
    ensures { IfOk result (λ v. AreLabelRuns (infos_among labels.now) offset len v.items) }
{
    if labels.count() <= FEW {
        return find_label_runs_of_few(alloc, labels, offset, len);
    }
    let (first, second) = labels.halves();
    let first = find_label_runs(alloc, &first, offset, len)?;
    let second = find_label_runs(alloc, &second, offset, len)?;
    merge(alloc, &first, &second)
}

/// Finds the runs as `find_label_runs` does, looking at all labels for each.
fn find_label_runs_of_few<'a>(
    alloc: Global,
    labels: &Candidates<'a>,
    offset: usize,
    len: usize,
) -> Result<Vec<LabelRun<'a>>, AllocError>
    requires { AreThere labels.now }
    ensures { IfOk result (λ v. AreLabelRuns (infos_among labels.now) offset len v.items) }
{
    let mut runs = Vec::new(alloc);
    let mut place = 0;
    while place < len {
        let choice = labels.choose(offset, place, len - place);
        place += choice.len();
        runs.push(LabelRun {
            end: place,
            label: choice.label(),
        })?;
    }
    Ok(runs)
}

/// Merges the runs of some labels with those of labels behind them.
fn merge<'a>(
    alloc: Global,
    first: &[LabelRun<'a>],
    second: &[LabelRun<'a>],
) -> Result<Vec<LabelRun<'a>>, AllocError>
    ensures { (xs ys : List LabelInfo) (offset len : ℕ) → AreLabelRuns xs offset len first.now
        → AreLabelRuns ys offset len second.now
        → IfOk result (λ v. AreLabelRuns (xs ++ ys) offset len v.items) }
{
    let mut runs = Vec::with_capacity(alloc, first.len().saturating_add(second.len()))?;
    let (mut i, mut j) = (0, 0);
    while i < first.len() && j < second.len() {
        let (a, b) = (first[i], second[j]);
        let end = a.end.min(b.end);
        let label = better_one(a.label, b.label);
        runs.push(LabelRun { end, label })?;
        if a.end == end {
            i += 1;
        }
        if b.end == end {
            j += 1;
        }
    }
    Ok(runs)
}

/// The label that is shown where the first of two lists of labels shows one label, or none, and the
/// second another, or none.
fn better_one<'a>(
    first: Option<&'a LabelInfo>,
    second: Option<&'a LabelInfo>,
) -> Option<&'a LabelInfo>
    ensures { option_copied result
        ≡ better_one (option_copied first.entry) (option_copied second.entry) }
{
    let (Some(a), Some(b)) = (first, second) else {
        return first.or(second);
    };
    if b.is_preferred_to(a) { second } else { first }
}
