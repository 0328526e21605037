//! How many columns of a picture stand in front of the source text: those of the margin and the gutter.
//!
//! ```text
//!  1 | ,-> def five = match () in {       9: a margin of 5, and a gutter of 2 columns of 2
//! ```

ghost use Rattle.std.specs.Prelude.{◌≡◌, ◌+◌, ◌*◌, ◌==◌, ◌≤◌, ◌&&◌, IfOk, if◌then◌else◌, length};
ghost use Rattle.std.specs.Prelude.{map, not};
ghost use Rattle.ariadne_picture.specs.Margins.{columns_before_text, margin_columns, margin_len};
ghost use Rattle.ariadne_picture.specs.Margins.{most_before_text};
ghost use Rattle.ariadne_picture.specs.Pieces.{column_size, gutter_len};
ghost use Rattle.ariadne_picture.specs.Ranks.{gutter_labels, is_on_one_line};
ghost use Rattle.ariadne_report.specs.CacheReads.{AreDrawn, world};
ghost use Rattle.ariadne_report.specs.DrawnGroups.{AreGroups, gutter_sheet};

use crate::groups::{cut_groups, in_order, number_width};
use crate::report_data::ReportData;
use ariadne_base::{Cache, Span};
use ariadne_picture::label_info::LabelInfo;
use ariadne_picture::switches::Switches;
use std::alloc::AllocError;

/// How many columns stand in front of the source texts of a picture of accepted labels, whose sources
/// the cache holds: the most that one of its groups has there, or 0 without a group.
///
/// On `Err` there was no memory to sort the labels.
pub fn margin_columns<S: Span, C: Cache<S::SourceId>>(
    report: &ReportData<'_, S>,
    cache: &C,
    infos: Vec<LabelInfo>,
) -> Result<usize, AllocError>
    requires drawn { let w = world S.source_of S.start_of S.end_of S.SourceId.eq
        (C.names cache.now) (C.contents cache.now) in AreDrawn w report.now infos.items }
    ensures { let w = world S.source_of S.start_of S.end_of S.SourceId.eq
        (C.names cache.now) (C.contents cache.now) in
        IfOk result (λ columns. columns ≡ margin_columns w report.now infos.items) }
{
    let sorted = in_order(report.alloc, infos)?;
    let groups = cut_groups(report, &sorted)?;
    Ok(most_before_text(report, cache, &groups))
}

/// The most columns that one of these groups has in front of its source text, or 0 without a group.
fn most_before_text<S: Span, C: Cache<S::SourceId>>(
    report: &ReportData<'_, S>,
    cache: &C,
    groups: &[&[LabelInfo]],
) -> usize
    requires groups { let w = world S.source_of S.start_of S.end_of S.SourceId.eq
        (C.names cache.now) (C.contents cache.now) in
        AreGroups w report.now (map (λ g. g.now) groups.now) }
    ensures { let w = world S.source_of S.start_of S.end_of S.SourceId.eq
        (C.names cache.now) (C.contents cache.now) in
        result ≡ most_before_text w report.now (map (λ g. g.now) groups.now) }
{
    let digits = number_width(report, cache, groups);
    let switches = report.config().switches();
    let mut most = 0;
    for group in groups {
        most = most.max(columns_before_text(&switches, digits, group));
    }
    most
}

/// How many columns a group has in front of its source text, where line numbers take `digits` columns.
fn columns_before_text(switches: &Switches, digits: usize, group: &[LabelInfo]) -> usize
    requires digits { digits ≤ 20 }
    ensures { result ≡ columns_before_text digits (gutter_sheet switches.now group.now) }
{
    margin_len(switches, digits) + gutter_columns(switches, group)
}

/// How many columns a margin has, where line numbers take `digits` columns.
fn margin_len(switches: &Switches, digits: usize) -> usize
    requires digits { digits ≤ 20 }
    ensures len { result ≡ margin_len switches.now digits }
    ensures few { result ≤ 24 }
{
    digits + if switches.compact { 3 } else { 4 }
}

/// How many columns the gutter of a group takes.
fn gutter_columns(switches: &Switches, group: &[LabelInfo]) -> usize
    ensures columns { let s = gutter_sheet switches.now group.now in
        result ≡ gutter_len s * column_size s.switches }
    ensures few { result ≤ 2 * length group.now + 2 }
{
    let columns = gutter_len(group);
    if switches.compact {
        columns
    } else {
        2 * columns
    }
}

/// How many gutter columns a group has: one for each of its gutter labels, and one for arrow heads.
fn gutter_len(group: &[LabelInfo]) -> usize
    ensures columns { let number = length (gutter_labels group.now) in
        result ≡ (if number == 0 then 0 else number + 1) }
    ensures few { result ≤ length group.now + 1 }
{
    match number_of_gutter_labels(group) {
        0 => 0,
        number => number + 1,
    }
}

/// How many labels of a group own a gutter column: those over several lines that have a message.
fn number_of_gutter_labels(group: &[LabelInfo]) -> usize
    ensures number { result ≡ length (gutter_labels group.now) }
    ensures within { result ≤ length group.now }
{
    let mut number = 0;
    for info in group {
        if owns_gutter_column(info) {
            number += 1;
        }
    }
    number
}

/// Whether a label owns a gutter column.
#[tactic(auto, unfolding(ariadne_picture::specs::Ranks::is_on_one_line))]
fn owns_gutter_column(info: &LabelInfo) -> bool
    ensures { result ≡ (not (is_on_one_line info.now) && info.now.has_message) }
{
    info.start_line != info.end_line && info.has_message
}
