//! The groups of a picture: where the labels in order are cut.

ghost use Rattle.std.specs.Prelude.{◌≡◌, ◌<◌, ◌≤◌, ℕ, List, ◌∷◌, IfOk, Option, drop, length};
ghost use Rattle.std.specs.Prelude.{map, slice_range};
ghost use Rattle.ariadne_base.specs.Listing.{Listing};
ghost use Rattle.ariadne_picture.specs.Canvas.{group_source, number_width, same_source, sheet_of};
ghost use Rattle.ariadne_picture.specs.Groups.{groups_of, is_cut, printed_number, ordered};
ghost use Rattle.ariadne_picture.specs.Ranks.{last_line};
ghost use Rattle.ariadne_report.specs.CacheReads.{AreThere, world};
ghost use Rattle.ariadne_report.specs.DrawnGroups.{AreGroups, IsGroup};

use crate::report_data::ReportData;
use ariadne_base::{Cache, Span};
use ariadne_layout::digits::decimal_len;
use ariadne_layout::order::{ByOrder, put_in_order};
use ariadne_layout::snippet::{last_line, number_of_lines};
use ariadne_picture::label_info::LabelInfo;
use smallvec::SmallVec;
use std::alloc::{AllocError, Global};

/// The labels in the order in which they are drawn.
pub fn in_order(alloc: Global, infos: Vec<LabelInfo>) -> Result<Vec<LabelInfo>, AllocError>
    ensures { IfOk result (λ sorted. sorted.items ≡ ordered infos.items) }
{
    let mut infos = infos;
    put_in_order(alloc, &ByOrder, &mut infos)?;
    Ok(infos)
}

/// The groups of labels in order, from top to bottom. One group takes no memory; on `Err` there was
/// none for several.
pub fn cut_groups<'a, S: Span>(
    report: &ReportData<'_, S>,
    infos: &'a [LabelInfo],
) -> Result<SmallVec<&'a [LabelInfo], 1>, AllocError>
    requires there { AreThere report.now infos.now }
    ensures { (names : S.SourceId → Option (List ℕ))
        (contents : List (S.SourceId × Listing)) →
        let same = same_source (world S.source_of S.start_of S.end_of S.SourceId.eq names contents)
        report.now in
        IfOk result (λ groups. map (λ g. g.now) groups.items ≡ groups_of same infos.now) }
{
    let mut groups = SmallVec::new(report.alloc);
    let mut start = 0;
    while start < infos.len() {
        let end = group_end(report, infos, start);
        groups.push(&infos[start..end])?;
        start = end;
    }
    Ok(groups)
}

/// The end of the group that begins at `start`: where the next cut stands.
fn group_end<S: Span>(report: &ReportData<'_, S>, infos: &[LabelInfo], start: usize) -> usize
    requires there { AreThere report.now infos.now }
    requires start { start < length infos.now }
    ensures after { start < result }
    ensures within { result ≤ length infos.now }
    ensures groups { (names : S.SourceId → Option (List ℕ))
        (contents : List (S.SourceId × Listing)) →
        let same = same_source (world S.source_of S.start_of S.end_of S.SourceId.eq names contents)
        report.now in
        groups_of same (drop start infos.now)
        ≡ slice_range infos.now start result ∷ groups_of same (drop result infos.now) }
{
    let mut end = start + 1;
    while end < infos.len() && !is_cut(report, &infos[end - 1], &infos[end]) {
        end += 1;
    }
    end
}

/// Whether two labels are over one source: their spans name it by equal ids.
pub fn are_over_one_source<S: Span>(
    report: &ReportData<'_, S>,
    a: &LabelInfo,
    b: &LabelInfo,
) -> bool
    requires first { a.now.position < length report.now.labels }
    requires second { b.now.position < length report.now.labels }
    ensures { (names : S.SourceId → Option (List ℕ)) (contents : List (S.SourceId × Listing)) →
        result ≡ same_source
        (world S.source_of S.start_of S.end_of S.SourceId.eq names contents) report.now
        a.now.position b.now.position }
{
    let labels = report.labels();
    let first = labels[a.position].span().source();
    let second = labels[b.position].span().source();
    *first == *second
}

/// Whether a cut stands between two neighbours: their sources differ, or the second ends on an
/// earlier line.
fn is_cut<S: Span>(report: &ReportData<'_, S>, a: &LabelInfo, b: &LabelInfo) -> bool
    requires first { a.now.position < length report.now.labels }
    requires second { b.now.position < length report.now.labels }
    ensures { (names : S.SourceId → Option (List ℕ)) (contents : List (S.SourceId × Listing)) →
        result ≡ is_cut (same_source
        (world S.source_of S.start_of S.end_of S.SourceId.eq names contents) report.now)
        a.now b.now }
{
    !are_over_one_source(report, a, b) || b.end_line < a.end_line
}

/// How many columns the greatest line number of all groups takes.
pub fn number_width<S: Span, C: Cache<S::SourceId>>(
    report: &ReportData<'_, S>,
    cache: &C,
    groups: &[&[LabelInfo]],
) -> usize
    requires groups { let w = world S.source_of S.start_of S.end_of S.SourceId.eq
        (C.names cache.now) (C.contents cache.now) in
        AreGroups w report.now (map (λ g. g.now) groups.now) }
    ensures width { let w = world S.source_of S.start_of S.end_of S.SourceId.eq
        (C.names cache.now) (C.contents cache.now) in
        result ≡ number_width w report.now (map (λ g. g.now) groups.now) }
    ensures few { result ≤ 20 }
{
    let mut width = 0;
    for group in groups {
        width = width.max(decimal_len(last_number(report, cache, group)));
    }
    width
}

/// The number of the last line of a group that is shown or stands between such, as it is printed.
fn last_number<S: Span, C: Cache<S::SourceId>>(
    report: &ReportData<'_, S>,
    cache: &C,
    group: &[LabelInfo],
) -> usize
    requires group { let w = world S.source_of S.start_of S.end_of S.SourceId.eq
        (C.names cache.now) (C.contents cache.now) in IsGroup w report.now group.now }
    ensures { let w = world S.source_of S.start_of S.end_of S.SourceId.eq
        (C.names cache.now) (C.contents cache.now) in
        result ≡ printed_number (group_source w report.now group.now).display_offset
        (last_line (sheet_of w report.now group.now)) }
{
    let first = group[0];
    let id = report.labels()[first.position].span().source();
    let source = C::get(cache, id).unwrap();
    let context = report.config().switches().context_lines;
    let last = last_line(group, context, number_of_lines(source));
    last + 1 + source.display_line_offset()
}
