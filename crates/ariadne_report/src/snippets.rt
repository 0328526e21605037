//! A report's groups as snippets: the last to know what a span, a cache or a report is.

ghost use Rattle.std.specs.Prelude.{◌≡◌, ◌<◌, IfOk, Some, if◌then◌else◌, map};
ghost use Rattle.ariadne_picture.specs.Canvas.{section_of, texts_of};
ghost use Rattle.ariadne_layout.specs.Snippets.{IsSnippet};
ghost use Rattle.ariadne_report.specs.CacheReads.{world};
ghost use Rattle.ariadne_report.specs.DrawnGroups.{IsGroup};
ghost use Rattle.ariadne_report.specs.HeaderPlaces.{IsOwnOffset};

use crate::accept::offset_in_chars;
use crate::report_data::ReportData;
use ariadne_base::{Cache, Span};
use ariadne_layout::snippet::Snippet;
use ariadne_picture::label_info::LabelInfo;
use ariadne_picture::texts::Texts;
use smallvec::SmallVec;
use std::alloc::AllocError;

/// How many messages take no memory.
const FEW: usize = 4;

/// The messages of a report's labels, by position. A few take no memory; on `Err` there was none for more.
pub fn messages<'a, S: Span>(
    report: &'a ReportData<'_, S>,
) -> Result<SmallVec<&'a str, FEW>, AllocError>
    ensures { IfOk result
        (λ messages. map (λ m. m.now) messages.items ≡ (texts_of report.now).messages) }
{
    if report.labels.len() <= FEW {
        return few_messages(report);
    }
    let messages = many_messages(report)?;
    Ok(SmallVec::from_vec(messages))
}

/// The messages in place, as long as they are a few.
fn few_messages<'a, S: Span>(
    report: &'a ReportData<'_, S>,
) -> Result<SmallVec<&'a str, FEW>, AllocError>
    ensures { IfOk result
        (λ messages. map (λ m. m.now) messages.items ≡ (texts_of report.now).messages) }
{
    let mut messages = SmallVec::with_capacity(report.alloc, report.labels.len())?;
    for label in &report.labels {
        messages.push_reserved(label.message().unwrap_or(""));
    }
    Ok(messages)
}

/// The messages in a list, to which one is added in fewer steps.
fn many_messages<'a, S: Span>(report: &'a ReportData<'_, S>) -> Result<Vec<&'a str>, AllocError>
    ensures { IfOk result
        (λ messages. map (λ m. m.now) messages.items ≡ (texts_of report.now).messages) }
{
    let mut messages = Vec::with_capacity(report.alloc, report.labels.len())?;
    for label in &report.labels {
        messages.push_reserved(label.message().unwrap_or(""));
    }
    Ok(messages)
}

/// The texts of a report, whose labels have these messages.
pub fn texts<'a, S: Span>(report: &'a ReportData<'_, S>, messages: &'a [&'a str]) -> Texts<'a>
    requires messages { map (λ m. m.now) messages.now ≡ (texts_of report.now).messages }
    ensures { result ≡ texts_of report.now }
{
    Texts {
        switches: report.config().switches(),
        multiline_arrows: report.config().has_multiline_arrows(),
        code: report.code(),
        kind: report.kind.name(),
        message: report.message(),
        helps: report.helps(),
        notes: report.notes(),
        messages,
    }
}

/// The offset in characters where the report's own span starts, or `None` where its source isn't held
/// or has no such place.
pub fn own_offset<S: Span, C: Cache<S::SourceId>>(
    report: &ReportData<'_, S>,
    cache: &C,
) -> Option<usize>
    ensures { let w = world S.source_of S.start_of S.end_of S.SourceId.eq
        (C.names cache.now) (C.contents cache.now) in IsOwnOffset w report.now result }
{
    let source = C::get(cache, report.span().source())?;
    let offset = offset_in_chars(report.config().index_type(), source, report.span().start())?;
    if offset <= source.len() {
        Some(offset)
    } else {
        None
    }
}

/// The group of an index, of `number` groups, as it is drawn with these texts of the report. `own` is
/// where the report's own span starts.
pub fn resolve<'a, S: Span, C: Cache<S::SourceId>>(
    texts: &'a Texts<'a>,
    report: &'a ReportData<'_, S>,
    cache: &'a C,
    own: Option<usize>,
    group: &'a [LabelInfo],
    index: usize,
    number: usize,
) -> Snippet<'a, C::Storage>
    requires texts { texts.now ≡ texts_of report.now }
    requires own { let w = world S.source_of S.start_of S.end_of S.SourceId.eq
        (C.names cache.now) (C.contents cache.now) in IsOwnOffset w report.now own }
    requires group { let w = world S.source_of S.start_of S.end_of S.SourceId.eq
        (C.names cache.now) (C.contents cache.now) in IsGroup w report.now group.now }
    requires index { index < number }
    ensures made { let w = world S.source_of S.start_of S.end_of S.SourceId.eq
        (C.names cache.now) (C.contents cache.now) in let r = report.now in
        result ≡ record { texts = texts_of r; section = section_of w r number (index, group.now) } }
    ensures is { IsSnippet result }
{
    let first = group[0];
    let id = report.labels()[first.position].span().source();
    let source = C::get(cache, id).unwrap();
    let name = C::display(cache, id).unwrap_or("<unknown>");
    let offset = header_offset(report, id, own, &first);
    Snippet::new(
        texts,
        source,
        name,
        group,
        offset,
        index == 0,
        index + 1 == number,
    )
}

/// The offset that the header of a group names, over the source of this id: where the report's own
/// span starts, if that is over it, or else where the first label of the group does.
fn header_offset<S: Span>(
    report: &ReportData<'_, S>,
    id: &S::SourceId,
    own: Option<usize>,
    first: &LabelInfo,
) -> Option<usize>
    ensures { result ≡ (if S.SourceId.eq id.now (S.source_of report.now.span) then own
        else Some first.now.start) }
{
    if *id == *report.span().source() {
        own
    } else {
        Some(first.start)
    }
}
