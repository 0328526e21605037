//! Which labels of a report are drawn, and why the other labels are skipped.

ghost use Rattle.std.specs.Prelude.{◌≡◌, ◌≤◌, ◌<◌, ◌+◌, ◌++◌, ◌∷◌, [], ℕ, List, Option, Some, IfOk, OnOk};
ghost use Rattle.std.specs.Prelude.{chars, length, take};
ghost use Rattle.ariadne_base.specs.Cache.{Grows};
ghost use Rattle.ariadne_base.specs.Listing.{Listing, listed_lines};
ghost use Rattle.ariadne_base.specs.Locations.{column_at, line_at};
ghost use Rattle.ariadne_base.specs.Table.{line_extent};
ghost use Rattle.ariadne_picture.specs.Accept.{attach_offset as attached_offset};
ghost use Rattle.ariadne_picture.specs.Accept.{info_of, offset_in_chars as in_chars};
ghost use Rattle.ariadne_picture.specs.Accept.{text_len as counted_len, verdict};
ghost use Rattle.ariadne_picture.specs.Report.{AreForward};
ghost use Rattle.ariadne_report.specs.Counting.{IsKnown};
ghost use Rattle.ariadne_report.specs.CacheReads.{world};
ghost use Rattle.ariadne_report.specs.Judging.{AreOutcomes, GrowsFor, Outcome, drawn_labels};
ghost use Rattle.ariadne_report.specs.Judging.{listed};
ghost use Rattle.ariadne_report.specs.Progress.{IsSourceAt, SoFar};

use crate::config::{Config, IndexType, LabelAttach};
use crate::counting::{Known, char_offset};
use crate::label::Label;
use crate::report_data::ReportData;
use ariadne_base::{Cache, FetchError, Line, Source, SourceText, Span};
use ariadne_picture::label_info::LabelInfo;
use ariadne_picture::verdict::Verdict;
use std::alloc::AllocError;

/// Why a label is skipped.
#[derive(Debug, Drop)]
pub enum Reason<E> {
    /// The cache returned this error for the source.
    Unfetched(E),
    /// The label starts past the end of the source, or ends more than one past the end.
    PastSource,
    /// The start or the end is inside a character.
    CutsCharacter,
}

/// A skipped label.
#[derive(Debug, Drop)]
pub struct LeftOut<E> {
    /// The position among the report's labels, from 0.
    pub label: usize,
    /// Why the label is skipped.
    pub reason: Reason<E>,
}

/// The labels of a report: accepted and skipped.
#[derive(Drop)]
pub struct Acceptance<E> {
    pub infos: Vec<LabelInfo>,
    pub left_out: Vec<LeftOut<E>>,
}

impl<E: Drop> Acceptance<E> {
    /// Skips the label at a position. On `Err` memory ran out.
    fn leave_out(&mut self, label: usize, reason: Reason<E>) -> Result<(), AllocError>
        ensures infos { OnOk result (self.new.infos ≡ self.old.infos) }
        ensures left_out { OnOk result (self.new.left_out.items
            ≡ self.old.left_out.items ++ record { label = label; reason = reason } ∷ []) }
    {
        self.left_out.push(LeftOut { label, reason })?;
        Ok(())
    }
}

/// Fetches the source of each label of a report, in order, and judges the label over the source.
///
/// On `Err` memory ran out, in the cache or for the labels.
pub fn accept<S: Span, C: Cache<S::SourceId>>(
    report: &ReportData<'_, S>,
    cache: &mut C,
) -> Result<Acceptance<C::Error>, AllocError>
    requires { C.can_fetch cache.old }
    ensures again { C.can_fetch cache.new }
    ensures naming { (q : S.SourceId) → C.names cache.new q ≡ C.names cache.old q }
    ensures grows { GrowsFor S.source_of S.SourceId.eq report.now.labels
        (C.contents cache.old) (C.contents cache.new) }
    ensures forward { let w = world S.source_of S.start_of S.end_of S.SourceId.eq
        (C.names cache.new) (C.contents cache.new) in
        IfOk result (λ judged. AreForward w report.now) }
    ensures judged { let old = world S.source_of S.start_of S.end_of S.SourceId.eq
        (C.names cache.old) (C.contents cache.old) in
        let w = world S.source_of S.start_of S.end_of S.SourceId.eq
        (C.names cache.new) (C.contents cache.new) in
        let r = report.now in
        IfOk result (λ judged. (outcomes : List (Outcome C.Error))
        × AreOutcomes C.fails old w r.config r.labels outcomes
        × (judged.left_out.items ≡ listed 0 outcomes)
        × (judged.infos.items ≡ drawn_labels outcomes)) }
{
    let infos = Vec::with_capacity(report.alloc, report.labels.len())?;
    let left_out = Vec::new(report.alloc);
    let mut judged = Acceptance { infos, left_out };
    let mut position = 0;
    while position < report.labels.len() {
        position = judge_fetched(report, cache, &mut judged, position)?;
    }
    Ok(judged)
}

/// Fetches the source of the label at `first`, and judges the label and the next labels with an
/// equal id. Returns the position after the last judged label. If the cache returns an error, only
/// the label at `first` is skipped.
///
/// On `Err` memory ran out, in the cache or for the labels.
fn judge_fetched<S: Span, C: Cache<S::SourceId>>(
    report: &ReportData<'_, S>,
    cache: &mut C,
    judged: &mut Acceptance<C::Error>,
    first: usize,
) -> Result<usize, AllocError>
    requires can { C.can_fetch cache.old }
    requires first { first < length report.now.labels }
    ensures again { C.can_fetch cache.new }
    ensures naming { (q : S.SourceId) → C.names cache.new q ≡ C.names cache.old q }
    ensures grows { GrowsFor S.source_of S.SourceId.eq report.now.labels
        (C.contents cache.old) (C.contents cache.new) }
    ensures after { IfOk result (λ end. first < end) }
    ensures within { IfOk result (λ end. end ≤ length report.now.labels) }
    ensures judged { (names : S.SourceId → Option (List ℕ))
        (contents : List (S.SourceId × Listing)) →
        Grows S.SourceId.eq contents (C.contents cache.old) →
        let start = world S.source_of S.start_of S.end_of S.SourceId.eq names contents in
        let old = world S.source_of S.start_of S.end_of S.SourceId.eq
        (C.names cache.old) (C.contents cache.old) in
        let w = world S.source_of S.start_of S.end_of S.SourceId.eq
        (C.names cache.new) (C.contents cache.new) in
        let r = report.now in
        SoFar C.fails r.config start old (take first r.labels)
        judged.old.left_out.items judged.old.infos.items →
        IfOk result (λ end. SoFar C.fails r.config start w (take end r.labels)
        judged.new.left_out.items judged.new.infos.items) }
{
    let id = report.labels[first].span().source();
    match C::ensure(cache, id) {
        Ok(()) => {}
        Err(FetchError::Memory(error)) => return Err(error),
        Err(FetchError::Failed(error)) => {
            judged.leave_out(first, Reason::Unfetched(error))?;
            return Ok(first + 1);
        }
    }
    let Some(source) = C::get(cache, id) else {
        unreachable!();
    };
    judge_alike::<S, C>(report, source, judged, first)
}

/// Judges the label at `first` and the next labels with an equal id over their held source. Returns
/// the position after the last judged label. Characters are counted on from label to label.
///
/// On `Err` memory for the labels ran out.
fn judge_alike<S: Span, C: Cache<S::SourceId>>(
    report: &ReportData<'_, S>,
    source: &Source<C::Storage>,
    judged: &mut Acceptance<C::Error>,
    first: usize,
) -> Result<usize, AllocError>
    requires first { first < length report.now.labels }
    ensures after { IfOk result (λ end. first < end) }
    ensures within { IfOk result (λ end. end ≤ length report.now.labels) }
    ensures judged { (start_names names : S.SourceId → Option (List ℕ))
        (start_contents contents : List (S.SourceId × Listing)) →
        let start = world S.source_of S.start_of S.end_of S.SourceId.eq
        start_names start_contents in
        let w = world S.source_of S.start_of S.end_of S.SourceId.eq names contents in
        let r = report.now in
        Grows S.SourceId.eq start_contents contents →
        IsSourceAt w r.labels first source.now →
        SoFar C.fails r.config start w (take first r.labels)
        judged.old.left_out.items judged.old.infos.items →
        IfOk result (λ end. SoFar C.fails r.config start w (take end r.labels)
        judged.new.left_out.items judged.new.infos.items) }
{
    let id = report.labels[first].span().source();
    let size = text_len(report.config.index_type(), source);
    let mut known = Known::START;
    let mut position = first;
    loop {
        judge_held::<S, C>(report, source, size, &mut known, judged, position)?;
        position += 1;
        if position == report.labels.len() || *report.labels[position].span().source() != *id {
            return Ok(position);
        }
    }
}

/// Judges the label at `position` of a report over its held source.
///
/// `size` is the length of the source in the unit of offsets. `known` is a place of the source,
/// before and after. On `Err` memory for the label ran out.
fn judge_held<S: Span, C: Cache<S::SourceId>>(
    report: &ReportData<'_, S>,
    source: &Source<C::Storage>,
    size: usize,
    known: &mut Known,
    judged: &mut Acceptance<C::Error>,
    position: usize,
) -> Result<(), AllocError>
    requires position { position < length report.now.labels }
    requires size { size ≡ counted_len report.now.config.index_type (chars source.now.text) }
    requires known { IsKnown source.now.text known.old }
    ensures known { IsKnown source.now.text known.new }
    ensures judged { (start_names names : S.SourceId → Option (List ℕ))
        (start_contents contents : List (S.SourceId × Listing)) →
        let start = world S.source_of S.start_of S.end_of S.SourceId.eq
        start_names start_contents in
        let w = world S.source_of S.start_of S.end_of S.SourceId.eq names contents in
        let r = report.now in
        Grows S.SourceId.eq start_contents contents →
        IsSourceAt w r.labels position source.now →
        SoFar C.fails r.config start w (take position r.labels)
        judged.old.left_out.items judged.old.infos.items →
        OnOk result (SoFar C.fails r.config start w (take (position + 1) r.labels)
        judged.new.left_out.items judged.new.infos.items) }
{
    match judge(
        report.config,
        source,
        size,
        known,
        position,
        &report.labels[position],
    ) {
        Verdict::Accepted(info) => judged.infos.push(info)?,
        Verdict::PastSource => judged.leave_out(position, Reason::PastSource)?,
        Verdict::CutsCharacter => judged.leave_out(position, Reason::CutsCharacter)?,
    }
    Ok(())
}

/// Judges the label at `position` of a report over its held source of this size.
///
/// An offset one past the end of the source counts as the end, since a parser at the end of its
/// input points there. Characters are counted on from `known`, afterwards the end of the label.
fn judge<S: Span, I: SourceText>(
    config: Config,
    source: &Source<I>,
    size: usize,
    known: &mut Known,
    position: usize,
    label: &Label<S>,
) -> Verdict
    requires size { size ≡ counted_len config.index_type (chars source.now.text) }
    requires known { IsKnown source.now.text known.old }
    ensures known { IsKnown source.now.text known.new }
    ensures forward { S.start_of label.now.span ≤ S.end_of label.now.span }
    ensures verdict { result ≡ verdict config source.now position label.now
        (S.start_of label.now.span) (S.end_of label.now.span) }
{
    let index_type = config.index_type();
    let start = label.span().start();
    let end = label.span().end();
    if start > size || end.saturating_sub(size) > 1 {
        return Verdict::PastSource;
    }
    let Some(start) = counted_in_chars(index_type, source, known, start) else {
        return Verdict::CutsCharacter;
    };
    let Some(end) = counted_in_chars(index_type, source, known, end.min(size)) else {
        return Verdict::CutsCharacter;
    };
    let attach = config.label_attach();
    Verdict::Accepted(label_info(attach, source, position, label, start, end))
}

/// The length of a source in the unit of offsets.
fn text_len<I: SourceText>(index_type: IndexType, source: &Source<I>) -> usize
    ensures { result ≡ counted_len index_type (chars source.now.text) }
{
    match index_type {
        IndexType::Byte => source.text().len(),
        IndexType::Char => source.len(),
    }
}

/// An offset in characters, or `None` inside a character or past the source.
pub fn offset_in_chars<I: SourceText>(
    index_type: IndexType,
    source: &Source<I>,
    offset: usize,
) -> Option<usize>
    ensures { result ≡ in_chars index_type (chars source.now.text) offset }
{
    let mut known = Known::START;
    counted_in_chars(index_type, source, &mut known, offset)
}

/// An offset in characters, equal to `offset_in_chars`, counted on from a known place of the
/// source.
fn counted_in_chars<I: SourceText>(
    index_type: IndexType,
    source: &Source<I>,
    known: &mut Known,
    offset: usize,
) -> Option<usize>
    requires { IsKnown source.now.text known.old }
    ensures known { IsKnown source.now.text known.new }
    ensures offset { result ≡ in_chars index_type (chars source.now.text) offset }
{
    match index_type {
        IndexType::Byte => char_offset(source, known, offset),
        IndexType::Char => Some(offset),
    }
}

/// A label within the characters of its source.
fn label_info<S: Span, I: SourceText>(
    attach: LabelAttach,
    source: &Source<I>,
    position: usize,
    label: &Label<S>,
    start: usize,
    end: usize,
) -> LabelInfo
    requires forward { start ≤ end }
    requires ends_within { end ≤ length (chars source.now.text) }
    ensures { result ≡ info_of attach (listed_lines source.now) position label.now start end }
{
    let last = end.saturating_sub(1).max(start);
    let (line, start_line, start_place) = source.get_offset_line(start).unwrap();
    let (end_line, end_place) = later_location(source, line, start_line, last);
    let attached = attach_offset(attach, start, end);
    LabelInfo {
        position,
        start,
        end,
        start_line,
        start_place,
        end_line,
        end_place,
        attach: attached.saturating_sub(line.offset()),
        order: label.order(),
        priority: label.priority(),
        has_message: label.message().is_some(),
    }
}

/// The number of the line of an offset, and the offset's place in the line. The offset is in `line`
/// or later. In `line`, with the number `number`, nothing is searched.
fn later_location<I: SourceText>(
    source: &Source<I>,
    line: Line,
    number: usize,
    offset: usize,
) -> (usize, usize)
    requires number { number < length (listed_lines source.now) }
    requires line { line ≡ line_extent (listed_lines source.now) number }
    requires behind { line.offset ≤ offset }
    requires within { offset ≤ length (chars source.now.text) }
    ensures line { result.0 ≡ line_at length (listed_lines source.now) offset }
    ensures place { result.1 ≡ column_at length (listed_lines source.now) offset }
{
    let place = offset - line.offset();
    if place < line.len() {
        return (number, place);
    }
    let (_, number, place) = source.get_offset_line(offset).unwrap();
    (number, place)
}

/// The offset of the arrow.
#[tactic(auto, using(crate::proofs::Accepting::halfway), unfolding(ariadne_picture::specs::Accept::attach_offset))]
fn attach_offset(attach: LabelAttach, start: usize, end: usize) -> usize
    requires forward { start ≤ end }
    ensures { result ≡ attached_offset attach start end }
{
    match attach {
        LabelAttach::Start => start,
        LabelAttach::Middle => start + (end - start) / 2,
        LabelAttach::End => end.saturating_sub(1).max(start),
    }
}
