//! The diagnostic of a line of text, and its spans.

ghost use Rattle.std.specs.Prelude.{◌≡◌, ◌++◌, ◌∷◌, map, option_map, string_bytes, IfOk, OnOk};
ghost use Rattle.std.specs.Prelude.{None};
ghost use Rattle.ariadne_parse.specs.Spans.{counted_span as span_counted, is_same_location as is_of_same_location, named, seen, span_of};
ghost use Rattle.ariadne_parse.specs.ParsedDiagnostics.{is_own_range};
ghost use Rattle.ariadne_parse.specs.ParsedDiagnostics.{other_spans, own_range_of, own_span_of};
ghost use Rattle.ariadne_parse.specs.ParsedDiagnostics.{IsBegun, IsOfHead};
ghost use Rattle.ariadne_parse.specs.ParsedLines.{head_parsed};

use crate::counting::Counting;
use crate::diagnostic::{Diagnostic, End, Location, Look, OwnKind, Severity, Span};
use crate::lines::ParsedLine;
use crate::locations::{RANGES, is_among, range};
use crate::unit::Unit;
use std::alloc::{AllocError, Global};

/// The diagnostic of a line whose columns count so.
pub(crate) fn parsed_by_line(
    alloc: Global,
    it: &ParsedLine<'_>,
    counting: Counting,
) -> Result<Diagnostic, AllocError>
    ensures { IfOk result (λ parsed. IsOfHead counting (head_parsed it.now) parsed) }
{
    let kind = &it.kind;
    let mut parsed = begun(alloc, kind.severity, kind.name, kind.code, it.message)?;
    push_spans(alloc, &mut parsed.spans, it, counting).and(Ok(parsed))
}

/// A diagnostic of this severity, name, code and message, which has nothing else yet.
pub(crate) fn begun(
    alloc: Global,
    severity: Severity,
    name: Option<&str>,
    code: Option<&str>,
    message: &str,
) -> Result<Diagnostic, AllocError>
    ensures { IfOk result (IsBegun severity (option_map (λ name. name.now) name.entry)
        (option_map (λ code. code.now) code.entry) message.now) }
{
    let own_kind = own_kind(alloc, name)?;
    let code = copied(alloc, code)?;
    let message = String::from_str(alloc, message)?;
    Ok(Diagnostic::begun(alloc, severity, own_kind, code, message))
}

/// Adds the spans of a line: its own, and behind it those of its other ranges.
fn push_spans(
    alloc: Global,
    spans: &mut Vec<Span>,
    it: &ParsedLine<'_>,
    counting: Counting,
) -> Result<(), AllocError>
    ensures { let head = head_parsed it.now in OnOk result (map seen spans.new.items
        ≡ map seen spans.old.items ++ own_span_of head counting ∷ other_spans head counting) }
{
    spans.push(own_span(alloc, it, counting)?)?;
    push_ranges(alloc, spans, it, counting)
}

/// A kind of this name, in the colour of its severity, if there is a name.
fn own_kind(alloc: Global, name: Option<&str>) -> Result<Option<OwnKind>, AllocError>
    ensures { IfOk result (λ kind. option_map named kind ≡ option_map (λ name. (name.now, None)) name.entry) }
{
    match copied(alloc, name)? {
        Some(name) => Ok(Some(OwnKind { name, color: None })),
        None => Ok(None),
    }
}

/// A copy of a text, if there is one.
fn copied(alloc: Global, text: Option<&str>) -> Result<Option<String>, AllocError>
    ensures { IfOk result (λ copy. option_map string_bytes copy ≡ option_map (λ text. text.now)
        text.entry) }
{
    match text {
        Some(text) => Ok(Some(String::from_str(alloc, text)?)),
        None => Ok(None),
    }
}

/// The span that a line points at: the range that has it, up to the end that the line names, or the
/// word there.
fn own_span(alloc: Global, it: &ParsedLine<'_>, counting: Counting) -> Result<Span, AllocError>
    ensures { IfOk result (λ span. seen span ≡ own_span_of (head_parsed it.now) counting) }
{
    let (start, end) = match (own_range(it), it.end) {
        (Some((start, end)), _) => (start, End::Before(end)),
        (None, Some(end)) => (it.start, End::Behind(end)),
        (None, None) => (it.start, End::OfWord),
    };
    let mut span = counted_span(alloc, it.file, start, end, counting)?;
    span.caret = counting.location(it.start);
    span.is_primary = true;
    Ok(span)
}

/// A span of a file, of which nothing is said, between locations whose columns count so.
fn counted_span(
    alloc: Global,
    file: &str,
    start: Location,
    end: End,
    counting: Counting,
) -> Result<Span, AllocError>
    ensures { IfOk result (λ span. seen span ≡ span_counted file.now start end counting) }
{
    span(
        alloc,
        file,
        counting.location(start),
        counting.end(end),
        counting.unit,
    )
}

/// Adds the ranges of a line that are not its own span.
fn push_ranges(
    alloc: Global,
    spans: &mut Vec<Span>,
    it: &ParsedLine<'_>,
    counting: Counting,
) -> Result<(), AllocError>
    ensures { OnOk result (map seen spans.new.items
        ≡ map seen spans.old.items ++ other_spans (head_parsed it.now) counting) }
{
    let own = own_range(it);
    let mut rest = it.ranges;
    for turn in 0..RANGES {
        let Some((start, end, behind)) = range(rest) else {
            break;
        };
        if !is_own(own, start, end) {
            let span = counted_span(alloc, it.file, start, End::Before(end), counting)?;
            spans.push(span)?;
        }
        rest = behind;
    }
    Ok(())
}

/// Whether a range is a line's own.
fn is_own(own: Option<(Location, Location)>, start: Location, end: Location) -> bool
    ensures { result ≡ is_own_range own (start, end) }
{
    match own {
        Some((own_start, own_end)) => is_same(own_start, start) && is_same(own_end, end),
        None => false,
    }
}

/// Whether two locations are the same.
pub(crate) fn is_same(a: Location, b: Location) -> bool
    ensures { result ≡ is_of_same_location a b }
{
    a.line == b.line && a.column.unwrap_or(0) == b.column.unwrap_or(0)
}

/// A span of a file, of which nothing is said.
pub fn span(
    alloc: Global,
    file: &str,
    start: Location,
    end: End,
    unit: Unit,
) -> Result<Span, AllocError>
    ensures { IfOk result (λ span. seen span ≡ span_of file.now start end unit) }
{
    Ok(Span {
        file: String::from_str(alloc, file)?,
        caret: start,
        start,
        end,
        unit,
        is_past_mark: false,
        text: String::new(alloc),
        is_primary: false,
        look: Look::default(),
        marks: None,
    })
}

/// The first range that has the line's own span in it.
fn own_range(it: &ParsedLine<'_>) -> Option<(Location, Location)>
    ensures { result ≡ own_range_of (head_parsed it.now) }
{
    let mut rest = it.ranges;
    for turn in 0..RANGES {
        let (start, end, behind) = range(rest)?;
        if is_among(it.start, start, end) {
            return Some((start, end));
        }
        rest = behind;
    }
    None
}
