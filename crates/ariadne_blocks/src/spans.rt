//! Spans that marks and notes tell.

ghost use Rattle.std.specs.Prelude.{◌≡◌, ◌++◌, map, option_map, string_bytes, IfOk, OnOk};
ghost use Rattle.ariadne_parse.specs.Spans.{seen};
ghost use Rattle.ariadne_blocks.specs.Files.{file_of};
ghost use Rattle.ariadne_blocks.specs.MarkMeanings as marks;
ghost use Rattle.ariadne_blocks.specs.Notes.{are_lines_of as lines_of_span, as_beside};
ghost use Rattle.ariadne_blocks.specs.Notes.{is_line_of as line_of_span};
ghost use Rattle.ariadne_blocks.specs.Notes.{is_over_lines as goes_over_lines, note_spans};

use crate::file::{QuotedFile, column_in};
use crate::repeats::is_same_end;
use ariadne_parse::{End, Location, Look, Span, Unit};
use ariadne_snippets::{Mark, Point};
use std::alloc::AllocError;

/// A point as a location, whose column counts characters from 1.
fn location_of(point: Point) -> Location
    ensures { result ≡ marks.location_of point }
{
    Location {
        line: point.line,
        column: Some(point.offset.saturating_add(1)),
    }
}

/// Whether a span names no column, in the line that another begins in.
pub(crate) fn is_line_of(own: &Span, span: &Span) -> bool
    ensures { result ≡ line_of_span (seen own.now) (seen span.now) }
{
    span.start.column.is_none() && own.start.line == span.start.line
}

/// Whether a span goes over several lines, and another is all of them.
pub(crate) fn are_lines_of(own: &Span, span: &Span) -> bool
    ensures { result ≡ lines_of_span (seen own.now) (seen span.now) }
{
    is_over_lines(own) && own.start == span.start && is_same_end(own.end, span.end)
}

/// Whether a span goes over several lines, by its head.
fn is_over_lines(span: &Span) -> bool
    ensures { result ≡ goes_over_lines (seen span.now) }
{
    match span.end {
        End::Before(location) | End::Behind(location) => location.line != span.start.line,
        End::OfWord => false,
    }
}

/// What a mark covers.
pub(crate) fn range_of(mark: &Mark<'_>) -> (Location, Location)
    ensures { result ≡ marks.range_of mark.now }
{
    (location_of(mark.start), location_of(mark.end))
}

/// Whether a mark is the range of a span, which has none yet.
pub(crate) fn is_range_of(span: &Span, mark: &Mark<'_>) -> bool
    ensures { result ≡ marks.is_range_of mark.now (seen span.now) }
{
    mark.caret.is_some() && span.marks.is_none() && span.start.line == mark.start.line
}

/// Where a tool points at a span whose range a mark is: at its `^`, where the head names a location alone, in a
/// column that may count something else than its unit does, as those of gcc.
pub(crate) fn caret_of(file: Option<QuotedFile<'_>>, span: &Span, mark: &Mark<'_>) -> Location
    ensures { result
        ≡ marks.caret_at (option_map file_of file.entry) (seen span.now) mark.now.caret }
{
    match mark.caret {
        Some(at) if span.end == End::OfWord && span.unit != Unit::Char => Location {
            line: at.line,
            column: Some(column_in(file, span.unit, at)),
        },
        _ => span.caret,
    }
}

/// The marks of a span whose range a mark is: none, where the head says behind which character it ends. That
/// is surer.
pub(crate) fn own_marks(span: &Span, mark: &Mark<'_>) -> Option<(Location, Location)>
    ensures { result ≡ marks.own_marks mark.now (seen span.now) }
{
    match span.end {
        End::Behind(_) => None,
        End::Before(_) | End::OfWord => Some(range_of(mark)),
    }
}

/// A span beside, of what a mark covers.
pub(crate) fn marked_span(file: String, mark: &Mark<'_>, text: String) -> Span
    ensures { seen result
        ≡ record (marks.marked_span (string_bytes file) mark.now) { text = string_bytes text } }
{
    let (start, end) = range_of(mark);
    Span {
        file,
        caret: start,
        start,
        end: End::Before(end),
        unit: Unit::Char,
        is_past_mark: false,
        text,
        is_primary: false,
        look: Look::default(),
        marks: Some((start, end)),
    }
}

/// A span of one character, of which this is said.
pub(crate) fn inner_span(file: String, point: Point, text: String) -> Span
    ensures { seen result ≡ marks.inner_span (string_bytes file) (string_bytes text) point }
{
    let end = Point {
        line: point.line,
        offset: point.offset.saturating_add(1),
    };
    let mark = Mark {
        start: point,
        end,
        caret: None,
        goes_on: false,
        text: "",
    };
    marked_span(file, &mark, text)
}

/// Has the range of the span with a number begin at a point, if there is one. The diagnostic's own span stays
/// where its head names it.
pub(crate) fn begin_at(spans: &mut [Span], number: usize, is_own: bool, start: Point)
    ensures { map seen spans.new ≡ marks.begun_in is_own start number (map seen spans.old) }
{
    if number < spans.len() {
        begin_span(&mut spans[number], is_own, start);
    }
}

/// Has the range of a span begin at a point.
fn begin_span(span: &mut Span, is_own: bool, start: Point)
    ensures { seen span.new ≡ marks.begun_span is_own start (seen span.old) }
{
    let start = location_of(start);
    span.marks = match span.marks {
        Some((_, end)) => Some((start, end)),
        None => None,
    };
    if !is_own {
        span.start = start;
        span.caret = start;
    }
}

/// A span with the range of another, of which this is said.
fn span_beside(span: &Span, text: String) -> Result<Span, AllocError>
    ensures { IfOk result (λ it. seen it ≡ marks.beside (string_bytes text) (seen span.now)) }
{
    Ok(Span {
        file: span.file.clone()?,
        caret: span.caret,
        start: span.start,
        end: span.end,
        unit: span.unit,
        is_past_mark: span.is_past_mark,
        text,
        is_primary: false,
        look: Look::default(),
        marks: span.marks,
    })
}

/// Has a text, if it is not empty, be said of a span; where something is said of that, of another with its
/// range.
pub(crate) fn say_at(spans: &mut Vec<Span>, number: usize, text: String) -> Result<(), AllocError>
    ensures { OnOk result (map seen spans.new.items
        ≡ marks.said_at (string_bytes text) number (map seen spans.old.items)) }
{
    if text.is_empty() || number >= spans.len() {
        return Ok(());
    }
    if spans[number].text.is_empty() {
        spans[number].text = text;
        return Ok(());
    }
    let beside = span_beside(&spans[number], text)?;
    spans.push(beside)?;
    Ok(())
}

/// Adds the spans of a note, the first with what it says. None is what a diagnostic is about.
pub(crate) fn push_note(
    spans: &mut Vec<Span>,
    message: String,
    mut of_note: Vec<Span>,
) -> Result<(), AllocError>
    ensures { OnOk result (map seen spans.new.items ≡ map seen spans.old.items
        ++ note_spans (string_bytes message) (map seen of_note.items)) }
{
    make_note(of_note.as_mut_slice(), message);
    spans.append(&mut of_note)
}

/// Makes spans those of a note: the first says what the note says.
fn make_note(spans: &mut [Span], message: String)
    ensures { map seen spans.new ≡ note_spans (string_bytes message) (map seen spans.old) }
{
    make_beside(spans);
    if !spans.is_empty() {
        spans[0].text = message;
    }
}

/// Has no span be what a diagnostic is about.
fn make_beside(spans: &mut [Span])
    ensures { map seen spans.new ≡ map as_beside (map seen spans.old) }
{
    for span in spans.iter_mut() {
        span.is_primary = false;
    }
}
