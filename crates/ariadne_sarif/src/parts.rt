//! Parts of documents that several forms have: members of members, locations, and diagnostics of a file.

ghost use Rattle.std.specs.Prelude.{◌≡◌, ◌++◌, map, option_map, string_bytes, IfOk, None, OnOk, Some};
ghost use Rattle.serde_json.specs.View.{items_view, view};
ghost use Rattle.serde_json.specs.Find.{as_array};
ghost use Rattle.ariadne_parse.specs.Members.{end_before, items_in, location_at};
ghost use Rattle.ariadne_parse.specs.Spans.{seen};
ghost use Rattle.ariadne_parse.specs.Read.{read};
ghost use Rattle.ariadne_sarif.specs.DocumentParts as parts;

use ariadne_parse::json::{items, number, text, words};
use ariadne_parse::{Diagnostic, End, Location, Severity, Span, Unit, span};
use serde_json::Value;
use std::alloc::{AllocError, Global};

/// A text in a member.
pub fn text_within<'v>(value: &'v Value, outer: &str, inner: &str) -> Option<&'v str>
    ensures { option_map (λ t. t.now) result ≡ parts.text_within outer.now inner.now (view value.now) }
{
    text(value.get(outer)?, inner)
}

/// A text in a member; an empty one where there is none.
pub fn words_within<'v>(value: &'v Value, outer: &str, inner: &str) -> &'v str
    ensures { result.now ≡ parts.words_within outer.now inner.now (view value.now) }
{
    text_within(value, outer, inner).unwrap_or("")
}

/// A number in a member.
pub fn number_within(value: &Value, outer: &str, inner: &str) -> Option<usize>
    ensures { result ≡ parts.number_within outer.now inner.now (view value.now) }
{
    number(value.get(outer)?, inner)
}

/// The items of a list in a member.
pub fn items_within<'v>(value: &'v Value, outer: &str, inner: &str) -> &'v [Value]
    ensures { items_view result.now ≡ parts.items_within outer.now inner.now (view value.now) }
{
    match value.get(outer) {
        Some(member) => items(member, inner),
        None => &[],
    }
}

/// A location whose line and column are members.
pub fn location(value: &Value, line: &str, column: &str) -> Option<Location>
    ensures { result ≡ location_at line.now column.now (view value.now) }
{
    Some(Location {
        line: number(value, line)?,
        column: number(value, column),
    })
}

/// A location in a member.
pub fn location_in(value: &Value, name: &str, line: &str, column: &str) -> Option<Location>
    ensures { result ≡ parts.location_in name.now line.now column.now (view value.now) }
{
    location(value.get(name)?, line, column)
}

/// A position of LSP.
fn position(value: &Value) -> Option<Location>
    ensures { result ≡ parts.position_of (view value.now) }
{
    let line = number(value, "line")?;
    Some(Location {
        line: line.saturating_add(1),
        column: from_one(number(value, "character")),
    })
}

/// The number from 1 of what has this one from 0.
fn from_one(number: Option<usize>) -> Option<usize>
    ensures { result ≡ option_map parts.from_one number }
{
    match number {
        Some(number) => Some(number.saturating_add(1)),
        None => None,
    }
}

/// The start or the end of a range of LSP.
pub fn range_location(value: &Value, name: &str) -> Option<Location>
    ensures { result ≡ parts.range_location name.now (view value.now) }
{
    position(value.get("range")?.get(name)?)
}

/// Where a span ends that names this end, or none.
pub fn end_of(end: Option<Location>) -> End
    ensures { result ≡ end_before end }
{
    match end {
        Some(end) => End::Before(end),
        None => End::OfWord,
    }
}

/// The span of a file that a diagnostic is about, if it begins somewhere.
pub fn own_span(
    alloc: Global,
    file: &str,
    unit: Unit,
    start: Option<Location>,
    end: Option<Location>,
) -> Result<Option<Span>, AllocError>
    ensures { IfOk result (λ it. option_map seen it ≡ parts.own_span_from file.now unit start end) }
{
    let Some(start) = start else {
        return Ok(None);
    };
    let mut span = span(alloc, file, start, end_of(end), unit)?;
    span.is_primary = true;
    Ok(Some(span))
}

/// A diagnostic about a file: with its span, or, where that isn't known, with a note that names the file.
pub fn filed(
    alloc: Global,
    severity: Severity,
    message: &str,
    file: &str,
    span: Option<Span>,
) -> Result<Diagnostic, AllocError>
    ensures { IfOk result (λ parsed. read parsed
        ≡ parts.filed severity message.now file.now (option_map seen span)) }
{
    let mut parsed = Diagnostic::new(alloc, severity, message)?;
    match span {
        Some(span) => parsed.spans.push(span)?,
        None => push_file(alloc, &mut parsed.notes, file)?,
    }
    Ok(parsed)
}

/// Adds a file, if it has a name.
fn push_file(alloc: Global, notes: &mut Vec<String>, file: &str) -> Result<(), AllocError>
    ensures { OnOk result (map string_bytes notes.new.items
        ≡ map string_bytes notes.old.items ++ parts.unplaced file.now None) }
{
    if file.is_empty() {
        return Ok(());
    }
    notes.push(String::from_str(alloc, file)?)?;
    Ok(())
}

/// The items of a value that is a list; none where it is no list.
pub fn listed(value: &Value) -> &[Value]
    ensures { items_view result.now ≡ items_in (as_array (view value.now)) }
{
    match value.as_array() {
        Some(items) => items.as_slice(),
        None => &[],
    }
}
