//! Where results of SARIF are: the files of artifact locations, and the spans of regions.

ghost use Rattle.std.specs.Prelude.{◌≡◌, ◌++◌, map, option_map, string_bytes, IfOk, OnOk};
ghost use Rattle.serde_json.specs.View.{items_view, view};
ghost use Rattle.ariadne_parse.specs.Spans.{seen};
ghost use Rattle.ariadne_sarif.specs.Fixing.{edit_of_piece};
ghost use Rattle.ariadne_sarif.specs.SarifSpans as spans;

use crate::fixing::{Piece, TellsChange};
use crate::parts::{location, words_within};
use crate::sarif_messages::message_in;
use crate::uri::{joined, path_of};
use ariadne_parse::json::{has_words, number, text, words};
use ariadne_parse::{End, Location, Span, Unit, span};
use serde_json::Value;
use std::alloc::{AllocError, Global};

/// How many bases are followed.
const BASES: u8 = 8;

/// What the columns of a run count: units of UTF-16, where it names no characters.
pub(crate) fn unit_of(run: &Value) -> Unit
    ensures { result ≡ spans.unit_of (view run.now) }
{
    if has_words(run, "columnKind", "unicodeCodePoints") {
        Unit::Char
    } else {
        Unit::Utf16
    }
}

/// The path of the file that an artifact location names, by itself or by its number.
pub(crate) fn file_path(
    alloc: Global,
    run: &Value,
    location_value: &Value,
) -> Result<String, AllocError>
    ensures { IfOk result (λ path.
        string_bytes path ≡ spans.file_path (view run.now) (view location_value.now)) }
{
    located_path(alloc, run, named_location_value(run, location_value))
}

/// The location that has the URI: this one, or that of the artifact with its number.
fn named_location_value<'v>(run: &'v Value, location_value: &'v Value) -> &'v Value
    ensures { view result.now ≡ spans.named_location_value (view run.now) (view location_value.now) }
{
    if text(location_value, "uri").is_some() {
        location_value
    } else {
        artifact_of(run, location_value).unwrap_or(location_value)
    }
}

/// The location of the artifact with the number that a location has.
fn artifact_of<'v>(run: &'v Value, location_value: &Value) -> Option<&'v Value>
    ensures { option_map (λ v. view v.now) result ≡ spans.artifact_of (view run.now) (view location_value.now) }
{
    let number = number(location_value, "index")?;
    run.get("artifacts")?.get(number)?.get("location")
}

/// The path that the URI of a location names, behind its bases.
fn located_path(alloc: Global, run: &Value, location_value: &Value) -> Result<String, AllocError>
    ensures { IfOk result (λ path.
        string_bytes path ≡ spans.located_path (view run.now) (view location_value.now)) }
{
    let uri = based(alloc, run, location_value)?;
    path_of(alloc, uri.as_str())
}

/// The URI of a location behind the bases that it names.
fn based(alloc: Global, run: &Value, location_value: &Value) -> Result<String, AllocError>
    ensures { IfOk result (λ uri. string_bytes uri ≡ spans.based_uri (view run.now) (view location_value.now)) }
{
    let mut uri = String::from_str(alloc, words(location_value, "uri"))?;
    let mut at = location_value;
    for turn in 0..BASES {
        let Some(base) = base_of(run, at) else {
            return Ok(uri);
        };
        uri = joined(alloc, words(base, "uri"), uri.as_str())?;
        at = base;
    }
    Ok(uri)
}

/// The base that a location names, if its run has it.
fn base_of<'v>(run: &'v Value, location_value: &Value) -> Option<&'v Value>
    ensures { option_map (λ v. view v.now) result ≡ spans.base_of (view run.now) (view location_value.now) }
{
    let name = text(location_value, "uriBaseId")?;
    run.get("originalUriBaseIds")?.get(name)
}

/// The region of a location.
fn region_of(location_value: &Value) -> Option<&Value>
    ensures { option_map (λ v. view v.now) result ≡ spans.region_of (view location_value.now) }
{
    location_value.get("physicalLocation")?.get("region")
}

/// The location of a location's artifact.
fn artifact_location_value(location_value: &Value) -> Option<&Value>
    ensures { option_map (λ v. view v.now) result ≡ spans.artifact_location_value (view location_value.now) }
{
    location_value
        .get("physicalLocation")?
        .get("artifactLocation")
}

/// The path of a location's file; an empty one where it names none.
fn path_at(alloc: Global, run: &Value, location_value: &Value) -> Result<String, AllocError>
    ensures { IfOk result (λ path. string_bytes path ≡ spans.path_at (view run.now) (view location_value.now)) }
{
    match artifact_location_value(location_value) {
        Some(artifact) => file_path(alloc, run, artifact),
        None => Ok(String::new(alloc)),
    }
}

/// Where a region begins, if it names a line.
fn region_start(region: &Value) -> Option<Location>
    ensures { result ≡ spans.region_start (view region.now) }
{
    location(region, "startLine", "startColumn")
}

/// The line where a region ends that begins in this one.
fn last_line(region: &Value, first: usize) -> usize
    ensures { result ≡ spans.last_line (view region.now) first }
{
    number(region, "endLine").unwrap_or(first)
}

/// Where a region ends that begins here: in front of this, or at the end of its line, where it names no column.
fn region_end(region: &Value, start: Location) -> Location
    ensures { result ≡ spans.region_end (view region.now) start }
{
    Location {
        line: last_line(region, start.line),
        column: number(region, "endColumn"),
    }
}

/// The span of a location, if its region begins somewhere. It says the location's message.
pub(crate) fn span_at(
    alloc: Global,
    run: &Value,
    location_value: &Value,
    is_primary: bool,
) -> Result<Option<Span>, AllocError>
    ensures { IfOk result (λ it. option_map seen it
        ≡ spans.span_at (view run.now) is_primary (view location_value.now)) }
{
    let Some(region) = region_of(location_value) else {
        return Ok(None);
    };
    let Some(start) = region_start(region) else {
        return Ok(None);
    };
    let file = path_at(alloc, run, location_value)?;
    let end = End::Before(region_end(region, start));
    let mut span = span(alloc, file.as_str(), start, end, unit_of(run))?;
    span.text = message_in(alloc, location_value, "message")?;
    span.is_primary = is_primary;
    Ok(Some(span))
}

/// Adds the spans of locations.
pub(crate) fn push_spans(
    alloc: Global,
    all: &mut Vec<Span>,
    run: &Value,
    location_values: &[Value],
    is_primary: bool,
) -> Result<(), AllocError>
    ensures { OnOk result (map seen all.new.items ≡ map seen all.old.items
        ++ spans.spans_at (view run.now) is_primary (items_view location_values.now)) }
{
    for location_value in location_values {
        if let Some(span) = span_at(alloc, run, location_value, is_primary)? {
            all.push(span)?;
        }
    }
    Ok(())
}

/// Adds a row for each location that has no span.
pub(crate) fn push_rows(
    alloc: Global,
    rows: &mut Vec<String>,
    run: &Value,
    location_values: &[Value],
) -> Result<(), AllocError>
    ensures { OnOk result (map string_bytes rows.new.items ≡ map string_bytes rows.old.items
        ++ spans.rows_at (view run.now) (items_view location_values.now)) }
{
    for location_value in location_values {
        if let Some(row) = row_at(alloc, run, location_value)? {
            rows.push(row)?;
        }
    }
    Ok(())
}

/// The row of a location that has no span, if it names a file or says something.
fn row_at(alloc: Global, run: &Value, location_value: &Value) -> Result<Option<String>, AllocError>
    ensures { IfOk result (λ row. option_map string_bytes row
        ≡ spans.row_at (view run.now) (view location_value.now)) }
{
    if has_span(location_value) {
        return Ok(None);
    }
    let file = path_at(alloc, run, location_value)?;
    let said = message_in(alloc, location_value, "message")?;
    let row = file_text(alloc, file.as_str(), said.as_str())?;
    if row.is_empty() {
        return Ok(None);
    }
    Ok(Some(row))
}

/// Whether a location has a span.
fn has_span(location_value: &Value) -> bool
    ensures { result ≡ spans.has_span (view location_value.now) }
{
    match region_of(location_value) {
        Some(region) => region_start(region).is_some(),
        None => false,
    }
}

/// A file, and what is said of it.
fn file_text(alloc: Global, file: &str, said: &str) -> Result<String, AllocError>
    ensures { IfOk result (λ text. string_bytes text ≡ spans.file_words file.now said.now) }
{
    if file.is_empty() {
        return String::from_str(alloc, said);
    }
    if said.is_empty() {
        return String::from_str(alloc, file);
    }
    let mut text = String::from_str(alloc, file)?;
    text.push_str(": ")?;
    text.push_str(said)?;
    Ok(text)
}

/// The replacements of an artifact.
pub(crate) struct Replacement;

impl TellsChange for Replacement {
    ghost edit = { λ d. spans.replacement_edit d };

    fn piece(value: &Value) -> Option<Piece<'_>> {
        replacement_change(value)
    }
}

/// The change of a replacement, if it says from where to where.
fn replacement_change(value: &Value) -> Option<Piece<'_>>
    ensures { option_map edit_of_piece result ≡ spans.replacement_edit (view value.now) }
{
    let region = value.get("deletedRegion")?;
    let start = region_start(region)?;
    Some(Piece {
        start,
        end: sure_end(region, start)?,
        put_in: words_within(value, "insertedContent", "text"),
    })
}

/// Where a region ends that begins here, if it names the column.
fn sure_end(region: &Value, start: Location) -> Option<Location>
    ensures { result ≡ spans.sure_end (view region.now) start }
{
    let column = number(region, "endColumn")?;
    Some(Location {
        line: last_line(region, start.line),
        column: Some(column),
    })
}
