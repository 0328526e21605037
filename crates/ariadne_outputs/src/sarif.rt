//! Diagnostics as one document of SARIF 2.1.0, of which each part is written as soon as it is known: the
//! head, the results with a comma between them, and the tail.

ghost use Rattle.std.specs.Prelude.{◌≡◌, ◌<◌, ◌++◌, ℕ, IfOk, OnOk, not, option_map};
ghost use Rattle.std.specs.Prelude.{string_bytes};
ghost use Rattle.std.specs.Option.{option_copied};
ghost use Rattle.percent_encoding.specs.AsciiSet.{contains};
ghost use Rattle.serde_json.specs.Data.{array};
ghost use Rattle.serde_json.specs.View.{items_of, members_view, view};
ghost use Rattle.serde_json.specs.Written.{compact_text};
ghost use Rattle.ariadne_outputs.specs.Located.{located_span_of, located_spans_of};
ghost use Rattle.ariadne_outputs.specs.Sarif.{driver_of, file_data, is_in_uri, sarif_location_members};
ghost use Rattle.ariadne_outputs.specs.Sarif.{message_data, own_data, region_of, related_data, related_datas};
ghost use Rattle.ariadne_outputs.specs.Sarif.{result_of, scheme_of, text_data, uri_of};
ghost use Rattle.ariadne_outputs.specs.Sarif.{with_end, with_message, with_region, with_rule};
ghost use Rattle.ariadne_outputs.specs.Sarif.{with_location};

use crate::located::{Located, other_spans, severity_word};
use crate::whole::whole_text;
use ariadne_parse::{Diagnostic, Location};
use ariadne_safe::{TextKind, visible};
use percent_encoding::{AsciiSet, NON_ALPHANUMERIC, utf8_percent_encode};
use serde_json::{Map, Value, put};
use std::alloc::{AllocError, Global};

/// What stands between two results.
pub const SARIF_COMMA: &str = ",\n";

/// What stands behind the last result.
pub const SARIF_TAIL: &str = "\n]}]}\n";

/// The start of a document, up to the program that writes it.
pub const FRONT: &str =
    "{\"$schema\":\"https://json.schemastore.org/sarif-2.1.0.json\",\"version\":\"2.1.0\",\
    \"runs\":[{\"tool\":{\"driver\":";

/// What stands between the program and the first result: that columns count characters.
pub const BEHIND: &str = "},\"columnKind\":\"unicodeCodePoints\",\"results\":[\n";

/// What stands in front of the first result, with the program's version.
pub fn sarif_head(alloc: Global, version: &str) -> Result<String, AllocError>
    ensures { IfOk result (λ text.
        string_bytes text ≡ FRONT.now ++ compact_text (driver_of version.now) ++ BEHIND.now) }
{
    let driver = driver(alloc, version)?.to_string(alloc)?;
    let mut text = String::from_str(alloc, FRONT)?;
    text.push_str(driver.as_str())?;
    text.push_str(BEHIND)?;
    Ok(text)
}

/// The program, with its version.
fn driver(alloc: Global, version: &str) -> Result<Value, AllocError>
    ensures { IfOk result (λ value. view value ≡ driver_of version.now) }
{
    let mut members = Map::new(alloc);
    put(
        &mut members,
        alloc,
        "name",
        Value::try_from_str(alloc, "ariadne-show")?,
    )?;
    put(
        &mut members,
        alloc,
        "version",
        Value::try_from_str(alloc, version)?,
    )?;
    Ok(Value::Object(members))
}

/// A result of SARIF in one line of JSON, without what ends it.
///
/// Columns count characters. The message has the notes and helps of the diagnostic as lines; its other
/// spans are related locations. Hidden characters stand as signs. On `Err` there was no memory.
pub fn sarif_result(
    alloc: Global,
    parsed: &Diagnostic,
    spans: &[Located<'_>],
) -> Result<String, AllocError>
    ensures { IfOk result (λ text.
        string_bytes text ≡ compact_text (result_of parsed.now (located_spans_of spans.now))) }
{
    result_value(alloc, parsed, spans)?.to_string(alloc)
}

/// The result of a diagnostic.
fn result_value(
    alloc: Global,
    parsed: &Diagnostic,
    spans: &[Located<'_>],
) -> Result<Value, AllocError>
    ensures { IfOk result (λ value. view value ≡ result_of parsed.now (located_spans_of spans.now)) }
{
    let main = spans.first();
    let word = Value::try_from_str(alloc, severity_word(parsed.severity))?;
    let message = whole_text(alloc, parsed, main)?;
    let mut members = Map::new(alloc);
    put(&mut members, alloc, "level", word)?;
    put(
        &mut members,
        alloc,
        "locations",
        own_sarif_locations(alloc, main)?,
    )?;
    put(
        &mut members,
        alloc,
        "message",
        message_value(alloc, message.as_str())?,
    )?;
    put(
        &mut members,
        alloc,
        "relatedLocations",
        related_sarif_locations(alloc, other_spans(spans))?,
    )?;
    put_rule(alloc, &mut members, parsed.code.as_ref())?;
    Ok(Value::from(members))
}

/// Puts a code into a result, if there is one.
fn put_rule(
    alloc: Global,
    members: &mut Map<String, Value>,
    code: Option<&String>,
) -> Result<(), AllocError>
    ensures { OnOk result (members_view members.new.entries
        ≡ with_rule (option_copied code.entry) (members_view members.old.entries)) }
{
    match code {
        Some(code) => put(members, alloc, "ruleId", text_value(alloc, code.as_str())?),
        None => Ok(()),
    }
}

/// A text with signs, as a value.
fn text_value(alloc: Global, text: &str) -> Result<Value, AllocError>
    ensures { IfOk result (λ value. view value ≡ text_data text.now) }
{
    Ok(Value::String(visible(alloc, text, TextKind::Aside)?))
}

/// A message: an object with its text.
fn message_value(alloc: Global, text: &str) -> Result<Value, AllocError>
    ensures { IfOk result (λ value. view value ≡ message_data text.now) }
{
    let mut members = Map::new(alloc);
    put(&mut members, alloc, "text", text_value(alloc, text)?)?;
    Ok(Value::Object(members))
}

/// The list of a diagnostic's own location, if it has one.
fn own_sarif_locations(alloc: Global, main: Option<&Located<'_>>) -> Result<Value, AllocError>
    ensures { IfOk result (λ value. view value
        ≡ array (items_of (own_data (option_map located_span_of (option_copied main.entry))))) }
{
    let mut all = Vec::new(alloc);
    if let Some(main) = main {
        all.push(Value::Object(sarif_location(alloc, main)?))?;
    }
    Ok(Value::Array(all))
}

/// The list of other locations, which have numbers from 1, and messages where they say something.
fn related_sarif_locations(alloc: Global, spans: &[Located<'_>]) -> Result<Value, AllocError>
    ensures { IfOk result (λ value. view value
        ≡ array (items_of (related_datas 1 (located_spans_of spans.now)))) }
{
    let mut all = Vec::new(alloc);
    for (index, it) in spans.iter().enumerate() {
        all.push(related_sarif_location(alloc, index + 1, it)?)?;
    }
    Ok(Value::from(all))
}

/// A location with a number, and with a message where it says something.
fn related_sarif_location(alloc: Global, id: usize, it: &Located<'_>) -> Result<Value, AllocError>
    ensures { IfOk result (λ value. view value ≡ related_data id (located_span_of it.now)) }
{
    let mut members = sarif_location(alloc, it)?;
    put(&mut members, alloc, "id", Value::from(id))?;
    put_message(alloc, &mut members, it.span.text.as_str())?;
    Ok(Value::Object(members))
}

/// Puts a message into a location, if it says something.
fn put_message(
    alloc: Global,
    members: &mut Map<String, Value>,
    text: &str,
) -> Result<(), AllocError>
    ensures { OnOk result (members_view members.new.entries
        ≡ with_message text.now (members_view members.old.entries)) }
{
    if text.is_empty() {
        return Ok(());
    }
    put(members, alloc, "message", message_value(alloc, text)?)
}

/// The members of a location: its file, and its region where its line counts from 1.
fn sarif_location(alloc: Global, it: &Located<'_>) -> Result<Map<String, Value>, AllocError>
    ensures { IfOk result (λ members.
        members_view members.entries ≡ sarif_location_members (located_span_of it.now)) }
{
    let mut physical = Map::new(alloc);
    let file = file_value(alloc, it.span.file.as_str())?;
    put(&mut physical, alloc, "artifactLocation", file)?;
    put_region(alloc, &mut physical, it)?;
    let mut members = Map::new(alloc);
    put(
        &mut members,
        alloc,
        "physicalLocation",
        Value::Object(physical),
    )?;
    Ok(members)
}

/// Puts a region into a location, where its line counts from 1.
fn put_region(
    alloc: Global,
    members: &mut Map<String, Value>,
    it: &Located<'_>,
) -> Result<(), AllocError>
    ensures { OnOk result (members_view members.new.entries
        ≡ with_region (located_span_of it.now) (members_view members.old.entries)) }
{
    if it.start.line == 0 {
        return Ok(());
    }
    put(members, alloc, "region", region(alloc, it)?)
}

/// A file: an object with its URI.
fn file_value(alloc: Global, path: &str) -> Result<Value, AllocError>
    ensures { IfOk result (λ value. view value ≡ file_data path.now) }
{
    let mut members = Map::new(alloc);
    put(
        &mut members,
        alloc,
        "uri",
        Value::String(uri_text(alloc, path)?),
    )?;
    Ok(Value::Object(members))
}

/// The region of a span.
fn region(alloc: Global, it: &Located<'_>) -> Result<Value, AllocError>
    ensures { IfOk result (λ value. view value ≡ region_of (located_span_of it.now)) }
{
    let mut members = Map::new(alloc);
    put_location(alloc, &mut members, it.start, "startLine", "startColumn")?;
    put_end(alloc, &mut members, it.end)?;
    Ok(Value::Object(members))
}

/// Puts an end into a region, if it is known.
fn put_end(
    alloc: Global,
    members: &mut Map<String, Value>,
    end: Option<Location>,
) -> Result<(), AllocError>
    ensures { OnOk result (members_view members.new.entries
        ≡ with_end end (members_view members.old.entries)) }
{
    match end {
        Some(end) => put_location(alloc, members, end, "endLine", "endColumn"),
        None => Ok(()),
    }
}

/// Puts a line into a region, and its column where there is one.
fn put_location(
    alloc: Global,
    members: &mut Map<String, Value>,
    location: Location,
    line_name: &str,
    column_name: &str,
) -> Result<(), AllocError>
    ensures { OnOk result (members_view members.new.entries
        ≡ with_location line_name.now column_name.now location (members_view members.old.entries)) }
{
    put(members, alloc, line_name, Value::from(location.line))?;
    match location.column {
        Some(column) if column > 0 => put(members, alloc, column_name, Value::from(column)),
        _ => Ok(()),
    }
}

/// The URI of a file: a path from the root is a `file:` URI, and another one is relative.
fn uri_text(alloc: Global, path: &str) -> Result<String, AllocError>
    ensures { IfOk result (λ uri. string_bytes uri ≡ uri_of path.now) }
{
    let mut uri = String::from_str(alloc, scheme(path))?;
    utf8_percent_encode(path, escaped()).append_to(&mut uri)?;
    Ok(uri)
}

/// What stands in front of a path in its URI.
fn scheme(path: &str) -> &'static str
    ensures { result.now ≡ scheme_of path.now }
{
    match path.as_bytes() {
        [b'/', ..] => "file://",
        _ => "",
    }
}

/// The characters of ASCII that are escaped in a URI: all but letters, digits, `-`, `.`, `_`, `~`, and
/// the slashes of a path.
fn escaped() -> AsciiSet
    ensures { (b : ℕ) → b < 128 → contains result b ≡ not (is_in_uri b) }
{
    NON_ALPHANUMERIC
        .remove(b'-')
        .remove(b'.')
        .remove(b'/')
        .remove(b'_')
        .remove(b'~')
}
