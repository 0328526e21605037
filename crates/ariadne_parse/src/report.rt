//! The program's own form: a report in one line of JSON.

ghost use Rattle.std.specs.Prelude.{◌≡◌, ◌++◌, codes, map, option_map, string_bytes, IfOk, OnOk};
ghost use Rattle.std.specs.List.{list_all, list_any};
ghost use Rattle.serde_json.specs.View.{items_view, view};
ghost use Rattle.ariadne_parse.specs.Members.{all_items};
ghost use Rattle.ariadne_parse.specs.Spans.{named, seen};
ghost use Rattle.ariadne_parse.specs.Reports.{has_primary as has_primary_label, is_primary as is_primary_label};
ghost use Rattle.ariadne_parse.specs.Reports.{label_location, label_span as span_of_label};
ghost use Rattle.ariadne_parse.specs.Reports.{look_at, report_kind, report_spans, report_unit, spans_in, texts_at, texts_in, whole_at};
ghost use Rattle.ariadne_parse.specs.Reports.{IsBegunByReport, IsOfReport};
ghost use Rattle.ariadne_parse.specs.ParsedDiagnostics.{is_label as is_of_label, is_report as is_of_report};

use crate::colors::color;
use crate::diagnostic::{Diagnostic, End, Location, Look, OwnKind, Severity, Span};
use crate::heads::span;
use crate::json::{copied_text, has_list, is_true, items, severity, text, usize_of, words};
use crate::unit::Unit;
use serde_json::Value;
use std::alloc::{AllocError, Global};

/// Whether a value is a report: an object with a known kind, a message, and labels of which each has a
/// file and a start.
pub(crate) fn is_report(value: &Value) -> bool
    ensures { result ≡ is_of_report (view value.now) }
{
    text(value, "kind").and_then(Severity::of).is_some()
        && text(value, "message").is_some()
        && has_list(value, "labels")
        && are_labels(items(value, "labels"))
}

/// Whether values are labels.
fn are_labels(values: &[Value]) -> bool
    ensures { result ≡ all_items is_of_label (items_view values.now) }
{
    each_is_label(values)
}

/// Whether each of these values is a label.
fn each_is_label(values: &[Value]) -> bool
    ensures { result ≡ list_all (λ v. is_of_label (view v)) values.now }
{
    values.iter().all(|value| is_label(value))
}

/// Whether a value is a label.
fn is_label(value: &Value) -> bool
    ensures { result ≡ is_of_label (view value.now) }
{
    text(value, "file").is_some() && location(value, "start").is_some()
}

/// A member that is a list of a line and a column, or of a line alone.
fn location(value: &Value, name: &str) -> Option<Location>
    ensures { result ≡ label_location name.now (view value.now) }
{
    let numbers = items(value, name);
    Some(Location {
        line: usize_of(numbers.first()?)?,
        column: numbers.get(1).and_then(usize_of),
    })
}

/// What the report says that its columns count: characters, where it says nothing.
fn unit_of(value: &Value) -> Unit
    ensures { result ≡ report_unit (view value.now) }
{
    match text(value, "columns") {
        Some("bytes") => Unit::Byte,
        Some("utf16") => Unit::Utf16,
        Some("display") => Unit::Display,
        _ => Unit::Char,
    }
}

/// The diagnostic of a value that is a report.
pub(crate) fn parsed_by_report(alloc: Global, value: &Value) -> Result<Diagnostic, AllocError>
    ensures { IfOk result (λ parsed. IsOfReport (view value.now) parsed) }
{
    let mut parsed = begun(alloc, value)?;
    push_parts(alloc, &mut parsed, value).and(Ok(parsed))
}

/// Its kind, code and message alone.
fn begun(alloc: Global, value: &Value) -> Result<Diagnostic, AllocError>
    ensures { IfOk result (IsBegunByReport (view value.now)) }
{
    let severity = severity(value, "kind");
    let own_kind = own_kind(alloc, value)?;
    let code = copied_text(alloc, value, "code")?;
    let message = String::from_str(alloc, words(value, "message"))?;
    Ok(Diagnostic::begun(alloc, severity, own_kind, code, message))
}

/// Adds its labels as spans, its notes and its helps.
fn push_parts(alloc: Global, parsed: &mut Diagnostic, value: &Value) -> Result<(), AllocError>
    ensures spans { OnOk result (map seen parsed.new.spans.items
        ≡ map seen parsed.old.spans.items ++ report_spans (view value.now)) }
    ensures notes { OnOk result (map string_bytes parsed.new.notes.items
        ≡ map string_bytes parsed.old.notes.items ++ texts_at (codes "notes") (view value.now)) }
    ensures helps { OnOk result (map string_bytes parsed.new.helps.items
        ≡ map string_bytes parsed.old.helps.items ++ texts_at (codes "helps") (view value.now)) }
    ensures others { OnOk result (parsed.new ≡ record parsed.old
        { spans = parsed.new.spans; notes = parsed.new.notes; helps = parsed.new.helps }) }
{
    push_labels(
        alloc,
        &mut parsed.spans,
        items(value, "labels"),
        unit_of(value),
    )?;
    push_texts(alloc, &mut parsed.notes, items(value, "notes"))?;
    push_texts(alloc, &mut parsed.helps, items(value, "helps"))
}

/// The kind of its own that a report has, if it has one.
fn own_kind(alloc: Global, value: &Value) -> Result<Option<OwnKind>, AllocError>
    ensures { IfOk result (λ kind. option_map named kind ≡ report_kind (view value.now)) }
{
    match copied_text(alloc, value, "name")? {
        Some(name) => Ok(Some(OwnKind {
            name,
            color: color(value, "name_color"),
        })),
        None => Ok(None),
    }
}

/// Adds the spans of labels. Where none is primary, the first one is.
fn push_labels(
    alloc: Global,
    spans: &mut Vec<Span>,
    labels: &[Value],
    unit: Unit,
) -> Result<(), AllocError>
    ensures { OnOk result (map seen spans.new.items
        ≡ map seen spans.old.items ++ spans_in unit (items_view labels.now)) }
{
    let mut is_needed = !has_primary(labels);
    for label in labels {
        let is_primary = is_true(label, "primary") || is_needed;
        is_needed = false;
        if let Some(span) = label_span(alloc, label, unit, is_primary)? {
            spans.push(span)?;
        }
    }
    Ok(())
}

/// Whether one of these labels is primary.
fn has_primary(labels: &[Value]) -> bool
    ensures { result ≡ has_primary_label (items_view labels.now) }
{
    any_is_primary(labels)
}

/// Whether any of these values is a label that is primary.
fn any_is_primary(labels: &[Value]) -> bool
    ensures { result ≡ list_any (λ v. is_primary_label (view v)) labels.now }
{
    labels.iter().any(|label| is_true(label, "primary"))
}

/// The span of a label, if it begins somewhere.
fn label_span(
    alloc: Global,
    label: &Value,
    unit: Unit,
    is_primary: bool,
) -> Result<Option<Span>, AllocError>
    ensures { IfOk result (λ span. option_map seen span ≡ option_map
        (span_of_label unit is_primary (view label.now)) (label_location (codes "start") (view label.now))) }
{
    let Some(start) = location(label, "start") else {
        return Ok(None);
    };
    let end = match location(label, "end") {
        Some(end) => End::Before(end),
        None => End::OfWord,
    };
    let mut span = span(alloc, words(label, "file"), start, end, unit)?;
    span.text = String::from_str(alloc, words(label, "text"))?;
    span.is_primary = is_primary;
    span.look = look_of(label);
    Ok(Some(span))
}

/// What a label says of its look.
fn look_of(label: &Value) -> Look
    ensures { result ≡ look_at (view label.now) }
{
    Look {
        order: number_of_label(label, "order").unwrap_or(0),
        priority: number_of_label(label, "priority").unwrap_or(0),
        color: color(label, "color"),
    }
}

/// A member that is a whole number of 32 bits.
fn number_of_label(label: &Value, name: &str) -> Option<i32>
    ensures { result ≡ whole_at name.now (view label.now) }
{
    i32::try_from(label.get(name)?.as_i64()?).ok()
}

/// Adds those of these values that are texts.
#[tactic(auto, using(crate::proofs::Values::texts_past))]
fn push_texts(alloc: Global, texts: &mut Vec<String>, values: &[Value]) -> Result<(), AllocError>
    ensures { OnOk result (map string_bytes texts.new.items
        ≡ map string_bytes texts.old.items ++ texts_in (items_view values.now)) }
{
    for value in values {
        if let Some(said) = value.as_str() {
            texts.push(String::from_str(alloc, said)?)?;
        }
    }
    Ok(())
}
