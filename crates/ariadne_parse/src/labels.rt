//! Labels of a diagnostic of rustc's: its spans that can be shown, and what is said of them.

ghost use Rattle.std.specs.Prelude.{◌≡◌, ◌++◌, map, option_map, IfOk, OnOk};
ghost use Rattle.std.specs.List.{filter_map, flat_map};
ghost use Rattle.serde_json.specs.View.{items_view, view};
ghost use Rattle.ariadne_parse.specs.Members.{flat_items};
ghost use Rattle.ariadne_parse.specs.Spans.{seen};
ghost use Rattle.ariadne_parse.specs.Read.{as_quoted};
ghost use Rattle.ariadne_parse.specs.Rustc as rustc;
ghost use Rattle.ariadne_parse.specs.Rustc.{labelled};

use crate::diagnostic::{End, QuotedLine, Span};
use crate::heads::span;
use crate::json::{is_true, items, number, text, words};
use crate::span_values::{is_dummy, is_shown, location, own_span_value, shown_call};
use crate::suggested::quoted_text;
use crate::unit::Unit;
use serde_json::Value;
use std::alloc::{AllocError, Global};

/// A span that is shown, and what is said of it.
#[derive(Clone, Copy)]
pub(crate) struct Label<'v> {
    /// The span.
    pub(crate) span_value: &'v Value,
    /// What is said of it; nothing where it is empty.
    pub(crate) said: &'v str,
    /// Whether the diagnostic is about it.
    pub(crate) is_primary: bool,
}

/// Adds the labels of a diagnostic's own spans.
pub(crate) fn push_span_values<'v>(
    labels: &mut Vec<Label<'v>>,
    span_values: &'v [Value],
) -> Result<(), AllocError>
    ensures { OnOk result (map labelled labels.new.items
        ≡ map labelled labels.old.items ++ flat_items rustc.span_value_labels (items_view span_values.now)) }
{
    for span_value in span_values {
        push_span_value(labels, span_value)?;
    }
    Ok(())
}

/// Adds the label of a span that stands for a span, and that of the macro call that is shown too.
#[tactic(auto, unfolding(crate::specs::Rustc::span_value_labels))]
fn push_span_value<'v>(labels: &mut Vec<Label<'v>>, span_value: &'v Value) -> Result<(), AllocError>
    ensures { OnOk result (map labelled labels.new.items
        ≡ map labelled labels.old.items ++ rustc.span_value_labels (view span_value.now)) }
{
    if is_dummy(span_value) {
        return Ok(());
    }
    let own = own_span_value(span_value);
    labels.push(own_label(span_value, own))?;
    if let Some(call) = shown_call(own) {
        labels.push(call_label(call))?;
    }
    Ok(())
}

/// The label of one of a diagnostic's own spans, for which this one is shown.
fn own_label<'v>(span_value: &'v Value, own: &'v Value) -> Label<'v>
    ensures { labelled result ≡ rustc.own_label (view span_value.now) (view own.now) }
{
    Label {
        span_value: own,
        said: words(span_value, "label"),
        is_primary: is_true(span_value, "is_primary"),
    }
}

/// The label of a macro call.
fn call_label(call: &Value) -> Label<'_>
    ensures { labelled result ≡ rustc.call_label (view call.now) }
{
    Label {
        span_value: call,
        said: "in this macro invocation",
        is_primary: false,
    }
}

/// Adds the labels of those spans of a note that can be shown.
pub(crate) fn push_noted<'v>(
    labels: &mut Vec<Label<'v>>,
    span_values: &'v [Value],
    message: &'v str,
) -> Result<(), AllocError>
    ensures { OnOk result (map labelled labels.new.items
        ≡ map labelled labels.old.items ++ rustc.noted_labels message.now (items_view span_values.now)) }
{
    for span_value in span_values {
        if let Some(label) = noted_label(span_value, message) {
            labels.push(label)?;
        }
    }
    Ok(())
}

/// The label of a span of a note, if it can be shown.
#[tactic(auto, unfolding(crate::specs::Rustc::noted_label))]
fn noted_label<'v>(span_value: &'v Value, message: &'v str) -> Option<Label<'v>>
    ensures { option_map labelled result ≡ rustc.noted_label message.now (view span_value.now) }
{
    let own = own_span_value(span_value);
    if is_shown(own) {
        Some(Label {
            span_value: own,
            said: said_by(span_value, message),
            is_primary: false,
        })
    } else {
        None
    }
}

/// What a span of a note says: a primary one the note, where it has no label.
fn said_by<'v>(span_value: &'v Value, message: &'v str) -> &'v str
    ensures { result.now ≡ rustc.said_by message.now (view span_value.now) }
{
    match text(span_value, "label") {
        Some(label) => label,
        None if is_true(span_value, "is_primary") => message,
        None => "",
    }
}

/// The spans of those labels whose spans have a line.
pub(crate) fn spans_of(alloc: Global, labels: &[Label<'_>]) -> Result<Vec<Span>, AllocError>
    ensures { IfOk result (λ spans.
        map seen spans.items ≡ filter_map rustc.label_span (map labelled labels.now)) }
{
    let mut spans = Vec::new(alloc);
    for label in labels {
        if let Some(span) = label_span(alloc, label)? {
            spans.push(span)?;
        }
    }
    Ok(spans)
}

/// The span of a label, if its span has a line.
fn label_span(alloc: Global, label: &Label<'_>) -> Result<Option<Span>, AllocError>
    ensures { IfOk result (λ span. option_map seen span ≡ rustc.label_span (labelled label.now)) }
{
    let span_value = label.span_value;
    let Some(start) = location(span_value, "line_start", "column_start") else {
        return Ok(None);
    };
    let mut span = span(
        alloc,
        words(span_value, "file_name"),
        start,
        end(span_value),
        Unit::Char,
    )?;
    span.text = String::from_str(alloc, label.said)?;
    span.is_primary = label.is_primary;
    Ok(Some(span))
}

/// Where a span ends.
fn end(span_value: &Value) -> End
    ensures { result ≡ rustc.rustc_end (view span_value.now) }
{
    match location(span_value, "line_end", "column_end") {
        Some(end) => End::Before(end),
        None => End::OfWord,
    }
}

/// The lines that rustc quotes of the files of labels.
pub(crate) fn quoted_of(alloc: Global, labels: &[Label<'_>]) -> Result<Vec<QuotedLine>, AllocError>
    ensures { IfOk result (λ quoted. map as_quoted quoted.items
        ≡ flat_map (λ label. rustc.span_value_quotes label.span_value) (map labelled labels.now)) }
{
    let mut quoted = Vec::new(alloc);
    for label in labels {
        push_quoted(alloc, &mut quoted, label.span_value)?;
    }
    Ok(quoted)
}

/// Adds the lines that rustc quotes for a span, if that has a line.
fn push_quoted(
    alloc: Global,
    quoted: &mut Vec<QuotedLine>,
    span_value: &Value,
) -> Result<(), AllocError>
    ensures { OnOk result (map as_quoted quoted.new.items
        ≡ map as_quoted quoted.old.items ++ rustc.span_value_quotes (view span_value.now)) }
{
    match number(span_value, "line_start") {
        Some(first) => {
            let file = words(span_value, "file_name");
            push_lines(alloc, quoted, file, first, items(span_value, "text"))
        }
        None => Ok(()),
    }
}

/// Adds lines that rustc quotes of a file, of which this is the first.
fn push_lines(
    alloc: Global,
    quoted: &mut Vec<QuotedLine>,
    file: &str,
    first: usize,
    lines: &[Value],
) -> Result<(), AllocError>
    ensures { OnOk result (map as_quoted quoted.new.items
        ≡ map as_quoted quoted.old.items ++ rustc.quotes_from file.now first (items_view lines.now)) }
{
    let mut number = first;
    for line in lines {
        quoted.push(QuotedLine {
            file: String::from_str(alloc, file)?,
            line: number,
            text: String::from_str(alloc, quoted_text(line))?,
        })?;
        number = number.saturating_add(1);
    }
    Ok(())
}
