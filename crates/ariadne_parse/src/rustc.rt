//! Diagnostics of `rustc --error-format=json`, and of `cargo --message-format=json`.

ghost use Rattle.std.specs.Prelude.{◌≡◌, map, option_map, string_bytes, IfOk, OnOk};
ghost use Rattle.std.specs.List.{list_any};
ghost use Rattle.serde_json.specs.View.{items_view, view};
ghost use Rattle.ariadne_parse.specs.Members.{any_item};
ghost use Rattle.ariadne_parse.specs.Proposed.{filed};
ghost use Rattle.ariadne_parse.specs.Read.{read};
ghost use Rattle.ariadne_parse.specs.Rustc as rustc;
ghost use Rattle.ariadne_parse.specs.Rustc.{as_said};
ghost use Rattle.ariadne_parse.specs.ParsedDiagnostics.{is_rustc as is_of_rustc, rustc_in};

use crate::diagnostic::{Diagnostic, Proposal};
use crate::json::{
    copied_text, has_list, has_no_items, has_words, is_true, items, severity, text, words,
};
use crate::labels::{
    Label, push_noted as push_noted_labels, push_span_values, quoted_of, spans_of,
};
use crate::noted::{named_span, push_row};
use crate::pieces::{begins_with, closes_with};
use crate::proposals::FileChange;
use crate::span_values::{is_dummy, is_shown, location, own_span_value};
use crate::suggested::{changes_of, proposal, suggestion};
use serde_json::Value;
use std::alloc::{AllocError, Global};

/// The diagnostic that a value is, or, as cargo writes it, hands on: an object with a message, a level
/// and spans.
pub(crate) fn rustc_message(value: &Value) -> Option<&Value>
    ensures { option_map (λ v. view v.now) result ≡ rustc_in (view value.now) }
{
    let message = match text(value, "reason") {
        Some("compiler-message") => value.get("message")?,
        Some(_) => return None,
        None => value,
    };
    if is_rustc(message) {
        Some(message)
    } else {
        None
    }
}

/// Whether a value is a diagnostic of rustc's.
fn is_rustc(value: &Value) -> bool
    ensures { result ≡ is_of_rustc (view value.now) }
{
    text(value, "message").is_some() && text(value, "level").is_some() && has_list(value, "spans")
}

/// What rustc says beside the message of a diagnostic.
#[derive(Drop)]
pub(crate) struct Beside<'v> {
    /// Its labels, which become spans, and lines that rustc quotes.
    pub(crate) labels: Vec<Label<'v>>,
    /// Its notes.
    pub(crate) notes: Vec<String>,
    /// Its helps.
    pub(crate) helps: Vec<String>,
    /// What it proposes, as changes of files.
    pub(crate) proposals: Vec<Proposal>,
}

/// The diagnostic of a value that is one, about a package of which this is the manifest.
pub(crate) fn parsed_by_rustc(
    alloc: Global,
    value: &Value,
    manifest: Option<String>,
) -> Result<Diagnostic, AllocError>
    ensures { IfOk result (λ parsed.
        read parsed ≡ rustc.rustc_read (option_map string_bytes manifest) (view value.now)) }
{
    let Beside {
        labels,
        notes,
        helps,
        proposals,
    } = said_beside(alloc, value)?;
    Ok(Diagnostic {
        severity: severity(value, "level"),
        own_kind: None,
        code: code(alloc, value)?,
        message: String::from_str(alloc, words(value, "message"))?,
        spans: spans_of(alloc, labels.as_slice())?,
        notes,
        helps,
        proposals,
        quoted: quoted_of(alloc, labels.as_slice())?,
        manifest,
        is_sum: is_sum(value),
    })
}

/// The code of a diagnostic, which stands in an object of its own.
fn code(alloc: Global, value: &Value) -> Result<Option<String>, AllocError>
    ensures { IfOk result (λ code. option_map string_bytes code ≡ rustc.rustc_code (view value.now)) }
{
    match value.get("code") {
        Some(code) => copied_text(alloc, code, "code"),
        None => Ok(None),
    }
}

/// Whether a diagnostic has no span, and sums up others or says where to read more.
fn is_sum(value: &Value) -> bool
    ensures { result ≡ rustc.is_rustc_sum (view value.now) }
{
    has_no_items(items(value, "spans")) && is_sum_by(value)
}

/// Whether a diagnostic says where to read more, or sums up others.
fn is_sum_by(value: &Value) -> bool
    ensures { result ≡ rustc.is_sum_by (view value.now) }
{
    has_words(value, "level", "failure-note")
        || begins_with(words(value, "message"), "aborting due to ")
        || closes_with(words(value, "message"), " emitted")
}

/// What rustc says beside the message of a diagnostic.
#[tactic(auto, unfolding(crate::specs::Rustc::said_in))]
fn said_beside(alloc: Global, value: &Value) -> Result<Beside<'_>, AllocError>
    ensures { IfOk result (λ parsed. as_said parsed ≡ rustc.said_in (view value.now)) }
{
    let mut parsed = Beside {
        labels: Vec::new(alloc),
        notes: Vec::new(alloc),
        helps: Vec::new(alloc),
        proposals: Vec::new(alloc),
    };
    push_span_values(&mut parsed.labels, items(value, "spans"))?;
    push_children(alloc, &mut parsed, items(value, "children"))?;
    Ok(parsed)
}

/// Adds the children of a diagnostic, in their order.
fn push_children<'v>(
    alloc: Global,
    parsed: &mut Beside<'v>,
    children: &'v [Value],
) -> Result<(), AllocError>
    ensures { OnOk result (as_said parsed.new ≡ rustc.with_children (as_said parsed.old) (items_view children.now)) }
{
    for child in children {
        push_child(alloc, parsed, child)?;
    }
    Ok(())
}

/// Adds a note or a help: with what it puts in, or as labels where its spans can be shown, and else as a
/// text.
#[tactic(auto, unfolding(crate::specs::Rustc::with_child))]
fn push_child<'v>(
    alloc: Global,
    parsed: &mut Beside<'v>,
    child: &'v Value,
) -> Result<(), AllocError>
    ensures { OnOk result (as_said parsed.new ≡ rustc.with_child (as_said parsed.old) (view child.now)) }
{
    let span_values = items(child, "spans");
    let changes = changes_of(alloc, span_values)?;
    if changes.is_empty() {
        return push_noted(alloc, parsed, child);
    }
    push_suggestion(
        alloc,
        parsed,
        words(child, "message"),
        span_values,
        changes.as_slice(),
    )
}

/// Adds the help of a child whose spans put something in, and these changes as what it proposes.
#[tactic(auto, unfolding(crate::specs::Rustc::with_suggested))]
fn push_suggestion(
    alloc: Global,
    parsed: &mut Beside<'_>,
    message: &str,
    span_values: &[Value],
    changes: &[FileChange<'_>],
) -> Result<(), AllocError>
    ensures { OnOk result (as_said parsed.new ≡ rustc.with_suggested (as_said parsed.old) message.now
        (items_view span_values.now) (map filed changes.now)) }
{
    let first = parsed.helps.len();
    let put_in = suggestion(alloc, span_values)?;
    parsed
        .helps
        .push(format!(in alloc; "{message}: {put_in}")?)?;
    if let Some(it) = proposal(alloc, first..parsed.helps.len(), message, changes)? {
        parsed.proposals.push(it)?;
    }
    Ok(())
}

/// Adds a child that puts nothing in: as labels where its spans can be shown, and else as a text.
#[tactic(auto, unfolding(crate::specs::Rustc::with_noted))]
fn push_noted<'v>(
    alloc: Global,
    parsed: &mut Beside<'v>,
    child: &'v Value,
) -> Result<(), AllocError>
    ensures { OnOk result (as_said parsed.new ≡ rustc.with_noted (as_said parsed.old) (view child.now)) }
{
    let message = words(child, "message");
    let span_values = items(child, "spans");
    push_noted_labels(&mut parsed.labels, span_values, message)?;
    push_text(parsed, child, noted_text(alloc, span_values, message)?)
}

/// Adds what a child says beside its labels, as a help or as a note; nothing, where it has spans, and these say
/// all.
fn push_text(parsed: &mut Beside<'_>, child: &Value, text: String) -> Result<(), AllocError>
    ensures { OnOk result
        (as_said parsed.new ≡ rustc.with_text (as_said parsed.old) (view child.now) (string_bytes text)) }
{
    if text.is_empty() && !has_no_items(items(child, "spans")) {
        return Ok(());
    }
    if has_words(child, "level", "help") {
        parsed.helps.push(text)?;
    } else {
        parsed.notes.push(text)?;
    }
    Ok(())
}

/// What a note says beside its labels: its message, where none of them says it, and the spans that can't
/// be shown.
#[tactic(auto, unfolding(crate::specs::Rustc::noted_text))]
fn noted_text(alloc: Global, span_values: &[Value], message: &str) -> Result<String, AllocError>
    ensures { IfOk result (λ text. string_bytes text ≡ rustc.noted_text message.now (items_view span_values.now)) }
{
    let beside = if is_said(span_values) { "" } else { message };
    let mut text = String::from_str(alloc, beside)?;
    push_elsewhere(alloc, &mut text, span_values)?;
    Ok(text)
}

/// Whether one of these spans says the note.
fn is_said(span_values: &[Value]) -> bool
    ensures { result ≡ any_item rustc.says_note (items_view span_values.now) }
{
    any_says_note(span_values)
}

/// Whether any of these values is a span that says the note.
fn any_says_note(span_values: &[Value]) -> bool
    ensures { result ≡ list_any (λ v. rustc.says_note (view v)) span_values.now }
{
    span_values.iter().any(|span_value| says_note(span_value))
}

/// Whether a span of a note is shown, and its label says the note.
#[tactic(auto, unfolding(crate::specs::Rustc::says_note))]
fn says_note(span_value: &Value) -> bool
    ensures { result ≡ rustc.says_note (view span_value.now) }
{
    is_shown(own_span_value(span_value))
        && is_true(span_value, "is_primary")
        && text(span_value, "label").is_none()
}

/// Has a text go on with a row for each span that stands for a span that can't be shown.
fn push_elsewhere(alloc: Global, text: &mut String, span_values: &[Value]) -> Result<(), AllocError>
    ensures { OnOk result
        (string_bytes text.new ≡ rustc.with_rows (string_bytes text.old) (items_view span_values.now)) }
{
    for span_value in span_values {
        if let Some(row) = elsewhere_row(alloc, span_value)? {
            push_row(text, row.as_str())?;
        }
    }
    Ok(())
}

/// Where a span is whose span can't be shown, and what is said of it.
fn elsewhere_row(alloc: Global, span_value: &Value) -> Result<Option<String>, AllocError>
    ensures { IfOk result (λ row. option_map string_bytes row ≡ rustc.elsewhere_row (view span_value.now)) }
{
    if !is_elsewhere(span_value) {
        return Ok(None);
    }
    let Some(start) = location(span_value, "line_start", "column_start") else {
        return Ok(None);
    };
    let row = named_span(
        alloc,
        words(span_value, "file_name"),
        start,
        words(span_value, "label"),
    )?;
    Ok(Some(row))
}

/// Whether a span stands for a span that can't be shown.
#[tactic(auto, unfolding(crate::specs::Rustc::is_elsewhere))]
fn is_elsewhere(span_value: &Value) -> bool
    ensures { result ≡ rustc.is_elsewhere (view span_value.now) }
{
    !is_dummy(span_value) && !is_shown(own_span_value(span_value))
}
