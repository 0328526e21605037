//! The diagnostics that a server of LSP publishes.

ghost use Rattle.std.specs.Prelude.{◌≡◌, ◌++◌, map, option_map, string_bytes, IfOk, OnOk};
ghost use Rattle.serde_json.specs.View.{items_view, view};
ghost use Rattle.ariadne_parse.specs.Members.{all_items};
ghost use Rattle.ariadne_parse.specs.Spans.{seen};
ghost use Rattle.ariadne_parse.specs.Read.{read};
ghost use Rattle.ariadne_documents.specs.Lsp as lsp;
ghost use Rattle.ariadne_sarif.specs.DocumentParts.{parsed_each};

use crate::coded::coded;
use ariadne_parse::json::{
    copied_text, has_list, has_number, has_words, items, number, text, words,
};
use ariadne_parse::{Diagnostic, Severity, Span, Unit, span};
use ariadne_sarif::parts::{end_of, own_span, range_location};
use ariadne_sarif::uri::path_of;
use serde_json::Value;
use std::alloc::{AllocError, Global};

/// The parameters that a value is, or has as a notification of diagnostics.
fn params_of(value: &Value) -> &Value
    ensures { view result.now ≡ lsp.params_of (view value.now) }
{
    if has_words(value, "method", "textDocument/publishDiagnostics") {
        value.get("params").unwrap_or(value)
    } else {
        value
    }
}

/// Whether a value publishes diagnostics.
pub(crate) fn is_lsp(value: &Value) -> bool
    ensures { result ≡ lsp.is_lsp (view value.now) }
{
    is_of_file(params_of(value))
}

/// Whether a value has the diagnostics of a file.
fn is_of_file(value: &Value) -> bool
    ensures { result ≡ lsp.is_of_file (view value.now) }
{
    text(value, "uri").is_some()
        && has_list(value, "diagnostics")
        && are_published(items(value, "diagnostics"))
}

/// Whether values are diagnostics.
fn are_published(values: &[Value]) -> bool
    ensures { result ≡ all_items lsp.is_published (items_view values.now) }
{
    for value in values {
        if !is_published(value) {
            return false;
        }
    }
    true
}

/// Whether a value is a diagnostic.
fn is_published(value: &Value) -> bool
    ensures { result ≡ lsp.is_published (view value.now) }
{
    range_location(value, "start").is_some() && text(value, "message").is_some()
}

/// The diagnostics that a value publishes.
pub(crate) fn parsed_by_lsp(alloc: Global, value: &Value) -> Result<Vec<Diagnostic>, AllocError>
    ensures { IfOk result (λ all. map read all.items ≡ lsp.lsp_parsed (view value.now)) }
{
    parsed_of_file(alloc, params_of(value))
}

/// The diagnostics of a file.
fn parsed_of_file(alloc: Global, value: &Value) -> Result<Vec<Diagnostic>, AllocError>
    ensures { IfOk result (λ all. map read all.items ≡ lsp.file_parsed (view value.now)) }
{
    let file = path_of(alloc, words(value, "uri"))?;
    parsed_by_published(alloc, file.as_str(), items(value, "diagnostics"))
}

/// These diagnostics of a file.
fn parsed_by_published(
    alloc: Global,
    file: &str,
    values: &[Value],
) -> Result<Vec<Diagnostic>, AllocError>
    ensures { IfOk result (λ all.
        map read all.items ≡ parsed_each (lsp.published_read file.now) (items_view values.now)) }
{
    let mut all = Vec::new(alloc);
    for value in values {
        all.push(parsed_by_one(alloc, file, value)?)?;
    }
    Ok(all)
}

/// A diagnostic of a file.
fn parsed_by_one(alloc: Global, file: &str, value: &Value) -> Result<Diagnostic, AllocError>
    ensures { IfOk result (λ parsed. read parsed ≡ lsp.published_read file.now (view value.now)) }
{
    let mut parsed = unrelated(alloc, file, value)?;
    let related = items(value, "relatedInformation");
    push_related(alloc, &mut parsed.spans, related).and(Ok(parsed))
}

/// A diagnostic of a file, without what is related to it.
fn unrelated(alloc: Global, file: &str, value: &Value) -> Result<Diagnostic, AllocError>
    ensures { IfOk result (λ parsed. read parsed ≡ lsp.unrelated file.now (view value.now)) }
{
    let code = code_of(alloc, value)?;
    let span = published_span(alloc, file, value)?;
    let message = words(value, "message");
    coded(alloc, code, severity_of(value), message, file, span)
}

/// The span of a diagnostic.
fn published_span(alloc: Global, file: &str, value: &Value) -> Result<Option<Span>, AllocError>
    ensures { IfOk result (λ it. option_map seen it ≡ lsp.published_span file.now (view value.now)) }
{
    let start = range_location(value, "start");
    let end = range_location(value, "end");
    own_span(alloc, file, Unit::Utf16, start, end)
}

/// How bad a diagnostic is.
fn severity_of(value: &Value) -> Severity
    ensures { result ≡ lsp.severity_of (view value.now) }
{
    if has_number(value, "severity", 2) {
        Severity::Warning
    } else if has_number(value, "severity", 3) || has_number(value, "severity", 4) {
        Severity::Note
    } else {
        Severity::Error
    }
}

/// The code of a diagnostic: a text or a number.
fn code_of(alloc: Global, value: &Value) -> Result<Option<String>, AllocError>
    ensures { IfOk result (λ code. option_map string_bytes code ≡ lsp.code_of (view value.now)) }
{
    match (text(value, "code"), number(value, "code")) {
        (Some(code), _) => Ok(Some(String::from_str(alloc, code)?)),
        (None, Some(code)) => Ok(Some(format!(in alloc; "{code}")?)),
        (None, None) => Ok(None),
    }
}

/// Adds the spans of what is related to a diagnostic.
fn push_related(alloc: Global, spans: &mut Vec<Span>, related: &[Value]) -> Result<(), AllocError>
    ensures { OnOk result (map seen spans.new.items
        ≡ map seen spans.old.items ++ lsp.related_spans (items_view related.now)) }
{
    for value in related {
        if let Some(span) = related_span(alloc, value)? {
            spans.push(span)?;
        }
    }
    Ok(())
}

/// The span of what is related, if it has one. It says the message.
fn related_span(alloc: Global, value: &Value) -> Result<Option<Span>, AllocError>
    ensures { IfOk result (λ it. option_map seen it ≡ lsp.related_span (view value.now)) }
{
    let Some(location) = value.get("location") else {
        return Ok(None);
    };
    let Some(start) = range_location(location, "start") else {
        return Ok(None);
    };
    let file = path_of(alloc, words(location, "uri"))?;
    let end = end_of(range_location(location, "end"));
    let mut span = span(alloc, file.as_str(), start, end, Unit::Utf16)?;
    span.text = String::from_str(alloc, words(value, "message"))?;
    Ok(Some(span))
}
