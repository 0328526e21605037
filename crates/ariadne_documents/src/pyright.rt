//! What pyright writes by `--outputjson`.

ghost use Rattle.std.specs.Prelude.{◌≡◌, map, option_map, IfOk};
ghost use Rattle.serde_json.specs.View.{items_view, view};
ghost use Rattle.ariadne_parse.specs.Members.{all_items};
ghost use Rattle.ariadne_parse.specs.Spans.{seen};
ghost use Rattle.ariadne_parse.specs.Read.{read};
ghost use Rattle.ariadne_sarif.specs.DocumentParts.{parsed_each};
ghost use Rattle.ariadne_documents.specs.Pyright as pyright;

use crate::coded::coded;
use ariadne_parse::json::{copied_text, has_list, items, severity, text, words};
use ariadne_parse::{Diagnostic, Span, Unit};
use ariadne_sarif::parts::{own_span, range_location};
use serde_json::Value;
use std::alloc::{AllocError, Global};

/// Whether a value is what pyright writes: an object with general diagnostics.
pub(crate) fn is_pyright(value: &Value) -> bool
    ensures { result ≡ pyright.is_pyright (view value.now) }
{
    has_list(value, "generalDiagnostics") && are_general(items(value, "generalDiagnostics"))
}

/// Whether values are general diagnostics.
fn are_general(values: &[Value]) -> bool
    ensures { result ≡ all_items pyright.is_general (items_view values.now) }
{
    for value in values {
        if !is_general(value) {
            return false;
        }
    }
    true
}

/// Whether a value is a general diagnostic.
fn is_general(value: &Value) -> bool
    ensures { result ≡ pyright.is_general (view value.now) }
{
    text(value, "severity").is_some() && text(value, "message").is_some()
}

/// The diagnostics that pyright tells.
pub(crate) fn parsed_by_pyright(alloc: Global, value: &Value) -> Result<Vec<Diagnostic>, AllocError>
    ensures { IfOk result (λ all. map read all.items ≡ pyright.pyright_parsed (view value.now)) }
{
    parsed_by_general(alloc, items(value, "generalDiagnostics"))
}

/// The diagnostics of general ones.
fn parsed_by_general(alloc: Global, values: &[Value]) -> Result<Vec<Diagnostic>, AllocError>
    ensures { IfOk result (λ all.
        map read all.items ≡ parsed_each pyright.general_read (items_view values.now)) }
{
    let mut all = Vec::new(alloc);
    for value in values {
        all.push(parsed_by_one(alloc, value)?)?;
    }
    Ok(all)
}

/// The diagnostic of a general one.
fn parsed_by_one(alloc: Global, value: &Value) -> Result<Diagnostic, AllocError>
    ensures { IfOk result (λ parsed. read parsed ≡ pyright.general_read (view value.now)) }
{
    let code = copied_text(alloc, value, "rule")?;
    let span = general_span(alloc, value)?;
    let level = severity(value, "severity");
    let message = words(value, "message");
    coded(alloc, code, level, message, words(value, "file"), span)
}

/// The span of a general diagnostic, if it has a range.
fn general_span(alloc: Global, value: &Value) -> Result<Option<Span>, AllocError>
    ensures { IfOk result (λ it. option_map seen it ≡ pyright.general_span (view value.now)) }
{
    let start = range_location(value, "start");
    let end = range_location(value, "end");
    own_span(alloc, words(value, "file"), Unit::Utf16, start, end)
}
