//! What eslint's formatter `json` writes.

ghost use Rattle.std.specs.Prelude.{◌≡◌, ◌++◌, codes, map, option_and_then, option_map, IfOk, OnOk};
ghost use Rattle.serde_json.specs.Find.{get};
ghost use Rattle.serde_json.specs.View.{items_view, view};
ghost use Rattle.ariadne_parse.specs.Members.{all_items, flat_items};
ghost use Rattle.ariadne_parse.specs.Spans.{seen};
ghost use Rattle.ariadne_parse.specs.Proposed.{edit_of};
ghost use Rattle.ariadne_parse.specs.Read.{read};
ghost use Rattle.ariadne_documents.specs.Eslint as eslint;
ghost use Rattle.ariadne_sarif.specs.DocumentParts.{parsed_each};
ghost use Rattle.ariadne_sarif.specs.Fixing.{edit_of_piece};

use crate::coded::coded;
use crate::offsets::location_behind;
use ariadne_parse::json::{
    copied_text, has_list, has_number, items, number, text, usize_of, words,
};
use ariadne_parse::pieces::behind_text;
use ariadne_parse::{Change, Diagnostic, Location, Severity, Span, Unit};
use ariadne_sarif::fixing::{Piece, change, push_fix};
use ariadne_sarif::parts::{listed, location, own_span};
use serde_json::Value;
use std::alloc::{AllocError, Global};

/// Whether a value is what eslint writes: a list of files, one at least.
pub(crate) fn is_eslint(value: &Value) -> bool
    ensures { result ≡ eslint.is_eslint (view value.now) }
{
    match listed(value).split_first() {
        Some((first, others)) => is_file(first) && are_files(others),
        None => false,
    }
}

/// Whether values are files.
fn are_files(values: &[Value]) -> bool
    ensures { result ≡ all_items eslint.is_file (items_view values.now) }
{
    for value in values {
        if !is_file(value) {
            return false;
        }
    }
    true
}

/// Whether a value is a file, with its messages.
fn is_file(value: &Value) -> bool
    ensures { result ≡ eslint.is_file (view value.now) }
{
    text(value, "filePath").is_some()
        && has_list(value, "messages")
        && are_messages(items(value, "messages"))
}

/// Whether values are messages.
fn are_messages(values: &[Value]) -> bool
    ensures { result ≡ all_items eslint.is_message (items_view values.now) }
{
    for value in values {
        if !is_message(value) {
            return false;
        }
    }
    true
}

/// Whether a value is a message.
fn is_message(value: &Value) -> bool
    ensures { result ≡ eslint.is_message (view value.now) }
{
    text(value, "message").is_some() && number(value, "severity").is_some()
}

/// The diagnostics of all files.
pub(crate) fn parsed_by_eslint(alloc: Global, value: &Value) -> Result<Vec<Diagnostic>, AllocError>
    ensures { IfOk result (λ all. map read all.items ≡ eslint.eslint_parsed (view value.now)) }
{
    parsed_by_files(alloc, listed(value))
}

/// The diagnostics of these files.
fn parsed_by_files(alloc: Global, files: &[Value]) -> Result<Vec<Diagnostic>, AllocError>
    ensures { IfOk result (λ all.
        map read all.items ≡ flat_items eslint.file_parsed (items_view files.now)) }
{
    let mut all = Vec::new(alloc);
    for file in files {
        push_messages(
            alloc,
            &mut all,
            words(file, "filePath"),
            source_of(file),
            items(file, "messages"),
        )?;
    }
    Ok(all)
}

/// The source that the offsets of a file count in: without a byte order mark.
fn source_of(file: &Value) -> &str
    ensures { result.now ≡ eslint.source_of (view file.now) }
{
    let source = words(file, "source");
    behind_text(source, "\u{feff}").unwrap_or(source)
}

/// Adds the diagnostics of the messages of a file with this source.
fn push_messages(
    alloc: Global,
    all: &mut Vec<Diagnostic>,
    file: &str,
    source: &str,
    messages: &[Value],
) -> Result<(), AllocError>
    ensures { OnOk result (map read all.new.items ≡ map read all.old.items
        ++ parsed_each (eslint.message_read file.now source.now) (items_view messages.now)) }
{
    for message in messages {
        all.push(parsed_by_message(alloc, file, source, message)?)?;
    }
    Ok(())
}

/// The diagnostic of a message of a file with this source.
fn parsed_by_message(
    alloc: Global,
    file: &str,
    source: &str,
    value: &Value,
) -> Result<Diagnostic, AllocError>
    ensures { IfOk result (λ parsed. read parsed ≡ eslint.message_read file.now source.now (view value.now)) }
{
    let mut parsed = unfixed(alloc, file, value)?;
    push_fixes(alloc, &mut parsed, file, source, value).and(Ok(parsed))
}

/// Adds the fix of a message, and what is suggested for it.
fn push_fixes(
    alloc: Global,
    parsed: &mut Diagnostic,
    file: &str,
    source: &str,
    value: &Value,
) -> Result<(), AllocError>
    ensures { OnOk result (read parsed.new
        ≡ eslint.with_fixes file.now source.now (view value.now) (read parsed.old)) }
{
    push_own_fix(alloc, parsed, "", file, source, value)?;
    push_suggestions(alloc, parsed, file, source, items(value, "suggestions"))
}

/// The diagnostic of a message of a file, without what fixes it.
fn unfixed(alloc: Global, file: &str, value: &Value) -> Result<Diagnostic, AllocError>
    ensures { IfOk result (λ parsed. read parsed ≡ eslint.unfixed file.now (view value.now)) }
{
    let code = copied_text(alloc, value, "ruleId")?;
    let span = message_span(alloc, file, value)?;
    let message = words(value, "message");
    coded(alloc, code, severity_of(value), message, file, span)
}

/// How bad a message is.
fn severity_of(value: &Value) -> Severity
    ensures { result ≡ eslint.severity_of (view value.now) }
{
    if has_number(value, "severity", 1) {
        Severity::Warning
    } else {
        Severity::Error
    }
}

/// The span of a message, if it names a line.
fn message_span(alloc: Global, file: &str, value: &Value) -> Result<Option<Span>, AllocError>
    ensures { IfOk result (λ it. option_map seen it ≡ eslint.message_span file.now (view value.now)) }
{
    let start = location(value, "line", "column");
    let end = location(value, "endLine", "endColumn");
    own_span(alloc, file, Unit::Utf16, start, end)
}

/// Adds what is suggested for a message.
fn push_suggestions(
    alloc: Global,
    parsed: &mut Diagnostic,
    file: &str,
    source: &str,
    suggestions: &[Value],
) -> Result<(), AllocError>
    ensures { OnOk result (read parsed.new
        ≡ eslint.with_suggestions file.now source.now (items_view suggestions.now) (read parsed.old)) }
{
    for suggestion in suggestions {
        push_own_fix(
            alloc,
            parsed,
            words(suggestion, "desc"),
            file,
            source,
            suggestion,
        )?;
    }
    Ok(())
}

/// Adds the fix of a message or a suggestion, and why.
fn push_own_fix(
    alloc: Global,
    parsed: &mut Diagnostic,
    why: &str,
    file: &str,
    source: &str,
    value: &Value,
) -> Result<(), AllocError>
    ensures { OnOk result (read parsed.new
        ≡ eslint.with_own_fix why.now file.now source.now (view value.now) (read parsed.old)) }
{
    let changes = changes_in(alloc, source, value)?;
    push_fix(alloc, parsed, why, file, Unit::Utf16, changes)
}

/// The change of a message or a suggestion, if it has one.
fn changes_in(alloc: Global, source: &str, value: &Value) -> Result<Vec<Change>, AllocError>
    ensures { IfOk result (λ changes. map edit_of changes.items
        ≡ eslint.edits_in source.now (view value.now)) }
{
    let mut changes = Vec::new(alloc);
    if let Some(piece) = piece_in(source, value) {
        changes.push(change(alloc, piece)?)?;
    }
    Ok(changes)
}

/// The piece of a source that a message or a suggestion fixes, and the text that is put there.
fn piece_in<'v>(source: &str, value: &'v Value) -> Option<Piece<'v>>
    ensures { option_map edit_of_piece result
        ≡ option_and_then (eslint.edit_of_fix source.now) (get (codes "fix") (view value.now)) }
{
    let fix = value.get("fix")?;
    Some(Piece {
        put_in: text(fix, "text")?,
        start: location_of(0, source, fix)?,
        end: location_of(1, source, fix)?,
    })
}

/// Where a fix begins, or where it ends, by its number in the range.
fn location_of(number: usize, source: &str, fix: &Value) -> Option<Location>
    ensures { result ≡ eslint.location_of number source.now (view fix.now) }
{
    let offset = usize_of(fix.get("range")?.get(number)?)?;
    location_behind(offset, source)
}
