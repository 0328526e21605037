//! What ruff writes by `--output-format=json`.

ghost use Rattle.std.specs.Prelude.{◌≡◌, map, option_map, IfOk, OnOk};
ghost use Rattle.serde_json.specs.View.{items_view, view};
ghost use Rattle.ariadne_parse.specs.Members.{all_items};
ghost use Rattle.ariadne_parse.specs.Spans.{seen};
ghost use Rattle.ariadne_parse.specs.Proposed.{edit_of};
ghost use Rattle.ariadne_parse.specs.Read.{read};
ghost use Rattle.ariadne_sarif.specs.Fixing.{edit_of_piece};
ghost use Rattle.ariadne_sarif.specs.DocumentParts.{parsed_each};
ghost use Rattle.ariadne_documents.specs.Ruff as ruff;

use crate::coded::coded;
use ariadne_parse::json::{copied_text, number, severity, text, words};
use ariadne_parse::{Change, Diagnostic, Location, Span, Unit};
use ariadne_sarif::fixing::{Piece, TellsChange, changes_of, push_fix};
use ariadne_sarif::parts::{items_within, listed, location_in, own_span, words_within};
use serde_json::Value;
use std::alloc::{AllocError, Global};

/// Whether a value is what ruff writes: a list of violations, one at least.
pub(crate) fn is_ruff(value: &Value) -> bool
    ensures { result ≡ ruff.is_ruff (view value.now) }
{
    match listed(value).split_first() {
        Some((first, others)) => is_violation(first) && are_violations(others),
        None => false,
    }
}

/// Whether values are violations.
fn are_violations(values: &[Value]) -> bool
    ensures { result ≡ all_items ruff.is_violation (items_view values.now) }
{
    for value in values {
        if !is_violation(value) {
            return false;
        }
    }
    true
}

/// Whether a value is a violation.
fn is_violation(value: &Value) -> bool
    ensures { result ≡ ruff.is_violation (view value.now) }
{
    text(value, "filename").is_some()
        && text(value, "message").is_some()
        && start_of(value).is_some()
}

/// The diagnostics of violations.
pub(crate) fn parsed_by_ruff(alloc: Global, value: &Value) -> Result<Vec<Diagnostic>, AllocError>
    ensures { IfOk result (λ all. map read all.items ≡ ruff.ruff_parsed (view value.now)) }
{
    parsed_by_violations(alloc, listed(value))
}

/// The diagnostics of these violations.
fn parsed_by_violations(alloc: Global, violations: &[Value]) -> Result<Vec<Diagnostic>, AllocError>
    ensures { IfOk result (λ all.
        map read all.items ≡ parsed_each ruff.violation_read (items_view violations.now)) }
{
    let mut all = Vec::new(alloc);
    for violation in violations {
        all.push(parsed_by_violation(alloc, violation)?)?;
    }
    Ok(all)
}

/// The diagnostic of a violation.
fn parsed_by_violation(alloc: Global, value: &Value) -> Result<Diagnostic, AllocError>
    ensures { IfOk result (λ parsed. read parsed ≡ ruff.violation_read (view value.now)) }
{
    let mut parsed = unfixed(alloc, value)?;
    push_own_fix(alloc, &mut parsed, value).and(Ok(parsed))
}

/// The diagnostic of a violation, without its fix.
fn unfixed(alloc: Global, value: &Value) -> Result<Diagnostic, AllocError>
    ensures { IfOk result (λ parsed. read parsed ≡ ruff.unfixed (view value.now)) }
{
    let code = copied_text(alloc, value, "code")?;
    let span = violation_span(alloc, value)?;
    let level = severity(value, "severity");
    let message = words(value, "message");
    coded(alloc, code, level, message, words(value, "filename"), span)
}

/// Adds the fix of a violation, and why.
fn push_own_fix(alloc: Global, parsed: &mut Diagnostic, value: &Value) -> Result<(), AllocError>
    ensures { OnOk result (read parsed.new ≡ ruff.with_own_fix (view value.now) (read parsed.old)) }
{
    let why = words_within(value, "fix", "message");
    let file = words(value, "filename");
    let changes = fix_changes(alloc, value)?;
    push_fix(alloc, parsed, why, file, Unit::Char, changes)
}

/// The span of a violation, if that isn't in a cell of a notebook.
fn violation_span(alloc: Global, value: &Value) -> Result<Option<Span>, AllocError>
    ensures { IfOk result (λ it. option_map seen it ≡ ruff.violation_span (view value.now)) }
{
    if number(value, "cell").is_some() {
        return Ok(None);
    }
    let file = words(value, "filename");
    own_span(alloc, file, Unit::Char, start_of(value), end_of(value))
}

/// The changes that fix a violation, if that isn't in a cell of a notebook.
fn fix_changes(alloc: Global, value: &Value) -> Result<Vec<Change>, AllocError>
    ensures { IfOk result (λ changes. map edit_of changes.items ≡ ruff.edits_in (view value.now)) }
{
    if number(value, "cell").is_some() {
        return Ok(Vec::new(alloc));
    }
    changes_of::<Edit>(alloc, items_within(value, "fix", "edits"))
}

/// Where a violation begins, or an edit.
fn start_of(value: &Value) -> Option<Location>
    ensures { result ≡ ruff.start_of (view value.now) }
{
    location_in(value, "location", "row", "column")
}

/// Where it ends: in front of this.
fn end_of(value: &Value) -> Option<Location>
    ensures { result ≡ ruff.end_of (view value.now) }
{
    location_in(value, "end_location", "row", "column")
}

/// The edits of a fix.
struct Edit;

impl TellsChange for Edit {
    ghost edit = { λ d. ruff.edit_of d };

    fn piece(value: &Value) -> Option<Piece<'_>> {
        violation_change(value)
    }
}

/// The change of an edit, if it says where, and what to put there.
fn violation_change(value: &Value) -> Option<Piece<'_>>
    ensures { option_map edit_of_piece result ≡ ruff.edit_of (view value.now) }
{
    Some(Piece {
        put_in: text(value, "content")?,
        start: start_of(value)?,
        end: end_of(value)?,
    })
}
