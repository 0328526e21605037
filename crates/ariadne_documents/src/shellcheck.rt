//! What shellcheck writes by `--format=json1`.

ghost use Rattle.std.specs.Prelude.{◌≡◌, map, option_map, string_bytes, IfOk, OnOk};
ghost use Rattle.serde_json.specs.Find.{as_object};
ghost use Rattle.serde_json.specs.View.{items_view, members_view, view};
ghost use Rattle.ariadne_parse.specs.Members.{all_items};
ghost use Rattle.ariadne_parse.specs.Spans.{seen};
ghost use Rattle.ariadne_parse.specs.Proposed.{edit_of};
ghost use Rattle.ariadne_parse.specs.Read.{read};
ghost use Rattle.ariadne_sarif.specs.Fixing.{edit_of_piece};
ghost use Rattle.ariadne_sarif.specs.DocumentParts.{parsed_each};
ghost use Rattle.ariadne_documents.specs.Objects.{is_one, members_in};
ghost use Rattle.ariadne_documents.specs.Shellcheck as shellcheck;

use crate::coded::coded;
use ariadne_parse::json::{has_list, items, number, severity, text, words};
use ariadne_parse::{Change, Diagnostic, Location, Span, Unit};
use ariadne_sarif::fixing::{Piece, TellsChange, changes_of, push_fix};
use ariadne_sarif::parts::{items_within, location, own_span};
use serde_json::{Map, Value};
use std::alloc::{AllocError, Global};

/// Whether a value is what shellcheck writes: an object with comments, and with nothing else.
pub(crate) fn is_shellcheck(value: &Value) -> bool
    ensures { result ≡ shellcheck.is_shellcheck (view value.now) }
{
    has_one_member(value) && has_list(value, "comments") && are_comments(items(value, "comments"))
}

/// Whether a value is an object of one member.
fn has_one_member(value: &Value) -> bool
    ensures { result ≡ is_one (members_in (as_object (view value.now))) }
{
    match value.as_object() {
        Some(members) => are_one(members),
        None => false,
    }
}

/// Whether members are one.
fn are_one(members: &Map<String, Value>) -> bool
    ensures { result ≡ is_one (members_view members.now.entries) }
{
    members.len() == 1
}

/// Whether values are comments.
fn are_comments(values: &[Value]) -> bool
    ensures { result ≡ all_items shellcheck.is_comment (items_view values.now) }
{
    for value in values {
        if !is_comment(value) {
            return false;
        }
    }
    true
}

/// Whether a value is a comment.
fn is_comment(value: &Value) -> bool
    ensures { result ≡ shellcheck.is_comment (view value.now) }
{
    text(value, "file").is_some()
        && number(value, "line").is_some()
        && text(value, "level").is_some()
        && text(value, "message").is_some()
}

/// The diagnostics of comments.
pub(crate) fn parsed_by_shellcheck(
    alloc: Global,
    value: &Value,
) -> Result<Vec<Diagnostic>, AllocError>
    ensures { IfOk result (λ all. map read all.items ≡ shellcheck.shellcheck_parsed (view value.now)) }
{
    parsed_by_comments(alloc, items(value, "comments"))
}

/// The diagnostics of these comments.
fn parsed_by_comments(alloc: Global, comments: &[Value]) -> Result<Vec<Diagnostic>, AllocError>
    ensures { IfOk result (λ all.
        map read all.items ≡ parsed_each shellcheck.comment_read (items_view comments.now)) }
{
    let mut all = Vec::new(alloc);
    for comment in comments {
        all.push(parsed_by_comment(alloc, comment)?)?;
    }
    Ok(all)
}

/// The diagnostic of a comment.
fn parsed_by_comment(alloc: Global, value: &Value) -> Result<Diagnostic, AllocError>
    ensures { IfOk result (λ parsed. read parsed ≡ shellcheck.comment_read (view value.now)) }
{
    let mut parsed = unfixed(alloc, value)?;
    push_own_fix(alloc, &mut parsed, value).and(Ok(parsed))
}

/// Adds the fix of a comment.
fn push_own_fix(alloc: Global, parsed: &mut Diagnostic, value: &Value) -> Result<(), AllocError>
    ensures { OnOk result (read parsed.new ≡ shellcheck.with_own_fix (view value.now) (read parsed.old)) }
{
    let file = words(value, "file");
    let changes = fix_changes(alloc, value)?;
    push_fix(alloc, parsed, "", file, Unit::Char, changes)
}

/// The diagnostic of a comment, without its fix.
fn unfixed(alloc: Global, value: &Value) -> Result<Diagnostic, AllocError>
    ensures { IfOk result (λ parsed. read parsed ≡ shellcheck.unfixed (view value.now)) }
{
    let code = comment_code(alloc, value)?;
    let span = comment_span(alloc, value)?;
    let level = severity(value, "level");
    let message = words(value, "message");
    coded(alloc, code, level, message, words(value, "file"), span)
}

/// The changes that fix a comment.
fn fix_changes(alloc: Global, value: &Value) -> Result<Vec<Change>, AllocError>
    ensures { IfOk result (λ changes. map edit_of changes.items ≡ shellcheck.edits_in (view value.now)) }
{
    let replacements = items_within(value, "fix", "replacements");
    changes_of::<Replacement>(alloc, replacements)
}

/// The span of a comment.
fn comment_span(alloc: Global, value: &Value) -> Result<Option<Span>, AllocError>
    ensures { IfOk result (λ it. option_map seen it ≡ shellcheck.comment_span (view value.now)) }
{
    let file = words(value, "file");
    own_span(alloc, file, Unit::Char, start_of(value), end_of(value))
}

/// Where a comment begins, or a replacement.
fn start_of(value: &Value) -> Option<Location>
    ensures { result ≡ shellcheck.start_of (view value.now) }
{
    location(value, "line", "column")
}

/// Where it ends: in front of this.
fn end_of(value: &Value) -> Option<Location>
    ensures { result ≡ shellcheck.end_of (view value.now) }
{
    location(value, "endLine", "endColumn")
}

/// The code of a comment: its number behind `SC`.
fn comment_code(alloc: Global, value: &Value) -> Result<Option<String>, AllocError>
    ensures { IfOk result (λ code. option_map string_bytes code ≡ shellcheck.comment_code (view value.now)) }
{
    match number(value, "code") {
        Some(number) => Ok(Some(format!(in alloc; "SC{number}")?)),
        None => Ok(None),
    }
}

/// The replacements of a comment.
struct Replacement;

impl TellsChange for Replacement {
    ghost edit = { λ d. shellcheck.replacement_edit d };

    fn piece(value: &Value) -> Option<Piece<'_>> {
        comment_change(value)
    }
}

/// The change of a replacement, if it says where, and what to put there.
fn comment_change(value: &Value) -> Option<Piece<'_>>
    ensures { option_map edit_of_piece result ≡ shellcheck.replacement_edit (view value.now) }
{
    Some(Piece {
        put_in: text(value, "replacement")?,
        start: start_of(value)?,
        end: end_of(value)?,
    })
}
