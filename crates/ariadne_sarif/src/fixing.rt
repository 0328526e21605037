//! Fixes of documents: changes of a file, as they are proposed and as they are said.

ghost use Rattle.std.specs.Prelude.{◌≡◌, ◌++◌, map, option_map, string_bytes, IfOk, OnOk, Option};
ghost use Rattle.serde_json.specs.Data.{Data};
ghost use Rattle.serde_json.specs.View.{items_view, view};
ghost use Rattle.ariadne_parse.specs.Fixes.{standing};
ghost use Rattle.ariadne_parse.specs.Proposed.{edit_of, Edit};
ghost use Rattle.ariadne_parse.specs.Read.{read};
ghost use Rattle.ariadne_sarif.specs.Fixing.{are_changes as are_all_changes, edit_of_piece};
ghost use Rattle.ariadne_sarif.specs.DocumentParts as parts;

use ariadne_parse::fixes::{Covered, change_text, push_reasoned};
use ariadne_parse::{Change, Diagnostic, Location, Proposal, Unit};
use serde_json::Value;
use std::alloc::{AllocError, Global};

/// A piece of a file, and the text that is put there, in pieces of what tells it.
#[derive(Clone, Copy)]
pub struct Piece<'v> {
    /// Where the piece begins.
    pub start: Location,
    /// In front of what it ends.
    pub end: Location,
    /// The text.
    pub put_in: &'v str,
}

/// A form of the changes that a tool writes.
pub trait TellsChange {
    // The change that a value tells, if it tells one.
    ghost edit: { Data → Option Edit };

    /// The change that a value tells, if it says where, and what to put there.
    fn piece(value: &Value) -> Option<Piece<'_>>
        ensures { option_map edit_of_piece result ≡ edit (view value.now) };
}

/// Whether each of these values tells a change.
fn are_changes<C: TellsChange>(values: &[Value]) -> bool
    ensures { result ≡ are_all_changes C.edit (items_view values.now) }
{
    for value in values {
        if C::piece(value).is_none() {
            return false;
        }
    }
    true
}

/// The changes that values tell, if each tells one.
pub fn changes_of<C: TellsChange>(
    alloc: Global,
    values: &[Value],
) -> Result<Vec<Change>, AllocError>
    ensures { IfOk result (λ changes. map edit_of changes.items
        ≡ parts.edits_of C.edit (items_view values.now)) }
{
    if are_changes::<C>(values) {
        parsed_changes::<C>(alloc, values)
    } else {
        Ok(Vec::new(alloc))
    }
}

/// The changes of those values that tell one.
fn parsed_changes<C: TellsChange>(
    alloc: Global,
    values: &[Value],
) -> Result<Vec<Change>, AllocError>
    ensures { IfOk result (λ changes. map edit_of changes.items
        ≡ parts.edits_by C.edit (items_view values.now)) }
{
    let mut changes = Vec::new(alloc);
    for value in values {
        if let Some(piece) = C::piece(value) {
            changes.push(change(alloc, piece)?)?;
        }
    }
    Ok(changes)
}

/// The change of a piece.
pub fn change(alloc: Global, piece: Piece<'_>) -> Result<Change, AllocError>
    ensures { IfOk result (λ change. edit_of change ≡ edit_of_piece piece.entry) }
{
    Ok(Change {
        start: piece.start,
        end: piece.end,
        put_in: String::from_str(alloc, piece.put_in)?,
    })
}

/// Adds a fix to a diagnostic: these changes of a file, and why; or why alone, where there are none.
pub fn push_fix(
    alloc: Global,
    parsed: &mut Diagnostic,
    why: &str,
    file: &str,
    unit: Unit,
    changes: Vec<Change>,
) -> Result<(), AllocError>
    ensures { OnOk result (read parsed.new
        ≡ parts.with_fix why.now file.now unit (map edit_of changes.items) (read parsed.old)) }
{
    if changes.is_empty() {
        push_reason(alloc, &mut parsed.helps, why)
    } else {
        push_edits(alloc, parsed, why, file, unit, changes)
    }
}

/// Adds changes of a file to a diagnostic, as one way, and why. The same is said by helps.
fn push_edits(
    alloc: Global,
    parsed: &mut Diagnostic,
    why: &str,
    file: &str,
    unit: Unit,
    changes: Vec<Change>,
) -> Result<(), AllocError>
    ensures { OnOk result (read parsed.new
        ≡ parts.with_edits why.now file.now unit (map edit_of changes.items) (read parsed.old)) }
{
    let first = parsed.helps.len();
    let words = words_of(alloc, changes.as_slice())?;
    push_reasoned(alloc, &mut parsed.helps, why, words)?;
    let mut ways = Vec::new(alloc);
    ways.push(changes)?;
    parsed.proposals.push(Proposal {
        helps: first..parsed.helps.len(),
        why: String::from_str(alloc, why)?,
        file: String::from_str(alloc, file)?,
        unit,
        is_past_mark: false,
        ways,
    })?;
    Ok(())
}

/// Adds what a fix says that changes nothing, if it says something.
fn push_reason(alloc: Global, helps: &mut Vec<String>, why: &str) -> Result<(), AllocError>
    ensures { OnOk result (map string_bytes helps.new.items
        ≡ map string_bytes helps.old.items ++ parts.reason_alone why.now) }
{
    if why.is_empty() {
        return Ok(());
    }
    helps.push(String::from_str(alloc, why)?)?;
    Ok(())
}

/// What is said of changes, each by itself.
fn words_of(alloc: Global, changes: &[Change]) -> Result<Vec<String>, AllocError>
    ensures { IfOk result (λ all.
        map string_bytes all.items ≡ map parts.edit_words (map edit_of changes.now)) }
{
    let mut all = Vec::new(alloc);
    for change in changes {
        all.push(words(alloc, change)?)?;
    }
    Ok(all)
}

/// What is said of a change.
fn words(alloc: Global, change: &Change) -> Result<String, AllocError>
    ensures { IfOk result (λ text. string_bytes text ≡ parts.edit_words (edit_of change.now)) }
{
    let covered = covered_by(change);
    change_text(alloc, change.start, &covered, change.put_in.as_str())
}

/// What a change takes the place of: what stands up to its end, or nothing.
fn covered_by(change: &Change) -> Covered<'static>
    ensures { standing result ≡ parts.standing_at (edit_of change.now) }
{
    if change.start.line == change.end.line
        && change.start.column.unwrap_or(0) == change.end.column.unwrap_or(0)
    {
        Covered::Unnamed
    } else {
        Covered::UpTo(change.end)
    }
}
