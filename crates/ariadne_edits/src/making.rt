//! The text that changes make.

ghost use Rattle.std.specs.Prelude.{◌≡◌, IfOk, IfErr, string_bytes};
ghost use Rattle.ariadne_edits.specs.Changes.{edited_text, Fit};
ghost use Rattle.ariadne_edits.specs.Outcomes.{Accepts, RefusedAs};

use crate::change::{Change, changes_in_bytes, in_order};
use crate::edit::{Edit, EditError};
use crate::refusal::refusal;
use ariadne_picture::switches::IndexType;
use std::alloc::{AllocError, Global};

/// The edits of a text in order and in bytes, where they can be made.
pub(crate) fn accepted<'a>(
    alloc: Global,
    text: &str,
    counts: IndexType,
    edits: &'a [Edit],
) -> Result<Vec<Change<'a>>, EditError>
    ensures ok { IfOk result (λ made. Accepts counts text.now edits.now made.items) }
    ensures err { IfErr result (RefusedAs counts text.now edits.now) }
{
    let changes = in_order(alloc, edits)?;
    match refusal(text, counts, changes.as_slice()) {
        Some(bad) => return Err(EditError::Refused(bad)),
        None => {}
    }
    let made = changes_in_bytes(alloc, text, counts, changes.as_slice())?;
    Ok(made)
}

/// The text with each span replaced.
///
/// On `Err` there was no memory for it.
pub(crate) fn joined(
    alloc: Global,
    text: &str,
    changes: &[Change<'_>],
) -> Result<String, AllocError>
    requires { Fit text.now 0 changes.now }
    ensures { IfOk result (λ out. string_bytes out ≡ edited_text text.now changes.now) }
{
    let mut out = String::new(alloc);
    let mut at = 0;
    for change in changes {
        out.push_str(&text[at..change.start])?;
        out.push_str(change.text)?;
        at = change.end;
    }
    out.push_str(&text[at..])?;
    Ok(out)
}
