//! From the edits that a call is given to the text of a help, and from there to its buffer.

ghost use Rattle.std.specs.Prelude.{◌≡◌, ◌≤◌, IfOk, OnOk, IfErr, None, string_bytes};
ghost use Rattle.ariadne_calls.specs.Suggesting.{AreAsked, asked_edit, first_unread, Gives, IsRefusal};
ghost use Rattle.ariadne_calls.specs.Suggesting.{IsTold, IsUnread, made_edit, misgiven, view_of};

use crate::flag;
use crate::given::{GivenEdit, GivenSuggestion};
use crate::settings::columns_of_tab;
use crate::suggestion::{Misgiven, Suggested, Unsuggested};
use crate::texts::decoded;
use ariadne::Source;
use ariadne_edits::{Edit, EditError, View, suggestion};
use std::alloc::{AllocError, Global};

/// Writes the text of a help that shows edits of a source into `out`.
pub fn suggest(alloc: Global, given: &GivenSuggestion<'_>, out: &mut [u8]) -> Suggested
    ensures { Gives given.now out.old out.new result }
{
    let text = match text_of(alloc, given) {
        Ok(text) => text,
        Err(refusal) => return Suggested::Refused(refusal),
    };
    let len = text.len();
    if out.len() < len {
        return Suggested::TooShort { len };
    }
    out[..len].copy_from_slice(text.as_bytes());
    Suggested::Told { len }
}

/// The text of a help that shows edits of a source.
fn text_of(alloc: Global, given: &GivenSuggestion<'_>) -> Result<String, Unsuggested>
    ensures ok { IfOk result (λ text. IsTold given.now (string_bytes text)) }
    ensures sound { OnOk result (misgiven given.now ≡ None) }
    ensures err { IfErr result (IsRefusal given.now) }
{
    if given.flags > flag::ALL {
        return Err(Unsuggested::Faulty(Misgiven::Flags));
    }
    let Some(text) = decoded(given.source.text.bytes) else {
        return Err(Unsuggested::Faulty(Misgiven::SourceText));
    };
    let source = Source::from(alloc, text)?;
    let offset = given.source.line_offset;
    let Some(_) = offset.checked_add(source.lines().len()) else {
        return Err(Unsuggested::Faulty(Misgiven::SourceLines));
    };
    let edits = match edits_of(alloc, given.edits) {
        Ok(edits) => edits,
        Err(refusal) => return Err(refusal),
    };
    let source = source.with_display_line_offset(offset);
    let counts = flag::index_type_of(given.flags);
    match suggestion(alloc, &source, counts, view_of(given), edits.as_slice()) {
        Ok(text) => Ok(text),
        Err(EditError::Memory(_)) => Err(Unsuggested::NoMemory),
        Err(EditError::Refused(bad)) => Err(Unsuggested::Faulty(Misgiven::Edits(bad))),
    }
}

/// How lines are shown.
fn view_of(given: &GivenSuggestion<'_>) -> View
    ensures view { result ≡ view_of given.now }
    ensures tabs { 1 ≤ result.tab_width }
{
    View {
        tab_width: columns_of_tab(given.tab_width),
        width: given.width,
        char_set: flag::char_set_of(given.flags),
    }
}

/// The edits that are given.
fn edits_of(alloc: Global, given: &[GivenEdit<'_>]) -> Result<Vec<Edit>, Unsuggested>
    ensures ok { IfOk result (λ edits. AreAsked given.now edits.items) }
    ensures sound { OnOk result (first_unread 0 given.now ≡ None) }
    ensures err { IfErr result (IsUnread given.now) }
{
    let mut edits = Vec::new(alloc);
    for (number, edit) in given.iter().enumerate() {
        let Some(text) = decoded(edit.text.bytes) else {
            return Err(Unsuggested::Faulty(Misgiven::EditText(number)));
        };
        edits.push(edit_of(alloc, edit, text)?)?;
    }
    Ok(edits)
}

/// An edit that puts in this text.
fn edit_of(alloc: Global, given: &GivenEdit<'_>, text: &str) -> Result<Edit, AllocError>
    requires { text.now ≡ given.now.text.bytes.now }
    ensures { IfOk result (λ edit. made_edit edit ≡ asked_edit given.now) }
{
    Ok(Edit {
        span: given.start..given.end,
        text: String::from_str(alloc, text)?,
    })
}
