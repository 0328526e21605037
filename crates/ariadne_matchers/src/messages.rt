//! The message of a diagnostic, by the rows that lines caught of it.

ghost use Rattle.std.specs.Prelude.{◌≡◌, map, option_map, string_bytes, IfOk};
ghost use Rattle.ariadne_matchers.specs.Catches.{caught_at, cut_told};
ghost use Rattle.ariadne_matchers.specs.MatchedMessages.{chosen as chosen_of, message_of, message_row};
ghost use Rattle.ariadne_matchers.specs.MatchedMessages.{message_rows, unescaped as without_escapes};

use crate::caught::{Caught, Piece};
use crate::entry::Entry;
use percent_encoding::percent_decode;
use std::alloc::{AllocError, Global};

/// What lines say: the rows that were caught, or else the entry's own message, or the code.
pub(crate) fn message(
    alloc: Global,
    entry: &Entry,
    lines: &[Caught<'_>],
    code: Option<Piece<'_>>,
) -> Result<String, AllocError>
    ensures { IfOk result (λ message. string_bytes message
        ≡ message_of entry.now (map caught_at lines.now) (option_map cut_told code.entry)) }
{
    let rows = rows_of(alloc, lines)?;
    let joined = rows.as_slice().join(alloc, entry.join.as_str())?;
    let message = chosen(joined.as_str().trim(), entry.message.as_ref(), code);
    unescaped(alloc, entry.is_escaped, message)
}

/// The rows of a message that are not empty, without blanks at their ends.
fn rows_of<'l>(alloc: Global, lines: &[Caught<'l>]) -> Result<Vec<&'l str>, AllocError>
    ensures { IfOk result (λ rows. map (λ row. row.now) rows.items
        ≡ message_rows (map caught_at lines.now)) }
{
    let mut rows = Vec::new(alloc);
    for caught in lines {
        if let Some(row) = row_of(caught) {
            rows.push(row)?;
        }
    }
    Ok(rows)
}

/// The row of a message that a line caught, without blanks at its end, if it is not empty.
fn row_of<'l>(caught: &Caught<'l>) -> Option<&'l str>
    ensures { option_map (λ row. row.now) result ≡ message_row (caught_at caught.now) }
{
    let row = caught.message?.text.trim_end();
    if row.is_empty() {
        return None;
    }
    Some(row)
}

/// A text that is not empty, or else the entry's own, or the code, or an empty one.
fn chosen<'t>(text: &'t str, own: Option<&'t String>, code: Option<Piece<'t>>) -> &'t str
    ensures { result.now ≡ chosen_of text.now (option_map (λ own. string_bytes own.now) own.entry)
        (option_map cut_told code.entry) }
{
    if !text.is_empty() {
        return text;
    }
    match (own, code) {
        (Some(own), _) => own.as_str(),
        (None, Some(code)) => code.text,
        (None, None) => "",
    }
}

/// A text with the characters in place of their escapes, if it has some.
pub(crate) fn unescaped(alloc: Global, is_escaped: bool, text: &str) -> Result<String, AllocError>
    ensures { IfOk result (λ plain. string_bytes plain ≡ without_escapes is_escaped text.now) }
{
    if !is_escaped {
        return String::from_str(alloc, text);
    }
    let mut bytes = Vec::new(alloc);
    percent_decode(text.as_bytes()).append_to(&mut bytes)?;
    String::from_utf8_lossy(alloc, bytes.as_slice())
}
