//! How a message goes on in lines of its own.
//!
//! ```text
//! a.py:1:1: error: Argument 1 to "f" has incompatible type "A"; expected          mypy cuts it at a width
//! "B"  [arg-type]
//! a.rs:4:1: error: first row                             rustc's and cargo's short form has its rows as far
//!        second row                                      to the right as it begins behind `COLUMN: `
//! ```

ghost use Rattle.std.specs.Prelude.{◌≡◌, ◌==◌, option_map};
ghost use Rattle.std.specs.List.{list_any, prefix_len};
ghost use Rattle.std.specs.Option.{option_copied};
ghost use Rattle.ariadne_parse.specs.TextPieces.{split_once};
ghost use Rattle.ariadne_parse.specs.Spans.{seen};
ghost use Rattle.ariadne_blocks.specs.GoingOn as going;

use crate::events::{begins_with, behind_blank, closes_with};
use crate::message::{had_no_room, is_of_python, width_of};
use ariadne_parse::Span;

/// How a message may go on in the next line.
#[derive(Clone, Copy)]
pub(crate) enum GoesOn {
    /// It may not.
    Nowhere,
    /// With a word that had no room: the line that was read last has so many characters.
    Cut(usize),
    /// With a row behind more blanks than these.
    Rows(usize),
}

impl GoesOn {
    /// How the message of a head about this span may go on.
    pub(crate) fn behind(head: &str, span: Option<&Span>) -> GoesOn
        ensures { result ≡ going.behind_head head.now (option_map seen (option_copied span.entry)) }
    {
        match span {
            Some(span) if is_of_python(span.file.as_str()) => GoesOn::Cut(width_of(head)),
            Some(span) if is_of_rust(span.file.as_str()) => behind_kind(head),
            _ => GoesOn::Nowhere,
        }
    }

    /// Whether a text may go on with it.
    pub(crate) fn may_go_on(self, text: &str) -> bool
        ensures { result ≡ going.may_go_on_in self text.now }
    {
        match self {
            GoesOn::Cut(width) => had_no_room(width, text),
            GoesOn::Nowhere | GoesOn::Rows(_) => false,
        }
    }

    /// The further row of it that a text is. One with a status of cargo's is none.
    pub(crate) fn row(self, text: &str) -> Option<&str>
        ensures { option_map (λ row. row.now) result ≡ going.row_in self text.now }
    {
        match self {
            GoesOn::Rows(blanks) if !is_status(text) => behind_blanks(blanks, text),
            _ => None,
        }
    }
}

/// Whether a file is one of Rust's.
fn is_of_rust(file: &str) -> bool
    ensures { result ≡ going.is_of_rust file.now }
{
    closes_with(file, ".rs")
}

/// How a message goes on behind the kind that a head of rustc's short form names: behind a blank for each of its
/// characters, for the colon, and for the blank.
fn behind_kind(head: &str) -> GoesOn
    ensures { result ≡ going.behind_kind (going.kind_in head.now) }
{
    match kind_in(head) {
        Some(kind) => GoesOn::Rows(kind.len()),
        None => GoesOn::Nowhere,
    }
}

/// The kind of a head `FILE:LINE:COLUMN: KIND: MESSAGE`, with the blank in front of it.
#[tactic(auto, unfolding(crate::specs::GoingOn::kind_in))]
fn kind_in(head: &str) -> Option<&str>
    ensures { option_map (λ kind. kind.now) result ≡ going.kind_in head.now }
{
    let (_, span) = at_colon(head)?;
    let (_, column) = at_colon(span)?;
    let (_, said) = at_colon(column)?;
    let (kind, _) = at_colon(said)?;
    if has_blank(behind_blank(kind)?) {
        return None;
    }
    Some(kind)
}

/// What stands in front of the first colon of a text, and behind it.
fn at_colon(text: &str) -> Option<(&str, &str)>
    ensures { option_map (λ parts. (parts.0.now, parts.1.now)) result ≡ split_once 58 text.now }
{
    text.split_once(':')
}

/// Whether a text has a blank.
fn has_blank(text: &str) -> bool
    ensures { result ≡ list_any (λ c. c == 32) text.now }
{
    text.as_bytes().contains(&b' ')
}

/// Whether a text is a status of cargo's whose word begins where rows may: cargo's words end at one column.
fn is_status(text: &str) -> bool
    ensures { result ≡ going.is_status text.now }
{
    begins_with(text, "       Fresh ")
        || begins_with(text, "       Dirty ")
        || begins_with(text, "       Fixed ")
}

/// What stands behind one blank more than these, if a text begins with so many.
fn behind_blanks(blanks: usize, text: &str) -> Option<&str>
    ensures { option_map (λ row. row.now) result ≡ going.behind_blanks blanks text.now }
{
    if blanks < blanks_of(text.as_bytes()) {
        Some(&text[blanks + 1..])
    } else {
        None
    }
}

/// How many blanks bytes begin with.
fn blanks_of(bytes: &[u8]) -> usize
    ensures { result ≡ prefix_len (λ c. c == 32) bytes.now }
{
    bytes.iter().take_while(|byte| **byte == b' ').count()
}
