//! The scan of a text for its lines.

ghost use Rattle.std.specs.Prelude.{◌≡◌, IfOk};
ghost use Rattle.std.specs.Str.{chars};
ghost use Rattle.ariadne_base.specs.Lines.{is_separator as separates, ends_line as is_last_of_line};
ghost use Rattle.ariadne_base.specs.Lines.{begins_with_line_feed as begins_in_line_feed, lines_of};
ghost use Rattle.ariadne_base.specs.Starts.{line_starts};

use super::start::Start;
use crate::blocks::run::plain_run;
use std::alloc::{AllocError, Global};

/// The first number of starts with room: those of seven lines, and the end of the last line.
const ROOM: usize = 8;

/// Whether a character ends a line.
#[tactic(auto, using(std::proofs::lemmas::Bool::Decides::nat_tests), unfolding(crate::specs::Lines::is_separator))]
fn is_separator(c: char) -> bool
    ensures { result ≡ separates c }
{
    if c.is_ascii() {
        matches!(c, '\n'..='\r')
    } else {
        matches!(c, '\u{85}' | '\u{2028}' | '\u{2029}')
    }
}

/// Whether a text begins with LF.
fn begins_with_line_feed(text: &str) -> bool
    ensures { result ≡ begins_in_line_feed (chars text.now) }
{
    text.starts_with('\n')
}

/// Whether a character, before the rest of the text, is the last of a line.
fn ends_line(c: char, rest: &str) -> bool
    ensures { result ≡ is_last_of_line c (chars rest.now) }
{
    is_separator(c) && !(c == '\r' && begins_with_line_feed(rest))
}

/// The start of each line of a text, and the end of the text, in one pass.
pub(super) fn line_starts_of(alloc: Global, text: &str) -> Result<Vec<Start>, AllocError>
    ensures { IfOk result (λ v. v.items ≡ line_starts (lines_of (chars text.now))) }
{
    let mut starts = Vec::with_capacity(alloc, ROOM)?;
    starts.push(Start::FIRST)?;
    let mut begun = 0;
    let mut at = 0;
    let mut rest = text.chars();
    while let Some(c) = rest.next() {
        at += 1;
        if ends_line(c, rest.as_str()) {
            starts.push(Start {
                chars: at,
                bytes: text.len() - rest.as_str().len(),
            })?;
            begun = at;
        } else {
            // No line ends before the next separator.
            let run = plain_run(rest.as_str());
            at += run.chars;
            rest = rest.as_str()[run.bytes..].chars();
        }
    }
    if begun < at || starts.len() == 1 {
        starts.push(Start {
            chars: at,
            bytes: text.len(),
        })?;
    }
    Ok(starts)
}
