//! The first bracket of a text that has no partner.

ghost use Rattle.std.specs.Prelude.{◌≡◌, ℕ, List, Option, IfOk, chars};
ghost use Rattle.ariadne_commands.specs.Brackets.{closing_of, is_closing, IsFirstOffence};

use std::alloc::{AllocError, Global};

/// What is wrong with a text first, by the offsets of its characters, which count from 0.
#[derive(Clone, Copy)]
pub enum Offence {
    /// The closing bracket here stands where no bracket is open.
    Unopened(usize),
    /// The bracket at the first offset is open, and one of another kind closes it at the second.
    Mismatched(usize, usize),
    /// The bracket here is the last one that is open at the end of the text.
    Unclosed(usize),
}

/// A bracket that is open.
#[derive(Clone, Copy)]
struct OpenBracket {
    /// Where it stands.
    offset: usize,
    /// The bracket that closes it.
    closing: char,
}

/// The first offence of a text, if it has one.
///
/// The text is read once, and takes memory for each bracket that is open at once.
pub fn first_offence(alloc: Global, text: &str) -> Result<Option<Offence>, AllocError>
    ensures { IfOk result (λ found. IsFirstOffence (chars text.now) found) }
{
    let mut opened: Vec<OpenBracket> = Vec::new(alloc);
    for (offset, c) in text.chars().enumerate() {
        if let Some(closing) = closing_of(c) {
            opened.push(OpenBracket { offset, closing })?;
        } else if is_closing(c) {
            match opened.pop() {
                Some(bracket) if bracket.closing == c => {}
                Some(bracket) => return Ok(Some(Offence::Mismatched(bracket.offset, offset))),
                None => return Ok(Some(Offence::Unopened(offset))),
            }
        }
    }
    Ok(opened.pop().map(|it| Offence::Unclosed(it.offset)))
}

/// A text has one first offence, or none: no two answers are right.
pub fn texts_have_one_first_offence()
    ensures { (text : List ℕ) (a b : Option Offence)
        → IsFirstOffence text a → IsFirstOffence text b → a ≡ b }
{}

/// The bracket that closes an opening one.
#[tactic(auto, unfolding(crate::specs::Brackets::closing_of))]
fn closing_of(c: char) -> Option<char>
    ensures { result ≡ closing_of c }
{
    match c {
        '(' => Some(')'),
        '[' => Some(']'),
        '{' => Some('}'),
        _ => None,
    }
}

/// Whether a character is a closing bracket.
#[tactic(auto, unfolding(crate::specs::Brackets::is_closing))]
fn is_closing(c: char) -> bool
    ensures { result ≡ is_closing c }
{
    c == ')' || c == ']' || c == '}'
}
