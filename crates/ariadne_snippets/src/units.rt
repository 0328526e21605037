//! A line in the units of an encoding, of which a character may take several.

ghost use Rattle.std.specs.Prelude.{◌≡◌, ◌++◌, IfOk, IfSome, OnOk};
ghost use Rattle.ariadne_snippets.specs.Units.{count_of as count_in, in_units as line_in_units};
ghost use Rattle.ariadne_snippets.specs.Units.{sign_of as sign_in, unit_begins, units_of};
ghost use Rattle.ariadne_snippets.specs.Quotes.{goes_on_white as is_on_white, IsInBytes};

use crate::quote::{Quote, is_all_white, rest_of};
use std::alloc::{AllocError, Global};

/// What units stand for a character.
#[derive(Clone, Copy)]
pub(crate) enum Units {
    /// Those of UTF-16, each as the character itself.
    Utf16,
    /// Its bytes, each as `?`, if it is none of ASCII.
    Bytes,
}

/// A line in units, as a quote of itself.
pub(crate) fn in_units(alloc: Global, units: Units, line: &[char]) -> Result<Quote, AllocError>
    ensures chars { IfOk result (λ quote. quote.chars.items ≡ line_in_units units line.now) }
    ensures begins { IfOk result (λ quote. quote.begins.items ≡ unit_begins units 0 line.now) }
{
    let mut chars = Vec::new(alloc);
    let mut begins = Vec::new(alloc);
    for c in line {
        begins.push(chars.len())?;
        push_units(&mut chars, units, *c)?;
    }
    begins.push(chars.len())?;
    Ok(Quote { chars, begins })
}

/// Adds the units of a character.
fn push_units(chars: &mut Vec<char>, units: Units, c: char) -> Result<(), AllocError>
    ensures { OnOk result (chars.new.items ≡ chars.old.items ++ units_of units c) }
{
    for turn in 0..count_of(units, c) {
        chars.push(sign_of(units, c))?;
    }
    Ok(())
}

/// How many units a character takes.
fn count_of(units: Units, c: char) -> usize
    ensures { result ≡ count_in units c }
{
    match units {
        Units::Utf16 => c.len_utf16(),
        Units::Bytes => c.len_utf8(),
    }
}

/// What each of them is in a row.
fn sign_of(units: Units, c: char) -> char
    ensures { result ≡ sign_in units c }
{
    match units {
        Units::Bytes if !c.is_ascii() => '?',
        Units::Utf16 | Units::Bytes => c,
    }
}

/// Where the characters of a line, and its end, begin in a quote that has `?` for each of their bytes, if it is one:
/// so javac writes a file that it read as ASCII.
pub(crate) fn byte_begins(
    alloc: Global,
    line: &[char],
    quote: &[char],
) -> Result<Option<Vec<usize>>, AllocError>
    ensures { IfOk result (λ begins. IfSome begins (λ begins.
        IsInBytes line.now quote.now begins.items)) }
{
    let Quote { chars, begins } = in_units(alloc, Units::Bytes, line)?;
    Ok(if goes_on_white(quote, chars.as_slice()) {
        Some(begins)
    } else {
        None
    })
}

/// Whether a text begins with another, and has nothing but white space behind it.
fn goes_on_white(text: &[char], front: &[char]) -> bool
    ensures { result ≡ is_on_white text.now front.now }
{
    text.starts_with(front) && is_all_white(rest_of(text, front.len()))
}
