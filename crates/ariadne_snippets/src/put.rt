//! What a help puts into a line: what the line has there that it doesn't have in the file.

ghost use Rattle.std.specs.Prelude.{◌≡◌, ◌++◌, All, IfOk, IfSome};
ghost use Rattle.ariadne_snippets.specs.RowPieces.{IsIn};
ghost use Rattle.ariadne_snippets.specs.Puts.{HaveOneEnd, IsMoreByTwo, IsMoreThan};

use crate::quote::white_length;
use std::alloc::{AllocError, Global};

/// A text that is put into a line.
#[derive(Clone, Copy)]
pub(crate) struct Insertion<'a> {
    /// The character of the line, from 0, in front of which it is put.
    pub(crate) offset: usize,
    /// The text.
    pub(crate) text: &'a str,
}

/// What a text puts into a line of a file, at one place or at two: nothing, if it has something else. White
/// space in front of both may differ.
pub(crate) fn insertions_in<'a>(
    alloc: Global,
    text: &'a str,
    line: &[char],
) -> Result<Vec<Insertion<'a>>, AllocError>
    ensures { IfOk result (λ put. All (λ piece. IsIn piece.text.now text.now) put.items) }
{
    let lead = white_length(line);
    let source = text_of(alloc, &line[lead..])?;
    let text = text.trim_start();
    let mut put = Vec::new(alloc);
    if let Some((front, piece)) = piece_of(text, source.as_str()) {
        put.push(insertion_behind(lead, front, piece))?;
        return Ok(put);
    }
    if let Some(two) = two_pieces_of(text, source.as_str()) {
        let first = insertion_behind(lead, two.front, two.first);
        put.push(first)?;
        put.push(insertion_behind(first.offset, two.middle, two.second))?;
        return Ok(put);
    }
    let Some((front, attribute)) = attribute_of(text, source.as_str()) else {
        return Ok(put);
    };
    put.push(insertion_behind(lead, front, attribute))?;
    Ok(put)
}

/// A text that is put in behind what stands in front of it, which begins at a character of its line.
fn insertion_behind<'a>(start: usize, front: &str, text: &'a str) -> Insertion<'a>
    ensures { result.text.now ≡ text.now }
{
    Insertion {
        offset: start.saturating_add(front.chars().count()),
        text,
    }
}

/// Whether a text is an attribute or an import, and a line of a file neither: it is a line of its own then.
/// Older versions of rustc show it behind a number as a line that changes.
pub(crate) fn is_new_line(text: &str, line: &[char]) -> bool {
    let text = text.trim_start();
    let line = &line[white_length(line)..];
    text.starts_with('#') && !line.starts_with(&['#'])
        || text.starts_with("use ") && !line.starts_with(&['u', 's', 'e', ' '])
}

/// What a text is beside a line of a file, without the white space around both.
#[derive(Clone, Copy)]
pub(crate) enum Kept {
    /// The same.
    Same,
    /// That line, changed: more than half of it is kept, or the file has none.
    Changed,
    /// A line of its own.
    Other,
}

/// What a text is beside a line of a file.
pub(crate) fn kept_of(
    alloc: Global,
    text: &str,
    line: Option<&[char]>,
) -> Result<Kept, AllocError> {
    let Some(line) = line else {
        return Ok(Kept::Changed);
    };
    let source = text_of(alloc, line)?;
    let (text, source) = (text.trim(), source.as_str().trim());
    if text == source {
        return Ok(Kept::Same);
    }
    let (text, source) = (text.as_bytes(), source.as_bytes());
    let kept = same_length(text, source).saturating_add(same_end(text, source));
    if kept.saturating_mul(2) > source.len() {
        Ok(Kept::Changed)
    } else {
        Ok(Kept::Other)
    }
}

/// Characters as a text.
fn text_of(alloc: Global, chars: &[char]) -> Result<String, AllocError> {
    let mut text = String::new(alloc);
    for c in chars {
        text.push(*c)?;
    }
    Ok(text)
}

/// The piece that a text has more than a source, and what stands in front of it in both. It begins with a
/// word, if it can: `let mut map` has `mut ` more than `let map`, and not `ut m`.
fn piece_of<'a>(text: &'a str, source: &str) -> Option<(&'a str, &'a str)>
    ensures { IfSome result (λ found. IsMoreThan text.now source.now found.0.now found.1.now) }
{
    let front = text.get(..same_length(text.as_bytes(), source.as_bytes()))?;
    let words = front.trim_end_matches(is_of_word);
    match piece_behind(text, source, words) {
        Some(piece) => Some((words, piece)),
        None => Some((front, piece_behind(text, source, front)?)),
    }
}

/// The piece that a text has more than a source behind this front of both.
fn piece_behind<'a>(text: &'a str, source: &str, front: &str) -> Option<&'a str>
    ensures { IfSome result (λ piece. IsMoreThan text.now source.now front.now piece.now) }
{
    let rest = source.strip_prefix(front)?;
    text.strip_prefix(front)?.strip_suffix(rest)
}

/// The attribute that a text ends in, if what stands in front of it is what a source begins with: what the
/// source goes on with then stands in the next line, which isn't shown.
fn attribute_of<'a>(text: &'a str, source: &str) -> Option<(&'a str, &'a str)>
    ensures { IfSome result (λ found. IsIn found.1.now text.now) }
{
    let (front, rest) = text.split_at_checked(text.rfind("#[")?)?;
    let attribute = rest.trim_end();
    if front.is_empty() || !source.starts_with(front) || !attribute.ends_with(']') {
        return None;
    }
    Some((front, attribute))
}

/// Two pieces that a text has more than a source.
#[derive(Clone, Copy)]
pub(crate) struct TwoPieces<'a, 's> {
    /// What stands in front of them.
    pub(crate) front: &'s str,
    /// The first.
    pub(crate) first: &'a str,
    /// What stands between them.
    pub(crate) middle: &'s str,
    /// The second.
    pub(crate) second: &'a str,
}

/// The two pieces that a text has more than a source, if it has two: behind the front of both, and in front
/// of their end.
fn two_pieces_of<'a, 's>(text: &'a str, source: &'s str) -> Option<TwoPieces<'a, 's>>
    ensures { IfSome result (λ two. IsMoreByTwo text.now source.now two) }
{
    let front = source.get(..same_length(text.as_bytes(), source.as_bytes()))?;
    let (inner, middle) = without_end(text.strip_prefix(front)?, source.strip_prefix(front)?)?;
    if middle.is_empty() {
        return None;
    }
    let (first, second) = inner.split_once(middle)?;
    Some(TwoPieces {
        front,
        first,
        middle,
        second,
    })
}

/// Both without what both end with.
fn without_end<'a, 's>(text: &'a str, source: &'s str) -> Option<(&'a str, &'s str)>
    ensures { IfSome result (λ parts. HaveOneEnd text.now source.now parts.0.now parts.1.now) }
{
    let length = same_end(text.as_bytes(), source.as_bytes());
    let end = source.get(source.len().saturating_sub(length)..)?;
    Some((text.strip_suffix(end)?, source.strip_suffix(end)?))
}

/// How many bytes both begin with.
fn same_length(text: &[u8], source: &[u8]) -> usize {
    text.iter()
        .zip(source)
        .take_while(|(a, b)| **a == **b)
        .count()
}

/// How many bytes both end with.
fn same_end(text: &[u8], source: &[u8]) -> usize {
    text.iter()
        .rev()
        .zip(source.iter().rev())
        .take_while(|(a, b)| **a == **b)
        .count()
}

/// Whether a character is one of a word.
fn is_of_word(c: char) -> bool {
    c.is_alphanumeric() || c == '_'
}
