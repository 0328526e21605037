//! Quotes of a part of a line, with dots where it was cut. gcc writes none where it cuts the front off, to fit a
//! terminal. A part has the characters of its line as they are.

ghost use Rattle.std.specs.Prelude.{◌≡◌, ◌+◌, ◌^◌, ◌<◌, ◌≤◌, ◌==◌, drop, length, true, IfOk, IfSome};
ghost use Rattle.std.specs.List.{starts_with};
ghost use Rattle.ariadne_snippets.specs.Quotes.{part_begins as begins_of_part, IsPart, StandsIn};

use std::alloc::{AllocError, Global};

/// What stands for the characters that were cut off.
const DOTS: &[char] = &['.', '.', '.'];

/// How long a part is at least.
const PART_LENGTH: usize = 8;

/// How long a line is at most in which a part is looked for that was cut at both ends.
const LINE_LENGTH: usize = 10_000;

/// Where the characters of a line, and its end, begin in a quote of a part of it, if it is one.
pub(crate) fn cut_begins(
    alloc: Global,
    line: &[char],
    quote: &[char],
) -> Result<Option<Vec<usize>>, AllocError>
    ensures { IfOk result (λ begins. IfSome begins (λ begins.
        IsPart line.now quote.now begins.items)) }
{
    match part_of(line, quote) {
        Some((start, place)) => Ok(Some(part_begins(alloc, line.len(), start, place)?)),
        None => Ok(None),
    }
}

/// Where characters begin that stand one by one from a place on. Those in front of it begin there too.
fn part_begins(
    alloc: Global,
    length: usize,
    start: usize,
    place: usize,
) -> Result<Vec<usize>, AllocError>
    requires { start + length + 1 < 2 ^ 64 }
    ensures { IfOk result (λ begins. begins.items ≡ begins_of_part length start place) }
{
    (0..length + 1)
        .map(|at| start + at.saturating_sub(place))
        .collect(alloc)
}

/// Where the part begins in a quote, and in its line.
fn part_of(line: &[char], quote: &[char]) -> Option<(usize, usize)>
    ensures part { IfSome result (λ at. StandsIn line.now quote.now at.1 at.0) }
    ensures bound { IfSome result (λ at. at.0 ≤ length quote.now) }
{
    let (start, is_front_cut) = front_of(quote);
    let (end, is_end_cut) = end_of(quote);
    let part = quote.get(start..end)?;
    if part.len() < PART_LENGTH {
        return None;
    }
    let place = place_of(line, part, is_front_cut, is_end_cut)?;
    Some((start, place))
}

/// Where a part begins, and whether dots stand in front of it.
fn front_of(quote: &[char]) -> (usize, bool) {
    let lead = blank_length(quote);
    if quote[lead..].starts_with(DOTS) {
        (lead + DOTS.len(), true)
    } else {
        (lead, false)
    }
}

/// Where a part ends, and whether dots stand behind it.
fn end_of(quote: &[char]) -> (usize, bool) {
    let end = inked_length(quote);
    if quote[..end].ends_with(DOTS) {
        (end.saturating_sub(DOTS.len()), true)
    } else {
        (end, false)
    }
}

/// Where a part stands in its line, by the ends at which it was cut.
fn place_of(line: &[char], part: &[char], is_front_cut: bool, is_end_cut: bool) -> Option<usize>
    requires { 0 < length part.now }
    ensures { IfSome result (λ place.
        starts_with (λ a b. a == b) (drop place line.now) part.now ≡ true) }
{
    let place = match (is_front_cut, is_end_cut) {
        (false, true) => blank_length(line),
        (false, false) | (true, false) => inked_length(line).checked_sub(part.len())?,
        (true, true) => only_place(line, part)?,
    };
    if line.get(place..)?.starts_with(part) {
        Some(place)
    } else {
        None
    }
}

/// The one place at which a part stands in a line.
fn only_place(line: &[char], part: &[char]) -> Option<usize>
    requires { 0 < length part.now }
{
    if line.len() > LINE_LENGTH {
        return None;
    }
    let mut places = line
        .windows(part.len())
        .enumerate()
        .filter(|(_, window)| *window == part)
        .map(|(place, _)| place);
    let place = places.next()?;
    match places.next() {
        Some(_) => None,
        None => Some(place),
    }
}

/// How many blanks a text begins with.
fn blank_length(text: &[char]) -> usize
    ensures { result ≤ length text.now }
{
    text.iter().take_while(|c| is_blank(**c)).count()
}

/// How long a text is without the blanks at its end.
fn inked_length(text: &[char]) -> usize
    ensures { result ≤ length text.now }
{
    let blanks = text.iter().rev().take_while(|c| is_blank(**c)).count();
    text.len().saturating_sub(blanks)
}

/// Whether a character is a blank.
fn is_blank(c: char) -> bool {
    c == ' ' || c == '\t' || c == '\r'
}
