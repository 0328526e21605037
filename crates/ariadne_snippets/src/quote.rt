//! How a line of a file stands in a quote of it.
//!
//! A quote has the characters of its line. A tab may stand in it as blanks, a character that can't be
//! seen as a sign, one that was read as bytes as a sign for each of them. White space at the ends may differ.

ghost use Rattle.std.specs.Prelude.{◌≡◌, ◌+◌, ◌-◌, ◌<◌, ◌≤◌, ◌^◌, chars, drop, length, take};
ghost use Rattle.std.specs.Prelude.{is_some, option_map, slice_get, true, IfOk, IfSome, List, ℕ};
ghost use Rattle.std.specs.List.{list_all, prefix_len, range_with_len};
ghost use Rattle.ariadne_snippets.specs.Snippets.{IsQuoteOf};
ghost use Rattle.ariadne_snippets.specs.Marks.{char_in, place_in};
ghost use Rattle.ariadne_snippets.specs.Quotes.{begins_in, bracket_length as brackets_of};
ghost use Rattle.ariadne_snippets.specs.Quotes.{escape_length as escape_of};
ghost use Rattle.ariadne_snippets.specs.Quotes.{is_code as is_of_code, is_sign as is_signs};
ghost use Rattle.ariadne_snippets.specs.Quotes.{is_first, is_white as is_white_space};
ghost use Rattle.ariadne_snippets.specs.Quotes.{lead_begins as begins_of_lead};
ghost use Rattle.ariadne_snippets.specs.Quotes.{lead_length as length_of_lead};
ghost use Rattle.ariadne_snippets.specs.Quotes.{near_white_length as near_white};
ghost use Rattle.ariadne_snippets.specs.Quotes.{shown_width as width_shown};
ghost use Rattle.ariadne_snippets.specs.Quotes.{shows_mark as shows_byte_order};
ghost use Rattle.ariadne_snippets.specs.Quotes.{sign_length as length_of_sign};
ghost use Rattle.ariadne_snippets.specs.Quotes.{tab_width as width_of_tab};
ghost use Rattle.ariadne_snippets.specs.Quotes.{white_length as white_in};
ghost use Rattle.ariadne_snippets.specs.Quotes.{IsBegun};
ghost use Rattle.ariadne_snippets.specs.Rows.{column_past};

use crate::cut::cut_begins;
use crate::units::{Units, byte_begins, in_units};
use ariadne_parse::Unit;
use ariadne_parse::unit::columns_of;
use std::alloc::{AllocError, Global};

/// How far white space is looked at, to find the blanks that a tab stands for.
const WHITE_LIMIT: usize = 64;

/// How long a sign is between its brackets.
const SIGN_LIMIT: usize = 8;

/// The last column.
pub(crate) const LAST_COLUMN: usize = (1 << 63) - 1;

/// A byte order mark.
const BYTE_ORDER: char = '\u{feff}';

/// A quote of a line.
#[derive(Drop)]
pub(crate) struct Quote {
    /// Its characters.
    pub(crate) chars: Vec<char>,
    /// For each character of the line, and for the line's end, where it begins among these.
    pub(crate) begins: Vec<usize>,
}

impl Quote {
    /// The quote of a line that a text is, if it quotes it. This many characters of the text are strokes in
    /// front of the quote.
    pub(crate) fn new(
        alloc: Global,
        text: &str,
        strokes: usize,
        line: &[char],
    ) -> Result<Option<Quote>, AllocError>
        ensures whole { strokes ≡ 0 → line.now ≡ chars text.now
            → IfOk result (λ quote. is_some quote ≡ true) }
        ensures quote { IfOk result (λ quote. IfSome quote (λ quote.
            IsQuoteOf quote (chars text.now) line.now)) }
    {
        let chars = chars_of(alloc, text)?;
        if let Some(begins) = begins_of(alloc, line, chars.as_slice(), strokes)? {
            return Ok(Some(Quote { chars, begins }));
        }
        if let Some(begins) = byte_begins(alloc, line, chars.as_slice())? {
            return Ok(Some(Quote { chars, begins }));
        }
        match cut_begins(alloc, line, chars.as_slice())? {
            Some(begins) => Ok(Some(Quote { chars, begins })),
            None => Ok(None),
        }
    }

    /// The line that it quotes as the quote of itself.
    pub(crate) fn by_characters(self, alloc: Global, line: &[char]) -> Result<Quote, AllocError>
        ensures { IfOk result (λ quote. (text : List ℕ) → IsQuoteOf self text line.now
            → IsQuoteOf quote text line.now) }
    {
        let itself = Quote::of_line(alloc, line)?;
        Ok(itself)
    }

    /// The line that it quotes in units of UTF-16, as the quote of itself.
    pub(crate) fn by_units(self, alloc: Global, line: &[char]) -> Result<Quote, AllocError>
        ensures { IfOk result (λ quote. (text : List ℕ) → IsQuoteOf self text line.now
            → IsQuoteOf quote text line.now) }
    {
        let units = in_units(alloc, Units::Utf16, line)?;
        Ok(units)
    }

    /// A line as the quote of itself.
    fn of_line(alloc: Global, line: &[char]) -> Result<Quote, AllocError>
        ensures chars { IfOk result (λ quote. quote.chars.items ≡ line.now) }
        ensures begins { IfOk result (λ quote.
            quote.begins.items ≡ range_with_len 0 (length line.now + 1)) }
    {
        Ok(Quote {
            chars: Vec::from_slice(alloc, line)?,
            begins: numbers(alloc, line.len() + 1)?,
        })
    }

    /// The character of the line that stands in a column, from 0: the line's length, where that is behind
    /// its last one.
    pub(crate) fn char_at(&self, unit: Unit, column: usize) -> usize
        requires { column < 2 ^ 63 }
        ensures character { result ≡ char_in self.now.begins.items
            (place_in unit column 0 self.now.chars.items) }
        ensures bound { result ≤ length self.now.begins.items - 1 }
    {
        let place = place_at(self.chars.as_slice(), unit, column);
        chars_before(self.begins.as_slice(), place)
    }

    /// The column in which a character of the line begins, from 0: 0, where the line doesn't have it.
    pub(crate) fn column_of(&self, unit: Unit, character: usize) -> usize {
        match self.begins.get(character) {
            Some(begin) => column_behind(unit, first_of(self.chars.as_slice(), *begin)),
            None => 0,
        }
    }

    /// Whether it has one character for each of a line that it quotes.
    pub(crate) fn is_one_by_one(&self, line: &[char]) -> bool {
        match self.begins.last() {
            Some(end) => *end == line.len(),
            None => false,
        }
    }

    /// Whether all of its characters are ASCII.
    pub(crate) fn is_ascii(&self) -> bool {
        self.chars.as_slice().iter().all(|c| c.is_ascii())
    }

    /// The first character of the line behind white space.
    pub(crate) fn ink_start(&self) -> usize {
        let chars = self.chars.as_slice();
        chars_before(self.begins.as_slice(), white_length(chars))
    }

    /// The character behind the last that is no white space.
    pub(crate) fn ink_end(&self) -> usize {
        let chars = self.chars.as_slice();
        let blanks = chars.iter().rev().take_while(|c| is_white(**c)).count();
        chars_before(self.begins.as_slice(), chars.len().saturating_sub(blanks))
    }

    /// Whether two columns, of which the second is no less, are columns of the line without the white
    /// space in front of it, or the two behind it.
    pub(crate) fn has(&self, unit: Unit, first: usize, last: usize) -> bool {
        let chars = self.chars.as_slice();
        white_length(chars) <= place_at(chars, unit, first.min(LAST_COLUMN))
            && place_at(chars, unit, last.min(LAST_COLUMN)) <= chars.len() + 1
    }
}

/// The first numbers, from 0.
fn numbers(alloc: Global, count: usize) -> Result<Vec<usize>, AllocError>
    ensures { IfOk result (λ list. list.items ≡ range_with_len 0 count) }
{
    (0..count).collect(alloc)
}

/// The characters of a text.
fn chars_of(alloc: Global, text: &str) -> Result<Vec<char>, AllocError>
    ensures { IfOk result (λ list. list.items ≡ chars text.now) }
{
    text.chars().collect(alloc)
}

/// Where the characters of a line begin in a quote of it, if it is one.
#[tactic(auto, unfolding(crate::specs::Quotes::begins_in))]
fn begins_of(
    alloc: Global,
    line: &[char],
    quote: &[char],
    strokes: usize,
) -> Result<Option<Vec<usize>>, AllocError>
    ensures { IfOk result (λ begins. option_map (λ begins. begins.items) begins
        ≡ begins_in line.now quote.now strokes) }
{
    let strokes = strokes.min(quote.len());
    let start = strokes + white_length(&quote[strokes..]);
    let lead = lead_length(line, &quote[start..]);
    let mut begins = lead_begins(alloc, &line[..lead], start)?;
    if push_begins(&mut begins, rest_of(line, lead), quote, start)? {
        Ok(Some(begins))
    } else {
        Ok(None)
    }
}

/// Where the white space in front of a line begins, in front of a quote that begins behind `start`
/// characters: as many columns in front of it as in its line.
fn lead_begins(alloc: Global, lead: &[char], start: usize) -> Result<Vec<usize>, AllocError>
    ensures { IfOk result (λ begins. begins.items ≡ begins_of_lead lead.now start) }
{
    let width = column_behind(Unit::Display, lead);
    let mut begins = Vec::new(alloc);
    let mut at = 0usize;
    for (place, c) in lead.iter().enumerate() {
        let aligned = start.saturating_sub(width.saturating_sub(at));
        begins.push(place.min(start).max(aligned))?;
        at = at.saturating_add(columns_of(Unit::Display, at, *c));
    }
    Ok(begins)
}

/// Adds where the characters of a line, and its end, begin in a quote, from a place in it on. The result
/// is whether it quotes the line.
fn push_begins(
    begins: &mut Vec<usize>,
    line: &[char],
    quote: &[char],
    start: usize,
) -> Result<bool, AllocError>
    requires { start ≤ length quote.now }
    ensures { IfOk result (λ is_quote. IsBegun start line.now (drop start quote.now)
        begins.old.items begins.new.items is_quote) }
{
    let mut at = start;
    for (place, c) in line.iter().enumerate() {
        let width = shown_width(*c, rest_of(line, place + 1), rest_of(quote, at));
        if width == 0 {
            return Ok(false);
        }
        begins.push(at)?;
        at += width;
    }
    begins.push(at)?;
    Ok(is_all_white(rest_of(quote, at)))
}

/// What is left of a text behind this many characters.
pub(crate) fn rest_of(text: &[char], count: usize) -> &[char]
    ensures { result.now ≡ drop count text.now }
{
    &text[count.min(text.len())..]
}

/// Whether all characters are white space.
pub(crate) fn is_all_white(text: &[char]) -> bool
    ensures { result ≡ list_all is_white_space text.now }
{
    text.iter().all(|c| is_white(*c))
}

/// Whether a character is white space, which may be gone at the ends of a quote.
fn is_white(c: char) -> bool
    ensures { result ≡ is_white_space c }
{
    c == ' ' || c == '\t' || c == '\r'
}

/// How many characters in front of a line are not looked for in a quote: white space, behind a byte order
/// mark that isn't shown.
#[tactic(auto, unfolding(crate::specs::Quotes::lead_length))]
fn lead_length(line: &[char], quote: &[char]) -> usize
    ensures length { result ≡ length_of_lead line.now quote.now }
    ensures bound { result ≤ length line.now }
{
    match line.first() {
        Some(first) if *first == BYTE_ORDER => {
            if shows_mark(quote) {
                0
            } else {
                1 + white_length(&line[1..])
            }
        }
        _ => white_length(line),
    }
}

/// Whether a quote shows a byte order mark: as it is, or by its code.
fn shows_mark(quote: &[char]) -> bool
    ensures { result ≡ shows_byte_order quote.now }
{
    match quote.first() {
        Some(first) => *first == BYTE_ORDER || *first == '<',
        None => false,
    }
}

/// How many characters of white space a text begins with.
pub(crate) fn white_length(text: &[char]) -> usize
    ensures length { result ≡ white_in text.now }
    ensures bound { result ≤ length text.now }
{
    text.iter().take_while(|c| is_white(**c)).count()
}

/// How many characters of a quote stand for a character, in front of what is left of its line: none, if it
/// quotes another.
#[tactic(auto, unfolding(crate::specs::Quotes::width_by))]
fn shown_width(c: char, line: &[char], quote: &[char]) -> usize
    ensures width { result ≡ width_shown c line.now quote.now }
    ensures bound { result ≤ length quote.now + 1 }
{
    match quote.first() {
        None => usize::from(is_white(c)),
        Some(first) if *first == c => 1,
        Some(_) if c == '\t' => tab_width(line, quote),
        Some(_) if c.is_ascii_graphic() || c == ' ' => 0,
        Some(_) => sign_length(quote),
    }
}

/// How many blanks of a quote stand for a tab: those that the white space behind it in the line leaves.
fn tab_width(line: &[char], quote: &[char]) -> usize
    ensures width { result ≡ width_of_tab line.now quote.now }
    ensures bound { result ≤ length quote.now }
{
    near_white_length(quote).saturating_sub(near_white_length(line))
}

/// How many characters of white space a text begins with, as far as they are looked at.
fn near_white_length(text: &[char]) -> usize
    ensures length { result ≡ near_white text.now }
    ensures bound { result ≤ length text.now }
{
    white_length(first_of(text, WHITE_LIMIT))
}

/// The first characters of a text, at most this many.
#[tactic(auto, using(std::proofs::lemmas::List::take_min))]
fn first_of(text: &[char], count: usize) -> &[char]
    ensures first { result.now ≡ take count text.now }
    ensures bound { length result.now ≤ length text.now }
{
    &text[..count.min(text.len())]
}

/// How long the sign is that stands for a character which isn't shown, if a quote begins with one.
fn sign_length(quote: &[char]) -> usize
    ensures length { result ≡ length_of_sign quote.now }
    ensures bound { result ≤ length quote.now }
{
    match quote.first() {
        Some(first) if *first == '<' => bracket_length(&quote[1..]),
        Some(first) if *first == '\\' => escape_length(&quote[1..]),
        Some(first) => usize::from(is_sign(*first)),
        None => 0,
    }
}

/// Whether a character stands for others: the picture of a control, of what is no character, or `?` for one that
/// the encoding of the output doesn't have.
fn is_sign(c: char) -> bool
    ensures { result ≡ is_signs c }
{
    c == '\u{fffd}' || (c == '?' || ('\u{2400}' <= c && c <= '\u{2426}'))
}

/// How long a sign as `\x{6F22}` is, if one goes on so behind its first character.
#[tactic(auto, unfolding(crate::specs::Quotes::escape_length))]
fn escape_length(inner: &[char]) -> usize
    ensures length { result ≡ escape_of inner.now }
    ensures bound { result ≤ length inner.now + 1 }
{
    let digits = rest_of(inner, 2);
    let length = code_length(first_of(digits, SIGN_LIMIT));
    if inner.starts_with(&['x', '{']) && length > 0 && has_at(digits, length, '}') {
        length + 4
    } else {
        0
    }
}

/// How long a sign as `<U+000C>` or `<E9>` is, if one goes on so behind its first bracket.
#[tactic(auto, unfolding(crate::specs::Quotes::bracket_length))]
fn bracket_length(inner: &[char]) -> usize
    ensures length { result ≡ brackets_of inner.now }
    ensures bound { result ≤ length inner.now + 1 }
{
    let length = code_length(first_of(inner, SIGN_LIMIT));
    if length >= 2 && has_at(inner, length, '>') {
        length + 2
    } else {
        0
    }
}

/// Whether a character stands behind this many.
fn has_at(text: &[char], count: usize, wanted: char) -> bool
    ensures value { result ≡ is_first wanted (slice_get text.now count) }
    ensures bound { result ≡ true → count < length text.now }
{
    match text.get(count) {
        Some(c) => *c == wanted,
        None => false,
    }
}

/// How many characters of a code a text begins with.
fn code_length(text: &[char]) -> usize
    ensures length { result ≡ prefix_len is_of_code text.now }
    ensures bound { result ≤ length text.now }
{
    text.iter().take_while(|c| is_code(**c)).count()
}

/// Whether a character is one of a code, as `U+000C`.
fn is_code(c: char) -> bool
    ensures { result ≡ is_of_code c }
{
    c.is_ascii_hexdigit() || c == 'U' || c == '+'
}

/// The character of a quote that stands in a column, from 0. Behind its end each has one column.
#[tactic(auto, unfolding(crate::specs::Marks::place_in))]
fn place_at(quote: &[char], unit: Unit, column: usize) -> usize
    requires { column < 2 ^ 63 }
    ensures { result ≡ place_in unit column 0 quote.now }
{
    let mut at = 0;
    for (place, c) in quote.iter().enumerate() {
        let columns = columns_of(unit, at, *c);
        if columns > column - at {
            return place;
        }
        at += columns;
    }
    quote.len() + (column - at)
}

/// The column behind characters, which begin in the first.
fn column_behind(unit: Unit, text: &[char]) -> usize
    ensures { result ≡ column_past unit 0 text.now }
{
    let mut at = 0usize;
    for c in text {
        at = at.saturating_add(columns_of(unit, at, *c));
    }
    at
}

/// How many characters of a line end at most at a place of its quote.
#[tactic(auto, unfolding(crate::specs::Marks::char_in))]
fn chars_before(begins: &[usize], place: usize) -> usize
    ensures chars { result ≡ char_in begins.now place }
    ensures bound { result ≤ length begins.now - 1 }
{
    match begins.split_first() {
        Some((_, ends)) => ends.iter().take_while(|end| **end <= place).count(),
        None => 0,
    }
}
