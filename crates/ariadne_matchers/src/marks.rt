//! The marks below what a tool quotes of a line, and where they stand in the file's line.

ghost use Rattle.std.specs.Prelude.{◌≡◌, ◌≤◌, chars, length, map, option_map, take, IfOk};
ghost use Rattle.std.specs.List.{prefix_len, suffix_len};
ghost use Rattle.std.specs.Char.{is_whitespace};
ghost use Rattle.ariadne_matchers.specs.Catches.{caught_at, cut_told};
ghost use Rattle.ariadne_matchers.specs.Lasts.{last_of};
ghost use Rattle.ariadne_matchers.specs.Measures.{width_from};
ghost use Rattle.ariadne_matchers.specs.QuotedMarks.{as_blank as blank_for, begin_line, column_of_first, found_in};
ghost use Rattle.ariadne_matchers.specs.QuotedMarks.{marked_at, marks_by, marks_of, marks_told, same_letters, trimmed as bare_of};
ghost use Rattle.ariadne_matchers.specs.declared.lasts.Group.TheVariants.{Quoted, Marks as Marked};

use crate::caught::{Caught, Piece};
use crate::columns::columns_behind;
use crate::lasts::{Group, last};
use crate::measure::Measure;
use std::alloc::{AllocError, Global};

/// How many of the letters that a tool quotes are looked for, so that the length of the line alone bounds the time.
const LETTERS: usize = 256;

/// Marks below what a tool quotes of a line. Columns count from 0.
#[derive(Drop)]
pub struct Marks {
    /// The first letters that it quotes, without blanks around them.
    pub letters: Vec<char>,
    /// The column of the first of them in its row.
    pub quoted: usize,
    /// The column of the first mark in its row.
    pub first: usize,
    /// How many marks there are.
    pub count: usize,
}

/// The marks that lines caught last, below what they quoted last.
pub(crate) fn last_marks(
    alloc: Global,
    measure: Measure,
    lines: &[Caught<'_>],
) -> Result<Option<Marks>, AllocError>
    ensures { IfOk result (λ marks. option_map marks_told marks ≡ marks_by measure
        (last_of Quoted (map caught_at lines.now)) (last_of Marked (map caught_at lines.now))) }
{
    match (last(lines, Group::Quoted), last(lines, Group::Marks)) {
        (Some(quoted), Some(marks)) => Ok(Some(marks_below(alloc, measure, quoted, marks)?)),
        _ => Ok(None),
    }
}

/// The marks below what was quoted.
#[tactic(auto, unfolding(crate::specs::QuotedMarks::marks_of))]
fn marks_below(
    alloc: Global,
    measure: Measure,
    quoted: Piece<'_>,
    marks: Piece<'_>,
) -> Result<Marks, AllocError>
    ensures { IfOk result (λ below. marks_told below ≡ marks_of measure (cut_told quoted.entry) (cut_told marks.entry)) }
{
    Ok(Marks {
        letters: letters_of(alloc, quoted.text)?,
        quoted: first_column(alloc, measure, quoted)?,
        first: column_behind(alloc, measure, marks.front)?,
        count: count_of(marks.text),
    })
}

/// The first characters of a text without the blanks around it.
fn letters_of(alloc: Global, text: &str) -> Result<Vec<char>, AllocError>
    ensures { IfOk result (λ letters. letters.items ≡ take 256 (bare_of (chars text.now))) }
{
    let text = chars_of(alloc, text)?;
    Vec::from_slice(alloc, first_letters(trimmed(text.as_slice())))
}

/// The letters that are looked for.
fn first_letters(letters: &[char]) -> &[char]
    ensures { result.now ≡ take 256 letters.now }
{
    &letters[..LETTERS.min(letters.len())]
}

/// The column of the first character of a text in its line that is no blank.
fn first_column(alloc: Global, measure: Measure, piece: Piece<'_>) -> Result<usize, AllocError>
    ensures { IfOk result (λ column. column ≡ column_of_first measure (cut_told piece.entry)) }
{
    let text = chars_of(alloc, piece.text)?;
    let front = column_behind(alloc, measure, piece.front)?;
    let blanks = blanks_before(text.as_slice());
    Ok(columns_behind(measure, front, &text[..blanks]))
}

/// How many characters a text has.
fn count_of(text: &str) -> usize
    ensures { result ≡ length (chars text.now) }
{
    text.chars().count()
}

/// The column behind a text that a line begins with.
fn column_behind(alloc: Global, measure: Measure, text: &str) -> Result<usize, AllocError>
    ensures { IfOk result (λ column. column ≡ width_from measure 0 (chars text.now)) }
{
    Ok(columns_behind(measure, 0, chars_of(alloc, text)?.as_slice()))
}

/// The characters of a text.
fn chars_of(alloc: Global, text: &str) -> Result<Vec<char>, AllocError>
    ensures { IfOk result (λ list. list.items ≡ chars text.now) }
{
    text.chars().collect(alloc)
}

/// How many blanks a text begins with.
fn blanks_before(text: &[char]) -> usize
    ensures count { result ≡ prefix_len is_whitespace text.now }
    ensures bound { result ≤ length text.now }
{
    text.iter().take_while(|c| c.is_whitespace()).count()
}

/// How many blanks a text ends with.
fn blanks_behind(text: &[char]) -> usize
    ensures count { result ≡ suffix_len is_whitespace text.now }
    ensures bound { result ≤ length text.now }
{
    text.iter().rev().take_while(|c| c.is_whitespace()).count()
}

/// A text without the blanks around it.
fn trimmed(text: &[char]) -> &[char]
    ensures { result.now ≡ bare_of text.now }
{
    let text = &text[blanks_before(text)..];
    &text[..text.len() - blanks_behind(text)]
}

impl Marks {
    /// The column of the file's line, from 0, at which the marks stand, if it has the letters that were quoted.
    #[tactic(auto, unfolding(crate::specs::QuotedMarks::marked_at))]
    pub fn column(&self, measure: Measure, line: &[char]) -> Option<usize>
        ensures { result ≡ marked_at measure (marks_told self.now) line.now }
    {
        let place = place_of(line, self.letters.as_slice())?;
        let there = columns_behind(measure, 0, &line[..place]);
        Some(there.saturating_add(self.first).saturating_sub(self.quoted))
    }
}

/// The first place of a line at which letters stand.
fn place_of(line: &[char], letters: &[char]) -> Option<usize>
    ensures { result ≡ found_in letters.now 0 line.now }
{
    for place in 0..line.len() {
        if begins_with(&line[place..], letters) {
            return Some(place);
        }
    }
    if letters.is_empty() {
        return Some(line.len());
    }
    None
}

/// Whether a line begins with letters; a tab is as a blank.
fn begins_with(line: &[char], letters: &[char]) -> bool
    ensures { result ≡ begin_line letters.now line.now }
{
    for (place, letter) in letters.iter().enumerate() {
        if place >= line.len() || !is_same(line[place], *letter) {
            return false;
        }
    }
    true
}

/// Whether two letters are the same; a tab is as a blank.
fn is_same(one: char, other: char) -> bool
    ensures { result ≡ same_letters one other }
{
    as_blank(one) == as_blank(other)
}

/// A letter, and a blank for a tab.
fn as_blank(letter: char) -> char
    ensures { result ≡ blank_for letter }
{
    if letter == '\t' { ' ' } else { letter }
}
