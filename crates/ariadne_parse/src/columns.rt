//! A text by the lines and columns that compilers name.

ghost use Rattle.std.specs.Prelude.{◌≡◌, ◌<◌, ◌≤◌, ◌==◌, drop, length, not, take, chars, min, IfOk, IfSome};
ghost use Rattle.std.specs.List.{prefix_len};
ghost use Rattle.std.specs.Option.{option_copied};
ghost use Rattle.ariadne_parse.specs.Columns.{line_begins, offset_of, passed as passed_of};
ghost use Rattle.ariadne_parse.specs.Columns.{column_at as number_of_column, columns_in};
ghost use Rattle.ariadne_parse.specs.Columns.{is_word as is_of_word, word_end as end_of_word};
ghost use Rattle.ariadne_parse.specs.Columns.{first_line as first_line_of, line_of};
ghost use Rattle.ariadne_parse.specs.Columns.{line_at as number_of_line};
ghost use Rattle.ariadne_parse.specs.Columns.{line_start as start_of_line};

use crate::unit::{Unit, columns_of};
use std::alloc::{AllocError, Global};
use std::marker::Model;
use std::ops::Range;

/// A text, and where its lines begin. Lines end at line feeds alone, as compilers count them.
#[derive(Drop)]
pub struct Columns {
    chars: Vec<char>,
    begins: Vec<usize>,
}

impl Model for Columns {
    ghost use Rattle.std.specs.Prelude.{◌≡◌, List, ℕ};
    ghost use Rattle.ariadne_parse.specs.Columns.{line_begins};

    ghost Value = { List ℕ };

    ghost view = { λ a. a.chars.items };

    ghost invariant = { λ a. a.begins.items ≡ line_begins a.chars.items };
}

impl Columns {
    /// The columns of a text. On `Err` there was no memory for them.
    pub fn new(alloc: Global, text: &str) -> Result<Columns, AllocError>
        ensures { IfOk result (λ columns. columns ≡ chars text.now) }
    {
        let chars = chars_of(alloc, text)?;
        let begins = begins_of(alloc, chars.as_slice())?;
        Ok(Columns { chars, begins })
    }

    /// The number of characters.
    pub fn len(&self) -> usize
        ensures { result ≡ length self.now }
    {
        self.chars.len()
    }

    /// The offset in characters, from 0, of a column of a line, which count from 1; `None` where the
    /// text has no such line.
    ///
    /// It is that of the first character that does not end at most there. A column past the line is
    /// its end, in front of its line feed, and column 0 is column 1.
    #[tactic(auto, unfolding(crate::specs::Columns::offset_of), using(crate::proofs::LineBegins::start_bound))]
    pub fn offset(&self, unit: Unit, line: usize, column: usize) -> Option<usize>
        ensures offset { result ≡ offset_of unit self.now line column }
        ensures bound { IfSome result (λ offset. offset ≤ length self.now) }
    {
        let start = self.line_start(line)?;
        Some(start + passed(&self.chars[start..], unit, column.saturating_sub(1)))
    }

    /// The characters of a line, which count from 1, without the LF or CR LF that ends it; `None` where
    /// the text has no such line.
    #[tactic(auto, unfolding(crate::specs::Columns::line_of), using(crate::proofs::LineBegins::start_bound))]
    pub fn line(&self, line: usize) -> Option<&[char]>
        ensures { option_copied result ≡ line_of self.now line }
    {
        let start = self.line_start(line)?;
        Some(first_line(&self.chars[start..]))
    }

    /// Where a line begins, which count from 1, if the text has it.
    #[tactic(auto, unfolding(crate::specs::Columns::line_start))]
    fn line_start(&self, line: usize) -> Option<usize>
        ensures { result ≡ start_of_line self.now line }
    {
        self.begins.get(line.checked_sub(1)?).copied()
    }

    /// The line and the column of an offset in characters, both from 1. One past the text is its end.
    ///
    /// A column past the greatest number is that number.
    pub fn location_at(&self, unit: Unit, offset: usize) -> (usize, usize)
        ensures line { result.0 ≡ number_of_line self.now (min offset (length self.now)) }
        ensures column { result.1 ≡ number_of_column unit self.now (min offset (length self.now)) }
    {
        let offset = offset.min(self.len());
        let line = self.line_at(offset);
        let start = self.line_start(line).unwrap_or(0);
        let before = self.width(unit, start, offset);
        (line, before.saturating_add(1))
    }

    /// How many columns the characters take from where a line begins up to an offset in it.
    #[tactic(auto, using(crate::proofs::OffsetLines::between))]
    fn width(&self, unit: Unit, start: usize, offset: usize) -> usize
        requires order { start ≤ offset }
        requires bound { offset ≤ length self.now }
        ensures { result ≡ columns_in unit (drop start (take offset self.now)) }
    {
        width_of(unit, &self.chars[start..offset])
    }

    /// The number of the line that an offset stands in, which counts from 1.
    fn line_at(&self, offset: usize) -> usize
        ensures { result ≡ number_of_line self.now offset }
    {
        self.begins.partition_point(|begin| *begin <= offset)
    }

    /// The end of the word that stands at an offset: behind one character where none does.
    #[tactic(auto, unfolding(crate::specs::Columns::word_end))]
    pub fn word_end(&self, start: usize) -> usize
        requires { start ≤ length self.now }
        ensures end { result ≡ end_of_word self.now start }
        ensures behind { start < result }
    {
        start + word_length(&self.chars[start..]).max(1)
    }
}

/// The characters of a text.
fn chars_of(alloc: Global, text: &str) -> Result<Vec<char>, AllocError>
    ensures { IfOk result (λ list. list.items ≡ chars text.now) }
{
    text.chars().collect(alloc)
}

/// Where the lines of a text begin, in characters.
fn begins_of(alloc: Global, text: &[char]) -> Result<Vec<usize>, AllocError>
    ensures { IfOk result (λ begins. begins.items ≡ line_begins text.now) }
{
    let mut begins = vec![in alloc; 0]?;
    for (span, c) in text.iter().enumerate() {
        if *c == '\n' {
            begins.push(span + 1)?;
        }
    }
    Ok(begins)
}

/// The first line of a text, without what ends it.
fn first_line(text: &[char]) -> &[char]
    ensures { result.now ≡ first_line_of text.now }
{
    let line = &text[..line_length(text)];
    match line.split_last() {
        Some((last, front)) if *last == '\r' => front,
        _ => line,
    }
}

/// How many characters stand in front of the first line feed of a text.
fn line_length(text: &[char]) -> usize
    ensures length { result ≡ prefix_len (λ c. not (c == 10)) text.now }
    ensures bound { result ≤ length text.now }
{
    text.iter().take_while(|c| **c != '\n').count()
}

/// How many characters of the first line of a text end at most `limit` columns behind its start.
fn passed(text: &[char], unit: Unit, limit: usize) -> usize
    ensures passed { result ≡ passed_of unit limit 0 text.now }
    ensures bound { result ≤ length text.now }
{
    let mut at = 0;
    for (span, c) in text.iter().enumerate() {
        let columns = columns_of(unit, at, *c);
        if *c == '\n' || columns > limit - at {
            return span;
        }
        at += columns;
    }
    text.len()
}

/// How many columns the text in front of a span takes in its line.
fn width_of(unit: Unit, text: &[char]) -> usize
    ensures { result ≡ columns_in unit text.now }
{
    let mut at: usize = 0;
    for c in text {
        at = at.saturating_add(columns_of(unit, at, *c));
    }
    at
}

/// Whether a character is one of a word: a letter or digit of ASCII, `_`, or no character of ASCII.
fn is_word(c: char) -> bool
    ensures { result ≡ is_of_word c }
{
    c.is_ascii_alphanumeric() || c == '_' || c >= '\u{80}'
}

/// How many characters of a word a text begins with.
fn word_length(text: &[char]) -> usize
    ensures length { result ≡ prefix_len is_of_word text.now }
    ensures bound { result ≤ length text.now }
{
    for (span, c) in text.iter().enumerate() {
        if !is_word(*c) {
            return span;
        }
    }
    text.len()
}
