//! Sources: texts with lines, and the line and column of an offset.

ghost use Rattle.std.specs.Prelude.{◌≡◌, ℕ, ◌+◌, ◌^◌, ◌<◌, ◌≤◌, ◌↔◌, ◌==◌, ◌&&◌, ◌++◌, List, []};
ghost use Rattle.std.specs.Prelude.{length, nat_eq, IsTrue, IsSome, IfSome, IfOk};
ghost use Rattle.std.specs.Prelude.{IsSomeAnd, slice_get, slice_range, encode_utf8_all, chars};
ghost use Rattle.std.specs.Str.Iter.{chars_rest, chars_steps};
ghost use Rattle.std.specs.Iterator.Runs.{EveryRun, ItemsAreChars};
ghost use Rattle.std.specs.Cmp.Lexicographic.{pointwise};
ghost use Rattle.std.specs.Cmp.Rules.{comparing, hashing};
ghost use Rattle.std.specs.Hash as fed;
ghost use Rattle.std.proofs.Common.{rules};
ghost use Rattle.ariadne_base.specs.Lines.{AreLinesOf};
ghost use Rattle.ariadne_base.specs.Listing.{listed_lines};
ghost use Rattle.ariadne_base.specs.Locations.{byte_len, line_text};
ghost use Rattle.ariadne_base.specs.Table.{byte_end, line_extent, line_table, location_of};
ghost use Rattle.ariadne_base.specs.Starts.{line_begins};
ghost use Rattle.ariadne_base.specs.Ranges.{first_line, line_end, line_number, IsCutOut};

mod halving;
pub mod line;
pub mod lines;
mod scan;
mod start;

use crate::span::Span;
use crate::text::SourceText;
use halving::{begun_at, begun_at_byte};
pub use line::Line;
pub use lines::SourceLines;
use start::Start;
use std::alloc::{AllocError, Global};
use std::hash::{Hash, Hasher};
use std::marker::Model;
use std::ops::Range;
use std::str::Chars;

/// A text with its lines, into which labels point.
///
/// Seven characters end a line: CR, LF, U+000B, U+000C, U+0085, U+2028 and U+2029. CR LF is one
/// end. A line includes its end. A text with a line end as its last characters has no further line,
/// and the empty text has one empty line.
///
/// Offsets count from the start of the text, and line numbers from the first line, both from 0. The
/// line of an offset is found by binary search, without memory.
///
/// ```rust
/// let mut source = Source::from(alloc, "let pie = aple + 1;")?;
/// ```
#[derive(Debug, Drop)]
pub struct Source<I: SourceText = String> {
    text: I,
    starts: Vec<Start>,
    display_line_offset: usize,
}

impl<I: SourceText> Model for Source<I> {
    ghost use Rattle.std.specs.Prelude.{◌≡◌, ◌+◌, ◌^◌, ◌<◌, chars, length};
    ghost use Rattle.ariadne_base.specs.Lines.{lines_of};
    ghost use Rattle.ariadne_base.specs.Lines.{AreLinesOf};
    ghost use Rattle.ariadne_base.specs.Listing.{Listing};
    ghost use Rattle.ariadne_base.specs.Starts.{line_starts};

    ghost Value = { Listing };

    ghost view = { λ s. record { text = I.text s.text; display_offset = s.display_line_offset } };

    ghost invariant = { λ s. (s.starts.items ≡ line_starts (lines_of (chars (I.text s.text))))
        × (s.display_line_offset + length (lines_of (chars (I.text s.text))) < 2 ^ 64) };
}

impl<I: SourceText> Source<I> {
    /// Makes a source from a text, in one pass. The display offset is 0.
    ///
    /// On `Err` memory ran out, and the text is dropped.
    pub fn from(alloc: Global, text: I) -> Result<Source<I>, AllocError>
    where
        I: Drop,
        ensures { IfOk result (λ s. s ≡ record { text = I.text text; display_offset = 0 }) }
    {
        let starts = scan::line_starts_of(alloc, text.text())?;
        Ok(Source {
            text,
            starts,
            display_line_offset: 0,
        })
    }

    /// The whole text.
    pub fn text(&self) -> &str
        ensures { result.now ≡ self.now.text }
    {
        self.text.text()
    }

    /// The number of characters.
    pub fn len(&self) -> usize
        ensures { result ≡ length (chars self.now.text) }
    {
        let end = self.starts[self.number_of_lines()];
        end.chars
    }

    /// Whether the text is empty.
    pub fn is_empty(&self) -> bool
        ensures { IsTrue result ↔ (self.now.text ≡ []) }
    {
        self.text().is_empty()
    }

    /// The characters, in order.
    pub fn chars(&self) -> Chars<'_>
        ensures rest { chars_rest result ≡ self.now.text }
        ensures runs { EveryRun chars_steps (λ p. ItemsAreChars p (chars_rest p.from)) }
    {
        self.text().chars()
    }

    /// The line with this number, if the source has so many lines.
    pub fn line(&self, number: usize) -> Option<Line>
        ensures { result ≡ slice_get (line_table (listed_lines self.now)) number }
    {
        if number < self.number_of_lines() {
            Some(self.line_at(number))
        } else {
            None
        }
    }

    /// The line with a number below the number of lines.
    fn line_at(&self, number: usize) -> Line
        requires { number < length (listed_lines self.now) }
        ensures { result ≡ line_extent (listed_lines self.now) number }
    {
        let start = self.starts[number];
        let end = self.starts[number + 1];
        start.line_to(end)
    }

    /// The number of lines.
    fn number_of_lines(&self) -> usize
        ensures { result ≡ length (listed_lines self.now) }
    {
        self.starts.len() - 1
    }

    /// The start of each line.
    fn begins(&self) -> &[Start]
        ensures { result.now ≡ line_begins (listed_lines self.now) }
    {
        &self.starts[..self.number_of_lines()]
    }

    /// The lines, in order. Joined, the lines are the text. Each line except the last ends in a
    /// line end, and no line has a line end elsewhere. No CR LF is cut, and no line is empty,
    /// except the line of an empty text. There is only one such list.
    pub fn lines(&self) -> SourceLines<'_>
        ensures table { result ≡ line_table (listed_lines self.now) }
        ensures number { length result ≡ length (listed_lines self.now) }
        ensures partition { AreLinesOf (chars self.now.text) (listed_lines self.now) }
        ensures only { (ls : List (List ℕ)) → AreLinesOf (chars self.now.text) ls
            → ls ≡ listed_lines self.now }
    {
        SourceLines { rest: &self.starts }
    }

    /// The source with an offset added to each shown line number.
    ///
    /// The offset plus the number of lines, `lines().len()`, fits `usize`.
    pub fn with_display_line_offset(self, offset: usize) -> Source<I>
        requires { offset + length (listed_lines self) < 2 ^ 64 }
        ensures { result ≡ record { text = self.text; display_offset = offset } }
    {
        let Source {
            text,
            starts,
            display_line_offset: _,
        } = self;
        Source {
            text,
            starts,
            display_line_offset: offset,
        }
    }

    /// The number added to each shown line number; 0 by default.
    pub fn display_line_offset(&self) -> usize
        ensures offset { result ≡ self.now.display_offset }
        ensures fits { self.now.display_offset + length (listed_lines self.now) < 2 ^ 64 }
    {
        self.display_line_offset
    }

    /// For an offset in characters: the line, the line's number, and the column. The column is the
    /// number of characters between the start of the line and the offset.
    ///
    /// Returns `None` if the offset is greater than the number of characters. An offset equal to
    /// the number of characters is on the last line.
    pub fn get_offset_line(&self, offset: usize) -> Option<(Line, usize, usize)>
        ensures found { IsSome result ↔ (offset ≤ length (chars self.now.text)) }
        ensures location { IfSome result
            (λ p. p ≡ location_of length (listed_lines self.now) offset) }
        ensures number { IfSome result (λ p. p.1 < length (listed_lines self.now)) }
    {
        if offset > self.len() {
            return None;
        }
        let number = begun_at(self.begins(), offset) - 1;
        let line = self.line_at(number);
        Some((line, number, offset - line.offset))
    }

    /// For an offset in bytes: the line, the line's number, and the number of bytes between the
    /// start of the line and the offset. The offset need not be at the start of a character.
    ///
    /// Returns `None` if the offset is greater than the number of bytes.
    pub fn get_byte_line(&self, byte_offset: usize) -> Option<(Line, usize, usize)>
        ensures found { IsSome result ↔ (byte_offset ≤ length self.now.text) }
        ensures location { IfSome result (λ p. p
            ≡ location_of byte_len (listed_lines self.now) byte_offset) }
        ensures number { IfSome result (λ p. p.1 < length (listed_lines self.now)) }
    {
        if byte_offset > self.text().len() {
            return None;
        }
        let number = begun_at_byte(self.begins(), byte_offset) - 1;
        let line = self.line_at(number);
        Some((line, number, byte_offset - line.byte_offset))
    }

    /// The numbers of the lines under a span of characters: from the line of the start to the line
    /// of the last offset. If the last offset is past the source, the range ends with the last
    /// line. If the start is past the source, the range begins with line 0.
    ///
    /// The range has at least one line, also for a reversed span and past the source.
    pub fn get_line_range<S: Span>(&self, span: &S) -> Range<usize>
        ensures start { result.start ≡ first_line (listed_lines self.now) (S.start_of span.now) }
        ensures end { result.end
            ≡ line_end (listed_lines self.now) (S.start_of span.now) (S.end_of span.now) }
        ensures some { result.start < result.end }
        ensures valid { result.end ≤ length (listed_lines self.now) }
    {
        let last = span.end().saturating_sub(1).max(span.start());
        let lines = self.number_of_lines();
        let start = self.line_number(span.start()).unwrap_or(0);
        let end = match self.line_number(last) {
            Some(number) => number + 1,
            None => lines,
        };
        start..end
    }

    /// The number of the line with an offset in characters, if there is such a line.
    fn line_number(&self, offset: usize) -> Option<usize>
        ensures number { result ≡ line_number (listed_lines self.now) offset }
        ensures there { IfSome result (λ n. n < length (listed_lines self.now)) }
    {
        let (_, number, _) = self.get_offset_line(offset)?;
        Some(number)
    }

    /// The text of a line, with the line's end.
    ///
    /// Returns `None` if the bytes of the line are not whole characters of this text, for example
    /// for a line of another source.
    pub fn get_line_text(&self, line: Line) -> Option<&str>
        ensures found { IsSome result ↔ IsCutOut self.now.text line.byte_offset (byte_end line) }
        ensures text { IfSome result (λ t. t.now
            ≡ slice_range self.now.text line.byte_offset (byte_end line)) }
        ensures own { (n : ℕ) → n < length (listed_lines self.now)
            → line ≡ line_extent (listed_lines self.now) n
            → IsSomeAnd result (λ t. t.now
            ≡ encode_utf8_all (line_text (listed_lines self.now) n)) }
    {
        let text = self.text();
        let start = line.byte_offset;
        let end = start + line.byte_len;
        if text.is_char_boundary(start) && text.is_char_boundary(end) {
            Some(&text[start..end])
        } else {
            None
        }
    }

    /// A copy with the same text and display offset. On `Err` memory ran out.
    pub fn clone(&self) -> Result<Source<I>, AllocError>
    where
        I: Clone,
        requires { (x y : I) → I.is_clone x y → I.text y ≡ I.text x }
        ensures { IfOk result (λ s. s ≡ self.now) }
    {
        let text = self.text.clone()?;
        let starts = self.starts.clone()?;
        Ok(Source {
            text,
            starts,
            display_line_offset: self.display_line_offset,
        })
    }

    /// The allocator of the source.
    pub fn memory(&self) -> Global {
        *self.starts.allocator()
    }
}

/// Sources are equal if their texts and display offsets are equal.
impl<I: SourceText> PartialEq for Source<I> {
    ghost eq = { λ x y. pointwise nat_eq x.text y.text && (x.display_offset == y.display_offset) };

    ghost laws = { Prim.search (comparing, rules) };

    fn eq(&self, other: &Source<I>) -> bool {
        self.text() == other.text() && self.display_line_offset == other.display_line_offset
    }
}

impl<I: SourceText> Eq for Source<I> {
    ghost laws = { Prim.search (comparing, rules) };
}

impl<I: SourceText> Hash for Source<I> {
    ghost hash_input = { λ s. fed.str s.text ++ fed.u64 s.display_offset };

    ghost respects_eq = { Prim.search (hashing, rules) };

    fn hash<H: Hasher>(&self, state: &mut H) {
        (self.text(), self.display_line_offset).hash(state);
    }
}
