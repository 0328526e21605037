//! A line of a source: the start and the length, in characters and in bytes.

ghost use Rattle.std.specs.Prelude.{◌≡◌, ◌+◌, ◌<◌, ◌↔◌, IsTrue};

use std::marker::Model;
use std::ops::Range;

/// A line of a [`Source`](crate::Source), with the line's end.
///
/// The calls count characters, from 0 at the start of the source. The line's bytes are kept too:
/// the source cuts the text of the line by these.
///
/// ```rust
/// let source = Source::from(alloc, "one\ntwo\n")?;
/// let second = source.line(1).and_then(|line| source.get_line_text(line));
/// ```
#[derive(Clone, Copy, Debug, PartialEq, Eq, Hash)]
pub struct Line {
    pub(super) offset: usize,
    pub(super) len: usize,
    pub(super) byte_offset: usize,
    pub(super) byte_len: usize,
}

impl Model for Line {
    ghost use Rattle.std.specs.Prelude.{◌+◌, ◌^◌, ◌<◌};
    ghost use Rattle.ariadne_base.specs.Table.{LineExtent};

    ghost Value = { LineExtent };

    ghost view = { λ l. record {
      offset = l.offset;
      len = l.len;
      byte_offset = l.byte_offset;
      byte_len = l.byte_len;
    } };

    ghost invariant = { λ l. (l.offset + l.len < 2 ^ 64) × (l.byte_offset + l.byte_len < 2 ^ 64) };

    ghost inverse = { λ e. record {
      offset = e.offset;
      len = e.len;
      byte_offset = e.byte_offset;
      byte_len = e.byte_len;
    } };
}

impl Line {
    /// The number of characters of the source before this line.
    pub fn offset(&self) -> usize
        ensures { result ≡ self.now.offset }
    {
        self.offset
    }

    /// The number of characters of this line, with the line's end.
    pub fn len(&self) -> usize
        ensures { result ≡ self.now.len }
    {
        self.len
    }

    /// Whether this line has no characters: only the line of an empty source.
    pub fn is_empty(&self) -> bool
        ensures { IsTrue result ↔ (self.now.len ≡ 0) }
    {
        self.len == 0
    }

    /// The characters of this line in the source: from the line's offset, as many as the line's
    /// length.
    pub fn span(&self) -> Range<usize>
        ensures start { result.start ≡ self.now.offset }
        ensures end { result.end ≡ self.now.offset + self.now.len }
    {
        self.offset..self.offset + self.len
    }
}
