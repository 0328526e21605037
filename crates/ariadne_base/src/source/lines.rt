//! The lines of a source, one after another.

ghost use Rattle.std.specs.Prelude.{◌≡◌, length, IfSome};
ghost use Rattle.std.specs.Iterator.{YieldsFirst, item_count, at_most, UpTo};
ghost use Rattle.std.specs.Iterator.SizeHint.{IsWithinCount};

use super::line::Line;
use super::start::Start;
use std::marker::Model;

/// An iterator over the [`Line`]s of a source, from the first to the last.
///
/// The length is known at each step. After the last line the iterator returns only `None`.
///
/// ```rust
/// for line in source.lines() {
///     longest = longest.max(line.len());
/// }
/// ```
#[derive(Debug, Drop)]
pub struct SourceLines<'a> {
    // the start of each line, and the end of the last
    pub(super) rest: &'a [Start],
}

impl<'a> Model for SourceLines<'a> {
    ghost use Rattle.std.specs.Prelude.{List};
    ghost use Rattle.ariadne_base.specs.Table.{LineExtent};
    ghost use Rattle.ariadne_base.specs.Starts.{extents, Rise};

    ghost Value = { List LineExtent };

    ghost view = { λ s. extents s.rest.now };

    ghost invariant = { λ s. Rise s.rest.now };
}

impl<'a> SourceLines<'a> {
    /// The number of remaining lines.
    fn left(&self) -> usize
        ensures { result ≡ length self.now }
    {
        self.rest.len().saturating_sub(1)
    }
}

impl<'a> Iterator for SourceLines<'a> {
    type Item = Line;

    ghost next_gives = { YieldsFirst (λ s. s) };

    ghost remaining = { item_count (λ s. s) };

    fn next(&mut self) -> Option<Line> {
        let (start, rest) = self.rest.split_first()?;
        let end = rest.first()?;
        self.rest = rest;
        Some(start.line_to(*end))
    }

    fn size_hint(&self) -> (usize, Option<usize>)
        ensures lower { IsWithinCount result.0 (at_most (length self.now)) }
        ensures upper { IfSome result.1 (UpTo (at_most (length self.now))) }
        ensures exact { result ≡ (length self.now, Some (length self.now)) }
    {
        (self.left(), Some(self.left()))
    }
}

impl<'a> ExactSizeIterator for SourceLines<'a> {
    fn len(&self) -> usize {
        self.left()
    }
}
