//! Spans: the parts of sources for labels.

ghost use Rattle.std.specs.Prelude.{◌≡◌, ℕ, ◌-◌, ◌<◌, ◌≤◌, IsTrue, ◌↔◌};

pub mod place;
mod range;
mod range_inclusive;

pub use place::Place;

/// A part of a source, from a start to an exclusive end.
///
/// Offsets count from the start of the source, from 0: characters, or bytes if the report's index
/// type is `Byte`. A span returns the same values at every call. The end may be before the start,
/// or past the source.
///
/// ```rust
/// assert_eq!(rt; Span::len(&(2..5)), 3);
/// assert_eq!(rt; Span::end(&("stock.sql", 2..=4)), 5);
/// ```
pub trait Span {
    /// The id of a source.
    type SourceId: Eq;

    // The id of the source, the first offset, and the end.
    ghost source_of: { Self → Self.SourceId };

    ghost start_of: { Self → ℕ };

    ghost end_of: { Self → ℕ };

    /// The id of the source.
    fn source(&self) -> &Self::SourceId
        ensures { result.now ≡ source_of self.now };

    /// The first offset.
    fn start(&self) -> usize
        ensures { result ≡ start_of self.now };

    /// The end: one past the last offset.
    fn end(&self) -> usize
        ensures { result ≡ end_of self.now };

    /// The end minus the start, or 0 if the end is before the start.
    final fn len(&self) -> usize
        ensures { result ≡ end_of self.now - start_of self.now }
    {
        self.end().saturating_sub(self.start())
    }

    /// Whether the length is 0.
    final fn is_empty(&self) -> bool
        ensures { IsTrue result ↔ (end_of self.now ≤ start_of self.now) }
    {
        self.end() <= self.start()
    }

    /// Whether an offset is at or after the start, and before the end.
    final fn contains(&self, offset: usize) -> bool
        ensures { IsTrue result ↔ ((start_of self.now ≤ offset) × (offset < end_of self.now)) }
    {
        self.start() <= offset && offset < self.end()
    }
}
