//! Places: spans with ordered ends.

ghost use Rattle.std.specs.Prelude.{◌≡◌, ◌≤◌, ◌↔◌, IsSome, IfSome, max, min};

use crate::span::Span;

/// A part of a source with ordered ends. So you need no proof for a label over a place.
///
/// The offsets count from 0: characters, or bytes if the report's index type is `Byte`. A place
/// alone is in the only source. Paired with an id, a place is in the source of the id.
///
/// ```rust
/// let name = Place::at(4).to(Place::at(9));
/// Label::new(name).with_message(alloc, "unknown")?;
/// Label::new(("stock.sql", name)).with_message(alloc, "unknown")?;
/// ```
#[derive(Clone, Copy, Debug, PartialEq, Eq, Hash)]
pub struct Place {
    /// The first offset.
    pub start: usize,
    /// The end: one past the last offset.
    pub end: usize,
    pub ghost forward: { start ≤ end },
}

impl Place {
    /// The place from `start` to `end`, exclusive, or `None` if `end` is before `start`.
    pub fn new(start: usize, end: usize) -> Option<Place>
        ensures forward { IsSome result ↔ (start ≤ end) }
        ensures start { IfSome result (λ place. place.start ≡ start) }
        ensures end { IfSome result (λ place. place.end ≡ end) }
    {
        if start <= end {
            Some(Place { start, end })
        } else {
            None
        }
    }

    /// The empty place at an offset. A label over the place points at the character there.
    pub fn at(offset: usize) -> Place
        ensures start { result.start ≡ offset }
        ensures end { result.end ≡ offset }
    {
        Place {
            start: offset,
            end: offset,
        }
    }

    /// The shortest place with both places inside, in either order: from the smaller start to the
    /// greater end.
    pub fn to(self, other: Place) -> Place
        ensures start { result.start ≡ min self.start other.start }
        ensures end { result.end ≡ max self.end other.end }
    {
        Place {
            start: self.start.min(other.start),
            end: self.end.max(other.end),
        }
    }
}

/// A span of the only source.
impl Span for Place {
    type SourceId = ();

    ghost source_of = { λ _. tt };

    ghost start_of = { λ p. p.start };

    ghost end_of = { λ p. p.end };

    fn source(&self) -> &() {
        &()
    }

    fn start(&self) -> usize {
        self.start
    }

    fn end(&self) -> usize {
        self.end
    }
}

/// A span of the source with the paired id.
impl<Id: Eq> Span for (Id, Place) {
    type SourceId = Id;

    ghost source_of = { λ s. s.0 };

    ghost start_of = { λ s. s.1.start };

    ghost end_of = { λ s. s.1.end };

    fn source(&self) -> &Id {
        &self.0
    }

    fn start(&self) -> usize {
        self.1.start
    }

    fn end(&self) -> usize {
        self.1.end
    }
}
