//! How the columns of a line count.

ghost use Rattle.std.specs.Prelude.{◌≡◌};
ghost use Rattle.ariadne_parse.specs.Spans as spans;

use crate::diagnostic::{End, Location};
use crate::unit::Unit;

/// How columns count.
#[derive(Clone, Copy)]
pub struct Counting {
    /// What they count.
    pub unit: Unit,
    /// Whether the first column of a line is 0, and not 1.
    pub is_from_zero: bool,
}

impl Counting {
    /// The location, with a column from 1, that this one is whose column counts so.
    pub(crate) fn location(self, location: Location) -> Location
        ensures { result ≡ spans.counted_location self location }
    {
        if self.is_from_zero {
            from_one(location)
        } else {
            location
        }
    }

    /// Where a span ends that ends there, where columns count so.
    pub(crate) fn end(self, end: End) -> End
        ensures { result ≡ spans.counted_end self end }
    {
        match end {
            End::Before(location) => End::Before(self.location(location)),
            End::Behind(location) => End::Behind(self.location(location)),
            End::OfWord => End::OfWord,
        }
    }
}

/// A location whose column counts from 1, of one whose column counts from 0.
fn from_one(location: Location) -> Location
    ensures { result ≡ spans.from_one location }
{
    match location.column {
        Some(column) => Location {
            line: location.line,
            column: Some(column.saturating_add(1)),
        },
        None => location,
    }
}
