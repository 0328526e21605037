//! Spans with an inclusive end.

ghost use Rattle.std.specs.Prelude.{◌+◌, ◌-◌, ◌^◌, min};
ghost use Rattle.std.specs.Range.{range_inclusive_end, range_inclusive_start};

use crate::span::Span;
use std::ops::RangeInclusive;

/// A span of the only source. The end is the last offset plus one, and `usize::MAX` if this
/// overflows.
impl Span for RangeInclusive<usize> {
    type SourceId = ();

    ghost source_of = { λ _. tt };

    ghost start_of = { λ r. range_inclusive_start r };

    ghost end_of = { λ r. min (range_inclusive_end r + 1) (2 ^ 64 - 1) };

    fn source(&self) -> &() {
        &()
    }

    fn start(&self) -> usize {
        *RangeInclusive::start(self)
    }

    fn end(&self) -> usize {
        RangeInclusive::end(self).saturating_add(1)
    }
}

/// A span of the source with the paired id. The end is as for the range alone.
impl<Id: Eq> Span for (Id, RangeInclusive<usize>) {
    type SourceId = Id;

    ghost source_of = { λ s. s.0 };

    ghost start_of = { λ s. range_inclusive_start s.1 };

    ghost end_of = { λ s. min (range_inclusive_end s.1 + 1) (2 ^ 64 - 1) };

    fn source(&self) -> &Id {
        &self.0
    }

    fn start(&self) -> usize {
        *self.1.start()
    }

    fn end(&self) -> usize {
        self.1.end().saturating_add(1)
    }
}
