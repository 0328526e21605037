//! Spans with an exclusive end.

use crate::span::Span;
use std::ops::Range;

/// A span of the only source.
impl Span for Range<usize> {
    type SourceId = ();

    ghost source_of = { λ _. tt };

    ghost start_of = { λ r. r.start };

    ghost end_of = { λ r. r.end };

    fn source(&self) -> &() {
        &()
    }

    fn start(&self) -> usize {
        self.start
    }

    fn end(&self) -> usize {
        self.end
    }
}

/// A span of the source with the paired id.
impl<Id: Eq> Span for (Id, Range<usize>) {
    type SourceId = Id;

    ghost source_of = { λ s. s.0 };

    ghost start_of = { λ s. s.1.start };

    ghost end_of = { λ s. s.1.end };

    fn source(&self) -> &Id {
        &self.0
    }

    fn start(&self) -> usize {
        self.1.start
    }

    fn end(&self) -> usize {
        self.1.end
    }
}
