//! The start of a line of a source.

ghost use Rattle.std.specs.Prelude.{◌≡◌, ◌≤◌};
ghost use Rattle.ariadne_base.specs.Starts.{extent};

use super::line::Line;

/// The start of a line, or the end of the text: the number of characters before, and the number of
/// bytes before.
#[derive(Clone, Copy, Debug)]
pub(super) struct Start {
    pub(super) chars: usize,
    pub(super) bytes: usize,
}

impl Start {
    /// The start of each text.
    pub(super) const FIRST: Start = Start { chars: 0, bytes: 0 };

    /// The line from here to `end`.
    pub(super) fn line_to(self, end: Start) -> Line
        requires chars { self.chars ≤ end.chars }
        requires bytes { self.bytes ≤ end.bytes }
        ensures { result ≡ extent self end }
    {
        Line {
            offset: self.chars,
            len: end.chars - self.chars,
            byte_offset: self.bytes,
            byte_len: end.bytes - self.bytes,
        }
    }
}
