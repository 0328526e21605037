//! Offsets in a text, which count UTF-16, as lines and columns.

ghost use Rattle.std.specs.Prelude.{◌≡◌, ◌-◌, ◌<◌, ◌^◌};
ghost use Rattle.ariadne_documents.specs.Offsets as offsets;

use ariadne_parse::Location;

/// How far a walk through a text has come.
#[derive(Clone, Copy)]
struct Walk {
    /// How many units of UTF-16 are left.
    left: usize,
    /// The line, from 1.
    line: usize,
    /// The column, from 1.
    column: usize,
}

impl Walk {
    /// The walk behind a byte of the text.
    fn step(self, byte: u8) -> Walk
        requires line { self.line < 2 ^ 63 }
        requires column { self.column < 2 ^ 64 - 2 }
        ensures { result ≡ offsets.step self byte }
    {
        if self.left == 0 {
            self
        } else {
            self.gone_on(byte)
        }
    }

    /// The walk behind a byte up to which it doesn't end.
    fn gone_on(self, byte: u8) -> Walk
        requires line { self.line < 2 ^ 63 }
        requires column { self.column < 2 ^ 64 - 2 }
        ensures { result ≡ offsets.gone_on self byte }
    {
        if byte == b'\n' {
            return Walk {
                left: self.left.saturating_sub(1),
                line: self.line + 1,
                column: 1,
            };
        }
        Walk {
            left: self.left.saturating_sub(units(byte)),
            line: self.line,
            column: self.column + units(byte),
        }
    }

    /// Where it ends, if it came as far as it was to.
    fn end(self) -> Option<Location>
        ensures { result ≡ offsets.end_of self }
    {
        if self.left > 0 {
            return None;
        }
        Some(Location {
            line: self.line,
            column: Some(self.column),
        })
    }
}

/// How many units of UTF-16 the character has that a byte of UTF-8 begins; none, where it begins none.
fn units(byte: u8) -> usize
    ensures { result ≡ offsets.units byte }
{
    if byte >= 240 {
        2
    } else if byte < 128 || byte >= 192 {
        1
    } else {
        0
    }
}

/// The span behind so many units of a text, if it has as many.
pub(crate) fn location_behind(offset: usize, text: &str) -> Option<Location>
    ensures { result ≡ offsets.location_behind offset text.now }
{
    walked(offset, text.as_bytes()).end()
}

/// A walk through a text, given by its bytes, for so many units.
fn walked(offset: usize, bytes: &[u8]) -> Walk
    ensures { result ≡ offsets.walked (offsets.start offset) bytes.now }
{
    let mut walk = Walk {
        left: offset,
        line: 1,
        column: 1,
    };
    for byte in bytes {
        walk = walk.step(*byte);
    }
    walk
}
