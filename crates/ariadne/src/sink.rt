//! Where a picture is sent that tells whether it has failed.

ghost use Rattle.std.specs.Prelude.{◌≡◌, ℕ, Bool, List, Option};
ghost use Rattle.std.specs.Io.{WritesAtMost};
ghost use Rattle.std.specs.Io.KnownBytes.{WriteAppends};
ghost use Rattle.ariadne.specs.Sending.{TellsFault};

use std::io;

/// What takes the bytes of a picture, and tells whether it has failed.
pub trait Sink {
    // the bytes that it holds, where they are known
    ghost contents: { Self → Option (List ℕ) };

    // whether a call of `take` has failed
    ghost has_failed: { Self → Bool };

    /// Takes bytes from the start of a piece, and tells how many.
    fn take(&mut self, bytes: &[u8]) -> io::Result<usize>
        ensures bound { WritesAtMost result bytes.now }
        ensures bytes { WriteAppends (contents self.old) (contents self.new) result bytes.now }
        ensures failed { TellsFault (has_failed self.old) (has_failed self.new) result bytes.now };

    /// Whether a call of `take` has returned a fault, or has taken nothing of a piece that is not
    /// empty.
    fn failed(&self) -> bool
        ensures { result ≡ has_failed self.now };
}
