//! A reader that remembers whether a read of it has failed.

ghost use Rattle.std.specs.Prelude.{◌≡◌, false};
ghost use Rattle.std.specs.Io.{ReadsAtMost};
ghost use Rattle.std.specs.Io.KnownBytes.{ReadConsumes};
ghost use Rattle.ariadne_commands.specs.Watching.{has_failed, reader_of, Remembers};

use std::io;
use std::io::{ErrorKind, Read};

/// A reader that remembers whether a read of it has failed.
///
/// `draw` reads its input through it, so that it can promise to refuse no input that can be read.
#[derive(Drop)]
pub struct Watched<R> {
    reader: R,
    has_failed: bool,
}

impl<R: Read> Watched<R> {
    /// This reader, of which no read has failed yet.
    pub fn new(reader: R) -> Watched<R>
        ensures reader { reader_of result ≡ reader }
        ensures failed { has_failed result ≡ false }
    {
        Watched {
            reader,
            has_failed: false,
        }
    }

    /// Whether a read has failed. One that was interrupted, and is to be tried again, has not.
    pub fn has_failed(&self) -> bool
        ensures { result ≡ has_failed self.now }
    {
        self.has_failed
    }
}

impl<R: Read> Read for Watched<R> {
    ghost remaining = { λ watched. R.remaining (reader_of watched) };

    fn read(&mut self, buf: &mut [u8]) -> io::Result<usize>
        ensures bound { ReadsAtMost result buf.new }
        ensures bytes { ReadConsumes (R.remaining (reader_of self.old))
            (R.remaining (reader_of self.new)) result buf.new }
        ensures remembers { Remembers (has_failed self.old) (has_failed self.new) result }
    {
        let result = self.reader.read(buf);
        if let Err(error) = &result {
            if error.kind() != ErrorKind::Interrupted {
                self.has_failed = true;
            }
        }
        result
    }
}
