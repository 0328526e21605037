//! A writer that tries an interrupted write again.

ghost use Rattle.std.specs.Prelude.{◌≡◌, ◌≢◌, IfErr};
ghost use Rattle.std.specs.Io.{WritesAtMost};
ghost use Rattle.std.specs.Io.KnownBytes.{Keeps, WriteAppends};
ghost use Rattle.std.specs.IoError.{error_kind};
ghost use Rattle.std.specs.declared.io.ErrorKind.TheVariants.{Interrupted};
ghost use Rattle.ariadne.specs.Retrying.{writer_of};

use std::io;
use std::io::{ErrorKind, Write};

/// A writer that tries a write again where a signal has interrupted it, as often as that takes.
///
/// To `write` of a report an interruption is a fault as any other. Over this writer it never sees one.
#[derive(Drop)]
pub struct RetryInterrupted<W> {
    writer: W,
}

impl<W: Write> RetryInterrupted<W> {
    /// What tries interrupted writes of this writer again.
    pub fn new(writer: W) -> RetryInterrupted<W>
        ensures { writer_of result ≡ writer }
    {
        RetryInterrupted { writer }
    }

    /// The writer.
    pub fn into_inner(self) -> W
        ensures { result ≡ writer_of self }
    {
        self.writer
    }
}

impl<W: Write> Write for RetryInterrupted<W> {
    ghost contents = { λ retrying. W.contents (writer_of retrying) };

    /// Writes from the start of a piece, and tells how many bytes were taken. After 2^64 - 1 interruptions
    /// it gives up, with a fault of the kind `TimedOut`.
    fn write(&mut self, buf: &[u8]) -> io::Result<usize>
        ensures bound { WritesAtMost result buf.now }
        ensures bytes { WriteAppends (W.contents (writer_of self.old))
            (W.contents (writer_of self.new)) result buf.now }
        ensures retried { IfErr result (λ fault. error_kind fault ≢ Interrupted) }
    {
        for _ in 0..u64::MAX {
            match self.writer.write(buf) {
                Err(fault) if fault.kind() == ErrorKind::Interrupted => {}
                told => return told,
            }
        }
        Err(io::Error::from(ErrorKind::TimedOut))
    }

    fn flush(&mut self) -> io::Result<()>
        ensures bytes { Keeps (W.contents (writer_of self.old))
            (W.contents (writer_of self.new)) }
    {
        self.writer.flush()
    }
}
