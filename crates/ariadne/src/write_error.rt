//! Errors of writing a report.

ghost use Rattle.std.specs.Prelude.{Some};
ghost use Rattle.ariadne.specs.WriteErrors.{shown_error, IsFaultOf};

use crate::send::SendError;
use std::alloc::AllocError;
use std::error::Error;
use std::{fmt, io};

/// Why a report was not written whole.
///
/// ```rust
/// let sent = match report.write(&mut source, out) {
///     Ok(_) => None, // the whole picture
///     Err(WriteError::Memory(_)) => Some(0),
///     Err(WriteError::Io { sent, .. }) => Some(sent),
/// };
/// ```
#[derive(Debug, Drop)]
pub enum WriteError {
    /// Memory for the picture ran out, and nothing was sent.
    Memory(AllocError),
    /// The writer failed, or took no byte of a non-empty slice.
    Io {
        /// The number of bytes sent before, the first of the picture.
        sent: usize,
        /// The writer's error, or an error of the kind `WriteZero` if the writer took no byte.
        fault: io::Error,
    },
}

/// `no memory`, or `write failed after N bytes`.
impl fmt::Display for WriteError {
    ghost output = { λ e. Some (shown_error e) };

    fn fmt<W: fmt::Write>(&self, f: &mut fmt::Formatter<W>) -> fmt::Result {
        match self {
            WriteError::Memory(_) => write!(f, "no memory"),
            WriteError::Io { sent, .. } => write!(f, "write failed after {sent} bytes"),
        }
    }
}

impl Error for WriteError {}

impl From<AllocError> for WriteError {
    ghost use Rattle.std.specs.Prelude.{◌≡◌};
    ghost use Rattle.ariadne.specs.declared.write_error.WriteError.TheVariants.{Memory};

    ghost from_gives = { λ e w. w ≡ Memory e };

    fn from(error: AllocError) -> WriteError {
        WriteError::Memory(error)
    }
}

impl From<SendError> for WriteError {
    ghost use Rattle.std.specs.Prelude.{◌≡◌};
    ghost use Rattle.ariadne.specs.declared.write_error.WriteError.TheVariants.{Io};

    ghost from_gives = { λ e w. w ≡ Io e.sent e.fault };

    fn from(error: SendError) -> WriteError {
        let SendError { sent, fault } = error;
        WriteError::Io { sent, fault }
    }
}

/// For `?` in a function with an `io::Result`: the writer's error, or an error of the kind
/// `OutOfMemory`. The number of bytes sent is lost.
impl From<WriteError> for io::Error {
    ghost from_gives = { λ error fault. IsFaultOf error fault };

    fn from(error: WriteError) -> io::Error {
        match error {
            WriteError::Memory(refused) => io::Error::from(refused),
            WriteError::Io { sent: _, fault } => fault,
        }
    }
}
