//! Why a command stops, what it tells of that, and the status that it ends with.

ghost use Rattle.std.specs.Prelude.{◌≡◌, ◌≢◌, alloc_error};
ghost use Rattle.std.specs.IoError.{error_kind};
ghost use Rattle.ariadne_commands.specs.Faults.{fault_of, file_fault_of, status_of};
ghost use Rattle.ariadne_commands.specs.declared.fault.Fault.TheVariants.{Memory};

use ariadne::{FileError, WriteError};
use std::alloc::{AllocError, AllocFailed};
use std::io;
use std::io::{ErrorKind, Write};
use thiserror::Error;

/// The words that `ariadne-draw` takes.
pub const DRAW_USAGE: &str =
    "usage: ariadne-draw [--ascii] [--plain] [--compact] [--bytes] [--file PATH] MESSAGE [START END TEXT]...";

/// The words that `ariadne-brackets` takes.
pub const BRACKETS_USAGE: &str = "usage: ariadne-brackets PATH...";

/// How a command ends. The numbers are its exit statuses.
#[derive(Clone, Copy)]
pub enum Status {
    /// `draw`: the report was written, with all its labels, or the text that was asked for in its place.
    /// `lint`: every file was read, and the brackets of each are balanced. Nothing was printed.
    Clean = 0,
    /// `draw`: the report was written without some of its labels, which standard error names. `lint`:
    /// every file was read, and some have offences, which were printed.
    Findings = 1,
    /// `draw`: the arguments are invalid, or the input can't be read or is not text. Nothing was written.
    /// `lint`: the words name no file, or some file was not read. The offences of the others were
    /// printed.
    BadInput = 2,
    /// Memory was refused, and nothing was written, or the writer failed on the way.
    Failed = 3,
}

/// Why a command stops. The texts are those that standard error gets.
#[derive(Debug, Drop, Error)]
pub enum Fault {
    /// The arguments are invalid. This line says which ones are valid.
    #[error("{0}")]
    Usage(&'static str),
    /// A read of standard input failed.
    #[error("input: can't be read")]
    Unread,
    /// Standard input holds bytes that are no text.
    #[error("input: not UTF-8")]
    NotUtf8,
    /// The writer failed when it had taken the first `sent` bytes of the report.
    #[error("write failed after {sent} bytes")]
    Writer { sent: usize },
    /// Memory was refused.
    #[error("no memory")]
    Memory(AllocError),
}

impl From<AllocError> for Fault {
    ghost from_gives = { λ _ f. f ≡ Memory alloc_error };

    fn from(error: AllocError) -> Fault {
        Fault::Memory(error)
    }
}

impl<T: Drop> From<AllocFailed<T>> for Fault {
    ghost from_gives = { λ _ f. f ≡ Memory alloc_error };

    fn from(_refused: AllocFailed<T>) -> Fault {
        Fault::Memory(AllocError)
    }
}

impl From<WriteError> for Fault {
    ghost from_gives = { λ e f. f ≡ fault_of e };

    fn from(error: WriteError) -> Fault {
        match error {
            WriteError::Memory(error) => Fault::Memory(error),
            WriteError::Io { sent, fault: _ } => Fault::Writer { sent },
        }
    }
}

impl Fault {
    /// What an error of the system means: want of memory where it is of that kind, else `other`.
    pub fn of_error(error: &io::Error, other: Fault) -> Fault
        ensures memory { error_kind error.now ≡ ErrorKind.OutOfMemory
            → result ≡ Memory alloc_error }
        ensures other { error_kind error.now ≢ ErrorKind.OutOfMemory → result ≡ other }
    {
        if error.kind() == ErrorKind::OutOfMemory {
            Fault::Memory(AllocError)
        } else {
            other
        }
    }

    /// The status that the command ends with after this fault.
    pub fn status(&self) -> Status
        ensures { result ≡ status_of self.now }
    {
        match self {
            Fault::Usage(_) | Fault::Unread | Fault::NotUtf8 => Status::BadInput,
            Fault::Writer { .. } | Fault::Memory(_) => Status::Failed,
        }
    }
}

/// Writes a fault's text and a line feed to `faults`, and returns its status.
///
/// A writer that fails is passed over.
pub fn tell_fault<F: Write>(faults: &mut F, fault: &Fault) -> Status
    ensures { result ≡ status_of fault.now }
{
    let _ = writeln!(faults, "{fault}");
    fault.status()
}

/// Why a file is not checked. The texts are those that standard error gets behind the path.
#[derive(Debug, Drop, Error)]
pub enum FileFault {
    /// It can't be opened or read.
    #[error("can't be read")]
    Unread,
    /// Its bytes are no text.
    #[error("not UTF-8")]
    NotUtf8,
}

impl FileFault {
    /// What an error of the cache means.
    pub fn of_error(error: &FileError) -> FileFault
        ensures { result ≡ file_fault_of error.now }
    {
        match error {
            FileError::Read(_) => FileFault::Unread,
            FileError::NotUtf8 => FileFault::NotUtf8,
        }
    }
}
