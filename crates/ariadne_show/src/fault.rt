//! Why the program ends early, what it tells of that, and the status that it ends with.

ghost use Rattle.std.specs.Prelude.{◌≡◌, ◌≢◌, IfOk};
ghost use Rattle.std.specs.IoError.{error_kind};
ghost use Rattle.ariadne_show.specs.Faults.{fault_of_writing, status_of, TellsWords};
ghost use Rattle.ariadne_show.specs.declared.fault.Fault.TheVariants.{BrokenPipe, Memory, NoText};
ghost use Rattle.ariadne_show.specs.declared.fault.Fault.TheVariants.{Unread};
ghost use Rattle.ariadne_show.specs.declared.fault.Status.TheVariants.{Failed};

use ariadne::WriteError;
use ariadne_safe::{TextKind, visible};
use std::alloc::{AllocError, AllocFailed, Global};
use std::io;
use std::io::{ErrorKind, Write};
use thiserror::Error;

/// How the program ends. The numbers are its exit statuses.
#[derive(Clone, Copy)]
pub enum Status {
    /// All was shown, and no error was among it, or nothing else that `--fail-on` asks for.
    Shown = 0,
    /// All was shown, and an error was among it, or what else `--fail-on` asks for.
    WithErrors = 1,
    /// The arguments are invalid.
    WrongWords = 2,
    /// Reading or writing failed on the way, or memory was refused.
    Failed = 3,
    /// Nobody read the output any more. (A shell has this status for what the signal PIPE ends.)
    BrokenPipe = 141,
}

/// Why the program ends early. The texts are those that standard error gets.
#[derive(Debug, Drop, Error)]
pub enum Fault {
    /// A word is no UTF-8.
    #[error("a word is not UTF-8")]
    NoText,
    /// The arguments are invalid, for this reason.
    #[error("{text}")]
    Words { text: String },
    /// A read of standard input failed.
    #[error("input: can't be read")]
    Unread,
    /// A file that was named as an input can't be read, for this reason of the system's.
    #[error("{path}: {reason}")]
    UnreadFile { path: String, reason: String },
    /// The writer failed.
    #[error("write failed")]
    Writer,
    /// Nobody reads the output any more. Standard error gets no text then.
    #[error("nobody reads the output")]
    BrokenPipe,
    /// Memory was refused.
    #[error("no memory")]
    Memory(AllocError),
}

impl From<AllocError> for Fault {
    ghost from_gives = { λ error fault. fault ≡ Memory error };

    fn from(error: AllocError) -> Fault {
        Fault::Memory(error)
    }
}

impl<T: Drop> From<AllocFailed<T>> for Fault {
    fn from(_refused: AllocFailed<T>) -> Fault {
        Fault::Memory(AllocError)
    }
}

impl From<WriteError> for Fault {
    fn from(error: WriteError) -> Fault {
        match error {
            WriteError::Memory(error) => Fault::Memory(error),
            WriteError::Io { fault, .. } => Fault::of_writing(&fault),
        }
    }
}

impl Fault {
    /// Invalid arguments: the message of `clap`, with symbols for control characters except line feeds.
    pub fn words(alloc: Global, error: &clap::Error) -> Result<Fault, AllocError>
        ensures { IfOk result TellsWords }
    {
        let text = format!(in alloc; "{error}")?;
        let said = text.as_str();
        let said = said.strip_prefix("error: ").unwrap_or(said).trim_end();
        Ok(Fault::Words {
            text: visible(alloc, said, TextKind::Aside)?,
        })
    }

    /// An invalid value of `--width`, shown with the same symbols.
    pub fn no_width(alloc: Global, value: &str) -> Result<Fault, AllocError>
        ensures { IfOk result TellsWords }
    {
        let value = visible(alloc, value, TextKind::OneRow)?;
        let text = format!(in alloc;
            "invalid value '{value}' for '--width <N>'\n  \
             [possible values: auto, full, and numbers of columns]\n\n\
             For more information, try '--help'."
        )?;
        Ok(Fault::Words {
            text: visible(alloc, text.as_str(), TextKind::Aside)?,
        })
    }

    /// That the file at a path, which was named as an input, can't be read. The path is told in such
    /// signs too. On `Err` there was no memory, or the error says so.
    pub fn unread_file(alloc: Global, path: &str, error: &io::Error) -> Result<Fault, AllocError>
        ensures { IfOk result (λ fault. status_of fault ≡ Failed) }
    {
        if error.kind() == ErrorKind::OutOfMemory {
            return Err(AllocError);
        }
        Ok(Fault::UnreadFile {
            path: visible(alloc, path, TextKind::OneRow)?,
            reason: format!(in alloc; "{error}")?,
        })
    }

    /// What an error of reading means: want of memory where it is of that kind.
    pub fn of_reading(error: &io::Error) -> Fault
        ensures { error_kind error.now ≢ ErrorKind.OutOfMemory → result ≡ Unread }
    {
        if error.kind() == ErrorKind::OutOfMemory {
            Fault::Memory(AllocError)
        } else {
            Fault::Unread
        }
    }

    /// What an error of reading the words means: want of memory where it is of that kind.
    pub fn of_words(error: &io::Error) -> Fault
        ensures { error_kind error.now ≢ ErrorKind.OutOfMemory → result ≡ NoText }
    {
        if error.kind() == ErrorKind::OutOfMemory {
            Fault::Memory(AllocError)
        } else {
            Fault::NoText
        }
    }

    /// What an error of writing means: that nobody reads, where it is of that kind.
    pub fn of_writing(error: &io::Error) -> Fault
        ensures { result ≡ fault_of_writing (error_kind error.now) }
    {
        match error.kind() {
            ErrorKind::BrokenPipe => Fault::BrokenPipe,
            _ => Fault::Writer,
        }
    }

    /// The status that the program ends with after this fault.
    pub fn status(&self) -> Status
        ensures { result ≡ status_of self.now }
    {
        match self {
            Fault::NoText | Fault::Words { .. } => Status::WrongWords,
            Fault::Unread | Fault::UnreadFile { .. } => Status::Failed,
            Fault::Writer | Fault::Memory(_) => Status::Failed,
            Fault::BrokenPipe => Status::BrokenPipe,
        }
    }
}

/// Writes a fault's text and a line feed to `faults`, and returns its status. Of a broken pipe nothing
/// is written.
///
/// A writer that fails is passed over.
pub fn tell_fault<F: Write>(faults: &mut F, fault: &Fault) -> Status
    ensures status { result ≡ status_of fault.now }
    ensures silent { fault.now ≡ BrokenPipe → faults.new ≡ faults.old }
{
    match fault {
        Fault::BrokenPipe => {}
        told => {
            let _ = writeln!(faults, "ariadne-show: {told}");
        }
    }
    fault.status()
}
