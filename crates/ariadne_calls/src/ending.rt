//! How a call ends.

ghost use Rattle.std.specs.Prelude.{◌≡◌};
ghost use Rattle.ariadne_calls.specs.CallStatuses.{count_of, len_of, number_of, place_of, status_of};

use std::alloc::{AllocError, AllocFailed};

/// What is wrong with a report or a source: with which label, text or source, by its number from 0.
#[derive(Clone, Copy)]
pub enum Fault {
    /// The number of the kind is none.
    Kind,
    /// The colour of the kind is none.
    KindColor,
    /// The name of the kind is not UTF-8.
    KindName,
    /// There is no such flag.
    Flags,
    /// Nothing is attached there.
    Attach,
    /// The code is not UTF-8.
    Code,
    /// The message is not UTF-8.
    Message,
    /// A label is in a source that was not given.
    LabelSource(usize),
    /// A label ends before it starts.
    LabelBackwards(usize),
    /// The colour of a label is none.
    LabelColor(usize),
    /// The message of a label is not UTF-8.
    LabelMessage(usize),
    /// A help is not UTF-8.
    Help(usize),
    /// A note is not UTF-8.
    Note(usize),
    /// The name of a source is not UTF-8.
    SourceName(usize),
    /// The text of a source is not UTF-8.
    SourceText(usize),
    /// The line numbers of a source do not fit.
    SourceLines(usize),
}

impl Fault {
    /// The status that tells it.
    fn number(self) -> u32
        ensures { result ≡ number_of self }
    {
        match self {
            Fault::Kind => 4,
            Fault::KindColor => 5,
            Fault::KindName => 6,
            Fault::Flags => 7,
            Fault::Attach => 8,
            Fault::Code => 9,
            Fault::Message => 10,
            Fault::LabelSource(_) => 11,
            Fault::LabelBackwards(_) => 12,
            Fault::LabelColor(_) => 13,
            Fault::LabelMessage(_) => 14,
            Fault::Help(_) => 15,
            Fault::Note(_) => 16,
            Fault::SourceName(_) => 17,
            Fault::SourceText(_) => 18,
            Fault::SourceLines(_) => 19,
        }
    }

    /// The number of what is at fault, or 0 where there is one alone.
    fn place(self) -> usize
        ensures { result ≡ place_of self }
    {
        match self {
            Fault::Kind
            | Fault::KindColor
            | Fault::KindName
            | Fault::Flags
            | Fault::Attach
            | Fault::Code
            | Fault::Message => 0,
            Fault::LabelSource(label)
            | Fault::LabelBackwards(label)
            | Fault::LabelColor(label)
            | Fault::LabelMessage(label) => label,
            Fault::Help(text) | Fault::Note(text) => text,
            Fault::SourceName(source) | Fault::SourceText(source) | Fault::SourceLines(source) => {
                source
            }
        }
    }
}

/// Why there is no picture.
#[derive(Clone, Copy)]
pub enum Refusal {
    /// There was no memory.
    NoMemory,
    /// The report or a source is faulty.
    Faulty(Fault),
}

impl From<AllocError> for Refusal {
    ghost use Rattle.std.specs.Prelude.{◌≡◌};
    ghost use Rattle.ariadne_calls.specs.declared.ending.Refusal.TheVariants.{NoMemory};

    ghost from_gives = { λ _ refusal. refusal ≡ NoMemory };

    fn from(_error: AllocError) -> Refusal {
        Refusal::NoMemory
    }
}

impl<T: Drop> From<AllocFailed<T>> for Refusal {
    ghost use Rattle.std.specs.Prelude.{◌≡◌};
    ghost use Rattle.ariadne_calls.specs.declared.ending.Refusal.TheVariants.{NoMemory};

    ghost from_gives = { λ _ refusal. refusal ≡ NoMemory };

    fn from(_refused: AllocFailed<T>) -> Refusal {
        Refusal::NoMemory
    }
}

/// How a call ends.
#[derive(Clone, Copy)]
pub enum CallOutcome {
    /// The picture has so many bytes, and so many labels are left out of it.
    Drawn { len: usize, left_out: usize },
    /// The picture has so many bytes, and the buffer has fewer.
    TooShort { len: usize },
    /// There is no picture.
    Refused(Refusal),
}

impl CallOutcome {
    /// The status that tells it.
    pub fn status(self) -> u32
        ensures { result ≡ status_of self }
    {
        match self {
            CallOutcome::Drawn { left_out: 0, .. } => 0,
            CallOutcome::Drawn { .. } => 1,
            CallOutcome::TooShort { .. } => 2,
            CallOutcome::Refused(Refusal::NoMemory) => 3,
            CallOutcome::Refused(Refusal::Faulty(fault)) => fault.number(),
        }
    }

    /// How many bytes the picture has, or 0 where there is none.
    pub fn len(self) -> usize
        ensures { result ≡ len_of self }
    {
        match self {
            CallOutcome::Drawn { len, .. } | CallOutcome::TooShort { len } => len,
            CallOutcome::Refused(_) => 0,
        }
    }

    /// How many labels are left out, or the number of what is at fault.
    pub fn count(self) -> usize
        ensures { result ≡ count_of self }
    {
        match self {
            CallOutcome::Drawn { left_out, .. } => left_out,
            CallOutcome::Refused(Refusal::Faulty(fault)) => fault.place(),
            CallOutcome::TooShort { .. } | CallOutcome::Refused(Refusal::NoMemory) => 0,
        }
    }
}
