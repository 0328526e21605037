//! How a call ends that suggests edits.

ghost use Rattle.std.specs.Prelude.{◌≡◌};
ghost use Rattle.ariadne_calls.specs.Suggesting.{count_of, edit_number as number_of_edit};
ghost use Rattle.ariadne_calls.specs.Suggesting.{edit_place as place_of_edit, len_of, number_of, place_of};
ghost use Rattle.ariadne_calls.specs.Suggesting.{status_of};

use ariadne_edits::BadEdit;
use std::alloc::{AllocError, AllocFailed};

/// What is wrong with edits or their source: with which edit, by its number from 0.
#[derive(Clone, Copy)]
pub enum Misgiven {
    /// There is no such flag.
    Flags,
    /// The text of the source is not UTF-8.
    SourceText,
    /// The line numbers of the source do not fit.
    SourceLines,
    /// The text of an edit is not UTF-8.
    EditText(usize),
    /// The edits can't be made.
    Edits(BadEdit),
}

impl Misgiven {
    /// The status that tells it.
    fn number(self) -> u32
        ensures { result ≡ number_of self }
    {
        match self {
            Misgiven::Flags => 7,
            Misgiven::SourceText => 18,
            Misgiven::SourceLines => 19,
            Misgiven::EditText(_) => 20,
            Misgiven::Edits(bad) => edit_number(bad),
        }
    }

    /// The number of the edit that is at fault, or 0 where none is.
    fn place(self) -> usize
        ensures { result ≡ place_of self }
    {
        match self {
            Misgiven::Flags | Misgiven::SourceText | Misgiven::SourceLines => 0,
            Misgiven::EditText(edit) => edit,
            Misgiven::Edits(bad) => edit_place(bad),
        }
    }
}

/// The status that tells why edits can't be made.
fn edit_number(bad: BadEdit) -> u32
    ensures { result ≡ number_of_edit bad }
{
    match bad {
        BadEdit::Reversed(_) => 21,
        BadEdit::Overlaps(_) => 22,
        BadEdit::PastSource(_) => 23,
        BadEdit::CutsCharacter(_) => 24,
    }
}

/// The number of the edit for which they can't.
fn edit_place(bad: BadEdit) -> usize
    ensures { result ≡ place_of_edit bad }
{
    match bad {
        BadEdit::Reversed(edit)
        | BadEdit::Overlaps(edit)
        | BadEdit::PastSource(edit)
        | BadEdit::CutsCharacter(edit) => edit,
    }
}

/// Why nothing is suggested.
#[derive(Clone, Copy)]
pub enum Unsuggested {
    /// There was no memory.
    NoMemory,
    /// The edits or their source are faulty.
    Faulty(Misgiven),
}

impl From<AllocError> for Unsuggested {
    ghost use Rattle.std.specs.Prelude.{◌≡◌};
    ghost use Rattle.ariadne_calls.specs.declared.suggestion.Unsuggested.TheVariants.{NoMemory};

    ghost from_gives = { λ _ refusal. refusal ≡ NoMemory };

    fn from(_error: AllocError) -> Unsuggested {
        Unsuggested::NoMemory
    }
}

impl<T: Drop> From<AllocFailed<T>> for Unsuggested {
    ghost use Rattle.std.specs.Prelude.{◌≡◌};
    ghost use Rattle.ariadne_calls.specs.declared.suggestion.Unsuggested.TheVariants.{NoMemory};

    ghost from_gives = { λ _ refusal. refusal ≡ NoMemory };

    fn from(_refused: AllocFailed<T>) -> Unsuggested {
        Unsuggested::NoMemory
    }
}

/// How a call ends.
#[derive(Clone, Copy)]
pub enum Suggested {
    /// The text has so many bytes.
    Told { len: usize },
    /// The text has so many bytes, and the buffer has fewer.
    TooShort { len: usize },
    /// There is no text.
    Refused(Unsuggested),
}

impl Suggested {
    /// The status that tells it.
    pub fn status(self) -> u32
        ensures { result ≡ status_of self }
    {
        match self {
            Suggested::Told { .. } => 0,
            Suggested::TooShort { .. } => 2,
            Suggested::Refused(Unsuggested::NoMemory) => 3,
            Suggested::Refused(Unsuggested::Faulty(fault)) => fault.number(),
        }
    }

    /// How many bytes the text has, or 0 where there is none.
    pub fn len(self) -> usize
        ensures { result ≡ len_of self }
    {
        match self {
            Suggested::Told { len } | Suggested::TooShort { len } => len,
            Suggested::Refused(_) => 0,
        }
    }

    /// The number of the edit that is at fault, or 0 where none is.
    pub fn count(self) -> usize
        ensures { result ≡ count_of self }
    {
        match self {
            Suggested::Refused(Unsuggested::Faulty(fault)) => fault.place(),
            Suggested::Told { .. }
            | Suggested::TooShort { .. }
            | Suggested::Refused(Unsuggested::NoMemory) => 0,
        }
    }
}
