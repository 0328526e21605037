//! What was found of a file.

ghost use Rattle.std.specs.Prelude.{◌≡◌, ◌≤◌, ◌<◌, ◌+◌, ◌^◌};
ghost use Rattle.ariadne_commands.specs.Outcomes.{offends, outcome_first, outcome_last, was_read};

use crate::offence::Offence;

/// What was found of a file.
#[derive(Clone, Copy)]
pub enum Outcome {
    /// Its brackets are balanced.
    Balanced,
    /// This is its first offence.
    Offends(Offence),
    /// It could not be read.
    Unread,
}

impl Outcome {
    /// Whether the file was read.
    pub fn was_read(&self) -> bool
        ensures { result ≡ was_read self.now }
    {
        !matches!(self, Outcome::Unread)
    }

    /// Whether the file has an offence.
    pub fn offends(&self) -> bool
        ensures { result ≡ offends self.now }
    {
        matches!(self, Outcome::Offends(_))
    }
}

/// A file that was checked.
#[derive(Clone, Copy)]
pub struct Checked<'a> {
    /// Its path.
    pub path: &'a str,
    /// What was found of it.
    pub outcome: Outcome,
    ghost forward: { outcome_first outcome ≤ outcome_last outcome },
    ghost fits: { outcome_last outcome + 1 < 2 ^ 64 },
}
