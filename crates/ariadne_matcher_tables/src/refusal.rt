//! Why a table is refused.

ghost use Rattle.std.specs.Prelude.{◌≡◌, ◌≤◌, alloc_error, length, option_copied};
ghost use Rattle.toml.specs.Errors.{IsWithin};
ghost use Rattle.ariadne_matcher_tables.specs.EntryFaults.{IsOfChoice};
ghost use Rattle.ariadne_matcher_tables.specs.TableRefusals.{called_by, line_at, whole_of, IsInLine, IsOfFault, IsOfJson, IsOfToml};
ghost use Rattle.ariadne_matcher_tables.specs.declared.refusal.Fault.TheVariants.{Memory as NoRoom};
ghost use Rattle.ariadne_matcher_tables.specs.declared.refusal.Refusal.TheVariants.{Memory};

use std::alloc::{AllocError, AllocFailed, Global};
use std::fmt;
use thiserror::Error;

/// Why a table is refused. The texts are those that a reader gets behind the name of the file.
#[derive(Debug, Drop, Error)]
pub enum Refusal {
    /// There was no memory for it.
    #[error("no memory")]
    Memory(AllocError),
    /// It is no text of its form.
    #[error("line {line}: {what}")]
    Text {
        /// The line, from 1.
        line: usize,
        /// What is wrong there.
        what: String,
    },
    /// It has this fault, and no entry has it.
    #[error("{0}")]
    Whole(Fault),
    /// An entry has a fault.
    #[error("entry {name}: {fault}")]
    Entry {
        /// The entry's name, or its number from 1.
        name: String,
        /// What is wrong with it.
        fault: Fault,
    },
}

/// What a member has to be.
#[derive(Clone, Copy, Debug)]
pub enum Wanted {
    /// A text.
    Text,
    /// A number that 32 bits have.
    Number,
    /// A number from 1 on, likewise.
    NumberFromOne,
    /// A list.
    List,
    /// A list of texts.
    Texts,
    /// A table.
    Table,
}

impl fmt::Display for Wanted {
    fn fmt<W: fmt::Write>(&self, f: &mut fmt::Formatter<W>) -> fmt::Result {
        f.write_str(match self {
            Wanted::Text => "a text",
            Wanted::Number => "a number",
            Wanted::NumberFromOne => "a number from 1 on",
            Wanted::List => "a list",
            Wanted::Texts => "a list of texts",
            Wanted::Table => "a table",
        })
    }
}

/// The words that a member may be.
#[derive(Clone, Copy, Debug)]
pub enum Choices {
    /// What columns count.
    Units,
    /// Where an end stands.
    Ends,
    /// What stands for characters.
    Escapes,
    /// A severity.
    Severities,
    /// A severity, as editors name them.
    EditorSeverities,
}

impl fmt::Display for Choices {
    fn fmt<W: fmt::Write>(&self, f: &mut fmt::Formatter<W>) -> fmt::Result {
        f.write_str(match self {
            Choices::Units => "`characters`, `bytes`, `utf16` or `display`",
            Choices::Ends => "`last` or `behind`",
            Choices::Escapes => "`percent`",
            Choices::Severities => "`error`, `warning` or `note`",
            Choices::EditorSeverities => "`error`, `warning` or `info`",
        })
    }
}

/// What is wrong with a table, or with an entry of it.
#[derive(Debug, Drop, Error)]
pub enum Fault {
    /// There was no memory for it.
    #[error("no memory")]
    Memory(AllocError),
    /// It is no table.
    #[error("it is not a table")]
    NoTable,
    /// A member is missing.
    #[error("`{0}` is missing")]
    Missing(&'static str),
    /// A member is unknown.
    #[error("`{0}` is unknown")]
    Unknown(String),
    /// A member is of another kind.
    #[error("`{member}` is not {wanted}")]
    Kind {
        /// The member.
        member: &'static str,
        /// What it has to be.
        wanted: Wanted,
    },
    /// A member is none of the words that it may be.
    #[error("`{member}` is `{word}`, and not {choices}")]
    Choice {
        /// The member.
        member: &'static str,
        /// What it is.
        word: String,
        /// What it may be.
        choices: Choices,
    },
    /// A row is neither a pattern nor a table of one.
    #[error("`rows` is not a list of 'PATTERN' or {{once, maybe, many or loop = 'PATTERN'}}")]
    Row,
    /// A pattern is no regular expression.
    #[error("no regular expression: {error}: {pattern}")]
    Pattern {
        /// The pattern.
        pattern: String,
        /// Why it is none.
        error: regex::Error,
    },
    /// A pattern may fit a part of a line.
    #[error("it has to fit from `^` to `$`: {0}")]
    Part(String),
    /// A group has a name that says nothing.
    #[error("unknown group `{0}`")]
    Group(String),
    /// A pattern has no group of this number.
    #[error("`{member}` is group {number}, and the pattern has {groups}")]
    NoGroup {
        /// The member that names it.
        member: &'static str,
        /// Its number.
        number: u64,
        /// How many the pattern has.
        groups: usize,
    },
    /// The rows stand in an order that they may not have.
    #[error("the first row stands once, and a loop at the end")]
    Order,
    /// No row takes a file.
    #[error("no row takes `file`")]
    NoFile,
    /// No row takes a line.
    #[error("no row takes `line`")]
    NoLine,
    /// An entry in front has the same name.
    #[error("a second entry of this name")]
    Again,
}

impl From<AllocError> for Refusal {
    ghost from_gives = { λ _ refusal. refusal ≡ Memory alloc_error };

    fn from(error: AllocError) -> Refusal {
        Refusal::Memory(error)
    }
}

impl<T: Drop> From<AllocFailed<T>> for Refusal {
    ghost from_gives = { λ _ refusal. refusal ≡ Memory alloc_error };

    fn from(_refused: AllocFailed<T>) -> Refusal {
        Refusal::Memory(AllocError)
    }
}

impl From<AllocError> for Fault {
    ghost from_gives = { λ _ fault. fault ≡ NoRoom alloc_error };

    fn from(error: AllocError) -> Fault {
        Fault::Memory(error)
    }
}

impl<T: Drop> From<AllocFailed<T>> for Fault {
    ghost from_gives = { λ _ fault. fault ≡ NoRoom alloc_error };

    fn from(_refused: AllocFailed<T>) -> Fault {
        Fault::Memory(AllocError)
    }
}

impl Fault {
    /// A member is this word, and none of those that it may be.
    pub(crate) fn choice(alloc: Global, member: &'static str, word: &str, choices: Choices) -> Fault
        ensures { IsOfChoice member.now word.now choices result }
    {
        match String::from_str(alloc, word) {
            Ok(word) => Fault::Choice {
                member,
                word,
                choices,
            },
            Err(error) => Fault::Memory(error),
        }
    }
}

impl Refusal {
    /// A table has a fault that is no entry's.
    pub(crate) fn of_whole(fault: Fault) -> Refusal
        ensures { result ≡ whole_of fault }
    {
        match fault {
            Fault::Memory(error) => Refusal::Memory(error),
            fault => Refusal::Whole(fault),
        }
    }

    /// The entry of a number, which counts from 1, has a fault. Without a name it is told by its number.
    pub(crate) fn of_entry(
        alloc: Global,
        number: usize,
        name: Option<&str>,
        fault: Fault,
    ) -> Refusal
        ensures { IsOfFault (called_by number (option_copied name.entry)) fault result }
    {
        let called = match name {
            Some(name) => String::from_str(alloc, name),
            None => format!(in alloc; "{number}"),
        };
        match (called, fault) {
            (_, Fault::Memory(error)) | (Err(error), _) => Refusal::Memory(error),
            (Ok(name), fault) => Refusal::Entry { name, fault },
        }
    }

    /// A text is no TOML.
    pub(crate) fn of_toml(alloc: Global, text: &str, error: &toml::de::Error) -> Refusal
        requires { IsWithin text.now error.now }
        ensures { IsOfToml text.now error.now result }
    {
        match error.span() {
            Some(span) => Refusal::of_text(alloc, line_at(text, span.start), error.message()),
            None => Refusal::Memory(AllocError),
        }
    }

    /// A text is no JSON.
    pub(crate) fn of_json(alloc: Global, error: &serde_json::Error) -> Refusal
        ensures { IsOfJson error.now result }
    {
        if error.is_memory() {
            return Refusal::Memory(AllocError);
        }
        Refusal::of_text(alloc, error.line(), "no JSON")
    }

    /// A text has a fault in this line.
    fn of_text(alloc: Global, line: usize, what: &str) -> Refusal
        ensures { IsInLine line what.now result }
    {
        match String::from_str(alloc, what) {
            Ok(what) => Refusal::Text { line, what },
            Err(error) => Refusal::Memory(error),
        }
    }
}

/// The line of a place in a text, from 1.
fn line_at(text: &str, place: usize) -> usize
    requires { place ≤ length text.now }
    ensures { result ≡ line_at text.now place }
{
    let front = &text.as_bytes()[..place];
    front.iter().filter(|byte| **byte == b'\n').count() + 1
}
