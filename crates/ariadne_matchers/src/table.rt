//! A table of matchers. tools/try-matchers says by which rules lines are read by it.

ghost use Rattle.std.specs.Prelude.{◌≡◌, ◌++◌, OnOk};

use crate::entry::{Entry, Word};
use std::alloc::AllocError;

/// A table of matchers.
#[derive(Drop)]
pub struct Table {
    /// Its entries. The first that fits counts.
    pub entries: Vec<Entry>,
    /// The words for severities. The first that is named counts.
    pub words: Vec<Word>,
}

impl Table {
    /// Adds the entries and words of another table behind those that are there. On `Err` there was no memory.
    pub fn add(&mut self, other: Table) -> Result<(), AllocError>
        ensures entries { OnOk result (self.new.entries.items ≡ self.old.entries.items ++ other.entries.items) }
        ensures words { OnOk result (self.new.words.items ≡ self.old.words.items ++ other.words.items) }
    {
        let Table {
            mut entries,
            mut words,
        } = other;
        self.entries.append(&mut entries)?;
        self.words.append(&mut words)
    }
}
