//! The matchers that lines are tried by: people's own at each line, and behind them those of the program at lines
//! with which one of these may begin.

ghost use Rattle.std.specs.Prelude.{◌≡◌, ◌⊎◌, ◌||◌, [], is_some, map, option_map, IfOk, IfSome, OnOk};
ghost use Rattle.std.specs.List.{slice_get};
ghost use Rattle.regex.specs.Strings.{matcher_pattern};
ghost use Rattle.ariadne_matchers.specs.Catches.{caught_at};
ghost use Rattle.ariadne_matchers.specs.MatchedRows.{texts};
ghost use Rattle.ariadne_matchers.specs.Readers.{entries_in, entries_of, fitting_told, words_of};
ghost use Rattle.ariadne_matching.specs.MatchedReports.{IsMeasuredOf};
ghost use Rattle.ariadne_matching.specs.TriedMatchers.{as_own, as_programs, begins_with, entry_at, entry_read};
ghost use Rattle.ariadne_matching.specs.TriedMatchers.{fits_program, has_own, has_programs, is_place, may_begin_with};
ghost use Rattle.ariadne_matching.specs.TriedMatchers.{own_entries, place_behind, program_rows, renumbered, search_told, tried};
ghost use Rattle.ariadne_matching.specs.TriedMatchers.{words_at, words_read, AreKept, IsNumbered};

use ariadne_matcher_tables::{builtin_begins, builtin_text, table_from_toml};
use ariadne_matchers::{Entry, Fit, Fitting, Matched, Measure, Reader, Table};
use regex::{Matcher, Regex};
use std::alloc::{AllocError, Global};
use std::boxed::Box;

/// An entry by its number in its table, from 0.
#[derive(Clone, Copy, PartialEq, Eq)]
pub enum EntryAt {
    /// In people's own.
    Own(usize),
    /// In the program's.
    Program(usize),
}

impl EntryAt {
    /// Whether it is the same as another.
    pub fn is(self, other: EntryAt) -> bool
        ensures { result ≡ is_place self other }
    {
        self == other
    }

    /// The entry behind this one.
    pub fn next(self) -> EntryAt
        ensures { result ≡ place_behind self }
    {
        match self {
            EntryAt::Own(number) => EntryAt::Own(number.saturating_add(1)),
            EntryAt::Program(number) => EntryAt::Program(number.saturating_add(1)),
        }
    }
}

/// What is known of the entries that lines may fit.
#[derive(Drop)]
pub enum Search<'l> {
    /// None fits them.
    Nothing,
    /// Whether this one fits them the next line tells.
    Open(EntryAt),
    /// This one fits them.
    Fits(EntryAt, Fit<'l>),
}

/// A diagnostic that lines tell, and what its columns count.
#[derive(Drop)]
pub struct Measured {
    /// The diagnostic.
    pub matched: Matched,
    /// What its columns count.
    pub measure: Measure,
}

/// What lines tell that an entry of a reader fits, if it has the entry. On `Err` there was no memory.
fn measured_by(
    alloc: Global,
    reader: &Reader<'_>,
    fit: &Fit<'_>,
) -> Result<Option<Measured>, AllocError>
    ensures { IfOk result (IsMeasuredOf (slice_get (entries_of reader.now) fit.now.entry) (words_of reader.now)
        (map caught_at fit.now.lines.items)) }
{
    let Some(entry) = reader.entry(fit.entry) else {
        return Ok(None);
    };
    match reader.diagnostic(alloc, fit)? {
        Some(matched) => Ok(Some(Measured {
            matched,
            measure: entry.measure,
        })),
        None => Ok(None),
    }
}

/// What is known of people's own entries.
fn own_search<'l>(fitting: Fitting<'l>) -> Search<'l>
    ensures told { search_told result ≡ as_own (fitting_told fitting.entry) }
    ensures numbered { IsNumbered result }
{
    match fitting {
        Fitting::Nothing => Search::Nothing,
        Fitting::Open(number) => Search::Open(EntryAt::Own(number)),
        Fitting::Fits(fit) => Search::Fits(EntryAt::Own(fit.entry), fit),
    }
}

/// What is known of the program's entries.
fn program_search<'l>(fitting: Fitting<'l>) -> Search<'l>
    ensures told { search_told result ≡ as_programs (fitting_told fitting.entry) }
    ensures numbered { IsNumbered result }
{
    match fitting {
        Fitting::Nothing => Search::Nothing,
        Fitting::Open(number) => Search::Open(EntryAt::Program(number)),
        Fitting::Fits(fit) => Search::Fits(EntryAt::Program(fit.entry), fit),
    }
}

/// The program's entries, whose patterns are read once a line may begin one of them.
#[derive(Drop)]
pub struct Program<'t> {
    begins: Matcher<'static>,
    tool: Option<&'t str>,
    reader: Option<Reader<'static>>,
}

impl<'t> Program<'t> {
    /// None is read yet. On `Err` there was no memory.
    fn new(alloc: Global, tool: Option<&'t str>) -> Result<Program<'t>, AllocError> {
        let begins = match Regex::new(alloc, builtin_begins()) {
            Ok(begins) => begins,
            Err(_) => return Err(AllocError),
        };
        let begins: &'static Regex = Box::leak(Box::new(alloc, begins)?);
        Ok(Program {
            begins: begins.matcher(alloc)?,
            tool,
            reader: None,
        })
    }

    /// What reads the entries, which are read now where they were not. It is to be put back.
    fn take_reader(&mut self, alloc: Global) -> Result<Reader<'static>, AllocError>
        ensures reader { IfOk result (λ reader. IfSome self.old.reader (λ held. reader ≡ held)) }
        ensures same { matcher_pattern self.new.begins ≡ matcher_pattern self.old.begins }
    {
        match self.reader.take() {
            Some(reader) => Ok(reader),
            None => program_reader(alloc, self.tool),
        }
    }

    /// Whether there is an entry. On `Err` there was no memory.
    fn has_entries(&mut self, alloc: Global) -> Result<bool, AllocError>
        ensures { IfOk result (λ has_entries. has_entries ≡ is_some (entry_read self.new.reader 0)) }
    {
        let reader = self.take_reader(alloc)?;
        let has_entries = reader.entry(0).is_some();
        self.reader = Some(reader);
        Ok(has_entries)
    }

    /// Whether one of them may begin with the first of some lines.
    fn may_begin(&mut self, lines: &[&str]) -> bool
        ensures begins { result ≡ begins_with (matcher_pattern self.old.begins) (texts lines.now) }
        ensures same { matcher_pattern self.new.begins ≡ matcher_pattern self.old.begins }
        ensures reader { self.new.reader ≡ self.old.reader }
    {
        match lines.first() {
            Some(line) => self.begins.is_match(line),
            None => false,
        }
    }

    /// The first from a number on that fits lines, if one of them may begin there. On `Err` there was no memory.
    fn fit<'l>(
        &mut self,
        alloc: Global,
        from: usize,
        lines: &[&'l str],
        is_all: bool,
    ) -> Result<Fitting<'l>, AllocError>
        ensures fits { IfOk result (λ fitting. fitting_told fitting
            ≡ fits_program (matcher_pattern self.old.begins) (program_rows self.new) from is_all (texts lines.now)) }
        ensures same { matcher_pattern self.new.begins ≡ matcher_pattern self.old.begins }
        ensures kept { OnOk result ((program_rows self.old ≡ []) ⊎ (program_rows self.new ≡ program_rows self.old)) }
    {
        if !self.may_begin(lines) {
            return Ok(Fitting::Nothing);
        }
        let mut reader = self.take_reader(alloc)?;
        let fitting = reader.fit(alloc, from, lines, is_all);
        self.reader = Some(reader);
        fitting
    }

    /// The entry of this number, if it was read.
    fn entry(&self, number: usize) -> Option<&Entry>
        ensures { option_map (λ entry. entry.now) result ≡ entry_read self.now.reader number }
    {
        self.reader.as_ref()?.entry(number)
    }

    /// What lines tell that an entry fits, if it was read. On `Err` there was no memory.
    fn measured(&self, alloc: Global, fit: &Fit<'_>) -> Result<Option<Measured>, AllocError>
        ensures { IfOk result (IsMeasuredOf (entry_read self.now.reader fit.now.entry) (words_read self.now.reader)
            (map caught_at fit.now.lines.items)) }
    {
        match &self.reader {
            Some(reader) => measured_by(alloc, reader, fit),
            None => Ok(None),
        }
    }
}

/// What reads the program's entries, or of those the ones that read a tool's lines. They are held to the end.
fn program_reader(alloc: Global, tool: Option<&str>) -> Result<Reader<'static>, AllocError> {
    let table = match table_from_toml(alloc, builtin_text()) {
        Ok(table) => table,
        Err(_) => return Err(AllocError),
    };
    let table: &'static Table = Box::leak(Box::new(alloc, table)?);
    Reader::new(alloc, table, tool)
}

/// The entries that lines are tried by.
#[derive(Drop)]
pub struct Matchers<'t> {
    own: Reader<'t>,
    program: Program<'t>,
}

impl<'t> Matchers<'t> {
    /// The entries of people's own table, and of the program's; of both those that read this tool's lines, if one is
    /// named. On `Err` there was no memory.
    pub fn new(
        alloc: Global,
        own: &'t Table,
        tool: Option<&'t str>,
    ) -> Result<Matchers<'t>, AllocError>
        ensures { IfOk result (λ matchers. own_entries matchers ≡ entries_in (option_map (λ tool. tool.now) tool.entry) own.now) }
    {
        Ok(Matchers {
            own: Reader::new(alloc, own, tool)?,
            program: Program::new(alloc, tool)?,
        })
    }

    /// Whether there is an entry. On `Err` there was no memory.
    pub fn has_entries(&mut self, alloc: Global) -> Result<bool, AllocError>
        ensures has { IfOk result (λ has_entries. has_entries ≡ has_own self.new || has_programs self.new) }
        ensures own { own_entries self.new ≡ own_entries self.old }
    {
        if self.own.entry(0).is_some() {
            return Ok(true);
        }
        self.program.has_entries(alloc)
    }

    /// Whether an entry may begin with the first of some lines: others need no look.
    pub fn may_begin(&mut self, lines: &[&str]) -> bool
        ensures { result ≡ may_begin_with self.old (texts lines.now) }
    {
        self.own.entry(0).is_some() || self.program.may_begin(lines)
    }

    /// The first entry from one on that fits the lines from the first one on, and names a file and a line there; or
    /// for which the next line tells, where the lines are not all. On `Err` there was no memory.
    pub fn fit<'l>(
        &mut self,
        alloc: Global,
        from: EntryAt,
        lines: &[&'l str],
        is_all: bool,
    ) -> Result<Search<'l>, AllocError>
        ensures fits { IfOk result (λ search. search_told search ≡ tried self.new from is_all (texts lines.now)) }
        ensures numbered { IfOk result IsNumbered }
        ensures kept { OnOk result (AreKept self.old self.new) }
    {
        match from {
            EntryAt::Own(number) => match self.own.fit(alloc, number, lines, is_all)? {
                Fitting::Nothing => Ok(program_search(self.program.fit(alloc, 0, lines, is_all)?)),
                fitting => Ok(own_search(fitting)),
            },
            EntryAt::Program(number) => {
                Ok(program_search(self.program.fit(alloc, number, lines, is_all)?))
            }
        }
    }

    /// The entry at a place, if it was read.
    pub fn entry(&self, place: EntryAt) -> Option<&Entry>
        ensures { option_map (λ entry. entry.now) result ≡ entry_at self.now place }
    {
        match place {
            EntryAt::Own(number) => self.own.entry(number),
            EntryAt::Program(number) => self.program.entry(number),
        }
    }

    /// What lines tell that an entry fits, in the table of a place, if it has the entry. On `Err` there was no memory.
    pub fn measured(
        &self,
        alloc: Global,
        place: EntryAt,
        fit: &Fit<'_>,
    ) -> Result<Option<Measured>, AllocError>
        ensures { IfOk result (IsMeasuredOf (entry_at self.now (renumbered place fit.now.entry))
            (words_at self.now (renumbered place fit.now.entry)) (map caught_at fit.now.lines.items)) }
    {
        match place {
            EntryAt::Own(_) => measured_by(alloc, &self.own, fit),
            EntryAt::Program(_) => self.program.measured(alloc, fit),
        }
    }
}
