//! The entries of a table at lines: the first that fits counts.

ghost use Rattle.std.specs.Prelude.{◌≡◌, map, option_map, slice_get, string_bytes, IfOk, IfSome};
ghost use Rattle.std.specs.List.{list_any};
ghost use Rattle.std.specs.Str.{bytes_eq};
ghost use Rattle.ariadne_matchers.specs.Catches.{caught_at};
ghost use Rattle.ariadne_matchers.specs.Lasts.{is_taken_in};
ghost use Rattle.ariadne_matchers.specs.Readers.{counted, entries_in, entries_of, first_fit, fitting_told, has_place};
ghost use Rattle.ariadne_matchers.specs.Readers.{is_read_by, rows_in, words_of};
ghost use Rattle.ariadne_matchers.specs.MatchedRows.{entry_in, taken_told, texts};
ghost use Rattle.ariadne_matchers.specs.MatchedDiagnostics.{IsMatchedOf};

use crate::caught::Caught;
use crate::entry::{Entry, Word};
use crate::lasts::is_taken;
use crate::matched::{Matched, matched_by, named_place};
use crate::rows::{EntrySearch, Taken};
use crate::table::Table;
use std::alloc::{AllocError, Global};

/// Lines that an entry fits, with what was caught of them.
#[derive(Drop)]
pub struct Fit<'l> {
    /// The entry's number, from 0.
    pub entry: usize,
    /// The lines.
    pub lines: Vec<Caught<'l>>,
}

/// What is known of an entry that lines may fit.
#[derive(Drop)]
pub enum Fitting<'l> {
    /// No entry fits them.
    Nothing,
    /// Whether the entry of this number fits them the next line tells.
    Open(usize),
    /// An entry fits.
    Fits(Fit<'l>),
}

/// The entries of a table, ready to search.
#[derive(Drop)]
pub struct Reader<'t> {
    entries: Vec<EntrySearch<'t>>,
    words: &'t [Word],
}

impl<'t> Reader<'t> {
    /// The entries of a table, or of those the ones that read this tool's lines. On `Err` there was no memory.
    pub fn new(
        alloc: Global,
        table: &'t Table,
        tool: Option<&str>,
    ) -> Result<Reader<'t>, AllocError>
        ensures entries { IfOk result (λ reader. entries_of reader
            ≡ entries_in (option_map (λ tool. tool.now) tool.entry) table.now) }
        ensures rows { IfOk result (λ reader. rows_in reader ≡ map entry_in (entries_of reader)) }
        ensures words { IfOk result (λ reader. words_of reader ≡ table.now.words.items) }
    {
        let mut entries = Vec::new(alloc);
        for entry in &table.entries {
            if is_read(entry, tool) {
                entries.push(EntrySearch::new(alloc, entry)?)?;
            }
        }
        Ok(Reader {
            entries,
            words: table.words.as_slice(),
        })
    }

    /// The entry of this number.
    pub fn entry(&self, number: usize) -> Option<&'t Entry>
        ensures { option_map (λ entry. entry.now) result ≡ slice_get (entries_of self.now) number }
    {
        Some(self.entries.get(number)?.entry)
    }

    /// The first entry from a number on that fits the lines from the first one on, and names a file and a line
    /// there; or for which the next line tells, where the lines are not all.
    ///
    /// On `Err` there was no memory.
    pub fn fit<'l>(
        &mut self,
        alloc: Global,
        from: usize,
        lines: &[&'l str],
        is_all: bool,
    ) -> Result<Fitting<'l>, AllocError>
        ensures fits { IfOk result (λ fitting. fitting_told fitting
            ≡ first_fit from (rows_in self.old) is_all (texts lines.now)) }
        ensures same { rows_in self.new ≡ rows_in self.old }
        ensures entries { entries_of self.new ≡ entries_of self.old }
        ensures words { words_of self.new ≡ words_of self.old }
    {
        for number in from..self.entries.len() {
            let taken = self.entries[number].fit(alloc, lines, is_all)?;
            match known(number, taken) {
                Fitting::Nothing => {}
                other => return Ok(other),
            }
        }
        Ok(Fitting::Nothing)
    }

    /// What lines tell that an entry fits. On `Err` there was no memory.
    pub fn diagnostic(&self, alloc: Global, fit: &Fit<'_>) -> Result<Option<Matched>, AllocError>
        ensures { IfOk result (λ matched. IfSome (slice_get (entries_of self.now) fit.now.entry)
            (λ entry. IsMatchedOf entry (words_of self.now) (map caught_at fit.now.lines.items) matched)) }
    {
        match self.entry(fit.entry) {
            Some(entry) => matched_by(alloc, entry, self.words, fit.lines.as_slice()),
            None => Ok(None),
        }
    }
}

/// What is known by what the entry of a number takes: it fits if its lines name a place.
fn known<'l>(number: usize, taken: Taken<'l>) -> Fitting<'l>
    ensures { fitting_told result ≡ counted number (taken_told taken.entry) }
{
    match taken {
        Taken::Open => Fitting::Open(number),
        Taken::Lines(lines) if is_placed(lines.as_slice()) => Fitting::Fits(Fit {
            entry: number,
            lines,
        }),
        _ => Fitting::Nothing,
    }
}

/// Whether an entry reads the lines of a tool; each does where none is named.
fn is_read(entry: &Entry, tool: Option<&str>) -> bool
    ensures { result ≡ is_read_by (option_map (λ tool. tool.now) tool.entry) entry.now }
{
    match tool {
        Some(tool) => any_is_tool(entry.tools.as_slice(), tool),
        None => true,
    }
}

/// Whether one of some names is that of a tool.
fn any_is_tool(names: &[String], tool: &str) -> bool
    ensures { result ≡ list_any (λ name. bytes_eq (string_bytes name) tool.now) names.now }
{
    names.iter().any(|name| is_tool(name, tool))
}

/// Whether a name is that of a tool.
fn is_tool(name: &String, tool: &str) -> bool
    ensures { result ≡ bytes_eq (string_bytes name.now) tool.now }
{
    name.as_str() == tool
}

/// Whether lines name a file and a line.
fn is_placed(lines: &[Caught<'_>]) -> bool
    ensures { result ≡ has_place (map caught_at lines.now) }
{
    named_place(lines).is_some()
}

impl Fit<'_> {
    /// Whether a line is taken in for the diagnostic: it is blank, or something was caught of it and counts. The
    /// others pass, as a stack does.
    pub fn takes_in(&self, place: usize) -> bool
        ensures { result ≡ is_taken_in (map caught_at self.now.lines.items) place }
    {
        let lines = self.lines.as_slice();
        is_taken(&lines[place.min(lines.len())..])
    }
}
