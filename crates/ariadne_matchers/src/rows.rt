//! The lines that an entry fits: its rows are gone through in their order, without a way back.

ghost use Rattle.std.specs.Prelude.{◌≡◌, ◌||◌, drop, length, map, nat_le, take, IfOk};
ghost use Rattle.ariadne_matchers.specs.Catches.{catch_by, caught_at};
ghost use Rattle.ariadne_matchers.specs.MatchedRows.{caught_front, entry_in, fit_entry, fit_rows, is_many as fits_many, is_needed};
ghost use Rattle.ariadne_matchers.specs.MatchedRows.{is_open, reach as reach_of, row_in, row_of, rows_of, taken_by};
ghost use Rattle.ariadne_matchers.specs.MatchedRows.{taken_of, taken_told, texts};

use crate::caught::{Caught, catch};
use crate::entry::{Entry, Groups, Often, Row};
use regex::Matcher;
use std::alloc::{AllocError, Global};

/// How many lines an entry takes at most, the first of a loop among them.
const LIMIT: usize = 64;

/// What rows take of lines.
#[derive(Drop)]
pub(crate) enum Taken<'l> {
    /// The next line tells.
    Open,
    /// The lines don't fit.
    Unfit,
    /// These lines, with what was caught of them.
    Lines(Vec<Caught<'l>>),
}

/// A row that is searched for.
#[derive(Drop)]
pub(crate) struct RowSearch<'t> {
    often: Often,
    groups: Groups,
    matcher: Matcher<'t>,
}

impl<'t> RowSearch<'t> {
    /// What searches for a row.
    fn new(alloc: Global, row: &'t Row) -> Result<RowSearch<'t>, AllocError>
        ensures { IfOk result (λ search. row_of search ≡ row_in row.now) }
    {
        Ok(RowSearch {
            often: row.often,
            groups: row.groups,
            matcher: row.pattern.matcher(alloc)?,
        })
    }

    /// What the row takes of the lines, which are all that there are or the first of them.
    fn take<'l>(
        &mut self,
        alloc: Global,
        lines: &[&'l str],
        is_all: bool,
    ) -> Result<Taken<'l>, AllocError>
        ensures taken { IfOk result (λ taken. taken_told taken
            ≡ taken_by (row_of self.old) is_all (texts lines.now)) }
        ensures same { row_of self.new ≡ row_of self.old }
    {
        let lines = reach(self.often, lines);
        let caught = self.catch_front(alloc, lines)?;
        Ok(settled(self.often, is_all, lines.len(), caught))
    }

    /// What the row catches of the lines that fit it, from the first on.
    fn catch_front<'l>(
        &mut self,
        alloc: Global,
        lines: &[&'l str],
    ) -> Result<Vec<Caught<'l>>, AllocError>
        ensures caught { IfOk result (λ all. map caught_at all.items
            ≡ caught_front (row_of self.old) (texts lines.now)) }
        ensures same { row_of self.new ≡ row_of self.old }
    {
        let mut all = Vec::new(alloc);
        for line in lines {
            match catch(&mut self.matcher, &self.groups, line) {
                Some(caught) => all.push(caught)?,
                None => return Ok(all),
            }
        }
        Ok(all)
    }
}

/// What a row takes that catches so much of lines, of which there are so many that it could reach.
fn settled<'l>(often: Often, is_all: bool, lines: usize, caught: Vec<Caught<'l>>) -> Taken<'l>
    ensures { taken_told result ≡ taken_of often is_all lines (map caught_at caught.entry.items) }
{
    if !is_all && goes_on(often, lines, caught.len()) {
        return Taken::Open;
    }
    if caught.is_empty() && must_fit(often) {
        return Taken::Unfit;
    }
    Taken::Lines(caught)
}

/// Whether a row may fit one more line than so many, which are all that it could reach.
fn goes_on(often: Often, lines: usize, caught: usize) -> bool
    ensures { result ≡ is_open often lines caught }
{
    caught == lines && (is_many(often) || caught == 0)
}

/// The lines that a row may fit.
fn reach<'a, 'l>(often: Often, lines: &'a [&'l str]) -> &'a [&'l str]
    ensures { texts result.now ≡ reach_of often (texts lines.now) }
{
    match often {
        Often::Many => lines,
        Often::Once | Often::Maybe | Often::Loop => &lines[..lines.len().min(1)],
    }
}

/// Whether a row may fit as many lines as it can.
fn is_many(often: Often) -> bool
    ensures { result ≡ fits_many often }
{
    matches!(often, Often::Many)
}

/// Whether a row has to fit a line.
fn must_fit(often: Often) -> bool
    ensures { result ≡ is_needed often }
{
    match often {
        Often::Once | Often::Loop => true,
        Often::Maybe | Often::Many => false,
    }
}

/// The lines that an entry takes at most.
fn first_lines<'a, 'l>(lines: &'a [&'l str]) -> &'a [&'l str]
    ensures { texts result.now ≡ take 64 (texts lines.now) }
{
    &lines[..LIMIT.min(lines.len())]
}

/// The lines behind those that are taken.
fn behind<'a, 'l>(lines: &'a [&'l str], taken: &[Caught<'_>]) -> &'a [&'l str]
    ensures { texts result.now ≡ drop (length taken.now) (texts lines.now) }
{
    &lines[taken.len().min(lines.len())..]
}

/// Whether an entry needs no more lines than so many: they are all that there are, or as many as it takes.
fn is_whole(is_all: bool, lines: usize) -> bool
    ensures { result ≡ (is_all || nat_le 64 lines) }
{
    is_all || lines >= LIMIT
}

/// An entry that is searched for.
#[derive(Drop)]
pub(crate) struct EntrySearch<'t> {
    /// The entry.
    pub entry: &'t Entry,
    rows: Vec<RowSearch<'t>>,
}

impl<'t> EntrySearch<'t> {
    /// What searches for an entry.
    pub(crate) fn new(alloc: Global, entry: &'t Entry) -> Result<EntrySearch<'t>, AllocError>
        ensures rows { IfOk result (λ search. rows_of search ≡ entry_in entry.now) }
        ensures entry { IfOk result (λ search. search.entry.now ≡ entry.now) }
    {
        let mut rows = Vec::new(alloc);
        for row in &entry.rows {
            rows.push(RowSearch::new(alloc, row)?)?;
        }
        Ok(EntrySearch { entry, rows })
    }

    /// What the entry takes of the lines, which are all that there are or the first of them.
    pub(crate) fn fit<'l>(
        &mut self,
        alloc: Global,
        lines: &[&'l str],
        is_all: bool,
    ) -> Result<Taken<'l>, AllocError>
        ensures taken { IfOk result (λ taken. taken_told taken
            ≡ fit_entry (rows_of self.old) is_all (texts lines.now)) }
        ensures same { rows_of self.new ≡ rows_of self.old }
        ensures entry { self.new.entry ≡ self.old.entry }
    {
        self.fit_rows(alloc, first_lines(lines), is_whole(is_all, lines.len()))
    }

    /// What the rows take of the lines.
    fn fit_rows<'l>(
        &mut self,
        alloc: Global,
        lines: &[&'l str],
        is_all: bool,
    ) -> Result<Taken<'l>, AllocError>
        ensures taken { IfOk result (λ taken. taken_told taken
            ≡ fit_rows (rows_of self.old) is_all (texts lines.now)) }
        ensures same { rows_of self.new ≡ rows_of self.old }
        ensures entry { self.new.entry ≡ self.old.entry }
    {
        let mut all = Vec::new(alloc);
        for number in 0..self.rows.len() {
            let taken = self.rows[number].take(alloc, behind(lines, all.as_slice()), is_all)?;
            match taken {
                Taken::Lines(mut more) => all.append(&mut more)?,
                other => return Ok(other),
            }
        }
        Ok(Taken::Lines(all))
    }
}
