//! What rows for programs propose: the changes of those below one head, or of those that one help says why, are
//! one way.

ghost use Rattle.std.specs.Prelude.{◌≡◌, ◌==◌, ◌++◌, ◌∷◌, [], map, IfOk, OnOk};
ghost use Rattle.std.specs.List.{list_all, list_any};
ghost use Rattle.ariadne_parse.specs.FixRows.{fix_row_parsed};
ghost use Rattle.ariadne_parse.specs.Proposed as parsed;
ghost use Rattle.ariadne_parse.specs.Proposed.{edit_of, proposed};
ghost use Rattle.ariadne_blocks.specs.Blocks as blocks;
ghost use Rattle.ariadne_blocks.specs.Blocks.{view_of};
ghost use Rattle.ariadne_blocks.specs.ProposedByRows as proposing;
ghost use Rattle.ariadne_blocks.specs.ProposedByRows.{any_in_line, edit_with, way_of};

use crate::block::Block;
use crate::fix_rows::{ParsedChange, change_of};
use ariadne_parse::{Change, FixRow, Proposal, Unit};
use std::alloc::{AllocError, Global};
use std::ops::Range;

/// How changes are proposed that rows tell.
#[derive(Drop)]
pub(crate) struct Proposing<'a> {
    /// The helps that say them, by their numbers.
    pub(crate) helps: Range<usize>,
    /// Why.
    pub(crate) why: String,
    /// The file.
    pub(crate) file: String,
    /// What rows of the snippet told of them.
    pub(crate) drawn: &'a [ParsedChange],
}

impl Proposing<'_> {
    /// Whether a proposal goes on: it begins with the same help, and is of the same file.
    fn goes_on_with(&self, last: &Proposal) -> bool
        ensures { result ≡ proposing.goes_on_with (way_of self.now) (proposed last.now) }
    {
        last.helps.start == self.helps.start && last.file == self.file
    }

    /// The helps that say the same as these ways: none, unless they change something in each line that rows of the
    /// snippet change.
    fn helps_saying(&self, ways: &[Vec<Change>]) -> Range<usize>
        ensures { (result.start, result.end) ≡ proposing.helps_saying (way_of self.now) (map parsed.way_of ways.now) }
    {
        if change_all(ways, self.drawn) {
            self.helps.start..self.helps.end
        } else {
            self.helps.start..self.helps.start
        }
    }

    /// What a change proposes alone.
    fn proposal(self, alloc: Global, change: Change) -> Result<Proposal, AllocError>
        ensures { IfOk result (λ it. proposed it
            ≡ proposing.changing (way_of self.entry) ((edit_of change ∷ []) ∷ [])) }
    {
        let mut way = Vec::new(alloc);
        way.push(change)?;
        let mut ways = Vec::new(alloc);
        ways.push(way)?;
        Ok(Proposal {
            helps: self.helps_saying(ways.as_slice()),
            why: self.why,
            file: self.file,
            unit: Unit::Byte,
            is_past_mark: true,
            ways,
        })
    }
}

impl Block {
    /// Takes in the change of a row, which has this text without escapes and is said by a help, as a part of what is
    /// proposed.
    pub(crate) fn propose(
        &mut self,
        alloc: Global,
        row: &FixRow<'_>,
        text: &str,
    ) -> Result<(), AllocError>
        ensures { OnOk result (view_of self.new
            ≡ blocks.with_proposed (edit_with (fix_row_parsed row.now) text.now) (view_of self.old)) }
    {
        let by = Proposing {
            helps: self.since..self.parsed.helps.len(),
            why: self.why.clone()?,
            file: self.rows.path.clone()?,
            drawn: self.changes.as_slice(),
        };
        let change = change_of(alloc, row, text)?;
        push_change(alloc, &mut self.parsed.proposals, by, change)
    }
}

/// Whether ways change something in each line in which rows of the snippet told a change.
fn change_all(ways: &[Vec<Change>], drawn: &[ParsedChange]) -> bool
    ensures { result ≡ list_all (λ change. any_in_line change.line ways.now) drawn.now }
{
    drawn.iter().all(|change| are_in_line(ways, change.line))
}

/// Whether ways change something in a line.
fn are_in_line(ways: &[Vec<Change>], line: usize) -> bool
    ensures { result ≡ any_in_line line ways.now }
{
    ways.iter().any(|way| is_in_line(way.as_slice(), line))
}

/// Whether one of these changes is in a line.
fn is_in_line(way: &[Change], line: usize) -> bool
    ensures { result ≡ list_any (λ change. change.start.line == line) way.now }
{
    way.iter().any(|change| change.start.line == line)
}

/// Adds a change to what is proposed.
fn push_change(
    alloc: Global,
    proposals: &mut Vec<Proposal>,
    by: Proposing<'_>,
    change: Change,
) -> Result<(), AllocError>
    ensures { OnOk result (map proposed proposals.new.items
        ≡ proposing.proposals_with (way_of by.entry) (edit_of change) (map proposed proposals.old.items)) }
{
    match proposals.pop() {
        Some(last) => push_behind(alloc, proposals, last, by, change),
        None => {
            proposals.push(by.proposal(alloc, change)?)?;
            Ok(())
        }
    }
}

/// Adds the last of what is proposed, with a change behind it.
fn push_behind(
    alloc: Global,
    proposals: &mut Vec<Proposal>,
    mut last: Proposal,
    by: Proposing<'_>,
    change: Change,
) -> Result<(), AllocError>
    ensures { OnOk result (map proposed proposals.new.items
        ≡ map proposed proposals.old.items
        ++ proposing.last_with (way_of by.entry) (edit_of change) (proposed last)) }
{
    if by.goes_on_with(&last) {
        last.add(change)?;
        last.helps = by.helps_saying(last.ways.as_slice());
        proposals.push(last)?;
        return Ok(());
    }
    proposals.push(last)?;
    proposals.push(by.proposal(alloc, change)?)?;
    Ok(())
}
