//! What a run knows behind the lines that it has read: the files, the diagnostic in front, and the lines
//! that wait.

ghost use Rattle.std.specs.Prelude.{◌≡◌, true, IfOk, OnOk, Some};
ghost use Rattle.ariadne_parse.specs.ArrowsParsed.{arrow_parsed};
ghost use Rattle.ariadne_show.specs.WaitingLines.{ends_in_head as is_head_last, is_head as is_head_line};
ghost use Rattle.ariadne_show.specs.Known.{has_waiting_lines, is_note_of, is_waited_for as is_waiting};
ghost use Rattle.ariadne_show.specs.Known.{AreMarksSettled, IsBlockTaken, IsMoreTaken, IsNamedQuoted, IsNew};
ghost use Rattle.ariadne_show.specs.Known.{IsPlacedAt, IsPlacedIn, IsPlacedNow, IsRowAdded, IsRowTaken, IsTriedAsRow, IsWaiting};
ghost use Rattle.ariadne_show.specs.ReadFiles.{HaveSources};

use crate::finder::Finder;
use crate::front::{PlacedHead, Role, WaitingHead, WaitingLine, added_row, ends_in_head, role_of};
use crate::options::Options;
use ariadne_blocks::{Block, Drawn, Line, drop_repeats, settle_marks};
use ariadne_parse::{Arrow, Diagnostic, Sent, arrow_of};
use std::alloc::{AllocError, Global};
use std::rt::Files;

/// What a run knows behind the lines that it has read.
#[derive(Drop)]
pub struct Known {
    /// The files.
    pub finder: Finder,
    /// The messages that cargo has handed on.
    pub sent: Sent,
    /// The diagnostic of lines of text that the next line may belong to.
    pub block: Option<Block>,
    /// The lines behind it that may belong to the next one, or to a note of it.
    pub front: Vec<WaitingLine>,
    /// What the marks of the diagnostic before it cover.
    pub marked: Vec<Drawn>,
}

impl Known {
    /// Nothing was read yet. On `Err` there was no memory.
    pub fn new<R: Files>(
        files: &R,
        alloc: Global,
        options: &Options<'_>,
    ) -> Result<Known, AllocError>
        ensures new { IfOk result IsNew }
        ensures sources { IfOk result (λ known. HaveSources known.finder.shelf) }
    {
        Ok(Known {
            finder: Finder::new(files, alloc, options)?,
            sent: Sent::new(alloc),
            block: None,
            front: Vec::new(alloc),
            marked: Vec::new(alloc),
        })
    }

    /// Whether a diagnostic is held, or lines wait.
    fn is_waited_for(&self) -> bool
        ensures { result ≡ is_waiting self.now }
    {
        self.block.is_some() || self.lines_wait()
    }

    /// Whether lines wait.
    pub(crate) fn lines_wait(&self) -> bool
        ensures { result ≡ has_waiting_lines self.now }
    {
        !self.front.is_empty()
    }

    /// Takes a line in that is a row of the snippet of the diagnostic in front, and returns whether it is.
    pub fn take_row<R: Files>(
        &mut self,
        files: &R,
        alloc: Global,
        line: Line<'_>,
    ) -> Result<bool, AllocError>
        requires { HaveSources self.old.finder.shelf }
        ensures row { IfOk result (IsTriedAsRow line.entry self.old self.new) }
        ensures sources { OnOk result (HaveSources self.new.finder.shelf) }
    {
        if self.lines_wait() {
            return Ok(false);
        }
        match &mut self.block {
            Some(block) => take_row_of(files, alloc, &mut self.finder, block, line),
            None => Ok(false),
        }
    }

    /// Has a line wait that may go on with the message of the diagnostic in front, and returns whether it
    /// may.
    pub fn take_more(&mut self, alloc: Global, line: Line<'_>) -> Result<bool, AllocError>
        ensures { IfOk result (IsMoreTaken line.entry self.old self.new) }
    {
        if self.lines_wait() {
            return Ok(false);
        }
        match &mut self.block {
            Some(block) => block.take_more(alloc, line),
            None => Ok(false),
        }
    }

    /// The diagnostic whose head waits last, with the span that a line names, if it names one and a head
    /// waits so. It then waits no more.
    pub fn placed(&mut self, alloc: Global, text: &str) -> Result<Option<PlacedHead>, AllocError>
        ensures { IfOk result (IsPlacedIn text.now self.old self.new) }
    {
        match arrow_of(text) {
            Some(arrow) if ends_in_head(self.front.as_slice()) => self.span(alloc, arrow),
            _ => Ok(None),
        }
    }

    /// The diagnostic whose head waits last, with the span that an arrow names.
    fn span(&mut self, alloc: Global, arrow: Arrow<'_>) -> Result<Option<PlacedHead>, AllocError>
        requires { is_head_last self.old.front.items ≡ true }
        ensures { IfOk result (IsPlacedAt (arrow_parsed arrow.entry) self.old self.new) }
    {
        match self.front.pop() {
            Some(waiting) => placed_head(alloc, arrow, waiting),
            None => Ok(None),
        }
    }

    /// Has a line wait that may stand in front of a diagnostic, or goes on with the message of the head that
    /// waits last, and returns whether it does.
    pub fn takes_in_front(&mut self, alloc: Global, line: Line<'_>) -> Result<bool, AllocError>
        ensures { IfOk result (IsWaiting line.entry self.old self.new) }
    {
        if let Some(row) = added_row(self.front.as_slice(), line.text) {
            self.add_row(alloc, line.bytes, row)?;
            return Ok(true);
        }
        match role_of(alloc, self.is_waited_for(), line.text)? {
            Some(role) => {
                self.front.push(WaitingLine::new(alloc, line.bytes, role)?)?;
                Ok(true)
            }
            None => Ok(false),
        }
    }

    /// Adds a row to the message of the head that waits last, and the line that has it.
    fn add_row(&mut self, alloc: Global, line: &[u8], row: &str) -> Result<(), AllocError>
        requires { is_head_last self.old.front.items ≡ true }
        ensures { OnOk result (IsRowAdded line.now row.now self.old self.new) }
    {
        if let Some(mut waiting) = self.front.pop() {
            waiting.add_row(alloc, line, row)?;
            self.front.push(waiting)?;
        }
        Ok(())
    }

    /// Holds a diagnostic in the place of the one in front.
    pub(crate) fn hold(&mut self, block: Block)
        ensures { self.new ≡ record self.old { block = Some block } }
    {
        drop(self.block.replace(block));
    }

    /// Gives the spans of a diagnostic of which all lines were read the marks that were drawn at the same
    /// locations, and drops those that repeat others.
    pub fn settle(&mut self, alloc: Global, parsed: &mut Diagnostic) -> Result<(), AllocError>
        ensures { OnOk result (AreMarksSettled parsed.old parsed.new self.old self.new) }
    {
        settle_marks(alloc, &mut self.marked, parsed.spans.as_mut_slice())?;
        drop_repeats(alloc, &mut parsed.spans)
    }

    /// The diagnostic in front, which is then no longer held, if there is one that a note is about.
    pub fn take_block_of(&mut self, note: &Diagnostic) -> Option<Block>
        ensures { IsBlockTaken note.now self.old self.new result }
    {
        if self.is_about(note) {
            self.block.take()
        } else {
            None
        }
    }

    /// Whether a note is about the diagnostic in front, if there is one.
    fn is_about(&self, note: &Diagnostic) -> bool
        ensures { result ≡ is_note_of note.now self.now }
    {
        match &self.block {
            Some(block) => block.is_about(note),
            None => false,
        }
    }
}

/// Takes a line in that is a row of the snippet of a diagnostic, and returns whether it is.
fn take_row_of<R: Files>(
    files: &R,
    alloc: Global,
    finder: &mut Finder,
    block: &mut Block,
    line: Line<'_>,
) -> Result<bool, AllocError>
    requires { HaveSources finder.old.shelf }
    ensures row { IfOk result (IsRowTaken line.entry finder.old finder.new block.old block.new) }
    ensures sources { OnOk result (HaveSources finder.new.shelf) }
{
    let file = finder.shelf.quoted_file(block.path());
    if !block.take_row(alloc, file, line)? {
        return Ok(false);
    }
    quote_named(files, alloc, finder, block)?;
    Ok(true)
}

/// Has the next rows quote the file of the span that a row named, if one did. One that can't be read is told.
fn quote_named<R: Files>(
    files: &R,
    alloc: Global,
    finder: &mut Finder,
    block: &mut Block,
) -> Result<(), AllocError>
    requires { HaveSources finder.old.shelf }
    ensures quoted { OnOk result (IsNamedQuoted finder.old finder.new block.old block.new) }
    ensures sources { OnOk result (HaveSources finder.new.shelf) }
{
    let Some(mut span) = block.take_named() else {
        return Ok(());
    };
    if finder.settle(files, &mut span)? {
        block.quote(span)
    } else {
        block.tell_span(alloc, &span)
    }
}

/// The diagnostic whose head waited, with the span that an arrow names.
fn placed_head(
    alloc: Global,
    arrow: Arrow<'_>,
    waiting: WaitingLine,
) -> Result<Option<PlacedHead>, AllocError>
    requires { is_head_line waiting ≡ true }
    ensures { IfOk result (IsPlacedNow (arrow_parsed arrow.entry) waiting) }
{
    let WaitingLine { lines, role } = waiting;
    match role {
        Role::Head(WaitingHead { mut parsed, .. }) => {
            parsed.spans.push(arrow.span(alloc)?)?;
            Ok(Some(PlacedHead { lines, parsed }))
        }
        Role::Span(_) | Role::Scope => Ok(None),
    }
}
