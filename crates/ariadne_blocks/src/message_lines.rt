//! Lines and rows that go on with the message of a block.

ghost use Rattle.std.specs.Prelude.{◌≡◌, false, true, IfOk, OnOk};
ghost use Rattle.ariadne_blocks.specs.Blocks as blocks;
ghost use Rattle.ariadne_blocks.specs.Blocks.{view_of, IsMore};

use crate::block::Block;
use crate::goes_on::GoesOn;
use crate::line::Line;
use crate::message::{MessageLine, settle_message, width_of};
use ariadne_snippets::Snippet;
use std::alloc::{AllocError, Global};

impl Block {
    /// Takes in a line that may go on with the message, and returns whether it may: it begins with a word
    /// that had no room in the line before, of a tool of Python's.
    ///
    /// On `Err` there was no memory for it.
    pub fn take_more(&mut self, alloc: Global, line: Line<'_>) -> Result<bool, AllocError>
        ensures may { IfOk result (λ it. it ≡ blocks.may_go_on line.entry.text.now (view_of self.old)) }
        ensures held { IfOk result (λ it. it ≡ true
            → IsMore line.entry.bytes.now line.entry.text.now self.old self.new) }
        ensures same { IfOk result (λ it. it ≡ false → self.new ≡ self.old) }
    {
        if !self.may_go_on(line.text) {
            return Ok(false);
        }
        let more = MessageLine::new(alloc, line.bytes, line.text)?;
        self.more.push(more)?;
        self.goes_on = GoesOn::Cut(width_of(line.text));
        self.rows.snippet = Snippet::new(alloc, self.first_line(), self.caret);
        Ok(true)
    }

    /// The line of its first span.
    fn first_line(&self) -> usize
        ensures { result ≡ blocks.first_line (view_of self.now).parsed.spans }
    {
        match self.parsed.spans.first() {
            Some(span) => span.start.line,
            None => 0,
        }
    }

    /// Whether a text may go on with the message.
    fn may_go_on(&self, text: &str) -> bool
        ensures { result ≡ blocks.may_go_on text.now (view_of self.now) }
    {
        self.goes_on.may_go_on(text)
    }

    /// Takes in a further row of the message.
    pub(crate) fn add_message_row(&mut self, row: &str) -> Result<(), AllocError>
        ensures { OnOk result (view_of self.new ≡ blocks.with_message_row row.now (view_of self.old)) }
    {
        self.parsed.message.push('\n')?;
        self.parsed.message.push_str(row)?;
        Ok(())
    }

    /// Has the lines that go on with the message be of it.
    pub(crate) fn settle(&mut self, alloc: Global) -> Result<(), AllocError>
        ensures view { OnOk result (view_of self.new ≡ blocks.with_message (view_of self.old)) }
        ensures rows { OnOk result (self.new.rows ≡ self.old.rows) }
    {
        self.goes_on = GoesOn::Nowhere;
        settle_message(alloc, &mut self.parsed, &mut self.more)
    }
}
