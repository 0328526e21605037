//! A diagnostic of lines of text, as far as its lines were read: its head, the rows of its tool's snippet,
//! and its notes with theirs.

ghost use Rattle.std.specs.Prelude.{◌≡◌, map, false, None, IfOk, OnOk, Some};
ghost use Rattle.ariadne_blocks.specs.Blocks as blocks;
ghost use Rattle.ariadne_blocks.specs.Blocks.{parsed_of, IsBegun, IsNoted, IsPlacedBy};
ghost use Rattle.ariadne_blocks.specs.declared.block.Aside.TheVariants as aside;

use crate::fix_rows::ParsedChange;
use crate::goes_on::GoesOn;
use crate::message::{MessageLine, is_of_python};
use crate::rows::Rows;
use crate::spans::{are_lines_of, is_line_of, push_note};
use ariadne_parse::{Diagnostic, Span};
use std::alloc::{AllocError, Global};

/// A diagnostic whose lines are being read.
#[derive(Drop)]
pub struct Block {
    /// What it tells so far.
    pub(crate) parsed: Diagnostic,
    /// The character that its head points at, if that names a column.
    pub(crate) caret: Option<usize>,
    /// The rows below the head or the note that was read last.
    pub(crate) rows: Rows,
    /// Lines that go on with its message if a row of a snippet follows, as mypy cuts them; else they pass.
    pub(crate) more: Vec<MessageLine>,
    /// How its message may go on, while no row of a snippet was read.
    pub(crate) goes_on: GoesOn,
    /// Which text was read last.
    pub(crate) aside: Aside,
    /// The span that a row named: the next rows quote its file. It is primary where it is that of the
    /// text that was read last.
    pub(crate) named: Option<Span>,
    /// Whether rows of events are read, as gcc's analyzer writes them.
    pub(crate) has_events: bool,
    /// What rows below the head or the note that was read last said how to change.
    pub(crate) changes: Vec<ParsedChange>,
    /// The number of the help from which on helps say what rows change.
    pub(crate) since: usize,
    /// Why: what that help begins with, if it says why.
    pub(crate) why: String,
}

/// A text beside the message.
#[derive(Clone, Copy)]
pub(crate) enum Aside {
    /// A note.
    Note,
    /// A help, or a note that says why what follows is to be changed.
    Help,
    /// A help that has said what is to be changed.
    Change,
}

impl Block {
    /// A diagnostic of which the head was read. The tool points at the character `caret` of the line of its
    /// first span, from 0, if that names a column. On `Err` there was no memory.
    pub fn new(
        alloc: Global,
        parsed: Diagnostic,
        head: &str,
        caret: Option<usize>,
    ) -> Result<Block, AllocError>
        ensures { IfOk result (λ block. IsBegun parsed head.now caret block) }
    {
        let rows = Rows::new(alloc, parsed.spans.first(), 0, caret)?;
        let goes_on = GoesOn::behind(head, parsed.spans.first());
        let since = parsed.helps.len();
        Ok(Block {
            parsed,
            caret,
            rows,
            more: Vec::new(alloc),
            goes_on,
            aside: Aside::Note,
            named: None,
            has_events: false,
            changes: Vec::new(alloc),
            since,
            why: String::new(alloc),
        })
    }

    /// Takes in a note whose head is the next line, and points at this character. One that names no column,
    /// in the line that this diagnostic is about, or all the lines that this goes over, is a text beside.
    ///
    /// On `Err` there was no memory for all of its spans.
    pub fn add_note(
        &mut self,
        alloc: Global,
        note: Diagnostic,
        caret: Option<usize>,
    ) -> Result<(), AllocError>
        ensures { OnOk result (IsNoted note caret self.old self.new) }
    {
        self.goes_on = GoesOn::Nowhere;
        if self.is_beside(&note) {
            return self.add_text(alloc, Aside::Note, note.message.as_str());
        }
        self.aside = Aside::Note;
        let at = self.parsed.spans.len();
        self.rows = Rows::new(alloc, note.spans.first(), at, caret)?;
        self.changes.clear();
        let since = self.parsed.helps.len();
        self.since = since;
        self.why = String::new(alloc);
        push_note(&mut self.parsed.spans, note.message, note.spans)
    }

    /// Whether a note is about no span of its own: it names no column, in the line that this diagnostic is
    /// about, or all the lines that this goes over.
    fn is_beside(&self, note: &Diagnostic) -> bool
        ensures { result ≡ blocks.is_beside (parsed_of self.now) note.now }
    {
        match (self.parsed.spans.first(), note.spans.first()) {
            (Some(own), Some(span)) => {
                own.file == span.file && (is_line_of(own, span) || are_lines_of(own, span))
            }
            _ => false,
        }
    }

    /// Takes in a span that a line in front of it told. On `Err` there was no memory for it.
    pub fn add_span(&mut self, span: Span) -> Result<(), AllocError>
        ensures { OnOk result (IsPlacedBy span self.old self.new) }
    {
        self.parsed.spans.push(span)?;
        Ok(())
    }

    /// The path of the file that its next rows quote.
    pub fn path(&self) -> &str
        ensures { result.now ≡ blocks.path_of self.now }
    {
        self.rows.path.as_str()
    }

    /// Whether a note is about this diagnostic: those of Python's tools are about others of their line.
    pub fn is_about(&self, note: &Diagnostic) -> bool
        ensures { result ≡ blocks.is_about (parsed_of self.now) note.now }
    {
        match (self.parsed.spans.first(), note.spans.first()) {
            (Some(own), Some(span)) => {
                !is_of_python(span.file.as_str())
                    || own.file == span.file && own.start.line == span.start.line
            }
            _ => false,
        }
    }

    /// The diagnostic, of which nothing more is read, and the lines behind it that turned out to be none
    /// of it.
    pub fn finish(self) -> (Diagnostic, Vec<MessageLine>)
        ensures parsed { result.0 ≡ parsed_of self }
        ensures behind { map blocks.bytes_of result.1.items ≡ blocks.lines_behind self }
    {
        (self.parsed, self.more)
    }
}
