//! A diagnostic of lines of text while it is held: it begins with its head, and has the spans of the lines
//! that waited in front of it and of its notes.

ghost use Rattle.std.specs.Prelude.{◌≡◌, None, OnOk};
ghost use Rattle.ariadne_show.specs.WaitingLines.{bytes_in};
ghost use Rattle.ariadne_show.specs.ReadFiles.{HaveSources};
ghost use Rattle.ariadne_show.specs.RunOutput.{at_of, giving, HasLineGone, IsBegunBehind, IsFrontGiven};
ghost use Rattle.ariadne_show.specs.RunOutput.{IsNoteAddedTo, IsNoteGiven, IsSpanGone};

use crate::fault::Fault;
use crate::front::{Role, WaitingLine};
use crate::run::Run;
use crate::streams::Streams;
use crate::task::Task;
use ariadne_blocks::Block;
use ariadne_parse::{Diagnostic, Span};
use std::io::Write;
use std::mem;
use std::rt::Files;

impl<R: Files> Task<'_, R> {
    /// Holds a diagnostic whose file can be read, behind the one in front, and gives it the lines that wait.
    pub(crate) fn begin<W: Write, F: Write>(
        &self,
        run: &mut Run,
        parsed: Diagnostic,
        head: &str,
        streams: &mut Streams<W, F>,
    ) -> Result<(), Fault>
        requires { HaveSources run.old.known.finder.shelf }
        ensures begun { OnOk result (IsBegunBehind self.now.options.now head.now parsed
            (at_of run.old streams.old) (at_of run.new streams.new)) }
        ensures sources { OnOk result (HaveSources run.new.known.finder.shelf) }
    {
        self.finish_block(run, streams)?;
        let caret = run.known.finder.caret_of(&parsed);
        let mut block = Block::new(self.alloc, parsed, head, caret)?;
        let given = self.give_front(run, &mut block, streams);
        run.known.hold(block);
        given
    }

    /// Gives a note to a diagnostic that it is about, and with it the lines that wait in front of the note.
    pub(crate) fn add_note<W: Write, F: Write>(
        &self,
        run: &mut Run,
        mut block: Block,
        note: Diagnostic,
        streams: &mut Streams<W, F>,
    ) -> Result<(), Fault>
        requires sources { HaveSources run.old.known.finder.shelf }
        requires none { run.old.known.block ≡ None }
        ensures added { OnOk result (IsNoteAddedTo self.now.options.now block note
            (at_of run.old streams.old) (at_of run.new streams.new)) }
        ensures sources { OnOk result (HaveSources run.new.known.finder.shelf) }
    {
        let noted = self.give_note(run, &mut block, note, streams);
        run.known.hold(block);
        noted
    }

    /// Gives the lines that wait to a diagnostic, and then a note that it is about.
    fn give_note<W: Write, F: Write>(
        &self,
        run: &mut Run,
        block: &mut Block,
        note: Diagnostic,
        streams: &mut Streams<W, F>,
    ) -> Result<(), Fault>
        requires { HaveSources run.old.known.finder.shelf }
        ensures given { OnOk result (IsNoteGiven self.now.options.now note
            (at_of run.old streams.old) block.old
            (at_of run.new streams.new) block.new) }
        ensures sources { OnOk result (HaveSources run.new.known.finder.shelf) }
    {
        self.give_front(run, block, streams)?;
        let caret = run.known.finder.caret_of(&note);
        block.add_note(self.alloc, note, caret)?;
        Ok(())
    }

    /// Gives the spans of the lines that wait to a diagnostic. The others pass, and those whose file
    /// can't be read.
    fn give_front<W: Write, F: Write>(
        &self,
        run: &mut Run,
        block: &mut Block,
        streams: &mut Streams<W, F>,
    ) -> Result<(), Fault>
        requires { HaveSources run.old.known.finder.shelf }
        ensures given { OnOk result (IsFrontGiven self.now.options.now
            (at_of run.old streams.old) block.old
            (at_of run.new streams.new) block.new) }
        ensures sources { OnOk result (HaveSources run.new.known.finder.shelf) }
    {
        let front = mem::replace(&mut run.known.front, Vec::new(self.alloc));
        for waiting in front {
            self.give_line(run, waiting, block, streams)?;
        }
        Ok(())
    }

    /// Gives the span that a line tells which waited to a diagnostic. If it tells none, or its file can't
    /// be read, it passes.
    fn give_line<W: Write, F: Write>(
        &self,
        run: &mut Run,
        waiting: WaitingLine,
        block: &mut Block,
        streams: &mut Streams<W, F>,
    ) -> Result<(), Fault>
        requires { HaveSources run.old.known.finder.shelf }
        ensures gone { OnOk result (HasLineGone self.now.options.now waiting
            (giving (at_of run.old streams.old) block.old)
            (giving (at_of run.new streams.new) block.new)) }
        ensures known { OnOk result (run.new.known
            ≡ record run.old.known { finder = run.new.known.finder }) }
        ensures sources { OnOk result (HaveSources run.new.known.finder.shelf) }
    {
        let WaitingLine { lines, role } = waiting;
        match role {
            Role::Span(span) => self.give_span(run, span, lines.as_slice(), block, streams),
            Role::Head(head) => {
                drop(head);
                self.pass_lines(run, lines.as_slice(), streams)
            }
            Role::Scope => self.pass_lines(run, lines.as_slice(), streams),
        }
    }

    /// Gives the span that lines of these bytes tell to a diagnostic. If its file can't be read, the lines
    /// pass.
    fn give_span<W: Write, F: Write>(
        &self,
        run: &mut Run,
        mut span: Span,
        lines: &[Vec<u8>],
        block: &mut Block,
        streams: &mut Streams<W, F>,
    ) -> Result<(), Fault>
        requires { HaveSources run.old.known.finder.shelf }
        ensures gone { OnOk result (IsSpanGone self.now.options.now (bytes_in lines.now) span
            (giving (at_of run.old streams.old) block.old)
            (giving (at_of run.new streams.new) block.new)) }
        ensures known { OnOk result (run.new.known
            ≡ record run.old.known { finder = run.new.known.finder }) }
        ensures sources { OnOk result (HaveSources run.new.known.finder.shelf) }
    {
        if run.known.finder.settle(self.files, &mut span)? {
            block.add_span(span)?;
            return Ok(());
        }
        drop(span);
        self.pass_lines(run, lines, streams)
    }
}
