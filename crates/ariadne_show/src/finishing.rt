//! What is written where a diagnostic of lines of text ends, and a line that passes behind it.

ghost use Rattle.std.specs.Prelude.{◌≡◌, None, OnOk};
ghost use Rattle.ariadne_show.specs.ReadFiles.{HaveSources};
ghost use Rattle.ariadne_show.specs.RunOutput.{at_of, IsBlockFinished, IsBlockWritten, IsFinished, IsLinePassed};
ghost use Rattle.ariadne_show.specs.RunOutput.{IsReadWritten};
ghost use Rattle.ariadne_show.specs.WaitingLines.{bytes_of};

use crate::fault::Fault;
use crate::run::Run;
use crate::streams::Streams;
use crate::task::Task;
use crate::writing::{pass_behind, pass_waiting};
use ariadne_blocks::{Block, MessageLine};
use ariadne_parse::Diagnostic;
use std::io::Write;
use std::mem;
use std::rt::Files;

impl<R: Files> Task<'_, R> {
    /// Writes the diagnostic in front, if there is one, and the lines that wait behind it: the next line
    /// belongs to none of them.
    pub(crate) fn finish<W: Write, F: Write>(
        &self,
        run: &mut Run,
        streams: &mut Streams<W, F>,
    ) -> Result<(), Fault>
        requires { HaveSources run.old.known.finder.shelf }
        ensures finished { OnOk result (IsFinished self.now.options.now
            (at_of run.old streams.old) (at_of run.new streams.new)) }
        ensures sources { OnOk result (HaveSources run.new.known.finder.shelf) }
    {
        self.finish_block(run, streams)?;
        let front = mem::replace(&mut run.known.front, Vec::new(self.alloc));
        pass_waiting(
            self.alloc,
            self.options,
            front.as_slice(),
            &mut run.shown,
            streams,
        )
    }

    /// Writes the diagnostic in front, if there is one, and the lines that turned out to be none of it.
    pub(crate) fn finish_block<W: Write, F: Write>(
        &self,
        run: &mut Run,
        streams: &mut Streams<W, F>,
    ) -> Result<(), Fault>
        requires { HaveSources run.old.known.finder.shelf }
        ensures finished { OnOk result (IsBlockFinished self.now.options.now
            (at_of run.old streams.old) (at_of run.new streams.new)) }
        ensures sources { OnOk result (HaveSources run.new.known.finder.shelf) }
        ensures none { OnOk result (run.new.known.block ≡ None) }
    {
        match run.known.block.take() {
            Some(block) => self.write_block(run, block, streams),
            None => Ok(()),
        }
    }

    /// Writes a diagnostic of which all lines were read, and the lines that turned out to be none of it.
    fn write_block<W: Write, F: Write>(
        &self,
        run: &mut Run,
        block: Block,
        streams: &mut Streams<W, F>,
    ) -> Result<(), Fault>
        requires sources { HaveSources run.old.known.finder.shelf }
        requires none { run.old.known.block ≡ None }
        ensures written { OnOk result (IsBlockWritten self.now.options.now block
            (at_of run.old streams.old) (at_of run.new streams.new)) }
        ensures sources { OnOk result (HaveSources run.new.known.finder.shelf) }
    {
        let (mut parsed, behind) = block.finish();
        let written = self.write_read(run, &mut parsed, behind.as_slice(), streams);
        drop(parsed);
        written
    }

    /// Writes a diagnostic of which all lines were read, and lines that pass behind it.
    fn write_read<W: Write, F: Write>(
        &self,
        run: &mut Run,
        read: &mut Diagnostic,
        behind: &[MessageLine],
        streams: &mut Streams<W, F>,
    ) -> Result<(), Fault>
        requires { HaveSources run.old.known.finder.shelf }
        ensures written { OnOk result (IsReadWritten self.now.options.now read.old
            (bytes_of behind.now) (at_of run.old streams.old) (at_of run.new streams.new)) }
        ensures sources { OnOk result (HaveSources run.new.known.finder.shelf) }
    {
        run.known.settle(self.alloc, read)?;
        self.show_settled(run, read, streams)?;
        pass_behind(self.alloc, self.options, behind, &mut run.shown, streams)
    }

    /// Writes a line that passes, behind what waits in front of it.
    pub(crate) fn pass_line<W: Write, F: Write>(
        &self,
        run: &mut Run,
        line: &[u8],
        streams: &mut Streams<W, F>,
    ) -> Result<(), Fault>
        requires { HaveSources run.old.known.finder.shelf }
        ensures passed { OnOk result (IsLinePassed self.now.options.now line.now
            (at_of run.old streams.old) (at_of run.new streams.new)) }
        ensures sources { OnOk result (HaveSources run.new.known.finder.shelf) }
    {
        self.finish(run, streams)?;
        self.pass(run, line, streams)
    }
}
