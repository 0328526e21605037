//! Diagnostics that are whole where they are told, as in a report or in lines of JSON.

ghost use Rattle.std.specs.Prelude.{OnOk};
ghost use Rattle.ariadne_show.specs.ReadFiles.{HaveSources};
ghost use Rattle.ariadne_show.specs.RunOutput.{at_of, AreAllShown, AreShown, IsWholeShown};

use crate::fault::Fault;
use crate::run::Run;
use crate::streams::Streams;
use crate::task::Task;
use ariadne_blocks::drop_repeats;
use ariadne_parse::Diagnostic;
use std::io::Write;
use std::rt::Files;

impl<R: Files> Task<'_, R> {
    /// Writes diagnostics that are whole, in turn, and counts them.
    pub(crate) fn show_all<W: Write, F: Write>(
        &self,
        run: &mut Run,
        all: Vec<Diagnostic>,
        streams: &mut Streams<W, F>,
    ) -> Result<(), Fault>
        requires { HaveSources run.old.known.finder.shelf }
        ensures shown { OnOk result (AreAllShown self.now.options.now all.items
            (at_of run.old streams.old) (at_of run.new streams.new)) }
        ensures sources { OnOk result (HaveSources run.new.known.finder.shelf) }
    {
        self.finish(run, streams)?;
        self.show_each(run, all, streams)
    }

    /// Writes diagnostics that are whole, where none is held in front of them, and counts them.
    fn show_each<W: Write, F: Write>(
        &self,
        run: &mut Run,
        all: Vec<Diagnostic>,
        streams: &mut Streams<W, F>,
    ) -> Result<(), Fault>
        requires { HaveSources run.old.known.finder.shelf }
        ensures shown { OnOk result (AreShown self.now.options.now all.items
            (at_of run.old streams.old) (at_of run.new streams.new)) }
        ensures sources { OnOk result (HaveSources run.new.known.finder.shelf) }
    {
        for parsed in all {
            self.show_whole(run, parsed, streams)?;
        }
        Ok(())
    }

    /// Writes a diagnostic that is whole over its files, without spans that repeat others, and counts it.
    fn show_whole<W: Write, F: Write>(
        &self,
        run: &mut Run,
        mut parsed: Diagnostic,
        streams: &mut Streams<W, F>,
    ) -> Result<(), Fault>
        requires { HaveSources run.old.known.finder.shelf }
        ensures shown { OnOk result (IsWholeShown self.now.options.now parsed
            (at_of run.old streams.old) (at_of run.new streams.new)) }
        ensures sources { OnOk result (HaveSources run.new.known.finder.shelf) }
    {
        let shown = self.show_over_files(run, &mut parsed, streams);
        drop(parsed);
        shown
    }

    /// Writes a diagnostic over its files, without spans that repeat others, and counts it.
    fn show_over_files<W: Write, F: Write>(
        &self,
        run: &mut Run,
        parsed: &mut Diagnostic,
        streams: &mut Streams<W, F>,
    ) -> Result<(), Fault>
        requires { HaveSources run.old.known.finder.shelf }
        ensures shown { OnOk result (IsWholeShown self.now.options.now parsed.old
            (at_of run.old streams.old) (at_of run.new streams.new)) }
        ensures sources { OnOk result (HaveSources run.new.known.finder.shelf) }
    {
        run.known.finder.open(self.files, parsed)?;
        drop_repeats(self.alloc, &mut parsed.spans)?;
        self.show_settled(run, parsed, streams)
    }
}
