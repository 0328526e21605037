//! What is to be done, and its simplest steps: a line passes, and a diagnostic is shown.

ghost use Rattle.std.specs.Prelude.{◌≡◌, OnOk};
ghost use Rattle.ariadne_show.specs.WaitingLines.{bytes_in};
ghost use Rattle.ariadne_show.specs.ReadFiles.{HaveSources};
ghost use Rattle.ariadne_show.specs.RunOutput.{at_of, IsSettledShown};
ghost use Rattle.ariadne_show.specs.Writing.{out_of, HasPassed, HavePassed, IsShownOnce};

use crate::fault::Fault;
use crate::options::Options;
use crate::run::Run;
use crate::streams::Streams;
use crate::writing::{pass, pass_lines, show_one};
use ariadne_parse::Diagnostic;
use std::alloc::Global;
use std::io::Write;
use std::rt::Files;

/// What is to be done: how diagnostics are shown, and where their files are.
#[derive(Drop)]
pub(crate) struct Task<'a, R> {
    /// Where files are.
    pub(crate) files: &'a R,
    /// Where memory is.
    pub(crate) alloc: Global,
    /// How diagnostics are shown.
    pub(crate) options: &'a Options<'a>,
}

impl<R: Files> Task<'_, R> {
    /// Writes a line that passes.
    pub(crate) fn pass<W: Write, F: Write>(
        &self,
        run: &mut Run,
        line: &[u8],
        streams: &mut Streams<W, F>,
    ) -> Result<(), Fault>
        ensures passed { OnOk result (HasPassed self.now.options.now line.now
            (out_of run.old.shown streams.old) (out_of run.new.shown streams.new)) }
        ensures known { run.new.known ≡ run.old.known }
    {
        pass(self.alloc, self.options, line, &mut run.shown, streams)
    }

    /// Writes lines that pass, in their order.
    pub(crate) fn pass_lines<W: Write, F: Write>(
        &self,
        run: &mut Run,
        lines: &[Vec<u8>],
        streams: &mut Streams<W, F>,
    ) -> Result<(), Fault>
        ensures passed { OnOk result (HavePassed self.now.options.now (bytes_in lines.now)
            (out_of run.old.shown streams.old) (out_of run.new.shown streams.new)) }
        ensures known { run.new.known ≡ run.old.known }
    {
        pass_lines(self.alloc, self.options, lines, &mut run.shown, streams)
    }

    /// Counts a diagnostic whose spans were settled, and writes it, if that is asked for, over its files and
    /// those that it proposes to change.
    pub(crate) fn show_settled<W: Write, F: Write>(
        &self,
        run: &mut Run,
        parsed: &mut Diagnostic,
        streams: &mut Streams<W, F>,
    ) -> Result<(), Fault>
        requires { HaveSources run.old.known.finder.shelf }
        ensures shown { OnOk result (IsSettledShown self.now.options.now parsed.old
            (at_of run.old streams.old) (at_of run.new streams.new)) }
        ensures sources { OnOk result (HaveSources run.new.known.finder.shelf) }
    {
        run.known.finder.find_changed(self.files, parsed)?;
        self.show_one(run, parsed, streams)
    }

    /// Counts a diagnostic whose files were read, and writes it, if that is asked for.
    fn show_one<W: Write, F: Write>(
        &self,
        run: &mut Run,
        parsed: &Diagnostic,
        streams: &mut Streams<W, F>,
    ) -> Result<(), Fault>
        ensures shown { OnOk result (IsShownOnce self.now.options.now run.old.known.finder.shelf parsed.now
            (out_of run.old.shown streams.old) (out_of run.new.shown streams.new)) }
        ensures known { run.new.known ≡ run.old.known }
    {
        let Run { known, shown } = run;
        show_one(
            self.alloc,
            self.options,
            &known.finder.shelf,
            parsed,
            shown,
            streams,
        )
    }
}
