//! The program over the streams that it is handed: what tools print in, what is shown of it out.

ghost use Rattle.std.specs.Prelude.{◌≡◌, IfOk, OnOk};
ghost use Rattle.ariadne_show.specs.ReadFiles.{HaveSources};
ghost use Rattle.ariadne_show.specs.RunOutput.{at_of, holding_of, HaveLinesEnded, IsAllShown, IsEnded, IsInputShown};
ghost use Rattle.ariadne_show.specs.RunOutput.{IsRestShown, IsShownBy, IsShownToEnd, IsStarted};
ghost use Rattle.ariadne_show.specs.Sums.{line_end as end_before};
ghost use Rattle.ariadne_show.specs.Writing.{is_open as is_line_open, out_of};

use crate::fault::Fault;
use crate::lines::read_line;
use crate::options::Options;
use crate::run::Run;
use crate::sending::send;
use crate::streams::Streams;
use crate::sum::Sum;
use crate::task::Task;
use crate::writing::{Shown, Written, is_document};
use ariadne_documents::Document;
use ariadne_outputs::{SARIF_TAIL, sarif_head};
use std::alloc::Global;
use std::io::{BufRead, Write};
use std::rt::Files;

/// The version that a SARIF log names.
const VERSION: &str = "0.6.0";

/// Shows what `input` tells, to its end.
///
/// A line that is no diagnostic is written in its place. In span of one that is, its diagnostics are
/// drawn over their files, each of which is read once. The lines of text that belong to a diagnostic, as
/// its tool's own snippet and its notes, are drawn with it. At the end their sum is written, if there
/// were any, on a line of its own.
///
/// Where `input` can't be read, what was read is shown, but no sum.
pub fn show<R: Files, I: BufRead, W: Write, F: Write>(
    files: &R,
    alloc: Global,
    options: &Options<'_>,
    input: &mut I,
    streams: &mut Streams<W, F>,
) -> Result<Sum, Fault>
    ensures { IfOk result
        (IsAllShown options.now (I.remaining input.old) streams.old streams.new) }
{
    let task = Task {
        files,
        alloc,
        options,
    };
    let mut run = Run::new(files, alloc, options)?;
    let shown = task.show_by(&mut run, input, streams);
    drop(run);
    shown
}

/// Where the lines of an input end.
#[derive(Drop)]
enum InputEnd {
    /// With it.
    AtEnd,
    /// In front of one that can't be read, for this reason.
    Unread(Fault),
}

impl<R: Files> Task<'_, R> {
    /// Writes what stands in front of all diagnostics.
    fn show_start<W: Write, F: Write>(&self, streams: &mut Streams<W, F>) -> Result<(), Fault>
        ensures output { OnOk result (IsStarted self.now.options.now.output
            streams.old.output streams.new.output) }
        ensures beside { OnOk result (streams.new.beside ≡ streams.old.beside) }
    {
        if !is_document(self.options.output) {
            return Ok(());
        }
        let head = sarif_head(self.alloc, VERSION)?;
        send(&mut streams.out, head.as_bytes())
    }

    /// Shows the input by a run, and what stands in front and behind.
    fn show_by<I: BufRead, W: Write, F: Write>(
        &self,
        run: &mut Run,
        input: &mut I,
        streams: &mut Streams<W, F>,
    ) -> Result<Sum, Fault>
        requires { HaveSources run.old.known.finder.shelf }
        ensures { IfOk result (IsShownBy self.now.options.now (I.remaining input.old) run.old
            streams.old streams.new) }
    {
        self.show_start(streams)?;
        self.show_to_end(run, input, streams)
    }

    /// Shows the input to its end, and what stands behind all.
    fn show_to_end<I: BufRead, W: Write, F: Write>(
        &self,
        run: &mut Run,
        input: &mut I,
        streams: &mut Streams<W, F>,
    ) -> Result<Sum, Fault>
        requires { HaveSources run.old.known.finder.shelf }
        ensures { IfOk result (IsShownToEnd self.now.options.now (I.remaining input.old)
            (at_of run.old streams.old) streams.new) }
    {
        match self.show_input(run, input, streams)? {
            InputEnd::AtEnd => {
                self.show_end(&run.shown, streams)?;
                Ok(run.shown.sum)
            }
            InputEnd::Unread(fault) => Err(fault),
        }
    }

    /// Shows the lines of the input, and what is held behind the last one, also where the next can't be
    /// read.
    fn show_input<I: BufRead, W: Write, F: Write>(
        &self,
        run: &mut Run,
        input: &mut I,
        streams: &mut Streams<W, F>,
    ) -> Result<InputEnd, Fault>
        requires { HaveSources run.old.known.finder.shelf }
        ensures { IfOk result (IsInputShown self.now.options.now (I.remaining input.old)
            (at_of run.old streams.old) (at_of run.new streams.new)) }
    {
        let mut held = None;
        let ending = self.show_lines(run, &mut held, input, streams)?;
        self.show_rest(run, &held, streams).and(Ok(ending))
    }

    /// Shows what is held behind the last line.
    fn show_rest<W: Write, F: Write>(
        &self,
        run: &mut Run,
        held: &Option<Document>,
        streams: &mut Streams<W, F>,
    ) -> Result<(), Fault>
        requires { HaveSources run.old.known.finder.shelf }
        ensures { OnOk result (IsRestShown self.now.options.now
            (holding_of held.now (at_of run.old streams.old)) (at_of run.new streams.new)) }
    {
        self.show_held(run, held, streams)?;
        self.finish(run, streams)
    }

    /// Shows the lines of the input, to its end.
    fn show_lines<I: BufRead, W: Write, F: Write>(
        &self,
        run: &mut Run,
        held: &mut Option<Document>,
        input: &mut I,
        streams: &mut Streams<W, F>,
    ) -> Result<InputEnd, Fault>
        requires { HaveSources run.old.known.finder.shelf }
        ensures shown { IfOk result (HaveLinesEnded self.now.options.now (I.remaining input.old)
            (holding_of held.old (at_of run.old streams.old))
            (holding_of held.new (at_of run.new streams.new))) }
        ensures sources { OnOk result (HaveSources run.new.known.finder.shelf) }
    {
        let mut line = Vec::new(self.alloc);
        'lines: for _ in 0..u64::MAX {
            line.clear();
            match read_line(input, &mut line) {
                Ok(true) => self.show_next(run, held, line.as_slice(), streams)?,
                Ok(false) => return Ok(InputEnd::AtEnd),
                Err(fault) => return Ok(InputEnd::Unread(fault)),
            }
        }
        Ok(InputEnd::Unread(Fault::Unread))
    }

    /// Writes what stands behind all: how many more there are, and the sum.
    fn show_end<W: Write, F: Write>(
        &self,
        shown: &Shown,
        streams: &mut Streams<W, F>,
    ) -> Result<(), Fault>
        ensures { OnOk result (IsEnded self.now.options.now.output
            (out_of shown.now streams.old) streams.new) }
    {
        let more = shown.drawn.text(self.alloc)?;
        let sum = shown.sum.text(self.alloc)?;
        if is_document(self.options.output) {
            send(&mut streams.out, SARIF_TAIL.as_bytes())?;
            send(&mut streams.beside, more.as_bytes())?;
            return send(&mut streams.beside, sum.as_bytes());
        }
        send(&mut streams.out, line_end(shown.written, sum.as_str()))?;
        send(&mut streams.out, more.as_bytes())?;
        send(&mut streams.out, sum.as_bytes())
    }
}

/// What ends an open line in front of a text, if there is one.
fn line_end(written: Written, text: &str) -> &'static [u8]
    ensures { result.now ≡ end_before (is_line_open written) text.now }
{
    match written {
        Written::OpenLine if !text.is_empty() => b"\n",
        _ => b"",
    }
}
