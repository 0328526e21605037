//! What is done with a line, by what it tells.

ghost use Rattle.std.specs.Prelude.{OnOk};
ghost use Rattle.ariadne_show.specs.ReadFiles.{HaveSources};
ghost use Rattle.ariadne_show.specs.RunOutput.{at_of, IsAnswered, IsHeadShown, IsLineShown, IsNoteShown};
ghost use Rattle.ariadne_show.specs.RunOutput.{HaveBothPassed, IsHeldNoteShown};
ghost use Rattle.ariadne_show.specs.RunOutput.{IsOtherShown, IsPlacedShown, IsReadShown, IsTextShown};
ghost use Rattle.ariadne_show.specs.WaitingLines.{bytes_in};

use crate::fault::Fault;
use crate::front::PlacedHead;
use crate::lines::{bare_text, whole_text};
use crate::run::Run;
use crate::streams::Streams;
use crate::task::Task;
use ariadne_blocks::Line;
use ariadne_documents::line_answer;
use ariadne_parse::{Answer, Diagnostic};
use std::io::Write;
use std::rt::Files;

impl<R: Files> Task<'_, R> {
    /// Shows a line, or holds it with the diagnostic that it belongs to.
    pub(crate) fn show_line<W: Write, F: Write>(
        &self,
        run: &mut Run,
        bytes: &[u8],
        streams: &mut Streams<W, F>,
    ) -> Result<(), Fault>
        requires { HaveSources run.old.known.finder.shelf }
        ensures shown { OnOk result (IsLineShown self.now.options.now bytes.now
            (at_of run.old streams.old) (at_of run.new streams.new)) }
        ensures sources { OnOk result (HaveSources run.new.known.finder.shelf) }
    {
        let whole = whole_text(self.alloc, bytes)?;
        match bare_text(self.alloc, whole.as_str())? {
            Some(bare) => self.show_read(
                run,
                Line {
                    bytes,
                    whole: whole.as_str(),
                    text: bare.as_str(),
                },
                streams,
            ),
            None => self.show_read(
                run,
                Line {
                    bytes,
                    whole: whole.as_str(),
                    text: whole.as_str(),
                },
                streams,
            ),
        }
    }

    /// Shows a line whose text was read: it is a row of the snippet of the diagnostic in front, or is shown
    /// by what it tells.
    fn show_read<W: Write, F: Write>(
        &self,
        run: &mut Run,
        line: Line<'_>,
        streams: &mut Streams<W, F>,
    ) -> Result<(), Fault>
        requires { HaveSources run.old.known.finder.shelf }
        ensures shown { OnOk result (IsReadShown self.now.options.now line.entry
            (at_of run.old streams.old) (at_of run.new streams.new)) }
        ensures sources { OnOk result (HaveSources run.new.known.finder.shelf) }
    {
        if run.known.take_row(self.files, self.alloc, line)? {
            return Ok(());
        }
        let reading = self.options.reading;
        let answer = line_answer(self.alloc, reading, &mut run.known.sent, line.text)?;
        self.show_answer(run, line, answer, streams)
    }

    /// Shows a line that is no row of a snippet, by what it tells.
    fn show_answer<W: Write, F: Write>(
        &self,
        run: &mut Run,
        line: Line<'_>,
        answer: Answer,
        streams: &mut Streams<W, F>,
    ) -> Result<(), Fault>
        requires { HaveSources run.old.known.finder.shelf }
        ensures shown { OnOk result (IsAnswered self.now.options.now line.entry
            (at_of run.old streams.old) (at_of run.new streams.new) answer) }
        ensures sources { OnOk result (HaveSources run.new.known.finder.shelf) }
    {
        match answer {
            Answer::Nothing if self.options.reading.reads_text() => {
                self.show_text(run, line, streams)
            }
            Answer::Nothing => self.pass_line(run, line.bytes, streams),
            Answer::Dropped => self.finish(run, streams),
            Answer::Diagnostics(all) => self.show_all(run, all, streams),
            Answer::Head(parsed) => self.show_head(run, line, parsed, streams),
            Answer::Note(note) => self.show_note(run, line, note, streams),
        }
    }

    /// Shows a line of text that names no kind beside a span: it may name the span of a diagnostic, stand
    /// in front of one, go on with its message, or be a sum of its tool's own. Else it passes.
    fn show_text<W: Write, F: Write>(
        &self,
        run: &mut Run,
        line: Line<'_>,
        streams: &mut Streams<W, F>,
    ) -> Result<(), Fault>
        requires { HaveSources run.old.known.finder.shelf }
        ensures shown { OnOk result (IsTextShown self.now.options.now line.entry
            (at_of run.old streams.old) (at_of run.new streams.new)) }
        ensures sources { OnOk result (HaveSources run.new.known.finder.shelf) }
    {
        if let Some(head) = run.known.placed(self.alloc, line.text)? {
            return self.show_placed(run, line, head, streams);
        }
        if run.known.takes_in_front(self.alloc, line)? {
            return Ok(());
        }
        if run.known.take_more(self.alloc, line)? {
            return Ok(());
        }
        self.show_other(run, line, streams)
    }

    /// Shows a line of text that belongs to no diagnostic, unless it is a sum of the tool's own behind one.
    fn show_other<W: Write, F: Write>(
        &self,
        run: &mut Run,
        line: Line<'_>,
        streams: &mut Streams<W, F>,
    ) -> Result<(), Fault>
        requires { HaveSources run.old.known.finder.shelf }
        ensures shown { OnOk result (IsOtherShown self.now.options.now line.entry
            (at_of run.old streams.old) (at_of run.new streams.new)) }
        ensures sources { OnOk result (HaveSources run.new.known.finder.shelf) }
    {
        if run.is_tally(line.text) {
            return self.finish(run, streams);
        }
        self.finish(run, streams)?;
        run.known.finder.folders.follow(line.text)?;
        self.pass(run, line.bytes, streams)
    }

    /// Holds a diagnostic whose head waited, and whose span a line names, if its file can be read. Else
    /// the lines of the head pass, and that line.
    fn show_placed<W: Write, F: Write>(
        &self,
        run: &mut Run,
        line: Line<'_>,
        head: PlacedHead,
        streams: &mut Streams<W, F>,
    ) -> Result<(), Fault>
        requires { HaveSources run.old.known.finder.shelf }
        ensures shown { OnOk result (IsPlacedShown self.now.options.now line.entry head
            (at_of run.old streams.old) (at_of run.new streams.new)) }
        ensures sources { OnOk result (HaveSources run.new.known.finder.shelf) }
    {
        let PlacedHead { lines, parsed } = head;
        match run.known.finder.opened(self.files, parsed)? {
            Some(opened) => self.begin(run, opened, line.text, streams),
            None => self.pass_both(run, lines.as_slice(), line.bytes, streams),
        }
    }

    /// Writes lines that waited and pass, behind the diagnostic in front, and a line behind them.
    fn pass_both<W: Write, F: Write>(
        &self,
        run: &mut Run,
        lines: &[Vec<u8>],
        line: &[u8],
        streams: &mut Streams<W, F>,
    ) -> Result<(), Fault>
        requires { HaveSources run.old.known.finder.shelf }
        ensures passed { OnOk result (HaveBothPassed self.now.options.now (bytes_in lines.now) line.now
            (at_of run.old streams.old) (at_of run.new streams.new)) }
        ensures sources { OnOk result (HaveSources run.new.known.finder.shelf) }
    {
        self.finish(run, streams)?;
        self.pass_lines(run, lines, streams)?;
        self.pass(run, line, streams)
    }

    /// Holds a diagnostic whose head is a line, if its file can be read. Else the line passes.
    fn show_head<W: Write, F: Write>(
        &self,
        run: &mut Run,
        line: Line<'_>,
        parsed: Diagnostic,
        streams: &mut Streams<W, F>,
    ) -> Result<(), Fault>
        requires { HaveSources run.old.known.finder.shelf }
        ensures shown { OnOk result (IsHeadShown self.now.options.now line.entry parsed
            (at_of run.old streams.old) (at_of run.new streams.new)) }
        ensures sources { OnOk result (HaveSources run.new.known.finder.shelf) }
    {
        match run.known.finder.opened(self.files, parsed)? {
            Some(parsed) => self.begin(run, parsed, line.text, streams),
            None => self.pass_line(run, line.bytes, streams),
        }
    }

    /// Gives a note to the diagnostic in front, if there is one that it is about. Else it is a diagnostic of
    /// its own. If its file can't be read, its line passes.
    fn show_note<W: Write, F: Write>(
        &self,
        run: &mut Run,
        line: Line<'_>,
        note: Diagnostic,
        streams: &mut Streams<W, F>,
    ) -> Result<(), Fault>
        requires { HaveSources run.old.known.finder.shelf }
        ensures shown { OnOk result (IsNoteShown self.now.options.now line.entry note
            (at_of run.old streams.old) (at_of run.new streams.new)) }
        ensures sources { OnOk result (HaveSources run.new.known.finder.shelf) }
    {
        match run.known.finder.opened(self.files, note)? {
            Some(note) => self.give_or_begin(run, line, note, streams),
            None => self.pass_line(run, line.bytes, streams),
        }
    }

    /// Gives a note whose file is held to the diagnostic in front, if there is one that it is about. Else it is
    /// a diagnostic of its own.
    fn give_or_begin<W: Write, F: Write>(
        &self,
        run: &mut Run,
        line: Line<'_>,
        note: Diagnostic,
        streams: &mut Streams<W, F>,
    ) -> Result<(), Fault>
        requires { HaveSources run.old.known.finder.shelf }
        ensures shown { OnOk result (IsHeldNoteShown self.now.options.now line.entry note
            (at_of run.old streams.old) (at_of run.new streams.new)) }
        ensures sources { OnOk result (HaveSources run.new.known.finder.shelf) }
    {
        match run.known.take_block_of(&note) {
            Some(block) => self.add_note(run, block, note, streams),
            None => self.begin(run, note, line.text, streams),
        }
    }
}
