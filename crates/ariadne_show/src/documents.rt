//! Documents of JSON: the lines of one are held up to its last one, and then its diagnostics are shown. The lines of
//! what turns out to be none are shown as they are.

ghost use Rattle.std.specs.Prelude.{◌≡◌, None, OnOk};
ghost use Rattle.ariadne_show.specs.ReadFiles.{HaveSources};
ghost use Rattle.ariadne_show.specs.RunOutput.{begins_document as is_document_begun};
ghost use Rattle.ariadne_show.specs.RunOutput.{at_of, holding_of, AreBytesShown, IsDocumentShown, IsHeldShown};
ghost use Rattle.ariadne_show.specs.RunOutput.{IsInsideShown, IsNextShown, IsOutsideShown};

use crate::fault::Fault;
use crate::lines::read_line;
use crate::run::Run;
use crate::streams::Streams;
use crate::task::Task;
use ariadne_documents::{Document, Step, begins, document_answer, reads_values};
use ariadne_parse::Answer;
use std::io::Write;
use std::rt::Files;

impl<R: Files> Task<'_, R> {
    /// Shows a line, or holds it with the document that it is of.
    pub(crate) fn show_next<W: Write, F: Write>(
        &self,
        run: &mut Run,
        held: &mut Option<Document>,
        line: &[u8],
        streams: &mut Streams<W, F>,
    ) -> Result<(), Fault>
        requires { HaveSources run.old.known.finder.shelf }
        ensures shown { OnOk result (IsNextShown self.now.options.now line.now
            (holding_of held.old (at_of run.old streams.old))
            (holding_of held.new (at_of run.new streams.new))) }
        ensures sources { OnOk result (HaveSources run.new.known.finder.shelf) }
    {
        match held.take() {
            Some(document) => self.show_inside(run, held, document, line, streams),
            None => self.show_outside(run, held, line, streams),
        }
    }

    /// Shows a line in front of which no document is held, or holds it as the first of one.
    fn show_outside<W: Write, F: Write>(
        &self,
        run: &mut Run,
        held: &mut Option<Document>,
        line: &[u8],
        streams: &mut Streams<W, F>,
    ) -> Result<(), Fault>
        requires sources { HaveSources run.old.known.finder.shelf }
        requires none { held.old ≡ None }
        ensures shown { OnOk result (IsOutsideShown self.now.options.now line.now
            (at_of run.old streams.old) (holding_of held.new (at_of run.new streams.new))) }
        ensures sources { OnOk result (HaveSources run.new.known.finder.shelf) }
    {
        if self.begins_document(line) {
            *held = Some(Document::of_line(self.alloc, line)?);
            return Ok(());
        }
        self.show_line(run, line, streams)
    }

    /// Whether a line begins a document, where values are read.
    fn begins_document(&self, line: &[u8]) -> bool
        ensures { result ≡ is_document_begun self.now.options.now line.now }
    {
        reads_values(self.options.reading.format) && begins(line)
    }

    /// Shows a line behind those of a document, or holds it with them.
    fn show_inside<W: Write, F: Write>(
        &self,
        run: &mut Run,
        held: &mut Option<Document>,
        mut document: Document,
        line: &[u8],
        streams: &mut Streams<W, F>,
    ) -> Result<(), Fault>
        requires sources { HaveSources run.old.known.finder.shelf }
        requires none { held.old ≡ None }
        ensures shown { OnOk result (IsInsideShown self.now.options.now document line.now
            (at_of run.old streams.old) (holding_of held.new (at_of run.new streams.new))) }
        ensures sources { OnOk result (HaveSources run.new.known.finder.shelf) }
    {
        let step = document.take(line)?;
        match step {
            Step::GoesOn => {
                *held = Some(document);
                Ok(())
            }
            Step::Ended => self.show_document(run, &document, streams),
            Step::Broken => {
                self.show_as_lines(run, document.bytes(), streams)?;
                self.show_outside(run, held, line, streams)
            }
        }
    }

    /// Shows the lines of a document that doesn't end, if one is held.
    pub(crate) fn show_held<W: Write, F: Write>(
        &self,
        run: &mut Run,
        held: &Option<Document>,
        streams: &mut Streams<W, F>,
    ) -> Result<(), Fault>
        requires { HaveSources run.old.known.finder.shelf }
        ensures shown { OnOk result (IsHeldShown self.now.options.now held.now
            (at_of run.old streams.old) (at_of run.new streams.new)) }
        ensures sources { OnOk result (HaveSources run.new.known.finder.shelf) }
    {
        match held {
            Some(document) => self.show_as_lines(run, document.bytes(), streams),
            None => Ok(()),
        }
    }

    /// Shows what a document tells, or its lines as they are, where it tells nothing.
    fn show_document<W: Write, F: Write>(
        &self,
        run: &mut Run,
        document: &Document,
        streams: &mut Streams<W, F>,
    ) -> Result<(), Fault>
        requires { HaveSources run.old.known.finder.shelf }
        ensures shown { OnOk result (IsDocumentShown self.now.options.now document.now
            (at_of run.old streams.old) (at_of run.new streams.new)) }
        ensures sources { OnOk result (HaveSources run.new.known.finder.shelf) }
    {
        let format = self.options.reading.format;
        let answer = document_answer(self.alloc, format, &mut run.known.sent, document)?;
        match answer {
            Answer::Diagnostics(all) => self.show_all(run, all, streams),
            Answer::Dropped => self.finish(run, streams),
            Answer::Nothing => self.show_as_lines(run, document.bytes(), streams),
            Answer::Head(parsed) => {
                drop(parsed);
                self.show_as_lines(run, document.bytes(), streams)
            }
            Answer::Note(note) => {
                drop(note);
                self.show_as_lines(run, document.bytes(), streams)
            }
        }
    }

    /// Shows bytes that are no document as the lines that they are.
    fn show_as_lines<W: Write, F: Write>(
        &self,
        run: &mut Run,
        bytes: &[u8],
        streams: &mut Streams<W, F>,
    ) -> Result<(), Fault>
        requires { HaveSources run.old.known.finder.shelf }
        ensures shown { OnOk result (AreBytesShown self.now.options.now bytes.now
            (at_of run.old streams.old) (at_of run.new streams.new)) }
        ensures sources { OnOk result (HaveSources run.new.known.finder.shelf) }
    {
        let mut input = bytes;
        let mut line = Vec::new(self.alloc);
        'lines: for _ in 0..u64::MAX {
            line.clear();
            if !read_line(&mut input, &mut line)? {
                return Ok(());
            }
            self.show_line(run, line.as_slice(), streams)?;
        }
        Err(Fault::Unread)
    }
}
