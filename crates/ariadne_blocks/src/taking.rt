//! Which lines a block takes in as rows below its head or a note, and what each of them tells.

ghost use Rattle.std.specs.Prelude.{◌≡◌, option_map, false, true, None, IfOk, IfSome, OnOk, Some};
ghost use Rattle.ariadne_blocks.specs.Blocks as blocks;
ghost use Rattle.ariadne_blocks.specs.Blocks.{view_of, HasNoMoreRows, IsRow, IsRowOf, IsSameBlock};
ghost use Rattle.ariadne_blocks.specs.Events.{event_in, event_parsed};
ghost use Rattle.ariadne_blocks.specs.Files.{file_of};
ghost use Rattle.ariadne_blocks.specs.declared.block.Aside.TheVariants as aside;

use crate::block::{Aside, Block};
use crate::colors::without_gcc_colors;
use crate::events::{EventRow, event_row, is_events_head};
use crate::file::QuotedFile;
use crate::line::Line;
use ariadne_parse::{Arrow, Location};
use ariadne_snippets::Taken;
use std::alloc::{AllocError, Global};

/// The line that stands for a file as a whole.
const FIRST_LINE: Location = Location {
    line: 1,
    column: None,
};

impl Block {
    /// Takes in the next line, if it is a further row of the message, a row of the snippet, or one that tells
    /// programs what to change, and returns whether it is. `file` is that with the block's path, if it is held.
    ///
    /// gcc quotes the escapes of a source as they are: in such a row its own colours alone are left out.
    /// The rows of its events stand behind bars. On `Err` there was no memory.
    pub fn take_row(
        &mut self,
        alloc: Global,
        file: Option<QuotedFile<'_>>,
        line: Line<'_>,
    ) -> Result<bool, AllocError>
        ensures row { IfOk result (λ is_row. is_row ≡ true
            → IsRow (option_map file_of file.entry) line.entry self.old self.new) }
        ensures none { IfOk result (λ is_row. is_row ≡ false → IsSameBlock self.old self.new) }
        ensures ends { IfOk result (λ is_row. is_row ≡ false → HasNoMoreRows self.new) }
        ensures over { HasNoMoreRows self.old → IfOk result (λ is_row. is_row ≡ false) }
    {
        if self.rows.snippet.has_ended() {
            return Ok(false);
        }
        if let Some(row) = self.goes_on.row(line.text) {
            self.add_message_row(row)?;
            return Ok(true);
        }
        if let Some(row) = self.fix_row(alloc, line.text)? {
            self.add_fix_row(alloc, &row)?;
            return Ok(true);
        }
        self.take_below(alloc, file, line)
    }

    /// Takes in a row that stands below the message, if it is one, and returns whether it is.
    fn take_below(
        &mut self,
        alloc: Global,
        file: Option<QuotedFile<'_>>,
        line: Line<'_>,
    ) -> Result<bool, AllocError>
        ensures row { IfOk result (λ is_row. is_row ≡ true
            → IsRow (option_map file_of file.entry) line.entry self.old self.new) }
        ensures none { IfOk result (λ is_row. is_row ≡ false → IsSameBlock self.old self.new) }
        ensures ends { IfOk result (λ is_row. is_row ≡ false → HasNoMoreRows self.new) }
        ensures over { HasNoMoreRows self.old → IfOk result (λ is_row. is_row ≡ false) }
    {
        match self.event_row(line.text) {
            Some(EventRow::Frame) => self.take_frame(alloc, file, line.text),
            Some(EventRow::File(path)) => self.take_file(alloc, path),
            Some(EventRow::Telling(event)) => self.take_event(alloc, event),
            Some(EventRow::Quoting(row)) => self.take_text(alloc, file, row),
            None => self.take_other(alloc, file, line),
        }
    }

    /// What a line is of the events whose head it is, or whose head was read.
    fn event_row<'a>(&self, text: &'a str) -> Option<EventRow<'a>>
        ensures { IfSome result (λ row. event_in text.now ≡ Some (event_parsed row)) }
    {
        if self.has_events || is_events_head(text) {
            event_row(text)
        } else {
            None
        }
    }

    /// Takes in a row of events that tells nothing, unless the rows have ended, and returns whether they
    /// haven't.
    fn take_frame(
        &mut self,
        alloc: Global,
        file: Option<QuotedFile<'_>>,
        text: &str,
    ) -> Result<bool, AllocError>
        ensures row { IfOk result (λ is_row. is_row ≡ true
            → IsRowOf (option_map file_of file.entry) text.now self.old self.new) }
        ensures none { IfOk result (λ is_row. is_row ≡ false → self.new ≡ self.old) }
        ensures ends { IfOk result (λ is_row. is_row ≡ false → HasNoMoreRows self.new) }
        ensures over { HasNoMoreRows self.old → IfOk result (λ is_row. is_row ≡ false) }
    {
        if self.rows.snippet.has_ended() {
            return Ok(false);
        }
        let is_quote = self.rows.source(file, text).is_some();
        self.tell(alloc, file, text, is_quote, Taken::Nothing)?;
        self.has_events = true;
        Ok(true)
    }

    /// Takes in the file of the next rows of events, unless the rows have ended, and returns whether they
    /// haven't.
    fn take_file(&mut self, alloc: Global, path: &str) -> Result<bool, AllocError>
        ensures file { IfOk result (λ is_row. is_row ≡ true → view_of self.new
            ≡ record (view_of self.old) { named = Some (blocks.file_span path.now) }) }
        ensures none { IfOk result (λ is_row. is_row ≡ false → self.new ≡ self.old) }
        ensures ends { IfOk result (λ is_row. is_row ≡ false → HasNoMoreRows self.new) }
        ensures over { HasNoMoreRows self.old → IfOk result (λ is_row. is_row ≡ false) }
    {
        if self.rows.snippet.has_ended() {
            return Ok(false);
        }
        let arrow = Arrow {
            file: path,
            start: FIRST_LINE,
            is_further: true,
        };
        self.named = Some(arrow.span(alloc)?);
        Ok(true)
    }

    /// Takes in an event that is at no span as a note, unless the rows have ended, and returns whether they haven't.
    fn take_event(&mut self, alloc: Global, event: &str) -> Result<bool, AllocError>
        ensures parsed { IfOk result (λ is_row. is_row ≡ true → view_of self.new
            ≡ blocks.with_text aside.Note event.now (view_of self.old)) }
        ensures none { IfOk result (λ is_row. is_row ≡ false → self.new ≡ self.old) }
        ensures ends { IfOk result (λ is_row. is_row ≡ false → HasNoMoreRows self.new) }
        ensures over { HasNoMoreRows self.old → IfOk result (λ is_row. is_row ≡ false) }
    {
        if self.rows.snippet.has_ended() {
            return Ok(false);
        }
        self.add_text(alloc, Aside::Note, event)?;
        Ok(true)
    }

    /// Takes in a line that is no row of events, if it is a row of the snippet, and returns whether it is. No
    /// events are told behind such a row.
    fn take_other(
        &mut self,
        alloc: Global,
        file: Option<QuotedFile<'_>>,
        line: Line<'_>,
    ) -> Result<bool, AllocError>
        ensures row { IfOk result (λ is_row. is_row ≡ true
            → IsRow (option_map file_of file.entry) line.entry self.old self.new) }
        ensures none { IfOk result (λ is_row. is_row ≡ false → IsSameBlock self.old self.new) }
        ensures ends { IfOk result (λ is_row. is_row ≡ false → HasNoMoreRows self.new) }
        ensures over { HasNoMoreRows self.old → IfOk result (λ is_row. is_row ≡ false) }
    {
        let is_row = self.take_whole(alloc, file, line)?;
        self.has_events = self.has_events && !is_row;
        Ok(is_row)
    }

    /// Takes in a line as it stands, if it is a row of the snippet, and returns whether it is.
    fn take_whole(
        &mut self,
        alloc: Global,
        file: Option<QuotedFile<'_>>,
        line: Line<'_>,
    ) -> Result<bool, AllocError>
        ensures row { IfOk result (λ is_row. is_row ≡ true
            → IsRow (option_map file_of file.entry) line.entry self.old self.new) }
        ensures none { IfOk result (λ is_row. is_row ≡ false → IsSameBlock self.old self.new) }
        ensures ends { IfOk result (λ is_row. is_row ≡ false → HasNoMoreRows self.new) }
        ensures over { HasNoMoreRows self.old → IfOk result (λ is_row. is_row ≡ false) }
    {
        if !self.keeps_escapes(file, line) {
            return self.take_text(alloc, file, line.text);
        }
        let bare = without_gcc_colors(alloc, line.whole)?;
        self.take_text(alloc, file, bare.as_str())
    }

    /// Whether a line has colours, and its text quotes a line with an escape.
    fn keeps_escapes(&self, file: Option<QuotedFile<'_>>, line: Line<'_>) -> bool
        ensures { result ≡ blocks.keeps_escapes (option_map file_of file.entry) line.entry
            self.now.rows.snippet }
    {
        line.has_colors() && self.rows.quotes_escape(file, line.text)
    }

    /// Takes in a text, if it is a row of the snippet, and returns whether it is.
    fn take_text(
        &mut self,
        alloc: Global,
        file: Option<QuotedFile<'_>>,
        text: &str,
    ) -> Result<bool, AllocError>
        ensures row { IfOk result (λ is_row. is_row ≡ true
            → IsRowOf (option_map file_of file.entry) text.now self.old self.new) }
        ensures none { IfOk result (λ is_row. is_row ≡ false → IsSameBlock self.old self.new) }
        ensures ends { IfOk result (λ is_row. is_row ≡ false → HasNoMoreRows self.new) }
        ensures over { HasNoMoreRows self.old → IfOk result (λ is_row. is_row ≡ false) }
    {
        let source = self.rows.source(file, text);
        let is_quote = source.is_some();
        let taken = self.rows.snippet.take(text, source)?;
        if let Taken::NotOfSnippet = taken {
            return Ok(false);
        }
        self.tell(alloc, file, text, is_quote, taken)?;
        Ok(true)
    }

    /// Takes in what a row tells.
    fn tell(
        &mut self,
        alloc: Global,
        file: Option<QuotedFile<'_>>,
        text: &str,
        is_quote: bool,
        taken: Taken<'_>,
    ) -> Result<(), AllocError>
        ensures view { OnOk result (view_of self.new ≡ blocks.with_row (option_map file_of file.entry)
            text.now is_quote taken.entry (view_of self.old)) }
        ensures snippet { OnOk result (self.new.rows.snippet ≡ self.old.rows.snippet) }
    {
        let spans = &mut self.parsed.spans;
        match taken {
            Taken::Nothing if is_quote => self.settle(alloc),
            Taken::Nothing | Taken::NotOfSnippet => Ok(()),
            Taken::Ranges(marks) => self.rows.add_marks(alloc, file, spans, marks.as_slice()),
            Taken::Labels(labels) => self.rows.add_labels(alloc, spans, labels.as_slice()),
            Taken::Begun(mark, start) => {
                self.rows.begin_mark(spans.as_mut_slice(), mark, start);
                Ok(())
            }
            Taken::Fixes(fixes) => self.add_fixes(alloc, file, fixes.as_slice()),
            Taken::Note(text) => self.add_text(alloc, Aside::Note, text),
            Taken::Help(text) => self.add_text(alloc, Aside::Help, text),
            Taken::More(text) => self.add_more(text),
            Taken::At(_) | Taken::Elsewhere(_) => self.name(alloc, text),
        }
    }
}
