//! The rows below a head or a note: the snippet that they are, and which spans its marks are of.

ghost use Rattle.std.specs.Prelude.{◌≡◌, ◌==◌, [], map, option_map, string_bytes, IfOk, OnOk};
ghost use Rattle.std.specs.Prelude.{true, false};
ghost use Rattle.std.specs.List.{list_any};
ghost use Rattle.std.specs.Option.{option_copied};
ghost use Rattle.ariadne_snippets.specs.Snippets.{number_quoted, IsUnread};
ghost use Rattle.ariadne_parse.specs.Spans.{seen};
ghost use Rattle.ariadne_blocks.specs.Files.{file_at, file_of, line_at};
ghost use Rattle.ariadne_blocks.specs.Files.{begins_with_number as begins_with_digit};
ghost use Rattle.ariadne_blocks.specs.Files.{quotes_escape as quotes_escape_in, source_in};
ghost use Rattle.ariadne_blocks.specs.MarkMeanings.{given_at, is_own_at, marking_of, with_begun, with_label};
ghost use Rattle.ariadne_blocks.specs.MarkMeanings.{with_labels};
ghost use Rattle.ariadne_blocks.specs.MarkMeanings.{with_mark, with_marks};

use crate::file::QuotedFile;
use crate::spans::{begin_at, caret_of, inner_span, is_range_of, marked_span, own_marks, say_at};
use ariadne_parse::Span;
use ariadne_snippets::{Label, Mark, Point, Snippet};
use std::alloc::{AllocError, Global};

/// The rows below a head or a note, as far as they were read.
#[derive(Drop)]
pub(crate) struct Rows {
    /// The snippet.
    pub(crate) snippet: Snippet,
    /// The file that it quotes.
    pub(crate) path: String,
    /// The number of the span that it is of.
    pub(crate) at: usize,
    /// The spans of the marks in the row that was read last, by the numbers of the marks.
    pub(crate) marked: Vec<usize>,
}

impl Rows {
    /// The rows of a span with this number, of which none was read. The tool points at the character
    /// `caret` of its line, from 0, if its column is known.
    pub(crate) fn new(
        alloc: Global,
        span: Option<&Span>,
        at: usize,
        caret: Option<usize>,
    ) -> Result<Rows, AllocError>
        ensures path { IfOk result (λ rows.
            string_bytes rows.path ≡ file_at (option_map seen (option_copied span.entry))) }
        ensures awaits { IfOk result (λ rows. IsUnread
            (line_at (option_map seen (option_copied span.entry))) caret rows.snippet) }
        ensures at { IfOk result (λ rows. rows.at ≡ at) }
        ensures marked { IfOk result (λ rows. rows.marked.items ≡ []) }
    {
        let (path, line) = match span {
            Some(span) => (span.file.clone()?, span.start.line),
            None => (String::new(alloc), 0),
        };
        Ok(Rows {
            snippet: Snippet::new(alloc, line, caret),
            path,
            at,
            marked: Vec::new(alloc),
        })
    }

    /// The line of the file that a text would quote.
    pub(crate) fn source<'a>(&self, file: Option<QuotedFile<'a>>, text: &str) -> Option<&'a [char]>
        ensures { option_copied result ≡ source_in (option_map file_of file.entry)
            (number_quoted self.now.snippet text.now) }
    {
        file?.line(self.snippet.quoted_number(text)?)
    }

    /// Whether a text quotes a line behind a gutter that has an escape.
    pub(crate) fn quotes_escape(&self, file: Option<QuotedFile<'_>>, text: &str) -> bool
        ensures { result ≡ quotes_escape_in (option_map file_of file.entry) self.now.snippet text.now }
    {
        match self.source(file, text) {
            Some(source) => has_escape(source) && begins_with_number(text),
            None => false,
        }
    }

    /// Takes in a row of marks: the first with a caret, on the line that the head names, is the range of its
    /// span, and each other is a span beside.
    pub(crate) fn add_marks(
        &mut self,
        alloc: Global,
        file: Option<QuotedFile<'_>>,
        spans: &mut Vec<Span>,
        marks: &[Mark<'_>],
    ) -> Result<(), AllocError>
        ensures marks { OnOk result (marking_of self.new spans.new.items
            ≡ with_marks (option_map file_of file.entry) (string_bytes self.old.path) self.old.at
            marks.now (map seen spans.old.items)) }
        ensures others { OnOk result (self.new ≡ record self.old { marked = self.new.marked }) }
    {
        self.marked.clear();
        for mark in marks {
            self.add_mark(alloc, file, spans, mark)?;
        }
        Ok(())
    }

    /// Takes in a mark of that row.
    fn add_mark(
        &mut self,
        alloc: Global,
        file: Option<QuotedFile<'_>>,
        spans: &mut Vec<Span>,
        mark: &Mark<'_>,
    ) -> Result<(), AllocError>
        ensures mark { OnOk result (marking_of self.new spans.new.items
            ≡ with_mark (option_map file_of file.entry) (string_bytes self.old.path) self.old.at
            (marking_of self.old spans.old.items) mark.now) }
        ensures others { OnOk result (self.new ≡ record self.old { marked = self.new.marked }) }
    {
        let text = String::from_str(alloc, mark.text)?;
        if give_range(file, spans, self.at, mark) {
            self.marked.push(self.at)?;
            return say_at(spans, self.at, text);
        }
        self.marked.push(spans.len())?;
        let file = String::from_str(alloc, self.path.as_str())?;
        spans.push(marked_span(file, mark, text))?;
        Ok(())
    }

    /// Has the range of a mark in the row that was read last begin at a point in a line above.
    pub(crate) fn begin_mark(&self, spans: &mut [Span], mark: usize, start: Point)
        ensures { map seen spans.new
            ≡ with_begun self.now.at self.now.marked.items mark start (map seen spans.old) }
    {
        if let Some(number) = self.marked.get(mark) {
            begin_at(spans, *number, *number == self.at, start);
        }
    }

    /// Takes in a row of texts below marks: each is said of the span of its mark.
    pub(crate) fn add_labels(
        &self,
        alloc: Global,
        spans: &mut Vec<Span>,
        labels: &[Label<'_>],
    ) -> Result<(), AllocError>
        ensures { OnOk result (map seen spans.new.items
            ≡ with_labels (string_bytes self.now.path) self.now.marked.items labels.now
            (map seen spans.old.items)) }
    {
        for label in labels {
            self.add_label(alloc, spans, label)?;
        }
        Ok(())
    }

    /// Takes in a text below a mark: it is said of the span of that, or of the character that it stands below.
    fn add_label(
        &self,
        alloc: Global,
        spans: &mut Vec<Span>,
        label: &Label<'_>,
    ) -> Result<(), AllocError>
        ensures { OnOk result (map seen spans.new.items
            ≡ with_label (string_bytes self.now.path) self.now.marked.items
            (map seen spans.old.items) label.now) }
    {
        let text = String::from_str(alloc, label.text)?;
        match (label.inner, self.marked.get(label.mark)) {
            (Some(point), _) => {
                let file = String::from_str(alloc, self.path.as_str())?;
                spans.push(inner_span(file, point, text))?;
                Ok(())
            }
            (None, Some(number)) => say_at(spans, *number, text),
            (None, None) => Ok(()),
        }
    }
}

/// Gives a mark to the span with a number as its range, if it is that, and returns whether it is. A range that
/// the head tells is kept.
fn give_range(
    file: Option<QuotedFile<'_>>,
    spans: &mut [Span],
    number: usize,
    mark: &Mark<'_>,
) -> bool
    ensures own { result ≡ is_own_at mark.now number (map seen spans.old) }
    ensures given { result ≡ true → map seen spans.new
        ≡ given_at (option_map file_of file.entry) mark.now number (map seen spans.old) }
    ensures same { result ≡ false → spans.new ≡ spans.old }
{
    if number >= spans.len() || !is_range_of(&spans[number], mark) {
        return false;
    }
    let span = &mut spans[number];
    span.caret = caret_of(file, span, mark);
    span.marks = own_marks(span, mark);
    true
}

/// Whether a line has an escape.
fn has_escape(line: &[char]) -> bool
    ensures { result ≡ list_any (λ c. c == 27) line.now }
{
    line.iter().any(|c| *c == '\u{1b}')
}

/// Whether a text begins with a digit, behind white space.
fn begins_with_number(text: &str) -> bool
    ensures { result ≡ begins_with_digit text.now }
{
    match text.trim_start().as_bytes().first() {
        Some(byte) => byte.is_ascii_digit(),
        None => false,
    }
}
