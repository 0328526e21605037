//! A file as it is held: what its columns count, and the number of its source.

ghost use Rattle.std.specs.Prelude.{◌≡◌, ◌≤◌, chars, length, string_bytes, IfOk, IfSome};
ghost use Rattle.ariadne_show.specs.FoundSpans.{caret_in, end_location_in, end_of, mark_before, range_in};
ghost use Rattle.ariadne_show.specs.FoundSpans.{caret_in_marks, char_at as char_in};
ghost use Rattle.ariadne_show.specs.FoundSpans.{is_sure as is_sure_in, location_by, location_in, marked_in, own_range_in, unit_in};
ghost use Rattle.ariadne_show.specs.DrawnProposals.{range_of};
ghost use Rattle.ariadne_show.specs.ReadFiles.{IsTextOf};

use ariadne_parse::{Change, Columns, End, Location, Proposal, Span, Unit};
use std::alloc::{AllocError, Global};
use std::ops::Range;

/// The bytes of the byte order mark that a file of UTF-8 may begin with.
const MARK: &[u8] = b"\xef\xbb\xbf";

/// The text of a file: its bytes as UTF-8, or where they are none, a character for each byte.
#[derive(Drop)]
pub struct FileText {
    /// The text.
    pub text: String,
    /// Whether the bytes are UTF-8.
    pub is_utf8: bool,
    /// Whether they begin with a byte order mark.
    pub has_mark: bool,
}

impl FileText {
    /// The text of these bytes. On `Err` there was no memory for it.
    pub fn new(alloc: Global, bytes: &[u8]) -> Result<FileText, AllocError>
        ensures { IfOk result (λ file. IsTextOf bytes.now file) }
    {
        let has_mark = bytes.starts_with(MARK);
        match std::str::from_utf8(bytes) {
            Ok(text) => Ok(FileText {
                text: String::from_str(alloc, text)?,
                is_utf8: true,
                has_mark,
            }),
            Err(_) => Ok(FileText {
                text: latin_text(alloc, bytes)?,
                is_utf8: false,
                has_mark,
            }),
        }
    }
}

/// A character for each byte: those of Latin-1.
fn latin_text(alloc: Global, bytes: &[u8]) -> Result<String, AllocError>
    ensures { IfOk result (λ text. chars (string_bytes text) ≡ bytes.now) }
{
    let mut text = String::new(alloc);
    for byte in bytes {
        text.push(*byte as char)?;
    }
    Ok(text)
}

/// A file that was read, or lines that are quoted of one.
#[derive(Drop)]
pub struct HeldFile {
    /// The number of its source.
    pub number: usize,
    /// Its columns.
    pub columns: Columns,
    /// Whether it is UTF-8. Else each byte is a character.
    pub is_utf8: bool,
    /// Whether it begins with a byte order mark.
    pub has_mark: bool,
    /// How many of its lines stand above those that are held: none, where the file was read.
    pub above: usize,
    /// Whether the file was read. Else it is held as it is quoted.
    pub is_read: bool,
}

impl HeldFile {
    /// The characters of a span, if the file has its start: the first, from 0, and the one behind the
    /// last. An end that the file doesn't have is the end of the file. Where a tool's own marks cover the
    /// span, they are those that the marks cover.
    pub fn range(&self, span: &Span) -> Option<Range<usize>>
        ensures range { result ≡ range_in self.now span.now }
        ensures forward { IfSome result (λ range. range.start ≤ range.end) }
    {
        match span.marks {
            Some(marks) => self.marked(marks),
            None => self.own_range(span),
        }
    }

    /// The characters of a span, whatever marks cover it.
    #[tactic(auto, unfolding(crate::specs::FoundSpans::own_range_in))]
    fn own_range(&self, span: &Span) -> Option<Range<usize>>
        ensures range { result ≡ own_range_in self.now span.now }
        ensures forward { IfSome result (λ range. range.start ≤ range.end) }
    {
        let start = self.offset(span, span.start, 1)?;
        let end = self.end(span, start);
        Some(start..end.max(start))
    }

    /// The characters that marks cover, from a location up to another.
    #[tactic(auto, unfolding(crate::specs::FoundSpans::marked_in))]
    fn marked(&self, marks: (Location, Location)) -> Option<Range<usize>>
        ensures range { result ≡ marked_in self.now marks }
        ensures forward { IfSome result (λ range. range.start ≤ range.end) }
    {
        let start = self.char_at(marks.0)?;
        let end = self.char_at(marks.1)?.max(start);
        Some(start..end)
    }

    /// The offset of a location whose column counts characters.
    #[tactic(auto, unfolding(crate::specs::FoundSpans::char_at))]
    fn char_at(&self, location: Location) -> Option<usize>
        ensures { result ≡ char_in self.now location }
    {
        let line = location.line.saturating_sub(self.above);
        self.columns
            .offset(Unit::Char, line, location.column.unwrap_or(1))
    }

    /// The character that the tool points at, if the file has it: the first that its marks cover, where
    /// it names no column, or one that they don't cover, as gcc does whose columns are those of a terminal.
    /// A column that counts characters is sure.
    pub fn caret(&self, span: &Span) -> Option<usize>
        ensures { result ≡ caret_in self.now span.now }
    {
        let caret = self.offset(span, span.caret, 1)?;
        match span.marks {
            Some(marks) if !is_sure(span) => Some(self.marked_caret(marks, caret)),
            _ => Some(caret),
        }
    }

    /// The character that a tool points at whose marks cover this.
    fn marked_caret(&self, marks: (Location, Location), caret: usize) -> usize
        ensures { result ≡ caret_in_marks (marked_in self.now marks) caret }
    {
        match self.marked(marks) {
            Some(marked) if caret < marked.start || marked.end <= caret => marked.start,
            _ => caret,
        }
    }

    /// Where a span ends that starts at an offset.
    fn end(&self, span: &Span, start: usize) -> usize
        requires { start ≤ length self.now.columns }
        ensures { result ≡ end_of self.now span.now start span.now.end }
    {
        match span.end {
            End::Before(location) => self.end_at(span, location),
            End::Behind(location) => self.end_at(span, location).saturating_add(1),
            End::OfWord if span.start.column.is_some() => self.columns.word_end(start),
            End::OfWord => self.end_at(span, span.start),
        }
    }

    /// The offset of the location where a span ends: the end of its line, where it names no column.
    #[tactic(auto, unfolding(crate::specs::FoundSpans::end_location_in))]
    fn end_at(&self, span: &Span, location: Location) -> usize
        ensures { result ≡ end_location_in self.now span.now location }
    {
        match self.offset(span, location, usize::MAX) {
            Some(offset) => offset,
            None if location.line <= self.above => 0,
            None => self.columns.len(),
        }
    }

    /// The offset of a location of a span, which is at this column where it names none.
    fn offset(&self, span: &Span, location: Location, column: usize) -> Option<usize>
        ensures offset { result ≡ location_in self.now span.now location column }
        ensures bound { IfSome result (λ offset. offset ≤ length self.now.columns) }
    {
        self.location(span.unit, span.is_past_mark, location, column)
    }

    /// The characters that a change replaces, if the file has both of its ends.
    #[tactic(auto, unfolding(crate::specs::DrawnProposals::range_of))]
    pub fn changed(&self, proposal: &Proposal, change: &Change) -> Option<Range<usize>>
        ensures { result ≡ range_of self.now proposal.now change.now }
    {
        let start = self.location(proposal.unit, proposal.is_past_mark, change.start, 1)?;
        let end = self.location(proposal.unit, proposal.is_past_mark, change.end, 1)?;
        Some(start..end)
    }

    /// The offset of a location, which is at this column where it names none. Columns count `unit`, and those
    /// that are past the mark leave out a byte order mark.
    #[tactic(auto, unfolding(crate::specs::FoundSpans::location_by))]
    fn location(
        &self,
        unit: Unit,
        is_past_mark: bool,
        location: Location,
        column: usize,
    ) -> Option<usize>
        ensures offset { result ≡ location_by self.now unit is_past_mark location column }
        ensures bound { IfSome result (λ offset. offset ≤ length self.now.columns) }
    {
        let mark = self.mark(is_past_mark, location.line);
        let column = location.column.unwrap_or(column).saturating_add(mark);
        let line = location.line.saturating_sub(self.above);
        self.columns.offset(self.unit(unit), line, column)
    }

    /// What columns count: characters in place of bytes, where the file is no UTF-8.
    pub fn unit(&self, unit: Unit) -> Unit
        ensures { result ≡ unit_in self.now unit }
    {
        match unit {
            Unit::Byte if !self.is_utf8 => Unit::Char,
            unit => unit,
        }
    }

    /// How many bytes of a byte order mark the columns of a line leave out.
    fn mark(&self, is_past_mark: bool, line: usize) -> usize
        ensures { result ≡ mark_before self.now is_past_mark line }
    {
        if self.has_mark && is_past_mark && line == 1 {
            MARK.len()
        } else {
            0
        }
    }
}

/// Whether a span points at a column that counts characters.
fn is_sure(span: &Span) -> bool
    ensures { result ≡ is_sure_in span.now }
{
    span.caret.column.is_some() && span.unit == Unit::Char
}
