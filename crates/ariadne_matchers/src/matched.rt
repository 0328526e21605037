//! What lines tell that an entry fits: a diagnostic, by what was caught of them.

ghost use Rattle.std.specs.Prelude.{◌≡◌, ◌<◌, ◌≤◌, ◌^◌, map, option_map, string_bytes, IfOk};
ghost use Rattle.ariadne_matchers.specs.Catches.{caught_at, cut_told};
ghost use Rattle.ariadne_matchers.specs.MatchedDiagnostics.{begin_by, column_from_one, end_by, end_column, named_place as place_named};
ghost use Rattle.ariadne_matchers.specs.MatchedDiagnostics.{lines_of_place, IsMatchedAt, IsMatchedOf};

use crate::caught::{Caught, Piece};
use crate::entry::{Entry, Severity, Word};
use crate::lasts::{Group, last, last_number, place_lines};
use crate::marks::{Marks, last_marks};
use crate::messages::{message, unescaped};
use crate::severities::severity;
use std::alloc::{AllocError, Global};

/// Where a diagnostic begins in its line.
#[derive(Clone, Copy)]
pub enum Begin {
    /// At this column, from 1.
    Column(usize),
    /// Where the marks stand, if there are some.
    Marked,
    /// The line is all that is told.
    Line,
}

/// A line of a file, and a column of it, if one is told. Both count from 1.
#[derive(Clone, Copy, PartialEq, Eq)]
pub struct End {
    /// The line.
    pub line: usize,
    /// The column.
    pub column: Option<usize>,
}

/// A diagnostic as lines tell it. Its columns are those of the entry.
#[derive(Drop)]
pub struct Matched {
    /// How bad it is.
    pub severity: Severity,
    /// Its code.
    pub code: Option<String>,
    /// What it says.
    pub message: String,
    /// The name of the file, as the tool wrote it.
    pub file: String,
    /// The line, from 1.
    pub line: usize,
    /// Where it begins.
    pub begin: Begin,
    /// The end: in front of this column, or of the whole line where none is told.
    pub end: Option<End>,
    /// The tool's marks.
    pub marks: Option<Marks>,
}

/// What lines tell, if they name a file and a line. On `Err` there was no memory.
///
/// A line 0 stands for the whole file, and is told as line 1.
pub(crate) fn matched_by(
    alloc: Global,
    entry: &Entry,
    words: &[Word],
    lines: &[Caught<'_>],
) -> Result<Option<Matched>, AllocError>
    ensures { IfOk result (IsMatchedOf entry.now words.now (map caught_at lines.now)) }
{
    match named_place(lines) {
        Some((file, line)) => Ok(Some(matched_at(alloc, entry, words, lines, file, line)?)),
        None => Ok(None),
    }
}

/// What lines tell that name a file and a line.
fn matched_at(
    alloc: Global,
    entry: &Entry,
    words: &[Word],
    lines: &[Caught<'_>],
    file: Piece<'_>,
    line: u32,
) -> Result<Matched, AllocError>
    ensures { IfOk result (IsMatchedAt entry.now words.now (map caught_at lines.now) (cut_told file.entry) line) }
{
    let place = lines_at(line, lines);
    let code = last(lines, Group::Code);
    Ok(Matched {
        severity: severity(words, last(lines, Group::Severity), entry.severity),
        code: copied(alloc, code)?,
        message: message(alloc, entry, lines, code)?,
        file: unescaped(alloc, entry.is_escaped, file.text)?,
        line: (line as usize).max(1),
        begin: begin_of(entry, place),
        end: end_of(entry, line, place),
        marks: last_marks(alloc, entry.measure, place)?,
    })
}

/// The file and the line that lines name, if they name both.
#[tactic(auto, unfolding(crate::specs::MatchedDiagnostics::named_place))]
pub(crate) fn named_place<'l>(lines: &[Caught<'l>]) -> Option<(Piece<'l>, u32)>
    ensures place { option_map (λ place. (cut_told place.0, place.1)) result ≡ place_named (map caught_at lines.now) }
{
    let file = last(lines, Group::File)?;
    let line = last_number(place_lines(lines), Group::Line)?;
    Some((file, line))
}

/// The lines that tell the place in a line: none where line 0 stands for the whole file.
fn lines_at<'a, 'l>(line: u32, lines: &'a [Caught<'l>]) -> &'a [Caught<'l>]
    ensures { map caught_at result.now ≡ lines_of_place line (map caught_at lines.now) }
{
    if line == 0 {
        return &lines[..0];
    }
    place_lines(lines)
}

/// A copy of what was caught, if something was.
fn copied(alloc: Global, caught: Option<Piece<'_>>) -> Result<Option<String>, AllocError>
    ensures { IfOk result (λ copy. option_map string_bytes copy
        ≡ option_map (λ cut. cut.text) (option_map cut_told caught.entry)) }
{
    match caught {
        Some(piece) => Ok(Some(String::from_str(alloc, piece.text)?)),
        None => Ok(None),
    }
}

/// Where a diagnostic begins in its line.
fn begin_of(entry: &Entry, lines: &[Caught<'_>]) -> Begin
    ensures { result ≡ begin_by entry.now.first_column (map caught_at lines.now) }
{
    match last_number(lines, Group::Column) {
        Some(number) => match from_one(entry.first_column, number) {
            Some(column) => Begin::Column(column),
            None => Begin::Line,
        },
        None => Begin::Marked,
    }
}

/// A column from 1, by its number, where the first one has another. One below the first is none.
fn from_one(first: u32, number: u32) -> Option<usize>
    ensures { result ≡ column_from_one first number }
{
    let behind = number.checked_sub(first)?;
    Some(behind as usize + 1)
}

/// Where a diagnostic ends that stands in a line, if that is told.
#[tactic(auto, unfolding(crate::specs::MatchedDiagnostics::end_by))]
fn end_of(entry: &Entry, line: u32, lines: &[Caught<'_>]) -> Option<End>
    ensures { result ≡ end_by entry.now line (map caught_at lines.now) }
{
    let last_line = last_number(lines, Group::EndLine);
    match last_number(lines, Group::EndColumn) {
        Some(number) => Some(End {
            line: last_line.unwrap_or(line) as usize,
            column: Some(behind(entry, number)),
        }),
        None => Some(End {
            line: last_line? as usize,
            column: None,
        }),
    }
}

/// The column from 1 in front of which a diagnostic ends, by the number of the entry's.
fn behind(entry: &Entry, number: u32) -> usize
    ensures { result ≡ end_column entry.now number }
{
    let last = if entry.ends_at_last { 2 } else { 1 };
    let column = number as usize + last;
    column.saturating_sub(entry.first_column as usize).max(1)
}
