//! The rows below a quoted line: marks, bars and texts.

ghost use Rattle.std.specs.Prelude.{◌≡◌, ◌+◌, ◌++◌, ◌^◌, ◌<◌, ◌≤◌, ◌==◌, ◌||◌, drop, length, take};
ghost use Rattle.std.specs.Prelude.{All, IfOk, IfSome, List, OnOk, ℕ};
ghost use Rattle.std.specs.List.{list_all, list_any, prefix_len};
ghost use Rattle.ariadne_snippets.specs.Marks.{is_mark as is_of_mark};
ghost use Rattle.ariadne_snippets.specs.RowPieces.{IsIn};
ghost use Rattle.ariadne_snippets.specs.Rows.{is_bar_row, is_blank_row, is_dash_row, is_mark_row};
ghost use Rattle.ariadne_snippets.specs.Rows.{is_gap as is_of_gap, is_of_marks as is_marks_or_gap};
ghost use Rattle.ariadne_snippets.specs.Rows.{column_behind, marks_length as length_of_marks, run_with};
ghost use Rattle.ariadne_snippets.specs.Snippets.{ArePiecesIn, IsPartOf};

use crate::pieces::past_blanks;
use crate::run::Run;
use crate::runs::is_mark;
use ariadne_parse::Unit;
use ariadne_parse::unit::columns_of;
use std::alloc::{AllocError, Global};

/// What parts texts of a row.
const GAP: &str = "  ";

/// How long a row is less than.
pub(crate) const ROW_LENGTH: usize = 1 << 59;

/// A text in a row.
#[derive(Clone, Copy)]
pub(crate) struct Piece<'a> {
    /// The column that it begins in, from 0.
    pub(crate) column: usize,
    /// The text, without the blanks at its ends.
    pub(crate) text: &'a str,
}

/// A part of a row: marks, and what is written behind them.
#[derive(Clone, Copy)]
pub(crate) struct Part<'a> {
    /// The column that it begins in, from 0.
    pub(crate) column: usize,
    /// The marks, with the strokes between them.
    pub(crate) marks: &'a str,
    /// What is written behind them.
    pub(crate) text: &'a str,
}

/// Whether a row has nothing but blanks.
pub(crate) fn is_blank(row: &str) -> bool
    ensures { result ≡ is_blank_row row.now }
{
    row.as_bytes().iter().all(|b| is_gap(*b))
}

/// Whether a row has nothing but blanks and bars.
pub(crate) fn is_bars(row: &str) -> bool
    ensures { result ≡ is_bar_row row.now }
{
    row.as_bytes().iter().all(|b| is_gap(*b) || *b == b'|')
}

/// Whether a row has nothing but blanks and `-`.
pub(crate) fn is_dashes(row: &str) -> bool
    ensures { result ≡ is_dash_row row.now }
{
    row.as_bytes().iter().all(|b| is_gap(*b) || *b == b'-')
}

/// Whether a row has nothing but marks, blanks and bars, and one mark at least.
pub(crate) fn is_marks(row: &str) -> bool
    ensures { result ≡ is_mark_row row.now }
{
    has_mark(row) && is_all_of_marks(row)
}

/// Whether a row has nothing but marks, blanks and bars.
fn is_all_of_marks(row: &str) -> bool
    ensures { result ≡ list_all is_marks_or_gap row.now }
{
    row.as_bytes().iter().all(|b| is_of_marks(*b))
}

/// Whether a row has nothing but strokes, blanks and bars, and one stroke at least.
pub(crate) fn is_strokes(row: &str) -> bool {
    let row = row.as_bytes();
    row.contains(&b'_') && row.iter().all(|b| is_gap(*b) || *b == b'|' || *b == b'_')
}

/// Whether a row has a mark.
pub(crate) fn has_mark(row: &str) -> bool
    ensures { result ≡ list_any is_of_mark row.now }
{
    row.as_bytes().iter().any(|b| is_mark(*b))
}

/// Whether a row has a `^`.
pub(crate) fn has_caret(row: &str) -> bool
    ensures { result ≡ list_any (λ c. c == 94) row.now }
{
    row.as_bytes().iter().any(|b| *b == b'^')
}

/// The bytes of a row that is not so long that the machine couldn't count its columns.
pub(crate) fn row_bytes(row: &str) -> Option<&[u8]>
    ensures row { IfSome result (λ bytes. bytes.now ≡ row.now) }
    ensures bound { IfSome result (λ bytes. length bytes.now < 2 ^ 59) }
{
    let bytes = row.as_bytes();
    if bytes.len() < ROW_LENGTH {
        Some(bytes)
    } else {
        None
    }
}

/// A row's marks, with the strokes between them, and what is written behind them.
pub(crate) fn marks_and_text(row: &str) -> (&str, &str)
    ensures marks { result.0.now ≡ take (length_of_marks row.now) row.now }
    ensures text { IsIn result.1.now row.now }
{
    let length = marks_length(row.as_bytes());
    (&row[..length], row[length..].trim_end())
}

/// How many bytes of a row are marks, or stand between them or lead to them.
fn marks_length(row: &[u8]) -> usize
    ensures { result ≡ length_of_marks row.now }
{
    row.iter()
        .take_while(|b| is_of_marks(**b) || **b == b'_')
        .count()
}

/// Whether a byte is a mark, or stands between marks.
fn is_of_marks(byte: u8) -> bool
    ensures { result ≡ is_marks_or_gap byte }
{
    is_mark(byte) || is_gap(byte) || byte == b'|'
}

/// Whether a byte is a blank.
fn is_gap(byte: u8) -> bool
    ensures { result ≡ is_of_gap byte }
{
    byte == b' ' || byte == b'\t'
}

/// The parts of a row of marks that begins in a column. Where a text is written behind marks, the next part
/// begins with the marks behind it. rustc gives each character of a text one column.
pub(crate) fn parts_of<'a>(
    alloc: Global,
    start: usize,
    row: &'a str,
) -> Result<Vec<Part<'a>>, AllocError>
    ensures { IfOk result (λ parts. All (IsPartOf start row.now) parts.items) }
{
    let mut parts = Vec::new(alloc);
    let mut column = start;
    let mut rest = row;
    while !rest.is_empty() {
        let (part, behind) = cut_at_marks(rest);
        let (marks, text) = marks_and_text(part);
        parts.push(Part {
            column,
            marks,
            text,
        })?;
        column = behind_text(Unit::Char, column, part);
        rest = behind;
    }
    Ok(parts)
}

/// A row up to the marks that stand behind its first text, and from these on.
fn cut_at_marks(row: &str) -> (&str, &str)
    ensures whole { row.now ≡ result.0.now ++ result.1.now }
    ensures less { 0 < length row.now → length result.1.now < length row.now }
{
    match row.split_at_checked(next_marks(row.as_bytes())) {
        Some((part, behind)) => (part, behind),
        None => (row, ""),
    }
}

/// Where marks stand behind the first text of a row: at its end, if none do.
fn next_marks(row: &[u8]) -> usize
    ensures { 0 < length row.now → 0 < result }
{
    let text = marks_length(row);
    for at in text.saturating_add(1)..row.len() {
        if are_marks_at(row, at) {
            return at;
        }
    }
    row.len()
}

/// Whether marks stand at a byte of a row, which are not of a text: behind two blanks, with a blank or the
/// end behind them.
fn are_marks_at(row: &[u8], at: usize) -> bool
    requires { at ≤ length row.now }
{
    row[..at].ends_with(GAP.as_bytes()) && begins_with_run(&row[at..])
}

/// Whether bytes begin with marks, behind which a blank or the end stands.
fn begins_with_run(bytes: &[u8]) -> bool {
    let marks = bytes.iter().take_while(|b| is_mark(**b)).count();
    marks > 0 && matches!(bytes.get(marks), None | Some(b' '))
}

/// The columns of the bars of a row that stand below one of these runs.
pub(crate) fn bars_below(
    alloc: Global,
    unit: Unit,
    row: &str,
    runs: &[Run],
) -> Result<Vec<usize>, AllocError> {
    let mut bars = Vec::new(alloc);
    let mut column = 0usize;
    for c in row.chars() {
        if c == '|' && run_at(runs, column).is_some() {
            bars.push(column)?;
        }
        column = column.saturating_add(columns_of(unit, column, c));
    }
    Ok(bars)
}

/// The number of the first run that has a column.
pub(crate) fn run_at(runs: &[Run], column: usize) -> Option<usize>
    ensures { result ≡ run_with runs.now column }
{
    runs.iter()
        .position(|run| run.start <= column && column < run.end)
}

/// The texts of a row that begin in these columns, which go up, if it has no other. Bars may stand in
/// front of the first.
pub(crate) fn pieces_at<'a>(
    alloc: Global,
    unit: Unit,
    row: &'a str,
    columns: &[usize],
) -> Result<Option<Vec<Piece<'a>>>, AllocError>
    ensures { IfOk result (λ pieces. IfSome pieces (λ pieces. ArePiecesIn row.now pieces.items)) }
{
    let mut pieces = Vec::new(alloc);
    let mut front = row;
    for column in columns.iter().rev() {
        let (before, text) = cut_at(unit, front, *column);
        if text.is_empty() || text.starts_with(' ') || text.starts_with("| ") {
            return Ok(None);
        }
        pieces.push(Piece {
            column: *column,
            text,
        })?;
        front = before;
    }
    if pieces.is_empty() || !is_bars(front) {
        return Ok(None);
    }
    pieces.reverse();
    Ok(Some(pieces))
}

/// What stands in front of a column of a row, and from it on without the blanks at its end.
fn cut_at(unit: Unit, row: &str, column: usize) -> (&str, &str)
    ensures front { IsIn result.0.now row.now }
    ensures text { IsIn result.1.now row.now }
{
    match row.split_at_checked(byte_at(unit, row, column)) {
        Some((front, text)) => (front, text.trim_end()),
        None => (row, ""),
    }
}

/// Where the character begins that stands in a column of a row, in bytes: the row's end, where it is
/// shorter.
fn byte_at(unit: Unit, row: &str, column: usize) -> usize {
    let mut at = 0usize;
    for (place, c) in row.char_indices() {
        if at >= column {
            return place;
        }
        at = at.saturating_add(columns_of(unit, at, c));
    }
    row.len()
}

/// The text of a row behind the blanks and bars that it begins with.
pub(crate) fn text_behind_bars(unit: Unit, row: &str) -> Piece<'_>
    ensures { IsIn result.text.now row.now }
{
    let length = bars_length(row.as_bytes());
    Piece {
        column: behind_text(unit, 0, &row[..length]),
        text: row[length..].trim_end(),
    }
}

/// How many blanks and bars a row begins with.
fn bars_length(row: &[u8]) -> usize
    ensures { result ≡ prefix_len (λ c. is_of_gap c || c == 124) row.now }
{
    row.iter()
        .take_while(|b| is_gap(**b) || **b == b'|')
        .count()
}

/// The column of the bar that a row ends in, if it does.
pub(crate) fn bar_column(unit: Unit, row: &str) -> Option<usize> {
    let front = row.trim_end().strip_suffix('|')?;
    Some(behind_text(unit, 0, front))
}

/// The texts of a row that begins in a column, which two blanks at least part from each other.
pub(crate) fn pieces<'a>(
    alloc: Global,
    unit: Unit,
    start: usize,
    row: &'a str,
) -> Result<Vec<Piece<'a>>, AllocError>
    ensures { IfOk result (λ pieces. ArePiecesIn row.now pieces.items) }
{
    let mut pieces = Vec::new(alloc);
    let mut column = start;
    let mut rest = row;
    while let Some((part, behind)) = rest.split_once(GAP) {
        push_piece(&mut pieces, part, column)?;
        column = behind_text(unit, column, part).saturating_add(GAP.len());
        rest = behind;
    }
    push_piece(&mut pieces, rest, column)?;
    Ok(pieces)
}

/// Adds the text of a part of a row that begins in a column, if it is more than blanks.
fn push_piece<'a>(
    pieces: &mut Vec<Piece<'a>>,
    part: &'a str,
    column: usize,
) -> Result<(), AllocError>
    ensures { OnOk result ((row : List ℕ) → IsIn part.now row → ArePiecesIn row pieces.old.items
        → ArePiecesIn row pieces.new.items) }
{
    let text = past_blanks(part);
    if text.is_empty() {
        return Ok(());
    }
    let blanks = part.len().saturating_sub(text.len());
    pieces.push(Piece {
        column: column.saturating_add(blanks),
        text: text.trim_end(),
    })?;
    Ok(())
}

/// The column behind a text that begins in one.
fn behind_text(unit: Unit, column: usize, text: &str) -> usize
    ensures { result ≡ column_behind unit column text.now }
{
    let mut at = column;
    for c in text.chars() {
        at = at.saturating_add(columns_of(unit, at, c));
    }
    at
}
