//! Where a diagnostic stands in the text of its file.

ghost use Rattle.std.specs.Prelude.{◌≡◌};
ghost use Rattle.ariadne_matchers.specs.MatchedPlaces.{begin_in, character_at, end_of_marks, named_end, place_end, placed_in};

use crate::columns::characters_before;
use crate::matched::{Begin, End, Matched};
use crate::measure::Measure;
use ariadne_parse::Columns;

/// Where a diagnostic stands in the text of its file. Lines and columns count from 1, columns count characters.
#[derive(Clone, Copy)]
pub struct Placed {
    /// The line.
    pub line: usize,
    /// The column, if one is told. One past the line is its end.
    pub column: Option<usize>,
    /// The end: in front of this column, or of the whole line where none is told.
    pub end: Option<End>,
}

/// Where a diagnostic stands in the text of its file; nowhere where the text has no such line.
///
/// The line behind the last line feed counts as one. An end in a line that the text lacks is none.
#[tactic(auto, unfolding(crate::specs::MatchedPlaces::placed_in))]
pub fn place(matched: &Matched, measure: Measure, file: &Columns) -> Option<Placed>
    ensures { result ≡ placed_in matched.now measure file.now }
{
    let line = file.line(matched.line)?;
    let column = begin(matched, measure, line);
    Some(Placed {
        line: matched.line,
        column: match column {
            Some(column) => Some(character(measure, line, column)),
            None => None,
        },
        end: end(matched, measure, file, line, column),
    })
}

/// The column at which a diagnostic begins in its line, from 0, in the unit of its columns.
fn begin(matched: &Matched, measure: Measure, line: &[char]) -> Option<usize>
    ensures { result ≡ begin_in matched.now measure line.now }
{
    match matched.begin {
        Begin::Column(column) => Some(column.saturating_sub(1)),
        Begin::Marked => matched.marks.as_ref()?.column(measure, line),
        Begin::Line => None,
    }
}

/// The character of a line, from 1, at a column from 0.
fn character(measure: Measure, line: &[char], column: usize) -> usize
    ensures { result ≡ character_at measure line.now column }
{
    characters_before(measure, line, column) + 1
}

/// Where a diagnostic ends: as it is told, or behind its marks.
fn end(
    matched: &Matched,
    measure: Measure,
    file: &Columns,
    line: &[char],
    column: Option<usize>,
) -> Option<End>
    ensures { result ≡ place_end matched.now measure file.now line.now column }
{
    match matched.end {
        Some(end) => told_end(measure, file, end),
        None => marked_end(matched, measure, line, column?),
    }
}

/// An end that is told, if the text has its line.
#[tactic(auto, unfolding(crate::specs::MatchedPlaces::named_end))]
fn told_end(measure: Measure, file: &Columns, end: End) -> Option<End>
    ensures { result ≡ named_end measure file.now end }
{
    let line = file.line(end.line)?;
    Some(End {
        line: end.line,
        column: match end.column {
            Some(column) => Some(character(measure, line, column.saturating_sub(1))),
            None => None,
        },
    })
}

/// The end behind marks of a diagnostic that begins at a column, if there is more than one.
fn marked_end(matched: &Matched, measure: Measure, line: &[char], column: usize) -> Option<End>
    ensures { result ≡ end_of_marks matched.now measure line.now column }
{
    let marks = matched.marks.as_ref()?;
    if marks.count < 2 {
        return None;
    }
    let behind = column.saturating_add(marks.count);
    Some(End {
        line: matched.line,
        column: Some(character(measure, line, behind)),
    })
}
