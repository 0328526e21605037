//! Marks that say more once the lines around them are known.

ghost use Rattle.std.specs.Prelude.{◌≡◌, ◌<◌, length, true, All, List};
ghost use Rattle.std.specs.List.{AllZip};
ghost use Rattle.ariadne_snippets.specs.Snippets.{Covers, IsBefore, IsMarkOf};
ghost use Rattle.ariadne_snippets.specs.declared.quoted.Quoted.{Quoted};
ghost use Rattle.ariadne_snippets.specs.declared.run.Run.{Run};

use crate::taken::{Mark, Point};

/// Marks, of which one begins at another point: where that stands in front of it.
pub(crate) fn begun_at<'a>(mut marks: Vec<Mark<'a>>, place: usize, start: Point) -> Vec<Mark<'a>>
    ensures marks { (quoted : Quoted) (runs : List Run) → AllZip (IsMarkOf quoted) runs marks.entry.items
        → AllZip (IsMarkOf quoted) runs result.items }
    ensures cover { (quoted : Quoted) → All (Covers quoted) marks.entry.items
        → All (Covers quoted) result.items }
{
    if place < marks.len() && is_before(start, marks[place].start) {
        marks[place].start = start;
    }
    marks
}

/// Whether a point stands in front of another.
fn is_before(point: Point, other: Point) -> bool
    ensures { result ≡ true → IsBefore point other }
{
    point.line < other.line || point.line == other.line && point.offset < other.offset
}

/// Marks, of which the first goes on with a range above it, or doesn't.
pub(crate) fn going_on<'a>(mut marks: Vec<Mark<'a>>, goes_on: bool) -> Vec<Mark<'a>>
    ensures marks { (quoted : Quoted) (runs : List Run) → AllZip (IsMarkOf quoted) runs marks.entry.items
        → AllZip (IsMarkOf quoted) runs result.items }
    ensures cover { (quoted : Quoted) → All (Covers quoted) marks.entry.items
        → All (Covers quoted) result.items }
{
    if !marks.is_empty() {
        marks[0].goes_on = goes_on;
    }
    marks
}
