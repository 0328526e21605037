//! The characters of a line that columns mean. Columns count from 0 here.

ghost use Rattle.std.specs.Prelude.{◌≡◌, ◌≤◌, length};
ghost use Rattle.ariadne_matchers.specs.Measures.{passed_from, width_from, width_of};

use crate::measure::{Measure, Unit};
use ariadne_parse::unit::columns_of;

/// How many columns a character takes that stands behind `at` columns of its line.
fn width(measure: Measure, at: usize, c: char) -> usize
    ensures { result ≡ width_of measure at c }
{
    if c == '\t' {
        return measure.tabs - at % measure.tabs;
    }
    match measure.unit {
        Unit::Characters => 1,
        Unit::Bytes => c.len_utf8(),
        Unit::Utf16 => c.len_utf16(),
        Unit::Display => columns_of(ariadne_parse::Unit::Display, 0, c),
    }
}

/// How many columns are passed behind a text, in front of which so many are. A number past the greatest is that.
pub(crate) fn columns_behind(measure: Measure, front: usize, text: &[char]) -> usize
    ensures { result ≡ width_from measure front text.now }
{
    let mut at = front;
    for c in text {
        at = at.saturating_add(width(measure, at, *c));
    }
    at
}

/// How many characters of a line end at most `column` columns behind its start.
pub(crate) fn characters_before(measure: Measure, line: &[char], column: usize) -> usize
    ensures passed { result ≡ passed_from measure column 0 line.now }
    ensures bound { result ≤ length line.now }
{
    let mut at = 0;
    for (place, c) in line.iter().enumerate() {
        let columns = width(measure, at, *c);
        if columns > column - at {
            return place;
        }
        at += columns;
    }
    line.len()
}
