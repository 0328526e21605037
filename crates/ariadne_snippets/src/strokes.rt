//! The strokes that rustc draws beside lines, for ranges over several of them.
//!
//! ```text
//! 2 |       let x = if c {
//!   |  _____________-            a range begins here
//! 3 | |         1
//! 4 | |     };
//!   | |_____- not the same     and ends here
//!
//! 6 | /     match x {          another begins where the line does
//!
//! 7 | ||     }("a");
//!   | ||_____^____-            two end at the marks to which the stroke leads
//!   |  |_____|                 whose other stroke this is
//!
//! 9 | |         3].iter() + 1;
//!   | |                 - ^ -
//!   | |_________________|      another ends at the mark above
//! ```

use crate::runs::is_mark;

/// What the strokes that lead to marks say of them.
#[derive(Clone, Copy)]
pub(crate) enum Stroke {
    /// There is none.
    Absent,
    /// Ranges over lines begin at the marks.
    Begins,
    /// They end there.
    Ends,
}

/// The stroke in front of the first mark of a row.
pub(crate) fn stroke_of(row: &str) -> Stroke {
    match row.split_once('_') {
        Some((front, _)) if has_mark(front) => Stroke::Absent,
        Some((front, _)) if front.ends_with('|') => Stroke::Ends,
        Some(_) => Stroke::Begins,
        None => Stroke::Absent,
    }
}

/// Whether a range begins at the mark above the last bar of a row of strokes, behind what the strokes of the
/// marks themselves say.
pub(crate) fn opens(of_marks: Stroke, row: &str) -> bool {
    match of_marks {
        Stroke::Begins => true,
        Stroke::Absent => stroke_of(row) == Stroke::Begins,
        Stroke::Ends => false,
    }
}

/// To how many marks of a row a stroke leads: it goes on behind each but the last.
pub(crate) fn marks_joined(row: &str) -> usize {
    row.as_bytes()
        .windows(2)
        .filter(|pair| pair[0] == b'_' && is_mark(pair[1]))
        .count()
}

/// Whether a text has a mark.
fn has_mark(text: &str) -> bool {
    text.as_bytes().iter().any(|b| *b != b' ' && *b != b'|')
}

/// How many characters of a text stand up to the next stroke behind these, if blanks lead to one.
pub(crate) fn behind_stroke(text: &str, strokes: usize) -> Option<usize> {
    let rest = text.get(strokes..)?;
    let at_stroke = rest.trim_start_matches(' ');
    if at_stroke.starts_with('|') || at_stroke.starts_with('/') {
        Some(text.len() - at_stroke.len() + 1)
    } else {
        None
    }
}

/// Whether the last of these strokes in front of a text is one at which a range begins.
pub(crate) fn is_corner(text: &str, strokes: usize) -> bool {
    match text.get(..strokes) {
        Some(front) => front.ends_with('/'),
        None => false,
    }
}

/// The column of the text behind these strokes and blanks.
pub(crate) fn text_column(text: &str, strokes: usize) -> usize {
    match text.get(strokes..) {
        Some(rest) => text.len() - rest.trim_start_matches(' ').len(),
        None => strokes,
    }
}
