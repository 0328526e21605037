//! The line with much white space at its end that is remembered: a group that shows it again
//! doesn't look through that white space again.

ghost use Rattle.std.specs.Prelude.{◌≡◌, ℕ, List, IfSome};
ghost use Rattle.ariadne_base.specs.Locations.{line_text};
ghost use Rattle.ariadne_layout.specs.Ends.{shown_bytes};
ghost use Rattle.ariadne_render.specs.LongLines.{IsRemembered};

use ariadne_layout::layout::LineLayout;

/// A line is remembered if it ends in so many characters that aren't shown.
const MUCH: usize = 64;

/// A line of a source, and how many of its bytes are shown.
#[derive(Clone, Copy, Drop)]
pub struct LongLine {
    /// The line, from 0.
    pub line: usize,
    /// The bytes in front of the white space at its end.
    pub shown: usize,
}

/// How many bytes of a line are shown, where that is remembered.
pub(crate) fn known_bytes(long: Option<LongLine>, line: usize) -> Option<usize>
    ensures { (lines : List (List ℕ)) → IsRemembered lines long →
        IfSome result (λ n. n ≡ shown_bytes (line_text lines line)) }
{
    match long {
        Some(long) if long.line == line => Some(long.shown),
        _ => None,
    }
}

/// Remembers a line in place of another, if much white space stands at its end.
pub(crate) fn remember(long: &mut Option<LongLine>, line: usize, layout: &LineLayout<'_>)
    ensures { (lines : List (List ℕ)) → layout.now.text ≡ line_text lines line →
        IsRemembered lines long.old → IsRemembered lines long.new }
{
    if layout.len().saturating_sub(layout.shown_len()) >= MUCH {
        let shown = layout.shown().len();
        *long = Some(LongLine { line, shown });
    }
}
