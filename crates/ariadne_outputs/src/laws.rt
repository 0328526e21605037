//! Laws of lines that pass. Each is the contract of a function that does nothing.

ghost use Rattle.std.specs.Prelude.{◌≡◌, ℕ, Bool, List, false, true};
ghost use Rattle.std.specs.List.{flat_map};
ghost use Rattle.ariadne_outputs.specs.Passing.{hides_nothing, passing_text, piece_text, pieces_of};
ghost use Rattle.ariadne_outputs.specs.Terminal.{plain, terminal_behind};

/// Whatever a line has, a terminal is behind it as it was before: it reads text, its letters are painted by
/// nothing, and it has obeyed nothing but tabs and sequences that only paint letters.
pub fn a_line_leaves_a_terminal_as_it_was()
    ensures { (colors : Bool) (line : List ℕ)
        → terminal_behind plain (passing_text colors line) ≡ plain }
{}

/// Without colours nothing that is hidden is sent, but tabs: no escape character, and no other control.
pub fn without_colors_nothing_is_hidden()
    ensures { (line : List ℕ) → hides_nothing (passing_text false line) ≡ true }
{}

/// The pieces that a line is cut into are the line.
pub fn pieces_make_up_the_line()
    ensures { (colors : Bool) (line : List ℕ) → flat_map piece_text (pieces_of colors line) ≡ line }
{}

/// A line in which nothing is hidden but tabs passes as it is.
pub fn what_hides_nothing_stays()
    ensures { (colors : Bool) (line : List ℕ) → hides_nothing line ≡ true
        → passing_text colors line ≡ line }
{}
