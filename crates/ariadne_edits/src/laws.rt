//! Laws of rows and of lines that are cut. Each is the contract of a function that does nothing.

ghost use Rattle.std.specs.Prelude.{◌≡◌, ◌<◌, ◌≤◌, ◌+◌, ◌*◌, ◌/◌, ◌∷◌, ℕ, List, drop};
ghost use Rattle.ariadne_edits.specs.Views.{columns_in, common_len, front_shown, shown_line, usable_width};
ghost use Rattle.ariadne_edits.specs.Views.{mark_width, ShowsDifference};
ghost use Rattle.ariadne_edits.specs.SuggestionRows.{Tell, patched, restored};
ghost use Rattle.ariadne_edits.specs.declared.cut.View.{View};
ghost use Rattle.ariadne_edits.specs.declared.rows.Blanks.{Blanks};
ghost use Rattle.ariadne_edits.specs.declared.rows.Row.{Row};
ghost use Rattle.ariadne_picture.specs.Columns.{char_columns};
ghost use Rattle.ariadne_picture.specs.declared.switches.CharSet.{CharSet};

/// The source's lines with the removed ones taken out and the added ones put in are the lines of the
/// edited text.
pub fn rows_make_the_edited_lines()
    ensures { (old new : List (List ℕ)) (rows : List Row) → Tell old new rows
        → patched old new rows ≡ new }
{}

/// The kept and the removed lines are the source's.
pub fn rows_have_the_source_lines()
    ensures { (old new : List (List ℕ)) (rows : List Row) → Tell old new rows
        → restored old rows ≡ old }
{}

/// Where a width is asked for, no line takes more columns; or none takes more than two marks do, if these
/// take more than the width.
pub fn cut_lines_fit()
    ensures { (view : View) (blanks : Blanks) (line other : List ℕ) → 0 < view.width
        → columns_in (shown_line view blanks line other) ≤ usable_width view }
{}

/// In front of their first difference two lines are cut alike.
pub fn pairs_are_cut_alike()
    ensures { (set : CharSet) (n : ℕ) (text other : List ℕ)
        → front_shown set n text other ≡ front_shown set n other text }
{}

/// The first difference is shown, if half of the width has room for it and a mark.
pub fn first_differences_are_shown()
    ensures { (set : CharSet) (n : ℕ) (text other : List ℕ) (c : ℕ) (rest : List ℕ)
        → drop (common_len text other) text ≡ c ∷ rest
        → 2 * mark_width set ≤ n → char_columns c + mark_width set ≤ n / 2
        → ShowsDifference set n text other c }
{}
