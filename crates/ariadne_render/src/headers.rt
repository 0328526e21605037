//! The header of a picture, and the rows round the lines of a group.

ghost use Rattle.std.specs.Prelude.{◌≡◌, ◌+◌, ◌++◌, ◌∷◌, [], OnOk, codes};
ghost use Rattle.std.specs.Option.{option_copied};
ghost use Rattle.ariadne_picture.specs.Canvas.{code_text, header_pieces};
ghost use Rattle.ariadne_picture.specs.Pieces.{group_header_pieces};
ghost use Rattle.ariadne_picture.specs.Pieces.{painted_text, spacer_pieces, spaces, tail_pieces};
ghost use Rattle.ariadne_layout.specs.Snippets.{location_numbers, sheet_in};
ghost use Rattle.ariadne_render.specs.Pages.{Adds, Draws, DrawsRow};

use crate::pen::Pen;
use ariadne_base::SourceText;
use ariadne_layout::snippet::Snippet;
use ariadne_picture::cell::{Glyph, Paint};
use ariadne_picture::texts::Texts;
use std::alloc::AllocError;

/// The paint of the strokes round the lines of a group.
const FRAME: Paint = Paint::Margin;

/// Writes the header of a picture with these texts.
///
/// ```text
///     [3] Error: can't compare apples with oranges
/// ```
pub fn push_header(pen: &mut Pen<'_>, texts: &Texts<'_>) -> Result<(), AllocError>
    ensures { OnOk result (DrawsRow pen.old pen.new (header_pieces texts.now)) }
{
    push_kind(pen, texts.code, texts.kind)?;
    pen.push_char(' ')?;
    pen.push_text(texts.message.unwrap_or(""))?;
    pen.end_row()
}

/// Writes the word of a report's kind in its colour, behind the report's code.
fn push_kind(pen: &mut Pen<'_>, code: Option<&str>, kind: &str) -> Result<(), AllocError>
    ensures { let text = code_text (option_copied code.entry) ++ kind.now ++ codes ":" in
        OnOk result (Draws pen.old pen.new (painted_text Paint.Kind text ∷ [])) }
{
    pen.push_opening(Paint::Kind)?;
    push_code(pen, code)?;
    pen.push_text(kind)?;
    pen.push_char(':')?;
    pen.push_closing(Paint::Kind)
}

/// Writes a report's code in brackets, if it has one.
fn push_code(pen: &mut Pen<'_>, code: Option<&str>) -> Result<(), AllocError>
    ensures { OnOk result (Adds pen.old pen.new (code_text (option_copied code.entry))) }
{
    match code {
        Some(code) => {
            pen.push_char('[')?;
            pen.push_text(code)?;
            pen.push_text("] ")
        }
        None => Ok(()),
    }
}

/// Writes the header of a snippet: the name of its source, and the numbers of a line and a column as
/// they are printed, if the location is known.
///
/// ```text
///        ,-[ <unknown>:1:1 ]
/// ```
pub fn push_group_header<I: SourceText>(
    pen: &mut Pen<'_>,
    snippet: &Snippet<'_, I>,
) -> Result<(), AllocError>
    requires switches { (sheet_in snippet.now).switches ≡ pen.old.page.switches }
    ensures { let pieces = group_header_pieces snippet.now.section pen.old.page.number_width in
        OnOk result (DrawsRow pen.old pen.new pieces) }
{
    let is_first = snippet.is_first();
    let corner = if is_first { Glyph::Ltop } else { Glyph::Lcross };
    push_indent(pen)?;
    pen.push_stroke(corner, FRAME)?;
    pen.push_stroke(Glyph::Hbar, FRAME)?;
    pen.push_stroke(Glyph::Lbox, FRAME)?;
    push_location(pen, snippet.name(), snippet.location())?;
    pen.push_stroke(Glyph::Rbox, FRAME)?;
    pen.end_row()
}

/// Writes the name of a source and a location in it, between blanks.
fn push_location(
    pen: &mut Pen<'_>,
    name: &str,
    location: Option<(usize, usize)>,
) -> Result<(), AllocError>
    ensures { let numbers = location_numbers location in
        OnOk result (Adds pen.old pen.new
        (codes " " ++ name.now ++ codes ":" ++ numbers ++ codes " ")) }
{
    pen.push_char(' ')?;
    pen.push_text(name)?;
    pen.push_char(':')?;
    push_numbers(pen, location)?;
    pen.push_char(' ')
}

/// Writes the numbers of a line and a column, if they are known.
#[tactic(auto, unfolding(ariadne_layout::specs::Snippets::location_numbers))]
fn push_numbers(pen: &mut Pen<'_>, location: Option<(usize, usize)>) -> Result<(), AllocError>
    ensures { OnOk result (Adds pen.old pen.new (location_numbers location)) }
{
    match location {
        Some((line, column)) => {
            pen.push_number(line)?;
            pen.push_char(':')?;
            pen.push_number(column)
        }
        None => pen.push_text("?:?"),
    }
}

/// Writes the row below the header of a group.
///
/// ```text
///        |
/// ```
pub fn push_spacer(pen: &mut Pen<'_>) -> Result<(), AllocError>
    ensures { let page = pen.old.page in
        OnOk result (DrawsRow pen.old pen.new
        (spacer_pieces page.switches.char_set page.number_width)) }
{
    push_indent(pen)?;
    pen.push_stroke(Glyph::Vbar, FRAME)?;
    pen.end_row()
}

/// Writes the row below the lines of a group.
///
/// ```text
///        |       before another group
///     ---'       below the last one
/// ```
pub fn push_tail(pen: &mut Pen<'_>, is_last: bool) -> Result<(), AllocError>
    ensures { let page = pen.old.page in
        OnOk result (DrawsRow pen.old pen.new
        (tail_pieces page.switches.char_set page.number_width is_last)) }
{
    if !is_last {
        return push_spacer(pen);
    }
    let set = pen.page().switches().char_set;
    let width = pen.page().number_width();
    let bar = Glyph::Hbar.to_char(set);
    pen.push_opening(FRAME)?;
    pen.push_repeated(bar, width)?;
    pen.push_char(bar)?;
    pen.push_char(bar)?;
    pen.push_char(Glyph::Rbot.to_char(set))?;
    pen.push_closing(FRAME)?;
    pen.end_row()
}

/// Writes the blanks in front of the strokes round the lines of a group.
fn push_indent(pen: &mut Pen<'_>) -> Result<(), AllocError>
    ensures { OnOk result (Adds pen.old pen.new (spaces (pen.old.page.number_width + 2))) }
{
    let width = pen.page().number_width();
    pen.push_spaces(width)?;
    pen.push_text("  ")
}
