//! The margins of rows: what stands left of the gutter.

ghost use Rattle.std.specs.Prelude.{◌≡◌, ◌+◌, ◌<◌, ◌^◌, ◌++◌, [], ◌∷◌, IfOk, OnOk};
ghost use Rattle.std.specs.Prelude.{if◌then◌else◌};
ghost use Rattle.std.specs.Prelude.{string_bytes};
ghost use Rattle.ariadne_picture.specs.Pieces.{margin_pieces};
ghost use Rattle.ariadne_picture.specs.Print.{pieces_bytes};
ghost use Rattle.ariadne_picture.specs.Rows.{bare, gap, source};

use crate::page::Page;
use crate::palette::Palette;
use crate::runs::push_spaces;
use ariadne_color::color::{push_closing, push_opening};
use ariadne_picture::cell::{Glyph, Paint};
use ariadne_picture::switches::Switches;
use std::alloc::{AllocError, Global};

/// The margin of a row without a number below a line, where line numbers take `width` columns.
///
/// ```text
///         |       below a line
/// ```
pub(crate) fn margin_text(
    alloc: Global,
    palette: &Palette,
    switches: &Switches,
    width: usize,
) -> Result<String, AllocError>
    ensures { let margin = margin_pieces switches.now width 0 (bare 0) in
        IfOk result (λ text. string_bytes text ≡ pieces_bytes palette.now margin) }
{
    let mut text = String::new(alloc);
    push_bar_margin(&mut text, palette, switches, width, Glyph::Vbar)?;
    Ok(text)
}

/// Appends the margin of a row without a number, with this bar, where line numbers take `width`
/// columns.
///
/// ```text
///         |       below a line
///         :       in place of hidden lines, inside a label
/// ```
pub(crate) fn push_bar_margin(
    out: &mut String,
    palette: &Palette,
    switches: &Switches,
    width: usize,
    bar: Glyph,
) -> Result<(), AllocError>
    ensures bar { let margin = margin_pieces switches.now width 0 (bare 0) in
        let written = pieces_bytes palette.now margin in
        bar ≡ Glyph.Vbar → OnOk result (string_bytes out.new ≡ string_bytes out.old ++ written) }
    ensures gap { let margin = margin_pieces switches.now width 0 (gap 0) in
        let written = pieces_bytes palette.now margin in bar ≡ Glyph.VbarGap →
        OnOk result (string_bytes out.new ≡ string_bytes out.old ++ written) }
{
    let color = palette.color_of(Paint::SkippedMargin);
    out.push(' ')?;
    push_opening(out, color)?;
    push_spaces(out, width)?;
    out.push(' ')?;
    out.push(bar.to_char(switches.char_set))?;
    push_closing(out, color)?;
    push_margin_end(out, switches)
}

/// Appends the margin of the source row of a line, whose number is printed with this offset.
///
/// ```text
///       9 |
///      10 |
/// ```
pub(crate) fn push_line_margin(
    out: &mut String,
    page: &Page,
    display_offset: usize,
    line: usize,
) -> Result<(), AllocError>
    requires fits { line + 1 + display_offset < 2 ^ 64 }
    ensures { let page = page.now in
        let margin = margin_pieces page.switches page.number_width display_offset (source line) in
        let written = pieces_bytes page.palette margin in
        OnOk result (string_bytes out.new ≡ string_bytes out.old ++ written) }
{
    let number = line + 1 + display_offset;
    let color = page.color_of(Paint::Margin);
    let switches = page.switches();
    let mut buffer = itoa::Buffer::new();
    let digits = buffer.format(number);
    out.push(' ')?;
    push_opening(out, color)?;
    push_spaces(out, page.number_width().saturating_sub(digits.len()))?;
    out.push_str(digits)?;
    out.push(' ')?;
    out.push(Glyph::Vbar.to_char(switches.char_set))?;
    push_closing(out, color)?;
    push_margin_end(out, switches)
}

/// Appends the blank behind a margin; compact pictures have none.
fn push_margin_end(out: &mut String, switches: &Switches) -> Result<(), AllocError>
    ensures { let written = (if switches.now.compact then [] else 32 ∷ []) in
        OnOk result (string_bytes out.new ≡ string_bytes out.old ++ written) }
{
    if switches.compact {
        Ok(())
    } else {
        out.push(' ')
    }
}
