//! What all rows of a picture share.

ghost use Rattle.std.specs.Prelude.{◌≡◌, ◌≤◌, IfOk};
ghost use Rattle.ariadne_picture.specs.Canvas.{color_of};

use crate::margin::margin_text;
use crate::palette::Palette;
use ariadne_color::Color;
use ariadne_picture::cell::Paint;
use ariadne_picture::switches::Switches;
use std::alloc::{AllocError, Global};
use std::marker::Model;

/// What all rows of a picture share: its colours, its switches, and the margin of the rows below a
/// line, which is made once.
#[derive(Drop)]
pub struct Page {
    pub(crate) palette: Palette,
    switches: Switches,
    number_width: usize,
    pub(crate) bar_margin: String,
}

impl Model for Page {
    ghost use Rattle.std.specs.Prelude.{◌≡◌, ◌≤◌, string_bytes};
    ghost use Rattle.ariadne_render.specs.Pages.{PageFields};
    ghost use Rattle.ariadne_picture.specs.Pieces.{margin_pieces};
    ghost use Rattle.ariadne_picture.specs.Print.{pieces_bytes};
    ghost use Rattle.ariadne_picture.specs.Rows.{bare};

    ghost Value = { PageFields };

    ghost view = { λ a. record {
      palette = a.palette;
      switches = a.switches;
      number_width = a.number_width;
    } };

    ghost invariant = { λ a. (1 ≤ a.switches.tab_width)
        × (string_bytes a.bar_margin
        ≡ pieces_bytes a.palette (margin_pieces a.switches a.number_width 0 (bare 0))) };
}

impl Page {
    /// The page of a picture whose line numbers take `number_width` columns. On `Err` there was no
    /// memory for it.
    pub fn new(
        alloc: Global,
        palette: Palette,
        switches: Switches,
        number_width: usize,
    ) -> Result<Page, AllocError>
        requires tabs { 1 ≤ switches.tab_width }
        ensures { IfOk result (λ page. page
            ≡ record { palette = palette; switches = switches; number_width = number_width }) }
    {
        let bar_margin = margin_text(alloc, &palette, &switches, number_width)?;
        Ok(Page {
            palette,
            switches,
            number_width,
            bar_margin,
        })
    }

    /// Its switches.
    pub fn switches(&self) -> &Switches
        ensures switches { result.now ≡ self.now.switches }
        ensures tabs { 1 ≤ self.now.switches.tab_width }
    {
        &self.switches
    }

    /// How many columns its line numbers take.
    pub fn number_width(&self) -> usize
        ensures { result ≡ self.now.number_width }
    {
        self.number_width
    }

    /// The colour of a piece, if it has one.
    pub fn color_of(&self, paint: Paint) -> Option<Color>
        ensures { result ≡ color_of self.now.palette paint }
    {
        self.palette.color_of(paint)
    }

    /// Whether there are colours.
    pub fn is_colored(&self) -> bool
        ensures { result ≡ self.now.palette.is_on }
    {
        self.palette.is_on
    }
}
