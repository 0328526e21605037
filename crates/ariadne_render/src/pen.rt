//! The pen of a picture: pieces, strokes and runs of strokes, appended to its text.

ghost use Rattle.std.specs.Prelude.{◌≡◌, ◌+◌, ◌<◌, ◌^◌, [], ◌∷◌, OnOk, decimal, encode_utf8};
ghost use Rattle.std.specs.Prelude.{length, replicate, string_bytes};
ghost use Rattle.ariadne_color.specs.Colors.{painted};
ghost use Rattle.ariadne_color.specs.Escapes.{closed, opened};
ghost use Rattle.ariadne_picture.specs.Canvas.{color_of};
ghost use Rattle.ariadne_picture.specs.Pieces.{glyph_text, ink_pieces, margin_pieces, repeated};
ghost use Rattle.ariadne_picture.specs.Pieces.{spaces, stroke};
ghost use Rattle.ariadne_picture.specs.Rows.{bare, gap, source};
ghost use Rattle.ariadne_render.specs.Pages.{Adds, Draws};

use crate::opening::{Opening, push_painted, push_painted_char};
use crate::page::Page;
use crate::{margin, runs};
use ariadne_color::color;
use ariadne_picture::cell::{Glyph, Ink, Paint};
use std::alloc::{AllocError, Global};
use std::marker::Model;

/// The pen of a picture. What it writes is appended to the picture's text; where it returns `Err`
/// there was no memory, and the picture is lost.
#[derive(Drop)]
pub struct Pen<'a> {
    text: String,
    /// One cell of a run with its escapes, while the run is written.
    cell: String,
    opening: Opening,
    page: &'a Page,
}

impl<'a> Model for Pen<'a> {
    ghost use Rattle.std.specs.Prelude.{string_bytes};
    ghost use Rattle.ariadne_render.specs.Pages.{PenFields};

    ghost Value = { PenFields };

    ghost view = { λ a. record { page = a.page.now; bytes = string_bytes a.text } };
}

impl<'a> Pen<'a> {
    /// A pen at the start of a page.
    pub fn new(alloc: Global, page: &'a Page) -> Pen<'a>
        ensures { result ≡ record { page = page.now; bytes = [] } }
    {
        Pen {
            text: String::new(alloc),
            cell: String::new(alloc),
            opening: Opening::new(alloc),
            page,
        }
    }

    /// The page that it writes on.
    pub fn page(&self) -> &'a Page
        ensures { result.now ≡ self.now.page }
    {
        self.page
    }

    /// What it has written.
    pub fn into_text(self) -> String
        ensures { string_bytes result ≡ self.entry.bytes }
    {
        let Pen {
            text,
            cell: _cell,
            opening: _opening,
            page: _page,
        } = self;
        text
    }

    /// How many bytes it has written.
    pub fn len(&self) -> usize
        ensures len { result ≡ length self.now.bytes }
        ensures in_memory { length self.now.bytes < 2 ^ 63 }
    {
        self.text.len()
    }

    /// Makes room for `len` bytes more. What is written stays.
    pub fn reserve(&mut self, len: usize) -> Result<(), AllocError>
        ensures { OnOk result (self.new ≡ self.old) }
    {
        self.text.reserve(len)
    }

    /// Writes a text without colour.
    pub fn push_text(&mut self, text: &str) -> Result<(), AllocError>
        ensures { OnOk result (Adds self.old self.new text.now) }
    {
        self.text.push_str(text)
    }

    /// Writes a character without colour.
    pub fn push_char(&mut self, c: char) -> Result<(), AllocError>
        ensures { OnOk result (Adds self.old self.new (encode_utf8 c)) }
    {
        self.text.push(c)
    }

    /// Writes a number in decimal digits, without colour.
    pub fn push_number(&mut self, number: usize) -> Result<(), AllocError>
        ensures { OnOk result (Adds self.old self.new (decimal number)) }
    {
        let mut digits = itoa::Buffer::new();
        self.text.push_str(digits.format(number))
    }

    /// Ends a row.
    pub fn end_row(&mut self) -> Result<(), AllocError>
        ensures { OnOk result (Adds self.old self.new (10 ∷ [])) }
    {
        self.text.push('\n')
    }

    /// Writes `count` plain blanks.
    pub fn push_spaces(&mut self, count: usize) -> Result<(), AllocError>
        ensures { OnOk result (Adds self.old self.new (spaces count)) }
    {
        runs::push_spaces(&mut self.text, count)
    }

    /// Writes a character `count` times, without colour.
    pub fn push_repeated(&mut self, c: char, count: usize) -> Result<(), AllocError>
        ensures { OnOk result (Adds self.old self.new (repeated count (encode_utf8 c))) }
    {
        runs::push_repeated(&mut self.text, c, count)
    }

    /// Writes what stands before a text in the colour of a piece.
    pub fn push_opening(&mut self, paint: Paint) -> Result<(), AllocError>
        ensures { OnOk result
            (Adds self.old self.new (opened (color_of self.old.page.palette paint))) }
    {
        let page = self.page;
        self.opening.push(&mut self.text, page.color_of(paint))
    }

    /// Writes what stands behind a text in the colour of a piece.
    pub fn push_closing(&mut self, paint: Paint) -> Result<(), AllocError>
        ensures { OnOk result
            (Adds self.old self.new (closed (color_of self.old.page.palette paint))) }
    {
        let page = self.page;
        color::push_closing(&mut self.text, page.color_of(paint))
    }

    /// Writes a text in the colour of a piece.
    pub fn push_piece(&mut self, paint: Paint, text: &str) -> Result<(), AllocError>
        ensures { OnOk result
            (Adds self.old self.new (painted (color_of self.old.page.palette paint) text.now)) }
    {
        let page = self.page;
        push_painted(
            &mut self.text,
            &mut self.opening,
            page.color_of(paint),
            text,
        )
    }

    /// Writes a character in the colour of a piece.
    pub fn push_piece_char(&mut self, paint: Paint, c: char) -> Result<(), AllocError>
        ensures { OnOk result (Adds self.old self.new
            (painted (color_of self.old.page.palette paint) (encode_utf8 c))) }
    {
        let page = self.page;
        push_painted_char(&mut self.text, &mut self.opening, page.color_of(paint), c)
    }

    /// Writes one cell of a stroke.
    #[tactic(auto, unfolding(ariadne_picture::specs::Pieces::glyph_text))]
    pub fn push_stroke(&mut self, glyph: Glyph, paint: Paint) -> Result<(), AllocError>
        ensures { let set = self.old.page.switches.char_set in
            OnOk result (Adds self.old self.new
            (painted (color_of self.old.page.palette paint) (glyph_text set glyph))) }
    {
        let page = self.page;
        let c = glyph.to_char(page.switches().char_set);
        self.push_piece_char(paint, c)
    }

    /// Writes `count` cells of one stroke.
    pub fn push_run(&mut self, glyph: Glyph, paint: Paint, count: usize) -> Result<(), AllocError>
        ensures { let set = self.old.page.switches.char_set in
            OnOk result (Draws self.old self.new (replicate count (stroke set glyph paint))) }
    {
        if count == 0 {
            return Ok(());
        }
        let page = self.page;
        let color = page.color_of(paint);
        let c = glyph.to_char(page.switches().char_set);
        if color.is_none() {
            return runs::push_repeated(&mut self.text, c, count);
        }
        if count == 1 {
            return push_painted_char(&mut self.text, &mut self.opening, color, c);
        }
        self.cell.clear();
        push_painted_char(&mut self.cell, &mut self.opening, color, c)?;
        runs::push_texts(&mut self.text, &self.cell, count)
    }

    /// Writes the cells of a place of the text, or of a column of the gutter, that is `width` columns
    /// wide.
    pub fn push_ink(&mut self, ink: &Ink, width: usize) -> Result<(), AllocError>
        ensures { let set = self.old.page.switches.char_set in
            OnOk result (Draws self.old self.new (ink_pieces set ink.now width)) }
    {
        if width == 0 {
            return Ok(());
        }
        self.push_stroke(ink.first, ink.first_paint)?;
        self.push_run(ink.rest, ink.rest_paint, width - 1)
    }

    /// Writes the margin of a row without a number.
    ///
    /// ```text
    ///         |       below a line
    /// ```
    pub fn push_margin(&mut self) -> Result<(), AllocError>
        ensures { let page = self.old.page in
            OnOk result (Draws self.old self.new
            (margin_pieces page.switches page.number_width 0 (bare 0))) }
    {
        let page = self.page;
        self.text.push_str(&page.bar_margin)
    }

    /// Writes the margin of a row in place of hidden lines, inside a label.
    ///
    /// ```text
    ///         :       in place of hidden lines
    /// ```
    pub fn push_gap_margin(&mut self) -> Result<(), AllocError>
        ensures { let page = self.old.page in
            OnOk result (Draws self.old self.new
            (margin_pieces page.switches page.number_width 0 (gap 0))) }
    {
        let page = self.page;
        let switches = page.switches();
        let width = page.number_width();
        let text = &mut self.text;
        margin::push_bar_margin(text, &page.palette, switches, width, Glyph::VbarGap)
    }

    /// Writes the margin of the source row of a line, whose number is printed with this offset.
    ///
    /// ```text
    ///       9 |
    ///      10 |
    /// ```
    pub fn push_line_margin(&mut self, display_offset: usize, line: usize) -> Result<(), AllocError>
        requires fits { line + 1 + display_offset < 2 ^ 64 }
        ensures { let page = self.old.page in
            OnOk result (Draws self.old self.new
            (margin_pieces page.switches page.number_width display_offset (source line))) }
    {
        margin::push_line_margin(&mut self.text, self.page, display_offset, line)
    }
}
