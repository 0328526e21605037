//! The gutter of a group's rows.

ghost use Rattle.std.specs.Prelude.{◌≡◌, ◌<◌, ◌≤◌, false, [], OnOk, map};
ghost use Rattle.std.specs.Prelude.{replicate, length, slice_set};
ghost use Rattle.std.specs.Prelude.{◌+◌, ◌*◌, ◌^◌, ◌++◌, EachIndex, IsOk, slice_index};
ghost use Rattle.std.specs.Prelude.{string_bytes, string_len, vec_capacity, vec_len};
ghost use Rattle.std.specs.String.{string_capacity};
ghost use Rattle.ariadne_base.specs.Locations.{upto};
ghost use Rattle.ariadne_picture.specs.declared.cell.Glyph.TheVariants.{Vbar, VbarGap};
ghost use Rattle.ariadne_picture.specs.Cells.{margin_glyph, turn_glyph};
ghost use Rattle.ariadne_picture.specs.Pieces.{column_size, spaces};
ghost use Rattle.ariadne_render.specs.Pages.{Adds};
ghost use Rattle.ariadne_render.specs.Gutters.{AreBehind, AreKept, AreMoved, HasArrowColumn};
ghost use Rattle.ariadne_render.specs.Gutters.{HasColumn, HasMarginColumn, arrow_row_ink, bar_ink};
ghost use Rattle.ariadne_render.specs.Gutters.{bar_of, bars_ink, column_bytes, columns};
ghost use Rattle.ariadne_render.specs.Gutters.{columns_bytes, margin_row_ink, source_row_ink};
ghost use Rattle.ariadne_render.specs.Gutters.{start_of, turn_row_ink};

use crate::page::Page;
use crate::pen::Pen;
use ariadne_color::color::push_painted_char;
use ariadne_picture::cell::{Glyph, Ink, Paint};
use ariadne_picture::label_info::{LabelInfo, LineLabel, Side};
use ariadne_picture::switches::Switches;
use std::alloc::{AllocError, Global};
use std::marker::Model;

/// The gutter of a group, as its rows are written: which bars stand in the row that is written
/// next, and the cells of a row that has these bars alone.
#[derive(Drop)]
pub struct Gutter<'a> {
    page: &'a Page,
    /// The positions of the gutter labels, by column.
    positions: Vec<usize>,
    /// Whether their bars stand.
    bars: Vec<bool>,
    /// The cells of a row that has these bars alone.
    text: String,
    /// Where each column begins in it, in bytes; the last one is that of arrow heads.
    starts: Vec<usize>,
    /// The cells of one column, while they are made.
    cells: String,
}

impl<'a> Model for Gutter<'a> {
    ghost use Rattle.std.specs.Prelude.{string_bytes};
    ghost use Rattle.ariadne_render.specs.Gutters.{GutterFields, IsReady};

    ghost Value = { GutterFields };

    ghost view = { λ a. record {
      page = a.page.now;
      positions = a.positions.items;
      bars = a.bars.items;
    } };

    ghost invariant = { λ a. IsReady
        (record { page = a.page.now; positions = a.positions.items; bars = a.bars.items })
        (string_bytes a.text) a.starts.items };
}

impl<'a> Gutter<'a> {
    /// A gutter without columns.
    pub fn new(alloc: Global, page: &'a Page) -> Gutter<'a>
        ensures { result ≡ record { page = page.now; positions = []; bars = [] } }
    {
        Gutter {
            page,
            positions: Vec::new(alloc),
            bars: Vec::new(alloc),
            text: String::new(alloc),
            starts: Vec::new(alloc),
            cells: String::new(alloc),
        }
    }

    /// Begins the gutter of a group with these gutter labels, one column for each: no bar stands.
    ///
    /// On `Err` there was no memory for it, and the gutter is not to be used.
    pub fn begin(&mut self, labels: &[LabelInfo]) -> Result<(), AllocError>
        ensures { OnOk result (self.new ≡ record {
          page = self.old.page;
          positions = map (λ a. a.position) labels.now;
          bars = replicate (length labels.now) false;
        }) }
    {
        let page = self.page;
        let size = column_size(page.switches());
        let columns = if labels.is_empty() {
            0
        } else {
            labels.len() + 1
        };
        self.positions.clear();
        self.bars.clear();
        self.text.clear();
        self.starts.clear();
        self.positions.reserve(labels.len())?;
        self.bars.reserve(labels.len())?;
        self.text.reserve(columns * size)?;
        self.starts.reserve(columns)?;
        for label in labels {
            self.positions.push_reserved(label.position);
            self.bars.push_reserved(false);
        }
        push_multiples(&mut self.starts, columns, size);
        push_blanks(&mut self.text, columns * size)
    }

    /// From the next row on the bar in a column stands, or stands no more.
    ///
    /// On `Err` there was no memory for it, and the gutter is not to be used.
    pub fn set(&mut self, column: usize, stands: bool) -> Result<(), AllocError>
        requires column { column < length self.old.bars }
        ensures { OnOk result (self.new
            ≡ record self.old { bars = slice_set self.old.bars column stands }) }
    {
        let page = self.page;
        let start = self.start(column);
        let end = self.start(column + 1);
        let bar = stands.then_some(self.positions[column]);
        self.cells.clear();
        push_column(&mut self.cells, page, bar)?;
        self.text.replace_range(start..end, &self.cells)?;
        self.bars[column] = stands;
        shift(&mut self.starts, column + 1, end - start, self.cells.len());
        Ok(())
    }

    /// Writes the gutter of a row that has bars alone, as an alternate row has.
    ///
    /// ```text
    ///     | | |       bars alone
    /// ```
    pub(crate) fn push_bars(&self, pen: &mut Pen<'_>) -> Result<(), AllocError>
        ensures { let g = self.now in
            let bytes = columns_bytes g.page (bars_ink Vbar g) (columns g) in
            OnOk result (Adds pen.old pen.new bytes) }
    {
        pen.push_text(&self.text)
    }

    /// Writes the gutter of the arrow row of a line label.
    ///
    /// ```text
    ///     | ,---      from its own column on
    /// ```
    pub(crate) fn push_arrow(&self, pen: &mut Pen<'_>, own: &LineLabel) -> Result<(), AllocError>
        requires { HasArrowColumn self.now pen.old own.now }
        ensures { let g = self.now in
            let bytes = columns_bytes g.page (arrow_row_ink g own.now) (columns g) in
            OnOk result (Adds pen.old pen.new bytes) }
    {
        if own.side.is_inline() {
            return self.push_bars(pen);
        }
        self.push_turn(pen, own)
    }

    /// Writes the gutter of a source row, with the stroke of the line's margin label.
    ///
    /// ```text
    ///     | ,->       from the margin label's column on
    /// ```
    pub(crate) fn push_source(
        &self,
        pen: &mut Pen<'_>,
        margin: Option<LineLabel>,
    ) -> Result<(), AllocError>
        requires { HasMarginColumn self.now pen.old margin }
        ensures { let g = self.now in
            let bytes = columns_bytes g.page (source_row_ink g margin) (columns g) in
            OnOk result (Adds pen.old pen.new bytes) }
    {
        match margin {
            None => self.push_bars(pen),
            Some(margin) => self.push_margin_row(pen, &margin),
        }
    }

    /// Writes the gutter of a row in place of hidden lines.
    ///
    /// ```text
    ///     : :         broken bars
    /// ```
    pub(crate) fn push_gap(&self, pen: &mut Pen<'_>) -> Result<(), AllocError>
        ensures { let g = self.now in
            let bytes = columns_bytes pen.old.page (bars_ink VbarGap g) (columns g) in
            OnOk result (Adds pen.old pen.new bytes) }
    {
        let size = column_size(pen.page().switches());
        for column in 0..self.starts.len() {
            pen.push_ink(&bar_ink(Glyph::VbarGap, self.bar_of(column)), size)?;
        }
        Ok(())
    }

    /// Writes the gutter of a row below all lines: blanks alone.
    pub(crate) fn push_blank(&self, pen: &mut Pen<'_>) -> Result<(), AllocError>
        ensures bars { length self.now.positions ≡ length self.now.bars }
        ensures blanks { let g = self.now in
            let bytes = spaces (columns g * column_size g.page.switches) in
            OnOk result (Adds pen.old pen.new bytes) }
    {
        let page = self.page;
        pen.push_spaces(self.starts.len() * column_size(page.switches()))
    }

    /// The position of the gutter label whose bar stands in a column.
    fn bar_of(&self, column: usize) -> Option<usize>
        ensures { result ≡ bar_of self.now column }
    {
        if column < self.bars.len() && self.bars[column] {
            Some(self.positions[column])
        } else {
            None
        }
    }

    /// Where a column begins in a row that has bars alone, in bytes.
    fn start(&self, column: usize) -> usize
        requires column { column < columns self.now }
        ensures { result ≡ start_of self.now column }
    {
        self.starts[column]
    }

    /// Writes the bars of the columns before a column.
    fn push_before(&self, pen: &mut Pen<'_>, column: usize) -> Result<(), AllocError>
        requires column { column < length self.now.bars }
        ensures { let g = self.now in
            let bytes = columns_bytes g.page (bars_ink Vbar g) column in
            OnOk result (Adds pen.old pen.new bytes) }
    {
        pen.push_text(&self.text[..self.start(column)])
    }

    /// Writes the bar of a column, or blanks.
    fn push_bar(&self, pen: &mut Pen<'_>, column: usize) -> Result<(), AllocError>
        requires column { column < length self.now.bars }
        ensures { let g = self.now in
            let bytes = column_bytes g.page (bars_ink Vbar g column) in
            OnOk result (Adds pen.old pen.new bytes) }
    {
        pen.push_text(&self.text[self.start(column)..self.start(column + 1)])
    }

    /// Writes the gutter of a source row from its margin label's column on: the horizontal goes to
    /// the arrow head, and bars that stand are seen over it. Before that column bars stand alone.
    ///
    /// ```text
    ///     | ,-|->     a bar behind the margin label's column
    /// ```
    fn push_margin_row(&self, pen: &mut Pen<'_>, margin: &LineLabel) -> Result<(), AllocError>
        requires { HasColumn self.now pen.old margin.now.gutter_column }
        ensures { let g = self.now in
            let bytes = columns_bytes g.page (margin_row_ink g margin.now) (columns g) in
            OnOk result (Adds pen.old pen.new bytes) }
    {
        let page = self.page;
        let size = column_size(page.switches());
        let paint = Paint::Label(margin.info.position);
        self.push_before(pen, margin.gutter_column)?;
        pen.push_stroke(margin_glyph(margin.side), paint)?;
        let mut level = size - 1;
        for column in margin.gutter_column + 1..self.bars.len() {
            if self.bars[column] {
                pen.push_run(Glyph::Hbar, paint, level)?;
                self.push_bar(pen, column)?;
                level = 0;
            } else {
                level += size;
            }
        }
        pen.push_run(Glyph::Hbar, paint, level)?;
        let head = Ink {
            first: Glyph::Rarrow,
            first_paint: paint,
            rest: Glyph::Blank,
            rest_paint: paint,
        };
        pen.push_ink(&head, size)
    }

    /// Writes the gutter of the arrow row of the start or the end of a gutter label: the horizontal
    /// goes through to the text area. Bars that stand are crossed, or are not seen with gaps.
    ///
    /// ```text
    ///     | ,-+---    a bar behind its own column
    /// ```
    fn push_turn(&self, pen: &mut Pen<'_>, own: &LineLabel) -> Result<(), AllocError>
        requires { HasColumn self.now pen.old own.now.gutter_column }
        ensures { let g = self.now in
            let bytes = columns_bytes g.page (turn_row_ink g own.now) (columns g) in
            OnOk result (Adds pen.old pen.new bytes) }
    {
        let page = self.page;
        let switches = page.switches();
        let size = column_size(switches);
        let paint = Paint::Label(own.info.position);
        self.push_before(pen, own.gutter_column)?;
        pen.push_stroke(turn_glyph(own.side), paint)?;
        if switches.cross_gap {
            let columns = self.starts.len() - own.gutter_column;
            return pen.push_run(Glyph::Hbar, paint, columns * size - 1);
        }
        let mut level = size - 1;
        for column in own.gutter_column + 1..self.bars.len() {
            if self.bars[column] {
                pen.push_run(Glyph::Hbar, paint, level)?;
                pen.push_stroke(Glyph::Xbar, paint)?;
                level = size - 1;
            } else {
                level += size;
            }
        }
        pen.push_run(Glyph::Hbar, paint, level + size)
    }
}

/// How many cells a gutter column has.
#[tactic(auto, unfolding(ariadne_picture::specs::Pieces::column_size))]
fn column_size(switches: &Switches) -> usize
    ensures size { result ≡ column_size switches.now }
    ensures some { 1 ≤ result }
    ensures few { result ≤ 2 }
{
    if switches.compact { 1 } else { 2 }
}

/// A column with the bar of the label at a position, or without bar.
#[tactic(auto, unfolding(crate::specs::Gutters::bar_ink))]
fn bar_ink(glyph: Glyph, bar: Option<usize>) -> Ink
    ensures { result ≡ bar_ink glyph bar }
{
    let (first, first_paint) = match bar {
        Some(position) => (glyph, Paint::Label(position)),
        None => (Glyph::Blank, Paint::Plain),
    };
    Ink {
        first,
        first_paint,
        rest: Glyph::Blank,
        rest_paint: Paint::Plain,
    }
}

/// Where the arrow of a margin label leaves its column or enters it.
#[tactic(auto, unfolding(ariadne_picture::specs::Cells::margin_glyph))]
fn margin_glyph(side: Side) -> Glyph
    ensures { result ≡ margin_glyph side }
{
    match side {
        Side::Starts => Glyph::Ltop,
        Side::Ends => Glyph::Lcross,
        Side::Inline => Glyph::Blank,
    }
}

/// Where the arrow of a line label turns in its column.
#[tactic(auto, unfolding(ariadne_picture::specs::Cells::turn_glyph))]
fn turn_glyph(side: Side) -> Glyph
    ensures { result ≡ turn_glyph side }
{
    match side {
        Side::Starts => Glyph::Ltop,
        Side::Ends => Glyph::Lbot,
        Side::Inline => Glyph::Blank,
    }
}

/// Appends the cells of a column of a row that has bars alone: with the bar of the label at a
/// position, or without bar. On `Err` there was no memory for them.
fn push_column(out: &mut String, page: &Page, bar: Option<usize>) -> Result<(), AllocError>
    ensures { let bytes = column_bytes page.now (bar_ink Vbar bar) in
        OnOk result (string_bytes out.new ≡ string_bytes out.old ++ bytes) }
{
    let switches = page.switches();
    let size = column_size(switches);
    match bar {
        Some(position) => {
            let color = page.color_of(Paint::Label(position));
            push_painted_char(out, color, Glyph::Vbar.to_char(switches.char_set))?;
            push_blanks(out, size - 1)
        }
        None => push_blanks(out, size),
    }
}

/// Appends `count` blanks. On `Err` there was no memory for them: so there was no room.
fn push_blanks(out: &mut String, count: usize) -> Result<(), AllocError>
    ensures bytes { OnOk result (string_bytes out.new ≡ string_bytes out.old ++ spaces count) }
    ensures room { string_len out.old + count ≤ string_capacity out.old → IsOk result }
{
    for _turn in 0..count {
        out.push(' ')?;
    }
    Ok(())
}

/// Appends the first `count` multiples of a number, from 0 on. There is room for them.
fn push_multiples(out: &mut Vec<usize>, count: usize, number: usize)
    requires room { vec_len out.old + count ≤ vec_capacity out.old }
    requires fits { count * number < 2 ^ 64 }
    ensures { out.new.items ≡ out.old.items ++ map (λ k. k * number) (upto count) }
{
    for k in 0..count {
        out.push_reserved(k * number);
    }
}

/// Moves the starts of the columns from `first` on, since the column before them, which had `old`
/// bytes, has `new`.
fn shift(starts: &mut [usize], first: usize, old: usize, new: usize)
    requires behind { AreBehind first old starts.old }
    requires fits { EachIndex starts.old (λ k. slice_index starts.old k + new < 2 ^ 64) }
    ensures kept { AreKept first starts.old starts.new }
    ensures moved { AreMoved first old new starts.old starts.new }
{
    if new == old {
        return;
    }
    for k in first..starts.len() {
        starts[k] = starts[k] + new - old;
    }
}
