//! The text areas of the rows below a line: underlines, verticals, and arrows to messages.

ghost use Rattle.std.specs.Prelude.{◌≡◌, ◌≤◌, ◌<◌, true, false, Option, Some, None};
ghost use Rattle.std.specs.Prelude.{OnOk};
ghost use Rattle.ariadne_picture.specs.Cells.{alternate_place, arrow_place, corner_glyph, ink};
ghost use Rattle.ariadne_picture.specs.Cells.{ink_of};
ghost use Rattle.ariadne_picture.specs.Pieces.{area_pieces};
ghost use Rattle.ariadne_picture.specs.Ranks.{is_inline};
ghost use Rattle.ariadne_layout.specs.declared.verticals.Vertical.{Vertical};
ghost use Rattle.ariadne_layout.specs.Tables.{IsTable};
ghost use Rattle.ariadne_render.specs.Pages.{Draws};
ghost use Rattle.ariadne_render.specs.Areas.{DrawsOver, DrawsPlaces, IsCrossedTo, alternate_backdrop};
ghost use Rattle.ariadne_render.specs.Areas.{backdrop_before, backdrop_behind, seen_ink};
ghost use Rattle.ariadne_render.specs.Areas.{underlined_ink, underlined_or};

use crate::pen::Pen;
use ariadne_layout::layout::LineLayout;
use ariadne_layout::table::LineTable;
use ariadne_layout::verticals::Vertical;
use ariadne_picture::cell::{Glyph, Ink, Paint};
use ariadne_picture::label_info::{LineLabel, Side};
use ariadne_picture::switches::Switches;
use std::alloc::AllocError;

/// What stands behind the verticals in a stretch of places.
#[derive(Clone, Copy)]
enum Backdrop {
    /// Blanks.
    Open {
        /// Whether the verticals of labels over several lines are arrows.
        arrows: bool,
        /// The colour of the cells behind the first of a vertical's place, if it is not its own.
        rest: Option<Paint>,
    },
    /// The underline of the label at this position.
    Underlined(usize),
    /// The horizontal of a label.
    Level {
        /// The position of the label.
        position: usize,
        /// Whether a vertical has a gap where it is crossed.
        cross_gap: bool,
    },
}

impl Backdrop {
    /// Whether no vertical is seen on it, since all have gaps there.
    fn hides_verticals(&self) -> bool
        ensures { result ≡ true → (v : Option Vertical) →
            seen_ink self.now v ≡ seen_ink self.now None }
    {
        match self {
            Backdrop::Level { cross_gap, .. } => *cross_gap,
            Backdrop::Open { .. } | Backdrop::Underlined(_) => false,
        }
    }

    /// The cells of a place where a vertical is seen.
    #[tactic(auto, unfolding(crate::specs::Areas::seen_ink))]
    fn ink(&self, vertical: &Vertical) -> Ink
        ensures { result ≡ seen_ink self.now (Some vertical.now) }
    {
        let own = Paint::Label(vertical.position);
        match *self {
            Backdrop::Open { arrows, rest } => {
                let is_head = arrows && !vertical.is_inline;
                let first = if is_head { Glyph::Uarrow } else { Glyph::Vbar };
                Ink {
                    first,
                    first_paint: own,
                    rest: Glyph::Blank,
                    rest_paint: rest.unwrap_or(own),
                }
            }
            Backdrop::Underlined(_) => painted(own, Glyph::Underbar, Glyph::Underline),
            Backdrop::Level {
                position,
                cross_gap,
            } => {
                let paint = Paint::Label(position);
                if cross_gap {
                    painted(paint, Glyph::Hbar, Glyph::Hbar)
                } else {
                    painted(paint, Glyph::Xbar, Glyph::Blank)
                }
            }
        }
    }
}

/// All cells of a place in one colour.
fn painted(paint: Paint, first: Glyph, rest: Glyph) -> Ink
    ensures { result ≡ ink first paint rest paint }
{
    Ink {
        first,
        first_paint: paint,
        rest,
        rest_paint: paint,
    }
}

/// Writes the places from `from` to before `to` as one run, without verticals.
fn push_stretch(
    pen: &mut Pen<'_>,
    table: &LineTable,
    from: usize,
    to: usize,
    backdrop: &Backdrop,
) -> Result<(), AllocError>
    requires order { from ≤ to }
    requires within { to ≤ table.now.len }
    ensures { OnOk result (DrawsPlaces pen.old pen.new table.now
        (λ _. seen_ink backdrop.now None) from to) }
{
    let width = table.columns.width(from, to);
    match *backdrop {
        Backdrop::Open { .. } => pen.push_spaces(width),
        Backdrop::Underlined(position) => {
            pen.push_run(Glyph::Underline, Paint::Label(position), width)
        }
        Backdrop::Level { position, .. } => {
            pen.push_run(Glyph::Hbar, Paint::Label(position), width)
        }
    }
}

/// Writes the places from `from` to before `to`, cut at the verticals that are seen there: a run up
/// to each of them, its own place, and a run behind the last.
fn push_places(
    pen: &mut Pen<'_>,
    table: &LineTable,
    from: usize,
    to: usize,
    backdrop: &Backdrop,
) -> Result<(), AllocError>
    requires order { from ≤ to }
    requires within { to ≤ table.now.len }
    ensures { OnOk result (DrawsOver pen.old pen.new table.now backdrop.now from to) }
{
    if backdrop.hides_verticals() {
        return push_stretch(pen, table, from, to, backdrop);
    }
    let mut place = from;
    while let Some(vertical) = table.verticals.next(place, to) {
        push_stretch(pen, table, place, vertical.place, backdrop)?;
        place = vertical.place + 1;
        let width = table.columns.width(vertical.place, place);
        pen.push_ink(&backdrop.ink(&vertical), width)?;
    }
    push_stretch(pen, table, place, to, backdrop)
}

/// Writes the alternate row that has the underlines, stretch by stretch. Where no label is
/// underlined its backdrop is `blank`.
fn push_underlined(pen: &mut Pen<'_>, table: &LineTable, blank: &Backdrop) -> Result<(), AllocError>
    ensures { OnOk result (DrawsPlaces pen.old pen.new table.now
        (underlined_ink table.now blank.now) 0 table.now.len) }
{
    let mut place = 0;
    for stretch in &table.underlines {
        let end = stretch.end.min(table.len);
        if place < end {
            let backdrop = underlined_or(blank, stretch.position);
            push_places(pen, table, place, end, &backdrop)?;
            place = end;
        }
    }
    push_places(pen, table, place, table.len, blank)
}

/// The underline of the label at a position, or else `blank`.
#[tactic(auto, unfolding(crate::specs::Areas::underlined_or))]
fn underlined_or(blank: &Backdrop, position: Option<usize>) -> Backdrop
    ensures { result ≡ underlined_or blank.now position }
{
    match position {
        Some(position) => Backdrop::Underlined(position),
        None => *blank,
    }
}

/// Writes the text area of the alternate row of rank `rank` of a line with this layout, where labels
/// over several lines may have arrow heads.
///
/// ```text
///     1 | apple == orange;
///       | ^^|^^    ^^^|^^       underlines, verticals
/// ```
pub fn push_alternate_area(
    pen: &mut Pen<'_>,
    table: &LineTable,
    layout: &LineLayout<'_>,
    heads: bool,
    rank: usize,
) -> Result<(), AllocError>
    requires table { IsTable pen.old.page.switches layout.now rank table.now }
    requires loose { pen.old.page.switches.compact ≡ false }
    ensures { let switches = pen.old.page.switches in let y = layout.now in
        OnOk result (Draws pen.old pen.new
        (area_pieces switches y (alternate_place heads switches y rank))) }
{
    let blank = alternate_backdrop(heads, rank);
    if rank == table.underline_row {
        push_underlined(pen, table, &blank)
    } else {
        push_places(pen, table, 0, table.len, &blank)
    }
}

/// The backdrop of the places of an alternate row that have no underline.
#[tactic(auto, unfolding(crate::specs::Areas::alternate_backdrop))]
fn alternate_backdrop(heads: bool, rank: usize) -> Backdrop
    ensures { result ≡ alternate_backdrop heads rank }
{
    Backdrop::Open {
        arrows: rank == 0 && heads,
        rest: None,
    }
}

/// The backdrops of the arrow row of `own`, of rank `rank`: before its own place, and behind it.
#[tactic(auto, unfolding(crate::specs::Areas::backdrop_before, crate::specs::Areas::backdrop_behind))]
fn arrow_backdrops(switches: &Switches, rank: usize, own: &LineLabel) -> (Backdrop, Backdrop)
    ensures before { result.0 ≡ backdrop_before switches.now rank own.now own.now.side }
    ensures behind { result.1 ≡ backdrop_behind switches.now rank own.now own.now.side }
{
    let position = own.info.position;
    let beside = Backdrop::Open {
        arrows: rank == 0 && switches.compact,
        rest: Some(Paint::Label(position)),
    };
    let level = Backdrop::Level {
        position,
        cross_gap: switches.cross_gap,
    };
    match own.side {
        Side::Inline => (beside, level),
        Side::Starts => (level, beside),
        Side::Ends => (level, level),
    }
}

/// The stroke of a corner.
#[tactic(auto, unfolding(ariadne_picture::specs::Cells::corner_glyph))]
fn corner_glyph(side: Side) -> Glyph
    ensures { result ≡ corner_glyph side }
{
    match side {
        Side::Inline => Glyph::Lbot,
        Side::Ends => Glyph::Mbot,
        Side::Starts => Glyph::Rbot,
    }
}

/// The corner of a label, where its arrow turns to its message.
fn corner_ink(own: &LineLabel) -> Ink
    ensures { result ≡ ink_of (corner_glyph own.now.side) Glyph.Hbar own.now.info }
{
    let paint = Paint::Label(own.info.position);
    painted(paint, corner_glyph(own.side), Glyph::Hbar)
}

/// One past the last place that the horizontal of a margin label covers, in a row of `len` places.
fn horizontal_end(own: &LineLabel, len: usize) -> usize
    ensures within { result ≤ len }
    ensures covered { is_inline own.now.side ≡ false → IsCrossedTo own.now len result }
{
    match own.side {
        Side::Starts => own.place.saturating_add(1).min(len),
        Side::Inline | Side::Ends => len,
    }
}

/// Writes the text area of the arrow row of rank `rank` of a line with this layout, whose line label
/// is `own`.
///
/// ```text
///     1 | apple == orange;
///       |   `--------------     corner, horizontal
///       |             |         verticals of later labels
/// ```
pub fn push_arrow_area(
    pen: &mut Pen<'_>,
    table: &LineTable,
    layout: &LineLayout<'_>,
    rank: usize,
    own: &LineLabel,
) -> Result<(), AllocError>
    requires table { IsTable pen.old.page.switches layout.now rank table.now }
    ensures { let switches = pen.old.page.switches in let y = layout.now in
        OnOk result (Draws pen.old pen.new
        (area_pieces switches y (arrow_place switches y rank (Some own.now)))) }
{
    let at_margin = layout.is_margin(own);
    let (before, behind) = arrow_backdrops(pen.page().switches(), rank, own);
    if at_margin {
        let end = horizontal_end(own, table.len);
        push_places(pen, table, 0, end, &before)?;
        return push_places(pen, table, end, table.len, &behind);
    }
    let place = own.place.min(table.len);
    push_places(pen, table, 0, place, &before)?;
    if place < table.len {
        pen.push_ink(&corner_ink(own), table.columns.width(place, place + 1))?;
        push_places(pen, table, place + 1, table.len, &behind)?;
    }
    Ok(())
}
