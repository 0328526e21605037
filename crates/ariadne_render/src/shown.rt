//! The text of a source row: the shown characters of its line, each in the colour of a label.

ghost use Rattle.std.specs.Prelude.{◌≡◌, ◌≢◌, ◌+◌, ◌<◌, ◌≤◌, ◌^◌, Some, OnOk, drop, encode_utf8};
ghost use Rattle.std.specs.Prelude.{IsTrue, [], ◌∷◌, length, replicate, slice_get, slice_index};
ghost use Rattle.std.specs.List.{AllByRecursion};
ghost use Rattle.ariadne_picture.specs.Columns.{Layout, shown, sight_of, whole_column};
ghost use Rattle.ariadne_picture.specs.Pieces.{char_pieces, shown_text, source_pieces};
ghost use Rattle.ariadne_layout.specs.Tables.{position_paint, shown_at, tab_columns};
ghost use Rattle.ariadne_render.specs.Pages.{Draws};
ghost use Rattle.ariadne_render.specs.Counted.{IsCounted};
ghost use Rattle.ariadne_render.specs.ShownTexts.{IsAsShown, IsPaintOf, ShowAlikeFrom, blank_of};
ghost use Rattle.ariadne_render.specs.ShownTexts.{mark_of, shown_in};

use crate::counted::Counted;
use crate::pen::Pen;
use crate::seen::{SeenPlace, next_seen};
use ariadne_layout::columns::shown_columns;
use ariadne_layout::layout::LineLayout;
use ariadne_layout::stretches::Stretch;
use ariadne_picture::cell::{Glyph, Paint};
use ariadne_picture::sight::Sight;
use ariadne_picture::switches::CharSet;
use std::alloc::AllocError;

/// Writes the text of a source row, each character in the colour of its stretch. Without colours
/// the stretches are not read.
///
/// ```text
///     1 | apple == orange;
/// ```
///
/// After `Ok` all its tabs stand in memory, so that none of its columns is past `usize`.
pub fn push_shown(
    pen: &mut Pen<'_>,
    layout: &LineLayout<'_>,
    paints: &[Stretch],
) -> Result<(), AllocError>
    ensures drawn { let switches = pen.old.page.switches in
        OnOk result (Draws pen.old pen.new
        (shown_in switches layout.now (λ k. position_paint (shown_at paints.now k)))) }
    ensures tabs { OnOk result (tab_columns pen.old.page.switches layout.now < 2 ^ 63) }
{
    push_characters(pen, layout, paints)?;
    // Text that was written lies in memory, and so is shorter than `usize` can count.
    let _len = pen.len();
    Ok(())
}

/// Writes the shown characters of a line, in the colours that there are.
fn push_characters(
    pen: &mut Pen<'_>,
    layout: &LineLayout<'_>,
    paints: &[Stretch],
) -> Result<(), AllocError>
    ensures drawn { let switches = pen.old.page.switches in
        OnOk result (Draws pen.old pen.new
        (shown_in switches layout.now (λ k. position_paint (shown_at paints.now k)))) }
    ensures tabs { OnOk result
        (tab_columns pen.old.page.switches layout.now ≤ length pen.new.bytes) }
{
    if layout.is_cut() {
        return push_cut_characters(pen, layout, paints);
    }
    if pen.page().is_colored() {
        push_stretches(pen, layout, paints)
    } else if is_shown_whole(layout) {
        pen.push_text(layout.shown())
    } else {
        push_stretches(pen, layout, &[])
    }
}

/// Writes what is seen of a cut line, in the colours that there are.
#[cold]
#[inline(never)]
fn push_cut_characters(
    pen: &mut Pen<'_>,
    layout: &LineLayout<'_>,
    paints: &[Stretch],
) -> Result<(), AllocError>
    requires cut { layout.now.sights ≢ [] }
    ensures drawn { let switches = pen.old.page.switches in
        OnOk result (Draws pen.old pen.new
        (shown_in switches layout.now (λ k. position_paint (shown_at paints.now k)))) }
    ensures tabs { OnOk result
        (tab_columns pen.old.page.switches layout.now ≤ length pen.new.bytes) }
{
    if pen.page().is_colored() {
        push_cut(pen, layout, paints)
    } else {
        push_cut(pen, layout, &[])
    }
}

/// Whether the shown characters of a line are written as they are: none is a tab, and none but the
/// blank is white space.
fn is_shown_whole(layout: &LineLayout<'_>) -> bool
    ensures { IsTrue result → AllByRecursion IsAsShown (shown layout.now) }
{
    layout.is_plain() || layout.shown().chars().all(|c| is_as_shown(c))
}

/// Writes the shown characters of a line one by one, each in the colour of its stretch.
fn push_stretches(
    pen: &mut Pen<'_>,
    layout: &LineLayout<'_>,
    paints: &[Stretch],
) -> Result<(), AllocError>
    requires whole { layout.now.sights ≡ [] }
    ensures { let switches = pen.old.page.switches in
        OnOk result (Draws pen.old pen.new
        (shown_in switches layout.now (λ k. position_paint (shown_at paints.now k)))) }
{
    let mut number = 0;
    let text = layout.shown();
    let mut counted = Counted::new(text);
    for (index, c) in text.chars().enumerate() {
        number = stretch_at(paints, number, index);
        push_char(pen, &mut counted, stretch_paint(paints, number), index, c)?;
    }
    Ok(())
}

/// Writes what is seen of a cut line, each place in the colour of its stretch.
fn push_cut(
    pen: &mut Pen<'_>,
    layout: &LineLayout<'_>,
    paints: &[Stretch],
) -> Result<(), AllocError>
    requires cut { layout.now.sights ≢ [] }
    ensures { let switches = pen.old.page.switches in
        OnOk result (Draws pen.old pen.new
        (shown_in switches layout.now (λ k. position_paint (shown_at paints.now k)))) }
{
    let mut number = 0;
    let mut part = 0;
    let mut place = 0;
    let parts = layout.parts();
    let len = layout.shown_len();
    let mut counted = Counted::new(layout.shown());
    while let Some(seen) = next_seen(parts, part, place, len) {
        number = stretch_at(paints, number, seen.place);
        push_seen(
            pen,
            &mut counted,
            layout,
            stretch_paint(paints, number),
            &seen,
        )?;
        part = seen.part;
        place = seen.place + 1;
    }
    Ok(())
}

/// Writes what is seen of a place: its character, or a mark. On `Err` there was no memory for it, or
/// none holds so many columns.
fn push_seen(
    pen: &mut Pen<'_>,
    counted: &mut Counted<'_>,
    layout: &LineLayout<'_>,
    paint: Paint,
    seen: &SeenPlace,
) -> Result<(), AllocError>
    requires within { seen.now.place < length (shown layout.now) }
    requires later { counted.old.place ≤ seen.now.place }
    ensures place { OnOk result (counted.new.place ≤ seen.now.place) }
    ensures drawn { let switches = pen.old.page.switches in let place = seen.now.place in
        IsCounted switches layout.now counted.old → sight_of layout.now place ≡ seen.now.sight →
        OnOk result (IsCounted switches layout.now counted.new
        × Draws pen.old pen.new
        (source_pieces switches paint layout.now place (slice_index (shown layout.now) place))) }
{
    match seen.sight {
        Sight::Seen => push_place(pen, counted, layout, paint, seen.place),
        Sight::Marked => push_mark(pen, paint),
        Sight::Unseen => Ok(()),
    }
}

/// Writes the shown character at a place. That of printable ASCII is a byte, and no other is looked
/// at. On `Err` there was no memory for it, or none holds so many columns.
fn push_place(
    pen: &mut Pen<'_>,
    counted: &mut Counted<'_>,
    layout: &LineLayout<'_>,
    paint: Paint,
    place: usize,
) -> Result<(), AllocError>
    requires within { place < length (shown layout.now) }
    requires later { counted.old.place ≤ place }
    ensures place { OnOk result (counted.new.place ≤ place) }
    ensures drawn { let switches = pen.old.page.switches in let text = shown layout.now in
        IsCounted switches layout.now counted.old →
        OnOk result (IsCounted switches layout.now counted.new
        × Draws pen.old pen.new (char_pieces switches paint
        (whole_column switches.tab_width text place) (slice_index text place))) }
{
    if layout.is_plain() {
        let c = layout.shown().as_bytes()[place] as char;
        return push_char(pen, counted, paint, place, c);
    }
    match counted.char_at(pen.page().switches().tab_width, place)? {
        Some(c) => push_char(pen, counted, paint, place, c),
        None => Ok(()),
    }
}

/// Writes the mark in place of what is cut. On `Err` there was no memory for it.
fn push_mark(pen: &mut Pen<'_>, paint: Paint) -> Result<(), AllocError>
    ensures { let set = pen.old.page.switches.char_set in
        OnOk result (Draws pen.old pen.new (mark_of set paint ∷ [])) }
{
    match pen.page().switches().char_set {
        CharSet::Unicode => pen.push_piece_char(paint, '…'),
        CharSet::Ascii => pen.push_piece(paint, "..."),
    }
}

/// The number of the first stretch that ends behind a place, from number `first` on.
fn stretch_at(paints: &[Stretch], first: usize, place: usize) -> usize
    ensures seen { ShowAlikeFrom place (drop result paints.now) (drop first paints.now) }
    ensures reaches { (s : Stretch) → slice_get paints.now result ≡ Some s → place < s.end }
{
    let mut number = first;
    while number < paints.len() && paints[number].end <= place {
        number += 1;
    }
    number
}

/// The colour of the places of stretch `number`, or that of text outside all labels.
fn stretch_paint(paints: &[Stretch], number: usize) -> Paint
    ensures { IsPaintOf paints.now number result }
{
    match paints.get(number) {
        Some(stretch) => paint_of(stretch.position),
        None => Paint::Unimportant,
    }
}

/// The colour of the label at a position, or that of text outside all labels.
#[tactic(auto, unfolding(ariadne_layout::specs::Tables::position_paint))]
fn paint_of(position: Option<usize>) -> Paint
    ensures { result ≡ position_paint position }
{
    match position {
        Some(position) => Paint::Label(position),
        None => Paint::Unimportant,
    }
}

/// Writes the shown character at `place`, a tab as blanks and other white space as one. Columns are
/// counted where there is a tab. On `Err` there was no memory for it, or none holds so many columns.
#[inline(always)]
fn push_char(
    pen: &mut Pen<'_>,
    counted: &mut Counted<'_>,
    paint: Paint,
    place: usize,
    c: char,
) -> Result<(), AllocError>
    requires later { counted.old.place ≤ place }
    ensures place { OnOk result (counted.new.place ≤ place) }
    ensures drawn { let switches = pen.old.page.switches in (y : Layout) →
        IsCounted switches y counted.old → place < length (shown y) →
        OnOk result (IsCounted switches y counted.new
        × Draws pen.old pen.new
        (char_pieces switches paint (whole_column switches.tab_width (shown y) place) c)) }
{
    if c != '\t' {
        return pen.push_piece_char(paint, shown_char(c));
    }
    let tab_width = pen.page().switches().tab_width;
    counted.go_to(tab_width, place)?;
    push_tab(pen, paint, shown_columns(tab_width, counted.column, c))
}

/// Whether a character is written as it is.
fn is_as_shown(c: char) -> bool
    ensures { IsTrue result → IsAsShown c }
{
    c != '\t' && shown_char(c) == c
}

/// A character as it is shown: white space as a blank.
#[tactic(auto, using(crate::proofs::ShownRows::blank_code, crate::proofs::ShownRows::printable_text), unfolding(ariadne_picture::specs::Pieces::shown_text))]
fn shown_char(c: char) -> char
    ensures { encode_utf8 result ≡ shown_text c }
{
    match c {
        ' '..='~' => c,
        _ if c.is_whitespace() => ' ',
        _ => c,
    }
}

/// The most bytes that a blank takes, with the escapes of its colour.
const PAINTED_BLANK: usize = 24;

/// Writes the blanks of a tab. There is room for all of them before the first is written, so that
/// too wide a tab is refused at once.
fn push_tab(pen: &mut Pen<'_>, paint: Paint, columns: usize) -> Result<(), AllocError>
    ensures { OnOk result (Draws pen.old pen.new (replicate columns (blank_of paint))) }
{
    let size = if pen.page().color_of(paint).is_some() {
        PAINTED_BLANK
    } else {
        1
    };
    pen.reserve(columns.saturating_mul(size))?;
    pen.push_run(Glyph::Blank, paint, columns)
}
