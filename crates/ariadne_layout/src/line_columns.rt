//! The columns of a line, and of the places behind it.

ghost use Rattle.std.specs.Prelude.{◌≡◌, ◌≢◌, ◌+◌, ◌-◌, ◌≤◌, ◌<◌, ◌^◌, ℕ, List, OnOk, IfOk, [], ◌++◌};
ghost use Rattle.std.specs.Prelude.{length, min};
ghost use Rattle.std.specs.List.{range_with_len};
ghost use Rattle.ariadne_picture.specs.declared.switches.Switches.{Switches};
ghost use Rattle.ariadne_picture.specs.Columns.{shown};
ghost use Rattle.ariadne_layout.specs.Cuts.{AreApart, cut_column, end_of, mark_before, mark_behind};
ghost use Rattle.ariadne_layout.specs.Knots.{AreAt, AreEven, AreKnots, AreRising};
ghost use Rattle.ariadne_layout.specs.Knots.{HoldColumns, knot_column};
ghost use Rattle.ariadne_layout.specs.Tables.{AreAsWide, AreColumns, AreWholeColumns, column_in};
ghost use Rattle.ariadne_layout.specs.Tables.{tab_columns};

use crate::columns::{WholeColumns, mark_columns, push_whole};
use crate::cuts::is_marked_before;
use crate::layout::LineLayout;
use ariadne_picture::sight::Part;
use ariadne_picture::switches::{CharSet, Switches};
use std::alloc::{AllocError, Global};
use std::marker::Model;

/// There is no memory for as many columns, of 8 bytes each.
const TOO_MANY: usize = 1 << 60;

/// A place of a cut line of which anything is seen, or one behind it, and the column that it begins
/// at.
#[derive(Clone, Copy, Drop)]
pub struct Knot {
    pub place: usize,
    pub column: usize,
}

/// The column that each place of a line begins at.
#[derive(Drop)]
pub struct LineColumns {
    /// Those of a line that is shown whole.
    list: Vec<usize>,
    /// Those of a cut line, in the order of their places.
    knots: Vec<Knot>,
    /// How many places the knots stand for.
    len: usize,
    /// Those that a cut line would have if it were shown whole.
    whole: WholeColumns,
}

impl Model for LineColumns {
    ghost use Rattle.std.specs.Prelude.{ℕ, List};
    ghost use Rattle.ariadne_layout.specs.Knots.{AreRising, HoldsOne, held_columns};

    ghost Value = { List ℕ };

    ghost view = { λ a. held_columns a.list.items a.knots.items a.len };

    ghost invariant = { λ a. AreRising a.knots.items × HoldsOne a.list.items a.knots.items };
}

impl LineColumns {
    /// The columns of a line without tabs and wide characters: each place is its own column.
    #[tactic(auto, unfolding(crate::specs::Knots::held_columns, crate::specs::Knots::AreRising))]
    pub fn new(alloc: Global) -> LineColumns
        ensures { result ≡ [] }
    {
        LineColumns {
            list: Vec::new(alloc),
            knots: Vec::new(alloc),
            len: 0,
            whole: WholeColumns::new(alloc),
        }
    }

    /// Finds those of the first `len` places of a line, and of the place behind them.
    ///
    /// On `Err` there was no memory for them, or none holds so many columns. What is held is then of
    /// no line.
    pub fn fill(
        &mut self,
        switches: &Switches,
        layout: &LineLayout<'_>,
        len: usize,
    ) -> Result<(), AllocError>
        requires tabs { 1 ≤ switches.now.tab_width }
        requires fits { tab_columns switches.now layout.now < 2 ^ 63 }
        ensures { OnOk result (AreColumns switches.now layout.now len self.new) }
    {
        self.list.clear();
        self.knots.clear();
        if layout.is_even() {
            return Ok(());
        }
        if len >= TOO_MANY {
            return Err(AllocError);
        }
        if layout.is_cut() {
            self.fill_cut(switches, layout, len)
        } else {
            push_list(&mut self.list, switches, layout, len)
        }
    }

    /// Finds those of a line that is cut.
    #[cold]
    #[inline(never)]
    fn fill_cut(
        &mut self,
        switches: &Switches,
        layout: &LineLayout<'_>,
        len: usize,
    ) -> Result<(), AllocError>
        requires cut { layout.now.sights ≢ [] }
        requires tabs { 1 ≤ switches.now.tab_width }
        requires short { len < 2 ^ 60 }
        ensures { OnOk result (AreColumns switches.now layout.now len self.new) }
    {
        self.list.clear();
        self.knots.clear();
        self.whole.fill(switches, layout)?;
        self.len = len + 1;
        let filled = push_cut(&mut self.knots, switches, &self.whole, layout, len);
        if filled.is_err() {
            self.knots.clear();
        }
        filled
    }

    /// The column that a place begins at; where none is held it is the place itself.
    #[tactic(auto, unfolding(crate::specs::Tables::column_in, crate::specs::Knots::held_columns))]
    pub fn column(&self, place: usize) -> usize
        ensures { result ≡ column_in self.now place }
    {
        if self.knots.is_empty() {
            listed_column(&self.list, place)
        } else if place < self.len {
            knot_column(&self.knots, place)
        } else {
            place
        }
    }

    /// How many columns the places from `from` to before `to` have.
    pub fn width(&self, from: usize, to: usize) -> usize
        ensures { result ≡ column_in self.now to - column_in self.now from }
    {
        if !self.list.is_empty() {
            return listed_column(&self.list, to).saturating_sub(listed_column(&self.list, from));
        }
        if self.knots.is_empty() {
            return to.saturating_sub(from);
        }
        self.cut_width(from, to)
    }

    /// How many columns the places from `from` to before `to` of a cut line have.
    #[cold]
    #[inline(never)]
    fn cut_width(&self, from: usize, to: usize) -> usize
        ensures { result ≡ column_in self.now to - column_in self.now from }
    {
        self.column(to).saturating_sub(self.column(from))
    }
}

/// The column that a place begins at, where these are listed; where none is it is the place itself.
#[tactic(auto, unfolding(crate::specs::Tables::column_in))]
fn listed_column(list: &[usize], place: usize) -> usize
    ensures { result ≡ column_in list.now place }
{
    list.get(place).copied().unwrap_or(place)
}

/// Appends the columns of the first `len` places of a line that is shown whole, and of the place
/// behind them.
///
/// On `Err` there was no memory for them, or none holds so many columns.
fn push_list(
    list: &mut Vec<usize>,
    switches: &Switches,
    layout: &LineLayout<'_>,
    len: usize,
) -> Result<(), AllocError>
    requires empty { list.old.items ≡ [] }
    requires whole { layout.now.sights ≡ [] }
    requires tabs { 1 ≤ switches.now.tab_width }
    requires fits { tab_columns switches.now layout.now < 2 ^ 63 }
    requires short { len < 2 ^ 60 }
    ensures { OnOk result (AreColumns switches.now layout.now len list.new.items) }
{
    list.reserve(len + 1)?;
    let column = push_whole(list, switches.tab_width, layout.shown(), len)?;
    push_behind(list, column, len)
}

/// Appends the columns that the places past the shown text begin at, up to `len`: the first of them
/// begins at `column`, and each has one. On `Err` there was no memory for them.
fn push_behind(list: &mut Vec<usize>, column: usize, len: usize) -> Result<(), AllocError>
    requires short { len < 2 ^ 60 }
    requires fits { column + len < 2 ^ 64 }
    requires some { length list.old.items ≤ len }
    ensures { let behind = range_with_len column (len + 1 - length list.old.items) in
        OnOk result (list.new.items ≡ list.old.items ++ behind) }
{
    let first = list.len();
    for place in first..len + 1 {
        list.push(column + (place - first))?;
    }
    Ok(())
}

/// The column of the first of some knots at a place or behind it, or 0 if there is none.
#[cold]
#[inline(never)]
fn knot_column(knots: &[Knot], place: usize) -> usize
    requires { AreRising knots.now }
    ensures { result ≡ knot_column 0 knots.now place }
{
    let index = knots.partition_point(|knot| knot.place < place);
    match knots.get(index) {
        Some(knot) => knot.column,
        None => 0,
    }
}

/// Appends the columns of the first `len` places of a cut line, and of the place behind them. `whole`
/// are those that its places would have if it were shown whole.
///
/// On `Err` there was no memory for them, or none holds so many columns.
fn push_cut(
    knots: &mut Vec<Knot>,
    switches: &Switches,
    whole: &WholeColumns,
    layout: &LineLayout<'_>,
    len: usize,
) -> Result<(), AllocError>
    requires empty { knots.old.items ≡ [] }
    requires cut { layout.now.sights ≢ [] }
    requires whole { AreWholeColumns switches.now.tab_width (shown layout.now) whole.now }
    ensures rising { OnOk result (AreRising knots.new.items) }
    ensures some { OnOk result (knots.new.items ≢ []) }
    ensures held { OnOk result (AreKnots switches.now layout.now len knots.new.items) }
{
    let end = len.min(layout.shown_len());
    let column = push_parts(knots, switches.char_set, whole, layout.parts(), end)?;
    let column = push_even(knots, end, len, column)?;
    knots.push(Knot { place: len, column })?;
    Ok(())
}

/// Appends the columns of the places before `end` of which anything is seen, where these parts are
/// shown, and gives that of place `end`.
///
/// On `Err` there was no memory for them, or none holds so many columns.
fn push_parts(
    knots: &mut Vec<Knot>,
    set: CharSet,
    whole: &WholeColumns,
    parts: &[Part],
    end: usize,
) -> Result<usize, AllocError>
    requires empty { knots.old.items ≡ [] }
    requires apart { AreApart parts.now }
    ensures { (s : Switches) (text : List ℕ) → s.char_set ≡ set →
        AreWholeColumns s.tab_width text whole.now → end ≤ length text →
        IfOk result (λ column. HoldColumns (cut_column s text parts.now) knots.new.items end column) }
{
    let mut column = 0usize;
    for part in parts {
        column = push_before(knots, set, part, end, column)?;
        column = push_seen(knots, whole, part.from.min(end), part.to.min(end), column)?;
    }
    push_end(knots, set, parts, end, column)
}

/// Appends the column of the mark before a part, if it stands before place `end`, and gives that of
/// the part's first place.
fn push_before(
    knots: &mut Vec<Knot>,
    set: CharSet,
    part: &Part,
    end: usize,
    column: usize,
) -> Result<usize, AllocError>
    ensures { (f : ℕ → ℕ) (a : ℕ) → HoldColumns f knots.old.items a column →
        a ≤ min part.now.from end → (0 < part.now.from → a < part.now.from) →
        ((k : ℕ) → a ≤ k → k < part.now.from → k ≤ end → f k ≡ column) →
        f (min part.now.from end) ≡ column + mark_before set part.now end →
        IfOk result (λ next. HoldColumns f knots.new.items (min part.now.from end) next) }
{
    if is_marked_before(part, end) {
        push_place(knots, part.from - 1, column, mark_columns(set))
    } else {
        Ok(column)
    }
}

/// Appends the columns of places that are seen, from `from` to before `to`, and gives that of place
/// `to`.
fn push_seen(
    knots: &mut Vec<Knot>,
    whole: &WholeColumns,
    from: usize,
    to: usize,
    column: usize,
) -> Result<usize, AllocError>
    requires { from ≤ to }
    ensures { (f : ℕ → ℕ) → HoldColumns f knots.old.items from column →
        AreAsWide f whole.now from to →
        IfOk result (λ next. HoldColumns f knots.new.items to next) }
{
    let mut next = column;
    for place in from..to {
        next = push_place(knots, place, next, whole.width(place, place + 1))?;
    }
    Ok(next)
}

/// Appends the column of the mark behind some parts, if it stands before place `end`, and gives that
/// of place `end`.
fn push_end(
    knots: &mut Vec<Knot>,
    set: CharSet,
    parts: &[Part],
    end: usize,
    column: usize,
) -> Result<usize, AllocError>
    ensures { (f : ℕ → ℕ) → HoldColumns f knots.old.items (min (end_of 0 parts.now) end) column →
        AreAt f (end_of 0 parts.now) end (column + mark_behind set parts.now end) →
        IfOk result (λ next. HoldColumns f knots.new.items end next) }
{
    match parts.last() {
        Some(part) if part.to < end => push_place(knots, part.to, column, mark_columns(set)),
        _ => Ok(column),
    }
}

/// Appends the columns of places that have one each, from `from` to before `to`, and gives that of
/// place `to`.
fn push_even(
    knots: &mut Vec<Knot>,
    from: usize,
    to: usize,
    column: usize,
) -> Result<usize, AllocError>
    requires { from ≤ to }
    ensures { (f : ℕ → ℕ) → HoldColumns f knots.old.items from column →
        AreEven f from to →
        IfOk result (λ next. HoldColumns f knots.new.items to next) }
{
    let mut next = column;
    for place in from..to {
        next = push_place(knots, place, next, 1)?;
    }
    Ok(next)
}

/// Appends the column of a place that has `width` columns, and gives that of the next place. Those
/// between the last that is held and this one have none.
///
/// On `Err` there was no memory for it, or none holds so many columns.
fn push_place(
    knots: &mut Vec<Knot>,
    place: usize,
    column: usize,
    width: usize,
) -> Result<usize, AllocError>
    ensures { (f : ℕ → ℕ) (a : ℕ) → HoldColumns f knots.old.items a column → a ≤ place →
        ((k : ℕ) → a ≤ k → k ≤ place → f k ≡ column) → f (place + 1) ≡ column + width →
        IfOk result (λ next. HoldColumns f knots.new.items (place + 1) next) }
{
    let next = column.checked_add(width).ok_or(AllocError)?;
    knots.push(Knot { place, column })?;
    Ok(next)
}
