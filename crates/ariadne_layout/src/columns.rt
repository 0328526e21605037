//! The columns of characters and of a line that is shown whole.

ghost use Rattle.std.specs.Prelude.{◌≡◌, ◌-◌, ◌≤◌, IfOk, OnOk, [], chars, length, map, min};
ghost use Rattle.ariadne_base.specs.Locations.{upto};
ghost use Rattle.ariadne_picture.specs.Columns.{mark_columns, shown, shown_columns, whole_column};
ghost use Rattle.ariadne_layout.specs.Tables.{AreWholeColumns, column_in};

use crate::layout::LineLayout;
use ariadne_picture::switches::{CharSet, Switches};
use std::alloc::{AllocError, Global};
use std::marker::Model;
use unicode_width::UnicodeWidthChar;

/// The column that each place of a line begins at where the line is shown whole.
#[derive(Drop)]
pub struct WholeColumns {
    list: Vec<usize>,
}

impl Model for WholeColumns {
    ghost use Rattle.std.specs.Prelude.{ℕ, List};

    ghost Value = { List ℕ };

    ghost view = { λ a. a.list.items };
}

impl WholeColumns {
    /// The columns of a line without tabs and wide characters: each place is its own column.
    pub fn new(alloc: Global) -> WholeColumns
        ensures { result ≡ [] }
    {
        WholeColumns {
            list: Vec::new(alloc),
        }
    }

    /// Finds those of the shown places of a line, and of their end.
    ///
    /// On `Err` there was no memory for them, or none holds so many columns. What is held is then of
    /// no line.
    #[cold]
    #[inline(never)]
    pub fn fill(&mut self, switches: &Switches, layout: &LineLayout<'_>) -> Result<(), AllocError>
        requires tabs { 1 ≤ switches.now.tab_width }
        ensures { OnOk result (AreWholeColumns switches.now.tab_width (shown layout.now) self.new) }
    {
        self.list.clear();
        if layout.is_plain() {
            return Ok(());
        }
        let len = layout.shown_len();
        let column = push_whole(&mut self.list, switches.tab_width, layout.shown(), len)?;
        self.list.push(column)?;
        Ok(())
    }

    /// The column that a place begins at; where none is held it is the place itself.
    #[tactic(auto, unfolding(crate::specs::Tables::column_in))]
    pub fn column(&self, place: usize) -> usize
        ensures { result ≡ column_in self.now place }
    {
        self.list.get(place).copied().unwrap_or(place)
    }

    /// How many columns the places from `from` to before `to` have.
    pub fn width(&self, from: usize, to: usize) -> usize
        ensures { result ≡ column_in self.now to - column_in self.now from }
    {
        self.column(to).saturating_sub(self.column(from))
    }
}

/// Appends the columns that the places of a text before `len` begin at, where it is shown whole, and
/// gives that of the place behind them.
///
/// On `Err` there was no memory for them, or none holds so many columns.
pub fn push_whole(
    list: &mut Vec<usize>,
    tab_width: usize,
    text: &str,
    len: usize,
) -> Result<usize, AllocError>
    requires empty { list.old.items ≡ [] }
    requires tabs { 1 ≤ tab_width }
    ensures columns { let n = min len (length (chars text.now)) in
        OnOk result (list.new.items ≡ map (whole_column tab_width (chars text.now)) (upto n)) }
    ensures behind { let n = min len (length (chars text.now)) in
        IfOk result (λ column. column ≡ whole_column tab_width (chars text.now) n) }
{
    let mut column = 0usize;
    for c in text.chars().take(len) {
        list.push(column)?;
        let width = shown_columns(tab_width, column, c);
        column = column.checked_add(width).ok_or(AllocError)?;
    }
    Ok(column)
}

/// How many columns the mark has in place of what is cut.
#[tactic(auto, unfolding(ariadne_picture::specs::Columns::mark_columns))]
pub fn mark_columns(set: CharSet) -> usize
    ensures { result ≡ mark_columns set }
{
    match set {
        CharSet::Unicode => 1,
        CharSet::Ascii => 3,
    }
}

/// How many columns a shown character has that begins at `column`. A tab reaches to the next
/// multiple of `tab_width`.
#[tactic(auto, unfolding(ariadne_picture::specs::Columns::shown_columns, ariadne_picture::specs::Columns::char_columns))]
pub fn shown_columns(tab_width: usize, column: usize, c: char) -> usize
    requires { 1 ≤ tab_width }
    ensures { result ≡ shown_columns tab_width column c }
{
    match c {
        ' '..='~' => 1,
        '\t' => tab_width - column % tab_width,
        _ if c.is_whitespace() => 1,
        _ => c.width().unwrap_or(1),
    }
}
