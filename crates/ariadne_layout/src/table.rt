//! What is seen at the places of one line, found once for the line.

ghost use Rattle.std.specs.Prelude.{◌≡◌, ◌<◌, ◌≤◌, ◌^◌, OnOk, [], length};
ghost use Rattle.std.specs.List.{All};
ghost use Rattle.std.specs.List.Sorted.{IsStrictlyIncreasing};
ghost use Rattle.ariadne_picture.specs.Columns.{arrow_len};
ghost use Rattle.ariadne_picture.specs.Strokes.{underline_row};
ghost use Rattle.ariadne_layout.specs.Tables.{ArePaints, IsTable, OthersHoldNone, tab_columns};

use crate::layout::LineLayout;
use crate::line_columns::LineColumns;
use crate::stretches::{Stretch, find_paints, find_underlines};
use crate::verticals::Verticals;
use ariadne_picture::label_info::LabelInfo;
use ariadne_picture::switches::Switches;
use std::alloc::{AllocError, Global};

/// The places of one line, and what is seen there in the source row and in the rows below it.
#[derive(Drop)]
pub struct LineTable {
    /// How many places the rows below the line have.
    pub len: usize,
    /// The column that each place begins at.
    pub columns: LineColumns,
    /// The verticals of the line labels that are still to be written.
    pub verticals: Verticals,
    /// The rank of the alternate row that has the underlines.
    pub underline_row: usize,
    /// The labels whose underlines are seen there.
    pub underlines: Vec<Stretch>,
    /// The labels that colour the shown characters.
    pub paints: Vec<Stretch>,
}

impl LineTable {
    /// A table of no line, to be filled.
    pub fn new(alloc: Global) -> LineTable
        ensures len { result.len ≡ 0 }
        ensures columns { result.columns ≡ [] }
        ensures verticals { result.verticals ≡ [] }
        ensures underline_row { result.underline_row ≡ 0 }
        ensures underlines { result.underlines.items ≡ [] }
        ensures paints { result.paints.items ≡ [] }
    {
        LineTable {
            len: 0,
            columns: LineColumns::new(alloc),
            verticals: Verticals::new(alloc),
            underline_row: 0,
            underlines: Vec::new(alloc),
            paints: Vec::new(alloc),
        }
    }

    /// Finds what the rows below a line show, all of whose labels are still to be written.
    ///
    /// The compact form has no row with underlines, so it finds none there. On `Err` there was no
    /// memory for it, and what is held is of no line.
    pub fn fill(&mut self, switches: &Switches, layout: &LineLayout<'_>) -> Result<(), AllocError>
        requires tabs { 1 ≤ switches.now.tab_width }
        requires columns_fit { tab_columns switches.now layout.now < 2 ^ 63 }
        requires places_fit { arrow_len switches.now layout.now < 2 ^ 64 }
        ensures { OnOk result (IsTable switches.now layout.now 0 self.new) }
    {
        self.len = layout.arrow_len(switches);
        self.underline_row = underline_row(layout);
        // This takes more memory than it keeps, so the lists that stay come after it.
        if !switches.compact {
            find_underlines(switches, layout, self.len, &mut self.underlines)?;
        }
        self.columns.fill(switches, layout, self.len)?;
        self.verticals.fill(layout)
    }

    /// Finds the labels that colour the shown characters of a line.
    ///
    /// `multi_line` are the multi-line labels of the line's group, and `touching` the numbers,
    /// rising, of those that may hold a shown character of the line. On `Err` there was no memory
    /// for it, and the colours that are held are of no line. All else that is held stays.
    pub fn fill_paints(
        &mut self,
        layout: &LineLayout<'_>,
        multi_line: &[LabelInfo],
        touching: &[usize],
    ) -> Result<(), AllocError>
        requires within { All (λ i. i < length multi_line.now) touching.now }
        requires rising { IsStrictlyIncreasing touching.now }
        requires touching { OthersHoldNone multi_line.now touching.now layout.now }
        ensures paints { OnOk result (ArePaints multi_line.now layout.now self.new.paints.items) }
        ensures others { record self.new { paints = self.old.paints } ≡ self.old }
    {
        find_paints(layout, multi_line, touching, &mut self.paints)
    }
}

/// The rank of the first line label that has a message, whose alternate row has the underlines.
fn underline_row(layout: &LineLayout<'_>) -> usize
    ensures { result ≡ underline_row layout.now }
{
    let labels = layout.labels();
    let first = labels.iter().position(|label| label.info.has_message);
    first.unwrap_or(labels.len())
}
