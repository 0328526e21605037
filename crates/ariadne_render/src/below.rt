//! The rows below the source row of a line: those of its labels, or one of underlines alone; and the
//! bars of the gutter, which begin and end with them.

ghost use Rattle.std.specs.Prelude.{◌≡◌, ◌+◌, ◌++◌, ◌<◌, ◌^◌, IfSome, OnOk, false, length};
ghost use Rattle.std.specs.Prelude.{slice_get};
ghost use Rattle.std.specs.List.{enumerate_from, list_any};
ghost use Rattle.ariadne_picture.specs.Lists.{joined};
ghost use Rattle.ariadne_picture.specs.Ranks.{is_start};
ghost use Rattle.ariadne_picture.specs.Rows.{label_rows, lone_rows};
ghost use Rattle.ariadne_layout.specs.Tables.{tab_columns};
ghost use Rattle.ariadne_layout.specs.Snippets.{labels_at, layout_at, sheet_at};
ghost use Rattle.ariadne_render.specs.Writers.{DrawsRowsOf, IsAtRank, IsBelowAt, IsBesideAt};
ghost use Rattle.ariadne_render.specs.Writers.{WritesRowsOf};

use crate::rows::{push_alternate_row, push_arrow_row};
use crate::writer::Writer;
use ariadne_base::SourceText;
use ariadne_layout::snippet_line::SnippetLine;
use ariadne_layout::table::LineTable;
use ariadne_picture::label_info::Side;
use std::alloc::AllocError;

/// Writes the rows below a line: those of its labels, or one of underlines alone.
pub(crate) fn push_rows_below<I: SourceText>(
    writer: &mut Writer<'_>,
    table: &mut LineTable,
    shown: &SnippetLine<'_, I>,
) -> Result<(), AllocError>
    requires columns_fit { tab_columns writer.old.pen.page.switches (layout_at shown.now) < 2 ^ 63 }
    requires at { IsBelowAt shown.now 0 writer.old }
    ensures at { OnOk result (IsBelowAt shown.now (length (labels_at shown.now)) writer.new) }
    ensures drawn { let v = shown.now in let compact = writer.old.pen.page.switches.compact in
        let rows = joined (label_rows compact v.line) (enumerate_from 0 (labels_at v)) in
        OnOk result (DrawsRowsOf v.snippet (rows ++ lone_rows (sheet_at v) v.line)
        writer.old writer.new) }
{
    let layout = shown.layout();
    if !layout.has_rows() {
        return push_lone_row(writer, table, shown);
    }
    table.fill(writer.pen.page().switches(), layout)?;
    for rank in 0..layout.labels().len() {
        push_label(writer, table, shown, rank)?;
        pass_label(writer, table, shown, rank)?;
    }
    Ok(())
}

/// Writes the row of underlines alone, if the line has one: none of its labels has a message.
fn push_lone_row<I: SourceText>(
    writer: &mut Writer<'_>,
    table: &mut LineTable,
    shown: &SnippetLine<'_, I>,
) -> Result<(), AllocError>
    requires columns_fit { tab_columns writer.old.pen.page.switches (layout_at shown.now) < 2 ^ 63 }
    requires at { IsBelowAt shown.now 0 writer.old }
    requires silent { list_any (λ x. x.info.has_message) (labels_at shown.now) ≡ false }
    ensures { let v = shown.now in let rows = lone_rows (sheet_at v) v.line in
        OnOk result (WritesRowsOf v.snippet rows writer.old writer.new) }
{
    let layout = shown.layout();
    if !layout.is_lone(writer.pen.page().switches()) {
        return Ok(());
    }
    table.fill(writer.pen.page().switches(), layout)?;
    push_alternate_row(writer, table, shown, layout.labels().len())
}

/// Writes the rows of the line label of a rank: underlines and verticals, and the arrow to its
/// message. Without a message it has none.
fn push_label<I: SourceText>(
    writer: &mut Writer<'_>,
    table: &LineTable,
    shown: &SnippetLine<'_, I>,
    rank: usize,
) -> Result<(), AllocError>
    requires rank { rank < length (labels_at shown.now) }
    requires at { IsAtRank shown.now rank writer.old table.now }
    ensures { let v = shown.now in let compact = writer.old.pen.page.switches.compact in
        IfSome (slice_get (labels_at v) rank) (λ x. OnOk result
        (WritesRowsOf v.snippet (label_rows compact v.line (rank, x)) writer.old writer.new)) }
{
    let labels = shown.layout().labels();
    let label = &labels[rank];
    if !label.info.has_message {
        return Ok(());
    }
    if writer.pen.page().switches().compact {
        return push_arrow_row(writer, table, shown, rank, label);
    }
    push_alternate_row(writer, table, shown, rank)?;
    push_arrow_row(writer, table, shown, rank, label)
}

/// Goes on to what stands below the rows of a line label: its own vertical is seen no more, and its
/// own bar begins or has ended.
fn pass_label<I: SourceText>(
    writer: &mut Writer<'_>,
    table: &mut LineTable,
    shown: &SnippetLine<'_, I>,
    rank: usize,
) -> Result<(), AllocError>
    requires rank { rank < length (labels_at shown.now) }
    requires at { IsAtRank shown.now rank writer.old table.old }
    ensures at { OnOk result (IsAtRank shown.now (rank + 1) writer.new table.new) }
    ensures pen { OnOk result (writer.new.pen ≡ writer.old.pen) }
{
    let layout = shown.layout();
    let labels = layout.labels();
    let label = &labels[rank];
    table.verticals.pass(layout, rank);
    if label.side.is_inline() {
        return Ok(());
    }
    writer.gutter.set(label.gutter_column, starts(label.side))
}

/// Begins the bar of a line's margin label, if it has one that starts there.
pub(crate) fn start_margin<I: SourceText>(
    writer: &mut Writer<'_>,
    shown: &SnippetLine<'_, I>,
) -> Result<(), AllocError>
    requires at { IsBesideAt shown.now.snippet shown.now.line writer.old }
    ensures at { OnOk result (IsBelowAt shown.now 0 writer.new) }
    ensures pen { OnOk result (writer.new.pen ≡ writer.old.pen) }
{
    match shown.layout().margin() {
        None => Ok(()),
        Some(margin) => {
            if starts(margin.side) {
                writer.gutter.set(margin.gutter_column, true)
            } else {
                Ok(())
            }
        }
    }
}

/// Whether a label starts at its line and ends on a later one.
#[tactic(auto, unfolding(ariadne_picture::specs::Ranks::is_start))]
fn starts(side: Side) -> bool
    ensures { result ≡ is_start side }
{
    matches!(side, Side::Starts)
}
