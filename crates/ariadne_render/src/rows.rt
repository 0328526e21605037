//! The rows of a line: one writer for each.
//!
//! ```text
//!     Error: unknown column                                    header
//!        ,-[ stock.sql:1:14 ]                                  group header
//!        |                                                     spacer
//!      1 | ,-> SELECT name, prise                              source row: margin | gutter text area
//!        | |                ^^|^^                              alternate row: underline, vertical
//!        | |                  `---- not in `fruit`             arrow row: corner, horizontal, message
//!        : :                                                   gap row, for hidden lines
//!      3 | |-> WHERE price < 2                                 source row, where the long label ends
//!        | |                                                   alternate row: its gutter bar goes on
//!        | `--------------------- in this query                arrow row, from the gutter's corner
//!     ---'                                                     tail
//! ```

ghost use Rattle.std.specs.Prelude.{◌≡◌, ◌<◌, ◌^◌, true, false, Some, OnOk, slice_get};
ghost use Rattle.ariadne_picture.specs.Pieces.{message_pieces};
ghost use Rattle.ariadne_picture.specs.Ranks.{is_hidden_line};
ghost use Rattle.ariadne_picture.specs.Rows.{alternate, arrow, bare, gap, source};
ghost use Rattle.ariadne_layout.specs.Tables.{tab_columns};
ghost use Rattle.ariadne_layout.specs.Snippets.{labels_at, layout_at, sheet_in};
ghost use Rattle.ariadne_render.specs.Pages.{Draws, DrawsRow};
ghost use Rattle.ariadne_render.specs.RowTexts.{IsOnPage, row_of};
ghost use Rattle.ariadne_render.specs.Writers.{ArePaintsAt, IsAtRank, IsBesideAt, WritesRowOf};

use crate::area::{push_alternate_area, push_arrow_area};
use crate::pen::Pen;
use crate::shown::push_shown;
use crate::writer::Writer;
use ariadne_base::SourceText;
use ariadne_layout::snippet::Snippet;
use ariadne_layout::snippet_line::SnippetLine;
use ariadne_layout::stretches::Stretch;
use ariadne_layout::table::LineTable;
use ariadne_picture::label_info::{LineLabel, Side};
use std::alloc::AllocError;

/// Writes the source row of a line. `paints` are the labels that colour its characters; without
/// colours they are not read.
///
/// ```text
///      1 | ,-> SELECT name, prise
/// ```
pub fn push_source_row<I: SourceText>(
    writer: &mut Writer<'_>,
    shown: &SnippetLine<'_, I>,
    paints: &[Stretch],
) -> Result<(), AllocError>
    requires at { IsBesideAt shown.now.snippet shown.now.line writer.old }
    requires paints { writer.old.pen.page.palette.is_on ≡ true → ArePaintsAt shown.now paints.now }
    ensures drawn { let v = shown.now in
        OnOk result (WritesRowOf v.snippet (source v.line) writer.old writer.new) }
    ensures tabs { OnOk result
        (tab_columns writer.old.pen.page.switches (layout_at shown.now) < 2 ^ 63) }
{
    let layout = shown.layout();
    writer
        .pen
        .push_line_margin(shown.display_offset(), shown.line())?;
    writer.gutter.push_source(&mut writer.pen, layout.margin())?;
    push_shown(&mut writer.pen, layout, paints)?;
    writer.pen.end_row()
}

/// Writes the alternate row of the line label of rank `rank` of a line, or the one below the rows of
/// all its labels. Compact pictures have none.
///
/// ```text
///        | |                ^^|^^
/// ```
pub fn push_alternate_row<I: SourceText>(
    writer: &mut Writer<'_>,
    table: &LineTable,
    shown: &SnippetLine<'_, I>,
    rank: usize,
) -> Result<(), AllocError>
    requires at { IsAtRank shown.now rank writer.old table.now }
    requires loose { writer.old.pen.page.switches.compact ≡ false }
    ensures { let v = shown.now in
        OnOk result (WritesRowOf v.snippet (alternate v.line rank) writer.old writer.new) }
{
    writer.pen.push_margin()?;
    writer.gutter.push_bars(&mut writer.pen)?;
    push_alternate_area(
        &mut writer.pen,
        table,
        shown.layout(),
        shown.has_arrow_heads(),
        rank,
    )?;
    writer.pen.end_row()
}

/// Writes the arrow row of the line label of rank `rank` of a line, which is `own`: its arrow and
/// its message. Where it starts it shows none.
///
/// ```text
///        | |                  `---- not in `fruit`
/// ```
pub fn push_arrow_row<I: SourceText>(
    writer: &mut Writer<'_>,
    table: &LineTable,
    shown: &SnippetLine<'_, I>,
    rank: usize,
    own: &LineLabel,
) -> Result<(), AllocError>
    requires at { IsAtRank shown.now rank writer.old table.now }
    requires label { slice_get (labels_at shown.now) rank ≡ Some own.now }
    ensures { let v = shown.now in
        OnOk result (WritesRowOf v.snippet (arrow v.line rank) writer.old writer.new) }
{
    writer.pen.push_margin()?;
    writer.gutter.push_arrow(&mut writer.pen, own)?;
    push_arrow_area(&mut writer.pen, table, shown.layout(), rank, own)?;
    push_message(&mut writer.pen, shown, own)?;
    writer.pen.end_row()
}

/// Writes the message of a label of a line behind its arrow. Where the label starts it shows none.
fn push_message<I: SourceText>(
    pen: &mut Pen<'_>,
    shown: &SnippetLine<'_, I>,
    own: &LineLabel,
) -> Result<(), AllocError>
    ensures { let pieces = message_pieces shown.now.snippet.texts (Some own.now) in
        OnOk result (Draws pen.old pen.new pieces) }
{
    match own.side {
        Side::Starts => Ok(()),
        Side::Inline | Side::Ends => {
            pen.push_char(' ')?;
            pen.push_text(shown.message_of(own))
        }
    }
}

/// Writes the row in place of hidden lines of a snippet, the first of which is `line` and begins
/// inside a label over several lines.
///
/// ```text
///        : :
/// ```
pub fn push_gap_row<I: SourceText>(
    writer: &mut Writer<'_>,
    snippet: &Snippet<'_, I>,
    line: usize,
) -> Result<(), AllocError>
    requires at { IsBesideAt snippet.now line writer.old }
    requires hidden { is_hidden_line (sheet_in snippet.now) line ≡ true }
    ensures { OnOk result (WritesRowOf snippet.now (gap line) writer.old writer.new) }
{
    writer.pen.push_gap_margin()?;
    writer.gutter.push_gap(&mut writer.pen)?;
    writer.pen.end_row()
}

/// Writes the row in place of other hidden lines of a snippet, the first of which is `line`.
///
/// ```text
///        |
/// ```
pub fn push_bare_row<I: SourceText>(
    pen: &mut Pen<'_>,
    snippet: &Snippet<'_, I>,
    line: usize,
) -> Result<(), AllocError>
    requires { IsOnPage snippet.now.texts snippet.now.section pen.old.page }
    ensures { let row = row_of pen.old.page snippet.now (bare line) in
        OnOk result (DrawsRow pen.old pen.new row) }
{
    pen.push_margin()?;
    pen.end_row()
}
