//! The rows of the lines of a snippet, from its first line to its last. Lines without labels that stand
//! near one with some are shown; the others are hidden.

ghost use Rattle.std.specs.Prelude.{◌≡◌, ◌+◌, ◌-◌, ◌<◌, ◌≤◌, [], None, OnOk, false, length};
ghost use Rattle.std.specs.Prelude.{max, min, option_map, slice_get, true};
ghost use Rattle.std.specs.List.{range_with_len};
ghost use Rattle.ariadne_picture.specs.Lists.{joined};
ghost use Rattle.ariadne_picture.specs.Ranks.{first_line, group_lines, is_hidden_line, last_line};
ghost use Rattle.ariadne_picture.specs.Ranks.{multi_line_labels};
ghost use Rattle.ariadne_picture.specs.Rows.{line_rows};
ghost use Rattle.ariadne_layout.specs.Tables.{ArePaints};
ghost use Rattle.ariadne_layout.specs.SnippetLabels.{events_of};
ghost use Rattle.ariadne_layout.specs.Snippets.{layout_at, sheet_at, sheet_in};
ghost use Rattle.ariadne_render.specs.DrawnLines.{AreBetween, AreContext, AreEventsOf, AreHidden};
ghost use Rattle.ariadne_render.specs.DrawnLines.{IsAt, begins_run};
ghost use Rattle.ariadne_render.specs.Writers.{DrawsRowsOf};

use crate::below::{push_rows_below, start_margin};
use crate::long_line::{LongLine, known_bytes, remember};
use crate::pen::Pen;
use crate::rows::{push_bare_row, push_gap_row, push_source_row};
use crate::writer::Writer;
use ariadne_base::SourceText;
use ariadne_layout::cuts::Cuts;
use ariadne_layout::layout::LineLayout;
use ariadne_layout::snippet::Snippet;
use ariadne_layout::snippet_labels::SnippetLabels;
use ariadne_layout::snippet_line::SnippetLine;
use ariadne_layout::table::LineTable;
use ariadne_picture::label_info::LineLabel;
use std::alloc::{AllocError, Global};
use std::ops::Range;

/// The lists of the group and of the line that are drawn. They are made once a picture, and filled
/// anew for each group and for each line.
#[derive(Drop)]
pub struct Lists<'a> {
    pub sheet: SnippetLabels<'a>,
    pub labels: Vec<LineLabel>,
    pub table: LineTable,
    /// What is seen of the line, where it is cut.
    pub cuts: Cuts,
    /// The last line of the source that was shown with much white space at its end.
    pub long_line: Option<LongLine>,
}

impl<'a> Lists<'a> {
    /// Lists of no group.
    pub fn new(alloc: Global) -> Lists<'a>
        ensures sheet { result.sheet ≡ record { labels = []; line = 0 } }
        ensures labels { result.labels.items ≡ [] }
        ensures table { result.table.len ≡ 0 }
        ensures long_line { result.long_line ≡ None }
    {
        Lists {
            sheet: SnippetLabels::new(alloc),
            labels: Vec::new(alloc),
            table: LineTable::new(alloc),
            cuts: Cuts::new(alloc),
            long_line: None,
        }
    }
}

/// Writes the rows of all lines of a snippet. The lists are at its first line.
///
/// On `Err` there was no memory for them.
pub(crate) fn push_lines<I: SourceText>(
    writer: &mut Writer<'_>,
    lists: &mut Lists<'_>,
    snippet: &Snippet<'_, I>,
) -> Result<(), AllocError>
    requires at { IsAt snippet.now (first_line (sheet_in snippet.now)) writer.old lists.old }
    ensures at { let behind = last_line (sheet_in snippet.now) + 1 in
        OnOk result (IsAt snippet.now behind writer.new lists.new) }
    ensures drawn { let s = sheet_in snippet.now in
        let rows = joined (line_rows s) (group_lines s) in
        OnOk result (DrawsRowsOf snippet.now rows writer.old writer.new) }
{
    let context = snippet.switches().context_lines;
    let mut line = snippet.first_line();
    let behind = snippet.last_line() + 1;
    // Of the lines without labels those before it are near one above them.
    let mut near = line;
    let mut event = 0;
    while let Some(next) = event_line(&lists.sheet, event) {
        let hidden = hidden_lines(near, next.saturating_sub(context), next);
        push_lines_between(writer, lists, snippet, line..next, hidden)?;
        let end = lists.sheet.line_end(event);
        push_line(writer, lists, snippet, next, event, end)?;
        line = next + 1;
        near = line.saturating_add(context);
        event = end;
    }
    let hidden = hidden_lines(near, behind, behind);
    push_lines_between(writer, lists, snippet, line..behind, hidden)
}

/// The line of an event of a group, where there are so many events.
fn event_line(sheet: &SnippetLabels<'_>, event: usize) -> Option<usize>
    ensures { result ≡ option_map (λ e. e.line) (slice_get (events_of sheet.now.labels) event) }
{
    sheet.events().get(event).map(|event| event.line)
}

/// The hidden lines before line `next`, of which those before `near` and those from `far` on are
/// shown.
fn hidden_lines(near: usize, far: usize, next: usize) -> Range<usize>
    ensures start { result.start ≡ min near next }
    ensures end { result.end ≡ max far (min near next) }
{
    let start = near.min(next);
    start..far.max(start)
}

/// Writes the rows of lines without labels, of which these are hidden and the others shown.
///
/// On `Err` there was no memory for them.
fn push_lines_between<I: SourceText>(
    writer: &mut Writer<'_>,
    lists: &mut Lists<'_>,
    snippet: &Snippet<'_, I>,
    lines: Range<usize>,
    hidden: Range<usize>,
) -> Result<(), AllocError>
    requires at { IsAt snippet.now lines.start writer.old lists.old }
    requires within { lines.end ≤ length (sheet_in snippet.now).lines }
    requires between { AreBetween (sheet_in snippet.now) lines hidden }
    ensures at { OnOk result (IsAt snippet.now lines.end writer.new lists.new) }
    ensures drawn { let numbers = range_with_len lines.start (lines.end - lines.start) in
        let rows = joined (line_rows (sheet_in snippet.now)) numbers in
        OnOk result (DrawsRowsOf snippet.now rows writer.old writer.new) }
{
    push_context_lines(writer, lists, snippet, lines.start, hidden.start)?;
    push_hidden_lines(writer, lists, snippet, hidden.start, hidden.end)?;
    push_context_lines(writer, lists, snippet, hidden.end, lines.end)
}

/// Writes the lines without labels that are shown, from a line to before another: a source row each.
///
/// On `Err` there was no memory for them.
fn push_context_lines<I: SourceText>(
    writer: &mut Writer<'_>,
    lists: &mut Lists<'_>,
    snippet: &Snippet<'_, I>,
    first: usize,
    behind: usize,
) -> Result<(), AllocError>
    requires at { IsAt snippet.now first writer.old lists.old }
    requires up { first ≤ behind }
    requires within { behind ≤ length (sheet_in snippet.now).lines }
    requires context { AreContext (sheet_in snippet.now) first behind }
    ensures at { OnOk result (IsAt snippet.now behind writer.new lists.new) }
    ensures drawn { let numbers = range_with_len first (behind - first) in
        let rows = joined (line_rows (sheet_in snippet.now)) numbers in
        OnOk result (DrawsRowsOf snippet.now rows writer.old writer.new) }
{
    for line in first..behind {
        push_line(writer, lists, snippet, line, 0, 0)?;
    }
    Ok(())
}

/// Writes the row in place of the hidden lines from a line to before another, if there is one.
///
/// On `Err` there was no memory for it.
fn push_hidden_lines<I: SourceText>(
    writer: &mut Writer<'_>,
    lists: &mut Lists<'_>,
    snippet: &Snippet<'_, I>,
    line: usize,
    next: usize,
) -> Result<(), AllocError>
    requires at { IsAt snippet.now line writer.old lists.old }
    requires up { line ≤ next }
    requires within { next ≤ length (sheet_in snippet.now).lines }
    requires hidden { AreHidden (sheet_in snippet.now) line next }
    ensures at { OnOk result (IsAt snippet.now next writer.new lists.new) }
    ensures drawn { let numbers = range_with_len line (next - line) in
        let rows = joined (line_rows (sheet_in snippet.now)) numbers in
        OnOk result (DrawsRowsOf snippet.now rows writer.old writer.new) }
{
    if line < next {
        push_hidden(writer, lists, snippet, line)
    } else {
        Ok(())
    }
}

/// Writes the row in place of the hidden lines from a line on, if there is one.
///
/// On `Err` there was no memory for it.
fn push_hidden<I: SourceText>(
    writer: &mut Writer<'_>,
    lists: &mut Lists<'_>,
    snippet: &Snippet<'_, I>,
    line: usize,
) -> Result<(), AllocError>
    requires at { IsAt snippet.now line writer.old lists.old }
    requires within { line < length (sheet_in snippet.now).lines }
    requires hidden { is_hidden_line (sheet_in snippet.now) line ≡ true }
    requires run { begins_run (sheet_in snippet.now) line ≡ true }
    ensures at { OnOk result (IsAt snippet.now line writer.new lists.new) }
    ensures drawn { let rows = line_rows (sheet_in snippet.now) line in
        OnOk result (DrawsRowsOf snippet.now rows writer.old writer.new) }
{
    lists.sheet.go_to(line)?;
    if lists.sheet.is_inside(snippet.line_offset(line)) {
        return push_gap_row(writer, snippet, line);
    }
    if writer.pen.page().switches().compact {
        return Ok(());
    }
    push_bare_row(&mut writer.pen, snippet, line)
}

/// Writes the rows of a line that is shown, whose events are those from `from` to before `to`.
fn push_line<I: SourceText>(
    writer: &mut Writer<'_>,
    lists: &mut Lists<'_>,
    snippet: &Snippet<'_, I>,
    line: usize,
    from: usize,
    to: usize,
) -> Result<(), AllocError>
    requires at { IsAt snippet.now line writer.old lists.old }
    requires within { line < length (sheet_in snippet.now).lines }
    requires shown { is_hidden_line (sheet_in snippet.now) line ≡ false }
    requires events { AreEventsOf (sheet_in snippet.now).labels line from to }
    ensures at { OnOk result (IsAt snippet.now (line + 1) writer.new lists.new) }
    ensures drawn { let rows = line_rows (sheet_in snippet.now) line in
        OnOk result (DrawsRowsOf snippet.now rows writer.old writer.new) }
{
    let Lists {
        sheet,
        labels,
        table,
        cuts,
        long_line,
    } = lists;
    let margin = sheet.rank(from, to, labels)?;
    let offset = snippet.line_offset(line);
    let text = snippet.line_text(line, known_bytes(*long_line, line));
    let parts = cuts.parts_of(writer.pen.page().switches(), margin, labels, offset, &text)?;
    let layout = LineLayout::new(margin, labels, offset, &text, parts);
    let shown = SnippetLine::new(snippet, line, layout);
    find_paints(&writer.pen, sheet, table, &shown)?;
    push_source_row(writer, &shown, &table.paints)?;
    start_margin(writer, &shown)?;
    remember(long_line, line, shown.layout());
    push_rows_below(writer, table, &shown)
}

/// Finds the labels that colour the shown characters of a line, if there are colours.
///
/// On `Err` there was no memory for them.
fn find_paints<I: SourceText>(
    pen: &Pen<'_>,
    sheet: &mut SnippetLabels<'_>,
    table: &mut LineTable,
    shown: &SnippetLine<'_, I>,
) -> Result<(), AllocError>
    requires onward { sheet.old.line ≤ shown.now.line }
    requires labels { sheet.old.labels ≡ (sheet_at shown.now).labels }
    ensures labels { OnOk result (sheet.new.labels ≡ sheet.old.labels) }
    ensures onward { OnOk result (sheet.new.line ≤ shown.now.line) }
    ensures paints { pen.now.page.palette.is_on ≡ true → OnOk result
        (ArePaints (multi_line_labels (sheet_at shown.now).labels) (layout_at shown.now)
        table.new.paints.items) }
{
    if !pen.page().is_colored() {
        return Ok(());
    }
    sheet.go_to(shown.line())?;
    table.fill_paints(shown.layout(), sheet.multi_line(), sheet.touching())
}
