//! The text of a help that shows which lines change.

ghost use Rattle.std.specs.Prelude.{◌≡◌, ◌-◌, ◌++◌, ◌&&◌, ◌≤◌, not, IfOk, OnOk, chars};
ghost use Rattle.std.specs.Prelude.{decimal, length, replicate, string_bytes};
ghost use Rattle.ariadne_base.specs.Listing.{listed_lines};
ghost use Rattle.ariadne_edits.specs.Views.{text_of_counterpart};
ghost use Rattle.ariadne_edits.specs.HelpTexts.{drawn_row, drawn_text, greatest_number as greatest};
ghost use Rattle.ariadne_edits.specs.HelpTexts.{is_drawn as shows, line_shown, number_of as shown_number};
ghost use Rattle.ariadne_edits.specs.HelpTexts.{number_width as columns_of_numbers, parting};
ghost use Rattle.ariadne_edits.specs.HelpTexts.{row_number as number_in, row_text};

use crate::body::push_blanks;
use crate::cut::{View, push_line};
use crate::line::text_of;
use crate::rows::{Look, Row};
use ariadne_base::Source;
use std::alloc::{AllocError, Global};

/// How rows are laid out.
#[derive(Clone, Copy)]
pub struct Layout {
    /// How many columns the numbers of lines take.
    pub width: usize,
    /// What is added to the numbers of lines.
    pub offset: usize,
    /// How lines are shown.
    pub view: View,
}

/// Where a row stands among those that are drawn.
#[derive(Clone, Copy)]
pub struct Standing {
    /// It is the first.
    pub is_first: bool,
    /// Lines that are kept stand in front of it.
    pub is_apart: bool,
}

/// The rows as text: of each line that changes its number, its sign and what is shown of it. `...`
/// stands for lines between that don't.
///
/// On `Err` there was no memory for it.
pub(crate) fn drawn(
    alloc: Global,
    layout: Layout,
    old: &Source<&str>,
    new: &Source<&str>,
    rows: &[Row],
) -> Result<String, AllocError>
    requires tabs { 1 ≤ layout.view.tab_width }
    ensures { IfOk result (λ text. string_bytes text
        ≡ drawn_text layout (listed_lines old.now) (listed_lines new.now) rows.now) }
{
    let mut out = String::new(alloc);
    let mut standing = Standing {
        is_first: true,
        is_apart: false,
    };
    for row in rows {
        push_drawn(alloc, &mut out, layout, old, new, standing, *row)?;
        standing = behind(standing, *row);
    }
    Ok(out)
}

/// Where the row behind one stands.
fn behind(standing: Standing, row: Row) -> Standing
    ensures first { result.is_first ≡ (standing.is_first && not (shows row)) }
    ensures apart { result.is_apart ≡ not (shows row) }
{
    let is_drawn = is_drawn(row);
    Standing {
        is_first: standing.is_first && !is_drawn,
        is_apart: !is_drawn,
    }
}

/// Whether something is drawn of a row.
fn is_drawn(row: Row) -> bool
    ensures { result ≡ shows row }
{
    matches!(row, Row::Removed(_, _) | Row::Added(_, _))
}

/// Appends what is drawn of a row.
fn push_drawn(
    alloc: Global,
    out: &mut String,
    layout: Layout,
    old: &Source<&str>,
    new: &Source<&str>,
    standing: Standing,
    row: Row,
) -> Result<(), AllocError>
    requires tabs { 1 ≤ layout.view.tab_width }
    ensures { OnOk result (string_bytes out.new ≡ string_bytes out.old
        ++ drawn_row layout (listed_lines old.now) (listed_lines new.now)
        standing.is_first standing.is_apart row) }
{
    match row {
        Row::Kept(_, _) => Ok(()),
        Row::KeptLast(_, _) => Ok(()),
        Row::Removed(i, look) => {
            push_parting(out, standing, layout.width)?;
            push_row(alloc, out, layout, " - ", old, i, look, new)
        }
        Row::Added(j, look) => {
            push_parting(out, standing, layout.width)?;
            push_row(alloc, out, layout, " + ", new, j, look, old)
        }
    }
}

/// Appends what parts a row from the one above it.
#[tactic(auto, unfolding(crate::specs::HelpTexts::parting))]
fn push_parting(out: &mut String, standing: Standing, width: usize) -> Result<(), AllocError>
    ensures { OnOk result (string_bytes out.new ≡ string_bytes out.old
        ++ parting standing.is_first standing.is_apart width) }
{
    if standing.is_first {
        return Ok(());
    }
    out.push_str("\n")?;
    if standing.is_apart {
        push_blanks(out, width.saturating_sub(3))?;
        out.push_str("...\n")?;
    }
    Ok(())
}

/// Appends a row: line `i` of a text, whose counterparts are lines of another.
fn push_row(
    alloc: Global,
    out: &mut String,
    layout: Layout,
    sign: &str,
    lines: &Source<&str>,
    i: usize,
    look: Look,
    others: &Source<&str>,
) -> Result<(), AllocError>
    requires tabs { 1 ≤ layout.view.tab_width }
    ensures { OnOk result (string_bytes out.new ≡ string_bytes out.old
        ++ row_text layout.width (shown_number layout.offset i) sign.now
        (line_shown layout.view (listed_lines lines.now) i look (listed_lines others.now))) }
{
    push_number(alloc, out, layout.width, number_of(layout.offset, i))?;
    out.push_str(sign)?;
    let other = counterpart_text(others, look.counterpart);
    push_line(
        alloc,
        out,
        layout.view,
        look.blanks,
        text_of(lines, i),
        other,
    )
}

/// The text of a counterpart, which is empty where there is none.
fn counterpart_text<'a>(others: &'a Source<&str>, counterpart: Option<usize>) -> &'a str
    ensures { chars result.now ≡ text_of_counterpart (listed_lines others.now) counterpart }
{
    match counterpart {
        None => "",
        Some(number) => text_of(others, number),
    }
}

/// Appends a number at the end of so many columns.
fn push_number(
    alloc: Global,
    out: &mut String,
    width: usize,
    number: usize,
) -> Result<(), AllocError>
    ensures { OnOk result (string_bytes out.new ≡ string_bytes out.old
        ++ (replicate (width - length (decimal number)) 32 ++ decimal number)) }
{
    let digits = format!(in alloc; "{number}")?;
    push_blanks(out, width.saturating_sub(digits.len()))?;
    out.push_str(digits.as_str())
}

/// The number that is shown of a line, which counts from 0.
fn number_of(offset: usize, line: usize) -> usize
    ensures { result ≡ shown_number offset line }
{
    offset.saturating_add(line).saturating_add(1)
}

/// How many columns the numbers of rows take.
///
/// On `Err` there was no memory to find out.
pub(crate) fn number_width(alloc: Global, offset: usize, rows: &[Row]) -> Result<usize, AllocError>
    ensures { IfOk result (λ width. width ≡ columns_of_numbers offset rows.now) }
{
    let digits = format!(in alloc; "{}", greatest_number(offset, rows))?;
    Ok(digits.len())
}

/// The greatest number that a row shows.
fn greatest_number(offset: usize, rows: &[Row]) -> usize
    ensures { result ≡ greatest offset rows.now }
{
    let mut number = 0;
    for row in rows {
        number = row_number(offset, *row).max(number);
    }
    number
}

/// The number that a row shows, or 0.
fn row_number(offset: usize, row: Row) -> usize
    ensures { result ≡ number_in offset row }
{
    match row {
        Row::Kept(_, _) => 0,
        Row::KeptLast(_, _) => 0,
        Row::Removed(i, _) => number_of(offset, i),
        Row::Added(j, _) => number_of(offset, j),
    }
}
