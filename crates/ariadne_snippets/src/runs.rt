//! Runs of marks in a row. Each character of such a row has one column, but for a tab of a terminal.

ghost use Rattle.std.specs.Prelude.{◌≡◌, ◌+◌, ◌*◌, ◌^◌, ◌<◌, ◌≤◌, length, All, IfOk, OnOk};
ghost use Rattle.ariadne_snippets.specs.Marks.{goes_on as goes_on_with, is_mark as is_of_mark};
ghost use Rattle.ariadne_snippets.specs.Marks.{joined as joined_with, runs_from};
ghost use Rattle.ariadne_snippets.specs.Marks.{run_of as run_of_mark, width_of};
ghost use Rattle.ariadne_snippets.specs.Marks.{with_last, IsNear};

use crate::run::Run;
use ariadne_parse::Unit;
use std::alloc::{AllocError, Global};

/// How far tabs of a terminal stand from each other.
const TAB_STOP: usize = 8;

/// The run of one mark in a column.
fn run_of(mark: u8, column: usize) -> Run
    requires { column + 1 < 2 ^ 63 }
    ensures { result ≡ run_of_mark mark column }
{
    Run {
        start: column,
        end: column + 1,
        caret: if mark == b'^' { Some(column) } else { None },
        is_dashed: mark == b'-',
    }
}

/// Whether a byte is a mark.
pub(crate) fn is_mark(byte: u8) -> bool
    ensures { result ≡ is_of_mark byte }
{
    byte == b'^' || byte == b'~' || byte == b'-'
}

/// How many columns a character of a row takes, behind this many.
#[tactic(auto, unfolding(crate::specs::Marks::width_of))]
fn columns_of(unit: Unit, at: usize, byte: u8) -> usize
    ensures width { result ≡ width_of unit at byte }
    ensures bound { result ≤ 8 }
{
    match unit {
        Unit::Display if byte == b'\t' => TAB_STOP - at % TAB_STOP,
        _ => 1,
    }
}

/// The runs of marks in a row that begins in a column, in their order.
pub(crate) fn runs_in(
    alloc: Global,
    unit: Unit,
    start: usize,
    row: &[u8],
) -> Result<Vec<Run>, AllocError>
    requires { start + 8 * length row.now < 2 ^ 63 }
    ensures runs { IfOk result (λ runs. runs.items ≡ runs_from unit start row.now) }
    ensures near { IfOk result (λ runs. All IsNear runs.items) }
{
    let mut runs = Vec::new(alloc);
    let mut column = start;
    for byte in row {
        if is_mark(*byte) {
            push_mark(&mut runs, run_of(*byte, column))?;
        }
        column += columns_of(unit, column, *byte);
    }
    Ok(runs)
}

/// Adds a mark: to the last run, if that ends where it stands and is of its kind.
fn push_mark(runs: &mut Vec<Run>, mark: Run) -> Result<(), AllocError>
    ensures { OnOk result (runs.new.items ≡ with_last runs.old.items mark) }
{
    match runs.pop() {
        Some(last) if goes_on(&last, &mark) => {
            runs.push(joined(&last, &mark))?;
            Ok(())
        }
        Some(last) => {
            runs.push(last)?;
            runs.push(mark)?;
            Ok(())
        }
        None => {
            runs.push(mark)?;
            Ok(())
        }
    }
}

/// Both as one.
fn joined(run: &Run, mark: &Run) -> Run
    ensures { result ≡ joined_with run.now mark.now }
{
    Run {
        start: run.start,
        end: mark.end,
        caret: run.caret.or(mark.caret),
        is_dashed: run.is_dashed,
    }
}

/// Whether a mark goes on with a run.
fn goes_on(run: &Run, mark: &Run) -> bool
    ensures { result ≡ goes_on_with run.now mark.now }
{
    run.end == mark.start && run.is_dashed == mark.is_dashed
}

/// The column of the first `^` of a row: that of its end, if it has none.
pub(crate) fn caret_column(unit: Unit, row: &[u8]) -> usize
    requires { length row.now < 2 ^ 59 }
    ensures { result < 2 ^ 63 }
{
    let mut column = 0;
    for byte in row {
        if *byte == b'^' {
            return column;
        }
        column += columns_of(unit, column, *byte);
    }
    column
}
