//! The lines of a source and of the edited text, side by side.

ghost use Rattle.std.specs.Prelude.{◌≡◌, ◌+◌, ◌<◌, ◌≤◌, ◌^◌, ◌⊎◌, ℕ, IfOk, IfSome, IsSome, IsTrue, OnOk};
ghost use Rattle.std.specs.Prelude.{chars, length, Some};
ghost use Rattle.ariadne_base.specs.Listing.{listed_lines};
ghost use Rattle.ariadne_edits.specs.Counterparts.{EndInRun, EndKept, HaveCounterparts, line_in};
ghost use Rattle.ariadne_edits.specs.KeptLines.{AreSame, HasKept, IsPaired, KeepAlso};
ghost use Rattle.ariadne_edits.specs.SuggestionRows.{AreMarked, IsKept, IsLastOf, Tell, TellFirst};
ghost use Rattle.ariadne_edits.specs.declared.rows.Row.TheVariants.{Kept, KeptLast};

use crate::line::{are_twins, is_terminated, text_of};
use ariadne_base::Source;
use std::alloc::{AllocError, Global};

/// How the white space of a line is shown.
#[derive(Clone, Copy)]
pub enum Blanks {
    /// As blanks.
    Plain,
    /// By signs, since nothing else tells the line from the one that it stands for.
    Marked,
}

/// How a line is shown that changes.
#[derive(Clone, Copy)]
pub struct Look {
    /// How its white space is shown.
    pub blanks: Blanks,
    /// Its counterpart in the other text, if it has one: of lines that are removed and added at one
    /// place the first are each other's counterparts, and so on.
    pub counterpart: Option<usize>,
}

/// A line of the source, of the edited text, or of both. Lines count from 0.
#[derive(Clone, Copy)]
pub enum Row {
    /// This line of the source stands unchanged as that of the edited text.
    Kept(usize, usize),
    /// The same, but for the terminator: the last line of one text has none, and in the other further
    /// lines follow.
    KeptLast(usize, usize),
    /// This line of the source is gone.
    Removed(usize, Look),
    /// This line of the edited text is new.
    Added(usize, Look),
}

/// The lines that change between two that are kept.
#[derive(Clone, Copy)]
struct Run {
    /// The first line of the source, and one past the last.
    old_from: usize,
    old_to: usize,
    /// The same of the edited text.
    new_from: usize,
    new_to: usize,
}

/// The rows that tell how the lines of `old` become those of `new`. Of the pairs of lines that may be
/// kept, those are that are the same and lie behind the last.
///
/// On `Err` there was no memory for them.
pub(crate) fn rows(
    alloc: Global,
    old: &Source<&str>,
    new: &Source<&str>,
    pairs: &[(usize, usize)],
) -> Result<Vec<Row>, AllocError>
    ensures told { IfOk result (λ rows.
        Tell (listed_lines old.now) (listed_lines new.now) rows.items) }
    ensures kept { IfOk result (λ rows. (i : ℕ)
        → IsPaired (listed_lines old.now) (listed_lines new.now) pairs.now i → HasKept rows.items i) }
    ensures counterparts { IfOk result (λ rows. HaveCounterparts (0, 0)
        (length (listed_lines old.now), length (listed_lines new.now)) rows.items) }
{
    let mut rows = Vec::new(alloc);
    let mut told = (0, 0);
    for pair in pairs {
        told = push_pair(alloc, &mut rows, old, new, told, *pair)?;
    }
    let run = Run {
        old_from: told.0,
        old_to: old.lines().len(),
        new_from: told.1,
        new_to: new.lines().len(),
    };
    push_run(alloc, &mut rows, old, new, run)?;
    Ok(rows)
}

/// Appends the rows up to a pair of lines, if it is kept, behind those of the first lines of both. Gives
/// how many lines are told then.
fn push_pair(
    alloc: Global,
    rows: &mut Vec<Row>,
    old: &Source<&str>,
    new: &Source<&str>,
    told: (usize, usize),
    pair: (usize, usize),
) -> Result<(usize, usize), AllocError>
    requires there { told.0 ≤ length (listed_lines old.now) }
    requires new_there { told.1 ≤ length (listed_lines new.now) }
    ensures there { IfOk result (λ next. next.0 ≤ length (listed_lines old.now)) }
    ensures new_there { IfOk result (λ next. next.1 ≤ length (listed_lines new.now)) }
    ensures told { let TellTo = TellFirst (listed_lines old.now) (listed_lines new.now) in
        IfOk result (λ next. TellTo told.0 told.1 rows.old.items
        → TellTo next.0 next.1 rows.new.items) }
    ensures next { IfOk result (λ next. (next ≡ told) ⊎ (next ≡ (pair.0 + 1, pair.1 + 1))) }
    ensures keeps { OnOk result (KeepAlso rows.old.items rows.new.items) }
    ensures kept { OnOk result (told.0 ≤ pair.0 → told.1 ≤ pair.1
        → AreSame (listed_lines old.now) (listed_lines new.now) pair.0 pair.1
        → HasKept rows.new.items pair.0) }
    ensures counterparts { IfOk result (λ next.
        EndKept told rows.old.items → EndKept next rows.new.items) }
{
    let (old_from, new_from) = told;
    let (old_to, new_to) = pair;
    if old_to < old_from || new_to < new_from {
        return Ok(told);
    }
    match kept(old, old_to, new, new_to) {
        None => Ok(told),
        Some(row) => {
            let run = Run {
                old_from,
                old_to,
                new_from,
                new_to,
            };
            push_run(alloc, rows, old, new, run)?;
            rows.push(row)?;
            Ok((old_to + 1, new_to + 1))
        }
    }
}

/// The row of a line of the source that is kept as one of the edited text, if it is the same.
fn kept(old: &Source<&str>, i: usize, new: &Source<&str>, j: usize) -> Option<Row>
    ensures kept { IfSome result (IsKept (listed_lines old.now) (listed_lines new.now) i j) }
    ensures same { AreSame (listed_lines old.now) (listed_lines new.now) i j
        → result ≡ Some (Kept i j) }
    ensures is { IfSome result (λ row. (row ≡ Kept i j) ⊎ (row ≡ KeptLast i j)) }
    ensures fits { IsSome result → (i + 1 < 2 ^ 64) × (j + 1 < 2 ^ 64) }
{
    if old.lines().len() <= i || new.lines().len() <= j {
        None
    } else if text_of(old, i) == text_of(new, j) {
        Some(Row::Kept(i, j))
    } else if is_last_of(old, i, new, j) || is_last_of(new, j, old, i) {
        Some(Row::KeptLast(i, j))
    } else {
        None
    }
}

/// Whether line `i` is the last of a text, and stands without a terminator as line `j` of another,
/// where a terminator and further lines follow.
fn is_last_of(bare: &Source<&str>, i: usize, whole: &Source<&str>, j: usize) -> bool
    requires there { i < length (listed_lines bare.now) }
    requires other { j < length (listed_lines whole.now) }
    ensures { IsTrue result → IsLastOf (listed_lines bare.now) (listed_lines whole.now) i j }
{
    let bare_len = bare.lines().len();
    let whole_len = whole.lines().len();
    i + 1 == bare_len && j + 1 < whole_len && is_terminated(text_of(bare, i), text_of(whole, j))
}

/// Appends the rows of lines that change: first those of the source, then those of the edited text.
fn push_run(
    alloc: Global,
    rows: &mut Vec<Row>,
    old: &Source<&str>,
    new: &Source<&str>,
    run: Run,
) -> Result<(), AllocError>
    requires old_rise { run.old_from ≤ run.old_to }
    requires new_rise { run.new_from ≤ run.new_to }
    requires old_there { run.old_to ≤ length (listed_lines old.now) }
    requires new_there { run.new_to ≤ length (listed_lines new.now) }
    ensures told { let TellTo = TellFirst (listed_lines old.now) (listed_lines new.now) in
        OnOk result (TellTo run.old_from run.new_from rows.old.items
        → TellTo run.old_to run.new_to rows.new.items) }
    ensures keeps { OnOk result (KeepAlso rows.old.items rows.new.items) }
    ensures counterparts { let InRun = EndInRun (run.old_from, run.new_from) (run.old_to, run.new_to) in
        OnOk result (InRun rows.old.items → InRun rows.new.items) }
{
    push_removed(alloc, rows, old, new, run)?;
    push_added(alloc, rows, old, new, run)
}

/// Appends that the lines of the source are gone.
fn push_removed(
    alloc: Global,
    rows: &mut Vec<Row>,
    old: &Source<&str>,
    new: &Source<&str>,
    run: Run,
) -> Result<(), AllocError>
    requires rise { run.old_from ≤ run.old_to }
    requires there { run.new_to ≤ length (listed_lines new.now) }
    ensures told { let TellTo = TellFirst (listed_lines old.now) (listed_lines new.now) in
        OnOk result (TellTo run.old_from run.new_from rows.old.items
        → TellTo run.old_to run.new_from rows.new.items) }
    ensures keeps { OnOk result (KeepAlso rows.old.items rows.new.items) }
    ensures counterparts { let InRun = EndInRun (run.old_from, run.new_from) (run.old_to, run.new_to) in
        OnOk result (InRun rows.old.items → InRun rows.new.items) }
{
    for i in run.old_from..run.old_to {
        let counterpart = counterpart_of(i - run.old_from, run.new_from, run.new_to);
        let look = look_of(alloc, text_of(old, i), new, counterpart)?;
        rows.push(Row::Removed(i, look))?;
    }
    Ok(())
}

/// Appends that the lines of the edited text are new.
fn push_added(
    alloc: Global,
    rows: &mut Vec<Row>,
    old: &Source<&str>,
    new: &Source<&str>,
    run: Run,
) -> Result<(), AllocError>
    requires rise { run.new_from ≤ run.new_to }
    requires there { run.old_to ≤ length (listed_lines old.now) }
    ensures told { let TellTo = TellFirst (listed_lines old.now) (listed_lines new.now) in
        OnOk result (TellTo run.old_to run.new_from rows.old.items
        → TellTo run.old_to run.new_to rows.new.items) }
    ensures keeps { OnOk result (KeepAlso rows.old.items rows.new.items) }
    ensures counterparts { let InRun = EndInRun (run.old_from, run.new_from) (run.old_to, run.new_to) in
        OnOk result (InRun rows.old.items → InRun rows.new.items) }
{
    for j in run.new_from..run.new_to {
        let counterpart = counterpart_of(j - run.new_from, run.old_from, run.old_to);
        let look = look_of(alloc, text_of(new, j), old, counterpart)?;
        rows.push(Row::Added(j, look))?;
    }
    Ok(())
}

/// The line at a place of those from one on, if there are so many.
fn counterpart_of(place: usize, from: usize, to: usize) -> Option<usize>
    ensures is { result ≡ line_in from to place }
    ensures within { IfSome result (λ number. number < to) }
{
    let number = from.checked_add(place)?;
    if number < to { Some(number) } else { None }
}

/// How a line is shown that has this counterpart in another text, if it has one.
fn look_of(
    alloc: Global,
    line: &str,
    other: &Source<&str>,
    counterpart: Option<usize>,
) -> Result<Look, AllocError>
    requires { IfSome counterpart (λ number. number < length (listed_lines other.now)) }
    ensures marked { IfOk result (λ look.
        AreMarked look.blanks (chars line.now) (listed_lines other.now)) }
    ensures counterpart { IfOk result (λ look. look.counterpart ≡ counterpart) }
{
    let blanks = blanks_of(alloc, line, other, counterpart)?;
    Ok(Look {
        blanks,
        counterpart,
    })
}

/// How the white space of a line is shown that has this counterpart in another text, if it has one.
fn blanks_of(
    alloc: Global,
    line: &str,
    other: &Source<&str>,
    counterpart: Option<usize>,
) -> Result<Blanks, AllocError>
    requires { IfSome counterpart (λ number. number < length (listed_lines other.now)) }
    ensures { IfOk result (λ blanks. AreMarked blanks (chars line.now) (listed_lines other.now)) }
{
    match counterpart {
        Some(number) => {
            if are_twins(alloc, line, text_of(other, number))? {
                Ok(Blanks::Marked)
            } else {
                Ok(Blanks::Plain)
            }
        }
        None => Ok(Blanks::Plain),
    }
}
