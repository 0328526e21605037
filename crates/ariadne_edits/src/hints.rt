//! Which lines may be kept. `rows` keeps no line that isn't the same, so what is found here decides how
//! few lines are shown: each line that no change touches is among them.

ghost use Rattle.std.specs.Prelude.{◌≡◌, ◌+◌, ◌-◌, ◌≤◌, ◌<◌, ◌^◌, ◌++◌, ℕ, IfOk, OnOk, length};
ghost use Rattle.std.specs.List.{AllByRecursion};
ghost use Rattle.ariadne_base.specs.Listing.{listed_lines};
ghost use Rattle.ariadne_edits.specs.Changes.{edited_text, Fit};
ghost use Rattle.ariadne_edits.specs.KeptLines.{IsPaired, IsUntouched};
ghost use Rattle.ariadne_edits.specs.Stays.{AreStays, IsInside, from_reaching, pair_at, pairs_in};

use crate::change::Change;
use crate::line::text_of;
use ariadne_base::Source;
use std::alloc::{AllocError, Global};

/// A piece of the source that stays: where it begins and ends there, and where it begins in the edited
/// text. Offsets count bytes.
#[derive(Clone, Copy)]
struct Stay {
    start: usize,
    end: usize,
    to: usize,
}

/// The pairs of lines that changes of `old` may leave as they are: a line, and each line of `new`, the
/// edited text, that begins at the same byte.
///
/// On `Err` there was no memory for them.
pub(crate) fn pairs(
    alloc: Global,
    old: &Source<&str>,
    new: &Source<&str>,
    changes: &[Change<'_>],
) -> Result<Vec<(usize, usize)>, AllocError>
    requires fit { Fit old.now.text 0 changes.now }
    requires edited { new.now.text ≡ edited_text old.now.text changes.now }
    ensures { IfOk result (λ pairs. (i : ℕ) → IsUntouched old.now.text changes.now i
        → IsPaired (listed_lines old.now) (listed_lines new.now) pairs.items i) }
{
    let stays = stays(alloc, old.text(), changes, new.text().len())?;
    let mut rest = stays.as_slice();
    let mut pairs = Vec::new(alloc);
    let mut begin = 0;
    for i in 0..old.lines().len() {
        rest = reaching(rest, begin);
        push_pairs(&mut pairs, new, rest, i, begin)?;
        begin += text_of(old, i).len();
    }
    Ok(pairs)
}

/// The pieces from the first that reaches up to a byte.
fn reaching<'a>(stays: &'a [Stay], begin: usize) -> &'a [Stay]
    ensures { result.now ≡ from_reaching begin stays.now }
{
    let mut passed = 0;
    while passed < stays.len() && stays[passed].end < begin {
        passed += 1;
    }
    &stays[passed..]
}

/// Appends the pairs of line `i`, which begins at a byte.
fn push_pairs(
    pairs: &mut Vec<(usize, usize)>,
    new: &Source<&str>,
    stays: &[Stay],
    i: usize,
    begin: usize,
) -> Result<(), AllocError>
    requires inside { AllByRecursion (IsInside (length new.now.text) begin) stays.now }
    requires fits { length new.now.text < 2 ^ 64 }
    ensures { OnOk result (pairs.new.items
        ≡ pairs.old.items ++ pairs_in (listed_lines new.now) i begin stays.now) }
{
    for stay in stays {
        if stay.start > begin {
            return Ok(());
        }
        push_pair(pairs, new, i, stay.to + (begin - stay.start))?;
    }
    Ok(())
}

/// Appends line `i` with the line of the edited text that begins at a byte, if one does.
fn push_pair(
    pairs: &mut Vec<(usize, usize)>,
    new: &Source<&str>,
    i: usize,
    to: usize,
) -> Result<(), AllocError>
    requires { to ≤ length new.now.text }
    ensures { OnOk result (pairs.new.items ≡ pairs.old.items ++ pair_at (listed_lines new.now) i to) }
{
    let (_, j, column) = new.get_byte_line(to).unwrap();
    if column == 0 {
        pairs.push((i, j))?;
    }
    Ok(())
}

/// The pieces of a text that changes leave, which are trimmed first. The edited text has `size` bytes.
fn stays(
    alloc: Global,
    text: &str,
    changes: &[Change<'_>],
    size: usize,
) -> Result<Vec<Stay>, AllocError>
    requires fit { Fit text.now 0 changes.now }
    requires edited { length (edited_text text.now changes.now) ≡ size }
    ensures are { IfOk result (λ stays.
        AreStays (length text.now) size 0 0 0 0 changes.now stays.items) }
    ensures fits { OnOk result (length text.now < 2 ^ 64) }
{
    let mut stays = Vec::new(alloc);
    // where the text behind the last change begins, in both texts, and how many bytes in front stay too
    let mut at = 0;
    let mut to = 0;
    let mut back = 0;
    for change in changes {
        let trim = trim_of(text.as_bytes(), change);
        let end = change.start + trim.front;
        stays.push(Stay {
            start: at - back,
            end,
            to: to - back,
        })?;
        to += change.start - at + change.text.len();
        at = change.end;
        back = trim.back;
    }
    let end = text.len();
    stays.push(Stay {
        start: at - back,
        end,
        to: to - back,
    })?;
    Ok(stays)
}

/// What a change has in common with what it replaces, in bytes.
#[derive(Clone, Copy)]
struct Trim {
    /// How many bytes are the same in front.
    front: usize,
    /// How many bytes are the same behind.
    back: usize,
}

/// What a change of a text has in common with what it replaces.
fn trim_of(text: &[u8], change: &Change<'_>) -> Trim
    requires rises { change.now.start ≤ change.now.end }
    requires within { change.now.end ≤ length text.now }
    ensures old { change.now.start + (result.front + result.back) ≤ change.now.end }
    ensures new { result.front + result.back ≤ length change.now.text.now }
{
    let old = &text[change.start..change.end];
    let new = change.text.as_bytes();
    let front = common_front(old, new);
    let back = common_back(&old[front..], &new[front..]);
    Trim { front, back }
}

/// How many bytes two texts have in common in front.
fn common_front(old: &[u8], new: &[u8]) -> usize
    ensures old { result ≤ length old.now }
    ensures new { result ≤ length new.now }
{
    let mut count = 0;
    while count < old.len() && count < new.len() && old[count] == new[count] {
        count += 1;
    }
    count
}

/// How many bytes two texts have in common behind.
fn common_back(old: &[u8], new: &[u8]) -> usize
    ensures old { result ≤ length old.now }
    ensures new { result ≤ length new.now }
{
    let mut count = 0;
    while count < old.len()
        && count < new.len()
        && old[old.len() - 1 - count] == new[new.len() - 1 - count]
    {
        count += 1;
    }
    count
}
