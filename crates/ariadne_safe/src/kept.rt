//! What is shown of a text as it is: the run of characters before the first that a sign stands for.

ghost use Rattle.std.specs.Prelude.{◌≡◌, ◌≢◌, ◌≤◌, ◌<◌, ℕ, not, cond, map, length};
ghost use Rattle.std.specs.Prelude.{chars, slice_index};
ghost use Rattle.std.specs.Int.{bit_at};
ghost use Rattle.std.specs.Simd.Lanes.{mask_l};
ghost use Rattle.ariadne_safe.specs.Visible.{is_between, visible_text};
ghost use Rattle.ariadne_safe.specs.Kept.{IsKept, IsPlainRun, first_kept, last_kept};
ghost use Rattle.ariadne_safe.specs.Kept.{is_plain as stays_plain};

use crate::text::{TextKind, shown_char};
use std::simd::prelude::*;

/// The controls of ASCII that stay in a text wherever they stand.
#[derive(Clone, Copy)]
struct Layout {
    first: u8,
    last: u8,
}

/// Those of a text of this kind. (Where none stays they are the blank, which is none.)
fn layout_of(kind: TextKind) -> Layout
    ensures first { result.first ≡ first_kept kind }
    ensures last { result.last ≡ last_kept kind }
    ensures forward { result.first ≤ result.last }
{
    let (first, last) = match kind {
        TextKind::OneRow => (b' ', b' '),
        TextKind::Aside => (b'\n', b'\n'),
        TextKind::Lines => (b'\t', b'\r'),
        TextKind::CompilerLines => (b'\t', b'\n'),
    };
    Layout { first, last }
}

/// The number of bytes before the first character of a text that a sign stands for, or of all.
pub(crate) fn kept_run(kind: TextKind, text: &str) -> usize
    ensures kept { IsKept kind text.now result }
    ensures end { result < length text.now
        → visible_text kind (chars text.now) ≢ chars text.now }
{
    let mut kept = 0;
    let mut step = kept_step(kind, text);
    while step > 0 {
        kept += step;
        step = kept_step(kind, &text[kept..]);
    }
    kept
}

/// The number of bytes at the front of a text in one step of such a run: plain ones, or those of a
/// character. None where the run is over.
fn kept_step(kind: TextKind, text: &str) -> usize
    ensures kept { IsKept kind text.now result }
    ensures end { result ≡ 0 → 0 < length text.now
        → visible_text kind (chars text.now) ≢ chars text.now }
{
    let plain = plain_bytes(layout_of(kind), text.as_bytes());
    if plain > 0 {
        return plain;
    }
    let mut rest = text.chars();
    match rest.next() {
        Some(c) if shown_char(kind, c, rest.as_str()) == c => c.len_utf8(),
        _ => 0,
    }
}

/// The number of plain bytes at the front of some.
fn plain_bytes(layout: Layout, bytes: &[u8]) -> usize
    requires { layout.first ≤ layout.last }
    ensures { IsPlainRun layout.first layout.last bytes.now result }
{
    // (Letters past ASCII need no block.)
    if bytes.is_empty() || !is_plain(layout, bytes[0]) {
        return 0;
    }
    let mut at = 0;
    while bytes.len() - at >= 64 {
        let others = others(layout, u8x64::from_slice(&bytes[at..]));
        if others != 0 {
            return at + lowest(others);
        }
        at += 64;
    }
    plain_bytes_from(layout, bytes, at)
}

/// The same, byte by byte from a place on.
fn plain_bytes_from(layout: Layout, bytes: &[u8], from: usize) -> usize
    requires { IsPlainRun layout.first layout.last bytes.now from }
    ensures { IsPlainRun layout.first layout.last bytes.now result }
{
    let mut at = from;
    while at < bytes.len() && is_plain(layout, bytes[at]) {
        at += 1;
    }
    at
}

/// Whether a byte is printable ASCII, or a control that stays.
#[inline(always)]
#[tactic(auto, using(std::proofs::lemmas::Bool::Decides::nat_tests), unfolding(crate::specs::Kept::is_plain))]
fn is_plain(layout: Layout, byte: u8) -> bool
    ensures { result ≡ stays_plain layout.first layout.last byte }
{
    b' ' <= byte && byte <= b'~' || layout.first <= byte && byte <= layout.last
}

/// Marks the bytes that aren't plain: bit k of the mark stands for byte k of the block.
#[inline(always)]
fn others(layout: Layout, block: u8x64) -> u64
    requires { layout.first ≤ layout.last }
    ensures { (k : ℕ) → k < 64 → bit_at result k
        ≡ cond (not (stays_plain layout.first layout.last (slice_index block k))) 1 0 }
{
    outside(block, b' ', b'~') & outside(block, layout.first, layout.last)
}

/// Marks the bytes outside of a range.
#[inline(always)]
fn outside(block: u8x64, first: u8, last: u8) -> u64
    requires { first ≤ last }
    ensures { result ≡ mask_l (map (λ b. not (is_between first last b)) block) }
{
    (block - u8x64::splat(first))
        .simd_gt(u8x64::splat(last - first))
        .to_bitmask()
}

/// The place of the first mark.
#[inline(always)]
fn lowest(marks: u64) -> usize
    requires { marks ≢ 0 }
    ensures bound { result < 64 }
    ensures below { (k : ℕ) → k < result → bit_at marks k ≡ 0 }
{
    marks.trailing_zeros() as usize
}
