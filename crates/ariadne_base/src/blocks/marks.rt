//! Marks in a block of 64 bytes: bit k of a mark stands for byte k of the block.

ghost use Rattle.std.specs.Prelude.{◌≡◌, ◌≢◌, ℕ, ◌+◌, ◌%◌, ◌^◌, ◌<◌, ◌≤◌, cond, map, length};
ghost use Rattle.std.specs.Prelude.{drop, nat_le, slice_index, take};
ghost use Rattle.std.specs.Fmt.{is_char_start};
ghost use Rattle.std.specs.Int.{bit_at};
ghost use Rattle.std.specs.Int.RustNames.{count_ones};
ghost use Rattle.std.specs.Simd.Lanes.{mask_l};
ghost use Rattle.ariadne_base.specs.Separators.{is_control, begins_wide, separator_at};

use std::simd::prelude::*;

/// The marks of a block.
#[derive(Clone, Copy)]
pub(super) struct Block {
    /// The starts of separators.
    pub(super) separators: u64,
    /// The starts of characters.
    pub(super) starts: u64,
}

/// The marks of 64 bytes from a position. The last separator may end in the two bytes after the
/// block.
#[inline(always)]
pub(super) fn block_at(bytes: &[u8], at: usize) -> Block
    requires { at + 66 ≤ length bytes.now }
    ensures separators { (k : ℕ) → k < 64
        → bit_at result.separators k ≡ cond (separator_at bytes.now (at + k)) 1 0 }
    ensures starts { result.starts ≡ mask_l (map is_char_start (take 64 (drop at bytes.now))) }
{
    let first = u8x64::from_slice(&bytes[at..]);
    let controls = controls(first);
    if high(first) == 0 {
        return Block {
            separators: controls,
            starts: u64::MAX,
        };
    }
    let second = u8x64::from_slice(&bytes[at + 1..]);
    let third = u8x64::from_slice(&bytes[at + 2..]);
    Block {
        separators: controls | wide_separators(first, second, third),
        starts: starts(first),
    }
}

/// Marks the bytes past ASCII.
#[inline(always)]
fn high(block: u8x64) -> u64
    ensures { result ≡ mask_l (map (λ b. nat_le 128 b) block) }
{
    block.simd_ge(u8x64::splat(0x80)).to_bitmask()
}

/// Marks the separators of one byte.
#[inline(always)]
fn controls(block: u8x64) -> u64
    ensures { result ≡ mask_l (map is_control block) }
{
    (block - u8x64::splat(10))
        .simd_le(u8x64::splat(3))
        .to_bitmask()
}

/// Marks the first bytes of longer separators, from each byte and the next two.
#[inline(always)]
fn wide_separators(first: u8x64, second: u8x64, third: u8x64) -> u64
    ensures { (k : ℕ) → k < 64 → bit_at result k
        ≡ cond (begins_wide (slice_index first k) (slice_index second k) (slice_index third k)) 1 0 }
{
    let of_two = first.simd_eq(u8x64::splat(0xc2)) & second.simd_eq(u8x64::splat(0x85));
    let of_three = first.simd_eq(u8x64::splat(0xe2))
        & second.simd_eq(u8x64::splat(0x80))
        & (third & u8x64::splat(0xfe)).simd_eq(u8x64::splat(0xa8));
    (of_two | of_three).to_bitmask()
}

/// Marks the first bytes of characters.
#[inline(always)]
pub(super) fn starts(block: u8x64) -> u64
    ensures { result ≡ mask_l (map is_char_start block) }
{
    // All other bytes are 0x80 to 0xBF. With 0x80 added, these are below 0x40, so one comparison a
    // vector is enough.
    (block + u8x64::splat(0x80))
        .simd_ge(u8x64::splat(0x40))
        .to_bitmask()
}

/// The position of the first mark.
#[inline(always)]
pub(super) fn lowest(marks: u64) -> usize
    requires { marks ≢ 0 }
    ensures bound { result < 64 }
    ensures set { bit_at marks result ≡ 1 }
    ensures below { (k : ℕ) → k < result → bit_at marks k ≡ 0 }
{
    marks.trailing_zeros() as usize
}

/// The number of marks before a position.
#[inline(always)]
pub(super) fn count_below(marks: u64, place: usize) -> usize
    requires { place < 64 }
    ensures { result ≡ count_ones (marks % 2 ^ place) }
{
    (marks & ((1 << place) - 1)).count_ones() as usize
}
