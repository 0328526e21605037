//! The text up to the next separator.

ghost use Rattle.std.specs.Prelude.{◌≡◌, ◌<◌, ◌≤◌, ◌↔◌, true, chars, length, slice_index, take, IsTrue};
ghost use Rattle.std.specs.Str.{IsCharBoundary, NonePass};
ghost use Rattle.ariadne_base.specs.Lines.{is_separator};
ghost use Rattle.ariadne_base.specs.Separators.{IsPlain, is_control, separator_at};

use super::count::begins_char;
use super::marks::{block_at, count_below, lowest};

/// A run of characters.
#[derive(Clone, Copy)]
pub(crate) struct Run {
    /// The number of bytes.
    pub bytes: usize,
    /// The number of characters.
    pub chars: usize,
}

/// The run of characters before the first separator of a text, or the whole text if the text has no
/// separator.
#[inline(always)]
pub(crate) fn plain_run(text: &str) -> Run
    ensures cut { IsCharBoundary text.now result.bytes }
    ensures plain { NonePass (λ c. is_separator c) (chars (take result.bytes text.now)) }
    ensures count { result.chars ≡ length (chars (take result.bytes text.now)) }
{
    plain_bytes(text.as_bytes())
}

/// The number of bytes before the first separator, and the number of characters beginning there.
#[inline(always)]
fn plain_bytes(bytes: &[u8]) -> Run
    ensures plain { IsPlain bytes.now result.bytes result.chars }
    ensures end { result.bytes < length bytes.now
        → separator_at bytes.now result.bytes ≡ true }
{
    // Blank lines are common, and need no block.
    if begins_with_control(bytes) {
        return Run { bytes: 0, chars: 0 };
    }
    let mut at = 0;
    let mut chars = 0;
    while bytes.len() - at >= 66 {
        let block = block_at(bytes, at);
        if block.separators != 0 {
            let first = lowest(block.separators);
            return Run {
                bytes: at + first,
                chars: chars + count_below(block.starts, first),
            };
        }
        at += 64;
        chars += block.starts.count_ones() as usize;
    }
    plain_bytes_from(bytes, at, chars)
}

/// The same, byte by byte from a position.
#[inline(never)]
fn plain_bytes_from(bytes: &[u8], from: usize, begun: usize) -> Run
    requires { IsPlain bytes.now from begun }
    ensures plain { IsPlain bytes.now result.bytes result.chars }
    ensures end { result.bytes < length bytes.now
        → separator_at bytes.now result.bytes ≡ true }
{
    let mut at = from;
    let mut chars = begun;
    while at < bytes.len() {
        if is_printable_ascii(bytes[at]) {
            chars += 1;
        } else if begins_at(bytes, at) {
            break;
        } else if begins_char(bytes[at]) {
            chars += 1;
        }
        at += 1;
    }
    Run { bytes: at, chars }
}

/// Whether a byte is ASCII and not a control character.
#[inline(always)]
fn is_printable_ascii(byte: u8) -> bool
    ensures { IsTrue result ↔ ((32 ≤ byte) × (byte < 127)) }
{
    (32..127).contains(&byte)
}

/// Whether the first byte is a separator.
#[inline(always)]
#[tactic(auto, using(std::proofs::lemmas::Bool::Decides::nat_tests), unfolding(crate::specs::Separators::is_control))]
fn begins_with_control(bytes: &[u8]) -> bool
    ensures { result ≡ is_control (slice_index bytes.now 0) }
{
    matches!(byte_or_zero(bytes, 0), 10..=13)
}

/// Whether a separator begins at a byte.
#[tactic(auto, using(std::proofs::lemmas::Bool::Decides::nat_tests), unfolding(crate::specs::Separators::is_control, crate::specs::Separators::begins_wide))]
fn begins_at(bytes: &[u8], at: usize) -> bool
    requires { at < length bytes.now }
    ensures { result ≡ separator_at bytes.now at }
{
    match bytes[at] {
        10..=13 => true,
        0xc2 => byte_or_zero(bytes, at + 1) == 0x85,
        0xe2 => {
            byte_or_zero(bytes, at + 1) == 0x80
                && matches!(byte_or_zero(bytes, at + 2), 0xa8 | 0xa9)
        }
        _ => false,
    }
}

/// The byte at a position, or 0 past the end.
fn byte_or_zero(bytes: &[u8], at: usize) -> u8
    ensures { result ≡ slice_index bytes.now at }
{
    match bytes.get(at) {
        Some(byte) => *byte,
        None => 0,
    }
}
