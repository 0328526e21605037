//! The number of characters of a text.

ghost use Rattle.std.specs.Prelude.{◌≡◌, ◌<◌, chars, length};
ghost use Rattle.std.specs.Fmt.{is_char_start};
ghost use Rattle.std.specs.List.{count_by};

use super::marks::starts;
use std::simd::prelude::*;

/// The number of characters of a text.
pub fn count_chars(text: &str) -> usize
    ensures { result ≡ length (chars text.now) }
{
    count_starts(text.as_bytes())
}

/// The number of first bytes of characters.
fn count_starts(bytes: &[u8]) -> usize
    ensures { result ≡ count_by is_char_start bytes.now }
{
    let mut count = 0;
    let mut at = 0;
    while bytes.len() - at >= 64 {
        let block = u8x64::from_slice(&bytes[at..]);
        count += starts(block).count_ones() as usize;
        at += 64;
    }
    count + count_starts_plain(&bytes[at..])
}

/// The same, byte by byte.
fn count_starts_plain(bytes: &[u8]) -> usize
    ensures { result ≡ count_by is_char_start bytes.now }
{
    bytes.iter().filter(|byte| begins_char(**byte)).count()
}

/// Whether a byte is the first of a character.
#[inline(always)]
pub(super) fn begins_char(byte: u8) -> bool
    ensures { result ≡ is_char_start byte }
{
    byte < 0x80 || 0xc0 <= byte
}
