//! The first bytes of characters.

ghost use Rattle.std.specs.Prelude.{◌≡◌, ◌≤◌, chars, encode_utf8_all, length, take};
ghost use Rattle.std.specs.Fmt.{is_char_start};
ghost use Rattle.std.specs.List.{count_by};
ghost use Rattle.ariadne_base.specs.Separators.{HasBegun, IsCharPlace};

use super::count::begins_char;
use super::marks::starts;
use std::simd::prelude::*;

/// The number of bytes before character `number` of a text, from 0. If the text has fewer
/// characters, the number of all bytes.
pub fn byte_of_char(text: &str, number: usize) -> usize
    ensures { result ≡ length (encode_utf8_all (take number (chars text.now))) }
{
    place_of(text.as_bytes(), number)
}

/// The position of the first byte of character `number`, or the end.
fn place_of(bytes: &[u8], number: usize) -> usize
    ensures { IsCharPlace bytes.now number result }
{
    let mut at = 0;
    let mut count = 0;
    while bytes.len() - at >= 64 {
        let begun = starts(u8x64::from_slice(&bytes[at..])).count_ones() as usize;
        if number - count < begun {
            break;
        }
        count += begun;
        at += 64;
    }
    place_from(bytes, number, at, count)
}

/// The same, byte by byte from a position with `begun` characters before.
fn place_from(bytes: &[u8], number: usize, from: usize, begun: usize) -> usize
    requires { HasBegun bytes.now number from begun }
    ensures { IsCharPlace bytes.now number result }
{
    let mut at = from;
    let mut count = begun;
    while at < bytes.len() {
        if begins_char(bytes[at]) {
            if count == number {
                break;
            }
            count += 1;
        }
        at += 1;
    }
    at
}
