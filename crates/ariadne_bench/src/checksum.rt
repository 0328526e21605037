//! The checksum of a result: FNV-1a with 64 bits.

use ariadne::{Source, SourceText};

const START: u64 = 0xcbf2_9ce4_8422_2325;

const PRIME: u64 = 0x100_0000_01b3;

/// A checksum with a byte added.
fn with_byte(checksum: u64, byte: u8) -> u64 {
    (checksum ^ u64::from(byte)).wrapping_mul(PRIME)
}

/// A checksum with the bytes of a number added, the low byte first.
fn with_number(checksum: u64, number: usize) -> u64 {
    let mut sum = checksum;
    for byte in (number as u64).to_le_bytes() {
        sum = with_byte(sum, byte);
    }
    sum
}

/// The checksum of the bytes of a picture.
pub fn of_bytes(bytes: &[u8]) -> u64 {
    let mut sum = START;
    for byte in bytes {
        sum = with_byte(sum, *byte);
    }
    sum
}

/// The checksum of the lines of a source: the offset and the length of each, in characters.
pub fn of_lines<I: SourceText>(source: &Source<I>) -> u64 {
    let mut sum = START;
    for line in source.lines() {
        sum = with_number(with_number(sum, line.offset()), line.len());
    }
    sum
}
