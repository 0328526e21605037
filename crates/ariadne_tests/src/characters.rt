//! Characters that are counted, and found, in texts of many bytes.

use crate::comparing::assert_is;
use ariadne_base::blocks::count::count_chars;
use ariadne_base::blocks::place::byte_of_char;

/// 66 characters of one to four bytes in turn: sixteen times four, in ten bytes, and two more.
const MIXED: &str = "aé漢😀aé漢😀aé漢😀aé漢😀aé漢😀aé漢😀aé漢😀aé漢😀aé漢😀aé漢😀aé漢😀aé漢😀aé漢😀aé漢😀aé漢😀aé漢😀aé";

/// Numbers of its characters, each with the byte at which the character begins.
const PLACES: &[(usize, usize)] = &[
    (0, 0),
    (1, 1),
    (3, 6),
    (4, 10),
    (64, 160),
    (65, 161),
    (66, 163),
    (67, 163),
];

#[test]
fn characters_are_counted_and_found(rt: HostRuntime) {
    let counts = (count_chars(""), count_chars("é漢"), count_chars(MIXED));
    assert_is(&rt, counts, (0, 2, 66));
    for &(number, place) in PLACES {
        assert_is(&rt, (number, byte_of_char(MIXED, number)), (number, place))
    }
}
