//! Where an offset in bytes of a given text stands in the text that is shown of it.

ghost use Rattle.std.specs.Prelude.{◌≡◌, ◌-◌, ◌^◌, min, chars};
ghost use Rattle.ariadne_safe.specs.Sources.{shown_offset as offset_of};

use crate::text::{TextKind, shown_char};

/// Where an offset in bytes of a text stands among the bytes that are shown of it.
///
/// One before a character stands before its sign, one inside a character behind the first byte of
/// its sign, and one past the text as far past what is shown, at most 2.
pub(super) fn shown_offset(kind: TextKind, given: &str, offset: usize) -> usize
    ensures { result ≡ min (offset_of kind (chars given.now) offset) (2 ^ 64 - 1) }
{
    let mut shown: usize = 0;
    let mut left = offset;
    let mut rest = given.chars();
    while let Some(c) = rest.next() {
        let width = c.len_utf8();
        if left < width {
            let inside = left.min(1);
            return shown.saturating_add(inside);
        }
        let sign = shown_char(kind, c, rest.as_str());
        let sign_width = sign.len_utf8();
        left -= width;
        shown = shown.saturating_add(sign_width);
    }
    let past = left.min(2);
    shown.saturating_add(past)
}
