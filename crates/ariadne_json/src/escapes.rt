//! Texts in quotes, in which half a pair that stands alone is U+FFFD.

ghost use Rattle.std.specs.Prelude.{◌≡◌, ◌<◌, ◌++◌, ◌≤◌, ◌==◌, drop, length, not, true, OnOk};
ghost use Rattle.std.specs.List.{list_all, prefix_len};
ghost use Rattle.ariadne_json.specs.Escapes.{begins_with_half as is_begun_with_half};
ghost use Rattle.ariadne_json.specs.Escapes.{begins_with_first as is_begun_with_first};
ghost use Rattle.ariadne_json.specs.Escapes.{begins_with_last as is_begun_with_last};
ghost use Rattle.ariadne_json.specs.Escapes.{begins_with_unit as is_begun_with_unit};
ghost use Rattle.ariadne_json.specs.Escapes.{is_lone_half as is_half_alone, mended_part, mended_text};
ghost use Rattle.ariadne_json.specs.Escapes.{is_hex_digit, part_len as length_of_part};
ghost use Rattle.std.specs.Char.{digit_value as value_of_digit};

use std::alloc::AllocError;

/// The sign U+FFFD, as an escape.
const SIGN: &[u8] = b"\\ufffd";

/// Adds a text of JSON, with a sign for each half of a pair that stands alone in it.
pub(crate) fn push_text(out: &mut Vec<u8>, text: &[u8]) -> Result<(), AllocError>
    ensures { OnOk result (out.new.items ≡ out.old.items ++ mended_text text.now) }
{
    let mut rest = text;
    while !rest.is_empty() {
        let (part, behind) = rest.split_at(part_len(rest).min(rest.len()));
        push_part(out, part)?;
        rest = behind;
    }
    Ok(())
}

/// Adds a part of a text.
fn push_part(out: &mut Vec<u8>, part: &[u8]) -> Result<(), AllocError>
    ensures { OnOk result (out.new.items ≡ out.old.items ++ mended_part part.now) }
{
    if is_lone_half(part) {
        return out.extend_from_slice(SIGN);
    }
    out.extend_from_slice(part)
}

/// How many bytes the first part of a text takes: a pair of halves, one escape, or what stands in front
/// of the next. The last of these may be cut.
#[tactic(auto, unfolding(crate::specs::Escapes::part_len))]
fn part_len(text: &[u8]) -> usize
    requires { 0 < length text.now }
    ensures len { result ≡ length_of_part text.now }
    ensures some { 0 < result }
{
    if begins_with_first(text) && begins_with_last(behind_unit(text)) {
        12
    } else if begins_with_unit(text) {
        6
    } else if text.first() == Some(&b'\\') {
        2
    } else {
        plain_len(text)
    }
}

/// What stands behind an escape `\uXXXX`.
fn behind_unit(text: &[u8]) -> &[u8]
    ensures { result.now ≡ drop 6 text.now }
{
    text.get(6..).unwrap_or(&[])
}

/// How many bytes stand in front of the first backslash.
fn plain_len(text: &[u8]) -> usize
    ensures { result ≡ prefix_len (λ b. not (b == 92)) text.now }
{
    text.iter().take_while(|byte| **byte != b'\\').count()
}

/// Whether a part is half a pair.
fn is_lone_half(part: &[u8]) -> bool
    ensures { result ≡ is_half_alone part.now }
{
    part.len() == 6 && (begins_with_first(part) || begins_with_last(part))
}

/// Whether a text begins with a first half, `\uD800` to `\uDBFF`.
fn begins_with_first(text: &[u8]) -> bool
    ensures { result ≡ is_begun_with_first text.now }
{
    begins_with_half(text, 8, 11)
}

/// Whether a text begins with a last half, `\uDC00` to `\uDFFF`.
fn begins_with_last(text: &[u8]) -> bool
    ensures { result ≡ is_begun_with_last text.now }
{
    begins_with_half(text, 12, 15)
}

/// Whether a text begins with one of `\uDXXX`, whose second digit is one of these.
fn begins_with_half(text: &[u8], least: usize, most: usize) -> bool
    ensures { result ≡ is_begun_with_half least most text.now }
{
    if !begins_with_unit(text) {
        return false;
    }
    let second = digit_value(text[3]);
    digit_value(text[2]) == 13 && least <= second && second <= most
}

/// Whether a text begins with an escape `\uXXXX`.
fn begins_with_unit(text: &[u8]) -> bool
    ensures unit { result ≡ is_begun_with_unit text.now }
    ensures long { result ≡ true → 6 ≤ length text.now }
{
    text.len() >= 6 && text[0] == b'\\' && text[1] == b'u' && are_digits(&text[2..6])
}

/// Whether bytes are digits to the base sixteen.
fn are_digits(bytes: &[u8]) -> bool
    ensures { result ≡ list_all is_hex_digit bytes.now }
{
    bytes.iter().all(|byte| is_digit(*byte))
}

/// Whether a byte is a digit to the base sixteen.
fn is_digit(byte: u8) -> bool
    ensures { result ≡ is_hex_digit byte }
{
    digit_value(byte) < 16
}

/// What a letter or digit is worth as a digit; 36 where it is none.
fn digit_value(byte: u8) -> usize
    ensures { result ≡ value_of_digit byte }
{
    match byte {
        b'0'..=b'9' => usize::from(byte - b'0'),
        b'A'..=b'Z' => usize::from(byte - b'A') + 10,
        b'a'..=b'z' => usize::from(byte - b'a') + 10,
        _ => 36,
    }
}
