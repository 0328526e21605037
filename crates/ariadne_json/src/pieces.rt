//! The pieces of a text of JSON: a text in quotes, a number, or a byte.

ghost use Rattle.std.specs.Prelude.{◌≡◌, ◌<◌, ◌≤◌, ◌+◌, ◌==◌, ◌&&◌, ◌∷◌, false, not, length};
ghost use Rattle.std.specs.List.{prefix_len};
ghost use Rattle.ariadne_json.specs.Pieces.{is_of_number as is_in_number, piece_len as length_of_piece};
ghost use Rattle.ariadne_json.specs.Pieces.{text_len as length_of_text};

/// How many bytes the first piece takes that begins with this byte and goes on with these.
#[tactic(auto, unfolding(crate::specs::Pieces::piece_len))]
pub(crate) fn piece_len(first: u8, rest: &[u8]) -> usize
    ensures len { result ≡ length_of_piece (first ∷ rest.now) }
    ensures bound { result ≤ 1 + length rest.now }
    ensures some { 0 < result }
{
    match first {
        b'"' => 1 + text_len(rest),
        _ if is_of_number(first) => 1 + number_len(rest),
        _ => 1,
    }
}

/// How many bytes a text in quotes takes behind its first quote.
fn text_len(bytes: &[u8]) -> usize
    ensures len { result ≡ length_of_text false bytes.now }
    ensures bound { result ≤ length bytes.now }
{
    let mut is_escaped = false;
    for (place, byte) in bytes.iter().enumerate() {
        if ends_text(is_escaped, *byte) {
            return place + 1;
        }
        is_escaped = escapes(is_escaped, *byte);
    }
    bytes.len()
}

/// Whether a byte of a text ends it.
fn ends_text(is_escaped: bool, byte: u8) -> bool
    ensures { result ≡ (not is_escaped && byte == 34) }
{
    !is_escaped && byte == b'"'
}

/// Whether a byte of a text escapes the next one.
fn escapes(is_escaped: bool, byte: u8) -> bool
    ensures { result ≡ (not is_escaped && byte == 92) }
{
    !is_escaped && byte == b'\\'
}

/// How many bytes of a number these begin with.
fn number_len(bytes: &[u8]) -> usize
    ensures len { result ≡ prefix_len is_in_number bytes.now }
    ensures bound { result ≤ length bytes.now }
{
    bytes.iter().take_while(|byte| is_of_number(**byte)).count()
}

/// Whether a byte may stand in a number.
pub(crate) fn is_of_number(byte: u8) -> bool
    ensures { result ≡ is_in_number byte }
{
    byte.is_ascii_digit() || matches!(byte, b'+' | b'-' | b'.' | b'e' | b'E')
}
