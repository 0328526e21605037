//! The number of characters before an offset in bytes, counted on from a known place.

ghost use Rattle.std.specs.Prelude.{◌≡◌, ℕ, List, chars, length, take};
ghost use Rattle.std.specs.Str.{IsCharBoundary};
ghost use Rattle.ariadne_base.specs.Locations.{char_offset as chars_before};
ghost use Rattle.ariadne_report.specs.Counting.{IsKnown};

use ariadne_base::blocks::count::count_chars;
use ariadne_base::{Source, SourceText};

/// The most bytes to count through before a search for the line of an offset.
const NEAR: usize = 64;

/// A place of a source between two characters: the numbers of bytes and of characters before.
#[derive(Clone, Copy)]
pub(crate) struct Known {
    pub(crate) bytes: usize,
    pub(crate) chars: usize,
}

impl Known {
    /// The start of a source.
    pub(crate) const START: Known = Known { bytes: 0, chars: 0 };

    /// The place nearer to an offset in bytes.
    fn nearer(self, other: Known, byte_offset: usize) -> Known
        ensures { (text : List ℕ) → IsKnown text self → IsKnown text other → IsKnown text result }
    {
        if self.bytes.abs_diff(byte_offset) <= other.bytes.abs_diff(byte_offset) {
            self
        } else {
            other
        }
    }

    /// Moves to an offset in bytes, and returns the number of characters before.
    fn count_to(&mut self, text: &str, byte_offset: usize) -> usize
        requires known { IsKnown text.now self.old }
        requires whole { IsCharBoundary text.now byte_offset }
        ensures known { IsKnown text.now self.new }
        ensures count { result ≡ length (chars (take byte_offset text.now)) }
    {
        let chars = count_from(text, *self, byte_offset);
        *self = Known {
            bytes: byte_offset,
            chars,
        };
        chars
    }
}

/// The number of characters of a source before `byte_offset`, or `None` inside a character or past
/// the source.
///
/// For an offset near `known`, the characters between the two are read. For any other, no character
/// is read on a line with as many bytes as characters. Otherwise the characters up to the start of
/// the line, or up to `known` if nearer, are read. If characters were counted, `known` is then the
/// offset.
pub(crate) fn char_offset<I: SourceText>(
    source: &Source<I>,
    known: &mut Known,
    byte_offset: usize,
) -> Option<usize>
    requires { IsKnown source.now.text known.old }
    ensures known { IsKnown source.now.text known.new }
    ensures offset { result ≡ chars_before (chars source.now.text) byte_offset }
{
    let text = source.text();
    if !text.is_char_boundary(byte_offset) {
        return None;
    }
    if known.bytes.abs_diff(byte_offset) <= NEAR {
        return Some(known.count_to(text, byte_offset));
    }
    let (line, _, byte_column) = source.get_byte_line(byte_offset)?;
    let own = source.get_line_text(line)?;
    if own.len() == line.len() {
        return Some(line.offset() + byte_column);
    }
    let start = Known {
        bytes: byte_offset - byte_column,
        chars: line.offset(),
    };
    let mut nearer = known.nearer(start, byte_offset);
    let chars = nearer.count_to(text, byte_offset);
    *known = nearer;
    Some(chars)
}

/// The number of characters of a text before an offset in bytes, counted from a place of the text.
fn count_from(text: &str, known: Known, byte_offset: usize) -> usize
    requires known { IsKnown text.now known }
    requires whole { IsCharBoundary text.now byte_offset }
    ensures { result ≡ length (chars (take byte_offset text.now)) }
{
    if known.bytes <= byte_offset {
        known.chars + count_chars(&text[known.bytes..byte_offset])
    } else {
        known.chars - count_chars(&text[byte_offset..known.bytes])
    }
}
