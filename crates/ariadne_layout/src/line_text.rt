//! The characters of one line of a source.

ghost use Rattle.std.specs.Prelude.{◌≡◌, ◌≤◌, ◌↔◌, IfSome, IsTrue, chars, length, true};
ghost use Rattle.std.specs.Str.{drop_trailing_whitespace, trim_end};
ghost use Rattle.std.specs.List.{AllByRecursion};
ghost use Rattle.ariadne_layout.specs.Ends.{AreBlanks, AreBlanksFrom, shown_bytes};

use ariadne_base::blocks::count::count_chars;
use std::marker::Model;
use std::simd::prelude::*;

/// The characters of a line, and those of them that are shown: all but the white space at its end.
#[derive(Drop)]
pub struct LineText<'a> {
    /// The whole line, with its terminator.
    whole: &'a str,
    /// The number of its characters.
    len: usize,
    /// The line without the white space at the end.
    shown: &'a str,
    /// The number of its characters.
    shown_len: usize,
    /// Whether all of them are printable ASCII.
    is_plain: bool,
}

impl<'a> Model for LineText<'a> {
    ghost use Rattle.std.specs.Prelude.{◌≡◌, ◌≤◌, ◌↔◌, ℕ, List, IsTrue, chars, length};
    ghost use Rattle.std.specs.List.{AllByRecursion};
    ghost use Rattle.std.specs.Str.{drop_trailing_whitespace};

    ghost Value = { List ℕ };

    ghost view = { λ a. chars a.whole.now };

    ghost invariant = { λ a. (a.len ≡ length (chars a.whole.now))
        × (chars a.shown.now ≡ drop_trailing_whitespace (chars a.whole.now))
        × (a.shown_len ≡ length (chars a.shown.now))
        × (IsTrue a.is_plain ↔ AllByRecursion (λ c. (32 ≤ c) × (c ≤ 126)) (chars a.shown.now)) };
}

impl<'a> LineText<'a> {
    /// A line with its terminator. `len` is the number of its characters; `known` is how many of its
    /// bytes are shown, where that was found before.
    pub fn new(len: usize, text: &'a str, known: Option<usize>) -> LineText<'a>
        requires len { len ≡ length (chars text.now) }
        requires known { IfSome known (λ n. n ≡ shown_bytes (chars text.now)) }
        ensures { result ≡ chars text.now }
    {
        let shown = shown_part(text, known);
        let shown_len = if text.len() == len {
            shown.len()
        } else {
            count_chars(shown)
        };
        let is_plain = is_printable(shown);
        LineText {
            whole: text,
            len,
            shown,
            shown_len,
            is_plain,
        }
    }

    /// How many characters the line has, its terminator among them.
    pub fn len(&self) -> usize
        ensures { result ≡ length self.now }
    {
        self.len
    }

    /// Its characters without the white space at the end.
    pub fn shown(&self) -> &'a str
        ensures { chars result.now ≡ drop_trailing_whitespace self.now }
    {
        self.shown
    }

    /// How many characters are shown.
    pub fn shown_len(&self) -> usize
        ensures { result ≡ length (drop_trailing_whitespace self.now) }
    {
        self.shown_len
    }

    /// Whether each shown character is printable ASCII, and so takes one column.
    pub fn is_plain(&self) -> bool
        ensures { IsTrue result
            ↔ AllByRecursion (λ c. (32 ≤ c) × (c ≤ 126)) (drop_trailing_whitespace self.now) }
    {
        self.is_plain
    }
}

/// A line without the white space at its end. `known` is how many bytes that leaves, where it was
/// found before.
fn shown_part(line: &str, known: Option<usize>) -> &str
    requires known { IfSome known (λ n. n ≡ shown_bytes (chars line.now)) }
    ensures { result.now ≡ trim_end line.now }
{
    match known {
        Some(end) => &line[..end],
        None => without_end(line),
    }
}

/// A line without the white space at its end. A line feed and a carriage return are cut first, and
/// blanks before them in blocks, since many of them may stand behind a line.
fn without_end(line: &str) -> &str
    ensures { result.now ≡ trim_end line.now }
{
    let whole = unterminated(line);
    let front = &whole[..blocks_start(whole.as_bytes())];
    front.trim_end()
}

/// A line without the line feed at its end and a carriage return before that.
fn unterminated(line: &str) -> &str
    ensures { drop_trailing_whitespace (chars result.now)
        ≡ drop_trailing_whitespace (chars line.now) }
{
    let line = line.strip_suffix('\n').unwrap_or(line);
    line.strip_suffix('\r').unwrap_or(line)
}

/// Where the blocks of 64 blanks at the end of a text begin, or its end where it has none.
fn blocks_start(bytes: &[u8]) -> usize
    ensures within { result ≤ length bytes.now }
    ensures blank { AreBlanksFrom result bytes.now }
{
    let mut start = bytes.len();
    while start >= 64 && is_blank(&bytes[start - 64..start]) {
        start -= 64;
    }
    start
}

/// Whether each byte of a block of 64 is a blank.
#[inline(always)]
fn is_blank(block: &[u8]) -> bool
    requires { length block.now ≡ 64 }
    ensures { result ≡ true → AreBlanks 64 block.now }
{
    u8x64::from_slice(block)
        .simd_ne(u8x64::splat(b' '))
        .to_bitmask()
        == 0
}

/// Whether each character of a text is printable ASCII. All bytes are read, so that many of them
/// are tested at once.
fn is_printable(text: &str) -> bool
    ensures { IsTrue result ↔ AllByRecursion (λ c. (32 ≤ c) × (c ≤ 126)) (chars text.now) }
{
    text.as_bytes()
        .iter()
        .fold(true, |all, byte| all & matches!(byte, 0x20..=0x7e))
}
