//! What a column counts.

ghost use Rattle.std.specs.Prelude.{◌≡◌};
ghost use Rattle.ariadne_parse.specs.Columns.{columns_of as taken};

use unicode_width::UnicodeWidthChar;

/// How far tabs of a terminal stand from each other.
const TAB_STOP: usize = 8;

/// The last character that takes one unit of UTF-16.
const LAST_OF_ONE: char = '\u{ffff}';

/// What a column counts.
#[derive(Clone, Copy)]
pub enum Unit {
    /// The bytes of UTF-8 in front of a character. So clang counts, and gcc in its JSON.
    Byte,
    /// The characters in front of it. So rustc counts, and shellcheck.
    Char,
    /// The units of UTF-16 in front of it: two for a character that lies past U+FFFF, and one for each other.
    /// So editors count by LSP, and JavaScript.
    Utf16,
    /// The columns of a terminal in front of it: wide characters have two, marks over others have
    /// none, and a tab reaches to the next multiple of eight. So gcc counts in its text.
    Display,
}

/// How many columns a character takes that stands behind `at` columns of its line.
#[tactic(auto, unfolding(crate::specs::Columns::columns_of))]
pub fn columns_of(unit: Unit, at: usize, c: char) -> usize
    ensures { result ≡ taken unit at c }
{
    match unit {
        Unit::Byte => c.len_utf8(),
        Unit::Char => 1,
        Unit::Utf16 if c > LAST_OF_ONE => 2,
        Unit::Utf16 => 1,
        Unit::Display if c == '\t' => TAB_STOP - at % TAB_STOP,
        Unit::Display => c.width().unwrap_or(1),
    }
}
