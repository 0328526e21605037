//! The flags of a report, a bit each, and what they ask for. `tools/settings` writes this file.

ghost use Rattle.std.specs.Prelude.{◌≡◌, ◌≢◌};
ghost use Rattle.ariadne_calls.specs.Flag.{char_set_of, config_of, has, index_type_of};

use ariadne::{CharSet, Config, IndexType};

/// No colours.
pub const PLAIN: u32 = 1;

/// Strokes of ASCII.
pub const ASCII: u32 = 2;

/// No rows between.
pub const COMPACT: u32 = 4;

/// Offsets count bytes, not characters.
pub const BYTE_OFFSETS: u32 = 8;

/// No underlines.
pub const NO_UNDERLINES: u32 = 16;

/// No multiline arrows.
pub const NO_MULTILINE_ARROWS: u32 = 32;

/// A crossing where strokes cross, and no gap.
pub const NO_CROSS_GAP: u32 = 64;

/// Texts are drawn as they are, with the escapes that they hold.
pub const RAW: u32 = 128;

/// Underlines also where no label of a line has a message.
pub const LONE_UNDERLINES: u32 = 256;

/// All of these.
pub const ALL: u32 = 511;

/// The default configuration, but for what these flags ask for.
pub fn config_of(flags: u32) -> Config
    ensures { result ≡ config_of flags }
{
    Config::new()
        .with_color(!has(flags, PLAIN))
        .with_char_set(char_set_of(flags))
        .with_compact(has(flags, COMPACT))
        .with_index_type(index_type_of(flags))
        .with_underlines(!has(flags, NO_UNDERLINES))
        .with_multiline_arrows(!has(flags, NO_MULTILINE_ARROWS))
        .with_cross_gap(!has(flags, NO_CROSS_GAP))
        .with_lone_underlines(has(flags, LONE_UNDERLINES))
}

/// The `char_set` that flags ask for.
pub fn char_set_of(flags: u32) -> CharSet
    ensures { result ≡ char_set_of flags }
{
    if has(flags, ASCII) {
        CharSet::Ascii
    } else {
        CharSet::Unicode
    }
}

/// The `index_type` that flags ask for.
pub fn index_type_of(flags: u32) -> IndexType
    ensures { result ≡ index_type_of flags }
{
    if has(flags, BYTE_OFFSETS) {
        IndexType::Byte
    } else {
        IndexType::Char
    }
}

/// Whether a bit is set.
pub fn has(flags: u32, bit: u32) -> bool
    requires { bit ≢ 0 }
    ensures { result ≡ has flags bit }
{
    flags / bit % 2 == 1
}
