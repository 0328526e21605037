//! The colours of a picture, and how a text is painted in one.

mod escape;
mod generator;
mod paint;

pub use escape::{push_closing, push_opening, push_painted, push_painted_char};
pub use generator::{ColorGenerator, numbers_rise_evenly};
pub use paint::{Background, Fmt, Foreground};

/// A colour that a terminal can show.
#[derive(Clone, Copy, Debug, PartialEq, Eq, Hash)]
pub enum Color {
    /// The terminal's own colour.
    Primary,
    /// A colour of the 256-colour palette, by its number.
    Fixed(u8),
    /// Red, green and blue.
    Rgb(u8, u8, u8),
    /// Black.
    Black,
    /// Red.
    Red,
    /// Green.
    Green,
    /// Yellow.
    Yellow,
    /// Blue.
    Blue,
    /// Magenta.
    Magenta,
    /// Cyan.
    Cyan,
    /// White.
    White,
    /// Bright black, a dark grey on most terminals.
    BrightBlack,
    /// Bright red.
    BrightRed,
    /// Bright green.
    BrightGreen,
    /// Bright yellow.
    BrightYellow,
    /// Bright blue.
    BrightBlue,
    /// Bright magenta.
    BrightMagenta,
    /// Bright cyan.
    BrightCyan,
    /// Bright white.
    BrightWhite,
}
