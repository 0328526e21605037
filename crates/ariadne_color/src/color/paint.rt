//! Values that are printed in a colour.

ghost use Rattle.std.specs.Prelude.{◌≡◌, ◌++◌, Some, option_map};
ghost use Rattle.std.specs.Fmt.{DisplaysOnOk};
ghost use Rattle.ariadne_color.specs.Escapes.{closing, opening_end};

mod background;
mod foreground;

use crate::color::Color;
use crate::color::escape::CLOSING;
pub use background::Background;
pub use foreground::Foreground;
use std::fmt;
use std::fmt::{Display, Formatter};

/// Colours for whatever can be printed.
///
/// A painted value is printed between the two escapes of its colour, an empty one too. Without a
/// colour it stands alone. Neither call takes memory.
///
/// ```rust
/// let text = format!(in alloc; "{}", "warning".fg(Some(Color::Yellow)))?;
/// assert_eq!(rt; text.as_str(), "\x1b[33mwarning\x1b[0m");
/// ```
pub trait Fmt: Display {
    /// The value with its characters in a colour, if there is one.
    fn fg(self, color: Option<Color>) -> Foreground<Self>
        ensures value { result.value ≡ self }
        ensures color { result.color ≡ color };

    /// The value with a colour behind its characters, if there is one.
    fn bg(self, color: Option<Color>) -> Background<Self>
        ensures value { result.value ≡ self }
        ensures color { result.color ≡ color };
}

impl<T: Display> Fmt for T {
    fn fg(self, color: Option<Color>) -> Foreground<Self> {
        Foreground { value: self, color }
    }

    fn bg(self, color: Option<Color>) -> Background<Self> {
        Background { value: self, color }
    }
}

/// Writes a value between the escape that opens its colour, whose beginning is `head`, and the one
/// that closes it.
fn write_painted<W: fmt::Write, T: Display>(
    f: &mut Formatter<W>,
    head: &str,
    color: Color,
    value: &T,
) -> fmt::Result
    ensures { DisplaysOnOk W.write_str_gives f.old result
        (option_map (λ text. head.now ++ opening_end color ++ text ++ closing)
        (T.output value.now)) f.new }
{
    f.write_str(head)?;
    write_opening_end(f, color)?;
    f.write(value)?;
    f.write_str(CLOSING)
}

/// Writes the end of the escape that opens a colour, from its first number on.
fn write_opening_end<W: fmt::Write>(f: &mut Formatter<W>, color: Color) -> fmt::Result
    ensures { DisplaysOnOk W.write_str_gives f.old result (Some (opening_end color)) f.new }
{
    match color {
        Color::Fixed(number) => write!(f, "{number}m"),
        Color::Rgb(red, green, blue) => write!(f, "{red};{green};{blue}m"),
        _ => Ok(()),
    }
}
