//! Colours by their numbers.

ghost use Rattle.std.specs.Prelude.{◌≡◌, ◌<◌};
ghost use Rattle.ariadne_calls.specs.ColorNumbers.{color_of, is_color, named_color};

use ariadne::Color;

/// The colours that have names, in the order of their numbers, from 1.
const NAMED: [Color; 17] = [
    Color::Primary,
    Color::Black,
    Color::Red,
    Color::Green,
    Color::Yellow,
    Color::Blue,
    Color::Magenta,
    Color::Cyan,
    Color::White,
    Color::BrightBlack,
    Color::BrightRed,
    Color::BrightGreen,
    Color::BrightYellow,
    Color::BrightBlue,
    Color::BrightMagenta,
    Color::BrightCyan,
    Color::BrightWhite,
];

/// Whether a colour has this number.
pub fn is_color(number: u32) -> bool
    ensures { result ≡ is_color number }
{
    (1 <= number && number < 18)
        || (256 <= number && number < 512)
        || (16_777_216 <= number && number < 33_554_432)
}

/// The colour of this number, if there is one.
pub fn color_of(number: u32) -> Option<Color>
    ensures { result ≡ color_of number }
{
    if !is_color(number) {
        None
    } else if number < 18 {
        named_color(number as usize)
    } else if number < 512 {
        Some(Color::Fixed((number - 256) as u8))
    } else {
        let red = (number / 65536 % 256) as u8;
        let green = (number / 256 % 256) as u8;
        let blue = (number % 256) as u8;
        Some(Color::Rgb(red, green, blue))
    }
}

/// The colour with a name that has this number.
fn named_color(number: usize) -> Option<Color>
    requires { 0 < number }
    ensures { result ≡ named_color number }
{
    NAMED.get(number - 1).copied()
}
