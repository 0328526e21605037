//! Colours by their names.

use crate::members::meaning;
use ariadne::Color;

/// The colours that have no numbers.
static NAMED: [(&str, Color); 17] = [
    ("Primary", Color::Primary),
    ("Black", Color::Black),
    ("Red", Color::Red),
    ("Green", Color::Green),
    ("Yellow", Color::Yellow),
    ("Blue", Color::Blue),
    ("Magenta", Color::Magenta),
    ("Cyan", Color::Cyan),
    ("White", Color::White),
    ("BrightBlack", Color::BrightBlack),
    ("BrightRed", Color::BrightRed),
    ("BrightGreen", Color::BrightGreen),
    ("BrightYellow", Color::BrightYellow),
    ("BrightBlue", Color::BrightBlue),
    ("BrightMagenta", Color::BrightMagenta),
    ("BrightCyan", Color::BrightCyan),
    ("BrightWhite", Color::BrightWhite),
];

/// A colour by its name, behind which its numbers stand, if it has any: `Red`, or `Rgb 1 2 3`.
pub fn color_of(text: &str) -> Option<Color> {
    match meaning(&NAMED, text) {
        None => numbered_color(text),
        named => named,
    }
}

/// A colour that has numbers.
fn numbered_color(text: &str) -> Option<Color> {
    match text.strip_prefix("Fixed ") {
        Some(number) => Some(Color::Fixed(byte_of(number)?)),
        None => rgb_of(text.strip_prefix("Rgb ")?),
    }
}

/// A colour of three numbers: `1 2 3`.
fn rgb_of(numbers: &str) -> Option<Color> {
    let mut bytes = numbers.split(' ').map(byte_of);
    match (bytes.next()?, bytes.next()?, bytes.next()?) {
        (Some(red), Some(green), Some(blue)) => Some(Color::Rgb(red, green, blue)),
        _ => None,
    }
}

/// A number of a colour.
fn byte_of(digits: &str) -> Option<u8> {
    digits.parse().ok()
}
