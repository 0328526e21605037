//! Colours, as reports of the program's own form say them.

ghost use Rattle.std.specs.Prelude.{◌≡◌};
ghost use Rattle.serde_json.specs.View.{items_view, view};
ghost use Rattle.ariadne_parse.specs.Reports.{byte_of as byte_in, color_at, color_mixed, color_named, color_of};

use ariadne_color::Color;
use serde_json::Value;

/// A member that is a colour.
pub(crate) fn color(value: &Value, name: &str) -> Option<Color>
    ensures { result ≡ color_at name.now (view value.now) }
{
    color_in(value.get(name)?)
}

/// A colour: a name, the number of a fixed one, or a list of red, green and blue.
fn color_in(value: &Value) -> Option<Color>
    ensures { result ≡ color_of (view value.now) }
{
    match value {
        Value::String(text) => named_color(text.as_str()),
        Value::Array(parts) => mixed_color(parts.as_slice()),
        number => Some(Color::Fixed(byte_of(number)?)),
    }
}

/// The colour of this name.
fn named_color(text: &str) -> Option<Color>
    ensures { result ≡ color_named text.now }
{
    match text {
        "Primary" => Some(Color::Primary),
        "Black" => Some(Color::Black),
        "Red" => Some(Color::Red),
        "Green" => Some(Color::Green),
        "Yellow" => Some(Color::Yellow),
        "Blue" => Some(Color::Blue),
        "Magenta" => Some(Color::Magenta),
        "Cyan" => Some(Color::Cyan),
        "White" => Some(Color::White),
        "BrightBlack" => Some(Color::BrightBlack),
        "BrightRed" => Some(Color::BrightRed),
        "BrightGreen" => Some(Color::BrightGreen),
        "BrightYellow" => Some(Color::BrightYellow),
        "BrightBlue" => Some(Color::BrightBlue),
        "BrightMagenta" => Some(Color::BrightMagenta),
        "BrightCyan" => Some(Color::BrightCyan),
        "BrightWhite" => Some(Color::BrightWhite),
        _ => None,
    }
}

/// The colour of these parts, if they are three.
#[tactic(auto, using(crate::proofs::Values::less_than_three, crate::proofs::Values::more_than_three))]
fn mixed_color(parts: &[Value]) -> Option<Color>
    ensures { result ≡ color_mixed (items_view parts.now) }
{
    match parts {
        [red, green, blue] => Some(Color::Rgb(byte_of(red)?, byte_of(green)?, byte_of(blue)?)),
        _ => None,
    }
}

/// A whole number from 0 to 255.
fn byte_of(value: &Value) -> Option<u8>
    ensures { result ≡ byte_in (view value.now) }
{
    u8::try_from(value.as_u64()?).ok()
}
