//! The escapes that a terminal is sent before and behind a painted text.

ghost use Rattle.std.specs.Prelude.{◌≡◌, ◌+◌, ◌<◌, ◌++◌, OnOk, OnErr, decimal, encode_utf8};
ghost use Rattle.std.specs.Prelude.{string_bytes};
ghost use Rattle.ariadne_color.specs.Colors.{foreground, background, painted};
ghost use Rattle.ariadne_color.specs.Escapes.{closed, opened, opening, opening_end, IsCutShort};

use crate::color::Color;
use std::alloc::AllocError;

/// What ends a painted text.
pub(crate) const CLOSING: &str = "\x1b[0m";

/// Appends a text to `out`, in a colour if there is one. An empty text is painted too.
///
/// It is a helper of the crates that draw. On `Err` there was no memory for the whole, and `out`
/// keeps what it held, with a beginning of the painted text behind it.
pub fn push_painted(out: &mut String, color: Option<Color>, text: &str) -> Result<(), AllocError>
    ensures ok { OnOk result
        (string_bytes out.new ≡ string_bytes out.old ++ painted color text.now) }
    ensures err { OnErr result
        (IsCutShort (string_bytes out.old) (painted color text.now) (string_bytes out.new)) }
{
    push_opening(out, color)?;
    out.push_str(text)?;
    push_closing(out, color)
}

/// Appends a character to `out`, in a colour if there is one.
///
/// It is a helper of the crates that draw. On `Err` there was no memory for the whole, and `out`
/// keeps what it held, with a beginning of the painted character behind it.
pub fn push_painted_char(out: &mut String, color: Option<Color>, c: char) -> Result<(), AllocError>
    ensures ok { OnOk result
        (string_bytes out.new ≡ string_bytes out.old ++ painted color (encode_utf8 c)) }
    ensures err { OnErr result
        (IsCutShort (string_bytes out.old) (painted color (encode_utf8 c)) (string_bytes out.new)) }
{
    push_opening(out, color)?;
    out.push(c)?;
    push_closing(out, color)
}

/// Appends to `out` what stands before a text in a colour: its escape, or nothing without a colour.
///
/// It is a helper of the crates that draw, for texts that are painted in parts. On `Err` there was
/// no memory for the whole, and `out` keeps what it held, with a beginning of the escape behind it.
pub fn push_opening(out: &mut String, color: Option<Color>) -> Result<(), AllocError>
    ensures ok { OnOk result (string_bytes out.new ≡ string_bytes out.old ++ opened color) }
    ensures err { OnErr result
        (IsCutShort (string_bytes out.old) (opened color) (string_bytes out.new)) }
{
    match color {
        Some(color) => push_escape(out, color),
        None => Ok(()),
    }
}

/// Appends to `out` what stands behind a text in a colour: the closing escape, or nothing without
/// a colour.
///
/// It is a helper of the crates that draw, for texts that are painted in parts. On `Err` there was
/// no memory for the whole, and `out` keeps what it held, with a beginning of the escape behind it.
pub fn push_closing(out: &mut String, color: Option<Color>) -> Result<(), AllocError>
    ensures ok { OnOk result (string_bytes out.new ≡ string_bytes out.old ++ closed color) }
    ensures err { OnErr result
        (IsCutShort (string_bytes out.old) (closed color) (string_bytes out.new)) }
{
    match color {
        Some(_) => out.push_str(CLOSING),
        None => Ok(()),
    }
}

/// Appends the escape that opens a colour in front.
fn push_escape(out: &mut String, color: Color) -> Result<(), AllocError>
    ensures ok { OnOk result
        (string_bytes out.new ≡ string_bytes out.old ++ opening foreground color) }
    ensures err { OnErr result
        (IsCutShort (string_bytes out.old) (opening foreground color) (string_bytes out.new)) }
{
    out.push_str(opening_head(color).0)?;
    match color {
        Color::Fixed(number) => push_number(out, number, "m"),
        Color::Rgb(red, green, blue) => push_mix(out, red, green, blue),
        _ => Ok(()),
    }
}

/// Appends the end of the escape of a mixed colour, from its first number on.
fn push_mix(out: &mut String, red: u8, green: u8, blue: u8) -> Result<(), AllocError>
    ensures ok { OnOk result
        (string_bytes out.new ≡ string_bytes out.old ++ opening_end (Color.Rgb red green blue)) }
    ensures err { OnErr result
        (IsCutShort (string_bytes out.old) (opening_end (Color.Rgb red green blue))
        (string_bytes out.new)) }
{
    push_number(out, red, ";")?;
    push_number(out, green, ";")?;
    push_number(out, blue, "m")
}

/// Appends a number in decimal digits, and what stands behind it.
fn push_number(out: &mut String, number: u8, behind: &str) -> Result<(), AllocError>
    ensures ok { OnOk result
        (string_bytes out.new ≡ string_bytes out.old ++ decimal number ++ behind.now) }
    ensures err { OnErr result
        (IsCutShort (string_bytes out.old) (decimal number ++ behind.now) (string_bytes out.new)) }
{
    push_decimal(out, number)?;
    out.push_str(behind)
}

/// Appends a number in decimal digits, without leading zeros.
fn push_decimal(out: &mut String, number: u8) -> Result<(), AllocError>
    ensures ok { OnOk result (string_bytes out.new ≡ string_bytes out.old ++ decimal number) }
    ensures err { OnErr result
        (IsCutShort (string_bytes out.old) (decimal number) (string_bytes out.new)) }
{
    if number >= 100 {
        out.push(digit(number / 100))?;
        out.push(digit(number / 10 % 10))?;
    } else if number >= 10 {
        out.push(digit(number / 10))?;
    }
    out.push(digit(number % 10))
}

/// The escape that opens a colour in front, and the one behind: the whole of it for a colour
/// without numbers, else what stands before the first number.
#[tactic(auto, using(crate::proofs::Decimals::two_digits, crate::proofs::Decimals::three_digits))]
pub(crate) fn opening_head(color: Color) -> (&'static str, &'static str)
    ensures front { result.0.now ++ opening_end color ≡ opening foreground color }
    ensures behind { result.1.now ++ opening_end color ≡ opening background color }
{
    match color {
        Color::Primary => ("\x1b[39m", "\x1b[49m"),
        Color::Fixed(_) => ("\x1b[38;5;", "\x1b[48;5;"),
        Color::Rgb(..) => ("\x1b[38;2;", "\x1b[48;2;"),
        Color::Black => ("\x1b[30m", "\x1b[40m"),
        Color::Red => ("\x1b[31m", "\x1b[41m"),
        Color::Green => ("\x1b[32m", "\x1b[42m"),
        Color::Yellow => ("\x1b[33m", "\x1b[43m"),
        Color::Blue => ("\x1b[34m", "\x1b[44m"),
        Color::Magenta => ("\x1b[35m", "\x1b[45m"),
        Color::Cyan => ("\x1b[36m", "\x1b[46m"),
        Color::White => ("\x1b[37m", "\x1b[47m"),
        Color::BrightBlack => ("\x1b[90m", "\x1b[100m"),
        Color::BrightRed => ("\x1b[91m", "\x1b[101m"),
        Color::BrightGreen => ("\x1b[92m", "\x1b[102m"),
        Color::BrightYellow => ("\x1b[93m", "\x1b[103m"),
        Color::BrightBlue => ("\x1b[94m", "\x1b[104m"),
        Color::BrightMagenta => ("\x1b[95m", "\x1b[105m"),
        Color::BrightCyan => ("\x1b[96m", "\x1b[106m"),
        Color::BrightWhite => ("\x1b[97m", "\x1b[107m"),
    }
}

/// The digit of a number below ten.
fn digit(number: u8) -> char
    requires { number < 10 }
    ensures { result ≡ 48 + number }
{
    (b'0' + number) as char
}
