//! What a painted value prints, and the colours of the generator.

ghost use Rattle.std.specs.Prelude.{◌≡◌, ◌++◌, IfOk, decimal, encode_utf8, string_bytes};
ghost use Rattle.ariadne_color.specs.Colors.{background, foreground, painted_in};

use crate::comparing::{assert_is, assert_text};
use ariadne::{Color, ColorGenerator, Fmt};
use ariadne_color::color::{numbers_rise_evenly, push_painted, push_painted_char};
use std::alloc::{AllocError, Global};
use std::fmt::Display;
use std::process::Abort;

const RED: Option<Color> = Some(Color::Red);

/// The bytes of a painted character are known where it is printed.
fn painted_char(alloc: Global, c: char, color: Option<Color>) -> Result<String, AllocError>
    ensures { IfOk result (λ text. string_bytes text ≡ painted_in foreground color
        (encode_utf8 c)) }
{
    c.fg(color).to_string(alloc)
}

/// A text that is painted behind.
fn painted_text(alloc: Global, s: &str, color: Option<Color>) -> Result<String, AllocError>
    ensures { IfOk result (λ text. string_bytes text ≡ painted_in background color s.now) }
{
    format!(in alloc; "{}", s.bg(color))
}

/// So are those of a painted number, between other texts.
fn painted_number(alloc: Global, n: u32, color: Option<Color>) -> Result<String, AllocError>
    ensures { IfOk result (λ text. string_bytes text
        ≡ painted_in foreground color (decimal n) ++ painted_in background color (decimal n)) }
{
    format!(in alloc; "{}{}", n.fg(color), n.bg(color))
}

/// A value is printed again where it is copied, and where it is cloned.
fn printed_again<T: Display + Copy>(alloc: Global, value: T) -> Result<String, AllocError> {
    let painted = value.fg(RED);
    let copy = painted;
    let clone = painted.clone()?;
    format!(in alloc; "{painted}{copy}{clone}")
}

/// The usual generator after a call: its numbers are known where it is called.
fn usual_after_one() -> ColorGenerator
    ensures { result ≡ record { red = 54262; green = 4666; blue = 55606; brightness = 500 } }
{
    let mut colors = ColorGenerator::new();
    colors.next();
    colors
}

/// The same after two calls.
fn usual_after_two() -> ColorGenerator
    ensures { result ≡ record { red = 12988; green = 59868; blue = 10676; brightness = 500 } }
{
    let mut colors = usual_after_one();
    colors.next();
    colors
}

/// The same after three calls.
fn usual_after_three() -> ColorGenerator
    ensures { result ≡ record { red = 37250; green = 49534; blue = 31282; brightness = 500 } }
{
    let mut colors = usual_after_two();
    colors.next();
    colors
}

/// The greatest numbers after a call.
fn greatest_after_one() -> ColorGenerator
    ensures { result ≡ record { red = 24261; green = 55201; blue = 20605; brightness = 0 } }
{
    let mut colors = ColorGenerator::from_state([65535, 65535, 65535], 0);
    colors.next();
    colors
}

/// Colours, each with the parameters of its escape in front and behind.
const COLORS: &[(Color, &str, &str)] = &[
    (Color::Primary, "39", "49"),
    (Color::Fixed(0), "38;5;0", "48;5;0"),
    (Color::Fixed(99), "38;5;99", "48;5;99"),
    (Color::Fixed(255), "38;5;255", "48;5;255"),
    (Color::Rgb(1, 20, 255), "38;2;1;20;255", "48;2;1;20;255"),
    (Color::Black, "30", "40"),
    (Color::Red, "31", "41"),
    (Color::Green, "32", "42"),
    (Color::Yellow, "33", "43"),
    (Color::Blue, "34", "44"),
    (Color::Magenta, "35", "45"),
    (Color::Cyan, "36", "46"),
    (Color::White, "37", "47"),
    (Color::BrightBlack, "90", "100"),
    (Color::BrightRed, "91", "101"),
    (Color::BrightGreen, "92", "102"),
    (Color::BrightYellow, "93", "103"),
    (Color::BrightBlue, "94", "104"),
    (Color::BrightMagenta, "95", "105"),
    (Color::BrightCyan, "96", "106"),
    (Color::BrightWhite, "97", "107"),
];

/// A letter between an escape with these parameters and the closing one.
fn escaped(alloc: Global, parameters: &str) -> Result<String, AllocError> {
    format!(in alloc; "\x1b[{parameters}mé\x1b[0m")
}

/// Two letters, each between an escape with these parameters and the closing one.
fn escaped_twice(alloc: Global, parameters: &str) -> Result<String, AllocError> {
    format!(in alloc; "\x1b[{parameters}mé\x1b[0m\x1b[{parameters}me\x1b[0m")
}

/// What is pushed of a text.
fn pushed(alloc: Global, color: Option<Color>, text: &str) -> Result<String, AllocError> {
    let mut out = String::new(alloc);
    push_painted(&mut out, color, text)?;
    Ok(out)
}

/// What is pushed of a character, and of a text behind it.
fn pushed_twice(alloc: Global, color: Color) -> Result<String, AllocError> {
    let mut out = String::new(alloc);
    push_painted_char(&mut out, Some(color), 'é')?;
    push_painted(&mut out, Some(color), "e")?;
    Ok(out)
}

/// What is pushed without a colour behind a text.
fn pushed_plain(alloc: Global) -> Result<String, AllocError> {
    let mut out = String::from_str(alloc, "a")?;
    push_painted(&mut out, None, "b")?;
    push_painted_char(&mut out, None, 'c')?;
    Ok(out)
}

/// Asserts that two texts were made, and are the same.
fn assert_texts(
    rt: &impl Abort,
    found: Result<String, AllocError>,
    wanted: Result<String, AllocError>,
) {
    assert_text(rt, found, wanted.expect(rt, "memory").as_str())
}

/// Asserts what a colour looks like in front, where it is pushed, and behind.
fn assert_color(rt: &impl Abort, alloc: Global, color: Color, front: &str, behind: &str) {
    let found = painted_char(alloc, 'é', Some(color));
    assert_texts(rt, found, escaped(alloc, front));
    let found = pushed_twice(alloc, color);
    assert_texts(rt, found, escaped_twice(alloc, front));
    let found = painted_text(alloc, "é", Some(color));
    assert_texts(rt, found, escaped(alloc, behind))
}

#[test]
fn every_color_is_painted(rt: HostRuntime) {
    for (color, front, behind) in COLORS {
        assert_color(&rt, rt.alloc(), *color, *front, *behind)
    }
}

#[test]
fn values_without_color_stand_alone(rt: HostRuntime) {
    let alloc = rt.alloc();
    assert_text(
        &rt,
        format!(in alloc; "{}{}", "x".fg(None), 7.bg(None)),
        "x7",
    );
    assert_text(&rt, pushed_plain(alloc), "abc")
}

#[test]
fn options_of_the_format_are_ignored(rt: HostRuntime) {
    let alloc = rt.alloc();
    assert_text(&rt, format!(in alloc; "{:5}|", "x".fg(None)), "x|");
    assert_text(&rt, format!(in alloc; "{:>5}|", "x".bg(None)), "x|");
    assert_text(
        &rt,
        format!(in alloc; "{:05}", 7.fg(RED)),
        "\x1b[31m7\x1b[0m",
    );
    assert_text(
        &rt,
        format!(in alloc; "{:.1}", "xyz".bg(RED)),
        "\x1b[41mxyz\x1b[0m",
    )
}

#[test]
fn numbers_and_empty_texts_are_painted(rt: HostRuntime) {
    let alloc = rt.alloc();
    let mixed = Some(Color::Rgb(1, 2, 3));
    assert_text(
        &rt,
        format!(in alloc; "{}", 7.bg(mixed)),
        "\x1b[48;2;1;2;3m7\x1b[0m",
    );
    assert_text(
        &rt,
        "".fg(Some(Color::Primary)).to_string(alloc),
        "\x1b[39m\x1b[0m",
    );
    assert_text(&rt, pushed(alloc, RED, ""), "\x1b[31m\x1b[0m")
}

#[test]
fn values_of_any_kind_are_painted(rt: HostRuntime) {
    let alloc = rt.alloc();
    assert_text(
        &rt,
        painted_number(alloc, 42, RED),
        "\x1b[31m42\x1b[0m\x1b[41m42\x1b[0m",
    );
    assert_text(
        &rt,
        printed_again(alloc, 'x'),
        "\x1b[31mx\x1b[0m\x1b[31mx\x1b[0m\x1b[31mx\x1b[0m",
    )
}

/// The numbers of the first colours of the usual generator.
const FIRST: &[u8] = &[201, 155, 187];

#[test]
fn colors_of_a_generator(rt: HostRuntime) {
    let mut usual = ColorGenerator::new();
    let mut default = ColorGenerator::default();
    for number in FIRST {
        assert_is(&rt, usual.next(), Color::Fixed(*number));
        assert_is(&rt, default.next(), Color::Fixed(*number));
    }
    assert_is(&rt, usual_after_one().next(), Color::Fixed(155));
    assert_is(&rt, usual_after_two().next(), Color::Fixed(187));
    assert_is(&rt, usual_after_three().next(), default.next());
    numbers_rise_evenly();
}

#[test]
fn full_brightness_is_always_white(rt: HostRuntime) {
    let mut bright = ColorGenerator::from_state([0, 0, 0], 2000);
    for turn in 0..20 {
        assert_is(&rt, (turn, bright.next()), (turn, Color::Fixed(231)))
    }
}

#[test]
fn numbers_of_a_generator_begin_again_at_65536(rt: HostRuntime) {
    let mut greatest = ColorGenerator::from_state([65535, 65535, 65535], 0);
    assert_is(&rt, greatest.next(), Color::Fixed(109));
    assert_is(&rt, greatest_after_one().next(), greatest.next())
}
