//! What the entries ask for that `clap` finds in the words.

ghost use Rattle.std.specs.Prelude.{◌≡◌, IfOk, codes, map, option_map};
ghost use Rattle.clap.specs.Words.{found_of, one_of, rows_of};
ghost use Rattle.ariadne_show.specs.OptionMeanings.{colors_of as colors_named, fail_on_of as fail_on_named};
ghost use Rattle.ariadne_show.specs.OptionMeanings.{floor_of as floor_named, format_of as format_named};
ghost use Rattle.ariadne_show.specs.OptionMeanings.{input_path, is_on as is_given, is_zero as is_zero_named, path_named, value};
ghost use Rattle.ariadne_show.specs.OptionMeanings.{output_of as output_named, unit_of as unit_named};
ghost use Rattle.ariadne_show.specs.OptionMeanings.{AreInputsOf, AreOptionsOf, IsCountIn, IsNumberIn, IsWidthIn};

use crate::options::{Colors, FailOn, Input, Options, Output, Style, Width};
use ariadne_parse::{Counting, Format, Reading, Severity, Unit};
use clap::ArgMatches;
use std::alloc::{AllocError, Global};

/// What the options ask for, with this width.
pub fn options_of<'a>(matches: &ArgMatches<'a>, width: Width) -> Options<'a>
    ensures options { AreOptionsOf (rows_of (found_of matches.now)) result }
    ensures width { result.width ≡ width }
{
    Options {
        reading: Reading {
            format: format_of(value_of(matches, "format")),
            counting: Counting {
                unit: unit_of(value_of(matches, "columns")),
                is_from_zero: is_zero(value_of(matches, "first-column")),
            },
        },
        style: Style {
            is_colored: false,
            is_ascii: is_on(matches, "ascii"),
            is_compact: is_on(matches, "compact"),
            context_lines: context_of(matches),
            width: 0,
        },
        colors: colors_of(value_of(matches, "color")),
        width,
        output: output_of(value_of(matches, "output"), is_on(matches, "short")),
        is_raw: is_on(matches, "raw"),
        floor: floor_of(value_of(matches, "severity")),
        limit: number_of(matches, "max"),
        fail_on: fail_on_of(value_of(matches, "fail-on")),
        base: value_of(matches, "base"),
        tool: value_of(matches, "tool"),
        matcher: value_of(matches, "matcher"),
    }
}

/// The value of an option, if it was given.
fn value_of<'a>(matches: &ArgMatches<'a>, name: &str) -> Option<&'a str>
    ensures { option_map (λ text. text.now) result
        ≡ value (rows_of (found_of matches.now)) name.now }
{
    matches.get_str(name)
}

/// Whether an option without a value was given. (Of `get_flag` no clause says what it makes of other
/// values.)
fn is_on(matches: &ArgMatches<'_>, name: &str) -> bool
    ensures { result ≡ is_given (rows_of (found_of matches.now)) name.now }
{
    value_of(matches, name) == Some("true")
}

/// The number that an option has, if it was given.
fn number_of(matches: &ArgMatches<'_>, name: &str) -> Option<usize>
    ensures { IsNumberIn (one_of name.now (rows_of (found_of matches.now))) result }
{
    matches.get_one(name)
}

/// How many lines are shown above and below each line with a label.
fn context_of(matches: &ArgMatches<'_>) -> usize
    ensures { IsCountIn (one_of (codes "context") (rows_of (found_of matches.now))) result }
{
    number_of(matches, "context").unwrap_or(0)
}

/// How many columns the rows of a picture may take, if the value of the option says it.
pub fn width_of(matches: &ArgMatches<'_>) -> Option<Width>
    ensures { IsWidthIn (value (rows_of (found_of matches.now)) (codes "width")) result }
{
    match value_of(matches, "width") {
        None | Some("auto") => Some(Width::Auto),
        Some("full") => Some(Width::Full),
        Some(number) => match number.parse::<usize>() {
            Ok(columns) => Some(Width::Columns(columns)),
            Err(_) => None,
        },
    }
}

/// The value that the option for it has; empty where it has none.
pub fn width_text<'a>(matches: &ArgMatches<'a>) -> &'a str {
    value_of(matches, "width").unwrap_or("")
}

/// The form in which lines are read.
fn format_of(name: Option<&str>) -> Format
    ensures { result ≡ format_named (option_map (λ text. text.now) name.entry) }
{
    match name {
        Some("rustc") => Format::Rustc,
        Some("gcc") => Format::Gcc,
        Some("lines") => Format::Lines,
        Some("report") => Format::Report,
        _ => Format::Auto,
    }
}

/// What columns count.
fn unit_of(name: Option<&str>) -> Unit
    ensures { result ≡ unit_named (option_map (λ text. text.now) name.entry) }
{
    match name {
        Some("chars") => Unit::Char,
        Some("utf16") => Unit::Utf16,
        Some("display") => Unit::Display,
        _ => Unit::Byte,
    }
}

/// Whether the number of the first column is 0. It is 1 where it isn't given.
fn is_zero(name: Option<&str>) -> bool
    ensures { result ≡ is_zero_named (option_map (λ text. text.now) name.entry) }
{
    name == Some("0")
}

/// When there are colours.
fn colors_of(name: Option<&str>) -> Colors
    ensures { result ≡ colors_named (option_map (λ text. text.now) name.entry) }
{
    match name {
        Some("always") => Colors::Always,
        Some("never") => Colors::Never,
        _ => Colors::Auto,
    }
}

/// The form in which diagnostics are written: that of `--output`, or of `--short` where there is none.
fn output_of(name: Option<&str>, is_short: bool) -> Output
    ensures { result ≡ output_named (option_map (λ text. text.now) name.entry) is_short }
{
    match name {
        Some("short") => Output::Short,
        Some("github") => Output::Github,
        Some("sarif") => Output::Sarif,
        None if is_short => Output::Short,
        _ => Output::Picture,
    }
}

/// The least severe diagnostics that are drawn.
fn floor_of(name: Option<&str>) -> Severity
    ensures { result ≡ floor_named (option_map (λ text. text.now) name.entry) }
{
    match name {
        Some("error") => Severity::Error,
        Some("warning") => Severity::Warning,
        _ => Severity::Note,
    }
}

/// Which diagnostics the status tells of.
fn fail_on_of(name: Option<&str>) -> FailOn
    ensures { result ≡ fail_on_named (option_map (λ text. text.now) name.entry) }
{
    match name {
        Some("warning") => FailOn::Warning,
        Some("never") => FailOn::Never,
        _ => FailOn::Error,
    }
}

/// The inputs that are named: standard input where none is. On `Err` there was no memory.
pub fn inputs_of<'a>(alloc: Global, matches: &ArgMatches<'a>) -> Result<Vec<Input<'a>>, AllocError>
    ensures { IfOk result (λ inputs.
        AreInputsOf (rows_of (found_of matches.now)) inputs.items) }
{
    let names = matches.get_strs("file").unwrap_or(&[]);
    if names.is_empty() {
        return Ok(vec![in alloc; Input::Standard]?);
    }
    inputs_named(alloc, names)
}

/// The inputs of these names.
fn inputs_named<'a>(alloc: Global, names: &[&'a str]) -> Result<Vec<Input<'a>>, AllocError>
    ensures { IfOk result (λ inputs. map input_path inputs.items
        ≡ map (λ name. path_named name.now) names.now) }
{
    let mut inputs = Vec::new(alloc);
    for name in names {
        inputs.push(input_named(*name))?;
    }
    Ok(inputs)
}

/// The input of this name.
fn input_named<'a>(name: &'a str) -> Input<'a>
    ensures { input_path result ≡ path_named name.entry.now }
{
    match name {
        "-" => Input::Standard,
        path => Input::File(path),
    }
}
