//! The words of the command line, as `clap` parses them.

ghost use Rattle.std.specs.Prelude.{◌≡◌, codes, IfErr, IfOk, fold, map, string_bytes};
ghost use Rattle.clap.specs.Words.{app_of, rule_of, with_rule};
ghost use Rattle.ariadne_show.specs.OptionMeanings.{IsAskedBy, IsRefusedFor};
ghost use Rattle.ariadne_show.specs.Faults.{TellsWords};
ghost use Rattle.ariadne_show.specs.CommandWords.{bare_command, choice_rule, choices, command as command_app};
ghost use Rattle.ariadne_show.specs.CommandWords.{inputs_rule, number_rule, option_rule, others, switch_rule};
ghost use Rattle.ariadne_show.specs.CommandWords.{switches, typed_rule};
ghost use Rattle.clap.specs.declared.builder.value_parser.ValueParser.TheVariants.{NonEmptyString};
ghost use Rattle.ariadne_show.specs.CommandWords.{texts_in, ForList, ForNames, IsParsedBy};

use crate::entries::{inputs_of, options_of, width_of, width_text};
use crate::fault::Fault;
use crate::options::{Input, Options};
use crate::pages::{HELP, HelpPage, VERSION};
use ariadne_safe::{TextKind, visible};
use clap::builder::ValueParser;
use clap::error::ErrorKind;
use clap::{Arg, ArgAction, ArgMatches, Command, Error, value_parser};
use std::alloc::{AllocError, Global};

/// What `--format` may be.
pub const FORMATS: &[&str] = &["auto", "rustc", "gcc", "lines", "report"];

/// What `--columns` may be.
pub const UNITS: &[&str] = &["bytes", "chars", "utf16", "display"];

/// What `--first-column` may be.
pub const FIRST_COLUMNS: &[&str] = &["0", "1"];

/// What `--color` may be.
pub const COLORS: &[&str] = &["auto", "always", "never"];

/// What `--output` may be.
pub const OUTPUTS: &[&str] = &["picture", "short", "github", "sarif"];

/// What `--severity` may be.
pub const SEVERITIES: &[&str] = &["error", "warning", "note"];

/// What `--fail-on` may be.
pub const FAILS: &[&str] = &["error", "warning", "never"];

/// What the words ask for.
#[derive(Drop)]
pub enum Request<'a> {
    /// To show what inputs tell, one after the other.
    Show {
        options: Options<'a>,
        inputs: Vec<Input<'a>>,
    },
    /// A text that the program has ready.
    Page(HelpPage),
}

/// Reads the words that the program was called with, without its own name.
///
/// Options and names of inputs stand in any order. Of an option the last one counts. On `Err` they
/// ask for nothing that the program does, or there was no memory.
pub fn read_words<'a>(alloc: Global, words: &'a [String]) -> Result<Request<'a>, Fault>
    ensures asked { IfOk result (IsAskedBy (map string_bytes words.now)) }
    ensures refused { IfErr result (IsRefusedFor (map string_bytes words.now)) }
{
    match parse(alloc, words) {
        Ok(matches) => match width_of(&matches) {
            Some(width) => Ok(Request::Show {
                options: options_of(&matches, width),
                inputs: inputs_of(alloc, &matches)?,
            }),
            None => Err(Fault::no_width(alloc, width_text(&matches))?),
        },
        Err(error) => match error.kind() {
            ErrorKind::DisplayHelp => Ok(Request::Page(HelpPage::Help)),
            ErrorKind::DisplayVersion => Ok(Request::Page(HelpPage::Version)),
            ErrorKind::OutOfMemory => Err(Fault::Memory(AllocError)),
            _ => Err(told_by_signs(alloc, words, error)?),
        },
    }
}

/// Parses words.
fn parse<'a>(alloc: Global, words: &'a [String]) -> Result<ArgMatches<'a>, Error>
    ensures { IsParsedBy (map string_bytes words.now) result }
{
    command(alloc)?.try_get_matches_from(words)
}

/// The words that the program takes.
fn command<'a>(alloc: Global) -> Result<Command<'a>, AllocError>
    ensures { IfOk result (λ made. ForNames (λ names. app_of made ≡ command_app names)) }
{
    let command = with_choices(alloc, bare(alloc))?;
    let command = with_switches(alloc, command)?;
    with_others(alloc, command)
}

/// The command without words.
fn bare<'a>(alloc: Global) -> Command<'a>
    ensures { app_of result ≡ bare_command (codes "ariadne-show") }
{
    Command::new(alloc, "ariadne-show")
        .version(VERSION)
        .override_help(HELP)
        .no_binary_name(true)
        .args_override_self(true)
}

/// The command with the options whose values are named.
fn with_choices<'a>(alloc: Global, command: Command<'a>) -> Result<Command<'a>, AllocError>
    ensures { IfOk result (λ made. ForNames (λ names.
        app_of made ≡ fold with_rule (app_of command.entry) (choices names))) }
{
    command
        .arg(choice(alloc, "format", "FORMAT", FORMATS))?
        .arg(choice(alloc, "columns", "UNIT", UNITS))?
        .arg(choice(alloc, "first-column", "N", FIRST_COLUMNS))?
        .arg(choice(alloc, "color", "WHEN", COLORS))?
        .arg(choice(alloc, "output", "FORM", OUTPUTS))?
        .arg(choice(alloc, "severity", "KIND", SEVERITIES))?
        .arg(choice(alloc, "fail-on", "KIND", FAILS))
}

/// The command with the options that have no value.
fn with_switches<'a>(alloc: Global, command: Command<'a>) -> Result<Command<'a>, AllocError>
    ensures { IfOk result (λ made. app_of made ≡ fold with_rule (app_of command.entry) switches) }
{
    command
        .arg(switch(alloc, "ascii"))?
        .arg(switch(alloc, "compact"))?
        .arg(switch(alloc, "short"))?
        .arg(switch(alloc, "raw"))
}

/// The command with the others, and the names of inputs.
fn with_others<'a>(alloc: Global, command: Command<'a>) -> Result<Command<'a>, AllocError>
    ensures { IfOk result (λ made. app_of made ≡ fold with_rule (app_of command.entry) others) }
{
    command
        .arg(number(alloc, "context"))?
        .arg(number(alloc, "max"))?
        .arg(text(alloc, "width", "N"))?
        .arg(text(alloc, "base", "DIR"))?
        .arg(text(alloc, "tool", "NAME"))?
        .arg(text(alloc, "matcher", "FILE"))?
        .arg(inputs(alloc))
}

/// An option whose value is one of these names.
fn choice<'a>(alloc: Global, name: &'a str, value: &'a str, names: &'a [&'a str]) -> Arg<'a>
    ensures { ForList (texts_in names.entry) (λ list.
        rule_of result ≡ choice_rule name.entry.now list) }
{
    option(alloc, name, value).value_parser(names)
}

/// An option whose value is a number.
fn number<'a>(alloc: Global, name: &'a str) -> Arg<'a>
    ensures { rule_of result ≡ number_rule name.entry.now }
{
    option(alloc, name, "N").value_parser(value_parser!(usize))
}

/// An option whose value is any text but the empty one.
fn text<'a>(alloc: Global, name: &'a str, value: &'a str) -> Arg<'a>
    ensures { rule_of result ≡ typed_rule name.entry.now NonEmptyString }
{
    option(alloc, name, value).value_parser(ValueParser::NonEmptyString)
}

/// An option that has a value.
fn option<'a>(alloc: Global, name: &'a str, value: &'a str) -> Arg<'a>
    ensures { rule_of result ≡ option_rule name.entry.now }
{
    Arg::new(alloc, name)
        .long(name)
        .value_name(value)
        .action(ArgAction::Set)
}

/// An option that has none.
fn switch<'a>(alloc: Global, name: &'a str) -> Arg<'a>
    ensures { rule_of result ≡ switch_rule name.entry.now }
{
    Arg::new(alloc, name).long(name).action(ArgAction::SetTrue)
}

/// The names of inputs.
fn inputs<'a>(alloc: Global) -> Arg<'a>
    ensures { rule_of result ≡ inputs_rule }
{
    Arg::new(alloc, "file")
        .value_name("FILE")
        .num_args(0..)
        .action(ArgAction::Append)
}

/// What is wrong with words, told with a sign for each character that a terminal obeys.
///
/// The text is that of words which have these signs: in the text of the words themselves their line
/// feeds and those of `clap` could not be told apart.
fn told_by_signs(alloc: Global, words: &[String], error: Error) -> Result<Fault, AllocError>
    ensures { IfOk result TellsWords }
{
    let shown = with_signs(alloc, words)?;
    let error = match parse(alloc, shown.as_slice()) {
        Ok(_) => error,
        Err(error) => error,
    };
    if error.kind() == ErrorKind::OutOfMemory {
        return Err(AllocError);
    }
    Fault::words(alloc, &error)
}

/// Words with a sign for each character that a terminal obeys.
fn with_signs(alloc: Global, words: &[String]) -> Result<Vec<String>, AllocError> {
    let mut shown = Vec::new(alloc);
    for word in words {
        shown.push(visible(alloc, word.as_str(), TextKind::OneRow)?)?;
    }
    Ok(shown)
}
