//! Lines of snippets that stand behind no bar.

ghost use Rattle.std.specs.Prelude.{◌≡◌, option_map};
ghost use Rattle.ariadne_snippets.specs.Words.{added_in, behind_unfiled, changed_in, indented_in, note_in};
ghost use Rattle.ariadne_snippets.specs.Words.{unfiled_in, words_in, words_told};

use crate::pieces::{begins_with, behind, behind_text, number, past_blanks};

/// A line of rustc's form that has words of its own.
#[derive(Clone, Copy)]
pub(crate) enum Words<'a> {
    /// `= note: ..`, or a note below the place.
    Note(&'a str),
    /// `= help: ..`.
    Help(&'a str),
    /// A help below the place, which may say how lines are to be.
    Advice(&'a str),
    /// The place that a note or a help is about.
    At(&'a str),
    /// A place in another file.
    Elsewhere(&'a str),
    /// A line that is to stand there.
    Inserted(usize, &'a str),
    /// How a line is to be.
    Changed(usize, &'a str),
    /// A line that is to go.
    Gone,
    /// Lines that are left out.
    Gap,
}

/// The words of a line, if it has some.
pub(crate) fn words_of(line: &str) -> Option<Words<'_>>
    ensures { option_map words_told result ≡ words_in line.now }
{
    if let Some(text) = note_of(line) {
        return Some(Words::Note(text));
    }
    if let Some(text) = behind_text(line, "help: ") {
        return Some(Words::Advice(text));
    }
    if begins_with(line, "...") {
        return Some(Words::Gap);
    }
    match changed_line(line) {
        Some(words) => Some(words),
        None => indented_words(past_blanks(line)),
    }
}

/// What a note says that names no place.
pub(crate) fn note_of(line: &str) -> Option<&str>
    ensures { option_map (λ text. text.now) result ≡ note_in line.now }
{
    behind_text(line, "note: ")
        .or(behind_text(line, "cc1: note: "))
        .or(behind_text(line, "cc1plus: note: "))
}

/// What a note says of a text that stands in no file, as clang's `<scratch space>:2:1: note: ..`: what macros have
/// put together, assembler in a string, or what the command line defines.
pub(crate) fn unfiled_note(line: &str) -> Option<&str>
    ensures { option_map (λ text. text.now) result ≡ unfiled_in line.now }
{
    let (_, rest) = number(behind_unfiled_name(line)?)?;
    let (_, rest) = number(behind(rest, ':')?)?;
    behind_text(rest, ": note: ")
}

/// What stands behind the name of a text that stands in no file.
fn behind_unfiled_name(line: &str) -> Option<&str>
    ensures { option_map (λ rest. rest.now) result ≡ behind_unfiled line.now }
{
    behind_text(line, "<scratch space>:")
        .or(behind_text(line, "<inline asm>:"))
        .or(behind_text(line, "<command line>:"))
        .or(behind_text(line, "<built-in>:"))
}

/// The words of a line that is indented.
fn indented_words(text: &str) -> Option<Words<'_>>
    ensures { option_map words_told result ≡ indented_in text.now }
{
    if let Some(text) = behind_text(text, "= note: ") {
        return Some(Words::Note(text));
    }
    if let Some(text) = behind_text(text, "= help: ") {
        return Some(Words::Help(text));
    }
    if let Some(place) = behind_text(text, "--> ") {
        return Some(Words::At(place));
    }
    Some(Words::Elsewhere(behind_text(text, "::: ")?))
}

/// A line that is to stand there, `5 + text`, how a line is to be, `5 ~ text`, or one that is to go,
/// `5 - text`.
fn changed_line(line: &str) -> Option<Words<'_>>
    ensures { option_map words_told result ≡ changed_in line.now }
{
    let (number, rest) = number(past_blanks(line))?;
    let change = past_blanks(rest);
    if begins_with(change, "- ") {
        return Some(Words::Gone);
    }
    match behind_text(change, "+ ") {
        Some(text) => Some(Words::Inserted(number, text)),
        None => Some(Words::Changed(number, behind_text(change, "~ ")?)),
    }
}

/// A line that is to be put in front of another: gcc's `+++ |+text`.
pub(crate) fn added_line(line: &str) -> Option<&str>
    ensures { option_map (λ text. text.now) result ≡ added_in line.now }
{
    behind_text(past_blanks(line), "+++ |+")
}
