//! What helps say that change a file.

ghost use Rattle.std.specs.Prelude.{◌≡◌, ◌++◌, map, string_bytes, IfOk, OnOk};
ghost use Rattle.ariadne_parse.specs.Fixes.{change_words, further_words, fix_words, line_words, span_words};
ghost use Rattle.ariadne_parse.specs.Fixes.{put_words, reasoned, reasoned_words, standing, there_words};

use crate::diagnostic::Location;
use std::alloc::{AllocError, Global};

/// What stands at a span of a file before it is changed.
#[derive(Clone, Copy)]
pub enum Covered<'a> {
    /// Nothing, or what the tool doesn't name.
    Unnamed,
    /// This, in one line.
    Text(&'a str),
    /// What goes on up to here, in a later line.
    UpTo(Location),
}

/// What a help says that puts a text in at a span, for what stands there; where the text is empty, that is
/// removed.
pub fn change_text(
    alloc: Global,
    at: Location,
    covered: &Covered<'_>,
    put_in: &str,
) -> Result<String, AllocError>
    ensures { IfOk result (λ text. string_bytes text ≡ change_words at (standing covered.now) put_in.now) }
{
    if put_in.is_empty() {
        let there = there_text(alloc, at, covered)?;
        return format!(in alloc; "remove {there}");
    }
    put_text(alloc, at, covered, put_in)
}

/// What a help says that puts a text in at a span, for what stands there.
fn put_text(
    alloc: Global,
    at: Location,
    covered: &Covered<'_>,
    put_in: &str,
) -> Result<String, AllocError>
    ensures { IfOk result (λ text. string_bytes text ≡ put_words at (standing covered.now) put_in.now) }
{
    match covered {
        Covered::Unnamed => fix_text(alloc, at, put_in),
        Covered::Text(_) | Covered::UpTo(_) => {
            let there = there_text(alloc, at, covered)?;
            format!(in alloc; "put `{put_in}` in place of {there}")
        }
    }
}

/// What a help says that puts a text in at a span.
pub(crate) fn fix_text(alloc: Global, at: Location, put_in: &str) -> Result<String, AllocError>
    ensures { IfOk result (λ text. string_bytes text ≡ fix_words at put_in.now) }
{
    let span = span_text(alloc, at)?;
    format!(in alloc; "put `{put_in}` at {span}")
}

/// What a help says that puts lines in.
pub(crate) fn line_text(alloc: Global, line: usize, put_in: &str) -> Result<String, AllocError>
    ensures { IfOk result (λ text. string_bytes text ≡ line_words line put_in.now) }
{
    format!(in alloc; "put the line `{put_in}` in front of line {line}")
}

/// What stands at a span, and where that is.
fn there_text(alloc: Global, at: Location, covered: &Covered<'_>) -> Result<String, AllocError>
    ensures { IfOk result (λ text. string_bytes text ≡ there_words at (standing covered.now)) }
{
    let span = span_text(alloc, at)?;
    match covered {
        Covered::Unnamed => format!(in alloc; "what stands at {span}"),
        Covered::Text(text) => format!(in alloc; "`{text}` at {span}"),
        Covered::UpTo(end) => {
            let end = span_text(alloc, *end)?;
            format!(in alloc; "what stands from {span} to {end}")
        }
    }
}

/// A line and a column, which is the first where it has none.
fn span_text(alloc: Global, at: Location) -> Result<String, AllocError>
    ensures { IfOk result (λ text. string_bytes text ≡ span_words at) }
{
    let line = at.line;
    let column = at.column.unwrap_or(1);
    format!(in alloc; "{line}:{column}")
}

/// Adds what is to be changed to helps: one that says why, and what in a row each; where it doesn't say why, each
/// change is a help.
pub fn push_reasoned(
    alloc: Global,
    helps: &mut Vec<String>,
    why: &str,
    mut changes: Vec<String>,
) -> Result<(), AllocError>
    ensures { OnOk result (map string_bytes helps.new.items
        ≡ map string_bytes helps.old.items ++ reasoned why.now (map string_bytes changes.items)) }
{
    if why.is_empty() {
        return helps.append(&mut changes);
    }
    match changes.split_first() {
        Some((first, others)) => {
            let help = reasoned_text(alloc, why, first.as_str(), others)?;
            helps.push(help)?;
            Ok(())
        }
        None => Ok(()),
    }
}

/// What a help says that says why, and the changes, each in a row.
fn reasoned_text(
    alloc: Global,
    why: &str,
    first: &str,
    others: &[String],
) -> Result<String, AllocError>
    ensures { IfOk result (λ help.
        string_bytes help ≡ reasoned_words why.now first.now (map string_bytes others.now)) }
{
    let mut help = format!(in alloc; "{why}: {first}")?;
    for change in others {
        push_further(&mut help, change.as_str())?;
    }
    Ok(help)
}

/// Has a help go on with a further change, in a row of its own.
fn push_further(help: &mut String, change: &str) -> Result<(), AllocError>
    ensures { OnOk result (string_bytes help.new ≡ string_bytes help.old ++ further_words change.now) }
{
    help.push_str(",\n")?;
    help.push_str(change)
}
