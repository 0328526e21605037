//! Spans that can't be shown, as rows of a note.

ghost use Rattle.std.specs.Prelude.{◌≡◌, string_bytes, IfOk, OnOk};
ghost use Rattle.ariadne_parse.specs.Noted.{column_words, said_words, span_row, with_row};

use crate::diagnostic::Location;
use std::alloc::{AllocError, Global};

/// Where something is, `FILE:LINE:COLUMN`, and what is said of it, if anything is. On `Err` there was no memory.
pub fn named_span(alloc: Global, file: &str, at: Location, said: &str) -> Result<String, AllocError>
    ensures { IfOk result (λ text. string_bytes text ≡ span_row file.now at said.now) }
{
    let line = at.line;
    let column = column_text(alloc, at.column)?;
    let said = said_text(alloc, said)?;
    format!(in alloc; "{file}:{line}{column}{said}")
}

/// A column behind a colon, if there is one.
fn column_text(alloc: Global, column: Option<usize>) -> Result<String, AllocError>
    ensures { IfOk result (λ text. string_bytes text ≡ column_words column) }
{
    match column {
        Some(column) => format!(in alloc; ":{column}"),
        None => Ok(String::new(alloc)),
    }
}

/// What is said behind a colon, if anything is.
fn said_text(alloc: Global, said: &str) -> Result<String, AllocError>
    ensures { IfOk result (λ text. string_bytes text ≡ said_words said.now) }
{
    if said.is_empty() {
        return Ok(String::new(alloc));
    }
    format!(in alloc; ": {said}")
}

/// Has a text go on with a row, below those that it has.
pub(crate) fn push_row(text: &mut String, row: &str) -> Result<(), AllocError>
    ensures { OnOk result (string_bytes text.new ≡ with_row (string_bytes text.old) row.now) }
{
    if !text.is_empty() {
        text.push('\n')?;
    }
    text.push_str(row)
}
