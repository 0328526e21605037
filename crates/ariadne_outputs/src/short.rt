//! Diagnostics in rows, `FILE:LINE:COLUMN: KIND: MESSAGE [CODE]`, as gcc and clang write them: editors
//! read them, and so does the program.

ghost use Rattle.std.specs.Prelude.{◌≡◌, ◌++◌, IfOk, OnOk, option_map, string_bytes};
ghost use Rattle.std.specs.List.{flat_map};
ghost use Rattle.std.specs.Option.{option_copied};
ghost use Rattle.ariadne_outputs.specs.Located.{located_span_of, located_spans_of};
ghost use Rattle.ariadne_outputs.specs.Short.{code_part, column_part, head_row};
ghost use Rattle.ariadne_outputs.specs.Short.{main_location as location_of_main, note_rows, row, span_row};
ghost use Rattle.ariadne_outputs.specs.Short.{location_at, short_rows};

use crate::located::{Located, severity_word};
use ariadne_parse::Diagnostic;
use ariadne_safe::{TextKind, visible};
use std::alloc::{AllocError, Global};

/// The word for what is said beside a diagnostic.
const NOTE: &str = "note";

/// A diagnostic in rows, each with its line feed: its message, then what its spans say, its notes and
/// its helps, each as a note. What has no span of its own stands at the diagnostic's.
///
/// Columns count bytes. A row has a sign for each hidden character of its texts, also for line feeds. A
/// diagnostic without a span begins with its kind. On `Err` there was no memory.
pub fn short_text(
    alloc: Global,
    parsed: &Diagnostic,
    spans: &[Located<'_>],
) -> Result<String, AllocError>
    ensures { IfOk result (λ text.
        string_bytes text ≡ short_rows parsed.now (located_spans_of spans.now)) }
{
    let mut text = String::new(alloc);
    let location = main_location(alloc, spans.first())?;
    push_head(alloc, &mut text, location.as_str(), parsed)?;
    push_spans(alloc, &mut text, spans)?;
    push_notes(alloc, &mut text, location.as_str(), parsed.notes.as_slice())?;
    push_notes(alloc, &mut text, location.as_str(), parsed.helps.as_slice())?;
    Ok(text)
}

/// Where a diagnostic's own span begins, if it has one.
fn main_location(alloc: Global, main: Option<&Located<'_>>) -> Result<String, AllocError>
    ensures { IfOk result (λ text. string_bytes text
        ≡ location_of_main (option_map located_span_of (option_copied main.entry))) }
{
    match main {
        Some(main) => location_text(alloc, main),
        None => Ok(String::new(alloc)),
    }
}

/// Where the tool points, `FILE:LINE:COLUMN: `.
fn location_text(alloc: Global, it: &Located<'_>) -> Result<String, AllocError>
    ensures { IfOk result (λ text. string_bytes text ≡ location_at (located_span_of it.now)) }
{
    let file = visible(alloc, it.span.file.as_str(), TextKind::OneRow)?;
    let line = it.caret.line;
    let column = column_text(alloc, it.caret.column)?;
    format!(in alloc; "{file}:{line}{column}: ")
}

/// A column behind a colon, if there is one.
fn column_text(alloc: Global, column: Option<usize>) -> Result<String, AllocError>
    ensures { IfOk result (λ text. string_bytes text ≡ column_part column) }
{
    match column {
        Some(column) => format!(in alloc; ":{column}"),
        None => Ok(String::new(alloc)),
    }
}

/// Adds the row of a diagnostic's message.
fn push_head(
    alloc: Global,
    text: &mut String,
    location: &str,
    parsed: &Diagnostic,
) -> Result<(), AllocError>
    ensures { OnOk result (string_bytes text.new
        ≡ string_bytes text.old ++ head_row location.now parsed.now) }
{
    let code = code_text(alloc, parsed.code.as_ref())?;
    let word = severity_word(parsed.severity);
    push_row(
        alloc,
        text,
        location,
        word,
        parsed.message.as_str(),
        code.as_str(),
    )
}

/// A code in brackets behind a blank, if there is one.
fn code_text(alloc: Global, code: Option<&String>) -> Result<String, AllocError>
    ensures { IfOk result (λ text. string_bytes text ≡ code_part (option_copied code.entry)) }
{
    match code {
        Some(code) => {
            let code = visible(alloc, code.as_str(), TextKind::OneRow)?;
            format!(in alloc; " [{code}]")
        }
        None => Ok(String::new(alloc)),
    }
}

/// Adds a row for each span that says something.
fn push_spans(alloc: Global, text: &mut String, spans: &[Located<'_>]) -> Result<(), AllocError>
    ensures { OnOk result (string_bytes text.new ≡ string_bytes text.old
        ++ flat_map (λ it. span_row (located_span_of it)) spans.now) }
{
    for it in spans {
        push_span(alloc, text, it)?;
    }
    Ok(())
}

/// Adds the row of a span, if that says something.
fn push_span(alloc: Global, text: &mut String, it: &Located<'_>) -> Result<(), AllocError>
    ensures { OnOk result (string_bytes text.new
        ≡ string_bytes text.old ++ span_row (located_span_of it.now)) }
{
    if it.span.text.is_empty() {
        return Ok(());
    }
    let location = location_text(alloc, it)?;
    push_row(
        alloc,
        text,
        location.as_str(),
        NOTE,
        it.span.text.as_str(),
        "",
    )
}

/// Adds a row for each of these notes.
fn push_notes(
    alloc: Global,
    text: &mut String,
    location: &str,
    notes: &[String],
) -> Result<(), AllocError>
    ensures { OnOk result (string_bytes text.new
        ≡ string_bytes text.old ++ note_rows location.now notes.now) }
{
    for note in notes {
        push_row(alloc, text, location, NOTE, note.as_str(), "")?;
    }
    Ok(())
}

/// Adds a row that says this of a location, with what stands behind it.
fn push_row(
    alloc: Global,
    text: &mut String,
    location: &str,
    word: &str,
    said: &str,
    behind: &str,
) -> Result<(), AllocError>
    ensures { OnOk result (string_bytes text.new
        ≡ string_bytes text.old ++ row location.now word.now said.now behind.now) }
{
    let said = visible(alloc, said, TextKind::OneRow)?;
    text.push_str(format!(in alloc; "{location}{word}: {said}{behind}\n")?.as_str())
}
