//! What is said of a diagnostic in lines, where there is no picture.

ghost use Rattle.std.specs.Prelude.{◌≡◌, ◌∷◌, [], ◌++◌, string_bytes, IfOk, OnOk};
ghost use Rattle.std.specs.Option.{option_to_list};
ghost use Rattle.ariadne_show.specs.FoundSpans.{files_of};
ghost use Rattle.ariadne_show.specs.TextDiagnostics.{lines_of, missing_main, said_spans, said_texts};
ghost use Rattle.ariadne_show.specs.TextDiagnostics.{missing_text as text_of_missing};

use crate::asides::location_text;
use crate::shelf::Shelf;
use ariadne_parse::{Diagnostic, Span};
use std::alloc::{AllocError, Global};

/// What the spans of a diagnostic say, its notes and its helps, and why its own span can't be drawn.
pub fn line_texts(
    alloc: Global,
    shelf: &Shelf,
    parsed: &Diagnostic,
) -> Result<Vec<String>, AllocError>
    ensures { IfOk result (λ texts.
        said_texts texts.items ≡ lines_of (files_of shelf.now) parsed.now) }
{
    let mut texts = Vec::new(alloc);
    push_spans(alloc, &mut texts, parsed.spans.as_slice())?;
    push_copies(&mut texts, parsed.notes.as_slice())?;
    push_copies(&mut texts, parsed.helps.as_slice())?;
    push_missing(alloc, &mut texts, shelf, parsed)?;
    Ok(texts)
}

/// Adds what spans say.
fn push_spans(alloc: Global, texts: &mut Vec<String>, spans: &[Span]) -> Result<(), AllocError>
    ensures { OnOk result (said_texts texts.new.items
        ≡ said_texts texts.old.items ++ said_spans spans.now) }
{
    for span in spans {
        push_span(alloc, texts, span)?;
    }
    Ok(())
}

/// Adds what a span says, if it says something.
fn push_span(alloc: Global, texts: &mut Vec<String>, span: &Span) -> Result<(), AllocError>
    ensures { OnOk result (said_texts texts.new.items
        ≡ said_texts texts.old.items ++ said_spans (span.now ∷ [])) }
{
    if span.text.is_empty() {
        return Ok(());
    }
    texts.push(location_text(alloc, span, span.text.as_str())?)?;
    Ok(())
}

/// Adds copies of texts.
fn push_copies(texts: &mut Vec<String>, all: &[String]) -> Result<(), AllocError>
    ensures { OnOk result (said_texts texts.new.items
        ≡ said_texts texts.old.items ++ said_texts all.now) }
{
    for text in all {
        texts.push(text.clone()?)?;
    }
    Ok(())
}

/// Adds why the own span of a diagnostic can't be drawn, if it has one.
fn push_missing(
    alloc: Global,
    texts: &mut Vec<String>,
    shelf: &Shelf,
    parsed: &Diagnostic,
) -> Result<(), AllocError>
    ensures { OnOk result (said_texts texts.new.items ≡ said_texts texts.old.items
        ++ option_to_list (missing_main (files_of shelf.now) parsed.now)) }
{
    match parsed.main_span() {
        Some(span) => {
            texts.push(missing_text(alloc, shelf, span)?)?;
            Ok(())
        }
        None => Ok(()),
    }
}

/// Why a span can't be drawn.
fn missing_text(alloc: Global, shelf: &Shelf, span: &Span) -> Result<String, AllocError>
    ensures { IfOk result (λ text. string_bytes text
        ≡ text_of_missing (files_of shelf.now) span.now) }
{
    let file = span.file.as_str();
    let line = span.start.line;
    match shelf.get(file) {
        Some(_) => format!(in alloc; "not drawn, since {file} has no line {line}"),
        None => format!(in alloc; "not drawn, since {file} can't be read"),
    }
}
