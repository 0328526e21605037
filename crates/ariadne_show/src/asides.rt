//! What a report says beside: notes and helps.

ghost use Rattle.std.specs.Prelude.{◌≡◌, ℕ, List, [], ◌∷◌, ◌++◌, map};
ghost use Rattle.std.specs.Prelude.{string_bytes, IfOk};
ghost use Rattle.std.specs.List.{list_any};
ghost use Rattle.ariadne_safe.specs.Visible.{visible_bytes};
ghost use Rattle.ariadne_safe.specs.declared.text.TextKind.TheVariants.{Aside};
ghost use Rattle.ariadne_safe.specs.SafeBuilding.{made_of, sources_under};
ghost use Rattle.ariadne_show.specs.Asides.{aside_notes, covers, helps_from, helps_of, missing_notes};
ghost use Rattle.ariadne_show.specs.Asides.{notes_of, own_text, texts_at};
ghost use Rattle.ariadne_show.specs.Asides.{column_text as text_of_column, location_name as name_of_location};
ghost use Rattle.ariadne_show.specs.Asides.{location_text as text_of_location};
ghost use Rattle.ariadne_show.specs.Asides.{with_helps as more_helps, with_notes as more_notes};
ghost use Rattle.ariadne_show.specs.FoundSpans.{files_of};

use crate::found::found_span;
use crate::proposed::Sketch;
use crate::shelf::Shelf;
use crate::wrapping::wrapped;
use ariadne_parse::{Diagnostic, Span};
use ariadne_safe::SafeBuilder;
use std::alloc::{AllocError, Global};

/// The report with the notes and helps, and before them a note for each span that can't be drawn, in
/// rows of so many columns, or of any number where that is 0. Proposals that are drawn stand in the place of
/// their helps.
pub fn with_asides<'s>(
    alloc: Global,
    builder: SafeBuilder<'s>,
    shelf: &Shelf,
    parsed: &Diagnostic,
    sketches: &[Sketch],
    width: usize,
) -> Result<SafeBuilder<'s>, AllocError>
    ensures report { IfOk result (λ b. made_of b ≡ more_helps (helps_of width sketches.now parsed.now)
        (more_notes (notes_of width (files_of shelf.now) parsed.now) (made_of builder.entry))) }
    ensures sources { IfOk result (λ b. sources_under b ≡ sources_under builder.entry) }
{
    let builder = with_missing(alloc, builder, shelf, parsed.spans.as_slice(), width)?;
    let builder = with_notes(alloc, builder, parsed.notes.as_slice(), width)?;
    with_helps(alloc, builder, parsed.helps.as_slice(), sketches, width)
}

/// The report with a note for each span that can't be drawn.
fn with_missing<'s>(
    alloc: Global,
    builder: SafeBuilder<'s>,
    shelf: &Shelf,
    spans: &[Span],
    width: usize,
) -> Result<SafeBuilder<'s>, AllocError>
    ensures report { IfOk result (λ b. made_of b ≡ more_notes
        (missing_notes width (files_of shelf.now) spans.now) (made_of builder.entry)) }
    ensures sources { IfOk result (λ b. sources_under b ≡ sources_under builder.entry) }
{
    let mut builder = builder;
    for span in spans {
        builder = with_missing_one(alloc, builder, shelf, span, width)?;
    }
    Ok(builder)
}

/// The report with a note for a span, if that can't be drawn.
fn with_missing_one<'s>(
    alloc: Global,
    builder: SafeBuilder<'s>,
    shelf: &Shelf,
    span: &Span,
    width: usize,
) -> Result<SafeBuilder<'s>, AllocError>
    ensures report { IfOk result (λ b. made_of b ≡ more_notes
        (missing_notes width (files_of shelf.now) (span.now ∷ [])) (made_of builder.entry)) }
    ensures sources { IfOk result (λ b. sources_under b ≡ sources_under builder.entry) }
{
    match found_span(shelf, span) {
        Some(_) => Ok(builder),
        None => {
            let note = location_text(alloc, span, span.text.as_str())?;
            let rows = wrapped(alloc, note.as_str(), width)?;
            builder.with_note(rows.as_str())
        }
    }
}

/// The report with these notes.
fn with_notes<'s>(
    alloc: Global,
    builder: SafeBuilder<'s>,
    notes: &[String],
    width: usize,
) -> Result<SafeBuilder<'s>, AllocError>
    ensures report { IfOk result (λ b. made_of b
        ≡ more_notes (aside_notes width notes.now) (made_of builder.entry)) }
    ensures sources { IfOk result (λ b. sources_under b ≡ sources_under builder.entry) }
{
    let mut builder = builder;
    for note in notes {
        let note = wrapped(alloc, note.as_str(), width)?;
        builder = builder.with_note(note.as_str())?;
    }
    Ok(builder)
}

/// The report with these helps, and with proposals that are drawn in the place of some.
fn with_helps<'s>(
    alloc: Global,
    builder: SafeBuilder<'s>,
    helps: &[String],
    sketches: &[Sketch],
    width: usize,
) -> Result<SafeBuilder<'s>, AllocError>
    ensures report { IfOk result (λ b. made_of b
        ≡ more_helps (helps_from width sketches.now 0 helps.now) (made_of builder.entry)) }
    ensures sources { IfOk result (λ b. sources_under b ≡ sources_under builder.entry) }
{
    let mut builder = builder;
    for (number, help) in helps.iter().enumerate() {
        builder = with_sketches(builder, sketches, number)?;
        builder = with_help(alloc, builder, sketches, number, help, width)?;
    }
    Ok(builder)
}

/// The report with the proposals that begin at the help with a number.
fn with_sketches<'s>(
    builder: SafeBuilder<'s>,
    sketches: &[Sketch],
    number: usize,
) -> Result<SafeBuilder<'s>, AllocError>
    ensures report { IfOk result (λ b. made_of b
        ≡ more_helps (texts_at number sketches.now) (made_of builder.entry)) }
    ensures sources { IfOk result (λ b. sources_under b ≡ sources_under builder.entry) }
{
    let mut builder = builder;
    for sketch in sketches {
        builder = with_sketch(builder, sketch, number)?;
    }
    Ok(builder)
}

/// The report with the texts of a proposal, if that begins at the help with a number.
fn with_sketch<'s>(
    builder: SafeBuilder<'s>,
    sketch: &Sketch,
    number: usize,
) -> Result<SafeBuilder<'s>, AllocError>
    ensures report { IfOk result (λ b. made_of b
        ≡ more_helps (texts_at number (sketch.now ∷ [])) (made_of builder.entry)) }
    ensures sources { IfOk result (λ b. sources_under b ≡ sources_under builder.entry) }
{
    if sketch.helps.start == number {
        with_texts(builder, sketch.texts.as_slice())
    } else {
        Ok(builder)
    }
}

/// The report with these texts as helps.
fn with_texts<'s>(builder: SafeBuilder<'s>, texts: &[String]) -> Result<SafeBuilder<'s>, AllocError>
    ensures report { IfOk result (λ b. made_of b ≡ more_helps
        (map (λ text. visible_bytes Aside (string_bytes text)) texts.now) (made_of builder.entry)) }
    ensures sources { IfOk result (λ b. sources_under b ≡ sources_under builder.entry) }
{
    let mut builder = builder;
    for text in texts {
        builder = builder.with_help(text.as_str())?;
    }
    Ok(builder)
}

/// The report with the help with a number, unless a proposal stands in its place.
fn with_help<'s>(
    alloc: Global,
    builder: SafeBuilder<'s>,
    sketches: &[Sketch],
    number: usize,
    help: &String,
    width: usize,
) -> Result<SafeBuilder<'s>, AllocError>
    ensures report { IfOk result (λ b. made_of b ≡ more_helps
        (own_text width sketches.now number help.now) (made_of builder.entry)) }
    ensures sources { IfOk result (λ b. sources_under b ≡ sources_under builder.entry) }
{
    if is_covered(sketches, number) {
        return Ok(builder);
    }
    let help = wrapped(alloc, help.as_str(), width)?;
    builder.with_help(help.as_str())
}

/// Whether a proposal stands in the place of the help with a number.
fn is_covered(sketches: &[Sketch], number: usize) -> bool
    ensures { result ≡ list_any (covers number) sketches.now }
{
    sketches.iter().any(|sketch| sketch.helps.contains(&number))
}

/// Where a span begins, as `FILE:LINE:COLUMN`, and what is said of it.
pub fn location_text(alloc: Global, span: &Span, said: &str) -> Result<String, AllocError>
    ensures text { IfOk result (λ text. string_bytes text ≡ text_of_location span.now said.now) }
    ensures behind { IfOk result (λ text.
        (before : List ℕ) × (string_bytes text ≡ before ++ said.now)) }
{
    let mut text = location_name(alloc, span)?;
    text.push_str(said)?;
    Ok(text)
}

/// Where a span begins, in front of what is said of it.
fn location_name(alloc: Global, span: &Span) -> Result<String, AllocError>
    ensures { IfOk result (λ text. string_bytes text ≡ name_of_location span.now) }
{
    let file = span.file.as_str();
    let line = span.start.line;
    let column = column_text(alloc, span.start.column)?;
    format!(in alloc; "{file}:{line}{column}: ")
}

/// A column behind a colon, if there is one.
fn column_text(alloc: Global, column: Option<usize>) -> Result<String, AllocError>
    ensures { IfOk result (λ text. string_bytes text ≡ text_of_column column) }
{
    match column {
        Some(column) => format!(in alloc; ":{column}"),
        None => Ok(String::new(alloc)),
    }
}
