//! Where spans stand in the files that were read.

ghost use Rattle.std.specs.Prelude.{◌≡◌, ◌≤◌, ◌++◌, map, option_map, IfOk, IfSome, OnOk};
ghost use Rattle.std.specs.Option.{option_to_list};
ghost use Rattle.ariadne_show.specs.FoundSpans.{files_of, found_in, found_of};
ghost use Rattle.ariadne_show.specs.FoundLabels.{all_found, main_in, AreOrdered};

use crate::shelf::Shelf;
use ariadne_parse::{Diagnostic, Span};
use std::alloc::{AllocError, Global};

/// A span that a file has.
#[derive(Clone, Copy)]
pub struct FoundSpan<'a> {
    /// The number of the file.
    pub number: usize,
    /// The character that the tool points at, from 0.
    pub caret: usize,
    /// The first character of the span.
    pub start: usize,
    /// The one behind its last.
    pub end: usize,
    /// Whether the file has its first character.
    pub is_in_text: bool,
    /// The span.
    pub span: &'a Span,
}

/// Where a span stands, if its file could be read and has it.
#[tactic(auto, unfolding(crate::specs::FoundSpans::found_in))]
pub fn found_span<'a>(shelf: &Shelf, span: &'a Span) -> Option<FoundSpan<'a>>
    ensures found { option_map found_of result ≡ found_in (files_of shelf.now) span.now }
    ensures forward { IfSome result (λ it. it.start ≤ it.end) }
{
    let held = shelf.get(span.file.as_str())?;
    let range = held.range(span)?;
    Some(FoundSpan {
        number: held.number,
        caret: held.caret(span).unwrap_or(range.start),
        start: range.start,
        end: range.end,
        is_in_text: range.start < held.columns.len(),
        span,
    })
}

/// Where the own span of a diagnostic stands, if it has one, and its file could be read and has it.
pub fn found_main<'a>(shelf: &Shelf, parsed: &'a Diagnostic) -> Option<FoundSpan<'a>>
    ensures found { option_map found_of result ≡ main_in (files_of shelf.now) parsed.now }
    ensures forward { IfSome result (λ it. it.start ≤ it.end) }
{
    found_span(shelf, parsed.main_span()?)
}

/// The spans that were found, in the order of their labels: those of the main file first, and in each
/// file by their ends, since a label that ends on an earlier line than the one before it begins a new
/// group.
pub fn ordered_spans<'a>(
    alloc: Global,
    shelf: &Shelf,
    spans: &'a [Span],
    main: usize,
) -> Result<Vec<FoundSpan<'a>>, AllocError>
    ensures { IfOk result (λ ordered.
        AreOrdered (files_of shelf.now) main spans.now (map found_of ordered.items)) }
{
    let mut found = found_spans(alloc, shelf, spans)?;
    found.sort_by_key(|it| (it.number != main, it.number, it.end, it.start))?;
    Ok(found)
}

/// The spans that were found.
fn found_spans<'a>(
    alloc: Global,
    shelf: &Shelf,
    spans: &'a [Span],
) -> Result<Vec<FoundSpan<'a>>, AllocError>
    ensures { IfOk result (λ found.
        map found_of found.items ≡ all_found (files_of shelf.now) spans.now) }
{
    let mut found = Vec::new(alloc);
    for span in spans {
        add_found(&mut found, found_span(shelf, span))?;
    }
    Ok(found)
}

/// Adds a span, if it was found.
fn add_found<'a>(
    found: &mut Vec<FoundSpan<'a>>,
    it: Option<FoundSpan<'a>>,
) -> Result<(), AllocError>
    ensures { OnOk result (found.new.items ≡ found.old.items ++ option_to_list it.entry) }
{
    if let Some(it) = it {
        found.push(it)?;
    }
    Ok(())
}
