//! Where the spans of a diagnostic stand, for texts that name lines and columns.

ghost use Rattle.std.specs.Prelude.{◌≡◌, ◌++◌, map, position, IfOk, OnOk};
ghost use Rattle.ariadne_outputs.specs.Located.{located_span_of, located_spans_of};
ghost use Rattle.ariadne_show.specs.FoundSpans.{files_of};
ghost use Rattle.ariadne_show.specs.LinesAndColumns.{located_in, located_location, main_first, main_number};

use crate::found::found_span;
use crate::held::HeldFile;
use crate::shelf::Shelf;
use ariadne_outputs::Located;
use ariadne_parse::{Diagnostic, Location, Span, Unit};
use std::alloc::{AllocError, Global};

/// Where the spans of a diagnostic stand, in columns of a unit: its own first, and then the others, as
/// it has them. One whose file can't be read, or has no such line, stands where the tool said.
pub fn located_spans<'a>(
    alloc: Global,
    shelf: &Shelf,
    parsed: &'a Diagnostic,
    unit: Unit,
) -> Result<Vec<Located<'a>>, AllocError>
    ensures { IfOk result (λ located. located_spans_of located.items
        ≡ map (located_in (files_of shelf.now) unit) (main_first parsed.now.spans.items)) }
{
    let spans = parsed.spans.as_slice();
    let (before, from_main) = spans.split_at(main_span_number(spans));
    let mut located = Vec::new(alloc);
    let Some((main, behind)) = from_main.split_first() else {
        return Ok(located);
    };
    located.push(located_span(shelf, main, unit))?;
    push_located(&mut located, shelf, before, unit)?;
    push_located(&mut located, shelf, behind, unit)?;
    Ok(located)
}

/// The number of the span that a diagnostic is about: the first primary one, or the first.
fn main_span_number(spans: &[Span]) -> usize
    ensures { result ≡ main_number spans.now }
{
    primary_number(spans).unwrap_or(0)
}

/// The number of the first primary one of spans.
fn primary_number(spans: &[Span]) -> Option<usize>
    ensures { result ≡ position (λ span. span.is_primary) spans.now }
{
    spans.iter().position(|span| span.is_primary)
}

/// Adds where spans stand.
fn push_located<'a>(
    located: &mut Vec<Located<'a>>,
    shelf: &Shelf,
    spans: &'a [Span],
    unit: Unit,
) -> Result<(), AllocError>
    ensures { OnOk result (located_spans_of located.new.items ≡ located_spans_of located.old.items
        ++ map (located_in (files_of shelf.now) unit) spans.now) }
{
    for span in spans {
        located.push(located_span(shelf, span, unit))?;
    }
    Ok(())
}

/// Where a span stands: where the tool said, if its file can't be read or has no such line.
fn located_span<'a>(shelf: &Shelf, span: &'a Span, unit: Unit) -> Located<'a>
    ensures { located_span_of result ≡ located_in (files_of shelf.now) unit span.now }
{
    match (shelf.get(span.file.as_str()), found_span(shelf, span)) {
        (Some(held), Some(found)) => Located {
            span,
            caret: location_of(held, unit, found.caret),
            start: location_of(held, unit, found.start),
            end: Some(location_of(held, unit, found.end)),
        },
        _ => Located {
            span,
            caret: span.caret,
            start: span.start,
            end: None,
        },
    }
}

/// The line and the column of an offset in a file.
fn location_of(held: &HeldFile, unit: Unit, offset: usize) -> Location
    ensures { result ≡ located_location held.now unit offset }
{
    let (line, column) = held.columns.location_at(held.unit(unit), offset);
    Location {
        line,
        column: Some(column),
    }
}
