//! What marks cover at a span that a tool points at. It draws them once, and not again where it points
//! there anew.

ghost use Rattle.std.specs.Prelude.{◌≡◌, [], ◌++◌, map, OnOk};
ghost use Rattle.std.specs.List.{find, flat_map};
ghost use Rattle.std.specs.Option.{option_copied};
ghost use Rattle.ariadne_parse.specs.Spans.{seen};
ghost use Rattle.ariadne_blocks.specs.MarkedLocations.{all_settled, are_at, marks_at as marks_of_span};
ghost use Rattle.ariadne_blocks.specs.MarkedLocations.{marks_of, settled};
ghost use Rattle.ariadne_blocks.specs.MarkedLocations.{parsed_location as parsed_location_of};

use ariadne_parse::{End, Location, Span};
use std::alloc::{AllocError, Global};

/// Marks that were drawn.
#[derive(Drop)]
pub struct Drawn {
    /// The file.
    pub(crate) file: String,
    /// Where the tool points, by its head.
    pub(crate) parsed: Location,
    /// And by its marks.
    pub(crate) caret: Location,
    /// From where to where the marks cover it.
    pub(crate) marks: (Location, Location),
}

impl Drawn {
    /// Whether it is what marks cover at a span.
    fn is_at(&self, span: &Span) -> bool
        ensures { result ≡ are_at (seen span.now) (marks_of self.now) }
    {
        self.parsed == parsed_location(span) && self.file == span.file
    }
}

/// Gives each span without marks those that were drawn at the same location: of the spans in front of it, or
/// else before. Then those of these spans are held in place of those that were.
///
/// A span that names no column gets none. On `Err` there was no memory.
pub fn settle_marks(
    alloc: Global,
    drawn: &mut Vec<Drawn>,
    spans: &mut [Span],
) -> Result<(), AllocError>
    ensures spans { OnOk result (map seen spans.new
        ≡ all_settled [] (map marks_of drawn.old.items) (map seen spans.old)) }
    ensures drawn { OnOk result (map marks_of drawn.new.items
        ≡ flat_map marks_of_span (map seen spans.new)) }
{
    let mut own = Vec::new(alloc);
    for span in spans.iter_mut() {
        settle_span(own.as_slice(), drawn.as_slice(), span);
        push_marks(&mut own, span)?;
    }
    *drawn = own;
    Ok(())
}

/// Gives a span without marks those that were drawn at the same location, if it names a column.
fn settle_span(own: &[Drawn], drawn: &[Drawn], span: &mut Span)
    ensures { seen span.new
        ≡ settled (map marks_of own.now ++ map marks_of drawn.now) (seen span.old) }
{
    if span.marks.is_some() || span.caret.column.is_none() {
        return;
    }
    if let Some(found) = marks_at(own, span).or(marks_at(drawn, span)) {
        span.marks = Some(found.marks);
        span.caret = found.caret;
    }
}

/// Adds what marks cover at a span, if they do.
fn push_marks(drawn: &mut Vec<Drawn>, span: &Span) -> Result<(), AllocError>
    ensures { OnOk result (map marks_of drawn.new.items
        ≡ map marks_of drawn.old.items ++ marks_of_span (seen span.now)) }
{
    if let Some(marks) = span.marks {
        drawn.push(Drawn {
            file: span.file.clone()?,
            parsed: parsed_location(span),
            caret: span.caret,
            marks,
        })?;
    }
    Ok(())
}

/// What marks cover at a span, if one of these is there.
fn marks_at<'a>(drawn: &'a [Drawn], span: &Span) -> Option<&'a Drawn>
    ensures { option_copied result
        ≡ find (λ marks. are_at (seen span.now) (marks_of marks)) drawn.now }
{
    drawn.iter().find(|marks| marks.is_at(span))
}

/// The location at which the head of a span points: its start, where it names no other.
fn parsed_location(span: &Span) -> Location
    ensures { result ≡ parsed_location_of (seen span.now) }
{
    match span.end {
        End::OfWord => span.start,
        End::Before(_) | End::Behind(_) => span.caret,
    }
}
