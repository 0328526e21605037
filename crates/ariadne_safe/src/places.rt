//! Labels and places of given texts, over the texts that are shown.

ghost use Rattle.std.specs.Prelude.{◌≡◌, ◌≤◌, true, None, IfOk};
ghost use Rattle.ariadne_safe.specs.Pictures.{is_shown_if_any};
ghost use Rattle.ariadne_safe.specs.Sources.{sources_of};
ghost use Rattle.ariadne_safe.specs.SafeReports.{offset_at as offset_of, shown_place as place_of};
ghost use Rattle.ariadne_safe.specs.SafeReports.{shown_label as label_of};

use crate::sources::SafeSources;
use crate::text::{TextKind, visible};
use ariadne::{Color, IndexType, Label};
use std::alloc::{AllocError, Global};
use std::ops::Range;

/// Where an offset into the source with a number stands in its shown text. Where there is no such
/// source it stays.
fn offset_at(sources: &SafeSources, index_type: IndexType, number: usize, offset: usize) -> usize
    ensures { result ≡ offset_of index_type (sources_of sources.now) number offset }
{
    match sources.get(number) {
        Some(source) => source.shown_offset(index_type, offset),
        None => offset,
    }
}

/// The place of a shown text that stands for one of the given text.
pub fn shown_place(
    sources: &SafeSources,
    index_type: IndexType,
    place: &(usize, Range<usize>),
) -> (usize, Range<usize>)
    ensures place { result ≡ place_of index_type (sources_of sources.now) place.now }
    ensures forward { result.1.start ≤ result.1.end }
{
    let start = offset_at(sources, index_type, place.0, place.1.start);
    let end = offset_at(sources, index_type, place.0, place.1.end).max(start);
    (place.0, start..end)
}

/// A label that has no colour, in this one, if there is one.
fn colored(
    label: Label<(usize, Range<usize>)>,
    color: Option<Color>,
) -> Label<(usize, Range<usize>)>
    requires { label.color ≡ None }
    ensures { result ≡ record label { color = color } }
{
    match color {
        Some(color) => label.with_color(color),
        None => label,
    }
}

/// The label over shown texts that stands for one over given texts.
pub fn shown_label(
    alloc: Global,
    sources: &SafeSources,
    index_type: IndexType,
    label: &Label<(usize, Range<usize>)>,
) -> Result<Label<(usize, Range<usize>)>, AllocError>
    ensures label { IfOk result (λ shown. shown
        ≡ label_of index_type (sources_of sources.now) label.now) }
    ensures seen { IfOk result (λ shown. is_shown_if_any shown.message ≡ true) }
{
    let place = shown_place(sources, index_type, label.span());
    let shown = Label::new(place)
        .with_order(label.order())
        .with_priority(label.priority());
    let shown = colored(shown, label.color());
    match label.message() {
        Some(message) => {
            let message = visible(alloc, message, TextKind::OneRow)?;
            shown.with_message(alloc, message.as_str())
        }
        None => Ok(shown),
    }
}
