//! Offsets, and spans that are made of them.

ghost use Rattle.std.specs.Prelude.{◌≤◌, IfOk};

use crate::members::{list, text};
use ariadne::Span;
use std::alloc::{AllocError, Global};
use std::ops::{Range, RangeInclusive};
use toml::Value;

/// The offsets of a piece of a source.
#[derive(Clone, Copy)]
pub struct Offsets {
    pub start: usize,
    /// One past the last offset, or the last one where it is inclusive.
    pub end: usize,
    pub is_inclusive: bool,
}

impl Offsets {
    /// The empty piece at the start of a source.
    pub const START: Offsets = Offsets {
        start: 0,
        end: 0,
        is_inclusive: false,
    };
}

/// The offsets of a text: `0..5`, or `0..=4`.
fn offsets_of(text: &str) -> Option<Offsets> {
    let (start, end) = text.split_once("..")?;
    let last = end.strip_prefix('=');
    Some(Offsets {
        start: start.parse().ok()?,
        end: last.unwrap_or(end).parse().ok()?,
        is_inclusive: last.is_some(),
    })
}

/// The offsets of a case's report or of a label. Those of a report that tells none are `0..0`.
pub fn offsets_at(told: &Value) -> Offsets {
    text(told, "at")
        .and_then(offsets_of)
        .unwrap_or(Offsets::START)
}

/// The id that a case or a label tells: that of the first source where it tells none.
fn id_of<'c>(case: &'c Value, told: &'c Value) -> &'c str {
    let first = list(case, "sources").first().unwrap_or(told);
    text(told, "id").or(text(first, "id")).unwrap_or("")
}

/// The number of the source with an id, of which the last one counts. One that is missing has the
/// number behind them, and a case's only source without an id has the number 0.
fn number_of(case: &Value, id: &str) -> usize {
    let sources = list(case, "sources");
    let mut numbered = sources.iter();
    numbered
        .rposition(|told| text(told, "id") == Some(id))
        .unwrap_or(sources.len())
}

/// A span that is made of what a case tells.
pub trait Placed: Span + Drop {
    /// The span that a case tells of its report or of a label, in the source that it tells where
    /// spans of this type name one. One that would start past its end ends at its start.
    fn placed(alloc: Global, case: &Value, told: &Value) -> Result<Self, AllocError>
        ensures { IfOk result (λ span. Self.start_of span ≤ Self.end_of span) };
}

impl Placed for Range<usize> {
    fn placed(_alloc: Global, _case: &Value, told: &Value) -> Result<Range<usize>, AllocError> {
        let offsets = offsets_at(told);
        Ok(offsets.start..offsets.end.max(offsets.start))
    }
}

impl Placed for RangeInclusive<usize> {
    fn placed(
        _alloc: Global,
        _case: &Value,
        told: &Value,
    ) -> Result<RangeInclusive<usize>, AllocError> {
        let offsets = offsets_at(told);
        Ok(offsets.start..=offsets.end.max(offsets.start))
    }
}

impl Placed for (String, Range<usize>) {
    fn placed(
        alloc: Global,
        case: &Value,
        told: &Value,
    ) -> Result<(String, Range<usize>), AllocError> {
        let offsets = offsets_at(told);
        let id = id_of(case, told).to_string(alloc)?;
        Ok((id, offsets.start..offsets.end.max(offsets.start)))
    }
}

impl Placed for (String, RangeInclusive<usize>) {
    fn placed(
        alloc: Global,
        case: &Value,
        told: &Value,
    ) -> Result<(String, RangeInclusive<usize>), AllocError> {
        let offsets = offsets_at(told);
        let id = id_of(case, told).to_string(alloc)?;
        Ok((id, offsets.start..=offsets.end.max(offsets.start)))
    }
}

/// A place in a source that has a number.
impl Placed for (usize, Range<usize>) {
    fn placed(
        _alloc: Global,
        case: &Value,
        told: &Value,
    ) -> Result<(usize, Range<usize>), AllocError> {
        let offsets = offsets_at(told);
        let number = number_of(case, id_of(case, told));
        Ok((number, offsets.start..offsets.end.max(offsets.start)))
    }
}
