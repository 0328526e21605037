//! Spans that repeat what was told: a tool may say the same of the same span below each of its notes, as
//! gcc does of a macro. It is shown once.

ghost use Rattle.std.specs.Prelude.{◌≡◌, map, drop, length, ◌-◌, OnOk};
ghost use Rattle.std.specs.List.{list_any};
ghost use Rattle.ariadne_parse.specs.Spans.{seen};
ghost use Rattle.ariadne_blocks.specs.Repeats.{is_repeat as is_repeat_of, is_same_end as ends_are_same};
ghost use Rattle.ariadne_blocks.specs.Repeats.{is_same_range as ranges_are_same, once, says_same, with_span};

use ariadne_parse::{End, Location, Span};
use std::alloc::{AllocError, Global};
use std::mem;

/// How many spans in front of one are looked at.
const REACH: usize = 256;

/// Drops each span that repeats one of the last 256 in front of it, but what the diagnostic is about.
///
/// On `Err` there was no memory, and no span is left.
pub fn drop_repeats(alloc: Global, spans: &mut Vec<Span>) -> Result<(), AllocError>
    ensures { OnOk result (map seen spans.new.items ≡ once (map seen spans.old.items)) }
{
    let all = mem::replace(spans, Vec::new(alloc));
    for span in all {
        push_once(spans, span)?;
    }
    Ok(())
}

/// Adds a span, unless it repeats one of the last in front of it.
fn push_once(spans: &mut Vec<Span>, span: Span) -> Result<(), AllocError>
    ensures { OnOk result (map seen spans.new.items
        ≡ with_span (map seen spans.old.items) (seen span)) }
{
    if is_repeat(last_spans(spans.as_slice()), &span) {
        return Ok(());
    }
    spans.push(span)?;
    Ok(())
}

/// The last of spans, 256 at most.
fn last_spans(spans: &[Span]) -> &[Span]
    ensures { result.now ≡ drop (length spans.now - 256) spans.now }
{
    &spans[spans.len().saturating_sub(REACH)..]
}

/// Whether a span repeats one of these.
fn is_repeat(front: &[Span], span: &Span) -> bool
    ensures { result ≡ is_repeat_of (map seen front.now) (seen span.now) }
{
    !span.is_primary && is_said(front, span)
}

/// Whether what a span says is said at one of these.
fn is_said(front: &[Span], span: &Span) -> bool
    ensures { result ≡ list_any (λ other. says_same (seen other) (seen span.now)) front.now }
{
    front.iter().any(|other| is_same(other, span))
}

/// Whether of two spans of a file, which are the same, the same is said.
fn is_same(span: &Span, other: &Span) -> bool
    ensures { result ≡ says_same (seen span.now) (seen other.now) }
{
    span.start == other.start
        && is_same_end(span.end, other.end)
        && span.unit == other.unit
        && is_same_range(span.marks, other.marks)
        && span.text == other.text
        && span.file == other.file
}

/// Whether two spans end in the same way.
pub(crate) fn is_same_end(end: End, other: End) -> bool
    ensures { result ≡ ends_are_same end other }
{
    match (end, other) {
        (End::Before(location), End::Before(other)) => location == other,
        (End::Behind(location), End::Behind(other)) => location == other,
        (End::OfWord, End::OfWord) => true,
        _ => false,
    }
}

/// Whether marks cover the same, or none cover anything.
fn is_same_range(range: Option<(Location, Location)>, other: Option<(Location, Location)>) -> bool
    ensures { result ≡ ranges_are_same range other }
{
    match (range, other) {
        (Some((start, end)), Some((other_start, other_end))) => {
            start == other_start && end == other_end
        }
        (None, None) => true,
        _ => false,
    }
}
