//! Spans in a line of text: `LINE`, `LINE:COLUMN`, `(LINE,COLUMN)`, an end behind it, and clang's ranges.

ghost use Rattle.std.specs.Prelude.{◌≡◌, ◌<◌, option_and_then, option_map};
ghost use Rattle.ariadne_parse.specs.Heads as heads;
ghost use Rattle.ariadne_parse.specs.TextPieces as pieces;

use crate::diagnostic::Location;
use crate::pieces::{behind, in_front_of, number, split_at_last, split_once, whole_number};

/// How many ranges are read.
pub(crate) const RANGES: u8 = 16;

/// A line; a column and an end, if they are there; and what stands behind them.
#[tactic(auto, unfolding(crate::specs::Heads::span_in))]
pub(crate) fn span(text: &str) -> Option<(Location, Option<Location>, &str)>
    ensures { option_map (λ found. (found.0, found.1, found.2.now)) result ≡ heads.span_in text.now }
{
    let (line, rest) = number(text)?;
    let Some((column, rest)) = column(rest) else {
        return Some((Location { line, column: None }, None, rest));
    };
    let column = Some(column);
    match end(line, rest) {
        Some((end, rest)) => Some((Location { line, column }, Some(end), rest)),
        None => Some((Location { line, column }, None, rest)),
    }
}

/// A file and a span in parentheses behind it, `FILE(LINE,COLUMN)` or `FILE(LINE)`.
#[tactic(auto, unfolding(crate::specs::Heads::span_in_parens))]
pub(crate) fn span_in_parens(text: &str) -> Option<(&str, Location)>
    ensures { option_map (λ span. (span.0.now, span.1)) result ≡ heads.span_in_parens text.now }
{
    let (file, inside) = split_at_last(in_front_of(text, ')')?, '(')?;
    Some((file, location_inside(inside)?))
}

/// The location `LINE,COLUMN` or `LINE` that a text is.
#[tactic(auto, unfolding(crate::specs::Heads::location_inside))]
fn location_inside(text: &str) -> Option<Location>
    ensures { result ≡ heads.location_inside text.now }
{
    match line_and_column(text) {
        Some(location) => Some(location),
        None => Some(Location {
            line: whole_number(text)?,
            column: None,
        }),
    }
}

/// The location `LINE,COLUMN` that a text is.
fn line_and_column(text: &str) -> Option<Location>
    ensures { result ≡ option_and_then
        (λ parts. heads.location_by (pieces.whole_number parts.0) (pieces.whole_number parts.1)) (pieces.split_once 44 text.now) }
{
    let (line, column) = split_once(text, ',')?;
    Some(Location {
        line: whole_number(line)?,
        column: Some(whole_number(column)?),
    })
}

/// A colon and a column, and what stands behind them.
#[tactic(auto, unfolding(crate::specs::Heads::column_in))]
fn column(text: &str) -> Option<(usize, &str)>
    ensures { option_map (λ found. (found.0, found.1.now)) result ≡ heads.column_in text.now }
{
    number(behind(text, ':')?)
}

/// Where the last character of a span stands, behind its column: `:LINE:COLUMN`, as mypy writes it, or
/// `-COLUMN`, as GHC does; and what stands behind that.
#[tactic(auto, unfolding(crate::specs::Heads::end_in))]
fn end(line: usize, text: &str) -> Option<(Location, &str)>
    ensures { option_map (λ found. (found.0, found.1.now)) result ≡ heads.end_in line text.now }
{
    match location_behind(text, ':') {
        Some(found) => Some(found),
        None => end_on_line(line, text),
    }
}

/// The end `-COLUMN` on this line, and what stands behind it.
#[tactic(auto, unfolding(crate::specs::Heads::end_on_line))]
fn end_on_line(line: usize, text: &str) -> Option<(Location, &str)>
    ensures { option_map (λ found. (found.0, found.1.now)) result ≡ heads.end_on_line line text.now }
{
    let (column, rest) = number(behind(text, '-')?)?;
    Some((
        Location {
            line,
            column: Some(column),
        },
        rest,
    ))
}

/// A location `L:C`, and what stands behind it.
#[tactic(auto, unfolding(crate::specs::Heads::location_in))]
fn location(text: &str) -> Option<(Location, &str)>
    ensures { option_map (λ found. (found.0, found.1.now)) result ≡ heads.location_in text.now }
{
    let (line, rest) = number(text)?;
    let (column, rest) = column(rest)?;
    Some((
        Location {
            line,
            column: Some(column),
        },
        rest,
    ))
}

/// A location behind this character of ASCII, and what stands behind it.
#[tactic(auto, unfolding(crate::specs::Heads::location_behind))]
fn location_behind(text: &str, mark: char) -> Option<(Location, &str)>
    requires { mark < 128 }
    ensures { option_map (λ found. (found.0, found.1.now)) result ≡ heads.location_behind mark text.now }
{
    location(behind(text, mark)?)
}

/// A range `{L:C-L:C}`, and what stands behind it.
#[tactic(auto, unfolding(crate::specs::Heads::range_in))]
pub(crate) fn range(text: &str) -> Option<(Location, Location, &str)>
    ensures { option_map (λ found. (found.0, found.1, found.2.now)) result ≡ heads.range_in text.now }
{
    let (start, rest) = location_behind(text, '{')?;
    let (end, rest) = location_behind(rest, '-')?;
    Some((start, end, behind(rest, '}')?))
}

/// What stands behind all ranges, and their colon.
#[tactic(auto, unfolding(crate::specs::Heads::behind_ranges))]
pub(crate) fn behind_ranges(text: &str) -> &str
    ensures { result.now ≡ heads.behind_ranges text.now }
{
    if range(text).is_none() {
        return text;
    }
    let rest = past_ranges(text);
    match behind(rest, ':') {
        Some(said) => said,
        None => rest,
    }
}

/// What stands behind all ranges.
fn past_ranges(text: &str) -> &str
    ensures { result.now ≡ heads.past_ranges 16 text.now }
{
    let mut rest = text;
    for turn in 0..RANGES {
        rest = past_range(rest);
    }
    rest
}

/// What stands behind a range, if one stands there.
fn past_range(text: &str) -> &str
    ensures { result.now ≡ heads.past_range text.now }
{
    match range(text) {
        Some((_, _, behind)) => behind,
        None => text,
    }
}

/// Whether a location stands in a range, which ends in front of its second location.
pub(crate) fn is_among(location: Location, start: Location, end: Location) -> bool
    ensures { result ≡ heads.is_among location (start, end) }
{
    !is_before(location, start) && is_before(location, end)
}

/// Whether a location stands in front of another.
fn is_before(a: Location, b: Location) -> bool
    ensures { result ≡ heads.is_before a b }
{
    a.line < b.line || a.line == b.line && a.column.unwrap_or(0) < b.column.unwrap_or(0)
}
