//! What rustc's JSON suggests: spans that say what is to be put where.

ghost use Rattle.std.specs.Prelude.{◌≡◌, ◌++◌, map, option_map, string_bytes, IfOk, None, OnOk};
ghost use Rattle.std.specs.List.{list_any};
ghost use Rattle.serde_json.specs.View.{items_view, view};
ghost use Rattle.ariadne_parse.specs.Fixes.{joint_words, standing};
ghost use Rattle.ariadne_parse.specs.Members.{any_item, span_value_end, span_value_start};
ghost use Rattle.ariadne_parse.specs.Proposed.{changes_by, filed, proposed, rustc_change, rustc_proposed_by};
ghost use Rattle.ariadne_parse.specs.Suggested as suggested;

use crate::diagnostic::{Location, Proposal};
use crate::fixes::{Covered, change_text, line_text};
use crate::heads::is_same;
use crate::json::{has_number, items, number, text, words};
use crate::pieces::{closes_with, in_front_of_text, split_once};
use crate::proposals::{FileChange, one_file, ways_of};
use crate::unit::Unit;
use serde_json::Value;
use std::alloc::{AllocError, Global};
use std::ops::Range;

/// What is to be put in at each of these spans: each suggestion is a row of its own.
///
/// rustc lists the parts of all suggestions of a help one behind the other. A part that begins where the
/// first one does begins another suggestion.
pub(crate) fn suggestion(alloc: Global, span_values: &[Value]) -> Result<String, AllocError>
    ensures { IfOk result (λ text. string_bytes text ≡ suggested.parts_behind None (items_view span_values.now)) }
{
    let mut said = String::new(alloc);
    let mut first = None;
    for span_value in span_values {
        push_part(alloc, &mut said, &mut first, span_value)?;
    }
    Ok(said)
}

/// What suggestions propose that these helps say, if they are all of one file: each is a way.
pub(crate) fn proposal(
    alloc: Global,
    helps: Range<usize>,
    why: &str,
    changes: &[FileChange<'_>],
) -> Result<Option<Proposal>, AllocError>
    ensures { IfOk result (λ it. option_map proposed it
        ≡ rustc_proposed_by (helps.start, helps.end) why.now (map filed changes.now)) }
{
    let Some(file) = one_file(changes) else {
        return Ok(None);
    };
    Ok(Some(Proposal {
        helps,
        why: String::from_str(alloc, why)?,
        file: String::from_str(alloc, file)?,
        unit: Unit::Char,
        is_past_mark: false,
        ways: ways_of(alloc, changes)?,
    }))
}

/// The changes that spans suggest.
#[tactic(auto, using(crate::proofs::Values::changes_by_values))]
pub(crate) fn changes_of<'a>(
    alloc: Global,
    span_values: &'a [Value],
) -> Result<Vec<FileChange<'a>>, AllocError>
    ensures { IfOk result (λ changes.
        map filed changes.items ≡ changes_by rustc_change (items_view span_values.now)) }
{
    let mut changes = Vec::new(alloc);
    for span_value in span_values {
        if let Some(change) = change_of(span_value) {
            changes.push(change)?;
        }
    }
    Ok(changes)
}

/// The change that a span suggests, if it does.
fn change_of(span_value: &Value) -> Option<FileChange<'_>>
    ensures { option_map filed result ≡ rustc_change (view span_value.now) }
{
    let put_in = text(span_value, "suggested_replacement")?;
    Some(FileChange {
        file: words(span_value, "file_name"),
        start: start_of(span_value),
        end: end_of(span_value),
        put_in,
    })
}

/// Has what is said go on with what a span says, if that puts in a text. The first such span began here, if there was
/// one.
fn push_part(
    alloc: Global,
    said: &mut String,
    first: &mut Option<Location>,
    span_value: &Value,
) -> Result<(), AllocError>
    ensures said { OnOk result (string_bytes said.new
        ≡ string_bytes said.old ++ suggested.said_behind first.old (view span_value.now)) }
    ensures first { OnOk result (first.new ≡ suggested.first_behind first.old (view span_value.now)) }
{
    let Some(put_in) = text(span_value, "suggested_replacement") else {
        return Ok(());
    };
    let start = start_of(span_value);
    let part = part_text(alloc, span_value, put_in)?;
    said.push_str(joint(*first, start))?;
    said.push_str(part.as_str())?;
    *first = first.or(Some(start));
    Ok(())
}

/// What stands in front of a part that begins here, where the first part of all is known.
fn joint(first: Option<Location>, start: Location) -> &'static str
    ensures { result.now ≡ joint_words first start }
{
    match first {
        None => "",
        Some(first) if is_same(first, start) => ",\nor ",
        Some(_) => ", ",
    }
}

/// What one part says.
#[tactic(auto, unfolding(crate::specs::Suggested::part_words))]
fn part_text(alloc: Global, span_value: &Value, put_in: &str) -> Result<String, AllocError>
    ensures { IfOk result (λ text. string_bytes text ≡ suggested.part_words (view span_value.now) put_in.now) }
{
    let start = start_of(span_value);
    if is_line_put(span_value, put_in) {
        line_text(alloc, start.line, put_in.trim_end())
    } else {
        change_text(alloc, start, &covered(span_value), kept_text(put_in))
    }
}

/// Where a span begins. One without a line begins at line 0, which no file has.
pub(crate) fn start_of(span_value: &Value) -> Location
    ensures { result ≡ span_value_start (view span_value.now) }
{
    Location {
        line: number(span_value, "line_start").unwrap_or(0),
        column: number(span_value, "column_start"),
    }
}

/// Where a span ends.
pub(crate) fn end_of(span_value: &Value) -> Location
    ensures { result ≡ span_value_end (view span_value.now) }
{
    Location {
        line: number(span_value, "line_end").unwrap_or(0),
        column: number(span_value, "column_end"),
    }
}

/// Whether a span puts in a line: the text ends its line, nothing but blanks stands in front of it, and it takes
/// the span of nothing.
fn is_line_put(span_value: &Value, put_in: &str) -> bool
    ensures { result ≡ suggested.is_line_put (view span_value.now) put_in.now }
{
    closes_with(put_in, "\n")
        && is_same(start_of(span_value), end_of(span_value))
        && is_first(span_value)
}

/// Whether nothing but blanks stands in front of a span in its line.
#[tactic(auto, unfolding(crate::specs::Suggested::is_first))]
fn is_first(span_value: &Value) -> bool
    ensures { result ≡ suggested.is_first (view span_value.now) }
{
    has_number(span_value, "column_start", 1) || is_blank_before(items(span_value, "text"))
}

/// Whether the first of these quoted lines has nothing but blanks in front of its span.
fn is_blank_before(lines: &[Value]) -> bool
    ensures { result ≡ suggested.is_blank_before (items_view lines.now) }
{
    match lines.first() {
        Some(line) => in_front(line).trim_start().is_empty(),
        None => false,
    }
}

/// A text without the line feeds at its end; these stay where it has nothing else.
fn kept_text(put_in: &str) -> &str
    ensures { result.now ≡ suggested.put_text put_in.now }
{
    let rest = before_feeds(put_in);
    if rest.is_empty() { put_in } else { rest }
}

/// What stands in front of the line feeds at the end of a text.
fn before_feeds(text: &str) -> &str
    ensures { result.now ≡ suggested.before_feeds text.now }
{
    text.trim_end_matches('\n')
}

/// What a span covers, as far as rustc quotes it.
#[tactic(auto, unfolding(crate::specs::Suggested::covered))]
fn covered(span_value: &Value) -> Covered<'_>
    ensures { standing result ≡ suggested.covered (view span_value.now) }
{
    let Some((first, others)) = items(span_value, "text").split_first() else {
        return Covered::Unnamed;
    };
    if is_any_highlighted(others) {
        Covered::UpTo(end_of(span_value))
    } else {
        covered_text(highlighted(first))
    }
}

/// What stands where a line is covered so far.
fn covered_text(text: &str) -> Covered<'_>
    ensures { standing result ≡ suggested.standing_text text.now }
{
    if text.is_empty() {
        Covered::Unnamed
    } else {
        Covered::Text(text)
    }
}

/// Whether a span covers some of one of these lines.
fn is_any_highlighted(lines: &[Value]) -> bool
    ensures { result ≡ any_item suggested.is_highlighted (items_view lines.now) }
{
    any_is_highlighted(lines)
}

/// Whether any of these values is a line of which its span covers some.
fn any_is_highlighted(lines: &[Value]) -> bool
    ensures { result ≡ list_any (λ v. suggested.is_highlighted (view v)) lines.now }
{
    lines.iter().any(|line| !highlighted(line).is_empty())
}

/// The part of a quoted line that its span covers.
#[tactic(auto, unfolding(crate::specs::Suggested::highlighted))]
fn highlighted(line: &Value) -> &str
    ensures { result.now ≡ suggested.highlighted (view line.now) }
{
    let end = number(line, "highlight_end").unwrap_or(0).saturating_sub(1);
    front_characters(from_start(line), end.saturating_sub(before(line)))
}

/// The part of a quoted line in front of what its span covers.
fn in_front(line: &Value) -> &str
    ensures { result.now ≡ suggested.before_span_value (view line.now) }
{
    front_characters(quoted_text(line), before(line))
}

/// A quoted line from where its span begins.
fn from_start(line: &Value) -> &str
    ensures { result.now ≡ suggested.from_span_value (view line.now) }
{
    behind_characters(quoted_text(line), before(line))
}

/// How many characters of a quoted line stand in front of its span.
fn before(line: &Value) -> usize
    ensures { result ≡ suggested.chars_before (view line.now) }
{
    number(line, "highlight_start")
        .unwrap_or(1)
        .saturating_sub(1)
}

/// A line that rustc quotes, without what ends it.
pub(crate) fn quoted_text(line: &Value) -> &str
    ensures { result.now ≡ suggested.quoted_line (view line.now) }
{
    let text = words(line, "text");
    match split_once(text, '\n') {
        Some((first, _)) => first,
        None => text,
    }
}

/// The first characters of a text.
fn front_characters(text: &str, count: usize) -> &str
    ensures { result.now ≡ suggested.front_chars count text.now }
{
    match in_front_of_text(text, behind_characters(text, count)) {
        Some(front) => front,
        None => text,
    }
}

/// What stands behind so many characters of a text.
fn behind_characters(text: &str, count: usize) -> &str
    ensures { result.now ≡ suggested.behind_chars count text.now }
{
    let mut rest = text.chars();
    for turn in 0..count {
        if rest.next().is_none() {
            return "";
        }
    }
    rest.as_str()
}
