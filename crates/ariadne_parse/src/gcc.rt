//! Diagnostics of `gcc -fdiagnostics-format=json`: one line of text with a list of them.

ghost use Rattle.std.specs.Prelude.{◌≡◌, ◌++◌, ◌<◌, ◌∷◌, [], codes, is_some, length, map, option_map, string_bytes, true, Some};
ghost use Rattle.std.specs.Prelude.{vec_len, IfOk, IfSome, OnOk};
ghost use Rattle.std.specs.List.{list_all};
ghost use Rattle.std.specs.Option.{option_to_list};
ghost use Rattle.serde_json.specs.Find.{as_array};
ghost use Rattle.serde_json.specs.View.{items_view, view};
ghost use Rattle.ariadne_parse.specs.Gcc.{event_note, event_spans, event_notes, event_parsed, gcc_all, gcc_bare, gcc_behind};
ghost use Rattle.ariadne_parse.specs.Gcc.{event_span as span_of_event, event_text as text_of_event};
ghost use Rattle.ariadne_parse.specs.Gcc.{gcc_list, gcc_noted, gcc_read, has_column as is_in_column, last_with};
ghost use Rattle.ariadne_parse.specs.Gcc.{is_away as is_away_from, is_caret_of as is_of_caret};
ghost use Rattle.ariadne_parse.specs.Gcc.{is_column as is_same_column, is_elsewhere as is_elsewhere_than};
ghost use Rattle.ariadne_parse.specs.Gcc.{is_label as is_said_there, is_location as is_that_location, is_part as is_part_of};
ghost use Rattle.ariadne_parse.specs.Gcc.{location_value_spans, note_beside, noted_span as span_noted, own_location_value};
ghost use Rattle.ariadne_parse.specs.Gcc.{says_something as something_said, with_note_said, with_noted, with_parts};
ghost use Rattle.ariadne_parse.specs.GccFixes as fixes;
ghost use Rattle.ariadne_parse.specs.ParsedDiagnostics.{is_gcc, is_gcc_list, tells_gcc};
ghost use Rattle.ariadne_parse.specs.Members.{gcc_end, gcc_location, gcc_location_at, gcc_span, is_gcc_more, is_gcc_note};
ghost use Rattle.ariadne_parse.specs.Members.{items_in, list_at};
ghost use Rattle.ariadne_parse.specs.Spans.{seen};
ghost use Rattle.ariadne_parse.specs.Proposed.{gcc_proposed, proposed};
ghost use Rattle.ariadne_parse.specs.Read.{read};

use crate::diagnostic::{Diagnostic, End, Location, Severity, Span};
use crate::fixes::{Covered, change_text, line_text, push_reasoned};
use crate::fixits::proposal;
use crate::heads::{is_same, span};
use crate::json::{copied_text, has_words, items, number, severity as severity_of, text, words};
use crate::pieces::{begins_with, in_front_of};
use crate::unit::Unit;
use serde_json::Value;
use std::alloc::{AllocError, Global};

/// The diagnostics that a value is: a list that is not empty, of objects with a kind, a message and
/// locations.
pub(crate) fn gcc_messages(value: &Value) -> Option<&[Value]>
    ensures list { is_some result ≡ tells_gcc (view value.now) }
    ensures items { IfSome result (λ values. as_array (view value.now) ≡ Some (items_view values.now)) }
    ensures some { IfSome result (λ values. 0 < length values.now) }
{
    let values = value.as_array()?.as_slice();
    if are_messages(values) {
        Some(values)
    } else {
        None
    }
}

/// Whether values are diagnostics of gcc's, and there is one.
#[tactic(auto, using(crate::proofs::Values::gcc_none))]
fn are_messages(values: &[Value]) -> bool
    ensures list { result ≡ is_gcc_list (items_view values.now) }
    ensures some { result ≡ true → 0 < length values.now }
{
    if values.is_empty() {
        return false;
    }
    each_is_message(values)
}

/// Whether each of these values is a diagnostic of gcc's.
fn each_is_message(values: &[Value]) -> bool
    ensures { result ≡ list_all (λ v. is_gcc (view v)) values.now }
{
    values.iter().all(|value| is_message(value))
}

/// Whether a value is a diagnostic of gcc's.
fn is_message(value: &Value) -> bool
    ensures { result ≡ is_gcc (view value.now) }
{
    text(value, "kind").is_some()
        && text(value, "message").is_some()
        && value.get("locations").is_some()
}

/// The diagnostics of these values, and of those that stand in them.
pub(crate) fn parsed_by_gcc(alloc: Global, values: &[Value]) -> Result<Vec<Diagnostic>, AllocError>
    ensures all { IfOk result (λ all. map read all.items ≡ gcc_list [] (items_view values.now)) }
    ensures some { IfOk result (λ all. 0 < length values.now → 0 < vec_len all) }
{
    let mut all = Vec::new(alloc);
    for value in values {
        push_parsed(alloc, &mut all, value)?;
        push_children(alloc, &mut all, value)?;
    }
    Ok(all)
}

/// Adds the children of a diagnostic: gcc groups errors below a warning too. They have none themselves.
fn push_children(alloc: Global, all: &mut Vec<Diagnostic>, value: &Value) -> Result<(), AllocError>
    ensures all { OnOk result (map read all.new.items
        ≡ gcc_all (map read all.old.items) (items_in (list_at (codes "children") (view value.now)))) }
    ensures some { OnOk result (0 < vec_len all.old → 0 < vec_len all.new) }
{
    let children = items(value, "children");
    for child in children {
        push_parsed(alloc, all, child)?;
    }
    Ok(())
}

/// Adds a note to the diagnostic before it, and so one that goes on with that; what is neither, or has none
/// before it, is a diagnostic more.
fn push_parsed(alloc: Global, all: &mut Vec<Diagnostic>, value: &Value) -> Result<(), AllocError>
    ensures all { OnOk result (map read all.new.items ≡ gcc_behind (map read all.old.items) (view value.now)) }
    ensures some { OnOk result (0 < vec_len all.new) }
{
    match all.pop() {
        Some(last) => push_behind(alloc, all, last, value),
        None => push_next(alloc, all, value),
    }
}

/// Adds the diagnostic of a value.
fn push_next(alloc: Global, all: &mut Vec<Diagnostic>, value: &Value) -> Result<(), AllocError>
    ensures { OnOk result (map read all.new.items
        ≡ map read all.old.items ++ gcc_read (view value.now) ∷ []) }
{
    all.push(parsed_by_item(alloc, value)?)?;
    Ok(())
}

/// Adds the last diagnostic, with a value behind it: as a part of it, or as a diagnostic more.
fn push_behind(
    alloc: Global,
    all: &mut Vec<Diagnostic>,
    mut last: Diagnostic,
    value: &Value,
) -> Result<(), AllocError>
    ensures all { OnOk result (map read all.new.items
        ≡ map read all.old.items ++ last_with (read last) (view value.now)) }
    ensures some { OnOk result (0 < vec_len all.new) }
{
    if is_part(value, last.severity) {
        let noted = push_note(alloc, &mut last, value);
        all.push(last)?;
        return noted;
    }
    all.push(last)?;
    push_next(alloc, all, value)
}

/// Whether a value is a part of the diagnostic before it, which has this severity.
fn is_part(value: &Value, severity: Severity) -> bool
    ensures { result ≡ is_part_of severity (view value.now) }
{
    is_note(value) || goes_on(value, severity)
}

/// Whether a value is a note.
fn is_note(value: &Value) -> bool
    ensures { result ≡ is_gcc_note (view value.now) }
{
    has_words(value, "kind", "note")
}

/// Whether a value goes on with the diagnostic before it, which has this severity: it has the same, and its
/// message begins with two blanks, as that of g++ where members are initialized in another order.
fn goes_on(value: &Value, severity: Severity) -> bool
    ensures { result ≡ is_gcc_more severity (view value.now) }
{
    severity_of(value, "kind") == severity && begins_with(words(value, "message"), "  ")
}

/// The diagnostic of one value.
fn parsed_by_item(alloc: Global, value: &Value) -> Result<Diagnostic, AllocError>
    ensures { IfOk result (λ parsed. read parsed ≡ gcc_read (view value.now)) }
{
    let mut parsed = bare(alloc, value)?;
    push_parts(alloc, &mut parsed, value).and(Ok(parsed))
}

/// Adds its locations and events, and what its fix-its change.
fn push_parts(alloc: Global, parsed: &mut Diagnostic, value: &Value) -> Result<(), AllocError>
    ensures { OnOk result (read parsed.new ≡ with_parts (read parsed.old) (view value.now)) }
{
    push_location_values(alloc, &mut parsed.spans, items(value, "locations"))?;
    push_events(alloc, parsed, items(value, "path"))?;
    push_fixits(alloc, parsed, items(value, "fixits"))
}

/// Its kind, option and message alone.
fn bare(alloc: Global, value: &Value) -> Result<Diagnostic, AllocError>
    ensures { IfOk result (λ parsed. read parsed ≡ gcc_bare (view value.now)) }
{
    let severity = severity_of(value, "kind");
    let code = copied_text(alloc, value, "option")?;
    let message = String::from_str(alloc, words(value, "message"))?;
    Ok(Diagnostic::begun(alloc, severity, None, code, message))
}

/// Says in helps what fix-its change, and adds what they propose.
fn push_fixits(alloc: Global, parsed: &mut Diagnostic, fixits: &[Value]) -> Result<(), AllocError>
    ensures helps { OnOk result (map string_bytes parsed.new.helps.items
        ≡ fixes.changes_of (items_view fixits.now)) }
    ensures proposals { OnOk result (map proposed parsed.new.proposals.items
        ≡ map proposed parsed.old.proposals.items ++ option_to_list (gcc_proposed
        (0, length (fixes.changes_of (items_view fixits.now))) [] (items_view fixits.now))) }
    ensures others { OnOk result (parsed.new
        ≡ record parsed.old { helps = parsed.new.helps; proposals = parsed.new.proposals }) }
{
    parsed.helps = changes_in(alloc, fixits)?;
    push_proposal(alloc, parsed, 0, "", fixits)
}

/// Adds what fix-its propose, which the helps from the one with this number on say.
fn push_proposal(
    alloc: Global,
    parsed: &mut Diagnostic,
    first: usize,
    why: &str,
    fixits: &[Value],
) -> Result<(), AllocError>
    ensures proposals { OnOk result (map proposed parsed.new.proposals.items
        ≡ map proposed parsed.old.proposals.items
        ++ option_to_list (gcc_proposed (first, vec_len parsed.old.helps) why.now (items_view fixits.now))) }
    ensures others { OnOk result (parsed.new ≡ record parsed.old { proposals = parsed.new.proposals }) }
{
    if let Some(it) = proposal(alloc, first..parsed.helps.len(), why, fixits)? {
        parsed.proposals.push(it)?;
    }
    Ok(())
}

/// Adds the spans of a diagnostic's locations: it is about the first.
fn push_location_values(
    alloc: Global,
    spans: &mut Vec<Span>,
    location_values: &[Value],
) -> Result<(), AllocError>
    ensures { OnOk result (map seen spans.new.items
        ≡ map seen spans.old.items ++ location_value_spans true (items_view location_values.now)) }
{
    let mut is_first = true;
    for location_value in location_values {
        if let Some(span) = own_span(alloc, location_value, is_first)? {
            spans.push(span)?;
        }
        is_first = false;
    }
    Ok(())
}

/// The span of one of a diagnostic's locations, if it is the first or says something.
fn own_span(
    alloc: Global,
    location_value: &Value,
    is_first: bool,
) -> Result<Option<Span>, AllocError>
    ensures { IfOk result (λ span. option_map seen span ≡ own_location_value is_first (view location_value.now)) }
{
    if is_first || says_something(location_value) {
        location_value_span(
            alloc,
            location_value,
            words(location_value, "label"),
            is_first,
        )
    } else {
        Ok(None)
    }
}

/// Whether a location says something: it has a label, or a column. gcc gives the end of a file none.
fn says_something(location_value: &Value) -> bool
    ensures { result ≡ something_said (view location_value.now) }
{
    text(location_value, "label").is_some() || has_column(location_of(location_value, "caret"))
}

/// Whether a location is there, and has a column.
fn has_column(location: Option<Location>) -> bool
    ensures { result ≡ is_in_column location }
{
    match location {
        Some(location) => location.column.is_some(),
        None => false,
    }
}

/// Adds the spans of the events that lead to a diagnostic of the analyzer, in their order. Of one without a span
/// a note says the same.
fn push_events(alloc: Global, parsed: &mut Diagnostic, events: &[Value]) -> Result<(), AllocError>
    ensures spans { OnOk result (map seen parsed.new.spans.items
        ≡ map seen parsed.old.spans.items ++ event_spans 1 (items_view events.now)) }
    ensures notes { OnOk result (map string_bytes parsed.new.notes.items
        ≡ map string_bytes parsed.old.notes.items ++ event_notes 1 (items_view events.now)) }
    ensures others { OnOk result (parsed.new
        ≡ record parsed.old { spans = parsed.new.spans; notes = parsed.new.notes }) }
{
    let mut number = 1;
    for event in events {
        push_event(alloc, parsed, event, number)?;
        number += 1;
    }
    Ok(())
}

/// Adds an event, which has this number.
fn push_event(
    alloc: Global,
    parsed: &mut Diagnostic,
    event: &Value,
    number: usize,
) -> Result<(), AllocError>
    ensures spans { OnOk result (map seen parsed.new.spans.items
        ≡ map seen parsed.old.spans.items ++ option_to_list (event_parsed number (view event.now))) }
    ensures notes { OnOk result (map string_bytes parsed.new.notes.items
        ≡ map string_bytes parsed.old.notes.items ++ option_to_list (event_note number (view event.now))) }
    ensures others { OnOk result (parsed.new
        ≡ record parsed.old { spans = parsed.new.spans; notes = parsed.new.notes }) }
{
    let said = event_text(alloc, number, event)?;
    match event_span(alloc, event)? {
        Some(mut span) => {
            span.text = said;
            parsed.spans.push(span)?;
        }
        None => parsed.notes.push(said)?,
    }
    Ok(())
}

/// What an event with this number, from 1, says: the number too, as in gcc's text.
fn event_text(alloc: Global, number: usize, event: &Value) -> Result<String, AllocError>
    ensures { IfOk result (λ text. string_bytes text ≡ text_of_event number (view event.now)) }
{
    let description = words(event, "description");
    format!(in alloc; "({number}) {description}")
}

/// Where an event is, if it says so.
fn event_span(alloc: Global, event: &Value) -> Result<Option<Span>, AllocError>
    ensures { IfOk result (λ span. option_map seen span ≡ span_of_event (view event.now)) }
{
    let Some(location_value) = event.get("location") else {
        return Ok(None);
    };
    let (Some(at), Some(file)) = (location(location_value), text(location_value, "file")) else {
        return Ok(None);
    };
    let mut span = span(alloc, file, at, End::OfWord, Unit::Byte)?;
    span.is_past_mark = true;
    Ok(Some(span))
}

/// Adds a note: as the label of its first span, if that is elsewhere and has none of its own. What it says is to
/// be changed is a help, which says why, as the note does.
fn push_note(alloc: Global, parsed: &mut Diagnostic, value: &Value) -> Result<(), AllocError>
    ensures { OnOk result (read parsed.new ≡ gcc_noted (read parsed.old) (view value.now)) }
{
    let message = words(value, "message").trim_start();
    push_noted(alloc, parsed, items(value, "locations"), message)?;
    let fixits = items(value, "fixits");
    let first = parsed.helps.len();
    let changes = changes_in(alloc, fixits)?;
    push_reasoned(alloc, &mut parsed.helps, message, changes)?;
    push_proposal(alloc, parsed, first, message, fixits)
}

/// Adds what a note says, and its spans.
fn push_noted(
    alloc: Global,
    parsed: &mut Diagnostic,
    location_values: &[Value],
    message: &str,
) -> Result<(), AllocError>
    ensures spans { OnOk result (map seen parsed.new.spans.items ≡ with_note_said
        (map seen parsed.old.spans.items) message.now (items_view location_values.now)) }
    ensures notes { OnOk result (map string_bytes parsed.new.notes.items ≡ map string_bytes parsed.old.notes.items
        ++ note_beside (map seen parsed.old.spans.items) message.now (items_view location_values.now)) }
    ensures others { OnOk result (parsed.new
        ≡ record parsed.old { spans = parsed.new.spans; notes = parsed.new.notes }) }
{
    if is_label(parsed.spans.as_slice(), location_values) {
        return push_noted_spans(alloc, &mut parsed.spans, location_values, message);
    }
    parsed.notes.push(String::from_str(alloc, message)?)?;
    push_noted_spans(alloc, &mut parsed.spans, location_values, "")
}

/// Whether the first of a note's locations says the note: it is elsewhere than where the diagnostic points, and
/// has no label of its own.
fn is_label(spans: &[Span], location_values: &[Value]) -> bool
    ensures { result ≡ is_said_there (map seen spans.now) (items_view location_values.now) }
{
    match location_values.first() {
        Some(first) => is_elsewhere(spans, first) && text(first, "label").is_none(),
        None => false,
    }
}

/// Adds those spans of a note that say something, or are elsewhere than where the diagnostic points, which the
/// first of its spans is. The first says this, if it has no label.
fn push_noted_spans(
    alloc: Global,
    spans: &mut Vec<Span>,
    location_values: &[Value],
    first_text: &str,
) -> Result<(), AllocError>
    ensures { OnOk result (map seen spans.new.items
        ≡ with_noted (map seen spans.old.items) first_text.now (items_view location_values.now)) }
{
    let mut own_text = first_text;
    for location_value in location_values {
        if let Some(span) = noted_span(alloc, spans.as_slice(), location_value, own_text)? {
            spans.push(span)?;
        }
        own_text = "";
    }
    Ok(())
}

/// The span of a note's location, if it says something, or is elsewhere than where the diagnostic with these
/// spans points. It says this, if it has no label.
fn noted_span(
    alloc: Global,
    spans: &[Span],
    location_value: &Value,
    own_text: &str,
) -> Result<Option<Span>, AllocError>
    ensures { IfOk result (λ span. option_map seen span
        ≡ span_noted (map seen spans.now) own_text.now (view location_value.now)) }
{
    let said = text(location_value, "label").unwrap_or(own_text);
    if said.is_empty() && !is_elsewhere(spans, location_value) {
        return Ok(None);
    }
    location_value_span(alloc, location_value, said, false)
}

/// Whether a location is elsewhere than where the diagnostic with these spans points.
fn is_elsewhere(spans: &[Span], location_value: &Value) -> bool
    ensures { result ≡ is_elsewhere_than (map seen spans.now) (view location_value.now) }
{
    match location_value.get("caret") {
        Some(caret) => is_away(spans, caret),
        None => false,
    }
}

/// Whether a caret is elsewhere.
fn is_away(spans: &[Span], caret: &Value) -> bool
    ensures { result ≡ is_away_from (map seen spans.now) (view caret.now) }
{
    match spans.first() {
        Some(first) => !is_caret_of(first, caret),
        None => true,
    }
}

/// Whether a caret is where a span has its own.
fn is_caret_of(span: &Span, caret: &Value) -> bool
    ensures { result ≡ is_of_caret (seen span.now) (view caret.now) }
{
    is_location(span.caret, location(caret)) && has_words(caret, "file", span.file.as_str())
}

/// Whether a location is this one.
fn is_location(at: Location, found: Option<Location>) -> bool
    ensures { result ≡ is_that_location at found }
{
    match found {
        Some(location) => location.line == at.line && is_column(location.column, at.column),
        None => false,
    }
}

/// Whether two columns are the same.
fn is_column(one: Option<usize>, other: Option<usize>) -> bool
    ensures { result ≡ is_same_column one other }
{
    match (one, other) {
        (Some(one), Some(other)) => one == other,
        (None, None) => true,
        _ => false,
    }
}

/// A location, whose column counts bytes.
fn location(value: &Value) -> Option<Location>
    ensures { result ≡ gcc_location (view value.now) }
{
    let column = match number(value, "byte-column") {
        Some(column) => Some(column),
        None => number(value, "column"),
    };
    Some(Location {
        line: number(value, "line")?,
        column,
    })
}

/// A location that is a member of a location.
pub(crate) fn location_of(location_value: &Value, name: &str) -> Option<Location>
    ensures { result ≡ gcc_location_at name.now (view location_value.now) }
{
    location(location_value.get(name)?)
}

/// Where a location ends: behind the character at its finish. gcc leaves that out where it is the caret;
/// where it leaves the start out too, the location is one character, and the word there is meant.
fn end_of(location_value: &Value, caret: Location) -> End
    ensures { result ≡ gcc_end caret (view location_value.now) }
{
    match (
        location_of(location_value, "finish"),
        location_value.get("start"),
    ) {
        (Some(finish), _) => End::Behind(finish),
        (None, Some(_)) => End::Behind(caret),
        (None, None) => End::OfWord,
    }
}

/// The span of a location, and what is said of it. One without a caret or its line has none.
fn location_value_span(
    alloc: Global,
    location_value: &Value,
    said: &str,
    is_primary: bool,
) -> Result<Option<Span>, AllocError>
    ensures { IfOk result (λ span. option_map seen span ≡ gcc_span said.now is_primary (view location_value.now)) }
{
    let Some(caret) = location_value.get("caret") else {
        return Ok(None);
    };
    let Some(point) = location(caret) else {
        return Ok(None);
    };
    let start = location_of(location_value, "start").unwrap_or(point);
    let end = end_of(location_value, point);
    let mut span = span(alloc, words(caret, "file"), start, end, Unit::Byte)?;
    span.caret = point;
    span.is_past_mark = true;
    span.text = String::from_str(alloc, said)?;
    span.is_primary = is_primary;
    Ok(Some(span))
}

/// What these fixes change, of those that say where, and what to put there.
#[tactic(auto, using(crate::proofs::Values::changes_past))]
fn changes_in(alloc: Global, all: &[Value]) -> Result<Vec<String>, AllocError>
    ensures { IfOk result (λ changes.
        map string_bytes changes.items ≡ fixes.changes_of (items_view all.now)) }
{
    let mut changes = Vec::new(alloc);
    for fix in all {
        if let Some(change) = change_of(alloc, fix)? {
            changes.push(change)?;
        }
    }
    Ok(changes)
}

/// What a fix changes, if it says where, and what to put there.
fn change_of(alloc: Global, fix: &Value) -> Result<Option<String>, AllocError>
    ensures { IfOk result (λ change. option_map string_bytes change ≡ fixes.change_of (view fix.now)) }
{
    let Some(at) = location_of(fix, "start") else {
        return Ok(None);
    };
    let Some(put_in) = text(fix, "string") else {
        return Ok(None);
    };
    Ok(Some(put_text(alloc, fix, at, put_in)?))
}

/// What a help says that puts a text in: a line, where the text is one.
fn put_text(alloc: Global, fix: &Value, at: Location, put_in: &str) -> Result<String, AllocError>
    ensures { IfOk result (λ text.
        string_bytes text ≡ fixes.put_words (view fix.now) at put_in.now) }
{
    match line_put_in(fix, at, put_in) {
        Some(line) => line_text(alloc, at.line, line),
        None => change_text(alloc, at, &Covered::Unnamed, put_in),
    }
}

/// The line that a fix puts in, if its text ends its line, and it takes the place of nothing.
fn line_put_in<'t>(fix: &Value, at: Location, put_in: &'t str) -> Option<&'t str>
    ensures { option_map (λ line. line.now) result ≡ fixes.line_in (view fix.now) at put_in.now }
{
    if is_in_front(fix, at) {
        in_front_of(put_in, '\n')
    } else {
        None
    }
}

/// Whether a fix takes the place of nothing, in front of a line.
fn is_in_front(fix: &Value, at: Location) -> bool
    ensures { result ≡ fixes.is_in_front (view fix.now) at }
{
    match location_of(fix, "next") {
        Some(next) => is_same(at, next) && at.column.unwrap_or(0) == 1,
        None => false,
    }
}
