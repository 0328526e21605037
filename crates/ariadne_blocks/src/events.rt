//! The events that gcc's analyzer tells below a diagnostic, in rows behind bars:
//!
//! ```text
//!   'f': events 1-2                        the head of events in a function
//!     |
//!     |    5 |     p = malloc (10);        a row of a snippet, behind a bar
//!     |      |         ^~~~~~~~~~~
//!     +--> 'g': event 3                    the head of those in a function that it calls
//!            |
//!            |g.h:7:2:                     the file of the next rows, where it is another
//!     <------+                             where that returns
//!     |cc1:
//!     | (6): ...to here                    an event that is at no span
//! ```

ghost use Rattle.std.specs.Prelude.{◌≡◌, option_map};
ghost use Rattle.std.specs.Path.{rsplit_once};
ghost use Rattle.ariadne_parse.specs.TextPieces as pieces;
ghost use Rattle.ariadne_parse.specs.TextPieces.{split_once};
ghost use Rattle.ariadne_blocks.specs.Events as events;

/// What a row of events is.
#[derive(Clone, Copy)]
pub(crate) enum EventRow<'a> {
    /// A head, a bar, or where a function returns: it tells nothing.
    Frame,
    /// The file of the next rows, `FILE:LINE:COLUMN:` behind a bar.
    File(&'a str),
    /// An event that is at no span, `(6): ..` behind a bar.
    Telling(&'a str),
    /// A row of a snippet, which stands behind a bar.
    Quoting(&'a str),
}

/// What a line is behind the head of events, if it is one of their rows.
#[tactic(auto, unfolding(crate::specs::Events::event_in))]
pub(crate) fn event_row(line: &str) -> Option<EventRow<'_>>
    ensures { option_map events.event_parsed result ≡ events.event_in line.now }
{
    let text = line.trim_start();
    if is_events_head(line) || is_return(text) {
        return Some(EventRow::Frame);
    }
    let row = behind_bar(text)?;
    Some(if row.trim().is_empty() || is_of_program(row) {
        EventRow::Frame
    } else {
        row_behind_bar(row)
    })
}

/// What stands behind a bar, if it is more than blanks.
fn row_behind_bar(row: &str) -> EventRow<'_>
    ensures { events.event_parsed result ≡ events.event_of_row row.now }
{
    match (named_file(row), parsed_event(row)) {
        (Some(file), _) => EventRow::File(file),
        (None, Some(event)) => EventRow::Telling(event),
        (None, None) => EventRow::Quoting(row),
    }
}

/// Whether a row names gcc's program in place of a file, `cc1:` or `cc1plus:`.
fn is_of_program(row: &str) -> bool
    ensures { result ≡ events.is_of_program row.now }
{
    begins_with(row, "cc1") && closes_with(row, ":")
}

/// An event that a row tells of no span, `(6): ..` behind a blank.
fn parsed_event(row: &str) -> Option<&str>
    ensures { option_map (λ event. event.now) result ≡ events.parsed_in row.now }
{
    let event = behind_blank(row)?;
    if is_numbered(event) {
        Some(event)
    } else {
        None
    }
}

/// Whether a text begins with a number in brackets.
fn is_numbered(text: &str) -> bool
    ensures { result ≡ events.is_numbered text.now }
{
    match behind_bracket(text) {
        Some(rest) => begins_with_closed_number(rest),
        None => false,
    }
}

/// Whether a text begins with a number and the bracket that closes.
fn begins_with_closed_number(text: &str) -> bool
    ensures { result ≡ events.begins_closed text.now }
{
    match at_closed_bracket(text) {
        Some((number, _)) => are_numbers(number),
        None => false,
    }
}

/// What stands behind the blank that a text begins with.
pub(crate) fn behind_blank(text: &str) -> Option<&str>
    ensures { option_map (λ rest. rest.now) result ≡ pieces.behind 32 text.now }
{
    text.strip_prefix(' ')
}

/// What stands behind the bracket that a text begins with.
fn behind_bracket(text: &str) -> Option<&str>
    ensures { option_map (λ rest. rest.now) result ≡ pieces.behind 40 text.now }
{
    text.strip_prefix('(')
}

/// What stands in front of the first bracket of a text that closes, and behind it.
fn at_closed_bracket(text: &str) -> Option<(&str, &str)>
    ensures { option_map (λ parts. (parts.0.now, parts.1.now)) result ≡ split_once 41 text.now }
{
    text.split_once(')')
}

/// The file of `FILE:LINE:COLUMN:`, if a text is that.
#[tactic(auto, unfolding(crate::specs::Events::file_in))]
fn named_file(text: &str) -> Option<&str>
    ensures { option_map (λ file. file.now) result ≡ events.file_in text.now }
{
    let (front, column) = at_last_colon(in_front_of_colon(text)?)?;
    let (file, line) = at_last_colon(front)?;
    if are_numbers(line) && are_numbers(column) {
        Some(file)
    } else {
        None
    }
}

/// What stands in front of the colon that a text ends with.
fn in_front_of_colon(text: &str) -> Option<&str>
    ensures { option_map (λ front. front.now) result ≡ pieces.in_front_of 58 text.now }
{
    text.strip_suffix(':')
}

/// What stands in front of the last colon of a text, and behind it.
fn at_last_colon(text: &str) -> Option<(&str, &str)>
    ensures { option_map (λ parts. (parts.0.now, parts.1.now)) result ≡ rsplit_once 58 text.now }
{
    text.rsplit_once(':')
}

/// Whether a line is the head of events in a function: `'f': event 3` or `'f': events 1-2`, behind blanks.
#[tactic(auto, unfolding(crate::specs::Events::is_head))]
pub(crate) fn is_events_head(line: &str) -> bool
    ensures { result ≡ events.is_head line.now }
{
    match at_last_blank(line) {
        Some((front, numbers)) => is_of_events(front) && are_numbers(numbers),
        None => false,
    }
}

/// What stands in front of the last blank of a text, and behind it.
fn at_last_blank(text: &str) -> Option<(&str, &str)>
    ensures { option_map (λ parts. (parts.0.now, parts.1.now)) result ≡ rsplit_once 32 text.now }
{
    text.rsplit_once(' ')
}

/// Whether what stands in front of the numbers of events does.
fn is_of_events(front: &str) -> bool
    ensures { result ≡ events.is_of_events front.now }
{
    begins_with(front, "  ") && (closes_with(front, ": event") || closes_with(front, ": events"))
}

/// Whether a text is made of digits and `-`.
fn are_numbers(text: &str) -> bool
    ensures { result ≡ events.are_numbers text.now }
{
    text.as_bytes()
        .iter()
        .all(|byte| byte.is_ascii_digit() || *byte == b'-')
}

/// Whether a text shows that a function returns.
fn is_return(text: &str) -> bool
    ensures { result ≡ events.is_return text.now }
{
    begins_with(text, "<-") && closes_with(text, "-+")
}

/// Whether a text begins with words.
pub(crate) fn begins_with(text: &str, words: &str) -> bool
    ensures { result ≡ events.begins_in words.now text.now }
{
    text.starts_with(words)
}

/// Whether a text ends with words.
pub(crate) fn closes_with(text: &str, words: &str) -> bool
    ensures { result ≡ events.ends_in words.now text.now }
{
    text.ends_with(words)
}

/// What stands behind the bar that a text begins with, if it does.
fn behind_bar(text: &str) -> Option<&str>
    ensures { option_map (λ row. row.now) result ≡ pieces.behind 124 text.now }
{
    text.strip_prefix('|')
}
