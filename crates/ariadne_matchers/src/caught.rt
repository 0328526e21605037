//! What a row catches of a line.

ghost use Rattle.std.specs.Prelude.{◌≡◌, ℕ, ◌==◌, option_and_then, option_map};
ghost use Rattle.std.specs.List.{slice_get, slice_split};
ghost use Rattle.regex.specs.Patterns.{find_str};
ghost use Rattle.regex.specs.Strings.{captures_haystack, captures_span, matcher_pattern};
ghost use Rattle.ariadne_matchers.specs.Catches.{catch_by, catch_of, caught_at, cut_of, cut_told, part_of};

use crate::entry::Groups;
use regex::{Captures, Matcher};

/// A text in a line.
#[derive(Clone, Copy)]
pub struct Piece<'l> {
    /// What stands in front of it there.
    pub front: &'l str,
    /// The text.
    pub text: &'l str,
}

/// What a row caught of a line, by the names of its groups.
#[derive(Clone, Copy)]
pub struct Caught<'l> {
    /// The line.
    pub row: &'l str,
    /// The name of the file.
    pub file: Option<Piece<'l>>,
    /// The line of the file.
    pub line: Option<Piece<'l>>,
    /// The column.
    pub column: Option<Piece<'l>>,
    /// The line of the end.
    pub end_line: Option<Piece<'l>>,
    /// The column of the end.
    pub end_column: Option<Piece<'l>>,
    /// The word for the severity.
    pub severity: Option<Piece<'l>>,
    /// The code.
    pub code: Option<Piece<'l>>,
    /// A row of the message.
    pub message: Option<Piece<'l>>,
    /// What the line has of the file's line.
    pub quoted: Option<Piece<'l>>,
    /// The marks below what was quoted.
    pub marks: Option<Piece<'l>>,
}

/// What a pattern catches of a line, if the line fits it.
pub(crate) fn catch<'l>(
    matcher: &mut Matcher<'_>,
    groups: &Groups,
    line: &'l str,
) -> Option<Caught<'l>>
    ensures caught { option_map caught_at result
        ≡ catch_by (matcher_pattern matcher.old) groups.now line.now }
    ensures same { matcher_pattern matcher.new ≡ matcher_pattern matcher.old }
{
    if !matcher.is_match(line) {
        return None; // (Most lines don't fit, and this is told sooner than where groups stand.)
    }
    let captures = matcher.captures(line)?;
    Some(caught_by(&captures, groups, line))
}

/// What the groups of a match in a line caught.
fn caught_by<'l>(captures: &Captures<'_, 'l>, groups: &Groups, line: &'l str) -> Caught<'l>
    requires { captures_haystack captures.now ≡ line.now }
    ensures { caught_at result ≡ catch_of (captures_span captures.now) groups.now line.now }
{
    let place = piece_of(captures, groups.location, line);
    Caught {
        row: line,
        file: piece_of(captures, groups.file, line),
        line: piece_of(captures, groups.line, line).or(part(place, 0)),
        column: piece_of(captures, groups.column, line).or(part(place, 1)),
        end_line: piece_of(captures, groups.end_line, line).or(part(place, 2)),
        end_column: piece_of(captures, groups.end_column, line).or(part(place, 3)),
        severity: piece_of(captures, groups.severity, line),
        code: piece_of(captures, groups.code, line),
        message: piece_of(captures, groups.message, line),
        quoted: piece_of(captures, groups.quoted, line),
        marks: piece_of(captures, groups.marks, line),
    }
}

/// What a group caught of a line, if the pattern has it, and it took part.
fn piece_of<'l>(
    captures: &Captures<'_, 'l>,
    group: Option<usize>,
    line: &'l str,
) -> Option<Piece<'l>>
    requires { captures_haystack captures.now ≡ line.now }
    ensures { option_map cut_told result ≡ cut_of (captures_span captures.now) line.now group }
{
    let found = captures.get(group?)?;
    Some(Piece {
        front: &line[..found.start()],
        text: found.as_str(),
    })
}

/// One of the parts of a place that commas stand between, if it has so many.
fn part<'l>(place: Option<Piece<'l>>, number: usize) -> Option<Piece<'l>>
    ensures { option_map cut_told result
        ≡ option_and_then (part_of number) (option_map cut_told place.entry) }
{
    let Piece { front, text } = place?;
    let text = part_in(text, number)?;
    Some(Piece { front, text })
}

/// One of the parts of a text that commas stand between, if it has so many.
fn part_in(text: &str, number: usize) -> Option<&str>
    ensures { option_map (λ part. part.now) result
        ≡ slice_get (slice_split (λ c. c == 44) text.now) number }
{
    text.split(',').nth(number)
}
