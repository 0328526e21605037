//! What the lines of an entry caught together: the last one counts, and the place begins anew at a line that
//! names a file or a line.

ghost use Rattle.std.specs.Prelude.{◌≡◌, map, option_map};
ghost use Rattle.std.specs.List.{list_any};
ghost use Rattle.std.specs.Str.{all_ascii_digits};
ghost use Rattle.ariadne_matchers.specs.Catches.{caught_at, cut_told};
ghost use Rattle.ariadne_matchers.specs.Lasts.{cut_in, is_beside, is_blank as is_blank_line, is_kept_before, is_taken_before};
ghost use Rattle.ariadne_matchers.specs.Lasts.{is_of_place, last_of, names_file as is_file_named, names_place as is_place_named};
ghost use Rattle.ariadne_matchers.specs.Lasts.{number_in, number_of, place_lines as lines_of_place};

use crate::caught::{Caught, Piece};

/// A group of patterns, but the message.
#[derive(Clone, Copy)]
pub(crate) enum Group {
    File,
    Line,
    Column,
    EndLine,
    EndColumn,
    Severity,
    Code,
    Quoted,
    Marks,
}

/// What a group caught of a line.
fn piece_in<'l>(caught: &Caught<'l>, group: Group) -> Option<Piece<'l>>
    ensures { option_map cut_told result ≡ cut_in group (caught_at caught.now) }
{
    match group {
        Group::File => caught.file,
        Group::Line => caught.line,
        Group::Column => caught.column,
        Group::EndLine => caught.end_line,
        Group::EndColumn => caught.end_column,
        Group::Severity => caught.severity,
        Group::Code => caught.code,
        Group::Quoted => caught.quoted,
        Group::Marks => caught.marks,
    }
}

/// What a group caught last.
pub(crate) fn last<'l>(lines: &[Caught<'l>], group: Group) -> Option<Piece<'l>>
    ensures { option_map cut_told result ≡ last_of group (map caught_at lines.now) }
{
    let mut last = None;
    for caught in lines {
        last = piece_in(caught, group).or(last);
    }
    last
}

/// The number that a group caught last, if it is one of this machine's 32 bits.
pub(crate) fn last_number(lines: &[Caught<'_>], group: Group) -> Option<u32>
    ensures { result ≡ number_of (last_of group (map caught_at lines.now)) }
{
    number(last(lines, group)?.text)
}

/// Whether a line names a file or a line, so that the place begins anew.
pub(crate) fn names_place(caught: &Caught<'_>) -> bool
    ensures { result ≡ is_place_named (caught_at caught.now) }
{
    caught.file.is_some() || caught.line.is_some()
}

/// The lines from the last one on that names a file or a line: they tell the place.
pub(crate) fn place_lines<'a, 'l>(lines: &'a [Caught<'l>]) -> &'a [Caught<'l>]
    ensures { map caught_at result.now ≡ lines_of_place (map caught_at lines.now) }
{
    let mut first = 0;
    for (place, caught) in lines.iter().enumerate() {
        if names_place(caught) {
            first = place;
        }
    }
    &lines[first..]
}

/// Whether something was caught of a line that counts: none of the lines behind it began the place anew, or named
/// another file.
fn is_kept(caught: &Caught<'_>, behind: &[Caught<'_>]) -> bool
    ensures { result ≡ is_kept_before (map caught_at behind.now) (caught_at caught.now) }
{
    tells_beside(caught)
        || names_file(caught) && !any_names_file(behind)
        || tells_place(caught) && !any_names_place(behind)
}

/// Whether one of some lines names a file.
fn any_names_file(lines: &[Caught<'_>]) -> bool
    ensures { result ≡ list_any is_file_named (map caught_at lines.now) }
{
    lines.iter().any(names_file)
}

/// Whether one of some lines begins the place anew.
fn any_names_place(lines: &[Caught<'_>]) -> bool
    ensures { result ≡ list_any is_place_named (map caught_at lines.now) }
{
    lines.iter().any(names_place)
}

/// Whether a line tells something beside the place.
fn tells_beside(caught: &Caught<'_>) -> bool
    ensures { result ≡ is_beside (caught_at caught.now) }
{
    caught.severity.is_some() || caught.code.is_some() || caught.message.is_some()
}

/// Whether a line names a file.
fn names_file(caught: &Caught<'_>) -> bool
    ensures { result ≡ is_file_named (caught_at caught.now) }
{
    caught.file.is_some()
}

/// Whether a line tells something of the place in the file.
fn tells_place(caught: &Caught<'_>) -> bool
    ensures { result ≡ is_of_place (caught_at caught.now) }
{
    caught.line.is_some()
        || caught.column.is_some()
        || caught.end_line.is_some()
        || caught.end_column.is_some()
        || caught.quoted.is_some()
        || caught.marks.is_some()
}

/// Whether the first of some lines is taken in: it is blank, or something was caught of it that counts.
pub(crate) fn is_taken(lines: &[Caught<'_>]) -> bool
    ensures { result ≡ is_taken_before (map caught_at lines.now) }
{
    match lines {
        [line, behind @ ..] => is_blank(line.row) || is_kept(line, behind),
        [] => false,
    }
}

/// Whether a line has blanks alone.
fn is_blank(line: &str) -> bool
    ensures { result ≡ is_blank_line line.now }
{
    line.trim().is_empty()
}

/// The number that a text of decimal digits is, if it has some, and 32 bits have it.
fn number(text: &str) -> Option<u32>
    ensures { result ≡ number_in text.now }
{
    if has_digits_alone(text) {
        text.parse().ok()
    } else {
        None
    }
}

/// Whether a text has decimal digits alone.
fn has_digits_alone(text: &str) -> bool
    ensures { result ≡ all_ascii_digits text.now }
{
    text.as_bytes().iter().all(|byte| byte.is_ascii_digit())
}
