//! What a row shows of a line that takes more columns than are asked for.
//!
//! ```text
//! 4 - let total = sum_of(first, second, third);
//! 4 + let total = sum_of(first, &second, third);
//! ```
//!
//! The same in 25 columns: what both lines have in common in front takes 12 with its mark, and what
//! differs takes the rest.
//!
//! ```text
//! 4 - ...f(first, second, th...
//! 4 + ...f(first, &second, t...
//! ```

ghost use Rattle.std.specs.Prelude.{◌≡◌, ◌+◌, ◌*◌, ◌/◌, ◌≤◌, ◌++◌, IfOk, OnOk, chars, encode_utf8_all};
ghost use Rattle.std.specs.Prelude.{length, string_bytes};
ghost use Rattle.ariadne_edits.specs.Bodies.{body};
ghost use Rattle.ariadne_edits.specs.Views.{columns_in, common_len, cut_behind, cut_in_front, cut_mark};
ghost use Rattle.ariadne_edits.specs.Views.{first_fitting, fitted, last_fitting, mark_width, shown_line, usable_width};

use crate::body::{columns_of, push_body};
use crate::rows::Blanks;
use ariadne_picture::switches::CharSet;
use std::alloc::{AllocError, Global};

/// How lines are shown.
#[derive(Clone, Copy)]
pub struct View {
    /// How many columns stand from one tab stop to the next.
    pub tab_width: usize,
    /// How many columns of its text a line may take, or 0 where each is shown whole. If a line takes
    /// more, it is cut around the first difference from its counterpart, and so is that. Two marks
    /// always have room: a width of less counts as 2 columns, or as 6 in ASCII.
    pub width: usize,
    /// The characters of the mark in place of what is left out: `…`, or `...` in ASCII.
    pub char_set: CharSet,
}

/// Appends what a row shows of its line. `other` is the line's counterpart, or empty where it has none.
///
/// On `Err` there was no memory for it, or none holds as many columns as a line would take if it were
/// shown whole.
pub(crate) fn push_line(
    alloc: Global,
    out: &mut String,
    view: View,
    blanks: Blanks,
    line: &str,
    other: &str,
) -> Result<(), AllocError>
    requires { 1 ≤ view.tab_width }
    ensures { OnOk result (string_bytes out.new ≡ string_bytes out.old
        ++ encode_utf8_all (shown_line view blanks (chars line.now) (chars other.now))) }
{
    if view.width == 0 {
        return push_body(out, view.tab_width, blanks, line);
    }
    let text = body_of(alloc, view.tab_width, blanks, line)?;
    let other = body_of(alloc, view.tab_width, blanks, other)?;
    let width = usable_width(view);
    push_fitted(out, view.char_set, width, text.as_slice(), other.as_slice())
}

/// The columns that a line may take at most.
fn usable_width(view: View) -> usize
    ensures width { result ≡ usable_width view }
    ensures marks { 2 * mark_width view.char_set ≤ result }
{
    view.width.max(2 * mark_width(view.char_set))
}

/// How many columns the mark takes.
fn mark_width(set: CharSet) -> usize
    ensures width { result ≡ mark_width set }
    ensures most { result ≤ 9 }
{
    match set {
        CharSet::Unicode => columns_of('\u{2026}'),
        CharSet::Ascii => 3 * columns_of('.'),
    }
}

/// What a row shows of its line where it is shown whole, as characters.
fn body_of(
    alloc: Global,
    tab_width: usize,
    blanks: Blanks,
    line: &str,
) -> Result<Vec<char>, AllocError>
    requires { 1 ≤ tab_width }
    ensures { IfOk result (λ text. text.items ≡ body tab_width blanks (chars line.now)) }
{
    let mut shown = String::new(alloc);
    push_body(&mut shown, tab_width, blanks, line)?;
    chars_of(alloc, shown.as_str())
}

/// The characters of a text.
fn chars_of(alloc: Global, text: &str) -> Result<Vec<char>, AllocError>
    ensures { IfOk result (λ list. list.items ≡ chars text.now) }
{
    text.chars().collect(alloc)
}

/// Appends what is shown of a text whose counterpart is another, in so many columns.
fn push_fitted(
    out: &mut String,
    set: CharSet,
    width: usize,
    text: &[char],
    other: &[char],
) -> Result<(), AllocError>
    requires { 2 * mark_width set ≤ width }
    ensures { OnOk result (string_bytes out.new ≡ string_bytes out.old
        ++ encode_utf8_all (fitted set width text.now other.now)) }
{
    if columns_in(text)?.max(columns_in(other)?) <= width {
        return push_chars(out, text);
    }
    let common = common_len(text, other);
    let columns = push_cut_in_front(out, set, width / 2, &text[..common])?;
    push_cut_behind(out, set, width - columns, &text[common..])
}

/// Appends what is shown of what both texts have in common, and gives how many columns it takes.
fn push_cut_in_front(
    out: &mut String,
    set: CharSet,
    room: usize,
    front: &[char],
) -> Result<usize, AllocError>
    requires { mark_width set ≤ room }
    ensures bytes { OnOk result (string_bytes out.new ≡ string_bytes out.old
        ++ encode_utf8_all (cut_in_front set room front.now)) }
    ensures columns { IfOk result (λ n. n ≡ columns_in (cut_in_front set room front.now)) }
    ensures fits { IfOk result (λ n. n ≤ room) }
{
    let columns = columns_in(front)?;
    if columns <= room {
        push_chars(out, front)?;
        return Ok(columns);
    }
    push_mark(out, set)?;
    let last = last_fitting(front, room - mark_width(set))?;
    push_chars(out, last)?;
    Ok(mark_width(set) + columns_in(last)?)
}

/// Appends what is shown of what stands behind.
fn push_cut_behind(
    out: &mut String,
    set: CharSet,
    room: usize,
    rest: &[char],
) -> Result<(), AllocError>
    requires { mark_width set ≤ room }
    ensures { OnOk result (string_bytes out.new ≡ string_bytes out.old
        ++ encode_utf8_all (cut_behind set room rest.now)) }
{
    if columns_in(rest)? <= room {
        return push_chars(out, rest);
    }
    push_chars(out, first_fitting(rest, room - mark_width(set)))?;
    push_mark(out, set)
}

/// How many characters two texts have in common in front.
fn common_len(text: &[char], other: &[char]) -> usize
    ensures common { result ≡ common_len text.now other.now }
    ensures within { result ≤ length text.now }
{
    let len = text.len().min(other.len());
    for count in 0..len {
        if text[count] != other[count] {
            return count;
        }
    }
    len
}

/// The most of the first characters that fit into so many columns.
fn first_fitting(text: &[char], room: usize) -> &[char]
    ensures { result.now ≡ first_fitting room text.now }
{
    let mut left = room;
    for (count, c) in text.iter().enumerate() {
        let columns = columns_of(*c);
        if left < columns {
            return &text[..count];
        }
        left -= columns;
    }
    text
}

/// The most of the last characters that fit into so many columns, from one on that takes columns.
///
/// On `Err` no memory holds as many columns as there are.
fn last_fitting(text: &[char], room: usize) -> Result<&[char], AllocError>
    ensures { IfOk result (λ last. last.now ≡ last_fitting room text.now) }
{
    let mut left = columns_in(text)?;
    for (count, c) in text.iter().enumerate() {
        let columns = columns_of(*c);
        if left <= room && 0 < columns {
            return Ok(&text[count..]);
        }
        left -= columns;
    }
    Ok(&text[text.len()..])
}

/// How many columns a text takes.
///
/// On `Err` no memory holds as many.
fn columns_in(text: &[char]) -> Result<usize, AllocError>
    ensures { IfOk result (λ columns. columns ≡ columns_in text.now) }
{
    let mut columns = 0usize;
    for c in text {
        columns = columns.checked_add(columns_of(*c)).ok_or(AllocError)?;
    }
    Ok(columns)
}

/// Appends characters.
fn push_chars(out: &mut String, text: &[char]) -> Result<(), AllocError>
    ensures { OnOk result (string_bytes out.new
        ≡ string_bytes out.old ++ encode_utf8_all text.now) }
{
    for c in text {
        out.push(*c)?;
    }
    Ok(())
}

/// Appends the mark in place of what is left out.
fn push_mark(out: &mut String, set: CharSet) -> Result<(), AllocError>
    ensures { OnOk result (string_bytes out.new
        ≡ string_bytes out.old ++ encode_utf8_all (cut_mark set)) }
{
    match set {
        CharSet::Unicode => out.push('\u{2026}'),
        CharSet::Ascii => out.push_str("..."),
    }
}
