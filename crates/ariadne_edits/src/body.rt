//! What a row shows of its line.

ghost use Rattle.std.specs.Prelude.{◌≡◌, ◌+◌, ◌++◌, ◌≤◌, IfOk, OnOk, chars, encode_utf8_all, map};
ghost use Rattle.std.specs.Prelude.{replicate, string_bytes};
ghost use Rattle.ariadne_picture.specs.Columns.{char_columns};
ghost use Rattle.ariadne_edits.specs.Bodies.{body, columns_at, mark_of as mark, shown_at, spread};

use crate::line::is_separator;
use crate::rows::Blanks;
use ariadne_safe::text::{TextKind, shown_char};
use std::alloc::AllocError;
use unicode_width::UnicodeWidthChar;

/// Appends what a row shows of its line.
///
/// White space is shown as blanks, tabs up to the next tab stop, of which one stands each `tab_width`
/// columns; or it is shown by signs, those that end the line too. A sign stands for each character
/// that is hidden.
///
/// On `Err` a growth of memory was refused.
pub(crate) fn push_body(
    out: &mut String,
    tab_width: usize,
    blanks: Blanks,
    line: &str,
) -> Result<(), AllocError>
    requires { 1 ≤ tab_width }
    ensures { OnOk result (string_bytes out.new ≡ string_bytes out.old
        ++ encode_utf8_all (body tab_width blanks (chars line.now))) }
{
    match blanks {
        Blanks::Plain => push_spread(out, tab_width, line),
        Blanks::Marked => push_marked(out, line),
    }
}

/// Appends a line whose white space is shown as blanks.
fn push_spread(out: &mut String, tab_width: usize, line: &str) -> Result<(), AllocError>
    requires { 1 ≤ tab_width }
    ensures { OnOk result (string_bytes out.new ≡ string_bytes out.old
        ++ encode_utf8_all (spread tab_width 0 (chars line.now))) }
{
    let mut column = 0usize;
    let mut rest = line.chars();
    while let Some(c) = rest.next() {
        let columns = push_shown(out, tab_width, column, c)?;
        column = column.checked_add(columns).ok_or(AllocError)?;
    }
    Ok(())
}

/// Appends what is shown of a character that stands at a column, and gives how many columns it takes.
fn push_shown(
    out: &mut String,
    tab_width: usize,
    column: usize,
    c: char,
) -> Result<usize, AllocError>
    requires { 1 ≤ tab_width }
    ensures bytes { OnOk result (string_bytes out.new ≡ string_bytes out.old
        ++ encode_utf8_all (shown_at tab_width column c)) }
    ensures columns { IfOk result (λ columns. columns ≡ columns_at tab_width column c) }
{
    if is_separator(c) {
        Ok(0)
    } else if c == '\t' {
        let blanks = tab_width - column % tab_width;
        push_blanks(out, blanks)?;
        Ok(blanks)
    } else {
        let sign = shown_char(TextKind::OneRow, c, "");
        out.push(sign)?;
        Ok(columns_of(sign))
    }
}

/// The columns of a character that is printed as it is.
#[tactic(auto, unfolding(ariadne_picture::specs::Columns::char_columns))]
pub(crate) fn columns_of(c: char) -> usize
    ensures columns { result ≡ char_columns c }
    ensures most { result ≤ 3 }
{
    c.width().unwrap_or(1)
}

/// Appends blanks.
pub(crate) fn push_blanks(out: &mut String, count: usize) -> Result<(), AllocError>
    ensures { OnOk result (string_bytes out.new ≡ string_bytes out.old ++ replicate count 32) }
{
    for _ in 0..count {
        out.push_str(" ")?;
    }
    Ok(())
}

/// Appends a line whose white space is shown by signs.
fn push_marked(out: &mut String, line: &str) -> Result<(), AllocError>
    ensures { OnOk result (string_bytes out.new ≡ string_bytes out.old
        ++ encode_utf8_all (map mark (chars line.now))) }
{
    let mut rest = line.chars();
    while let Some(c) = rest.next() {
        out.push(mark_of(c))?;
    }
    Ok(())
}

/// The sign of white space, or of what is hidden; else the character.
fn mark_of(c: char) -> char
    ensures { result ≡ mark c }
{
    let sign = shown_char(TextKind::OneRow, c, "");
    if c == ' ' {
        '\u{b7}'
    } else if c.is_whitespace() && sign == c {
        '\u{2423}'
    } else {
        sign
    }
}
