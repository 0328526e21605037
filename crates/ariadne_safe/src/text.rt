//! Texts as they can be shown: a sign for each hidden character. Hidden are the controls, which a
//! terminal obeys, what turns the direction of a text, and the characters in the tests below of
//! which nothing is seen.

ghost use Rattle.std.specs.Prelude.{◌≡◌, IfOk, string_bytes, chars, length, true};
ghost use Rattle.ariadne_base.specs.Lines.{begins_with_line_feed as begins_in_line_feed};
ghost use Rattle.ariadne_safe.specs.declared.text.TextKind.TheVariants.{OneRow};
ghost use Rattle.ariadne_safe.specs.Visible.{is_control as controls, is_direction_mark as turns};
ghost use Rattle.ariadne_safe.specs.Visible.{is_joiner as joins, is_blank_letter as blanks};
ghost use Rattle.ariadne_safe.specs.Visible.{is_tag as tags, is_notation_control as lays_out};
ghost use Rattle.ariadne_safe.specs.Visible.{is_hidden as hides, stays as is_kept};
ghost use Rattle.ariadne_safe.specs.Visible.{symbol_of as sign, shown_code, visible_bytes};
ghost use Rattle.ariadne_safe.specs.Visible.{is_shown};

use crate::kept::kept_run;
use std::alloc::{AllocError, Global};

/// Where a text is shown, which decides what stays in it.
#[derive(Clone, Copy, Debug, PartialEq, Eq)]
pub enum TextKind {
    /// A text that a row shows whole: a message, a name, a code, a kind. Nothing stays.
    OneRow,
    /// A help or a note, which is cut at its line feeds. They stay.
    Aside,
    /// A source whose lines end where the library ends them. Tabs and the ends of lines stay: CR,
    /// LF, U+000B, U+000C, U+0085, U+2028 and U+2029.
    Lines,
    /// A source whose lines end where compilers end them. Tabs, LF and CR LF stay.
    CompilerLines,
}

/// Whether a character is a control: of ASCII, DEL, or of the second page.
fn is_control(c: char) -> bool
    ensures { result ≡ controls c }
{
    c < ' ' || '\u{7f}' <= c && c <= '\u{9f}'
}

/// Whether a character turns the direction of a text.
fn is_direction_mark(c: char) -> bool
    ensures { result ≡ turns c }
{
    c == '\u{61c}'
        || '\u{200e}' <= c && c <= '\u{200f}'
        || '\u{202a}' <= c && c <= '\u{202e}'
        || '\u{2066}' <= c && c <= '\u{2069}'
}

/// Whether a character joins, parts or operates without being seen.
fn is_joiner(c: char) -> bool
    ensures { result ≡ joins c }
{
    c == '\u{ad}'
        || c == '\u{34f}'
        || '\u{180b}' <= c && c <= '\u{180f}'
        || '\u{200b}' <= c && c <= '\u{200d}'
        || '\u{2028}' <= c && c <= '\u{2029}'
        || '\u{2060}' <= c && c <= '\u{2065}'
}

/// Whether a character is a letter or a sign that is blank.
fn is_blank_letter(c: char) -> bool
    ensures { result ≡ blanks c }
{
    '\u{115f}' <= c && c <= '\u{1160}'
        || '\u{17b4}' <= c && c <= '\u{17b5}'
        || c == '\u{2800}'
        || c == '\u{3164}'
        || c == '\u{ffa0}'
        || c == '\u{16fe4}'
        || c == '\u{1d159}'
}

/// Whether a character is a deprecated format character, a selector of variants but that of text or
/// emoji, the byte order mark, the mark of an annotation, or in the plane of tags and selectors.
fn is_tag(c: char) -> bool
    ensures { result ≡ tags c }
{
    '\u{206a}' <= c && c <= '\u{206f}'
        || '\u{fe00}' <= c && c <= '\u{fe0d}'
        || c == '\u{feff}'
        || '\u{fff0}' <= c && c <= '\u{fffb}'
        || '\u{e0000}' <= c && c <= '\u{e0fff}'
}

/// Whether a character lays out hieroglyphs, shorthand or music.
fn is_notation_control(c: char) -> bool
    ensures { result ≡ lays_out c }
{
    '\u{13430}' <= c && c <= '\u{1345f}'
        || '\u{1bca0}' <= c && c <= '\u{1bca3}'
        || '\u{1d173}' <= c && c <= '\u{1d17a}'
}

/// Whether a character is hidden.
#[tactic(auto, unfolding(crate::specs::Visible::is_hidden))]
fn is_hidden(c: char) -> bool
    ensures { result ≡ hides c }
{
    if c < '\u{7f}' {
        return c < ' '; // (ASCII, which most texts are, takes no more than this)
    }
    is_control(c)
        || is_direction_mark(c)
        || is_joiner(c)
        || is_blank_letter(c)
        || is_tag(c)
        || is_notation_control(c)
}

/// The sign of a hidden character: its symbol, or the replacement character where it has none.
fn symbol_of(c: char) -> char
    ensures { result ≡ sign c }
{
    if c < ' ' {
        char::from_u32(0x2400 + c as u32).unwrap()
    } else if c == '\u{7f}' {
        '\u{2421}'
    } else if c == '\u{85}' {
        '\u{2424}'
    } else {
        '\u{fffd}'
    }
}

/// Whether a text begins with LF.
fn begins_with_line_feed(text: &str) -> bool
    ensures { result ≡ begins_in_line_feed (chars text.now) }
{
    text.starts_with('\n')
}

/// Whether a hidden character stays in a text of this kind, before the rest of it.
fn stays(kind: TextKind, c: char, rest: &str) -> bool
    ensures { result ≡ is_kept kind c (begins_in_line_feed (chars rest.now)) }
{
    match kind {
        TextKind::OneRow => false,
        TextKind::Aside => c == '\n',
        TextKind::Lines => c.is_whitespace(),
        TextKind::CompilerLines => {
            c == '\t' || c == '\n' || c == '\r' && begins_with_line_feed(rest)
        }
    }
}

/// The character that stands for `c`, before the rest of its text.
pub fn shown_char(kind: TextKind, c: char, rest: &str) -> char
    ensures { result ≡ shown_code kind c (begins_in_line_feed (chars rest.now)) }
{
    if !is_hidden(c) || stays(kind, c, rest) {
        c
    } else {
        symbol_of(c)
    }
}

/// The text with a sign for each hidden character, character for character.
///
/// On `Err` there was no memory for it.
pub fn visible(alloc: Global, text: &str, kind: TextKind) -> Result<String, AllocError>
    ensures signs { IfOk result (λ shown. string_bytes shown ≡ visible_bytes kind text.now) }
    ensures seen { IfOk result (λ shown. is_shown kind (string_bytes shown) ≡ true) }
    ensures count { IfOk result (λ shown.
        length (chars (string_bytes shown)) ≡ length (chars text.now)) }
{
    let mut shown = String::with_capacity(alloc, text.len())?;
    let mut rest = text;
    while !rest.is_empty() {
        let kept = kept_run(kind, rest);
        shown.push_str(&rest[..kept])?;
        let mut behind = rest[kept..].chars();
        if let Some(c) = behind.next() {
            shown.push(shown_char(kind, c, behind.as_str()))?;
        }
        rest = behind.as_str();
    }
    Ok(shown)
}

/// Whether a text can be shown in one row as it is: nothing in it is hidden.
pub fn is_seen(text: &str) -> bool
    ensures { result ≡ is_shown OneRow text.now }
{
    kept_run(TextKind::OneRow, text) == text.len()
}
