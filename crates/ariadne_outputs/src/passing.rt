//! Lines that pass, as they may be shown: what a tool prints beside its diagnostics may have been
//! written by anyone.

ghost use Rattle.std.specs.Prelude.{◌≡◌, ◌∷◌, ◌++◌, IfOk, OnOk, chars, codes, encode_utf8};
ghost use Rattle.std.specs.Prelude.{encode_utf8_all, map, not, string_bytes};
ghost use Rattle.std.specs.List.{flat_map};
ghost use Rattle.ariadne_outputs.specs.Passing.{HasPassed, HavePassed, line_code, line_end, line_front};
ghost use Rattle.ariadne_outputs.specs.Passing.{passed_line, passing_text, pieces_beside, shown_piece};
ghost use Rattle.ariadne_outputs.specs.Sequences.{behind_charset as charset_behind, is_reset};

use crate::sequence::{Sequence, behind_charset, first_sequence};
use ariadne_safe::text::shown_char;
use ariadne_safe::{TextKind, is_seen};
use std::alloc::{AllocError, Global};

/// The character that begins a sequence of a terminal.
const ESCAPE: char = '\u{1b}';

/// The sequence behind which letters look as before any.
const RESET: &str = "\u{1b}[0m";

/// A line as it may be shown, with what ends it: LF, CR LF or nothing.
///
/// Bytes that are no UTF-8 stand as U+FFFD, and each hidden character but a tab as its sign. Sequences
/// `ESC [ PARAMETERS m` are kept where `colors` is, and their numbers only paint letters, so that they hide
/// nothing: 0 to 4, 22 to 24, 30 to 37, 39, 90 to 97, `38;5;N` and `38;2;R;G;B`. The others are
/// dropped, and so are gcc's `ESC [ DIGITS K` and xterm's `ESC ( B`. Where letters are left painted a reset
/// stands in front of the end. On `Err` there was no memory.
pub fn passing_line(alloc: Global, line: &[u8], colors: bool) -> Result<String, AllocError>
    ensures { IfOk result (λ shown. string_bytes shown ≡ passed_line colors line.now) }
{
    let (front, end) = parted(line);
    let text = String::from_utf8_lossy(alloc, front)?;
    let mut shown = String::new(alloc);
    push_line(&mut shown, text.as_str(), colors)?;
    shown.push_str(end)?;
    Ok(shown)
}

/// A line without what ends it, and that.
fn parted(line: &[u8]) -> (&[u8], &'static str)
    ensures front { result.0.now ≡ line_front line.now }
    ensures end { result.1.now ≡ line_end line.now }
{
    match line {
        [front @ .., b'\r', b'\n'] => (front, "\r\n"),
        [front @ .., b'\n'] => (front, "\n"),
        _ => (line, ""),
    }
}

/// Adds a line without its end, as it may be shown.
fn push_line(shown: &mut String, line: &str, colors: bool) -> Result<(), AllocError>
    ensures { OnOk result (string_bytes shown.new
        ≡ string_bytes shown.old ++ encode_utf8_all (passing_text colors (chars line.now))) }
{
    let Some((front, behind)) = line.split_once(ESCAPE) else {
        return push_visible(shown, line);
    };
    push_visible(shown, front)?;
    if push_parts(shown, behind, colors)? {
        shown.push_str(RESET)?;
    }
    Ok(())
}

/// Adds what stands for a text whose parts each stand behind an escape character. The result is whether it
/// leaves letters painted.
fn push_parts(shown: &mut String, text: &str, colors: bool) -> Result<bool, AllocError>
    ensures { IfOk result (λ is_painted. HavePassed colors (chars text.now)
        (string_bytes shown.old) (string_bytes shown.new) is_painted) }
{
    let mut is_painted = false;
    let mut rest = text;
    while let Some((part, behind)) = rest.split_once(ESCAPE) {
        is_painted = push_part(shown, part, colors, is_painted)?;
        rest = behind;
    }
    push_part(shown, rest, colors, is_painted)
}

/// Adds what stands for an escape character and the part behind it. The result is whether letters are
/// painted then, if they were before or not.
fn push_part(
    shown: &mut String,
    part: &str,
    colors: bool,
    is_painted: bool,
) -> Result<bool, AllocError>
    ensures { IfOk result (λ painted. HasPassed colors (chars part.now) is_painted
        (string_bytes shown.old) (string_bytes shown.new) painted) }
{
    match first_sequence(part) {
        Some(sequence) if colors && sequence.is_kept() => push_kept(shown, &sequence),
        Some(sequence) => {
            push_visible(shown, sequence.behind)?;
            Ok(is_painted)
        }
        None => {
            push_other(shown, part)?;
            Ok(is_painted)
        }
    }
}

/// Adds what stands for an escape character and the part behind it, which begins with no sequence: for the
/// escape with `(B` nothing does.
fn push_other(shown: &mut String, part: &str) -> Result<(), AllocError>
    ensures { OnOk result (string_bytes shown.new ≡ string_bytes shown.old
        ++ encode_utf8_all (flat_map shown_piece
        (pieces_beside (chars part.now) (charset_behind (chars part.now))))) }
{
    match behind_charset(part) {
        Some(behind) => push_visible(shown, behind),
        None => {
            push_char(shown, ESCAPE)?;
            push_visible(shown, part)
        }
    }
}

/// Adds a sequence, and the text behind it. The result is whether letters are painted there.
fn push_kept(shown: &mut String, sequence: &Sequence<'_>) -> Result<bool, AllocError>
    ensures bytes { OnOk result (string_bytes shown.new ≡ string_bytes shown.old
        ++ (27 ∷ 91 ∷ sequence.now.parameters.now ++ codes "m")
        ++ encode_utf8_all (map line_code (chars sequence.now.behind.now))) }
    ensures painted { IfOk result (λ is_painted.
        is_painted ≡ not (is_reset sequence.now.parameters.now)) }
{
    shown.push_str("\u{1b}[")?;
    shown.push_str(sequence.parameters)?;
    shown.push('m')?;
    push_visible(shown, sequence.behind)?;
    Ok(!sequence.is_reset())
}

/// Adds text, with signs for what is hidden in it. Most texts hide nothing, and are added at once.
fn push_visible(shown: &mut String, text: &str) -> Result<(), AllocError>
    ensures { OnOk result (string_bytes shown.new
        ≡ string_bytes shown.old ++ encode_utf8_all (map line_code (chars text.now))) }
{
    if is_seen(text) {
        shown.push_str(text)?;
    } else {
        for c in text.chars() {
            push_char(shown, c)?;
        }
    }
    Ok(())
}

/// Adds a character, or its sign where it is hidden and no tab.
fn push_char(shown: &mut String, c: char) -> Result<(), AllocError>
    ensures { OnOk result (string_bytes shown.new ≡ string_bytes shown.old ++ encode_utf8 (line_code c)) }
{
    if c == '\t' {
        shown.push(c)
    } else {
        shown.push(shown_char(TextKind::OneRow, c, ""))
    }
}
