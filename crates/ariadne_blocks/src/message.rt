//! Lines that go on with a message, as mypy cuts it.

ghost use Rattle.std.specs.Prelude.{◌≡◌, [], chars, length, map, string_bytes, nat_le, IfOk, OnOk, false};
ghost use Rattle.ariadne_blocks.specs.Blocks.{held_of, text_of};
ghost use Rattle.ariadne_blocks.specs.Messages as messages;
ghost use Rattle.ariadne_blocks.specs.Telling.{telling};

use ariadne_parse::{Diagnostic, code_in};
use std::alloc::{AllocError, Global};

/// How many characters a line has at most that mypy cuts.
const MESSAGE_WIDTH: usize = 80;

/// How many characters have room in a line, beside a blank.
const ROOM: usize = 79;

/// A line that may go on with a message.
#[derive(Drop)]
pub struct MessageLine {
    /// Its bytes, with what ends it.
    pub bytes: Vec<u8>,
    /// Its text.
    pub(crate) text: String,
}

impl MessageLine {
    /// A line of these bytes and this text. On `Err` there was no memory for it.
    pub(crate) fn new(alloc: Global, bytes: &[u8], text: &str) -> Result<MessageLine, AllocError>
        ensures { IfOk result (λ line.
            held_of line ≡ record { bytes = bytes.now; text = text.now }) }
    {
        let mut copy = Vec::new(alloc);
        copy.extend_from_slice(bytes)?;
        Ok(MessageLine {
            bytes: copy,
            text: String::from_str(alloc, text)?,
        })
    }
}

/// Whether a file is one of Python's.
pub(crate) fn is_of_python(file: &str) -> bool
    ensures { result ≡ messages.is_of_python file.now }
{
    file.ends_with(".py") || file.ends_with(".pyi")
}

/// How many characters a text has.
pub(crate) fn width_of(text: &str) -> usize
    ensures { result ≡ length (chars text.now) }
{
    text.chars().count()
}

/// Whether a text may go on with a line of so many characters: its first word had no room there.
pub(crate) fn had_no_room(width: usize, text: &str) -> bool
    ensures { result ≡ messages.had_no_room width text.now }
{
    !text.is_empty() && width <= MESSAGE_WIDTH && has_long_word(text, ROOM.saturating_sub(width))
}

/// Whether the first word of a text has so many characters at least: no blank in quotes ends it.
fn has_long_word(text: &str, least: usize) -> bool
    ensures { result ≡ nat_le least (messages.word_length false (chars text.now)) }
{
    let mut missing = least;
    let mut is_quoted = false;
    for character in text.chars() {
        if character == ' ' && !is_quoted {
            return missing == 0;
        }
        if character == '"' {
            is_quoted = !is_quoted;
        }
        missing = missing.saturating_sub(1);
    }
    missing == 0
}

/// Adds lines to the message of a diagnostic, if there are some, and parts the code at its end from it.
pub(crate) fn settle_message(
    alloc: Global,
    parsed: &mut Diagnostic,
    lines: &mut Vec<MessageLine>,
) -> Result<(), AllocError>
    ensures parsed { OnOk result (telling parsed.new
        ≡ messages.with_lines (map text_of (map held_of lines.old.items)) (telling parsed.old)) }
    ensures none { OnOk result (lines.new.items ≡ []) }
{
    if lines.is_empty() {
        return Ok(());
    }
    push_lines(&mut parsed.message, lines.as_slice())?;
    lines.clear();
    settle_code(alloc, parsed)
}

/// Adds lines to a message.
fn push_lines(message: &mut String, lines: &[MessageLine]) -> Result<(), AllocError>
    ensures { OnOk result (string_bytes message.new
        ≡ messages.message_with (string_bytes message.old) (map text_of (map held_of lines.now))) }
{
    for line in lines {
        push_line(message, line.text.as_str())?;
    }
    Ok(())
}

/// Adds a line to a message, with one blank in front of it at least.
fn push_line(message: &mut String, line: &str) -> Result<(), AllocError>
    ensures { OnOk result (string_bytes message.new
        ≡ messages.joined (string_bytes message.old) line.now) }
{
    if !message.as_str().ends_with(' ') {
        message.push(' ')?;
    }
    message.push_str(line)?;
    Ok(())
}

/// Parts the code in brackets at the end of a message from it, if one stands there and none is known.
fn settle_code(alloc: Global, parsed: &mut Diagnostic) -> Result<(), AllocError>
    ensures { OnOk result (telling parsed.new ≡ messages.parted (telling parsed.old)) }
{
    if parsed.code.is_some() {
        return Ok(());
    }
    let Some((message, code)) = code_in(parsed.message.as_str()) else {
        return Ok(());
    };
    let message = String::from_str(alloc, message)?;
    parsed.code = Some(String::from_str(alloc, code)?);
    parsed.message = message;
    Ok(())
}
