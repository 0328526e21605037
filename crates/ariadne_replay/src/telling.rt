//! What is drawn of a case, told as a line of JSON.

use crate::sending::Answer;
use std::{fmt, io};

/// A text as a JSON text has it between its quotes.
#[derive(Clone, Copy)]
struct Quoted<'t>(&'t str);

/// Whether a JSON text has a character by its number.
fn is_escaped(character: char) -> bool {
    character.is_control() || character == '"' || character == '\\'
}

/// Writes a character of a JSON text.
fn write_character<W: fmt::Write>(f: &mut fmt::Formatter<W>, character: char) -> fmt::Result {
    if is_escaped(character) {
        write!(f, "\\u{:04x}", u32::from(character))
    } else {
        f.write_char(character)
    }
}

impl fmt::Display for Quoted<'_> {
    fn fmt<W: fmt::Write>(&self, f: &mut fmt::Formatter<W>) -> fmt::Result {
        for character in self.0.chars() {
            write_character(f, character)?;
        }
        Ok(())
    }
}

/// Tells what is drawn of a report of a name, as a line of JSON.
pub fn tell_answer(rt: &HostRuntime, name: &str, answer: &Answer) -> io::Result<()> {
    println!(rt;
        "{{\"answer\": \"{}\", \"left_out\": {}, \"fails\": \"{}\", \"picture\": \"{}\"}}",
        Quoted(name),
        answer.left_out,
        answer.end.name(),
        Quoted(answer.picture.as_str())
    )
}
