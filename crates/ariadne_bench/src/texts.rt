//! The texts of the workloads.

use std::alloc::{AllocError, Global};

/// The number of lines of a large text.
const LARGE: u32 = 200_000;

/// The characters of a line, its line feed among them.
const LINE_LEN: usize = 50;

/// The characters that stand in a wide text in place of others, and where among ten.
const WIDE: &[(usize, char)] = &[(0, '\u{e9}'), (5, '\u{6f22}')];

/// Those of words with a tab, a wide character and a character without columns.
const TABBED: &[(usize, char)] = &[(3, '\t'), (5, '\u{6f22}'), (8, '\u{301}')];

/// Adds the line of a number: 49 characters of a byte each, and LF.
pub fn push_line(text: &mut String, number: u32) -> Result<(), AllocError> {
    write!(
        text,
        "let v{number:06} = alpha + beta * gamma - delta (eps);\n"
    )
}

/// A text of so many numbered lines.
pub fn narrow(alloc: Global, lines: u32) -> Result<String, AllocError> {
    let mut text = String::with_capacity(alloc, LINE_LEN * lines as usize)?;
    for number in 0..lines {
        push_line(&mut text, number)?;
    }
    Ok(text)
}

/// A text with other characters in place of some of each ten.
fn replaced(alloc: Global, text: &str, others: &[(usize, char)]) -> Result<String, AllocError> {
    let mut new = String::with_capacity(alloc, text.len())?;
    for (place, c) in text.chars().enumerate() {
        new.push(other_at(others, place % 10).unwrap_or(c))?;
    }
    Ok(new)
}

/// The character that stands at a place of ten.
fn other_at(others: &[(usize, char)], place: usize) -> Option<char> {
    for (at, other) in others {
        if *at == place {
            return Some(*other);
        }
    }
    None
}

/// A text of so many numbered lines with two bytes for every tenth character, from the first of a
/// line, and three bytes for the characters midway between them.
fn wide(alloc: Global, lines: u32) -> Result<String, AllocError> {
    replaced(alloc, narrow(alloc, lines)?.as_str(), WIDE)
}

/// A text of many lines, of 50 characters each, which have a byte each or up to three.
pub fn large_text(alloc: Global, is_wide: bool) -> Result<String, AllocError> {
    if is_wide {
        wide(alloc, LARGE)
    } else {
        narrow(alloc, LARGE)
    }
}

/// One line of so many numbered words of ten characters each.
pub fn words(alloc: Global, count: u32) -> Result<String, AllocError> {
    let mut text = String::new(alloc);
    for number in 0..count {
        write!(text, "w{number:06} +,")?;
    }
    Ok(text)
}

/// The same with a tab, a wide character and a character without columns in each word.
pub fn tabbed_words(alloc: Global, count: u32) -> Result<String, AllocError> {
    replaced(alloc, words(alloc, count)?.as_str(), TABBED)
}
