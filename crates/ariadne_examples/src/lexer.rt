//! Offsets in bytes: a lexer over `char_indices`, which stops at an unknown character. Copy
//! `with_index_type(IndexType::Byte)`, and how a `Place` is made: it starts at most at its end, which
//! is what `Label::new` asks for. `errors` shows a test instead.

use crate::pictures::{assert_rows, picture_over, plain};
use ariadne::{IndexType, Label, Place, Report, ReportKind};
use std::alloc::{AllocError, Global};

/// What a character is part of.
#[derive(Clone, Copy, PartialEq, Eq)]
enum Kind {
    Blank,
    Name,
    Number,
    Sign,
}

/// What a character is part of, or none where no token has it.
fn kind_of(c: char) -> Option<Kind> {
    match c {
        ' ' => Some(Kind::Blank),
        '0'..='9' => Some(Kind::Number),
        '=' | '+' | '*' => Some(Kind::Sign),
        _ if c.is_alphabetic() => Some(Kind::Name),
        _ => None,
    }
}

/// A run of characters of one kind, and where it stands.
type Token = (Kind, Place);

/// Adds the tokens of a text to `tokens`, and returns where an unknown character ends them.
fn lex(tokens: &mut Vec<Token>, text: &str) -> Result<Option<Place>, AllocError> {
    let mut kind = Kind::Blank;
    let mut start = 0;
    for (at, c) in text.char_indices() {
        let next = kind_of(c);
        if next != Some(kind) {
            push(tokens, kind, start, at)?;
            start = at;
        }
        let Some(next) = next else {
            let end = at.saturating_add(c.len_utf8());
            return Ok(Some(Place::at(at).to(Place::at(end))));
        };
        kind = next;
    }
    push(tokens, kind, start, text.len())?;
    Ok(None)
}

/// Adds a token, unless it is of blanks or empty.
fn push(tokens: &mut Vec<Token>, kind: Kind, start: usize, end: usize) -> Result<(), AllocError> {
    if kind != Kind::Blank && start < end {
        tokens.push((kind, Place { start, end }))?;
    }
    Ok(())
}

/// The report of an unknown character.
fn unknown(alloc: Global, place: Place) -> Result<Report<'static, Place>, AllocError> {
    let label = Label::new(place).with_message(alloc, "no token has it")?;
    let report = Report::build(alloc, ReportKind::Error, place)
        .with_config(plain().with_index_type(IndexType::Byte))
        .with_message("unknown character")?
        .with_label(label)?;
    Ok(report.finish())
}

/// The picture of the report.
static ROWS: [&str; 7] = [
    "Error: unknown character",
    "   ,-[ <unknown>:1:11 ]",
    "   |",
    " 1 | äpplë = 3 € 4",
    "   |           |",
    "   |           `-- no token has it",
    "---'",
];

/// How many tokens a text has, and where an unknown character ends them.
fn lexed(alloc: Global, text: &str) -> Result<(usize, Option<Place>), AllocError> {
    let mut tokens = Vec::new(alloc);
    let place = lex(&mut tokens, text)?;
    Ok((tokens.len(), place))
}

#[test]
fn an_unknown_character_behind_others_of_two_bytes(rt: HostRuntime) {
    let text = "äpplë = 3 € 4";
    let (count, place) = lexed(rt.alloc(), text).expect(&rt, "memory");
    let place = place.expect(&rt, "an unknown character");
    assert_eq!(rt; (count, place.start, place.end), (3, 12, 15));
    let picture = picture_over(&rt, unknown(rt.alloc(), place), text);
    assert_rows(&rt, picture.as_str(), &ROWS)
}
