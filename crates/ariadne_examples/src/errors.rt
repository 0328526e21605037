//! An enum of errors, with texts by `thiserror`, each of which becomes a report. Copy `Refusal`:
//! its text is the report's message, and its fields say where the label stands. The test `start <=
//! end` is what `Label::new` asks for; `lexer` shows an invariant in its place.

use crate::pictures::{assert_rows, picture_over, plain};
use ariadne::{Label, Report, ReportKind};
use std::alloc::{AllocError, Global};
use std::process::Abort;
use thiserror::Error;

/// The greatest number.
const LIMIT: u32 = 255;

/// Why a text is no number. Offsets count characters from 0.
#[derive(Debug, Drop, Error)]
enum Refusal {
    #[error("no number")]
    Empty,
    #[error("`{found}` is no digit")]
    NoDigit { found: char, offset: usize },
    #[error("more than {limit}", limit = LIMIT)]
    TooLarge { digits: usize },
}

/// The number that a text is, at most `LIMIT`.
fn number(text: &str) -> Result<u32, Refusal> {
    let mut number = 0u32;
    for (offset, found) in text.chars().enumerate() {
        let Some(digit) = found.to_digit(10) else {
            return Err(Refusal::NoDigit { found, offset });
        };
        number = number.saturating_mul(10).saturating_add(digit);
    }
    match text.chars().count() {
        0 => Err(Refusal::Empty),
        digits if number > LIMIT => Err(Refusal::TooLarge { digits }),
        _ => Ok(number),
    }
}

impl Refusal {
    /// Its code, the start and the end of its place, and what is said of that.
    fn parts(&self) -> (u64, usize, usize, &'static str) {
        match self {
            Refusal::Empty => (1, 0, 0, "a digit is missing"),
            Refusal::NoDigit { offset, .. } => (2, *offset, offset.saturating_add(1), "no digit"),
            Refusal::TooLarge { digits } => (3, 0, *digits, "too large"),
        }
    }

    /// The report of it, with its text as message.
    fn report(&self, alloc: Global) -> Result<Report<'static>, AllocError> {
        let (code, start, end, hint) = self.parts();
        let message = self.to_string(alloc)?;
        let label = label(alloc, start, end, hint)?;
        let report = Report::build(alloc, ReportKind::Error, start..start)
            .with_config(plain())
            .with_labels(label)?
            .with_code(code)?
            .with_message(message.as_str())?;
        Ok(report.finish())
    }
}

/// A label from `start` to `end`, unless that is in front of `start`.
fn label(alloc: Global, start: usize, end: usize, hint: &str) -> Result<Option<Label>, AllocError> {
    if start <= end {
        Label::new(start..end).with_message(alloc, hint).map(Some)
    } else {
        Ok(None)
    }
}

/// The picture of what is told of a text that is no number.
fn refused(rt: &(impl Abort + AllocGlobal), text: &str) -> String {
    let refusal = number(text).expect_err(rt, "a refusal");
    picture_over(rt, refusal.report(rt.alloc()), text)
}

/// The picture of the report.
static ROWS: [&str; 7] = [
    "[02] Error: `a` is no digit",
    "   ,-[ <unknown>:1:3 ]",
    "   |",
    " 1 | 12a4",
    "   |   |",
    "   |   `-- no digit",
    "---'",
];

#[test]
fn each_refusal_is_a_report(rt: HostRuntime) {
    assert_eq!(rt; number("255").ok(), Some(255));
    assert!(rt; refused(&rt, "").starts_with("[01] Error: no number\n"));
    assert!(rt; refused(&rt, "300").starts_with("[03] Error: more than 255\n"));
    assert_rows(&rt, refused(&rt, "12a4").as_str(), &ROWS)
}
