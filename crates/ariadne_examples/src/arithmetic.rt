//! A parser that runs out of input. Copy `report`: a label may stand at the end of the text, since
//! an end one past the source is taken as its end. The parser ends since each call reads on, or is
//! of a word further down; `proofs/arithmetic` has the measure that says so.

ghost use Rattle.std.specs.Prelude.{◌≤◌, ◌<◌, IfOk, length};

use crate::pictures::{assert_rows, picture_over, plain};
use ariadne::{Label, Report, ReportBuilder, ReportKind};
use std::alloc::{AllocError, Global};
use std::process::Abort;

/// Where a sum stops, and which bracket is open there. Offsets count characters from 0.
#[derive(Clone, Copy)]
struct Fault {
    at: usize,
    opened: Option<usize>,
}

/// The value of the sum at an offset, which wraps, and the offset behind the sum.
#[cycle(parse)]
fn sum(text: &[char], start: usize) -> Result<(u64, usize), Fault>
    ensures { IfOk result (λ read. (start < read.1) × (read.1 ≤ length text.now)) }
{
    let (mut value, mut at) = product(text, start)?;
    'terms: while at < text.len() && text[at] == '+' {
        let (term, end) = product(text, at + 1)?;
        value = value.wrapping_add(term);
        at = end;
    }
    Ok((value, at))
}

#[cycle(parse)]
fn product(text: &[char], start: usize) -> Result<(u64, usize), Fault>
    ensures { IfOk result (λ read. (start < read.1) × (read.1 ≤ length text.now)) }
{
    let (mut value, mut at) = factor(text, start)?;
    'factors: while at < text.len() && text[at] == '*' {
        let (term, end) = factor(text, at + 1)?;
        value = value.wrapping_mul(term);
        at = end;
    }
    Ok((value, at))
}

/// The same of a digit, or of a sum in brackets.
#[cycle(parse)]
fn factor(text: &[char], at: usize) -> Result<(u64, usize), Fault>
    ensures { IfOk result (λ read. (at < read.1) × (read.1 ≤ length text.now)) }
{
    if at < text.len() && text[at] == '(' {
        let (value, end) = sum(text, at + 1)?;
        if end < text.len() && text[end] == ')' {
            return Ok((value, end + 1));
        }
        let opened = Some(at);
        return Err(Fault { at: end, opened });
    }
    match text.get(at).and_then(|c| c.to_digit(10)) {
        Some(digit) => Ok((u64::from(digit), at + 1)),
        None => Err(Fault { at, opened: None }),
    }
}

/// The report of a fault, with a label where a bracket was opened.
fn report(alloc: Global, Fault { at, opened }: Fault) -> Result<Report<'static>, AllocError> {
    let stop = label(alloc, at, "sum stops here")?;
    let builder = Report::build(alloc, ReportKind::Error, at..at)
        .with_config(plain())
        .with_label(stop)?;
    let report = match opened {
        Some(at) => with_bracket(alloc, builder, at)?,
        None => builder.with_message("expected a digit or `(`")?,
    };
    Ok(report.finish())
}

/// A label at an offset.
fn label(alloc: Global, at: usize, text: &str) -> Result<Label, AllocError> {
    Label::new(at..at.saturating_add(1)).with_message(alloc, text)
}

/// The report of a bracket that was opened at an offset.
fn with_bracket(
    alloc: Global,
    builder: ReportBuilder<'static>,
    at: usize,
) -> Result<ReportBuilder<'static>, AllocError> {
    let bracket = label(alloc, at, "opened here")?;
    builder
        .with_label(bracket)?
        .with_message("unclosed bracket")
}

/// The picture of the report.
static ROWS: [&str; 9] = [
    "Error: unclosed bracket",
    "   ,-[ <unknown>:1:7 ]",
    "   |",
    " 1 | 2*(3+4",
    "   |   |   |",
    "   |   `----- opened here",
    "   |       |",
    "   |       `- sum stops here",
    "---'",
];

/// The value of the sum that a text begins with, and the offset behind it.
fn sum_of(rt: &(impl Abort + AllocGlobal), text: &str) -> Result<(u64, usize), Fault> {
    let text: Vec<char> = text.chars().collect(rt.alloc()).expect(rt, "memory");
    sum(&text, 0)
}

#[test]
fn a_bracket_is_not_closed(rt: HostRuntime) {
    assert_eq!(rt; sum_of(&rt, "2*(3+4)").ok(), Some((14, 7)));
    let fault = sum_of(&rt, "2*(3+4").expect_err(&rt, "a bracket that is open");
    let picture = picture_over(&rt, report(rt.alloc(), fault), "2*(3+4");
    assert_rows(&rt, picture.as_str(), &ROWS)
}
