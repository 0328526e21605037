//! A line of many labels, and one that is cut, when memory is refused: each request in turn, until
//! the call meets no refusal.

use crate::asserts::{assert_trimmed, plain, plain_error, source_of};
use crate::comparing::assert_same;
use crate::refused::{MOST_REQUESTS, assert_refused, refuse_at};
use crate::refused_pictures::assert_answer;
use ariadne::{Label, Report, ReportBuilder, Source};
use std::alloc::{AllocError, Global};
use std::process::Abort;

/// Labels that say nothing: so many on a character that its stretches are found by halves of them.
const SILENT: usize = 300;

/// The picture of these and one that says `m`.
const ROWS: &[&str] = &[
    "Error:",
    "   ,-[ <unknown>:1:1 ]",
    "   |",
    " 1 | ab",
    "   | |",
    "   | `-- m",
    "---'",
];

/// A line, and how many columns of it are shown.
const LONG: (&str, usize) = ("abcdefghijklmnop", 9);

/// The picture of it, with a label on its last character.
const CUT_ROWS: &[&str] = &[
    "Error:",
    "   ,-[ <unknown>:1:1 ]",
    "   |",
    " 1 | ...klmnop",
    "   |         |",
    "   |         `-- p",
    "---'",
];

/// Adds the labels that say nothing.
fn add_silent(builder: &mut ReportBuilder<'_>) -> Result<(), AllocError> {
    for _ in 0..SILENT {
        builder.add_label(Label::new(0..1))?;
    }
    Ok(())
}

/// The report with all these labels.
fn crowded(alloc: Global) -> Result<Report<'static>, AllocError> {
    let label = Label::new(0..1).with_message(alloc, "m")?;
    let mut builder = plain_error(alloc).with_label(label)?;
    add_silent(&mut builder).and(Ok(builder.finish()))
}

/// The report over the line that is cut.
fn cut(alloc: Global) -> Result<Report<'static>, AllocError> {
    let label = Label::new(15..16).with_message(alloc, "p")?;
    let config = plain().with_width(LONG.1);
    let builder = plain_error(alloc).with_config(config);
    Ok(builder.with_label(label)?.finish())
}

/// Asserts that nothing was sent of a picture that was refused, and else these rows.
fn assert_sent(rt: &(impl Abort + AllocGlobal), out: &[u8], rows: &[&str], is_refused: bool) {
    let picture = std::str::from_utf8(out).expect(rt, "text");
    if is_refused {
        assert_same(rt, &picture, &"");
    } else {
        assert_trimmed(rt, picture, rows).expect(rt, "the picture")
    }
}

/// Refuses the nth request of writing a report with these rows, of which a refusal sends nothing.
fn try_write(
    rt: &(impl Abort + AllocGlobal),
    report: &Report<'_>,
    source: &mut Source,
    rows: &[&str],
    nth: u16,
) -> bool {
    let mut out = Vec::with_capacity(rt.alloc(), 1_000).expect(rt, "memory");
    refuse_at(rt, nth);
    let answer = report.write(source, &mut out);
    let is_refused = assert_refused(rt, ("a line", nth), answer.is_err());
    assert_answer(rt, answer, &[]);
    assert_sent(rt, out.as_slice(), rows, is_refused);
    is_refused
}

/// Refuses each request in turn of writing a report over a source.
fn try_writes(
    rt: &(impl Abort + AllocGlobal),
    report: &Report<'_>,
    source: &mut Source,
    rows: &[&str],
) {
    for nth in 1..MOST_REQUESTS {
        if !try_write(rt, report, source, rows, nth) {
            return;
        }
    }
    panic!(rt; "every request was refused")
}

/// Refuses each request in turn of writing a report over a text, which has these rows.
fn try_report(
    rt: &(impl Abort + AllocGlobal),
    made: Result<Report<'_>, AllocError>,
    text: &str,
    rows: &[&str],
) {
    let mut source = source_of(rt.alloc(), text).expect(rt, "memory");
    let report = made.expect(rt, "memory");
    try_writes(rt, &report, &mut source, rows)
}

#[test]
fn a_refused_line_of_many_labels_sends_nothing(rt: HostRuntime) {
    try_report(&rt, crowded(rt.alloc()), "ab", ROWS)
}

#[test]
fn a_refused_line_that_is_cut_sends_nothing(rt: HostRuntime) {
    try_report(&rt, cut(rt.alloc()), LONG.0, CUT_ROWS)
}
