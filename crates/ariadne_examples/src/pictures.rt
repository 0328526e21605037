//! Pictures in tests: ASCII without colours, the picture as a text, and its rows compared without
//! the blanks at their ends. Copy `plain`, `picture_of`, `picture_over` and `assert_rows`, which the
//! other examples use too.

use ariadne::{Cache, CharSet, Config, Label, Report, ReportKind, Source, Span};
use std::alloc::{AllocError, Global};
use std::process::Abort;

/// ASCII strokes, and no colours. A text that is painted by `fg` keeps its own.
pub(crate) fn plain() -> Config {
    Config::new()
        .with_char_set(CharSet::Ascii)
        .with_color(false)
}

/// The picture that a report writes over a cache. No label may be left out.
pub(crate) fn picture_of<S: Span + Drop, C: Cache<S::SourceId>>(
    rt: &(impl Abort + AllocGlobal),
    report: Result<Report<'_, S>, AllocError>,
    cache: &mut C,
) -> String
    requires { C.can_fetch cache.old }
{
    let mut out = Vec::new(rt.alloc());
    let report = report.expect(rt, "memory");
    let left_out = report.write(cache, &mut out).expect(rt, "a picture");
    assert!(rt; left_out.is_empty());
    String::from_utf8(out).expect(rt, "text")
}

/// The picture that a report writes over a text. No label may be left out.
pub(crate) fn picture_over<S: Span<SourceId = ()> + Drop>(
    rt: &(impl Abort + AllocGlobal),
    report: Result<Report<'_, S>, AllocError>,
    text: &str,
) -> String {
    let mut source = Source::from(rt.alloc(), text).expect(rt, "memory");
    picture_of(rt, report, &mut source)
}

/// The rows of a picture without the blanks at their ends.
fn rows_of(alloc: Global, picture: &str) -> Result<Vec<&str>, AllocError> {
    picture
        .split_terminator('\n')
        .map(|row| row.trim_end_matches(' '))
        .collect(alloc)
}

/// Asserts that a picture has these rows, but for the blanks at their ends.
pub(crate) fn assert_rows(rt: &(impl Abort + AllocGlobal), picture: &str, rows: &[&str]) {
    let found = rows_of(rt.alloc(), picture).expect(rt, "memory");
    assert_eq!(rt; found.as_slice(), rows)
}

/// A warning over a list of more than one line.
fn report(alloc: Global) -> Result<Report<'static>, AllocError> {
    let list = Label::new(10..34).with_message(alloc, "this list is not sorted")?;
    let report = Report::build(alloc, ReportKind::Warning, 10..34)
        .with_config(plain())
        .with_label(list)?;
    Ok(report.finish())
}

/// The picture of the report.
static ROWS: [&str; 9] = [
    "Warning:",
    "   ,-[ <unknown>:1:11 ]",
    "   |",
    " 1 | ,-> let pie = [",
    "   : :",
    " 4 | |-> ];",
    "   | |",
    "   | `------- this list is not sorted",
    "---'",
];

#[test]
fn a_picture_is_compared_by_its_rows(rt: HostRuntime) {
    let text = "let pie = [\n    pear,\n    apple,\n];";
    let picture = picture_over(&rt, report(rt.alloc()), text);
    assert_rows(&rt, picture.as_str(), &ROWS)
}
