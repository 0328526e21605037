//! A report as one line, `NAME:LINE:COLUMN: KIND[CODE]: MESSAGE`, as editors and build tools read it.
//! Copy `one_line`: it is made of what a report says of itself, as JSON or SARIF can be.

use ariadne::{Label, Report, ReportKind, Source, SourceText, Span};
use std::alloc::{AllocError, Global};
use std::process::Abort;

/// The line of a report that points into a source of this name. Lines and columns count from 1; both
/// are 0 where it points past the source.
fn one_line<S: Span, I: SourceText>(
    alloc: Global,
    report: &Report<'_, S>,
    name: &str,
    source: &Source<I>,
) -> Result<String, AllocError> {
    let (line, column) = match source.get_offset_line(report.span().start()) {
        Some((_, line, column)) => (line.saturating_add(1), column.saturating_add(1)),
        None => (0, 0),
    };
    let kind = report.kind();
    let message = report.message().unwrap_or("");
    match report.code() {
        Some(code) => format!(in alloc; "{name}:{line}:{column}: {kind}[{code}]: {message}"),
        None => format!(in alloc; "{name}:{line}:{column}: {kind}: {message}"),
    }
}

/// A report with a code, over `let pie = aple + 1;`.
fn unknown(alloc: Global) -> Result<Report<'static>, AllocError> {
    let label = Label::new(10..14).with_message(alloc, "no such name")?;
    let report = Report::build(alloc, ReportKind::Error, 10..14)
        .with_code(3)?
        .with_message("unknown name")?
        .with_label(label)?;
    Ok(report.finish())
}

/// A report without a code, over the same text.
fn unused(alloc: Global) -> Result<Report<'static>, AllocError> {
    let report = Report::build(alloc, ReportKind::Warning, 4..7).with_message("unused name")?;
    Ok(report.finish())
}

/// Asserts that a report over the text has this line.
fn assert_line(
    rt: &(impl Abort + AllocGlobal),
    report: Result<Report<'_>, AllocError>,
    want: &str,
) {
    let report = report.expect(rt, "memory");
    let source = Source::from(rt.alloc(), "let pie = aple + 1;").expect(rt, "memory");
    let line = one_line(rt.alloc(), &report, "pie.txt", &source).expect(rt, "memory");
    assert_eq!(rt; line.as_str(), want)
}

#[test]
fn a_report_is_one_line(rt: HostRuntime) {
    assert_line(
        &rt,
        unknown(rt.alloc()),
        "pie.txt:1:11: Error[03]: unknown name",
    );
    assert_line(&rt, unused(rt.alloc()), "pie.txt:1:5: Warning: unused name")
}
