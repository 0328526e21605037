//! The reports of the workloads over sources that have names.

use crate::order::Named;
use crate::pictures::plain;
use crate::texts::push_line;
use ariadne::{Label, Report, ReportBuilder, ReportKind, SourceMap, sources};
use std::alloc::{AllocError, Global};
use std::ops::Range;

/// A place in a source that has a name.
type Place = (String, Range<usize>);

/// The name of a label's source.
fn name_of(alloc: Global, named: Named, number: u16) -> Result<String, AllocError> {
    match named {
        Named::Each => format!(in alloc; "name{number}"),
        Named::Long => "n".repeat(alloc, 10_000),
        Named::Alternate => String::from_str(alloc, if number % 2 == 0 { "aa" } else { "bb" }),
    }
}

/// The message of a label.
fn message_of(alloc: Global, named: Named, number: u16) -> Result<String, AllocError> {
    match named {
        Named::Each => format!(in alloc; "source {number}"),
        Named::Long | Named::Alternate => format!(in alloc; "m{number}"),
    }
}

/// The message of the report.
fn title_of(named: Named) -> &'static str {
    match named {
        Named::Each => "sources",
        Named::Long => "longid",
        Named::Alternate => "altsrc",
    }
}

/// How many sources a report with so many labels has.
fn count_of(named: Named, labels: u16) -> u16 {
    match named {
        Named::Each => labels,
        Named::Long => 1,
        Named::Alternate => 2,
    }
}

/// The label of a number.
fn label_of(alloc: Global, named: Named, number: u16) -> Result<Label<Place>, AllocError> {
    let message = message_of(alloc, named, number)?;
    let label = Label::new((name_of(alloc, named, number)?, 14..19));
    label.with_message(alloc, message.as_str())
}

/// Adds so many labels to a report.
fn add_labels(
    alloc: Global,
    report: &mut ReportBuilder<'_, Place>,
    named: Named,
    labels: u16,
) -> Result<(), AllocError> {
    for number in 0..labels {
        report.add_label(label_of(alloc, named, number)?)?;
    }
    Ok(())
}

/// A report with so many labels. Its own span is that of the first one.
pub fn report(
    alloc: Global,
    named: Named,
    labels: u16,
) -> Result<Report<'static, Place>, AllocError> {
    let span = (name_of(alloc, named, 0)?, 14..19);
    let mut report = Report::build(alloc, ReportKind::Error, span)
        .with_config(plain())
        .with_message(title_of(named))?;
    add_labels(alloc, &mut report, named, labels).and(Ok(report.finish()))
}

/// The sources of such a report: each has the line of its number.
pub fn texts(
    alloc: Global,
    named: Named,
    labels: u16,
) -> Result<SourceMap<String, String>, AllocError> {
    let mut texts = Vec::new(alloc);
    for number in 0..count_of(named, labels) {
        texts.push((name_of(alloc, named, number)?, line(alloc, number)?))?;
    }
    sources(alloc, texts)
}

/// The line of a number.
fn line(alloc: Global, number: u16) -> Result<String, AllocError> {
    let mut text = String::new(alloc);
    push_line(&mut text, u32::from(number))?;
    Ok(text)
}
