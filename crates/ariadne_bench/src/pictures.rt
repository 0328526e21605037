//! The reports of the workloads, and their writing.

ghost use Rattle.std.specs.Prelude.{◌≤◌};

use crate::job::{Job, Mark};
use ariadne::{
    Cache, CharSet, Color, Config, IndexType, Label, Report, ReportBuilder, ReportKind, Source,
    Span,
};
use ariadne_safe::{LineEnds, SafeBuilder, SafeKind, SafeReport, SafeSource, SafeSources};
use std::alloc::{AllocError, Global};
use std::io;
use std::ops::Range;

/// The first of the 200 colours that labels have in turn.
const FIRST_COLOR: u8 = 17;

/// The span of a mark.
fn span_of(mark: &Mark) -> Range<usize>
    ensures { result.start ≤ result.end }
{
    mark.start..mark.end.max(mark.start)
}

/// The label of a mark.
fn label_of(alloc: Global, mark: &Mark) -> Result<Label, AllocError> {
    let label = Label::new(span_of(mark));
    match &mark.message {
        Some(message) => label.with_message(alloc, message.as_str()),
        None => Ok(label),
    }
}

/// A label in the colour of its number.
fn colored(label: Label, number: usize) -> Label {
    label.with_color(Color::Fixed(FIRST_COLOR + (number % 200) as u8))
}

/// Without colours, and with ASCII alone.
pub fn plain() -> Config {
    Config::new()
        .with_color(false)
        .with_char_set(CharSet::Ascii)
}

/// How a job is drawn.
fn config_of(job: &Job) -> Config {
    let config = if job.is_colored {
        Config::new()
    } else {
        plain()
    };
    let index_type = if job.in_bytes {
        IndexType::Byte
    } else {
        IndexType::Char
    };
    config
        .with_index_type(index_type)
        .with_context_lines(job.context_lines)
        .with_width(job.width)
}

/// The report of a job. Its own span is that of its first label.
pub fn report_of(alloc: Global, job: &Job) -> Result<Report<'static>, AllocError> {
    let span = job.marks.first().map_or(0..0, span_of);
    let mut report = Report::build(alloc, ReportKind::Error, span)
        .with_config(config_of(job))
        .with_message(job.message)?;
    add_labels(alloc, &mut report, job).and(Ok(report.finish()))
}

/// The report of a job, and its source.
pub fn report_and_source(
    alloc: Global,
    job: Job,
) -> Result<(Report<'static>, Source<String>), AllocError> {
    let report = report_of(alloc, &job)?;
    Ok((report, Source::from(alloc, job.text)?))
}

/// Adds the labels of a job to a report.
fn add_labels(alloc: Global, report: &mut ReportBuilder<'_>, job: &Job) -> Result<(), AllocError> {
    for (number, mark) in job.marks.iter().enumerate() {
        let label = label_of(alloc, mark)?;
        report.add_label(if job.is_colored {
            colored(label, number)
        } else {
            label
        })?;
    }
    Ok(())
}

/// One safe source.
pub fn safe_sources(alloc: Global, text: &str) -> Result<SafeSources, AllocError> {
    let mut sources = SafeSources::new(alloc);
    sources.add(SafeSource::new(alloc, text, LineEnds::All)?)?;
    Ok(sources)
}

/// The safe report of a job that has no colours, over the first of these sources.
pub fn safe_report_of<'s>(
    alloc: Global,
    job: &Job,
    sources: &'s SafeSources,
) -> Result<SafeReport<'s>, AllocError> {
    let place = (0, job.marks.first().map_or(0..0, span_of));
    let mut report = SafeBuilder::new(
        alloc,
        sources,
        SafeKind::error(),
        place,
        config_of(job),
    ).with_message(job.message)?;
    for mark in job.marks.iter() {
        let label = safe_label_of(alloc, mark)?;
        report = report.with_label(label)?;
    }
    Ok(report.finish())
}

/// The label of a mark in the first source.
fn safe_label_of(alloc: Global, mark: &Mark) -> Result<Label<(usize, Range<usize>)>, AllocError> {
    let label = Label::new((0, span_of(mark)));
    match &mark.message {
        Some(message) => label.with_message(alloc, message.as_str()),
        None => Ok(label),
    }
}

/// Writes a report `rounds` times, each time into the same room.
pub fn draw<S: Span, C: Cache<S::SourceId>>(
    report: &Report<'_, S>,
    cache: &mut C,
    rounds: u32,
    out: &mut Vec<u8>,
) -> io::Result<()>
    requires { C.can_fetch cache.old }
{
    for _ in 0..rounds {
        out.clear();
        report.write(cache, out)?;
    }
    Ok(())
}

/// Writes a safe report `rounds` times, each time into the same room.
pub fn draw_safely(report: &SafeReport<'_>, rounds: u32, out: &mut Vec<u8>) -> io::Result<()> {
    for _ in 0..rounds {
        out.clear();
        report.write(out)?;
    }
    Ok(())
}
