//! The greatest numbers.

use crate::asserts::{Mismatch, Why, assert_bytes_over, plain, plain_error, source_of};
use ariadne::{Config, Label, Report, ReportKind, Source, WriteError};
use std::alloc::{AllocError, Global};
use std::ops::RangeInclusive;
use std::process::Abort;

/// A report that points at all offsets, and so does its label.
fn greatest(alloc: Global) -> Result<Report<'static, RangeInclusive<usize>>, AllocError> {
    let builder = Report::build(alloc, ReportKind::Error, 0..=usize::MAX).with_config(plain());
    let builder = builder.with_label(Label::new(0..=usize::MAX))?;
    Ok(builder.finish())
}

#[test]
fn a_span_up_to_the_greatest_offset_is_past_its_source(rt: HostRuntime) -> Result<(), Mismatch> {
    let report = greatest(rt.alloc())?;
    let mut source = source_of(rt.alloc(), "ab")?;
    let left_out = [(0, Why::PastSource)];
    assert_bytes_over(&rt, &report, &mut source, &left_out, &["Error: "])
}

/// A report with this configuration, and the greatest tab.
fn tabbed(alloc: Global, config: Config) -> Result<Report<'static>, AllocError> {
    let label = Label::new(1..2).with_message(alloc, "m")?;
    let builder = plain_error(alloc).with_config(config.with_tab_width(usize::MAX));
    Ok(builder.with_label(label)?.finish())
}

/// Whether there is no memory for the picture of a report over a source, of which nothing is sent.
fn lacks_memory(alloc: Global, report: &Report<'_>, source: &mut Source<String>) -> bool {
    let mut out = Vec::new(alloc);
    let answer = report.write(source, &mut out);
    matches!(answer, Err(WriteError::Memory(_))) && out.is_empty()
}

/// Asserts that there is none for the greatest tab.
fn assert_no_memory(rt: &(impl Abort + AllocGlobal), config: Config) {
    let report = tabbed(rt.alloc(), config).expect(rt, "memory");
    let mut source = source_of(rt.alloc(), "\tx").expect(rt, "memory");
    assert!(rt; lacks_memory(rt.alloc(), &report, &mut source))
}

#[test]
fn the_greatest_tab_is_want_of_memory(rt: HostRuntime) {
    assert_no_memory(&rt, plain());
    assert_no_memory(&rt, plain().with_compact(true));
    assert_no_memory(&rt, Config::new())
}
