//! What a report and its labels say of themselves.

use crate::comparing::{assert_is, assert_same, assert_text};
use ariadne::{Color, Config, IndexType, Label, LabelAttach, Report, ReportBuilder, ReportKind};
use std::alloc::{AllocError, Global};
use std::process::Abort;

/// A label with all that a label may have.
fn full(alloc: Global) -> Result<Label, AllocError> {
    let label = Label::new(1..3).with_message(alloc, "here")?;
    Ok(
        label
            .with_color(Color::Blue)
            .with_order(-4)
            .with_priority(5),
    )
}

/// A report in the making with all that stands above its labels.
fn headed(alloc: Global) -> Result<ReportBuilder<'static>, AllocError> {
    Report::build(alloc, ReportKind::Custom("Hint", Color::Red), 2..2)
        .with_config(Config::new().with_index_type(IndexType::Byte))
        .with_code(7)?
        .with_message("odd")
}

/// Adds what stands below its head.
fn add_rest(alloc: Global, builder: &mut ReportBuilder<'_>) -> Result<(), AllocError> {
    builder.add_label(full(alloc)?)?;
    builder.add_note("see there")?;
    builder.add_help("turn it")
}

/// A report with all that a report may have.
fn report(alloc: Global) -> Result<Report<'static>, AllocError> {
    let mut builder = headed(alloc)?;
    add_rest(alloc, &mut builder).and(Ok(builder.finish()))
}

/// Asserts what the label with all that a label may have says of itself.
fn assert_full(rt: &impl Abort, label: &Label) {
    assert_same(rt, label.span(), &(1..3));
    assert_is(rt, label.message(), Some("here"));
    assert_is(rt, label.color(), Some(Color::Blue));
    assert_is(rt, (label.order(), label.priority()), (-4, 5))
}

#[test]
fn a_label_tells_what_it_was_made_of(rt: HostRuntime) {
    let label = full(rt.alloc()).expect(&rt, "memory");
    assert_full(&rt, &label);
    let new = Label::new(1..3);
    assert_is(&rt, (new.order(), new.priority()), (0, 0))
}

/// Asserts that a list has one text, and this one.
fn assert_only(rt: &impl Abort, texts: &[String], wanted: &str) {
    assert!(rt; texts.len() == 1 && texts[0].as_str() == wanted)
}

/// Asserts what the report says of itself.
fn assert_head(rt: &impl Abort, report: &Report<'_>) {
    assert_is(rt, report.kind(), ReportKind::Custom("Hint", Color::Red));
    assert_is(rt, report.code(), Some("07"));
    assert_is(rt, report.message(), Some("odd"));
    assert_same(rt, report.span(), &(2..2));
    assert_is(rt, report.config().index_type(), IndexType::Byte)
}

/// Asserts that a list has one label, and the one with all that a label may have.
fn assert_only_label(rt: &(impl Abort + AllocGlobal), labels: &[Label]) {
    let label = full(rt.alloc()).expect(rt, "memory");
    assert_is(rt, labels.len() == 1 && labels[0] == label, true)
}

#[test]
fn a_report_tells_what_it_was_made_of(rt: HostRuntime) {
    let report = report(rt.alloc()).expect(&rt, "memory");
    assert_head(&rt, &report);
    assert_only(&rt, report.notes(), "see there");
    assert_only(&rt, report.helps(), "turn it");
    assert_only_label(&rt, report.labels())
}

/// Kinds, each with its name and its colour.
const KINDS: &[(ReportKind<'static>, &str, Color)] = &[
    (ReportKind::Error, "Error", Color::Red),
    (ReportKind::Warning, "Warning", Color::Yellow),
    (ReportKind::Advice, "Advice", Color::Fixed(147)),
    (ReportKind::Custom("Hint", Color::Blue), "Hint", Color::Blue),
    (ReportKind::Custom("", Color::Primary), "", Color::Primary),
];

#[test]
fn a_kind_tells_its_name_and_its_color(rt: HostRuntime) {
    for (kind, name, color) in KINDS {
        assert_is(&rt, (kind.name(), kind.color()), (*name, *color))
    }
}

#[test]
fn kinds_are_shown_by_their_names(rt: HostRuntime) {
    for (kind, name, _) in KINDS {
        assert_text(&rt, kind.to_string(rt.alloc()), *name);
        assert_same(&rt, kind, kind);
    }
    let hint = ReportKind::Custom("Hint", Color::Blue);
    let is_red = hint == ReportKind::Custom("Hint", Color::Red);
    let is_error = ReportKind::Custom("Error", Color::Red) == ReportKind::Error;
    assert_is(&rt, (is_red, is_error), (false, false))
}

#[test]
fn a_configuration_tells_what_was_set(rt: HostRuntime) {
    let config = Config::new();
    let told = (config.label_attach(), config.is_colored());
    assert_is(&rt, told, (LabelAttach::Middle, true));
    let config = config.with_label_attach(LabelAttach::End).with_color(false);
    let told = (config.label_attach(), config.is_colored());
    assert_is(&rt, told, (LabelAttach::End, false))
}

/// The report as `Debug` shows it.
fn debug_text(alloc: Global) -> Result<String, AllocError> {
    let report = report(alloc)?;
    format!(in alloc; "{report:?}")
}

/// What the report is made of.
const SAID: &[&str] = &["Hint", "07", "odd", "here", "see there", "turn it"];

#[test]
fn a_debug_text_has_what_the_report_says(rt: HostRuntime) {
    let text = debug_text(rt.alloc()).expect(&rt, "memory");
    for said in SAID {
        assert_is(&rt, (*said, text.contains(*said)), (*said, true))
    }
}
