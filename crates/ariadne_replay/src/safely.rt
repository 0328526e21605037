//! Draws the report of a case safely: over texts that can be shown.

use crate::making::{config_of, kind_of, label_of, line_offset, text_in};
use crate::members::{list, text, text_of, word};
use crate::offsets::Placed;
use crate::sending::{Answer, answer_to};
use ariadne::ReportKind;
use ariadne_safe::{
    LineEnds, SafeBuilder, SafeKind, SafeReport, SafeSource, SafeSources, TextKind, visible,
};
use std::alloc::{AllocError, Global};
use toml::Value;

static LINE_ENDS: [(&str, LineEnds); 2] = [
    ("All", LineEnds::All),
    ("LineFeeds", LineEnds::LineFeeds),
];

/// A text of a case as a source.
fn source_of(
    alloc: Global,
    text: &str,
    told: &Value,
    lines: LineEnds,
) -> Result<SafeSource, AllocError> {
    let source = SafeSource::new(alloc, text, lines)?;
    let offset = line_offset(told, source.source().lines().len());
    Ok(source.with_display_line_offset(offset))
}

/// A source of several. One whose name is hidden has none.
fn named_source(
    alloc: Global,
    case: &Value,
    told: &Value,
    lines: LineEnds,
) -> Result<SafeSource, AllocError> {
    let source = source_of(alloc, text_in(told), told, lines)?;
    match text(told, "id") {
        Some(id) if text(case, "hidden") != Some(id) => source.with_name(id),
        _ => Ok(source),
    }
}

/// The sources of a case, in their order.
fn sources_of(alloc: Global, case: &Value, lines: LineEnds) -> Result<SafeSources, AllocError> {
    let mut sources = SafeSources::new(alloc);
    if let Some(only) = text(case, "source") {
        sources.add(source_of(alloc, only, case, lines)?)?;
    }
    for told in list(case, "sources") {
        sources.add(named_source(alloc, case, told, lines)?)?;
    }
    Ok(sources)
}

/// A report with the code of its case.
fn coded<'r>(builder: SafeBuilder<'r>, case: &Value) -> Result<SafeBuilder<'r>, AllocError> {
    match text(case, "code") {
        Some(code) => builder.with_code_text(code),
        None => Ok(builder),
    }
}

/// A report with the message of its case.
fn headed<'r>(builder: SafeBuilder<'r>, case: &Value) -> Result<SafeBuilder<'r>, AllocError> {
    match text(case, "message") {
        Some(message) => builder.with_message(message),
        None => Ok(builder),
    }
}

/// A report with the helps of its case.
fn helped<'r>(builder: SafeBuilder<'r>, case: &Value) -> Result<SafeBuilder<'r>, AllocError> {
    let mut builder = builder;
    for help in list(case, "helps") {
        builder = builder.with_help(text_of(help))?;
    }
    Ok(builder)
}

/// A report with the notes of its case.
fn noted<'r>(builder: SafeBuilder<'r>, case: &Value) -> Result<SafeBuilder<'r>, AllocError> {
    let mut builder = builder;
    for note in list(case, "notes") {
        builder = builder.with_note(text_of(note))?;
    }
    Ok(builder)
}

/// A report with the labels of its case.
fn labelled<'r>(
    alloc: Global,
    builder: SafeBuilder<'r>,
    case: &Value,
) -> Result<SafeBuilder<'r>, AllocError> {
    let mut builder = builder;
    for told in list(case, "labels") {
        builder = builder.with_label(label_of(alloc, case, told)?)?;
    }
    Ok(builder)
}

/// What is drawn of a report.
fn sent(alloc: Global, report: SafeReport<'_>) -> Result<Answer, AllocError> {
    let mut out = Vec::new(alloc);
    let told = report.write(&mut out);
    answer_to(alloc, out, told)
}

/// What is drawn of a report of a kind over sources.
fn answer_over(
    alloc: Global,
    case: &Value,
    sources: &SafeSources,
    kind: SafeKind<'_>,
) -> Result<Answer, AllocError> {
    let place = Placed::placed(alloc, case, case)?;
    let builder = SafeBuilder::new(alloc, sources, kind, place, config_of(case));
    let builder = labelled(alloc, headed(coded(builder, case)?, case)?, case)?;
    sent(alloc, noted(helped(builder, case)?, case)?.finish())
}

/// A kind under another name, if it has a name of its own.
fn renamed<'n>(kind: ReportKind<'n>, name: &'n str) -> ReportKind<'n> {
    match kind {
        ReportKind::Custom(_, color) => ReportKind::Custom(name, color),
        named => named,
    }
}

/// What is drawn safely of a case's report. The member says what ends a line of its sources.
pub fn answer_safely(alloc: Global, case: &Value) -> Result<Answer, AllocError> {
    let sources = sources_of(alloc, case, word(case, "safe", &LINE_ENDS, LineEnds::All))?;
    let kind = kind_of(case);
    let name = visible(alloc, kind.name(), TextKind::OneRow)?;
    let kind = SafeKind::new(renamed(kind, name.as_str())).unwrap_or(SafeKind::error());
    answer_over(alloc, case, &sources, kind)
}
