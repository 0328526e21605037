//! The report and the sources of a case, made with the public calls.

ghost use Rattle.std.specs.Prelude.{◌+◌, ◌<◌, ◌≤◌, ◌^◌};

use crate::colors::color_of;
use crate::members::{color, count, list, number, text, text_of, word};
use crate::offsets::Placed;
use crate::suggesting::add_suggestion;
use ariadne::{
    CharSet, Config, Fmt, IndexType, Label, LabelAttach, Report, ReportBuilder, ReportKind, Source,
    Span,
};
use std::alloc::{AllocError, Global};
use toml::Value;

/// The kinds that have a colour of their own.
const KINDS: [(&str, ReportKind<'static>); 3] = [
    ("Error", ReportKind::Error),
    ("Warning", ReportKind::Warning),
    ("Advice", ReportKind::Advice),
];

/// The kind of a case's report.
pub fn kind_of(case: &Value) -> ReportKind<'_> {
    match color(case, "kind_color") {
        Some(color) => ReportKind::Custom(text(case, "kind").unwrap_or("Error"), color),
        None => word(case, "kind", &KINDS, ReportKind::Error),
    }
}

/// Where the arrows of a picture are attached.
static LABEL_ATTACHES: [(&str, LabelAttach); 3] = [
    ("Start", LabelAttach::Start),
    ("Middle", LabelAttach::Middle),
    ("End", LabelAttach::End),
];

/// What the strokes of a picture are drawn with.
static CHAR_SETS: [(&str, CharSet); 2] = [("Unicode", CharSet::Unicode), ("Ascii", CharSet::Ascii)];

/// What the offsets of a case count.
static INDEX_TYPES: [(&str, IndexType); 2] = [("Byte", IndexType::Byte), ("Char", IndexType::Char)];

/// How many columns stand from one tab stop to the next.
pub fn tab_width_of(case: &Value) -> usize
    ensures { 1 ≤ result }
{
    let told = case.get("settings").unwrap_or(case);
    let tab_width = count(told, "tab_width").unwrap_or(4) as usize;
    tab_width.max(1)
}

/// Settings with a member of a case, if a switch has its name.
fn with_member(config: Config, name: &str, value: &Value) -> Config {
    match value.as_bool() {
        Some(is_on) => config.with_switch(name, is_on).unwrap_or(config),
        None => config,
    }
}

/// The switches of a case. It is plain where it tells nothing else, and has the other defaults.
fn switched(told: &Value) -> Config {
    let mut config = Config::new().with_color(false);
    if let Some(members) = told.as_table() {
        for (name, value) in members {
            config = with_member(config, name, value);
        }
    }
    config
}

/// The settings of a case that are numbers, and its switches.
fn numbered_settings(told: &Value) -> Config {
    let context_lines = count(told, "context_lines").unwrap_or(0) as usize;
    let width = count(told, "width").unwrap_or(0) as usize;
    let tab_width = count(told, "tab_width").unwrap_or(4) as usize;
    switched(told)
        .with_context_lines(context_lines)
        .with_width(width)
        .with_tab_width(tab_width.max(1))
}

/// The settings of a case. Where it tells nothing else they are in ASCII. (A case has no members of
/// the names of settings.)
pub fn config_of(case: &Value) -> Config {
    let told = case.get("settings").unwrap_or(case);
    let middle = LabelAttach::Middle;
    numbered_settings(told)
        .with_label_attach(word(told, "label_attach", &LABEL_ATTACHES, middle))
        .with_char_set(word(told, "char_set", &CHAR_SETS, CharSet::Ascii))
        .with_index_type(word(told, "index_type", &INDEX_TYPES, IndexType::Char))
}

/// A label of a case.
pub fn label_of<S: Placed>(
    alloc: Global,
    case: &Value,
    told: &Value,
) -> Result<Label<S>, AllocError> {
    let label = Label::new(S::placed(alloc, case, told)?)
        .with_order(number(told, "order"))
        .with_priority(number(told, "priority"));
    let label = match color(told, "color") {
        Some(color) => label.with_color(color),
        None => label,
    };
    match text(told, "message") {
        Some(message) => label.with_message(alloc, message),
        None => Ok(label),
    }
}

/// A report with the code of its case that is a number.
fn numbered<'c, S: Placed>(
    builder: ReportBuilder<'c, S>,
    case: &Value,
) -> Result<ReportBuilder<'c, S>, AllocError> {
    match count(case, "number") {
        Some(number) => builder.with_code(number),
        None => Ok(builder),
    }
}

/// A report with the code of its case that is a text.
fn coded<'c, S: Placed>(
    builder: ReportBuilder<'c, S>,
    case: &Value,
) -> Result<ReportBuilder<'c, S>, AllocError> {
    match text(case, "code") {
        Some(code) => builder.with_code_text(code),
        None => Ok(builder),
    }
}

/// Sets the message of a case.
fn set_message<S: Span>(
    builder: &mut ReportBuilder<'_, S>,
    case: &Value,
) -> Result<(), AllocError> {
    match text(case, "message") {
        Some(message) => builder.set_message(message),
        None => Ok(()),
    }
}

/// Adds helps.
fn add_helps<S: Span>(
    builder: &mut ReportBuilder<'_, S>,
    helps: &[Value],
) -> Result<(), AllocError> {
    for help in helps {
        builder.add_help(text_of(help))?;
    }
    Ok(())
}

/// Adds notes.
fn add_notes<S: Span>(
    builder: &mut ReportBuilder<'_, S>,
    notes: &[Value],
) -> Result<(), AllocError> {
    for note in notes {
        builder.add_note(text_of(note))?;
    }
    Ok(())
}

/// Adds the labels of a case.
fn add_labels<S: Placed>(
    alloc: Global,
    builder: &mut ReportBuilder<'_, S>,
    case: &Value,
) -> Result<(), AllocError> {
    for told in list(case, "labels") {
        builder.add_label(label_of(alloc, case, told)?)?;
    }
    Ok(())
}

/// The name of a colour, in the colour and on it.
fn painted(alloc: Global, name: &str) -> Result<String, AllocError> {
    let color = color_of(name);
    format!(in alloc; "{} {}", name.fg(color), name.bg(color))
}

/// Adds a note for each colour that a case paints.
fn add_painted<S: Span>(
    alloc: Global,
    builder: &mut ReportBuilder<'_, S>,
    case: &Value,
) -> Result<(), AllocError> {
    for name in list(case, "painted") {
        let note = painted(alloc, text_of(name))?;
        builder.add_note(note.as_str())?;
    }
    Ok(())
}

/// Sets the message of a case, and adds its helps, its notes and its labels.
fn add_parts<S: Placed>(
    alloc: Global,
    builder: &mut ReportBuilder<'_, S>,
    case: &Value,
) -> Result<(), AllocError> {
    set_message(builder, case)?;
    add_helps(builder, list(case, "helps"))?;
    add_suggestion(alloc, builder, case)?;
    add_notes(builder, list(case, "notes"))?;
    add_labels(alloc, builder, case)?;
    add_painted(alloc, builder, case)
}

/// A report at the place of a case, with its kind, its settings and its code.
fn begun<S: Placed>(alloc: Global, case: &Value) -> Result<ReportBuilder<'_, S>, AllocError> {
    let place = S::placed(alloc, case, case)?;
    let builder = Report::build(alloc, kind_of(case), place).with_config(config_of(case));
    coded(numbered(builder, case)?, case)
}

/// The report of a case.
pub fn report_of<S: Placed>(alloc: Global, case: &Value) -> Result<Report<'_, S>, AllocError> {
    let mut builder = begun(alloc, case)?;
    add_parts(alloc, &mut builder, case).and(Ok(builder.finish()))
}

/// The text of a source of several.
pub fn text_in(source: &Value) -> &str {
    text(source, "text").unwrap_or("")
}

/// How far the line numbers of a source are moved that has so many lines: no further than they can be.
pub fn line_offset(told: &Value, lines: usize) -> usize
    ensures { result + lines < 2 ^ 64 }
{
    let offset = count(told, "line_offset").unwrap_or(0) as usize;
    offset.min(usize::MAX - lines)
}

/// A text as a source whose lines are counted as a case tells.
pub fn counted(alloc: Global, text: &str, told: &Value) -> Result<Source<String>, AllocError> {
    let source = Source::from(alloc, text.to_string(alloc)?)?;
    let offset = line_offset(told, source.lines().len());
    Ok(source.with_display_line_offset(offset))
}
