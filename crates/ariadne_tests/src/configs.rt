//! Configurations: the default one, and which one counts.

use crate::asserts::{Mismatch, assert_bytes, plain};
use crate::comparing::{assert_is, assert_same};
use ariadne::{CharSet, Color, Config, IndexType, Label, LabelAttach, Report, ReportKind};
use std::alloc::{AllocError, Global};

/// The default, set by each call.
fn set_default() -> Config {
    Config::new()
        .with_cross_gap(true)
        .with_label_attach(LabelAttach::Middle)
        .with_compact(false)
        .with_underlines(true)
        .with_lone_underlines(false)
        .with_multiline_arrows(true)
        .with_color(true)
        .with_context_lines(0)
        .with_tab_width(4)
        .with_width(0)
        .with_char_set(CharSet::Unicode)
        .with_index_type(IndexType::Char)
}

#[test]
fn a_new_configuration_is_the_default(rt: HostRuntime) {
    assert_same(&rt, &Config::default(), &Config::new());
    assert_same(&rt, &set_default(), &Config::new());
    let is_same = set_default().with_tab_width(8) == Config::new();
    assert_is(&rt, is_same, false);
    let are_same = (
        LabelAttach::Start == LabelAttach::End,
        CharSet::Ascii == CharSet::Unicode,
        IndexType::Byte == IndexType::Char,
    );
    assert_is(&rt, are_same, (false, false, false))
}

#[test]
fn a_switch_has_the_name_of_its_call(rt: HostRuntime) {
    let config = Config::new().with_compact(true);
    assert_same(
        &rt,
        &Config::new().with_switch("compact", true),
        &Some(config),
    );
    assert_same(
        &rt,
        &config.with_switch("compact", false),
        &Some(Config::new()),
    );
    let plain = Config::new().with_color(false);
    assert_same(
        &rt,
        &Config::new().with_switch("color", false),
        &Some(plain),
    );
    assert_same(&rt, &Config::new().with_switch("with_compact", true), &None);
}

/// A report of one word, in the colours that a report has where none says otherwise.
fn colored(alloc: Global) -> Result<Report<'static>, AllocError> {
    let builder = Report::build(alloc, ReportKind::Error, 0..0).with_message("m")?;
    Ok(builder.finish())
}

#[test]
fn a_report_is_in_colors_where_none_says_otherwise(rt: HostRuntime) -> Result<(), Mismatch> {
    assert_bytes(&rt, colored(rt.alloc()), "", &["\x1b[31mError:\x1b[0m m"])
}

/// The rows of a label whose report has no colours, with the blanks at their ends.
const ROWS: &[&str] = &[
    "Error: ",
    "   ,-[ <unknown>:1:1 ]",
    "   |",
    " 1 | a",
    "   | |  ",
    "   | `-- m",
    "---'",
];

/// A report that is configured after it has got a label with a colour.
fn configured(alloc: Global) -> Result<Report<'static>, AllocError> {
    let label = Label::new(0..1).with_color(Color::Blue);
    let label = label.with_message(alloc, "m")?;
    let builder = Report::build(alloc, ReportKind::Error, 0..0).with_label(label)?;
    Ok(builder.with_config(plain()).finish())
}

#[test]
fn a_configuration_behind_a_label_takes_its_color_away(rt: HostRuntime) -> Result<(), Mismatch> {
    assert_bytes(&rt, configured(rt.alloc()), "a", ROWS)
}
