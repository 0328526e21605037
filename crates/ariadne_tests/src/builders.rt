//! Calls of the builder, each by the picture that it makes.

use crate::asserts::{Mismatch, assert_picture, plain_error};
use ariadne::{Label, Report, ReportBuilder};
use std::alloc::{AllocError, Global};

/// Asserts that a report was made, and has these rows over `ab`.
fn assert_made(
    rt: &impl AllocGlobal,
    made: Result<Report<'_>, AllocError>,
    rows: &[&str],
) -> Result<(), Mismatch> {
    assert_picture(rt, &made?, "ab", rows)
}

/// The picture of two labels added in turn.
const TWO: &[&str] = &[
    "Error: m",
    "   ,-[ <unknown>:1:1 ]",
    "   |",
    " 1 | ab",
    "   | ||",
    "   | `--- p",
    "   |  |",
    "   |  `-- q",
    "---'",
];

/// The first of the two labels.
fn first(alloc: Global) -> Result<Label, AllocError> {
    Label::new(0..1).with_message(alloc, "p")
}

/// The second of the two labels.
fn second(alloc: Global) -> Result<Label, AllocError> {
    Label::new(1..2).with_message(alloc, "q")
}

/// Their report in the making, without labels.
fn begun(alloc: Global) -> Result<ReportBuilder<'static>, AllocError> {
    plain_error(alloc).with_message("m")
}

/// The same with the first of them.
fn labelled(alloc: Global) -> Result<ReportBuilder<'static>, AllocError> {
    let label = first(alloc)?;
    begun(alloc)?.with_label(label)
}

/// The report with both, by calls by value.
fn with_labels(alloc: Global) -> Result<Report<'static>, AllocError> {
    let label = second(alloc)?;
    let builder = labelled(alloc)?.with_labels([label])?;
    Ok(builder.finish())
}

#[test]
fn labels_stand_behind_those_that_are_there(rt: HostRuntime) -> Result<(), Mismatch> {
    assert_made(&rt, with_labels(rt.alloc()), TWO)
}

/// Adds both by reference, and then none.
fn add_both(alloc: Global, builder: &mut ReportBuilder<'_>) -> Result<(), AllocError> {
    builder.add_label(first(alloc)?)?;
    builder.add_labels([second(alloc)?])?;
    builder.add_labels([])
}

/// The same by calls by reference.
fn with_added_labels(alloc: Global) -> Result<Report<'static>, AllocError> {
    let mut builder = begun(alloc)?;
    add_both(alloc, &mut builder).and(Ok(builder.finish()))
}

#[test]
fn added_labels_stand_behind_those_that_are_there(rt: HostRuntime) -> Result<(), Mismatch> {
    assert_made(&rt, with_added_labels(rt.alloc()), TWO)
}

/// The picture of a report with three helps and two notes, which are numbered since there are
/// several.
const ASIDES: &[&str] = &[
    "Error: m",
    "   ,-[ <unknown>:1:1 ]",
    "   |",
    " 1 | ab",
    "   | |",
    "   | `-- p",
    "   |",
    "   | Help 1: a",
    "   |",
    "   | Help 2: b",
    "   |",
    "   | Help 3: c",
    "   |",
    "   | Note 1: d",
    "   |",
    "   | Note 2: e",
    "---'",
];

/// The report in the making with a help and a note.
fn with_aside(alloc: Global, note: &str) -> Result<ReportBuilder<'static>, AllocError> {
    labelled(alloc)?.with_help("a")?.with_note(note)
}

/// Adds the others.
fn add_asides(builder: &mut ReportBuilder<'_>) -> Result<(), AllocError> {
    builder.with_helps(["b", "c"])?;
    builder.with_notes(["e"])
}

/// The report with all of these.
fn with_asides(alloc: Global) -> Result<Report<'static>, AllocError> {
    let mut builder = with_aside(alloc, "d")?;
    add_asides(&mut builder).and(Ok(builder.finish()))
}

#[test]
fn helps_and_notes_stand_behind_those_that_are_there(rt: HostRuntime) -> Result<(), Mismatch> {
    assert_made(&rt, with_asides(rt.alloc()), ASIDES)
}

/// The picture of the report with a help and a note.
const ASIDE: &[&str] = &[
    "Error: m",
    "   ,-[ <unknown>:1:1 ]",
    "   |",
    " 1 | ab",
    "   | |",
    "   | `-- p",
    "   |",
    "   | Help: b",
    "   |",
    "   | Note: d",
    "---'",
];

/// Sets these.
fn set_asides(builder: &mut ReportBuilder<'_>) -> Result<(), AllocError> {
    builder.set_help("b")?;
    builder.set_note("d")
}

/// The report with these, set in place of others.
fn with_set_asides(alloc: Global) -> Result<Report<'static>, AllocError> {
    let mut builder = with_aside(alloc, "c")?;
    set_asides(&mut builder).and(Ok(builder.finish()))
}

#[test]
fn a_help_or_a_note_that_is_set_takes_the_place_of_those_before(
    rt: HostRuntime,
) -> Result<(), Mismatch> {
    assert_made(&rt, with_set_asides(rt.alloc()), ASIDE)
}
