//! Reports that tests draw, and how their pictures and lists are compared.

use ariadne::{
    Cache, CharSet, Config, Label, LeftOut, Reason, Report, ReportBuilder, ReportKind, Source,
    Span, UnknownSource, WriteError,
};
use std::alloc::{AllocError, Global};
use std::ops::Range;

/// A piece of the source of an id.
pub(crate) type Piece = (&'static str, Range<usize>);

/// Why a label is left out, without what its cache said.
#[derive(Clone, Copy, Debug, PartialEq, Eq)]
pub(crate) enum Why {
    Unfetched,
    PastSource,
    CutsCharacter,
}

/// What is other than it is to be.
#[derive(Debug, Drop)]
pub(crate) enum Mismatch {
    /// The picture, which is this.
    Picture(String),
    /// How many labels are left out: so many.
    Count(usize),
    /// The label of this position, which is left out for this reason.
    Label(usize, Why),
    /// What is said of a label: this.
    Said(String),
    /// There is no picture, or it is no text.
    NoPicture,
    /// There is no memory.
    Memory,
}

impl From<AllocError> for Mismatch {
    fn from(_error: AllocError) -> Mismatch {
        Mismatch::Memory
    }
}

impl From<WriteError> for Mismatch {
    fn from(error: WriteError) -> Mismatch {
        match error {
            WriteError::Memory(_) => Mismatch::Memory,
            WriteError::Io { .. } => Mismatch::NoPicture,
        }
    }
}

/// The rows of two labels on a line, blanks at their ends kept.
pub(crate) const APPLES: [&str; 9] = [
    "Error: can't compare apples with oranges",
    "   ,-[ <unknown>:1:1 ]",
    "   |",
    " 1 | apple == orange;",
    "   | ^^|^^    ^^^|^^  ",
    "   |   `-------------- This is an apple",
    "   |             |    ",
    "   |             `---- This is an orange",
    "---'",
];

/// The two labels.
pub(crate) const APPLE_LABELS: [(usize, usize, &str); 2] = [
    (0, 5, "This is an apple"),
    (9, 15, "This is an orange"),
];

/// ASCII strokes, and no colours.
pub(crate) fn plain() -> Config {
    Config::new()
        .with_char_set(CharSet::Ascii)
        .with_color(false)
}

/// A source of a text.
pub(crate) fn source_of(alloc: Global, text: &str) -> Result<Source<String>, AllocError> {
    Source::from(alloc, String::from_str(alloc, text)?)
}

/// An error without a message yet, in ASCII and without colours, at a place.
pub(crate) fn plain_error_at<S: Span>(alloc: Global, span: S) -> ReportBuilder<'static, S> {
    Report::build(alloc, ReportKind::Error, span).with_config(plain())
}

/// Such an error at the first character.
pub(crate) fn plain_error(alloc: Global) -> ReportBuilder<'static> {
    plain_error_at(alloc, 0..0)
}

/// A report with these labels: the start and the end of each, which is not before it, and what it
/// says.
pub(crate) fn labelled<'a>(
    rt: &impl AllocGlobal,
    builder: ReportBuilder<'a>,
    labels: &[(usize, usize, &str)],
) -> Result<Report<'a>, AllocError> {
    let mut builder = builder;
    add_labels(rt.alloc(), &mut builder, labels).and(Ok(builder.finish()))
}

/// Adds such labels.
fn add_labels(
    alloc: Global,
    builder: &mut ReportBuilder<'_>,
    labels: &[(usize, usize, &str)],
) -> Result<(), AllocError> {
    for label in labels {
        builder.add_label(label_of(alloc, *label)?)?;
    }
    Ok(())
}

/// Such a label.
fn label_of(
    alloc: Global,
    (start, end, message): (usize, usize, &str),
) -> Result<Label, AllocError> {
    Label::new(start..end.max(start)).with_message(alloc, message)
}

/// The same as `labelled`, of labels in the sources of these ids.
pub(crate) fn labelled_in<'a>(
    rt: &impl AllocGlobal,
    builder: ReportBuilder<'a, Piece>,
    labels: &[(&'static str, usize, usize, &str)],
) -> Result<Report<'a, Piece>, AllocError> {
    let mut builder = builder;
    add_labels_in(rt.alloc(), &mut builder, labels).and(Ok(builder.finish()))
}

/// Adds such labels.
fn add_labels_in(
    alloc: Global,
    builder: &mut ReportBuilder<'_, Piece>,
    labels: &[(&'static str, usize, usize, &str)],
) -> Result<(), AllocError> {
    for label in labels {
        builder.add_label(label_in(alloc, *label)?)?;
    }
    Ok(())
}

/// Such a label.
fn label_in(
    alloc: Global,
    (id, start, end, message): (&'static str, usize, usize, &str),
) -> Result<Label<Piece>, AllocError> {
    Label::new((id, start..end.max(start))).with_message(alloc, message)
}

/// The picture that a report writes over a cache, and the labels that it leaves out.
pub(crate) fn written<S: Span, C: Cache<S::SourceId>>(
    rt: &impl AllocGlobal,
    report: &Report<'_, S>,
    cache: &mut C,
) -> Result<(String, Vec<LeftOut<C::Error>>), Mismatch>
    requires { C.can_fetch cache.old }
    ensures { C.can_fetch cache.new }
{
    let mut out = Vec::new(rt.alloc());
    let left_out = report.write(cache, &mut out)?;
    Ok((text_of(out)?, left_out))
}

/// The text of a picture.
fn text_of(picture: Vec<u8>) -> Result<String, Mismatch> {
    match String::from_utf8(picture) {
        Ok(text) => Ok(text),
        Err(_) => Err(Mismatch::NoPicture),
    }
}

/// Rows, each with a line feed behind it.
pub(crate) fn joined(alloc: Global, rows: &[&str]) -> Result<String, AllocError> {
    let mut text = String::new(alloc);
    for row in rows {
        text.push_str(row)?;
        text.push('\n')?;
    }
    Ok(text)
}

/// Asserts that a picture has these rows, and each of them whole, or but for the blanks at their
/// ends.
pub(crate) fn assert_shown(
    rt: &impl AllocGlobal,
    picture: &str,
    rows: &[&str],
    is_whole: bool,
) -> Result<(), Mismatch> {
    if has_rows(picture, rows, is_whole) {
        return Ok(());
    }
    Err(Mismatch::Picture(picture.to_string(rt.alloc())?))
}

/// Whether a picture has these rows, and each of them whole, or but for the blanks at their ends.
fn has_rows(picture: &str, rows: &[&str], is_whole: bool) -> bool {
    let mut rest = picture;
    for row in rows {
        match behind_row(rest, *row, is_whole) {
            Some(behind) => rest = behind,
            None => return false,
        }
    }
    rest.is_empty()
}

/// What stands behind a row that a picture begins with, and behind the blanks at its end where it is not
/// whole.
fn behind_row<'p>(picture: &'p str, row: &str, is_whole: bool) -> Option<&'p str> {
    let behind = picture.strip_prefix(row)?;
    let behind = if is_whole {
        behind
    } else {
        behind.trim_start_matches(' ')
    };
    behind.strip_prefix('\n')
}

/// Asserts that a picture has these rows, but for the blanks at their ends.
pub(crate) fn assert_trimmed(
    rt: &impl AllocGlobal,
    picture: &str,
    rows: &[&str],
) -> Result<(), Mismatch> {
    assert_shown(rt, picture, rows, false)
}

/// Asserts which labels are left out, and why.
pub(crate) fn assert_left_out<E>(
    left_out: &[LeftOut<E>],
    wanted: &[(usize, Why)],
) -> Result<(), Mismatch> {
    if left_out.len() != wanted.len() {
        return Err(Mismatch::Count(left_out.len()));
    }
    for (left, want) in left_out.iter().zip(wanted) {
        let why = why_of(&left.reason);
        if (left.label, why) != *want {
            return Err(Mismatch::Label(left.label, why));
        }
    }
    Ok(())
}

/// A reason without what the cache said.
fn why_of<E>(reason: &Reason<E>) -> Why {
    match reason {
        Reason::Unfetched(_) => Why::Unfetched,
        Reason::PastSource => Why::PastSource,
        Reason::CutsCharacter => Why::CutsCharacter,
    }
}

/// Asserts that all these labels are left out since their sources can't be had, and what is said of
/// each.
pub(crate) fn assert_unknown(
    rt: &impl AllocGlobal,
    left_out: &[LeftOut<UnknownSource>],
    wanted: &[&str],
) -> Result<(), Mismatch> {
    if left_out.len() != wanted.len() {
        return Err(Mismatch::Count(left_out.len()));
    }
    for (left, want) in left_out.iter().zip(wanted) {
        assert_said(rt.alloc(), &left.reason, *want)?;
    }
    Ok(())
}

/// Asserts what a cache said of a source that can't be had.
fn assert_said(
    alloc: Global,
    reason: &Reason<UnknownSource>,
    wanted: &str,
) -> Result<(), Mismatch> {
    let text = said_of(alloc, reason)?;
    if text.as_str() == wanted {
        return Ok(());
    }
    Err(Mismatch::Said(text))
}

/// What a cache said of a source that can't be had.
fn said_of(alloc: Global, reason: &Reason<UnknownSource>) -> Result<String, AllocError> {
    match reason {
        Reason::Unfetched(error) => error.to_string(alloc),
        Reason::PastSource | Reason::CutsCharacter => Ok(String::new(alloc)),
    }
}

/// Asserts that over a text a report was made that leaves no label out, and that its picture has these
/// rows, and each of them whole.
pub(crate) fn assert_bytes(
    rt: &impl AllocGlobal,
    made: Result<Report<'_>, AllocError>,
    text: &str,
    rows: &[&str],
) -> Result<(), Mismatch> {
    assert_drawn(rt, &made?, text, rows, true)
}

/// Asserts that over a text a report leaves no label out, and that its picture has these rows, and
/// each of them whole, or but for the blanks at their ends.
fn assert_drawn(
    rt: &impl AllocGlobal,
    report: &Report<'_>,
    text: &str,
    rows: &[&str],
    is_whole: bool,
) -> Result<(), Mismatch> {
    let mut source = source_of(rt.alloc(), text)?;
    assert_drawn_over(rt, report, &mut source, &[], rows, is_whole)
}

/// Asserts that over a cache a report leaves out exactly these labels, and that its picture has these
/// rows, and each of them whole, or but for the blanks at their ends.
fn assert_drawn_over<S: Span, C: Cache<S::SourceId>>(
    rt: &impl AllocGlobal,
    report: &Report<'_, S>,
    cache: &mut C,
    wanted: &[(usize, Why)],
    rows: &[&str],
    is_whole: bool,
) -> Result<(), Mismatch>
    requires { C.can_fetch cache.old }
    ensures { C.can_fetch cache.new }
{
    let (picture, left_out) = written(rt, report, cache)?;
    let shown = assert_shown(rt, picture.as_str(), rows, is_whole);
    assert_left_out(&left_out, wanted).and(shown)
}

/// Asserts that over a cache a report leaves out exactly these labels, and that its picture has these
/// rows, and each of them whole.
pub(crate) fn assert_bytes_over<S: Span, C: Cache<S::SourceId>>(
    rt: &impl AllocGlobal,
    report: &Report<'_, S>,
    cache: &mut C,
    wanted: &[(usize, Why)],
    rows: &[&str],
) -> Result<(), Mismatch>
    requires { C.can_fetch cache.old }
{
    assert_drawn_over(rt, report, cache, wanted, rows, true)
}

/// Asserts that over a text a report leaves no label out, and that its picture has these rows, but
/// for the blanks at their ends.
pub(crate) fn assert_picture(
    rt: &impl AllocGlobal,
    report: &Report<'_>,
    text: &str,
    rows: &[&str],
) -> Result<(), Mismatch> {
    assert_drawn(rt, report, text, rows, false)
}

/// Asserts that over a cache a report leaves out exactly these labels, and that its picture has
/// these rows, but for the blanks at their ends.
pub(crate) fn assert_picture_over<S: Span, C: Cache<S::SourceId>>(
    rt: &impl AllocGlobal,
    report: &Report<'_, S>,
    cache: &mut C,
    wanted: &[(usize, Why)],
    rows: &[&str],
) -> Result<(), Mismatch>
    requires { C.can_fetch cache.old }
    ensures { C.can_fetch cache.new }
{
    assert_drawn_over(rt, report, cache, wanted, rows, false)
}
