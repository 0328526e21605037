//! Reports over each cache of the library: what is drawn, and what is left out.

ghost use Rattle.std.specs.Prelude.{◌≤◌};

use crate::asserts::{
    Piece, Why, assert_left_out, assert_picture_over, assert_shown, assert_unknown, labelled,
    labelled_in, plain_error, plain_error_at, written,
};
use crate::comparing::assert_is;
use ariadne::{Cache, Label, Report, Source, SourceMap, Span, UnknownSource, sources};
use std::collections::HashMap;
use std::ops::Range;
use std::process::Abort;
use std::rc::RcStr;

/// The picture of two labels in the source `ab` of `x`.
pub(crate) const TWO: &[&str] = &[
    "Error:",
    "   ,-[ x:1:1 ]",
    "   |",
    " 1 | ab",
    "   | ||",
    "   | `--- p",
    "   |  |",
    "   |  `-- q",
    "---'",
];

/// The same picture where the source has no name.
const TWO_UNNAMED: &[&str] = &[
    "Error:",
    "   ,-[ <unknown>:1:1 ]",
    "   |",
    " 1 | ab",
    "   | ||",
    "   | `--- p",
    "   |  |",
    "   |  `-- q",
    "---'",
];

/// The picture of the second label alone.
pub(crate) const SECOND: &[&str] = &[
    "Error:",
    "   ,-[ x:1:1 ]",
    "   |",
    " 1 | ab",
    "   |  |",
    "   |  `-- q",
    "---'",
];

/// A report that points at a source, with labels: of each the id, the start, the end and the message.
pub(crate) fn report_at(
    rt: &(impl Abort + AllocGlobal),
    id: &'static str,
    labels: &[(&'static str, usize, usize, &str)],
) -> Report<'static, Piece> {
    labelled_in(rt, plain_error_at(rt.alloc(), (id, 0..0)), labels).expect(rt, "memory")
}

/// The report with the two labels on `x`.
pub(crate) fn two_labels(rt: &(impl Abort + AllocGlobal)) -> Report<'static, Piece> {
    report_at(rt, "x", &[("x", 0, 1, "p"), ("x", 1, 2, "q")])
}

/// The same report on a source without an id.
fn two_labels_unnamed(rt: &(impl Abort + AllocGlobal)) -> Report<'static> {
    labelled(rt, plain_error(rt.alloc()), &[(0, 1, "p"), (1, 2, "q")]).expect(rt, "memory")
}

/// A report that points at a place, with a label.
pub(crate) fn one_label<S: Span + Drop>(
    rt: &(impl Abort + AllocGlobal),
    place: S,
    label: S,
    message: &str,
) -> Report<'static, S>
    requires { S.start_of label ≤ S.end_of label }
{
    let label = Label::new(label)
        .with_message(rt.alloc(), message)
        .expect(rt, "memory");
    let builder = plain_error_at(rt.alloc(), place);
    builder.with_label(label).expect(rt, "memory").finish()
}

/// Asserts that over a cache a report leaves out exactly these labels, and has these rows.
pub(crate) fn assert_over<S: Span + Drop, C: Cache<S::SourceId>>(
    rt: &(impl Abort + AllocGlobal),
    report: Report<'_, S>,
    cache: &mut C,
    left_out: &[(usize, Why)],
    rows: &[&str],
)
    requires { C.can_fetch cache.old }
    ensures { C.can_fetch cache.new }
{
    assert_picture_over(rt, &report, cache, left_out, rows).expect(rt, "the picture")
}

/// Asserts that over a cache the two labels are drawn.
pub(crate) fn assert_two<C: Cache<&'static str>>(rt: &(impl Abort + AllocGlobal), cache: &mut C)
    requires { C.can_fetch cache.old }
    ensures { C.can_fetch cache.new }
{
    assert_over(rt, two_labels(rt), cache, &[], TWO)
}

/// Asserts that over a cache of one source without a name two labels are drawn.
fn assert_unnamed<C: Cache<()>>(rt: &(impl Abort + AllocGlobal), cache: &mut C)
    requires { C.can_fetch cache.old }
    ensures { C.can_fetch cache.new }
{
    assert_over(rt, two_labels_unnamed(rt), cache, &[], TWO_UNNAMED)
}

/// The source `ab`.
pub(crate) fn source(rt: &(impl Abort + AllocGlobal)) -> Source<&'static str> {
    Source::from(rt.alloc(), "ab").expect(rt, "memory")
}

/// Sources that are given to a cache: one of a text.
pub(crate) fn given(
    rt: &(impl Abort + AllocGlobal),
    id: &'static str,
    text: &'static str,
) -> HashMap<&'static str, Source<&'static str>> {
    let mut given = HashMap::new(rt.alloc());
    let source = Source::from(rt.alloc(), text).expect(rt, "memory");
    assert_is(rt, given.insert(id, source).is_ok(), true);
    given
}

/// A map of one source.
pub(crate) fn map_of(
    rt: &(impl Abort + AllocGlobal),
    id: &'static str,
    text: &'static str,
) -> SourceMap<&'static str, &'static str> {
    sources(rt.alloc(), [(id, text)]).expect(rt, "memory")
}

/// A map that has the source `ab` as `x`.
pub(crate) fn map(rt: &(impl Abort + AllocGlobal)) -> SourceMap<&'static str, &'static str> {
    map_of(rt, "x", "ab")
}

#[test]
fn a_report_is_drawn_alike_over_a_map_lent_or_in_a_box(rt: HostRuntime) {
    let mut map = map(&rt);
    assert_two(&rt, &mut map);
    assert_two(&rt, &mut (&mut map));
    let mut boxed = Box::new(rt.alloc(), map).expect(&rt, "memory");
    assert_two(&rt, &mut boxed)
}

#[test]
fn a_report_is_drawn_alike_over_a_pair_that_lends_its_source_or_has_it(rt: HostRuntime) {
    let source = source(&rt);
    assert_two(&rt, &mut ("x", &source));
    assert_two(&rt, &mut ("x", source))
}

/// Labels, of which the first is in a source that there isn't.
const LOST: &[(&str, usize, usize, &str)] = &[("z", 0, 1, "lost"), ("x", 1, 2, "q")];

/// Which of them is left out over a cache of `x` alone.
const FIRST: &[(usize, Why)] = &[(0, Why::Unfetched)];

/// Asserts that over a cache of `x` alone the first of them is left out, and the second drawn.
fn assert_second<C: Cache<&'static str>>(rt: &(impl Abort + AllocGlobal), cache: &mut C)
    requires { C.can_fetch cache.old }
{
    assert_over(rt, report_at(rt, "x", LOST), cache, FIRST, SECOND)
}

#[test]
fn a_pair_has_the_labels_on_its_source_alone(rt: HostRuntime) {
    let source = source(&rt);
    assert_second(&rt, &mut ("x", &source));
    assert_second(&rt, &mut ("x", source))
}

#[test]
fn a_source_without_a_name_is_unknown(rt: HostRuntime) {
    let mut source = source(&rt);
    assert_unnamed(&rt, &mut (&source));
    assert_unnamed(&rt, &mut (&mut source));
    assert_unnamed(&rt, &mut source);
    let mut boxed = Box::new(rt.alloc(), source).expect(&rt, "memory");
    assert_unnamed(&rt, &mut boxed)
}

#[test]
fn a_source_that_shares_its_text_is_drawn(rt: HostRuntime) {
    let text = RcStr::from_str(rt.alloc(), "ab").expect(&rt, "memory");
    assert_unnamed(
        &rt,
        &mut Source::from(rt.alloc(), text).expect(&rt, "memory"),
    )
}

/// A text as a `String`.
pub(crate) fn owned(rt: &(impl Abort + AllocGlobal), text: &str) -> String {
    text.to_string(rt.alloc()).expect(rt, "memory")
}

/// A map of one source, whose id and text are `String`s.
fn map_of_string(rt: &(impl Abort + AllocGlobal)) -> SourceMap<String, String> {
    sources(rt.alloc(), [(owned(rt, "x"), owned(rt, "ab"))]).expect(rt, "memory")
}

/// The picture of a label on the whole source, of a report that points at its second character.
const WHOLE: &[&str] = &[
    "Error:",
    "   ,-[ x:1:2 ]",
    "   |",
    " 1 | ab",
    "   | ^|",
    "   |  `-- m",
    "---'",
];

/// The report of this label, whose id is a `String`.
fn report_by_string(rt: &(impl Abort + AllocGlobal)) -> Report<'static, (String, Range<usize>)> {
    one_label(rt, (owned(rt, "x"), 1..1), (owned(rt, "x"), 0..2), "m")
}

#[test]
fn ids_may_be_strings(rt: HostRuntime) {
    let report = report_by_string(&rt);
    assert_over(&rt, report, &mut map_of_string(&rt), &[], WHOLE)
}

/// The picture of a report over a cache. One label is left out since its source is missing, and this is
/// said of it.
fn picture_without<C: Cache<&'static str, Error = UnknownSource>>(
    rt: &(impl Abort + AllocGlobal),
    report: Report<'_, Piece>,
    cache: &mut C,
    label: usize,
    said: &str,
) -> String
    requires { C.can_fetch cache.old }
{
    let (picture, left_out) = written(rt, &report, cache).expect(rt, "a picture");
    assert_left_out(&left_out, &[(label, Why::Unfetched)]).expect(rt, "the labels");
    assert_unknown(rt, &left_out, &[said]).expect(rt, "the report");
    picture
}

/// Asserts that a picture has these rows, and each of them whole, or but for the blanks at their ends.
fn assert_rows(rt: &(impl Abort + AllocGlobal), picture: String, rows: &[&str], is_whole: bool) {
    assert_shown(rt, picture.as_str(), rows, is_whole).expect(rt, "the picture")
}

/// Labels, of which the second is in a source that a map lacks.
const LACKED: &[(&str, usize, usize, &str)] = &[
    ("x", 0, 1, "p"),
    ("zz", 0, 1, "z"),
    ("x", 1, 2, "q"),
];

#[test]
fn a_source_that_a_map_lacks_is_named(rt: HostRuntime) {
    let report = report_at(&rt, "x", LACKED);
    let said = "Failed to fetch source 'zz'";
    let picture = picture_without(&rt, report, &mut map(&rt), 1, said);
    assert_rows(&rt, picture, TWO, false)
}

/// A label in a source that a pair of `a` lacks.
const OTHER: &[(&str, usize, usize, &str)] = &[("b", 0, 1, "m")];

#[test]
fn a_pair_has_no_source_of_another_id(rt: HostRuntime) {
    let report = report_at(&rt, "a", OTHER);
    let said = "Failed to fetch source 'b'";
    let picture = picture_without(&rt, report, &mut ("a", source(&rt)), 0, said);
    assert_rows(&rt, picture, &["Error: "], true)
}
