//! How many columns stand in front of the source text: they are counted in the pictures beside them.

use crate::asserts::{Piece, plain, plain_error_at};
use crate::comparing::assert_same;
use crate::refused::{MOST_REQUESTS, assert_refused, refuse_at};
use ariadne::{Config, FnCache, Label, ReportBuilder};
use std::alloc::{AllocError, Global};
use std::process::Abort;

/// The text of one of two ids. There is no other.
fn text_of(id: &&str) -> Result<&'static str, u8> {
    match *id {
        "ten" => Ok("a\nb\nc\nd\ne\nf\ng\nh\ni\nj"),
        "one" => Ok("k"),
        _ => Err(7),
    }
}

/// The labels of a report: the source, the start and the end of each.
type Labels = &'static [(&'static str, usize, usize)];

/// Labels, and the columns in front of their text, in a picture and in a compact one.
const LABELS: &[(Labels, usize, usize)] = &[
    (&[], 0, 0),
    (&[("gone", 0, 1)], 0, 0), // left out
    (&[("one", 0, 1)], 5, 4), // ` 1 | k`, ` 1 |k`
    (&[("ten", 16, 17)], 5, 4), // ` 9 | i`, ` 9 |i`
    (&[("ten", 18, 19)], 6, 5), // ` 10 | j`, ` 10 |j`
    (&[("ten", 0, 3)], 9, 6), // ` 1 | ,-> a`, ` 1 |,>a`
    (&[("ten", 0, 3), ("ten", 2, 7)], 11, 7), // ` 1 | ,---> a`, ` 1 |,->a`
    (&[("one", 0, 1), ("ten", 0, 3)], 9, 6), // the most of two groups
    (&[("ten", 0, 3), ("one", 0, 1)], 9, 6), // in whatever order
    (&[("ten", 0, 3), ("ten", 18, 19), ("one", 0, 1)], 10, 7), // ` 10 |     j`, ` 10 |  j`
];

/// A report with these labels, each of which says something.
fn builder(
    alloc: Global,
    config: Config,
    labels: Labels,
) -> Result<ReportBuilder<'static, Piece>, AllocError> {
    let mut builder = plain_error_at(alloc, ("one", 0..0)).with_config(config);
    for label in labels {
        builder.add_label(label_of(alloc, *label)?)?;
    }
    Ok(builder)
}

/// One of the labels.
fn label_of(
    alloc: Global,
    (id, start, end): (&'static str, usize, usize),
) -> Result<Label<Piece>, AllocError> {
    Label::new((id, start..end.max(start))).with_message(alloc, "m")
}

/// The columns of a report in the making.
fn columns_of_builder(
    alloc: Global,
    builder: &ReportBuilder<'static, Piece>,
) -> Result<usize, AllocError> {
    let mut cache: FnCache<&'static str, _, &'static str> = FnCache::new(alloc, text_of);
    builder.margin_columns(&mut cache)
}

/// Those of the report that it makes.
fn columns_of(alloc: Global, builder: ReportBuilder<'static, Piece>) -> Result<usize, AllocError> {
    let mut cache: FnCache<&'static str, _, &'static str> = FnCache::new(alloc, text_of);
    builder.finish().margin_columns(&mut cache)
}

/// Asserts that so many columns stand in front of the text of these labels, before and after the report
/// is made.
fn assert_columns(rt: &(impl Abort + AllocGlobal), config: Config, labels: Labels, want: usize) {
    let builder = builder(rt.alloc(), config, labels).expect(rt, "memory");
    let columns = columns_of_builder(rt.alloc(), &builder).expect(rt, "memory");
    assert_same(rt, &columns, &want);
    let columns = columns_of(rt.alloc(), builder).expect(rt, "memory");
    assert_same(rt, &columns, &want)
}

#[test]
fn as_many_columns_as_the_pictures_have(rt: HostRuntime) {
    for &(labels, columns, compact) in LABELS {
        assert_columns(&rt, plain(), labels, columns);
        assert_columns(&rt, plain().with_width(3), labels, columns);
        assert_columns(&rt, plain().with_compact(true), labels, compact)
    }
}

/// A line below the last label is shown, and its number has two digits: ` 10 | j`.
#[test]
fn the_last_line_that_is_shown_has_room(rt: HostRuntime) {
    assert_columns(&rt, plain().with_context_lines(1), &[("ten", 16, 17)], 6);
    assert_columns(&rt, plain().with_context_lines(9), &[("ten", 0, 3)], 10)
}

/// Refuses the nth request of asking a report, or the builder of one, for its columns.
fn try_columns(rt: &(impl Abort + AllocGlobal), is_made: bool, nth: u16) -> bool {
    let labels: Labels = &[("ten", 0, 3), ("one", 0, 1)];
    let builder = builder(rt.alloc(), plain(), labels).expect(rt, "memory");
    refuse_at(rt, nth);
    let columns = if is_made {
        columns_of(rt.alloc(), builder)
    } else {
        columns_of_builder(rt.alloc(), &builder)
    };
    let is_refused = assert_refused(rt, ("margin_columns", nth), columns.is_err());
    assert_same(rt, &columns.unwrap_or(9), &9);
    is_refused
}

#[test]
fn a_refused_request_of_columns_is_an_error(rt: HostRuntime) {
    for is_made in [false, true] {
        for nth in 1..MOST_REQUESTS {
            if !try_columns(&rt, is_made, nth) {
                break;
            }
        }
    }
}
