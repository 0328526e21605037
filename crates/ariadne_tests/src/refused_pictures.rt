//! Pictures when memory is refused: each request in turn, until a call meets no refusal.

use crate::asserts::{Mismatch, Piece, Why, assert_left_out, assert_trimmed, plain, written};
use crate::comparing::assert_same;
use crate::refused::{MOST_REQUESTS, assert_at, assert_refused, refuse_at};
use crate::refused_sources::holds;
use crate::writers::Drain;
use ariadne::{
    Cache, Color, Config, FnCache, Label, LeftOut, Report, ReportBuilder, ReportKind, Sink,
    WriteError,
};
use ariadne_testing::Taker;
use std::alloc::{AllocError, Global};
use std::io::Stderr;
use std::process::Abort;

/// The texts of two sources, under their ids. There is no other.
const TEXTS: &[(&str, &str)] = &[("x", "aa\nbb\ncc\ndd"), ("y", "e\nf\n\tg")];

/// The labels of a report over these and a source that can't be had.
const LABELS: &[(&str, usize, usize, &str)] = &[
    ("x", 1, 4, "mid"),
    ("x", 0, 11, "all"),
    ("x", 12, 12, "past"),
    ("z", 0, 1, "unknown"),
    ("y", 0, 1, "one"),
    ("y", 5, 6, "tab"),
];

/// The labels that are left out.
const LEFT_OUT: &[(usize, Why)] = &[(2, Why::PastSource), (3, Why::Unfetched)];

/// The rows of the report, with a code, a help and a note of two lines, but for its colours.
const ROWS: &[&str] = &[
    "[03] Error: m",
    "   ,-[ x:1:2 ]",
    "   |",
    " 1 | ,---> aa",
    "   | |      ^",
    "   | | ,----'",
    " 2 | | |-> bb",
    "   | | |",
    "   | | `-------- mid",
    "   : :",
    " 4 | |---> dd",
    "   | |",
    "   | `--------- all",
    "   |",
    "   |-[ y:1:1 ]",
    "   |",
    " 1 | e",
    "   | |",
    "   | `-- one",
    "   |",
    " 3 |     g",
    "   |     |",
    "   |     `-- tab",
    "   |",
    "   | Help: h",
    "   |",
    "   | Note: n",
    "   |       k",
    "---'",
];

/// The text of one of the ids.
fn text_of(id: &&str) -> Result<&'static str, u8> {
    match *id {
        "x" => Ok("aa\nbb\ncc\ndd"),
        "y" => Ok("e\nf\n\tg"),
        _ => Err(7),
    }
}

/// A report with a header alone, which points at a source that no label is in.
fn headed(alloc: Global, config: Config) -> Result<ReportBuilder<'static, Piece>, AllocError> {
    Report::build(alloc, ReportKind::Error, ("r", 0..0))
        .with_config(config)
        .with_code(3)?
        .with_message("m")
}

/// The same with a help and a note.
fn begun(alloc: Global, config: Config) -> Result<ReportBuilder<'static, Piece>, AllocError> {
    headed(alloc, config)?.with_help("h")?.with_note("n\nk")
}

/// A label of the report.
fn label(
    alloc: Global,
    (id, start, end, message): (&'static str, usize, usize, &str),
) -> Result<Label<Piece>, AllocError> {
    let label = Label::new((id, start..end.max(start))).with_color(Color::Fixed(70));
    label.with_message(alloc, message)
}

/// Adds the labels of the report.
fn add_labels(alloc: Global, builder: &mut ReportBuilder<'_, Piece>) -> Result<(), AllocError> {
    for row in LABELS {
        builder.add_label(label(alloc, *row)?)?;
    }
    Ok(())
}

/// The report.
fn rich(alloc: Global, config: Config) -> Result<Report<'static, Piece>, AllocError> {
    let mut builder = begun(alloc, config)?;
    add_labels(alloc, &mut builder).and(Ok(builder.finish()))
}

/// A picture without its colours.
fn without_colors(alloc: Global, picture: &str) -> Result<String, AllocError> {
    let mut text = String::new(alloc);
    let mut is_escape = false;
    for shown in picture.chars() {
        if shown == '\x1b' {
            is_escape = true;
        } else if !is_escape {
            text.push(shown)?;
        } else if shown == 'm' {
            is_escape = false;
        }
    }
    Ok(text)
}

/// The picture of the report, which has its rows.
fn picture_of(rt: &impl AllocGlobal, report: &Report<'static, Piece>) -> Result<String, Mismatch> {
    let mut cache: FnCache<&'static str, _, &'static str> = FnCache::new(rt.alloc(), text_of);
    let (picture, _) = written(rt, report, &mut cache)?;
    let shown = without_colors(rt.alloc(), picture.as_str())?;
    assert_trimmed(rt, shown.as_str(), ROWS)?;
    Ok(picture)
}

/// A way to write a report.
#[derive(Clone, Copy)]
enum Way {
    Write,
    WriteForStdout,
    WriteTo,
    Print,
    Eprint,
}

/// All of them, each with its name and whether it hands on what is sent.
const WAYS: &[(Way, &str, bool)] = &[
    (Way::Write, "write", true),
    (Way::WriteForStdout, "write_for_stdout", true),
    (Way::WriteTo, "write_to", true),
    (Way::Print, "print", false),
    (Way::Eprint, "eprint", false),
];

/// Writes a report.
fn sent<C: Cache<&'static str>>(
    rt: &impl Print,
    stderr: Stderr,
    report: &Report<'static, Piece>,
    way: Way,
    cache: &mut C,
    out: &mut Drain,
) -> Result<Vec<LeftOut<C::Error>>, WriteError>
    requires { C.can_fetch cache.old }
    ensures { C.can_fetch cache.new }
{
    match way {
        Way::Write => report.write(cache, &mut out.narrow),
        Way::WriteForStdout => report.write_for_stdout(cache, &mut out.narrow),
        Way::WriteTo => report.write_to(cache, out),
        Way::Print => report.print(cache, rt),
        Way::Eprint => report.eprint(cache, stderr),
    }
}

/// A sink that has room for the picture.
fn roomy(alloc: Global) -> Result<Drain, AllocError> {
    let narrow = Taker {
        held: Vec::with_capacity(alloc, 20_000)?,
        room: usize::MAX,
        calls_left: usize::MAX,
        fault: None,
    };
    Ok(Drain {
        narrow,
        met_fault: false,
    })
}

/// Whether a cache holds sources of labels alone, and each of them whole.
fn has_grown<C: Cache<&'static str>>(cache: &C, is_whole: bool) -> bool {
    for (id, text) in TEXTS {
        let is_held = holds(cache, id, Some(*text));
        if !is_held && (is_whole || !holds(cache, id, None)) {
            return false;
        }
    }
    holds(cache, &"z", None) && holds(cache, &"r", None)
}

/// Asserts that over a cache the whole picture is written.
fn assert_whole<C: Cache<&'static str>>(
    rt: &(impl Abort + AllocGlobal),
    report: &Report<'static, Piece>,
    cache: &mut C,
    picture: &str,
)
    requires { C.can_fetch cache.old }
    ensures { C.can_fetch cache.new }
{
    let (shown, left_out) = written(rt, report, cache).expect(rt, "a picture");
    assert_left_out(&left_out, LEFT_OUT).expect(rt, "the labels");
    assert_same(rt, &shown.as_str(), &picture)
}

/// Asserts which labels are left out, or that there was no memory.
pub(crate) fn assert_answer<E: Drop>(
    rt: &impl Abort,
    answer: Result<Vec<LeftOut<E>>, WriteError>,
    wanted: &[(usize, Why)],
) {
    match answer {
        Ok(left_out) => assert_left_out(&left_out, wanted).expect(rt, "the labels"),
        Err(error) => assert!(rt; matches!(error, WriteError::Memory(_))),
    }
}

/// Refuses the nth request of a way to write the report, of which a refusal sends nothing.
fn try_sent<C: Cache<&'static str>>(
    rt: &(impl Abort + AllocGlobal + Print),
    stderr: Stderr,
    report: &Report<'static, Piece>,
    row: &(Way, &str, bool),
    cache: &mut C,
    picture: &str,
    nth: u16,
) -> bool
    requires { C.can_fetch cache.old }
    ensures { C.can_fetch cache.new }
{
    let (way, name, is_held) = *row;
    let mut out = roomy(rt.alloc()).expect(rt, "memory");
    refuse_at(rt, nth);
    let answer = sent(rt, stderr, report, way, cache, &mut out);
    let is_refused = assert_refused(rt, (name, nth), answer.is_err());
    assert_answer(rt, answer, LEFT_OUT);
    assert_at(rt, (name, nth), "the sink", !out.failed());
    let held = if is_held && !is_refused { picture } else { "" };
    let is_sent = out.narrow.held.as_slice() == held.as_bytes();
    assert_at(rt, (name, nth), "the picture", is_sent);
    is_refused
}

/// Refuses the nth request of a way to write the report. With memory the whole picture is sent over
/// the same cache.
fn try_way(
    rt: &(impl Abort + AllocGlobal + Print),
    stderr: Stderr,
    report: &Report<'static, Piece>,
    way: &(Way, &str, bool),
    picture: &str,
    nth: u16,
) -> bool {
    let mut cache: FnCache<&'static str, _, &'static str> = FnCache::new(rt.alloc(), text_of);
    let is_refused = try_sent(rt, stderr, report, way, &mut cache, picture, nth);
    let is_grown = has_grown(&cache, !is_refused);
    assert_at(rt, (way.1, nth), "the cache", is_grown);
    assert_whole(rt, report, &mut cache, picture);
    is_refused
}

/// Refuses each request of each way to write the report of a configuration.
fn try_ways(rt: &(impl Abort + AllocGlobal + Print), stderr: Stderr, config: Config) {
    let report = rich(rt.alloc(), config).expect(rt, "memory");
    let picture = picture_of(rt, &report).expect(rt, "the picture");
    for way in WAYS {
        for nth in 1..MOST_REQUESTS {
            if !try_way(rt, stderr, &report, way, picture.as_str(), nth) {
                break;
            }
        }
    }
}

#[test]
fn a_refused_picture_sends_nothing_and_the_next_is_whole(rt: HostRuntime) {
    try_ways(&rt, rt.stderr(), plain());
    try_ways(&rt, rt.stderr(), plain().with_color(true))
}
