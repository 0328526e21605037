//! `show` over inputs of every kind, and readers and writers that fail.

ghost use Rattle.std.specs.Prelude.{◌<◌};

use crate::comparing::assert_same_of;
use crate::one_file::OneFile;
use crate::outcome::Outcome;
use ariadne_show::{
    FailOn, Fault, Options, Request, Status, Streams, Sum, Width, read_words, show, tell_fault,
};
use ariadne_testing::{Given, Taker, refuse, texts};
use std::alloc::{AllocError, Global};
use std::io::{BufReader, ErrorKind, Read};
use std::process::Abort;
use std::rt::Files;

/// What stands in the file that the lines are about.
pub const FILE: &[u8] = b"let x = y;\nlast";

/// The options that these words ask for, in a pipe.
pub fn options_of<'a>(rt: &(impl AllocGlobal + Abort), words: &'a [String]) -> Options<'a> {
    match read_words(rt.alloc(), words) {
        Ok(Request::Show { mut options, .. }) => {
            if let Width::Columns(columns) = options.width {
                options.style.width = columns;
            }
            options
        }
        _ => panic!(rt; "these words ask for nothing that is shown"),
    }
}

/// A text with a path in place of each `@`.
pub fn with_path(alloc: Global, text: &str, path: &str) -> Result<String, AllocError> {
    text.replace(alloc, '@', path)
}

/// Shows what a reader gives.
pub fn shown<I: Read + Drop>(
    rt: &(impl Files + AllocGlobal + Abort),
    options: &Options<'_>,
    input: I,
    streams: &mut Streams<Taker, Taker>,
) -> Result<Sum, Fault> {
    match BufReader::new(rt.alloc(), input) {
        Ok(mut input) => show(rt, rt.alloc(), options, &mut input, streams),
        Err(fault) => Err(Fault::of_reading(&fault)),
    }
}

/// Shows what a reader gives and tells of a fault, with this request for memory refused, counted from
/// 1, or with none where it is 0.
pub fn run(
    rt: &(impl Files + AllocGlobal + Abort),
    words: &[&str],
    input: Given<'_>,
    out: Taker,
    nth: usize,
) -> Outcome
    requires { nth < 100000 }
{
    let words = texts(rt.alloc(), words).expect(rt, "memory");
    let options = options_of(rt, words.as_slice());
    run_by(rt, &options, input, out, nth)
}

/// Does this by options that were read.
fn run_by(
    rt: &(impl Files + AllocGlobal + Abort),
    options: &Options<'_>,
    input: Given<'_>,
    out: Taker,
    nth: usize,
) -> Outcome
    requires { nth < 100000 }
{
    let mut streams = streams_with(rt, out);
    refuse(rt.alloc(), nth);
    let sum = shown(rt, options, input, &mut streams);
    outcome_of(sum, options.fail_on, streams, nth)
}

/// The streams of a run whose output this is.
pub fn streams_with(rt: &(impl AllocGlobal + Abort), out: Taker) -> Streams<Taker, Taker> {
    Streams {
        out,
        beside: Taker::whole(rt.alloc()).expect(rt, "memory"),
    }
}

/// What a run over streams came to, after it has told of its fault, if it had one.
pub fn outcome_of(
    sum: Result<Sum, Fault>,
    fail_on: FailOn,
    streams: Streams<Taker, Taker>,
    nth: usize,
) -> Outcome {
    let Streams { out, mut beside } = streams;
    let status = match sum {
        Ok(sum) => sum.status(fail_on),
        Err(fault) => tell_fault(&mut beside, &fault),
    };
    Outcome {
        nth,
        status: status as u8,
        out: out.held,
        faults: beside.held,
    }
}

/// Asserts that of an input this is shown.
fn assert_shown(
    rt: &(impl Files + AllocGlobal + Abort),
    words: &[&str],
    input: &[u8],
    status: Status,
    want: &[u8],
) {
    let out = Taker::whole(rt.alloc()).expect(rt, "memory");
    let outcome = run(rt, words, Given::whole(input), out, 0);
    outcome.assert_is(rt, status as u8, want, b"")
}

/// Inputs that tell nothing.
const PLAIN: &[&[u8]] = &[
    b"",
    b"\n\r\n\n",
    b"no line feed",
    b"{\"message\":\"m\",\"level\":\"error\",\"spans\":[\n",
    b"[]\n[1]\n{\"message\":1,\"level\":\"error\",\"spans\":[]}\n",
    b"a.c:3:4:text\na.c:3:4:  text\n12:30:45: started\n",
    b"a.c:1:1: error: \na.c:1: text\n",
    b"gone:1:1: error: m\n",
];

#[test]
fn lines_that_tell_nothing_go_through(rt: HostRuntime) {
    for input in PLAIN {
        assert_shown(&rt, &[], *input, Status::Shown, *input)
    }
}

#[test]
fn what_tells_nothing_goes_through_as_it_is(rt: HostRuntime) {
    let cut = b"caf\xe9\n\x1b\xff";
    assert_shown(&rt, &["--raw"], cut, Status::Shown, cut);
    let signs = "caf\u{fffd}\n\u{241b}\u{fffd}";
    assert_shown(&rt, &[], cut, Status::Shown, signs.as_bytes());
    let end = b"{\"reason\":\"build-finished\",\"success\":true}\n";
    assert_shown(&rt, &[], end, Status::Shown, b"")
}

/// Diagnostics about spans that a file lacks, and what is shown of each, with a `@` for its path.
const LACKING: &[(&str, &str)] = &[
    (
        "@:9:1: error: m\n",
        "Error: @:9:1: m\nNote: not drawn, since @ has no line 9\n1 error\n",
    ),
    (
        "@:0:1: error: m",
        "Error: @:0:1: m\nNote: not drawn, since @ has no line 0\n1 error\n",
    ),
    (
        "{\"kind\":\"error\",\"message\":\"m\",\"labels\":[{\"file\":\"@.gone\",\"start\":[1,1]}]}\n",
        "Error: @.gone:1:1: m\nNote: not drawn, since @.gone can't be read\n1 error\n",
    ),
];

/// Asserts that of lines about the file at this path this is shown, with its path for each `@`.
pub fn assert_shown_of(
    rt: &(impl Files + AllocGlobal + Abort),
    path: &str,
    words: &[&str],
    input: &str,
    want: &str,
) {
    let input = with_path(rt.alloc(), input, path).expect(rt, "memory");
    let want = with_path(rt.alloc(), want, path).expect(rt, "memory");
    let (input, want) = (input.as_bytes(), want.as_bytes());
    assert_shown(rt, words, input, Status::WithErrors, want)
}

/// Asserts what is shown of lines about the file at this path, each with what is wanted of it.
pub fn assert_each_shown_of(
    rt: &(impl Files + AllocGlobal + Abort),
    path: &str,
    words: &[&str],
    table: &[(&str, &str)],
) {
    for &(input, want) in table {
        assert_shown_of(rt, path, words, input, want)
    }
}

#[test]
fn places_that_a_file_lacks_are_told(rt: HostRuntime) {
    let file = OneFile::new(&rt, "a", FILE);
    assert_each_shown_of(&rt, file.path(), &["--ascii"], LACKING);
    file.remove(&rt)
}

/// Asserts that of a reader that fails the line before the fault is shown, and that this is told.
fn assert_unread(rt: &(impl Files + AllocGlobal + Abort), kind: ErrorKind, told: &[u8]) {
    let out = Taker::whole(rt.alloc()).expect(rt, "memory");
    let input = Given {
        rest: b"a line\nanother",
        fault: Some(kind),
    };
    let outcome = run(rt, &[], input, out, 0);
    outcome.assert_is(rt, Status::Failed as u8, b"a line\n", told)
}

#[test]
fn a_reader_that_fails_is_told(rt: HostRuntime) {
    let unread = b"ariadne-show: input: can't be read\n";
    assert_unread(&rt, ErrorKind::TimedOut, unread);
    assert_unread(&rt, ErrorKind::OutOfMemory, b"ariadne-show: no memory\n")
}

/// Asserts that a writer that fails so behind calls of one byte holds these bytes, and what comes of it.
fn assert_cut(
    rt: &(impl Files + AllocGlobal + Abort),
    held: &[u8],
    fault: ErrorKind,
    status: Status,
    told: &[u8],
) {
    let out = Taker::narrow(rt.alloc(), 1, held.len(), Some(fault));
    let input =
        b"a line\n{\"kind\":\"error\",\"message\":\"m\",\"labels\":[{\"file\":\"gone\",\"start\":[1]}]}\n";
    let outcome = run(rt, &[], Given::whole(input), out, 0);
    outcome.assert_is(rt, status as u8, held, told)
}

#[test]
fn a_writer_that_fails_at_each_call_holds_a_beginning(rt: HostRuntime) {
    let whole = b"a line\nError: gone:1: m\nNote: not drawn, since gone can't be read\n1 error\n";
    let told = b"ariadne-show: write failed\n";
    for calls in 0..whole.len() {
        let held = &whole[..calls];
        assert_cut(&rt, held, ErrorKind::StorageFull, Status::Failed, told);
        assert_cut(&rt, held, ErrorKind::BrokenPipe, Status::BrokenPipe, b"")
    }
}

/// Reads words, and tells why they ask for nothing.
pub fn status_of_words(alloc: Global, words: &[String], faults: &mut Taker) -> Status {
    match read_words(alloc, words) {
        Ok(_) => Status::Shown,
        Err(fault) => tell_fault(faults, &fault),
    }
}

/// Asserts what is told of words that ask for nothing.
fn assert_wrong(rt: &(impl AllocGlobal + Abort), words: &[&str], told: &str) {
    let words = texts(rt.alloc(), words).expect(rt, "memory");
    let mut faults = Taker::whole(rt.alloc()).expect(rt, "memory");
    let status = status_of_words(rt.alloc(), words.as_slice(), &mut faults);
    let found = (status as u8, faults.held.as_slice());
    assert_same_of(
        rt,
        "the words",
        &found,
        &(Status::WrongWords as u8, told.as_bytes()),
    )
}

#[test]
fn wrong_words_are_told_by_signs(rt: HostRuntime) {
    assert_wrong(
        &rt,
        &["--color", "a\x1b[2J\n"],
        "ariadne-show: invalid value 'a\u{241b}[2J\u{240a}' for '--color <WHEN>'\n  \
         [possible values: auto, always, never]\n\nFor more information, try '--help'.\n",
    )
}
