//! `draw` over inputs and writers that fail.

ghost use Rattle.std.specs.Prelude.{◌<◌};

use crate::comparing::assert_same_of;
use crate::outcome::Outcome;
use ariadne_commands::{HelpPage, Status, Watched, draw};
use ariadne_testing::{Given, Taker, refuse, texts};
use std::io::ErrorKind;
use std::process::Abort;
use std::rt::Files;

/// Runs the program over an input and an output, with this request for memory refused, counted from
/// 1, or with none where it is 0. Returns what that came to, and whether a read failed.
pub fn run(
    rt: &(impl Files + AllocGlobal + Abort),
    words: &[&str],
    input: Given<'_>,
    out: Taker,
    nth: usize,
) -> (Outcome, bool)
    requires { nth < 100000 }
{
    let alloc = rt.alloc();
    let words = texts(alloc, words).expect(rt, "memory");
    let mut input = Watched::new(input);
    let mut out = out;
    let mut faults = Taker::whole(alloc).expect(rt, "memory");
    refuse(alloc, nth);
    let status = draw(
        rt,
        alloc,
        words.as_slice(),
        &mut input,
        &mut out,
        &mut faults,
    );
    let outcome = Outcome {
        nth,
        status: status as u8,
        out: out.held,
        faults: faults.held,
    };
    (outcome, input.has_failed())
}

/// Told of an input that can't be read.
const UNREAD: &[u8] = b"input: can't be read\n";

/// Inputs, each with the fault behind it, and the status and the line that it leads to.
const INPUTS: &[(&[u8], Option<ErrorKind>, Status, &[u8])] = &[
    (b"ab", Some(ErrorKind::TimedOut), Status::BadInput, UNREAD),
    // (that these are no text is not told)
    (
        b"a\xff",
        Some(ErrorKind::TimedOut),
        Status::BadInput,
        UNREAD,
    ),
    (b"a\xff", None, Status::BadInput, b"input: not UTF-8\n"),
    (
        b"ab",
        Some(ErrorKind::OutOfMemory),
        Status::Failed,
        b"no memory\n",
    ),
];

/// Words that ask for a picture of one label.
static ONE_LABEL: [&str; 6] = ["--ascii", "--plain", "m", "0", "1", "x"];

/// Asserts that of an input with a fault behind it nothing is drawn, and that this is told.
fn assert_unread(
    rt: &(impl Files + AllocGlobal + Abort),
    input: Given<'_>,
    status: Status,
    told: &[u8],
) {
    let is_faulty = input.fault.is_some();
    let out = Taker::whole(rt.alloc()).expect(rt, "memory");
    let (outcome, has_failed) = run(rt, &ONE_LABEL, input, out, 0);
    assert!(rt; has_failed == is_faulty);
    outcome.assert_is(rt, status as u8, b"", told)
}

#[test]
fn an_input_that_can_not_be_read_is_told(rt: HostRuntime) {
    for &(rest, fault, status, told) in INPUTS {
        assert_unread(&rt, Given { rest, fault }, status, told)
    }
}

/// A text and words that ask for its picture.
pub const TEXT: &[u8] = b"apple == orange;";

static WORDS: [&str; 9] = [
    "--ascii",
    "--plain",
    "can't compare apples with oranges",
    "0",
    "5",
    "This is an apple",
    "9",
    "15",
    "This is an orange",
];

/// The picture.
static PICTURE: &str = "\
Error: can't compare apples with oranges
   ,-[ <unknown>:1:1 ]
   |
 1 | apple == orange;
   | ^^|^^    ^^^|^^  \n   |   `-------------- This is an apple
   |             |    \n   |             `---- This is an orange
---'
";

/// How many bytes a writer takes a call, and how many calls it serves before it fails.
type Narrow = (usize, usize);

/// Asserts that a writer that fails behind these bytes holds them, and that this is told.
fn assert_cut(
    rt: &(impl Files + AllocGlobal + Abort),
    words: &[&str],
    held: &[u8],
    (room, calls): Narrow,
    fault: Option<ErrorKind>,
) {
    let out = Taker::narrow(rt.alloc(), room, calls, fault);
    let (outcome, _) = run(rt, words, Given::whole(TEXT), out, 0);
    let sent = held.len();
    let told = format!(in rt.alloc(); "write failed after {sent} bytes\n").expect(rt, "memory");
    outcome.assert_is(rt, Status::Failed as u8, held, told.as_bytes())
}

/// Asserts this of each beginning of what the words write, taken byte by byte or at once, of a writer with
/// a fault and of one that takes nothing.
fn assert_cuts(
    rt: &(impl Files + AllocGlobal + Abort),
    words: &[&str],
    whole: &str,
    is_by_byte: bool,
) {
    let whole = whole.as_bytes();
    for sent in 0..whole.len() {
        let narrow = if is_by_byte {
            (1, sent)
        } else {
            (sent, sent.min(1))
        };
        assert_cut(
            rt,
            words,
            &whole[..sent],
            narrow,
            Some(ErrorKind::BrokenPipe),
        );
        assert_cut(rt, words, &whole[..sent], narrow, None);
    }
}

#[test]
fn a_writer_that_fails_at_each_call_holds_a_beginning(rt: HostRuntime) {
    assert_same_of(&rt, "the picture", &PICTURE.len(), &223);
    assert_cuts(&rt, &WORDS, PICTURE, true);
    // (The long page takes as many calls as its square, byte by byte.)
    assert_cuts(&rt, &["--help"], HelpPage::Help.text(), false);
    assert_cuts(&rt, &["--version"], HelpPage::Version.text(), true)
}
