//! `lint` over files of the system, into a writer that fails.

ghost use Rattle.std.specs.Prelude.{◌<◌};

use crate::comparing::assert_same_of;
use crate::outcome::Outcome;
use ariadne_commands::{Offence, Status, first_offence, lint, texts_have_one_first_offence};
use ariadne_testing::{Folder, Taker, refuse, texts};
use std::alloc::{AllocError, Global};
use std::io::ErrorKind;
use std::process::Abort;
use std::rt::Files;

/// What stands in the two files of the picture.
pub const FIRST: &[u8] = b"(]";

pub const SECOND: &[u8] = b"f(x\n]\n";

/// The picture of both files.
pub fn both(alloc: Global, first: &str, second: &str) -> Result<String, AllocError> {
    format!(in alloc;
        "\
Error: unbalanced brackets
   ,-[ {first}:1:1 ]
   |
 1 | (]
   | ||  \n   | `--- opened here
   |  |  \n   |  `-- closed by another bracket here
   |
   |-[ {second}:1:2 ]
   |
 1 | ,-> f(x
   | |    |  \n   | |    `-- opened here
 2 | |-> ]
   | |       \n   | `------- closed by another bracket here
---'
"
    )
}

/// Lints the files at these paths, with this request for memory refused, counted from 1, or with none
/// where it is 0.
pub fn run(
    rt: &(impl Files + AllocGlobal + Abort),
    words: &[&str],
    out: Taker,
    nth: usize,
) -> Outcome
    requires { nth < 100000 }
{
    let alloc = rt.alloc();
    let words = texts(alloc, words).expect(rt, "memory");
    let mut out = out;
    let mut faults = Taker::whole(alloc).expect(rt, "memory");
    refuse(alloc, nth);
    let status = lint(rt, alloc, words.as_slice(), &mut out, &mut faults);
    Outcome {
        nth,
        status: status as u8,
        out: out.held,
        faults: faults.held,
    }
}

/// Asserts that a writer that fails behind calls of one byte holds these bytes, and that this is told
/// behind what can't be read.
fn assert_cut(
    rt: &(impl Files + AllocGlobal + Abort),
    words: &[&str],
    held: &[u8],
    fault: Option<ErrorKind>,
) {
    let calls = held.len();
    let out = Taker::narrow(rt.alloc(), 1, calls, fault);
    let outcome = run(rt, words, out, 0);
    let told = format!(in rt.alloc(); "/: can't be read\nwrite failed after {calls} bytes\n");
    let told = told.expect(rt, "memory");
    outcome.assert_is(rt, Status::Failed as u8, held, told.as_bytes())
}

/// Asserts this of each beginning of the picture, of a writer with a fault and of one that takes
/// nothing.
fn assert_cuts(rt: &(impl Files + AllocGlobal + Abort), words: &[&str], whole: &[u8]) {
    for calls in 0..whole.len() {
        assert_cut(rt, words, &whole[..calls], Some(ErrorKind::BrokenPipe));
        assert_cut(rt, words, &whole[..calls], None);
    }
}

#[test]
fn a_writer_that_fails_is_told_with_what_it_took(rt: HostRuntime) {
    let folder = Folder::new(&rt).expect(&rt, "a folder");
    let first = folder.file_of(&rt, "a", FIRST).expect(&rt, "a file");
    let second = folder.file_of(&rt, "b", SECOND).expect(&rt, "a file");
    let whole = both(rt.alloc(), first.as_str(), second.as_str()).expect(&rt, "memory");
    let words = [first.as_str(), second.as_str(), "/"];
    assert_cuts(&rt, &words, whole.as_bytes());
    folder.remove(&rt).expect(&rt, "no folder")
}

/// Texts, and the first offence of each.
const TEXTS: &[(&str, Option<Offence>)] = &[
    ("", None),
    ("a(b)[]", None),
    (")(", Some(Offence::Unopened(0))),
    ("\u{e9})", Some(Offence::Unopened(1))),
    ("([)]", Some(Offence::Mismatched(1, 2))),
    ("([", Some(Offence::Unclosed(1))),
    ("(()", Some(Offence::Unclosed(0))),
    ("{[()]}{", Some(Offence::Unclosed(6))),
];

/// The name of an offence, if there is one, and its offsets.
pub fn parts_of(offence: Option<Offence>) -> (&'static str, usize, usize) {
    match offence {
        Some(Offence::Unopened(at)) => ("unopened", at, 0),
        Some(Offence::Mismatched(at, by)) => ("mismatched", at, by),
        Some(Offence::Unclosed(at)) => ("unclosed", at, 0),
        None => ("no offence", 0, 0),
    }
}

/// Asserts that this is the first offence of a text.
fn assert_first(rt: &(impl AllocGlobal + Abort), text: &str, want: Option<Offence>) {
    let found = first_offence(rt.alloc(), text).expect(rt, "memory");
    assert_same_of(rt, text, &parts_of(found), &parts_of(want))
}

#[test]
fn the_first_offence_of_a_text(rt: HostRuntime) {
    texts_have_one_first_offence();
    for (text, want) in TEXTS {
        assert_first(&rt, *text, *want)
    }
}
