//! The program with each of its requests for memory refused in turn.

ghost use Rattle.std.specs.Prelude.{◌<◌};

use crate::comparing::assert_same_of;
use crate::draw::{TEXT, run};
use crate::outcome::is_served;
use ariadne_commands::{Status, without_colors};
use ariadne_testing::{Given, Taker, refuse, texts, was_refused};
use std::process::Abort;
use std::rt::Files;

/// Words that ask for a picture of two labels.
static WORDS: [&str; 9] = ["--ascii", "--plain", "m", "0", "5", "a", "9", "15", "b"];

/// Refuses the nth request of drawing. Where there is none the report is drawn, and the result is
/// true.
fn is_drawn(rt: &(impl Files + AllocGlobal + Abort), nth: usize) -> bool
    requires { nth < 100000 }
{
    let out = Taker::whole(rt.alloc()).expect(rt, "memory");
    let (outcome, _) = run(rt, &WORDS, Given::whole(TEXT), out, nth);
    if was_refused(rt.alloc()) {
        outcome.assert_is(rt, Status::Failed as u8, b"", b"no memory\n");
        return false;
    }
    outcome.assert_status(rt, Status::Clean as u8);
    true
}

#[test]
fn a_refused_request_is_told_as_no_memory(rt: HostRuntime) {
    for nth in 1..1000 {
        if is_drawn(&rt, nth) {
            return;
        }
    }
    panic!(rt; "a request was refused each time")
}

/// Refuses the nth request of adding a word. Where there is none the word is added, and the result is
/// true.
fn is_added(rt: &(impl AllocGlobal + Abort), nth: usize) -> bool
    requires { nth < 100000 }
{
    let alloc = rt.alloc();
    let words = texts(alloc, &["--ascii", "m"]).expect(rt, "memory");
    refuse(alloc, nth);
    let is_ok = match without_colors(alloc, words) {
        Ok(plain) => {
            assert_same_of(rt, "the words", &plain.len(), &3);
            true
        }
        Err(_) => false,
    };
    is_served(rt, nth, is_ok)
}

#[test]
fn a_refused_word_is_an_error(rt: HostRuntime) {
    for nth in 1..1000 {
        if is_added(&rt, nth) {
            return;
        }
    }
    panic!(rt; "a request was refused each time")
}
