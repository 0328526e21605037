//! The linter with each of its requests for memory refused in turn.

ghost use Rattle.std.specs.Prelude.{◌<◌};

use crate::comparing::assert_same_of;
use crate::lint::{FIRST, SECOND, both, parts_of, run};
use crate::outcome::is_served;
use ariadne_commands::{Offence, Status, first_offence};
use ariadne_testing::{Folder, Taker, refuse, was_refused};
use std::process::Abort;
use std::rt::Files;

/// Refuses the nth request of looking for an offence. Where there is none it is found, and the result
/// is true.
fn is_found(rt: &(impl AllocGlobal + Abort), nth: usize) -> bool
    requires { nth < 100000 }
{
    let alloc = rt.alloc();
    refuse(alloc, nth);
    let is_ok = match first_offence(alloc, "(((((((((((((((((((((((((((((((((((((((x") {
        Ok(found) => {
            let want = Some(Offence::Unclosed(38));
            assert_same_of(rt, "the text", &parts_of(found), &parts_of(want));
            true
        }
        Err(_) => false,
    };
    is_served(rt, nth, is_ok)
}

#[test]
fn a_refused_request_of_first_offence_is_its_error(rt: HostRuntime) {
    for nth in 1..1000 {
        if is_found(&rt, nth) {
            return;
        }
    }
    panic!(rt; "a request was refused each time")
}

/// Refuses the nth request of linting. Where there is none the picture is this, and the result is
/// true.
fn is_drawn(
    rt: &(impl Files + AllocGlobal + Abort),
    words: &[&str],
    nth: usize,
    picture: &[u8],
) -> bool
    requires { nth < 100000 }
{
    let out = Taker::whole(rt.alloc()).expect(rt, "memory");
    let outcome = run(rt, words, out, nth);
    if was_refused(rt.alloc()) {
        outcome.assert_is(rt, Status::Failed as u8, b"", b"no memory\n");
        return false;
    }
    outcome.assert_is(rt, Status::Findings as u8, picture, b"");
    true
}

/// Refuses each request of linting in turn, up to the one that there is none of.
fn refuse_each(rt: &(impl Files + AllocGlobal + Abort), words: &[&str], picture: &[u8]) {
    for nth in 1..1000 {
        if is_drawn(rt, words, nth, picture) {
            return;
        }
    }
    panic!(rt; "a request was refused each time")
}

#[test]
fn a_refused_request_is_told_as_no_memory(rt: HostRuntime) {
    let folder = Folder::new(&rt).expect(&rt, "a folder");
    let first = folder.file_of(&rt, "a", FIRST).expect(&rt, "a file");
    let second = folder.file_of(&rt, "b", SECOND).expect(&rt, "a file");
    let picture = both(rt.alloc(), first.as_str(), second.as_str()).expect(&rt, "memory");
    let words = [first.as_str(), second.as_str()];
    refuse_each(&rt, &words, picture.as_bytes());
    folder.remove(&rt).expect(&rt, "no folder")
}
