//! Lines beside the heads of diagnostics, as gcc, clang, rustc and javac write them, and what is read of
//! each.

use crate::comparing::{assert_same_of, assert_text_of};
use crate::showing::{location_text, severity_name};
use ariadne_parse::{
    Location, arrow_of, bare_head_of, front_of, has_escape, is_scope_line, is_tally, without_sgr,
};
use std::alloc::{AllocError, Global};
use std::process::Abort;

/// A span and what is said of it, in one line.
fn span_text(alloc: Global, file: &str, start: Location, said: &str) -> Result<String, AllocError> {
    format!(in alloc; "{file} {} {said}", location_text(alloc, start)?)
}

/// What a line in front of a diagnostic tells; nothing where it is none.
fn front_text(alloc: Global, line: &str) -> Result<String, AllocError> {
    match front_of(line) {
        Some(front) => span_text(alloc, front.file, front.start, front.text),
        None => Ok(String::new(alloc)),
    }
}

/// What an arrow points at; nothing where a line has none.
fn arrow_text(alloc: Global, line: &str) -> Result<String, AllocError> {
    match arrow_of(line) {
        Some(arrow) => {
            let said = if arrow.is_further { "further" } else { "own" };
            span_text(alloc, arrow.file, arrow.start, said)
        }
        None => Ok(String::new(alloc)),
    }
}

/// What a kind alone in its line tells; nothing where a line has none.
fn bare_text(alloc: Global, line: &str) -> Result<String, AllocError> {
    match bare_head_of(line) {
        Some(head) => {
            let (name, code) = (head.name.unwrap_or(""), head.code.unwrap_or(""));
            let message = head.message;
            let severity = severity_name(head.severity);
            format!(in alloc; "{severity} ({name}) ({code}) {message}")
        }
        None => Ok(String::new(alloc)),
    }
}

/// Lines, each with what it tells in front of a diagnostic.
const FRONTS: &[(&str, &str)] = &[
    ("In file included from b.h:1,", "b.h 1 included here"),
    ("                 from t.c:1:", "t.c 1 included here"),
    (
        "In file included from ./b.h:1:10:",
        "./b.h 1:10 included here",
    ),
    (
        "    inlined from 'main' at t.c:7:3:",
        "t.c 7:3 inlined from 'main'",
    ),
    (
        "t.cc:3:22:   required from here",
        "t.cc 3:22 required from here",
    ),
    (
        "t.cc:5:21:   in 'constexpr' expansion of 'sq(0)'",
        "t.cc 5:21 in 'constexpr' expansion of 'sq(0)'",
    ),
    ("t.cc: In instantiation of 'T g(T) [with T = int]':", ""),
    ("t.c:3:4:   return x;", ""),
    ("from here on: nothing", ""),
];

#[test]
fn fronts(rt: HostRuntime) {
    for (line, want) in FRONTS {
        assert_text_of(&rt, *line, front_text(rt.alloc(), *line), *want);
    }
}

/// Lines, each with whether it names a scope and no span.
const SCOPES: &[(&str, bool)] = &[
    ("t.cc: In instantiation of 'T g(T) [with T = int]':", true),
    ("a.h: In function 'bar':", true),
    ("In function 'memset',", true),
    ("a.c: At top level:", true),
    ("In total: 3 errors", false),
    ("a.c:3:4: error: m", false),
];

#[test]
fn lines_that_name_no_place(rt: HostRuntime) {
    for (line, want) in SCOPES {
        assert_same_of(&rt, *line, &is_scope_line(*line), want);
    }
}

/// Lines, each with what its arrow points at.
const ARROWS: &[(&str, &str)] = &[
    (" --> src/main.rs:2:5", "src/main.rs 2:5 own"),
    ("    ::: src/a.rs:1:8", "src/a.rs 1:8 further"),
    ("--> a.sol:3:5:", "a.sol 3:5 own"),
    ("  |", ""),
];

/// Asserts what each arrow points at.
fn assert_arrows(rt: &(impl AllocGlobal + Abort)) {
    for (line, want) in ARROWS {
        assert_text_of(rt, *line, arrow_text(rt.alloc(), *line), *want);
    }
}

/// Lines, each with what its kind alone tells.
const HEADS: &[(&str, &str)] = &[
    (
        "error[E0425]: cannot find value `x` in this scope",
        "Error () (E0425) cannot find value `x` in this scope",
    ),
    (
        "warning: unused variable: `x`",
        "Warning () () unused variable: `x`",
    ),
    (
        "F401 [*] `os` imported but unused",
        "Error () (F401) [*] `os` imported but unused",
    ),
    ("apple: m", ""),
    ("error:", ""),
];

/// Asserts what each kind tells.
fn assert_kinds(rt: &(impl AllocGlobal + Abort)) {
    for (line, want) in HEADS {
        assert_text_of(rt, *line, bare_text(rt.alloc(), *line), *want);
    }
}

#[test]
fn arrows_and_kinds_of_rustc(rt: HostRuntime) {
    assert_arrows(&rt);
    assert_kinds(&rt)
}

/// Lines, each with whether it counts what a tool told.
const COUNTS: &[(&str, bool)] = &[
    ("2 warnings and 1 error generated.", true),
    ("1 warning generated.", true),
    ("1 error", true),
    ("100 warnings", true),
    ("1 warning emitted", false),
    ("Found 1 error in 1 file (checked 1 source file)", false),
    ("1 error and 2", false),
    ("error", false),
];

#[test]
fn counts_of_tools(rt: HostRuntime) {
    for (line, want) in COUNTS {
        assert_same_of(&rt, *line, &is_tally(*line), want);
    }
}

/// Lines, each without its colours.
const COLOURED: &[(&str, &str)] = &[
    (
        "\x1b[01m\x1b[Ka.c:6:10:\x1b[m\x1b[K \x1b[01;31m\x1b[Kerror: \x1b[m\x1b[Km",
        "a.c:6:10: error: m",
    ),
    ("\x1b[0m2 errors generated.", "2 errors generated."),
    ("a\x1b[38:2::1:2:3mb\x1b[2Jc\x1b", "ab\x1b[2Jc\x1b"),
    ("plain", "plain"),
];

#[test]
fn colours_are_taken_out(rt: HostRuntime) {
    for (line, want) in COLOURED {
        assert_text_of(&rt, *line, without_sgr(rt.alloc(), *line), *want);
        assert_same_of(&rt, *line, &has_escape(*line), &(*line != "plain"));
    }
}
