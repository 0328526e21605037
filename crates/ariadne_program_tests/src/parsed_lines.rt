//! Lines that tell a diagnostic, as the pages of their tools show them, and what is told of each.

use crate::comparing::assert_text_of;
use crate::showing::{location_text, severity_name};
use ariadne_parse::{
    Answer, Counting, Diagnostic, End, Format, Location, OwnKind, Reading, Sent, Span, Unit, parsed,
};
use std::alloc::{AllocError, Global};
use std::process::Abort;

/// A line, and what it tells: its file, where it points and up to where it goes, its severity and kind, its code,
/// and its message. Of a line that tells nothing that is nothing.
type Line = (&'static str, &'static str);

/// Lines of gcc, clang and javac.
const COMPILERS: &[Line] = &[
    // gcc and clang
    (
        "a.c:3:7: warning: unused variable 'x' [-Wunused-variable]",
        "a.c 3:7 Warning () (-Wunused-variable) unused variable 'x'",
    ),
    ("a.c:3: error: m", "a.c 3 Error () () m"),
    (
        "a.c:1:10: fatal error: x.h: No such file or directory",
        "a.c 1:10 Error () () x.h: No such file or directory",
    ),
    (
        "a.cc:1:21: note:   candidate expects 1 argument, 2 provided",
        "a.cc 1:21 Note () () candidate expects 1 argument, 2 provided",
    ),
    (
        "p.py:20: note:     def area(self) -> float",
        "p.py 20 Note () ()     def area(self) -> float",
    ),
    ("p.py:20: error:   m", "p.py 20 Error () () m"),
    ("p.py:20: note:   ", "p.py 20 Note () () "),
    (
        "a.c:3:9:{3:5-3:8}{3:9-3:12}: error: m",
        "a.c 3:9 before 3:12 Error () () m",
    ),
    ("C:\\a b.c:3:7: error: m", "C:\\a b.c 3:7 Error () () m"),
    ("a.c:3:4:text", ""),
    ("a.c: In function 'main':", ""),
    ("make[1]: *** [Makefile:4: second.o] Error 1", ""),
    // javac
    (
        "A.java:3: error: ';' expected",
        "A.java 3 Error () () ';' expected",
    ),
    (
        "A.java:17: warning: [rawtypes] found raw type: List",
        "A.java 17 Warning () () [rawtypes] found raw type: List",
    ),
];

/// Lines of mypy, GHC, cppcheck and flake8.
const CHECKERS: &[Line] = &[
    // mypy, with --show-error-end, and GHC: the end is that of the last character
    (
        "a.py:8: error: Incompatible return value  [return-value]",
        "a.py 8 Error () (return-value) Incompatible return value",
    ),
    (
        "a.py:8:12:8:21: error: m  [return-value]",
        "a.py 8:12 behind 8:21 Error () (return-value) m",
    ),
    (
        "A.hs:3:5-10: error: m",
        "A.hs 3:5 behind 3:10 Error () () m",
    ),
    // cppcheck
    (
        "a.c:2:0: style: m [unusedVariable]",
        "a.c 2:0 Note () (unusedVariable) m",
    ),
    (
        "a.c:2:5: portability: m",
        "a.c 2:5 Warning (portability) () m",
    ),
    (
        "a.c:2:5: performance: m",
        "a.c 2:5 Warning (performance) () m",
    ),
    ("a.c:2:5: information: m", "a.c 2:5 Note () () m"),
    // flake8
    (
        "a.py:1:80: E501 line too long (82 > 79 characters)",
        "a.py 1:80 Error () (E501) line too long (82 > 79 characters)",
    ),
    (
        "a.py:1:1: F401 [*] `os` imported but unused",
        "a.py 1:1 Error () (F401) [*] `os` imported but unused",
    ),
    (
        "a.py:1:7: W291 trailing whitespace",
        "a.py 1:7 Warning () (W291) trailing whitespace",
    ),
    (
        "a.py:1:1: C901 'f' is too complex (12)",
        "a.py 1:1 Note () (C901) 'f' is too complex (12)",
    ),
    ("a.py:1: [E501] m", "a.py 1 Error () (E501) m"),
    ("a.c:3:4: X11 is gone", "a.c 3:4 Error () () X11 is gone"),
];

/// Lines of pylint, yamllint, rubocop, tsc and others.
const LINTERS: &[Line] = &[
    // pylint, whose columns count from 0, and characters where its messages are about tokens
    (
        "a.py:3:0: C0303: Trailing whitespace (trailing-whitespace)",
        "a.py 3:1 in characters Note () (C0303) Trailing whitespace (trailing-whitespace)",
    ),
    (
        "a.py:2:29: E0602: Undefined variable 'x' [E]",
        "a.py 2:30 Error () (E0602) Undefined variable 'x' [E]",
    ),
    (
        "a.py:9: [R1721(unnecessary-comprehension), f] m",
        "a.py 9 Note () (R1721) m",
    ),
    // yamllint, rubocop and others with a code behind their kind
    (
        "a.yml:1:1: [warning] missing document start \"---\" (document-start)",
        "a.yml 1:1 Warning () () missing document start \"---\" (document-start)",
    ),
    ("a.c:1:1: (Error): m", "a.c 1:1 Error () () m"),
    (
        "a.rb:1:1: C: [Correctable] Style/StringLiterals: m",
        "a.rb 1:1 Note (C) () [Correctable] Style/StringLiterals: m",
    ),
    (
        "a.ts:3:5: error TS2322: Type 'string' is not assignable to type 'number'.",
        "a.ts 3:5 Error () (TS2322) Type 'string' is not assignable to type 'number'.",
    ),
    (
        "a.x:3:5: WARNING[W1]: m [x]",
        "a.x 3:5 Warning () (W1) m [x]",
    ),
    (
        "a.x:3:5: Refactor(S100): m",
        "a.x 3:5 Note (Refactor) (S100) m",
    ),
    (
        "a.x:3:5: note (see below): m",
        "a.x 3:5 Error () () note (see below): m",
    ),
    // tsc and MSBuild, whose spans stand in parentheses
    (
        "src/a.ts(3,5): error TS2322: Type 'string' is not assignable to type 'number'.",
        "src/a.ts 3:5 Error () (TS2322) Type 'string' is not assignable to type 'number'.",
    ),
    (
        "a.cpp(12): warning C4101: 'x': unreferenced local variable [a.vcxproj]",
        "a.cpp 12 Warning () (C4101) 'x': unreferenced local variable [a.vcxproj]",
    ),
];

/// Lines of eslint, Go's tools, rustc, erlc and others.
const OTHERS: &[Line] = &[
    // eslint and Go's tools, which name no kinds
    (
        "/p/a.js:1:5: 'x' is assigned a value but never used. [Error/no-unused-vars]",
        "/p/a.js 1:5 Error () (Error/no-unused-vars) 'x' is assigned a value but never used.",
    ),
    (
        "/p/a.js:1:5: React: m [Warning/no-console]",
        "/p/a.js 1:5 Warning () (Warning/no-console) React: m",
    ),
    (
        "./a.go:3:4: undefined: x",
        "./a.go 3:4 Error () () undefined: x",
    ),
    (
        "vet: ./a.go:3:4: undefined: x",
        "./a.go 3:4 Error () () undefined: x",
    ),
    // kinds that only the tool knows
    (
        "/p/a.py:3: DeprecationWarning: invalid escape sequence",
        "/p/a.py 3 Warning (DeprecationWarning) () invalid escape sequence",
    ),
    (
        "a.py:1:9: invalid-syntax: m",
        "a.py 1:9 Warning (invalid-syntax) () m",
    ),
    ("Makefile:3: two words: m", ""),
    // rustc --error-format=short: its columns count characters
    (
        "a.rs:2:5: error[E0308]: mismatched types",
        "a.rs 2:5 in characters Error () (E0308) mismatched types",
    ),
    ("a.rs:2:5: error: m", "a.rs 2:5 in characters Error () () m"),
    ("a.rs.c:2:5: error: m", "a.rs.c 2:5 Error () () m"),
    // erlc
    (
        "a.erl:3:16: variable 'Z' is unbound",
        "a.erl 3:16 Error () () variable 'Z' is unbound",
    ),
    (
        "a.erl:3:3: Warning: variable 'X' is unused",
        "a.erl 3:3 Warning () () variable 'X' is unused",
    ),
];

/// A location behind a word.
fn behind(alloc: Global, word: &str, location: Location) -> Result<String, AllocError> {
    format!(in alloc; " {word} {}", location_text(alloc, location)?)
}

/// Where a span ends, or what its columns count.
fn end_text(alloc: Global, span: &Span) -> Result<String, AllocError> {
    match span.end {
        End::Before(end) => behind(alloc, "before", end),
        End::Behind(end) => behind(alloc, "behind", end),
        End::OfWord if span.unit == Unit::Char => String::from_str(alloc, " in characters"),
        End::OfWord => Ok(String::new(alloc)),
    }
}

/// Where a span begins and ends.
fn span_text(alloc: Global, span: &Span) -> Result<String, AllocError> {
    let file = span.file.as_str();
    let start = location_text(alloc, span.caret)?;
    let end = end_text(alloc, span)?;
    format!(in alloc; "{file} {start}{end}")
}

/// The name of a kind of its own; nothing where there is none.
fn name_of(kind: Option<&OwnKind>) -> &str {
    match kind {
        Some(kind) => kind.name.as_str(),
        None => "",
    }
}

/// A diagnostic in one line.
fn parsed_text(alloc: Global, it: &Diagnostic) -> Result<String, AllocError> {
    let span = match it.main_span() {
        Some(span) => span_text(alloc, span)?,
        None => String::new(alloc),
    };
    let name = name_of(it.own_kind.as_ref());
    let code = it.code.as_deref().unwrap_or("");
    let message = it.message.as_str();
    let severity = severity_name(it.severity);
    format!(in alloc; "{span} {severity} ({name}) ({code}) {message}")
}

/// How the lines are read.
const READING: Reading = Reading {
    format: Format::Lines,
    counting: Counting {
        unit: Unit::Byte,
        is_from_zero: false,
    },
};

/// The answer to a line alone.
pub fn answer_of(alloc: Global, line: &str) -> Result<Answer, AllocError> {
    parsed(alloc, READING, &mut Sent::new(alloc), line)
}

/// What a line tells, in one line; nothing where it tells nothing.
fn line_text(alloc: Global, line: &str) -> Result<String, AllocError> {
    match answer_of(alloc, line)? {
        Answer::Head(it) | Answer::Note(it) => parsed_text(alloc, &it),
        Answer::Nothing | Answer::Dropped | Answer::Diagnostics(_) => Ok(String::new(alloc)),
    }
}

/// Asserts what each line tells.
fn assert_lines(rt: &(impl AllocGlobal + Abort), lines: &[Line]) {
    for &(line, want) in lines {
        assert_text_of(rt, line, line_text(rt.alloc(), line), want);
    }
}

#[test]
fn lines_of_tools(rt: HostRuntime) {
    assert_lines(&rt, COMPILERS);
    assert_lines(&rt, CHECKERS);
    assert_lines(&rt, LINTERS);
    assert_lines(&rt, OTHERS)
}
