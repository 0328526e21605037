//! Which lines are a document that goes over many.

use crate::comparing::assert_same_of;
use ariadne_documents::{Document, Step, begins};
use serde_json::Value;
use std::alloc::{AllocError, Global};
use std::process::Abort;

/// Lines, each with whether it begins a document that goes on behind it.
const FIRST: &[(&str, bool)] = &[
    ("{\n", true),
    ("[\n", true),
    ("  [{\r\n", true),
    ("{ \"a\": [\n", true),
    ("[{\"kind\": \"]}\", \"x\": [\n", true),
    // whole values are read as lines
    ("{}\n", false),
    ("[1, 2]\n", false),
    ("{\"a\": \"{\"}\n", false),
    // no JSON
    ("{ // a comment\n", false),
    ("[INFO] building [\n", false),
    ("[1/3] Compiling {\n", false),
    ("int main(void) {\n", false),
    ("}\n", false),
    ("\"a\": {\n", false),
    ("\n", false),
    // a text that doesn't end in its line
    ("{\"a\": \"b\n", false),
    ("{\"a\\\": [\n", false),
    ("{\"a\\\\\": [\n", true),
];

#[test]
fn lines_that_begin_a_document(rt: HostRuntime) {
    for (line, want) in FIRST {
        assert_same_of(&rt, *line, &begins(line.as_bytes()), want);
    }
}

/// The document that a text begins, and what it does with the last line. A line behind its end isn't taken.
pub fn gathered(alloc: Global, text: &str) -> Result<(Document, Option<Step>), AllocError> {
    let mut document = Document::new(alloc);
    let mut step = None;
    for line in text.split_inclusive('\n') {
        step = Some(taken(&mut document, step, line.as_bytes())?);
    }
    Ok((document, step))
}

/// What a document does with a line behind another step, or with its first line.
fn taken(document: &mut Document, step: Option<Step>, line: &[u8]) -> Result<Step, AllocError> {
    match step {
        None if !begins(line) => Ok(Step::Broken),
        Some(Step::Ended | Step::Broken) => Ok(Step::Broken),
        _ => document.take(line),
    }
}

/// The number that a value has as its member `a`.
fn number_in(value: &Option<Value>) -> Option<u64> {
    value.as_ref()?.get("a")?.as_u64()
}

/// Lines of a document, and what comes of them.
struct Lines {
    /// Those that are taken.
    held: &'static str,
    /// One that isn't, if there is one.
    other: &'static str,
    /// The last step.
    step: Step,
    /// The number that the value has.
    number: u64,
}

const DOCUMENTS: &[Lines] = &[
    Lines {
        held: "{\n  \"a\": 7\n}\n",
        other: "",
        step: Step::Ended,
        number: 7,
    },
    Lines {
        held: "{\n\n\t\"a\": 7\r\n}",
        other: "",
        step: Step::Ended,
        number: 7,
    },
    Lines {
        held: "{\n  \"a\": 7,\n",
        other: "",
        step: Step::GoesOn,
        number: 0,
    },
    // brackets in texts are none
    Lines {
        held: "{\n  \"b\": \"}]\\\"}\",\n  \"a\": 7\n}\n",
        other: "",
        step: Step::Ended,
        number: 7,
    },
    // a line that can't be one of it isn't taken
    Lines {
        held: "{\n",
        other: "a.c:1:2: error: m\n",
        step: Step::Broken,
        number: 0,
    },
    Lines {
        held: "{\n",
        other: "  \"a\": \"\n",
        step: Step::Broken,
        number: 0,
    },
    // it ends, and serde_json refuses it
    Lines {
        held: "{\n  \"a\": 7,\n}\n",
        other: "",
        step: Step::Ended,
        number: 0,
    },
    Lines {
        held: "[\n}\n",
        other: "",
        step: Step::Ended,
        number: 0,
    },
    // half a pair that stands alone is mended
    Lines {
        held: "{\n  \"b\": \"\\ud800\",\n  \"a\": 7\n}\n",
        other: "",
        step: Step::Ended,
        number: 7,
    },
];

/// The name of a step, if there was one.
fn name_of(step: Option<Step>) -> &'static str {
    match step {
        Some(Step::GoesOn) => "goes on",
        Some(Step::Ended) => "ended",
        Some(Step::Broken) => "broken",
        None => "no step",
    }
}

/// Asserts that lines made this document, with this last step.
fn assert_document(
    rt: &(impl AllocGlobal + Abort),
    it: &Lines,
    document: &Document,
    step: Option<Step>,
) {
    let value = document.value(rt.alloc()).expect(rt, "memory");
    let number = number_in(&value).unwrap_or(0);
    let found = (name_of(step), document.bytes(), number);
    assert_same_of(
        rt,
        it.held,
        &found,
        &(name_of(Some(it.step)), it.held.as_bytes(), it.number),
    )
}

/// Asserts what comes of lines.
fn assert_gathered(rt: &(impl AllocGlobal + Abort), it: &Lines) {
    let text = [it.held, it.other].concat(rt.alloc()).expect(rt, "memory");
    let (document, step) = gathered(rt.alloc(), text.as_str()).expect(rt, "memory");
    assert_document(rt, it, &document, step)
}

#[test]
fn documents_by_their_lines(rt: HostRuntime) {
    for it in DOCUMENTS {
        assert_gathered(&rt, it);
    }
}
