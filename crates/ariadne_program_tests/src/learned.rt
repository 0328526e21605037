//! What is to be learned of the rows of a snippet, as a text below each row.
//!
//! What a mark covers is told as `LINE:START..END`, with a `^` where it has one; the numbers were counted
//! by hand.

use crate::comparing::assert_same_of;
use crate::showing::push_made;
use ariadne_snippets::{Fix, FixKind, Label, Mark, Point, Snippet, Taken};
use std::alloc::{AllocError, Global};
use std::process::Abort;

/// What stands in front of what is to be learned of the row above.
const WANTED: &str = "=> ";

/// Rows behind the head of a span, and what is to be learned of them.
pub struct Rows {
    /// The lines of the file that they quote.
    pub file: &'static [&'static str],
    /// The line of the head, from 1.
    pub line: usize,
    /// The character of the line that the head names, from 0, if it names one.
    pub caret: Option<usize>,
    /// The rows, as `assert_learned` takes them.
    pub text: &'static str,
}

/// The line of a file with a number, from 1, if it has one.
fn line_of<'t>(file: &[&'t str], number: Option<usize>) -> Option<&'t str> {
    file.get(number?.wrapping_sub(1)).copied()
}

/// The characters of the line of a file with a number, from 1, if it has one.
fn source_of(
    alloc: Global,
    file: &[&str],
    number: Option<usize>,
) -> Result<Option<Vec<char>>, AllocError> {
    match line_of(file, number) {
        Some(line) => line.chars().collect(alloc).map(Some),
        None => Ok(None),
    }
}

/// Where a mark ends: the line too, if it begins in another.
fn end_text(alloc: Global, mark: &Mark<'_>) -> Result<String, AllocError> {
    let Point { line, offset } = mark.end;
    if line == mark.start.line {
        format!(in alloc; "{offset}")
    } else {
        format!(in alloc; "{line}:{offset}")
    }
}

/// What a mark covers.
fn mark_text(alloc: Global, mark: &Mark<'_>) -> Result<String, AllocError> {
    let Point { line, offset } = mark.start;
    let further = if mark.goes_on { "+" } else { "" };
    let end = end_text(alloc, mark)?;
    let caret = if mark.caret.is_some() { "^" } else { "" };
    let said = mark.text;
    format!(in alloc; " {further}{line}:{offset}..{end}{caret}{said}")
}

/// What marks cover.
fn marks_text(alloc: Global, marks: &[Mark<'_>]) -> Result<String, AllocError> {
    let mut text = String::new(alloc);
    for mark in marks {
        push_made(&mut text, mark_text(alloc, mark))?;
    }
    Ok(text)
}

/// What labels say.
fn labels_text(alloc: Global, labels: &[Label<'_>]) -> Result<String, AllocError> {
    let mut text = String::new(alloc);
    for label in labels {
        let mark = label.mark;
        let said = label.text;
        write!(text, " {mark}={said}")?;
    }
    Ok(text)
}

/// What is done at a place.
fn kind_text(kind: FixKind) -> &'static str {
    match kind {
        FixKind::Put => "put",
        FixKind::PutLine => "line",
        FixKind::Become => "become",
        FixKind::Remove => "remove",
    }
}

/// What is to be changed.
fn fixes_text(alloc: Global, fixes: &[Fix<'_>]) -> Result<String, AllocError> {
    let mut text = String::new(alloc);
    for fix in fixes {
        let kind = kind_text(fix.kind);
        let Point { line, offset } = fix.at;
        let said = fix.text;
        write!(text, " {kind} {line}:{offset} `{said}`")?;
    }
    Ok(text)
}

/// Where a range begins, behind the number of its mark.
fn begun_text(alloc: Global, mark: usize, start: Point) -> Result<String, AllocError> {
    let Point { line, offset } = start;
    format!(in alloc; "begun {mark}={line}:{offset}")
}

/// A text behind a word.
fn said_text(alloc: Global, word: &str, said: &str) -> Result<String, AllocError> {
    format!(in alloc; "{word} {said}")
}

/// What is learned of a line.
fn taken_text(alloc: Global, taken: &Taken<'_>) -> Result<String, AllocError> {
    match taken {
        Taken::NotOfSnippet => String::from_str(alloc, "no"),
        Taken::Nothing => Ok(String::new(alloc)),
        Taken::Ranges(marks) => marks_text(alloc, marks.as_slice()),
        Taken::Labels(labels) => labels_text(alloc, labels.as_slice()),
        Taken::Begun(mark, start) => begun_text(alloc, *mark, *start),
        Taken::Fixes(fixes) => fixes_text(alloc, fixes.as_slice()),
        Taken::Note(said) => said_text(alloc, "note", said),
        Taken::Help(said) => said_text(alloc, "help", said),
        Taken::More(said) => said_text(alloc, "more", said),
        Taken::At(span) => said_text(alloc, "at", span),
        Taken::Elsewhere(span) => said_text(alloc, "elsewhere", span),
    }
}

/// What is learned of the next row.
fn learned(
    alloc: Global,
    snippet: &mut Snippet,
    file: &[&str],
    row: &str,
) -> Result<String, AllocError> {
    let source = source_of(alloc, file, snippet.quoted_number(row))?;
    taken_text(alloc, &snippet.take(row, source.as_deref())?)
}

/// What a text tells of the row above the one of a number: what stands behind `=> `, or nothing.
fn wanted<'t>(rows: &[&'t str], number: usize) -> &'t str {
    match rows.get(number) {
        Some(row) => row.strip_prefix(WANTED).unwrap_or(""),
        None => "",
    }
}

/// Asserts what is learned of the next row.
fn assert_row(
    rt: &(impl AllocGlobal + Abort),
    file: &[&str],
    snippet: &mut Snippet,
    row: &str,
    wanted: &str,
) {
    let found = learned(rt.alloc(), snippet, file, row).expect(rt, "memory");
    assert_same_of(rt, row, &found.as_str().trim_start(), &wanted)
}

/// Asserts what is learned of each row of a text.
fn assert_rows(
    rt: &(impl AllocGlobal + Abort),
    file: &[&str],
    snippet: &mut Snippet,
    rows: &[&str],
) {
    for number in 1..rows.len() {
        let row = rows[number];
        if !row.starts_with(WANTED) {
            assert_row(rt, file, snippet, row, wanted(rows, number + 1));
        }
    }
}

/// Asserts what is learned of the rows behind the head of a span. They stand in a text, behind its first line feed.
/// Below a row of which something is learned stands this, behind `=> `.
pub fn assert_learned(
    rt: &(impl AllocGlobal + Abort),
    file: &[&str],
    line: usize,
    caret: Option<usize>,
    text: &str,
) {
    let mut snippet = Snippet::new(rt.alloc(), line, caret);
    let lines = text.split_terminator('\n');
    let rows: Vec<&str> = lines.collect(rt.alloc()).expect(rt, "memory");
    assert_rows(rt, file, &mut snippet, rows.as_slice())
}

/// Asserts what is learned of the rows of each case.
pub fn assert_each_learned(rt: &(impl AllocGlobal + Abort), cases: &[Rows]) {
    for case in cases {
        assert_learned(rt, case.file, case.line, case.caret, case.text);
    }
}
