//! Diagnostics as texts, to compare them.

use crate::comparing::assert_same_of;
use ariadne_documents::parsed_document;
use ariadne_json::read_value;
use ariadne_parse::{Change, Diagnostic, End, Location, Proposal, Severity, Span, Unit};
use serde_json::Value;
use std::alloc::{AllocError, Global};
use std::process::Abort;
use std::slice;

/// What stands for a row behind the last one.
const NO_ROW: &str = "no row";

/// A document in one line, and what it tells, row by row.
pub struct Told {
    pub document: &'static str,
    pub rows: &'static [&'static str],
}

/// Asserts what each document tells.
pub fn assert_each_told(rt: &(impl AllocGlobal + Abort), table: &[Told]) {
    for it in table {
        let found = document_text(rt.alloc(), it.document).expect(rt, "memory");
        assert_rows(rt, it.document, found.as_str(), it.rows);
    }
}

/// The next row, or what stands for none.
fn next_row<'t>(rows: &mut slice::Iter<'_, &'t str>) -> &'t str {
    rows.next().copied().unwrap_or(NO_ROW)
}

/// Asserts that the text of a document has these rows.
pub fn assert_rows(rt: &impl Abort, document: &str, text: &str, wanted: &[&str]) {
    let mut rest = wanted.iter();
    for row in text.lines() {
        assert_same_of(rt, document, &row, &next_row(&mut rest));
    }
    assert_same_of(rt, document, &NO_ROW, &next_row(&mut rest))
}

/// What a document tells, in rows.
fn document_text(alloc: Global, document: &str) -> Result<String, AllocError> {
    match read_value(alloc, document)? {
        Some(value) => value_text(alloc, &value),
        None => String::from_str(alloc, "no JSON\n"),
    }
}

/// What a value tells as a document, in rows.
pub fn value_text(alloc: Global, value: &Value) -> Result<String, AllocError> {
    match parsed_document(alloc, value)? {
        Some(all) => all_text(alloc, all.as_slice()),
        None => String::from_str(alloc, "no form\n"),
    }
}

/// Adds a text that was made.
pub fn push_made(text: &mut String, made: Result<String, AllocError>) -> Result<(), AllocError> {
    text.push_str(made?.as_str())
}

/// Diagnostics in rows.
pub fn all_text(alloc: Global, all: &[Diagnostic]) -> Result<String, AllocError> {
    let mut text = String::new(alloc);
    for parsed in all {
        push_parsed(alloc, &mut text, parsed)?;
    }
    Ok(text)
}

/// The name of a severity.
pub fn severity_name(severity: Severity) -> &'static str {
    match severity {
        Severity::Error => "Error",
        Severity::Warning => "Warning",
        Severity::Note => "Note",
    }
}

/// The first row of a diagnostic.
fn head_text(alloc: Global, parsed: &Diagnostic) -> Result<String, AllocError> {
    let message = parsed.message.as_str();
    let code = parsed.code.as_deref().unwrap_or("");
    let severity = severity_name(parsed.severity);
    format!(in alloc; "{severity} ({code}) {message}\n")
}

/// Adds the rows of a diagnostic.
fn push_parsed(alloc: Global, text: &mut String, parsed: &Diagnostic) -> Result<(), AllocError> {
    push_made(text, head_text(alloc, parsed))?;
    push_spans(alloc, text, parsed.spans.as_slice())?;
    push_texts(text, "note", parsed.notes.as_slice())?;
    push_texts(text, "help", parsed.helps.as_slice())?;
    push_proposals(alloc, text, parsed.proposals.as_slice())
}

/// Adds a row for each span.
fn push_spans(alloc: Global, text: &mut String, spans: &[Span]) -> Result<(), AllocError> {
    for span in spans {
        push_made(text, span_text(alloc, span))?;
    }
    Ok(())
}

/// The row of a span.
fn span_text(alloc: Global, span: &Span) -> Result<String, AllocError> {
    let role = if span.is_primary { "at" } else { "also" };
    let file = span.file.as_str();
    let start = location_text(alloc, span.start)?;
    let end = end_text(alloc, span.end)?;
    let unit = unit_text(span.unit);
    let said = span.text.as_str();
    format!(in alloc; "  {role} {file} {start}{end} {unit}{said}\n")
}

/// What columns count.
fn unit_text(unit: Unit) -> &'static str {
    match unit {
        Unit::Byte => "bytes ",
        Unit::Char => "",
        Unit::Utf16 => "utf16 ",
        Unit::Display => "display ",
    }
}

/// An end behind a line.
fn end_text(alloc: Global, end: End) -> Result<String, AllocError> {
    match end {
        End::Before(location) => format!(in alloc; "-{}", location_text(alloc, location)?),
        End::Behind(location) => format!(in alloc; "+{}", location_text(alloc, location)?),
        End::OfWord => Ok(String::new(alloc)),
    }
}

/// A location, as `LINE:COLUMN` or `LINE`.
pub fn location_text(alloc: Global, location: Location) -> Result<String, AllocError> {
    let line = location.line;
    match location.column {
        Some(column) => format!(in alloc; "{line}:{column}"),
        None => format!(in alloc; "{line}"),
    }
}

/// Adds texts, each in a row behind a word.
fn push_texts(text: &mut String, word: &str, all: &[String]) -> Result<(), AllocError> {
    for said in all {
        write!(text, "  {word} {said}\n")?;
    }
    Ok(())
}

/// Adds a row for each proposal.
fn push_proposals(alloc: Global, text: &mut String, all: &[Proposal]) -> Result<(), AllocError> {
    for it in all {
        push_made(text, proposal_text(alloc, it))?;
    }
    Ok(())
}

/// The row of a proposal.
fn proposal_text(alloc: Global, it: &Proposal) -> Result<String, AllocError> {
    let (first, last) = (it.helps.start, it.helps.end);
    let (file, why) = (it.file.as_str(), it.why.as_str());
    let unit = unit_text(it.unit);
    let ways = ways_text(alloc, it.ways.as_slice())?;
    format!(in alloc; "  fix {first}..{last} {file} {unit}({why}){ways}\n")
}

/// The ways of a proposal, each behind another with an `or` in front.
pub fn ways_text(alloc: Global, ways: &[Vec<Change>]) -> Result<String, AllocError> {
    let mut text = String::new(alloc);
    for (number, way) in ways.iter().enumerate() {
        if number != 0 {
            text.push_str(" or")?;
        }
        push_changes(alloc, &mut text, way.as_slice())?;
    }
    Ok(text)
}

/// Adds changes.
fn push_changes(alloc: Global, text: &mut String, changes: &[Change]) -> Result<(), AllocError> {
    for change in changes {
        push_made(text, change_text(alloc, change))?;
    }
    Ok(())
}

/// A change, with a blank in front.
fn change_text(alloc: Global, change: &Change) -> Result<String, AllocError> {
    let start = location_text(alloc, change.start)?;
    let end = location_text(alloc, change.end)?;
    let put_in = change.put_in.as_str();
    format!(in alloc; " {start}-{end} `{put_in}`")
}
