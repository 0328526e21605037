//! What a line tells, or a document over many lines.

ghost use Rattle.std.specs.Prelude.{◌≡◌, ◌≤◌, map, option_map, IfOk};
ghost use Rattle.serde_json.specs.Data.{depth as nesting};
ghost use Rattle.serde_json.specs.Read.{max_depth};
ghost use Rattle.serde_json.specs.View.{view};
ghost use Rattle.ariadne_documents.specs.Documents.{value_of};
ghost use Rattle.ariadne_parse.specs.Read.{read};
ghost use Rattle.ariadne_documents.specs.Answers.{IsDocumentParsed, IsLineParsed, IsOfDocument, IsValueParsed};
ghost use Rattle.ariadne_documents.specs.Answers as answers;

use crate::document::Document;
use crate::form::{line_parsed, parsed_document};
use ariadne_parse::{Answer, Diagnostic, Format, Reading, Sent, parsed, parsed_by_value};
use serde_json::Value;
use std::alloc::{AllocError, Global};

/// Whether values of JSON are read, also over many lines.
pub fn reads_values(format: Format) -> bool
    ensures { result ≡ answers.reads_values format }
{
    match format {
        Format::Auto | Format::Rustc | Format::Gcc | Format::Report => true,
        Format::Lines => false,
    }
}

/// What a line tells: by a form that stands in one line, or else as a document.
pub fn line_answer(
    alloc: Global,
    reading: Reading,
    sent: &mut Sent,
    line: &str,
) -> Result<Answer, AllocError>
    ensures { IfOk result (IsLineParsed reading line.now sent.old sent.new) }
{
    let answer = parsed(alloc, reading, sent, line)?;
    if !may_be_document(reading.format, &answer) {
        return Ok(answer);
    }
    drop(answer);
    Ok(answer_with(line_parsed(alloc, line)?))
}

/// What a document tells.
pub fn document_answer(
    alloc: Global,
    format: Format,
    sent: &mut Sent,
    document: &Document,
) -> Result<Answer, AllocError>
    ensures { IfOk result (IsDocumentParsed format (value_of document.now) sent.old sent.new) }
{
    match document.value(alloc)? {
        Some(value) => value_answer(alloc, format, sent, &value),
        None => Ok(Answer::Nothing),
    }
}

/// What the value of a document tells: by a form that stands in one line, or else as a document.
fn value_answer(
    alloc: Global,
    format: Format,
    sent: &mut Sent,
    value: &Value,
) -> Result<Answer, AllocError>
    requires { nesting (view value.now) ≤ max_depth }
    ensures { IfOk result (IsValueParsed format (view value.now) sent.old sent.new) }
{
    let answer = parsed_by_value(alloc, format, sent, value)?;
    if !may_be_document(format, &answer) {
        return Ok(answer);
    }
    drop(answer);
    Ok(answer_with(parsed_document(alloc, value)?))
}

/// Whether what tells this may be a document: nothing is told, and the forms of documents are looked for.
fn may_be_document(format: Format, answer: &Answer) -> bool
    ensures { result ≡ answers.may_be_document format answer.now }
{
    reads_documents(format) && is_nothing(answer)
}

/// Whether the forms of documents are looked for.
fn reads_documents(format: Format) -> bool
    ensures { result ≡ answers.reads_documents format }
{
    match format {
        Format::Auto => true,
        Format::Rustc | Format::Gcc | Format::Lines | Format::Report => false,
    }
}

/// Whether nothing is told.
fn is_nothing(answer: &Answer) -> bool
    ensures { result ≡ answers.is_nothing answer.now }
{
    match answer {
        Answer::Nothing => true,
        Answer::Dropped | Answer::Diagnostics(_) | Answer::Head(_) | Answer::Note(_) => false,
    }
}

/// The diagnostics of a document as an answer, if it is one.
fn answer_with(all: Option<Vec<Diagnostic>>) -> Answer
    ensures { IsOfDocument (option_map (λ found. map read found.items) all) result }
{
    match all {
        Some(all) => Answer::Diagnostics(all),
        None => Answer::Nothing,
    }
}
