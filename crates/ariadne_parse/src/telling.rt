//! Which lines tell something, and what.

ghost use Rattle.std.specs.Prelude.{◌≡◌, ◌≤◌, [], ◌∷◌, true, false, if◌then◌else◌, None};
ghost use Rattle.std.specs.Prelude.{is_some, option_map, IfOk, IfSome, IsSomeAnd};
ghost use Rattle.serde_json.specs.Data.{depth as nesting};
ghost use Rattle.serde_json.specs.Read.{max_depth};
ghost use Rattle.serde_json.specs.View.{view};
ghost use Rattle.ariadne_parse.specs.ParsedDiagnostics.{begins_as_json as is_begun_as_json, tells_value};
ghost use Rattle.ariadne_parse.specs.ParsedDiagnostics.{handed_in, reads_rustc as is_rustc_read, reads_text};
ghost use Rattle.ariadne_parse.specs.ParsedDiagnostics.{is_of_rust as is_rust_file, counting_in as counting_of_head, value_in};
ghost use Rattle.ariadne_parse.specs.ParsedDiagnostics.{AreParsed, IsHeldIfAny, IsParsed, IsParsedOfHead, IsParsedOfValue};
ghost use Rattle.ariadne_parse.specs.Sent.{WasSent};
ghost use Rattle.ariadne_parse.specs.Heads.{head_of_line};
ghost use Rattle.ariadne_parse.specs.ParsedLines.{head_parsed};
ghost use Rattle.ariadne_parse.specs.declared.telling.Format.TheVariants.{Auto, Rustc, Gcc, Report};

use crate::cargo::{handed_on, is_of_cargo};
use crate::counting::Counting;
use crate::diagnostic::Diagnostic;
use crate::gcc::{gcc_messages, parsed_by_gcc};
use crate::heads::parsed_by_line;
use crate::json::copied_text;
use crate::lines::{ParsedLine, line_parsed};
use crate::report::{is_report, parsed_by_report};
use crate::rustc::{parsed_by_rustc, rustc_message};
use crate::sent::Sent;
use crate::unit::Unit;
use ariadne_json::read_value;
use serde_json::Value;
use std::alloc::{AllocError, Global};

/// The form of a tool's output.
#[derive(Clone, Copy)]
pub enum Format {
    /// Each line has whichever form it has.
    Auto,
    /// Lines of `rustc --error-format=json` and `cargo --message-format=json`.
    Rustc,
    /// Lines of `gcc -fdiagnostics-format=json`.
    Gcc,
    /// Lines `FILE:LINE:COLUMN: KIND: MESSAGE`.
    Lines,
    /// Reports in lines of JSON.
    Report,
}

/// How lines are read.
#[derive(Clone, Copy)]
pub struct Reading {
    /// Their form.
    pub format: Format,
    /// How the columns of lines of text count.
    pub counting: Counting,
}

impl Reading {
    /// Whether lines of text are read.
    pub fn reads_text(&self) -> bool
        ensures { result ≡ reads_text self.now.format }
    {
        match self.format {
            Format::Auto | Format::Lines => true,
            Format::Rustc | Format::Gcc | Format::Report => false,
        }
    }
}

/// What a line tells.
#[derive(Drop)]
pub enum Answer {
    /// No diagnostic: the line is for the reader as it is.
    Nothing,
    /// Nothing that is for the reader: cargo writes it for other programs, or has handed it on before.
    Dropped,
    /// These diagnostics, one at least, which are whole.
    Diagnostics(Vec<Diagnostic>),
    /// A diagnostic of which the next lines may tell more.
    Head(Diagnostic),
    /// A note about the diagnostic in front, if there is one. The next lines may tell more of it.
    Note(Diagnostic),
}

/// What a line tells. A message that cargo hands on is held in `sent`, and is dropped where it was there.
///
/// The line has no line feed at its end. On `Err` there was no memory.
pub fn parsed(
    alloc: Global,
    reading: Reading,
    sent: &mut Sent,
    line: &str,
) -> Result<Answer, AllocError>
    ensures { IfOk result (λ parsed. IsParsed reading line.now sent.old sent.new parsed) }
{
    match value_of(alloc, line)? {
        Some(value) => parsed_by_value(alloc, reading.format, sent, &value),
        None => parsed_by_text(alloc, reading, line),
    }
}

/// Whether a line begins as an object or a list of JSON.
fn begins_as_json(line: &str) -> bool
    ensures { result ≡ is_begun_as_json line.now }
{
    line.starts_with('{') || line.starts_with('[')
}

/// The value that a line is, if it is an object or a list of JSON.
fn value_of(alloc: Global, line: &str) -> Result<Option<Value>, AllocError>
    ensures value { IfOk result (λ value. option_map view value ≡ value_in line.now) }
    ensures nests { IfOk result (λ value. IfSome value (λ v. nesting (view v) ≤ max_depth)) }
{
    if !begins_as_json(line) {
        return Ok(None);
    }
    read_value(alloc, line)
}

/// What a line of text tells.
fn parsed_by_text(alloc: Global, reading: Reading, line: &str) -> Result<Answer, AllocError>
    ensures { IfOk result (λ parsed. IsParsedOfHead reading.counting
        (if reads_text reading.format then head_of_line line.now else None) parsed) }
{
    if reading.reads_text() {
        line_in(alloc, reading.counting, line)
    } else {
        Ok(Answer::Nothing)
    }
}

/// What a line of text tells that is read.
fn line_in(alloc: Global, counting: Counting, line: &str) -> Result<Answer, AllocError>
    ensures { IfOk result (λ parsed. IsParsedOfHead counting (head_of_line line.now) parsed) }
{
    let Some(it) = line_parsed(line) else {
        return Ok(Answer::Nothing);
    };
    let parsed = parsed_by_line(alloc, &it, counting_in(&it, counting))?;
    Ok(if it.is_note() {
        Answer::Note(parsed)
    } else {
        Answer::Head(parsed)
    })
}

/// How the columns of a line count, where those of others count so: those of rustc, which alone reads Rust, count
/// characters, and so do those of some codes; others count from 0.
fn counting_in(it: &ParsedLine<'_>, counting: Counting) -> Counting
    ensures { result ≡ counting_of_head (head_parsed it.now) counting }
{
    let is_from_zero = it.kind.is_from_zero;
    if is_of_rust(it.file) || it.kind.has_characters {
        Counting {
            unit: Unit::Char,
            is_from_zero,
        }
    } else {
        Counting {
            unit: counting.unit,
            is_from_zero: is_from_zero || counting.is_from_zero,
        }
    }
}

/// Whether a file is one of Rust's.
fn is_of_rust(file: &str) -> bool
    ensures { result ≡ is_rust_file file.now }
{
    file.ends_with(".rs")
}

/// A list of one diagnostic.
fn one(alloc: Global, parsed: Diagnostic) -> Result<Vec<Diagnostic>, AllocError>
    ensures { IfOk result (λ list. list.items ≡ parsed ∷ []) }
{
    let mut list = Vec::new(alloc);
    list.push(parsed)?;
    Ok(list)
}

/// What a value tells. A message that cargo hands on is held in `sent`, and is dropped where it was there.
///
/// On `Err` there was no memory.
pub fn parsed_by_value(
    alloc: Global,
    format: Format,
    sent: &mut Sent,
    value: &Value,
) -> Result<Answer, AllocError>
    requires { nesting (view value.now) ≤ max_depth }
    ensures { IfOk result (λ parsed.
        IsParsedOfValue format (view value.now) sent.old sent.new parsed) }
{
    if is_again(format, sent, value)? {
        return Ok(Answer::Dropped);
    }
    match diagnostics_in(alloc, format, value)? {
        Some(all) => Ok(Answer::Diagnostics(all)),
        None if reads_rustc(format) && is_of_cargo(value) => Ok(Answer::Dropped),
        None => Ok(Answer::Nothing),
    }
}

/// Whether the values of rustc and cargo are read.
fn reads_rustc(format: Format) -> bool
    ensures { result ≡ is_rustc_read format }
{
    match format {
        Format::Auto | Format::Rustc => true,
        Format::Gcc | Format::Lines | Format::Report => false,
    }
}

/// Whether cargo has handed on the message of a value before. One that it has not is held from now on.
fn is_again(format: Format, sent: &mut Sent, value: &Value) -> Result<bool, AllocError>
    requires { nesting (view value.now) ≤ max_depth }
    ensures new { IfOk result (λ is_again. is_again ≡ false
        → IsHeldIfAny (handed_in format (view value.now)) sent.old sent.new) }
    ensures again { IfOk result (λ is_again. is_again ≡ true
        → IsSomeAnd (handed_in format (view value.now)) (WasSent sent.old)) }
    ensures same { IfOk result (λ is_again. is_again ≡ true → sent.new ≡ sent.old) }
{
    if !reads_rustc(format) {
        return Ok(false);
    }
    match handed_on(value) {
        Some(message) => Ok(!sent.add(message)?),
        None => Ok(false),
    }
}

/// The diagnostics that a value tells.
fn diagnostics_in(
    alloc: Global,
    format: Format,
    value: &Value,
) -> Result<Option<Vec<Diagnostic>>, AllocError>
    ensures parsed { IfOk result (λ parsed. is_some parsed ≡ tells_value format (view value.now)) }
    ensures all { IfOk result (λ parsed. IfSome parsed (λ all. AreParsed (view value.now) all.items)) }
{
    match format {
        Format::Auto => any_in(alloc, value),
        Format::Rustc => rustc_in(alloc, value),
        Format::Gcc => gcc_in(alloc, value),
        Format::Lines => Ok(None),
        Format::Report => report_in(alloc, value),
    }
}

/// What a value of any form tells.
fn any_in(alloc: Global, value: &Value) -> Result<Option<Vec<Diagnostic>>, AllocError>
    ensures parsed { IfOk result (λ parsed. is_some parsed ≡ tells_value Auto (view value.now)) }
    ensures all { IfOk result (λ parsed. IfSome parsed (λ all. AreParsed (view value.now) all.items)) }
{
    if let Some(all) = rustc_in(alloc, value)? {
        return Ok(Some(all));
    }
    if let Some(all) = gcc_in(alloc, value)? {
        return Ok(Some(all));
    }
    report_in(alloc, value)
}

/// What a value tells as rustc and cargo write it.
fn rustc_in(alloc: Global, value: &Value) -> Result<Option<Vec<Diagnostic>>, AllocError>
    ensures parsed { IfOk result (λ parsed. is_some parsed ≡ tells_value Rustc (view value.now)) }
    ensures all { IfOk result (λ parsed. IfSome parsed (λ all. AreParsed (view value.now) all.items)) }
{
    let Some(message) = rustc_message(value) else {
        return Ok(None);
    };
    let manifest = copied_text(alloc, value, "manifest_path")?;
    let parsed = parsed_by_rustc(alloc, message, manifest)?;
    Ok(Some(one(alloc, parsed)?))
}

/// What a value tells as gcc writes it.
fn gcc_in(alloc: Global, value: &Value) -> Result<Option<Vec<Diagnostic>>, AllocError>
    ensures parsed { IfOk result (λ parsed. is_some parsed ≡ tells_value Gcc (view value.now)) }
    ensures all { IfOk result (λ parsed. IfSome parsed (λ all. AreParsed (view value.now) all.items)) }
{
    match gcc_messages(value) {
        Some(messages) => Ok(Some(parsed_by_gcc(alloc, messages)?)),
        None => Ok(None),
    }
}

/// What a value tells in the program's own form.
fn report_in(alloc: Global, value: &Value) -> Result<Option<Vec<Diagnostic>>, AllocError>
    ensures parsed { IfOk result (λ parsed. is_some parsed ≡ tells_value Report (view value.now)) }
    ensures all { IfOk result (λ parsed. IfSome parsed (λ all. AreParsed (view value.now) all.items)) }
{
    if !is_report(value) {
        return Ok(None);
    }
    Ok(Some(one(alloc, parsed_by_report(alloc, value)?)?))
}
