//! What is written of a diagnostic and of a line that passes, in the form that is asked for.

ghost use Rattle.std.specs.Prelude.{◌≡◌, IfOk, OnOk, string_bytes};
ghost use Rattle.ariadne_outputs.specs.Located.{located_spans_of};
ghost use Rattle.ariadne_show.specs.FoundSpans.{files_of};
ghost use Rattle.ariadne_show.specs.WaitingLines.{bytes_in, bytes_of, passing_of};
ghost use Rattle.ariadne_show.specs.Limits.{limits_of as limits_in};
ghost use Rattle.ariadne_show.specs.ReadFiles.{sources_in};
ghost use Rattle.ariadne_show.specs.Writing.{behind_line as is_behind_line, behind_text as is_behind_text};
ghost use Rattle.ariadne_show.specs.Writing.{comma as comma_behind, gap as gap_behind, is_document as is_a_document};
ghost use Rattle.ariadne_show.specs.Writing.{is_picture as is_a_picture};
ghost use Rattle.ariadne_show.specs.Writing.{nothing_shown, out_of, passing_bytes, shown_line, spans_of_output, text_in};
ghost use Rattle.ariadne_show.specs.Writing.{unit_of as unit_in_form, HasPassed, HavePassed, IsShownOnce, IsWritten};

use crate::drawing::draw;
use crate::fault::Fault;
use crate::front::WaitingLine;
use crate::limits::{DrawnCount, Limits};
use crate::lines::is_ended;
use crate::located::located_spans;
use crate::options::{Options, Output};
use crate::sending::send;
use crate::shelf::Shelf;
use crate::streams::Streams;
use crate::sum::Sum;
use ariadne_blocks::MessageLine;
use ariadne_outputs::{
    Located, SARIF_COMMA, github_line, github_text, passing_line, sarif_result, short_text,
};
use ariadne_parse::{Diagnostic, Unit};
use std::alloc::{AllocError, Global};
use std::io::Write;

/// What the output ends with.
#[derive(Clone, Copy)]
pub enum Written {
    /// Nothing, or a whole line.
    Lines,
    /// A line that no line feed ends.
    OpenLine,
    /// A picture.
    Picture,
    /// A result of a SARIF log.
    Result,
}

/// What was shown.
#[derive(Clone, Copy)]
pub struct Shown {
    /// What was told.
    pub sum: Sum,
    /// What was drawn of it.
    pub drawn: DrawnCount,
    /// What the output ends with.
    pub written: Written,
    /// Whether a diagnostic was told last: no line has passed behind it.
    pub is_told_last: bool,
}

impl Shown {
    /// Nothing was.
    pub fn nothing() -> Shown
        ensures { result ≡ nothing_shown }
    {
        Shown {
            sum: Sum {
                errors: 0,
                warnings: 0,
                notes: 0,
            },
            drawn: DrawnCount { drawn: 0, more: 0 },
            written: Written::Lines,
            is_told_last: false,
        }
    }
}

/// Counts a diagnostic whose files were read, and writes it, if that is asked for.
pub fn show_one<W: Write, F: Write>(
    alloc: Global,
    options: &Options<'_>,
    shelf: &Shelf,
    parsed: &Diagnostic,
    shown: &mut Shown,
    streams: &mut Streams<W, F>,
) -> Result<(), Fault>
    ensures { OnOk result (IsShownOnce options.now shelf.now parsed.now
        (out_of shown.old streams.old) (out_of shown.new streams.new)) }
{
    shown.sum.count(parsed);
    shown.is_told_last = true;
    if !shown.drawn.take(parsed, limits_of(options)) {
        return Ok(());
    }
    let out = &mut streams.out;
    shown.written = write_diagnostic(alloc, shelf, parsed, options, shown.written, out)?;
    Ok(())
}

/// Which diagnostics are written.
fn limits_of(options: &Options<'_>) -> Limits
    ensures { result ≡ limits_in options.now }
{
    Limits {
        least: options.floor,
        most: options.limit,
    }
}

/// Writes a diagnostic whose files were read, and returns what the output ends with.
///
/// A row stands between two pictures, where they are not compact. One that sums up others is drawn alone,
/// and not written in a form for other programs.
fn write_diagnostic<W: Write>(
    alloc: Global,
    shelf: &Shelf,
    parsed: &Diagnostic,
    options: &Options<'_>,
    written: Written,
    out: &mut W,
) -> Result<Written, Fault>
    ensures { IfOk result (λ last. IsWritten options.now (files_of shelf.now) (sources_in shelf.now)
        parsed.now written last (W.contents out.old) (W.contents out.new)) }
{
    if is_picture(options.output) {
        send(out, gap(written, options.style.is_compact))?;
        draw(alloc, shelf, parsed, options.style, out)?;
        return Ok(Written::Picture);
    }
    if parsed.is_sum {
        return Ok(written);
    }
    send(out, comma(written))?;
    send(
        out,
        text_of(alloc, shelf, parsed, options.output)?.as_bytes(),
    )?;
    Ok(behind_text(options.output))
}

/// Whether diagnostics are drawn.
fn is_picture(output: Output) -> bool
    ensures { result ≡ is_a_picture output }
{
    match output {
        Output::Picture => true,
        Output::Github | Output::Sarif | Output::Short => false,
    }
}

/// What the output ends with behind the text of a diagnostic.
fn behind_text(output: Output) -> Written
    ensures { result ≡ is_behind_text output }
{
    match output {
        Output::Sarif => Written::Result,
        Output::Github | Output::Picture | Output::Short => Written::Lines,
    }
}

/// The text of a diagnostic for other programs.
fn text_of(
    alloc: Global,
    shelf: &Shelf,
    parsed: &Diagnostic,
    output: Output,
) -> Result<String, AllocError>
    ensures { IfOk result (λ text. string_bytes text
        ≡ text_in output parsed.now (spans_of_output (files_of shelf.now) output parsed.now)) }
{
    let spans = located_spans(alloc, shelf, parsed, unit_of(output))?;
    text_at(alloc, parsed, output, spans.as_slice())
}

/// The text of a diagnostic whose spans stand there.
fn text_at(
    alloc: Global,
    parsed: &Diagnostic,
    output: Output,
    spans: &[Located<'_>],
) -> Result<String, AllocError>
    ensures { IfOk result (λ text.
        string_bytes text ≡ text_in output parsed.now (located_spans_of spans.now)) }
{
    match output {
        Output::Github => github_text(alloc, parsed, spans),
        Output::Sarif => sarif_result(alloc, parsed, spans),
        Output::Picture | Output::Short => short_text(alloc, parsed, spans),
    }
}

/// What columns count in a form.
fn unit_of(output: Output) -> Unit
    ensures { result ≡ unit_in_form output }
{
    match output {
        Output::Github | Output::Sarif => Unit::Char,
        Output::Picture | Output::Short => Unit::Byte,
    }
}

/// The row between two pictures.
fn gap(written: Written, is_compact: bool) -> &'static [u8]
    ensures { result.now ≡ gap_behind written is_compact }
{
    match written {
        Written::Picture if !is_compact => b"\n",
        _ => b"",
    }
}

/// What stands between two results.
fn comma(written: Written) -> &'static [u8]
    ensures { result.now ≡ comma_behind written }
{
    match written {
        Written::Result => SARIF_COMMA.as_bytes(),
        _ => b"",
    }
}

/// Writes a line that passes.
pub fn pass<W: Write, F: Write>(
    alloc: Global,
    options: &Options<'_>,
    line: &[u8],
    shown: &mut Shown,
    streams: &mut Streams<W, F>,
) -> Result<(), Fault>
    ensures { OnOk result (HasPassed options.now line.now
        (out_of shown.old streams.old) (out_of shown.new streams.new)) }
{
    if options.is_raw {
        return send_line(options, line, line, shown, streams);
    }
    let text = passing_text(alloc, options, line)?;
    send_line(options, line, text.as_bytes(), shown, streams)
}

/// Sends the bytes of a line that passes: to the output, or where that is one document, beside it.
fn send_line<W: Write, F: Write>(
    options: &Options<'_>,
    line: &[u8],
    bytes: &[u8],
    shown: &mut Shown,
    streams: &mut Streams<W, F>,
) -> Result<(), Fault>
    requires { bytes.now ≡ passing_bytes options.now line.now }
    ensures { OnOk result (HasPassed options.now line.now
        (out_of shown.old streams.old) (out_of shown.new streams.new)) }
{
    shown.is_told_last = false;
    if is_document(options.output) {
        return send(&mut streams.beside, bytes);
    }
    send(&mut streams.out, bytes)?;
    shown.written = behind_line(line);
    Ok(())
}

/// Whether the output is one document, in which no line has room.
pub fn is_document(output: Output) -> bool
    ensures { result ≡ is_a_document output }
{
    match output {
        Output::Sarif => true,
        Output::Github | Output::Picture | Output::Short => false,
    }
}

/// What the output ends with behind a line.
fn behind_line(line: &[u8]) -> Written
    ensures { result ≡ is_behind_line line.now }
{
    if is_ended(line) {
        Written::Lines
    } else {
        Written::OpenLine
    }
}

/// A line that passes as it may be shown: to a workflow of GitHub it is no command.
fn passing_text(alloc: Global, options: &Options<'_>, line: &[u8]) -> Result<String, AllocError>
    ensures { IfOk result (λ text. string_bytes text
        ≡ shown_line options.now.output options.now.style.is_colored line.now) }
{
    match options.output {
        Output::Github => github_line(alloc, line, options.style.is_colored),
        Output::Sarif | Output::Picture | Output::Short => {
            passing_line(alloc, line, options.style.is_colored)
        }
    }
}

/// Writes lines that waited and pass, in their order.
pub fn pass_waiting<W: Write, F: Write>(
    alloc: Global,
    options: &Options<'_>,
    lines: &[WaitingLine],
    shown: &mut Shown,
    streams: &mut Streams<W, F>,
) -> Result<(), Fault>
    ensures { OnOk result (HavePassed options.now (passing_of lines.now)
        (out_of shown.old streams.old) (out_of shown.new streams.new)) }
{
    for waiting in lines {
        pass_lines(alloc, options, waiting.lines.as_slice(), shown, streams)?;
    }
    Ok(())
}

/// Writes lines that pass, in their order.
pub fn pass_lines<W: Write, F: Write>(
    alloc: Global,
    options: &Options<'_>,
    lines: &[Vec<u8>],
    shown: &mut Shown,
    streams: &mut Streams<W, F>,
) -> Result<(), Fault>
    ensures { OnOk result (HavePassed options.now (bytes_in lines.now)
        (out_of shown.old streams.old) (out_of shown.new streams.new)) }
{
    for line in lines {
        pass(alloc, options, line.as_slice(), shown, streams)?;
    }
    Ok(())
}

/// Writes lines that turned out to be none of a message, in their order.
pub fn pass_behind<W: Write, F: Write>(
    alloc: Global,
    options: &Options<'_>,
    lines: &[MessageLine],
    shown: &mut Shown,
    streams: &mut Streams<W, F>,
) -> Result<(), Fault>
    ensures { OnOk result (HavePassed options.now (bytes_of lines.now)
        (out_of shown.old streams.old) (out_of shown.new streams.new)) }
{
    for line in lines {
        pass(alloc, options, line.bytes.as_slice(), shown, streams)?;
    }
    Ok(())
}
