//! The report that a call asks for.

ghost use Rattle.std.specs.Prelude.{◌≡◌, ◌++◌, ℕ, [], map, IfOk, OnOk, IfErr, None};
ghost use Rattle.ariadne_calls.specs.RequestedReports.{code_of, report_of};
ghost use Rattle.ariadne_calls.specs.Faults.{IsFirst, faults_from, head_faults, report_faults};
ghost use Rattle.ariadne_calls.specs.Faults.{help_faults, note_faults};

use crate::ending::{Fault, Refusal};
use crate::given::{GivenReport, Text};
use crate::labels::add_labels;
use crate::settings::{config_of, kind_of};
use crate::texts::{optional_text, text};
use ariadne::{Report, ReportBuilder};
use std::alloc::Global;
use std::ops::Range;

/// A piece of the source with this number.
pub type Place = (usize, Range<usize>);

/// The report, over so many sources.
pub fn report_of<'a>(
    alloc: Global,
    sources: usize,
    given: &GivenReport<'a>,
) -> Result<Report<'a, Place>, Refusal>
    ensures ok { IfOk result (λ report. report ≡ report_of given.now) }
    ensures sound { OnOk result (report_faults sources given.now ≡ []) }
    ensures err { IfErr result (IsFirst (report_faults sources given.now)) }
{
    let mut builder = begun(alloc, given)?;
    add_labels(alloc, &mut builder, sources, given.labels)?;
    add_helps(&mut builder, given.helps)?;
    add_notes(&mut builder, given.notes)?;
    Ok(builder.finish())
}

/// The report, before it gets its labels, helps and notes.
fn begun<'a>(alloc: Global, given: &GivenReport<'a>) -> Result<ReportBuilder<'a, Place>, Refusal>
    ensures ok { IfOk result (λ report. report ≡ record (report_of given.now)
        { labels = []; helps = []; notes = [] }) }
    ensures sound { OnOk result (head_faults given.now ≡ []) }
    ensures err { IfErr result (IsFirst (head_faults given.now)) }
{
    let kind = kind_of(given)?;
    let config = config_of(given)?;
    let code = optional_text(&given.code, Fault::Code)?;
    let message = text(given.message.bytes, Fault::Message)?;
    let span = (given.source, given.start..given.start);
    let builder = Report::build(alloc, kind, span)
        .with_config(config)
        .with_message(message)?;
    with_code(builder, code)
}

/// The report with this code, if there is one.
fn with_code<'a>(
    builder: ReportBuilder<'a, Place>,
    code: Option<&str>,
) -> Result<ReportBuilder<'a, Place>, Refusal>
    requires { builder.code ≡ None }
    ensures ok { IfOk result (λ report. report ≡ record builder.entry
        { code = code_of code.entry }) }
    ensures err { IfErr result (IsFirst []) }
{
    match code {
        Some(code) => Ok(builder.with_code_text(code)?),
        None => Ok(builder),
    }
}

/// Adds these helps.
fn add_helps(builder: &mut ReportBuilder<'_, Place>, given: &[Text<'_>]) -> Result<(), Refusal>
    ensures ok { OnOk result (builder.new ≡ record builder.old
        { helps = builder.old.helps ++ map (λ text. text.bytes.now) given.now }) }
    ensures sound { OnOk result (faults_from help_faults 0 given.now ≡ []) }
    ensures err { IfErr result (IsFirst (faults_from help_faults 0 given.now)) }
{
    for (number, help) in given.iter().enumerate() {
        builder.add_help(text(help.bytes, Fault::Help(number))?)?;
    }
    Ok(())
}

/// Adds these notes.
fn add_notes(builder: &mut ReportBuilder<'_, Place>, given: &[Text<'_>]) -> Result<(), Refusal>
    ensures ok { OnOk result (builder.new ≡ record builder.old
        { notes = builder.old.notes ++ map (λ text. text.bytes.now) given.now }) }
    ensures sound { OnOk result (faults_from note_faults 0 given.now ≡ []) }
    ensures err { IfErr result (IsFirst (faults_from note_faults 0 given.now)) }
{
    for (number, note) in given.iter().enumerate() {
        builder.add_note(text(note.bytes, Fault::Note(number))?)?;
    }
    Ok(())
}
