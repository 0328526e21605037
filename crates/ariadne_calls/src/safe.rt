//! Pictures that hide nothing: a sign stands for each hidden character of a text.

ghost use Rattle.std.specs.Prelude.{◌≡◌, ◌++◌, [], true, map, None, option_map, string_bytes};
ghost use Rattle.std.specs.Prelude.{IfOk, OnOk, IfErr};
ghost use Rattle.ariadne.specs.Building.{filled_code};
ghost use Rattle.ariadne.specs.Kinds as kinds;
ghost use Rattle.ariadne_safe.specs.Visible.{is_shown, visible_bytes};
ghost use Rattle.ariadne_safe.specs.declared.text.TextKind.TheVariants.{Aside, OneRow};
ghost use Rattle.ariadne_safe.specs.SafeBuilding.{kind_in, made_of, report_of as report_in};
ghost use Rattle.ariadne_safe.specs.SafeBuilding.{sources_below, sources_under};
ghost use Rattle.ariadne_safe.specs.SafeReports.{shown_label};
ghost use Rattle.ariadne_safe.specs.Sources.{sources_of};
ghost use Rattle.ariadne_calls.specs.Faults.{IsFirst, faults_over};
ghost use Rattle.ariadne_calls.specs.CallSources.{shown_listing};
ghost use Rattle.ariadne_calls.specs.Safe.{shown_report, under};
ghost use Rattle.ariadne_calls.specs.CallBuffers.{IsSafePicture, IsShownSafely};
ghost use Rattle.ariadne_calls.specs.declared.ending.Refusal.TheVariants.{NoMemory};

use crate::ending::Refusal;
use crate::given::{GivenReport, GivenSource};
use crate::pictures::{Picture, told_all};
use crate::reports::{Place, report_of};
use crate::safe_sources::read_safely;
use ariadne::{Label, Report, ReportKind};
use ariadne_safe::{SafeBuilder, SafeKind, SafeReport, SafeSources, TextKind, visible};
use std::alloc::{AllocError, Global};

/// Makes the picture of texts whose hidden characters have signs.
pub fn safe_picture(
    alloc: Global,
    report: &GivenReport<'_>,
    sources: &[GivenSource<'_>],
) -> Result<Picture, Refusal>
    ensures ok { IfOk result (λ p. IsShownSafely report.now sources.now p.left_out.items
        p.bytes.items) }
    ensures sound { OnOk result (faults_over shown_listing report.now sources.now ≡ []) }
    ensures err { IfErr result (IsFirst (faults_over shown_listing report.now sources.now)) }
{
    let asked = report_of(alloc, sources.len(), report)?;
    let safe = read_safely(alloc, sources)?;
    picture_over(alloc, &asked, &safe)
}

/// Makes the picture of the safe report that stands for one.
fn picture_over(
    alloc: Global,
    asked: &Report<'_, Place>,
    sources: &SafeSources,
) -> Result<Picture, Refusal>
    ensures ok { IfOk result (λ p. IsSafePicture (sources_of sources.now)
        (shown_report (sources_of sources.now) asked.now) p.left_out.items p.bytes.items) }
    ensures err { IfErr result (λ refusal. refusal ≡ NoMemory) }
{
    let name = visible(alloc, asked.kind().name(), TextKind::OneRow)?;
    let kind = safe_kind(asked.kind(), name.as_str());
    picture_of(alloc, &safe_report(alloc, asked, kind, sources)?)
}

/// Makes the picture of a safe report.
fn picture_of(alloc: Global, report: &SafeReport<'_>) -> Result<Picture, Refusal>
    ensures ok { IfOk result (λ p. IsSafePicture (sources_below report.now) (report_in report.now)
        p.left_out.items p.bytes.items) }
    ensures err { IfErr result (λ refusal. refusal ≡ NoMemory) }
{
    let mut bytes = Vec::new(alloc);
    match report.write(&mut bytes) {
        Ok(left_out) => Ok(Picture {
            bytes,
            left_out: told_all(alloc, left_out.as_slice())?,
        }),
        Err(_) => Err(Refusal::NoMemory),
    }
}

/// The kind, under this name where it is a custom one.
fn safe_kind<'n>(kind: ReportKind<'_>, name: &'n str) -> SafeKind<'n>
    requires { is_shown OneRow name.now ≡ true }
    ensures { kinds.kind_of (kind_in result) ≡ under name.now (kinds.kind_of kind.entry) }
{
    match kind {
        ReportKind::Error => SafeKind::error(),
        ReportKind::Warning => SafeKind::warning(),
        ReportKind::Advice => SafeKind::advice(),
        ReportKind::Custom(_, color) => {
            SafeKind::new(ReportKind::Custom(name, color)).unwrap_or(SafeKind::error())
        }
    }
}

/// The safe report that stands for one over the same sources.
fn safe_report<'s>(
    alloc: Global,
    asked: &Report<'_, Place>,
    kind: SafeKind<'s>,
    sources: &'s SafeSources,
) -> Result<SafeReport<'s>, AllocError>
    ensures report { IfOk result (λ r. report_in r ≡ record (shown_report (sources_of sources.now)
        asked.now) { kind = kinds.kind_of (kind_in kind.entry) }) }
    ensures sources { IfOk result (λ r. sources_below r ≡ sources_of sources.now) }
{
    let (source, range) = asked.span();
    let place = (*source, range.start..range.end);
    let builder = SafeBuilder::new(alloc, sources, kind, place, asked.config());
    let builder = with_head(builder, asked)?;
    let builder = with_labels(alloc, builder, asked.labels())?;
    let builder = with_helps(builder, asked.helps())?;
    Ok(with_notes(builder, asked.notes())?.finish())
}

/// The report with the code and the message of another.
fn with_head<'s>(
    builder: SafeBuilder<'s>,
    asked: &Report<'_, Place>,
) -> Result<SafeBuilder<'s>, AllocError>
    requires code { (made_of builder).code ≡ None }
    requires message { (made_of builder).message ≡ None }
    ensures report { IfOk result (λ b. made_of b ≡ record (made_of builder.entry) {
      code = option_map (λ code. filled_code (visible_bytes OneRow code)) asked.now.code;
      message = option_map (visible_bytes OneRow) asked.now.message;
    }) }
    ensures sources { IfOk result (λ b. sources_under b ≡ sources_under builder.entry) }
{
    let builder = match asked.code() {
        Some(code) => builder.with_code_text(code)?,
        None => builder,
    };
    match asked.message() {
        Some(message) => builder.with_message(message),
        None => Ok(builder),
    }
}

/// The report with these labels more.
fn with_labels<'s>(
    alloc: Global,
    mut builder: SafeBuilder<'s>,
    labels: &[Label<Place>],
) -> Result<SafeBuilder<'s>, AllocError>
    ensures report { IfOk result (λ b. made_of b ≡ record (made_of builder.entry) {
      labels = (made_of builder.entry).labels ++ map (shown_label
          (made_of builder.entry).config.index_type (sources_under builder.entry)) labels.now;
    }) }
    ensures sources { IfOk result (λ b. sources_under b ≡ sources_under builder.entry) }
{
    for label in labels {
        builder = builder.with_label(again(alloc, label)?)?;
    }
    Ok(builder)
}

/// A label as another one.
fn again(alloc: Global, label: &Label<Place>) -> Result<Label<Place>, AllocError>
    ensures { IfOk result (λ copy. copy ≡ label.now) }
{
    let (source, range) = label.span();
    let copy = Label::new((*source, range.start..range.end))
        .with_order(label.order())
        .with_priority(label.priority());
    let copy = match label.color() {
        Some(color) => copy.with_color(color),
        None => copy,
    };
    match label.message() {
        Some(message) => copy.with_message(alloc, message),
        None => Ok(copy),
    }
}

/// The report with these helps more.
fn with_helps<'s>(
    mut builder: SafeBuilder<'s>,
    helps: &[String],
) -> Result<SafeBuilder<'s>, AllocError>
    ensures report { IfOk result (λ b. made_of b ≡ record (made_of builder.entry) {
      helps = (made_of builder.entry).helps ++ map (visible_bytes Aside)
          (map string_bytes helps.now);
    }) }
    ensures sources { IfOk result (λ b. sources_under b ≡ sources_under builder.entry) }
{
    for help in helps {
        builder = builder.with_help(help.as_str())?;
    }
    Ok(builder)
}

/// The report with these notes more.
fn with_notes<'s>(
    mut builder: SafeBuilder<'s>,
    notes: &[String],
) -> Result<SafeBuilder<'s>, AllocError>
    ensures report { IfOk result (λ b. made_of b ≡ record (made_of builder.entry) {
      notes = (made_of builder.entry).notes ++ map (visible_bytes Aside)
          (map string_bytes notes.now);
    }) }
    ensures sources { IfOk result (λ b. sources_under b ≡ sources_under builder.entry) }
{
    for note in notes {
        builder = builder.with_note(note.as_str())?;
    }
    Ok(builder)
}
