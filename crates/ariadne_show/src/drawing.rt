//! A diagnostic as reports over the files that it is about.

ghost use Rattle.std.specs.Prelude.{◌≡◌, true, map, string_bytes, IfOk, OnOk};
ghost use Rattle.ariadne.specs.Kinds.{kind_of as kind_of_fields};
ghost use Rattle.ariadne_safe.specs.Visible.{is_shown, visible_bytes};
ghost use Rattle.ariadne_safe.specs.declared.text.TextKind.TheVariants.{OneRow};
ghost use Rattle.ariadne_parse.specs.declared.diagnostic.Severity.TheVariants.{Note};
ghost use Rattle.ariadne_safe.specs.SafeBuilding.{kind_in, made_of, report_of as report_in};
ghost use Rattle.ariadne_safe.specs.SafeBuilding.{sources_below, sources_under};
ghost use Rattle.ariadne_show.specs.Drawn.{char_set_of as strokes_of, coded, config_of as config_fields};
ghost use Rattle.ariadne_show.specs.Drawn.{room_in as room_of, severity_kind};
ghost use Rattle.ariadne_show.specs.Drawn.{kind_of as told_kind, own_name as own_name_in};
ghost use Rattle.ariadne_show.specs.Drawn.{AreSaid, IsHeadDrawn, IsPicture, IsReportOf, IsSaid};
ghost use Rattle.ariadne_show.specs.Drawn.{IsParsedDrawn};
ghost use Rattle.ariadne_show.specs.FoundSpans.{files_of, found_of};
ghost use Rattle.ariadne_show.specs.FoundLabels.{label_of as label_fields, labels_of, severity_color};
ghost use Rattle.ariadne_show.specs.FoundLabels.{is_over_lines as goes_over_several};
ghost use Rattle.ariadne_show.specs.FoundLabels.{is_underlined as underlines_show};
ghost use Rattle.ariadne_show.specs.FoundLabels.{with_labels as more_labels};
ghost use Rattle.ariadne_show.specs.ReadFiles.{sources_in};
ghost use Rattle.ariadne_show.specs.TextDiagnostics.{first_line, lines_of};
ghost use Rattle.ariadne_show.specs.Widths.{IsTextWidth};

use crate::asides::{location_text, with_asides};
use crate::fault::Fault;
use crate::found::{FoundSpan, found_main, ordered_spans};
use crate::options::Style;
use crate::proposed::{Room, sketches};
use crate::shelf::Shelf;
use crate::texts::line_texts;
use ariadne::{CharSet, Color, Config, Label, ReportKind};
use ariadne_parse::{Diagnostic, End, Severity, Span};
use ariadne_safe::{SafeBuilder, SafeKind, SafeReport, TextKind, visible};
use std::alloc::{AllocError, Global};
use std::io::Write;
use std::ops::Range;

/// The colour of notes.
const NOTE: Color = Color::Fixed(147);

/// The colour of the spans that a diagnostic names beside its own.
const BESIDE: Color = Color::Blue;

/// A span of the source with a number.
type Piece = (usize, Range<usize>);

/// A diagnostic, and the name of its own kind, as it can be shown; empty where it has none.
#[derive(Drop)]
struct Titled<'a> {
    parsed: &'a Diagnostic,
    name: String,
    ghost name_is_told: { string_bytes name ≡ visible_bytes OneRow (own_name_in parsed.now.own_kind) },
    ghost name_is_shown: { is_shown OneRow (string_bytes name) ≡ true },
}

impl<'a> Titled<'a> {
    /// The diagnostic with the name of its own kind.
    fn new(alloc: Global, parsed: &'a Diagnostic) -> Result<Titled<'a>, AllocError>
        ensures { IfOk result (λ titled. titled.parsed.now ≡ parsed.now) }
    {
        let name = visible(alloc, own_name(parsed), TextKind::OneRow)?;
        Ok(Titled { parsed, name })
    }

    /// The kind of its reports.
    fn kind(&self) -> SafeKind<'_>
        ensures { kind_of_fields (kind_in result) ≡ told_kind self.now.parsed.now }
    {
        let severity = self.parsed.severity;
        match &self.parsed.own_kind {
            Some(own) => {
                let color = own.color.unwrap_or(color_of(severity));
                match SafeKind::new(ReportKind::Custom(self.name.as_str(), color)) {
                    Some(kind) => kind,
                    None => SafeKind::error(),
                }
            }
            None => kind_of(severity),
        }
    }
}

/// Draws a diagnostic over its files, which were read; in lines where its own span can't be had, which
/// the last of them says.
pub fn draw<W: Write>(
    alloc: Global,
    shelf: &Shelf,
    parsed: &Diagnostic,
    style: Style,
    out: &mut W,
) -> Result<(), Fault>
    ensures { OnOk result (IsParsedDrawn style (files_of shelf.now) (sources_in shelf.now) parsed.now
        (W.contents out.old) (W.contents out.new)) }
{
    let titled = Titled::new(alloc, parsed)?;
    draw_titled(alloc, shelf, &titled, style, out)
}

/// Draws a diagnostic so, with the name of its kind.
fn draw_titled<W: Write>(
    alloc: Global,
    shelf: &Shelf,
    titled: &Titled<'_>,
    style: Style,
    out: &mut W,
) -> Result<(), Fault>
    ensures { OnOk result (IsParsedDrawn style (files_of shelf.now) (sources_in shelf.now)
        titled.now.parsed.now (W.contents out.old) (W.contents out.new)) }
{
    let parsed = titled.parsed;
    match found_main(shelf, parsed) {
        Some(main) => {
            let report = report_of(alloc, shelf, titled, main, style)?;
            draw_report(&report, out)
        }
        None => {
            draw_line(alloc, shelf, titled, style, out)?;
            draw_lines(alloc, shelf, parsed, style, out)
        }
    }
}

/// Draws a report.
fn draw_report<W: Write>(report: &SafeReport<'_>, out: &mut W) -> Result<(), Fault>
    ensures { OnOk result (IsPicture (sources_below report.now) (report_in report.now)
        (W.contents out.old) (W.contents out.new)) }
{
    let _left_out = report.write(out)?;
    Ok(())
}

/// Draws a text as a note that has no span.
fn draw_text<W: Write>(
    alloc: Global,
    shelf: &Shelf,
    text: &str,
    style: Style,
    out: &mut W,
) -> Result<(), Fault>
    ensures { OnOk result (IsSaid style text.now (W.contents out.old) (W.contents out.new)) }
{
    let config = config_of(style);
    let builder = SafeBuilder::new(alloc, shelf.sources(), note_kind(), (0, 0..0), config);
    draw_report(&builder.with_message(text)?.finish(), out)
}

/// Draws the code, the span and the message of a diagnostic in one line.
fn draw_line<W: Write>(
    alloc: Global,
    shelf: &Shelf,
    titled: &Titled<'_>,
    style: Style,
    out: &mut W,
) -> Result<(), Fault>
    ensures { OnOk result (IsHeadDrawn style titled.now.parsed.now
        (W.contents out.old) (W.contents out.new)) }
{
    let text = line_text(alloc, titled.parsed)?;
    let kind = titled.kind();
    let builder = SafeBuilder::new(alloc, shelf.sources(), kind, (0, 0..0), config_of(style));
    let builder = with_code(builder.with_message(text.as_str())?, titled.parsed)?;
    draw_report(&builder.finish(), out)
}

/// Draws each span that says something, note and help of a diagnostic in a line, and why its own
/// span can't be drawn.
fn draw_lines<W: Write>(
    alloc: Global,
    shelf: &Shelf,
    parsed: &Diagnostic,
    style: Style,
    out: &mut W,
) -> Result<(), Fault>
    ensures { OnOk result (AreSaid style (lines_of (files_of shelf.now) parsed.now)
        (W.contents out.old) (W.contents out.new)) }
{
    let texts = line_texts(alloc, shelf, parsed)?;
    for text in &texts {
        draw_text(alloc, shelf, text.as_str(), style, out)?;
    }
    Ok(())
}

/// Where a diagnostic is, and what it says.
fn line_text(alloc: Global, parsed: &Diagnostic) -> Result<String, AllocError>
    ensures { IfOk result (λ text. string_bytes text ≡ first_line parsed.now) }
{
    match parsed.main_span() {
        Some(span) => location_text(alloc, span, parsed.message.as_str()),
        None => String::from_str(alloc, parsed.message.as_str()),
    }
}

/// The report of a diagnostic whose own span was found.
fn report_of<'s>(
    alloc: Global,
    shelf: &'s Shelf,
    titled: &'s Titled<'_>,
    main: FoundSpan<'_>,
    style: Style,
) -> Result<SafeReport<'s>, AllocError>
    ensures report { IfOk result (λ report. IsReportOf style (files_of shelf.now)
        titled.now.parsed.now (found_of main.entry) (sources_in shelf.now) (report_in report)) }
    ensures sources { IfOk result (λ report. sources_below report ≡ sources_in shelf.now) }
{
    let parsed = titled.parsed;
    let kind = titled.kind();
    let span = (main.number, main.caret..main.end.max(main.caret));
    let builder = SafeBuilder::new(alloc, shelf.sources(), kind, span, config_of(style));
    let builder = with_code(builder.with_message(parsed.message.as_str())?, parsed)?;
    let spans = ordered_spans(alloc, shelf, parsed.spans.as_slice(), main.number)?;
    let builder = with_labels(
        alloc,
        builder,
        parsed.severity,
        style.is_compact,
        spans.as_slice(),
    )?;
    let width = text_width(&builder, style.width)?;
    let room = room_in(style, width);
    let sketches = sketches(alloc, shelf, parsed.proposals.as_slice(), room)?;
    let builder = builder.with_width(width);
    Ok(with_asides(alloc, builder, shelf, parsed, sketches.as_slice(), width)?.finish())
}

/// The room that what is drawn of proposals has in rows of so many columns.
fn room_in(style: Style, width: usize) -> Room
    ensures { result ≡ room_of style width }
{
    Room {
        columns: width,
        char_set: char_set_of(style),
    }
}

/// How many columns the text of a line may take where a row of this report may take so many: those that
/// its margin leaves, but at least one. 0 is any number of both.
fn text_width(builder: &SafeBuilder<'_>, columns: usize) -> Result<usize, AllocError>
    ensures { IfOk result (λ width.
        IsTextWidth columns (sources_under builder.now) (made_of builder.now) width) }
{
    match columns {
        0 => Ok(0),
        _ => {
            let margin = builder.margin_columns()?;
            Ok(columns.saturating_sub(margin).max(1))
        }
    }
}

/// The report with the code of a diagnostic, if it has one.
fn with_code<'s>(
    builder: SafeBuilder<'s>,
    parsed: &Diagnostic,
) -> Result<SafeBuilder<'s>, AllocError>
    ensures report { IfOk result (λ b. made_of b ≡ coded parsed.now.code (made_of builder.entry)) }
    ensures sources { IfOk result (λ b. sources_under b ≡ sources_under builder.entry) }
{
    match &parsed.code {
        Some(code) => builder.with_code_text(code.as_str()),
        None => Ok(builder),
    }
}

/// The report with a label for each of these spans.
fn with_labels<'s>(
    alloc: Global,
    builder: SafeBuilder<'s>,
    severity: Severity,
    is_compact: bool,
    spans: &[FoundSpan<'_>],
) -> Result<SafeBuilder<'s>, AllocError>
    ensures report { IfOk result (λ b. made_of b ≡ more_labels
        (labels_of (made_of builder.entry).config.index_type (sources_under builder.entry) severity
        is_compact (map found_of spans.now)) (made_of builder.entry)) }
    ensures sources { IfOk result (λ b. sources_under b ≡ sources_under builder.entry) }
{
    let mut builder = builder;
    for it in spans {
        builder = builder.with_label(label_of(alloc, severity, is_compact, it)?)?;
    }
    Ok(builder)
}

/// The label of a span.
fn label_of(
    alloc: Global,
    severity: Severity,
    is_compact: bool,
    it: &FoundSpan<'_>,
) -> Result<Label<Piece>, AllocError>
    ensures { IfOk result (λ label. label
        ≡ label_fields severity is_compact (found_of it.now)) }
{
    let look = it.span.look;
    let own_color = if it.span.is_primary {
        color_of(severity)
    } else {
        BESIDE
    };
    let label = Label::new((it.number, it.start..it.end.max(it.start)))
        .with_color(look.color.unwrap_or(own_color))
        .with_order(look.order)
        .with_priority(look.priority);
    if it.span.text.is_empty() && is_underlined(it, is_compact) {
        Ok(label)
    } else {
        label.with_message(alloc, it.span.text.as_str())
    }
}

/// Whether the label of a span needs no arrow. Underlines show the span, but where it is empty or goes
/// over several lines; in compact pictures, which have none, the diagnostic's own span needs one.
fn is_underlined(it: &FoundSpan<'_>, is_compact: bool) -> bool
    ensures { result ≡ underlines_show is_compact (found_of it.now) }
{
    it.is_in_text
        && it.start < it.end
        && !is_over_lines(it.span)
        && !(is_compact && it.span.is_primary)
}

/// Whether a span goes over several lines.
fn is_over_lines(span: &Span) -> bool
    ensures { result ≡ goes_over_several span.now }
{
    match (span.marks, span.end) {
        (Some((start, end)), _) => start.line != end.line,
        (None, End::Before(location) | End::Behind(location)) => location.line != span.start.line,
        (None, End::OfWord) => false,
    }
}

/// The name of a diagnostic's own kind; empty where it has none.
fn own_name(parsed: &Diagnostic) -> &str
    ensures { result.now ≡ own_name_in parsed.now.own_kind }
{
    match &parsed.own_kind {
        Some(own) => own.name.as_str(),
        None => "",
    }
}

/// The kind of the reports of diagnostics without a kind of their own.
fn kind_of(severity: Severity) -> SafeKind<'static>
    ensures { kind_of_fields (kind_in result) ≡ severity_kind severity }
{
    match severity {
        Severity::Error => SafeKind::error(),
        Severity::Warning => SafeKind::warning(),
        Severity::Note => note_kind(),
    }
}

/// The kind of notes.
fn note_kind() -> SafeKind<'static>
    ensures { kind_of_fields (kind_in result) ≡ severity_kind Note }
{
    match SafeKind::new(ReportKind::Custom("Note", NOTE)) {
        Some(kind) => kind,
        None => SafeKind::advice(),
    }
}

/// The colour of a severity: that of the label at a diagnostic's own span, and of its kind.
fn color_of(severity: Severity) -> Color
    ensures { result ≡ severity_color severity }
{
    match severity {
        Severity::Error => Color::Red,
        Severity::Warning => Color::Yellow,
        Severity::Note => NOTE,
    }
}

/// The characters that strokes and marks are drawn with.
fn char_set_of(style: Style) -> CharSet
    ensures { result ≡ strokes_of style }
{
    if style.is_ascii {
        CharSet::Ascii
    } else {
        CharSet::Unicode
    }
}

/// The configuration of pictures, whose lines are whole.
fn config_of(style: Style) -> Config
    ensures { result ≡ config_fields style }
{
    Config::new()
        .with_color(style.is_colored)
        .with_compact(style.is_compact)
        .with_char_set(char_set_of(style))
        .with_lone_underlines(true)
        .with_context_lines(style.context_lines)
}
