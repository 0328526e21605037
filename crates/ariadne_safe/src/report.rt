//! Reports whose texts hide nothing, over sources that hide nothing.

ghost use Rattle.std.specs.Prelude.{◌≡◌, ◌↔◌, ◌++◌, ◌∷◌, [], true, false, None, Some};
ghost use Rattle.std.specs.Prelude.{IfOk, IfSome, OnOk};
ghost use Rattle.ariadne.specs.Kinds.{kind_of, shown_kind};
ghost use Rattle.ariadne.specs.Report.{new_report};
ghost use Rattle.ariadne.specs.Building.{filled_code};
ghost use Rattle.ariadne_safe.specs.Visible.{is_shown, visible_bytes};
ghost use Rattle.ariadne_safe.specs.Pictures.{is_shown_report, GotNothingHidden};
ghost use Rattle.ariadne_safe.specs.declared.text.TextKind.TheVariants.{OneRow, Aside};

use crate::places::{shown_label, shown_place};
use crate::sources::{NoSource, SafeSources};
use crate::text::{TextKind, is_seen, visible};
use ariadne::{Config, IndexType, Label, LeftOut, Report, ReportBuilder, ReportKind, WriteError};
use std::alloc::{AllocError, Global};
use std::io::Write;
use std::ops::Range;

/// A kind of report whose name hides nothing.
#[derive(Clone, Copy, Debug)]
pub struct SafeKind<'a> {
    kind: ReportKind<'a>,
    ghost name_is_shown: { is_shown OneRow (shown_kind kind) ≡ true },
}

impl<'a> SafeKind<'a> {
    ghost use Rattle.ariadne.specs.ReportKind.TheVariants.{Error, Warning, Advice};
    ghost use Rattle.ariadne_safe.specs.SafeBuilding.{kind_in};

    /// `ReportKind::Error`.
    pub fn error() -> SafeKind<'a>
        ensures { kind_in result ≡ Error }
    {
        SafeKind {
            kind: ReportKind::Error,
        }
    }

    /// `ReportKind::Warning`.
    pub fn warning() -> SafeKind<'a>
        ensures { kind_in result ≡ Warning }
    {
        SafeKind {
            kind: ReportKind::Warning,
        }
    }

    /// `ReportKind::Advice`.
    pub fn advice() -> SafeKind<'a>
        ensures { kind_in result ≡ Advice }
    {
        SafeKind {
            kind: ReportKind::Advice,
        }
    }

    /// The kind, where its name hides nothing. That of a custom kind may; `visible` makes one that
    /// doesn't.
    pub fn new(kind: ReportKind<'a>) -> Option<SafeKind<'a>>
        ensures some { IfSome result (λ safe. kind_in safe ≡ kind.entry) }
        ensures none { (result ≡ None) ↔ (is_shown OneRow (shown_kind kind.entry) ≡ false) }
    {
        if is_seen(kind.name()) {
            Some(SafeKind { kind })
        } else {
            None
        }
    }
}

/// What a report in the making is over: sources, and what offsets into them count.
#[derive(Clone, Copy, Debug)]
struct Basis<'a> {
    sources: &'a SafeSources,
    index_type: IndexType,
    alloc: Global,
}

/// A safe report in the making, over sources that are there. A call that is refused memory drops
/// it.
#[derive(Debug, Drop)]
pub struct SafeBuilder<'a> {
    basis: Basis<'a>,
    report: ReportBuilder<'a, (usize, Range<usize>)>,
    ghost texts_are_shown: { is_shown_report report ≡ true },
    ghost counts_alike: { report.config.index_type ≡ basis.index_type },
}

impl<'a> SafeBuilder<'a> {
    ghost use Rattle.ariadne_safe.specs.Sources.{sources_of};
    ghost use Rattle.ariadne_safe.specs.SafeReports.{shown_place as place_of, shown_label as label_of};
    ghost use Rattle.ariadne_safe.specs.SafeReports.{HasMarginOver};
    ghost use Rattle.ariadne_safe.specs.SafeBuilding.{kind_in, made_of, sources_under};
    ghost use Rattle.ariadne_safe.specs.SafeBuilding.{report_of, sources_below};

    /// Begins a report of this kind, with this configuration, over these sources.
    ///
    /// `place` is what the header of its picture names: the number of a source, and a piece of its
    /// given text, in what the configuration counts, characters or bytes, from 0, the end
    /// exclusive.
    pub fn new(
        alloc: Global,
        sources: &'a SafeSources,
        kind: SafeKind<'a>,
        place: (usize, Range<usize>),
        config: Config,
    ) -> SafeBuilder<'a>
        ensures report { made_of result ≡ record (new_report (kind_of (kind_in kind.entry))
            (place_of config.index_type (sources_of sources.now) place)) { config = config } }
        ensures sources { sources_under result ≡ sources_of sources.now }
    {
        let index_type = config.index_type();
        let span = shown_place(sources, index_type, &place);
        SafeBuilder {
            basis: Basis {
                sources,
                index_type,
                alloc,
            },
            report: Report::build(alloc, kind.kind, span).with_config(config),
        }
    }

    /// The report with this text as its code, as `ReportBuilder::with_code_text` sets it.
    pub fn with_code_text(self, code: &str) -> Result<SafeBuilder<'a>, AllocError>
        ensures report { IfOk result (λ b. made_of b ≡ record (made_of self.entry)
            { code = Some (filled_code (visible_bytes OneRow code.now)) }) }
        ensures sources { IfOk result (λ b. sources_under b ≡ sources_under self.entry) }
    {
        let SafeBuilder { basis, report } = self;
        let code = visible(basis.alloc, code, TextKind::OneRow)?;
        let report = report.with_code_text(code.as_str())?;
        Ok(SafeBuilder { basis, report })
    }

    /// The report with this message, in place of the one that it may have had.
    pub fn with_message(self, message: &str) -> Result<SafeBuilder<'a>, AllocError>
        ensures report { IfOk result (λ b. made_of b ≡ record (made_of self.entry)
            { message = Some (visible_bytes OneRow message.now) }) }
        ensures sources { IfOk result (λ b. sources_under b ≡ sources_under self.entry) }
    {
        let SafeBuilder { basis, report } = self;
        let message = visible(basis.alloc, message, TextKind::OneRow)?;
        let report = report.with_message(message.as_str())?;
        Ok(SafeBuilder { basis, report })
    }

    /// The report with one note more, behind those that it has.
    pub fn with_note(self, note: &str) -> Result<SafeBuilder<'a>, AllocError>
        ensures report { IfOk result (λ b. made_of b ≡ record (made_of self.entry)
            { notes = (made_of self.entry).notes ++ visible_bytes Aside note.now ∷ [] }) }
        ensures sources { IfOk result (λ b. sources_under b ≡ sources_under self.entry) }
    {
        let SafeBuilder { basis, report } = self;
        let note = visible(basis.alloc, note, TextKind::Aside)?;
        let report = report.with_note(note.as_str())?;
        Ok(SafeBuilder { basis, report })
    }

    /// The report with one help more, behind those that it has.
    pub fn with_help(self, help: &str) -> Result<SafeBuilder<'a>, AllocError>
        ensures report { IfOk result (λ b. made_of b ≡ record (made_of self.entry)
            { helps = (made_of self.entry).helps ++ visible_bytes Aside help.now ∷ [] }) }
        ensures sources { IfOk result (λ b. sources_under b ≡ sources_under self.entry) }
    {
        let SafeBuilder { basis, report } = self;
        let help = visible(basis.alloc, help, TextKind::Aside)?;
        let report = report.with_help(help.as_str())?;
        Ok(SafeBuilder { basis, report })
    }

    /// The report with one label more, behind those that it has.
    ///
    /// The label's span is the number of its source, and a piece of the given text, in what the
    /// configuration counts, characters or bytes, from 0, the end exclusive.
    pub fn with_label(
        self,
        label: Label<(usize, Range<usize>)>,
    ) -> Result<SafeBuilder<'a>, AllocError>
        ensures report { IfOk result (λ b. made_of b ≡ record (made_of self.entry) {
          labels = (made_of self.entry).labels ++ label_of (made_of self.entry).config.index_type
              (sources_under self.entry) label ∷ [];
        }) }
        ensures sources { IfOk result (λ b. sources_under b ≡ sources_under self.entry) }
    {
        let SafeBuilder { basis, report } = self;
        let label = shown_label(basis.alloc, basis.sources, basis.index_type, &label)?;
        let report = report.with_label(label)?;
        Ok(SafeBuilder { basis, report })
    }

    /// How many columns of a row stand in front of the source text of the report as it is so far, as
    /// `Report::margin_columns` has it.
    ///
    /// On `Err` there was no memory to sort the labels.
    pub fn margin_columns(&self) -> Result<usize, AllocError>
        ensures { IfOk result (λ columns.
            HasMarginOver (sources_under self.now) (made_of self.now) columns) }
    {
        let mut cache = self.basis.sources;
        self.report.margin_columns(&mut cache)
    }

    /// The report with lines that take so many columns of their text, as `Config::with_width` cuts
    /// them; 0 is any number.
    pub fn with_width(self, columns: usize) -> SafeBuilder<'a>
        ensures report { made_of result ≡ record (made_of self.entry)
            { config = record (made_of self.entry).config { width = columns } } }
        ensures sources { sources_under result ≡ sources_under self.entry }
    {
        let SafeBuilder { basis, report } = self;
        let config = report.config().with_width(columns);
        SafeBuilder {
            basis,
            report: report.with_config(config),
        }
    }

    /// The report, ready to be written.
    pub fn finish(self) -> SafeReport<'a>
        ensures report { report_of result ≡ made_of self.entry }
        ensures sources { sources_below result ≡ sources_under self.entry }
    {
        let SafeBuilder { basis, report } = self;
        SafeReport {
            sources: basis.sources,
            report: report.finish(),
        }
    }
}

/// A report that is ready to be written, over its sources. Neither hides anything.
#[derive(Debug, Drop)]
pub struct SafeReport<'a> {
    sources: &'a SafeSources,
    report: Report<'a, (usize, Range<usize>)>,
    ghost texts_are_shown: { is_shown_report report ≡ true },
}

impl<'a> SafeReport<'a> {
    ghost use Rattle.ariadne_safe.specs.SafeReports.{HasMarginOver, WrittenFor};
    ghost use Rattle.ariadne_safe.specs.SafeBuilding.{report_of, sources_below};

    /// How many columns of a row stand in front of the source text, as `Report::margin_columns` has it.
    ///
    /// On `Err` there was no memory to sort the labels.
    pub fn margin_columns(&self) -> Result<usize, AllocError>
        ensures { IfOk result (λ columns.
            HasMarginOver (sources_below self.now) (report_of self.now) columns) }
    {
        let mut cache = self.sources;
        self.report.margin_columns(&mut cache)
    }

    /// Draws the report over its sources and sends the picture to `out`, as `Report::write` does.
    ///
    /// No picture that it draws hides anything: no text of it has an escape, so each is that of a
    /// colour of the library's own, and with colours off there is none. Outside of the colours,
    /// `ESC [ digits and semicolons m`, the only hidden characters are the line feeds at the ends
    /// of rows. This speaks of characters: the terminal has to read UTF-8.
    ///
    /// A label is left out where no source has its number, and where `write` of `Report` leaves it
    /// out; the result lists these by their positions, from 0. On `Memory` nothing was sent. On
    /// `Io` the writer failed: it has taken exactly the first `sent` bytes of the picture, which
    /// has more. The report is as it was after each result, and can be written again.
    pub fn write<W: Write>(&self, out: &mut W) -> Result<Vec<LeftOut<NoSource>>, WriteError>
        ensures written { WrittenFor (sources_below self.now) (report_of self.now)
            (W.contents out.old) (W.contents out.new) result }
        ensures hides { OnOk result (GotNothingHidden (W.contents out.old) (W.contents out.new)) }
    {
        let mut cache = self.sources;
        self.report.write(&mut cache, out)
    }
}
