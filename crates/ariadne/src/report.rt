//! Reports: diagnostics over sources.

ghost use Rattle.std.specs.Prelude.{◌≡◌, map, string_bytes};
ghost use Rattle.std.specs.Option.{option_copied};

use crate::builder::ReportBuilder;
use ariadne_base::Span;
use ariadne_report::config::Config;
use ariadne_report::kind::ReportKind;
use ariadne_report::label::Label;
use ariadne_report::report_data::ReportData;
use std::alloc::Global;
use std::marker::Model;
use std::ops::Range;

/// A finished diagnostic.
///
/// You can write a report many times, over one cache or several. The report owns its texts.
///
/// ```rust
/// let report = Report::build(alloc, ReportKind::Error, ("-", 4..8))
///     .with_config(plain())
///     .with_message("unknown fruit")?
///     .with_label(Label::new(("-", 4..8)).with_message(alloc, "not among the fruit")?)?
///     .with_label(Label::new(("fruit", 0..5)).with_message(alloc, "there is only this one")?)?;
/// Ok(report.finish())
/// ```
#[derive(Debug, Drop)]
pub struct Report<'a, S: Span = Range<usize>> {
    pub(crate) data: ReportData<'a, S>,
}

impl<'a, S: Span> Model for Report<'a, S> {
    ghost use Rattle.ariadne_picture.specs.Report.{ReportFields};

    ghost Value = { ReportFields S };

    ghost view = { λ a. a.data };
}

impl<'a, S: Span> Report<'a, S> {
    ghost use Rattle.ariadne_picture.specs.Report.{new_report};
    ghost use Rattle.ariadne_report.specs.Kinds.{kind_of};

    /// Starts a report of this kind.
    ///
    /// The header of the picture shows the start of `span`, if the source of `span` has a drawn
    /// label. The report has the default configuration, and no code, message, labels, notes or
    /// helps. All calls of the builder use `alloc`.
    pub fn build(alloc: Global, kind: ReportKind<'a>, span: S) -> ReportBuilder<'a, S>
        ensures { result ≡ new_report (kind_of kind.entry) span }
    {
        ReportBuilder::new(alloc, kind, span)
    }

    /// The kind.
    pub fn kind(&self) -> ReportKind<'a>
        ensures kind { kind_of result ≡ self.now.kind }
    {
        self.data.kind
    }

    /// The code in the header, in brackets before the kind, if there is one. The code of a number
    /// has at least two digits, and the code of a text is filled to two characters.
    pub fn code(&self) -> Option<&str>
        ensures code { option_copied result ≡ self.now.code }
    {
        self.data.code()
    }

    /// The message in the header, if there is one.
    pub fn message(&self) -> Option<&str>
        ensures message { option_copied result ≡ self.now.message }
    {
        self.data.message()
    }

    /// The span with the location in the header.
    pub fn span(&self) -> &S
        ensures span { result.now ≡ self.now.span }
    {
        self.data.span()
    }

    /// The labels, in the order of the calls. The list of skipped labels from `write` counts from
    /// 0.
    pub fn labels(&self) -> &[Label<S>]
        ensures labels { result.now ≡ self.now.labels }
    {
        self.data.labels()
    }

    /// The texts of the notes, in the order of the calls.
    pub fn notes(&self) -> &[String]
        ensures notes { map string_bytes result.now ≡ self.now.notes }
    {
        self.data.notes()
    }

    /// The texts of the helps, in the order of the calls.
    pub fn helps(&self) -> &[String]
        ensures helps { map string_bytes result.now ≡ self.now.helps }
    {
        self.data.helps()
    }

    /// The settings of the picture, and the unit of offsets.
    pub fn config(&self) -> Config
        ensures config { result ≡ self.now.config }
    {
        self.data.config()
    }
}
