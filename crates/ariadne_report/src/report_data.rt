//! The data of a report, from the builder to the picture.

ghost use Rattle.std.specs.Prelude.{◌≡◌, map, string_bytes};
ghost use Rattle.std.specs.Option.{option_copied};

use crate::config::Config;
use crate::kind::ReportKind;
use crate::label::Label;
use ariadne_base::Span;
use std::alloc::Global;
use std::marker::Model;
use std::ops::Range;

/// The data of a report, with the allocator for its picture. The builder of reports sets the
/// fields. The renderer reads them by calls.
#[derive(Debug, Drop)]
pub struct ReportData<'a, S: Span = Range<usize>> {
    pub kind: ReportKind<'a>,
    pub code: Option<String>,
    pub message: Option<String>,
    pub span: S,
    pub labels: Vec<Label<S>>,
    pub notes: Vec<String>,
    pub helps: Vec<String>,
    pub config: Config,
    pub alloc: Global,
}

impl<'a, S: Span> Model for ReportData<'a, S> {
    ghost use Rattle.std.specs.Prelude.{map, option_map, string_bytes};
    ghost use Rattle.ariadne_picture.specs.Report.{ReportFields};
    ghost use Rattle.ariadne_report.specs.Kinds.{kind_of};

    ghost Value = { ReportFields S };

    ghost view = { λ a. record {
      kind = kind_of a.kind;
      code = option_map string_bytes a.code;
      message = option_map string_bytes a.message;
      span = a.span;
      labels = a.labels.items;
      notes = map string_bytes a.notes.items;
      helps = map string_bytes a.helps.items;
      config = a.config;
    } };
}

impl<'a, S: Span> ReportData<'a, S> {
    /// The code, shown in brackets before the kind.
    pub fn code(&self) -> Option<&str>
        ensures { option_copied result ≡ self.now.code }
    {
        self.code.as_deref()
    }

    /// The message of the header.
    pub fn message(&self) -> Option<&str>
        ensures { option_copied result ≡ self.now.message }
    {
        self.message.as_deref()
    }

    /// The labels.
    pub fn labels(&self) -> &[Label<S>]
        ensures { result.now ≡ self.now.labels }
    {
        &self.labels
    }

    /// The texts of the helps.
    pub fn helps(&self) -> &[String]
        ensures { map string_bytes result.now ≡ self.now.helps }
    {
        &self.helps
    }

    /// The texts of the notes.
    pub fn notes(&self) -> &[String]
        ensures { map string_bytes result.now ≡ self.now.notes }
    {
        &self.notes
    }

    /// The location in the header.
    pub fn span(&self) -> &S
        ensures { result.now ≡ self.now.span }
    {
        &self.span
    }

    /// The settings of the picture.
    pub fn config(&self) -> Config
        ensures { result ≡ self.now.config }
    {
        self.config
    }
}
