//! Builders of reports.

ghost use Rattle.std.specs.Prelude.{◌≡◌, ℕ, ◌++◌, ◌∷◌, [], List, map, Some, IfOk, IsOkAnd, OnOk};
ghost use Rattle.std.specs.Prelude.{MatchResult, OnErr, string_bytes};
ghost use Rattle.std.specs.Borrow.{Bor};
ghost use Rattle.std.specs.Iterator.{IsFiniteIterable};
ghost use Rattle.ariadne_picture.specs.Report.{LabelFields};
ghost use Rattle.ariadne.specs.Building.{numeric_code, filled_code, GivesAll, GivesMore};

use crate::report::Report;
use ariadne_base::Span;
use ariadne_report::config::Config;
use ariadne_report::kind::ReportKind;
use ariadne_report::label::Label;
use ariadne_report::report_data::ReportData;
use std::alloc::{AllocError, Global};
use std::marker::Model;
use std::ops::Range;

/// A report under construction, from [`Report::build`].
///
/// If memory runs out, a call by value drops the report. A call by reference leaves the report
/// unchanged, except that the texts or labels added before the failure stay.
///
/// ```rust
/// let mut builder = Report::build(alloc, ReportKind::Warning, 0..5).with_message("unused name")?;
/// builder.add_label(Label::new(0..5).with_message(alloc, "never read")?)?;
/// builder.add_note("a name with `_` in front may be unused")?;
/// let report = builder.finish();
/// ```
#[derive(Debug, Drop)]
pub struct ReportBuilder<'a, S: Span = Range<usize>> {
    pub(crate) report: ReportData<'a, S>,
}

impl<'a, S: Span> Model for ReportBuilder<'a, S> {
    ghost use Rattle.ariadne_picture.specs.Report.{ReportFields};

    ghost Value = { ReportFields S };

    ghost view = { λ a. a.report };
}

impl<'a, S: Span> ReportBuilder<'a, S> {
    ghost use Rattle.ariadne_picture.specs.Report.{new_report};
    ghost use Rattle.ariadne_report.specs.Kinds.{kind_of};

    pub(crate) fn new(alloc: Global, kind: ReportKind<'a>, span: S) -> ReportBuilder<'a, S>
        ensures { result ≡ new_report (kind_of kind.entry) span }
    {
        ReportBuilder {
            report: ReportData {
                kind,
                code: None,
                message: None,
                span,
                labels: Vec::new(alloc),
                notes: Vec::new(alloc),
                helps: Vec::new(alloc),
                config: Config::new(),
                alloc,
            },
        }
    }

    /// The report with this number as its code; an older code is dropped. The header shows the code
    /// in brackets before the kind: the decimal digits, with a zero before a single digit.
    pub fn with_code(mut self, code: u64) -> Result<ReportBuilder<'a, S>, AllocError>
    where
        S: Drop,
        ensures { IfOk result (λ report. report ≡ record self.entry
            { code = Some (numeric_code code) }) }
    {
        let code = number_code(self.report.alloc, code);
        self.set_code(code).and(Ok(self))
    }

    /// The report with this text as its code; an older code is dropped. The header shows the code
    /// in brackets before the kind, filled with blanks to two characters.
    pub fn with_code_text(mut self, code: &str) -> Result<ReportBuilder<'a, S>, AllocError>
    where
        S: Drop,
        ensures { IfOk result (λ report. report ≡ record self.entry
            { code = Some (filled_code code.now) }) }
    {
        let code = text_code(self.report.alloc, code);
        self.set_code(code).and(Ok(self))
    }

    /// Sets this code, if there was memory for it; an older code is dropped.
    fn set_code(&mut self, code: Result<String, AllocError>) -> Result<(), AllocError>
        ensures { OnOk result (IsOkAnd code
            (λ text. self.new ≡ record self.old { code = Some (string_bytes text) })) }
    {
        let report = &mut self.report;
        report.code = Some(code?);
        Ok(())
    }

    /// Sets the message; an older message is dropped. On `Err` memory ran out, and the report is
    /// unchanged.
    pub fn set_message(&mut self, message: &str) -> Result<(), AllocError>
        ensures ok { OnOk result (self.new ≡ record self.old { message = Some message.now }) }
        ensures err { OnErr result (self.new ≡ self.old) }
    {
        let report = &mut self.report;
        report.message = Some(String::from_str(report.alloc, message)?);
        Ok(())
    }

    /// The report with this message; an older message is dropped. On `Err` memory ran out, and the
    /// report is dropped.
    pub fn with_message(mut self, message: &str) -> Result<ReportBuilder<'a, S>, AllocError>
    where
        S: Drop,
        ensures { IfOk result (λ report. report ≡ record self.entry
            { message = Some message.now }) }
    {
        self.set_message(message).and(Ok(self))
    }

    /// Sets this note as the only one. On `Err` memory ran out, and the report is unchanged.
    ///
    /// Notes are below the labels: a report without a drawn label shows no notes.
    pub fn set_note(&mut self, note: &str) -> Result<(), AllocError>
        ensures ok { OnOk result (self.new ≡ record self.old { notes = note.now ∷ [] }) }
        ensures err { OnErr result (self.new ≡ self.old) }
    {
        let report = &mut self.report;
        set_text(&mut report.notes, report.alloc, note)
    }

    /// Adds a note after the others. On `Err` memory ran out, and the report is unchanged.
    ///
    /// Notes are below the labels: a report without a drawn label shows no notes.
    pub fn add_note(&mut self, note: &str) -> Result<(), AllocError>
        ensures ok { OnOk result (self.new ≡ record self.old
            { notes = self.old.notes ++ note.now ∷ [] }) }
        ensures err { OnErr result (self.new ≡ self.old) }
    {
        let report = &mut self.report;
        push_text(&mut report.notes, report.alloc, note)
    }

    /// Adds these notes in turn, after the others. On `Err` memory ran out at one of the notes: the
    /// notes before stay added, and the others are dropped.
    ///
    /// Notes are below the labels: a report without a drawn label shows no notes.
    pub fn with_notes<'t, T: IntoIterator<Item = &'t str>>(
        &mut self,
        notes: T,
    ) -> Result<(), AllocError>
    where
        T::IntoIter: Drop,
        requires { IsFiniteIterable T.into_iter_gives T.IntoIter.can_next T.IntoIter.remaining
            notes }
        ensures ok { OnOk result ((texts : List (Bor (List ℕ)))
            × GivesAll T.into_iter_gives T.IntoIter.next_gives notes texts
            × (self.new ≡ record self.old
            { notes = self.old.notes ++ map (λ text. text.now) texts })) }
        ensures err { OnErr result ((texts : List (Bor (List ℕ)))
            × GivesMore T.into_iter_gives T.IntoIter.next_gives notes texts
            × (self.new ≡ record self.old
            { notes = self.old.notes ++ map (λ text. text.now) texts })) }
    {
        for text in notes {
            self.add_note(text)?;
        }
        Ok(())
    }

    /// The report with one more note, after the others. On `Err` memory ran out, and the report is
    /// dropped.
    ///
    /// Notes are below the labels: a report without a drawn label shows no notes.
    pub fn with_note(mut self, note: &str) -> Result<ReportBuilder<'a, S>, AllocError>
    where
        S: Drop,
        ensures { IfOk result (λ report. report ≡ record self.entry
            { notes = self.entry.notes ++ note.now ∷ [] }) }
    {
        self.add_note(note).and(Ok(self))
    }

    /// Sets this help as the only one. On `Err` memory ran out, and the report is unchanged.
    ///
    /// Helps are below the labels: a report without a drawn label shows no helps.
    pub fn set_help(&mut self, help: &str) -> Result<(), AllocError>
        ensures ok { OnOk result (self.new ≡ record self.old { helps = help.now ∷ [] }) }
        ensures err { OnErr result (self.new ≡ self.old) }
    {
        let report = &mut self.report;
        set_text(&mut report.helps, report.alloc, help)
    }

    /// Adds a help after the others. On `Err` memory ran out, and the report is unchanged.
    ///
    /// Helps are below the labels: a report without a drawn label shows no helps.
    pub fn add_help(&mut self, help: &str) -> Result<(), AllocError>
        ensures ok { OnOk result (self.new ≡ record self.old
            { helps = self.old.helps ++ help.now ∷ [] }) }
        ensures err { OnErr result (self.new ≡ self.old) }
    {
        let report = &mut self.report;
        push_text(&mut report.helps, report.alloc, help)
    }

    /// Adds these helps in turn, after the others. On `Err` memory ran out at one of the helps: the
    /// helps before stay added, and the others are dropped.
    ///
    /// Helps are below the labels: a report without a drawn label shows no helps.
    pub fn with_helps<'t, T: IntoIterator<Item = &'t str>>(
        &mut self,
        helps: T,
    ) -> Result<(), AllocError>
    where
        T::IntoIter: Drop,
        requires { IsFiniteIterable T.into_iter_gives T.IntoIter.can_next T.IntoIter.remaining
            helps }
        ensures ok { OnOk result ((texts : List (Bor (List ℕ)))
            × GivesAll T.into_iter_gives T.IntoIter.next_gives helps texts
            × (self.new ≡ record self.old
            { helps = self.old.helps ++ map (λ text. text.now) texts })) }
        ensures err { OnErr result ((texts : List (Bor (List ℕ)))
            × GivesMore T.into_iter_gives T.IntoIter.next_gives helps texts
            × (self.new ≡ record self.old
            { helps = self.old.helps ++ map (λ text. text.now) texts })) }
    {
        for text in helps {
            self.add_help(text)?;
        }
        Ok(())
    }

    /// The report with one more help, after the others. On `Err` memory ran out, and the report is
    /// dropped.
    ///
    /// Helps are below the labels: a report without a drawn label shows no helps.
    pub fn with_help(mut self, help: &str) -> Result<ReportBuilder<'a, S>, AllocError>
    where
        S: Drop,
        ensures { IfOk result (λ report. report ≡ record self.entry
            { helps = self.entry.helps ++ help.now ∷ [] }) }
    {
        self.add_help(help).and(Ok(self))
    }

    /// Adds a label after the others. On `Err` memory ran out: the label is dropped, and the report
    /// is unchanged.
    pub fn add_label(&mut self, label: Label<S>) -> Result<(), AllocError>
    where
        S: Drop,
        ensures ok { OnOk result (self.new ≡ record self.old
            { labels = self.old.labels ++ label ∷ [] }) }
        ensures err { OnErr result (self.new ≡ self.old) }
    {
        self.report.labels.push(label)?;
        Ok(())
    }

    /// Adds these labels in turn, after the others. On `Err` memory ran out at one of the labels:
    /// the labels before stay added, and the others are dropped.
    pub fn add_labels<T: IntoIterator<Item = Label<S>>>(
        &mut self,
        labels: T,
    ) -> Result<(), AllocError>
    where
        S: Drop,
        T::IntoIter: Drop,
        requires { IsFiniteIterable T.into_iter_gives T.IntoIter.can_next T.IntoIter.remaining
            labels }
        ensures ok { OnOk result ((added : List (LabelFields S))
            × GivesAll T.into_iter_gives T.IntoIter.next_gives labels added
            × (self.new ≡ record self.old { labels = self.old.labels ++ added })) }
        ensures err { OnErr result ((added : List (LabelFields S))
            × GivesMore T.into_iter_gives T.IntoIter.next_gives labels added
            × (self.new ≡ record self.old { labels = self.old.labels ++ added })) }
    {
        for added in labels {
            self.add_label(added)?;
        }
        Ok(())
    }

    /// The report with one more label, after the others. On `Err` memory ran out, and label and
    /// report are dropped.
    pub fn with_label(mut self, label: Label<S>) -> Result<ReportBuilder<'a, S>, AllocError>
    where
        S: Drop,
        ensures { IfOk result (λ report. report ≡ record self.entry
            { labels = self.entry.labels ++ label ∷ [] }) }
    {
        self.add_label(label).and(Ok(self))
    }

    /// The report with these labels in turn, after the others. On `Err` memory ran out, and labels
    /// and report are dropped.
    pub fn with_labels<T: IntoIterator<Item = Label<S>>>(
        mut self,
        labels: T,
    ) -> Result<ReportBuilder<'a, S>, AllocError>
    where
        S: Drop,
        T::IntoIter: Drop,
        requires { IsFiniteIterable T.into_iter_gives T.IntoIter.can_next T.IntoIter.remaining
            labels }
        ensures { IfOk result (λ report. (added : List (LabelFields S))
            × GivesAll T.into_iter_gives T.IntoIter.next_gives labels added
            × (report ≡ record self.entry { labels = self.entry.labels ++ added })) }
    {
        self.add_labels(labels).and(Ok(self))
    }

    /// The settings of the picture, and the unit of offsets.
    pub fn config(&self) -> Config
        ensures { result ≡ self.now.config }
    {
        self.report.config()
    }

    /// The report with this configuration; the older one is dropped.
    pub fn with_config(self, config: Config) -> ReportBuilder<'a, S>
        ensures { result ≡ record self.entry { config = config } }
    {
        let ReportBuilder { mut report } = self;
        report.config = config;
        ReportBuilder { report }
    }

    /// The finished report.
    pub fn finish(self) -> Report<'a, S>
        ensures { result ≡ self.entry }
    {
        let ReportBuilder { report } = self;
        Report { data: report }
    }
}

/// Adds a text after others. On `Err` memory ran out, and they are unchanged.
fn push_text(texts: &mut Vec<String>, alloc: Global, text: &str) -> Result<(), AllocError>
    ensures { MatchResult result
        (λ _. map string_bytes texts.new.items
        ≡ map string_bytes texts.old.items ++ text.now ∷ [])
        (λ _. texts.new.items ≡ texts.old.items) }
{
    texts.push(String::from_str(alloc, text)?)?;
    Ok(())
}

/// Puts a text in place of others. On `Err` memory ran out, and they are unchanged.
fn set_text(texts: &mut Vec<String>, alloc: Global, text: &str) -> Result<(), AllocError>
    ensures { MatchResult result (λ _. map string_bytes texts.new.items ≡ text.now ∷ [])
        (λ _. texts.new.items ≡ texts.old.items) }
{
    let text = String::from_str(alloc, text)?;
    *texts = vec![in alloc; text]?;
    Ok(())
}

/// The code for a number: the digits, with zeros before to at least two.
#[tactic(auto, using(crate::proofs::Building::zero_filled))]
fn number_code(alloc: Global, number: u64) -> Result<String, AllocError>
    ensures { IfOk result (λ code. string_bytes code ≡ numeric_code number) }
{
    format!(in alloc; "{number:02}")
}

/// The code for a text: with blanks after to at least two characters.
fn text_code(alloc: Global, text: &str) -> Result<String, AllocError>
    ensures { IfOk result (λ code. string_bytes code ≡ filled_code text.now) }
{
    let filler = match text.chars().count() {
        0 => "  ",
        1 => " ",
        _ => "",
    };
    format!(in alloc; "{text}{filler}")
}
