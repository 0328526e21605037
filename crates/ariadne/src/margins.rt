//! The columns of a picture before the source text.

ghost use Rattle.std.specs.Prelude.{◌≡◌, IfOk};
ghost use Rattle.ariadne_report.specs.CacheReads.{world};
ghost use Rattle.ariadne_report.specs.Judging.{GrowsFor};
ghost use Rattle.ariadne.specs.Written.{HasMargin};

use crate::builder::ReportBuilder;
use crate::report::Report;
use ariadne_base::{Cache, Span};
use ariadne_report::accept::accept;
use ariadne_report::margins::margin_columns;
use ariadne_report::report_data::ReportData;
use std::alloc::AllocError;

impl<'a, S: Span> Report<'a, S> {
    /// The number of columns of a row before the source text: those of the margin, and those of the
    /// gutter, with the bars between lines. The number is the greatest of all groups of labels, and
    /// 0 without a drawn label.
    ///
    /// ```text
    ///  1 | ,-> def five = match () in {       9 of them: 5 of the margin, and 4 of the gutter
    /// ```
    ///
    /// If a row may take only so many columns, subtract this number for the width of lines. The
    /// width of the report has no effect here. `ReportBuilder` has this call too, while you can
    /// still set the width.
    ///
    /// ```rust
    /// let columns = 80 - builder.margin_columns(&mut cache)?.min(60);
    /// let report = builder.with_config(Config::new().with_width(columns)).finish();
    /// ```
    ///
    /// Only the sources of labels are fetched, in the order of the labels, as by `write`. On `Err`
    /// memory ran out, in the cache or for sorting the labels. After each result the cache has all
    /// sources from before, and at most sources of labels more.
    pub fn margin_columns<C: Cache<S::SourceId>>(&self, cache: &mut C) -> Result<usize, AllocError>
        requires { C.can_fetch cache.old }
        ensures again { C.can_fetch cache.new }
        ensures naming { (q : S.SourceId) → C.names cache.new q ≡ C.names cache.old q }
        ensures grows { GrowsFor S.source_of S.SourceId.eq self.now.labels
            (C.contents cache.old) (C.contents cache.new) }
        ensures margin { let before = world S.source_of S.start_of S.end_of S.SourceId.eq
            (C.names cache.old) (C.contents cache.old) in
            let after = world S.source_of S.start_of S.end_of S.SourceId.eq
            (C.names cache.new) (C.contents cache.new) in
            IfOk result (λ columns. HasMargin C.fails before after self.now columns) }
    {
        columns_of(&self.data, cache)
    }
}

impl<'a, S: Span> ReportBuilder<'a, S> {
    /// The number of columns of a row before the source text, for the report so far, like
    /// `Report::margin_columns`.
    ///
    /// On `Err` memory ran out, in the cache or for sorting the labels. After each result the cache
    /// has all sources from before, and at most sources of labels more.
    pub fn margin_columns<C: Cache<S::SourceId>>(&self, cache: &mut C) -> Result<usize, AllocError>
        requires { C.can_fetch cache.old }
        ensures again { C.can_fetch cache.new }
        ensures naming { (q : S.SourceId) → C.names cache.new q ≡ C.names cache.old q }
        ensures grows { GrowsFor S.source_of S.SourceId.eq self.now.labels
            (C.contents cache.old) (C.contents cache.new) }
        ensures margin { let before = world S.source_of S.start_of S.end_of S.SourceId.eq
            (C.names cache.old) (C.contents cache.old) in
            let after = world S.source_of S.start_of S.end_of S.SourceId.eq
            (C.names cache.new) (C.contents cache.new) in
            IfOk result (λ columns. HasMargin C.fails before after self.now columns) }
    {
        columns_of(&self.report, cache)
    }
}

/// The number of columns before the source texts in a report's picture over the sources of a cache.
///
/// On `Err` memory ran out, in the cache or for sorting the labels.
fn columns_of<S: Span, C: Cache<S::SourceId>>(
    report: &ReportData<'_, S>,
    cache: &mut C,
) -> Result<usize, AllocError>
    requires { C.can_fetch cache.old }
    ensures again { C.can_fetch cache.new }
    ensures naming { (q : S.SourceId) → C.names cache.new q ≡ C.names cache.old q }
    ensures grows { GrowsFor S.source_of S.SourceId.eq report.now.labels
        (C.contents cache.old) (C.contents cache.new) }
    ensures margin { let before = world S.source_of S.start_of S.end_of S.SourceId.eq
        (C.names cache.old) (C.contents cache.old) in
        let after = world S.source_of S.start_of S.end_of S.SourceId.eq
        (C.names cache.new) (C.contents cache.new) in
        IfOk result (λ columns. HasMargin C.fails before after report.now columns) }
{
    let judged = accept(report, cache)?;
    margin_columns(report, cache, judged.infos)
}
