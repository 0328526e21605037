//! The picture of a report, as text: its header, and the rows of its groups.

ghost use Rattle.std.specs.Prelude.{◌≡◌, IfOk, OnOk, map, string_bytes};
ghost use Rattle.std.specs.Prelude.{◌<◌, ℕ, List, Option, Some, length, slice_get};
ghost use Rattle.ariadne_base.specs.Listing.{Listing, listed_lines};
ghost use Rattle.ariadne_picture.specs.Canvas.{canvas, palette_of, texts_of, group_source};
ghost use Rattle.ariadne_picture.specs.Print.{printed};
ghost use Rattle.ariadne_picture.specs.declared.label_info.LabelInfo.{LabelInfo};
ghost use Rattle.ariadne_render.specs.Pages.{DrawsRows};
ghost use Rattle.ariadne_render.specs.LongLines.{IsRemembered};
ghost use Rattle.ariadne_report.specs.CacheReads.{AreDrawn, world};
ghost use Rattle.ariadne_report.specs.DrawnGroups.{AreGroups};
ghost use Rattle.ariadne.specs.WholePages.{IsForReport, groups_rows, groups_text, page_of};
ghost use Rattle.ariadne.specs.WholePages.{picture_rows, shown_palette};

use ariadne_base::{Cache, Span};
use ariadne_color::Color;
use ariadne_picture::label_info::LabelInfo;
use ariadne_picture::texts::Texts;
use ariadne_render::frames::push_snippet;
use ariadne_render::headers::push_header;
use ariadne_render::lines::Lists;
use ariadne_render::long_line::LongLine;
use ariadne_render::page::Page;
use ariadne_render::palette::Palette;
use ariadne_render::writer::Writer;
use ariadne_report::groups::{are_over_one_source, cut_groups, in_order, number_width};
use ariadne_report::report_data::ReportData;
use ariadne_report::snippets::{messages, own_offset, resolve, texts};
use std::alloc::{AllocError, Global};

/// The room that a picture's text begins with, in bytes: most pictures of a few lines fit.
const FIRST_ROOM: usize = 2048;

/// Draws the picture of accepted labels, whose sources the cache holds.
///
/// On `Err` there was no memory for it.
pub(crate) fn draw<S: Span, C: Cache<S::SourceId>>(
    report: &ReportData<'_, S>,
    cache: &C,
    infos: Vec<LabelInfo>,
) -> Result<String, AllocError>
    requires drawn { let w = world S.source_of S.start_of S.end_of S.SourceId.eq
        (C.names cache.now) (C.contents cache.now) in AreDrawn w report.now infos.items }
    ensures { let w = world S.source_of S.start_of S.end_of S.SourceId.eq
        (C.names cache.now) (C.contents cache.now) in
        IfOk result (λ text. string_bytes text ≡ printed (canvas w report.now infos.items)) }
{
    let sorted = in_order(report.alloc, infos)?;
    let cut = cut_groups(report, &sorted)?;
    draw_groups(report, cache, cut.as_slice())
}

/// Draws the picture of a report whose groups these are.
fn draw_groups<S: Span, C: Cache<S::SourceId>>(
    report: &ReportData<'_, S>,
    cache: &C,
    groups: &[&[LabelInfo]],
) -> Result<String, AllocError>
    requires groups { let w = world S.source_of S.start_of S.end_of S.SourceId.eq
        (C.names cache.now) (C.contents cache.now) in
        AreGroups w report.now (map (λ g. g.now) groups.now) }
    ensures { let w = world S.source_of S.start_of S.end_of S.SourceId.eq
        (C.names cache.now) (C.contents cache.now) in
        IfOk result (λ text. string_bytes text
        ≡ groups_text w report.now (map (λ g. g.now) groups.now)) }
{
    let page = page(report, cache, groups)?;
    let messages = messages(report)?;
    draw_on(&page, &texts(&*report, &messages), report, cache, groups)
}

/// Draws it on its page, with the texts of the report.
fn draw_on<'t, S: Span, C: Cache<S::SourceId>>(
    page: &Page,
    texts: &'t Texts<'t>,
    report: &'t ReportData<'_, S>,
    cache: &'t C,
    groups: &[&[LabelInfo]],
) -> Result<String, AllocError>
    requires page { let w = world S.source_of S.start_of S.end_of S.SourceId.eq
        (C.names cache.now) (C.contents cache.now) in
        page.now ≡ page_of w report.now (map (λ g. g.now) groups.now) }
    requires texts { texts.now ≡ texts_of report.now }
    requires groups { let w = world S.source_of S.start_of S.end_of S.SourceId.eq
        (C.names cache.now) (C.contents cache.now) in
        AreGroups w report.now (map (λ g. g.now) groups.now) }
    ensures { let w = world S.source_of S.start_of S.end_of S.SourceId.eq
        (C.names cache.now) (C.contents cache.now) in
        IfOk result (λ text. string_bytes text
        ≡ groups_text w report.now (map (λ g. g.now) groups.now)) }
{
    let mut writer = Writer::new(report.alloc, page);
    let mut lists = Lists::new(report.alloc);
    push_picture(&mut writer, &mut lists, texts, report, cache, groups).and(Ok(writer.into_text()))
}

/// Writes the rows of a report's picture with these texts: its header, and below it the groups.
fn push_picture<'a, 't, S: Span, C: Cache<S::SourceId>>(
    writer: &mut Writer<'_>,
    lists: &mut Lists<'a>,
    texts: &'t Texts<'t>,
    report: &'t ReportData<'_, S>,
    cache: &'t C,
    groups: &[&'a [LabelInfo]],
) -> Result<(), AllocError>
    requires page { let w = world S.source_of S.start_of S.end_of S.SourceId.eq
        (C.names cache.now) (C.contents cache.now) in
        writer.old.pen.page ≡ page_of w report.now (map (λ g. g.now) groups.now) }
    requires one_page { writer.old.gutter.page ≡ writer.old.pen.page }
    requires texts { texts.now ≡ texts_of report.now }
    requires groups { let w = world S.source_of S.start_of S.end_of S.SourceId.eq
        (C.names cache.now) (C.contents cache.now) in
        AreGroups w report.now (map (λ g. g.now) groups.now) }
    ensures { let w = world S.source_of S.start_of S.end_of S.SourceId.eq
        (C.names cache.now) (C.contents cache.now) in
        OnOk result (DrawsRows writer.old.pen writer.new.pen
        (picture_rows w report.now (map (λ g. g.now) groups.now))) }
{
    writer.pen.reserve(FIRST_ROOM)?;
    push_header(&mut writer.pen, texts)?;
    push_groups(writer, lists, texts, report, cache, groups)
}

/// What all rows of a report's picture share, whose groups these are.
fn page<S: Span, C: Cache<S::SourceId>>(
    report: &ReportData<'_, S>,
    cache: &C,
    groups: &[&[LabelInfo]],
) -> Result<Page, AllocError>
    requires groups { let w = world S.source_of S.start_of S.end_of S.SourceId.eq
        (C.names cache.now) (C.contents cache.now) in
        AreGroups w report.now (map (λ g. g.now) groups.now) }
    ensures { let w = world S.source_of S.start_of S.end_of S.SourceId.eq
        (C.names cache.now) (C.contents cache.now) in
        IfOk result (λ page. page ≡ page_of w report.now (map (λ g. g.now) groups.now)) }
{
    let width = number_width(report, cache, groups);
    let switches = report.config().switches();
    Page::new(report.alloc, palette(report)?, switches, width)
}

/// The colours that the pieces of a report's picture may have.
fn palette<S: Span>(report: &ReportData<'_, S>) -> Result<Palette, AllocError>
    ensures { IfOk result (λ palette. palette ≡ shown_palette (palette_of report.now)) }
{
    Ok(Palette {
        is_on: report.config.is_colored(),
        kind: report.kind.color(),
        labels: shown_colors(report)?,
    })
}

/// The colours of a report's labels, by position, if there are colours.
fn shown_colors<S: Span>(report: &ReportData<'_, S>) -> Result<Vec<Option<Color>>, AllocError>
    ensures { IfOk result (λ colors. colors.items ≡ (shown_palette (palette_of report.now)).labels) }
{
    if !report.config.is_colored() {
        return Ok(Vec::new(report.alloc));
    }
    let mut labels = Vec::with_capacity(report.alloc, report.labels.len())?;
    for label in &report.labels {
        labels.push(label.color())?;
    }
    Ok(labels)
}

/// Writes the groups of a picture with these texts of the report. The lists are filled anew.
fn push_groups<'a, 't, S: Span, C: Cache<S::SourceId>>(
    writer: &mut Writer<'_>,
    lists: &mut Lists<'a>,
    texts: &'t Texts<'t>,
    report: &'t ReportData<'_, S>,
    cache: &'t C,
    groups: &[&'a [LabelInfo]],
) -> Result<(), AllocError>
    requires writer { IsForReport report.now writer.old }
    requires texts { texts.now ≡ texts_of report.now }
    requires groups { let w = world S.source_of S.start_of S.end_of S.SourceId.eq
        (C.names cache.now) (C.contents cache.now) in
        AreGroups w report.now (map (λ g. g.now) groups.now) }
    ensures { let w = world S.source_of S.start_of S.end_of S.SourceId.eq
        (C.names cache.now) (C.contents cache.now) in
        let width = writer.old.pen.page.number_width in
        OnOk result (DrawsRows writer.old.pen writer.new.pen
        (groups_rows w report.now width (map (λ g. g.now) groups.now))) }
{
    let own = own_offset(report, cache);
    lists.long_line = None;
    for index in 0..groups.len() {
        let group = groups[index];
        let before = groups[index.saturating_sub(1)];
        forget_of_other_source(&mut lists.long_line, report, &before[0], &group[0]);
        lists.sheet.fill(group)?;
        let snippet = resolve(
            &*texts,
            &*report,
            &*cache,
            own,
            &*group,
            index,
            groups.len(),
        );
        push_snippet(writer, lists, &snippet)?;
    }
    Ok(())
}

/// Forgets the long line if the group that begins with the label `first` is over another source than the
/// one before it, which begins with `before`.
fn forget_of_other_source<S: Span>(
    long: &mut Option<LongLine>,
    report: &ReportData<'_, S>,
    before: &LabelInfo,
    first: &LabelInfo,
)
    requires before { before.now.position < length report.now.labels }
    requires first { first.now.position < length report.now.labels }
    ensures { (names : S.SourceId → Option (List ℕ))
        (contents : List (S.SourceId × Listing)) →
        let w = world S.source_of S.start_of S.end_of S.SourceId.eq names contents in
        let lines = λ (group : List LabelInfo). listed_lines (group_source w report.now group) in
        (g h : List LabelInfo) → slice_get g 0 ≡ Some before.now →
        slice_get h 0 ≡ Some first.now → IsRemembered (lines g) long.old →
        IsRemembered (lines h) long.new }
{
    if long.is_some() && !are_over_one_source(report, before, first) {
        *long = None;
    }
}
