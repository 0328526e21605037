//! All rows of a snippet: those above its lines, the lines, and those below them.

ghost use Rattle.std.specs.Prelude.{◌≡◌, ◌++◌, [], ◌∷◌, OnOk, if◌then◌else◌};
ghost use Rattle.ariadne_picture.specs.Pieces.{section_rows};
ghost use Rattle.ariadne_picture.specs.Rows.{asides, group_header, help, note, spacer, tail};
ghost use Rattle.ariadne_layout.specs.Snippets.{sheet_in};
ghost use Rattle.ariadne_render.specs.Pages.{DrawsRows};
ghost use Rattle.ariadne_render.specs.DrawnLines.{IsReadyFor};
ghost use Rattle.ariadne_render.specs.LongLines.{IsRemembered};
ghost use Rattle.ariadne_render.specs.RowTexts.{rows_of};
ghost use Rattle.ariadne_render.specs.Writers.{DrawsRowsOf, IsBehind};

use crate::asides::{AsideKind, push_asides};
use crate::headers::{push_group_header, push_spacer, push_tail};
use crate::lines::{Lists, push_lines};
use crate::pen::Pen;
use crate::writer::Writer;
use ariadne_base::SourceText;
use ariadne_layout::snippet::Snippet;
use std::alloc::AllocError;

/// Writes all rows of a snippet. The lists are filled with its labels.
///
/// On `Err` there was no memory for them.
pub fn push_snippet<I: SourceText>(
    writer: &mut Writer<'_>,
    lists: &mut Lists<'_>,
    snippet: &Snippet<'_, I>,
) -> Result<(), AllocError>
    requires ready { IsReadyFor snippet.now writer.old lists.old }
    ensures at { OnOk result (IsBehind snippet.now writer.new) }
    ensures known { OnOk result (IsRemembered (sheet_in snippet.now).lines lists.new.long_line) }
    ensures drawn { let v = snippet.now in OnOk result (DrawsRows writer.old.pen writer.new.pen
        (section_rows v.texts writer.old.pen.page.number_width v.section)) }
{
    writer.gutter.begin(lists.sheet.gutter_labels())?;
    push_head(&mut writer.pen, snippet)?;
    push_lines(writer, lists, snippet)?;
    push_foot(writer, snippet)
}

/// Writes the rows above the lines of a snippet: its header, and a row below it if not compact.
fn push_head<I: SourceText>(pen: &mut Pen<'_>, snippet: &Snippet<'_, I>) -> Result<(), AllocError>
    requires switches { (sheet_in snippet.now).switches ≡ pen.old.page.switches }
    ensures { let page = pen.old.page in
        OnOk result (DrawsRows pen.old pen.new (rows_of page snippet.now
        (group_header ∷ (if page.switches.compact then [] else spacer ∷ [])))) }
{
    push_group_header(pen, snippet)?;
    if pen.page().switches().compact {
        return Ok(());
    }
    push_spacer(pen)
}

/// Writes the rows below the lines of a snippet: helps and notes in the last one, and a tail if not
/// compact.
fn push_foot<I: SourceText>(
    writer: &mut Writer<'_>,
    snippet: &Snippet<'_, I>,
) -> Result<(), AllocError>
    requires at { IsBehind snippet.now writer.old }
    ensures at { OnOk result (IsBehind snippet.now writer.new) }
    ensures drawn { let t = snippet.now.texts in
        let compact = writer.old.pen.page.switches.compact in
        let told = asides compact help t.helps ++ asides compact note t.notes in
        OnOk result (DrawsRowsOf snippet.now
        ((if snippet.now.section.is_last then told else []) ++ (if compact then [] else tail ∷ []))
        writer.old writer.new) }
{
    let is_last = snippet.is_last();
    if is_last {
        push_asides(writer, snippet, AsideKind::Help)?;
        push_asides(writer, snippet, AsideKind::Note)?;
    }
    if writer.pen.page().switches().compact {
        return Ok(());
    }
    push_tail(&mut writer.pen, is_last)
}
