//! Helps and notes, below the lines of the last group.

ghost use Rattle.std.specs.Prelude.{◌≡◌, ◌+◌, ◌<◌, ◌==◌, ◌++◌, ◌∷◌, [], if◌then◌else◌, OnOk};
ghost use Rattle.std.specs.Prelude.{codes, decimal, length, map, slice_index_or, string_bytes};
ghost use Rattle.std.specs.Str.Lines.{lines};
ghost use Rattle.ariadne_base.specs.Locations.{upto};
ghost use Rattle.ariadne_picture.specs.Pieces.{aside_line, aside_name, aside_texts};
ghost use Rattle.ariadne_picture.specs.Pieces.{painted_text, plain_text, spaces};
ghost use Rattle.ariadne_picture.specs.Rows.{asides, blank, piece};
ghost use Rattle.ariadne_render.specs.Pages.{Adds, Draws};
ghost use Rattle.ariadne_render.specs.AsideKinds.{aside_of};
ghost use Rattle.ariadne_render.specs.RowTexts.{aside_number, prefix_text, told_pieces};
ghost use Rattle.ariadne_render.specs.Writers.{IsBehind, WritesRowOf, WritesRowsOf};

use crate::pen::Pen;
use crate::writer::Writer;
use ariadne_base::SourceText;
use ariadne_layout::digits::decimal_len;
use ariadne_layout::snippet::Snippet;
use ariadne_picture::cell::Paint;
use ariadne_picture::texts::Texts;
use std::alloc::AllocError;

/// What stands below the lines of the last group.
#[derive(Clone, Copy)]
pub enum AsideKind {
    Help,
    Note,
}

impl AsideKind {
    /// The word in front of each text.
    #[tactic(auto, unfolding(ariadne_picture::specs::Pieces::aside_name))]
    fn word(self) -> &'static str
        ensures { result.now ≡ aside_name (aside_of self) }
    {
        match self {
            AsideKind::Help => "Help",
            AsideKind::Note => "Note",
        }
    }

    /// Which texts of a report these are.
    #[tactic(auto, unfolding(ariadne_picture::specs::Pieces::aside_texts))]
    fn texts_in<'a>(self, texts: &'a Texts<'a>) -> &'a [String]
        ensures { map string_bytes result.now ≡ aside_texts texts.now (aside_of self) }
    {
        match self {
            AsideKind::Help => texts.helps(),
            AsideKind::Note => texts.notes(),
        }
    }
}

/// Writes the rows of all helps of a snippet's report, or of all its notes.
///
/// ```text
///       |
///       | Help 1: compare them by their weight
///       |
///       | Help 2: or by their
///       |         colour
/// ```
pub fn push_asides<I: SourceText>(
    writer: &mut Writer<'_>,
    snippet: &Snippet<'_, I>,
    kind: AsideKind,
) -> Result<(), AllocError>
    requires at { IsBehind snippet.now writer.old }
    ensures { let v = snippet.now in let a = aside_of kind in
        let compact = writer.old.pen.page.switches.compact in
        let rows = asides compact a (aside_texts v.texts a) in
        OnOk result (WritesRowsOf v rows writer.old writer.new) }
{
    let texts = kind.texts_in(snippet.texts());
    for (index, text) in texts.iter().enumerate() {
        push_above(writer, snippet, kind, index)?;
        push_lines(writer, snippet, kind, index, text.as_str())?;
    }
    Ok(())
}

/// Writes the row above text number `number`. A compact picture has none.
fn push_above<I: SourceText>(
    writer: &mut Writer<'_>,
    snippet: &Snippet<'_, I>,
    kind: AsideKind,
    number: usize,
) -> Result<(), AllocError>
    requires at { IsBehind snippet.now writer.old }
    ensures { let compact = writer.old.pen.page.switches.compact in
        let rows = (if compact then [] else blank (aside_of kind) number ∷ []) in
        OnOk result (WritesRowsOf snippet.now rows writer.old writer.new) }
{
    if writer.pen.page().switches().compact {
        return Ok(());
    }
    writer.pen.push_margin()?;
    writer.gutter.push_blank(&mut writer.pen)?;
    writer.pen.end_row()
}

/// Writes the lines of text number `number`: the first stands behind its word, the others below the
/// first.
fn push_lines<I: SourceText>(
    writer: &mut Writer<'_>,
    snippet: &Snippet<'_, I>,
    kind: AsideKind,
    number: usize,
    text: &str,
) -> Result<(), AllocError>
    requires at { IsBehind snippet.now writer.old }
    requires within { number < length (aside_texts snippet.now.texts (aside_of kind)) }
    requires text { text.now
        ≡ slice_index_or (aside_texts snippet.now.texts (aside_of kind)) number [] }
    ensures { let rows = map (piece (aside_of kind) number) (upto (length (lines text.now))) in
        OnOk result (WritesRowsOf snippet.now rows writer.old writer.new) }
{
    for (index, line) in text.lines().enumerate() {
        push_line(writer, snippet, kind, number, index, line)?;
    }
    Ok(())
}

/// Writes the row of line number `index` of text number `number`.
fn push_line<I: SourceText>(
    writer: &mut Writer<'_>,
    snippet: &Snippet<'_, I>,
    kind: AsideKind,
    number: usize,
    index: usize,
    line: &str,
) -> Result<(), AllocError>
    requires at { IsBehind snippet.now writer.old }
    requires within { number < length (aside_texts snippet.now.texts (aside_of kind)) }
    requires line { line.now ≡ aside_line snippet.now.texts (aside_of kind) number index }
    ensures { let row = piece (aside_of kind) number index in
        OnOk result (WritesRowOf snippet.now row writer.old writer.new) }
{
    let told = number_of(number, kind.texts_in(snippet.texts()).len());
    writer.pen.push_margin()?;
    writer.gutter.push_blank(&mut writer.pen)?;
    push_line_text(&mut writer.pen, kind.word(), told, index, line)?;
    writer.pen.end_row()
}

/// The number that stands behind the word of a text, where there are several.
#[tactic(auto, unfolding(crate::specs::RowTexts::aside_number))]
fn number_of(index: usize, count: usize) -> Option<usize>
    requires { index < count }
    ensures { aside_number result
        ≡ (if count == 1 then [] else codes " " ++ decimal (index + 1)) }
{
    if count == 1 { None } else { Some(index + 1) }
}

/// Writes line number `index` of a text: the first behind its word, another below the first.
fn push_line_text(
    pen: &mut Pen<'_>,
    word: &str,
    number: Option<usize>,
    index: usize,
    line: &str,
) -> Result<(), AllocError>
    ensures { OnOk result (Draws pen.old pen.new (told_pieces word.now number index line.now)) }
{
    if index == 0 {
        push_first(pen, word, number, line)
    } else {
        push_further(pen, word, number, line)
    }
}

/// Writes the first line of a text behind its word.
fn push_first(
    pen: &mut Pen<'_>,
    word: &str,
    number: Option<usize>,
    line: &str,
) -> Result<(), AllocError>
    ensures { let text = prefix_text word.now number in
        OnOk result (Draws pen.old pen.new
        (painted_text Paint.Note text ∷ plain_text (codes ": " ++ line.now) ∷ [])) }
{
    push_prefix(pen, word, number)?;
    pen.push_text(": ")?;
    pen.push_text(line)
}

/// Writes another line of a text below the first.
fn push_further(
    pen: &mut Pen<'_>,
    word: &str,
    number: Option<usize>,
    line: &str,
) -> Result<(), AllocError>
    ensures { let len = length (prefix_text word.now number) in
        OnOk result (Draws pen.old pen.new
        (plain_text (spaces (len + 2) ++ line.now) ∷ [])) }
{
    push_hanging(pen, word, number)?;
    pen.push_text(line)
}

/// Writes the word in front of a text, and its number where there are several.
fn push_prefix(pen: &mut Pen<'_>, word: &str, number: Option<usize>) -> Result<(), AllocError>
    ensures { let text = prefix_text word.now number in
        OnOk result (Draws pen.old pen.new (painted_text Paint.Note text ∷ [])) }
{
    pen.push_opening(Paint::Note)?;
    pen.push_text(word)?;
    push_aside_number(pen, number)?;
    pen.push_closing(Paint::Note)
}

/// Writes the number of a text, where there are several.
#[tactic(auto, unfolding(crate::specs::RowTexts::aside_number))]
fn push_aside_number(pen: &mut Pen<'_>, number: Option<usize>) -> Result<(), AllocError>
    ensures { OnOk result (Adds pen.old pen.new (aside_number number)) }
{
    match number {
        Some(number) => {
            pen.push_char(' ')?;
            pen.push_number(number)
        }
        None => Ok(()),
    }
}

/// Writes blanks in place of the word, its number and what stands behind them.
fn push_hanging(pen: &mut Pen<'_>, word: &str, number: Option<usize>) -> Result<(), AllocError>
    ensures { let len = length word.now + length (aside_number number) in
        OnOk result (Adds pen.old pen.new (spaces (len + 2))) }
{
    pen.push_spaces(word.len())?;
    push_hanging_number(pen, number)?;
    pen.push_text("  ")
}

/// Writes blanks in place of a text's number.
fn push_hanging_number(pen: &mut Pen<'_>, number: Option<usize>) -> Result<(), AllocError>
    ensures { OnOk result (Adds pen.old pen.new (spaces (length (aside_number number)))) }
{
    match number {
        Some(number) => {
            pen.push_char(' ')?;
            pen.push_spaces(decimal_len(number))
        }
        None => Ok(()),
    }
}
