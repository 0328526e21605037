//! A group that is drawn, over its source.

ghost use Rattle.std.specs.Prelude.{◌≡◌, ◌+◌, ◌-◌, ◌<◌, ◌≤◌, ◌^◌, suc, min, chars, length, IfSome};
ghost use Rattle.ariadne_base.specs.Listing.{listed_lines};
ghost use Rattle.ariadne_base.specs.Locations.{line_offset, line_text};
ghost use Rattle.ariadne_base.specs.Table.{line_extent};
ghost use Rattle.ariadne_picture.specs.Groups.{group_end_line, group_start_line};
ghost use Rattle.ariadne_picture.specs.Pieces.{location_text};
ghost use Rattle.ariadne_picture.specs.Ranks.{first_line, last_line};
ghost use Rattle.ariadne_layout.specs.Ends.{shown_bytes};
ghost use Rattle.ariadne_layout.specs.Snippets.{location_numbers};
ghost use Rattle.ariadne_layout.specs.Snippets.{AreOverLines, IsSnippet, sheet_in, snippet_of};

use crate::line_text::LineText;
use ariadne_base::{Line, Source, SourceText};
use ariadne_picture::label_info::LabelInfo;
use ariadne_picture::switches::Switches;
use ariadne_picture::texts::Texts;
use std::marker::Model;

/// A group of labels over its source, with the texts that are drawn with it.
#[derive(Drop)]
pub struct Snippet<'a, I: SourceText> {
    texts: &'a Texts<'a>,
    source: &'a Source<I>,
    /// What the source is called.
    name: &'a str,
    labels: &'a [LabelInfo],
    /// The offset that the header names, in characters, if it names any.
    header_offset: Option<usize>,
    is_first: bool,
    is_last: bool,
}

impl<'a, I: SourceText> Model for Snippet<'a, I> {
    ghost use Rattle.ariadne_layout.specs.Snippets.{IsSnippet, SnippetFields, snippet_of};

    ghost Value = { SnippetFields };

    ghost view = { λ a. snippet_of a.texts.now a.source.now a.name.now a.labels.now a.header_offset
        a.is_first a.is_last };

    ghost invariant = { λ a. IsSnippet (snippet_of a.texts.now a.source.now a.name.now a.labels.now
        a.header_offset a.is_first a.is_last) };
}

impl<'a, I: SourceText> Snippet<'a, I> {
    /// The snippet of these labels, of which there are some, over the source that they lie in.
    /// `header_offset` counts characters, and is at most their number.
    pub fn new(
        texts: &'a Texts<'a>,
        source: &'a Source<I>,
        name: &'a str,
        labels: &'a [LabelInfo],
        header_offset: Option<usize>,
        is_first: bool,
        is_last: bool,
    ) -> Snippet<'a, I>
        requires some { 0 < length labels.now }
        requires over { AreOverLines (listed_lines source.now) labels.now }
        requires location { IfSome header_offset (λ o. o ≤ length (chars source.now.text)) }
        ensures made { result ≡ snippet_of texts.now source.now name.now labels.now header_offset
            is_first is_last }
        ensures is { IsSnippet result }
    {
        // With these the numbers of its lines and of the places of its rows fit.
        let _text = source.text();
        let _display_offset = source.display_line_offset();
        Snippet {
            texts,
            source,
            name,
            labels,
            header_offset,
            is_first,
            is_last,
        }
    }

    /// The texts that are drawn with it.
    pub fn texts(&self) -> &'a Texts<'a>
        ensures { result.now ≡ self.now.texts }
    {
        self.texts
    }

    /// The switches of the picture.
    pub fn switches(&self) -> &'a Switches
        ensures { result.now ≡ (sheet_in self.now).switches }
    {
        self.texts.switches()
    }

    /// What its source is called.
    pub fn name(&self) -> &'a str
        ensures { result.now ≡ self.now.section.name }
    {
        self.name
    }

    /// Whether it is the first of the picture.
    pub fn is_first(&self) -> bool
        ensures { result ≡ self.now.section.is_first }
    {
        self.is_first
    }

    /// Whether it is the last of the picture.
    pub fn is_last(&self) -> bool
        ensures { result ≡ self.now.section.is_last }
    {
        self.is_last
    }

    /// The numbers of the line and the column that its header names, as they are printed, or `None`
    /// where it names none.
    pub fn location(&self) -> Option<(usize, usize)>
        ensures { let g = self.now.section in location_numbers result
            ≡ location_text g.sheet.lines g.display_offset g.header_offset }
    {
        let offset = self.header_offset?;
        let source = self.source;
        let (_, line, column) = source.get_offset_line(offset)?;
        Some((line + 1 + source.display_line_offset(), column + 1))
    }

    /// The first line that is shown, or stands between such, from 0.
    pub fn first_line(&self) -> usize
        ensures { result ≡ first_line (sheet_in self.now) }
    {
        group_start_line(self.labels).saturating_sub(self.switches().context_lines)
    }

    /// The last line that is shown, or stands between such, from 0.
    pub fn last_line(&self) -> usize
        ensures { result ≡ last_line (sheet_in self.now) }
    {
        let context = self.switches().context_lines;
        last_line(self.labels, context, number_of_lines(self.source))
    }

    /// A line of its source.
    fn extent(&self, line: usize) -> Line
        requires within { line < length (sheet_in self.now).lines }
        ensures { result ≡ line_extent (sheet_in self.now).lines line }
    {
        let source = self.source;
        source.line(line).unwrap()
    }

    /// How many characters of the source stand before a line.
    pub fn line_offset(&self, line: usize) -> usize
        requires within { line < length (sheet_in self.now).lines }
        ensures { result ≡ line_offset length (sheet_in self.now).lines line }
    {
        self.extent(line).offset()
    }

    /// What is added to the numbers of its lines, as they are printed.
    pub fn display_offset(&self) -> usize
        ensures { result ≡ self.now.section.display_offset }
    {
        let source = self.source;
        source.display_line_offset()
    }

    /// The characters of a line. `known` is how many of its bytes are shown, where that was found
    /// before.
    pub fn line_text(&self, line: usize, known: Option<usize>) -> LineText<'a>
        requires within { line < length (sheet_in self.now).lines }
        requires known { IfSome known
            (λ n. n ≡ shown_bytes (line_text (sheet_in self.now).lines line)) }
        ensures { result ≡ line_text (sheet_in self.now).lines line }
    {
        LineText::new(self.extent(line).len(), self.whole_line(line), known)
    }

    /// The text of a line, with its terminator.
    fn whole_line(&self, line: usize) -> &'a str
        requires within { line < length (sheet_in self.now).lines }
        ensures { chars result.now ≡ line_text (sheet_in self.now).lines line }
    {
        let extent = self.extent(line);
        let source = self.source;
        source.get_line_text(extent).unwrap()
    }
}

/// How many lines a source has.
pub fn number_of_lines<I: SourceText>(source: &Source<I>) -> usize
    ensures number { result ≡ length (listed_lines source.now) }
    ensures fits { source.now.display_offset + result < 2 ^ 64 }
{
    let _display_offset = source.display_line_offset();
    source.lines().len()
}

/// The last line of a group that is shown or stands between such: `context` lines behind that of its
/// last label, or as many as its source has. It has so many lines.
pub fn last_line(group: &[LabelInfo], context: usize, lines: usize) -> usize
    ensures { let last = group_end_line group.now in
        result ≡ last + min context (lines - suc last) }
{
    let last = group_end_line(group);
    let behind = lines.saturating_sub(last).saturating_sub(1);
    last + context.min(behind)
}

/// The line on which the first label of a group starts.
fn group_start_line(group: &[LabelInfo]) -> usize
    ensures { result ≡ group_start_line group.now }
{
    let mut first = group_end_line(group);
    for info in group {
        first = first.min(info.start_line);
    }
    first
}

/// The line on which the last label of a group ends.
fn group_end_line(group: &[LabelInfo]) -> usize
    ensures { result ≡ group_end_line group.now }
{
    let mut last = 0usize;
    for info in group {
        last = last.max(info.end_line);
    }
    last
}
