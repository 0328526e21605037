//! A line of a snippet: what is drawn at it.

ghost use Rattle.std.specs.Prelude.{◌≡◌, ◌<◌, length};
ghost use Rattle.ariadne_picture.specs.Columns.{layout_of};
ghost use Rattle.ariadne_picture.specs.Pieces.{message_at};
ghost use Rattle.ariadne_layout.specs.Snippets.{IsSnippet, layout_at, sheet_at, sheet_in};

use crate::layout::LineLayout;
use crate::snippet::Snippet;
use ariadne_base::SourceText;
use ariadne_picture::label_info::LineLabel;
use std::marker::Model;

/// A line of a snippet that is shown, with its layout.
#[derive(Drop)]
pub struct SnippetLine<'a, I: SourceText> {
    snippet: &'a Snippet<'a, I>,
    /// The line, from 0.
    line: usize,
    layout: LineLayout<'a>,
}

impl<'a, I: SourceText> Model for SnippetLine<'a, I> {
    ghost use Rattle.std.specs.Prelude.{◌≡◌, ◌<◌, length};
    ghost use Rattle.ariadne_picture.specs.Columns.{layout_of};
    ghost use Rattle.ariadne_layout.specs.Snippets.{IsSnippet, LineFields, sheet_in};

    ghost Value = { LineFields };

    ghost view = { λ a. record { snippet = a.snippet.now; line = a.line } };

    ghost invariant = { λ a. IsSnippet a.snippet.now
        × (a.line < length (sheet_in a.snippet.now).lines)
        × (a.layout ≡ layout_of (sheet_in a.snippet.now) a.line) };
}

impl<'a, I: SourceText> SnippetLine<'a, I> {
    /// A line of a snippet, whose layout this is.
    pub fn new(
        snippet: &'a Snippet<'a, I>,
        line: usize,
        layout: LineLayout<'a>,
    ) -> SnippetLine<'a, I>
        requires is { IsSnippet snippet.now }
        requires within { line < length (sheet_in snippet.now).lines }
        requires layout { layout ≡ layout_of (sheet_in snippet.now) line }
        ensures { result ≡ record { snippet = snippet.now; line = line } }
    {
        SnippetLine {
            snippet,
            line,
            layout,
        }
    }

    /// The line, from 0.
    pub fn line(&self) -> usize
        ensures { result ≡ self.now.line }
    {
        self.line
    }

    /// What is drawn at it.
    pub fn layout(&self) -> &LineLayout<'a>
        ensures layout { result.now ≡ layout_at self.now }
        ensures is { IsSnippet self.now.snippet }
        ensures within { self.now.line < length (sheet_at self.now).lines }
    {
        &self.layout
    }

    /// What is added to its number, as it is printed.
    pub fn display_offset(&self) -> usize
        ensures { result ≡ self.now.snippet.section.display_offset }
    {
        self.snippet.display_offset()
    }

    /// Whether labels over several lines have arrow heads.
    pub fn has_arrow_heads(&self) -> bool
        ensures { result ≡ self.now.snippet.texts.multiline_arrows }
    {
        self.snippet.texts().multiline_arrows
    }

    /// The message of one of its labels.
    pub fn message_of(&self, label: &LineLabel) -> &'a str
        ensures { result.now ≡ message_at self.now.snippet.texts label.now.info.position }
    {
        let snippet = self.snippet;
        snippet.texts().message_of(label.info.position)
    }
}
