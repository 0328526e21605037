//! Texts beside the message of a block, and the spans that rows name for them.

ghost use Rattle.std.specs.Prelude.{◌≡◌, map, option_map, reverse, string_bytes, false, None, OnOk, Some};
ghost use Rattle.ariadne_parse.specs.Arrows.{arrow_in};
ghost use Rattle.ariadne_parse.specs.ArrowsParsed.{span_of_arrow};
ghost use Rattle.ariadne_parse.specs.Spans.{seen};
ghost use Rattle.ariadne_blocks.specs.Blocks as blocks;
ghost use Rattle.ariadne_blocks.specs.Blocks.{view_of, IsNamed, IsQuotedBy};
ghost use Rattle.ariadne_blocks.specs.declared.block.Aside.TheVariants as aside;

use crate::block::{Aside, Block};
use ariadne_parse::{Span, arrow_of, named_span};
use std::alloc::{AllocError, Global};

impl Block {
    /// Takes in a note, or a help: what rows change is said from that on, and it says why.
    pub(crate) fn add_text(
        &mut self,
        alloc: Global,
        aside: Aside,
        text: &str,
    ) -> Result<(), AllocError>
        ensures view { OnOk result (view_of self.new ≡ blocks.with_text aside text.now (view_of self.old)) }
        ensures rows { OnOk result (self.new.rows ≡ self.old.rows) }
    {
        self.aside = aside;
        let text = String::from_str(alloc, text)?;
        match aside {
            Aside::Note => self.parsed.notes.push(text)?,
            Aside::Help | Aside::Change => {
                self.since = self.parsed.helps.len();
                self.why = text.clone()?;
                self.parsed.helps.push(text)?;
            }
        }
        Ok(())
    }

    /// Takes in a line that goes on with the note or the help.
    pub(crate) fn add_more(&mut self, text: &str) -> Result<(), AllocError>
        ensures view { OnOk result (view_of self.new ≡ blocks.with_more_text text.now (view_of self.old)) }
        ensures rows { OnOk result (self.new.rows ≡ self.old.rows) }
    {
        match self.aside {
            Aside::Note => go_on(&mut self.parsed.notes, "\n", text),
            Aside::Help | Aside::Change => go_on(&mut self.parsed.helps, "\n", text),
        }
    }

    /// Holds the span that a row names behind an arrow.
    pub(crate) fn name(&mut self, alloc: Global, text: &str) -> Result<(), AllocError>
        ensures view { OnOk result (view_of self.new ≡ record (view_of self.old) {
          named = option_map span_of_arrow (arrow_in text.now);
        }) }
        ensures rows { OnOk result (self.new.rows ≡ self.old.rows) }
    {
        self.named = match arrow_of(text) {
            Some(arrow) => Some(arrow.span(alloc)?),
            None => None,
        };
        Ok(())
    }

    /// The span that a row named, if one did. It is then no longer held.
    pub fn take_named(&mut self) -> Option<Span>
        ensures { IsNamed self.old self.new result }
    {
        self.named.take()
    }

    /// Has the next rows quote the file of a span, and gives the span to the text that was read last, if
    /// it is that of the text. On `Err` there was no memory.
    pub fn quote(&mut self, span: Span) -> Result<(), AllocError>
        ensures { OnOk result (IsQuotedBy span self.old self.new) }
    {
        self.rows.path = span.file.clone()?;
        if span.is_primary {
            self.span_text(span)?;
        }
        Ok(())
    }

    /// Tells a span that can't be shown: the text that was read last goes on with it, in a row of its own, if it
    /// is that of the text. Else it is a note. On `Err` there was no memory.
    pub fn tell_span(&mut self, alloc: Global, span: &Span) -> Result<(), AllocError>
        ensures view { OnOk result (view_of self.new
            ≡ blocks.with_span_parsed (seen span.now) (view_of self.old)) }
        ensures rows { OnOk result (self.new.rows ≡ self.old.rows) }
    {
        let row = named_span(alloc, span.file.as_str(), span.start, "")?;
        if span.is_primary {
            self.add_more(row.as_str())
        } else {
            self.add_text(alloc, Aside::Note, row.as_str())
        }
    }

    /// Has the text that was read last be said of a span, and the next marks be of that.
    fn span_text(&mut self, mut span: Span) -> Result<(), AllocError>
        ensures { OnOk result (view_of self.new ≡ blocks.with_said (seen span) (view_of self.old)
            (reverse (blocks.texts_of (view_of self.old)))) }
    {
        let last = match self.aside {
            Aside::Note => self.parsed.notes.pop(),
            Aside::Help | Aside::Change => self.parsed.helps.pop(),
        };
        if let Some(text) = last {
            span.text = text;
            span.is_primary = false;
            self.aside = Aside::Note;
            self.rows.at = self.parsed.spans.len();
            self.parsed.spans.push(span)?;
        }
        Ok(())
    }
}

/// Has the last of texts go on with another, behind what stands between both.
pub(crate) fn go_on(texts: &mut Vec<String>, between: &str, more: &str) -> Result<(), AllocError>
    ensures { OnOk result (map string_bytes texts.new.items
        ≡ blocks.gone_on between.now more.now (map string_bytes texts.old.items)) }
{
    if let Some(mut last) = texts.pop() {
        last.push_str(between)?;
        last.push_str(more)?;
        texts.push(last)?;
    }
    Ok(())
}
