//! Snippets behind a gutter, as gcc and erlc write them.

ghost use Rattle.std.specs.Prelude.{◌≡◌, chars, option_map, IfOk, List, Option, Some, ℕ};
ghost use Rattle.ariadne_snippets.specs.Ends.{IsEnd};
ghost use Rattle.ariadne_snippets.specs.Snippets.{AreMarksIn, EndsBy, IsSameLine, IsTaken, QuotesNext};
ghost use Rattle.ariadne_snippets.specs.Snippets.{RowTells, TellsOf};

use crate::forms::added_line;
use crate::gutter::gutter_of;
use crate::marks::going_on;
use crate::quote::Quote;
use crate::quoted::Quoted;
use crate::rows::{is_bars, is_dashes, is_marks, pieces};
use crate::snippet::{Snippet, one_fix};
use crate::taken::{FixKind, Mark, Taken};
use ariadne_parse::Unit;
use std::alloc::{AllocError, Global};

#[tactic(auto, using(crate::proofs::Nexts::stays, crate::proofs::Nexts::quoted_further, crate::proofs::Telling::row_tells, crate::proofs::Telling::not_ended))]
impl Snippet {
    /// Takes a line of gcc: one behind its gutter, one to be put between others, or dots for a gap.
    pub(crate) fn take_behind<'a>(
        &mut self,
        bar: usize,
        line: &'a str,
        source: Option<&[char]>,
    ) -> Result<Taken<'a>, AllocError>
        ensures quotes { IfOk result (λ taken. QuotesNext line.now
            (option_map (λ source. source.now) source.entry) self.old.quoted self.new.quoted) }
        ensures tells { IfOk result (λ taken. TellsOf self.new.quoted line.now taken) }
        ensures ends { IfOk result (λ taken. EndsBy self.new taken) }
    {
        if let Some(text) = added_line(line) {
            let number = self.next_number();
            let fixes = one_fix(self.alloc, number, FixKind::PutLine, text.trim())?;
            return Ok(Taken::Fixes(fixes));
        }
        match gutter_of(line) {
            Some(gutter) if gutter.bar == bar => match gutter.number {
                Some(number) => self.take_quote(number, gutter.text, Unit::Display, source),
                None => self.take_row(gutter.text),
            },
            None if line.starts_with("...") => Ok(Taken::Nothing),
            _ => Ok(self.take_none()),
        }
    }

    /// The number of the line behind the one that was quoted last.
    fn next_number(&self) -> usize {
        match &self.quoted {
            Some(quoted) => quoted.number.saturating_add(1),
            None => self.line,
        }
    }

    /// Takes a line of erlc: one behind its gutter, or the empty one at the end.
    pub(crate) fn take_signed<'a>(
        &mut self,
        bar: usize,
        line: &'a str,
        source: Option<&[char]>,
    ) -> Result<Taken<'a>, AllocError>
        ensures quotes { IfOk result (λ taken. QuotesNext line.now
            (option_map (λ source. source.now) source.entry) self.old.quoted self.new.quoted) }
        ensures tells { IfOk result (λ taken. TellsOf self.new.quoted line.now taken) }
        ensures ends { IfOk result (λ taken. EndsBy self.new taken) }
    {
        if line.is_empty() {
            return Ok(self.take_end());
        }
        match gutter_of(line) {
            Some(gutter) if gutter.bar == bar => match gutter.number {
                Some(number) => self.take_signed_quote(number, gutter.text, source),
                None => self.take_row(gutter.text),
            },
            _ => Ok(self.take_none()),
        }
    }

    /// Takes a text as a quote of erlc, whose marks count the characters of the line and not of the quote.
    pub(crate) fn take_signed_quote<'a>(
        &mut self,
        number: usize,
        text: &str,
        source: Option<&[char]>,
    ) -> Result<Taken<'a>, AllocError>
        ensures whole { option_map (λ source. source.now) source.entry ≡ Some (chars text.now)
            → IfOk result (λ taken. IsTaken taken) }
        ensures quotes { IfOk result (λ taken. QuotesNext text.now
            (option_map (λ source. source.now) source.entry) self.old.quoted self.new.quoted) }
        ensures tells { (line : List ℕ) → IfOk result (λ taken. TellsOf self.new.quoted line taken) }
        ensures ends { IfOk result (λ taken. EndsBy self.new taken) }
    {
        let Some(line) = source else {
            return Ok(self.take_none());
        };
        let Some(shown) = Quote::new(self.alloc, text, 0, line)? else {
            return Ok(self.take_none());
        };
        let quote = shown.by_characters(self.alloc, line)?;
        self.quoted = Some(Quoted::new(self.alloc, number, quote, Unit::Char));
        Ok(Taken::Nothing)
    }

    /// Takes a row behind a gutter.
    fn take_row<'a>(&mut self, row: &'a str) -> Result<Taken<'a>, AllocError>
        ensures quotes { (source : Option (List ℕ)) → IfOk result (λ taken.
            QuotesNext row.now source self.old.quoted self.new.quoted) }
        ensures tells { (line : List ℕ) → IsEnd row.now line
            → IfOk result (λ taken. TellsOf self.new.quoted line taken) }
        ensures ends { IfOk result (λ taken. EndsBy self.new taken) }
    {
        let Some(quoted) = &mut self.quoted else {
            return Ok(self.take_none());
        };
        match gutter_row(self.alloc, quoted, row)? {
            Taken::NotOfSnippet => Ok(self.take_none()),
            Taken::Ranges(marks) => {
                let goes_on = self.reached == quoted.number.checked_sub(1);
                let marks = with_further(quoted, marks, goes_on);
                self.reached = reached_by(quoted, marks.as_slice());
                Ok(Taken::Ranges(marks))
            }
            taken => Ok(taken),
        }
    }
}

/// Marks, of which the first goes on with the range in the line before, where that reached its end.
fn with_further<'a>(quoted: &Quoted, marks: Vec<Mark<'a>>, is_reached: bool) -> Vec<Mark<'a>>
    ensures { (row : List ℕ) → AreMarksIn quoted.now row marks.entry.items
        → AreMarksIn quoted.now row result.items }
{
    let goes_on = match marks.first() {
        Some(first) => is_reached && quoted.is_begun_by(first),
        None => false,
    };
    going_on(marks, goes_on)
}

/// The line to whose end marks reach.
fn reached_by(quoted: &Quoted, marks: &[Mark<'_>]) -> Option<usize> {
    match marks.last() {
        Some(last) if quoted.is_ended_by(last) => Some(quoted.number),
        _ => None,
    }
}

/// What a row behind a gutter is: bars, what is to be removed, marks, labels, or what is to be put there.
fn gutter_row<'a>(alloc: Global, quoted: &mut Quoted, row: &'a str) -> Result<Taken<'a>, AllocError>
    ensures line { IsSameLine quoted.old quoted.new }
    ensures tells { IfOk result (λ taken. RowTells quoted.new row.now taken) }
{
    if is_bars(row) {
        quoted.take_bars(alloc, row)?;
        return Ok(Taken::Nothing);
    }
    if is_dashes(row) && quoted.is_marked() {
        return Ok(Taken::Fixes(quoted.removals_in(alloc, row)?));
    }
    if is_marks(row) {
        return match quoted.take_marks(alloc, row)? {
            Some(marks) => Ok(Taken::Ranges(marks)),
            None => Ok(Taken::Nothing),
        };
    }
    if let Some(labels) = quoted.take_labels(alloc, row)? {
        return Ok(Taken::Labels(labels));
    }
    if let Some(label) = quoted.event_label(row) {
        let mut labels = Vec::new(alloc);
        labels.push(label)?;
        return Ok(Taken::Labels(labels));
    }
    let pieces = pieces(alloc, quoted.unit, 0, row)?;
    Ok(Taken::Fixes(quoted.fixes_of(alloc, pieces.as_slice())?))
}
