//! Snippets of rustc, behind a gutter that begins in a row of its own. Notes and helps stand between them.

ghost use Rattle.std.specs.Prelude.{◌≡◌, chars, map, option_map, IfOk, IfSome, List, None, Option, Some, ℕ};
ghost use Rattle.ariadne_snippets.specs.Ends.{IsEnd};
ghost use Rattle.ariadne_snippets.specs.Gutters.{gutter_in, gutter_told, GutterIn};
ghost use Rattle.ariadne_snippets.specs.Snippets.{change_told, put_into};
ghost use Rattle.ariadne_snippets.specs.Snippets.{AreMarksIn, EndsBy, IsSameLine, QuotesNext};
ghost use Rattle.ariadne_snippets.specs.RowPieces.{GoesOn};
ghost use Rattle.ariadne_snippets.specs.Snippets.{IsQuoteOf, RowTells, TellsHow, TellsLine, TellsOf};
ghost use Rattle.ariadne_snippets.specs.Words.{changed, inserted, words_in, words_told};
ghost use Rattle.ariadne_snippets.specs.declared.quoted.Quoted.{Quoted};
ghost use Rattle.ariadne_snippets.specs.declared.snippet.Snippet.{Snippet};

use crate::forms::{Words, words_of};
use crate::gutter::{Gutter, gutter_of};
use crate::marks::begun_at;
use crate::pieces::{behind_indent, past_blanks};
use crate::put::{Insertion, Kept, insertions_in, is_new_line, kept_of};
use crate::quote::{LAST_COLUMN, Quote};
use crate::quoted::Quoted;
use crate::rows::{has_mark, is_bars, is_blank, is_strokes, marks_and_text};
use crate::snippet::{Advice, Snippet, Stage, one_fix};
use crate::strokes::{
    Stroke, behind_stroke, is_corner, marks_joined, opens, stroke_of, text_column,
};
use crate::taken::{Fix, FixKind, Mark, Point, Taken};
use ariadne_parse::Unit;
use std::alloc::{AllocError, Global};

/// How many ranges over lines are drawn beside a line.
const STROKES: u8 = 4;

/// How long `= note: ` and `= help: ` are.
const NOTE_HEAD: usize = 8;

#[tactic(auto, using(crate::proofs::Nexts::stays, crate::proofs::Nexts::quoted_further, crate::proofs::Telling::row_tells, crate::proofs::Telling::not_ended))]
impl Snippet {
    /// Takes a line of rustc.
    pub(crate) fn take_framed<'a>(
        &mut self,
        bar: usize,
        line: &'a str,
        source: Option<&[char]>,
    ) -> Result<Taken<'a>, AllocError>
        ensures quotes { IfOk result (λ taken. QuotesNext line.now
            (option_map (λ source. source.now) source.entry) self.old.quoted self.new.quoted) }
        ensures tells { IfOk result (λ taken. TellsOf self.new.quoted line.now taken) }
        ensures ends { IfOk result (λ taken. EndsBy self.new taken) }
    {
        if line.is_empty() {
            return Ok(self.take_end());
        }
        match gutter_of(line) {
            Some(gutter) if gutter.bar == bar => self.take_framed_gutter(&gutter, source),
            _ => self.take_words(bar, line, source),
        }
    }

    /// Takes a line of rustc behind its gutter.
    fn take_framed_gutter<'a>(
        &mut self,
        gutter: &Gutter<'a>,
        source: Option<&[char]>,
    ) -> Result<Taken<'a>, AllocError>
        ensures quotes { IfOk result (λ taken. QuotesNext gutter.now.text.now
            (option_map (λ source. source.now) source.entry) self.old.quoted self.new.quoted) }
        ensures tells { (line : List ℕ) → gutter_in line ≡ Some (gutter_told gutter.now)
            → IsEnd gutter.now.text.now line
            → IfOk result (λ taken. TellsOf self.new.quoted line taken) }
        ensures ends { IfOk result (λ taken. EndsBy self.new taken) }
    {
        match gutter.number {
            Some(number) if self.stage == Stage::Advised => {
                self.take_advised(number, gutter.text, source)
            }
            Some(number) => self.take_drawn_quote(number, gutter.text, source),
            None => self.take_framed_row(gutter.text),
        }
    }

    /// Takes a line behind a help: what is put into it, or how it is to be. It says nothing where it is as
    /// it is in the file, or stands beside lines of which something was said.
    fn take_advised<'a>(
        &self,
        number: usize,
        text: &'a str,
        source: Option<&[char]>,
    ) -> Result<Taken<'a>, AllocError>
        ensures tells { (line : List ℕ) (gutter : GutterIn) → gutter_in line ≡ Some gutter
            → gutter.number ≡ Some number → gutter.text ≡ text.now
            → (quoted : Option Quoted) → IfOk result (λ taken. TellsOf quoted line taken) }
        ensures ends { (snippet : Snippet) → IfOk result (λ taken. EndsBy snippet taken) }
    {
        if self.advice != Advice::Puts(0) {
            return Ok(Taken::Nothing);
        }
        match source {
            Some(line) => self.take_beside(number, text, line),
            None => self.take_whole(number, text),
        }
    }

    /// Takes a line behind a help beside what it is in the file.
    fn take_beside<'a>(
        &self,
        number: usize,
        text: &'a str,
        line: &[char],
    ) -> Result<Taken<'a>, AllocError>
        ensures tells { (line : List ℕ) → TellsHow line number text.now
            → (quoted : Option Quoted) → IfOk result (λ taken. TellsOf quoted line taken) }
        ensures ends { (snippet : Snippet) → IfOk result (λ taken. EndsBy snippet taken) }
    {
        if Quote::new(self.alloc, text, 0, line)?.is_some() {
            return Ok(Taken::Nothing);
        }
        let put = insertions_in(self.alloc, text, line)?;
        if !put.is_empty() {
            return Ok(Taken::Fixes(puts(self.alloc, number, put.as_slice())?));
        }
        if is_new_line(text, line) {
            let fixes = one_fix(self.alloc, number, FixKind::PutLine, text.trim())?;
            return Ok(Taken::Fixes(fixes));
        }
        self.take_whole(number, text)
    }

    /// Takes a text as what a line is to be as a whole.
    fn take_whole<'a>(&self, number: usize, text: &'a str) -> Result<Taken<'a>, AllocError>
        ensures tells { (line : List ℕ) → TellsHow line number text.now
            → (quoted : Option Quoted) → IfOk result (λ taken. TellsOf quoted line taken) }
        ensures ends { (snippet : Snippet) → IfOk result (λ taken. EndsBy snippet taken) }
    {
        let fixes = one_fix(self.alloc, number, FixKind::Become, text.trim())?;
        Ok(Taken::Fixes(fixes))
    }

    /// Takes a text as a quote, maybe behind the strokes of ranges over lines.
    fn take_drawn_quote<'a>(
        &mut self,
        number: usize,
        text: &str,
        source: Option<&[char]>,
    ) -> Result<Taken<'a>, AllocError>
        ensures quotes { IfOk result (λ taken. QuotesNext text.now
            (option_map (λ source. source.now) source.entry) self.old.quoted self.new.quoted) }
        ensures tells { (line : List ℕ) → IfOk result (λ taken. TellsOf self.new.quoted line taken) }
        ensures ends { IfOk result (λ taken. EndsBy self.new taken) }
    {
        let Some(line) = source else {
            return Ok(self.take_none());
        };
        let found = drawn_quote(self.alloc, text, line)?;
        let Some((strokes, quote)) = found else {
            return Ok(self.take_none());
        };
        self.quoted = Some(Quoted::new(self.alloc, number, quote, Unit::Display));
        self.open_at(text, strokes)?;
        Ok(Taken::Nothing)
    }

    /// Has a range over lines begin where the quoted line does, if it is drawn so.
    fn open_at(&mut self, text: &str, strokes: usize) -> Result<(), AllocError>
        ensures { self.new.quoted ≡ self.old.quoted }
    {
        let column = text_column(text, strokes).min(LAST_COLUMN);
        match &self.quoted {
            Some(quoted) if is_corner(text, strokes) => {
                self.opened.push(quoted.point_at(column))?;
                Ok(())
            }
            _ => Ok(()),
        }
    }

    /// Takes a row of rustc. An empty one parts what a help says from what it says otherwise.
    fn take_framed_row<'a>(&mut self, row: &'a str) -> Result<Taken<'a>, AllocError>
        ensures quotes { (source : Option (List ℕ)) → IfOk result (λ taken.
            QuotesNext row.now source self.old.quoted self.new.quoted) }
        ensures tells { (line : List ℕ) → IsEnd row.now line
            → IfOk result (λ taken. TellsOf self.new.quoted line taken) }
        ensures ends { IfOk result (λ taken. EndsBy self.new taken) }
    {
        if is_blank(row) {
            self.advice = Advice::Puts(0);
            return Ok(Taken::Nothing);
        }
        if self.stage == Stage::Advised {
            return Ok(Taken::Nothing);
        }
        if is_strokes(row) {
            return self.take_strokes(row);
        }
        let Some(quoted) = &mut self.quoted else {
            return Ok(self.take_none());
        };
        match framed_row(self.alloc, quoted, row)? {
            Taken::NotOfSnippet => Ok(self.take_none()),
            Taken::Ranges(marks) => Ok(Taken::Ranges(self.with_lines(row, marks)?)),
            taken => Ok(taken),
        }
    }

    /// Takes a row of strokes below marks: a range over lines begins or ends at the mark above its last bar.
    fn take_strokes<'a>(&mut self, row: &'a str) -> Result<Taken<'a>, AllocError>
        ensures quotes { (source : Option (List ℕ)) → IfOk result (λ taken.
            QuotesNext row.now source self.old.quoted self.new.quoted) }
        ensures tells { (line : List ℕ) → IfOk result (λ taken. TellsOf self.new.quoted line taken) }
        ensures ends { IfOk result (λ taken. EndsBy self.new taken) }
    {
        let Some(quoted) = &mut self.quoted else {
            return Ok(self.take_none());
        };
        if opens(self.stroke, row)
            && let Some(start) = quoted.mark_above(row)
        {
            self.opened.push(start)?;
        }
        quoted.take_bars(self.alloc, row)?;
        Ok(self.begun_by(row))
    }

    /// What a row of strokes says of a mark above it: the range that began last ends there, where no stroke leads
    /// to the marks themselves.
    fn begun_by<'a>(&mut self, row: &str) -> Taken<'a>
        ensures quoted { self.new.quoted ≡ self.old.quoted }
        ensures tells { (line : List ℕ) → TellsOf self.new.quoted line result }
        ensures ends { EndsBy self.new result }
    {
        if self.stroke != Stroke::Absent || stroke_of(row) != Stroke::Ends {
            return Taken::Nothing;
        }
        let Some(quoted) = &self.quoted else {
            return Taken::Nothing;
        };
        let number = quoted.number;
        let Some(mark) = quoted.run_above(row) else {
            return Taken::Nothing;
        };
        match self.opened.pop() {
            Some(start) if start.line < number => Taken::Begun(mark, start),
            _ => Taken::Nothing,
        }
    }

    /// Marks, where a stroke leads to some of them: ranges over lines begin or end there.
    fn with_lines<'a>(
        &mut self,
        row: &str,
        marks: Vec<Mark<'a>>,
    ) -> Result<Vec<Mark<'a>>, AllocError>
        ensures quoted { self.new.quoted ≡ self.old.quoted }
        ensures marks { IfOk result (λ all. (quoted : Quoted) (row : List ℕ)
            → AreMarksIn quoted row marks.entry.items → AreMarksIn quoted row all.items) }
    {
        let marks = self.with_own_start(marks);
        let (strokes, _) = marks_and_text(row);
        let joined = marks_joined(strokes);
        self.stroke = stroke_of(strokes);
        match self.stroke {
            Stroke::Begins => {
                self.open_last(marks.as_slice(), joined)?;
                Ok(marks)
            }
            Stroke::Ends => Ok(self.begun_above(marks, joined)),
            Stroke::Absent => Ok(marks),
        }
    }

    /// Has a range over lines begin at the last of the marks to which a stroke leads.
    fn open_last(&mut self, marks: &[Mark<'_>], joined: usize) -> Result<(), AllocError>
        ensures { self.new.quoted ≡ self.old.quoted }
    {
        match joined.checked_sub(1) {
            Some(last) if last < marks.len() => {
                self.opened.push(marks[last].start)?;
                Ok(())
            }
            _ => Ok(()),
        }
    }

    /// Marks, where a stroke leads to the first ones: as many of these as ranges over lines have begun end
    /// one, the last of them that which began first.
    fn begun_above<'a>(&mut self, mut marks: Vec<Mark<'a>>, joined: usize) -> Vec<Mark<'a>>
        ensures quoted { self.new.quoted ≡ self.old.quoted }
        ensures marks { (quoted : Quoted) (row : List ℕ)
            → AreMarksIn quoted row marks.entry.items → AreMarksIn quoted row result.items }
    {
        for place in joined.saturating_sub(self.opened.len())..joined {
            if let Some(start) = self.opened.pop() {
                marks = begun_at(marks, place, start);
            }
        }
        marks
    }

    /// Marks, where others may be drawn over the front of the place's own: it begins at the head's
    /// character.
    fn with_own_start<'a>(&self, marks: Vec<Mark<'a>>) -> Vec<Mark<'a>>
        ensures { (quoted : Quoted) (row : List ℕ) → AreMarksIn quoted row marks.entry.items
            → AreMarksIn quoted row result.items }
    {
        let own = marks.iter().position(|mark| mark.caret.is_some());
        match (own, self.caret) {
            (Some(own), Some(offset)) if is_drawn_over(marks.as_slice(), own, self.line, offset) =>
                {
                    let line = self.line;
                    begun_at(marks, own, Point { line, offset })
                }
            _ => marks,
        }
    }

    /// Takes a line of rustc without a gutter.
    fn take_words<'a>(
        &mut self,
        bar: usize,
        line: &'a str,
        source: Option<&[char]>,
    ) -> Result<Taken<'a>, AllocError>
        ensures quotes { (source : Option (List ℕ)) → IfOk result (λ taken.
            QuotesNext line.now source self.old.quoted self.new.quoted) }
        ensures tells { IfOk result (λ taken. TellsOf self.new.quoted line.now taken) }
        ensures ends { IfOk result (λ taken. EndsBy self.new taken) }
    {
        match words_of(line) {
            Some(Words::Inserted(number, text)) => self.take_inserted(number, text),
            Some(Words::Changed(number, text)) => self.take_changed(number, text, source),
            Some(Words::Gone) => {
                self.advice = Advice::Replaces;
                Ok(Taken::Nothing)
            }
            Some(Words::Gap) => Ok(Taken::Nothing),
            Some(words) => Ok(self.take_note(words)),
            None => Ok(self.take_more(bar, line)),
        }
    }

    /// Takes a line that is to stand somewhere: in place of one that goes, or in front of what is there.
    /// Its number counts the lines that the help has put in above it.
    fn take_inserted<'a>(&mut self, number: usize, text: &'a str) -> Result<Taken<'a>, AllocError>
        ensures quoted { self.new.quoted ≡ self.old.quoted }
        ensures tells { (line : List ℕ) → words_in line ≡ Some (inserted number text.now)
            → IfOk result (λ taken. TellsOf self.new.quoted line taken) }
        ensures ends { IfOk result (λ taken. EndsBy self.new taken) }
    {
        if self.advice == Advice::Replaces {
            return self.take_whole(number, text);
        }
        self.put_line(number, text)
    }

    /// Takes a line as one that is put in front of what is there.
    fn put_line<'a>(&mut self, number: usize, text: &'a str) -> Result<Taken<'a>, AllocError>
        ensures quoted { self.new.quoted ≡ self.old.quoted }
        ensures tells { (line : List ℕ) → TellsLine line number text.now
            → IfOk result (λ taken. TellsOf self.new.quoted line taken) }
        ensures ends { IfOk result (λ taken. EndsBy self.new taken) }
    {
        let line = number.saturating_sub(self.advice.above());
        self.advice = self.advice.with_line();
        let fixes = one_fix(self.alloc, line, FixKind::PutLine, text.trim())?;
        Ok(Taken::Fixes(fixes))
    }

    /// Takes how a line is to be. Its number counts the lines that the help has put in above it. What the file
    /// has there says nothing, and a text that keeps little of that is a line of its own in front of it.
    fn take_changed<'a>(
        &mut self,
        number: usize,
        text: &'a str,
        source: Option<&[char]>,
    ) -> Result<Taken<'a>, AllocError>
        ensures quoted { self.new.quoted ≡ self.old.quoted }
        ensures tells { (line : List ℕ) → words_in line ≡ Some (changed number text.now)
            → IfOk result (λ taken. TellsOf self.new.quoted line taken) }
        ensures ends { IfOk result (λ taken. EndsBy self.new taken) }
    {
        let above = self.advice.above();
        self.advice = Advice::Changes(above);
        match kept_of(self.alloc, text, source)? {
            Kept::Same => Ok(Taken::Nothing),
            Kept::Other => self.put_line(number, text),
            Kept::Changed => {
                let line = number.saturating_sub(above);
                let fixes = one_fix(self.alloc, line, FixKind::Become, text.trim())?;
                Ok(Taken::Fixes(fixes))
            }
        }
    }

    /// Takes a line that goes on with a note or a help, if it does.
    fn take_more<'a>(&mut self, bar: usize, line: &'a str) -> Taken<'a>
        ensures quoted { self.new.quoted ≡ self.old.quoted }
        ensures tells { TellsOf self.new.quoted line.now result }
        ensures ends { EndsBy self.new result }
    {
        match further_text(line, bar) {
            Some(text) if self.stage == Stage::Noted => Taken::More(text),
            _ => self.take_none(),
        }
    }

    /// Takes a note, a help or a place: no line is quoted behind it.
    fn take_note<'a>(&mut self, words: Words<'a>) -> Taken<'a>
        ensures quoted { self.new.quoted ≡ None }
        ensures tells { (line : List ℕ) → words_in line ≡ Some (words_told words.entry)
            → TellsOf self.new.quoted line result }
        ensures ends { EndsBy self.new result }
    {
        self.quoted = None;
        self.advice = Advice::Puts(0);
        self.opened.clear();
        let (stage, taken) = match words {
            Words::Note(text) => (Stage::Noted, Taken::Note(text)),
            Words::Help(text) => (Stage::Noted, Taken::Help(text)),
            Words::Advice(text) => (Stage::Advised, Taken::Help(text)),
            Words::At(place) => (Stage::Rows, Taken::At(place)),
            Words::Elsewhere(place) => (Stage::Rows, Taken::Elsewhere(place)),
            Words::Inserted(_, _) | Words::Changed(_, _) | Words::Gone | Words::Gap => {
                (Stage::Rows, Taken::Nothing)
            }
        };
        self.stage = stage;
        taken
    }
}

/// The quote of a line that a text is, maybe behind the strokes of ranges over lines, and how many characters
/// these take.
fn drawn_quote(
    alloc: Global,
    text: &str,
    line: &[char],
) -> Result<Option<(usize, Quote)>, AllocError>
    ensures { IfOk result (λ found. IfSome found (λ found.
        IsQuoteOf found.1 (chars text.now) line.now)) }
{
    let mut strokes = 0;
    for _ in 0..STROKES {
        if let Some(quote) = Quote::new(alloc, text, strokes, line)? {
            return Ok(Some((strokes, quote)));
        }
        match behind_stroke(text, strokes) {
            Some(behind) => strokes = behind,
            None => return Ok(None),
        }
    }
    Ok(None)
}

/// What a row below a quoted line is: bars, marks with a text behind them, or labels.
fn framed_row<'a>(alloc: Global, quoted: &mut Quoted, row: &'a str) -> Result<Taken<'a>, AllocError>
    ensures line { IsSameLine quoted.old quoted.new }
    ensures tells { IfOk result (λ taken. RowTells quoted.new row.now taken) }
{
    if is_bars(row) {
        quoted.take_bars(alloc, row)?;
        return Ok(Taken::Nothing);
    }
    let (marks, _) = marks_and_text(row);
    if has_mark(marks) {
        return match quoted.take_written(alloc, row)? {
            Some(marks) => Ok(Taken::Ranges(marks)),
            None => Ok(Taken::Nothing),
        };
    }
    label_row(alloc, quoted, row)
}

/// What a row below marks is: a further label of one of them, or labels below bars.
fn label_row<'a>(alloc: Global, quoted: &mut Quoted, row: &'a str) -> Result<Taken<'a>, AllocError>
    ensures line { IsSameLine quoted.old quoted.new }
    ensures tells { IfOk result (λ taken. RowTells quoted.new row.now taken) }
{
    if let Some(label) = quoted.further_label(row) {
        let mut labels = Vec::new(alloc);
        labels.push(label)?;
        return Ok(Taken::Labels(labels));
    }
    match quoted.take_labels(alloc, row)? {
        Some(labels) => Ok(Taken::Labels(labels)),
        None => Ok(Taken::NotOfSnippet),
    }
}

/// Whether the mark in front of this one touches it, and has a character of a line.
fn is_drawn_over(marks: &[Mark<'_>], own: usize, line: usize, caret: usize) -> bool {
    match (own.checked_sub(1), marks.get(own)) {
        (Some(before), Some(mark)) => match marks.get(before) {
            Some(over) => {
                over.end == mark.start
                    && over.start.line == line
                    && over.start.offset <= caret
                    && caret < over.end.offset
            }
            None => false,
        },
        _ => false,
    }
}

/// The text of a line that begins with blanks up to behind a bar: what stands behind those below a note's
/// head.
fn further_text(line: &str, bar: usize) -> Option<&str>
    ensures { IfSome result (λ text. GoesOn line.now text.now) }
{
    let blanks = line.len().saturating_sub(past_blanks(line).len());
    if blanks <= bar {
        return None;
    }
    behind_indent(line, bar.saturating_add(NOTE_HEAD))
}

/// What is put into a line, as changes of it.
fn puts<'a>(alloc: Global, line: usize, put: &[Insertion<'a>]) -> Result<Vec<Fix<'a>>, AllocError>
    ensures { IfOk result (λ fixes. map change_told fixes.items ≡ map (put_into line) put.now) }
{
    let mut fixes = Vec::new(alloc);
    for piece in put {
        fixes.push(put_of(line, piece))?;
    }
    Ok(fixes)
}

/// What is put into a line, as a change of it.
fn put_of<'a>(line: usize, piece: &Insertion<'a>) -> Fix<'a>
    ensures { change_told result ≡ put_into line piece.now }
{
    Fix {
        at: Point {
            line,
            offset: piece.offset,
        },
        kind: FixKind::Put,
        text: piece.text,
    }
}
