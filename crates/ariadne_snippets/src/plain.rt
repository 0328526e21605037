//! Snippets without a gutter, as clang, javac, mypy and cppcheck write them.

ghost use Rattle.std.specs.Prelude.{◌≡◌, IfOk, IfSome, List, Option, Some, ℕ};
ghost use Rattle.ariadne_snippets.specs.RowPieces.{GoesOn, IsIn};
ghost use Rattle.ariadne_snippets.specs.Snippets.{AreMarksIn, EndsBy, IsSameLine, QuotesNext, TellsOf};

use crate::gutter::without;
use crate::pieces::{behind_indent, behind_text};
use crate::quoted::Quoted;
use crate::rows::{has_caret, is_bars, is_blank, is_marks, pieces};
use crate::snippet::{Snippet, Stage};
use crate::taken::{Mark, Taken};
use ariadne_parse::Unit;
use ariadne_parse::unit::columns_of;
use std::alloc::{AllocError, Global};

/// What mypy writes in front of a line that it quotes.
const MYPY_INDENT: &str = "    ";

/// How far javac's details are indented at least.
const DETAIL_INDENT: usize = 2;

#[tactic(auto, using(crate::proofs::Nexts::stays, crate::proofs::Telling::not_ended))]
impl Snippet {
    /// Takes a line below a plain quote.
    pub(crate) fn take_plain<'a>(&mut self, line: &'a str) -> Result<Taken<'a>, AllocError>
        ensures quotes { (source : Option (List ℕ)) → IfOk result (λ taken.
            QuotesNext line.now source self.old.quoted self.new.quoted) }
        ensures tells { IfOk result (λ taken. TellsOf self.new.quoted line.now taken) }
        ensures ends { IfOk result (λ taken. EndsBy self.new taken) }
    {
        if self.stage == Stage::Noted {
            return Ok(self.take_detail(line));
        }
        let Some(quoted) = &mut self.quoted else {
            return Ok(self.take_none());
        };
        if is_blank(line) {
            return Ok(self.take_none());
        }
        match plain_row(self.alloc, self.caret, quoted, line)? {
            Taken::NotOfSnippet => Ok(self.take_none()),
            Taken::Fixes(fixes) => {
                self.stage = Stage::Placeless;
                Ok(Taken::Fixes(fixes))
            }
            Taken::Note(text) => {
                self.stage = Stage::Noted;
                Ok(Taken::Note(text))
            }
            taken => Ok(taken),
        }
    }

    /// Takes a further detail below a place, if a line is that.
    fn take_detail<'a>(&mut self, line: &'a str) -> Taken<'a>
        ensures quoted { self.new.quoted ≡ self.old.quoted }
        ensures tells { TellsOf self.new.quoted line.now result }
        ensures ends { EndsBy self.new result }
    {
        match detail(line) {
            Some(text) => Taken::More(text),
            None => self.take_none(),
        }
    }
}

/// What the columns of the rows below a plain quote of a line count: bytes, where it stands as far in as
/// mypy has it.
pub(crate) fn unit_below(quote: &str, source: Option<&[char]>) -> Unit {
    match (behind_text(quote, MYPY_INDENT), source) {
        (Some(rest), Some(line)) if begins_as(rest, line) => Unit::Byte,
        _ => Unit::Display,
    }
}

/// Whether a text begins with as many blanks as the white space in front of a line takes, or with the dots of
/// what was cut off.
fn begins_as(text: &str, line: &[char]) -> bool {
    let blanks = text
        .len()
        .saturating_sub(text.trim_start_matches(' ').len());
    blanks == white_columns(line) || text.starts_with("...")
}

/// How many columns the white space in front of a line takes.
fn white_columns(line: &[char]) -> usize {
    let mut at = 0usize;
    for c in line {
        if *c != ' ' && *c != '\t' {
            return at;
        }
        at = at.saturating_add(columns_of(Unit::Display, at, *c));
    }
    at
}

/// What a row below a plain quote is: marks first, which may end in dots where the quote was cut.
fn plain_row<'a>(
    alloc: Global,
    caret: Option<usize>,
    quoted: &mut Quoted,
    line: &'a str,
) -> Result<Taken<'a>, AllocError>
    ensures line { IsSameLine quoted.old quoted.new }
    ensures tells { IfOk result (λ taken. TellsOf (Some quoted.new) line.now taken) }
{
    if quoted.is_marked() {
        return row_below(alloc, caret, quoted, line);
    }
    match first_marks(alloc, caret, quoted, line)? {
        Some(marks) => Ok(Taken::Ranges(marks)),
        None => Ok(Taken::NotOfSnippet),
    }
}

/// The marks of the first row below a plain quote: nothing, if it has something else. Where clang names ranges in
/// heads, it writes a blank in front of the quote and of the marks, which a tab of the quote takes up.
pub(crate) fn first_marks<'a>(
    alloc: Global,
    caret: Option<usize>,
    quoted: &mut Quoted,
    line: &'a str,
) -> Result<Option<Vec<Mark<'a>>>, AllocError>
    ensures line { IsSameLine quoted.old quoted.new }
    ensures marks { IfOk result (λ marks. IfSome marks (λ marks.
        (part : List ℕ) × IsIn part line.now × AreMarksIn quoted.new part marks.items)) }
{
    let row = before_dots(line);
    if !is_marks(row) || !has_caret(row) {
        return Ok(None);
    }
    quoted.unit = plain_unit(caret, quoted, row);
    quoted.moved = columns_short(caret, quoted, row);
    if is_one_over(caret, quoted, row) {
        quoted.take_marks(alloc, without(row, ' '))
    } else {
        quoted.take_marks(alloc, row)
    }
}

/// A row without the dots that it ends in where the line above it was cut.
fn before_dots(line: &str) -> &str
    ensures { IsIn result.now line.now }
{
    match line.strip_suffix("...") {
        Some(row) => row,
        None => line,
    }
}

/// Whether marks stand one column further right than they are meant, whose `^` is that of the head's character.
fn is_one_over(caret: Option<usize>, quoted: &Quoted, row: &str) -> bool {
    match caret {
        Some(caret) => quoted.is_one_before(row, caret),
        None => false,
    }
}

/// What the columns of plain marks count: what leads to the head's character. Those of clang count columns of
/// a terminal, or characters where it gives a wide one a single column; those of cppcheck and mypy count
/// bytes, and those of javac, whose head names no column, characters of a quote in units of UTF-16.
fn plain_unit(caret: Option<usize>, quoted: &Quoted, row: &str) -> Unit {
    match caret {
        _ if quoted.unit == Unit::Byte => Unit::Byte,
        None => Unit::Char,
        Some(caret) if quoted.leads_to(Unit::Display, row, caret) => Unit::Display,
        Some(caret) if quoted.leads_to(Unit::Byte, row, caret) => Unit::Byte,
        Some(caret) if quoted.leads_to(Unit::Char, row, caret) => Unit::Char,
        Some(_) => Unit::Display,
    }
}

/// How many columns further right than they stand marks are meant, whose `^` is that of the head's character.
fn columns_short(caret: Option<usize>, quoted: &Quoted, row: &str) -> usize {
    match caret {
        Some(caret) => quoted.columns_short(row, caret),
        None => 0,
    }
}

/// What a row below plain marks is: bars, labels below them, javac's details, or what is to be put there.
fn row_below<'a>(
    alloc: Global,
    caret: Option<usize>,
    quoted: &mut Quoted,
    line: &'a str,
) -> Result<Taken<'a>, AllocError>
    ensures line { IsSameLine quoted.old quoted.new }
    ensures tells { IfOk result (λ taken. TellsOf (Some quoted.new) line.now taken) }
{
    if is_bars(line) {
        quoted.take_bars(alloc, line)?;
        return Ok(Taken::Nothing);
    }
    if let Some(labels) = quoted.take_labels(alloc, line)? {
        return Ok(Taken::Labels(labels));
    }
    match detail(line) {
        Some(text) if caret.is_none() => Ok(Taken::Note(text)),
        _ => take_puts(alloc, quoted, line),
    }
}

/// What a row below plain marks says is to be put there, if it is one.
fn take_puts<'a>(alloc: Global, quoted: &Quoted, line: &'a str) -> Result<Taken<'a>, AllocError>
    ensures { IfOk result (λ taken. TellsOf (Some quoted.now) line.now taken) }
{
    let pieces = pieces(alloc, quoted.unit, quoted.put_start(), line)?;
    if quoted.may_have_fixes(line, pieces.as_slice()) {
        Ok(Taken::Fixes(quoted.fixes_of(alloc, pieces.as_slice())?))
    } else {
        Ok(Taken::NotOfSnippet)
    }
}

/// What javac says beside a message, in a line below its marks.
fn detail(line: &str) -> Option<&str>
    ensures { IfSome result (λ text. GoesOn line.now text.now) }
{
    if line.starts_with("  ") {
        behind_indent(line, DETAIL_INDENT)
    } else {
        None
    }
}
