//! The snippet of a place, line by line: how it begins.

ghost use Rattle.std.specs.Prelude.{◌≡◌, [], ◌∷◌, chars, false, is_some, map, option_map, true, IfOk, List, Option, Some, ℕ};
ghost use Rattle.ariadne_snippets.specs.Ends.{IsEnd};
ghost use Rattle.ariadne_snippets.specs.Snippets.{above, change_of_line, change_told, number_changed, number_named};
ghost use Rattle.ariadne_snippets.specs.Snippets.{number_quoted};
ghost use Rattle.ariadne_snippets.specs.Words.{words_in};
ghost use Rattle.ariadne_snippets.specs.Snippets.{EndsBy, HasEnded, IsQuoteOf, IsTaken, IsUnread, QuotesNext};
ghost use Rattle.ariadne_snippets.specs.Snippets.{ShowsWhole, TellsOf};

use crate::forms::{Words, added_line, note_of, unfiled_note, words_of};
use crate::gutter::{Gutter, gutter_of};
use crate::pieces::behind_indent;
use crate::plain::{first_marks, unit_below};
use crate::quote::Quote;
use crate::quoted::Quoted;
use crate::rows::{is_blank, is_marks};
use crate::strokes::Stroke;
use crate::taken::{Fix, FixKind, Point, Taken};
use ariadne_parse::Unit;
use std::alloc::{AllocError, Global};

/// How the lines of a snippet are written.
#[derive(Clone, Copy, PartialEq, Eq)]
pub(crate) enum Form {
    /// None was read yet.
    Unread,
    /// As they stand in the file: clang, javac, mypy, cppcheck.
    Plain,
    /// Behind a gutter whose bar stands at this byte: gcc.
    Gutter(usize),
    /// Behind such a gutter and a sign, with an empty line at the end: erlc.
    Signed(usize),
    /// Behind a gutter that begins in a row of its own, with an empty line at the end: rustc.
    Framed(usize),
}

/// What lines are read next.
#[derive(Clone, Copy)]
pub(crate) enum Stage {
    /// Quoted lines, and rows below them.
    Rows,
    /// What a note or a help goes on with, too.
    Noted,
    /// Lines as they are to be, as a help says.
    Advised,
    /// Notes that name no place alone.
    Placeless,
    /// The quote of a text that stands in no file.
    Unfiled,
    /// Marks below what is quoted of no line of a file.
    Marked,
    /// None.
    Ended,
}

/// What the rows behind a help have said so far.
#[derive(Clone, Copy, PartialEq, Eq)]
pub(crate) enum Advice {
    /// That this many lines are put in.
    Puts(usize),
    /// That lines become others, and this many are put in.
    Changes(usize),
    /// That lines go, and others come in their place.
    Replaces,
}

impl Advice {
    /// How many lines are put in.
    pub(crate) fn above(self) -> usize
        ensures { result ≡ above self }
    {
        match self {
            Advice::Puts(above) | Advice::Changes(above) => above,
            Advice::Replaces => 0,
        }
    }

    /// That one line more is put in.
    pub(crate) fn with_line(self) -> Advice {
        match self {
            Advice::Puts(above) => Advice::Puts(above.saturating_add(1)),
            Advice::Changes(above) => Advice::Changes(above.saturating_add(1)),
            Advice::Replaces => Advice::Replaces,
        }
    }
}

/// The snippet of a place.
#[derive(Drop)]
pub struct Snippet {
    pub(crate) alloc: Global,
    /// The line of the place.
    pub(crate) line: usize,
    /// The character of that line that the head names.
    pub(crate) caret: Option<usize>,
    pub(crate) form: Form,
    pub(crate) stage: Stage,
    /// What the last help has said.
    pub(crate) advice: Advice,
    /// The line that was quoted last.
    pub(crate) quoted: Option<Quoted>,
    /// Where ranges over lines have begun that have not ended.
    pub(crate) opened: Vec<Point>,
    /// What the strokes of the marks that were read last say.
    pub(crate) stroke: Stroke,
    /// The line to whose end marks have reached.
    pub(crate) reached: Option<usize>,
}

#[tactic(auto, using(crate::proofs::Nexts::stays, crate::proofs::Nexts::quoted_further))]
impl Snippet {
    /// The snippet of a place, of which nothing was read yet.
    ///
    /// The place is in this line, from 1. `caret` is the character of the line, from 0, that the head's
    /// column means: nothing where the head names no column.
    pub fn new(alloc: Global, line: usize, caret: Option<usize>) -> Snippet
        ensures { IsUnread line caret result }
    {
        Snippet {
            alloc,
            line,
            caret,
            form: Form::Unread,
            stage: Stage::Rows,
            advice: Advice::Puts(0),
            quoted: None,
            opened: Vec::new(alloc),
            stroke: Stroke::Absent,
            reached: None,
        }
    }

    /// Whether it has ended, and takes no line any more.
    pub fn has_ended(&self) -> bool
        ensures ended { result ≡ true → HasEnded self.now }
        ensures not_ended { HasEnded self.now → result ≡ true }
    {
        self.stage == Stage::Ended
    }

    /// The number of the line of the file that a line of output would quote, or that it says how to change.
    pub fn quoted_number(&self, line: &str) -> Option<usize>
        ensures { result ≡ number_quoted self.now line.now }
    {
        match (named_number(line), self.form) {
            (Some(number), _) => Some(number),
            (None, Form::Unread) => Some(self.line),
            (None, Form::Framed(_)) => self.changed_number(line),
            (None, _) => None,
        }
    }

    /// The number of the line of the file that a line of rustc's form would change.
    fn changed_number(&self, line: &str) -> Option<usize>
        ensures { result ≡ number_changed (above self.now.advice) (words_in line.now) }
    {
        match words_of(line) {
            Some(Words::Changed(number, _)) => Some(number.saturating_sub(self.advice.above())),
            _ => None,
        }
    }

    /// Takes the next line of output, if it is one of the snippet.
    ///
    /// It has no line feed and no SGR sequence. `source` is the line of the file with its quoted number,
    /// without what ends it: nothing where the file has none. Once a line was none of the snippet it has
    /// ended, and takes no other. On `Err` there was no memory.
    pub fn take<'a>(
        &mut self,
        line: &'a str,
        source: Option<&[char]>,
    ) -> Result<Taken<'a>, AllocError>
        ensures quotes { IfOk result (λ taken. QuotesNext line.now
            (option_map (λ source. source.now) source.entry) self.old.quoted self.new.quoted) }
        ensures tells { IfOk result (λ taken. TellsOf self.new.quoted line.now taken) }
        ensures ends { IfOk result (λ taken. EndsBy self.new taken) }
        ensures over { HasEnded self.old → IfOk result (λ taken. taken ≡ Taken.NotOfSnippet) }
        ensures whole { (number : ℕ) (caret : Option ℕ) → IsUnread number caret self.old
            → ShowsWhole line.now (option_map (λ source. source.now) source.entry)
            → IfOk result (λ taken. IsTaken taken) }
    {
        match self.stage {
            Stage::Ended => Ok(Taken::NotOfSnippet),
            Stage::Unfiled => Ok(self.take_unfiled(line)),
            Stage::Marked => Ok(self.take_marks_alone(line)),
            _ => self.take_next(line, source),
        }
    }

    /// Takes the next line of output, where it may be a note that names no place in a file.
    fn take_next<'a>(
        &mut self,
        line: &'a str,
        source: Option<&[char]>,
    ) -> Result<Taken<'a>, AllocError>
        ensures quotes { IfOk result (λ taken. QuotesNext line.now
            (option_map (λ source. source.now) source.entry) self.old.quoted self.new.quoted) }
        ensures tells { IfOk result (λ taken. TellsOf self.new.quoted line.now taken) }
        ensures ends { IfOk result (λ taken. EndsBy self.new taken) }
        ensures whole { (number : ℕ) (caret : Option ℕ) → IsUnread number caret self.old
            → ShowsWhole line.now (option_map (λ source. source.now) source.entry)
            → IfOk result (λ taken. IsTaken taken) }
    {
        if let Some(text) = unfiled_note(line)
            && self.may_be_noted()
        {
            self.stage = Stage::Unfiled;
            return Ok(Taken::Note(text));
        }
        match note_of(line) {
            Some(text) if self.may_be_noted() => {
                self.stage = Stage::Placeless;
                Ok(Taken::Note(text))
            }
            _ if self.stage == Stage::Placeless => Ok(self.take_none()),
            _ => self.take_line(line, source),
        }
    }

    /// Takes what is quoted of a text that stands in no file: the note goes on with it.
    fn take_unfiled<'a>(&mut self, line: &'a str) -> Taken<'a>
        ensures quoted { self.new.quoted ≡ self.old.quoted }
        ensures tells { TellsOf self.new.quoted line.now result }
        ensures ends { EndsBy self.new result }
    {
        match behind_indent(line, line.len()) {
            Some(text) if !is_head(line) => {
                self.stage = Stage::Marked;
                Taken::More(text)
            }
            _ => self.take_none(),
        }
    }

    /// Takes marks below what is quoted of no line of a file, which say nothing.
    fn take_marks_alone<'a>(&mut self, line: &'a str) -> Taken<'a>
        ensures quoted { self.new.quoted ≡ self.old.quoted }
        ensures tells { TellsOf self.new.quoted line.now result }
        ensures ends { EndsBy self.new result }
    {
        if is_marks(line) {
            self.stage = Stage::Placeless;
            Taken::Nothing
        } else {
            self.take_none()
        }
    }

    /// Whether a note that names no place may follow: behind marks of another form than rustc's, whose notes may
    /// name places in a line of their own.
    fn may_be_noted(&self) -> bool {
        match (self.form, &self.quoted) {
            (Form::Plain | Form::Gutter(_), Some(quoted)) => quoted.is_marked(),
            _ => false,
        }
    }

    /// Takes the next line of output, which is no such note.
    fn take_line<'a>(
        &mut self,
        line: &'a str,
        source: Option<&[char]>,
    ) -> Result<Taken<'a>, AllocError>
        ensures quotes { IfOk result (λ taken. QuotesNext line.now
            (option_map (λ source. source.now) source.entry) self.old.quoted self.new.quoted) }
        ensures tells { IfOk result (λ taken. TellsOf self.new.quoted line.now taken) }
        ensures ends { IfOk result (λ taken. EndsBy self.new taken) }
        ensures whole { (number : ℕ) (caret : Option ℕ) → IsUnread number caret self.old
            → ShowsWhole line.now (option_map (λ source. source.now) source.entry)
            → IfOk result (λ taken. IsTaken taken) }
    {
        match self.form {
            Form::Unread => self.take_first(line, source),
            Form::Plain => self.take_plain(line),
            Form::Gutter(bar) => self.take_behind(bar, line, source),
            Form::Signed(bar) => self.take_signed(bar, line, source),
            Form::Framed(bar) => self.take_framed(bar, line, source),
        }
    }

    /// Takes the first line.
    fn take_first<'a>(
        &mut self,
        line: &'a str,
        source: Option<&[char]>,
    ) -> Result<Taken<'a>, AllocError>
        ensures whole { ShowsWhole line.now (option_map (λ source. source.now) source.entry)
            → IfOk result (λ taken. IsTaken taken) }
        ensures quotes { IfOk result (λ taken. QuotesNext line.now
            (option_map (λ source. source.now) source.entry) self.old.quoted self.new.quoted) }
        ensures tells { IfOk result (λ taken. TellsOf self.new.quoted line.now taken) }
        ensures ends { IfOk result (λ taken. EndsBy self.new taken) }
    {
        if let Some(text) = added_line(line) {
            let fixes = one_fix(self.alloc, self.line, FixKind::PutLine, text.trim())?;
            return Ok(Taken::Fixes(fixes));
        }
        match gutter_of(line) {
            Some(gutter) => self.take_first_gutter(line, &gutter, source),
            None => self.take_first_plain(line, source),
        }
    }

    /// Takes the first line, which has a gutter.
    fn take_first_gutter<'a>(
        &mut self,
        line: &'a str,
        gutter: &Gutter<'_>,
        source: Option<&[char]>,
    ) -> Result<Taken<'a>, AllocError>
        requires { IsEnd gutter.now.text.now line.now }
        ensures whole { is_some gutter.now.number ≡ true
            → option_map (λ source. source.now) source.entry ≡ Some (chars gutter.now.text.now)
            → IfOk result (λ taken. IsTaken taken) }
        ensures quotes { IfOk result (λ taken. QuotesNext line.now
            (option_map (λ source. source.now) source.entry) self.old.quoted self.new.quoted) }
        ensures tells { IfOk result (λ taken. TellsOf self.new.quoted line.now taken) }
        ensures ends { IfOk result (λ taken. EndsBy self.new taken) }
    {
        match gutter.number {
            Some(number) => self.take_first_behind(line, number, gutter.bar, gutter.text, source),
            None if is_blank(gutter.text) => self.take_frame(gutter.bar, line, source),
            None => self.take_first_plain(line, source),
        }
    }

    /// Takes the first line, which a gutter begins.
    fn take_first_behind<'a>(
        &mut self,
        line: &str,
        number: usize,
        bar: usize,
        text: &str,
        source: Option<&[char]>,
    ) -> Result<Taken<'a>, AllocError>
        requires { IsEnd text.now line.now }
        ensures whole { option_map (λ source. source.now) source.entry ≡ Some (chars text.now)
            → IfOk result (λ taken. IsTaken taken) }
        ensures quotes { IfOk result (λ taken. QuotesNext line.now
            (option_map (λ source. source.now) source.entry) self.old.quoted self.new.quoted) }
        ensures tells { (line : List ℕ) → IfOk result (λ taken. TellsOf self.new.quoted line taken) }
        ensures ends { IfOk result (λ taken. EndsBy self.new taken) }
    {
        if line.starts_with('%') {
            self.form = Form::Signed(bar);
            return self.take_signed_quote(number, text, source);
        }
        self.form = Form::Gutter(bar);
        self.take_quote(number, text, Unit::Display, source)
    }

    /// Takes an empty row of a gutter as the first line: the frame of those below it, unless it quotes
    /// the line of the place.
    fn take_frame<'a>(
        &mut self,
        bar: usize,
        line: &str,
        source: Option<&[char]>,
    ) -> Result<Taken<'a>, AllocError>
        ensures quotes { IfOk result (λ taken. QuotesNext line.now
            (option_map (λ source. source.now) source.entry) self.old.quoted self.new.quoted) }
        ensures tells { (line : List ℕ) → IfOk result (λ taken. TellsOf self.new.quoted line taken) }
        ensures ends { IfOk result (λ taken. EndsBy self.new taken) }
    {
        self.form = if self.quotes(self.line, line, Unit::Display, source)? {
            Form::Plain
        } else {
            Form::Framed(bar)
        };
        Ok(Taken::Nothing)
    }

    /// Takes the first line as it stands in the file.
    fn take_first_plain<'a>(
        &mut self,
        line: &'a str,
        source: Option<&[char]>,
    ) -> Result<Taken<'a>, AllocError>
        ensures whole { option_map (λ source. source.now) source.entry ≡ Some (chars line.now)
            → IfOk result (λ taken. IsTaken taken) }
        ensures quotes { IfOk result (λ taken. QuotesNext line.now
            (option_map (λ source. source.now) source.entry) self.old.quoted self.new.quoted) }
        ensures tells { IfOk result (λ taken. TellsOf self.new.quoted line.now taken) }
        ensures ends { IfOk result (λ taken. EndsBy self.new taken) }
    {
        self.form = Form::Plain;
        if self.quotes(self.line, line, unit_below(line, source), source)? {
            return Ok(Taken::Nothing);
        }
        self.take_unquoted(line, source)
    }

    /// Takes the first line as one below a line that isn't quoted: marks where that has nothing, as clang writes
    /// them, or cppcheck's empty row where the head names no line.
    fn take_unquoted<'a>(
        &mut self,
        line: &'a str,
        source: Option<&[char]>,
    ) -> Result<Taken<'a>, AllocError>
        ensures quotes { IfOk result (λ taken. QuotesNext line.now
            (option_map (λ source. source.now) source.entry) self.old.quoted self.new.quoted) }
        ensures tells { IfOk result (λ taken. TellsOf self.new.quoted line.now taken) }
        ensures ends { IfOk result (λ taken. EndsBy self.new taken) }
    {
        match source {
            Some(empty) => self.take_marks_below(line, empty),
            None if self.line == 0 && is_blank(line) => {
                self.stage = Stage::Marked;
                Ok(Taken::Nothing)
            }
            None => Ok(self.take_none()),
        }
    }

    /// Takes the first line as marks below a line of the file that has nothing.
    fn take_marks_below<'a>(
        &mut self,
        line: &'a str,
        empty: &[char],
    ) -> Result<Taken<'a>, AllocError>
        ensures quotes { IfOk result (λ taken. QuotesNext line.now (Some empty.now)
            self.old.quoted self.new.quoted) }
        ensures tells { IfOk result (λ taken. TellsOf self.new.quoted line.now taken) }
        ensures ends { IfOk result (λ taken. EndsBy self.new taken) }
    {
        let Some(quote) = Quote::new(self.alloc, "", 0, empty)? else {
            return Ok(self.take_none());
        };
        let mut quoted = Quoted::new(self.alloc, self.line, quote, Unit::Display);
        match first_marks(self.alloc, self.caret, &mut quoted, line)? {
            Some(marks) => {
                self.quoted = Some(quoted);
                Ok(Taken::Ranges(marks))
            }
            None => Ok(self.take_none()),
        }
    }

    /// Takes a text as a quote. The columns of the rows below it count this.
    pub(crate) fn take_quote<'a>(
        &mut self,
        number: usize,
        text: &str,
        unit: Unit,
        source: Option<&[char]>,
    ) -> Result<Taken<'a>, AllocError>
        ensures whole { option_map (λ source. source.now) source.entry ≡ Some (chars text.now)
            → IfOk result (λ taken. IsTaken taken) }
        ensures quotes { IfOk result (λ taken. QuotesNext text.now
            (option_map (λ source. source.now) source.entry) self.old.quoted self.new.quoted) }
        ensures tells { (line : List ℕ) → IfOk result (λ taken. TellsOf self.new.quoted line taken) }
        ensures ends { IfOk result (λ taken. EndsBy self.new taken) }
    {
        if self.quotes(number, text, unit, source)? {
            Ok(Taken::Nothing)
        } else {
            Ok(self.take_none())
        }
    }

    /// Whether a text quotes a line of the file. It is then the line that was quoted last.
    fn quotes(
        &mut self,
        number: usize,
        text: &str,
        unit: Unit,
        source: Option<&[char]>,
    ) -> Result<bool, AllocError>
        ensures whole { option_map (λ source. source.now) source.entry ≡ Some (chars text.now)
            → IfOk result (λ is_quote. is_quote ≡ true) }
        ensures quotes { IfOk result (λ is_quote. QuotesNext text.now
            (option_map (λ source. source.now) source.entry) self.old.quoted self.new.quoted) }
        ensures none { IfOk result (λ is_quote. is_quote ≡ false
            → self.new.quoted ≡ self.old.quoted) }
    {
        let Some(line) = source else {
            return Ok(false);
        };
        let Some(quote) = Quote::new(self.alloc, text, 0, line)? else {
            return Ok(false);
        };
        let quote = self.counted(quote, unit, line)?;
        self.quoted = Some(Quoted::new(self.alloc, number, quote, unit));
        Ok(true)
    }

    /// A quote of a line by what columns below it count: units of UTF-16, where the rows are plain and the head names
    /// no column, as javac's, and the quote has one character for each of the line.
    fn counted(&self, quote: Quote, unit: Unit, line: &[char]) -> Result<Quote, AllocError>
        ensures { IfOk result (λ counted. (text : List ℕ) → IsQuoteOf quote text line.now
            → IsQuoteOf counted text line.now) }
    {
        let is_plain = self.form == Form::Plain && self.caret.is_none();
        if is_plain && unit != Unit::Byte && quote.is_one_by_one(line) {
            quote.by_units(self.alloc, line)
        } else {
            Ok(quote)
        }
    }

    /// Takes no line any more.
    pub(crate) fn take_none<'a>(&mut self) -> Taken<'a>
        ensures quoted { self.new.quoted ≡ self.old.quoted }
        ensures tells { (line : List ℕ) → TellsOf self.new.quoted line result }
        ensures ends { EndsBy self.new result }
    {
        self.stage = Stage::Ended;
        Taken::NotOfSnippet
    }

    /// Takes an empty line as the last one.
    pub(crate) fn take_end<'a>(&mut self) -> Taken<'a>
        ensures quoted { self.new.quoted ≡ self.old.quoted }
        ensures tells { (line : List ℕ) → TellsOf self.new.quoted line result }
        ensures ends { EndsBy self.new result }
    {
        self.stage = Stage::Ended;
        Taken::Nothing
    }
}

/// Whether a line may be the head of a diagnostic: it names a kind.
fn is_head(line: &str) -> bool {
    line.contains(": error: ") || line.contains(": warning: ") || line.contains(": note: ")
}

/// The number of a line of the file that the gutter of a line of output names.
fn named_number(line: &str) -> Option<usize>
    ensures { result ≡ number_named line.now }
{
    match gutter_of(line) {
        Some(gutter) => gutter.number,
        None => None,
    }
}

/// One change of a line.
pub(crate) fn one_fix<'a>(
    alloc: Global,
    line: usize,
    kind: FixKind,
    text: &'a str,
) -> Result<Vec<Fix<'a>>, AllocError>
    ensures { IfOk result (λ fixes.
        map change_told fixes.items ≡ change_of_line line kind text.now ∷ []) }
{
    let mut fixes = Vec::new(alloc);
    fixes.push(Fix {
        at: Point { line, offset: 0 },
        kind,
        text,
    })?;
    Ok(fixes)
}
