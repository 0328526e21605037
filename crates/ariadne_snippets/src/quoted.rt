//! A quoted line, and the rows below it.

ghost use Rattle.std.specs.Prelude.{◌≡◌, ◌+◌, ◌^◌, ◌<◌, ◌≤◌, All, IfOk, IfSome, List, OnOk, map, ℕ};
ghost use Rattle.ariadne_snippets.specs.Marks.{runs_from, IsNear};
ghost use Rattle.ariadne_snippets.specs.Snippets.{caret_in, change_told, covered, extent_of};
ghost use Rattle.ariadne_snippets.specs.Snippets.{inner_at, insertion, is_inside, line_length};
ghost use Rattle.ariadne_snippets.specs.Snippets.{point_at as point_in};
ghost use Rattle.ariadne_snippets.specs.Snippets.{removal, AreMarksIn, ArePiecesIn, AreFixesIn};
ghost use Rattle.ariadne_snippets.specs.Snippets.{Covers, IsLabelIn, IsMarked, IsPartOf, IsSameLine};
ghost use Rattle.ariadne_snippets.specs.RowPieces.{IsIn};
ghost use Rattle.ariadne_snippets.specs.Snippets.{point_behind as point_past};

use crate::pieces::{begins_with, behind, number};
use crate::quote::{LAST_COLUMN, Quote};
use crate::rows::{
    Part, Piece, ROW_LENGTH, bar_column, bars_below, parts_of, pieces, pieces_at, row_bytes,
    run_at, text_behind_bars,
};
use crate::run::Run;
use crate::runs::{caret_column, runs_in};
use crate::taken::{Fix, FixKind, Label, Mark, Point};
use ariadne_parse::Unit;
use std::alloc::{AllocError, Global};

/// How long an operator is at most.
const OPERATOR_LENGTH: usize = 3;

/// A line that was quoted, and what was read below it.
#[derive(Drop)]
pub(crate) struct Quoted {
    /// Its number.
    pub(crate) number: usize,
    /// How it stands in its quote.
    pub(crate) quote: Quote,
    /// What the columns of the rows below it count.
    pub(crate) unit: Unit,
    /// How many columns further right than they stand what these rows have is meant.
    pub(crate) moved: usize,
    /// The runs of the marks below it.
    pub(crate) runs: Vec<Run>,
    /// The columns of the bars below these, under which texts are to come.
    pub(crate) bars: Vec<usize>,
}

impl Quoted {
    /// A line of which nothing below its quote was read.
    pub(crate) fn new(alloc: Global, number: usize, quote: Quote, unit: Unit) -> Quoted
        ensures number { result.number ≡ number }
        ensures quote { result.quote ≡ quote }
    {
        Quoted {
            number,
            quote,
            unit,
            moved: 0,
            runs: Vec::new(alloc),
            bars: Vec::new(alloc),
        }
    }

    /// Whether marks were read below it.
    pub(crate) fn is_marked(&self) -> bool {
        !self.runs.is_empty()
    }

    /// Whether the `^` of a row leads to a character of the line.
    pub(crate) fn leads_to(&self, unit: Unit, row: &str, character: usize) -> bool {
        match row_bytes(row) {
            Some(row) => self.quote.char_at(unit, caret_column(unit, row)) == character,
            None => false,
        }
    }

    /// How many columns further left than a character of the line the `^` of a row stands: none, where each
    /// character of the line has one column, whatever columns count.
    pub(crate) fn columns_short(&self, row: &str, character: usize) -> usize {
        match row_bytes(row) {
            Some(row) if !self.quote.is_ascii() => {
                let column = self.quote.column_of(self.unit, character);
                column.saturating_sub(caret_column(self.unit, row))
            }
            _ => 0,
        }
    }

    /// Whether the `^` of a row stands one column behind a character of the line.
    pub(crate) fn is_one_before(&self, row: &str, character: usize) -> bool {
        match row_bytes(row) {
            Some(row) => {
                let column = caret_column(self.unit, row);
                column > 0
                    && column.saturating_sub(1) == self.quote.column_of(self.unit, character)
                    && self.quote.char_at(self.unit, column) != character
            }
            None => false,
        }
    }

    /// The column in which a row of what is to be put there begins: behind the blank that clang writes in front of
    /// a line and its marks alone, where it names ranges in heads.
    pub(crate) fn put_start(&self) -> usize {
        let is_behind_blank = self.quote.column_of(self.unit, 0) == 1;
        self.moved.saturating_add(usize::from(is_behind_blank))
    }

    /// The point of the line in a column.
    pub(crate) fn point_at(&self, column: usize) -> Point
        requires { column < 2 ^ 63 }
        ensures { result ≡ point_in self.now column }
    {
        Point {
            line: self.number,
            offset: self.quote.char_at(self.unit, column),
        }
    }

    /// The point behind the character in front of a column.
    fn point_behind(&self, column: usize) -> Point
        requires { column < 2 ^ 63 }
        ensures point { result ≡ point_past self.now column }
        ensures bound { result.offset ≤ line_length self.now + 1 }
    {
        let last = self.quote.char_at(self.unit, column.saturating_sub(1));
        Point {
            line: self.number,
            offset: last.saturating_add(1),
        }
    }

    /// Takes a row of marks: nothing, if it is too long.
    pub(crate) fn take_marks<'a>(
        &mut self,
        alloc: Global,
        row: &'a str,
    ) -> Result<Option<Vec<Mark<'a>>>, AllocError>
        ensures line { IsSameLine self.old self.new }
        ensures marks { IfOk result (λ marks. IfSome marks (λ marks.
            AreMarksIn self.new row.now marks.items)) }
    {
        let part = Part {
            column: self.moved,
            marks: row,
            text: "",
        };
        self.take_parts(alloc, &[part])
    }

    /// Takes a row of marks, with what is written behind them: nothing, if it is too long.
    pub(crate) fn take_written<'a>(
        &mut self,
        alloc: Global,
        row: &'a str,
    ) -> Result<Option<Vec<Mark<'a>>>, AllocError>
        ensures line { IsSameLine self.old self.new }
        ensures marks { IfOk result (λ marks. IfSome marks (λ marks.
            AreMarksIn self.new row.now marks.items)) }
    {
        let parts = parts_of(alloc, self.moved, row)?;
        self.take_parts(alloc, parts.as_slice())
    }

    /// Takes the parts of a row of marks, each with what is written behind it: nothing, if the row is too
    /// long. A text is that of the last mark of its part.
    fn take_parts<'a>(
        &mut self,
        alloc: Global,
        parts: &[Part<'a>],
    ) -> Result<Option<Vec<Mark<'a>>>, AllocError>
        ensures line { IsSameLine self.old self.new }
        ensures marks { (row : List ℕ) → All (IsPartOf self.old.moved row) parts.now
            → IfOk result (λ marks. IfSome marks (λ marks. AreMarksIn self.new row marks.items)) }
    {
        let mut runs = Vec::new(alloc);
        let mut marks = Vec::new(alloc);
        for part in parts {
            let Some(mut own) = runs_of_part(alloc, self.unit, part)? else {
                return Ok(None);
            };
            let mut covered = self.marks_of(alloc, own.as_slice(), part.text)?;
            marks.append(&mut covered)?;
            runs.append(&mut own)?;
        }
        self.runs = runs;
        self.bars.clear();
        Ok(Some(marks))
    }

    /// What runs cover. The text is that of the last.
    fn marks_of<'a>(
        &self,
        alloc: Global,
        runs: &[Run],
        text: &'a str,
    ) -> Result<Vec<Mark<'a>>, AllocError>
        requires { All IsNear runs.now }
        ensures marks { IfOk result (λ marks.
            map extent_of marks.items ≡ map (covered self.now) runs.now) }
        ensures cover { IfOk result (λ marks. All (Covers self.now) marks.items) }
    {
        let mut marks = Vec::new(alloc);
        for (place, run) in runs.iter().enumerate() {
            let is_last = place + 1 == runs.len();
            marks.push(self.mark_of(run, if_last(is_last, text)))?;
        }
        Ok(marks)
    }

    /// What a run covers, and what is written behind it.
    fn mark_of<'a>(&self, run: &Run, text: &'a str) -> Mark<'a>
        requires { IsNear run.now }
        ensures covers { extent_of result ≡ covered self.now run.now }
        ensures cover { Covers self.now result }
    {
        Mark {
            start: self.point_at(run.start),
            end: self.point_behind(run.end),
            caret: self.caret_of(run),
            goes_on: false,
            text,
        }
    }

    /// The point at the first `^` of a run, if it has one.
    fn caret_of(&self, run: &Run) -> Option<Point>
        requires { IsNear run.now }
        ensures { result ≡ caret_in self.now run.now.caret }
    {
        match run.caret {
            Some(column) => Some(self.point_at(column)),
            None => None,
        }
    }

    /// Whether a mark begins where the line does, and is no place of its own.
    pub(crate) fn is_begun_by(&self, mark: &Mark<'_>) -> bool {
        mark.start.offset == self.quote.ink_start() && mark.caret.is_none()
    }

    /// Whether a mark reaches the end of the line, and is no place of its own: an operator has three
    /// characters at most.
    pub(crate) fn is_ended_by(&self, mark: &Mark<'_>) -> bool {
        let length = mark.end.offset.saturating_sub(mark.start.offset);
        mark.end.offset >= self.quote.ink_end()
            && (mark.caret.is_none() || length > OPERATOR_LENGTH)
    }

    /// Takes a row of bars: those below marks.
    pub(crate) fn take_bars(&mut self, alloc: Global, row: &str) -> Result<(), AllocError>
        ensures { IsSameLine self.old self.new }
    {
        self.bars = bars_below(alloc, self.unit, row, self.runs.as_slice())?;
        Ok(())
    }

    /// Takes the labels of a row, if its texts begin below bars, and these below marks.
    pub(crate) fn take_labels<'a>(
        &mut self,
        alloc: Global,
        row: &'a str,
    ) -> Result<Option<Vec<Label<'a>>>, AllocError>
        ensures line { IsSameLine self.old self.new }
        ensures labels { IfOk result (λ labels. IfSome labels (λ labels.
            All (IsLabelIn self.new.runs.items (inner_at self.new) row.now) labels.items)) }
    {
        let Some(pieces) = self.texts_below(alloc, row)? else {
            return Ok(None);
        };
        let mut labels = Vec::new(alloc);
        let mut bars = Vec::new(alloc);
        let mut place = 0usize;
        for piece in pieces.as_slice() {
            let below = self.below_bar(place, piece);
            self.push_piece(&mut labels, &mut bars, &below)?;
            place = place.saturating_add(1);
        }
        self.bars = bars;
        Ok(Some(labels))
    }

    /// The texts of a row, one below each bar, if it has no other. As many that tell events as there are bars may
    /// stand elsewhere: in colours gcc moves those behind the first to the left.
    fn texts_below<'a>(
        &self,
        alloc: Global,
        row: &'a str,
    ) -> Result<Option<Vec<Piece<'a>>>, AllocError>
        ensures { IfOk result (λ pieces. IfSome pieces (λ pieces. ArePiecesIn row.now pieces.items)) }
    {
        let texts = pieces(alloc, self.unit, 0, row)?;
        if texts.len() == self.bars.len() && are_events(texts.as_slice()) {
            return Ok(Some(texts));
        }
        pieces_at(alloc, self.unit, row, self.bars.as_slice())
    }

    /// A text in the column of the bar with a number, from 0.
    fn below_bar<'a>(&self, place: usize, piece: &Piece<'a>) -> Piece<'a>
        ensures { result.text.now ≡ piece.now.text.now }
    {
        match self.bars.get(place) {
            Some(column) => Piece {
                column: *column,
                text: piece.text,
            },
            None => *piece,
        }
    }

    /// Where the mark begins above the last bar of a row, if that ends in one and a mark stands there.
    pub(crate) fn mark_above(&self, row: &str) -> Option<Point> {
        let run = self.runs.get(self.run_above(row)?)?;
        Some(self.point_at(run.start.min(LAST_COLUMN)))
    }

    /// The number of the mark above the last bar of a row, if that ends in one and a mark stands there.
    pub(crate) fn run_above(&self, row: &str) -> Option<usize>
        ensures { IfSome result (λ mark. IsMarked self.now mark) }
    {
        run_at(self.runs.as_slice(), bar_column(self.unit, row)?)
    }

    /// The further label of a mark that has one already, if a row is that: its text begins where the mark
    /// does, and no bar stands above it.
    pub(crate) fn further_label<'a>(&self, row: &'a str) -> Option<Label<'a>>
        ensures { IfSome result (λ label. IsLabelIn self.now.runs.items (inner_at self.now) row.now label) }
    {
        let piece = text_behind_bars(self.unit, row);
        if self.bars.contains(&piece.column) || !self.begins_run(piece.column) {
            return None;
        }
        self.label_of(&piece)
    }

    /// The label of a mark that a row is which tells an event of gcc's analyzer: where a mark has more than
    /// one, no bar stands above the others.
    pub(crate) fn event_label<'a>(&self, row: &'a str) -> Option<Label<'a>>
        ensures { IfSome result (λ label. IsLabelIn self.now.runs.items (inner_at self.now) row.now label) }
    {
        let piece = text_behind_bars(self.unit, row);
        if !tells_event(piece.text) {
            return None;
        }
        self.label_of(&piece)
    }

    /// Whether a run of marks begins in a column.
    fn begins_run(&self, column: usize) -> bool {
        self.runs.iter().any(|run| run.start == column)
    }

    /// Adds what a text is: a bar, or the label of a mark above it.
    fn push_piece<'a>(
        &self,
        labels: &mut Vec<Label<'a>>,
        bars: &mut Vec<usize>,
        piece: &Piece<'a>,
    ) -> Result<(), AllocError>
        ensures { OnOk result ((row : List ℕ) → IsIn piece.now.text.now row
            → All (IsLabelIn self.now.runs.items (inner_at self.now) row) labels.old.items
            → All (IsLabelIn self.now.runs.items (inner_at self.now) row) labels.new.items) }
    {
        if piece.text == "|" {
            bars.push(piece.column)?;
            return Ok(());
        }
        if let Some(label) = self.label_of(piece) {
            labels.push(label)?;
        }
        Ok(())
    }

    /// The label that a text is, if a mark stands above it.
    fn label_of<'a>(&self, piece: &Piece<'a>) -> Option<Label<'a>>
        ensures { (row : List ℕ) → IsIn piece.now.text.now row
            → IfSome result (λ label. IsLabelIn self.now.runs.items (inner_at self.now) row label) }
    {
        match run_at(self.runs.as_slice(), piece.column) {
            Some(mark) => Some(Label {
                mark,
                inner: self.inner_at(mark, piece.column),
                text: piece.text,
            }),
            None => None,
        }
    }

    /// The point in a column, if a range begins there that a mark covers with others in front.
    fn inner_at(&self, mark: usize, column: usize) -> Option<Point>
        ensures { result ≡ inner_at self.now mark column }
    {
        match self.runs.get(mark) {
            Some(run) if is_inside(run, column) => Some(self.point_at(column.min(LAST_COLUMN))),
            _ => None,
        }
    }

    /// What texts say is to be put below them.
    pub(crate) fn fixes_of<'a>(
        &self,
        alloc: Global,
        pieces: &[Piece<'a>],
    ) -> Result<Vec<Fix<'a>>, AllocError>
        ensures { IfOk result (λ fixes.
            map change_told fixes.items ≡ map (insertion self.now) pieces.now) }
    {
        let mut fixes = Vec::new(alloc);
        for piece in pieces {
            fixes.push(self.insertion_of(piece))?;
        }
        Ok(fixes)
    }

    /// What a text says is to be put above it.
    fn insertion_of<'a>(&self, piece: &Piece<'a>) -> Fix<'a>
        ensures { change_told result ≡ insertion self.now piece.now }
    {
        Fix {
            at: self.point_at(piece.column.min(LAST_COLUMN)),
            kind: FixKind::Put,
            text: piece.text,
        }
    }

    /// What a row of `-` says is to be removed: nothing, if it is too long.
    pub(crate) fn removals_in<'a>(
        &self,
        alloc: Global,
        row: &str,
    ) -> Result<Vec<Fix<'a>>, AllocError>
        ensures { IfOk result (λ fixes. AreFixesIn self.now row.now fixes.items) }
    {
        let mut fixes = Vec::new(alloc);
        let Some(row) = row_bytes(row) else {
            return Ok(fixes);
        };
        let runs = runs_in(alloc, self.unit, 0, row)?;
        for run in runs.as_slice() {
            fixes.push(self.removal_of(run))?;
        }
        Ok(fixes)
    }

    /// What a run says is to be removed.
    fn removal_of<'a>(&self, run: &Run) -> Fix<'a>
        requires { IsNear run.now }
        ensures { change_told result ≡ removal self.now run.now }
    {
        Fix {
            at: self.point_at(run.start),
            kind: FixKind::Remove,
            text: "",
        }
    }

    /// Whether texts below plain marks may be what is to be put there: they begin in columns of the line,
    /// and behind a blank, or with one word below a mark.
    pub(crate) fn may_have_fixes(&self, row: &str, pieces: &[Piece<'_>]) -> bool {
        match (pieces.first(), pieces.last()) {
            (Some(first), Some(last)) => {
                self.quote.has(self.unit, first.column, last.column)
                    && (row.starts_with(' ') || self.is_word_below(first))
            }
            _ => false,
        }
    }

    /// Whether a text is one word, and begins below a mark.
    fn is_word_below(&self, piece: &Piece<'_>) -> bool {
        !piece.text.contains(' ') && run_at(self.runs.as_slice(), piece.column).is_some()
    }
}

/// The runs of a part of a row: nothing, if it is too long, or stands too far behind.
fn runs_of_part(alloc: Global, unit: Unit, part: &Part<'_>) -> Result<Option<Vec<Run>>, AllocError>
    ensures runs { IfOk result (λ runs. IfSome runs (λ runs.
        runs.items ≡ runs_from unit part.now.column part.now.marks.now)) }
    ensures near { IfOk result (λ runs. IfSome runs (λ runs. All IsNear runs.items)) }
{
    match row_bytes(part.marks) {
        Some(marks) if part.column < ROW_LENGTH => {
            Ok(Some(runs_in(alloc, unit, part.column, marks)?))
        }
        _ => Ok(None),
    }
}

/// Whether a range may begin in a column of a run, behind its first: rustc draws bars below the first character
/// of a range, and other tools below carets.
fn is_inside(run: &Run, column: usize) -> bool
    ensures { result ≡ is_inside run.now column }
{
    let has_caret = match run.caret {
        Some(caret) => caret < column,
        None => false,
    };
    run.start < column && (run.is_dashed || has_caret)
}

/// Whether all texts tell events, or are bars, and there is one.
fn are_events(texts: &[Piece<'_>]) -> bool {
    !texts.is_empty()
        && texts
            .iter()
            .all(|piece| piece.text == "|" || tells_event(piece.text))
}

/// Whether a text tells an event: it begins with its number in brackets, `(4) freed here`.
fn tells_event(text: &str) -> bool {
    match behind(text, '(') {
        Some(rest) => match number(rest) {
            Some((_, rest)) => begins_with(rest, ") "),
            None => false,
        },
        None => false,
    }
}

/// The text of the last mark: the others have none.
fn if_last(is_last: bool, text: &str) -> &str {
    if is_last { text } else { "" }
}
