//! What is learned of the lines of a snippet.

/// A character of a file.
#[derive(Clone, Copy, PartialEq, Eq)]
pub struct Point {
    /// Its line, from 1.
    pub line: usize,
    /// The character in that line, from 0. The line's length is what ends the line.
    pub offset: usize,
}

/// What a run of marks covers, in one line. It is never empty: a mark behind the last character of a line
/// covers what ends the line.
#[derive(Clone, Copy)]
pub struct Mark<'a> {
    /// The first character.
    pub start: Point,
    /// The one behind the last.
    pub end: Point,
    /// The character at the first `^` of the run: a range beside the place has none.
    pub caret: Option<Point>,
    /// Whether the range of the last mark above it, in the line before, goes on with it.
    pub goes_on: bool,
    /// What is written behind the marks, in their row: nothing but in the form of rustc.
    pub text: &'a str,
}

/// A text below a mark.
#[derive(Clone, Copy)]
pub struct Label<'a> {
    /// The number of the mark, from 0, among the ranges that were taken last.
    pub mark: usize,
    /// The character that it stands below, where that is behind the mark's first: a range begins there which
    /// the mark covers too. Only rustc draws so.
    pub inner: Option<Point>,
    /// The text.
    pub text: &'a str,
}

/// What is to be done at a place.
#[derive(Clone, Copy)]
pub enum FixKind {
    /// The text is to stand there, in place of what is marked, or between what is there.
    Put,
    /// The text is to be a line in front of that line.
    PutLine,
    /// The line is to become the text.
    Become,
    /// What is marked is to be removed.
    Remove,
}

/// What a tool says is to be changed.
#[derive(Clone, Copy)]
pub struct Fix<'a> {
    /// Where.
    pub at: Point,
    /// How.
    pub kind: FixKind,
    /// What is to stand there.
    pub text: &'a str,
}

/// What a line of output is to a snippet.
#[derive(Drop)]
pub enum Taken<'a> {
    /// It is none of the snippet, which ended before it.
    NotOfSnippet,
    /// It is one of its lines, and says nothing of its own: a quoted line, bars, dots.
    Nothing,
    /// A row of marks: what they cover, in their order.
    Ranges(Vec<Mark<'a>>),
    /// A row of texts below marks.
    Labels(Vec<Label<'a>>),
    /// A stroke to the mark with this number, from 0, among the ranges that were taken last: its range begins
    /// here, in a line above.
    Begun(usize, Point),
    /// A row of what is to be changed.
    Fixes(Vec<Fix<'a>>),
    /// A note of the diagnostic.
    Note(&'a str),
    /// A help of the diagnostic.
    Help(&'a str),
    /// The note or help before it goes on.
    More(&'a str),
    /// The place, as `FILE:LINE:COLUMN`, that the note or help before it is about. The lines quoted next
    /// are of that file.
    At(&'a str),
    /// The lines quoted next are of the file of this place.
    Elsewhere(&'a str),
}
