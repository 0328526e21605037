//! An entry of a table: the rows that lines of a tool fit, and how these are read.

use crate::measure::Measure;
use regex::Regex;

/// How bad a diagnostic is.
#[derive(Clone, Copy)]
pub enum Severity {
    /// It stops the tool, or makes it fail.
    Error,
    /// It may be a mistake.
    Warning,
    /// It only says something.
    Note,
}

/// A word by which tools name a severity, in any case of letters.
#[derive(Drop)]
pub struct Word {
    /// The word.
    pub text: String,
    /// The severity.
    pub severity: Severity,
}

/// How many lines a row may fit.
#[derive(Clone, Copy)]
pub enum Often {
    /// One line.
    Once,
    /// One line, or none.
    Maybe,
    /// As many as fit, or none.
    Many,
    /// One line. The row is the last one, and each further line that fits it tells one more diagnostic.
    Loop,
}

/// The groups of a pattern, by what they catch. Group 0 is all that fits.
#[derive(Clone, Copy)]
pub struct Groups {
    /// The name of the file.
    pub file: Option<usize>,
    /// The line.
    pub line: Option<usize>,
    /// The column.
    pub column: Option<usize>,
    /// The line of the end.
    pub end_line: Option<usize>,
    /// The column of the end.
    pub end_column: Option<usize>,
    /// `LINE`, `LINE,COLUMN`, or both twice.
    pub location: Option<usize>,
    /// The word for the severity.
    pub severity: Option<usize>,
    /// The code.
    pub code: Option<usize>,
    /// A row of the message.
    pub message: Option<usize>,
    /// What the line has of the file's line.
    pub quoted: Option<usize>,
    /// The marks below what was quoted.
    pub marks: Option<usize>,
}

/// A row of an entry.
#[derive(Drop)]
pub struct Row {
    /// How many lines it may fit.
    pub often: Often,
    /// What they look like.
    pub pattern: Regex,
    /// What its groups catch.
    pub groups: Groups,
}

/// An entry of a table.
#[derive(Drop)]
pub struct Entry {
    /// What it is called.
    pub name: String,
    /// The tools whose lines it reads.
    pub tools: Vec<String>,
    /// Its rows, in the order of the lines.
    pub rows: Vec<Row>,
    /// What columns count.
    pub measure: Measure,
    /// The number of a line's first column.
    pub first_column: u32,
    /// Whether an end is the last character's column, and not the one behind it.
    pub ends_at_last: bool,
    /// The severity where no word tells it.
    pub severity: Severity,
    /// The message where none is told.
    pub message: Option<String>,
    /// What stands between the rows of a message.
    pub join: String,
    /// Whether `%25`, `%0A` and the like stand for characters of the message and the file.
    pub is_escaped: bool,
}
