//! What the words of the command line can ask for.

use ariadne_parse::{Reading, Severity};

/// `--color`: when there are colours.
#[derive(Clone, Copy)]
pub enum Colors {
    /// As the environment asks for them, and else at a terminal.
    Auto,
    /// Always.
    Always,
    /// Never.
    Never,
}

/// `--output`: the form in which diagnostics are written.
#[derive(Clone, Copy)]
pub enum Output {
    /// A picture over its files.
    Picture,
    /// One line.
    Short,
    /// A command of a GitHub workflow, which puts it beside its line.
    Github,
    /// A result in a SARIF log, which is written at the end.
    Sarif,
}

/// `--width`: how many columns the rows of a picture may take.
#[derive(Clone, Copy)]
pub enum Width {
    /// As many as a terminal has, where the environment says how many that are.
    Auto,
    /// Any number: lines are shown whole.
    Full,
    /// So many.
    Columns(usize),
}

/// `--fail-on`: which diagnostics the status tells of.
#[derive(Clone, Copy)]
pub enum FailOn {
    /// Errors.
    Error,
    /// Errors and warnings.
    Warning,
    /// None.
    Never,
}

/// How diagnostics are drawn.
#[derive(Clone, Copy)]
pub struct Style {
    /// Whether there are colours.
    pub is_colored: bool,
    /// `--ascii`: whether strokes are ASCII.
    pub is_ascii: bool,
    /// `--compact`: whether the pictures have fewer rows and columns.
    pub is_compact: bool,
    /// `--context`: how many lines are shown above and below each line with a label.
    pub context_lines: usize,
    /// How many columns the rows of a picture may take. 0 is any number.
    pub width: usize,
}

/// What the options ask for.
#[derive(Clone, Copy)]
pub struct Options<'a> {
    /// How lines are read.
    pub reading: Reading,
    /// How diagnostics are drawn. Whether there are colours is not decided yet, nor how wide rows are.
    pub style: Style,
    /// When there are colours.
    pub colors: Colors,
    /// How many columns the rows of a picture may take.
    pub width: Width,
    /// In which form diagnostics are written.
    pub output: Output,
    /// `--raw`: whether a line that tells nothing is written as it is, with what a terminal obeys.
    pub is_raw: bool,
    /// `--severity`: the least severe diagnostics that are drawn. Others are counted alone.
    pub floor: Severity,
    /// `--max`: how many diagnostics are drawn at most.
    pub limit: Option<usize>,
    /// Which diagnostics the status tells of.
    pub fail_on: FailOn,
    /// `--base`: the folder in which files are looked for, and which no file that is read may lie
    /// outside of.
    pub base: Option<&'a str>,
    /// `--tool`: the tool whose lines alone are read by matchers.
    pub tool: Option<&'a str>,
    /// `--matcher`: the file with people's own matchers.
    pub matcher: Option<&'a str>,
}

/// Where diagnostics are read from.
#[derive(Clone, Copy)]
pub enum Input<'a> {
    /// Standard input.
    Standard,
    /// The file at this path.
    File(&'a str),
}
