//! Diagnostics in one line of text, `FILE:LINE:COLUMN: KIND: MESSAGE`, as gcc, clang, shellcheck, mypy
//! and others write them; with the ranges of `clang -fdiagnostics-print-source-range-info`, if it has any.

ghost use Rattle.std.specs.Prelude.{◌≡◌, [], drop, option_map, MatchOption};
ghost use Rattle.std.specs.Path.{rsplit_once};
ghost use Rattle.std.specs.Str.{IsCharBoundary};
ghost use Rattle.ariadne_parse.specs.Heads as heads;
ghost use Rattle.ariadne_parse.specs.ParsedDiagnostics.{is_note as is_note_head};
ghost use Rattle.ariadne_parse.specs.ParsedLines.{head_parsed, kind_parsed, IsCutAtColon};

use crate::diagnostic::{Location, Severity};
use crate::kinds::{ParsedKind, own_kind, sure_kind};
use crate::locations::{behind_ranges, span, span_in_parens};
use crate::pieces::{
    begins_with, behind, closes_with, in_front_of, is_flush, past_blanks, split_at_last,
};

/// How many colons the name of a file may have, as in `C:\a.c`.
pub(crate) const COLONS: u8 = 8;

/// What a line tells, in pieces of it.
#[derive(Clone, Copy)]
pub(crate) struct ParsedLine<'a> {
    /// The file.
    pub file: &'a str,
    /// Where the line points. Its columns count as the tool's do.
    pub start: Location,
    /// Where the last character stands that it is about, if it says so.
    pub end: Option<Location>,
    /// Its ranges, and what stands behind them.
    pub ranges: &'a str,
    /// Its kind, and its code.
    pub kind: ParsedKind<'a>,
    /// What it says.
    pub message: &'a str,
}

impl ParsedLine<'_> {
    /// Whether it is a note about the diagnostic in front: it is named so, and has no code of its own; or its
    /// message goes on with that of the diagnostic.
    pub(crate) fn is_note(&self) -> bool
        ensures { result ≡ is_note_head (head_parsed self.now) }
    {
        self.kind.goes_on || self.kind.is_note && self.kind.code.is_none()
    }
}

/// What a line tells, if it is of this form. go vet begins some of its lines with its name.
///
/// The name of the file is not empty, and begins with no blank. Where no kind is named, there is a
/// column, and the name has a dot and no blank. One blank stands in front of what is said, which is
/// not empty but behind a known word.
#[tactic(auto, unfolding(crate::specs::Heads::head_of_line))]
pub(crate) fn line_parsed(line: &str) -> Option<ParsedLine<'_>>
    ensures { option_map head_parsed result ≡ heads.head_of_line line.now }
{
    match line.strip_prefix("vet: ") {
        Some(rest) => parsed_at_colon(rest),
        None => parsed_at_colon(line),
    }
}

/// What a line tells behind the first of its colons at which it tells something.
#[tactic(auto, unfolding(crate::specs::Heads::head_in))]
fn parsed_at_colon(line: &str) -> Option<ParsedLine<'_>>
    ensures { option_map head_parsed result ≡ heads.head_in line.now }
{
    let mut from = 0usize;
    for turn in 0..COLONS {
        let (file, text, next) = cut_at_colon(line, from)?;
        match parsed_behind(file, text) {
            Some(parsed) => return Some(parsed),
            None => from = next,
        }
    }
    None
}

/// What stands in front of the next colon, and behind it, and where that begins.
pub(crate) fn cut_at_colon(line: &str, from: usize) -> Option<(&str, &str, usize)>
    requires { IsCharBoundary line.now from }
    ensures { MatchOption result (heads.colons_from from (drop from line.now) ≡ []) (λ cut.
        IsCutAtColon line.now from cut.0.now cut.1.now cut.2) }
{
    let (front, behind) = line.get(from..)?.split_once(':')?;
    let at = from + front.len();
    Some((line.get(..at)?, behind, at + 1))
}

/// What stands in front of a colon and behind it.
#[tactic(auto, unfolding(crate::specs::Heads::head_behind))]
fn parsed_behind<'a>(front: &'a str, text: &'a str) -> Option<ParsedLine<'a>>
    ensures { option_map head_parsed result ≡ heads.head_behind front.now text.now }
{
    match parsed_behind_span(front, text) {
        Some(parsed) => Some(parsed),
        None => parsed_behind_parens(front, text),
    }
}

/// What stands behind a file and a span in parentheses, `FILE(LINE,COLUMN)`, and a colon.
#[tactic(auto, unfolding(crate::specs::Heads::head_behind_parens))]
fn parsed_behind_parens<'a>(front: &'a str, text: &'a str) -> Option<ParsedLine<'a>>
    ensures { option_map head_parsed result ≡ heads.head_behind_parens front.now text.now }
{
    let (file, start) = span_in_parens(front)?;
    parsed_said(file, start, None, text, said_in(text)?)
}

/// What stands behind the name of a file and its colon: a span, and what is said of it.
#[tactic(auto, unfolding(crate::specs::Heads::head_behind_span))]
fn parsed_behind_span<'a>(file: &'a str, text: &'a str) -> Option<ParsedLine<'a>>
    ensures { option_map head_parsed result ≡ heads.head_behind_span file.now text.now }
{
    let (start, end, rest) = span(text)?;
    let ranges = behind(rest, ':')?;
    let said = said_in(ranges)?;
    parsed_said(file, start, end, ranges, said)
}

/// What is said behind the ranges and one blank.
#[tactic(auto, unfolding(crate::specs::Heads::said_in))]
fn said_in(text: &str) -> Option<&str>
    ensures { option_map (λ said. said.now) result ≡ heads.said_in text.now }
{
    let said = behind(behind_ranges(text), ' ')?;
    if !is_flush(said) {
        return None;
    }
    Some(said)
}

/// What a line tells that says this of a span.
#[tactic(auto, unfolding(crate::specs::Heads::head_with, crate::specs::Heads::head_of))]
fn parsed_said<'a>(
    file: &'a str,
    start: Location,
    end: Option<Location>,
    ranges: &'a str,
    said: &'a str,
) -> Option<ParsedLine<'a>>
    ensures { option_map head_parsed result ≡ heads.head_with file.now (start, end) ranges.now said.now }
{
    let (kind, words) = kind_of(file, start, said)?;
    let (coded, behind) = with_code(kind, words);
    let message = message_kept(file, &kind, behind);
    if !is_parsed(&kind, message) || !is_flush(file) {
        return None;
    }
    Some(ParsedLine {
        file,
        start,
        end,
        ranges,
        kind: coded,
        message,
    })
}

/// Whether a message is told: it is not empty, or stands behind a known word.
fn is_parsed(kind: &ParsedKind<'_>, message: &str) -> bool
    ensures { result ≡ heads.is_parsed (kind_parsed kind.now) message.now }
{
    !message.is_empty() || is_plain(kind)
}

/// Whether a known word alone stands in the place of a kind, or nothing does.
fn is_plain(kind: &ParsedKind<'_>) -> bool
    ensures { result ≡ heads.is_plain (kind_parsed kind.now) }
{
    kind.name.is_none() && kind.code.is_none()
}

/// The kind of what is said of a span, and the words behind it. Where none is named, there has to be
/// a column, and the file has to be sure.
#[tactic(auto, unfolding(crate::specs::Heads::kind_of_said))]
fn kind_of<'a>(file: &str, start: Location, said: &'a str) -> Option<(ParsedKind<'a>, &'a str)>
    ensures { option_map (λ found. (kind_parsed found.0, found.1.now)) result
        ≡ heads.kind_of_said file.now start said.now }
{
    match named_kind(file, said) {
        Some((kind, words)) => Some((going_on(kind, words), words)),
        None => unnamed_kind(file, start, said),
    }
}

/// A kind, which goes on with the diagnostic in front where the words behind it begin with two blanks.
fn going_on<'a>(kind: ParsedKind<'a>, words: &str) -> ParsedKind<'a>
    ensures { kind_parsed result ≡ heads.going_on (kind_parsed kind.entry) words.now }
{
    ParsedKind {
        goes_on: is_plain(&kind) && begins_with(words, "  "),
        ..kind
    }
}

/// A message without the blanks in front of it, but where a tool of Python's shows by them what goes on with
/// what.
fn message_kept<'a>(file: &str, kind: &ParsedKind<'_>, words: &'a str) -> &'a str
    ensures { result.now ≡ heads.message_kept file.now (kind_parsed kind.now) words.now }
{
    let message = past_blanks(words);
    if keeps_blanks(file, kind) && !message.is_empty() {
        words
    } else {
        message
    }
}

/// Whether a note about a file of Python's is told, whose tools indent what notes go on with.
fn keeps_blanks(file: &str, kind: &ParsedKind<'_>) -> bool
    ensures { result ≡ heads.keeps_blanks file.now (kind_parsed kind.now) }
{
    kind.is_note && (closes_with(file, ".py") || closes_with(file, ".pyi"))
}

/// The kind that is named, and the message behind it.
#[tactic(auto, unfolding(crate::specs::Heads::named_kind_in))]
fn named_kind<'a>(file: &str, said: &'a str) -> Option<(ParsedKind<'a>, &'a str)>
    ensures { option_map (λ found. (kind_parsed found.0, found.1.now)) result
        ≡ heads.named_kind_in file.now said.now }
{
    match sure_kind(said) {
        Some(found) => Some(found),
        None if names_none(file, said) => None,
        None => own_kind(said),
    }
}

/// Whether a tool says this of a file that names no kinds: one of Go's, or eslint, whose codes tell them.
#[tactic(auto, unfolding(crate::specs::Heads::has_no_kind))]
fn names_none(file: &str, said: &str) -> bool
    ensures { result ≡ heads.has_no_kind file.now said.now }
{
    if closes_with(file, ".go") {
        return true;
    }
    match code_in(said) {
        Some((_, code)) => is_of_eslint(code),
        None => false,
    }
}

/// Whether a code tells a severity, as eslint's do.
fn is_of_eslint(code: &str) -> bool
    ensures { result ≡ heads.is_of_eslint code.now }
{
    begins_with(code, "Error") || begins_with(code, "Warning")
}

/// The kind where none is named, and the whole as its message.
#[tactic(auto, unfolding(crate::specs::Heads::unnamed_kind_in))]
fn unnamed_kind<'a>(file: &str, start: Location, said: &'a str) -> Option<(ParsedKind<'a>, &'a str)>
    ensures { option_map (λ found. (kind_parsed found.0, found.1.now)) result
        ≡ heads.unnamed_kind_in file.now start said.now }
{
    if !is_sure_file(file) || start.column.is_none() {
        return None;
    }
    let kind = ParsedKind {
        severity: severity_by_code(said),
        name: None,
        code: None,
        is_from_zero: false,
        has_characters: false,
        is_note: false,
        goes_on: false,
    };
    Some((kind, said))
}

/// Whether a name is sure to be that of a file: nothing else shows then that a line tells something.
fn is_sure_file(name: &str) -> bool
    ensures { result ≡ heads.is_sure_file name.now }
{
    name.as_bytes().contains(&b'.') && !name.as_bytes().contains(&b' ')
}

/// The severity that the code behind a message tells, where no kind is named.
#[tactic(auto, unfolding(crate::specs::Heads::severity_by_code))]
fn severity_by_code(said: &str) -> Severity
    ensures { result ≡ heads.severity_by_code (heads.code_behind said.now) }
{
    match code_in(said) {
        Some((_, code)) if begins_with(code, "Warning") => Severity::Warning,
        _ => Severity::Error,
    }
}

/// A kind with the code behind the message, if it has none itself, and the message without that.
fn with_code<'a>(kind: ParsedKind<'a>, words: &'a str) -> (ParsedKind<'a>, &'a str)
    ensures kind { kind_parsed result.0 ≡ heads.kind_with_code (kind_parsed kind.entry) words.now }
    ensures message { result.1.now ≡ heads.message_with (kind_parsed kind.entry) words.now }
{
    if kind.code.is_some() {
        return (kind, words);
    }
    match code_in(words) {
        Some((message, code)) => (
            ParsedKind {
                code: Some(code),
                ..kind
            },
            message,
        ),
        None => (kind, words),
    }
}

/// A message, and the code in brackets behind it.
#[tactic(auto, unfolding(crate::specs::Heads::code_in))]
pub fn code_in(words: &str) -> Option<(&str, &str)>
    ensures { option_map (λ parts. (parts.0.now, parts.1.now)) result ≡ heads.code_in words.now }
{
    let (message, last) = split_at_last(in_front_of(words, ']')?, ' ')?;
    let code = behind(last, '[')?;
    if code.is_empty() {
        return None;
    }
    Some((message.trim_end(), code))
}
