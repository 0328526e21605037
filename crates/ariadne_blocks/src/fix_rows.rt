//! Rows that tell programs what to put where, `fix-it:"a.c":{4:17-4:22}:"field"`, as changes of the diagnostic that
//! they stand behind.

ghost use Rattle.std.specs.Prelude.{◌≡◌, ◌==◌, ◌++◌, ◌∷◌, ℕ, List, IfOk, option_map, string_bytes};
ghost use Rattle.std.specs.List.{list_any};
ghost use Rattle.ariadne_parse.specs.FixRows.{fix_row_parsed};
ghost use Rattle.ariadne_parse.specs.TextPieces.{in_front_of, in_front_of_text};
ghost use Rattle.ariadne_parse.specs.Proposed.{edit_of};
ghost use Rattle.ariadne_blocks.specs.FixChanges as rows;
ghost use Rattle.ariadne_blocks.specs.ProposedByRows.{edit_with};

use crate::events::closes_with;
use ariadne_parse::{Change, FixRow};
use ariadne_snippets::{Fix, FixKind, Point};
use std::alloc::{AllocError, Global};

/// A change that rows below a line have told: in which line it is, and whether that only removes something.
#[derive(Clone, Copy)]
pub(crate) struct ParsedChange {
    /// The line.
    pub(crate) line: usize,
    /// Whether something is removed.
    pub(crate) is_removal: bool,
}

impl ParsedChange {
    /// That of a fix.
    pub(crate) fn of(fix: &Fix<'_>) -> ParsedChange
        ensures { result ≡ rows.parsed_change fix.now }
    {
        ParsedChange {
            line: fix.at.line,
            is_removal: is_removal(fix.kind),
        }
    }

    /// Whether it is in the line of a fix, and removes something where that does.
    fn is_like(self, fix: &Fix<'_>) -> bool
        ensures { result ≡ rows.is_like fix.now.at.line fix.now.kind self }
    {
        self.line == fix.at.line && self.is_removal == is_removal(fix.kind)
    }
}

/// Whether a kind of fix removes something.
fn is_removal(kind: FixKind) -> bool
    ensures { result ≡ rows.is_removal kind }
{
    match kind {
        FixKind::Remove => true,
        FixKind::Put | FixKind::PutLine | FixKind::Become => false,
    }
}

/// Whether what a row says is told by one of these: below a line gcc and clang show all that they put there, but no
/// text of several lines.
pub(crate) fn is_parsed(changes: &[ParsedChange], fix: &Fix<'_>) -> bool
    ensures { result ≡ rows.is_parsed_in changes.now fix.now.at.line fix.now.kind fix.now.text.now }
{
    !has_line_feed(fix.text) && has_like(changes, fix)
}

/// Whether one of these is in the line of a fix, and removes something where that does.
fn has_like(changes: &[ParsedChange], fix: &Fix<'_>) -> bool
    ensures { result ≡ list_any (rows.is_like fix.now.at.line fix.now.kind) changes.now }
{
    changes.iter().any(|change| change.is_like(fix))
}

/// Whether a text has a line feed.
fn has_line_feed(text: &str) -> bool
    ensures { result ≡ list_any (λ c. c == 10) text.now }
{
    text.as_bytes().contains(&b'\n')
}

/// Whether a path is that of a file that a tool names: below a folder, or as it is named.
pub(crate) fn is_path_of(path: &str, file: &str) -> bool
    ensures { result ≡ rows.is_path_of path.now file.now }
{
    match in_front(path, file) {
        Some(folder) => folder.is_empty() || closes_with(folder, "/"),
        None => false,
    }
}

/// What stands in front of a text that another ends with.
fn in_front<'t>(text: &'t str, end: &str) -> Option<&'t str>
    ensures { option_map (λ front. front.now) result ≡ in_front_of_text end.now text.now }
{
    text.strip_suffix(end)
}

/// What a row says is to be changed, which has this text without escapes. Its column is the row's own.
pub(crate) fn fix_of<'a>(row: &FixRow<'_>, text: &'a str) -> Fix<'a>
    ensures line { result.at.line ≡ row.now.start.line }
    ensures kind { (result.kind, result.text.now) ≡ rows.kind_of (fix_row_parsed row.now) text.now }
{
    let (kind, text) = kind_of(row, text);
    let at = Point {
        line: row.start.line,
        offset: 0,
    };
    Fix { at, kind, text }
}

/// The change that a row tells, which has this text without escapes.
pub(crate) fn change_of(alloc: Global, row: &FixRow<'_>, text: &str) -> Result<Change, AllocError>
    ensures { IfOk result (λ change. edit_of change ≡ edit_with (fix_row_parsed row.now) text.now) }
{
    Ok(Change {
        start: row.start,
        end: row.end,
        put_in: String::from_str(alloc, text)?,
    })
}

/// What kind of fix a row is, and its text: a line where it ends one, and takes the place of nothing at its start.
fn kind_of<'a>(row: &FixRow<'_>, text: &'a str) -> (FixKind, &'a str)
    ensures { (result.0, result.1.now) ≡ rows.kind_of (fix_row_parsed row.now) text.now }
{
    if text.is_empty() {
        return (FixKind::Remove, text);
    }
    match in_front_of_feed(text) {
        Some(line) if is_at_line(row) => (FixKind::PutLine, line),
        _ => (FixKind::Put, text),
    }
}

/// What stands in front of the line feed that a text ends with.
fn in_front_of_feed(text: &str) -> Option<&str>
    ensures { option_map (λ line. line.now) result ≡ in_front_of 10 text.now }
{
    text.strip_suffix('\n')
}

/// Whether a row takes the place of nothing, at the start of its line.
fn is_at_line(row: &FixRow<'_>) -> bool
    ensures { result ≡ rows.is_at_line (fix_row_parsed row.now) }
{
    row.start == row.end && matches!(row.start.column, Some(1))
}

/// The column of a row, from 1, in bytes.
pub(crate) fn column_of(row: &FixRow<'_>) -> usize
    ensures { result ≡ rows.column_of (fix_row_parsed row.now) }
{
    row.start.column.unwrap_or(1)
}

/// How far an escape was read.
#[derive(Clone, Copy)]
enum Escape {
    /// None is open.
    Closed,
    /// Its backslash.
    Open,
    /// The backslash, and the first of three octal digits, which have this value so far.
    Digit(u8),
    /// The backslash and two of the digits.
    Digits(u8),
}

/// A text without its escapes: `\n`, `\t`, three octal digits for a byte, or the character itself. What is no UTF-8
/// then is U+FFFD. On `Err` there was no memory for it.
pub(crate) fn unescaped(alloc: Global, text: &str) -> Result<String, AllocError>
    ensures { IfOk result (λ plain. string_bytes plain ≡ rows.unescaped text.now) }
{
    let bytes = plain_bytes(alloc, text.as_bytes())?;
    String::from_utf8_lossy(alloc, bytes.as_slice())
}

/// The bytes of a text without its escapes.
fn plain_bytes(alloc: Global, text: &[u8]) -> Result<Vec<u8>, AllocError>
    ensures { IfOk result (λ bytes. bytes.items ≡ rows.plain_bytes text.now) }
{
    let mut bytes = Vec::new(alloc);
    let mut escape = Escape::Closed;
    for byte in text {
        escape = push_byte(&mut bytes, escape, *byte)?;
    }
    Ok(bytes)
}

/// Adds what a byte stands for behind an escape that was read so far, and returns how far one is read then.
fn push_byte(bytes: &mut Vec<u8>, escape: Escape, byte: u8) -> Result<Escape, AllocError>
    ensures { IfOk result (λ next. (rest : List ℕ)
        → bytes.new.items ++ rows.bytes_behind next rest ≡ bytes.old.items ++ rows.bytes_behind escape (byte ∷ rest)) }
{
    match escape {
        Escape::Closed if byte == b'\\' => return Ok(Escape::Open),
        Escape::Closed => bytes.push(byte)?,
        Escape::Open if is_first_digit(byte) => return Ok(Escape::Digit(byte.saturating_sub(b'0'))),
        Escape::Open => bytes.push(meant(byte))?,
        Escape::Digit(value) => return Ok(Escape::Digits(with_digit(value, byte))),
        Escape::Digits(value) => bytes.push(with_digit(value, byte))?,
    }
    Ok(Escape::Closed)
}

/// Whether a byte is the first octal digit of a byte.
fn is_first_digit(byte: u8) -> bool
    ensures { result ≡ rows.is_first_digit byte }
{
    matches!(byte, b'0'..=b'3')
}

/// What a letter behind a backslash means.
fn meant(letter: u8) -> u8
    ensures { result ≡ rows.meant letter }
{
    match letter {
        b'n' => b'\n',
        b't' => b'\t',
        other => other,
    }
}

/// A value with an octal digit more. It never passes 255 where the digits are octal, of which the first is 3 at most.
fn with_digit(value: u8, digit: u8) -> u8
    ensures { result ≡ rows.with_digit value digit }
{
    value
        .saturating_mul(8)
        .saturating_add(digit.saturating_sub(b'0'))
}
