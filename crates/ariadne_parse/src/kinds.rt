//! What stands in the place of a kind, in front of a message: `warning:`, `[warning]`, `error TS2322:`,
//! `E501`, or a word of the tool's own.

ghost use Rattle.std.specs.Prelude.{◌≡◌, ◌<◌, ◌≤◌, length, option_map};
ghost use Rattle.std.specs.Char.{is_ascii_digit, is_ascii_uppercase};
ghost use Rattle.std.specs.List.{list_all, prefix_len};
ghost use Rattle.std.specs.Option.{unwrap_or};
ghost use Rattle.ariadne_parse.specs.Kinds as kinds;
ghost use Rattle.ariadne_parse.specs.TextPieces as pieces;
ghost use Rattle.ariadne_parse.specs.ParsedLines.{kind_parsed};

use crate::diagnostic::Severity;
use crate::names::{is_named, is_own_name};
use crate::pieces::{begins_with, behind, in_front_of, split_at_last, split_once};

/// What the span of a kind tells, in pieces of the line.
#[derive(Clone, Copy)]
pub(crate) struct ParsedKind<'a> {
    /// How bad the diagnostic is.
    pub severity: Severity,
    /// Its word, where that says more than the severity.
    pub name: Option<&'a str>,
    /// The code that stands there.
    pub code: Option<&'a str>,
    /// Whether the columns of its line count from 0, as pylint's do.
    pub is_from_zero: bool,
    /// Whether the columns of its line count characters, as pylint's do for what looks at characters.
    pub has_characters: bool,
    /// Whether its word is `note`: it may be about the diagnostic in front.
    pub is_note: bool,
    /// Whether its message begins with two blanks: it goes on with the diagnostic in front, as g++'s do.
    pub goes_on: bool,
}

/// What is sure to be a kind, and the message behind it.
#[tactic(auto, unfolding(crate::specs::Kinds::sure_kind_in))]
pub(crate) fn sure_kind(said: &str) -> Option<(ParsedKind<'_>, &str)>
    ensures { option_map (λ found. (kind_parsed found.0, found.1.now)) result ≡ kinds.sure_kind_in said.now }
{
    if let Some(found) = kind_at_colon(said) {
        return Some(found);
    }
    if let Some(found) = kind_in_brackets(said, '[', ']') {
        return Some(found);
    }
    if let Some(found) = kind_in_brackets(said, '(', ')') {
        return Some(found);
    }
    code_at_blank(said)
}

/// A kind in front of the first colon, which a blank follows, and the message behind it.
#[tactic(auto, unfolding(crate::specs::Kinds::kind_at_colon))]
fn kind_at_colon(said: &str) -> Option<(ParsedKind<'_>, &str)>
    ensures { option_map (λ found. (kind_parsed found.0, found.1.now)) result ≡ kinds.kind_at_colon said.now }
{
    let (front, rest) = split_once(said, ':')?;
    let kind = kind_in_front(front)?;
    Some((kind, behind(rest, ' ')?))
}

/// The kind that a text is: a known one, or a code.
#[tactic(auto, unfolding(crate::specs::Kinds::kind_in_front))]
fn kind_in_front(text: &str) -> Option<ParsedKind<'_>>
    ensures { option_map kind_parsed result ≡ kinds.kind_in_front text.now }
{
    match known_kind(text) {
        Some(kind) => Some(kind),
        None => kind_by_code(text, is_of_pylint(text)),
    }
}

/// A kind in brackets, behind which a colon may stand, and the message behind it.
#[tactic(auto, unfolding(crate::specs::Kinds::kind_in_brackets))]
fn kind_in_brackets(said: &str, opened: char, closed: char) -> Option<(ParsedKind<'_>, &str)>
    requires opened { opened < 128 }
    requires closed { closed < 128 }
    ensures { option_map (λ found. (kind_parsed found.0, found.1.now)) result
        ≡ kinds.kind_in_brackets opened closed said.now }
{
    let (inside, rest) = split_once(behind(said, opened)?, closed)?;
    let kind = kind_inside(inside)?;
    Some((kind, behind(past_colon(rest), ' ')?))
}

/// What stands behind a colon, if a text begins with one.
fn past_colon(text: &str) -> &str
    ensures { result.now ≡ unwrap_or (pieces.behind 58 text.now) text.now }
{
    match behind(text, ':') {
        Some(rest) => rest,
        None => text,
    }
}

/// The kind that a text in brackets is: a known one, or a code, behind which more may stand in
/// parentheses, as in pylint's `[C0303(trailing-whitespace), ]`.
#[tactic(auto, unfolding(crate::specs::Kinds::kind_inside))]
fn kind_inside(text: &str) -> Option<ParsedKind<'_>>
    ensures { option_map kind_parsed result ≡ kinds.kind_inside text.now }
{
    if let Some(kind) = known_kind(text) {
        return Some(kind);
    }
    match split_once(text, '(') {
        Some((code, _)) => kind_by_code(code, false),
        None => kind_by_code(text, false),
    }
}

/// A code in front of the first blank, and the message behind it.
#[tactic(auto, unfolding(crate::specs::Kinds::code_at_blank))]
fn code_at_blank(said: &str) -> Option<(ParsedKind<'_>, &str)>
    ensures { option_map (λ found. (kind_parsed found.0, found.1.now)) result
        ≡ kinds.code_at_blank said.now }
{
    let (code, words) = split_once(said, ' ')?;
    Some((kind_by_code(code, false)?, words))
}

/// The known kind that a text is: `NAME`, `NAME[CODE]`, `NAME(CODE)` or `NAME CODE`.
#[tactic(auto, unfolding(crate::specs::Kinds::known_kind))]
fn known_kind(text: &str) -> Option<ParsedKind<'_>>
    ensures { option_map kind_parsed result ≡ kinds.known_kind text.now }
{
    if let Some(kind) = kind_by_name(text, None) {
        return Some(kind);
    }
    let (name, code) = name_and_code(text)?;
    kind_by_name(name.trim_end(), Some(code))
}

/// The kind with this name, and its code.
#[tactic(auto, unfolding(crate::specs::Kinds::kind_by_name))]
fn kind_by_name<'a>(name: &'a str, code: Option<&'a str>) -> Option<ParsedKind<'a>>
    ensures { option_map kind_parsed result
        ≡ kinds.kind_by_name name.now (option_map (λ code. code.now) code.entry) }
{
    Some(ParsedKind {
        severity: Severity::of(name)?,
        name: if is_own_name(name) { Some(name) } else { None },
        code,
        is_from_zero: false,
        has_characters: false,
        is_note: is_named(name, "note"),
        goes_on: false,
    })
}

/// A name, and the code behind it.
#[tactic(auto, unfolding(crate::specs::Kinds::name_and_code))]
fn name_and_code(text: &str) -> Option<(&str, &str)>
    ensures { option_map (λ parts. (parts.0.now, parts.1.now)) result ≡ kinds.name_and_code text.now }
{
    if let Some(parts) = code_in_brackets(text, '[', ']') {
        return Some(parts);
    }
    match code_in_brackets(text, '(', ')') {
        Some(parts) => Some(parts),
        None => code_behind_blank(text),
    }
}

/// A name, and a code in brackets behind it.
#[tactic(auto, unfolding(crate::specs::Kinds::code_in_brackets))]
fn code_in_brackets(text: &str, opened: char, closed: char) -> Option<(&str, &str)>
    requires opened { opened < 128 }
    requires closed { closed < 128 }
    ensures { option_map (λ parts. (parts.0.now, parts.1.now)) result
        ≡ kinds.code_in_brackets opened closed text.now }
{
    let (name, code) = split_once(in_front_of(text, closed)?, opened)?;
    if is_solid(code) {
        Some((name, code))
    } else {
        None
    }
}

/// Whether a text is not empty, and has no blank.
fn is_solid(text: &str) -> bool
    ensures { result ≡ kinds.is_solid text.now }
{
    !text.is_empty() && !text.as_bytes().contains(&b' ')
}

/// A name, and a code behind a blank.
#[tactic(auto, unfolding(crate::specs::Kinds::code_behind_blank))]
fn code_behind_blank(text: &str) -> Option<(&str, &str)>
    ensures { option_map (λ parts. (parts.0.now, parts.1.now)) result ≡ kinds.code_behind_blank text.now }
{
    let (name, code) = split_at_last(text, ' ')?;
    if is_code(code) {
        Some((name, code))
    } else {
        None
    }
}

/// The kind that a code alone tells, if a text is one. Those of pylint's tell what its columns count.
#[tactic(auto, unfolding(crate::specs::Kinds::kind_by_code))]
fn kind_by_code(code: &str, is_of_pylint: bool) -> Option<ParsedKind<'_>>
    ensures { option_map kind_parsed result ≡ kinds.kind_by_code is_of_pylint code.now }
{
    if !is_code(code) {
        return None;
    }
    let is_from_one = counts_from_one(code);
    Some(ParsedKind {
        severity: severity_by_letter(code),
        name: None,
        code: Some(code),
        is_from_zero: is_of_pylint && !is_from_one,
        has_characters: is_of_pylint && (is_from_one || is_of_characters(code)),
        is_note: false,
        goes_on: false,
    })
}

/// Whether pylint's columns of a code are those of Python, which count characters from 1.
fn counts_from_one(code: &str) -> bool
    ensures { result ≡ kinds.counts_from_one code.now }
{
    begins_with(code, "E0001") || begins_with(code, "E251")
}

/// Whether a code of pylint's looks at characters of a line: blanks at its end, comments, and escapes in
/// strings.
fn is_of_characters(code: &str) -> bool
    ensures { result ≡ kinds.is_of_characters code.now }
{
    begins_with(code, "C0303")
        || begins_with(code, "W0511")
        || begins_with(code, "W1401")
        || begins_with(code, "W1402")
}

/// Whether a text is capital letters and three digits or more.
#[tactic(auto, unfolding(crate::specs::Kinds::is_code))]
fn is_code(text: &str) -> bool
    ensures { result ≡ kinds.is_code text.now }
{
    let letters = capitals(text.as_bytes());
    let digits = &text.as_bytes()[letters..];
    letters > 0 && digits.len() > 2 && are_digits(digits)
}

/// Whether each of these bytes is a digit.
fn are_digits(bytes: &[u8]) -> bool
    ensures { result ≡ list_all is_ascii_digit bytes.now }
{
    bytes.iter().all(|byte| byte.is_ascii_digit())
}

/// How many capital letters bytes begin with.
fn capitals(bytes: &[u8]) -> usize
    ensures count { result ≡ prefix_len is_ascii_uppercase bytes.now }
    ensures bound { result ≤ length bytes.now }
{
    bytes
        .iter()
        .take_while(|byte| byte.is_ascii_uppercase())
        .count()
}

/// Whether a code has pylint's form: one letter, and four digits.
fn is_of_pylint(code: &str) -> bool
    ensures { result ≡ kinds.is_of_pylint code.now }
{
    code.len() == 5 && capitals(code.as_bytes()) == 1
}

/// The severity that the first letter of a code tells.
#[tactic(auto, unfolding(crate::specs::Kinds::severity_by_letter))]
fn severity_by_letter(code: &str) -> Severity
    ensures { result ≡ kinds.severity_by_letter code.now }
{
    match code.as_bytes().first() {
        Some(b'E' | b'F') => Severity::Error,
        Some(b'C' | b'I' | b'R') => Severity::Note,
        Some(_) | None => Severity::Warning,
    }
}

/// A word of the tool's own in front of the first colon, which a blank follows, and the message behind
/// it.
#[tactic(auto, unfolding(crate::specs::Kinds::own_kind_in))]
pub(crate) fn own_kind(said: &str) -> Option<(ParsedKind<'_>, &str)>
    ensures { option_map (λ found. (kind_parsed found.0, found.1.now)) result ≡ kinds.own_kind_in said.now }
{
    let (word, rest) = split_once(said, ':')?;
    let kind = kind_by_word(word)?;
    Some((kind, behind(rest, ' ')?))
}

/// The kind that a word names: a warning, or where it is one letter, what codes with that letter are.
#[tactic(auto, unfolding(crate::specs::Kinds::kind_by_word))]
fn kind_by_word(word: &str) -> Option<ParsedKind<'_>>
    ensures { option_map kind_parsed result ≡ kinds.kind_by_word word.now }
{
    if !is_word(word) {
        return None;
    }
    let severity = match word.len() {
        1 => severity_by_letter(word),
        _ => Severity::Warning,
    };
    Some(ParsedKind {
        severity,
        name: Some(word),
        code: None,
        is_from_zero: false,
        has_characters: false,
        is_note: false,
        goes_on: false,
    })
}

/// Whether a text is one word: letters, digits, `-` and `_`, and a letter first.
#[tactic(auto, unfolding(crate::specs::Kinds::is_word))]
fn is_word(text: &str) -> bool
    ensures { result ≡ kinds.is_word text.now }
{
    match text.as_bytes() {
        [first, rest @ ..] => first.is_ascii_alphabetic() && are_of_word(rest),
        [] => false,
    }
}

/// Whether each of these bytes may stand in a word.
fn are_of_word(bytes: &[u8]) -> bool
    ensures { result ≡ list_all kinds.is_of_word bytes.now }
{
    bytes.iter().all(|byte| byte.is_ascii_alphanumeric() || *byte == b'-' || *byte == b'_')
}
