//! The rows of an entry: patterns, how often they may fit, and what their groups catch.

ghost use Rattle.std.specs.Prelude.{◌≡◌, map, option_map, string_bytes, true, IfErr, IfOk, OnOk};
ghost use Rattle.regex.specs.Names.{names_of};
ghost use Rattle.regex.specs.Strings.{regex_names};
ghost use Rattle.std.specs.List.{list_all, list_any, AllZip};
ghost use Rattle.toml.specs.View.{view};
ghost use Rattle.ariadne_matcher_tables.specs.Patterns.{are_ordered, given_row, is_known, is_looped, is_whole, lone_member};
ghost use Rattle.ariadne_matcher_tables.specs.Patterns.{often_named, take_file, take_line, takes_line_in, AreGroupsNamed};
ghost use Rattle.ariadne_matcher_tables.specs.Patterns.{AreInOrder, IsOfGroups, IsOfOrder, IsOfPattern, IsOfRow, IsOfRows};
ghost use Rattle.ariadne_matcher_tables.specs.Patterns.{IsOfSource, IsRowOf};

use crate::members::is_among;
use crate::refusal::Fault;
use ariadne_matchers::entry::{Groups, Often, Row};
use regex::Regex;
use std::alloc::{AllocError, Global};
use toml::Value;

/// The names of groups.
const NAMES: [&str; 10] = [
    "file",
    "line",
    "column",
    "endLine",
    "endColumn",
    "severity",
    "code",
    "message",
    "quoted",
    "marks",
];

/// The rows of an entry in TOML.
pub(crate) fn rows(alloc: Global, given: &[Value]) -> Result<Vec<Row>, Fault>
    ensures rows { IfOk result (λ rows. AllZip IsRowOf (map view given.now) rows.items) }
    ensures order { IfOk result (λ rows. AreInOrder rows.items) }
    ensures fault { IfErr result (IsOfRows (map view given.now)) }
{
    let rows = each_row(alloc, given)?;
    check_rows(rows.as_slice())?;
    Ok(rows)
}

/// Each row by itself.
fn each_row(alloc: Global, given: &[Value]) -> Result<Vec<Row>, Fault>
    ensures rows { IfOk result (λ rows. AllZip IsRowOf (map view given.now) rows.items) }
    ensures fault { IfErr result (IsOfRows (map view given.now)) }
{
    let mut rows = Vec::new(alloc);
    for value in given {
        rows.push(row(alloc, value)?)?;
    }
    Ok(rows)
}

/// A row of an entry in TOML: a pattern, or a table of one, whose name says how often it may fit.
fn row(alloc: Global, given: &Value) -> Result<Row, Fault>
    ensures row { IfOk result (IsRowOf (view given.now)) }
    ensures fault { IfErr result (IsOfRow (view given.now)) }
{
    let Some((often, text)) = given_row(given) else {
        return Err(Fault::Row);
    };
    if !is_whole(text) {
        return Err(Fault::Part(String::from_str(alloc, text)?));
    }
    let pattern = compiled(alloc, text)?;
    check_groups(alloc, pattern.capture_names())?;
    Ok(Row {
        often,
        groups: groups(&pattern),
        pattern,
    })
}

/// How often a row may fit, and its pattern's text.
#[tactic(auto, unfolding(crate::specs::Patterns::given_row))]
fn given_row(given: &Value) -> Option<(Often, &str)>
    ensures { option_map (λ row. (row.0, row.1.now)) result ≡ given_row (view given.now) }
{
    if let Some(text) = given.as_str() {
        return Some((Often::Once, text));
    }
    let (name, text) = lone_member(given)?;
    Some((often_of(name)?, text))
}

/// The only member of a table, if it is a text: its name, and the text.
fn lone_member(given: &Value) -> Option<(&str, &str)>
    ensures { option_map (λ named. (named.0.now, named.1.now)) result ≡ lone_member (view given.now) }
{
    let members = given.as_table()?;
    if members.len() != 1 {
        return None;
    }
    let (name, value) = members.first_key_value()?;
    Some((name.as_str(), value.as_str()?))
}

/// How often a row of this name fits.
fn often_of(name: &str) -> Option<Often>
    ensures { result ≡ often_named name.now }
{
    if name == "once" {
        Some(Often::Once)
    } else if name == "maybe" {
        Some(Often::Maybe)
    } else if name == "many" {
        Some(Often::Many)
    } else if name == "loop" {
        Some(Often::Loop)
    } else {
        None
    }
}

/// Whether a pattern begins with `^`, and ends with `$`.
fn is_whole(text: &str) -> bool
    ensures { result ≡ is_whole text.now }
{
    let bytes = text.as_bytes();
    1 < bytes.len() && bytes[0] == b'^' && bytes[bytes.len() - 1] == b'$'
}

/// A pattern by its text.
pub(crate) fn compiled(alloc: Global, text: &str) -> Result<Regex, Fault>
    ensures pattern { IfOk result (IsOfSource text.now) }
    ensures fault { IfErr result (IsOfPattern text.now) }
{
    match Regex::new(alloc, text) {
        Ok(pattern) => Ok(pattern),
        Err(regex::Error::OutOfMemory) => Err(Fault::Memory(AllocError)),
        Err(error) => Err(Fault::Pattern {
            pattern: String::from_str(alloc, text)?,
            error,
        }),
    }
}

/// The groups of a pattern, by their names.
fn groups(pattern: &Regex) -> Groups
    ensures { AreGroupsNamed (regex_names pattern.now) result }
{
    Groups {
        file: pattern.capture_index("file"),
        line: pattern.capture_index("line"),
        column: pattern.capture_index("column"),
        end_line: pattern.capture_index("endLine"),
        end_column: pattern.capture_index("endColumn"),
        location: None,
        severity: pattern.capture_index("severity"),
        code: pattern.capture_index("code"),
        message: pattern.capture_index("message"),
        quoted: pattern.capture_index("quoted"),
        marks: pattern.capture_index("marks"),
    }
}

/// Whether each group has no name, or one that says what it catches.
fn check_groups(alloc: Global, names: &[Option<String>]) -> Result<(), Fault>
    ensures known { OnOk result (list_all is_known (names_of names.now) ≡ true) }
    ensures fault { IfErr result (IsOfGroups (names_of names.now)) }
{
    for name in names {
        if let Some(name) = name {
            if !is_among(&NAMES, name.as_str()) {
                return Err(Fault::Group(String::from_str(alloc, name.as_str())?));
            }
        }
    }
    Ok(())
}

/// Whether rows stand in an order that they may have, and take a file and a line.
pub(crate) fn check_rows(rows: &[Row]) -> Result<(), Fault>
    ensures order { OnOk result (AreInOrder rows.now) }
    ensures fault { IfErr result (IsOfOrder rows.now) }
{
    if !are_in_order(rows) {
        return Err(Fault::Order);
    }
    if !take_file(rows) {
        return Err(Fault::NoFile);
    }
    if !take_line(rows) {
        return Err(Fault::NoLine);
    }
    Ok(())
}

/// Whether the first row stands once, and no loop in front of the last.
fn are_in_order(rows: &[Row]) -> bool
    ensures { result ≡ are_ordered rows.now }
{
    match rows {
        [first, others @ ..] => {
            matches!(first.often, Often::Once)
                && !have_loop(&others[..others.len().saturating_sub(1)])
        }
        [] => false,
    }
}

/// Whether a row is a loop.
fn have_loop(rows: &[Row]) -> bool
    ensures { result ≡ list_any (λ row. is_looped row.often) rows.now }
{
    rows.iter().any(|row| matches!(row.often, Often::Loop))
}

/// Whether a row takes a file.
fn take_file(rows: &[Row]) -> bool
    ensures { result ≡ take_file rows.now }
{
    rows.iter().any(|row| row.groups.file.is_some())
}

/// Whether a row takes a line.
fn take_line(rows: &[Row]) -> bool
    ensures { result ≡ take_line rows.now }
{
    rows.iter().any(takes_line)
}

/// Whether a row takes a line.
fn takes_line(row: &Row) -> bool
    ensures { result ≡ takes_line_in row.now.groups }
{
    row.groups.line.is_some() || row.groups.location.is_some()
}
