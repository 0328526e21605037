//! Problem matchers of VS Code, as people paste them: each is an entry, whose columns are those of an editor.

ghost use Rattle.std.specs.Prelude.{◌≡◌, [], ◌∷◌, codes, map, option_copied, unwrap_or, IfErr, IfOk, Some};
ghost use Rattle.std.specs.List.{AllZip, Any};
ghost use Rattle.serde_json.specs.View.{view};
ghost use Rattle.ariadne_matcher_tables.specs.Editors.{listed, name_at, often_by, say_message, text_at, truth_at, with_message, with_whole};
ghost use Rattle.ariadne_matcher_tables.specs.Editors.{AreEntriesAt, AreGroupsAt, AreRowsAt, IsEditorTable, IsEntryAt, IsGroupAt};
ghost use Rattle.ariadne_matcher_tables.specs.Editors.{IsOfEntries, IsOfEntry, IsOfEntryAt, IsOfGroups, IsOfMember, IsOfRow};
ghost use Rattle.ariadne_matcher_tables.specs.Editors.{IsRefusalAt, IsRowAt, IsSaidAt};
ghost use Rattle.ariadne_matcher_tables.specs.Options.{editor_severity_named};

use crate::entries::one;
use crate::patterns::{check_rows, compiled};
use crate::refusal::{Choices, Fault, Refusal, Wanted};
use crate::tables::push_entry;
use ariadne_matchers::entry::{Entry, Groups, Often, Row, Severity};
use ariadne_matchers::measure::{Measure, Unit};
use regex::Regex;
use serde_json::Value;
use std::alloc::{AllocError, Global};

/// The entries of a text in JSON.
pub(crate) fn editor_entries(alloc: Global, text: &str) -> Result<Vec<Entry>, Refusal>
    ensures entries { IfOk result (λ entries. IsEditorTable text.now entries.items) }
    ensures refusal { IfErr result (IsRefusalAt text.now) }
{
    match Value::from_str(alloc, text) {
        Ok(value) => each_entry(alloc, listed(value.get("problemMatcher").unwrap_or(&value))),
        Err(error) => Err(Refusal::of_json(alloc, &error)),
    }
}

/// The items of a list, or one value as a list.
fn listed(value: &Value) -> &[Value]
    ensures { map view result.now ≡ listed (view value.now) }
{
    match value.as_array() {
        Some(values) => values.as_slice(),
        None => std::slice::from_ref(value),
    }
}

/// The entries of a list.
fn each_entry(alloc: Global, given: &[Value]) -> Result<Vec<Entry>, Refusal>
    ensures entries { IfOk result (λ entries. AreEntriesAt (map view given.now) entries.items) }
    ensures refusal { IfErr result (IsOfEntries (map view given.now)) }
{
    let mut all = Vec::new(alloc);
    for (place, value) in given.iter().enumerate() {
        push_entry(&mut all, entry_at(alloc, place + 1, value)?)?;
    }
    Ok(all)
}

/// The entry of this number, from 1.
fn entry_at(alloc: Global, number: usize, given: &Value) -> Result<Entry, Refusal>
    ensures entry { IfOk result (IsEntryAt (view given.now)) }
    ensures refusal { IfErr result (IsOfEntryAt number (view given.now)) }
{
    match entry(alloc, given) {
        Ok(entry) => Ok(entry),
        Err(fault) => Err(Refusal::of_entry(alloc, number, name_of(given), fault)),
    }
}

/// The name of a problem matcher, or else its owner's.
fn name_of(given: &Value) -> Option<&str>
    ensures { option_copied result ≡ name_at (view given.now) }
{
    match said(given, "name") {
        Some(name) => Some(name),
        None => said(given, "owner"),
    }
}

/// A member, if it is a text.
fn said<'v>(given: &'v Value, name: &str) -> Option<&'v str>
    ensures { option_copied result ≡ text_at name.now (view given.now) }
{
    given.get(name)?.as_str()
}

/// The entry of a problem matcher.
fn entry(alloc: Global, given: &Value) -> Result<Entry, Fault>
    ensures entry { IfOk result (IsEntryAt (view given.now)) }
    ensures fault { IfErr result (IsOfEntry (view given.now)) }
{
    let mut entry = without_rows(alloc, given)?;
    entry.rows = rows(alloc, given)?;
    Ok(entry)
}

/// The entry of a problem matcher, but for its rows.
fn without_rows(alloc: Global, given: &Value) -> Result<Entry, Fault>
    ensures entry { IfOk result (IsSaidAt (view given.now)) }
    ensures fault { IfErr result (IsOfMember (view given.now)) }
{
    let name = name_of(given).unwrap_or("matcher");
    Ok(Entry {
        name: String::from_str(alloc, name)?,
        tools: one(alloc, name)?,
        rows: Vec::new(alloc),
        measure: Measure {
            unit: Unit::Utf16,
            tabs: 1,
        },
        first_column: 1,
        ends_at_last: false,
        severity: severity(alloc, given)?,
        message: None,
        join: String::from_str(alloc, "\n")?,
        is_escaped: false,
    })
}

/// The severity where no word tells it: that of errors where nothing else is said.
fn severity(alloc: Global, given: &Value) -> Result<Severity, Fault>
    ensures severity { IfOk result (λ severity. Some severity
        ≡ editor_severity_named (unwrap_or (text_at (codes "severity") (view given.now)) (codes "error"))) }
    ensures fault { IfErr result (IsOfMember (view given.now)) }
{
    let word = said(given, "severity").unwrap_or("error");
    match severity_of(word) {
        Some(severity) => Ok(severity),
        None => Err(Fault::choice(alloc, "severity", word, Choices::EditorSeverities)),
    }
}

/// The severity of this name.
fn severity_of(word: &str) -> Option<Severity>
    ensures { result ≡ editor_severity_named word.now }
{
    if word == "error" {
        Some(Severity::Error)
    } else if word == "warning" {
        Some(Severity::Warning)
    } else if word == "info" {
        Some(Severity::Note)
    } else {
        None
    }
}

/// The rows of a problem matcher. Where no group is the message, all that fits the last row is.
fn rows(alloc: Global, given: &Value) -> Result<Vec<Row>, Fault>
    ensures rows { IfOk result (λ rows. AreRowsAt (view given.now) rows.items) }
    ensures fault { IfErr result (IsOfEntry (view given.now)) }
{
    let Some(pattern) = given.get("pattern") else {
        return Err(Fault::Missing("pattern"));
    };
    let rows = with_message(each_row(alloc, listed(pattern))?)?;
    check_rows(rows.as_slice())?;
    Ok(rows)
}

/// Each row by itself.
fn each_row(alloc: Global, given: &[Value]) -> Result<Vec<Row>, Fault>
    ensures rows { IfOk result (λ rows. AllZip IsRowAt (map view given.now) rows.items) }
    ensures fault { IfErr result (λ fault. Any (λ row. IsOfRow row fault) (map view given.now)) }
{
    let mut rows = Vec::new(alloc);
    for value in given {
        rows.push(row(alloc, value)?)?;
    }
    Ok(rows)
}

/// Rows where a group is the message: all that fits the last row, if no other is. On `Err` there was no memory.
fn with_message(mut rows: Vec<Row>) -> Result<Vec<Row>, AllocError>
    ensures { IfOk result (λ told. told.items ≡ with_message rows.items) }
{
    if say_message(rows.as_slice()) {
        return Ok(rows);
    }
    match rows.pop() {
        Some(last) => {
            rows.push(whole(last))?;
            Ok(rows)
        }
        None => Ok(rows),
    }
}

/// Whether a group is the message.
fn say_message(rows: &[Row]) -> bool
    ensures { result ≡ say_message rows.now }
{
    rows.iter().any(|row| row.groups.message.is_some())
}

/// A row where all that fits is the message.
fn whole(row: Row) -> Row
    ensures { result ≡ with_whole row }
{
    let Row {
        often,
        pattern,
        groups,
    } = row;
    Row {
        often,
        pattern,
        groups: Groups {
            message: Some(0),
            ..groups
        },
    }
}

/// A row of a problem matcher.
fn row(alloc: Global, given: &Value) -> Result<Row, Fault>
    ensures row { IfOk result (IsRowAt (view given.now)) }
    ensures fault { IfErr result (IsOfRow (view given.now)) }
{
    let pattern = compiled(alloc, regexp(given)?)?;
    let groups = groups(given, &pattern)?;
    Ok(Row {
        often: often(given),
        pattern,
        groups,
    })
}

/// The text of a pattern.
fn regexp(given: &Value) -> Result<&str, Fault>
    ensures text { IfOk result (λ text. Some text.now ≡ text_at (codes "regexp") (view given.now)) }
    ensures fault { IfErr result (IsOfMember (view given.now)) }
{
    match given.get("regexp") {
        Some(value) => match value.as_str() {
            Some(text) => Ok(text),
            None => Err(Fault::Kind {
                member: "regexp",
                wanted: Wanted::Text,
            }),
        },
        None => Err(Fault::Missing("regexp")),
    }
}

/// How often a row fits: once, or each line that does tells a diagnostic.
fn often(given: &Value) -> Often
    ensures { result ≡ often_by (truth_at (codes "loop") (view given.now)) }
{
    match is_true(given) {
        Some(true) => Often::Loop,
        _ => Often::Once,
    }
}

/// Whether a row is a loop, if that is said.
fn is_true(given: &Value) -> Option<bool>
    ensures { result ≡ truth_at (codes "loop") (view given.now) }
{
    given.get("loop")?.as_bool()
}

/// The groups of a pattern, by their numbers.
fn groups(given: &Value, pattern: &Regex) -> Result<Groups, Fault>
    ensures groups { IfOk result (AreGroupsAt pattern.now (view given.now)) }
    ensures fault { IfErr result (IsOfGroups pattern.now (view given.now)) }
{
    Ok(Groups {
        file: group(given, "file", pattern)?,
        line: group(given, "line", pattern)?,
        column: group(given, "column", pattern)?,
        end_line: group(given, "endLine", pattern)?,
        end_column: group(given, "endColumn", pattern)?,
        location: group(given, "location", pattern)?,
        severity: group(given, "severity", pattern)?,
        code: group(given, "code", pattern)?,
        message: group(given, "message", pattern)?,
        quoted: None,
        marks: None,
    })
}

/// The group that a member names, if it is there.
fn group(given: &Value, member: &'static str, pattern: &Regex) -> Result<Option<usize>, Fault>
    ensures group { IfOk result (IsGroupAt pattern.now (view given.now) member.now) }
    ensures fault { IfErr result (IsOfGroups pattern.now (view given.now)) }
{
    let Some(value) = given.get(member) else {
        return Ok(None);
    };
    let Some(number) = value.as_u64() else {
        return Err(Fault::Kind {
            member,
            wanted: Wanted::Number,
        });
    };
    let groups = pattern.captures_len();
    if number < groups as u64 {
        Ok(Some(number as usize))
    } else {
        Err(Fault::NoGroup {
            member,
            number,
            groups: groups.saturating_sub(1),
        })
    }
}
