//! A diagnostic that lines tell by a matcher, as a report of the program's own form.

ghost use Rattle.std.specs.Prelude.{◌≡◌, ◌++◌, ◌∷◌, [], option_map, string_bytes, IfOk, OnOk};
ghost use Rattle.std.specs.Option.{option_copied};
ghost use Rattle.serde_json.specs.View.{members_view, view};
ghost use Rattle.serde_json.specs.Written.{compact_text};
ghost use Rattle.ariadne_matching.specs.MatchedReports.{column_behind as column_behind_line, end_column as column_of_end};
ghost use Rattle.ariadne_matching.specs.MatchedReports.{label_of, labels_of, kind_word as word_of_kind, report_of};
ghost use Rattle.ariadne_matching.specs.MatchedReports.{spot_of, with_code, with_end};

use ariadne_matchers::{End, Matched, Placed, Severity};
use ariadne_parse::Columns;
use serde_json::{Map, Value, put};
use std::alloc::{AllocError, Global};

/// The report of a diagnostic as a line of JSON, with its line feed. Its file is called as the tool called it; its
/// lines and columns count from 1, and columns count characters.
pub fn report_line(
    alloc: Global,
    matched: &Matched,
    placed: &Placed,
    file: &Columns,
) -> Result<String, AllocError>
    ensures { IfOk result (λ line.
        string_bytes line ≡ compact_text (report_of matched.now placed.now file.now) ++ 10 ∷ []) }
{
    let mut line = report(alloc, matched, placed, file)?.to_string(alloc)?;
    line.push_str("\n")?;
    Ok(line)
}

/// The report as a value.
fn report(
    alloc: Global,
    matched: &Matched,
    placed: &Placed,
    file: &Columns,
) -> Result<Value, AllocError>
    ensures { IfOk result (λ value. view value ≡ report_of matched.now placed.now file.now) }
{
    let kind = Value::try_from_str(alloc, kind_word(matched.severity))?;
    let message = Value::try_from_str(alloc, matched.message.as_str())?;
    let mut members = Map::new(alloc);
    put(&mut members, alloc, "kind", kind)?;
    put(
        &mut members,
        alloc,
        "labels",
        labels(alloc, matched, placed, file)?,
    )?;
    put(&mut members, alloc, "message", message)?;
    put_code(alloc, &mut members, matched.code.as_ref())?;
    Ok(Value::Object(members))
}

/// The word for a severity.
fn kind_word(severity: Severity) -> &'static str
    ensures { result.now ≡ word_of_kind severity }
{
    match severity {
        Severity::Error => "error",
        Severity::Warning => "warning",
        Severity::Note => "note",
    }
}

/// Puts a code into a report, if there is one.
fn put_code(
    alloc: Global,
    members: &mut Map<String, Value>,
    code: Option<&String>,
) -> Result<(), AllocError>
    ensures { OnOk result (members_view members.new.entries
        ≡ with_code (option_copied code.entry) (members_view members.old.entries)) }
{
    match code {
        Some(code) => put(
            members,
            alloc,
            "code",
            Value::try_from_str(alloc, code.as_str())?,
        ),
        None => Ok(()),
    }
}

/// The list of the label of a report.
fn labels(
    alloc: Global,
    matched: &Matched,
    placed: &Placed,
    file: &Columns,
) -> Result<Value, AllocError>
    ensures { IfOk result (λ value. view value ≡ labels_of matched.now placed.now file.now) }
{
    let mut all = Vec::new(alloc);
    all.push(label(alloc, matched, placed, file)?)?;
    Ok(Value::Array(all))
}

/// The label of a report: its file, its start, and its end, if one is told.
fn label(
    alloc: Global,
    matched: &Matched,
    placed: &Placed,
    file: &Columns,
) -> Result<Value, AllocError>
    ensures { IfOk result (λ value. view value ≡ label_of matched.now placed.now file.now) }
{
    let name = Value::try_from_str(alloc, matched.file.as_str())?;
    let start = spot(alloc, placed.line, placed.column)?;
    let mut members = Map::new(alloc);
    put(&mut members, alloc, "file", name)?;
    put(&mut members, alloc, "start", start)?;
    put_end(alloc, &mut members, placed.end, file)?;
    Ok(Value::Object(members))
}

/// Puts an end into a label, if there is one.
fn put_end(
    alloc: Global,
    members: &mut Map<String, Value>,
    end: Option<End>,
    file: &Columns,
) -> Result<(), AllocError>
    ensures { OnOk result (members_view members.new.entries
        ≡ with_end file.now end (members_view members.old.entries)) }
{
    match end {
        Some(end) => put(
            members,
            alloc,
            "end",
            spot(alloc, end.line, end_column(file, end))?,
        ),
        None => Ok(()),
    }
}

/// The column in front of which a label ends: the one behind its last line, where none is told.
fn end_column(file: &Columns, end: End) -> Option<usize>
    ensures { result ≡ column_of_end file.now end }
{
    match end.column {
        Some(column) => Some(column),
        None => column_behind(file, end.line),
    }
}

/// The column behind a line of a file, if it has the line.
fn column_behind(file: &Columns, line: usize) -> Option<usize>
    ensures { result ≡ column_behind_line file.now line }
{
    Some(file.line(line)?.len() + 1)
}

/// A line and a column, or a line alone.
fn spot(alloc: Global, line: usize, column: Option<usize>) -> Result<Value, AllocError>
    ensures { IfOk result (λ value. view value ≡ spot_of line column) }
{
    let mut numbers = Vec::new(alloc);
    numbers.push(Value::from(line))?;
    if let Some(column) = column {
        numbers.push(Value::from(column))?;
    }
    Ok(Value::Array(numbers))
}
