//! People's own tables, and what is wrong with them.

ghost use Rattle.std.specs.Prelude.{ℕ, ◌≡◌, ◌||◌, true, List, is_some, option_map, IfOk, IfSome};
ghost use Rattle.ariadne_matchers.specs.Readers.{entries_in};
ghost use Rattle.ariadne_matching.specs.OwnTables.{HasWordsBehind, IsOwnTable, IsTableIn};
ghost use Rattle.ariadne_matching.specs.TriedMatchers.{has_own, has_programs, own_entries};

use crate::matchers::Matchers;
use ariadne_matcher_tables::{
    Fault as TableFault, Refusal, builtin_text, table_from_json, table_from_toml,
};
use ariadne_matchers::{Table, Word};
use ariadne_safe::{TextKind, visible};
use ariadne_show::Fault;
use std::alloc::{AllocError, Global};
use std::io::ErrorKind;
use std::rt::Files;
use std::{fs, io};

/// What stands in front of each entry of a table in TOML.
const ENTRY: &str = "[[matcher]]";

/// The table of people's own: that of the file at a path, if one is named, with the program's words for severities
/// behind its own.
///
/// On `Err` the file can't be read, or is no table, or there was no memory.
pub fn own_table<R: Files>(files: &R, alloc: Global, path: Option<&str>) -> Result<Table, Fault>
    ensures { IfOk result (IsOwnTable (is_some path.entry)) }
{
    match path {
        Some(path) => with_words(alloc, read_table(files, alloc, path)?),
        None => Ok(Table {
            entries: Vec::new(alloc),
            words: Vec::new(alloc),
        }),
    }
}

/// The matchers of people's own table and of the program's; of both those that read a tool's lines, if one is named.
///
/// On `Err` none reads them, or there was no memory.
pub fn matchers_of<'t>(
    alloc: Global,
    own: &'t Table,
    tool: Option<&'t str>,
) -> Result<Matchers<'t>, Fault>
    ensures own { IfOk result (λ matchers. own_entries matchers ≡ entries_in (option_map (λ tool. tool.now) tool.entry) own.now) }
    ensures some { IfOk result (λ matchers. IfSome tool.entry (λ _. (has_own matchers || has_programs matchers) ≡ true)) }
{
    let mut matchers = Matchers::new(alloc, own, tool)?;
    match tool {
        Some(tool) if !matchers.has_entries(alloc)? => Err(no_tool(alloc, tool)?),
        _ => Ok(matchers),
    }
}

/// The table in the file at a path.
fn read_table<R: Files>(files: &R, alloc: Global, path: &str) -> Result<Table, Fault>
    ensures { IfOk result (λ table. (text : List ℕ) × IsTableIn text table) }
{
    match fs::read_to_string(&(files, alloc), path) {
        Ok(text) => table_in(alloc, path, text.as_str()),
        Err(error) => Err(unread(alloc, path, &error)?),
    }
}

/// The table that the text of the file at a path is.
fn table_in(alloc: Global, path: &str, text: &str) -> Result<Table, Fault>
    ensures { IfOk result (IsTableIn text.now) }
{
    match table_of(alloc, text) {
        Ok(table) => Ok(table),
        Err(refusal) => {
            let fault = refused(alloc, path, text, &refusal);
            drop(refusal);
            Err(fault?)
        }
    }
}

/// The table that a text is, in JSON or in TOML.
fn table_of(alloc: Global, text: &str) -> Result<Table, Refusal>
    ensures { IfOk result (IsTableIn text.now) }
{
    if is_json(text) {
        table_from_json(alloc, text)
    } else {
        table_from_toml(alloc, text)
    }
}

/// Whether a text begins as JSON: with an object, or a list of objects.
fn is_json(text: &str) -> bool {
    let text = text.trim_start();
    match text.strip_prefix('[') {
        Some(rest) => rest.trim_start().starts_with('{'),
        None => text.starts_with('{'),
    }
}

/// A table with the program's words for severities behind its own.
fn with_words(alloc: Global, table: Table) -> Result<Table, Fault>
    ensures { IfOk result (HasWordsBehind table) }
{
    let mut table = table;
    table.add(Table {
        entries: Vec::new(alloc),
        words: builtin_words(alloc)?,
    })?;
    Ok(table)
}

/// The program's words for severities.
fn builtin_words(alloc: Global) -> Result<Vec<Word>, AllocError> {
    let mut text = String::from_str(alloc, "matcher = []\n")?;
    text.push_str(builtin_text().split(ENTRY).next().unwrap_or(""))?;
    match table_from_toml(alloc, text.as_str()) {
        Ok(table) => Ok(table.words),
        Err(_) => Err(AllocError),
    }
}

/// That a file of one's own can't be read. On `Err` there was no memory, or the error says so.
fn unread(alloc: Global, path: &str, error: &io::Error) -> Result<Fault, AllocError> {
    if error.kind() == ErrorKind::OutOfMemory {
        return Err(AllocError);
    }
    let path = visible(alloc, path, TextKind::OneRow)?;
    Ok(Fault::Words {
        text: format!(in alloc; "{path}: {error}")?,
    })
}

/// That a file of one's own is no table: the file, the line at fault, if one is known, and what is wrong.
fn refused(alloc: Global, path: &str, text: &str, refusal: &Refusal) -> Result<Fault, AllocError> {
    let said = match refusal {
        Refusal::Memory(_) => return Err(AllocError),
        Refusal::Text { what, .. } => format!(in alloc; "{what}")?,
        other => format!(in alloc; "{other}")?,
    };
    let told = match line_at_fault(text, refusal) {
        Some(line) => format!(in alloc; "{path}:{line}: {said}")?,
        None => format!(in alloc; "{path}: {said}")?,
    };
    Ok(Fault::Words {
        text: visible(alloc, told.as_str(), TextKind::Aside)?,
    })
}

/// The line at fault, from 1: that of the fault, or that with the name of the entry that has it.
fn line_at_fault(text: &str, refusal: &Refusal) -> Option<usize> {
    match refusal {
        Refusal::Text { line, .. } => Some(*line),
        Refusal::Entry { name, fault } => {
            line_of_name(text, name.as_str(), matches!(fault, TableFault::Again))
        }
        _ => None,
    }
}

/// The first line that names an entry, from 1, or the last one.
fn line_of_name(text: &str, name: &str, is_last: bool) -> Option<usize> {
    let mut found = None;
    for (place, line) in text.split('\n').enumerate() {
        if names_entry(line, name) && (is_last || found.is_none()) {
            found = Some(place.saturating_add(1));
        }
    }
    found
}

/// Whether a line names an entry: by `name`, or by `owner` as editors do.
fn names_entry(line: &str, name: &str) -> bool {
    let is_quoted = is_between(line, name, '"') || is_between(line, name, '\'');
    is_quoted && (line.contains("name") || line.contains("owner"))
}

/// Whether a text stands in a line between these quotes.
fn is_between(line: &str, text: &str, quote: char) -> bool {
    line.split(quote).any(|part| part == text)
}

/// That no matcher reads the lines of a tool.
fn no_tool(alloc: Global, tool: &str) -> Result<Fault, AllocError> {
    let tool = visible(alloc, tool, TextKind::OneRow)?;
    Ok(Fault::Words {
        text: format!(in alloc; "no matcher for the tool '{tool}'")?,
    })
}
