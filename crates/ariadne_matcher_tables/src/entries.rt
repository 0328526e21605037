//! The entries and the words of a table in TOML.

ghost use Rattle.std.specs.Prelude.{◌≡◌, [], ◌∷◌, codes, map, option_and_then, option_copied, string_bytes, unwrap_or};
ghost use Rattle.std.specs.Prelude.{IfErr, IfOk, Some};
ghost use Rattle.toml.specs.Data.{get};
ghost use Rattle.toml.specs.View.{view};
ghost use Rattle.ariadne_matcher_tables.specs.EntryFaults.{IsOfMember};
ghost use Rattle.ariadne_matcher_tables.specs.TableMembers.{text_at};
ghost use Rattle.ariadne_matcher_tables.specs.MatcherTables.{tools_in, word_told, words_at, words_for, words_in, AreEntries, AreEntriesOf};
ghost use Rattle.ariadne_matcher_tables.specs.MatcherTables.{AreItsRows, IsEntryOf, IsOfEntries, IsOfEntry, IsOfEntryAt, IsOfEntryRows};
ghost use Rattle.ariadne_matcher_tables.specs.MatcherTables.{IsOfTable, IsOfTableWords, IsOfWords, IsSaidOf};

use crate::members::{check_names, copied_text, list, needed_text, number, texts};
use crate::options::{ends_at_last, is_escaped, measure, severity};
use crate::patterns::rows;
use crate::refusal::{Fault, Refusal, Wanted};
use crate::tables::push_entry;
use ariadne_matchers::entry::{Entry, Row, Severity, Word};
use std::alloc::{AllocError, Global};
use toml::Value;

/// The members of a table.
pub(crate) const TABLE_MEMBERS: [&str; 2] = ["matcher", "severities"];

/// The members of its words for severities.
const WORD_MEMBERS: [&str; 3] = ["error", "warning", "note"];

/// The members of an entry.
const MEMBERS: [&str; 13] = [
    "name",
    "tool",
    "rows",
    "columns",
    "tabs",
    "first-column",
    "end",
    "severity",
    "message",
    "join",
    "escapes",
    "example",
    "drawn",
];

/// The entries of a table.
pub(crate) fn entries(alloc: Global, given: &Value) -> Result<Vec<Entry>, Refusal>
    ensures entries { IfOk result (λ entries. AreEntriesOf (view given.now) entries.items) }
    ensures refusal { IfErr result (IsOfTable (view given.now)) }
{
    match list(given, "matcher") {
        Ok(values) => each_entry(alloc, values),
        Err(fault) => Err(Refusal::of_whole(fault)),
    }
}

/// The entries of a list.
fn each_entry(alloc: Global, given: &[Value]) -> Result<Vec<Entry>, Refusal>
    ensures entries { IfOk result (λ entries. AreEntries (map view given.now) entries.items) }
    ensures refusal { IfErr result (IsOfEntries (map view given.now)) }
{
    let mut all = Vec::new(alloc);
    for (place, value) in given.iter().enumerate() {
        push_entry(&mut all, entry_at(alloc, place + 1, value)?)?;
    }
    Ok(all)
}

/// The entry of this number, from 1.
fn entry_at(alloc: Global, number: usize, given: &Value) -> Result<Entry, Refusal>
    ensures entry { IfOk result (IsEntryOf (view given.now)) }
    ensures refusal { IfErr result (IsOfEntryAt number (view given.now)) }
{
    match entry(alloc, given) {
        Ok(entry) => Ok(entry),
        Err(fault) => Err(Refusal::of_entry(alloc, number, name_of(given), fault)),
    }
}

/// The name of an entry, if it has one.
fn name_of(given: &Value) -> Option<&str>
    ensures { option_copied result ≡ text_at (codes "name") (view given.now) }
{
    given.get("name")?.as_str()
}

/// An entry.
fn entry(alloc: Global, given: &Value) -> Result<Entry, Fault>
    ensures entry { IfOk result (IsEntryOf (view given.now)) }
    ensures fault { IfErr result (IsOfEntry (view given.now)) }
{
    check_names(alloc, given, &MEMBERS)?;
    let mut entry = without_rows(alloc, given)?;
    entry.rows = entry_rows(alloc, given)?;
    Ok(entry)
}

/// An entry, but for its rows.
fn without_rows(alloc: Global, given: &Value) -> Result<Entry, Fault>
    ensures entry { IfOk result (IsSaidOf (view given.now)) }
    ensures fault { IfErr result (IsOfMember (view given.now)) }
{
    Ok(Entry {
        name: String::from_str(alloc, needed_text(given, "name")?)?,
        tools: tools(alloc, given)?,
        rows: Vec::new(alloc),
        measure: measure(alloc, given)?,
        first_column: number(given, "first-column")?.unwrap_or(1),
        ends_at_last: ends_at_last(alloc, given)?,
        severity: severity(alloc, given)?,
        message: copied_text(alloc, given, "message")?,
        join: join(alloc, given)?,
        is_escaped: is_escaped(alloc, given)?,
    })
}

/// The rows of an entry.
fn entry_rows(alloc: Global, given: &Value) -> Result<Vec<Row>, Fault>
    ensures rows { IfOk result (λ rows. AreItsRows (view given.now) rows.items) }
    ensures fault { IfErr result (IsOfEntryRows (view given.now)) }
{
    match list(given, "rows") {
        Ok(values) => rows(alloc, values),
        Err(fault) => Err(fault),
    }
}

/// What stands between the rows of a message: a line feed where nothing else is said.
fn join(alloc: Global, given: &Value) -> Result<String, Fault>
    ensures join { IfOk result (λ join. string_bytes join
        ≡ unwrap_or (text_at (codes "join") (view given.now)) (10 ∷ [])) }
    ensures fault { IfErr result (IsOfMember (view given.now)) }
{
    match copied_text(alloc, given, "join")? {
        Some(join) => Ok(join),
        None => Ok(String::from_str(alloc, "\n")?),
    }
}

/// The tools whose lines an entry reads: one, or those of a list.
fn tools(alloc: Global, given: &Value) -> Result<Vec<String>, Fault>
    ensures tools { IfOk result (λ tools. Some (map string_bytes tools.items)
        ≡ option_and_then tools_in (get (codes "tool") (view given.now))) }
    ensures fault { IfErr result (IsOfMember (view given.now)) }
{
    let Some(value) = given.get("tool") else {
        return Err(Fault::Missing("tool"));
    };
    match value.as_str() {
        Some(tool) => Ok(one(alloc, tool)?),
        None => texts(alloc, given, "tool"),
    }
}

/// A list of one text. On `Err` there was no memory.
pub(crate) fn one(alloc: Global, text: &str) -> Result<Vec<String>, AllocError>
    ensures { IfOk result (λ texts. map string_bytes texts.items ≡ text.now ∷ []) }
{
    let mut all = Vec::new(alloc);
    all.push(String::from_str(alloc, text)?)?;
    Ok(all)
}

/// The words of a table for severities: none where it has none.
pub(crate) fn words(alloc: Global, given: &Value) -> Result<Vec<Word>, Fault>
    ensures words { IfOk result (λ words. map word_told words.items ≡ words_at (view given.now)) }
    ensures fault { IfErr result (IsOfTableWords (view given.now)) }
{
    let Some(value) = given.get("severities") else {
        return Ok(Vec::new(alloc));
    };
    if !value.is_table() {
        return Err(Fault::Kind {
            member: "severities",
            wanted: Wanted::Table,
        });
    }
    known_words(alloc, value)
}

/// The words for severities, if there are no other members.
fn known_words(alloc: Global, given: &Value) -> Result<Vec<Word>, Fault>
    ensures words { IfOk result (λ words. map word_told words.items ≡ words_in (view given.now)) }
    ensures fault { IfErr result (IsOfWords (view given.now)) }
{
    match check_names(alloc, given, &WORD_MEMBERS) {
        Ok(()) => words_in(alloc, given),
        Err(fault) => Err(fault),
    }
}

/// The words for each severity.
fn words_in(alloc: Global, given: &Value) -> Result<Vec<Word>, Fault>
    ensures words { IfOk result (λ words. map word_told words.items ≡ words_in (view given.now)) }
    ensures fault { IfErr result (IsOfMember (view given.now)) }
{
    let mut all = words_for(alloc, given, "error", Severity::Error)?;
    all.append(&mut words_for(alloc, given, "warning", Severity::Warning)?)?;
    all.append(&mut words_for(alloc, given, "note", Severity::Note)?)?;
    Ok(all)
}

/// The words for a severity, if there are some.
fn words_for(
    alloc: Global,
    given: &Value,
    member: &'static str,
    severity: Severity,
) -> Result<Vec<Word>, Fault>
    ensures words { IfOk result (λ words. map word_told words.items
        ≡ words_for severity member.now (view given.now)) }
    ensures fault { IfErr result (IsOfMember (view given.now)) }
{
    if given.get(member).is_none() {
        return Ok(Vec::new(alloc));
    }
    Ok(words_of(alloc, texts(alloc, given, member)?, severity)?)
}

/// Texts as words for a severity. On `Err` there was no memory.
fn words_of(alloc: Global, texts: Vec<String>, severity: Severity) -> Result<Vec<Word>, AllocError>
    ensures { IfOk result (λ words. words.items ≡ map (λ text. record { text = text; severity = severity }) texts.items) }
{
    texts
        .into_iter()
        .map(|text| Word { text, severity })
        .collect(alloc)
}
