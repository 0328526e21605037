//! The table that a text is.

ghost use Rattle.std.specs.Prelude.{◌≡◌, ◌++◌, ◌∷◌, [], false, map, string_bytes, IfErr, IfOk, OnOk};
ghost use Rattle.toml.specs.View.{view};
ghost use Rattle.ariadne_matcher_tables.specs.Editors.{IsEditorTable, IsRefusalAt};
ghost use Rattle.ariadne_matcher_tables.specs.TableMembers.{HasOnly};
ghost use Rattle.ariadne_matcher_tables.specs.MatcherTables.{has_name, is_named_so, table_members, word_told, words_at};
ghost use Rattle.ariadne_matcher_tables.specs.MatcherTables.{IsOfTable, IsOfWhole, IsRefusalOf, IsSecond, IsTableOf, IsTableOfData};

use crate::editor::editor_entries;
use crate::entries::{TABLE_MEMBERS, entries, words};
use crate::members::check_names;
use crate::refusal::{Fault, Refusal};
use ariadne_matchers::Table;
use ariadne_matchers::entry::{Entry, Word};
use std::alloc::Global;
use toml::Value;

/// The table that a text in TOML is. Each entry has a name of its own.
pub fn table_from_toml(alloc: Global, text: &str) -> Result<Table, Refusal>
    ensures table { IfOk result (IsTableOf text.now) }
    ensures refusal { IfErr result (IsRefusalOf text.now) }
{
    match toml::table_from_str(alloc, text) {
        Ok(members) => table_of(alloc, &Value::Table(members)),
        Err(error) => Err(Refusal::of_toml(alloc, text, &error)),
    }
}

/// The table that a text in JSON is: a problem matcher of VS Code, a list of them, or an object whose
/// member `problemMatcher` has them. It has no words.
pub fn table_from_json(alloc: Global, text: &str) -> Result<Table, Refusal>
    ensures table { IfOk result (λ table. IsEditorTable text.now table.entries.items) }
    ensures words { IfOk result (λ table. table.words.items ≡ []) }
    ensures refusal { IfErr result (IsRefusalAt text.now) }
{
    Ok(Table {
        entries: editor_entries(alloc, text)?,
        words: Vec::new(alloc),
    })
}

/// The table that a value in TOML is.
fn table_of(alloc: Global, given: &Value) -> Result<Table, Refusal>
    ensures table { IfOk result (IsTableOfData (view given.now)) }
    ensures refusal { IfErr result (IsOfTable (view given.now)) }
{
    match checked_words(alloc, given) {
        Ok(words) => Ok(Table {
            entries: entries(alloc, given)?,
            words,
        }),
        Err(fault) => Err(Refusal::of_whole(fault)),
    }
}

/// The words of a table that has no unknown members.
fn checked_words(alloc: Global, given: &Value) -> Result<Vec<Word>, Fault>
    ensures only { OnOk result (HasOnly table_members (view given.now)) }
    ensures words { IfOk result (λ words. map word_told words.items ≡ words_at (view given.now)) }
    ensures fault { IfErr result (IsOfWhole (view given.now)) }
{
    check_names(alloc, given, &TABLE_MEMBERS)?;
    words(alloc, given)
}

/// Adds an entry behind others, if none of them has its name.
pub(crate) fn push_entry(all: &mut Vec<Entry>, entry: Entry) -> Result<(), Refusal>
    ensures added { OnOk result (all.new.items ≡ all.old.items ++ entry ∷ []) }
    ensures is_new { OnOk result (has_name all.old.items (string_bytes entry.name) ≡ false) }
    ensures refusal { IfErr result (IsSecond all.old.items (string_bytes entry.name)) }
{
    if has_name(all.as_slice(), entry.name.as_str()) {
        return Err(Refusal::Entry {
            name: entry.name,
            fault: Fault::Again,
        });
    }
    all.push(entry)?;
    Ok(())
}

/// Whether one of some entries has this name.
fn has_name(all: &[Entry], name: &str) -> bool
    ensures { result ≡ has_name all.now name.now }
{
    all.iter().any(|it| is_named(it, name))
}

/// Whether an entry has this name.
fn is_named(entry: &Entry, name: &str) -> bool
    ensures { result ≡ is_named_so name.now entry.now }
{
    entry.name.as_str() == name
}
