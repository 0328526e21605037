//! Members of a table in TOML.

ghost use Rattle.std.specs.Prelude.{◌≡◌, map, option_map, string_bytes, Some, IfErr, IfOk, OnOk};
ghost use Rattle.toml.specs.Data.{as_str};
ghost use Rattle.toml.specs.View.{items_view, view};
ghost use Rattle.ariadne_matcher_tables.specs.EntryFaults.{IsOfMember, IsOfNames};
ghost use Rattle.ariadne_matcher_tables.specs.TableMembers.{is_among, list_at, number_at, number_in, text_at, texts_at, texts_in, HasOnly};

use crate::refusal::{Fault, Wanted};
use std::alloc::{AllocError, Global};
use toml::Value;

/// A member that is a text, if it is there.
pub(crate) fn text<'v>(given: &'v Value, member: &'static str) -> Result<Option<&'v str>, Fault>
    ensures text { IfOk result (λ text. option_map (λ t. t.now) text
        ≡ text_at member.now (view given.now)) }
    ensures fault { IfErr result (IsOfMember (view given.now)) }
{
    match given.get(member) {
        Some(value) => match value.as_str() {
            Some(text) => Ok(Some(text)),
            None => Err(Fault::Kind {
                member,
                wanted: Wanted::Text,
            }),
        },
        None => Ok(None),
    }
}

/// A member that is a text.
pub(crate) fn needed_text<'v>(given: &'v Value, member: &'static str) -> Result<&'v str, Fault>
    ensures text { IfOk result (λ text. Some text.now ≡ text_at member.now (view given.now)) }
    ensures fault { IfErr result (IsOfMember (view given.now)) }
{
    match given.get(member) {
        Some(value) => match value.as_str() {
            Some(text) => Ok(text),
            None => Err(Fault::Kind {
                member,
                wanted: Wanted::Text,
            }),
        },
        None => Err(Fault::Missing(member)),
    }
}

/// A copy of a member that is a text, if it is there.
pub(crate) fn copied_text(
    alloc: Global,
    given: &Value,
    member: &'static str,
) -> Result<Option<String>, Fault>
    ensures text { IfOk result (λ copy. option_map string_bytes copy
        ≡ text_at member.now (view given.now)) }
    ensures fault { IfErr result (IsOfMember (view given.now)) }
{
    match text(given, member)? {
        Some(text) => Ok(Some(String::from_str(alloc, text)?)),
        None => Ok(None),
    }
}

/// A member that is a number of 32 bits, if it is there.
pub(crate) fn number(given: &Value, member: &'static str) -> Result<Option<u32>, Fault>
    ensures number { IfOk result (λ number. number ≡ number_at member.now (view given.now)) }
    ensures fault { IfErr result (IsOfMember (view given.now)) }
{
    match given.get(member) {
        Some(value) => match number_of(value) {
            Some(number) => Ok(Some(number)),
            None => Err(Fault::Kind {
                member,
                wanted: Wanted::Number,
            }),
        },
        None => Ok(None),
    }
}

/// The number that a value is, if 32 bits have it.
fn number_of(value: &Value) -> Option<u32>
    ensures { result ≡ number_in (view value.now) }
{
    u32::try_from(value.as_integer()?).ok()
}

/// The items of a member that is a list.
pub(crate) fn list<'v>(given: &'v Value, member: &'static str) -> Result<&'v [Value], Fault>
    ensures items { IfOk result (λ items. Some (items_view items.now) ≡ list_at member.now (view given.now)) }
    ensures fault { IfErr result (IsOfMember (view given.now)) }
{
    match given.get(member) {
        Some(value) => match value.as_array() {
            Some(items) => Ok(items.as_slice()),
            None => Err(Fault::Kind {
                member,
                wanted: Wanted::List,
            }),
        },
        None => Err(Fault::Missing(member)),
    }
}

/// The texts of a member that is a list of them.
pub(crate) fn texts(
    alloc: Global,
    given: &Value,
    member: &'static str,
) -> Result<Vec<String>, Fault>
    ensures texts { IfOk result (λ texts. Some (map string_bytes texts.items) ≡ texts_at member.now (view given.now)) }
    ensures fault { IfErr result (IsOfMember (view given.now)) }
{
    match copies(alloc, list(given, member)?)? {
        Some(texts) => Ok(texts),
        None => Err(Fault::Kind {
            member,
            wanted: Wanted::Texts,
        }),
    }
}

/// Copies of texts, if there is nothing else. On `Err` there was no memory.
fn copies(alloc: Global, given: &[Value]) -> Result<Option<Vec<String>>, AllocError>
    ensures { IfOk result (λ copies. option_map (λ texts. map string_bytes texts.items) copies ≡ texts_in (items_view given.now)) }
{
    let mut all = Vec::new(alloc);
    for value in given {
        match value.as_str() {
            Some(text) => all.push(String::from_str(alloc, text)?)?,
            None => return Ok(None),
        }
    }
    Ok(Some(all))
}

/// Whether a value is a table with no members but these.
pub(crate) fn check_names(alloc: Global, given: &Value, known: &[&str]) -> Result<(), Fault>
    ensures only { OnOk result (HasOnly (map (λ it. it.now) known.now) (view given.now)) }
    ensures fault { IfErr result (IsOfNames (map (λ it. it.now) known.now) (view given.now)) }
{
    let Some(members) = given.as_table() else {
        return Err(Fault::NoTable);
    };
    match members.keys().find(|name| !is_among(known, name.as_str())) {
        Some(name) => Err(Fault::Unknown(String::from_str(alloc, name.as_str())?)),
        None => Ok(()),
    }
}

/// Whether a name is one of these.
pub(crate) fn is_among(known: &[&str], name: &str) -> bool
    ensures { result ≡ is_among (map (λ it. it.now) known.now) name.now }
{
    known.iter().any(|it| *it == name)
}
