//! What is read of JSON: members by their names.

ghost use Rattle.std.specs.Prelude.{◌≡◌, is_some, option_map, string_bytes, IfOk};
ghost use Rattle.serde_json.specs.View.{items_view, view};
ghost use Rattle.ariadne_parse.specs.Members.{has_words as has_words_at, is_true_at, number_at, severity_at, words_at};
ghost use Rattle.ariadne_parse.specs.Members.{has_none, has_number as has_number_at, items_in, list_at, number_of, text_at};

use crate::diagnostic::Severity;
use serde_json::Value;
use std::alloc::{AllocError, Global};

/// A member that is a text.
pub fn text<'v>(value: &'v Value, name: &str) -> Option<&'v str>
    ensures { option_map (λ t. t.now) result ≡ text_at name.now (view value.now) }
{
    value.get(name)?.as_str()
}

/// A member that is a text; an empty one where it is none.
pub fn words<'v>(value: &'v Value, name: &str) -> &'v str
    ensures { result.now ≡ words_at name.now (view value.now) }
{
    text(value, name).unwrap_or("")
}

/// Whether a member is this text.
pub fn has_words(value: &Value, name: &str, words: &str) -> bool
    ensures { result ≡ has_words_at name.now words.now (view value.now) }
{
    match text(value, name) {
        Some(found) => found == words,
        None => false,
    }
}

/// The severity that a member names; that of errors where it names none.
pub fn severity(value: &Value, name: &str) -> Severity
    ensures { result ≡ severity_at name.now (view value.now) }
{
    text(value, name)
        .and_then(Severity::of)
        .unwrap_or(Severity::Error)
}

/// A copy of a member that is a text, if it is one.
pub fn copied_text(alloc: Global, value: &Value, name: &str) -> Result<Option<String>, AllocError>
    ensures { IfOk result (λ copy. option_map string_bytes copy ≡ text_at name.now (view value.now)) }
{
    match text(value, name) {
        Some(found) => Ok(Some(String::from_str(alloc, found)?)),
        None => Ok(None),
    }
}

/// A member that is a number of this machine.
pub fn number(value: &Value, name: &str) -> Option<usize>
    ensures { result ≡ number_at name.now (view value.now) }
{
    usize_of(value.get(name)?)
}

/// Whether a member is this number.
pub fn has_number(value: &Value, name: &str, wanted: usize) -> bool
    ensures { result ≡ has_number_at name.now wanted (view value.now) }
{
    match number(value, name) {
        Some(found) => found == wanted,
        None => false,
    }
}

/// A number of this machine.
pub fn usize_of(value: &Value) -> Option<usize>
    ensures { result ≡ number_of (view value.now) }
{
    usize::try_from(value.as_u64()?).ok()
}

/// Whether a member is `true`.
pub fn is_true(value: &Value, name: &str) -> bool
    ensures { result ≡ is_true_at name.now (view value.now) }
{
    match value.get(name) {
        Some(member) => member.as_bool().unwrap_or(false),
        None => false,
    }
}

/// Whether a member is a list.
pub fn has_list(value: &Value, name: &str) -> bool
    ensures { result ≡ is_some (list_at name.now (view value.now)) }
{
    match value.get(name) {
        Some(member) => member.is_array(),
        None => false,
    }
}

/// The items of a member that is a list; none where it is no list.
pub fn items<'v>(value: &'v Value, name: &str) -> &'v [Value]
    ensures { items_view result.now ≡ items_in (list_at name.now (view value.now)) }
{
    match value.get(name) {
        Some(member) => match member.as_array() {
            Some(items) => items.as_slice(),
            None => &[],
        },
        None => &[],
    }
}

/// Whether a list of values is empty.
#[tactic(auto, using(crate::proofs::Values::none_view))]
pub fn has_no_items(values: &[Value]) -> bool
    ensures { result ≡ has_none (items_view values.now) }
{
    values.is_empty()
}
