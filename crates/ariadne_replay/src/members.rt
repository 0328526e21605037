//! The members of a case, or of a table in it. A member of another type reads as one that is not there.

use crate::colors::color_of;
use ariadne::Color;
use toml::Value;

/// Whether a member is there.
pub fn has(told: &Value, name: &str) -> bool {
    told.get(name).is_some()
}

/// A member that is a text.
pub fn text<'c>(told: &'c Value, name: &str) -> Option<&'c str> {
    told.get(name)?.as_str()
}

/// What a table of words says of one.
pub fn meaning<T: Copy>(words: &[(&str, T)], word: &str) -> Option<T> {
    for (known, meaning) in words {
        if *known == word {
            return Some(*meaning);
        }
    }
    None
}

/// What a member says by one of these words, or its default.
pub fn word<T: Copy>(told: &Value, name: &str, words: &[(&str, T)], default: T) -> T {
    match text(told, name) {
        Some(word) => meaning(words, word).unwrap_or(default),
        None => default,
    }
}

/// A member that is a colour.
pub fn color(told: &Value, name: &str) -> Option<Color> {
    color_of(text(told, name)?)
}

/// A member that is a number from 0 on. One that is past a TOML number's is given as a text, by its
/// digits.
pub fn count(told: &Value, name: &str) -> Option<u64> {
    let value = told.get(name)?;
    match value.as_str() {
        Some(digits) => digits.parse().ok(),
        None => u64::try_from(value.as_integer()?).ok(),
    }
}

/// A member that is a number of either sign, or 0.
pub fn number(told: &Value, name: &str) -> i32 {
    let number = told.get(name).and_then(Value::as_integer).unwrap_or(0);
    i32::try_from(number).unwrap_or(0)
}

/// A member that is a list. One that is not there is empty.
pub fn list<'c>(told: &'c Value, name: &str) -> &'c [Value] {
    match told.get(name).and_then(Value::as_array) {
        Some(items) => items.as_slice(),
        None => &[],
    }
}

/// An item of a list of texts.
pub fn text_of(item: &Value) -> &str {
    item.as_str().unwrap_or("")
}
