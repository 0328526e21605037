//! Whether what is drawn of a case is what it stores.

use crate::members::text;
use crate::sending::Answer;
use std::alloc::{AllocError, Global};
use toml::Value;

/// The labels that a case says are left out, as it writes them.
fn left_out_of(alloc: Global, case: &Value) -> Result<String, AllocError> {
    match case.get("left_out") {
        Some(list) => list.to_string(alloc),
        None => String::from_str(alloc, "[]"),
    }
}

/// Whether what is drawn of a case is what it stores. One that stores no picture is drawn otherwise.
pub fn is_stored(alloc: Global, case: &Value, answer: &Answer) -> Result<bool, AllocError> {
    let left_out = left_out_of(alloc, case)?;
    Ok(
        left_out == answer.left_out
            && text(case, "fails").unwrap_or("") == answer.end.name()
            && text(case, "picture") == Some(answer.picture.as_str()),
    )
}
