//! Values of JSON, read also where they have what `serde_json` refuses.

ghost use Rattle.std.specs.Prelude.{◌≡◌, ◌≤◌, option_map, IfOk, IfSome};
ghost use Rattle.serde_json.specs.Data.{depth as nesting};
ghost use Rattle.serde_json.specs.Read.{max_depth, read};
ghost use Rattle.serde_json.specs.View.{view};
ghost use Rattle.ariadne_json.specs.Reading.{read_bytes, value_in};

use crate::mended::mended;
use serde_json::Value;
use serde_json::error::Category;
use std::alloc::{AllocError, Global};

/// The value that a text is, or that it is when it is mended; `None` where it is no JSON.
///
/// On `Err` there was no memory.
pub fn read_value(alloc: Global, text: &str) -> Result<Option<Value>, AllocError>
    ensures value { IfOk result (λ value. option_map view value ≡ value_in text.now) }
    ensures nests { IfOk result (λ value. IfSome value (λ v. nesting (view v) ≤ max_depth)) }
{
    match value_of(alloc, text)? {
        Some(value) => Ok(Some(value)),
        None => value_of_bytes(alloc, mended(alloc, text.as_bytes())?.as_slice()),
    }
}

/// The value that a text is, if it is one that `serde_json` reads.
pub(crate) fn value_of(alloc: Global, text: &str) -> Result<Option<Value>, AllocError>
    ensures value { IfOk result (λ value. option_map view value ≡ read text.now) }
    ensures nests { IfOk result (λ value. IfSome value (λ v. nesting (view v) ≤ max_depth)) }
{
    match Value::from_str(alloc, text) {
        Ok(value) => Ok(Some(value)),
        Err(error) if error.classify() == Category::Memory => Err(AllocError),
        Err(_) => Ok(None),
    }
}

/// The value that bytes are, if they are one that it reads.
fn value_of_bytes(alloc: Global, bytes: &[u8]) -> Result<Option<Value>, AllocError>
    ensures value { IfOk result (λ value. option_map view value ≡ read_bytes bytes.now) }
    ensures nests { IfOk result (λ value. IfSome value (λ v. nesting (view v) ≤ max_depth)) }
{
    match Value::from_slice(alloc, bytes) {
        Ok(value) => Ok(Some(value)),
        Err(error) if error.classify() == Category::Memory => Err(AllocError),
        Err(_) => Ok(None),
    }
}
