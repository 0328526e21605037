//! The texts that a call is given.

ghost use Rattle.std.specs.Prelude.{◌≡◌, [], true, false, IfOk, OnOk, IfErr, IfSome, None};
ghost use Rattle.std.specs.Str.{is_utf8};
ghost use Rattle.std.specs.Option.{option_copied};
ghost use Rattle.ariadne_calls.specs.Faults.{IsFirst, optional_faults, text_faults};
ghost use Rattle.ariadne_calls.specs.CallSources.{given_text};

use crate::ending::{Fault, Refusal};
use crate::given::OptionalText;

/// The text of some bytes, or this fault where they are not UTF-8. If there are none, nothing is
/// looked at.
pub fn text<'a>(bytes: &'a [u8], fault: Fault) -> Result<&'a str, Refusal>
    ensures ok { IfOk result (λ text. text.now ≡ bytes.now) }
    ensures sound { OnOk result (text_faults fault bytes.now ≡ []) }
    ensures err { IfErr result (IsFirst (text_faults fault bytes.now)) }
{
    match decoded(bytes) {
        Some(text) => Ok(text),
        None => Err(Refusal::Faulty(fault)),
    }
}

/// The text of some bytes, if they are UTF-8. If there are none, nothing is looked at.
pub fn decoded<'a>(bytes: &'a [u8]) -> Option<&'a str>
    ensures text { IfSome result (λ text. text.now ≡ bytes.now) }
    ensures some { IfSome result (λ _. is_utf8 bytes.now ≡ true) }
    ensures none { result ≡ None → is_utf8 bytes.now ≡ false }
{
    if bytes.is_empty() {
        return Some("");
    }
    match std::str::from_utf8(bytes) {
        Ok(text) => Some(text),
        Err(_) => None,
    }
}

/// The text, if there is one, or this fault where it is not UTF-8.
pub fn optional_text<'a>(given: &OptionalText<'a>, fault: Fault) -> Result<Option<&'a str>, Refusal>
    ensures ok { IfOk result (λ text. option_copied text ≡ given_text given.now) }
    ensures sound { OnOk result (optional_faults fault given.now ≡ []) }
    ensures err { IfErr result (IsFirst (optional_faults fault given.now)) }
{
    if given.is_given == 0 {
        return Ok(None);
    }
    Ok(Some(text(given.text.bytes, fault)?))
}
