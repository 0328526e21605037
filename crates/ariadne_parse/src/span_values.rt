//! Spans of rustc's JSON: whether they lie in files of the user's, and the macro calls that made them.

ghost use Rattle.std.specs.Prelude.{◌≡◌, option_map};
ghost use Rattle.serde_json.specs.View.{view};
ghost use Rattle.ariadne_parse.specs.Members.{location_at};
ghost use Rattle.ariadne_parse.specs.Rustc as rustc;

use crate::diagnostic::Location;
use crate::json::{has_no_items, has_number, has_words, items, number, text, words};
use crate::locations::is_among;
use crate::pieces::{begins_with, contains};
use crate::suggested::{end_of, start_of};
use serde_json::Value;

/// How many expansions of macros are followed to a file of the user's.
const EXPANSIONS: u8 = 64;

/// Whether a span stands for no span: that of a message about a whole crate, which rustc's text leaves out. It
/// covers nothing at the start of the first file, quotes nothing and says nothing.
#[tactic(auto, unfolding(crate::specs::Rustc::is_dummy))]
pub(crate) fn is_dummy(span_value: &Value) -> bool
    ensures { result ≡ rustc.is_dummy (view span_value.now) }
{
    has_number(span_value, "byte_start", 0)
        && has_number(span_value, "byte_end", 0)
        && has_no_items(items(span_value, "text"))
        && text(span_value, "label").is_none()
}

/// Whether a span can be shown: it lies in a file of the user's, or rustc quotes it.
#[tactic(auto, unfolding(crate::specs::Rustc::is_shown))]
pub(crate) fn is_shown(span_value: &Value) -> bool
    ensures { result ≡ rustc.is_shown (view span_value.now) }
{
    !is_dummy(span_value) && (is_own(span_value) || !has_no_items(items(span_value, "text")))
}

/// Whether a span lies in a file of the user's.
fn is_own(span_value: &Value) -> bool
    ensures { result ≡ rustc.is_own (view span_value.now) }
{
    match text(span_value, "file_name") {
        Some(name) => is_own_file(name),
        None => false,
    }
}

/// Whether a file is the user's: none that a macro made, and none of std, which is where rustup or Debian puts it,
/// or is told by a path of the machine that built it.
#[tactic(auto, unfolding(crate::specs::Rustc::is_own_file))]
fn is_own_file(name: &str) -> bool
    ensures { result ≡ rustc.is_own_file name.now }
{
    !begins_with(name, "<")
        && !begins_with(name, "/rustc/")
        && !begins_with(name, "/usr/src/rustc-")
        && !contains(name, "/rustlib/src/rust/")
}

/// The span itself, or that of the first macro call around it, where that lies in a file of the user's; the
/// outermost one where none does.
pub(crate) fn own_span_value(span_value: &Value) -> &Value
    ensures { view result.now ≡ rustc.own_span_value (view span_value.now) }
{
    let mut at = span_value;
    for turn in 0..EXPANSIONS {
        if is_own(at) {
            return at;
        }
        let Some(call) = call_of(at) else {
            return at;
        };
        at = call;
    }
    at
}

/// The span of the call that made a span, if one did.
fn call_of(span_value: &Value) -> Option<&Value>
    ensures { option_map (λ v. view v.now) result ≡ rustc.call_of (view span_value.now) }
{
    span_value.get("expansion")?.get("span")
}

/// The outermost macro call around a span, where it is shown too: both lie in files of the user's, and the span is
/// no part of the call.
pub(crate) fn shown_call(span_value: &Value) -> Option<&Value>
    ensures { option_map (λ v. view v.now) result ≡ rustc.shown_call (view span_value.now) }
{
    let call = outermost_call(span_value)?;
    if is_call_shown(span_value, call) {
        Some(call)
    } else {
        None
    }
}

/// Whether the outermost macro call around a span is shown too.
#[tactic(auto, unfolding(crate::specs::Rustc::is_call_shown))]
fn is_call_shown(span_value: &Value, call: &Value) -> bool
    ensures { result ≡ rustc.is_call_shown (view span_value.now) (view call.now) }
{
    is_own(span_value) && is_own(call) && !is_part(span_value, call)
}

/// Whether a span begins within another one.
#[tactic(auto, unfolding(crate::specs::Rustc::is_part))]
fn is_part(span_value: &Value, whole: &Value) -> bool
    ensures { result ≡ rustc.is_part (view span_value.now) (view whole.now) }
{
    has_words(whole, "file_name", words(span_value, "file_name"))
        && is_among(start_of(span_value), start_of(whole), end_of(whole))
}

/// The span of the outermost macro call around a span.
fn outermost_call(span_value: &Value) -> Option<&Value>
    ensures { option_map (λ v. view v.now) result ≡ rustc.outermost_within 64 (view span_value.now) }
{
    let mut outermost = None;
    let mut at = span_value;
    for turn in 0..EXPANSIONS {
        let Some(call) = call_of(at) else {
            return outermost;
        };
        outermost = macro_call_of(at).or(outermost);
        at = call;
    }
    outermost
}

/// The span of the macro call that made a span, if one did. What the compiler itself writes in other words, as a
/// `for` loop, calls none.
fn macro_call_of(span_value: &Value) -> Option<&Value>
    ensures { option_map (λ v. view v.now) result ≡ rustc.macro_call_of (view span_value.now) }
{
    match maker_of(span_value) {
        Some(name) if !begins_with(name, "desugaring of ") => call_of(span_value),
        _ => None,
    }
}

/// The name of what made a span, if something did.
fn maker_of(span_value: &Value) -> Option<&str>
    ensures { option_map (λ name. name.now) result ≡ rustc.maker_of (view span_value.now) }
{
    text(span_value.get("expansion")?, "macro_decl_name")
}

/// One end of a span.
pub(crate) fn location(span_value: &Value, line: &str, column: &str) -> Option<Location>
    ensures { result ≡ location_at line.now column.now (view span_value.now) }
{
    Some(Location {
        line: number(span_value, line)?,
        column: number(span_value, column),
    })
}
