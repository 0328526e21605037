//! What messages of SARIF say: their texts, with arguments in the place of placeholders.

ghost use Rattle.std.specs.Prelude.{◌≡◌, ◌++◌, option_map, string_bytes, IfOk};
ghost use Rattle.std.specs.Option.{option_copied};
ghost use Rattle.serde_json.specs.View.{view};
ghost use Rattle.ariadne_sarif.specs.SarifLogs as sarif;
ghost use Rattle.ariadne_sarif.specs.SarifMessages as messages;

use crate::parts::text_within;
use crate::sarif_rules::rule_of;
use ariadne_parse::json::{has_no_items, items, text, words};
use ariadne_parse::pieces::{behind_text, split_once, whole_number};
use serde_json::Value;
use std::alloc::{AllocError, Global};

/// What a result says.
pub(crate) fn text_of(alloc: Global, run: &Value, it: &Value) -> Result<String, AllocError>
    ensures { IfOk result (λ text. string_bytes text ≡ sarif.text_of (view run.now) (view it.now)) }
{
    match it.get("message") {
        Some(message) => said(alloc, message, message_text(rule_of(run, it), message)),
        None => Ok(String::new(alloc)),
    }
}

/// What the message in a member says, which is of no rule; nothing where there is none.
pub(crate) fn message_in(alloc: Global, value: &Value, name: &str) -> Result<String, AllocError>
    ensures { IfOk result (λ text. string_bytes text ≡ messages.message_in name.now (view value.now)) }
{
    match value.get(name) {
        Some(message) => said(alloc, message, words(message, "text")),
        None => Ok(String::new(alloc)),
    }
}

/// The text of a message, as it stands or as Markdown, or that of the rule which it names.
fn message_text<'v>(rule: Option<&'v Value>, message: &'v Value) -> &'v str
    ensures { result.now ≡ messages.message_text (option_map view (option_copied rule.entry)) (view message.now) }
{
    match own_text(message) {
        Some(text) => text,
        None => rule_text(rule, message).unwrap_or(""),
    }
}

/// The text of a message, or its Markdown.
fn own_text(message: &Value) -> Option<&str>
    ensures { option_map (λ t. t.now) result ≡ messages.own_text (view message.now) }
{
    match text(message, "text") {
        Some(text) => Some(text),
        None => text(message, "markdown"),
    }
}

/// The text of a rule that a message names.
fn rule_text<'v>(rule: Option<&'v Value>, message: &Value) -> Option<&'v str>
    ensures { option_map (λ t. t.now) result
        ≡ messages.rule_text (option_map view (option_copied rule.entry)) (view message.now) }
{
    let id = text(message, "id")?;
    text_within(rule?.get("messageStrings")?, id, "text")
}

/// What a message with this text says. One without arguments has no placeholders.
fn said(alloc: Global, message: &Value, text: &str) -> Result<String, AllocError>
    ensures { IfOk result (λ said. string_bytes said ≡ messages.said (view message.now) text.now) }
{
    if has_no_items(items(message, "arguments")) {
        String::from_str(alloc, text)
    } else {
        filled(alloc, message, text)
    }
}

/// A text of a message, with its arguments in the place of its placeholders.
fn filled(alloc: Global, message: &Value, text: &str) -> Result<String, AllocError>
    ensures { IfOk result (λ all. string_bytes all ≡ messages.filled (view message.now) text.now) }
{
    let mut all = String::new(alloc);
    let mut rest = text;
    for turn in 0..text.len() {
        let Some((is_closing, front, behind)) = at_brace(rest) else {
            return with_rest(all, rest);
        };
        let (said, left) = braced(message, is_closing, behind);
        all.push_str(front)?;
        all.push_str(said)?;
        rest = left;
    }
    with_rest(all, rest)
}

/// A text with the rest behind it.
fn with_rest(text: String, rest: &str) -> Result<String, AllocError>
    ensures { IfOk result (λ all. string_bytes all ≡ string_bytes text ++ rest.now) }
{
    let mut all = text;
    all.push_str(rest)?;
    Ok(all)
}

/// A text at the first of its braces: whether it is a closing one, what stands in front of it, and what behind it.
fn at_brace(text: &str) -> Option<(bool, &str, &str)>
    ensures { option_map (λ cut. (cut.0, cut.1.now, cut.2.now)) result ≡ messages.at_brace text.now }
{
    match (split_once(text, '{'), split_once(text, '}')) {
        (Some(opens), Some(closes)) if closes.0.len() < opens.0.len() => {
            Some((true, closes.0, closes.1))
        }
        (Some((front, behind)), _) => Some((false, front, behind)),
        (None, Some((front, behind))) => Some((true, front, behind)),
        (None, None) => None,
    }
}

/// What a brace stands for by the text behind it, and what is left of that.
fn braced<'v>(message: &'v Value, is_closing: bool, text: &'v str) -> (&'v str, &'v str)
    ensures { (result.0.now, result.1.now) ≡ messages.braced (view message.now) is_closing text.now }
{
    if is_closing {
        ("}", behind_text(text, "}").unwrap_or(text))
    } else {
        opening(message, text)
    }
}

/// What an opening brace stands for by the text behind it, and what is left of that.
fn opening<'v>(message: &'v Value, text: &'v str) -> (&'v str, &'v str)
    ensures { (result.0.now, result.1.now) ≡ messages.opening (view message.now) text.now }
{
    match behind_text(text, "{") {
        Some(rest) => ("{", rest),
        None => argument_in(message, text).unwrap_or(("{", text)),
    }
}

/// What a placeholder stands for, of which the text behind its opening brace is known, and what stands behind it.
fn argument_in<'v>(message: &'v Value, text: &'v str) -> Option<(&'v str, &'v str)>
    ensures { option_map (λ parts. (parts.0.now, parts.1.now)) result
        ≡ messages.argument_in (view message.now) text.now }
{
    let (number, behind) = split_once(text, '}')?;
    let argument = argument_at(message, whole_number(number)?)?;
    Some((argument, behind))
}

/// An argument of a message, by its number from 0.
fn argument_at(message: &Value, number: usize) -> Option<&str>
    ensures { option_map (λ t. t.now) result ≡ messages.argument_at (view message.now) number }
{
    message.get("arguments")?.get(number)?.as_str()
}
