//! The rule of a result of SARIF, and what the result has from it: its code and its level.

ghost use Rattle.std.specs.Prelude.{◌≡◌, option_map};
ghost use Rattle.serde_json.specs.View.{items_view, view};
ghost use Rattle.ariadne_sarif.specs.SarifLogs as sarif;

use crate::parts::{number_within, text_within};
use ariadne_parse::Severity;
use ariadne_parse::json::{has_words, items, number, text};
use serde_json::Value;

/// The driver of a run's tool.
fn driver_of(run: &Value) -> Option<&Value>
    ensures { option_map (λ v. view v.now) result ≡ sarif.driver_of (view run.now) }
{
    run.get("tool")?.get("driver")
}

/// The number of the extension that a result's rule is of.
fn extension_number(it: &Value) -> Option<usize>
    ensures { result ≡ sarif.extension_number (view it.now) }
{
    number_within(it.get("rule")?, "toolComponent", "index")
}

/// The component of a run's tool that a result's rule is of: the driver, or the extension that the result names.
fn component_of<'v>(run: &'v Value, it: &Value) -> Option<&'v Value>
    ensures { option_map (λ v. view v.now) result ≡ sarif.component_of (view run.now) (view it.now) }
{
    match extension_number(it) {
        Some(number) => run.get("tool")?.get("extensions")?.get(number),
        None => driver_of(run),
    }
}

/// The rules among which a result's is.
fn rules_of<'v>(run: &'v Value, it: &Value) -> &'v [Value]
    ensures { items_view result.now ≡ sarif.rules_of (view run.now) (view it.now) }
{
    match component_of(run, it) {
        Some(component) => items(component, "rules"),
        None => &[],
    }
}

/// The first of rules with an identifier.
fn rule_with<'v>(id: &str, rules: &'v [Value]) -> Option<&'v Value>
    ensures { option_map (λ v. view v.now) result ≡ sarif.rule_with id.now (items_view rules.now) }
{
    for rule in rules {
        if has_words(rule, "id", id) {
            return Some(rule);
        }
    }
    None
}

/// The number of a result's rule.
fn rule_number(it: &Value) -> Option<usize>
    ensures { result ≡ sarif.rule_number (view it.now) }
{
    match number(it, "ruleIndex") {
        Some(number) => Some(number),
        None => number_within(it, "rule", "index"),
    }
}

/// The identifier of a result's rule, if it names that.
fn named_rule(it: &Value) -> Option<&str>
    ensures { option_map (λ t. t.now) result ≡ sarif.named_rule (view it.now) }
{
    match text(it, "ruleId") {
        Some(id) => Some(id),
        None => text_within(it, "rule", "id"),
    }
}

/// The rule of a result: that with its number, or with its identifier.
pub(crate) fn rule_of<'v>(run: &'v Value, it: &Value) -> Option<&'v Value>
    ensures { option_map (λ v. view v.now) result ≡ sarif.rule_of (view run.now) (view it.now) }
{
    match numbered_rule(run, it) {
        Some(rule) => Some(rule),
        None => rule_with(named_rule(it)?, rules_of(run, it)),
    }
}

/// The rule with the number that a result names.
fn numbered_rule<'v>(run: &'v Value, it: &Value) -> Option<&'v Value>
    ensures { option_map (λ v. view v.now) result ≡ sarif.numbered_rule (view run.now) (view it.now) }
{
    let number = rule_number(it)?;
    component_of(run, it)?.get("rules")?.get(number)
}

/// The code of a result: its rule's identifier.
pub(crate) fn code_of<'v>(run: &'v Value, it: &'v Value) -> Option<&'v str>
    ensures { option_map (λ t. t.now) result ≡ sarif.code_of (view run.now) (view it.now) }
{
    match named_rule(it) {
        Some(id) => Some(id),
        None => text(rule_of(run, it)?, "id"),
    }
}

/// How bad a result is: by its level, or that of its rule; a warning, where neither names one.
pub(crate) fn severity_of(run: &Value, it: &Value) -> Severity
    ensures { result ≡ sarif.severity_of (view run.now) (view it.now) }
{
    match level_of(run, it) {
        Some("error") => Severity::Error,
        Some("note" | "none") => Severity::Note,
        _ => Severity::Warning,
    }
}

/// The level of a result, or that of its rule, where the result tells of a failure; others have none.
fn level_of<'v>(run: &'v Value, it: &'v Value) -> Option<&'v str>
    ensures { option_map (λ t. t.now) result ≡ sarif.level_of (view run.now) (view it.now) }
{
    match text(it, "level") {
        Some(level) => Some(level),
        None if is_failure(it) => rule_level(run, it),
        None => Some("none"),
    }
}

/// Whether a result tells of a failure, as one that names no kind does.
fn is_failure(it: &Value) -> bool
    ensures { result ≡ sarif.is_failure (view it.now) }
{
    match text(it, "kind") {
        Some(kind) => kind == "fail",
        None => true,
    }
}

/// The level of a result's rule.
fn rule_level<'v>(run: &'v Value, it: &Value) -> Option<&'v str>
    ensures { option_map (λ t. t.now) result ≡ sarif.rule_level (view run.now) (view it.now) }
{
    text_within(rule_of(run, it)?, "defaultConfiguration", "level")
}
