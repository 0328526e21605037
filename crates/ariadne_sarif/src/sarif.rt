//! Logs of SARIF 2.1.0.

ghost use Rattle.std.specs.Prelude.{◌≡◌, ◌++◌, map, option_map, string_bytes, IfOk, OnOk};
ghost use Rattle.serde_json.specs.View.{items_view, view};
ghost use Rattle.ariadne_parse.specs.Members.{all_items, flat_items};
ghost use Rattle.ariadne_parse.specs.Read.{read};
ghost use Rattle.ariadne_parse.specs.Spans.{seen};
ghost use Rattle.ariadne_sarif.specs.SarifLogs as sarif;

use crate::sarif_fixes::push_fixes;
use crate::sarif_flows::{push_steps, steps_of};
use crate::sarif_messages::text_of;
use crate::sarif_rules::{code_of, severity_of};
use crate::sarif_spans::{push_rows, push_spans};
use ariadne_parse::json::{has_list, has_no_items, has_words, items, words};
use ariadne_parse::pieces::{begins_with, contains};
use ariadne_parse::{Diagnostic, Span};
use serde_json::Value;
use std::alloc::{AllocError, Global};

/// Whether a value is a log of SARIF: an object with its version and runs.
pub fn is_sarif(value: &Value) -> bool
    ensures { result ≡ sarif.is_sarif (view value.now) }
{
    has_version(value) && has_list(value, "runs") && are_runs(items(value, "runs"))
}

/// Whether a value names the version, or a schema of SARIF.
fn has_version(value: &Value) -> bool
    ensures { result ≡ sarif.has_version (view value.now) }
{
    begins_with(words(value, "version"), "2.1.") || contains(words(value, "$schema"), "sarif")
}

/// Whether values are runs.
fn are_runs(values: &[Value]) -> bool
    ensures { result ≡ all_items sarif.is_run (items_view values.now) }
{
    for value in values {
        if !is_run(value) {
            return false;
        }
    }
    true
}

/// Whether a value is a run.
fn is_run(value: &Value) -> bool
    ensures { result ≡ sarif.is_run (view value.now) }
{
    value.get("tool").is_some() && are_results(items(value, "results"))
}

/// Whether values are results.
fn are_results(values: &[Value]) -> bool
    ensures { result ≡ all_items sarif.is_result (items_view values.now) }
{
    for value in values {
        if value.get("message").is_none() {
            return false;
        }
    }
    true
}

/// The diagnostics of a log.
pub fn parsed_by_sarif(alloc: Global, value: &Value) -> Result<Vec<Diagnostic>, AllocError>
    ensures { IfOk result (λ all. map read all.items ≡ sarif.sarif_parsed (view value.now)) }
{
    parsed_by_runs(alloc, items(value, "runs"))
}

/// The diagnostics of runs.
fn parsed_by_runs(alloc: Global, runs: &[Value]) -> Result<Vec<Diagnostic>, AllocError>
    ensures { IfOk result (λ all.
        map read all.items ≡ flat_items sarif.run_parsed (items_view runs.now)) }
{
    let mut all = Vec::new(alloc);
    for run in runs {
        push_results(alloc, &mut all, run, items(run, "results"))?;
    }
    Ok(all)
}

/// Adds the diagnostics of a run's results, of those that are told.
fn push_results(
    alloc: Global,
    all: &mut Vec<Diagnostic>,
    run: &Value,
    results: &[Value],
) -> Result<(), AllocError>
    ensures { OnOk result (map read all.new.items ≡ map read all.old.items
        ++ flat_items (sarif.result_parsed (view run.now)) (items_view results.now)) }
{
    for it in results {
        if is_parsed(it) {
            all.push(parsed_by_result(alloc, run, it)?)?;
        }
    }
    Ok(())
}

/// Whether a result is told: it isn't gone, didn't pass, applies, and isn't suppressed.
fn is_parsed(it: &Value) -> bool
    ensures { result ≡ sarif.is_parsed (view it.now) }
{
    !is_gone(it) && !has_passed(it) && !is_suppressed(items(it, "suppressions"))
}

/// Whether a result is of an earlier run, and not there any more.
fn is_gone(it: &Value) -> bool
    ensures { result ≡ sarif.is_gone (view it.now) }
{
    has_words(it, "baselineState", "absent")
}

/// Whether a result passed, or doesn't apply.
fn has_passed(it: &Value) -> bool
    ensures { result ≡ sarif.has_passed (view it.now) }
{
    has_words(it, "kind", "pass") || has_words(it, "kind", "notApplicable")
}

/// Whether a result with these suppressions is suppressed: there are some, and all count.
fn is_suppressed(suppressions: &[Value]) -> bool
    ensures { result ≡ sarif.are_suppressing (items_view suppressions.now) }
{
    !has_no_items(suppressions) && are_accepted(suppressions)
}

/// Whether suppressions count.
fn are_accepted(values: &[Value]) -> bool
    ensures { result ≡ all_items sarif.is_accepted (items_view values.now) }
{
    for value in values {
        if !is_accepted(value) {
            return false;
        }
    }
    true
}

/// Whether a suppression counts: it isn't one to be decided, or that was rejected.
fn is_accepted(value: &Value) -> bool
    ensures { result ≡ sarif.is_accepted (view value.now) }
{
    !has_words(value, "status", "underReview") && !has_words(value, "status", "rejected")
}

/// The diagnostic of a result.
fn parsed_by_result(alloc: Global, run: &Value, it: &Value) -> Result<Diagnostic, AllocError>
    ensures { IfOk result (λ parsed. read parsed ≡ sarif.result_read (view run.now) (view it.now)) }
{
    let mut parsed = unfixed(alloc, run, it)?;
    push_fixes(alloc, &mut parsed, run, items(it, "fixes"))?;
    Ok(parsed)
}

/// The diagnostic of a result, without its fixes.
fn unfixed(alloc: Global, run: &Value, it: &Value) -> Result<Diagnostic, AllocError>
    ensures { IfOk result (λ parsed. read parsed ≡ sarif.unfixed (view run.now) (view it.now)) }
{
    let mut parsed = unlocated(alloc, run, it)?;
    push_all_spans(alloc, &mut parsed.spans, run, it)?;
    push_all_rows(alloc, &mut parsed.notes, run, it)?;
    Ok(parsed)
}

/// The diagnostic of a result, without its locations.
fn unlocated(alloc: Global, run: &Value, it: &Value) -> Result<Diagnostic, AllocError>
    ensures { IfOk result (λ parsed. read parsed ≡ sarif.unlocated (view run.now) (view it.now)) }
{
    let text = text_of(alloc, run, it)?;
    let mut parsed = Diagnostic::new(alloc, severity_of(run, it), text.as_str())?;
    parsed.code = copied_code(alloc, run, it)?;
    Ok(parsed)
}

/// Adds the spans of a result's locations and steps.
fn push_all_spans(
    alloc: Global,
    spans: &mut Vec<Span>,
    run: &Value,
    it: &Value,
) -> Result<(), AllocError>
    ensures { OnOk result (map seen spans.new.items
        ≡ map seen spans.old.items ++ sarif.all_spans (view run.now) (view it.now)) }
{
    push_spans(alloc, spans, run, items(it, "locations"), true)?;
    push_spans(alloc, spans, run, items(it, "relatedLocations"), false)?;
    push_steps(alloc, spans, run, steps_of(it))
}

/// Adds a row for each of a result's locations that has no span.
fn push_all_rows(
    alloc: Global,
    rows: &mut Vec<String>,
    run: &Value,
    it: &Value,
) -> Result<(), AllocError>
    ensures { OnOk result (map string_bytes rows.new.items
        ≡ map string_bytes rows.old.items ++ sarif.all_rows (view run.now) (view it.now)) }
{
    push_rows(alloc, rows, run, items(it, "locations"))?;
    push_rows(alloc, rows, run, items(it, "relatedLocations"))
}

/// A copy of a result's code, if it has one.
fn copied_code(alloc: Global, run: &Value, it: &Value) -> Result<Option<String>, AllocError>
    ensures { IfOk result (λ code. option_map string_bytes code
        ≡ sarif.code_of (view run.now) (view it.now)) }
{
    match code_of(run, it) {
        Some(code) => Ok(Some(String::from_str(alloc, code)?)),
        None => Ok(None),
    }
}
