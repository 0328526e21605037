//! The steps that lead to results of SARIF, by their code flows.

ghost use Rattle.std.specs.Prelude.{◌≡◌, ◌++◌, map, option_map, string_bytes, IfOk, OnOk};
ghost use Rattle.serde_json.specs.View.{items_view, view};
ghost use Rattle.ariadne_parse.specs.Spans.{seen};
ghost use Rattle.ariadne_sarif.specs.SarifFlows as flows;

use crate::sarif_spans::span_at;
use ariadne_parse::Span;
use ariadne_parse::json::items;
use serde_json::Value;
use std::alloc::{AllocError, Global};

/// The steps of a result: those of the first thread of its first code flow.
pub(crate) fn steps_of(it: &Value) -> &[Value]
    ensures { items_view result.now ≡ flows.steps_of (view it.now) }
{
    match thread_of(it) {
        Some(thread) => items(thread, "locations"),
        None => &[],
    }
}

/// The first thread of a result's first code flow.
fn thread_of(it: &Value) -> Option<&Value>
    ensures { option_map (λ v. view v.now) result ≡ flows.thread_of (view it.now) }
{
    first_at(first_at(it, "codeFlows")?, "threadFlows")
}

/// The first item of a list in a member.
fn first_at<'v>(value: &'v Value, name: &str) -> Option<&'v Value>
    ensures { option_map (λ v. view v.now) result ≡ flows.first_at name.now (view value.now) }
{
    value.get(name)?.get(0usize)
}

/// Adds the spans of steps.
pub(crate) fn push_steps(
    alloc: Global,
    all: &mut Vec<Span>,
    run: &Value,
    steps: &[Value],
) -> Result<(), AllocError>
    ensures { OnOk result (map seen all.new.items
        ≡ map seen all.old.items ++ flows.step_spans (view run.now) 1 (items_view steps.now)) }
{
    let mut number = 1;
    for step in steps {
        if let Some(span) = step_span(alloc, run, number, step)? {
            all.push(span)?;
        }
        number += 1;
    }
    Ok(())
}

/// The span of a step that has this number, if it has one. It says the number in front of its message.
fn step_span(
    alloc: Global,
    run: &Value,
    number: usize,
    step: &Value,
) -> Result<Option<Span>, AllocError>
    ensures { IfOk result (λ it. option_map seen it
        ≡ flows.step_span (view run.now) number (view step.now)) }
{
    let Some(location_value) = step.get("location") else {
        return Ok(None);
    };
    let Some(mut span) = span_at(alloc, run, location_value, false)? else {
        return Ok(None);
    };
    span.text = step_text(alloc, number, span.text.as_str())?;
    Ok(Some(span))
}

/// The number of a step, and its message behind it.
fn step_text(alloc: Global, number: usize, message: &str) -> Result<String, AllocError>
    ensures { IfOk result (λ text. string_bytes text ≡ flows.step_text number message.now) }
{
    format!(in alloc; "({number}) {message}")
}
