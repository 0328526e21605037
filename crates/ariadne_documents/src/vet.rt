//! What `go vet -json` writes.

ghost use Rattle.std.specs.Prelude.{◌≡◌, ◌++◌, is_some, map, option_map, IfOk, OnOk, Some};
ghost use Rattle.serde_json.specs.View.{items_view, members_view, view};
ghost use Rattle.serde_json.specs.Find.{as_array};
ghost use Rattle.ariadne_parse.specs.Members.{all_items};
ghost use Rattle.ariadne_parse.specs.Spans.{seen};
ghost use Rattle.ariadne_parse.specs.Read.{read};
ghost use Rattle.ariadne_sarif.specs.DocumentParts.{are_some_of, coded, filed, parsed_each};
ghost use Rattle.ariadne_documents.specs.Objects.{all_members, any_member, flat_members};
ghost use Rattle.ariadne_parse.specs.declared.diagnostic.Severity.TheVariants.{Error};
ghost use Rattle.ariadne_documents.specs.Vet as vet;

use crate::coded::coded as coded_diagnostic;
use ariadne_parse::json::{text, words};
use ariadne_parse::pieces::{split_at_last, whole_number};
use ariadne_parse::{Diagnostic, Location, Severity, Span, Unit};
use ariadne_sarif::parts::{listed, own_span};
use serde_json::{Map, Value};
use std::alloc::{AllocError, Global};

/// Whether a value is what `go vet` writes: an object of packages, of which one has a list of diagnostics.
pub(crate) fn is_vet(value: &Value) -> bool
    ensures { result ≡ vet.is_vet (view value.now) }
{
    match value.as_object() {
        Some(packages) => are_packages(packages) && have_list(packages),
        None => false,
    }
}

/// Whether members are packages.
fn are_packages(packages: &Map<String, Value>) -> bool
    ensures { result ≡ all_members vet.is_package (members_view packages.now.entries) }
{
    for (_, package) in packages {
        if !is_package(package) {
            return false;
        }
    }
    true
}

/// Whether a value is a package: an object of analyzers.
fn is_package(value: &Value) -> bool
    ensures { result ≡ vet.is_package (view value.now) }
{
    match value.as_object() {
        Some(analyzers) => are_analyzers(analyzers),
        None => false,
    }
}

/// Whether members are analyzers.
fn are_analyzers(analyzers: &Map<String, Value>) -> bool
    ensures { result ≡ all_members vet.is_analyzer (members_view analyzers.now.entries) }
{
    for (_, analyzer) in analyzers {
        if !is_analyzer(analyzer) {
            return false;
        }
    }
    true
}

/// Whether a value is what an analyzer tells: a list of diagnostics, one at least, or an error.
fn is_analyzer(value: &Value) -> bool
    ensures { result ≡ vet.is_analyzer (view value.now) }
{
    are_some_vetted(listed(value)) || text(value, "error").is_some()
}

/// Whether values are diagnostics, one at least.
fn are_some_vetted(values: &[Value]) -> bool
    ensures { result ≡ are_some_of vet.is_vetted (items_view values.now) }
{
    match values.split_first() {
        Some((first, others)) => is_vetted(first) && are_vetted(others),
        None => false,
    }
}

/// Whether one of packages has a list of diagnostics.
fn have_list(packages: &Map<String, Value>) -> bool
    ensures { result ≡ any_member vet.has_list (members_view packages.now.entries) }
{
    for (_, package) in packages {
        if has_list(package) {
            return true;
        }
    }
    false
}

/// Whether a package has a list of diagnostics.
fn has_list(value: &Value) -> bool
    ensures { result ≡ vet.has_list (view value.now) }
{
    match value.as_object() {
        Some(analyzers) => is_list_among(analyzers),
        None => false,
    }
}

/// Whether one of analyzers has a list of diagnostics.
fn is_list_among(analyzers: &Map<String, Value>) -> bool
    ensures { result ≡ any_member (λ analyzer. is_some (as_array analyzer))
        (members_view analyzers.now.entries) }
{
    for (_, analyzer) in analyzers {
        if analyzer.is_array() {
            return true;
        }
    }
    false
}

/// Whether values are diagnostics.
fn are_vetted(values: &[Value]) -> bool
    ensures { result ≡ all_items vet.is_vetted (items_view values.now) }
{
    for value in values {
        if !is_vetted(value) {
            return false;
        }
    }
    true
}

/// Whether a value is a diagnostic.
fn is_vetted(value: &Value) -> bool
    ensures { result ≡ vet.is_vetted (view value.now) }
{
    text(value, "posn").is_some() && text(value, "message").is_some()
}

/// The diagnostics of all packages.
pub(crate) fn parsed_by_vet(alloc: Global, value: &Value) -> Result<Vec<Diagnostic>, AllocError>
    ensures { IfOk result (λ all. map read all.items ≡ vet.vet_parsed (view value.now)) }
{
    let mut all = Vec::new(alloc);
    if let Some(packages) = value.as_object() {
        push_packages(alloc, &mut all, packages)?;
    }
    Ok(all)
}

/// Adds the diagnostics of packages.
fn push_packages(
    alloc: Global,
    all: &mut Vec<Diagnostic>,
    packages: &Map<String, Value>,
) -> Result<(), AllocError>
    ensures { OnOk result (map read all.new.items ≡ map read all.old.items
        ++ flat_members vet.package_parsed (members_view packages.now.entries)) }
{
    for (_, package) in packages {
        if let Some(analyzers) = package.as_object() {
            push_analyzers(alloc, all, analyzers)?;
        }
    }
    Ok(())
}

/// Adds the diagnostics of analyzers.
fn push_analyzers(
    alloc: Global,
    all: &mut Vec<Diagnostic>,
    analyzers: &Map<String, Value>,
) -> Result<(), AllocError>
    ensures { OnOk result (map read all.new.items ≡ map read all.old.items
        ++ flat_members vet.analyzer_parsed (members_view analyzers.now.entries)) }
{
    for (name, analyzer) in analyzers {
        push_analyzer(alloc, all, name.as_str(), analyzer)?;
    }
    Ok(())
}

/// Adds the diagnostics of an analyzer with this name, and its error.
fn push_analyzer(
    alloc: Global,
    all: &mut Vec<Diagnostic>,
    name: &str,
    value: &Value,
) -> Result<(), AllocError>
    ensures { OnOk result (map read all.new.items ≡ map read all.old.items
        ++ vet.analyzer_parsed name.now (view value.now)) }
{
    push_vetted(alloc, all, name, listed(value))?;
    if let Some(error) = text(value, "error") {
        all.push(of_analyzer(alloc, name, error, "", None)?)?;
    }
    Ok(())
}

/// Adds the diagnostics of an analyzer.
fn push_vetted(
    alloc: Global,
    all: &mut Vec<Diagnostic>,
    name: &str,
    values: &[Value],
) -> Result<(), AllocError>
    ensures { OnOk result (map read all.new.items ≡ map read all.old.items
        ++ parsed_each (vet.vetted_read name.now) (items_view values.now)) }
{
    for value in values {
        all.push(parsed_by_one(alloc, name, value)?)?;
    }
    Ok(())
}

/// A diagnostic of an analyzer.
fn parsed_by_one(alloc: Global, name: &str, value: &Value) -> Result<Diagnostic, AllocError>
    ensures { IfOk result (λ parsed. read parsed ≡ vet.vetted_read name.now (view value.now)) }
{
    let position = words(value, "posn");
    let span = vetted_span(alloc, value)?;
    of_analyzer(alloc, name, words(value, "message"), position, span)
}

/// A diagnostic of an analyzer with this message, at this position and span.
fn of_analyzer(
    alloc: Global,
    name: &str,
    message: &str,
    position: &str,
    span: Option<Span>,
) -> Result<Diagnostic, AllocError>
    ensures { IfOk result (λ parsed. read parsed
        ≡ coded (Some name.now) (filed Error message.now position.now (option_map seen span))) }
{
    let code = String::from_str(alloc, name)?;
    coded_diagnostic(alloc, Some(code), Severity::Error, message, position, span)
}

/// The span of a diagnostic, if its position has a line.
fn vetted_span(alloc: Global, value: &Value) -> Result<Option<Span>, AllocError>
    ensures { IfOk result (λ it. option_map seen it ≡ vet.vetted_span (view value.now)) }
{
    match position_of(words(value, "posn")) {
        Some((file, start)) => own_span(alloc, file, Unit::Byte, Some(start), end_of(value)),
        None => Ok(None),
    }
}

/// Where a diagnostic ends, if it says so.
fn end_of(value: &Value) -> Option<Location>
    ensures { result ≡ vet.end_of (view value.now) }
{
    let (_, end) = position_of(words(value, "end"))?;
    Some(end)
}

/// The file and the location of a position `FILE:LINE:COLUMN` or `FILE:LINE`.
fn position_of(text: &str) -> Option<(&str, Location)>
    ensures { option_map (λ at. (at.0.now, at.1)) result ≡ vet.position_of text.now }
{
    let (front, last) = split_number(text)?;
    match split_number(front) {
        Some((file, line)) => Some((
            file,
            Location {
                line,
                column: Some(last),
            },
        )),
        None => Some((
            front,
            Location {
                line: last,
                column: None,
            },
        )),
    }
}

/// What stands in front of the last colon, and the number behind it.
fn split_number(text: &str) -> Option<(&str, usize)>
    ensures { option_map (λ at. (at.0.now, at.1)) result ≡ vet.split_number text.now }
{
    let (front, number) = split_at_last(text, ':')?;
    Some((front, whole_number(number)?))
}
