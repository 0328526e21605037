//! What an entry in TOML says of columns, ends and severities, where that is not left out.

ghost use Rattle.std.specs.Prelude.{◌≡◌, codes, unwrap_or, IfErr, IfOk, Some};
ghost use Rattle.toml.specs.View.{view};
ghost use Rattle.ariadne_matcher_tables.specs.EntryFaults.{IsOfMember};
ghost use Rattle.ariadne_matcher_tables.specs.TableMembers.{number_at, text_at};
ghost use Rattle.ariadne_matcher_tables.specs.Options.{end_named, escapes_named, severity_named, stops_of, unit_named};

use crate::members::{number, text};
use crate::refusal::{Choices, Fault, Wanted};
use ariadne_matchers::entry::Severity;
use ariadne_matchers::measure::{Measure, Unit};
use std::alloc::Global;
use toml::Value;

/// How far tab stops of a terminal stand from each other.
const STOP: usize = 8;

/// What columns count: characters where nothing else is said. A tab counts as one, but on a terminal.
pub(crate) fn measure(alloc: Global, given: &Value) -> Result<Measure, Fault>
    ensures unit { IfOk result (λ measure. Some measure.unit
        ≡ unit_named (unwrap_or (text_at (codes "columns") (view given.now)) (codes "characters"))) }
    ensures tabs { IfOk result (λ measure. measure.tabs
        ≡ stops_of measure.unit (number_at (codes "tabs") (view given.now))) }
    ensures fault { IfErr result (IsOfMember (view given.now)) }
{
    let unit = unit(alloc, given)?;
    match (unit, number(given, "tabs")?) {
        (_, Some(0)) => Err(Fault::Kind {
            member: "tabs",
            wanted: Wanted::NumberFromOne,
        }),
        (Unit::Display, _) => Ok(Measure { unit, tabs: STOP }),
        (_, Some(tabs)) => Ok(Measure {
            unit,
            tabs: tabs as usize,
        }),
        (_, None) => Ok(Measure { unit, tabs: 1 }),
    }
}

/// What columns count, but at tabs.
fn unit(alloc: Global, given: &Value) -> Result<Unit, Fault>
    ensures unit { IfOk result (λ unit. Some unit
        ≡ unit_named (unwrap_or (text_at (codes "columns") (view given.now)) (codes "characters"))) }
    ensures fault { IfErr result (IsOfMember (view given.now)) }
{
    let word = text(given, "columns")?.unwrap_or("characters");
    match unit_of(word) {
        Some(unit) => Ok(unit),
        None => Err(Fault::choice(alloc, "columns", word, Choices::Units)),
    }
}

/// The unit of this name.
fn unit_of(word: &str) -> Option<Unit>
    ensures { result ≡ unit_named word.now }
{
    if word == "characters" {
        Some(Unit::Characters)
    } else if word == "bytes" {
        Some(Unit::Bytes)
    } else if word == "utf16" {
        Some(Unit::Utf16)
    } else if word == "display" {
        Some(Unit::Display)
    } else {
        None
    }
}

/// Whether an end is the last character's column: it is the one behind it where nothing else is said.
pub(crate) fn ends_at_last(alloc: Global, given: &Value) -> Result<bool, Fault>
    ensures end { IfOk result (λ is_last. Some is_last
        ≡ end_named (unwrap_or (text_at (codes "end") (view given.now)) (codes "behind"))) }
    ensures fault { IfErr result (IsOfMember (view given.now)) }
{
    match text(given, "end")? {
        Some("last") => Ok(true),
        Some("behind") | None => Ok(false),
        Some(word) => Err(Fault::choice(alloc, "end", word, Choices::Ends)),
    }
}

/// Whether `%25` and the like stand for characters.
pub(crate) fn is_escaped(alloc: Global, given: &Value) -> Result<bool, Fault>
    ensures escapes { IfOk result (λ is_escaped. Some is_escaped
        ≡ escapes_named (text_at (codes "escapes") (view given.now))) }
    ensures fault { IfErr result (IsOfMember (view given.now)) }
{
    match text(given, "escapes")? {
        Some("percent") => Ok(true),
        None => Ok(false),
        Some(word) => Err(Fault::choice(alloc, "escapes", word, Choices::Escapes)),
    }
}

/// The severity where no word tells it: that of errors where nothing else is said.
pub(crate) fn severity(alloc: Global, given: &Value) -> Result<Severity, Fault>
    ensures severity { IfOk result (λ severity. Some severity
        ≡ severity_named (unwrap_or (text_at (codes "severity") (view given.now)) (codes "error"))) }
    ensures fault { IfErr result (IsOfMember (view given.now)) }
{
    let word = text(given, "severity")?.unwrap_or("error");
    match severity_of(word) {
        Some(severity) => Ok(severity),
        None => Err(Fault::choice(alloc, "severity", word, Choices::Severities)),
    }
}

/// The severity of this name.
pub(crate) fn severity_of(word: &str) -> Option<Severity>
    ensures { result ≡ severity_named word.now }
{
    if word == "error" {
        Some(Severity::Error)
    } else if word == "warning" {
        Some(Severity::Warning)
    } else if word == "note" {
        Some(Severity::Note)
    } else {
        None
    }
}
