//! Draws the report of a case over the cache that the case names.

use crate::discreet::Discreet;
use crate::forgetful::Forgetful;
use crate::making::{counted, text_in};
use crate::members::{has, list, text, word};
use crate::offsets::{Placed, offsets_at};
use crate::safely::answer_safely;
use crate::sending::{Answer, sending_of};
use ariadne::{Cache, FileCache, FnCache, Source, Span};
use std::alloc::{AllocError, Global};
use std::collections::HashMap;
use std::ops::{Range, RangeInclusive};
use toml::Value;

/// Where the sources of a case come from.
#[derive(Clone, Copy)]
enum Sources {
    One,
    Given,
    Files,
    NoMemory,
}

static SOURCES: [(&str, Sources); 2] = [
    ("FileCache", Sources::Files),
    ("no memory", Sources::NoMemory),
];

/// Where the sources of a case come from.
fn sources_of(case: &Value) -> Sources {
    if has(case, "source") {
        return Sources::One;
    }
    word(case, "cache", &SOURCES, Sources::Given)
}

/// Whether the pieces of a case end with their last offset, `0..=4`. All have one form.
fn is_inclusive(case: &Value) -> bool {
    let told = list(case, "labels").first().unwrap_or(case);
    offsets_at(told).is_inclusive
}

/// What is drawn of a case's report.
pub fn answer_of(rt: &HostRuntime, case: &Value) -> Result<Answer, AllocError> {
    let alloc = rt.alloc();
    if has(case, "safe") {
        return answer_safely(alloc, case);
    }
    match (sources_of(case), is_inclusive(case)) {
        (Sources::One, false) => plain::<Range<usize>>(alloc, case),
        (Sources::One, true) => plain::<RangeInclusive<usize>>(alloc, case),
        (Sources::Given, false) => named::<(String, Range<usize>)>(alloc, case),
        (Sources::Given, true) => named::<(String, RangeInclusive<usize>)>(alloc, case),
        (Sources::Files, _) => over_cache(alloc, case, &mut FileCache::new(rt, alloc)),
        (Sources::NoMemory, _) => over_cache(alloc, case, &mut Forgetful),
    }
}

/// What is drawn of a case over one source without an id.
fn plain<S: Placed + Span<SourceId = ()>>(
    alloc: Global,
    case: &Value,
) -> Result<Answer, AllocError> {
    let mut source = counted(alloc, text(case, "source").unwrap_or(""), case)?;
    sending_of::<S>(alloc, case)?.over(&mut source)
}

/// What is drawn of a case over a cache of sources with ids.
fn over_cache<C: Cache<String>>(
    alloc: Global,
    case: &Value,
    cache: &mut C,
) -> Result<Answer, AllocError>
    requires { C.can_fetch cache.old }
{
    sending_of::<(String, Range<usize>)>(alloc, case)?.over(cache)
}

/// Fails for every id.
fn missing(_id: &String) -> Result<String, ()> {
    Err(())
}

/// The sources of a case by their ids.
type Given = HashMap<String, Source<String>>;

/// Adds a source of a case.
fn add_source(alloc: Global, given: &mut Given, told: &Value) -> Result<(), AllocError> {
    let source = counted(alloc, text_in(told), told)?;
    let id = text(told, "id").unwrap_or("").to_string(alloc)?;
    given.insert(id, source)?;
    Ok(())
}

/// The sources of a case.
fn given_sources(alloc: Global, case: &Value) -> Result<Given, AllocError> {
    let mut given = HashMap::new(alloc);
    for told in list(case, "sources") {
        add_source(alloc, &mut given, told)?;
    }
    Ok(given)
}

/// The id that shows no name.
fn hidden_in(case: &Value) -> &str {
    text(case, "hidden").unwrap_or("")
}

/// What is drawn of a case over sources that have ids and are given to a cache. It is held by one of
/// the program's own, which can hide the name of a source.
fn named<S: Placed + Span<SourceId = String>>(
    alloc: Global,
    case: &Value,
) -> Result<Answer, AllocError> {
    let given = given_sources(alloc, case)?;
    let mut cache = Discreet {
        cache: FnCache::new(alloc, missing).with_sources(given)?,
        is_hiding: has(case, "hidden"),
        hidden: hidden_in(case),
    };
    sending_of::<S>(alloc, case)?.over(&mut cache)
}
