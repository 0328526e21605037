//! Sources and caches when memory is refused: each request in turn, until a call meets no refusal.

use crate::asserts::source_of;
use crate::folders::{file_in, new_folder, remove};
use crate::refused::{At, MOST_REQUESTS, assert_at, assert_refused, assert_tried, refuse_at};
use ariadne::{
    Cache, FetchError, FileCache, FnCache, Source, SourceMap, SourceTable, SourceText, sources,
};
use ariadne_testing::{Folder, texts};
use std::alloc::{AllocError, Global};
use std::cell::Cell;
use std::collections::HashMap;
use std::fs::Files;
use std::process::Abort;

/// The text of the sources that are made.
const LINES: &str = "a\nb\nc";

/// Whether a source has this text, and its three lines.
fn has_lines<T: SourceText>(source: &Source<T>) -> bool {
    source.text() == LINES && source.lines().len() == 3
}

/// Whether a cache holds this text under an id, or none.
pub(crate) fn holds<Id: Eq, C: Cache<Id>>(cache: &C, id: &Id, text: Option<&str>) -> bool {
    C::get(cache, id).map(|source| source.text()) == text
}

/// Makes a source, and returns whether it is whole.
fn made_source_is_whole(alloc: Global) -> Result<bool, AllocError> {
    Ok(has_lines(&Source::from(alloc, LINES)?))
}

/// Refuses the nth request of making a source.
fn try_source(rt: &(impl Abort + AllocGlobal), nth: u16) -> bool {
    refuse_at(rt, nth);
    assert_tried(rt, ("from", nth), made_source_is_whole(rt.alloc()))
}

/// Copies a source, and returns whether the copy equals it.
fn copy_equals(source: &Source) -> Result<bool, AllocError> {
    Ok(source.clone()? == *source)
}

/// Refuses the nth request of a copy of a source, which keeps the source as it was.
fn try_copy(rt: &(impl Abort + AllocGlobal), nth: u16) -> bool {
    let source = source_of(rt.alloc(), LINES).expect(rt, "memory");
    refuse_at(rt, nth);
    let is_equal = copy_equals(&source);
    assert_at(rt, ("clone", nth), "the source", has_lines(&source));
    assert_tried(rt, ("clone", nth), is_equal)
}

/// Texts, of which the last one of an id counts.
const LAST: [(&str, &str); 3] = [("a", "x"), ("b", "y"), ("a", "z")];

/// Whether a map has the last text of each id.
fn has_last(map: &SourceMap<&'static str, &'static str>) -> bool {
    holds(map, &"a", Some("z")) && holds(map, &"b", Some("y"))
}

/// Makes a map of sources, and returns whether it has the last text of each id.
fn made_map_has_last(alloc: Global) -> Result<bool, AllocError> {
    Ok(has_last(&sources(alloc, LAST)?))
}

/// Refuses the nth request of a map of sources.
fn try_map(rt: &(impl Abort + AllocGlobal), nth: u16) -> bool {
    refuse_at(rt, nth);
    assert_tried(rt, ("sources", nth), made_map_has_last(rt.alloc()))
}

/// The ids of the sources that a cache is given.
const GIVEN: &[&str] = &["a", "b", "c", "d"];

/// These sources.
fn given(alloc: Global) -> Result<HashMap<&'static str, Source<&'static str>>, AllocError> {
    let mut given = HashMap::new(alloc);
    for id in GIVEN {
        let source = Source::from(alloc, "given")?;
        given.insert(*id, source)?;
    }
    Ok(given)
}

/// A function that has a source for every id.
fn got(_id: &&str) -> Result<&'static str, u8> {
    Ok("got")
}

/// Whether a cache holds the sources that it was given.
fn holds_given<C: Cache<&'static str>>(cache: &C) -> bool {
    for id in GIVEN {
        if !holds(cache, id, Some("given")) {
            return false;
        }
    }
    true
}

/// Gives a cache sources, and returns whether it holds them.
fn given_are_held(
    alloc: Global,
    given: HashMap<&'static str, Source<&'static str>>,
) -> Result<bool, AllocError> {
    let cache: FnCache<&'static str, _, &'static str> = FnCache::new(alloc, got);
    Ok(holds_given(&cache.with_sources(given)?))
}

/// Refuses the nth request of giving a cache sources, which drops it.
fn try_given(rt: &(impl Abort + AllocGlobal), nth: u16) -> bool {
    let given = given(rt.alloc()).expect(rt, "memory");
    refuse_at(rt, nth);
    assert_tried(rt, ("with_sources", nth), given_are_held(rt.alloc(), given))
}

/// Refuses the nth request of adding a source to a table, which then has none.
fn try_table(rt: &(impl Abort + AllocGlobal), nth: u16) -> bool {
    let mut table = SourceTable::new(rt.alloc());
    refuse_at(rt, nth);
    let is_refused = assert_refused(rt, ("add", nth), table.add("abc.txt", LINES).is_err());
    let text = if is_refused { None } else { Some(LINES) };
    assert_at(rt, ("add", nth), "the table", holds(&table, &0, text));
    is_refused
}

/// Refuses the nth request of making a source, or what holds some.
fn try_made(rt: &(impl Abort + AllocGlobal), made: u8, nth: u16) -> bool {
    match made {
        0 => try_source(rt, nth),
        1 => try_copy(rt, nth),
        2 => try_map(rt, nth),
        3 => try_given(rt, nth),
        _ => try_table(rt, nth),
    }
}

#[test]
fn a_refused_source_is_an_error(rt: HostRuntime) {
    for made in 0..5u8 {
        for nth in 1..MOST_REQUESTS {
            if !try_made(&rt, made, nth) {
                break;
            }
        }
    }
}

/// Whether a cache has a source of an id, fetched where it was not held, which it then holds. Where
/// it is to have none, whether the fetch fails otherwise than for want of memory.
fn is_fetched<Id: Eq, C: Cache<Id>>(cache: &mut C, id: &Id, text: Option<&str>) -> bool
    requires { C.can_fetch cache.old }
    ensures { C.can_fetch cache.new }
{
    let is_failed = matches!(C::ensure(cache, id), Err(FetchError::Failed(_)));
    is_failed == text.is_none() && holds(cache, id, text)
}

/// Whether a fetch has no memory.
fn lacks_memory<Id: Eq, C: Cache<Id>>(cache: &mut C, id: &Id) -> bool
    requires { C.can_fetch cache.old }
    ensures { C.can_fetch cache.new }
{
    matches!(C::ensure(cache, id), Err(FetchError::Memory(_)))
}

/// Asserts that a cache is as it was after a refused fetch, or holds what was fetched, and that the
/// next fetch succeeds. Its `held` is held all the while.
fn assert_fetched<Id: Eq, C: Cache<Id>>(
    rt: &(impl Abort + AllocGlobal),
    at: At<'_>,
    cache: &mut C,
    ids: (&Id, &Id),
    text: Option<&str>,
    is_refused: bool,
)
    requires { C.can_fetch cache.old }
    ensures { C.can_fetch cache.new }
{
    let (held, id) = ids;
    let now = if is_refused { None } else { text };
    assert_at(rt, at, "what is fetched", holds(cache, id, now));
    assert_at(rt, at, "what was held", holds(cache, held, Some("held")));
    assert_at(rt, at, "the next fetch", is_fetched(cache, id, text))
}

/// Refuses the nth request of a fetch from a cache that has `held` under one id, and is to have
/// this text under the other, or none.
fn try_fetch<Id: Eq, C: Cache<Id>>(
    rt: &(impl Abort + AllocGlobal),
    at: At<'_>,
    cache: &mut C,
    ids: (&Id, &Id),
    text: Option<&str>,
) -> bool
    requires { C.can_fetch cache.old }
{
    assert!(rt; is_fetched(cache, ids.0, Some("held")));
    refuse_at(rt, at.1);
    let is_refused = assert_refused(rt, at, lacks_memory(cache, ids.1));
    assert_fetched(rt, at, cache, ids, text, is_refused);
    is_refused
}

/// Two ids of a function, or the paths of two files: that of what is held, and another.
type Names<'a> = (&'a String, &'a String);

/// The texts of a function that counts its calls.
fn counted(calls: &Cell<u8>, id: &String) -> Result<&'static str, u8> {
    calls.set(calls.get().wrapping_add(1));
    if id.as_str() == "held" {
        Ok("held")
    } else {
        Ok("got")
    }
}

/// Refuses the nth request of a fetch from a function, by either call. The function is called at
/// most once.
fn try_function(
    rt: &(impl Abort + AllocGlobal),
    (held, id): Names<'_>,
    is_lent: bool,
    nth: u16,
) -> bool {
    let calls = Cell::new(0u8);
    let mut cache: FnCache<String, _, &str> = FnCache::new(
        rt.alloc(),
        |id: &String| -> Result<&str, u8> { counted(&calls, id) },
    );
    assert!(rt; cache.ensure(held).is_ok());
    calls.set(0);
    refuse_at(rt, nth);
    let is_memory = if is_lent {
        matches!(cache.fetch(id), Err(FetchError::Memory(_)))
    } else {
        matches!(cache.ensure(id), Err(FetchError::Memory(_)))
    };
    let at = ("a function", nth);
    let is_refused = assert_refused(rt, at, is_memory);
    assert_at(rt, at, "the calls", calls.get() <= 1);
    assert_fetched(rt, at, &mut cache, (held, id), Some("got"), is_refused);
    is_refused
}

/// Refuses the nth request of a fetch from the files at two paths.
fn try_paths(rt: &(impl Abort + AllocGlobal + Files), (held, id): Names<'_>, nth: u16) -> bool {
    let mut cache = FileCache::new(rt, rt.alloc());
    try_fetch(rt, ("files", nth), &mut cache, (held, id), Some("got"))
}

/// The same of paths that are lent.
fn try_lent_paths(
    rt: &(impl Abort + AllocGlobal + Files),
    (held, id): Names<'_>,
    nth: u16,
) -> bool {
    let (held, id) = (held.as_str(), id.as_str());
    let mut cache = FileCache::new(rt, rt.alloc());
    try_fetch(rt, ("files", nth), &mut cache, (&held, &id), Some("got"))
}

/// Refuses the nth request of a fetch of an id that a cache does not know.
fn try_unknown<C: Cache<&'static str>>(
    rt: &(impl Abort + AllocGlobal),
    at: At<'_>,
    cache: &mut C,
) -> bool
    requires { C.can_fetch cache.old }
{
    try_fetch(rt, at, cache, (&"held", &"b"), None)
}

/// A source that such a cache knows.
fn source(rt: &(impl Abort + AllocGlobal)) -> Source<&'static str> {
    Source::from(rt.alloc(), "held").expect(rt, "memory")
}

/// Refuses the nth request of a fetch from a pair.
fn try_pair(rt: &(impl Abort + AllocGlobal), nth: u16) -> bool {
    try_unknown(rt, ("a pair", nth), &mut ("held", source(rt)))
}

/// Refuses the nth request of a fetch from a pair with a lent source.
fn try_lent_source(rt: &(impl Abort + AllocGlobal), nth: u16) -> bool {
    let source = source(rt);
    try_unknown(rt, ("a lent source", nth), &mut ("held", &source))
}

/// Refuses the nth request of a fetch from a map.
fn try_full_map(rt: &(impl Abort + AllocGlobal), nth: u16) -> bool {
    let mut map = sources(rt.alloc(), [("held", "held")]).expect(rt, "memory");
    try_unknown(rt, ("a map", nth), &mut map)
}

/// Refuses the nth request of a fetch from a lent pair.
fn try_lent_pair(rt: &(impl Abort + AllocGlobal), nth: u16) -> bool {
    let mut pair = ("held", source(rt));
    let mut lent = &mut pair;
    try_unknown(rt, ("a lent pair", nth), &mut lent)
}

/// Refuses the nth request of a fetch from a pair in a box.
fn try_boxed_pair(rt: &(impl Abort + AllocGlobal), nth: u16) -> bool {
    let mut boxed = Box::new(rt.alloc(), ("held", source(rt))).expect(rt, "memory");
    try_unknown(rt, ("a pair in a box", nth), &mut boxed)
}

/// Refuses the nth request of a fetch from a cache of one kind.
fn try_kind(
    rt: &(impl Abort + AllocGlobal + Files),
    kind: u8,
    ids: Names<'_>,
    paths: Names<'_>,
    nth: u16,
) -> bool {
    match kind {
        0 => try_pair(rt, nth),
        1 => try_lent_source(rt, nth),
        2 => try_full_map(rt, nth),
        3 => try_lent_pair(rt, nth),
        4 => try_boxed_pair(rt, nth),
        5 => try_function(rt, ids, true, nth),
        6 => try_function(rt, ids, false, nth),
        7 => try_paths(rt, paths, nth),
        _ => try_lent_paths(rt, paths, nth),
    }
}

/// Refuses each request of a fetch from a cache of each kind.
fn try_kinds(rt: &(impl Abort + AllocGlobal + Files), ids: Names<'_>, paths: Names<'_>) {
    for kind in 0..9u8 {
        for nth in 1..MOST_REQUESTS {
            if !try_kind(rt, kind, ids, paths, nth) {
                break;
            }
        }
    }
}

/// Two ids of a function, and the paths of two files of a folder.
fn names_in(rt: &(impl Abort + AllocGlobal + Files), folder: &Folder) -> Vec<String> {
    let held = file_in(rt, folder, "held.txt", b"held");
    let got = file_in(rt, folder, "got.txt", b"got");
    texts(rt.alloc(), &["held", "x", held.as_str(), got.as_str()]).expect(rt, "memory")
}

/// Refuses each request of a fetch of these.
fn try_names(rt: &(impl Abort + AllocGlobal + Files), names: &[String]) {
    match names {
        [held, id, path, other] => try_kinds(rt, (held, id), (path, other)),
        _ => panic!(rt; "other names"),
    }
}

#[test]
fn a_refused_fetch_leaves_the_cache_as_it_was(rt: HostRuntime) {
    let folder = new_folder(&rt);
    let names = names_in(&rt, &folder);
    try_names(&rt, names.as_slice());
    remove(&rt, folder)
}
