//! What sources and caches hold, return and show, by their own calls. What is not here is tried where
//! memory is refused.

use crate::caches::{given, map_of, owned, source};
use crate::comparing::{assert_is, assert_is_of, assert_text, assert_text_of};
use crate::folders::{file_in, new_folder, remove, write_file};
use ariadne::{Cache, FetchError, FileCache, FileError, FnCache, SourceTable};
use std::alloc::AllocError;
use std::process::Abort;
use std::rt::Files;

/// Whether a cache holds a source of this text.
fn holds<Id: Eq, C: Cache<Id>>(cache: &C, id: &Id, text: &str) -> bool {
    match C::get(cache, id) {
        Some(source) => source.text() == text,
        None => false,
    }
}

/// Whether a fetch returns a source of this text.
fn fetches<Id: Eq, C: Cache<Id>>(cache: &mut C, id: &Id, text: &str) -> bool
    requires { C.can_fetch cache.old }
    ensures { C.can_fetch cache.new }
{
    C::ensure(cache, id).is_ok() && holds(cache, id, text)
}

/// Asserts that a fetch returns a source of this text.
fn assert_fetched<Id: Eq, C: Cache<Id>>(rt: &impl Abort, cache: &mut C, id: &Id, text: &str)
    requires { C.can_fetch cache.old }
    ensures { C.can_fetch cache.new }
{
    assert_is(rt, fetches(cache, id, text), true)
}

/// The error of its own that a cache returns for an id.
fn error_of<Id: Eq, C: Cache<Id>>(rt: &impl Abort, cache: &mut C, id: &Id) -> C::Error
    requires { C.can_fetch cache.old }
    ensures { C.can_fetch cache.new }
{
    let Err(FetchError::Failed(error)) = C::ensure(cache, id) else {
        panic!(rt; "no error of the cache's own");
    };
    error
}

/// Asserts that a cache has a source of this text that has no name.
fn assert_unnamed<C: Cache<()>>(rt: &impl Abort, cache: &mut C, text: &str)
    requires { C.can_fetch cache.old }
{
    assert_fetched(rt, cache, &(), text);
    assert_is(rt, cache.display(&()), None)
}

#[test]
fn a_source_is_a_cache_without_names(rt: HostRuntime) {
    let mut source = source(&rt);
    assert_unnamed(&rt, &mut source, "ab");
    assert_unnamed(&rt, &mut (&source), "ab")
}

#[test]
fn an_error_names_the_id_that_a_cache_lacks(rt: HostRuntime) {
    let error = error_of(&rt, &mut ("a", source(&rt)), &"b");
    assert_is(&rt, error.name(), "b")
}

#[test]
fn a_map_shows_the_name_of_an_id_that_it_lacks(rt: HostRuntime) {
    let mut map = map_of(&rt, "a", "x");
    assert_is(&rt, fetches(&mut map, &"z", "x"), false);
    assert_is(&rt, map.display(&"z"), Some("z"))
}

/// Asserts that a text which is added to a table has this number, and is had by it.
fn assert_added(
    rt: &impl Abort,
    table: &mut SourceTable<&'static str>,
    text: &'static str,
    number: usize,
) {
    let added = table.add("a.txt", text).expect(rt, "memory");
    assert_is(rt, added, number);
    assert_fetched(rt, table, &number, text)
}

/// Asserts that a table of two sources lacks a third.
fn assert_no_third(rt: &(impl Abort + AllocGlobal), table: &mut SourceTable<&'static str>) {
    let names = (table.display(&1), table.display(&2));
    assert_is(rt, names, (Some("a.txt"), None));
    let error = error_of(rt, table, &2);
    assert_is(rt, error.number, 2);
    assert_text(rt, error.to_string(rt.alloc()), "Failed to fetch source 2")
}

#[test]
fn a_table_has_its_sources_by_number(rt: HostRuntime) {
    let mut table = SourceTable::new(rt.alloc());
    assert_added(&rt, &mut table, "x", 0);
    assert_added(&rt, &mut table, "y", 1);
    assert_no_third(&rt, &mut table)
}

/// Returns the same text for every id.
fn got(_id: &&'static str) -> Result<&'static str, ()> {
    Ok("got")
}

/// Asserts that what is told was made, and has this in it.
fn assert_holds(rt: &impl Abort, told: Result<String, AllocError>, part: &str) {
    assert_is(rt, told.expect(rt, "memory").contains(part), true)
}

/// Asserts that fetches of two ids return sources of these texts.
fn assert_both<Id: Eq, C: Cache<Id>>(
    rt: &impl Abort,
    cache: &mut C,
    first: (&Id, &str),
    second: (&Id, &str),
)
    requires { C.can_fetch cache.old }
    ensures { C.can_fetch cache.new }
{
    assert_fetched(rt, cache, first.0, first.1);
    assert_fetched(rt, cache, second.0, second.1)
}

#[test]
fn sources_that_are_given_replace_those_that_are_held(rt: HostRuntime) {
    let mut cache: FnCache<&'static str, _, &'static str> = FnCache::new(rt.alloc(), got);
    assert_both(&rt, &mut cache, (&"a", "got"), (&"b", "got"));
    let given = given(&rt, "a", "given");
    let mut cache = cache.with_sources(given).expect(&rt, "memory");
    assert_holds(&rt, format!(in rt.alloc(); "{cache:?}"), "given");
    assert_both(&rt, &mut cache, (&"a", "given"), (&"b", "got"))
}

/// Asserts that a fetch of a path returns the source of a file as it was first read, with this name.
fn assert_first<Id: Eq, C: Cache<Id>>(rt: &impl Abort, cache: &mut C, path: &Id, name: &str)
    requires { C.can_fetch cache.old }
    ensures { C.can_fetch cache.new }
{
    assert_fetched(rt, cache, path, "\u{feff}a\r\n");
    assert_is(rt, cache.display(path), Some(name))
}

/// Asserts that a cache reads the file at a path once, whether the path is a `String` or not.
fn assert_held<R: Files + Drop>(
    rt: &(impl Abort + AllocGlobal + Files),
    cache: &mut FileCache<R>,
    path: &str,
) {
    assert_first(rt, cache, &path, path);

    // What is held stays, under the same path as a `String` too.
    write_file(rt, path, "cd");
    assert_first(rt, cache, &owned(rt, path), path)
}

#[test]
fn a_file_is_read_once_under_either_kind_of_path(rt: HostRuntime) {
    let folder = new_folder(&rt);
    let file = file_in(&rt, &folder, "file.txt", b"\xef\xbb\xbfa\r\n");
    assert_held(&rt, &mut FileCache::new(&rt, rt.alloc()), file.as_str());
    remove(&rt, folder)
}

/// Asserts that the file at a path is read where the path is a `String`, and had by it as it is.
fn assert_read_first<R: Files + Drop>(
    rt: &(impl Abort + AllocGlobal),
    cache: &mut FileCache<R>,
    path: &str,
) {
    assert_fetched(rt, cache, &owned(rt, path), "cd");
    assert_fetched(rt, cache, &path, "cd")
}

#[test]
fn a_file_is_read_under_a_string_first(rt: HostRuntime) {
    let folder = new_folder(&rt);
    let file = file_in(&rt, &folder, "file.txt", b"cd");
    assert_read_first(&rt, &mut FileCache::new(&rt, rt.alloc()), file.as_str());
    remove(&rt, folder)
}

/// Asserts that the error of the file at a path is told in these words.
fn assert_told(rt: &(impl Abort + AllocGlobal), error: FileError, path: &str, words: &str) {
    assert_text_of(rt, path, error.to_string(rt.alloc()), words)
}

/// Asserts that a fetch of a path tells that its file has no text, in these words.
fn assert_no_text<R: Files + Drop>(
    rt: &(impl Abort + AllocGlobal),
    cache: &mut FileCache<R>,
    path: &str,
    words: &str,
) {
    assert_told(rt, error_of(rt, cache, &path), path, words);
    assert_is_of(rt, path, cache.get(&path).is_some(), false)
}

#[test]
fn what_can_not_be_read_is_an_error(rt: HostRuntime) {
    let mut cache = FileCache::new(&rt, rt.alloc());
    assert_no_text(&rt, &mut cache, ".", "file can't be read");
    assert_no_text(&rt, &mut cache, "no such file", "file can't be read");
    assert_no_text(&rt, &mut cache, "a\0b", "file can't be read")
}

/// What the system tells of an error.
fn told_of(rt: &(impl Abort + AllocGlobal), error: FileError) -> Result<String, AllocError> {
    error.fault().expect(rt, "a fault").to_string(rt.alloc())
}

#[test]
fn the_system_tells_why_a_file_can_not_be_read(rt: HostRuntime) {
    let mut cache = FileCache::new(&rt, rt.alloc());
    let error = error_of(&rt, &mut cache, &"no such file");
    assert_text(
        &rt,
        told_of(&rt, error),
        "No such file or directory (os error 2)",
    );
    let held = format!(in rt.alloc(); "{cache:?}").expect(&rt, "memory");
    let has_name = held.starts_with("FileCache");
    let has_fault = FileError::NotUtf8.fault().is_some();
    assert_is(&rt, (has_name, has_fault), (true, false))
}

/// Asserts that the bytes of the file at a path are no text, and that it is read again.
fn assert_read_again<R: Files + Drop>(
    rt: &(impl Abort + AllocGlobal + Files),
    cache: &mut FileCache<R>,
    path: &str,
) {
    assert_no_text(rt, cache, path, "file isn't UTF-8");
    write_file(rt, path, "ab");
    assert_fetched(rt, cache, &path, "ab")
}

#[test]
fn bytes_of_no_text_are_an_error_and_read_again(rt: HostRuntime) {
    let folder = new_folder(&rt);
    let file = file_in(&rt, &folder, "file.txt", b"a\xff");
    assert_read_again(&rt, &mut FileCache::new(&rt, rt.alloc()), file.as_str());
    remove(&rt, folder)
}
