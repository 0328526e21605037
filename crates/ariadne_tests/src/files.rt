//! Reports over files: what is drawn once they change.

use crate::asserts::Why;
use crate::caches::{assert_over, one_label};
use crate::folders::{file_in, new_folder, remove};
use ariadne::{FileCache, Report};
use std::fs;
use std::ops::Range;
use std::process::Abort;
use std::rt::Files;

/// The report of a label on the second character of the file at a path.
fn report_of_file<'p>(
    rt: &(impl Abort + AllocGlobal),
    path: &'p str,
) -> Report<'static, (&'p str, Range<usize>)> {
    one_label(rt, (path, 0..0), (path, 1..2), "q")
}

/// The rows of its picture, by its header and the row of the source.
fn rows_of<'r>(header: &'r str, row: &'r str) -> [&'r str; 7] {
    [
        "Error:",
        header,
        "   |",
        row,
        "   |  |",
        "   |  `-- q",
        "---'",
    ]
}

/// Asserts that over the file at a path the report leaves out these labels, and has these rows.
fn assert_rows<R: Files + Drop>(
    rt: &(impl Abort + AllocGlobal),
    cache: &mut FileCache<R>,
    path: &str,
    left_out: &[(usize, Why)],
    rows: &[&str],
) {
    assert_over(rt, report_of_file(rt, path), cache, left_out, rows)
}

/// Asserts that of the file at a path the second character is drawn, in this row.
fn assert_file<R: Files + Drop>(
    rt: &(impl Abort + AllocGlobal),
    cache: &mut FileCache<R>,
    path: &str,
    row: &str,
) {
    let header = format!(in rt.alloc(); "   ,-[ {path}:1:1 ]").expect(rt, "memory");
    assert_rows(rt, cache, path, &[], &rows_of(header.as_str(), row))
}

/// Asserts the same over a new cache.
fn assert_file_anew(rt: &(impl Abort + AllocGlobal + Files), path: &str, row: &str) {
    assert_file(rt, &mut FileCache::new(rt, rt.alloc()), path, row)
}

/// Asserts that the file at a path is drawn as it was first read, by each cache.
fn assert_read_once(rt: &(impl Abort + AllocGlobal + Files), path: &str) {
    let mut cache = FileCache::new(rt, rt.alloc());
    assert_file(rt, &mut cache, path, " 1 | ab");
    fs::write(rt, path, "cd").expect(rt, "a file");
    assert_file(rt, &mut cache, path, " 1 | ab");
    assert_file_anew(rt, path, " 1 | cd")
}

#[test]
fn a_file_is_drawn_as_it_was_first_read(rt: HostRuntime) {
    let folder = new_folder(&rt);
    let path = file_in(&rt, &folder, "line\nfeed.txt", b"ab");
    assert_read_once(&rt, path.as_str());
    remove(&rt, folder)
}

/// Asserts that the label in the file at a path is left out.
fn assert_left_out<R: Files + Drop>(
    rt: &(impl Abort + AllocGlobal),
    cache: &mut FileCache<R>,
    path: &str,
) {
    assert_rows(rt, cache, path, &[(0, Why::Unfetched)], &["Error:"])
}

/// Asserts that the file at a path, which is not there yet, is drawn once it is.
fn assert_asked_again(rt: &(impl Abort + AllocGlobal + Files), path: &str) {
    let mut cache = FileCache::new(rt, rt.alloc());
    assert_left_out(rt, &mut cache, path);
    fs::write(rt, path, "ab").expect(rt, "a file");
    assert_file(rt, &mut cache, path, " 1 | ab")
}

#[test]
fn a_file_that_is_not_there_is_asked_for_again(rt: HostRuntime) {
    let folder = new_folder(&rt);
    let path = folder.path_of(&rt, "later.txt").expect(&rt, "memory");
    assert_asked_again(&rt, path.as_str());
    remove(&rt, folder)
}
