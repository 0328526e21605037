//! Labels in several files, which a `FileCache` reads when they are first asked for. Copy `report`
//! and `draw`: an id is a path as text, and spans are paired with it. `fault` finds the system's
//! reason for a file that can't be had; the labels in the others are drawn all the same.

use crate::pictures::{assert_rows, plain};
use ariadne::{FileCache, FileError, Label, LeftOut, Reason, Report, ReportKind, WriteError};
use ariadne_testing::Folder;
use std::alloc::{AllocError, Global};
use std::io;
use std::io::Write;
use std::ops::Range;
use std::path::PathBuf;
use std::process::Abort;
use std::rt::Files;

/// The error over the files at two paths.
fn report<'p>(
    alloc: Global,
    pie: &'p str,
    fruit: &'p str,
) -> Result<Report<'static, (&'p str, Range<usize>)>, AllocError> {
    let report = Report::build(alloc, ReportKind::Error, (pie, 18..25))
        .with_config(plain())
        .with_message("can't add a text to a number")?
        .with_label(Label::new((pie, 18..25)).with_message(alloc, "this is a text")?)?
        .with_label(Label::new((fruit, 4..9)).with_message(alloc, "declared as a number here")?)?;
    Ok(report.finish())
}

/// Draws the error over the files at two paths to `out`, and returns the labels that are left out.
pub(crate) fn draw<R: Files, W: Write>(
    files: &R,
    alloc: Global,
    pie: &str,
    fruit: &str,
    out: &mut W,
) -> Result<Vec<LeftOut<FileError>>, WriteError> {
    let mut cache = FileCache::new(files, alloc);
    report(alloc, pie, fruit)?.write(&mut cache, out)
}

/// Why the system can't open or read the file of a label, if it is left out for that.
fn fault<'l>(left: &'l LeftOut<FileError>) -> Option<&'l io::Error> {
    match &left.reason {
        Reason::Unfetched(error) => error.fault(),
        Reason::PastSource | Reason::CutsCharacter => None,
    }
}

/// The file of the first label, in this folder.
fn pie(rt: &(impl Abort + AllocGlobal + Files), folder: &Folder) -> PathBuf {
    let text = b"let pie = apple + \"crust\";\n";
    folder.file_of(rt, "pie.txt", text).expect(rt, "a file")
}

/// The file of the second label, in this folder.
fn fruit(rt: &(impl Abort + AllocGlobal + Files), folder: &Folder) -> PathBuf {
    let text = b"let apple = 3;\n";
    folder.file_of(rt, "fruit.txt", text).expect(rt, "a file")
}

/// The picture over two files, and the labels that are left out.
fn drawn(
    rt: &(impl Abort + AllocGlobal + Files),
    pie: &str,
    fruit: &str,
) -> (String, Vec<LeftOut<FileError>>) {
    let mut out = Vec::new(rt.alloc());
    let left_out = draw(rt, rt.alloc(), pie, fruit, &mut out).expect(rt, "memory");
    (String::from_utf8(out).expect(rt, "text"), left_out)
}

/// A picture with the names of these files in place of their paths.
fn with_names(alloc: Global, picture: &str, pie: &str, fruit: &str) -> Result<String, AllocError> {
    let picture = picture.replace(alloc, pie, "pie.txt")?;
    picture.as_str().replace(alloc, fruit, "fruit.txt")
}

/// The picture of the report.
static ROWS: [&str; 13] = [
    "Error: can't add a text to a number",
    "   ,-[ pie.txt:1:19 ]",
    "   |",
    " 1 | let pie = apple + \"crust\";",
    "   |                   ^^^|^^^",
    "   |                      `----- this is a text",
    "   |",
    "   |-[ fruit.txt:1:5 ]",
    "   |",
    " 1 | let apple = 3;",
    "   |     ^^|^^",
    "   |       `---- declared as a number here",
    "---'",
];

/// Asserts that no label is left out of the picture over these files, and that it is this one.
fn assert_both(rt: &(impl Abort + AllocGlobal + Files), pie: &str, fruit: &str) {
    let (picture, left_out) = drawn(rt, pie, fruit);
    assert!(rt; left_out.is_empty());
    let picture = with_names(rt.alloc(), picture.as_str(), pie, fruit).expect(rt, "memory");
    assert_rows(rt, picture.as_str(), &ROWS)
}

/// Asserts that the second label alone is left out, since its file is not there.
fn assert_missing(rt: &(impl Abort + AllocGlobal), left_out: &[LeftOut<FileError>]) {
    let left = left_out.first().expect(rt, "a label that is left out");
    let fault = fault(left).expect(rt, "a fault");
    let told = fault.to_string(rt.alloc()).expect(rt, "memory");
    let want = (1, 1, "No such file or directory (os error 2)");
    assert_eq!(rt; (left_out.len(), left.label, told.as_str()), want)
}

#[test]
fn labels_in_two_files(rt: HostRuntime) {
    let folder = Folder::new(&rt).expect(&rt, "a folder");
    let pie = pie(&rt, &folder);
    let fruit = fruit(&rt, &folder);
    assert_both(&rt, pie.as_str(), fruit.as_str());
    folder.remove(&rt).expect(&rt, "no folder")
}

#[test]
fn a_file_that_is_not_there_takes_away_its_labels_alone(rt: HostRuntime) {
    let folder = Folder::new(&rt).expect(&rt, "a folder");
    let pie = pie(&rt, &folder);
    let (picture, left_out) = drawn(&rt, pie.as_str(), "no such file");
    assert!(rt; picture.ends_with("this is a text\n---'\n"));
    assert_missing(&rt, left_out.as_slice());
    folder.remove(&rt).expect(&rt, "no folder")
}
