//! Files by number, as compilers keep them, and spans that are a number and a `Place`. Copy `Spot`
//! and `again`. The test makes a `SourceTable`: `add` returns the number of a file, and headers show
//! its name. No place asks for a proof.

use crate::pictures::{assert_rows, picture_of, plain};
use ariadne::{Label, Place, Report, ReportKind, SourceTable};
use std::alloc::{AllocError, Global};

/// A place in the file with a number.
type Spot = (usize, Place);

/// The error that a name was declared before, at another spot.
fn again(alloc: Global, here: Spot, before: Spot) -> Result<Report<'static, Spot>, AllocError> {
    let again = Label::new(here).with_message(alloc, "again here")?;
    let first = Label::new(before).with_message(alloc, "first here")?;
    let report = Report::build(alloc, ReportKind::Error, here)
        .with_config(plain())
        .with_labels([again, first])?
        .with_message("declared twice")?;
    Ok(report.finish())
}

/// Adds two files that declare a name, and returns the report of that.
fn report(
    alloc: Global,
    files: &mut SourceTable<&str>,
) -> Result<Report<'static, Spot>, AllocError> {
    let fruit = files.add("fruit.txt", "let apple = 3;\n")?;
    let pie = files.add("pie.txt", "let crust = 1;\nlet apple = 4;\n")?;
    let here = (pie, Place::at(19).to(Place::at(24)));
    let before = (fruit, Place::at(4).to(Place::at(9)));
    again(alloc, here, before)
}

/// The picture of the report.
static ROWS: [&str; 13] = [
    "Error: declared twice",
    "   ,-[ pie.txt:2:5 ]",
    "   |",
    " 2 | let apple = 4;",
    "   |     ^^|^^",
    "   |       `---- again here",
    "   |",
    "   |-[ fruit.txt:1:5 ]",
    "   |",
    " 1 | let apple = 3;",
    "   |     ^^|^^",
    "   |       `---- first here",
    "---'",
];

#[test]
fn labels_in_files_by_number(rt: HostRuntime) {
    let mut files = SourceTable::new(rt.alloc());
    let report = report(rt.alloc(), &mut files);
    let picture = picture_of(&rt, report, &mut files);
    assert_rows(&rt, picture.as_str(), &ROWS)
}
