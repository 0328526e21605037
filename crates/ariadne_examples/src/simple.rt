//! A report with a label, a code and a help, over a text. Copy `report` and `draw`. For standard output hand it
//! `&mut io::writer(&rt)`; without `with_config` the picture has colours and box drawing
//! characters.

use crate::pictures::{assert_rows, plain};
use ariadne::{Label, Report, ReportKind, Source, WriteError};
use std::alloc::{AllocError, Global};
use std::io::Write;

/// The report of an error.
///
/// The offsets count characters from 0, and an end is exclusive: characters 10 to 13 are `aple`.
fn report(alloc: Global) -> Result<Report<'static>, AllocError> {
    let label = Label::new(10..14).with_message(alloc, "no such name")?;
    let report = Report::build(alloc, ReportKind::Error, 10..14)
        .with_config(plain())
        .with_label(label)?
        .with_code(3)?
        .with_message("unknown name")?
        .with_help("did you mean `apple`?")?;
    Ok(report.finish())
}

/// Draws it to `out`.
pub(crate) fn draw<W: Write>(alloc: Global, out: &mut W) -> Result<(), WriteError> {
    let report = report(alloc)?;
    let mut source = Source::from(alloc, "let pie = aple + 1;")?;
    // The result lists the labels that are left out. This one lies in the text.
    report.write(&mut source, out)?;
    Ok(())
}

/// The picture of the report.
static ROWS: [&str; 9] = [
    "[03] Error: unknown name",
    "   ,-[ <unknown>:1:11 ]",
    "   |",
    " 1 | let pie = aple + 1;",
    "   |           ^^|^",
    "   |             `--- no such name",
    "   |",
    "   | Help: did you mean `apple`?",
    "---'",
];

#[test]
fn a_label_a_code_and_a_help(rt: HostRuntime) {
    let mut out = Vec::new(rt.alloc());
    draw(rt.alloc(), &mut out).expect(&rt, "memory");
    let picture = String::from_utf8(out).expect(&rt, "text");
    assert_rows(&rt, picture.as_str(), &ROWS)
}
