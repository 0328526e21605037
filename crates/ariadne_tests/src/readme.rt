//! The example of README.md, which has this file from the first `use` on.

use ariadne::{CharSet, Config, Label, Report, ReportKind, Source, WriteError};
use std::alloc::{AllocError, Global};
use std::io::Write;

/// A type error: three labels, whose spans count characters from 0.
fn type_error(alloc: Global) -> Result<Report<'static>, AllocError> {
    let nat = Label::new(32..33).with_message(alloc, "This is of type Nat")?;
    let text = Label::new(42..45).with_message(alloc, "This is of type Str")?;
    let outputs = "The values are outputs of this match expression";
    let outputs = Label::new(11..48).with_message(alloc, outputs)?;
    let config = Config::new()
        .with_char_set(CharSet::Ascii)
        .with_color(false);
    let report = Report::build(alloc, ReportKind::Error, 32..33)
        .with_config(config)
        .with_labels([nat, text, outputs])?
        .with_message("Incompatible types")?;
    Ok(report.finish())
}

/// Writes the type error over the source text.
pub fn write_type_error<W: Write>(
    alloc: Global,
    text: &str,
    out: &mut W,
) -> Result<(), WriteError> {
    let report = type_error(alloc)?;
    report.write(&mut Source::from(alloc, text)?, out)?;
    Ok(())
}
