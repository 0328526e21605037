//! The example of docs/SAFE.md, which has this file from the first `use` on.

use ariadne::{CharSet, Config, Label, WriteError};
use ariadne_safe::{LineEnds, SafeBuilder, SafeKind, SafeReport, SafeSource, SafeSources};
use std::alloc::{AllocError, Global};
use std::io::Write;

/// An error over the source with this number.
fn report(alloc: Global, sources: &SafeSources, file: usize) -> Result<SafeReport<'_>, AllocError> {
    let label = Label::new((file, 0..2)).with_message(alloc, "sends the key")?;
    let config = Config::new()
        .with_char_set(CharSet::Ascii)
        .with_color(false);
    let report = SafeBuilder::new(alloc, sources, SafeKind::error(), (file, 0..2), config)
        .with_label(label)?
        .with_message("exfiltrates keys")?;
    Ok(report.finish())
}

/// Draws the error over a text that may hold anything, and that has a name which may.
pub fn tell<W: Write>(
    alloc: Global,
    name: &str,
    text: &str,
    out: &mut W,
) -> Result<(), WriteError> {
    let source = SafeSource::new(alloc, text, LineEnds::All)?.with_name(name)?;
    let mut sources = SafeSources::new(alloc);
    let file = sources.add(source)?;
    report(alloc, &sources, file)?.write(out)?;
    Ok(())
}
