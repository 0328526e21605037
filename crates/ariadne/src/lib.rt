//! Compiler diagnostics: reports with labels, rendered over the source code.
//!
//! An error with a code, a label and a help, and how it is written over a text:
//!
//! ```rust
//! /// The report of an error.
//! ///
//! /// The offsets count characters from 0, and an end is exclusive: characters 10 to 13 are `aple`.
//! fn report(alloc: Global) -> Result<Report<'static>, AllocError> {
//!     let label = Label::new(10..14).with_message(alloc, "no such name")?;
//!     let report = Report::build(alloc, ReportKind::Error, 10..14)
//!         .with_config(plain())
//!         .with_label(label)?
//!         .with_code(3)?
//!         .with_message("unknown name")?
//!         .with_help("did you mean `apple`?")?;
//!     Ok(report.finish())
//! }
//!
//! /// Draws it to `out`.
//! pub(crate) fn draw<W: Write>(alloc: Global, out: &mut W) -> Result<(), WriteError> {
//!     let report = report(alloc)?;
//!     let mut source = Source::from(alloc, "let pie = aple + 1;")?;
//!     // The result lists the labels that are left out. This one lies in the text.
//!     report.write(&mut source, out)?;
//!     Ok(())
//! }
//! ```
//!
//! `plain()` is `Config::new().with_char_set(CharSet::Ascii).with_color(false)`. The picture:
//!
//! ```text
//! [03] Error: unknown name
//!    ,-[ <unknown>:1:11 ]
//!    |
//!  1 | let pie = aple + 1;
//!    |           ^^|^
//!    |             `--- no such name
//!    |
//!    | Help: did you mean `apple`?
//! ---'
//! ```
//!
//! - A `Report` has a kind, a message, labels, notes and helps. `Report::build` starts a report.
//! - A `Label` has a span, and mostly a message and a colour. Offsets count from 0, and ends are
//!   exclusive.
//! - A `Source` is a text; `sources`, `FileCache`, `FnCache` and `SourceTable` hold several by id.
//! - A `Config` sets colours, characters, widths and the unit of offsets.
//! - Calls that make texts or lists take an allocator, and return an error if memory runs out.
//! - If a label doesn't fit the source, the label is skipped. `write` returns the skipped labels,
//!   each with the reason.
//!
//! Texts are sent unchanged. For untrusted texts use `ariadne_safe`. After `Ok` the writer has
//! received exactly the picture, by the contract of `Report::write`.
#![tactic(auto)]

pub mod builder;
mod drawing;
pub mod laws;
pub mod margins;
pub mod report;
pub mod retry;
pub mod send;
pub mod sink;
pub mod write;
pub mod write_error;

pub use ariadne_base::{
    Cache, FetchError, FileCache, FileError, FnCache, Line, Place, Source, SourceLines, SourceMap,
    SourceName, SourceTable, SourceText, Span, UnknownNumber, UnknownSource, sources,
};
pub use ariadne_color::{Background, Color, ColorGenerator, Fmt, Foreground};
pub use ariadne_report::config::{CharSet, Config, IndexType, LabelAttach};
pub use ariadne_report::kind::ReportKind;
pub use ariadne_report::label::Label;
pub use builder::ReportBuilder;
pub use report::Report;
pub use retry::RetryInterrupted;
pub use sink::Sink;
pub use write::{LeftOut, Reason};
pub use write_error::WriteError;
