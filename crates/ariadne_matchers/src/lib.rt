//! What tools print, as a table of patterns: the entry that fits lines, and what these tell by it.
//!
//! The entries of a table are tried at lines in their order (`reader`), each row by row (`rows`). What the groups
//! of the rows caught then tells a diagnostic (`matched`), whose place the file's own line settles (`placed`).
#![tactic(auto)]

pub mod caught;
mod columns;
pub mod entry;
mod lasts;
pub mod marks;
pub mod matched;
pub mod measure;
mod messages;
pub mod placed;
pub mod reader;
mod rows;
mod severities;
pub mod table;

pub use caught::{Caught, Piece};
pub use entry::{Entry, Groups, Often, Row, Severity, Word};
pub use marks::Marks;
pub use matched::{Begin, End, Matched};
pub use measure::{Measure, Unit};
pub use placed::{Placed, place};
pub use reader::{Fit, Fitting, Reader};
pub use table::Table;
