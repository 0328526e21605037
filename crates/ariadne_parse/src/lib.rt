//! What compilers and linters print, as diagnostics: the lines of their output that tell one, and what
//! these tell. `columns` has what their columns count, and the characters of a text that they mean.
#![tactic(auto)]

pub mod arrows;
mod cargo;
mod colors;
pub mod columns;
pub mod counting;
pub mod diagnostic;
pub mod fix_rows;
pub mod fixes;
mod fixits;
pub mod fronts;
mod gcc;
mod heads;
pub mod json;
mod kinds;
mod labels;
pub mod laws;
pub mod lines;
pub mod locations;
mod names;
mod noted;
pub mod pieces;
mod proposals;
mod report;
mod rustc;
pub mod sent;
pub mod sgr;
mod span_values;
mod suggested;
pub mod tally;
pub mod telling;
pub mod unit;

pub use arrows::{Arrow, BareHead, arrow_of, bare_head_of};
pub use columns::Columns;
pub use counting::Counting;
pub use diagnostic::{
    Change, Diagnostic, End, Location, Look, OwnKind, Proposal, QuotedLine, Severity, Span,
};
pub use fix_rows::{FixRow, fix_row_of};
pub use fronts::{Front, front_of, is_scope_line};
pub use heads::span;
pub use lines::code_in;
pub use noted::named_span;
pub use sent::Sent;
pub use sgr::{has_escape, without_sgr};
pub use tally::is_tally;
pub use telling::{Answer, Format, Reading, parsed, parsed_by_value};
pub use unit::Unit;
