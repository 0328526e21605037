//! The snippets that compilers write below a diagnostic: the source lines that they quote, and what the
//! rows below these say.
//!
//! ```text
//!     5 |         int x = p->color + n;      a quoted line: gutter, bar, text
//!       |                    ^~~~~           a row of marks
//!       |                    colour          a row of texts: here what to put there
//! ```
#![tactic(auto)]

mod cut;
mod forms;
mod framed;
mod gutter;
mod gutters;
mod marks;
mod pieces;
mod plain;
mod put;
mod quote;
mod quoted;
mod rows;
mod run;
mod runs;
pub mod snippet;
mod strokes;
pub mod taken;
mod units;

pub use snippet::Snippet;
pub use taken::{Fix, FixKind, Label, Mark, Point, Taken};
