//! What a picture shows, before any of it is drawn: a group over its source as a snippet (`snippet`), the
//! labels of a group by line (`snippet_labels`), and what is seen at each place of a line (`layout`, `cuts`,
//! `line_columns`, `table`). What is public here serves the crates above, and is no part of the surface of
//! `ariadne`.
//!
//! Lines, ranks, columns and places count from 0; places and offsets count characters.
#![tactic(auto)]

mod candidates;
mod choice;
pub mod columns;
pub mod cuts;
pub mod digits;
mod label_lists;
mod label_runs;
pub mod layout;
mod line_columns;
mod line_text;
pub mod order;
pub mod snippet;
pub mod snippet_labels;
pub mod snippet_line;
pub mod stretches;
pub mod table;
pub mod verticals;
