//! What a report is: its kind, its labels and its configuration (`report_data`). Which of its labels are drawn
//! (`accept`), where these are cut into groups (`groups`), and each group as a snippet (`snippets`).
//! `ariadne` re-exports the types, the reasons to skip a label, and the law in [`laws`]. Everything else
//! here is public only for the crates above.
#![tactic(auto)]

pub mod accept;
pub mod config;
mod counting;
pub mod groups;
pub mod kind;
pub mod label;
pub mod laws;
pub mod margins;
pub mod report_data;
pub mod snippets;
