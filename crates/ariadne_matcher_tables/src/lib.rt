//! Tables of matchers as people write them: in TOML (`tables`, `entries`, `patterns`), or as the problem matchers
//! of VS Code (`editor`). `builtin` has the table of the program, `begins` what a line has with which one of its
//! entries begins, and `refusal` what is wrong with other tables.
#![tactic(auto)]

pub mod begins;
pub mod builtin;
mod editor;
mod entries;
mod members;
mod options;
mod patterns;
pub mod refusal;
pub mod tables;

pub use begins::builtin_begins;
pub use builtin::builtin_text;
pub use refusal::{Fault, Refusal};
pub use tables::{table_from_json, table_from_toml};
