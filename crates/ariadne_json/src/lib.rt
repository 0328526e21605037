//! JSON as tools write it, read also where a reader with limits refuses it.
#![tactic(auto)]

mod escapes;
pub mod mended;
mod pieces;
pub mod reading;

pub use reading::read_value;
