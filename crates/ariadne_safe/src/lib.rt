//! Safe reports: whatever sources, names and messages hold, every escape of a picture is the
//! library's own, and a sign stands for each character that `visible` lists as hidden. The terminal
//! has to read UTF-8.
//!
//! `text` has the texts that can be shown: a sign for each control, each character that turns the
//! direction of a text, and each that it lists since nothing is seen of it. `laws` has what holds of
//! such texts and of pictures of them.
#![tactic(auto)]

mod kept;
pub mod laws;
mod places;
pub mod report;
pub mod sources;
pub mod text;

pub use report::{SafeBuilder, SafeKind, SafeReport};
pub use sources::{LineEnds, NoSource, SafeSource, SafeSources};
pub use text::{TextKind, is_seen, visible};
