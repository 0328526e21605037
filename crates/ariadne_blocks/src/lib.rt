//! Diagnostics of lines of text, as far as their lines were read: a head, the rows of its tool's snippet,
//! and its notes with theirs.
#![tactic(auto)]

mod asides;
pub mod block;
mod changes;
mod colors;
pub mod drawn;
mod events;
pub mod file;
mod fix_rows;
mod fixes;
mod goes_on;
pub mod line;
pub mod message;
mod message_lines;
mod proposing;
pub mod repeats;
mod rows;
mod spans;
mod taking;

pub use block::Block;
pub use drawn::{Drawn, settle_marks};
pub use file::QuotedFile;
pub use line::Line;
pub use message::MessageLine;
pub use repeats::drop_repeats;
