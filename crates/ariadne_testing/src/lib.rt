//! What the tests of several crates share: words, a reader and a writer that fail where they are told
//! to, folders for files, and requests for memory that a tool refuses. It is for tests alone, and no
//! part of the surface.
#![tactic(auto)]

mod folder;
mod refusing;
mod streams;
mod words;

pub use folder::Folder;
pub use refusing::{refuse, was_refused};
pub use streams::{Given, Taker};
pub use words::texts;
