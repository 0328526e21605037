//! Where a file is looked for that a tool names, and the folders that make goes through.
#![tactic(auto)]

pub mod folders;
pub mod make;
pub mod origin;
pub mod search;

pub use folders::Folders;
pub use make::{Move, moved};
pub use origin::Origin;
pub use search::{Search, candidates};
