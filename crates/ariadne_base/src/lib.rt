//! Sources, spans and caches. `ariadne` re-exports the names at the end. All other public items are
//! for the crates above, and not for users.
#![tactic(auto)]

pub mod blocks;
pub mod cache;
pub mod source;
pub mod span;
pub mod text;

pub use cache::file::{FileCache, FileError};
pub use cache::function::FnCache;
pub use cache::map::{SourceMap, sources};
pub use cache::named::{SourceName, UnknownSource};
pub use cache::table::{SourceTable, UnknownNumber};
pub use cache::{Cache, FetchError};
pub use source::{Line, Source, SourceLines};
pub use span::{Place, Span};
pub use text::SourceText;
