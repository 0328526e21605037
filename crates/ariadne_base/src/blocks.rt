//! Text in blocks of 64 bytes: the number of characters, the start of each character, and blocks
//! without the end of a line.

pub mod count;
mod marks;
pub mod place;
pub(crate) mod run;
