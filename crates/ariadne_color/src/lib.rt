//! The colours of texts. `ariadne` gives out the names at the end; what else is public here serves
//! the crates above, and is no part of its surface.
#![tactic(auto)]

pub mod color;

pub use color::{Background, Color, ColorGenerator, Fmt, Foreground};
