//! Lines that `ariadne-show` reads by matchers: an input in front of it (`input`), which hands over a report of the
//! program's own form in the place of the lines of each such diagnostic, and all other lines as they are.
//!
//! The entries of people's own table (`own`) and of the program's are tried at lines that wait (`lines`, `matchers`).
//! What they tell (`reading`) is placed in the files that they name (`files`), written as a report (`reports`), and
//! handed over (`handing`). `settling` has the lines that wait and what is ready of them,
//! and `showing` shows what is handed over.
#![tactic(auto)]

pub mod files;
pub mod handing;
pub mod input;
pub mod lines;
pub mod matchers;
pub mod own;
pub mod reading;
pub mod reports;
pub mod settling;
pub mod showing;

pub use input::{MatchedInput, options_behind};
pub use matchers::Matchers;
pub use own::{matchers_of, own_table};
pub use showing::show_input;
