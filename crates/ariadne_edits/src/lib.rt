//! Suggestions: what to write in place of what stands in a source, as the text of a help that shows
//! each line that changes before and after.
#![tactic(auto)]

mod body;
pub mod change;
pub mod cut;
pub mod drawing;
pub mod edit;
pub mod help;
mod hints;
pub mod laws;
mod line;
mod making;
mod refusal;
pub mod rows;

pub use cut::View;
pub use edit::{BadEdit, Edit, EditError};
pub use help::{edited, suggestion};
pub use rows::{Blanks, Look, Row};
