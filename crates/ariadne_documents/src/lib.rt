//! Documents of JSON, which tools write in one line or over many: where they end, which form they have, and the
//! diagnostics that they tell. `Document` gathers lines, and `document_answer` and `line_answer` tell what they are.
#![tactic(auto)]

pub mod answer;
mod coded;
pub mod document;
mod eslint;
pub mod form;
mod lsp;
mod offsets;
mod pyright;
mod ruff;
mod scan;
mod shellcheck;
mod vet;

pub use answer::{document_answer, line_answer, reads_values};
pub use document::{Document, MOST_BYTES, Step, begins};
pub use form::{Form, form_of, line_parsed, parsed_document, parsed_in};
