//! Logs of SARIF 2.1.0, and what other documents of JSON share with them: members of members, the spans of a file,
//! the paths of URIs, and the changes of fixes.
#![tactic(auto)]

pub mod fixing;
pub mod parts;
pub mod sarif;
mod sarif_fixes;
mod sarif_flows;
mod sarif_messages;
mod sarif_rules;
mod sarif_spans;
pub mod uri;

pub use fixing::{Piece, TellsChange};
pub use sarif::{is_sarif, parsed_by_sarif};
