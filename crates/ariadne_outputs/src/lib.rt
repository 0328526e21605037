//! What `ariadne-show` writes beside pictures: lines that pass, as they may be shown, and diagnostics
//! as texts for other programs.
#![tactic(auto)]

pub mod github;
pub mod laws;
pub mod located;
pub mod passing;
pub mod sarif;
mod sequence;
pub mod short;
mod whole;

pub use github::{github_line, github_text};
pub use located::Located;
pub use passing::passing_line;
pub use sarif::{SARIF_COMMA, SARIF_TAIL, sarif_head, sarif_result};
pub use short::short_text;
