//! Reports for callers that are not written in Rattle: what they ask for by numbers, and the picture in
//! their buffers. So too the text of a help that shows edits of a source.
//!
//! `bindings/c/sewarqo.h` has the same fields as C reads them, with the unit of each.
#![tactic(auto)]

mod call;
mod colors;
pub mod ending;
mod flag;
pub mod given;
mod labels;
mod pictures;
mod reports;
mod safe;
mod safe_sources;
mod settings;
mod sources;
mod suggesting;
pub mod suggestion;
mod texts;

pub use call::draw;
pub use ending::{CallOutcome, Fault, Refusal};
pub use given::{
    GivenEdit, GivenLabel, GivenReport, GivenSource, GivenSuggestion, OptionalText, Text,
    ToldLeftOut,
};
pub use suggesting::suggest;
pub use suggestion::{Misgiven, Suggested, Unsuggested};
