//! What `ariadne-draw` and `ariadne-brackets` do, as calls: words and streams in, a report and a status
//! out. They stand over the public calls and contracts of `ariadne` alone.
//!
//! `draw` draws a report over the text of an input or over a file. `words` reads what the words of the
//! command line ask for, which `asked` holds; `drawing` draws it, and `pages` has the texts that are ready.
//!
//! `lint` is a linter of brackets. It is also a pattern for a tool of your own, which finds something in
//! files and draws it:
//!
//! - `offence` is what is the linter's own: it finds something in a text, by offsets that count
//!   characters. It knows nothing of files or pictures. Put your own search in its place.
//! - `checked` keeps what was found of each file, with the path as its id.
//! - `linting` is what to copy. `check_file` reads a file through `FileCache`, by `ensure` and then
//!   `get`; `offences_report` makes labels and a report by the builder; `write_report` writes it over
//!   the same cache. So each file that a label points into is held when `write` begins, nothing is
//!   read twice, and no label is left out: that is proved by the contract of `write`.
//! - `fault` has the texts and the statuses of the programs, whose `main` does nothing but call `draw`
//!   or `lint`.
//!
//! The contracts of the linter follow the same way: `specs/Brackets` says what an offence is,
//! `specs/Outcomes` what is known of a file, and `specs/Linted` which report the files make and what a
//! run has printed, by its status.
#![tactic(auto)]

mod asked;
mod checked;
mod drawing;
mod fault;
mod linting;
mod offence;
mod pages;
mod watched;
mod words;

pub use drawing::draw;
pub use fault::{BRACKETS_USAGE, DRAW_USAGE, Fault, Status, tell_fault};
pub use linting::lint;
pub use offence::{Offence, first_offence, texts_have_one_first_offence};
pub use pages::HelpPage;
pub use watched::Watched;
pub use words::without_colors;
