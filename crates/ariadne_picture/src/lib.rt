//! What the picture of a report is: its definitions, the plain data that they speak of, and their
//! laws. What is public here serves the crates above, and is no part of the surface of `ariadne`.
//!
//! The definitions stand in `specs/`. Read in this order, each file builds on those above it:
//!
//! | File | What it says |
//! |---|---|
//! | `Lists` | a stable order, the best element, lists joined |
//! | `Report` | a report as its calls set it, and what is read of ids, names and sources |
//! | `Accept` | which labels are drawn, and where their ends lie |
//! | `Groups` | how the labels are cut into groups, and which lines these show |
//! | `Ranks` | what the labels of a group do in the gutter, and at each line |
//! | `Columns` | how wide each character is shown, and where it begins |
//! | `Rows` | the rows of a group, each by a name |
//! | `Strokes` | which places, rows and columns each stroke covers |
//! | `Cells` | which of the strokes that meet in a cell is seen |
//! | `Pieces` | the texts of each row |
//! | `Canvas` | the whole picture, in colours |
//! | `Print` | the bytes that are sent |
//! | `Sent` | what columns and lines are in what is sent |
//! | `Placing` | how a finished picture is read, clause by clause |
//! | `Blocks` | how many rows stand below a line |
//! | `Causes` | that no stroke in the text is none of a label's |
//! | `LabelColors` | that strokes have the colours of their labels |
//! | `LoneLines` | that lines whose labels have no message are underlined |
//! | `TextColors` | that characters and underlines have the colours of their labels |
//! | `OtherRows` | what the rows show that no line has |
//! | `Readings` | what row numbers that a picture is read by agree on |
//! | `Variants` | what moves nothing: colours, and what offsets count |
//! | `Headline` | what a success of `write` means |
//!
//! `Bars` says once more, case by case, where gutter bars stand, and `RowNames` which rows a group
//! has; they serve the laws in [`laws`]. What serves only the proofs of code stands in `specs/` of the
//! crates above, and can be skipped.
#![tactic(auto)]

pub mod cell;
pub mod label_info;
pub mod laws;
pub mod sight;
pub mod switches;
pub mod texts;
pub mod verdict;
