//! The rows of a picture: a pen on a page (`pen`), one writer for each kind of row (`headers`, `rows`,
//! `asides`), and all rows of a snippet (`frames`), whose lines are drawn one after another (`lines`,
//! `below`). None of it knows the report. What is public here serves `ariadne`, and is no part of its
//! surface.
//!
//! Where a writer returns `Err` there was no memory, and the picture is lost.
//!
//! ```text
//! Error: Incompatible types                       header
//!    ,-[ <unknown>:1:1 ]                          group header
//!    |                                            spacer row
//!  1 | ,-> def five = match () in {               source row: margin, gutter, shown text
//!    : :                                          gap row, in place of hidden lines
//!  3 | |       () => "5",
//!    | |             ^|^                          alternate row: underlines and verticals
//!    | |              `--- This is of type Str    arrow row: an arrow and its message
//!  4 | |-> }
//!    | |
//!    | `------- The branches differ
//!    |
//!    |     Help: give both one type               help row
//! ---'                                            tail
//! ```
#![tactic(auto)]

mod area;
mod asides;
mod below;
mod counted;
pub mod frames;
mod gutter;
pub mod headers;
pub mod lines;
pub mod long_line;
mod margin;
mod opening;
pub mod page;
pub mod palette;
mod pen;
mod rows;
mod runs;
mod seen;
mod shown;
pub mod writer;
