//! Draws the cases of files, and compares what is drawn with what they store. docs/dev/CASES.md says
//! what a case is. A case is read as it stands: tools/replay refuses one that has a mistake, and shows
//! how two pictures differ.
//!
//! `ariadne_replay FILE..` reads these files, and without words standard input. What is drawn of a case
//! that stores another picture, or none, is a line of JSON:
//!
//!     {"answer": "a label", "left_out": [[0, "PastSource"]], "fails": "", "picture": "Error: m\n"}
//!
//! The last line tells how many cases there are, and how many were told.
#![tactic(auto)]

mod colors;
mod discreet;
mod forgetful;
mod making;
mod members;
mod offsets;
mod replaying;
mod running;
mod safely;
mod sending;
mod stored;
mod suggesting;
mod telling;

use running::replay;
use std::{env, io};

fn main(rt: HostRuntime) -> io::Result<()> {
    let files: Vec<String> = env::args(&rt)?.skip(1).collect(rt.alloc())?;
    let tally = replay(&rt, files.as_slice())?;
    println!(rt; "{} cases, {} differ", tally.count, tally.otherwise)
}
