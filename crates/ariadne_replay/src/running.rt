//! Draws the cases of texts, and tells those that are drawn otherwise than they are stored.

use crate::members::{list, text};
use crate::replaying::answer_of;
use crate::stored::is_stored;
use crate::telling::tell_answer;
use std::{fs, io};
use toml::Value;

/// What came of the cases so far.
#[derive(Clone, Copy)]
pub struct Tally {
    /// How many there were.
    pub count: u32,
    /// How many of them are drawn otherwise than they are stored.
    pub otherwise: u32,
}

impl Tally {
    /// Of no cases.
    const EMPTY: Tally = Tally {
        count: 0,
        otherwise: 0,
    };

    /// With a case more.
    fn with(self, is_stored: bool) -> Tally {
        Tally {
            count: self.count.saturating_add(1),
            otherwise: self.otherwise.saturating_add(u32::from(!is_stored)),
        }
    }
}

/// Draws a case, tells what is drawn if that isn't what it stores, and returns whether it is.
fn replay_case(rt: &HostRuntime, case: &Value) -> io::Result<bool> {
    let answer = answer_of(rt, case)?;
    let is_stored = is_stored(rt.alloc(), case, &answer)?;
    if !is_stored {
        tell_answer(rt, text(case, "name").unwrap_or(""), &answer)?;
    }
    Ok(is_stored)
}

/// Draws cases behind those of a tally.
fn replay_all(rt: &HostRuntime, tally: Tally, cases: &[Value]) -> io::Result<Tally> {
    let mut tally = tally;
    for case in cases {
        tally = tally.with(replay_case(rt, case)?);
    }
    Ok(tally)
}

/// Draws the cases of a text behind those of a tally. One that is no TOML is told.
fn replay_text(rt: &HostRuntime, tally: Tally, cases: &str) -> io::Result<Tally> {
    match toml::table_from_str(rt.alloc(), cases) {
        Ok(table) => replay_all(rt, tally, list(&Value::Table(table), "case")),
        Err(error) => {
            println!(rt; "{}", error.message())?;
            Ok(tally.with(false))
        }
    }
}

/// Draws the cases of standard input.
fn replay_input(rt: &HostRuntime) -> io::Result<Tally> {
    let cases = io::read_to_string(rt.alloc(), rt.stdin())?;
    replay_text(rt, Tally::EMPTY, cases.as_str())
}

/// Draws the cases of files.
fn replay_files(rt: &HostRuntime, files: &[String]) -> io::Result<Tally> {
    let mut tally = Tally::EMPTY;
    for file in files {
        let cases = fs::read_to_string(rt, file.as_str())?;
        tally = replay_text(rt, tally, cases.as_str())?;
    }
    Ok(tally)
}

/// Draws the cases of files, or of standard input where there are none.
pub fn replay(rt: &HostRuntime, files: &[String]) -> io::Result<Tally> {
    if files.is_empty() {
        replay_input(rt)
    } else {
        replay_files(rt, files)
    }
}
