//! `ariadne-brackets`: draws the first offence of the brackets of each file.
#![tactic(auto)]

use ariadne::RetryInterrupted;
use ariadne_commands::{BRACKETS_USAGE, Fault, lint, tell_fault};
use std::env;
use std::process::ExitCode;
use std::rt::Env;

/// The words that the program was called with, without its own name.
fn given_words<R: Env + AllocGlobal>(rt: &R) -> Result<Vec<String>, Fault> {
    match env::args(rt) {
        Ok(args) => Ok(args.skip(1).collect(rt.alloc())?),
        Err(error) => Err(Fault::of_error(&error, Fault::Usage(BRACKETS_USAGE))),
    }
}

fn main(rt: HostRuntime) -> ExitCode {
    let mut faults = rt.stderr();
    let status = match given_words(&rt) {
        Ok(words) => lint(
            &rt,
            rt.alloc(),
            words.as_slice(),
            &mut RetryInterrupted::new(rt.stdout()),
            &mut faults,
        ),
        Err(fault) => tell_fault(&mut faults, &fault),
    };
    ExitCode::from(status as u8)
}
