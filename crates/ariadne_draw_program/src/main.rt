//! `ariadne-draw`: draws a report over the text on its standard input, or over a file.
#![tactic(auto)]

use ariadne::RetryInterrupted;
use ariadne_commands::{DRAW_USAGE, Fault, Watched, draw, tell_fault, without_colors};
use std::alloc::AllocError;
use std::env;
use std::env::VarError;
use std::process::ExitCode;
use std::rt::Env;

/// The words that the program was called with, without its own name; and without colours, where the
/// environment wants none.
fn given_words<R: Env + AllocGlobal>(rt: &R) -> Result<Vec<String>, Fault> {
    let words = match env::args(rt) {
        Ok(args) => args.skip(1).collect(rt.alloc())?,
        Err(error) => return Err(Fault::of_error(&error, Fault::Usage(DRAW_USAGE))),
    };
    if is_colorless(rt)? {
        return Ok(without_colors(rt.alloc(), words)?);
    }
    Ok(words)
}

/// Whether the variable `NO_COLOR` is set, to any value that is not empty.
fn is_colorless<R: Env + AllocGlobal>(rt: &R) -> Result<bool, AllocError> {
    match env::var(rt, "NO_COLOR") {
        Ok(value) => Ok(!value.as_str().is_empty()),
        Err(VarError::NotPresent) => Ok(false),
        // Bytes that are no text are a value too.
        Err(VarError::NotUnicode) => Ok(true),
        Err(VarError::OutOfMemory) => Err(AllocError),
    }
}

fn main(rt: HostRuntime) -> ExitCode {
    let mut faults = rt.stderr();
    let status = match given_words(&rt) {
        Ok(words) => draw(
            &rt,
            rt.alloc(),
            words.as_slice(),
            &mut Watched::new(rt.stdin()),
            &mut RetryInterrupted::new(rt.stdout()),
            &mut faults,
        ),
        Err(fault) => tell_fault(&mut faults, &fault),
    };
    ExitCode::from(status as u8)
}
