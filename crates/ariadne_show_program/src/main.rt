//! `ariadne-show`: draws what compilers print over the files that it is about.
#![tactic(auto)]

use ariadne::RetryInterrupted;
use ariadne_matching::show_input;
use ariadne_show::{
    Environment, Fault, Input, Inputs, Options, Request, Status, Streams, read_words, show_page,
    tell_fault,
};
use std::env;
use std::io::{IsTerminal, Read};
use std::process::ExitCode;
use std::rt::Env;

/// The words that the program was called with, without its own name.
fn given_words<R: Env + AllocGlobal>(rt: &R) -> Result<Vec<String>, Fault> {
    match env::args(rt) {
        Ok(args) => Ok(args.skip(1).collect(rt.alloc())?),
        Err(error) => Err(Fault::of_words(&error)),
    }
}

/// The options, with what the environment says where they leave it open.
fn decided<'a>(rt: &HostRuntime, mut options: Options<'a>) -> Result<Options<'a>, Fault> {
    let environment = Environment::of(rt)?;
    let is_terminal = rt.stdout().is_terminal();
    options.style.is_colored = environment.is_colored(options.colors, is_terminal);
    options.style.width = environment.width(options.width, is_terminal);
    Ok(options)
}

/// Shows what inputs tell, as the options ask for. Where an input can't be read, that is told before another fault.
fn show_inputs(
    rt: &HostRuntime,
    options: Options<'_>,
    inputs: &[Input<'_>],
) -> Result<Status, Fault> {
    let options = decided(rt, options)?;
    let mut inputs = Inputs::new(rt, rt.alloc(), rt.stdin(), inputs);
    match show_read(rt, options, &mut inputs) {
        Ok(status) => Ok(status),
        Err(fault) => Err(inputs.into_fault().unwrap_or(fault)),
    }
}

/// Shows what is read.
fn show_read<I: Read + Drop>(
    rt: &HostRuntime,
    options: Options<'_>,
    input: I,
) -> Result<Status, Fault> {
    let mut streams = Streams {
        out: RetryInterrupted::new(rt.stdout()),
        beside: RetryInterrupted::new(rt.stderr()),
    };
    let sum = show_input(rt, rt.alloc(), options, input, &mut streams)?;
    Ok(sum.status(options.fail_on))
}

/// Does what the words ask for.
fn run(rt: &HostRuntime) -> Result<Status, Fault> {
    let words = given_words(rt)?;
    match read_words(rt.alloc(), words.as_slice())? {
        Request::Show { options, inputs } => show_inputs(rt, options, inputs.as_slice()),
        Request::Page(page) => {
            let mut out = RetryInterrupted::new(rt.stdout());
            Ok(show_page(page, &mut out, &mut rt.stderr()))
        }
    }
}

fn main(rt: HostRuntime) -> ExitCode {
    let status = match run(&rt) {
        Ok(status) => status,
        Err(fault) => tell_fault(&mut rt.stderr(), &fault),
    };
    ExitCode::from(status as u8)
}
