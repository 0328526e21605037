//! Examples to copy, each whole in a file of its own, over the public calls and contracts of
//! `ariadne` alone. The head of each file says what it shows and what to copy.
//!
//! - `simple`: a report with a label, a code and a help.
//! - `files`: labels in several files.
//! - `lexer`: offsets in bytes, and places that ask for no proof.
//! - `numbers`: files by number.
//! - `caches`: a cache of your own.
//! - `errors`: an enum of errors that become reports.
//! - `one_line`: a report as one line of text.
//! - `arithmetic`: a parser that runs out of input.
//! - `calling`: what a caller can prove of the picture that it writes.
//! - `pictures`: how tests compare pictures.
//! - `sinks`: a buffer of your own that takes the picture.
//!
//! The program itself is a whole one: it checks a file of settings, as `width = 80` a line, and draws
//! each fault to standard error, in colours only where that is a terminal. Status 0: the file has no
//! fault; 1: it has some; 2: no file is named, or it can't be read; 3: a report could not be drawn. Copy
//! this file without the modules of the other examples, and put a search of your own in place of
//! `faults`.
#![tactic(auto)]

#[cfg(test)]
mod arithmetic;
#[cfg(test)]
mod caches;
pub mod calling;
#[cfg(test)]
mod errors;
mod faults;
#[cfg(test)]
mod files;
#[cfg(test)]
mod lexer;
#[cfg(test)]
mod numbers;
#[cfg(test)]
mod one_line;
#[cfg(test)]
mod pictures;
#[cfg(test)]
mod simple;
#[cfg(test)]
mod sinks;

use ariadne::{CharSet, Config, IndexType, Label, Place, Report, ReportKind, Source, WriteError};
use faults::{Fault, faults_of};
use std::alloc::{AllocError, Global};
use std::io::{IsTerminal, Write};
use std::process::ExitCode;
use std::{env, fs, io};

/// A report over the file at a path.
type FileReport<'p> = Report<'static, (&'p str, Place)>;

/// Colours where standard error is a terminal, unless `NO_COLOR` asks for none.
fn colors(rt: &HostRuntime) -> bool {
    let asks_for_none = match env::var(rt, "NO_COLOR") {
        Ok(value) => !value.as_str().is_empty(),
        Err(_) => false,
    };
    rt.stderr().is_terminal() && !asks_for_none
}

/// The report of a fault, over the file at a path.
fn report<'p>(
    alloc: Global,
    config: Config,
    path: &'p str,
    fault: &Fault,
) -> Result<FileReport<'p>, AllocError> {
    let report = Report::build(alloc, ReportKind::Error, (path, fault.place))
        .with_config(config)
        .with_labels(labels(alloc, path, fault)?)?
        .with_code_text(fault.rule.code)?
        .with_message(fault.rule.message)?
        .with_note(fault.rule.note)?;
    Ok(report.finish())
}

/// Its labels: where the fault is, and in front of that where a name was set before.
fn labels<'p>(
    alloc: Global,
    path: &'p str,
    fault: &Fault,
) -> Result<Vec<Label<(&'p str, Place)>>, AllocError> {
    let mut labels = Vec::new(alloc);
    if let Some(before) = fault.before {
        labels.push(Label::new((path, before)).with_message(alloc, "set here before")?)?;
    }
    labels.push(Label::new((path, fault.place)).with_message(alloc, fault.rule.hint)?)?;
    Ok(labels)
}

/// How faults are drawn.
fn config(rt: &HostRuntime) -> Config {
    Config::new()
        .with_char_set(CharSet::Ascii)
        .with_color(colors(rt))
        .with_index_type(IndexType::Byte)
}

/// Draws these faults of a text that stands in the file at a path.
fn draw(rt: &HostRuntime, path: &str, text: &str, faults: &[Fault]) -> Result<(), WriteError> {
    let config = config(rt);
    let mut cache = (path, Source::from(rt.alloc(), text)?);
    for fault in faults {
        report(rt.alloc(), config, path, fault)?.eprint(&mut cache, rt.stderr())?;
    }
    Ok(())
}

/// Draws each fault of a text that stands in the file at a path, and returns how many there are.
fn check(rt: &HostRuntime, path: &str, text: &str) -> Result<usize, WriteError> {
    let faults = faults_of(rt.alloc(), text)?;
    draw(rt, path, text, faults.as_slice())?;
    Ok(faults.len())
}

/// Tells a line, and returns the status beside it. (A line that can't be told is passed over.)
fn told(rt: &HostRuntime, line: &str, status: u8) -> ExitCode {
    let _ = writeln!(rt.stderr(), "settings: {line}");
    ExitCode::from(status)
}

/// Tells why the system can't read the file, and returns the status beside it.
fn unread(rt: &HostRuntime, fault: &io::Error) -> ExitCode {
    let _ = writeln!(rt.stderr(), "settings: the file can't be read: {fault}");
    ExitCode::from(2)
}

/// Checks the file at a path.
fn check_file(rt: &HostRuntime, path: &str) -> ExitCode {
    let text = match fs::read_to_string(rt, path) {
        Ok(text) => text,
        Err(fault) => return unread(rt, &fault),
    };
    match check(rt, path, text.as_str()) {
        Ok(0) => ExitCode::SUCCESS,
        Ok(_) => ExitCode::from(1),
        Err(_) => told(rt, "a report could not be drawn", 3),
    }
}

fn main(rt: HostRuntime) -> ExitCode {
    let Ok(mut words) = env::args(&rt) else {
        return told(&rt, "the words can't be read", 2);
    };
    match words.nth(1) {
        Some(path) => check_file(&rt, path.as_str()),
        None => told(&rt, "no file is named", 2),
    }
}
