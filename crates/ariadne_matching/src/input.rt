//! An input in which the lines of diagnostics that matchers read are replaced by their reports. All other lines are
//! those of the input.

ghost use Rattle.std.specs.Prelude.{◌≡◌, ◌≤◌, length, IfOk};
ghost use Rattle.ariadne_matching.specs.OwnTables.{options_behind as with_options_behind};

use crate::matchers::Matchers;
use crate::settling::{MatchedLines, has_matchers};
use ariadne_parse::{Format, Reading};
use ariadne_show::Options;
use std::alloc::{AllocError, Global};
use std::io;
use std::io::{BufRead, Read};
use std::rt::Files;

/// An input whose lines are read by matchers.
#[derive(Drop)]
pub struct MatchedInput<'a, R: Files, I> {
    input: I,
    lines: MatchedLines<'a, R>,
    // How much was handed over of what is ready.
    given: usize,
    is_ended: bool,
    // Why the input can't be read on, until that is told.
    fault: Option<io::Error>,
}

impl<'a, R: Files, I: BufRead + Drop> MatchedInput<'a, R, I> {
    /// An input whose lines are read by these matchers. On `Err` there was no memory.
    pub fn new(
        files: &'a R,
        alloc: Global,
        options: &Options<'_>,
        matchers: Matchers<'a>,
        input: I,
    ) -> Result<MatchedInput<'a, R, I>, AllocError> {
        let lines = MatchedLines::new(files, alloc, options, matchers)?;
        Ok(MatchedInput {
            input,
            lines,
            given: 0,
            is_ended: false,
            fault: None,
        })
    }

    /// Writes what is ready to a buffer, as far as it has room, and returns how many bytes that are.
    fn give(&mut self, buf: &mut [u8]) -> usize
        ensures { result ≤ length buf.new }
    {
        let count = copied(self.lines.ready(), self.given, buf);
        self.given = self.given.saturating_add(count);
        count
    }

    /// Reads a line, and makes ready what is known then. Where the input can't be read on, it is over.
    fn step(&mut self) -> Result<(), AllocError> {
        let mut bytes = self.lines.room();
        self.given = 0;
        match self.input.read_until(b'\n', &mut bytes) {
            Ok(0) => self.is_ended = true,
            Ok(_) => self.lines.take(bytes)?,
            Err(error) => {
                self.is_ended = true;
                self.fault = Some(error);
            }
        }
        self.lines.settle(self.is_ended)
    }

    /// What is given at the end: why the input can't be read, once, if it can't.
    fn end(&mut self) -> io::Result<usize>
        ensures { IfOk result (λ count. count ≡ 0) }
    {
        match self.fault.take() {
            Some(error) => Err(error),
            None => Ok(0),
        }
    }
}

/// Copies bytes from the one at a place on, as far as a buffer has room, and returns how many they are.
fn copied(bytes: &[u8], from: usize, buf: &mut [u8]) -> usize
    ensures { result ≤ length buf.new }
{
    let rest = &bytes[from.min(bytes.len())..];
    let count = buf.len().min(rest.len());
    buf[..count].copy_from_slice(&rest[..count]);
    count
}

/// What is asked of the program behind the matchers: where these read the lines of a tool, only the reports are read.
pub fn options_behind(options: Options<'_>) -> Options<'_>
    ensures { result ≡ with_options_behind options.entry }
{
    if options.tool.is_none() || !has_matchers(&options) {
        return options;
    }
    let reading = Reading {
        format: Format::Report,
        ..options.reading
    };
    Options { reading, ..options }
}

impl<R: Files, I: BufRead + Drop> Read for MatchedInput<'_, R, I> {
    fn read(&mut self, buf: &mut [u8]) -> io::Result<usize> {
        if buf.is_empty() {
            return Ok(0);
        }
        for _ in 0..u64::MAX {
            let count = self.give(buf);
            if count > 0 {
                return Ok(count);
            }
            if self.is_ended {
                return self.end();
            }
            self.step()?;
        }
        Ok(0)
    }
}
