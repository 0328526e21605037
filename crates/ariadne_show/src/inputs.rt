//! The inputs, read one after the other.

ghost use Rattle.std.specs.Prelude.{◌≡◌};
ghost use Rattle.std.specs.Io.{ReadsAtMost};

use crate::fault::Fault;
use crate::options::Input;
use std::alloc::Global;
use std::fs::File;
use std::io;
use std::io::Read;
use std::rt::Files;

/// Inputs as one. Each is opened when its turn comes, and where its last line has no line feed, one
/// stands between it and the next.
#[derive(Drop)]
pub struct Inputs<'a, R: Files, S> {
    files: &'a R,
    alloc: Global,
    standard: S,
    inputs: &'a [Input<'a>],
    // The span of the one that is read, and its file, where that is open.
    at: usize,
    file: Option<R::File>,
    is_line_open: bool,
    fault: Option<Fault>,
}

impl<'a, R: Files, S: Read + Drop> Inputs<'a, R, S> {
    /// Inputs that are read so, and what standard input is read from.
    pub fn new(
        files: &'a R,
        alloc: Global,
        standard: S,
        inputs: &'a [Input<'a>],
    ) -> Inputs<'a, R, S> {
        Inputs {
            files,
            alloc,
            standard,
            inputs,
            at: 0,
            file: None,
            is_line_open: false,
            fault: None,
        }
    }

    /// Why a file can't be read, if one can't.
    pub fn into_fault(self) -> Option<Fault> {
        self.fault
    }

    /// Reads from an input, which is opened where it is not.
    fn read_input(&mut self, input: Input<'a>, buf: &mut [u8]) -> io::Result<usize>
        ensures bound { ReadsAtMost result buf.new }
        ensures span { self.new.at ≡ self.old.at }
        ensures inputs { self.new.inputs ≡ self.old.inputs }
    {
        match input {
            Input::Standard => self.standard.read(buf),
            Input::File(path) => {
                let read = self.read_file(path, buf);
                if let Err(error) = &read {
                    self.fault = Some(Fault::unread_file(self.alloc, path, error)?);
                }
                read
            }
        }
    }

    /// Reads from the file at a path, which is opened where it is not.
    fn read_file(&mut self, path: &str, buf: &mut [u8]) -> io::Result<usize>
        ensures bound { ReadsAtMost result buf.new }
        ensures span { self.new.at ≡ self.old.at }
        ensures inputs { self.new.inputs ≡ self.old.inputs }
    {
        let mut file = match self.file.take() {
            Some(file) => file,
            None => File::open(self.files, path)?,
        };
        let read = file.read(buf);
        self.file = Some(file);
        read
    }
}

impl<R: Files, S: Read + Drop> Read for Inputs<'_, R, S> {
    fn read(&mut self, buf: &mut [u8]) -> io::Result<usize> {
        if buf.is_empty() {
            return Ok(0);
        }
        while let Some(input) = self.inputs.get(self.at) {
            let count = self.read_input(*input, buf)?;
            if count > 0 {
                self.is_line_open = buf[count - 1] != b'\n';
                return Ok(count);
            }
            self.at += 1;
            self.file = None;
            if self.is_line_open && self.at < self.inputs.len() {
                self.is_line_open = false;
                buf[0] = b'\n';
                return Ok(1);
            }
        }
        Ok(0)
    }
}
