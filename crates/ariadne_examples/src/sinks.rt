//! A buffer of your own that takes the picture, here one of few bytes. Copy the `impl Sink`: `take`
//! takes what it has room for and tells how much; `failed` tells whether a call met a fault, or
//! took nothing. The ghost members `contents` and `has_failed` are what `write_to` speaks of.

ghost use Rattle.std.specs.Prelude.{Some};

use crate::pictures::{assert_rows, plain};
use ariadne::{Label, Report, ReportKind, Sink, Source, WriteError};
use std::alloc::{AllocError, Global};
use std::io;

/// A board with room for some bytes.
#[derive(Drop)]
struct Board {
    bytes: Vec<u8>,
    room: usize,
    met_fault: bool,
}

impl Board {
    /// A board with nothing on it, and room for so many bytes.
    fn new(alloc: Global, room: usize) -> Board {
        Board {
            bytes: Vec::new(alloc),
            room,
            met_fault: false,
        }
    }
}

impl Sink for Board {
    ghost contents = { λ board. Some board.bytes.items };

    ghost has_failed = { λ board. board.met_fault };

    fn take(&mut self, bytes: &[u8]) -> io::Result<usize> {
        let taken = bytes.len().min(self.room);
        match self.bytes.extend_from_slice(&bytes[..taken]) {
            Ok(()) => {
                self.room -= taken;
                self.met_fault = self.met_fault || (taken == 0 && !bytes.is_empty());
                Ok(taken)
            }
            Err(refused) => {
                self.met_fault = true;
                Err(refused.into())
            }
        }
    }

    fn failed(&self) -> bool {
        self.met_fault
    }
}

/// The report that the boards get.
fn report(alloc: Global) -> Result<Report<'static>, AllocError> {
    let label = Label::new(0..4).with_message(alloc, "not sold here")?;
    let report = Report::build(alloc, ReportKind::Error, 0..4)
        .with_config(plain())
        .with_message("unknown fruit")?
        .with_label(label)?;
    Ok(report.finish())
}

/// Draws the report to a board.
fn draw(alloc: Global, board: &mut Board) -> Result<(), WriteError> {
    let mut source = Source::from(alloc, "pear")?;
    report(alloc)?.write_to(&mut source, board)?;
    Ok(())
}

/// The picture of the report.
static ROWS: [&str; 7] = [
    "Error: unknown fruit",
    "   ,-[ <unknown>:1:1 ]",
    "   |",
    " 1 | pear",
    "   | ^^|^",
    "   |   `--- not sold here",
    "---'",
];

#[test]
fn a_board_holds_the_picture(rt: HostRuntime) {
    let mut large = Board::new(rt.alloc(), 500);
    draw(rt.alloc(), &mut large).expect(&rt, "memory");
    assert!(rt; !large.failed());
    let picture = String::from_utf8(large.bytes).expect(&rt, "text");
    assert_rows(&rt, picture.as_str(), &ROWS)
}

#[test]
fn a_board_holds_the_first_bytes_of_the_picture(rt: HostRuntime) {
    let mut small = Board::new(rt.alloc(), 14);
    let drawn = draw(rt.alloc(), &mut small);
    assert!(rt; matches!(drawn, Err(WriteError::Io { sent: 14, .. })));
    assert!(rt; small.failed());
    assert_eq!(rt; small.bytes.as_slice(), b"Error: unknown".as_slice())
}
