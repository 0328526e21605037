//! Writers and sinks that take few bytes a call, and that fail.

ghost use Rattle.std.specs.Prelude.{Some};

use crate::asserts::{
    APPLE_LABELS, APPLES, Why, assert_left_out, joined, labelled, plain, plain_error, source_of,
};
use crate::comparing::{assert_same, assert_same_of, assert_text};
use ariadne::{LeftOut, Report, RetryInterrupted, Sink, Source, WriteError};
use ariadne_testing::Taker;
use std::alloc::AllocError;
use std::io;
use std::io::{ErrorKind, Stderr, Write};
use std::process::Abort;

/// The bytes of the picture.
const LEN: usize = 223;

/// The report that all writers get.
fn apples(rt: &impl AllocGlobal) -> Result<Report<'static>, AllocError> {
    let builder = plain_error(rt.alloc()).with_message("can't compare apples with oranges")?;
    labelled(rt, builder, &APPLE_LABELS)
}

/// A sink over such a writer.
#[derive(Drop)]
pub(crate) struct Drain {
    pub narrow: Taker,
    pub met_fault: bool,
}

impl Sink for Drain {
    ghost contents = { λ s. Some s.narrow.held.items };

    ghost has_failed = { λ s. s.met_fault };

    fn take(&mut self, bytes: &[u8]) -> io::Result<usize> {
        match self.narrow.write(bytes) {
            Ok(taken) => {
                self.met_fault = self.met_fault || (taken == 0 && !bytes.is_empty());
                Ok(taken)
            }
            Err(fault) => {
                self.met_fault = true;
                Err(fault)
            }
        }
    }

    fn failed(&self) -> bool {
        self.met_fault
    }
}

/// A writer of which each second call is interrupted, from the first on.
#[derive(Drop)]
struct Halting {
    taker: Taker,
    was_interrupted: bool,
}

impl Write for Halting {
    ghost contents = { λ halting. Some halting.taker.held.items };

    fn write(&mut self, buf: &[u8]) -> io::Result<usize> {
        self.was_interrupted = !self.was_interrupted;
        if self.was_interrupted {
            return Err(io::Error::from(ErrorKind::Interrupted));
        }
        self.taker.write(buf)
    }

    fn flush(&mut self) -> io::Result<()> {
        Ok(())
    }
}

/// What comes of a report: how many labels are left out. Or else how many bytes were sent before a
/// fault, and the fault's kind, or nothing for want of memory.
type Told = Result<usize, Option<(usize, ErrorKind)>>;

/// A writer, and what comes of sending it the picture.
#[derive(Drop)]
struct Stop {
    name: &'static str,
    /// How many bytes it takes a call.
    room: usize,
    /// How many calls it serves before its fault.
    calls: usize,
    /// The fault, or none where it takes nothing.
    fault: Option<ErrorKind>,
    /// What comes of it.
    want: Told,
    /// How many of the first bytes it holds.
    held: usize,
    /// How many calls it would still serve.
    calls_left: usize,
}

/// Writers and sinks of few bytes a call.
const STOPS: &[Stop] = &[
    Stop {
        name: "a fault that no call meets is none",
        room: 1,
        calls: LEN,
        fault: Some(ErrorKind::BrokenPipe),
        want: Ok(0),
        held: LEN,
        calls_left: 0,
    },
    Stop {
        name: "a picture is sent in pieces",
        room: 7,
        calls: LEN,
        fault: None,
        want: Ok(0),
        held: LEN,
        calls_left: 191,
    },
    Stop {
        name: "nothing taken is a fault",
        room: 1,
        calls: 2,
        fault: None,
        want: Err(Some((2, ErrorKind::WriteZero))),
        held: 2,
        calls_left: 0,
    },
    Stop {
        name: "an interruption is a fault",
        room: 1,
        calls: 0,
        fault: Some(ErrorKind::Interrupted),
        want: Err(Some((0, ErrorKind::Interrupted))),
        held: 0,
        calls_left: 0,
    },
];

/// A fault at the call of one byte behind so many ones.
fn broken_after(calls: usize) -> Stop {
    Stop {
        name: "what fails holds what was sent",
        room: 1,
        calls,
        fault: Some(ErrorKind::BrokenPipe),
        want: Err(Some((calls, ErrorKind::BrokenPipe))),
        held: calls,
        calls_left: 0,
    }
}

/// A way to write a report.
enum Way<'a> {
    Write(&'a mut Taker),
    WriteForStdout(&'a mut Taker),
    WriteTo(&'a mut Drain),
    Retry(&'a mut RetryInterrupted<Halting>),
}

/// Writes a report.
fn write(
    report: &Report<'_>,
    source: &mut Source,
    way: Way<'_>,
) -> Result<Vec<LeftOut<()>>, WriteError> {
    match way {
        Way::Write(out) => report.write(source, out),
        Way::WriteForStdout(out) => report.write_for_stdout(source, out),
        Way::WriteTo(out) => report.write_to(source, out),
        Way::Retry(out) => report.write(source, out),
    }
}

/// What comes of a report that was written.
fn told(answer: Result<Vec<LeftOut<()>>, WriteError>) -> Told {
    match answer {
        Ok(left_out) => Ok(left_out.len()),
        Err(WriteError::Io { sent, fault }) => Err(Some((sent, fault.kind()))),
        Err(WriteError::Memory(_)) => Err(None),
    }
}

/// Writes a report that was made over a text, and returns what comes of it.
fn sent(
    rt: &(impl Abort + AllocGlobal),
    made: Result<Report<'_>, AllocError>,
    text: &str,
    way: Way<'_>,
) -> Told {
    let mut source = source_of(rt.alloc(), text).expect(rt, "memory");
    let report = made.expect(rt, "memory");
    told(write(&report, &mut source, way))
}

/// Writes the report that all writers get.
fn apples_sent(rt: &(impl Abort + AllocGlobal), way: Way<'_>) -> Told {
    sent(rt, apples(rt), "apple == orange;", way)
}

/// Asserts that these are so many of the picture's first bytes.
fn assert_held(rt: &(impl Abort + AllocGlobal), held: &[u8], count: usize) {
    let picture = joined(rt.alloc(), &APPLES).expect(rt, "memory");
    let bytes = picture.as_bytes();
    assert_same(rt, &(LEN, Some(held)), &(bytes.len(), bytes.get(..count)))
}

/// Asserts what comes of a writer, what it holds, and how many calls it would still serve.
fn assert_stop(rt: &(impl Abort + AllocGlobal), stop: &Stop, out: &Taker, told: Told) {
    let wanted = (stop.held, stop.want, stop.calls_left);
    assert_same_of(rt, stop.name, &(stop.held, told, out.calls_left), &wanted);
    assert_held(rt, out.held.as_slice(), stop.held)
}

/// Such a writer.
fn taker(rt: &impl AllocGlobal, stop: &Stop) -> Taker {
    Taker::narrow(rt.alloc(), stop.room, stop.calls, stop.fault)
}

/// Asserts what comes of a writer.
fn assert_writer(rt: &(impl Abort + AllocGlobal), stop: &Stop) {
    let mut out = taker(rt, stop);
    let told = apples_sent(rt, Way::Write(&mut out));
    assert_stop(rt, stop, &out, told)
}

/// Asserts the same of a sink, and that it has failed where it had before or does
/// now, and else not.
fn assert_sink(rt: &(impl Abort + AllocGlobal), stop: &Stop, had_failed: bool) {
    let mut out = Drain {
        narrow: taker(rt, stop),
        met_fault: had_failed,
    };
    let told = apples_sent(rt, Way::WriteTo(&mut out));
    assert_same(rt, &out.failed(), &(had_failed || told.is_err()));
    assert_stop(rt, stop, &out.narrow, told)
}

#[test]
fn a_writer_that_fails_holds_what_was_sent(rt: HostRuntime) {
    for calls in 0..LEN {
        assert_writer(&rt, &broken_after(calls));
    }
    for stop in STOPS {
        assert_writer(&rt, stop);
    }
}

#[test]
fn an_interrupted_write_is_tried_again_where_that_is_asked_for(rt: HostRuntime) {
    let mut out = RetryInterrupted::new(Halting {
        taker: Taker::narrow(rt.alloc(), 7, LEN, None),
        was_interrupted: false,
    });
    assert_same(&rt, &apples_sent(&rt, Way::Retry(&mut out)), &Ok(0));
    assert_held(&rt, out.into_inner().taker.held.as_slice(), LEN)
}

#[test]
fn a_sink_that_fails_holds_what_was_sent_and_has_failed(rt: HostRuntime) {
    for calls in 0..LEN {
        assert_sink(&rt, &broken_after(calls), false);
    }
    for stop in STOPS {
        assert_sink(&rt, stop, false);
        // One that had failed before has failed still, also where it takes all.
        assert_sink(&rt, stop, true);
    }
}

#[test]
fn for_standard_output_the_same_is_written(rt: HostRuntime) {
    let mut out = Taker::narrow(rt.alloc(), 7, LEN, None);
    let told = apples_sent(&rt, Way::WriteForStdout(&mut out));
    assert_same(&rt, &told, &Ok(0));
    assert_held(&rt, out.held.as_slice(), LEN)
}

/// A report of one label, whose picture is compact.
fn compact(rt: &impl AllocGlobal) -> Result<Report<'static>, AllocError> {
    let builder = plain_error(rt.alloc()).with_config(plain().with_compact(true));
    labelled(rt, builder, &[(0, 2, "x")])
}

#[test]
fn a_fault_of_standard_output_is_told(rt: HostRuntime) {
    let mut out = Taker::narrow(rt.alloc(), 1, 7, Some(ErrorKind::BrokenPipe));
    let told = sent(&rt, compact(&rt), "ab", Way::WriteForStdout(&mut out));
    assert_same(&rt, &told, &Err(Some((7, ErrorKind::BrokenPipe))));
    assert_same(&rt, &out.held.as_slice(), &b"Error: ".as_slice())
}

/// Prints a report to standard error, or else to standard output.
fn print(
    rt: &impl Print,
    stderr: Option<Stderr>,
    report: &Report<'_>,
    source: &mut Source,
) -> Result<Vec<LeftOut<()>>, WriteError> {
    match stderr {
        Some(stderr) => report.eprint(source, stderr),
        None => report.print(source, rt),
    }
}

/// Prints a report, and asserts that its second label is left out.
fn assert_printed(
    rt: &(impl Abort + AllocGlobal + Print),
    stderr: Option<Stderr>,
    report: &Report<'_>,
) {
    let mut source = source_of(rt.alloc(), "ab").expect(rt, "memory");
    let left_out = print(rt, stderr, report, &mut source).expect(rt, "a picture");
    assert_left_out(&left_out, &[(1, Why::PastSource)]).expect(rt, "the label")
}

#[test]
fn the_same_picture_is_printed(rt: HostRuntime) {
    let made = labelled(&rt, plain_error(rt.alloc()), &[(0, 2, "x"), (0, 9, "z")]);
    let report = made.expect(&rt, "memory");
    assert_printed(&rt, None, &report);
    assert_printed(&rt, Some(rt.stderr()), &report)
}

/// What is said of a write that was interrupted behind so many bytes.
fn said(rt: &impl AllocGlobal, sent: usize) -> Result<String, AllocError> {
    let fault = io::Error::from(ErrorKind::Interrupted);
    WriteError::Io { sent, fault }.to_string(rt.alloc())
}

#[test]
fn errors_say_how_many_bytes_were_sent(rt: HostRuntime) {
    let no_memory = WriteError::from(AllocError);
    assert_text(&rt, no_memory.to_string(rt.alloc()), "no memory");
    assert_text(&rt, said(&rt, 0), "write failed after 0 bytes");
    assert_text(&rt, said(&rt, 222), "write failed after 222 bytes")
}

/// The kind of the fault of std that a fault of a writer becomes.
fn kind_of(kind: ErrorKind) -> ErrorKind {
    let fault = io::Error::from(kind);
    io::Error::from(WriteError::Io { sent: 7, fault }).kind()
}

#[test]
fn an_error_becomes_one_of_std(rt: HostRuntime) {
    let fault = io::Error::from(WriteError::from(AllocError));
    assert_same(&rt, &fault.kind(), &ErrorKind::OutOfMemory);
    assert_same(&rt, &kind_of(ErrorKind::BrokenPipe), &ErrorKind::BrokenPipe);
    assert_same(&rt, &kind_of(ErrorKind::WriteZero), &ErrorKind::WriteZero)
}
