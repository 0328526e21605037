//! Sends the picture of a case's report, and tells what was sent.

use crate::making::report_of;
use crate::members::count;
use crate::offsets::Placed;
use ariadne::{Cache, LeftOut, Reason, Report, Span, WriteError};
use ariadne_testing::Taker;
use std::alloc::{AllocError, Global};
use std::io::ErrorKind;
use toml::Value;

/// What came of sending.
#[derive(Clone, Copy)]
pub enum End {
    Whole,
    Memory,
    Io,
    /// The writer failed, and another count is told than it took.
    OtherCount,
    /// What the writer took is no text.
    NoText,
}

impl End {
    /// Its name. The whole picture has none.
    pub fn name(self) -> &'static str {
        match self {
            End::Whole => "",
            End::Memory => "Memory",
            End::Io => "Io",
            End::OtherCount => "another count",
            End::NoText => "no text",
        }
    }
}

/// What comes of writing a report.
#[derive(Drop)]
pub struct Answer {
    /// The labels that are left out, by their positions from 0, each with its reason:
    /// `[[1, "PastSource"]]`.
    pub left_out: String,
    pub end: End,
    /// What is sent.
    pub picture: String,
}

/// A report, and how much of its picture is taken.
#[derive(Drop)]
pub struct Sending<'c, S: Span> {
    alloc: Global,
    /// How many bytes the writer takes before it fails, if it does.
    room: Option<usize>,
    report: Report<'c, S>,
}

/// The report of a case, and how much of its picture is taken.
pub fn sending_of<S: Placed>(alloc: Global, case: &Value) -> Result<Sending<'_, S>, AllocError> {
    let report = report_of(alloc, case)?;
    Ok(Sending {
        alloc,
        room: count(case, "takes").map(|room| room as usize),
        report,
    })
}

impl<S: Span + Drop> Sending<'_, S> {
    /// Sends the picture over a cache to `out`.
    fn send<C: Cache<S::SourceId>>(
        &self,
        cache: &mut C,
        out: &mut Vec<u8>,
    ) -> Result<Vec<LeftOut<C::Error>>, WriteError>
        requires { C.can_fetch cache.old }
    {
        let Some(room) = self.room else {
            return self.report.write(cache, out);
        };
        let mut taker = Taker::narrow(self.alloc, room, 1, Some(ErrorKind::BrokenPipe));
        let told = self.report.write(cache, &mut taker);
        *out = taker.held;
        told
    }

    /// What is drawn over a cache.
    pub fn over<C: Cache<S::SourceId>>(self, cache: &mut C) -> Result<Answer, AllocError>
        requires { C.can_fetch cache.old }
    {
        let mut out = Vec::new(self.alloc);
        let told = self.send(cache, &mut out);
        answer_to(self.alloc, out, told)
    }
}

/// What came of writing, by the bytes that were sent and what the call told.
pub fn answer_to<E: Drop>(
    alloc: Global,
    bytes: Vec<u8>,
    told: Result<Vec<LeftOut<E>>, WriteError>,
) -> Result<Answer, AllocError> {
    let left_out = listed(alloc, left_out_in(&told))?;
    let end = end_of(&told, bytes.len());
    Ok(match String::from_utf8(bytes) {
        Ok(picture) => Answer {
            left_out,
            end,
            picture,
        },
        Err(_) => Answer {
            left_out,
            end: End::NoText,
            picture: String::new(alloc),
        },
    })
}

/// The labels that a call left out.
fn left_out_in<E>(told: &Result<Vec<LeftOut<E>>, WriteError>) -> &[LeftOut<E>] {
    match told {
        Ok(left_out) => left_out.as_slice(),
        Err(_) => &[],
    }
}

/// What came of a call, of which the writer took so many bytes.
fn end_of<T>(told: &Result<T, WriteError>, count: usize) -> End {
    match told {
        Ok(_) => End::Whole,
        Err(WriteError::Memory(_)) => End::Memory,
        Err(WriteError::Io { sent, .. }) if *sent == count => End::Io,
        Err(WriteError::Io { .. }) => End::OtherCount,
    }
}

/// The labels that are left out, each with its reason, as a case writes them.
fn listed<E>(alloc: Global, left_out: &[LeftOut<E>]) -> Result<String, AllocError> {
    let mut list = String::from_str(alloc, "[")?;
    let mut separator = "";
    for left in left_out {
        let (label, why) = (left.label, reason(&left.reason));
        write!(list, "{separator}[{label}, \"{why}\"]")?;
        separator = ", ";
    }
    list.push(']')?;
    Ok(list)
}

/// A reason without what the cache said.
fn reason<E>(reason: &Reason<E>) -> &'static str {
    match reason {
        Reason::Unfetched(_) => "Unfetched",
        Reason::PastSource => "PastSource",
        Reason::CutsCharacter => "CutsCharacter",
    }
}
