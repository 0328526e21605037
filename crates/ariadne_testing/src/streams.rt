//! A reader and a writer that fail where they are told to.

ghost use Rattle.std.specs.Prelude.{◌≡◌, ◌≢◌, ◌<◌, ◌-◌, ◌^◌, min, [], length, IfOk, IsOk, Some, None};
ghost use Rattle.std.specs.Io.{ReadsAtMost, WritesAtMost};
ghost use Rattle.std.specs.Io.KnownBytes.{Keeps, ReadConsumes, WriteAppends};
ghost use Rattle.ariadne_testing.specs.Streams.{Stops};

use std::alloc::{AllocError, Global};
use std::io;
use std::io::{ErrorKind, Read, Write};

/// A reader of bytes. Behind them it returns the fault, or their end where there is none.
#[derive(Drop)]
pub struct Given<'a> {
    /// The bytes that are still to be read.
    pub rest: &'a [u8],
    /// What each read behind them returns.
    pub fault: Option<ErrorKind>,
}

impl<'a> Given<'a> {
    /// A reader of these bytes to their end.
    pub fn whole(rest: &'a [u8]) -> Given<'a>
        ensures rest { result.rest ≡ rest.entry }
        ensures fault { result.fault ≡ None }
    {
        Given { rest, fault: None }
    }
}

impl Read for Given<'_> {
    ghost remaining = { λ given. Some given.rest.now };

    fn read(&mut self, buf: &mut [u8]) -> io::Result<usize>
        ensures bound { ReadsAtMost result buf.new }
        ensures bytes { ReadConsumes (Some self.old.rest.now) (Some self.new.rest.now) result buf.new }
        ensures given { self.old.rest.now ≢ [] → IsOk result }
        ensures stopped { self.old.rest.now ≡ [] → Stops self.old.fault result }
        ensures fault { self.new.fault ≡ self.old.fault }
    {
        match self.fault {
            Some(kind) if self.rest.is_empty() => Err(io::Error::from(kind)),
            _ => self.rest.read(buf),
        }
    }
}

/// A writer of few bytes a call, which after some calls returns the fault, or takes nothing where
/// there is none.
#[derive(Drop)]
pub struct Taker {
    /// The bytes that it took.
    pub held: Vec<u8>,
    /// How many bytes it takes a call, at most.
    pub room: usize,
    /// How many calls it still serves.
    pub calls_left: usize,
    /// What each later call returns.
    pub fault: Option<ErrorKind>,
}

impl Taker {
    /// A writer of at most `room` bytes a call, which stops behind so many calls.
    pub fn narrow(alloc: Global, room: usize, calls: usize, fault: Option<ErrorKind>) -> Taker
        ensures held { result.held.items ≡ [] }
        ensures room { result.room ≡ room }
        ensures calls { result.calls_left ≡ calls }
        ensures fault { result.fault ≡ fault }
    {
        Taker {
            held: Vec::new(alloc),
            room,
            calls_left: calls,
            fault,
        }
    }

    /// A writer that takes all that it is given, and asks for no memory for the first 4000 bytes.
    pub fn whole(alloc: Global) -> Result<Taker, AllocError>
        ensures held { IfOk result (λ taker. taker.held.items ≡ []) }
        ensures room { IfOk result (λ taker. taker.room ≡ 2 ^ 64 - 1) }
        ensures calls { IfOk result (λ taker. taker.calls_left ≡ 2 ^ 64 - 1) }
    {
        Ok(Taker {
            held: Vec::with_capacity(alloc, 4000)?,
            room: usize::MAX,
            calls_left: usize::MAX,
            fault: None,
        })
    }
}

impl Write for Taker {
    ghost contents = { λ taker. Some taker.held.items };

    fn write(&mut self, buf: &[u8]) -> io::Result<usize>
        ensures bound { WritesAtMost result buf.now }
        ensures bytes { WriteAppends (Some self.old.held.items) (Some self.new.held.items) result
            buf.now }
        ensures taken { 0 < self.old.calls_left
            → IfOk result (λ n. n ≡ min (length buf.now) self.old.room) }
        ensures stopped { self.old.calls_left ≡ 0 → Stops self.old.fault result }
        ensures calls { self.new.calls_left ≡ self.old.calls_left - 1 }
        ensures room { self.new.room ≡ self.old.room }
        ensures fault { self.new.fault ≡ self.old.fault }
    {
        if self.calls_left == 0 {
            return match self.fault {
                Some(kind) => Err(io::Error::from(kind)),
                None => Ok(0),
            };
        }
        self.calls_left -= 1;
        let taken = buf.len().min(self.room);
        self.held.extend_from_slice(&buf[..taken])?;
        Ok(taken)
    }

    fn flush(&mut self) -> io::Result<()>
        ensures bytes { Keeps (Some self.old.held.items) (Some self.new.held.items) }
        ensures done { IsOk result }
        ensures unchanged { self.new ≡ self.old }
    {
        Ok(())
    }
}
