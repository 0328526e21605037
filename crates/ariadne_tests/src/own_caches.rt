//! Reports over caches of the caller's own.

ghost use Rattle.std.specs.Prelude.{◌≡◌, Some, None, cond};
ghost use Rattle.std.specs.Str.{bytes_eq};
ghost use Rattle.std.specs.Cmp.Lexicographic.{bytes_decides};
ghost use Rattle.std.proofs.Common.{ap};

use crate::asserts::{Piece, Why};
use crate::caches::{assert_over, assert_two, map, report_at};
use crate::comparing::assert_is;
use ariadne::{Cache, FetchError, Report, Source, SourceMap, UnknownSource, WriteError, sources};
use std::alloc::{AllocError, Global};
use std::process::Abort;

/// A map of sources that shows no name for one of its ids.
#[derive(Drop)]
struct Discreet<'s> {
    map: SourceMap<&'s str, &'s str>,
    hidden: &'s str,
}

impl<'s> Cache<&'s str> for Discreet<'s> {
    type Storage = &'s str;

    type Error = UnknownSource;

    ghost contents = { λ c. c.map };

    ghost names = { λ c id. cond (bytes_eq id.now c.hidden.now) None (Some id.now) };

    ghost fails = { λ id e. e ≡ id.now };

    ghost names_respect_eq = { λ c p q h. ap (λ n. cond (bytes_eq n c.hidden.now) None (Some n))
        ((bytes_decides p.now q.now).0 h) };

    fn ensure(&mut self, id: &&'s str) -> Result<(), FetchError<UnknownSource>> {
        self.map.ensure(id)
    }

    fn get(&self, id: &&'s str) -> Option<&Source<&'s str>> {
        self.map.get(id)
    }

    fn display<'a>(&'a self, id: &'a &'s str) -> Option<&'a str> {
        if *id == self.hidden { None } else { Some(*id) }
    }
}

/// Labels in two sources, and in one that there isn't.
const LABELS: &[(&str, usize, usize, &str)] = &[
    ("x", 1, 2, "q"),
    ("y", 0, 1, "m"),
    ("z", 0, 1, "l"),
];

/// Their picture where the name of `x` is hidden.
const HIDDEN: &[&str] = &[
    "Error:",
    "   ,-[ <unknown>:1:1 ]",
    "   |",
    " 1 | ab",
    "   |  |",
    "   |  `-- q",
    "   |",
    "   |-[ y:1:1 ]",
    "   |",
    " 1 | c",
    "   | |",
    "   | `-- m",
    "---'",
];

/// A map of two sources that shows no name for the first.
fn discreet_map(rt: &(impl Abort + AllocGlobal)) -> Discreet<'static> {
    Discreet {
        map: sources(rt.alloc(), [("x", "ab"), ("y", "c")]).expect(rt, "memory"),
        hidden: "x",
    }
}

#[test]
fn a_cache_of_the_callers_own_may_show_no_name(rt: HostRuntime) {
    let report = report_at(&rt, "x", LABELS);
    let left_out = [(2, Why::Unfetched)];
    assert_over(&rt, report, &mut discreet_map(&rt), &left_out, HIDDEN)
}

/// A map of sources that returns want of memory at its second fetch of an id that it does not hold.
#[derive(Drop)]
struct Stingy<'s> {
    map: SourceMap<&'s str, &'s str>,
    has_failed: bool,
}

impl<'s> Cache<&'s str> for Stingy<'s> {
    type Storage = &'s str;

    type Error = UnknownSource;

    ghost contents = { λ c. c.map };

    ghost names = { λ _ id. Some id.now };

    ghost fails = { λ id e. e ≡ id.now };

    ghost names_respect_eq = { λ _ p q h. ap Some ((bytes_decides p.now q.now).0 h) };

    fn ensure(&mut self, id: &&'s str) -> Result<(), FetchError<UnknownSource>> {
        if self.map.get(id).is_some() {
            return Ok(());
        }
        if self.has_failed {
            return Err(FetchError::Memory(AllocError));
        }
        self.has_failed = true;
        self.map.ensure(id)
    }

    fn get(&self, id: &&'s str) -> Option<&Source<&'s str>> {
        self.map.get(id)
    }

    fn display<'a>(&'a self, id: &'a &'s str) -> Option<&'a str> {
        Some(*id)
    }
}

/// A stingy map with the source `ab` of `x`.
fn stingy_map(rt: &(impl Abort + AllocGlobal)) -> Stingy<'static> {
    Stingy {
        map: map(rt),
        has_failed: false,
    }
}

/// Labels in two sources that a stingy map lacks, and in the one that it has.
const LACKED: &[(&str, usize, usize, &str)] = &[
    ("z", 0, 1, "l"),
    ("x", 1, 2, "q"),
    ("w", 0, 1, "l"),
];

/// Whether a report sends nothing over a cache, for want of memory.
fn wants_memory(alloc: Global, report: Report<'_, Piece>, cache: &mut Stingy<'static>) -> bool {
    let mut out = Vec::new(alloc);
    let answer = report.write(cache, &mut out);
    matches!(answer, Err(WriteError::Memory(_))) && out.is_empty()
}

#[test]
fn where_a_cache_wants_memory_nothing_is_sent(rt: HostRuntime) {
    let mut cache = stingy_map(&rt);
    let report = report_at(&rt, "x", LACKED);
    assert_is(&rt, wants_memory(rt.alloc(), report, &mut cache), true);
    // What it holds is drawn.
    assert_two(&rt, &mut cache)
}
