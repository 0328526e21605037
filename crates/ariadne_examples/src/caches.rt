//! A cache of your own, which shows one of its ids under a title. Copy `Titled`, and put your
//! sources in place of `map`. The ghost members are what a report relies on. `contents` is what is
//! held, which only grows. `names` is what `display` returns, which no fetch changes. `fails` is the
//! errors that an id may have, and `names_respect_eq` the proof that equal ids have equal names.

ghost use Rattle.std.specs.Prelude.{◌≡◌, Some, cond};
ghost use Rattle.std.specs.Str.{bytes_eq};
ghost use Rattle.std.specs.Cmp.Lexicographic.{bytes_decides};
ghost use Rattle.std.proofs.Common.{ap};

use crate::pictures::{assert_rows, picture_of, plain};
use ariadne::{
    Cache, FetchError, Label, Report, ReportKind, Source, SourceMap, UnknownSource, sources,
};
use std::alloc::{AllocError, Global};
use std::ops::Range;

/// A map of sources that shows one id under a title, and the others as they are.
#[derive(Drop)]
struct Titled<'s> {
    map: SourceMap<&'s str, &'s str>,
    id: &'s str,
    title: &'s str,
}

impl<'s> Cache<&'s str> for Titled<'s> {
    type Storage = &'s str;

    type Error = UnknownSource;

    ghost contents = { λ c. c.map };

    ghost names = { λ c id. cond (bytes_eq id.now c.id.now) (Some c.title.now) (Some id.now) };

    ghost fails = { λ id e. e ≡ id.now };

    ghost names_respect_eq = { λ c p q h.
        ap (λ n. cond (bytes_eq n c.id.now) (Some c.title.now) (Some n))
        ((bytes_decides p.now q.now).0 h) };

    fn ensure(&mut self, id: &&'s str) -> Result<(), FetchError<UnknownSource>> {
        self.map.ensure(id)
    }

    fn get(&self, id: &&'s str) -> Option<&Source<&'s str>> {
        self.map.get(id)
    }

    fn display<'a>(&'a self, id: &'a &'s str) -> Option<&'a str> {
        if *id == self.id {
            Some(self.title)
        } else {
            Some(*id)
        }
    }
}

/// Two texts, of which the first stands for standard input.
fn cache(alloc: Global) -> Result<Titled<'static>, AllocError> {
    Ok(Titled {
        map: sources(alloc, [("-", "use pear"), ("fruit", "apple")])?,
        id: "-",
        title: "<stdin>",
    })
}

/// The report that a name of the first is none of the second.
fn report(alloc: Global) -> Result<Report<'static, (&'static str, Range<usize>)>, AllocError> {
    let report = Report::build(alloc, ReportKind::Error, ("-", 4..8))
        .with_config(plain())
        .with_message("unknown fruit")?
        .with_label(Label::new(("-", 4..8)).with_message(alloc, "not among the fruit")?)?
        .with_label(Label::new(("fruit", 0..5)).with_message(alloc, "there is only this one")?)?;
    Ok(report.finish())
}

/// The picture of the report.
static ROWS: [&str; 13] = [
    "Error: unknown fruit",
    "   ,-[ <stdin>:1:5 ]",
    "   |",
    " 1 | use pear",
    "   |     ^^|^",
    "   |       `--- not among the fruit",
    "   |",
    "   |-[ fruit:1:1 ]",
    "   |",
    " 1 | apple",
    "   | ^^|^^",
    "   |   `---- there is only this one",
    "---'",
];

#[test]
fn an_id_is_shown_under_a_title(rt: HostRuntime) {
    let mut cache = cache(rt.alloc()).expect(&rt, "memory");
    let picture = picture_of(&rt, report(rt.alloc()), &mut cache);
    assert_rows(&rt, picture.as_str(), &ROWS)
}
