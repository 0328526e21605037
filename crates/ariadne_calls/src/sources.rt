//! The sources that a call is given, by their numbers.

ghost use Rattle.std.specs.Prelude.{◌≡◌, ⊤, [], IfOk, OnOk, IfErr};
ghost use Rattle.std.proofs.Common.{ap, eqb-true};
ghost use Rattle.ariadne_calls.specs.Faults.{IsFirst, faults_from, source_faults};
ghost use Rattle.ariadne_calls.specs.CallSources.{contents_of, listing_of, name_in, AreNamed, IsNamed};

use crate::ending::{Fault, Refusal};
use crate::given::GivenSource;
use crate::texts::{optional_text, text};
use ariadne::{Cache, FetchError, Source};
use std::alloc::Global;

/// A source under its name.
#[derive(Drop)]
pub struct Named<'a> {
    pub name: Option<&'a str>,
    pub source: Source<&'a str>,
}

/// Sources by their numbers.
#[derive(Drop)]
pub struct Numbered<'a> {
    pub items: Vec<Named<'a>>,
}

impl<'a> Cache<usize> for Numbered<'a> {
    type Storage = &'a str;

    type Error = ();

    ghost contents = { λ c. contents_of c.items.items };

    ghost names = { λ c id. name_in c.items.items id };

    ghost fails = { λ _ _. ⊤ };

    ghost names_respect_eq = { λ c p q h. ap (name_in c.items.items) (eqb-true p q h) };

    fn ensure(&mut self, id: &usize) -> Result<(), FetchError<()>> {
        if *id < self.items.len() {
            Ok(())
        } else {
            Err(FetchError::Failed(()))
        }
    }

    fn get(&self, id: &usize) -> Option<&Source<&'a str>> {
        match self.items.get(*id) {
            Some(named) => Some(&named.source),
            None => None,
        }
    }

    fn display<'s>(&'s self, id: &'s usize) -> Option<&'s str> {
        match self.items.get(*id) {
            Some(named) => named.name,
            None => None,
        }
    }
}

/// All sources that are given.
pub fn read_sources<'a>(alloc: Global, given: &[GivenSource<'a>]) -> Result<Numbered<'a>, Refusal>
    ensures ok { IfOk result (λ it. AreNamed given.now it.items.items) }
    ensures sound { OnOk result (faults_from (source_faults listing_of) 0 given.now ≡ []) }
    ensures err { IfErr result (IsFirst (faults_from (source_faults listing_of) 0 given.now)) }
{
    let mut items = Vec::new(alloc);
    for (number, source) in given.iter().enumerate() {
        items.push(read_source(alloc, number, source)?)?;
    }
    Ok(Numbered { items })
}

/// The source with this number.
fn read_source<'a>(
    alloc: Global,
    number: usize,
    given: &GivenSource<'a>,
) -> Result<Named<'a>, Refusal>
    ensures ok { IfOk result (IsNamed given.now) }
    ensures sound { OnOk result (source_faults listing_of number given.now ≡ []) }
    ensures err { IfErr result (IsFirst (source_faults listing_of number given.now)) }
{
    let name = optional_text(&given.name, Fault::SourceName(number))?;
    let text = text(given.text.bytes, Fault::SourceText(number))?;
    let source = Source::from(alloc, text)?;
    match given.line_offset.checked_add(source.lines().len()) {
        Some(_) => Ok(Named {
            name,
            source: source.with_display_line_offset(given.line_offset),
        }),
        None => Err(Refusal::Faulty(Fault::SourceLines(number))),
    }
}
