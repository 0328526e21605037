//! A cache of sources by number, as compilers keep their files.

ghost use Rattle.std.specs.Prelude.{◌≡◌, [], ◌∷◌, ◌++◌, length, Some, IfOk, OnOk, OnErr, codes};
ghost use Rattle.std.specs.Prelude.{decimal};
ghost use Rattle.std.proofs.Common.{ap};
ghost use Rattle.std.proofs.lemmas.Bool.{eqb-true};
ghost use Rattle.ariadne_base.specs.Numbered.{added, by_number, name_of};

use crate::cache::{Cache, FetchError};
use crate::source::Source;
use crate::text::SourceText;
use std::alloc::{AllocError, Global};
use std::error::Error;
use std::fmt;
use std::marker::Model;

/// A source with the name shown in headers.
#[derive(Debug, Drop)]
struct Named<I: SourceText> {
    name: String,
    source: Source<I>,
}

impl<I: SourceText> Model for Named<I> {
    ghost use Rattle.std.specs.Prelude.{string_bytes};
    ghost use Rattle.ariadne_base.specs.Numbered.{NamedListing};

    ghost Value = { NamedListing };

    ghost view = { λ a. record { name = string_bytes a.name; source = a.source } };
}

/// Sources by number, in the order of `add`: the first is 0, the next is 1, and so on. A fetch of
/// any other number returns an error.
///
/// ```rust
/// let mut table = SourceTable::new(alloc);
/// let stock = table.add("stock.sql", "SELECT name, prise")?;
/// Report::build(alloc, ReportKind::Error, (stock, 13..18));
/// ```
#[derive(Debug, Drop)]
pub struct SourceTable<I: SourceText = String> {
    sources: Vec<Named<I>>,
    alloc: Global,
}

impl<I: SourceText> Model for SourceTable<I> {
    ghost use Rattle.std.specs.Prelude.{List};
    ghost use Rattle.ariadne_base.specs.Numbered.{NamedListing};

    ghost Value = { List NamedListing };

    ghost view = { λ a. a.sources.items };
}

impl<I: SourceText> SourceTable<I> {
    /// A table without sources.
    pub fn new(alloc: Global) -> SourceTable<I>
        ensures { result ≡ [] }
    {
        SourceTable {
            sources: Vec::new(alloc),
            alloc,
        }
    }

    /// Adds a text as a source with this name, and returns the source's number: the number of
    /// sources before. Several sources may have one name.
    ///
    /// On `Err` memory ran out: the text is dropped, and the table is unchanged.
    pub fn add(&mut self, name: &str, text: I) -> Result<usize, AllocError>
    where
        I: Drop,
        ensures number { IfOk result (λ number. number ≡ length self.old) }
        ensures ok { OnOk result (self.new ≡ self.old ++ added name.now (I.text text) ∷ []) }
        ensures err { OnErr result (self.new ≡ self.old) }
    {
        let name = String::from_str(self.alloc, name)?;
        let source = Source::from(self.alloc, text)?;
        let number = self.sources.len();
        self.sources.push(Named { name, source })?;
        Ok(number)
    }
}

/// The error of a table without a source of the requested number.
///
/// ```rust
/// let missing = match &left.reason {
///     Reason::Unfetched(unknown) => Some(unknown.number),
///     Reason::PastSource | Reason::CutsCharacter => None,
/// };
/// ```
#[derive(Clone, Copy, Debug, PartialEq, Eq)]
pub struct UnknownNumber {
    /// The requested number.
    pub number: usize,
}

impl fmt::Display for UnknownNumber {
    ghost output = { λ e. Some (codes "Failed to fetch source " ++ decimal e.number) };

    fn fmt<W: fmt::Write>(&self, f: &mut fmt::Formatter<W>) -> fmt::Result {
        write!(f, "Failed to fetch source {}", self.number)
    }
}

impl Error for UnknownNumber {}

impl<I: SourceText> Cache<usize> for SourceTable<I> {
    type Storage = I;

    type Error = UnknownNumber;

    ghost contents = { λ table. by_number table };

    ghost names = { λ table number. name_of table number };

    ghost fails = { λ number e. e.number ≡ number };

    ghost names_respect_eq = { λ table p q h. ap (name_of table) (eqb-true p q h) };

    fn ensure(&mut self, id: &usize) -> Result<(), FetchError<UnknownNumber>> {
        if *id < self.sources.len() {
            return Ok(());
        }
        Err(FetchError::Failed(UnknownNumber { number: *id }))
    }

    fn get(&self, id: &usize) -> Option<&Source<I>> {
        Some(&self.sources.get(*id)?.source)
    }

    fn display<'a>(&'a self, id: &'a usize) -> Option<&'a str> {
        Some(self.sources.get(*id)?.name.as_str())
    }
}
