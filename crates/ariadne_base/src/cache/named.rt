//! Ids with names, a source under one such id, and the error for other ids.

ghost use Rattle.std.specs.Prelude.{◌≡◌, ℕ, List, [], ◌∷◌, ◌++◌, true, string_bytes, Some, IfOk};
ghost use Rattle.std.specs.Prelude.{IsOk, IfErr, ◌↔◌, codes};
ghost use Rattle.std.specs.Cmp.Lexicographic.{bytes_decides};
ghost use Rattle.std.proofs.Common.{ap};
ghost use Rattle.ariadne_base.specs.Cache.{Refuses};

use crate::cache::{Cache, FetchError};
use crate::source::Source;
use crate::text::SourceText;
use std::alloc::{AllocError, Global};
use std::error::Error;
use std::fmt;
use std::marker::Model;

/// Ids with names. Equal ids have equal names.
///
/// ```rust
/// assert_eq!(rt; "stock.sql".name(), "stock.sql");
/// ```
pub trait SourceName: Eq {
    ghost name: { Self → List ℕ };

    /// The name, fixed by the id. Takes no memory.
    fn name(&self) -> &str
        ensures { result.now ≡ name self.now };

    ghost equal_names: { (p q : Self) → Self.eq p q ≡ true → name p ≡ name q };
}

impl SourceName for String {
    ghost name = { string_bytes };

    ghost equal_names = { λ p q. (bytes_decides (string_bytes p) (string_bytes q)).0 };

    fn name(&self) -> &str {
        self.as_str()
    }
}

impl<'s> SourceName for &'s str {
    ghost name = { λ s. s.now };

    ghost equal_names = { λ p q. (bytes_decides p.now q.now).0 };

    fn name(&self) -> &str {
        *self
    }
}

/// The error of a cache without the requested source. The error has the name of the id.
///
/// ```rust
/// let missing = match &left.reason {
///     Reason::Unfetched(unknown) => Some(unknown.name()),
///     Reason::PastSource | Reason::CutsCharacter => None,
/// };
/// ```
#[derive(Debug, Drop)]
pub struct UnknownSource {
    name: String,
}

impl Model for UnknownSource {
    ghost use Rattle.std.specs.Prelude.{ℕ, List, string_bytes};

    ghost Value = { List ℕ };

    ghost view = { λ a. string_bytes a.name };
}

impl UnknownSource {
    /// The error for an id with this name.
    pub(crate) fn new(alloc: Global, name: &str) -> Result<UnknownSource, AllocError>
        ensures { IfOk result (λ e. e ≡ name.now) }
    {
        Ok(UnknownSource {
            name: String::from_str(alloc, name)?,
        })
    }

    /// The name of the requested id.
    pub fn name(&self) -> &str
        ensures { result.now ≡ self.now }
    {
        self.name.as_str()
    }
}

impl fmt::Display for UnknownSource {
    ghost output = { λ e. Some (codes "Failed to fetch source '" ++ e ++ codes "'") };

    fn fmt<W: fmt::Write>(&self, f: &mut fmt::Formatter<W>) -> fmt::Result {
        write!(f, "Failed to fetch source '{}'", self.name())
    }
}

impl Error for UnknownSource {}

/// The result of a fetch of an id without a source, by the id's name.
pub(crate) fn unknown(alloc: Global, name: &str) -> FetchError<UnknownSource>
    ensures { Refuses (λ n e. e ≡ n) name.now result }
{
    match UnknownSource::new(alloc, name) {
        Ok(error) => FetchError::Failed(error),
        Err(refused) => FetchError::Memory(refused),
    }
}

/// The result of a fetch of an id, if only one id has a source.
fn ensure_only<Id: SourceName>(
    held: &Id,
    id: &Id,
    alloc: Global,
) -> Result<(), FetchError<UnknownSource>>
    ensures known { IsOk result ↔ (Id.eq id.now held.now ≡ true) }
    ensures refused { IfErr result (Refuses (λ id e. e ≡ Id.name id) id.now) }
{
    if *id == *held {
        return Ok(());
    }
    Err(unknown(alloc, id.name()))
}

impl<Id: SourceName, I: SourceText> Cache<Id> for (Id, Source<I>) {
    type Storage = I;

    type Error = UnknownSource;

    ghost contents = { λ c. (c.0, c.1) ∷ [] };

    ghost names = { λ _ id. Some (Id.name id) };

    ghost fails = { λ id e. e ≡ Id.name id };

    ghost names_respect_eq = { λ _ p q h. ap Some (Id.equal_names p q h) };

    fn ensure(&mut self, id: &Id) -> Result<(), FetchError<UnknownSource>> {
        ensure_only(&self.0, id, self.1.memory())
    }

    fn get(&self, id: &Id) -> Option<&Source<I>> {
        if *id == self.0 { Some(&self.1) } else { None }
    }

    fn display<'a>(&'a self, id: &'a Id) -> Option<&'a str> {
        Some(id.name())
    }
}

impl<'s, Id: SourceName, I: SourceText> Cache<Id> for (Id, &'s Source<I>) {
    type Storage = I;

    type Error = UnknownSource;

    ghost contents = { λ c. (c.0, c.1.now) ∷ [] };

    ghost names = { λ _ id. Some (Id.name id) };

    ghost fails = { λ id e. e ≡ Id.name id };

    ghost names_respect_eq = { λ _ p q h. ap Some (Id.equal_names p q h) };

    fn ensure(&mut self, id: &Id) -> Result<(), FetchError<UnknownSource>> {
        ensure_only(&self.0, id, self.1.memory())
    }

    fn get(&self, id: &Id) -> Option<&Source<I>> {
        if *id == self.0 { Some(self.1) } else { None }
    }

    fn display<'a>(&'a self, id: &'a Id) -> Option<&'a str> {
        Some(id.name())
    }
}
