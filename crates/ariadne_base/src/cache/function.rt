//! A cache over a function: the function returns the text of each missing source.

ghost use Rattle.std.specs.Prelude.{◌≡◌, [], ◌++◌, true, Some, None, IfOk, OnOk};
ghost use Rattle.std.specs.Prelude.{OnErr, IsSome, Result, ⊤};
ghost use Rattle.std.specs.Fn.{CalledAt};
ghost use Rattle.std.proofs.Common.{ap};
ghost use Rattle.ariadne_base.specs.Cache.{held, Fetched, Grows, SameHeld, KeepsOtherIds, Answers};
ghost use Rattle.ariadne_base.specs.Cache.{listing_of};

use crate::cache::named::SourceName;
use crate::cache::put::put;
use crate::cache::{Cache, FetchError};
use crate::source::Source;
use crate::text::SourceText;
use std::alloc::{AllocError, Global};
use std::collections::HashMap;
use std::hash::Hash;
use std::marker::Model;

/// A cache over a function. The function returns the text of each missing source.
///
/// A fetch of an id without a source calls the function once. If the function returns a text, the
/// text becomes the source for good. If the function returns an error, the fetch returns the error
/// as `Failed`, and the next fetch of the id calls the function again. For an id with a source the
/// function is not called.
///
/// ```rust
/// let mut cache: FnCache<&str, _, &str> = FnCache::new(
///     rt.alloc(),
///     |id: &&str| -> Result<&str, u8> {
///         calls.set(calls.get().wrapping_add(1));
///         if *id == "z" { Err(7) } else { Ok("ab") }
///     },
/// );
/// ```
#[derive(Drop)]
#[derive_where(Debug; Id, I)]
pub struct FnCache<Id: SourceName + Hash + Clone, F, I: SourceText> {
    sources: HashMap<Id, Source<I>>,
    #[derive_where(skip)]
    get: F,
    alloc: Global,
}

impl<Id: SourceName + Hash + Clone, F, I: SourceText> Model for FnCache<Id, F, I> {
    ghost use Rattle.std.specs.Prelude.{◌≡◌, true};
    ghost use Rattle.ariadne_base.specs.Stored.{Stored};

    ghost Value = { Stored Id F };

    ghost view = { λ a. record { sources = a.sources.entries; function = a.get } };

    ghost invariant = { λ a. (p q : Id) → Id.is_clone p q → Id.eq p q ≡ true };
}

impl<Id: SourceName + Hash + Clone, F, I: SourceText> FnCache<Id, F, I> {
    /// A cache without sources. A clone of an id has to equal the id.
    pub fn new(alloc: Global, get: F) -> FnCache<Id, F, I>
        requires { (p q : Id) → Id.is_clone p q → Id.eq p q ≡ true }
        ensures empty { result.sources ≡ [] }
        ensures function { result.function ≡ get }
    {
        FnCache {
            sources: HashMap::new(alloc),
            get,
            alloc,
        }
    }

    /// Adds these sources. If an id has a source already, the new source replaces the old one.
    ///
    /// On `Err` memory ran out, and the cache and all sources are dropped.
    pub fn with_sources(
        mut self,
        given: HashMap<Id, Source<I>>,
    ) -> Result<FnCache<Id, F, I>, AllocError>
    where
        I: Drop,
        F: Drop,
        ensures function { IfOk result (λ c. c.function ≡ self.function) }
        ensures replaced { IfOk result (λ c.
            SameHeld Id.eq (given.entries ++ self.sources) c.sources) }
    {
        self.sources.reserve(given.len())?;
        self.sources.extend(given)?;
        Ok(self)
    }

    /// Holds a text as the source of an id without a source.
    fn keep(&mut self, id: &Id, text: I) -> Result<(), AllocError>
    where
        I: Drop,
        requires { held Id.eq self.old.sources id.now ≡ None }
        ensures function { self.new.function ≡ self.old.function }
        ensures ok { OnOk result
            (held Id.eq self.new.sources id.now ≡ Some (listing_of (I.text text))) }
        ensures others { KeepsOtherIds Id.eq id.now self.old.sources self.new.sources }
        ensures grows { Grows Id.eq self.old.sources self.new.sources }
        ensures err { OnErr result (SameHeld Id.eq self.old.sources self.new.sources) }
    {
        let key = id.clone()?;
        put(&mut self.sources, self.alloc, key, text)
    }
}

impl<
    Id: SourceName + Hash + Clone,
    F: FnMut(&Id) -> Result<I, E>,
    I: SourceText + Drop,
    E: Drop,
> Cache<Id> for FnCache<Id, F, I> {
    type Storage = I;

    type Error = E;

    ghost contents = { λ c. c.sources };

    ghost names = { λ _ id. Some (Id.name id) };

    ghost fails = { λ _ _. ⊤ };

    ghost can_fetch = { λ c. F.IsAlwaysCallable c.function };

    ghost names_respect_eq = { λ _ p q h. ap Some (Id.equal_names p q h) };

    fn ensure(&mut self, id: &Id) -> Result<(), FetchError<E>>
        requires { F.IsAlwaysCallable self.old.function }
        ensures again { F.IsAlwaysCallable self.new.function }
        ensures step { Fetched Id.eq (λ _ _. ⊤) self.old.sources self.new.sources id.now result }
        ensures naming { (q : Id) → Some (Id.name q) ≡ Some (Id.name q) }

        // For an id with a source the function is not called.
        ensures rests { IsSome (held Id.eq self.old.sources id.now) →
            self.new.function ≡ self.old.function }

        // For any other id the function is called once, and the result decides.
        ensures called { held Id.eq self.old.sources id.now ≡ None →
            (r : Result I E) × CalledAt F.FnMut self.old.function id.now r self.new.function
            × Answers I.text r (held Id.eq self.new.sources id.now) result }
    {
        if self.sources.contains_key(id) {
            return Ok(());
        }
        match (self.get)(id) {
            Err(error) => Err(FetchError::Failed(error)),
            Ok(text) => match self.keep(id, text) {
                Ok(()) => Ok(()),
                Err(refused) => Err(FetchError::Memory(refused)),
            },
        }
    }

    fn get(&self, id: &Id) -> Option<&Source<I>> {
        self.sources.get(id)
    }

    fn display<'a>(&'a self, id: &'a Id) -> Option<&'a str> {
        Some(id.name())
    }
}
