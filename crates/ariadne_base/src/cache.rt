//! Caches: finite maps from ids to sources, to which sources are only added.

ghost use Rattle.std.specs.Prelude.{◌≡◌, ℕ, ⊤, true, List, Option, None, IsOkAnd, IfErr};
ghost use Rattle.std.specs.Prelude.{OnErr, IfSome};
ghost use Rattle.std.specs.Prelude.{alloc_error};
ghost use Rattle.std.specs.Option.{option_copied};
ghost use Rattle.ariadne_base.specs.Listing.{Listing};
ghost use Rattle.ariadne_base.specs.Cache.{held, Fetched, Refuses};
ghost use Rattle.ariadne_base.specs.declared.cache.FetchError.TheVariants.{Memory};

pub mod file;
pub mod function;
pub mod lent;
pub mod map;
pub mod named;
mod put;
pub mod single;
pub mod table;

use crate::source::Source;
use crate::text::SourceText;
use std::alloc::{AllocError, AllocFailed};

/// Why a fetch returns no source.
///
/// ```rust
/// let is_held = match cache.ensure(&id) {
///     Ok(()) => true,
///     Err(FetchError::Memory(_)) => false, // a later call may succeed
///     Err(FetchError::Failed(_)) => false, // the cache says why
/// };
/// ```
#[derive(Debug, Drop)]
pub enum FetchError<E> {
    /// Memory ran out. A later call with the same id may succeed.
    Memory(AllocError),
    /// The cache can't load the source, for this reason.
    Failed(E),
}

impl<E> From<AllocError> for FetchError<E> {
    ghost from_gives = { λ _ e. e ≡ Memory alloc_error };

    fn from(error: AllocError) -> FetchError<E> {
        FetchError::Memory(error)
    }
}

impl<T: Drop, E> From<AllocFailed<T>> for FetchError<E> {
    ghost from_gives = { λ _ e. e ≡ Memory alloc_error };

    fn from(_refused: AllocFailed<T>) -> FetchError<E> {
        FetchError::Memory(AllocError)
    }
}

/// A finite map from ids to sources. A fetch may add a source, and nothing else changes the map.
///
/// You call `fetch` and `display`. If you implement a cache, write `ensure`, `get` and `display`.
/// Equal ids count as one id.
///
/// A cache with a map inside, for sources without names:
///
/// ```rust
/// impl<'s> Cache<&'s str> for Nameless<'s> {
///     type Storage = &'s str;
///
///     type Error = UnknownSource;
///
///     ghost contents = { λ c. c.map };
///
///     ghost names = { λ _ _. None };
///
///     ghost fails = { λ id e. e ≡ id.now };
///
///     ghost names_respect_eq = { λ _ _ _ _. refl };
///
///     fn ensure(&mut self, id: &&'s str) -> Result<(), FetchError<UnknownSource>> {
///         self.map.ensure(id)
///     }
///
///     fn get(&self, id: &&'s str) -> Option<&Source<&'s str>> {
///         self.map.get(id)
///     }
///
///     fn display<'a>(&'a self, _id: &'a &'s str) -> Option<&'a str> {
///         None
///     }
/// }
/// ```
pub trait Cache<Id: Eq> {
    /// The owner of each source's text.
    type Storage: SourceText;

    /// Why a source can't be loaded, except for lack of memory.
    type Error: Drop;

    // The sources held, each under an id. Only look-ups read the list.
    ghost contents: { Self → List (Id × Listing) };

    // The name shown for an id, if there is one.
    ghost names: { Self → Id → Option (List ℕ) };

    // The possible errors of an id.
    ghost fails: { Id → Self.Error → Type 0 };

    // The condition of a fetch, for example that the cache's function may be called.
    ghost can_fetch: { Self → Type 0 } = { λ _. ⊤ };

    /// Loads the source of an id, if no source is held under the id. Returns an error if the source
    /// can't be loaded.
    ///
    /// All sources held before the call stay. After `Ok` a source is held under the id, and nothing
    /// else is new. If one was held before, nothing changes, and no memory is taken. After an error
    /// the cache is unchanged, and the id has no source.
    fn ensure(&mut self, id: &Id) -> Result<(), FetchError<Self::Error>>
        requires { can_fetch self.old }
        ensures again { can_fetch self.new }
        ensures step { Fetched Id.eq fails
            (contents self.old) (contents self.new) id.now result }
        ensures naming { (q : Id) → names self.new q ≡ names self.old q };

    /// Borrows the source held under an id, if there is one. Takes no memory.
    fn get(&self, id: &Id) -> Option<&Source<Self::Storage>>
        ensures { option_copied result ≡ held Id.eq (contents self.now) id.now };

    /// The name shown for an id, if there is one. A fetch changes no name. Takes no memory.
    fn display<'a>(&'a self, id: &'a Id) -> Option<&'a str>
        ensures { option_copied result ≡ names self.now id.now };

    /// Loads the source of an id if necessary, and borrows the source.
    ///
    /// Afterwards the cache is as after `ensure`, but no clause here says so. If you use the cache
    /// again, call `ensure` and `get`. After an error the id has no source.
    final fn fetch(&mut self, id: &Id) -> Result<&Source<Self::Storage>, FetchError<Self::Error>>
        requires { can_fetch self.old }
        ensures known { IfSome (held Id.eq (contents self.old) id.now) (λ s.
            IsOkAnd result (λ r. r.now ≡ s)) }
        ensures unknown { OnErr result (held Id.eq (contents self.old) id.now ≡ None) }
        ensures refused { IfErr result (Refuses fails id.now) }
    {
        self.ensure(id)?;
        match self.get(id) {
            Some(source) => Ok(source),
            None => unreachable!(),
        }
    }

    // Equal ids have equal names.
    ghost names_respect_eq: { (c : Self) (p q : Id) → Id.eq p q ≡ true → names c p ≡ names c q };
}
