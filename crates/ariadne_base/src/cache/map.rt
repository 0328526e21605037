//! A cache with all sources from the start.

ghost use Rattle.std.specs.Prelude.{◌≡◌, List, Some, IfOk, reverse};
ghost use Rattle.std.specs.Iterator.{IsFinite, Drains};
ghost use Rattle.std.proofs.Common.{ap};
ghost use Rattle.ariadne_base.specs.Cache.{SameHeld, listed};

use crate::cache::named::{SourceName, UnknownSource, unknown};
use crate::cache::put::put;
use crate::cache::{Cache, FetchError};
use crate::source::Source;
use crate::text::SourceText;
use std::alloc::{AllocError, Global};
use std::collections::HashMap;
use std::hash::Hash;
use std::marker::Model;

/// Sources given at the start, each under an id. A fetch of any other id returns an error.
///
/// ```rust
/// let mut files = sources(alloc, [("pie", "aple + 1"), ("fruit", "apple")])?;
/// report.write(&mut files, &mut bytes)?;
/// ```
#[derive(Debug, Drop)]
pub struct SourceMap<Id: SourceName + Hash + Clone, I: SourceText> {
    sources: HashMap<Id, Source<I>>,
    alloc: Global,
}

impl<Id: SourceName + Hash + Clone, I: SourceText> Model for SourceMap<Id, I> {
    ghost use Rattle.std.specs.Prelude.{List};
    ghost use Rattle.ariadne_base.specs.Listing.{Listing};

    ghost Value = { List (Id × Listing) };

    ghost view = { λ a. a.sources.entries };
}

/// The sources of pairs of an id and a text. If an id occurs twice, the last pair counts.
///
/// Two sources, as a field of a cache:
///
/// ```rust
/// map: sources(alloc, [("-", "use pear"), ("fruit", "apple")])?,
/// ```
///
/// On `Err` memory ran out, and the remaining pairs are dropped.
pub fn sources<
    Id: SourceName + Hash + Clone,
    I: SourceText + Drop,
    T: IntoIterator<Item = (Id, I)>,
>(alloc: Global, texts: T) -> Result<SourceMap<Id, I>, AllocError>
where
    T::IntoIter: Drop,
    requires { (items : T.IntoIter) → T.into_iter_gives texts items →
        T.IntoIter.can_next items × IsFinite (T.IntoIter.remaining items) }
    ensures { IfOk result (λ m. (items : T.IntoIter) × (pairs : List (Id × I)) ×
        T.into_iter_gives texts items × Drains T.IntoIter.next_gives items pairs
        × SameHeld Id.eq (reverse (listed I.text pairs)) m) }
{
    let mut sources: HashMap<Id, Source<I>> = HashMap::new(alloc);
    for (id, text) in texts {
        put(&mut sources, alloc, id, text)?;
    }
    Ok(SourceMap { sources, alloc })
}

impl<Id: SourceName + Hash + Clone, I: SourceText> Cache<Id> for SourceMap<Id, I> {
    type Storage = I;

    type Error = UnknownSource;

    ghost contents = { λ m. m };

    ghost names = { λ _ id. Some (Id.name id) };

    ghost fails = { λ id e. e ≡ Id.name id };

    ghost names_respect_eq = { λ _ p q h. ap Some (Id.equal_names p q h) };

    fn ensure(&mut self, id: &Id) -> Result<(), FetchError<UnknownSource>> {
        if self.sources.contains_key(id) {
            return Ok(());
        }
        Err(unknown(self.alloc, id.name()))
    }

    fn get(&self, id: &Id) -> Option<&Source<I>> {
        self.sources.get(id)
    }

    fn display<'a>(&'a self, id: &'a Id) -> Option<&'a str> {
        Some(id.name())
    }
}
