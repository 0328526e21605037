//! A cache that has no memory for any source.

ghost use Rattle.std.specs.Prelude.{[], Some, ⊤, string_bytes};
ghost use Rattle.std.specs.Cmp.Lexicographic.{bytes_decides};
ghost use Rattle.std.proofs.Common.{ap};

use ariadne::{Cache, FetchError, Source};
use std::alloc::AllocError;

/// A cache that has no memory for any source.
#[derive(Drop)]
pub struct Forgetful;

impl Cache<String> for Forgetful {
    type Storage = String;

    type Error = ();

    ghost contents = { λ _. [] };

    ghost names = { λ _ id. Some (string_bytes id) };

    ghost fails = { λ _ _. ⊤ };

    ghost names_respect_eq = { λ _ p q h.
        ap Some ((bytes_decides (string_bytes p) (string_bytes q)).0 h) };

    fn ensure(&mut self, _id: &String) -> Result<(), FetchError<()>> {
        Err(FetchError::Memory(AllocError))
    }

    fn get(&self, _id: &String) -> Option<&Source<String>> {
        None
    }

    fn display<'a>(&'a self, id: &'a String) -> Option<&'a str> {
        Some(id.as_str())
    }
}
