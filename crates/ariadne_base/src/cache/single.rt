//! A source as a cache: the only id is `()`, and the source has no name.

ghost use Rattle.std.specs.Prelude.{[], ◌∷◌, None, refl};

use crate::cache::{Cache, FetchError};
use crate::source::Source;
use crate::text::SourceText;

impl<I: SourceText> Cache<()> for Source<I> {
    type Storage = I;

    type Error = ();

    ghost contents = { λ s. (tt, s) ∷ [] };

    ghost names = { λ _ _. None };

    ghost fails = { λ _ _. ⊥ };

    ghost names_respect_eq = { λ _ _ _ _. refl };

    fn ensure(&mut self, _id: &()) -> Result<(), FetchError<()>> {
        Ok(())
    }

    fn get(&self, _id: &()) -> Option<&Source<I>> {
        Some(self)
    }

    fn display<'a>(&'a self, _id: &'a ()) -> Option<&'a str> {
        None
    }
}

impl<'s, I: SourceText> Cache<()> for &'s Source<I> {
    type Storage = I;

    type Error = ();

    ghost contents = { λ s. (tt, s.now) ∷ [] };

    ghost names = { λ _ _. None };

    ghost fails = { λ _ _. ⊥ };

    ghost names_respect_eq = { λ _ _ _ _. refl };

    fn ensure(&mut self, _id: &()) -> Result<(), FetchError<()>> {
        Ok(())
    }

    fn get(&self, _id: &()) -> Option<&Source<I>> {
        Some(*self)
    }

    fn display<'a>(&'a self, _id: &'a ()) -> Option<&'a str> {
        None
    }
}
