//! A cache that may show no name for one of its ids.

ghost use Rattle.std.specs.Prelude.{◌&&◌, None, cond, string_bytes};
ghost use Rattle.std.specs.Str.{bytes_eq};
ghost use Rattle.std.specs.Cmp.Lexicographic.{bytes_decides};
ghost use Rattle.std.proofs.Common.{ap₂};

use ariadne::{Cache, FetchError, Source};

/// A cache that shows no name for an id, if it hides one, and is in all else the cache that it holds.
#[derive(Drop)]
pub struct Discreet<'h, C: Cache<String>> {
    pub cache: C,
    pub is_hiding: bool,
    pub hidden: &'h str,
}

impl<'h, C: Cache<String>> Cache<String> for Discreet<'h, C> {
    type Storage = C::Storage;

    type Error = C::Error;

    ghost contents = { λ c. C.contents c.cache };

    ghost names = { λ c id. cond (c.is_hiding && bytes_eq (string_bytes id) c.hidden.now) None
        (C.names c.cache id) };

    ghost fails = { C.fails };

    ghost can_fetch = { λ c. C.can_fetch c.cache };

    ghost names_respect_eq = { λ c p q h.
        ap₂ (λ text name. cond (c.is_hiding && bytes_eq text c.hidden.now) None name)
        ((bytes_decides (string_bytes p) (string_bytes q)).0 h)
        (C.names_respect_eq c.cache p q h) };

    fn ensure(&mut self, id: &String) -> Result<(), FetchError<C::Error>> {
        self.cache.ensure(id)
    }

    fn get(&self, id: &String) -> Option<&Source<C::Storage>> {
        self.cache.get(id)
    }

    fn display<'a>(&'a self, id: &'a String) -> Option<&'a str> {
        if self.is_hiding && id.as_str() == self.hidden {
            return None;
        }
        self.cache.display(id)
    }
}
