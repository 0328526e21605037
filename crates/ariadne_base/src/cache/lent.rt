//! Caches behind a reference or in a box: each is the cache behind.

use crate::cache::{Cache, FetchError};
use crate::source::Source;

impl<'c, Id: Eq, C: Cache<Id>> Cache<Id> for &'c mut C {
    type Storage = C::Storage;

    type Error = C::Error;

    ghost contents = { λ c. C.contents c.now };

    ghost names = { λ c id. C.names c.now id };

    ghost fails = { C.fails };

    ghost can_fetch = { λ c. C.can_fetch c.now };

    ghost names_respect_eq = { λ c. C.names_respect_eq c.now };

    fn ensure(&mut self, id: &Id) -> Result<(), FetchError<C::Error>> {
        (**self).ensure(id)
    }

    fn get(&self, id: &Id) -> Option<&Source<C::Storage>> {
        (**self).get(id)
    }

    fn display<'a>(&'a self, id: &'a Id) -> Option<&'a str> {
        (**self).display(id)
    }
}

impl<Id: Eq, C: Cache<Id>> Cache<Id> for Box<C> {
    type Storage = C::Storage;

    type Error = C::Error;

    ghost contents = { λ c. C.contents c.value };

    ghost names = { λ c id. C.names c.value id };

    ghost fails = { C.fails };

    ghost can_fetch = { λ c. C.can_fetch c.value };

    ghost names_respect_eq = { λ c. C.names_respect_eq c.value };

    fn ensure(&mut self, id: &Id) -> Result<(), FetchError<C::Error>> {
        self.as_mut().ensure(id)
    }

    fn get(&self, id: &Id) -> Option<&Source<C::Storage>> {
        self.as_ref().get(id)
    }

    fn display<'a>(&'a self, id: &'a Id) -> Option<&'a str> {
        self.as_ref().display(id)
    }
}
