//! Texts become sources, held under an id.

ghost use Rattle.std.specs.Prelude.{Some, OnOk, OnErr};
ghost use Rattle.std.specs.HashMap.{IsUnchanged, Updates};
ghost use Rattle.ariadne_base.specs.Cache.{listing_of};

use crate::cache::named::SourceName;
use crate::source::Source;
use crate::text::SourceText;
use std::alloc::{AllocError, Global};
use std::collections::HashMap;
use std::hash::Hash;

/// Holds a text as the source of an id. An older source of the id is dropped.
pub(super) fn put<Id: SourceName + Hash + Clone, I: SourceText + Drop>(
    sources: &mut HashMap<Id, Source<I>>,
    alloc: Global,
    id: Id,
    text: I,
) -> Result<(), AllocError>
    ensures ok { OnOk result
        (Updates Id.eq sources.old sources.new id (Some (listing_of (I.text text)))) }
    ensures err { OnErr result (IsUnchanged sources.old sources.new) }
{
    let source = Source::from(alloc, text)?;
    sources.insert(id, source)?;
    Ok(())
}
