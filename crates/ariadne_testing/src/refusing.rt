//! Tells `tools/refuse`, which watches a test, which of its requests for memory to refuse. Where it
//! does not watch, nothing is refused.

ghost use Rattle.std.specs.Prelude.{◌<◌};

use std::alloc::Global;

/// A request of this many bytes and n more asks the tool to refuse the nth request from there on.
const WATCHED: usize = 0x5e_ed00;

/// A request of this many bytes is refused exactly where the last one that was asked for was.
const LAST: usize = WATCHED + 0xf_ffff;

/// Asks for a refusal of the nth request from here on, counted from 1. 0 asks for none.
pub fn refuse(alloc: Global, nth: usize)
    requires { nth < 100000 }
{
    let _ = Vec::<u8>::with_capacity(alloc, WATCHED + nth);
}

/// Whether the request was refused that the last call of `refuse` asked for. No later one is.
pub fn was_refused(alloc: Global) -> bool {
    let refused = Vec::<u8>::with_capacity(alloc, LAST).is_err();
    refuse(alloc, 0);
    refused
}
