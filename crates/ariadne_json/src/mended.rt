//! A text of JSON without what a reader with limits refuses.

ghost use Rattle.std.specs.Prelude.{◌≡◌, ◌<◌, ◌^◌, ◌-◌, ◌++◌, ◌&&◌, slice_index, is_none, IfOk, OnOk};
ghost use Rattle.json.specs.Word.{after_number};
ghost use Rattle.serde_json.specs.Read.{read};
ghost use Rattle.ariadne_json.specs.Mended.{closes as is_closing, depth_behind as is_depth_behind};
ghost use Rattle.ariadne_json.specs.Mended.{is_beyond as is_number_beyond, is_end, mended as mended_of};
ghost use Rattle.ariadne_json.specs.Mended.{mended_piece, opens as is_opening, written};

use crate::escapes::push_text;
use crate::pieces::{is_of_number, piece_len};
use crate::reading::value_of;
use json::is_number;
use std::alloc::{AllocError, Global};

/// How deep lists and objects may nest.
const DEEPEST: usize = 100;

/// What stands in place of what is left out.
const NULL: &[u8] = b"null";

/// A text of JSON, with `null` in place of what nests deeper than 100 and of numbers that are too large
/// for a float, and the sign U+FFFD in place of each half of a pair that stands alone.
///
/// What nests deeper is passed over by its brackets and its texts alone. On `Err` there was no memory.
pub fn mended(alloc: Global, text: &[u8]) -> Result<Vec<u8>, AllocError>
    ensures { IfOk result (λ out. out.items ≡ mended_of text.now) }
{
    let mut out = Vec::new(alloc);
    let mut depth = 0usize;
    let mut rest = text;
    while let Some((first, others)) = rest.split_first() {
        let (piece, behind) = rest.split_at(piece_len(*first, others));
        push_piece(alloc, &mut out, depth, *first, piece)?;
        depth = depth_behind(depth, *first);
        rest = behind;
    }
    Ok(out)
}

/// How deep the text is behind a piece that begins with this byte.
fn depth_behind(depth: usize, first: u8) -> usize
    requires { depth < 2 ^ 64 - 1 }
    ensures { result ≡ is_depth_behind depth first }
{
    if opens(first) {
        depth + 1
    } else if closes(first) {
        depth.saturating_sub(1)
    } else {
        depth
    }
}

/// Whether a byte opens a list or an object.
fn opens(byte: u8) -> bool
    ensures { result ≡ is_opening byte }
{
    byte == b'[' || byte == b'{'
}

/// Whether a byte closes one.
fn closes(byte: u8) -> bool
    ensures { result ≡ is_closing byte }
{
    byte == b']' || byte == b'}'
}

/// Adds a piece, which begins with this byte, at a depth.
fn push_piece(
    alloc: Global,
    out: &mut Vec<u8>,
    depth: usize,
    first: u8,
    piece: &[u8],
) -> Result<(), AllocError>
    requires { first ≡ slice_index piece.now 0 }
    ensures { OnOk result (out.new.items ≡ out.old.items ++ written depth piece.now) }
{
    if depth > DEEPEST {
        return Ok(());
    }
    if depth == DEEPEST && opens(first) {
        return out.extend_from_slice(NULL);
    }
    push_mended(alloc, out, first, piece)
}

/// Adds a piece that begins with this byte.
fn push_mended(alloc: Global, out: &mut Vec<u8>, first: u8, piece: &[u8]) -> Result<(), AllocError>
    ensures { OnOk result (out.new.items ≡ out.old.items ++ mended_piece piece.now first) }
{
    if first == b'"' {
        return push_text(out, piece);
    }
    if is_of_number(first) && is_beyond(alloc, piece)? {
        return out.extend_from_slice(NULL);
    }
    out.extend_from_slice(piece)
}

/// Whether a piece is a number that is refused.
fn is_beyond(alloc: Global, piece: &[u8]) -> Result<bool, AllocError>
    ensures { IfOk result (λ is. is ≡ is_number_beyond piece.now) }
{
    match std::str::from_utf8(piece) {
        Ok(text) => is_refused(alloc, text),
        Err(_) => Ok(false),
    }
}

/// Whether a text is a number that is refused.
fn is_refused(alloc: Global, text: &str) -> Result<bool, AllocError>
    ensures { IfOk result (λ is. is
        ≡ (is_end (after_number text.now) && is_none (read text.now))) }
{
    if !is_whole_number(text) {
        return Ok(false);
    }
    Ok(value_of(alloc, text)?.is_none())
}

/// Whether a text is a number.
fn is_whole_number(text: &str) -> bool
    ensures { result ≡ is_end (after_number text.now) }
{
    is_number(text)
}
