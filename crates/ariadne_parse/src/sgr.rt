//! Lines without the sequences that colour them.

ghost use Rattle.std.specs.Prelude.{◌≡◌, ◌++◌, ◌==◌, false, option_map, string_bytes, IfOk, OnOk};
ghost use Rattle.std.specs.List.{flat_map, list_any, prefix_len, slice_split};
ghost use Rattle.ariadne_parse.specs.Sgr as sgr;

use crate::pieces::{behind, behind_text, split_once};
use std::alloc::{AllocError, Global};

/// The escape, with which sequences begin.
const ESCAPE: char = '\x1b';

/// The bell, with which links may end.
const BELL: char = '\x07';

/// Whether a line has an escape. One that has none is the same without its sequences.
pub fn has_escape(line: &str) -> bool
    ensures found { result ≡ list_any (λ c. c == 27) line.now }
    ensures same { result ≡ false → sgr.bare_line line.now ≡ line.now }
{
    line.as_bytes().contains(&0x1b)
}

/// A line without its sequences: the escape, `[`, digits, `;` and `:`, and `m` or `K`; a shift in behind the
/// `m`; the escape and `(B`; and where links begin and end, up to a bell or to the escape and `\`. Other escapes
/// stay.
/// On `Err` there was no memory for it.
#[tactic(auto, unfolding(crate::specs::Sgr::bare_line))]
pub fn without_sgr(alloc: Global, line: &str) -> Result<String, AllocError>
    ensures { IfOk result (λ bare. string_bytes bare ≡ sgr.bare_line line.now) }
{
    match split_once(line, ESCAPE) {
        Some((front, behind)) => {
            let mut bare = String::from_str(alloc, front)?;
            push_pieces(&mut bare, behind)?;
            Ok(bare)
        }
        None => String::from_str(alloc, line),
    }
}

/// Adds what stands behind the first escape, without its sequences.
fn push_pieces(bare: &mut String, text: &str) -> Result<(), AllocError>
    ensures { OnOk result (string_bytes bare.new ≡ string_bytes bare.old
        ++ flat_map sgr.without_sequence (slice_split (λ c. c == 27) text.now)) }
{
    let mut rest = text;
    while let Some((piece, behind)) = split_once(rest, ESCAPE) {
        push_piece(bare, piece)?;
        rest = behind;
    }
    push_piece(bare, rest)
}

/// Adds a piece that stood behind an escape, without the sequence. Where none stands there the escape
/// stays.
fn push_piece(bare: &mut String, piece: &str) -> Result<(), AllocError>
    ensures { OnOk result (string_bytes bare.new ≡ string_bytes bare.old ++ sgr.without_sequence piece.now) }
{
    match behind_sequence(piece) {
        Some(rest) => bare.push_str(rest),
        None => {
            bare.push(ESCAPE)?;
            bare.push_str(piece)
        }
    }
}

/// What stands behind a sequence, if one stands behind an escape: one that colours, one that begins or ends
/// a link, or `(B`, by which terminals like xterm are set back.
#[tactic(auto, unfolding(crate::specs::Sgr::behind_sequence))]
fn behind_sequence(text: &str) -> Option<&str>
    ensures { option_map (λ rest. rest.now) result ≡ sgr.behind_sequence text.now }
{
    match behind_color(text) {
        Some(rest) => Some(rest),
        None => behind_other(text),
    }
}

/// What stands behind a sequence that doesn't colour.
#[tactic(auto, unfolding(crate::specs::Sgr::behind_other))]
fn behind_other(text: &str) -> Option<&str>
    ensures { option_map (λ rest. rest.now) result ≡ sgr.behind_other text.now }
{
    match behind_link(text) {
        Some(rest) => Some(rest),
        None => behind_mark(text),
    }
}

/// What stands behind `(B`, or behind the `\` that ends a link.
#[tactic(auto, unfolding(crate::specs::Sgr::behind_mark))]
fn behind_mark(text: &str) -> Option<&str>
    ensures { option_map (λ rest. rest.now) result ≡ sgr.behind_mark text.now }
{
    match behind_text(text, "(B") {
        Some(rest) => Some(rest),
        None => behind(text, '\\'),
    }
}

/// What stands behind where a link begins or ends: `]8;`, and what it leads to.
#[tactic(auto, unfolding(crate::specs::Sgr::behind_link))]
fn behind_link(text: &str) -> Option<&str>
    ensures { option_map (λ rest. rest.now) result ≡ sgr.behind_link text.now }
{
    past_link(behind_text(text, "]8;")?)
}

/// What stands behind the bell that ends a link, or behind an address, which the next escape and a `\` end.
fn past_link(text: &str) -> Option<&str>
    ensures { option_map (λ rest. rest.now) result ≡ sgr.past_link text.now }
{
    match split_once(text, BELL) {
        Some((_, rest)) => Some(rest),
        None => past_address(text),
    }
}

/// What stands behind an address, which has no blank, and ends at the next escape: nothing.
fn past_address(text: &str) -> Option<&str>
    ensures { option_map (λ rest. rest.now) result ≡ sgr.past_address text.now }
{
    if text.as_bytes().contains(&b' ') {
        None
    } else {
        Some("")
    }
}

/// What stands behind a sequence that colours.
#[tactic(auto, unfolding(crate::specs::Sgr::behind_color))]
fn behind_color(text: &str) -> Option<&str>
    ensures { option_map (λ rest. rest.now) result ≡ sgr.behind_color text.now }
{
    behind_end(past_parameters(behind(text, '[')?))
}

/// What stands behind the end of a sequence.
#[tactic(auto, unfolding(crate::specs::Sgr::behind_end))]
fn behind_end(text: &str) -> Option<&str>
    ensures { option_map (λ rest. rest.now) result ≡ sgr.behind_end text.now }
{
    match behind(text, 'm') {
        Some(rest) => Some(past_shift(rest)),
        None => behind(text, 'K'),
    }
}

/// What stands behind the shift in, by which terminals like screen are set back, if a text begins with it.
#[tactic(auto, unfolding(crate::specs::Sgr::past_shift))]
fn past_shift(text: &str) -> &str
    ensures { result.now ≡ sgr.past_shift text.now }
{
    match behind(text, '\x0f') {
        Some(rest) => rest,
        None => text,
    }
}

/// What stands behind the digits, semicolons and colons that a text begins with.
fn past_parameters(text: &str) -> &str
    ensures { result.now ≡ sgr.past_parameters text.now }
{
    &text[parameters(text.as_bytes())..]
}

/// How many bytes of a sequence's parameters bytes begin with.
fn parameters(bytes: &[u8]) -> usize
    ensures { result ≡ prefix_len sgr.is_parameter bytes.now }
{
    bytes.iter().take_while(|byte| is_parameter(**byte)).count()
}

/// Whether a byte may stand between the bracket and the end of a sequence.
fn is_parameter(byte: u8) -> bool
    ensures { result ≡ sgr.is_parameter byte }
{
    byte.is_ascii_digit() || byte == b':' || byte == b';'
}
