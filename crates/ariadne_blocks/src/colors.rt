//! The colours of gcc in a row that quotes escapes of its source.

ghost use Rattle.std.specs.Prelude.{◌≡◌, option_map, string_bytes, IfOk};
ghost use Rattle.std.specs.List.{list_all};
ghost use Rattle.std.specs.Path.{rsplit_once};
ghost use Rattle.ariadne_parse.specs.TextPieces.{behind, in_front_of};
ghost use Rattle.ariadne_blocks.specs.Uncolored.{is_color as is_color_in, is_parameter};
ghost use Rattle.ariadne_blocks.specs.Uncolored.{without_last, IsBare};

use std::alloc::{AllocError, Global};

/// What gcc writes behind each of its colours: it clears the rest of the row.
const CLEAR: &str = "\u{1b}[K";

/// A text without gcc's colours alone: the sequences that clear a row, and those in front of them. So the
/// escapes of a source that it quotes stay.
pub(crate) fn without_gcc_colors(alloc: Global, text: &str) -> Result<String, AllocError>
    ensures { IfOk result (λ bare. IsBare text.now (string_bytes bare)) }
{
    let mut bare = String::new(alloc);
    let mut rest = text;
    while let Some((front, behind)) = rest.split_once(CLEAR) {
        bare.push_str(without_last_sequence(front))?;
        rest = behind;
    }
    bare.push_str(rest)?;
    Ok(bare)
}

/// A text without the sequence `ESC [ digits and ; m` at its end, if one stands there.
#[tactic(auto, unfolding(crate::specs::Uncolored::without_last))]
fn without_last_sequence(text: &str) -> &str
    ensures { result.now ≡ without_last text.now }
{
    match at_last_escape(text) {
        Some((front, sequence)) if is_color(sequence) => front,
        _ => text,
    }
}

/// What stands in front of the last escape of a text, and behind it.
fn at_last_escape(text: &str) -> Option<(&str, &str)>
    ensures { option_map (λ parts. (parts.0.now, parts.1.now)) result ≡ rsplit_once 27 text.now }
{
    text.rsplit_once('\u{1b}')
}

/// Whether a text is `[ digits and ; m`.
#[tactic(auto, unfolding(crate::specs::Uncolored::is_color))]
fn is_color(text: &str) -> bool
    ensures { result ≡ is_color_in text.now }
{
    match behind_bracket(text) {
        Some(rest) => match in_front_of_m(rest) {
            Some(parameters) => are_parameters(parameters.as_bytes()),
            None => false,
        },
        None => false,
    }
}

/// What stands behind the bracket that a text begins with.
fn behind_bracket(text: &str) -> Option<&str>
    ensures { option_map (λ rest. rest.now) result ≡ behind 91 text.now }
{
    text.strip_prefix('[')
}

/// What stands in front of the `m` that a text ends with.
fn in_front_of_m(text: &str) -> Option<&str>
    ensures { option_map (λ front. front.now) result ≡ in_front_of 109 text.now }
{
    text.strip_suffix('m')
}

/// Whether all bytes are digits or `;`.
fn are_parameters(bytes: &[u8]) -> bool
    ensures { result ≡ list_all is_parameter bytes.now }
{
    bytes
        .iter()
        .all(|byte| byte.is_ascii_digit() || *byte == b';')
}
