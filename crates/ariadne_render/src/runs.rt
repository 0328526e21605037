//! Runs of one character, appended to a text.

ghost use Rattle.std.specs.Prelude.{◌≡◌, ◌++◌, IfSome, OnOk, encode_utf8, string_bytes};
ghost use Rattle.ariadne_picture.specs.Pieces.{repeated, spaces};

use std::alloc::AllocError;

/// How many copies of a character each of the texts below holds.
const COPIES: usize = 128;
/// Blanks. The second half begins with `\x20`, since blanks at the beginning of a line behind `\` are
/// no part of a text.
const BLANKS: &str = "                                                                \
                      \x20                                                               ";
/// Horizontals in ASCII.
const DASHES: &str = "----------------------------------------------------------------\
                      ----------------------------------------------------------------";
/// Underlines in ASCII.
const CARETS: &str = "^^^^^^^^^^^^^^^^^^^^^^^^^^^^^^^^^^^^^^^^^^^^^^^^^^^^^^^^^^^^^^^^\
                      ^^^^^^^^^^^^^^^^^^^^^^^^^^^^^^^^^^^^^^^^^^^^^^^^^^^^^^^^^^^^^^^^";
/// Horizontals and underlines as box drawing characters.
const LINES: &str = "────────────────────────────────────────────────────────────────\
                     ────────────────────────────────────────────────────────────────";

/// Appends `count` blanks.
pub(crate) fn push_spaces(out: &mut String, count: usize) -> Result<(), AllocError>
    ensures { OnOk result (string_bytes out.new ≡ string_bytes out.old ++ spaces count) }
{
    push_repeated(out, ' ', count)
}

/// Appends a character `count` times: one that stands in long runs in slices of many copies. It is
/// inlined so that a constant is looked up once.
#[inline(always)]
pub(crate) fn push_repeated(out: &mut String, c: char, count: usize) -> Result<(), AllocError>
    ensures { OnOk result
        (string_bytes out.new ≡ string_bytes out.old ++ repeated count (encode_utf8 c)) }
{
    let Some(many) = copies_of(c) else {
        return push_one_by_one(out, c, count);
    };
    let size = many.len() / COPIES;
    let mut left = count;
    while left > COPIES {
        out.push_str(many)?;
        left -= COPIES;
    }
    out.push_str(&many[..left * size])
}

/// The text that holds 128 copies of a character, if the character stands in long runs.
#[inline(always)]
fn copies_of(c: char) -> Option<&'static str>
    ensures { IfSome result (λ many. many.now ≡ repeated COPIES (encode_utf8 c)) }
{
    match c {
        ' ' => Some(BLANKS),
        '-' => Some(DASHES),
        '^' => Some(CARETS),
        '─' => Some(LINES),
        _ => None,
    }
}

/// Appends a character `count` times, each on its own.
#[tactic(auto, using(crate::proofs::Copies::repeats_none, crate::proofs::Copies::repeats_step))]
fn push_one_by_one(out: &mut String, c: char, count: usize) -> Result<(), AllocError>
    ensures { OnOk result
        (string_bytes out.new ≡ string_bytes out.old ++ repeated count (encode_utf8 c)) }
{
    for _turn in 0..count {
        out.push(c)?;
    }
    Ok(())
}

/// Appends a text `count` times.
#[tactic(auto, using(crate::proofs::Copies::repeats_none, crate::proofs::Copies::repeats_step))]
pub(crate) fn push_texts(out: &mut String, text: &str, count: usize) -> Result<(), AllocError>
    ensures { OnOk result
        (string_bytes out.new ≡ string_bytes out.old ++ repeated count text.now) }
{
    for _turn in 0..count {
        out.push_str(text)?;
    }
    Ok(())
}
