//! The calls that C makes, and whatever calls C: `ariadne_calls` by numbers.
//!
//! `bindings/c/sewarqo.h` is this crate's surface as C reads it.
#![tactic(auto)]

ghost use Rattle.ariadne_calls.specs.CallStatuses.{GivesNumber};
ghost use Rattle.ariadne_calls.specs.Suggesting.{GivesNumber as SuggestsNumber};

use ariadne_calls::{GivenReport, GivenSource, GivenSuggestion, ToldLeftOut, draw, suggest};
use std::alloc::Global;

/// Draws a report over sources into `out`, and returns a status (`specs/CallStatuses.antt` of `ariadne_calls`).
///
/// After 0 and 1 the first `len` bytes of `out` are the picture. `count` labels are left out, and the
/// first of them stand in `left`, as far as it has room. After 2 the picture takes `len` bytes, and
/// `out` has less. After 3 there was no memory. After the others the report or a source is faulty,
/// and `count` is the number of the label, the text or the source at fault. After 2 and more, `out`
/// and `left` are as they were.
#[unsafe(no_mangle)]
pub extern "C" fn sewarqo_draw(
    alloc: Global,
    report: &GivenReport<'_>,
    sources: &[GivenSource<'_>],
    out: &mut [u8],
    len: &mut usize,
    left: &mut [ToldLeftOut],
    count: &mut usize,
) -> u32
    ensures { GivesNumber report.now sources.now out.old out.new len.new left.old left.new count.new result }
{
    let ending = draw(alloc, report, sources, out, left);
    *len = ending.len();
    *count = ending.count();
    ending.status()
}

/// Writes the text of a help that shows edits of a source into `out`, and returns a status
/// (`specs/Suggesting.antt` of `ariadne_calls`).
///
/// After 0 the first `len` bytes of `out` are the text. After 2 it takes `len` bytes, and `out` has
/// less. After 3 there was no memory. After the others the edits or their source are faulty, and
/// `count` is the number of the edit at fault. After 2 and more, `out` is as it was.
#[unsafe(no_mangle)]
pub extern "C" fn sewarqo_suggest(
    alloc: Global,
    suggestion: &GivenSuggestion<'_>,
    out: &mut [u8],
    len: &mut usize,
    count: &mut usize,
) -> u32
    ensures { SuggestsNumber suggestion.now out.old out.new len.new count.new result }
{
    let told = suggest(alloc, suggestion, out);
    *len = told.len();
    *count = told.count();
    told.status()
}
