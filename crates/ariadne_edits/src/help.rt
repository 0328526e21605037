//! What edits make of a source, and the text of a help that shows it.

ghost use Rattle.std.specs.Prelude.{◌≤◌, IfOk, IfErr, chars, string_bytes};
ghost use Rattle.ariadne_base.specs.Lines.{lines_of};
ghost use Rattle.ariadne_edits.specs.Outcomes.{IsEdited, IsSuggestion, RefusedAs};

use crate::cut::View;
use crate::drawing::{Layout, drawn, number_width};
use crate::edit::{Edit, EditError};
use crate::hints::pairs;
use crate::making::{accepted, joined};
use crate::rows::rows;
use ariadne_base::{Source, SourceText};
use ariadne_picture::switches::IndexType;
use std::alloc::Global;

/// The text with the span of each edit replaced. Offsets count as `counts` says.
///
/// Edits are made in the order of their spans; those of one span in the order of the list. On
/// `Refused` they can't be made, on `Memory` there was no memory.
pub fn edited(
    alloc: Global,
    text: &str,
    counts: IndexType,
    edits: &[Edit],
) -> Result<String, EditError>
    ensures ok { IfOk result (λ out. IsEdited counts text.now edits.now (string_bytes out)) }
    ensures err { IfErr result (RefusedAs counts text.now edits.now) }
{
    let made = accepted(alloc, text, counts, edits)?;
    let out = joined(alloc, text, made.as_slice())?;
    Ok(out)
}

/// The text of a help that shows edits of a source: each line that changes, as it was (`-`) and as it
/// will be (`+`), with its number. `...` stands for lines between that stay.
///
/// Offsets count as `counts` says. Line numbers have the display offset of the source added. Tabs are
/// spread to the next of the stops that stand each `view.tab_width` columns, and a sign stands for each
/// hidden character. Where two lines differ in white space alone, that is shown by signs. A text that
/// doesn't change has no rows: the answer is empty. No row ends in a line feed but those in front of
/// others.
///
/// If `view.width` isn't 0 and a line takes more columns, it is cut, and so is its counterpart: of what
/// both have in common in front the last characters are shown, with a mark in half of the width at most,
/// of what differs the first characters and a mark.
///
/// On `Refused` the edits can't be made, on `Memory` there was no memory.
///
/// ```text
///  4 - let first = take(names);
///  4 + let first = take(&names);
/// ...
/// 10 + use std::mem;
/// ```
pub fn suggestion<I: SourceText>(
    alloc: Global,
    source: &Source<I>,
    counts: IndexType,
    view: View,
    edits: &[Edit],
) -> Result<String, EditError>
    requires tabs { 1 ≤ view.tab_width }
    ensures ok { IfOk result (λ help. IsSuggestion counts view source.now.display_offset
        source.now.text edits.now (string_bytes help)) }
    ensures err { IfErr result (RefusedAs counts source.now.text edits.now) }
{
    let offset = source.display_line_offset();
    suggestion_of(alloc, source.text(), offset, counts, view, edits)
}

/// The same for a text whose line numbers have this offset added.
fn suggestion_of(
    alloc: Global,
    text: &str,
    offset: usize,
    counts: IndexType,
    view: View,
    edits: &[Edit],
) -> Result<String, EditError>
    requires tabs { 1 ≤ view.tab_width }
    ensures ok { IfOk result (λ help.
        IsSuggestion counts view offset text.now edits.now (string_bytes help)) }
    ensures err { IfErr result (RefusedAs counts text.now edits.now) }
{
    let made = accepted(alloc, text, counts, edits)?;
    let after = joined(alloc, text, made.as_slice())?;
    let old = Source::from(alloc, text)?;
    let new = Source::from(alloc, after.as_str())?;
    let pairs = pairs(alloc, &old, &new, made.as_slice())?;
    let rows = rows(alloc, &old, &new, pairs.as_slice())?;
    let width = number_width(alloc, offset, rows.as_slice())?;
    let layout = Layout {
        width,
        offset,
        view,
    };
    let help = drawn(alloc, layout, &old, &new, rows.as_slice())?;
    Ok(help)
}
