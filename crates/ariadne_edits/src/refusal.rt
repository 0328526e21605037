//! Which edits are refused.

ghost use Rattle.std.specs.Prelude.{◌≡◌};
ghost use Rattle.ariadne_edits.specs.Refusals.{first, first_overlap as first_to_overlap, cuts};
ghost use Rattle.ariadne_edits.specs.Refusals.{is_reversed, is_past, is_inside as is_in_character};
ghost use Rattle.ariadne_edits.specs.Refusals.{size_in, refusal_of};

use crate::change::Change;
use crate::edit::BadEdit;
use ariadne_base::blocks::count::count_chars;
use ariadne_picture::switches::IndexType;

/// Why changes of a text, which are in order, are refused, if they are.
#[tactic(auto, unfolding(crate::specs::Refusals::refusal_of))]
pub(crate) fn refusal(text: &str, counts: IndexType, changes: &[Change<'_>]) -> Option<BadEdit>
    ensures { result ≡ refusal_of counts text.now changes.now }
{
    match first_reversed(changes) {
        Some(number) => Some(BadEdit::Reversed(number)),
        None => match first_overlap(changes) {
            Some(number) => Some(BadEdit::Overlaps(number)),
            None => match first_past(size_of(text, counts), changes) {
                Some(number) => Some(BadEdit::PastSource(number)),
                None => match first_cut(text, counts, changes) {
                    Some(number) => Some(BadEdit::CutsCharacter(number)),
                    None => None,
                },
            },
        },
    }
}

/// The number of the first change that is reversed.
fn first_reversed(changes: &[Change<'_>]) -> Option<usize>
    ensures { result ≡ first is_reversed changes.now }
{
    for change in changes {
        if change.end < change.start {
            return Some(change.number);
        }
    }
    None
}

/// The number of the first change that begins before the end of the one in front of it.
fn first_overlap(changes: &[Change<'_>]) -> Option<usize>
    ensures { result ≡ first_to_overlap 0 changes.now }
{
    let mut at = 0;
    for change in changes {
        if change.start < at {
            return Some(change.number);
        }
        at = change.end;
    }
    None
}

/// The length of a text in what offsets count.
fn size_of(text: &str, counts: IndexType) -> usize
    ensures { result ≡ size_in counts text.now }
{
    match counts {
        IndexType::Byte => text.len(),
        IndexType::Char => count_chars(text),
    }
}

/// The number of the first change that reaches past a text of this length.
fn first_past(size: usize, changes: &[Change<'_>]) -> Option<usize>
    ensures { result ≡ first (is_past size) changes.now }
{
    for change in changes {
        if change.end > size {
            return Some(change.number);
        }
    }
    None
}

/// The number of the first change that begins or ends inside of a character.
fn first_cut(text: &str, counts: IndexType, changes: &[Change<'_>]) -> Option<usize>
    ensures { result ≡ first (cuts counts text.now) changes.now }
{
    for change in changes {
        if is_cut(text, counts, change) {
            return Some(change.number);
        }
    }
    None
}

/// Whether a change begins or ends inside of a character.
fn is_cut(text: &str, counts: IndexType, change: &Change<'_>) -> bool
    ensures { result ≡ cuts counts text.now change.now }
{
    match counts {
        IndexType::Byte => is_inside(text, change.start) || is_inside(text, change.end),
        IndexType::Char => false,
    }
}

/// Whether a byte of a text goes on with a character.
fn is_inside(text: &str, at: usize) -> bool
    ensures { result ≡ is_in_character text.now at }
{
    let bytes = text.as_bytes();
    at < bytes.len() && 128 <= bytes[at] && bytes[at] < 192
}
