//! Edits of a source, and why they are refused.

ghost use Rattle.std.specs.Prelude.{◌≡◌, alloc_error};
ghost use Rattle.ariadne_edits.specs.declared.edit.EditError.TheVariants.{Memory};

use std::alloc::AllocError;
use std::ops::Range;

/// What stands in place of a piece of a source.
#[derive(Debug, Drop)]
pub struct Edit {
    /// What is replaced: from the start to before the end, which are equal for an insertion. Offsets
    /// count from the start of the source, from 0, in characters or bytes as the report's.
    pub span: Range<usize>,
    /// What is put there.
    pub text: String,
}

/// Why edits are refused. Each names an edit by its number, its place in the list that was given,
/// from 0. The first reason that holds of some edit counts, in this order; of the edits that it
/// holds of, the first by their spans.
#[derive(Clone, Copy, Debug, PartialEq, Eq)]
pub enum BadEdit {
    /// Its end lies before its start.
    Reversed(usize),
    /// It begins before the end of the edit in front of it.
    Overlaps(usize),
    /// It reaches past the source.
    PastSource(usize),
    /// It begins or ends inside of a character.
    CutsCharacter(usize),
}

/// Why there is no text.
#[derive(Debug, Drop)]
pub enum EditError {
    /// A growth of memory was refused.
    Memory(AllocError),
    /// The edits can't be made.
    Refused(BadEdit),
}

impl From<AllocError> for EditError {
    ghost from_gives = { λ _ e. e ≡ Memory alloc_error };

    fn from(error: AllocError) -> EditError {
        EditError::Memory(error)
    }
}
