//! What becomes of a label.

use crate::label_info::LabelInfo;

/// What becomes of a label whose source is held.
#[derive(Clone, Copy)]
pub enum Verdict {
    /// It is drawn.
    Accepted(LabelInfo),
    /// It begins past its source, or ends more than one past it.
    PastSource,
    /// One of its ends lies inside a character.
    CutsCharacter,
}
