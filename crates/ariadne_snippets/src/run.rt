//! A run of marks.

/// A run of marks: its columns, from 0.
#[derive(Clone, Copy)]
pub(crate) struct Run {
    /// The first.
    pub(crate) start: usize,
    /// The one behind the last.
    pub(crate) end: usize,
    /// That of the first `^`, if one of them is one.
    pub(crate) caret: Option<usize>,
    /// Whether they are `-`, which stand in runs of their own.
    pub(crate) is_dashed: bool,
}
