//! What is seen of a line that takes more columns than are asked for.

/// The places of a line from one to before another.
#[derive(Clone, Copy)]
pub struct Part {
    pub from: usize,
    pub to: usize,
}

/// What is seen of a place.
#[derive(Clone, Copy)]
pub enum Sight {
    /// What stands there.
    Seen,
    /// A mark, in place of what is cut.
    Marked,
    /// Nothing.
    Unseen,
}
