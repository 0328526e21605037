//! What a column counts.

ghost use Rattle.std.specs.Prelude.{◌≤◌};

/// What a column counts, but at tabs.
#[derive(Clone, Copy)]
pub enum Unit {
    /// Characters.
    Characters,
    /// Bytes of UTF-8.
    Bytes,
    /// Units of UTF-16.
    Utf16,
    /// Columns of a terminal: wide characters have two, and marks over others have none.
    Display,
}

/// What a column counts.
#[derive(Clone, Copy)]
pub struct Measure {
    /// What it counts, but at tabs.
    pub unit: Unit,
    /// How far tab stops stand from each other. A tab goes on to the next one.
    pub tabs: usize,
    ghost apart: { 1 ≤ tabs },
}
