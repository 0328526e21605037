//! An accepted label in numbers, and a label as it stands at one of its lines.

ghost use Rattle.std.specs.Prelude.{◌≡◌};
ghost use Rattle.ariadne_picture.specs.Ranks.{is_inline, span_len};
ghost use Rattle.ariadne_picture.specs.Strokes.{is_preferred};

/// An accepted label: its span in characters, and where its ends lie. A place is the index of a
/// character in its line; lines and places count from 0.
#[derive(Clone, Copy)]
pub struct LabelInfo {
    /// Its position among the report's labels, from 0.
    pub position: usize,
    /// Its first character.
    pub start: usize,
    /// One past its last character.
    pub end: usize,
    /// The line of `start`.
    pub start_line: usize,
    /// The place of `start` in that line.
    pub start_place: usize,
    /// The line of its last offset.
    pub end_line: usize,
    /// The place of its last offset in that line.
    pub end_place: usize,
    /// The place that its arrow is attached to, where it lies within one line.
    pub attach: usize,
    /// Labels of a lower order are drawn first.
    pub order: i32,
    /// Where spans overlap, the label of the highest priority is seen.
    pub priority: i32,
    /// Whether it has a message, and so rows of its own.
    pub has_message: bool,
}

impl LabelInfo {
    /// Whether it is preferred to another label where both are to be shown: by the higher priority,
    /// then by the shorter span.
    #[tactic(auto, unfolding(crate::specs::Strokes::is_preferred, crate::specs::Ranks::span_len))]
    pub fn is_preferred_to(&self, other: &LabelInfo) -> bool
        ensures { result ≡ is_preferred self.now other.now }
    {
        other.priority < self.priority
            || (other.priority <= self.priority && self.len() < other.len())
    }

    /// How many characters its span has.
    #[tactic(auto, unfolding(crate::specs::Ranks::span_len))]
    fn len(&self) -> usize
        ensures { result ≡ span_len self.now }
    {
        self.end.saturating_sub(self.start)
    }
}

/// What a label does at a line.
#[derive(Clone, Copy)]
pub enum Side {
    /// It lies within the line.
    Inline,
    /// It starts there and ends on a later line.
    Starts,
    /// It started on an earlier line and ends there.
    Ends,
}

impl Side {
    /// Whether the label lies within the line.
    #[tactic(auto, unfolding(crate::specs::Ranks::is_inline))]
    pub fn is_inline(self) -> bool
        ensures { result ≡ is_inline self }
    {
        matches!(self, Side::Inline)
    }
}

/// A label as it stands at one of its lines.
#[derive(Clone, Copy)]
pub struct LineLabel {
    /// The label.
    pub info: LabelInfo,
    /// What it does at the line.
    pub side: Side,
    /// Its gutter column, where it does not lie within the line.
    pub gutter_column: usize,
    /// The place that its arrow is attached to.
    pub place: usize,
}
