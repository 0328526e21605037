//! Which label is shown from a place of a line on, and up to where it is so.

ghost use Rattle.std.specs.Prelude.{◌≡◌, ◌+◌, ◌<◌, [], ◌∷◌, length, option_copied, option_map};
ghost use Rattle.std.specs.Prelude.{option_to_list};
ghost use Rattle.std.specs.List.{All};
ghost use Rattle.ariadne_layout.specs.Choices.{Considers, IsChoice};
ghost use Rattle.ariadne_layout.specs.Choices.{infos_of, inline_infos, numbered};

use ariadne_picture::label_info::{LabelInfo, LineLabel};

/// The label that is shown at a place of a line, among those that were considered, and how many
/// places from there on show it.
#[derive(Drop)]
pub struct Choice<'a> {
    /// How many characters of the source stand before the place; where they are too many to be
    /// counted, the greatest number, which no label holds either.
    offset: usize,
    /// How many places show it: none of the labels begins or ends among them.
    len: usize,
    /// The preferred one of the labels that hold the place, and the first of these.
    best: Option<&'a LabelInfo>,
}

impl<'a> Choice<'a> {
    /// What is shown at a place, and at up to `len` places from there on, before a label was
    /// considered.
    ///
    /// `offset` counts the characters of the source before the line, and `place` those of the line
    /// before the place.
    pub fn new(offset: usize, place: usize, len: usize) -> Choice<'a>
        ensures { IsChoice [] (offset + place) len result }
    {
        Choice {
            offset: offset.saturating_add(place),
            len,
            best: None,
        }
    }

    /// The choice with the margin label of the line, if it has one.
    pub fn with_margin(self, margin: Option<&'a LineLabel>) -> Choice<'a>
        ensures { let labels = option_to_list (option_copied margin.entry) in
            Considers self.entry result (infos_of labels) }
    {
        let mut choice = self;
        if let Some(label) = margin {
            choice.consider(&label.info);
        }
        choice
    }

    /// The choice with the labels that stand at these indices of a list.
    pub fn with_numbered(self, infos: &'a [LabelInfo], numbers: &[usize]) -> Choice<'a>
        requires { All (λ i. i < length infos.now) numbers.now }
        ensures { Considers self.entry result (numbered infos.now numbers.now) }
    {
        let mut choice = self;
        for number in numbers {
            choice.consider(&infos[*number]);
        }
        choice
    }

    /// The choice with the labels of the line.
    pub fn with_labels(self, labels: &'a [LineLabel]) -> Choice<'a>
        ensures { Considers self.entry result (infos_of labels.now) }
    {
        let mut choice = self;
        for label in labels {
            choice.consider(&label.info);
        }
        choice
    }

    /// The choice with those labels of the line that lie within it.
    pub fn with_inline(self, labels: &'a [LineLabel]) -> Choice<'a>
        ensures { Considers self.entry result (inline_infos labels.now) }
    {
        let mut choice = self;
        for label in labels {
            if label.side.is_inline() {
                choice.consider(&label.info);
            }
        }
        choice
    }

    /// How many places show what the first one does.
    pub fn len(&self) -> usize
        ensures { result ≡ self.now.len }
    {
        self.len
    }

    /// The label that is shown, if there is one.
    pub fn label(&self) -> Option<&'a LabelInfo>
        ensures { result ≡ self.now.best }
    {
        self.best
    }

    /// The position of the label that is shown, if there is one.
    pub fn position(&self) -> Option<usize>
        ensures { result ≡ option_map (λ a. a.position) (option_copied self.now.best) }
    {
        self.best.map(|info| info.position)
    }

    /// Takes one more label into account.
    fn consider(&mut self, info: &'a LabelInfo)
        ensures { Considers self.old self.new (info.now ∷ []) }
    {
        if self.offset < info.start {
            self.len = self.len.min(info.start - self.offset);
        } else if self.offset < info.end {
            self.len = self.len.min(info.end - self.offset);
            match self.best {
                Some(best) if !info.is_preferred_to(best) => {}
                _ => self.best = Some(info),
            }
        }
    }
}
