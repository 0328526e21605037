//! The labels that compete for a place of a line.

ghost use Rattle.std.specs.Prelude.{◌≡◌, ◌++◌, ◌+◌, ◌<◌, length};
ghost use Rattle.std.specs.Prelude.{option_copied, option_to_list};
ghost use Rattle.std.specs.List.{All};
ghost use Rattle.ariadne_layout.specs.Candidates.{AreThere, Halves, count, infos_among};
ghost use Rattle.ariadne_layout.specs.Choices.{IsChoice, infos_of, inline_infos, numbered};

use crate::choice::Choice;
use ariadne_picture::label_info::{LabelInfo, LineLabel};

/// The labels that compete for a place of a line. Of those that tie it shows the first.
#[derive(Drop)]
pub struct Candidates<'a> {
    /// The margin label of the line, if it is one of them.
    margin: Option<&'a LineLabel>,
    /// The multi-line labels of the line's group.
    multi_line: &'a [LabelInfo],
    /// The numbers of those of them that are candidates.
    touching: &'a [usize],
    /// The labels of the line.
    labels: &'a [LineLabel],
    /// Whether only those of them are candidates that lie within the line.
    is_inline: bool,
}

impl<'a> Candidates<'a> {
    /// Of the labels of a line those that lie within it compete.
    #[tactic(auto, unfolding(crate::specs::Candidates::infos_among, crate::specs::Choices::infos_of, crate::specs::Choices::numbered))]
    pub fn inline(labels: &'a [LineLabel]) -> Candidates<'a>
        ensures infos { infos_among result ≡ inline_infos labels.now }
        ensures there { AreThere result }
    {
        Candidates {
            margin: None,
            multi_line: &[],
            touching: &[],
            labels,
            is_inline: true,
        }
    }

    /// These compete: the margin label of a line, if it has one, the labels at these indices of
    /// the multi-line labels, and the labels of the line.
    #[tactic(auto, unfolding(crate::specs::Candidates::infos_among))]
    pub fn painters(
        margin: Option<&'a LineLabel>,
        multi_line: &'a [LabelInfo],
        touching: &'a [usize],
        labels: &'a [LineLabel],
    ) -> Candidates<'a>
        requires { All (λ i. i < length multi_line.now) touching.now }
        ensures infos { let margin = infos_of (option_to_list (option_copied margin.entry)) in
            let touching = numbered multi_line.now touching.now in
            infos_among result ≡ margin ++ touching ++ infos_of labels.now }
        ensures there { AreThere result }
    {
        Candidates {
            margin,
            multi_line,
            touching,
            labels,
            is_inline: false,
        }
    }

    /// How many there are, at most.
    pub fn count(&self) -> usize
        ensures { result ≡ count self.now }
    {
        usize::from(self.margin.is_some()) + self.touching.len() + self.labels.len()
    }

    /// What is shown at a place, and at up to `len` places from there on. It is inlined, since a line
    /// asks it for each of its stretches.
    ///
    /// `offset` counts the characters of the source before the line, and `place` those of the line
    /// before the place.
    #[inline(always)]
    pub fn choose(&self, offset: usize, place: usize, len: usize) -> Choice<'a>
        requires { AreThere self.now }
        ensures { IsChoice (infos_among self.now) (offset + place) len result }
    {
        let choice = Choice::new(offset, place, len)
            .with_margin(self.margin)
            .with_numbered(self.multi_line, self.touching);
        if self.is_inline {
            choice.with_inline(self.labels)
        } else {
            choice.with_labels(self.labels)
        }
    }

    /// The first so many, and those behind them, of which each are fewer.
    pub fn halves(&self) -> (Candidates<'a>, Candidates<'a>)
        requires some { 1 < count self.now }
        requires there { AreThere self.now }
        ensures { Halves self.now result.0 result.1 }
    {
        if self.touching.len() > self.labels.len() {
            let (first, second) = self.touching.split_at(self.touching.len() / 2);
            (
                Candidates {
                    touching: first,
                    labels: &[],
                    ..*self
                },
                Candidates {
                    margin: None,
                    touching: second,
                    ..*self
                },
            )
        } else {
            let (first, second) = self.labels.split_at(self.labels.len() / 2);
            (
                Candidates {
                    labels: first,
                    ..*self
                },
                Candidates {
                    margin: None,
                    touching: &[],
                    labels: second,
                    ..*self
                },
            )
        }
    }
}
