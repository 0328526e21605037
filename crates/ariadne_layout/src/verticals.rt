//! The verticals of the rows of a line.

ghost use Rattle.std.specs.Prelude.{◌≡◌, ◌<◌, ◌≤◌, ◌+◌, OnOk, length, Some, None, [], IfSome};
ghost use Rattle.std.specs.List.Sorted.{IsPartitionPoint};
ghost use Rattle.std.specs.Option.{IsSome, option_map};
ghost use Rattle.ariadne_picture.specs.Strokes.{has_vertical, vertical_at};
ghost use Rattle.ariadne_layout.specs.Tables.{AreOpen, AreVerticals, IsSeenInstead, seen_vertical};
ghost use Rattle.ariadne_layout.specs.Tables.{vertical_of};

use crate::layout::LineLayout;
use ariadne_picture::label_info::LineLabel;
use std::alloc::{AllocError, Global};
use std::marker::Model;

/// The vertical of a line label.
#[derive(Clone, Copy)]
pub struct Vertical {
    /// The place that it stands at.
    pub place: usize,
    /// The position of its label.
    pub position: usize,
    /// Whether its label lies within the line.
    pub is_inline: bool,
}

/// The verticals that are seen in the rows of a line label, by falling place.
///
/// At each place it is that of the first line label from there on, so that a place has one at most.
#[derive(Drop)]
pub struct Verticals {
    list: Vec<Vertical>,
}

impl Model for Verticals {
    ghost use Rattle.std.specs.Prelude.{List};
    ghost use Rattle.ariadne_layout.specs.declared.verticals.Vertical.{Vertical};
    ghost use Rattle.ariadne_layout.specs.Falling.{AreFalling};

    ghost Value = { List Vertical };

    ghost view = { λ a. a.list.items };

    ghost invariant = { λ a. AreFalling a.list.items };
}

impl Verticals {
    /// No verticals.
    pub fn new(alloc: Global) -> Verticals
        ensures { result ≡ [] }
    {
        Verticals {
            list: Vec::new(alloc),
        }
    }

    /// Takes those of all line labels of a line. On `Err` there was no memory for them, and what is
    /// held is of no line.
    pub fn fill(&mut self, layout: &LineLayout<'_>) -> Result<(), AllocError>
        ensures { OnOk result (AreVerticals layout.now 0 self.new) }
    {
        let labels = layout.labels();
        self.list.clear();
        self.list.reserve_exact(labels.len())?;
        for label in labels.iter().rev() {
            if has_vertical(layout, label, label.place) {
                self.show(vertical_of(label))?;
            }
        }
        Ok(())
    }

    /// Goes from the rows of the line label of rank `rank` to those of the next: where its own
    /// vertical stood, that of a later label is seen, or none.
    pub fn pass(&mut self, layout: &LineLayout<'_>, rank: usize)
        requires { rank < length layout.now.labels }
        ensures { AreVerticals layout.now rank self.old
            → AreVerticals layout.now (rank + 1) self.new }
    {
        let label = &layout.labels()[rank];
        if has_vertical(layout, label, label.place) {
            self.replace(label.place, vertical_at(layout, rank + 1, label.place));
        }
    }

    /// The vertical at the next place from `from` on, and before `to`, that shows one.
    pub fn next(&self, from: usize, to: usize) -> Option<Vertical>
        ensures some { IfSome result (λ v. (from ≤ v.place) × (v.place < to)
            × (seen_vertical self.now v.place ≡ Some v) × AreOpen self.now from v.place) }
        ensures none { result ≡ None → AreOpen self.now from to }
    {
        let index = self.count_from(from).checked_sub(1)?;
        let vertical = self.list[index];
        if vertical.place < to {
            Some(vertical)
        } else {
            None
        }
    }

    /// How many stand at a place or behind it: so many are the first.
    fn count_from(&self, place: usize) -> usize
        ensures within { result ≤ length self.now }
        ensures point { IsPartitionPoint (λ v. place ≤ v.place) (λ v. v.place < place)
            self.now result }
    {
        self.list
            .partition_point(|vertical| vertical.place >= place)
    }

    /// Shows a vertical at its place, over the one that was seen there. On `Err` there was no
    /// memory for it.
    fn show(&mut self, vertical: Vertical) -> Result<(), AllocError>
        ensures { OnOk result
            (IsSeenInstead self.old self.new vertical.place (Some vertical)) }
    {
        let count = self.count_from(vertical.place);
        if count > 0 && self.list[count - 1].place == vertical.place {
            self.list[count - 1] = vertical;
            return Ok(());
        }
        self.list.insert(count, vertical)?;
        Ok(())
    }

    /// Shows another vertical at a place where one is seen, or none.
    fn replace(&mut self, place: usize, vertical: Option<Vertical>)
        requires { IfSome vertical (λ v. v.place ≡ place) }
        ensures { IsSome (seen_vertical self.old place) →
            IsSeenInstead self.old self.new place vertical }
    {
        if let Some(index) = self.count_from(place).checked_sub(1) {
            match vertical {
                Some(vertical) => self.list[index] = vertical,
                None => {
                    self.list.remove(index);
                }
            }
        }
    }
}

/// The vertical that is seen at a place of the rows of the line label of rank `rank`.
fn vertical_at(layout: &LineLayout<'_>, rank: usize, place: usize) -> Option<Vertical>
    requires { rank ≤ length layout.now.labels }
    ensures { result ≡ option_map vertical_of (vertical_at layout.now rank place) }
{
    layout.labels()[rank..]
        .iter()
        .find(|label| has_vertical(layout, label, place))
        .map(vertical_of)
}

/// The vertical of a line label.
fn vertical_of(label: &LineLabel) -> Vertical
    ensures { result ≡ vertical_of label.now }
{
    Vertical {
        place: label.place,
        position: label.info.position,
        is_inline: label.side.is_inline(),
    }
}

/// Whether a line label has its vertical at a place.
#[tactic(auto, unfolding(ariadne_picture::specs::Strokes::has_vertical))]
fn has_vertical(layout: &LineLayout<'_>, label: &LineLabel, place: usize) -> bool
    ensures { result ≡ has_vertical layout.now.margin place label.now }
{
    label.place == place && label.info.has_message && !layout.is_margin(label)
}
