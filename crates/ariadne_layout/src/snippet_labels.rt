//! The labels of a group, by what happens at each of its lines.

ghost use Rattle.std.specs.Prelude.{◌≡◌, ◌<◌, ◌≤◌, ◌&&◌, [], not, length};
ghost use Rattle.std.specs.Prelude.{IfOk, IsTrue, MatchOption, OnErr, OnOk, slice_range};
ghost use Rattle.ariadne_picture.specs.Ranks.{gutter_labels, is_inline, is_margin};
ghost use Rattle.ariadne_picture.specs.Ranks.{is_nearer_margin, is_start, multi_line_labels};
ghost use Rattle.ariadne_layout.specs.SnippetLabels.{IsLineEnd, event_label, events_of, holds_at};
ghost use Rattle.ariadne_layout.specs.SnippetLabels.{is_held, labels_of, margin_of, ranked, touching};

use crate::label_lists::{Begin, fill_lists, go_on};
use crate::order::{ByRow, is_nearer_margin, put_in_order};
use ariadne_picture::label_info::{LabelInfo, LineLabel, Side};
use std::alloc::{AllocError, Global};
use std::marker::Model;

/// What happens at a line: a gutter label starts or ends there, or a label within one line stands
/// there.
#[derive(Clone, Copy)]
pub struct Event {
    /// The line, from 0.
    pub line: usize,
    /// The number of the gutter label, or that of the label in its group, from 0.
    pub index: u32,
    /// Which of the three it is.
    pub side: Side,
}

/// The labels of a group, by line. The lines are gone through from the first to the last.
#[derive(Drop)]
pub struct SnippetLabels<'a> {
    alloc: Global,
    labels: &'a [LabelInfo],
    /// The line that was gone to.
    line: usize,
    /// The labels over several lines, by falling length.
    multi_line: Vec<LabelInfo>,
    /// The ones with a message.
    gutter_labels: Vec<LabelInfo>,
    /// What happens at the lines, by line.
    events: Vec<Event>,
    /// The lines that the multi-line labels start on, from the first on.
    begins: Vec<Begin>,
    /// How many of these are no further than the line that was gone to.
    begun: usize,
    /// The numbers of the multi-line labels that touch the line that was gone to, rising.
    touching: Vec<usize>,
}

impl<'a> Model for SnippetLabels<'a> {
    ghost use Rattle.ariadne_layout.specs.SnippetLabels.{LabelsFields};

    ghost Value = { LabelsFields };

    ghost use Rattle.ariadne_layout.specs.LabelLists.{AreLists, IsGoneTo};

    ghost view = { λ a. record { labels = a.labels.now; line = a.line } };

    ghost invariant = { λ a.
        AreLists a.labels.now a.multi_line.items a.gutter_labels.items a.events.items a.begins.items
        × IsGoneTo a.multi_line.items a.line a.begun a.touching.items };
}

impl<'a> SnippetLabels<'a> {
    /// A group without labels.
    pub fn new(alloc: Global) -> SnippetLabels<'a>
        ensures { result ≡ record { labels = []; line = 0 } }
    {
        SnippetLabels {
            alloc,
            labels: &[],
            line: 0,
            multi_line: Vec::new(alloc),
            gutter_labels: Vec::new(alloc),
            events: Vec::new(alloc),
            begins: Vec::new(alloc),
            begun: 0,
            touching: Vec::new(alloc),
        }
    }

    /// Takes the labels of another group. On `Err` there was no memory for it, and the group has no
    /// labels.
    pub fn fill(&mut self, labels: &'a [LabelInfo]) -> Result<(), AllocError>
        ensures ok { OnOk result (self.new ≡ record { labels = labels.now; line = 0 }) }
        ensures err { OnErr result (self.new ≡ record { labels = []; line = 0 }) }
    {
        match fill_lists(
            self.alloc,
            labels,
            &mut self.multi_line,
            &mut self.gutter_labels,
            &mut self.events,
            &mut self.begins,
            &mut self.touching,
        ) {
            Ok(begun) => {
                self.labels = labels;
                self.line = 0;
                self.begun = begun;
                Ok(())
            }
            Err(error) => {
                *self = SnippetLabels::new(self.alloc);
                Err(error)
            }
        }
    }

    /// Goes on to a line. On `Err` there was no memory for it, and the group has no labels.
    pub fn go_to(&mut self, line: usize) -> Result<(), AllocError>
        requires onward { self.old.line ≤ line }
        ensures ok { OnOk result (self.new ≡ record self.old { line = line }) }
        ensures err { OnErr result (self.new ≡ record { labels = []; line = 0 }) }
    {
        match go_on(
            &self.multi_line,
            &self.begins,
            self.begun,
            line,
            &mut self.touching,
        ) {
            Ok(begun) => {
                self.begun = begun;
                self.line = line;
                Ok(())
            }
            Err(error) => {
                *self = SnippetLabels::new(self.alloc);
                Err(error)
            }
        }
    }

    /// The labels of the group.
    pub fn labels(&self) -> &'a [LabelInfo]
        ensures { result.now ≡ self.now.labels }
    {
        self.labels
    }

    /// The labels over several lines, by falling length.
    pub fn multi_line(&self) -> &[LabelInfo]
        ensures { result.now ≡ multi_line_labels self.now.labels }
    {
        &self.multi_line
    }

    /// The labels over several lines that have a message: number i of these gutter labels owns gutter
    /// column i.
    pub fn gutter_labels(&self) -> &[LabelInfo]
        ensures { result.now ≡ gutter_labels self.now.labels }
    {
        &self.gutter_labels
    }

    /// What happens at the lines, by line.
    pub fn events(&self) -> &[Event]
        ensures { result.now ≡ events_of self.now.labels }
    {
        &self.events
    }

    /// The numbers of the multi-line labels that touch the line that was gone to, rising.
    pub fn touching(&self) -> &[usize]
        ensures { result.now ≡ touching self.now.labels self.now.line }
    {
        &self.touching
    }

    /// The index of the first event behind `from` that is on another line, or the number of events.
    pub fn line_end(&self, from: usize) -> usize
        requires within { from < length (events_of self.now.labels) }
        ensures { IsLineEnd (events_of self.now.labels) from result }
    {
        let events = self.events();
        let line = events[from].line;
        let mut end = from + 1;
        while end < events.len() && events[end].line == line {
            end += 1;
        }
        end
    }

    /// Whether a label that touches the line that was gone to holds the character at an offset in
    /// the source.
    pub fn is_inside(&self, offset: usize) -> bool
        ensures { result ≡ is_held self.now.labels self.now.line offset }
    {
        let labels = self.multi_line();
        self.touching()
            .iter()
            .any(|number| holds_at(labels, *number, offset))
    }

    /// The margin label of the line whose events are those from `from` to before `to`; its line
    /// labels are put into `labels`, by rank, in place of what stands there.
    ///
    /// On `Err` there was no memory for them, and `labels` is not to be used.
    pub fn rank(
        &self,
        from: usize,
        to: usize,
        labels: &mut Vec<LineLabel>,
    ) -> Result<Option<LineLabel>, AllocError>
        requires range { from ≤ to }
        requires within { to ≤ length (events_of self.now.labels) }
        ensures margin { let own = self.now.labels in
            let found = labels_of own (slice_range (events_of own) from to) in
            IfOk result (λ margin. margin ≡ margin_of found) }
        ensures labels { let own = self.now.labels in
            let found = labels_of own (slice_range (events_of own) from to) in
            OnOk result (labels.new.items ≡ ranked found) }
    {
        self.list_labels(from, to, labels)?;
        let margin = nearest_margin(labels);
        labels.retain(|label| !starts_at_margin(label, &margin));
        put_in_order(self.alloc, &ByRow, labels)?;
        Ok(margin)
    }

    /// Lists the labels of the events from `from` to before `to`. On `Err` there was no memory for
    /// them.
    fn list_labels(
        &self,
        from: usize,
        to: usize,
        list: &mut Vec<LineLabel>,
    ) -> Result<(), AllocError>
        requires range { from ≤ to }
        requires within { to ≤ length (events_of self.now.labels) }
        ensures { let own = self.now.labels in
            OnOk result (list.new.items ≡ labels_of own (slice_range (events_of own) from to)) }
    {
        list.clear();
        list.reserve(to - from)?;
        for event in &self.events()[from..to] {
            if let Some(label) = self.label(event) {
                list.push(label)?;
            }
        }
        Ok(())
    }

    /// The label of an event as it stands at its line.
    fn label(&self, event: &Event) -> Option<LineLabel>
        ensures { result ≡ event_label self.now.labels event.now.side event.now.index }
    {
        match event.side {
            Side::Inline => self.labels.get(event.index as usize).map(|info| LineLabel {
                info: *info,
                side: Side::Inline,
                gutter_column: 0,
                place: info.attach,
            }),
            Side::Starts => self
                .gutter_labels()
                .get(event.index as usize)
                .map(|info| LineLabel {
                    info: *info,
                    side: Side::Starts,
                    gutter_column: event.index as usize,
                    place: info.start_place,
                }),
            Side::Ends => self
                .gutter_labels()
                .get(event.index as usize)
                .map(|info| LineLabel {
                    info: *info,
                    side: Side::Ends,
                    gutter_column: event.index as usize,
                    place: info.end_place,
                }),
        }
    }
}

/// Whether the label of a number holds the character at an offset.
#[tactic(auto, unfolding(ariadne_picture::specs::Strokes::holds))]
fn holds_at(labels: &[LabelInfo], number: usize, offset: usize) -> bool
    ensures { result ≡ holds_at labels.now offset number }
{
    labels
        .get(number)
        .is_some_and(|label| label.start <= offset && offset < label.end)
}

/// The label that stands nearest to the margin, of those that do not lie within one line.
fn nearest_margin(labels: &[LineLabel]) -> Option<LineLabel>
    ensures { result ≡ margin_of labels.now }
{
    let mut nearest = None;
    for label in labels {
        if !label.side.is_inline() && stands_nearer(label, &nearest) {
            nearest = Some(*label);
        }
    }
    nearest
}

/// Whether a label stands nearer to the margin than the nearest so far, if there is one.
fn stands_nearer(label: &LineLabel, nearest: &Option<LineLabel>) -> bool
    ensures { MatchOption nearest.now (IsTrue result)
        (λ n. result ≡ is_nearer_margin label.now n) }
{
    match nearest {
        Some(nearest) => is_nearer_margin(label, nearest),
        None => true,
    }
}

/// Whether a label is the margin label and starts at the line.
fn starts_at_margin(label: &LineLabel, margin: &Option<LineLabel>) -> bool
    ensures { result ≡ (is_start label.now.side && is_margin margin.now label.now) }
{
    match margin {
        Some(margin) => {
            matches!(label.side, Side::Starts) && margin.gutter_column == label.gutter_column
        }
        None => false,
    }
}
