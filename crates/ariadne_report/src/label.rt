//! Labels: spans with messages.

ghost use Rattle.std.specs.Prelude.{◌≡◌, ◌≤◌, true, Some, IfOk};
ghost use Rattle.std.specs.Option.{option_copied};
ghost use Rattle.std.specs.Cmp.{partial_equiv_from_equiv};
ghost use Rattle.ariadne_report.specs.LabelEquality.{label_eq, label_equiv, label_writes, label_alike};

use ariadne_base::Span;
use ariadne_color::Color;
use std::alloc::{AllocError, Global};
use std::hash::{Hash, Hasher};
use std::marker::Model;
use std::ops::Range;

/// A span of a source, mostly with a message, for a report.
///
/// The offsets of the span count from 0: characters of the source, or bytes if the report's index
/// type is `Byte`. The end is exclusive, and not less than the start.
///
/// ```rust
/// let label = Label::new(10..14).with_message(alloc, "no such name")?;
/// ```
#[derive(Debug, Drop)]
pub struct Label<S: Span = Range<usize>> {
    span: S,
    message: Option<String>,
    color: Option<Color>,
    order: i32,
    priority: i32,
}

impl<S: Span> Model for Label<S> {
    ghost use Rattle.std.specs.Prelude.{◌≤◌, string_bytes, option_map};
    ghost use Rattle.ariadne_picture.specs.Report.{LabelFields};

    ghost Value = { LabelFields S };

    ghost view = { λ a. record {
      span = a.span;
      message = option_map string_bytes a.message;
      color = a.color;
      order = a.order;
      priority = a.priority;
    } };

    ghost invariant = { λ a. S.start_of a.span ≤ S.end_of a.span };
}

impl<S: Span> Label<S> {
    ghost use Rattle.ariadne_picture.specs.Report.{new_label};

    /// A label over a span, without message and colour, of order 0 and priority 0.
    pub fn new(span: S) -> Label<S>
        requires forward { S.start_of span ≤ S.end_of span }
        ensures { result ≡ new_label span }
    {
        Label {
            span,
            message: None,
            color: None,
            order: 0,
            priority: 0,
        }
    }

    /// The label with this message; an older message is dropped. If memory runs out, the label is
    /// dropped.
    pub fn with_message(mut self, alloc: Global, message: &str) -> Result<Label<S>, AllocError>
    where
        S: Drop,
        ensures { IfOk result (λ label. label ≡ record self { message = Some message.now }) }
    {
        self.message = Some(String::from_str(alloc, message)?);
        Ok(self)
    }

    /// The label in this colour.
    pub fn with_color(mut self, color: Color) -> Label<S>
        ensures { result ≡ record self { color = Some color } }
    {
        self.color = Some(color);
        self
    }

    /// The label with this order. Labels of a lower order are drawn first, above the others.
    pub fn with_order(mut self, order: i32) -> Label<S>
        ensures { result ≡ record self { order = order } }
    {
        self.order = order;
        self
    }

    /// The label with this priority. If spans overlap, the label of the highest priority is seen.
    /// Among equal priorities, the label with the shortest span is seen.
    pub fn with_priority(mut self, priority: i32) -> Label<S>
        ensures { result ≡ record self { priority = priority } }
    {
        self.priority = priority;
        self
    }

    /// The span.
    pub fn span(&self) -> &S
        ensures span { result.now ≡ self.now.span }
        ensures forward { S.start_of self.now.span ≤ S.end_of self.now.span }
    {
        &self.span
    }

    /// The message, if the label has one.
    pub fn message(&self) -> Option<&str>
        ensures { option_copied result ≡ self.now.message }
    {
        self.message.as_deref()
    }

    /// The label's own colour, if the label has one.
    pub fn color(&self) -> Option<Color>
        ensures { result ≡ self.now.color }
    {
        self.color
    }

    /// The order among the labels of the report.
    pub fn order(&self) -> i32
        ensures { result ≡ self.now.order }
    {
        self.order
    }

    /// The priority over other labels, if spans overlap.
    pub fn priority(&self) -> i32
        ensures { result ≡ self.now.priority }
    {
        self.priority
    }
}

impl<S: Span + Eq> Label<S> {
    /// A copy of the label. You prove that a clone of the span equals the span, with the same start
    /// and end; everything else is the same. On `Err` memory ran out.
    pub fn clone(&self) -> Result<Label<S>, AllocError>
    where
        S: Clone,
        requires equal { (x y : S) → S.is_clone x y → S.eq x y ≡ true }
        requires starts { (x y : S) → S.is_clone x y → S.start_of y ≡ S.start_of x }
        requires ends { (x y : S) → S.is_clone x y → S.end_of y ≡ S.end_of x }
        ensures span { IfOk result (λ label. S.eq self.now.span label.span ≡ true) }
        ensures starts { IfOk result (λ label. S.start_of label.span ≡ S.start_of self.now.span) }
        ensures ends { IfOk result (λ label. S.end_of label.span ≡ S.end_of self.now.span) }
        ensures rest { IfOk result (λ label. label ≡ record self.now { span = label.span }) }
    {
        let message = match &self.message {
            Some(message) => Some(message.clone()?),
            None => None,
        };
        Ok(Label {
            span: self.span.clone()?,
            message,
            color: self.color,
            order: self.order,
            priority: self.priority,
        })
    }
}

/// Labels are equal if their spans, messages, colours, orders and priorities are equal.
impl<S: Span + Eq> PartialEq for Label<S> {
    ghost eq = { label_eq S.eq };

    ghost laws = { partial_equiv_from_equiv (label_equiv S.Eq.laws) };

    fn eq(&self, other: &Label<S>) -> bool {
        self.span == other.span
            && self.message == other.message
            && self.color == other.color
            && self.order == other.order
            && self.priority == other.priority
    }
}

impl<S: Span + Eq> Eq for Label<S> {
    ghost laws = { label_equiv S.Eq.laws };
}

impl<S: Span + Hash> Hash for Label<S> {
    ghost hash_input = { label_writes S.hash_input };

    ghost respects_eq = { (label_alike (record { fed = S.Hash.respects_eq })).fed };

    fn hash<H: Hasher>(&self, state: &mut H) {
        self.span.hash(state);
        self.message.hash(state);
        self.color.hash(state);
        self.order.hash(state);
        self.priority.hash(state);
    }
}
