//! The labels of a report.

ghost use Rattle.std.specs.Prelude.{◌≡◌, ◌++◌, [], map, IfOk, OnOk, IfErr, None};
ghost use Rattle.ariadne_calls.specs.RequestedReports.{label_of};
ghost use Rattle.ariadne_calls.specs.ColorNumbers.{color_of};
ghost use Rattle.ariadne_calls.specs.Faults.{IsFirst, faults_from, label_faults};

use crate::colors::{color_of, is_color};
use crate::ending::{Fault, Refusal};
use crate::given::GivenLabel;
use crate::reports::Place;
use crate::texts::optional_text;
use ariadne::{Label, ReportBuilder};
use std::alloc::Global;

/// Adds these labels, which are in so many sources.
pub fn add_labels(
    alloc: Global,
    builder: &mut ReportBuilder<'_, Place>,
    sources: usize,
    given: &[GivenLabel<'_>],
) -> Result<(), Refusal>
    ensures ok { OnOk result (builder.new ≡ record builder.old
        { labels = builder.old.labels ++ map label_of given.now }) }
    ensures sound { OnOk result (faults_from (label_faults sources) 0 given.now ≡ []) }
    ensures err { IfErr result (IsFirst (faults_from (label_faults sources) 0 given.now)) }
{
    for (number, label) in given.iter().enumerate() {
        builder.add_label(label_of(alloc, sources, number, label)?)?;
    }
    Ok(())
}

/// The label with this number, in one of so many sources.
fn label_of(
    alloc: Global,
    sources: usize,
    number: usize,
    given: &GivenLabel<'_>,
) -> Result<Label<Place>, Refusal>
    ensures ok { IfOk result (λ label. label ≡ label_of given.now) }
    ensures sound { OnOk result (label_faults sources number given.now ≡ []) }
    ensures err { IfErr result (IsFirst (label_faults sources number given.now)) }
{
    if given.source >= sources {
        return Err(Refusal::Faulty(Fault::LabelSource(number)));
    }
    if given.end < given.start {
        return Err(Refusal::Faulty(Fault::LabelBackwards(number)));
    }
    if given.color != 0 && !is_color(given.color) {
        return Err(Refusal::Faulty(Fault::LabelColor(number)));
    }
    let message = optional_text(&given.message, Fault::LabelMessage(number))?;
    let label = Label::new((given.source, given.start..given.end))
        .with_order(given.order)
        .with_priority(given.priority);
    let label = colored(label, given.color);
    match message {
        Some(message) => Ok(label.with_message(alloc, message)?),
        None => Ok(label),
    }
}

/// The label in the colour of this number, if there is one.
fn colored(label: Label<Place>, color: u32) -> Label<Place>
    requires { label.color ≡ None }
    ensures { result ≡ record label { color = color_of color } }
{
    match color_of(color) {
        Some(color) => label.with_color(color),
        None => label,
    }
}
