//! What is handed over for lines that an entry fits.

ghost use Rattle.std.specs.Prelude.{◌≡◌, IfOk};
ghost use Rattle.std.specs.Option.{option_copied};
ghost use Rattle.ariadne_matching.specs.HandedOver.{handed_over as bytes_for, last_taken as last_taken_in};
ghost use Rattle.ariadne_matching.specs.HandedOver.{passing_bytes, report_at as report_in_place};

use crate::lines::Waiting;
use ariadne_matchers::Fit;
use std::alloc::{AllocError, Global};

/// What is handed over for lines that an entry fits: those that are not taken in as they are, with a report in the
/// place of the last one that is. On `Err` there was no memory.
pub fn handed_over(
    alloc: Global,
    lines: &[Waiting],
    fit: &Fit<'_>,
    report: &str,
) -> Result<Vec<u8>, AllocError>
    ensures { IfOk result (λ bytes. bytes.items ≡ bytes_for lines.now fit.now report.now) }
{
    let last = last_taken(fit);
    let mut bytes = Vec::new(alloc);
    for place in 0..fit.lines.len() {
        bytes.extend_from_slice(report_at(report, place, last).as_bytes())?;
        bytes.extend_from_slice(passing(lines.get(place), fit.takes_in(place)))?;
    }
    Ok(bytes)
}

/// What of a report stands in the place of a line: all in that of the last one that is taken in.
fn report_at(report: &str, place: usize, last: usize) -> &str
    ensures { result.now ≡ report_in_place report.now place last }
{
    if place == last { report } else { "" }
}

/// The bytes of a line that is not taken in.
fn passing(line: Option<&Waiting>, is_taken: bool) -> &[u8]
    ensures { result.now ≡ passing_bytes (option_copied line.entry) is_taken }
{
    match line {
        Some(line) => { if is_taken { &[] } else { line.bytes.as_slice() } }
        None => &[],
    }
}

/// The place of the last line that is taken in, or the first.
fn last_taken(fit: &Fit<'_>) -> usize
    ensures { result ≡ last_taken_in fit.now }
{
    let mut last = 0;
    for place in 0..fit.lines.len() {
        if fit.takes_in(place) {
            last = place;
        }
    }
    last
}
