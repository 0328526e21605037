//! The sources that a call is given, with signs for what they hide.

ghost use Rattle.std.specs.Prelude.{◌≡◌, [], None, option_map, IfOk, OnOk, IfErr};
ghost use Rattle.std.specs.Option.{option_copied};
ghost use Rattle.ariadne_safe.specs.Visible.{visible_bytes};
ghost use Rattle.ariadne_safe.specs.declared.text.TextKind.TheVariants.{OneRow};
ghost use Rattle.ariadne_safe.specs.Sources.{given_of, line_ends_of, listing_of, name_of};
ghost use Rattle.ariadne_safe.specs.Sources.{sources_of};
ghost use Rattle.ariadne_calls.specs.Faults.{IsFirst, faults_from, source_faults};
ghost use Rattle.ariadne_calls.specs.CallSources.{shown_listing};
ghost use Rattle.ariadne_calls.specs.Safe.{AreSafe, IsSafe};

use crate::ending::{Fault, Refusal};
use crate::given::GivenSource;
use crate::texts::{optional_text, text};
use ariadne_safe::{LineEnds, SafeSource, SafeSources};
use std::alloc::{AllocError, Global};

/// All sources that are given, as they are shown.
pub fn read_safely(alloc: Global, given: &[GivenSource<'_>]) -> Result<SafeSources, Refusal>
    ensures ok { IfOk result (λ safe. AreSafe given.now (sources_of safe)) }
    ensures sound { OnOk result (faults_from (source_faults shown_listing) 0 given.now ≡ []) }
    ensures err { IfErr result (IsFirst (faults_from (source_faults shown_listing) 0 given.now)) }
{
    let mut sources = SafeSources::new(alloc);
    for (number, source) in given.iter().enumerate() {
        sources.add(safe_source(alloc, number, source)?)?;
    }
    Ok(sources)
}

/// The source with this number.
fn safe_source(alloc: Global, number: usize, given: &GivenSource<'_>) -> Result<SafeSource, Refusal>
    ensures ok { IfOk result (IsSafe given.now) }
    ensures sound { OnOk result (source_faults shown_listing number given.now ≡ []) }
    ensures err { IfErr result (IsFirst (source_faults shown_listing number given.now)) }
{
    let name = optional_text(&given.name, Fault::SourceName(number))?;
    let text = text(given.text.bytes, Fault::SourceText(number))?;
    let source = named(SafeSource::new(alloc, text, LineEnds::All)?, name)?;
    match given.line_offset.checked_add(source.source().lines().len()) {
        Some(_) => Ok(source.with_display_line_offset(given.line_offset)),
        None => Err(Refusal::Faulty(Fault::SourceLines(number))),
    }
}

/// The source under this name, if there is one.
fn named(source: SafeSource, name: Option<&str>) -> Result<SafeSource, AllocError>
    requires { name_of source ≡ None }
    ensures name { IfOk result (λ s. name_of s
        ≡ option_map (visible_bytes OneRow) (option_copied name.entry)) }
    ensures text { IfOk result (λ s. listing_of s ≡ listing_of source) }
    ensures given { IfOk result (λ s. given_of s ≡ given_of source) }
    ensures lines { IfOk result (λ s. line_ends_of s ≡ line_ends_of source) }
{
    match name {
        Some(name) => source.with_name(name),
        None => Ok(source),
    }
}
