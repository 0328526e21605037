//! Pictures of texts as they are.

ghost use Rattle.std.specs.Prelude.{◌≡◌, [], map, IfOk, OnOk, IfErr};
ghost use Rattle.ariadne_calls.specs.Faults.{IsFirst, faults_over};
ghost use Rattle.ariadne_calls.specs.CallSources.{listing_of};
ghost use Rattle.ariadne_calls.specs.CallBuffers.{IsShownAsItIs, told_of};

use crate::ending::Refusal;
use crate::given::{GivenReport, GivenSource, ToldLeftOut};
use crate::reports::report_of;
use crate::sources::read_sources;
use ariadne::{LeftOut, Reason};
use std::alloc::{AllocError, Global};

/// What is drawn of a report, and the labels that are left out, as C is told of them.
#[derive(Drop)]
pub struct Picture {
    pub bytes: Vec<u8>,
    pub left_out: Vec<ToldLeftOut>,
}

/// Makes the picture of texts as they are.
pub fn picture_as_it_is(
    alloc: Global,
    report: &GivenReport<'_>,
    sources: &[GivenSource<'_>],
) -> Result<Picture, Refusal>
    ensures ok { IfOk result (λ p. IsShownAsItIs report.now sources.now p.left_out.items
        p.bytes.items) }
    ensures sound { OnOk result (faults_over listing_of report.now sources.now ≡ []) }
    ensures err { IfErr result (IsFirst (faults_over listing_of report.now sources.now)) }
{
    let asked = report_of(alloc, sources.len(), report)?;
    let mut cache = read_sources(alloc, sources)?;
    let mut bytes = Vec::new(alloc);
    match asked.write(&mut cache, &mut bytes) {
        Ok(left_out) => Ok(Picture {
            bytes,
            left_out: told_all(alloc, left_out.as_slice())?,
        }),
        Err(_) => Err(Refusal::NoMemory),
    }
}

/// What C is told of the labels that are left out.
pub fn told_all<E>(alloc: Global, left_out: &[LeftOut<E>]) -> Result<Vec<ToldLeftOut>, AllocError>
    ensures { IfOk result (λ all. all.items ≡ map told_of left_out.now) }
{
    let mut all = Vec::new(alloc);
    for label in left_out {
        all.push(told(label))?;
    }
    Ok(all)
}

/// What C is told of a label that is left out.
fn told<E>(left_out: &LeftOut<E>) -> ToldLeftOut
    ensures { result ≡ told_of left_out.now }
{
    ToldLeftOut {
        label: left_out.label,
        reason: match left_out.reason {
            Reason::Unfetched(_) => 0,
            Reason::PastSource => 1,
            Reason::CutsCharacter => 2,
        },
    }
}
