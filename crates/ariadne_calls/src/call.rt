//! From what a call is given to a picture, and from there to its buffers.

ghost use Rattle.std.specs.Prelude.{◌≡◌, ℕ, ◌<◌, ◌≤◌, [], length, slice_get};
ghost use Rattle.std.specs.Prelude.{IfOk, OnOk, IfErr};
ghost use Rattle.ariadne_calls.specs.CallStatuses.{Gives};
ghost use Rattle.ariadne_calls.specs.Faults.{IsFirst, faults};
ghost use Rattle.ariadne_calls.specs.CallBuffers.{IsDrawn};

use crate::ending::{CallOutcome, Refusal};
use crate::flag;
use crate::given::{GivenReport, GivenSource, ToldLeftOut};
use crate::pictures::{Picture, picture_as_it_is};
use crate::safe::safe_picture;
use std::alloc::Global;

/// Draws a report over sources into `out`, and tells in `left` which labels are left out.
pub fn draw(
    alloc: Global,
    report: &GivenReport<'_>,
    sources: &[GivenSource<'_>],
    out: &mut [u8],
    left: &mut [ToldLeftOut],
) -> CallOutcome
    ensures { Gives report.now sources.now out.old out.new left.old left.new result }
{
    let picture = match picture_of(alloc, report, sources) {
        Ok(picture) => picture,
        Err(refusal) => return CallOutcome::Refused(refusal),
    };
    let len = picture.bytes.len();
    if out.len() < len {
        return CallOutcome::TooShort { len };
    }
    out[..len].copy_from_slice(picture.bytes.as_slice());
    tell(picture.left_out.as_slice(), left);
    CallOutcome::Drawn {
        len,
        left_out: picture.left_out.len(),
    }
}

/// Makes the picture: as the texts are where the flags say so, and else safely.
fn picture_of(
    alloc: Global,
    report: &GivenReport<'_>,
    sources: &[GivenSource<'_>],
) -> Result<Picture, Refusal>
    ensures ok { IfOk result (λ p. IsDrawn report.now sources.now p.left_out.items p.bytes.items) }
    ensures sound { OnOk result (faults report.now sources.now ≡ []) }
    ensures err { IfErr result (IsFirst (faults report.now sources.now)) }
{
    if flag::has(report.flags, flag::RAW) {
        picture_as_it_is(alloc, report, sources)
    } else {
        safe_picture(alloc, report, sources)
    }
}

/// Tells as many of the labels that are left out as there is room for.
fn tell(left_out: &[ToldLeftOut], left: &mut [ToldLeftOut])
    ensures length { length left.new ≡ length left.old }
    ensures told { (k : ℕ) → k < length left_out.now → k < length left.old
        → slice_get left.new k ≡ slice_get left_out.now k }
    ensures rest { (k : ℕ) → length left_out.now ≤ k
        → slice_get left.new k ≡ slice_get left.old k }
{
    let room = left.len().min(left_out.len());
    for i in 0..room {
        left[i] = left_out[i];
    }
}
