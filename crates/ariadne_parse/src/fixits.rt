//! What the fix-its of gcc's JSON propose.

ghost use Rattle.std.specs.Prelude.{◌≡◌, is_some, map, option_map, IfOk};
ghost use Rattle.std.specs.List.{list_all};
ghost use Rattle.serde_json.specs.View.{items_view, view};
ghost use Rattle.ariadne_parse.specs.Members.{all_items};
ghost use Rattle.ariadne_parse.specs.Proposed.{changes_by, filed, gcc_change, gcc_proposed, gcc_proposed_by, proposed};

use crate::diagnostic::Proposal;
use crate::gcc::location_of;
use crate::json::text;
use crate::proposals::{FileChange, one_file, way_of_all};
use crate::unit::Unit;
use serde_json::Value;
use std::alloc::{AllocError, Global};
use std::ops::Range;

/// What fix-its propose that these helps say, if each tells a change, and all are of one file: one way, of all
/// their changes.
pub(crate) fn proposal(
    alloc: Global,
    helps: Range<usize>,
    why: &str,
    fixits: &[Value],
) -> Result<Option<Proposal>, AllocError>
    ensures { IfOk result (λ it. option_map proposed it
        ≡ gcc_proposed (helps.start, helps.end) why.now (items_view fixits.now)) }
{
    if !are_changes(fixits) {
        return Ok(None);
    }
    let changes = changes_of(alloc, fixits)?;
    proposal_of(alloc, helps, why, changes.as_slice())
}

/// What changes propose that these helps say, if they are all of one file: one way.
fn proposal_of(
    alloc: Global,
    helps: Range<usize>,
    why: &str,
    changes: &[FileChange<'_>],
) -> Result<Option<Proposal>, AllocError>
    ensures { IfOk result (λ it. option_map proposed it
        ≡ gcc_proposed_by (helps.start, helps.end) why.now (map filed changes.now)) }
{
    let Some(file) = one_file(changes) else {
        return Ok(None);
    };
    let mut ways = Vec::new(alloc);
    ways.push(way_of_all(alloc, changes)?)?;
    Ok(Some(Proposal {
        helps,
        why: String::from_str(alloc, why)?,
        file: String::from_str(alloc, file)?,
        unit: Unit::Byte,
        is_past_mark: true,
        ways,
    }))
}

/// Whether each of these fix-its tells a change.
fn are_changes(fixits: &[Value]) -> bool
    ensures { result ≡ all_items (λ d. is_some (gcc_change d)) (items_view fixits.now) }
{
    each_is_change(fixits)
}

/// Whether each of these values is a fix-it that tells a change.
fn each_is_change(fixits: &[Value]) -> bool
    ensures { result ≡ list_all (λ v. is_some (gcc_change (view v))) fixits.now }
{
    fixits.iter().all(|fixit| is_change(fixit))
}

/// Whether a fix-it tells a change.
fn is_change(fixit: &Value) -> bool
    ensures { result ≡ is_some (gcc_change (view fixit.now)) }
{
    change_of(fixit).is_some()
}

/// The changes that fix-its tell.
#[tactic(auto, using(crate::proofs::Values::changes_by_values))]
fn changes_of<'a>(alloc: Global, fixits: &'a [Value]) -> Result<Vec<FileChange<'a>>, AllocError>
    ensures { IfOk result (λ changes.
        map filed changes.items ≡ changes_by gcc_change (items_view fixits.now)) }
{
    let mut changes = Vec::new(alloc);
    for fixit in fixits {
        if let Some(change) = change_of(fixit) {
            changes.push(change)?;
        }
    }
    Ok(changes)
}

/// The change that a fix-it tells, if it says where that begins and ends, and what to put there.
fn change_of(fixit: &Value) -> Option<FileChange<'_>>
    ensures { option_map filed result ≡ gcc_change (view fixit.now) }
{
    let file = text(fixit.get("start")?, "file")?;
    let start = location_of(fixit, "start")?;
    let end = location_of(fixit, "next")?;
    let put_in = text(fixit, "string")?;
    Some(FileChange {
        file,
        start,
        end,
        put_in,
    })
}
