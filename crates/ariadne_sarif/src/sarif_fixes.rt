//! The fixes of results of SARIF.

ghost use Rattle.std.specs.Prelude.{◌≡◌, map, string_bytes, IfOk, OnOk};
ghost use Rattle.serde_json.specs.View.{items_view, view};
ghost use Rattle.ariadne_parse.specs.Proposed.{edit_of};
ghost use Rattle.ariadne_parse.specs.Read.{read};
ghost use Rattle.ariadne_sarif.specs.SarifLogs as sarif;

use crate::fixing::{changes_of, push_fix};
use crate::sarif_messages::message_in;
use crate::sarif_spans::{Replacement, file_path, unit_of};
use ariadne_parse::json::items;
use ariadne_parse::{Change, Diagnostic};
use serde_json::Value;
use std::alloc::{AllocError, Global};

/// Adds fixes to a diagnostic.
pub(crate) fn push_fixes(
    alloc: Global,
    parsed: &mut Diagnostic,
    run: &Value,
    fixes: &[Value],
) -> Result<(), AllocError>
    ensures { OnOk result (read parsed.new
        ≡ sarif.with_fixes (view run.now) (items_view fixes.now) (read parsed.old)) }
{
    for fix in fixes {
        push_one(alloc, parsed, run, fix)?;
    }
    Ok(())
}

/// Adds a fix: of each artifact that it changes, the changes.
fn push_one(
    alloc: Global,
    parsed: &mut Diagnostic,
    run: &Value,
    fix: &Value,
) -> Result<(), AllocError>
    ensures { OnOk result (read parsed.new ≡ sarif.with_one (view run.now) (view fix.now) (read parsed.old)) }
{
    let why = message_in(alloc, fix, "description")?;
    push_changes(
        alloc,
        parsed,
        run,
        why.as_str(),
        items(fix, "artifactChanges"),
    )
}

/// Adds the changes of artifacts.
fn push_changes(
    alloc: Global,
    parsed: &mut Diagnostic,
    run: &Value,
    why: &str,
    changes: &[Value],
) -> Result<(), AllocError>
    ensures { OnOk result (read parsed.new
        ≡ sarif.with_changes (view run.now) why.now (items_view changes.now) (read parsed.old)) }
{
    for change in changes {
        push_change(alloc, parsed, run, why, change)?;
    }
    Ok(())
}

/// Adds the changes of an artifact.
fn push_change(
    alloc: Global,
    parsed: &mut Diagnostic,
    run: &Value,
    why: &str,
    change: &Value,
) -> Result<(), AllocError>
    ensures { OnOk result (read parsed.new
        ≡ sarif.with_change (view run.now) why.now (view change.now) (read parsed.old)) }
{
    let file = changed_path(alloc, run, change)?;
    let changes = changes_in(alloc, change)?;
    push_fix(alloc, parsed, why, file.as_str(), unit_of(run), changes)
}

/// The changes of an artifact.
fn changes_in(alloc: Global, change: &Value) -> Result<Vec<Change>, AllocError>
    ensures { IfOk result (λ changes. map edit_of changes.items ≡ sarif.edits_in (view change.now)) }
{
    changes_of::<Replacement>(alloc, items(change, "replacements"))
}

/// The path of an artifact that is changed.
fn changed_path(alloc: Global, run: &Value, change: &Value) -> Result<String, AllocError>
    ensures { IfOk result (λ path.
        string_bytes path ≡ sarif.changed_path (view run.now) (view change.now)) }
{
    match change.get("artifactLocation") {
        Some(location_value) => file_path(alloc, run, location_value),
        None => Ok(String::new(alloc)),
    }
}
