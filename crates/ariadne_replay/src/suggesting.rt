//! The help that a case makes of edits of its source.

ghost use Rattle.std.specs.Prelude.{◌≤◌};

use crate::making::{config_of, counted, tab_width_of};
use crate::members::{has, list, text};
use crate::offsets::offsets_at;
use ariadne::{ReportBuilder, Span};
use ariadne_edits::{Edit, EditError, View, suggestion};
use std::alloc::{AllocError, Global};
use toml::Value;

/// Adds the help that shows the edits of a case, if it has some.
pub fn add_suggestion<S: Span>(
    alloc: Global,
    builder: &mut ReportBuilder<'_, S>,
    case: &Value,
) -> Result<(), AllocError> {
    if has(case, "edits") {
        let help = help_of(alloc, case)?;
        builder.add_help(help.as_str())?;
    }
    Ok(())
}

/// What edits of the case's source are shown as, or why they are refused.
fn help_of(alloc: Global, case: &Value) -> Result<String, AllocError> {
    let source = counted(alloc, text(case, "source").unwrap_or(""), case)?;
    let edits = edits_of(alloc, list(case, "edits"))?;
    let counts = config_of(case).index_type();
    match suggestion(alloc, &source, counts, view_of(case), edits.as_slice()) {
        Ok(help) => Ok(help),
        Err(EditError::Memory(error)) => Err(error),
        Err(EditError::Refused(bad)) => format!(in alloc; "{bad:?}"),
    }
}

/// How a case shows lines.
fn view_of(case: &Value) -> View
    ensures { 1 ≤ result.tab_width }
{
    let switches = config_of(case).switches();
    View {
        tab_width: tab_width_of(case),
        width: switches.width,
        char_set: switches.char_set,
    }
}

/// Edits that a case tells, each as a piece of the source and what is put there.
fn edits_of(alloc: Global, told: &[Value]) -> Result<Vec<Edit>, AllocError> {
    let mut edits = Vec::new(alloc);
    for edit in told {
        let offsets = offsets_at(edit);
        edits.push(Edit {
            span: offsets.start..offsets.end,
            text: text(edit, "text").unwrap_or("").to_string(alloc)?,
        })?;
    }
    Ok(edits)
}
