//! What a diagnostic says in all, as one text of several lines.

ghost use Rattle.std.specs.Prelude.{◌≡◌, ◌++◌, IfOk, OnOk, option_map, string_bytes};
ghost use Rattle.std.specs.Option.{option_copied};
ghost use Rattle.ariadne_outputs.specs.Located.{located_span_of, own_line, said_lines, whole_of};

use crate::located::Located;
use ariadne_parse::Diagnostic;
use std::alloc::{AllocError, Global};

/// The message of a diagnostic, what its own span says, its notes and its helps, each in a line of its
/// own, or more.
pub(crate) fn whole_text(
    alloc: Global,
    parsed: &Diagnostic,
    main: Option<&Located<'_>>,
) -> Result<String, AllocError>
    ensures { IfOk result (λ text. string_bytes text
        ≡ whole_of parsed.now (option_map located_span_of (option_copied main.entry))) }
{
    let mut text = parsed.message.clone()?;
    push_own(&mut text, main)?;
    push_said(&mut text, "\nnote: ", parsed.notes.as_slice())?;
    push_said(&mut text, "\nhelp: ", parsed.helps.as_slice())?;
    Ok(text)
}

/// Adds what a diagnostic's own span says, if it says something.
fn push_own(text: &mut String, main: Option<&Located<'_>>) -> Result<(), AllocError>
    ensures { OnOk result (string_bytes text.new
        ≡ string_bytes text.old ++ own_line (option_map located_span_of (option_copied main.entry))) }
{
    match main {
        Some(main) if !main.span.text.is_empty() => {
            text.push('\n')?;
            text.push_str(main.span.text.as_str())
        }
        _ => Ok(()),
    }
}

/// Adds texts, each behind this one.
fn push_said(text: &mut String, front: &str, all: &[String]) -> Result<(), AllocError>
    ensures { OnOk result (string_bytes text.new
        ≡ string_bytes text.old ++ said_lines front.now all.now) }
{
    for said in all {
        text.push_str(front)?;
        text.push_str(said.as_str())?;
    }
    Ok(())
}
