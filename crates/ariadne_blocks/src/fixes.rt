//! What a tool says is to be changed, as helps.

ghost use Rattle.std.specs.Prelude.{◌≡◌, option_map, string_bytes, IfOk};
ghost use Rattle.ariadne_blocks.specs.Files.{file_of};
ghost use Rattle.ariadne_blocks.specs.HelpFixes.{change_unit as unit_of_change, fix_help, fix_words as words_of_fix};

use crate::file::{QuotedFile, column_in};
use ariadne_parse::Unit;
use ariadne_snippets::{Fix, FixKind};
use std::alloc::{AllocError, Global};

/// What a help says of a change: at its column by what it counts.
pub(crate) fn fix_text(
    alloc: Global,
    file: Option<QuotedFile<'_>>,
    unit: Unit,
    fix: &Fix<'_>,
) -> Result<String, AllocError>
    ensures { IfOk result (λ text.
        string_bytes text ≡ fix_help (option_map file_of file.entry) unit fix.now) }
{
    fix_words(alloc, fix, column_in(file, unit, fix.at))
}

/// What columns of changes count where those of a head count this: characters, as rustc's, or UTF-16, and else bytes.
pub(crate) fn change_unit(unit: Unit) -> Unit
    ensures { result ≡ unit_of_change unit }
{
    match unit {
        Unit::Char => Unit::Char,
        Unit::Utf16 => Unit::Utf16,
        Unit::Byte | Unit::Display => Unit::Byte,
    }
}

/// What a help says of a change at a column of its line.
pub(crate) fn fix_words(alloc: Global, fix: &Fix<'_>, column: usize) -> Result<String, AllocError>
    ensures { IfOk result (λ text. string_bytes text ≡ words_of_fix fix.now column) }
{
    let line = fix.at.line;
    let text = fix.text;
    match fix.kind {
        FixKind::Put => format!(in alloc; "put `{text}` at {line}:{column}"),
        FixKind::PutLine => format!(in alloc; "put the line `{text}` in front of line {line}"),
        FixKind::Become => format!(in alloc; "make line {line} `{text}`"),
        FixKind::Remove => format!(in alloc; "remove what stands at {line}:{column}"),
    }
}
