//! Diagnostics with a code.

ghost use Rattle.std.specs.Prelude.{◌≡◌, option_map, string_bytes, IfOk};
ghost use Rattle.ariadne_parse.specs.Read.{read};
ghost use Rattle.ariadne_parse.specs.Spans.{seen};
ghost use Rattle.ariadne_sarif.specs.DocumentParts as parts;

use ariadne_parse::{Diagnostic, Severity, Span};
use ariadne_sarif::parts::filed;
use std::alloc::{AllocError, Global};

/// A diagnostic about a file with this code, and with its span or a note that names the file.
pub(crate) fn coded(
    alloc: Global,
    code: Option<String>,
    severity: Severity,
    message: &str,
    file: &str,
    span: Option<Span>,
) -> Result<Diagnostic, AllocError>
    ensures { IfOk result (λ parsed. read parsed ≡ parts.coded (option_map string_bytes code)
        (parts.filed severity message.now file.now (option_map seen span))) }
{
    let mut parsed = filed(alloc, severity, message, file, span)?;
    parsed.code = code;
    Ok(parsed)
}
