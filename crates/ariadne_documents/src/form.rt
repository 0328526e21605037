//! The forms of documents, and what those tell.

ghost use Rattle.std.specs.Prelude.{◌≡◌, map, option_map, IfOk};
ghost use Rattle.serde_json.specs.View.{view};
ghost use Rattle.ariadne_parse.specs.ParsedDiagnostics.{begins_as_json as is_begun_as_json};
ghost use Rattle.ariadne_parse.specs.Read.{read};
ghost use Rattle.ariadne_documents.specs.Forms as forms;

use crate::eslint::{is_eslint, parsed_by_eslint};
use crate::lsp::{is_lsp, parsed_by_lsp};
use crate::pyright::{is_pyright, parsed_by_pyright};
use crate::ruff::{is_ruff, parsed_by_ruff};
use crate::shellcheck::{is_shellcheck, parsed_by_shellcheck};
use crate::vet::{is_vet, parsed_by_vet};
use ariadne_json::read_value;
use ariadne_parse::Diagnostic;
use ariadne_sarif::sarif::{is_sarif, parsed_by_sarif};
use serde_json::Value;
use std::alloc::{AllocError, Global};

/// The form of a document. Those of rustc and gcc are told by `ariadne_parse::parsed_by_value`.
#[derive(Clone, Copy, PartialEq, Eq)]
pub enum Form {
    /// A log of SARIF 2.1.0.
    Sarif,
    /// What shellcheck writes by `--format=json1`.
    Shellcheck,
    /// What eslint's formatter `json` writes.
    Eslint,
    /// What ruff writes by `--output-format=json`.
    Ruff,
    /// What pyright writes by `--outputjson`.
    Pyright,
    /// The diagnostics that a server of LSP publishes.
    Lsp,
    /// What `go vet -json` writes.
    Vet,
}

/// The form that a value has, by its members.
#[tactic(auto, unfolding(crate::specs::Forms::form_of))]
pub fn form_of(value: &Value) -> Option<Form>
    ensures { result ≡ forms.form_of (view value.now) }
{
    if is_sarif(value) {
        Some(Form::Sarif)
    } else if is_shellcheck(value) {
        Some(Form::Shellcheck)
    } else if is_eslint(value) {
        Some(Form::Eslint)
    } else if is_ruff(value) {
        Some(Form::Ruff)
    } else if is_pyright(value) {
        Some(Form::Pyright)
    } else if is_lsp(value) {
        Some(Form::Lsp)
    } else if is_vet(value) {
        Some(Form::Vet)
    } else {
        None
    }
}

/// The diagnostics that a value of a form tells, in its order. There may be none. On `Err` there was no memory.
#[tactic(auto, unfolding(crate::specs::Forms::parsed_in))]
pub fn parsed_in(alloc: Global, form: Form, value: &Value) -> Result<Vec<Diagnostic>, AllocError>
    ensures { IfOk result (λ all. map read all.items ≡ forms.parsed_in form (view value.now)) }
{
    match form {
        Form::Sarif => parsed_by_sarif(alloc, value),
        Form::Shellcheck => parsed_by_shellcheck(alloc, value),
        Form::Eslint => parsed_by_eslint(alloc, value),
        Form::Ruff => parsed_by_ruff(alloc, value),
        Form::Pyright => parsed_by_pyright(alloc, value),
        Form::Lsp => parsed_by_lsp(alloc, value),
        Form::Vet => parsed_by_vet(alloc, value),
    }
}

/// The diagnostics that a value tells, if it has a form: there may be none, as of a list of no comments.
///
/// On `Err` there was no memory.
pub fn parsed_document(alloc: Global, value: &Value) -> Result<Option<Vec<Diagnostic>>, AllocError>
    ensures { IfOk result (λ parsed.
        option_map (λ all. map read all.items) parsed ≡ forms.parsed_document (view value.now)) }
{
    match form_of(value) {
        Some(form) => Ok(Some(parsed_in(alloc, form, value)?)),
        None => Ok(None),
    }
}

/// The diagnostics that a line tells, if it is a document: a value that has a form, with no blanks in front.
///
/// On `Err` there was no memory.
pub fn line_parsed(alloc: Global, line: &str) -> Result<Option<Vec<Diagnostic>>, AllocError>
    ensures { IfOk result (λ parsed.
        option_map (λ all. map read all.items) parsed ≡ forms.line_parsed line.now) }
{
    if !begins_as_json(line) {
        return Ok(None);
    }
    match read_value(alloc, line)? {
        Some(value) => parsed_document(alloc, &value),
        None => Ok(None),
    }
}

/// Whether a line begins as an object or a list of JSON.
fn begins_as_json(line: &str) -> bool
    ensures { result ≡ is_begun_as_json line.now }
{
    line.starts_with('{') || line.starts_with('[')
}
