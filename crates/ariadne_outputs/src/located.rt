//! A span of a diagnostic, and where it stands in its file.

ghost use Rattle.std.specs.Prelude.{◌≡◌, drop};
ghost use Rattle.ariadne_outputs.specs.Located.{severity_word as word_of};

use ariadne_parse::{Location, Severity, Span};

/// A span of a diagnostic, and where it stands in its file. Lines and columns count from 1; what
/// columns count is said where it is asked for.
///
/// The spans of a diagnostic are handed on in a list, of which the first is the one that it is about.
#[derive(Clone, Copy)]
pub struct Located<'a> {
    /// The span.
    pub span: &'a Span,
    /// Where the tool points.
    pub caret: Location,
    /// Where it begins.
    pub start: Location,
    /// Where it ends: behind its last character. `None` where that isn't known.
    pub end: Option<Location>,
}

/// The spans behind the first one.
pub(crate) fn other_spans<'l, 'a>(spans: &'l [Located<'a>]) -> &'l [Located<'a>]
    ensures { result.now ≡ drop 1 spans.now }
{
    match spans {
        [_, others @ ..] => others,
        [] => spans,
    }
}

/// The word for a severity.
pub(crate) fn severity_word(severity: Severity) -> &'static str
    ensures { result.now ≡ word_of severity }
{
    match severity {
        Severity::Error => "error",
        Severity::Warning => "warning",
        Severity::Note => "note",
    }
}
