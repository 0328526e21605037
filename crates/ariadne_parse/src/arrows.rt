//! The text form of rustc, which others share: `error[E0425]: MESSAGE` alone in a line, and below it
//! ` --> FILE:LINE:COLUMN`.

ghost use Rattle.std.specs.Prelude.{◌≡◌, option_map, IfOk};
ghost use Rattle.std.specs.Option.{unwrap_or};
ghost use Rattle.ariadne_parse.specs.Arrows as arrows;
ghost use Rattle.ariadne_parse.specs.ArrowsParsed.{arrow_parsed, bare_of, bare_parsed, span_of_arrow};
ghost use Rattle.ariadne_parse.specs.ArrowsParsed.{IsOfBareHead};
ghost use Rattle.ariadne_parse.specs.TextPieces as pieces;
ghost use Rattle.ariadne_parse.specs.Spans.{seen};

use crate::diagnostic::{Diagnostic, End, Location, Severity, Span};
use crate::fronts::span_at_end;
use crate::heads::{begun, span as span_of_file};
use crate::kinds::sure_kind;
use crate::pieces::{behind_text, in_front_of, past_blanks};
use crate::unit::Unit;
use std::alloc::{AllocError, Global};

/// What a line says that names a kind and no span, in pieces of it.
#[derive(Clone, Copy)]
pub struct BareHead<'a> {
    /// How bad it is.
    pub severity: Severity,
    /// What it is called in place of its severity, if anything.
    pub name: Option<&'a str>,
    /// Its code.
    pub code: Option<&'a str>,
    /// What it says.
    pub message: &'a str,
}

impl BareHead<'_> {
    /// The diagnostic that it tells, which has no span yet. On `Err` there was no memory for it.
    pub fn parsed(&self, alloc: Global) -> Result<Diagnostic, AllocError>
        ensures { IfOk result (IsOfBareHead (bare_parsed self.now)) }
    {
        begun(alloc, self.severity, self.name, self.code, self.message)
    }
}

/// What a line says that names a kind and no span: `KIND: MESSAGE` or `KIND[CODE]: MESSAGE`, of a known
/// kind, and what else `parsed` reads behind a span but words of the tool's own. Such a line is a
/// diagnostic only where an arrow follows.
#[tactic(auto, unfolding(crate::specs::Arrows::bare_head_in))]
pub fn bare_head_of(line: &str) -> Option<BareHead<'_>>
    ensures { option_map bare_parsed result ≡ option_map bare_of (arrows.bare_head_in line.now) }
{
    let (kind, message) = sure_kind(line)?;
    if message.is_empty() {
        return None;
    }
    Some(BareHead {
        severity: kind.severity,
        name: kind.name,
        code: kind.code,
        message,
    })
}

/// A span in a line of its own, behind an arrow, in pieces of the line.
#[derive(Clone, Copy)]
pub struct Arrow<'a> {
    /// The file, as the tool wrote it.
    pub file: &'a str,
    /// The line from 1, and the column from 1, if one is told.
    pub start: Location,
    /// Whether it is a further span of the same diagnostic, which has `:::` in place of the arrow.
    pub is_further: bool,
}

impl Arrow<'_> {
    /// The span that it tells, whose columns count characters, as rustc's do. It is primary where it is
    /// no further one. On `Err` there was no memory for it.
    pub fn span(&self, alloc: Global) -> Result<Span, AllocError>
        ensures { IfOk result (λ span. seen span ≡ span_of_arrow (arrow_parsed self.now)) }
    {
        let mut span = span_of_file(alloc, self.file, self.start, End::OfWord, Unit::Char)?;
        span.is_primary = !self.is_further;
        Ok(span)
    }
}

/// The span ` --> FILE:LINE:COLUMN` or ` ::: FILE:LINE:COLUMN`, if a line is one. The column may be
/// left out, and a colon may stand at the end.
#[tactic(auto, unfolding(crate::specs::Arrows::arrow_in))]
pub fn arrow_of(line: &str) -> Option<Arrow<'_>>
    ensures { option_map arrow_parsed result ≡ arrows.arrow_in line.now }
{
    let (rest, is_further) = behind_sign(past_blanks(line))?;
    let (file, start) = span_at_end(without_colon(rest))?;
    Some(Arrow {
        file,
        start,
        is_further,
    })
}

/// What stands behind an arrow, and whether it is that of a further span.
#[tactic(auto, unfolding(crate::specs::Arrows::behind_sign))]
fn behind_sign(text: &str) -> Option<(&str, bool)>
    ensures { option_map (λ found. (found.0.now, found.1)) result ≡ arrows.behind_sign text.now }
{
    match behind_text(text, "--> ") {
        Some(rest) => Some((rest, false)),
        None => Some((behind_text(text, "::: ")?, true)),
    }
}

/// A text without a colon at its end.
fn without_colon(text: &str) -> &str
    ensures { result.now ≡ unwrap_or (pieces.in_front_of 58 text.now) text.now }
{
    match in_front_of(text, ':') {
        Some(front) => front,
        None => text,
    }
}
