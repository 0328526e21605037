//! Lines in front of a diagnostic that say how the tool came to its span: which files include that one,
//! what was called, and what the tool was in.

ghost use Rattle.std.specs.Prelude.{◌≡◌, option_and_then, option_map, IfOk};
ghost use Rattle.ariadne_parse.specs.Fronts as fronts;
ghost use Rattle.ariadne_parse.specs.FrontsParsed.{front_parsed, span_of_front};
ghost use Rattle.ariadne_parse.specs.TextPieces as pieces;
ghost use Rattle.ariadne_parse.specs.Spans.{seen};

use crate::diagnostic::{End, Location, Span};
use crate::heads::span as span_of_file;
use crate::lines::{COLONS, cut_at_colon};
use crate::locations::span;
use crate::pieces::{
    begins_with, behind, behind_text, in_front_of, in_front_of_text, is_flush, past_blanks,
    split_at_last, split_once, whole_number,
};
use crate::unit::Unit;
use std::alloc::{AllocError, Global};

/// What a line in front of a diagnostic tells, in pieces of it.
#[derive(Clone, Copy)]
pub struct Front<'a> {
    /// The file, as the tool wrote it.
    pub file: &'a str,
    /// The line from 1, and the column from 1, if one is told. It counts bytes, whatever the columns of heads
    /// count: so gcc writes these lines.
    pub start: Location,
    /// What a label there says.
    pub text: &'a str,
}

impl Front<'_> {
    /// The span that it tells, with what a label there says. It is not primary. On `Err` there was no
    /// memory for it.
    pub fn span(&self, alloc: Global) -> Result<Span, AllocError>
        ensures { IfOk result (λ span. seen span ≡ span_of_front (front_parsed self.now)) }
    {
        let mut span = span_of_file(alloc, self.file, self.start, End::OfWord, Unit::Byte)?;
        span.text.push_str(self.text)?;
        Ok(span)
    }
}

/// What a line tells that stands in front of a diagnostic: `In file included from FILE:LINE,`, the lines
/// `from FILE:LINE:` below it, `inlined from 'NAME' at FILE:LINE:COLUMN:`, and
/// `FILE:LINE:COLUMN:   required from here`.
///
/// What a label says is `included here`, or what the line says beside its span.
#[tactic(auto, unfolding(crate::specs::Fronts::front_in))]
pub fn front_of(line: &str) -> Option<Front<'_>>
    ensures { option_map front_parsed result ≡ fronts.front_in line.now }
{
    if let Some(front) = include(line) {
        return Some(front);
    }
    match inlined(line) {
        Some(front) => Some(front),
        None => context(line),
    }
}

/// A file that includes another.
#[tactic(auto, unfolding(crate::specs::Fronts::include_in))]
fn include(line: &str) -> Option<Front<'_>>
    ensures { option_map front_parsed result ≡ fronts.include_in line.now }
{
    let included = behind_included(past_blanks(line))?;
    let (file, start) = span_at_end(in_front_of_end(included)?)?;
    Some(Front {
        file,
        start,
        text: "included here",
    })
}

/// What stands behind the words for an include.
#[tactic(auto, unfolding(crate::specs::Fronts::behind_included))]
fn behind_included(text: &str) -> Option<&str>
    ensures { option_map (λ rest. rest.now) result ≡ fronts.behind_included text.now }
{
    match behind_text(text, "In file included from ") {
        Some(rest) => Some(rest),
        None => behind_from(text),
    }
}

/// What stands behind the words in the lines below the first.
#[tactic(auto, unfolding(crate::specs::Fronts::behind_from))]
fn behind_from(text: &str) -> Option<&str>
    ensures { option_map (λ rest. rest.now) result ≡ fronts.behind_from text.now }
{
    match behind_text(text, "from ") {
        Some(rest) => Some(rest),
        None => behind_text(text, "included from "),
    }
}

/// What stands in front of the comma or the colon at the end.
#[tactic(auto, unfolding(crate::specs::Fronts::in_front_of_end))]
fn in_front_of_end(text: &str) -> Option<&str>
    ensures { option_map (λ front. front.now) result ≡ fronts.in_front_of_end text.now }
{
    match in_front_of(text, ',') {
        Some(front) => Some(front),
        None => in_front_of(text, ':'),
    }
}

/// A span `FILE:LINE` or `FILE:LINE:COLUMN` at the end of a text.
#[tactic(auto, unfolding(crate::specs::Fronts::span_at_end))]
pub(crate) fn span_at_end(text: &str) -> Option<(&str, Location)>
    ensures { option_map (λ span. (span.0.now, span.1)) result ≡ fronts.span_at_end text.now }
{
    let (front, last) = number_at_end(text)?;
    let (file, start) = match number_at_end(front) {
        Some((file, line)) => (
            file,
            Location {
                line,
                column: Some(last),
            },
        ),
        None => (
            front,
            Location {
                line: last,
                column: None,
            },
        ),
    };
    if is_flush(file) {
        Some((file, start))
    } else {
        None
    }
}

/// What stands in front of the last colon, and the number behind it.
#[tactic(auto, unfolding(crate::specs::Fronts::number_at_end))]
fn number_at_end(text: &str) -> Option<(&str, usize)>
    ensures { option_map (λ last. (last.0.now, last.1)) result ≡ fronts.number_at_end text.now }
{
    let (front, last) = split_at_last(text, ':')?;
    Some((front, whole_number(last)?))
}

/// A call in place of which the tool put what is called.
#[tactic(auto, unfolding(crate::specs::Fronts::inlined_in))]
fn inlined(line: &str) -> Option<Front<'_>>
    ensures { option_map front_parsed result ≡ fronts.inlined_in line.now }
{
    let text = past_blanks(line);
    if !begins_with(text, "inlined from ") {
        return None;
    }
    let (said, rest) = said_and_span(in_front_of_end(text)?)?;
    let (file, start) = span_at_end(rest)?;
    Some(Front {
        file,
        start,
        text: said,
    })
}

/// What stands in front of ` at` and the last word, and that word.
#[tactic(auto, unfolding(crate::specs::Fronts::said_and_span))]
fn said_and_span(text: &str) -> Option<(&str, &str)>
    ensures { option_map (λ parts. (parts.0.now, parts.1.now)) result ≡ fronts.said_and_span text.now }
{
    let (front, rest) = split_at_last(text, ' ')?;
    Some((in_front_of_text(front, " at")?, rest))
}

/// A span from where a template is required, or of which a constant is worked out: behind the first of
/// a line's colons at which it tells that.
#[tactic(auto, unfolding(crate::specs::Fronts::context_in))]
fn context(line: &str) -> Option<Front<'_>>
    ensures { option_map front_parsed result ≡ fronts.context_in line.now }
{
    let mut from = 0usize;
    for turn in 0..COLONS {
        let (file, text, next) = cut_at_colon(line, from)?;
        match context_behind(file, text) {
            Some(front) => return Some(front),
            None => from = next,
        }
    }
    None
}

/// A span, and what is said of it behind three blanks.
#[tactic(auto, unfolding(crate::specs::Fronts::context_behind))]
fn context_behind<'a>(file: &'a str, text: &'a str) -> Option<Front<'a>>
    ensures { option_map front_parsed result ≡ fronts.context_behind file.now text.now }
{
    let (start, _, rest) = span(text)?;
    let said = behind_text(rest, ":   ")?;
    if !says_how(said) || !is_flush(file) {
        return None;
    }
    Some(Front {
        file,
        start,
        text: said,
    })
}

/// Whether a text says how the tool came to a span.
fn says_how(text: &str) -> bool
    ensures { result ≡ fronts.says_how text.now }
{
    begins_with(text, "required ")
        || begins_with(text, "recursively required ")
        || begins_with(text, "in ")
        || begins_with(text, "instantiated from ")
}

/// Whether a line names what the tool was in, and no span, as `a.c: In function 'main':`. Such a line
/// stands in front of a diagnostic, also behind lines that `front_of` reads.
#[tactic(auto, unfolding(crate::specs::Fronts::is_scope_line))]
pub fn is_scope_line(line: &str) -> bool
    ensures { result ≡ fronts.is_scope_line line.now }
{
    in_front_of_end(line).is_some() && (begins_as_scope(line) || is_of_file(line))
}

/// Whether a line begins with a file, a colon and words for what the tool was in.
#[tactic(auto, unfolding(crate::specs::Fronts::is_scope_of_file))]
fn is_of_file(line: &str) -> bool
    ensures { result ≡ fronts.is_scope_of_file line.now }
{
    match behind_file(line) {
        Some(text) => begins_as_scope(text),
        None => false,
    }
}

/// What stands behind the first colon and a blank.
fn behind_file(line: &str) -> Option<&str>
    ensures { option_map (λ text. text.now) result
        ≡ option_and_then (λ parts. pieces.behind 32 parts.1) (pieces.split_once 58 line.now) }
{
    let (_, rest) = split_once(line, ':')?;
    behind(rest, ' ')
}

/// Whether a text begins with words for what the tool was in.
fn begins_as_scope(text: &str) -> bool
    ensures { result ≡ fronts.begins_as_scope text.now }
{
    begins_as_function(text)
        || begins_as_constructor(text)
        || begins_as_template(text)
        || begins_at_top(text)
}

/// Whether it begins with words for a function.
#[tactic(auto, unfolding(crate::specs::Fronts::begins_as_function))]
fn begins_as_function(text: &str) -> bool
    ensures { result ≡ fronts.begins_as_function text.now }
{
    begins_with(text, "In function ")
        || begins_with(text, "In member function ")
        || begins_with(text, "In static member function ")
        || begins_with(text, "In lambda function")
}

/// Whether it begins with words for a function that makes or ends a value.
#[tactic(auto, unfolding(crate::specs::Fronts::begins_as_constructor))]
fn begins_as_constructor(text: &str) -> bool
    ensures { result ≡ fronts.begins_as_constructor text.now }
{
    begins_with(text, "In constructor ")
        || begins_with(text, "In copy constructor ")
        || begins_with(text, "In destructor ")
}

/// Whether it begins with words for a template with arguments.
#[tactic(auto, unfolding(crate::specs::Fronts::begins_as_template))]
fn begins_as_template(text: &str) -> bool
    ensures { result ≡ fronts.begins_as_template text.now }
{
    begins_with(text, "In instantiation of ") || begins_with(text, "In substitution of ")
}

/// Whether it begins with words for no function at all.
#[tactic(auto, unfolding(crate::specs::Fronts::begins_at_top))]
fn begins_at_top(text: &str) -> bool
    ensures { result ≡ fronts.begins_at_top text.now }
{
    begins_with(text, "At global scope") || begins_with(text, "At top level")
}
