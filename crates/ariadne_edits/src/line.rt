//! Lines of texts, and which of them are alike.

ghost use Rattle.std.specs.Prelude.{◌≡◌, ◌<◌, IfOk, IsTrue, length, chars, string_bytes};
ghost use Rattle.std.specs.Prelude.{encode_utf8_all};
ghost use Rattle.ariadne_base.specs.Listing.{listed_lines};
ghost use Rattle.ariadne_base.specs.Lines.{is_separator as separates};
ghost use Rattle.ariadne_base.specs.Locations.{line_text};
ghost use Rattle.ariadne_edits.specs.SuggestionRows.{seen_of, IsTerminated};

use ariadne_base::Source;
use std::alloc::{AllocError, Global};

/// The text of a line, which is empty where there is no such line.
pub(crate) fn text_of<'a>(source: &'a Source<&str>, number: usize) -> &'a str
    ensures { chars result.now ≡ line_text (listed_lines source.now) number }
{
    match source.line(number) {
        None => "",
        Some(line) => source.get_line_text(line).unwrap(),
    }
}

/// Whether a character ends a line.
#[tactic(auto, using(std::proofs::lemmas::Bool::Decides::nat_tests), unfolding(ariadne_base::specs::Lines::is_separator))]
pub(crate) fn is_separator(c: char) -> bool
    ensures { result ≡ separates c }
{
    if c.is_ascii() {
        matches!(c, '\n'..='\r')
    } else {
        matches!(c, '\u{85}' | '\u{2028}' | '\u{2029}')
    }
}

/// Whether one line is the other and a terminator.
pub(crate) fn is_terminated(bare: &str, whole: &str) -> bool
    ensures { IsTrue result → IsTerminated (chars bare.now) (chars whole.now) }
{
    match whole.strip_prefix(bare) {
        Some(rest) => rest.chars().all(|c| is_separator(c)),
        None => false,
    }
}

/// Whether two lines differ in white space alone.
///
/// On `Err` there was no memory to find out.
pub(crate) fn are_twins(alloc: Global, line: &str, other: &str) -> Result<bool, AllocError>
    ensures { IfOk result (λ r. IsTrue r → seen_of (chars line.now) ≡ seen_of (chars other.now)) }
{
    let a = seen_text(alloc, line)?;
    let b = seen_text(alloc, other)?;
    Ok(a.as_str() == b.as_str())
}

/// The text but for white space.
fn seen_text(alloc: Global, text: &str) -> Result<String, AllocError>
    ensures { IfOk result (λ seen. string_bytes seen ≡ encode_utf8_all (seen_of (chars text.now))) }
{
    let mut seen = String::new(alloc);
    let mut rest = text.chars();
    while let Some(c) = rest.next() {
        if !c.is_whitespace() {
            seen.push(c)?;
        }
    }
    Ok(seen)
}
