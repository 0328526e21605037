//! Lines in which a tool counts what it told.

ghost use Rattle.std.specs.Prelude.{◌≡◌, option_map};
ghost use Rattle.ariadne_parse.specs.Tallies as tallies;

use crate::pieces::{behind_text, number};

/// Whether a line is javac's `N errors` or `N warnings`, or clang's `N warnings and M errors generated.`
#[tactic(auto, unfolding(crate::specs::Tallies::is_tally_line))]
pub fn is_tally(line: &str) -> bool
    ensures { result ≡ tallies.is_tally_line line.now }
{
    match behind_count(line) {
        Some(rest) => ends_tally(rest),
        None => false,
    }
}

/// Whether a line ends so behind its first count.
fn ends_tally(text: &str) -> bool
    ensures { result ≡ tallies.ends_tally text.now }
{
    if text.is_empty() || text == " generated." {
        return true;
    }
    match behind_another(text) {
        Some(rest) => rest == " generated.",
        None => false,
    }
}

/// What stands behind ` and ` and another count.
#[tactic(auto, unfolding(crate::specs::Tallies::behind_another))]
fn behind_another(text: &str) -> Option<&str>
    ensures { option_map (λ rest. rest.now) result ≡ tallies.behind_another text.now }
{
    behind_count(behind_text(text, " and ")?)
}

/// What stands behind a number and a noun.
#[tactic(auto, unfolding(crate::specs::Tallies::behind_count))]
fn behind_count(text: &str) -> Option<&str>
    ensures { option_map (λ rest. rest.now) result ≡ tallies.behind_count text.now }
{
    let (_, rest) = number(text)?;
    behind_noun(rest)
}

/// What stands behind a noun.
#[tactic(auto, unfolding(crate::specs::Tallies::behind_noun))]
fn behind_noun(text: &str) -> Option<&str>
    ensures { option_map (λ rest. rest.now) result ≡ tallies.behind_noun text.now }
{
    match behind_errors(text) {
        Some(rest) => Some(rest),
        None => behind_warnings(text),
    }
}

/// What stands behind ` errors` or ` error`.
#[tactic(auto, unfolding(crate::specs::Tallies::behind_errors))]
fn behind_errors(text: &str) -> Option<&str>
    ensures { option_map (λ rest. rest.now) result ≡ tallies.behind_errors text.now }
{
    match behind_text(text, " errors") {
        Some(rest) => Some(rest),
        None => behind_text(text, " error"),
    }
}

/// What stands behind ` warnings` or ` warning`.
#[tactic(auto, unfolding(crate::specs::Tallies::behind_warnings))]
fn behind_warnings(text: &str) -> Option<&str>
    ensures { option_map (λ rest. rest.now) result ≡ tallies.behind_warnings text.now }
{
    match behind_text(text, " warnings") {
        Some(rest) => Some(rest),
        None => behind_text(text, " warning"),
    }
}
