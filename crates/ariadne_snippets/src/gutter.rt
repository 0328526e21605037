//! The gutter in front of the lines of a snippet: `  5 | text` and `    | text`, or `%  5| text`.

ghost use Rattle.std.specs.Prelude.{◌≡◌, ◌<◌, option_map, IfSome};
ghost use Rattle.ariadne_snippets.specs.Ends.{IsEnd};
ghost use Rattle.ariadne_snippets.specs.Gutters.{gutter_in, gutter_told, numbered_in};
ghost use Rattle.ariadne_snippets.specs.Gutters.{without as text_without};

use crate::pieces::{behind, digits, number, past_blanks};

/// A line behind a gutter.
#[derive(Clone, Copy)]
pub(crate) struct Gutter<'a> {
    /// The number of the line that it quotes, if it names one.
    pub(crate) number: Option<usize>,
    /// Where the bar stands, in bytes from 0.
    pub(crate) bar: usize,
    /// What stands behind the bar and one blank.
    pub(crate) text: &'a str,
}

/// The gutter of a line, if it has one. A `%` may stand in front of it, as erlc writes.
#[tactic(auto, unfolding(crate::specs::Gutters::gutter_in))]
pub(crate) fn gutter_of(line: &str) -> Option<Gutter<'_>>
    ensures parts { option_map gutter_told result ≡ gutter_in line.now }
    ensures end { IfSome result (λ gutter. IsEnd gutter.text.now line.now) }
{
    let (number, rest) = numbered(past_blanks(without(line, '%')))?;
    let at_bar = past_blanks(rest);
    let text = behind(at_bar, '|')?;
    Some(Gutter {
        number,
        bar: line.len().saturating_sub(at_bar.len()),
        text: without(text, ' '),
    })
}

/// A text without this character of ASCII in front of it, if it begins with that.
pub(crate) fn without(text: &str, mark: char) -> &str
    requires { mark < 128 }
    ensures { result.now ≡ text_without mark text.now }
{
    match behind(text, mark) {
        Some(rest) => rest,
        None => text,
    }
}

/// The number that a text begins with, if it does, and what stands behind it. `None` where the number is
/// too large.
#[tactic(auto, unfolding(crate::specs::Gutters::numbered_in))]
fn numbered(text: &str) -> Option<(Option<usize>, &str)>
    ensures { option_map (λ found. (found.0, found.1.now)) result ≡ numbered_in text.now }
{
    if digits(text.as_bytes()) == 0 {
        return Some((None, text));
    }
    let (number, rest) = number(text)?;
    Some((Some(number), rest))
}
