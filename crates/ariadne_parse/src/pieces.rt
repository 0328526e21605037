//! Pieces of a line of text: what stands in front of a mark, behind it, or between two.

ghost use Rattle.std.specs.Prelude.{◌≡◌, ◌==◌, ◌<◌, drop, option_map};
ghost use Rattle.std.specs.List.{prefix_len};
ghost use Rattle.std.specs.Path.{rsplit_once};
ghost use Rattle.ariadne_parse.specs.TextPieces as pieces;

/// What stands behind this character of ASCII, if a text begins with it.
pub(crate) fn behind(text: &str, mark: char) -> Option<&str>
    requires { mark < 128 }
    ensures { option_map (λ rest. rest.now) result ≡ pieces.behind mark text.now }
{
    text.strip_prefix(mark)
}

/// What stands in front of this character of ASCII, if a text ends with it.
pub(crate) fn in_front_of(text: &str, mark: char) -> Option<&str>
    requires { mark < 128 }
    ensures { option_map (λ front. front.now) result ≡ pieces.in_front_of mark text.now }
{
    text.strip_suffix(mark)
}

/// Whether a text begins with these words.
pub fn begins_with(text: &str, words: &str) -> bool
    ensures { result ≡ pieces.begins_with words.now text.now }
{
    text.starts_with(words)
}

/// Whether a text ends with these words.
pub fn closes_with(text: &str, words: &str) -> bool
    ensures { result ≡ pieces.closes_with words.now text.now }
{
    text.ends_with(words)
}

/// Whether these words stand in a text.
pub fn contains(text: &str, words: &str) -> bool
    ensures { result ≡ pieces.contains words.now text.now }
{
    text.contains(words)
}

/// What stands behind these words, if a text begins with them.
pub fn behind_text<'t>(text: &'t str, words: &str) -> Option<&'t str>
    ensures { option_map (λ rest. rest.now) result ≡ pieces.behind_text words.now text.now }
{
    text.strip_prefix(words)
}

/// What stands in front of these words, if a text ends with them.
pub(crate) fn in_front_of_text<'t>(text: &'t str, words: &str) -> Option<&'t str>
    ensures { option_map (λ front. front.now) result ≡ pieces.in_front_of_text words.now text.now }
{
    text.strip_suffix(words)
}

/// What stands in front of the first such character of ASCII, and behind it.
pub fn split_once(text: &str, mark: char) -> Option<(&str, &str)>
    requires { mark < 128 }
    ensures { option_map (λ parts. (parts.0.now, parts.1.now)) result ≡ pieces.split_once mark text.now }
{
    text.split_once(mark)
}

/// What stands in front of the last such character of ASCII, and behind it.
pub fn split_at_last(text: &str, mark: char) -> Option<(&str, &str)>
    requires { mark < 128 }
    ensures { option_map (λ parts. (parts.0.now, parts.1.now)) result ≡ rsplit_once mark text.now }
{
    text.rsplit_once(mark)
}

/// Whether a text is not empty, and begins with no blank.
pub(crate) fn is_flush(text: &str) -> bool
    ensures { result ≡ pieces.is_flush text.now }
{
    match text.as_bytes().first() {
        Some(first) => *first != b' ' && *first != b'\t',
        None => false,
    }
}

/// What stands behind the blanks that a text begins with.
pub(crate) fn past_blanks(text: &str) -> &str
    ensures { result.now ≡ pieces.past_blanks text.now }
{
    &text[blanks(text.as_bytes())..]
}

/// How many blanks bytes begin with.
fn blanks(bytes: &[u8]) -> usize
    ensures { result ≡ prefix_len (λ c. c == 32) bytes.now }
{
    bytes.iter().take_while(|byte| **byte == b' ').count()
}

/// A number at the start of a text, and what stands behind it.
#[tactic(auto, unfolding(crate::specs::TextPieces::number_in))]
pub(crate) fn number(text: &str) -> Option<(usize, &str)>
    ensures { option_map (λ found. (found.0, found.1.now)) result ≡ pieces.number_in text.now }
{
    let end = digits(text.as_bytes());
    let number = text.get(..end)?.parse().ok()?;
    Some((number, text.get(end..)?))
}

/// How many digits bytes begin with.
pub(crate) fn digits(bytes: &[u8]) -> usize
    ensures { result ≡ pieces.digits_in bytes.now }
{
    bytes
        .iter()
        .take_while(|byte| byte.is_ascii_digit())
        .count()
}

/// The number that a text is.
#[tactic(auto, unfolding(crate::specs::TextPieces::whole_number))]
pub fn whole_number(text: &str) -> Option<usize>
    ensures { result ≡ pieces.whole_number text.now }
{
    match number(text)? {
        (number, "") => Some(number),
        _ => None,
    }
}
