//! Pieces of a line of text: what stands behind a character or words, behind blanks, or behind a number.

ghost use Rattle.std.specs.Prelude.{◌≡◌, ◌==◌, ◌<◌, option_map, IfSome};
ghost use Rattle.std.specs.List.{prefix_len};
ghost use Rattle.ariadne_snippets.specs.RowPieces as pieces;
ghost use Rattle.ariadne_snippets.specs.RowPieces.{GoesOn};

/// What stands behind this character of ASCII, if a text begins with it.
pub(crate) fn behind(text: &str, mark: char) -> Option<&str>
    requires { mark < 128 }
    ensures { option_map (λ rest. rest.now) result ≡ pieces.behind mark text.now }
{
    text.strip_prefix(mark)
}

/// What stands behind these words, if a text begins with them.
pub(crate) fn behind_text<'t>(text: &'t str, words: &str) -> Option<&'t str>
    ensures { option_map (λ rest. rest.now) result ≡ pieces.behind_text words.now text.now }
{
    text.strip_prefix(words)
}

/// Whether a text begins with these words.
pub(crate) fn begins_with(text: &str, words: &str) -> bool
    ensures { result ≡ pieces.begins_with words.now text.now }
{
    text.starts_with(words)
}

/// What stands behind the blanks that a text begins with.
pub(crate) fn past_blanks(text: &str) -> &str
    ensures { result.now ≡ pieces.past_blanks text.now }
{
    &text[blanks(text.as_bytes())..]
}

/// What stands behind the blanks that a line begins with, up to this many: nothing, if it has no other
/// character. Blanks at its end are left out.
pub(crate) fn behind_indent(line: &str, indent: usize) -> Option<&str>
    ensures { IfSome result (λ text. GoesOn line.now text.now) }
{
    let text = past_blanks(line);
    if text.is_empty() {
        return None;
    }
    let blanks = line.len().saturating_sub(text.len());
    Some(line.get(blanks.min(indent)..)?.trim_end())
}

/// How many blanks bytes begin with.
fn blanks(bytes: &[u8]) -> usize
    ensures { result ≡ prefix_len (λ c. c == 32) bytes.now }
{
    bytes.iter().take_while(|byte| **byte == b' ').count()
}

/// A number at the start of a text, and what stands behind it.
#[tactic(auto, unfolding(crate::specs::RowPieces::number_in))]
pub(crate) fn number(text: &str) -> Option<(usize, &str)>
    ensures { option_map (λ found. (found.0, found.1.now)) result ≡ pieces.number_in text.now }
{
    let end = digits(text.as_bytes());
    let number = text.get(..end)?.parse().ok()?;
    Some((number, text.get(end..)?))
}

/// How many digits bytes begin with.
pub(crate) fn digits(bytes: &[u8]) -> usize
    ensures { result ≡ pieces.digits_in bytes.now }
{
    bytes
        .iter()
        .take_while(|byte| byte.is_ascii_digit())
        .count()
}
