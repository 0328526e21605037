//! The severity that words tell.

ghost use Rattle.std.specs.Prelude.{◌≡◌, option_map};
ghost use Rattle.std.specs.Option.{option_copied};
ghost use Rattle.ariadne_matchers.specs.Catches.{cut_told};
ghost use Rattle.ariadne_matchers.specs.WordSeverities.{is_named as is_of_name, severity_by, word_for};

use crate::caught::Piece;
use crate::entry::{Severity, Word};

/// The severity by the word that was caught, if it is one of these, or else another.
pub(crate) fn severity(words: &[Word], caught: Option<Piece<'_>>, other: Severity) -> Severity
    ensures { result ≡ severity_by words.now (option_map cut_told caught.entry) other }
{
    match caught {
        Some(piece) => match word(words, piece.text) {
            Some(word) => word.severity,
            None => other,
        },
        None => other,
    }
}

/// The first word that a text is.
fn word<'w>(words: &'w [Word], text: &str) -> Option<&'w Word>
    ensures { option_copied result ≡ word_for words.now text.now }
{
    words.iter().find(|word| is_named(word, text))
}

/// Whether a text is a word, in any case of letters.
fn is_named(word: &Word, text: &str) -> bool
    ensures { result ≡ is_of_name text.now word.now }
{
    text.eq_ignore_ascii_case(word.text.as_str())
}
