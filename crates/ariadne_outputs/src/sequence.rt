//! Sequences of a terminal, and which of them a line keeps: those that paint its letters, and hide
//! nothing behind them.

ghost use Rattle.std.specs.Prelude.{◌≡◌, ◌<◌, Some, option_and_then, option_map};
ghost use Rattle.std.specs.Char.{is_ascii_digit as is_digit};
ghost use Rattle.std.specs.List.{list_all, prefix_len};
ghost use Rattle.ariadne_outputs.specs.Sequences.{are_kept as are_all_kept, awaited_behind};
ghost use Rattle.ariadne_outputs.specs.Sequences.{behind_charset as charset_behind, behind_letter as letter_behind};
ghost use Rattle.ariadne_outputs.specs.Sequences.{ended as ended_by, is_attribute as is_kept_attribute};
ghost use Rattle.ariadne_outputs.specs.Sequences.{is_kept as keeps, is_of_parameters as is_one_of_them};
ghost use Rattle.ariadne_outputs.specs.Sequences.{is_reset as resets, is_whole as leaves_none_open};
ghost use Rattle.ariadne_outputs.specs.Sequences.{number_in, sequence_in};
ghost use Rattle.ariadne_outputs.specs.SequenceViews.{sequence_of};

/// A sequence behind its escape character: `[`, its parameters, and `m` or `K`.
#[derive(Clone, Copy)]
pub(crate) struct Sequence<'a> {
    /// Digits, `:` and `;`.
    pub parameters: &'a str,
    /// Whether it ends in `m`, and paints letters. Else it is gcc's, by which it erases the rest of a
    /// row.
    pub is_paint: bool,
    /// What stands behind it.
    pub behind: &'a str,
}

impl Sequence<'_> {
    /// Whether it is kept: it paints letters, by numbers that are kept.
    pub(crate) fn is_kept(&self) -> bool
        ensures { result ≡ keeps (sequence_of self.now) }
    {
        self.is_paint && are_kept(self.parameters)
    }

    /// Whether letters behind it look as before any sequence: all its numbers are 0.
    pub(crate) fn is_reset(&self) -> bool
        ensures { result ≡ resets self.now.parameters.now }
    {
        self.parameters
            .as_bytes()
            .iter()
            .all(|byte| *byte == b'0' || *byte == b';')
    }
}

/// The sequence that a text begins with.
#[tactic(auto, unfolding(crate::specs::Sequences::sequence_in))]
pub(crate) fn first_sequence(text: &str) -> Option<Sequence<'_>>
    ensures { option_map sequence_of result ≡ sequence_in text.now }
{
    let inner = text.strip_prefix('[')?;
    let end = parameters_length(inner.as_bytes());
    ended(inner.get(..end)?, inner.get(end..)?)
}

/// The sequence with these parameters that the first character of a text ends.
fn ended<'a>(parameters: &'a str, text: &'a str) -> Option<Sequence<'a>>
    ensures { option_map sequence_of result ≡ ended_by parameters.now text.now }
{
    if let Some(behind) = text.strip_prefix('m') {
        return Some(Sequence {
            parameters,
            is_paint: true,
            behind,
        });
    }
    let behind = text.strip_prefix('K')?;
    if !are_digits(parameters) {
        return None;
    }
    Some(Sequence {
        parameters,
        is_paint: false,
        behind,
    })
}

/// What stands behind `(B`, by which terminals like xterm choose their usual letters, if a text begins with
/// that.
pub(crate) fn behind_charset(text: &str) -> Option<&str>
    ensures { option_map (λ rest. rest.now) result ≡ charset_behind text.now }
{
    behind_letter(behind_letter(text, '(')?, 'B')
}

/// What stands behind a letter, if a text begins with it.
fn behind_letter(text: &str, letter: char) -> Option<&str>
    requires { letter < 128 }
    ensures { option_map (λ rest. rest.now) result ≡ letter_behind letter text.now }
{
    text.strip_prefix(letter)
}

/// How many characters of parameters bytes begin with.
fn parameters_length(bytes: &[u8]) -> usize
    ensures { result ≡ prefix_len is_one_of_them bytes.now }
{
    bytes
        .iter()
        .take_while(|byte| is_of_parameters(**byte))
        .count()
}

/// Whether a byte is one of parameters: a digit, `:` or `;`.
fn is_of_parameters(byte: u8) -> bool
    ensures { result ≡ is_one_of_them byte }
{
    byte.is_ascii_digit() || byte == b':' || byte == b';'
}

/// Whether a text has digits alone, or nothing.
fn are_digits(text: &str) -> bool
    ensures { result ≡ list_all is_digit text.now }
{
    text.as_bytes().iter().all(|byte| byte.is_ascii_digit())
}

/// What the next number of a sequence is.
#[derive(Clone, Copy)]
pub(crate) enum Awaited {
    /// An attribute of letters, or 38, which begins a colour.
    Attribute,
    /// Behind 38, the form of a colour: 5 or 2.
    Form,
    /// Which of 256 colours.
    Index,
    /// How red a colour is.
    Red,
    /// How green.
    Green,
    /// How blue.
    Blue,
}

impl Awaited {
    /// Whether no colour is left open.
    fn is_whole(self) -> bool
        ensures { result ≡ leaves_none_open (Some self) }
    {
        matches!(self, Awaited::Attribute)
    }

    /// What is awaited behind a part of parameters, if that is kept.
    fn behind_part(self, part: &str) -> Option<Awaited>
        ensures { result ≡ option_and_then (awaited_behind self) (number_in part.now) }
    {
        self.behind(number(part)?)
    }

    /// What is awaited behind a number, if that is kept.
    #[tactic(auto, unfolding(crate::specs::Sequences::awaited_behind))]
    fn behind(self, number: u8) -> Option<Awaited>
        ensures { result ≡ awaited_behind self number }
    {
        match self {
            Awaited::Attribute if number == 38 => Some(Awaited::Form),
            Awaited::Attribute if is_attribute(number) => Some(Awaited::Attribute),
            Awaited::Form if number == 5 => Some(Awaited::Index),
            Awaited::Form if number == 2 => Some(Awaited::Red),
            Awaited::Attribute | Awaited::Form => None,
            Awaited::Red => Some(Awaited::Green),
            Awaited::Green => Some(Awaited::Blue),
            Awaited::Index | Awaited::Blue => Some(Awaited::Attribute),
        }
    }
}

/// Whether an attribute is kept: none (0), bold, faint, italic and underlined, their ends, and the
/// colours of letters.
fn is_attribute(number: u8) -> bool
    ensures { result ≡ is_kept_attribute number }
{
    matches!(number, 0..=4 | 22..=24 | 30..=37 | 39 | 90..=97)
}

/// The number of a part of parameters: 0 where it has nothing. `None` where it is no number, or above
/// 255.
fn number(part: &str) -> Option<u8>
    ensures { result ≡ number_in part.now }
{
    if part.is_empty() {
        return Some(0);
    }
    if !are_digits(part) {
        return None;
    }
    part.parse().ok()
}

/// Whether each number of parameters is kept, and each colour is whole.
#[tactic(auto, unfolding(crate::specs::Sequences::are_kept))]
fn are_kept(parameters: &str) -> bool
    ensures { result ≡ are_all_kept parameters.now }
{
    let mut awaited = Awaited::Attribute;
    for part in parameters.split(';') {
        match awaited.behind_part(part) {
            Some(next) => awaited = next,
            None => return false,
        }
    }
    awaited.is_whole()
}
