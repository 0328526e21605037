//! The state behind a part of a text of JSON: whether it stands in a text in quotes, and how many brackets it has.

ghost use Rattle.std.specs.Prelude.{◌≡◌, ◌∷◌, [], ◌<◌, ◌^◌, ◌&&◌};
ghost use Rattle.ariadne_json.specs.Mended.{closes as is_closing, opens as is_opening};
ghost use Rattle.ariadne_documents.specs.Brackets as brackets;

/// Within what a byte of JSON stands.
#[derive(Clone, Copy)]
pub(crate) enum Within {
    /// In no text in quotes.
    Nothing,
    /// In one.
    Text,
    /// In one, behind a backslash.
    Escape,
}

/// What is known of a part of a text of JSON.
#[derive(Clone, Copy)]
pub(crate) struct Scan {
    /// Within what the next byte stands.
    pub(crate) within: Within,
    /// How many lists and objects are opened.
    pub(crate) opened: usize,
    /// How many are closed.
    pub(crate) closed: usize,
    /// Whether only such bytes stand outside of texts as JSON has there.
    pub(crate) is_json: bool,
}

impl Scan {
    /// The state in front of a byte, behind which a line follows.
    fn behind(self, byte: u8) -> Scan
        requires opened { self.opened < 2 ^ 63 }
        requires closed { self.closed < 2 ^ 63 }
        ensures { result ≡ brackets.scanned self (byte ∷ []) }
    {
        let within = within_behind(self.within, byte);
        if is_outside(self.within, byte) {
            Scan {
                within,
                opened: self.opened + usize::from(opens(byte)),
                closed: self.closed + usize::from(closes(byte)),
                is_json: self.is_json && may_stand(byte),
            }
        } else {
            Scan { within, ..self }
        }
    }

    /// Whether the text is a line, or several, that may be some of JSON.
    pub(crate) fn is_line(&self) -> bool
        ensures { result ≡ (brackets.is_in_nothing self.now.within && self.now.is_json) }
    {
        self.within == Within::Nothing && self.is_json
    }
}

/// What is known of a line.
pub(crate) fn scan_line(line: &[u8]) -> Scan
    ensures scan { result ≡ brackets.scanned brackets.unscanned line.now }
{
    let mut scan = Scan {
        within: Within::Nothing,
        opened: 0,
        closed: 0,
        is_json: true,
    };
    for byte in line {
        scan = scan.behind(*byte);
    }
    scan
}

/// Within what the byte behind this one stands.
fn within_behind(within: Within, byte: u8) -> Within
    ensures { result ≡ brackets.within_behind within byte }
{
    match (within, byte) {
        (Within::Nothing, b'"') => Within::Text,
        (Within::Nothing, _) => Within::Nothing,
        (Within::Text, b'"') => Within::Nothing,
        (Within::Text, b'\\') => Within::Escape,
        (Within::Text | Within::Escape, _) => Within::Text,
    }
}

/// Whether a byte stands in no text in quotes, and is no quote.
fn is_outside(within: Within, byte: u8) -> bool
    ensures { result ≡ brackets.is_outside within byte }
{
    within == Within::Nothing && byte != b'"'
}

/// Whether a byte opens a list or an object.
pub(crate) fn opens(byte: u8) -> bool
    ensures { result ≡ is_opening byte }
{
    byte == b'[' || byte == b'{'
}

/// Whether a byte closes one.
fn closes(byte: u8) -> bool
    ensures { result ≡ is_closing byte }
{
    byte == b']' || byte == b'}'
}

/// Whether a byte may stand outside of texts in JSON.
fn may_stand(byte: u8) -> bool
    ensures { result ≡ brackets.may_stand byte }
{
    is_blank(byte)
        || opens(byte)
        || closes(byte)
        || is_mark(byte)
        || byte.is_ascii_digit()
        || is_letter(byte)
}

/// Whether a byte is a blank, or ends a line.
pub(crate) fn is_blank(byte: u8) -> bool
    ensures { result ≡ brackets.is_blank byte }
{
    byte == b' ' || byte == b'\t' || byte == b'\n' || byte == b'\r'
}

/// Whether a byte stands between values, or in numbers.
fn is_mark(byte: u8) -> bool
    ensures { result ≡ brackets.is_mark byte }
{
    byte == b',' || byte == b':' || byte == b'+' || byte == b'-' || byte == b'.'
}

/// Whether a byte is a letter of `true`, `false` or `null`, or of an exponent.
fn is_letter(byte: u8) -> bool
    ensures { result ≡ brackets.is_letter byte }
{
    matches!(
        byte,
        b'a' | b'e' | b'f' | b'l' | b'n' | b'r' | b's' | b't' | b'u' | b'E'
    )
}
