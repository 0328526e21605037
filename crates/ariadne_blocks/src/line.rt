//! A line of output as it was read.

ghost use Rattle.std.specs.Prelude.{◌≡◌, not};
ghost use Rattle.std.specs.Str.{bytes_eq};

/// A line that was read.
#[derive(Clone, Copy)]
pub struct Line<'a> {
    /// Its bytes, with what ends it.
    pub bytes: &'a [u8],
    /// Its text: without what ends it, and with U+FFFD in place of what is not UTF-8.
    pub whole: &'a str,
    /// The same without the colours that its tool gave it.
    pub text: &'a str,
}

impl Line<'_> {
    /// Whether its tool gave it colours.
    pub(crate) fn has_colors(self) -> bool
        ensures { result ≡ not (bytes_eq self.entry.whole.now self.entry.text.now) }
    {
        self.whole != self.text
    }
}
