//! Owners of the text of a source.

ghost use Rattle.std.specs.Prelude.{◌≡◌, ℕ, List, string_bytes};
ghost use Rattle.std.specs.Rc.{rc_str_bytes};

use std::rc::RcStr;

/// An owner of the text of a source. The text is the same at every call.
///
/// ```rust
/// let borrowed: Source<&str> = Source::from(alloc, "apple")?;
/// let shared: Source<RcStr> = Source::from(alloc, RcStr::from_str(alloc, "apple")?)?;
/// ```
pub trait SourceText {
    // The bytes of the text, in UTF-8.
    ghost text: { Self → List ℕ };

    /// The text.
    fn text(&self) -> &str
        ensures { result.now ≡ text self.now };
}

impl SourceText for String {
    ghost text = { string_bytes };

    fn text(&self) -> &str {
        self.as_str()
    }
}

impl<'a> SourceText for &'a str {
    ghost text = { λ s. s.now };

    fn text(&self) -> &str {
        *self
    }
}

impl SourceText for RcStr {
    ghost text = { rc_str_bytes };

    fn text(&self) -> &str {
        self.as_str()
    }
}
