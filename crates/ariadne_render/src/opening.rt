//! Painted texts: the escape that opens a colour is kept for the next text in the same one.

ghost use Rattle.std.specs.Prelude.{◌≡◌, ◌++◌, OnOk, encode_utf8, string_bytes};
ghost use Rattle.ariadne_color.specs.Colors.{painted};
ghost use Rattle.ariadne_color.specs.Escapes.{opened};

use ariadne_color::Color;
use ariadne_color::color::{push_closing, push_opening};
use std::alloc::{AllocError, Global};

/// What stands before a text in the colour that was asked for last.
#[derive(Drop)]
pub(crate) struct Opening {
    color: Option<Color>,
    text: String,
    ghost kept: { string_bytes text ≡ opened color },
}

impl Opening {
    /// The opening of a text without a colour: nothing.
    pub(crate) fn new(alloc: Global) -> Opening {
        Opening {
            color: None,
            text: String::new(alloc),
        }
    }

    /// Appends what stands before a text in a colour: its escape, or nothing without a colour.
    pub(crate) fn push(&mut self, out: &mut String, color: Option<Color>) -> Result<(), AllocError>
        ensures { OnOk result (string_bytes out.new ≡ string_bytes out.old ++ opened color) }
    {
        if color.is_none() {
            return Ok(());
        }
        if self.color != color {
            self.exchange(color)?;
        }
        out.push_str(&self.text)
    }

    /// Keeps what stands before a text in another colour.
    fn exchange(&mut self, color: Option<Color>) -> Result<(), AllocError>
        ensures { OnOk result (self.new.color ≡ color) }
    {
        self.text.clear();
        self.color = None;
        match push_opening(&mut self.text, color) {
            Ok(()) => {
                self.color = color;
                Ok(())
            }
            Err(refused) => {
                self.text.clear();
                Err(refused)
            }
        }
    }
}

/// Appends a text in a colour, if there is one.
pub(crate) fn push_painted(
    out: &mut String,
    opening: &mut Opening,
    color: Option<Color>,
    text: &str,
) -> Result<(), AllocError>
    ensures { OnOk result (string_bytes out.new ≡ string_bytes out.old ++ painted color text.now) }
{
    opening.push(out, color)?;
    out.push_str(text)?;
    push_closing(out, color)
}

/// Appends a character in a colour, if there is one.
pub(crate) fn push_painted_char(
    out: &mut String,
    opening: &mut Opening,
    color: Option<Color>,
    c: char,
) -> Result<(), AllocError>
    ensures { OnOk result
        (string_bytes out.new ≡ string_bytes out.old ++ painted color (encode_utf8 c)) }
{
    opening.push(out, color)?;
    out.push(c)?;
    push_closing(out, color)
}
