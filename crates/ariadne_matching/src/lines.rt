//! Lines of an input that wait until it is known what they tell.

ghost use Rattle.std.specs.Prelude.{◌≡◌, map, IfOk, IfSome};
ghost use Rattle.std.specs.Io.BufRead.{strip_last};
ghost use Rattle.ariadne_show.specs.InputLines.{bare_text as text_of_line};
ghost use Rattle.ariadne_matchers.specs.MatchedRows.{texts};
ghost use Rattle.ariadne_matching.specs.HandedOver.{text_in, IsWaitingLine};

use ariadne_parse::has_escape;
use ariadne_show::{bare_text, whole_text};
use std::alloc::{AllocError, Global};
use std::str;

/// A line that waits.
#[derive(Drop)]
pub struct Waiting {
    /// Its bytes, with the line feed that ends it.
    pub bytes: Vec<u8>,
    /// Its text: without its end and colours, and with U+FFFD in place of what is not UTF-8.
    pub text: String,
}

impl Waiting {
    /// A line of these bytes. On `Err` there was no memory.
    pub fn new(alloc: Global, bytes: Vec<u8>) -> Result<Waiting, AllocError>
        ensures { IfOk result (IsWaitingLine bytes.items) }
    {
        let whole = whole_text(alloc, bytes.as_slice())?;
        let text = match bare_text(alloc, whole.as_str())? {
            Some(bare) => bare,
            None => whole,
        };
        Ok(Waiting { bytes, text })
    }
}

/// The text of a line, if it stands in its bytes as it is: they are UTF-8 and have no escape.
#[tactic(auto, using(crate::proofs::Taken::lossy_same))]
pub fn text_in_place(bytes: &[u8]) -> Option<&str>
    ensures { IfSome result (λ text. text.now ≡ text_of_line bytes.now) }
{
    let text = str::from_utf8(without_last(without_last(bytes, b'\n'), b'\r')).ok()?;
    if has_escape(text) { None } else { Some(text) }
}

/// Bytes without their last one, if it is this one.
fn without_last(bytes: &[u8], last: u8) -> &[u8]
    ensures { result.now ≡ strip_last last bytes.now }
{
    match bytes.split_last() {
        Some((found, front)) if *found == last => front,
        _ => bytes,
    }
}

/// The texts of lines.
pub fn texts_of<'l>(alloc: Global, lines: &'l [Waiting]) -> Result<Vec<&'l str>, AllocError>
    ensures { IfOk result (λ all. texts all.items ≡ map text_in lines.now) }
{
    let mut all = Vec::new(alloc);
    for line in lines {
        all.push(line.text.as_str())?;
    }
    Ok(all)
}
