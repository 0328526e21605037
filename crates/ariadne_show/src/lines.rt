//! The lines of an input.

ghost use Rattle.std.specs.Prelude.{◌≡◌, [], false, option_map, unwrap_or, IfOk, OnOk, string_bytes};
ghost use Rattle.std.specs.Io.BufRead.{ends_with_byte, strip_last};
ghost use Rattle.std.specs.Io.KnownBytes.{IsAtEnd};
ghost use Rattle.ariadne_parse.specs.Sgr.{bare_line};
ghost use Rattle.ariadne_show.specs.InputLines.{whole_text as text_of_line, ReadsLine};

use crate::fault::Fault;
pub use ariadne_blocks::Line;
use ariadne_parse::{has_escape, without_sgr};
use std::alloc::{AllocError, Global};
use std::io::BufRead;

/// Reads a line with what ends it, if there is one more.
pub fn read_line<I: BufRead>(input: &mut I, line: &mut Vec<u8>) -> Result<bool, Fault>
    requires { line.old.items ≡ [] }
    ensures line { OnOk result (ReadsLine (I.remaining input.old) (I.remaining input.new)
        line.new.items) }
    ensures end { IfOk result (λ more. more ≡ false → IsAtEnd (I.remaining input.old)) }
{
    match input.read_until(b'\n', line) {
        Ok(count) => Ok(count > 0),
        Err(error) => Err(Fault::of_reading(&error)),
    }
}

/// The text of a line: without what ends it, and with U+FFFD in place of what is not UTF-8.
pub fn whole_text(alloc: Global, line: &[u8]) -> Result<String, AllocError>
    ensures { IfOk result (λ text. string_bytes text ≡ text_of_line line.now) }
{
    let bare = without_last(without_last(line, b'\n'), b'\r');
    String::from_utf8_lossy(alloc, bare)
}

/// A text without the colours that its tool gave it, if it has an escape. Without one it is the same.
pub fn bare_text(alloc: Global, text: &str) -> Result<Option<String>, AllocError>
    ensures { IfOk result (λ bare. unwrap_or (option_map string_bytes bare) text.now
        ≡ bare_line text.now) }
{
    if has_escape(text) {
        Ok(Some(without_sgr(alloc, text)?))
    } else {
        Ok(None)
    }
}

/// The bytes without their last one, where that is this one.
fn without_last(bytes: &[u8], last: u8) -> &[u8]
    ensures { result.now ≡ strip_last last bytes.now }
{
    match bytes.split_last() {
        Some((found, front)) if *found == last => front,
        _ => bytes,
    }
}

/// Whether a line feed ends a line.
pub fn is_ended(line: &[u8]) -> bool
    ensures { result ≡ ends_with_byte 10 line.now }
{
    match line.split_last() {
        Some((last, _)) => *last == b'\n',
        None => false,
    }
}
