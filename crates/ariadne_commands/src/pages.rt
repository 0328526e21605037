//! The texts that the program has ready: its help and its version.

ghost use Rattle.std.specs.Prelude.{◌≡◌, map, string_bytes};
ghost use Rattle.ariadne_commands.specs.HelpPages.{page_asked, page_text, IsShown};

use super::fault::{Fault, Status, tell_fault};
use ariadne::send::send;
use std::io::Write;

/// The text of `--help`. The program renders its two pictures for the arguments above, without the
/// blanks at the ends of rows.
pub const HELP: &str = "\
usage: ariadne-draw [--ascii] [--plain] [--compact] [--bytes] [--file PATH] MESSAGE [START END TEXT]...

Renders an error with this message over the text of standard input. Each label has three arguments:
the START and the END, exclusive, and its TEXT. Offsets count characters, from 0. Options come first,
in any order. The last --file counts.

  --ascii      draws in ASCII, and not with box drawing characters
  --plain      uses no colours; the same if NO_COLOR is set and not empty
  --compact    uses fewer rows and columns
  --bytes      counts offsets in bytes, and not in characters
  --file PATH  renders over this file, and doesn't read standard input
  --           the next argument is MESSAGE, whatever it begins with
  --help       prints this text, if it is the only argument
  --version    prints the versions of the program and of the original, if it is the only argument

Options begin with two dashes: -h is a message, and the program then waits for standard input.
Colours are also used in a pipe and a file, unless you give --plain or NO_COLOR.
The program has no codes, helps, notes, other kinds, and no labels without text. The library has.

The text, the arguments and the name of the file are sent unchanged, including control characters.
For texts from others use ariadne-show, or the library's crate ariadne_safe: both show symbols for
such characters.

Two labels on one line:

  printf 'apple == orange;' | ariadne-draw --ascii --plain 'not the same' 0 5 apple 9 15 orange

  Error: not the same
     ,-[ <unknown>:1:1 ]
     |
   1 | apple == orange;
     | ^^|^^    ^^^|^^
     |   `-------------- apple
     |             |
     |             `---- orange
  ---'

A label over three lines, in box drawing characters:

  printf 'apple\\n==\\norange' | ariadne-draw --plain 'not the same' 0 15 'illegal comparison'

  Error: not the same
     ╭─[ <unknown>:1:1 ]
     │
   1 │ ╭─▶ apple
     ┆ ┆
   3 │ ├─▶ orange
     │ │
     │ ╰─────────── illegal comparison
  ───╯

Status:

  0  the picture has all labels, or the text of --help or --version was printed
  1  the picture lacks some labels: standard error names each, by number from 1, with the reason
  2  nothing was rendered: the arguments are invalid, or the text can't be read or is not UTF-8
  3  writing failed, or memory ran out and nothing was written
  4  nothing was run: bin/ariadne-draw could not build the program

A write that a signal interrupts is repeated.
";

/// The text of `--version`: the program's name and version, and the version of the original.
pub const VERSION: &str = "\
ariadne-draw 0.6.0
port of the Rust crate ariadne 0.6.0
";

/// A text that the program has ready.
#[derive(Clone, Copy)]
pub enum HelpPage {
    /// `--help`
    Help,
    /// `--version`
    Version,
}

impl HelpPage {
    /// What is written of it.
    pub fn text(self) -> &'static str
        ensures { result.now ≡ page_text self }
    {
        match self {
            HelpPage::Help => HELP,
            HelpPage::Version => VERSION,
        }
    }
}

/// The page that the words ask for: its own word, where that is the only one.
pub fn asked_page(words: &[String]) -> Option<HelpPage>
    ensures { result ≡ page_asked (map string_bytes words.now) }
{
    let [word] = words else {
        return None;
    };
    match word.as_str() {
        "--help" => Some(HelpPage::Help),
        "--version" => Some(HelpPage::Version),
        _ => None,
    }
}

/// Writes a page to `out`, tells why it could not be written whole, and returns how the program ends.
pub fn show<W: Write, F: Write>(page: HelpPage, out: &mut W, faults: &mut F) -> Status
    ensures { IsShown (page_text page) (W.contents out.old) (W.contents out.new) result }
{
    match send(out, page.text().as_bytes()) {
        Ok(()) => Status::Clean,
        Err(error) => tell_fault(faults, &Fault::Writer { sent: error.sent }),
    }
}
