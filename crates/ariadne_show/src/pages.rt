//! The texts that the program has ready: its help, its version and its manual page.

ghost use Rattle.std.specs.Prelude.{◌≡◌};
ghost use Rattle.ariadne_show.specs.HelpPages.{page_text, IsPageShown};

use crate::fault::{Fault, Status, tell_fault};
use crate::sending::send;
use std::io::Write;

/// The text of `--help`. `bin/release` makes the manual page from it.
pub const HELP: &str = "\
usage: ariadne-show [OPTIONS] [FILE]...

Reads the output of compilers and linters, from files or from standard input, and renders each
diagnostic over the files that it names. All other lines pass through, with symbols for control
characters. Each file is read once. At the end comes the number of errors, warnings and notes.

FILE is a log of such output. Several are read in order; - is standard input, which is also read
if there is no FILE.

Input:

  --format FORMAT   reads only one form; all other lines pass through
      auto     each line, or document of JSON, by its own form: the default
      rustc    lines of rustc --error-format=json and cargo --message-format=json
      gcc      lines of gcc -fdiagnostics-format=json
      lines    FILE:LINE:COLUMN: KIND: MESSAGE
      report   the program's own form: docs/SHOW.md describes it
  --columns UNIT    the unit of columns in FILE:LINE:COLUMN
      bytes    bytes, as in clang: the default
      chars    characters, as in shellcheck
      utf16    units of UTF-16, as in JavaScript and in editors
      display  columns of a terminal, with tabs of 8, as in gcc
  --first-column N  the number of the first column of a line there: 1, the default, or 0
  --tool NAME       reads lines only as output of this tool: docs/SHOW.md lists the tools
  --matcher FILE    reads lines by the matchers in FILE too: docs/SHOW.md describes them
  --base DIR        looks for files in DIR, and reads no file outside of DIR

Output:

  --output FORM     how each diagnostic is printed
      picture  as a picture over its files: the default
      short    as FILE:LINE:COLUMN: kind: message [code], in one line
      github   as a command of a GitHub workflow, for a message beside the line
      sarif    as a result in a SARIF log
  --short           the same as --output short, if there is no --output
  --severity KIND   error, warning or note: less severe diagnostics are counted, and not printed
  --max N           prints at most N diagnostics, and how many more there are
  --context N       shows N lines above and below each labelled line of a picture: 0 by default
  --width N         cuts long lines, so that a row has at most N columns; or auto, or full. auto is
                    the number in COLUMNS at a terminal, and full shows lines whole
  --raw             passes lines through unchanged, including control characters
  --color WHEN      auto, always or never. auto asks the environment, and then for a terminal
  --ascii           draws in ASCII, and not with box drawing characters
  --compact         uses fewer rows and columns
  --fail-on KIND    error, warning or never: the least severity for status 1, error by default

  -h, --help        prints this text
  -V, --version     prints the program's version

The value of an option is the next argument, or follows a =. If an option is given twice, the last
one counts. After -- all arguments are files. A picture has a symbol for each control character, and
for other invisible characters, whatever files and messages contain: docs/SAFE.md lists them. The
terminal has to read UTF-8.

Environment, if --width is auto: COLUMNS. If --color is auto, the first of these that applies
decides:

  NO_COLOR         no colours, if it is not empty
  FORCE_COLOR      colours, if it is not empty
  CLICOLOR_FORCE   colours, if it is neither empty nor 0
  CLICOLOR         no colours, if it is 0
  TERM             no colours, if it is dumb

Examples:

  cargo check --message-format=json | ariadne-show
  gcc -fdiagnostics-format=json x.c 2>&1 | ariadne-show
  gcc x.c 2>&1 | ariadne-show --columns display
  shellcheck -f gcc *.sh | ariadne-show --columns chars
  ariadne-show --severity warning build.log

  printf 'a = b\\n' > x.py
  printf 'x.py:1:5: error: no name b [name]\\n' | ariadne-show --ascii

  [name] Error: no name b
     ,-[ x.py:1:5 ]
     |
   1 | a = b
     |     ^
  ---'
  1 error

Status:

  0    everything was shown, and no diagnostic is as severe as --fail-on says
  1    everything was shown, and some diagnostic is
  2    the arguments are invalid; the reason is printed to standard error
  3    reading or writing failed, or memory ran out
  4    nothing was run: bin/ariadne-show could not build the program
  141  the reader of the output was gone

A write that a signal interrupts is repeated.
";

/// The text of `--version`.
pub const VERSION: &str = "\
ariadne-show 0.6.0
";

/// A text that the program has ready.
#[derive(Clone, Copy)]
pub enum HelpPage {
    /// `--help`
    Help,
    /// `--version`
    Version,
}

impl HelpPage {
    /// What is written of it.
    pub fn text(self) -> &'static str
        ensures { result.now ≡ page_text self }
    {
        match self {
            HelpPage::Help => HELP,
            HelpPage::Version => VERSION,
        }
    }
}

/// Writes a page to `out`, tells why it could not be written whole, and returns how the program ends.
pub fn show_page<W: Write, F: Write>(page: HelpPage, out: &mut W, faults: &mut F) -> Status
    ensures { IsPageShown (page_text page) (W.contents out.old) (W.contents out.new) result }
{
    match send(out, page.text().as_bytes()) {
        Ok(()) => Status::Shown,
        Err(fault) => tell_fault(faults, &fault),
    }
}
