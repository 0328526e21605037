//! Rows that tell programs what to put where, as clang and gcc write them with
//! `-fdiagnostics-parseable-fixits`: `fix-it:"FILE":{LINE:COLUMN-LINE:COLUMN}:"TEXT"`.

ghost use Rattle.std.specs.Prelude.{◌≡◌, option_map};
ghost use Rattle.ariadne_parse.specs.FixRows as rows;
ghost use Rattle.ariadne_parse.specs.FixRows.{fix_row_parsed};

use crate::diagnostic::Location;
use crate::locations::range;
use crate::pieces::{behind, behind_text, in_front_of, split_once};

/// What such a row tells, in pieces of it.
#[derive(Clone, Copy)]
pub struct FixRow<'a> {
    /// The file's path, as it stands in quotes.
    pub file: &'a str,
    /// Where what is replaced begins. Columns count bytes from 1.
    pub start: Location,
    /// In front of which character it ends.
    pub end: Location,
    /// What is put there, as it stands in quotes: a backslash stands in front of quotes and backslashes, a line
    /// feed is `\n`, and other bytes have three octal digits behind a backslash.
    pub text: &'a str,
}

/// What a line tells, if it is such a row.
#[tactic(auto, unfolding(crate::specs::FixRows::fix_row_in))]
pub fn fix_row_of(line: &str) -> Option<FixRow<'_>>
    ensures { option_map fix_row_parsed result ≡ rows.fix_row_in line.now }
{
    let (file, rest) = file_in(line)?;
    let (start, end, rest) = span_in(rest)?;
    let text = text_in(rest)?;
    Some(FixRow {
        file,
        start,
        end,
        text,
    })
}

/// The file in quotes, and what stands behind it.
#[tactic(auto, unfolding(crate::specs::FixRows::file_in))]
fn file_in(line: &str) -> Option<(&str, &str)>
    ensures { option_map (λ parts. (parts.0.now, parts.1.now)) result ≡ rows.file_in line.now }
{
    split_once(behind(behind_text(line, "fix-it:")?, '"')?, '"')
}

/// The range behind a colon, and what stands behind it.
#[tactic(auto, unfolding(crate::specs::FixRows::span_in))]
fn span_in(text: &str) -> Option<(Location, Location, &str)>
    ensures { option_map (λ found. (found.0, found.1, found.2.now)) result ≡ rows.span_in text.now }
{
    range(behind(text, ':')?)
}

/// The text in quotes behind a colon.
#[tactic(auto, unfolding(crate::specs::FixRows::text_in))]
fn text_in(text: &str) -> Option<&str>
    ensures { option_map (λ text. text.now) result ≡ rows.text_in text.now }
{
    in_front_of(behind(behind(text, ':')?, '"')?, '"')
}
