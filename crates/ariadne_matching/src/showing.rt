//! What an input tells, shown behind the matchers.

ghost use Rattle.std.specs.Prelude.{ℕ, List, Option, IfOk};
ghost use Rattle.ariadne_matching.specs.OwnTables.{options_behind as with_options_behind};
ghost use Rattle.ariadne_show.specs.RunOutput.{IsAllShown};

use crate::input::{MatchedInput, options_behind};
use crate::matchers::Matchers;
use crate::own::{matchers_of, own_table};
use ariadne_show::{Fault, Options, Streams, Sum, show};
use std::alloc::Global;
use std::io::{BufReader, Read, Write};
use std::rt::Files;

/// Shows what `input` tells, to its end, with a report in the place of the lines of each diagnostic that a matcher of
/// people's own table or of the program's reads.
///
/// On `Err` that table can't be used, or no matcher reads the lines of the tool that is named, and nothing was shown;
/// or showing ended as `ariadne_show::show` tells.
pub fn show_input<R: Files, I: Read + Drop, W: Write, F: Write>(
    files: &R,
    alloc: Global,
    options: Options<'_>,
    input: I,
    streams: &mut Streams<W, F>,
) -> Result<Sum, Fault>
    ensures { IfOk result (λ sum. (lines : Option (List ℕ)) ×
        IsAllShown (with_options_behind options.entry) lines streams.old streams.new sum) }
{
    let own = own_table(files, alloc, options.matcher)?;
    let matchers = matchers_of(alloc, &own, options.tool)?;
    show_matched(files, alloc, options, matchers, input, streams)
}

/// Shows what is read by these matchers.
fn show_matched<'a, R: Files, I: Read + Drop, W: Write, F: Write>(
    files: &'a R,
    alloc: Global,
    options: Options<'_>,
    matchers: Matchers<'a>,
    input: I,
    streams: &mut Streams<W, F>,
) -> Result<Sum, Fault>
    ensures { IfOk result (λ sum. (lines : Option (List ℕ)) ×
        IsAllShown (with_options_behind options.entry) lines streams.old streams.new sum) }
{
    let input = buffered(alloc, input)?;
    let input = MatchedInput::new(files, alloc, &options, matchers, input)?;
    let mut input = buffered(alloc, input)?;
    let options = options_behind(options);
    let shown = show(files, alloc, &options, &mut input, streams);
    drop(input);
    shown
}

/// What reads an input by larger pieces.
fn buffered<I: Read + Drop>(alloc: Global, input: I) -> Result<BufReader<I>, Fault> {
    match BufReader::new(alloc, input) {
        Ok(input) => Ok(input),
        Err(error) => Err(Fault::of_reading(&error)),
    }
}
