//! A file that is gone, as a diagnostic quotes lines of it.

ghost use Rattle.std.specs.Prelude.{◌≡◌, ◌≤◌, ◌-◌, fold, max, min, option_map, string_bytes};
ghost use Rattle.std.specs.Prelude.{find, IfOk, IfSome, MatchOption};
ghost use Rattle.std.specs.Option.{option_copied};
ghost use Rattle.ariadne_safe.specs.Sources.{sources_of};
ghost use Rattle.ariadne_show.specs.Quoted.{is_near as is_near_to, is_of, lines_held, lines_near};
ghost use Rattle.ariadne_show.specs.Quoted.{quoted_line as line_quoted, quoted_lines};
ghost use Rattle.ariadne_show.specs.ReadFiles.{IsNotQuoted, IsQuotedBehind};

use crate::held::HeldFile;
use ariadne_parse::{Columns, QuotedLine};
use ariadne_safe::{LineEnds, SafeSource, SafeSources};
use std::alloc::{AllocError, Global};

/// How far from the first line that is quoted others are held.
const REACH: usize = 100;

/// Lines of a file that stand one behind the other.
#[derive(Clone, Copy)]
struct Lines {
    /// How many stand above them.
    above: usize,
    /// The last of them, from 1.
    last: usize,
}

/// Holds the lines that are quoted of the file at a path, and adds its source to others; nothing where
/// none is quoted. Lines between them that are not quoted are empty.
///
/// Those that stand more than 100 lines from the first one that is quoted are left out.
pub fn hold_quoted(
    alloc: Global,
    sources: &mut SafeSources,
    path: &str,
    quoted: &[QuotedLine],
) -> Result<Option<HeldFile>, AllocError>
    ensures { IfOk result (λ held. MatchOption held
        ((sources_of sources.new ≡ sources_of sources.old) × IsNotQuoted path.now quoted.now)
        (IsQuotedBehind (sources_of sources.old) (sources_of sources.new) path.now quoted.now)) }
{
    let Some(lines) = lines_of(path, quoted) else {
        return Ok(None);
    };
    let text = quoted_text(alloc, path, quoted, lines)?;
    let source = SafeSource::new(alloc, text.as_str(), LineEnds::LineFeeds)?;
    if source.source().lines().len() > usize::MAX - lines.above {
        return Ok(None);
    }
    let source = source
        .with_name(path)?
        .with_display_line_offset(lines.above);
    let columns = Columns::new(alloc, text.as_str())?;
    Ok(Some(HeldFile {
        number: sources.add(source)?,
        columns,
        is_utf8: true,
        has_mark: false,
        above: lines.above,
        is_read: false,
    }))
}

/// The lines from the first to the last that are quoted of the file at a path, near the one that is quoted
/// first.
fn lines_of(path: &str, quoted: &[QuotedLine]) -> Option<Lines>
    ensures lines { option_map (λ lines. (lines.above, lines.last)) result
        ≡ lines_held path.now quoted.now }
    ensures forward { IfSome result (λ lines. lines.above ≤ lines.last) }
{
    let near = first_quoted(path, quoted)?.line;
    Some(Lines {
        above: first_near(path, near, quoted).saturating_sub(1),
        last: last_near(path, near, quoted),
    })
}

/// The line of the file at a path that is quoted first.
fn first_quoted<'a>(path: &str, quoted: &'a [QuotedLine]) -> Option<&'a QuotedLine>
    ensures { option_copied result ≡ find (is_of path.now) quoted.now }
{
    quoted.iter().find(|it| it.file.as_str() == path)
}

/// The first line that is quoted of the file at a path, near this one.
fn first_near(path: &str, near: usize, quoted: &[QuotedLine]) -> usize
    ensures { result ≡ fold (λ first line. min first line) near (lines_near path.now near quoted.now) }
{
    quoted
        .iter()
        .filter(|it| is_near(path, near, it))
        .map(|it| it.line)
        .fold(near, |first, line| first.min(line))
}

/// The last one.
fn last_near(path: &str, near: usize, quoted: &[QuotedLine]) -> usize
    ensures { result ≡ fold (λ last line. max last line) near (lines_near path.now near quoted.now) }
{
    quoted
        .iter()
        .filter(|it| is_near(path, near, it))
        .map(|it| it.line)
        .fold(near, |last, line| last.max(line))
}

/// Whether a quoted line is one of the file at a path, and stands near this one.
fn is_near(path: &str, near: usize, it: &QuotedLine) -> bool
    ensures { result ≡ is_near_to path.now near it.now }
{
    it.file.as_str() == path && it.line.abs_diff(near) <= REACH
}

/// The texts of lines of the file at a path, with a line feed behind each.
fn quoted_text(
    alloc: Global,
    path: &str,
    quoted: &[QuotedLine],
    lines: Lines,
) -> Result<String, AllocError>
    requires { lines.above ≤ lines.last }
    ensures { IfOk result (λ text. string_bytes text
        ≡ quoted_lines path.now quoted.now lines.above (lines.last - lines.above)) }
{
    let mut text = String::new(alloc);
    for above in lines.above..lines.last {
        text.push_str(quoted_line(path, quoted, above + 1))?;
        text.push('\n')?;
    }
    Ok(text)
}

/// The text of a line of the file at a path, as it is quoted first; empty where it is not.
fn quoted_line<'a>(path: &str, quoted: &'a [QuotedLine], line: usize) -> &'a str
    ensures { result.now ≡ line_quoted path.now quoted.now line }
{
    match quoted
        .iter()
        .find(|it| it.line == line && it.file.as_str() == path)
    {
        Some(it) => it.text.as_str(),
        None => "",
    }
}
