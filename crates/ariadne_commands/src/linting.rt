//! The linter over the file system and the streams that it is handed.

ghost use Rattle.std.specs.Prelude.{◌≡◌, ◌≤◌, ◌<◌, ◌+◌, ◌^◌, ◌++◌, [], ◌∷◌, map, string_bytes};
ghost use Rattle.std.specs.Prelude.{IfOk, IsSome, Some, None, chars, codes, option_map, slice_get};
ghost use Rattle.std.specs.List.{flat_map, list_all, list_any};
ghost use Rattle.ariadne.specs.Cache.{held, KeepsOtherIds};
ghost use Rattle.ariadne.specs.Files.{by_text};
ghost use Rattle.ariadne.specs.Report.{error, new_report};
ghost use Rattle.ariadne_commands.specs.Outcomes.{IsOutcome, IsOutcomeIn, offends, outcome_first};
ghost use Rattle.ariadne_commands.specs.Outcomes.{outcome_last, was_read};
ghost use Rattle.ariadne_commands.specs.Linted.{AreChecked, Ended, labels_of, plain_config};
ghost use Rattle.ariadne_commands.specs.Linted.{report_of, same_path, saying, status_of};
ghost use Rattle.ariadne_commands.specs.Linting.{AreOutcomes, RanOver, Wrote};
ghost use Rattle.ariadne_commands.specs.declared.checked.Outcome.TheVariants.{Unread};

use super::checked::{Checked, Outcome};
use super::fault::{BRACKETS_USAGE, Fault, FileFault, Status, tell_fault};
use super::offence::{Offence, first_offence};
use ariadne::{
    Cache, CharSet, Config, FetchError, FileCache, FileError, Label, Report, ReportBuilder,
    ReportKind, WriteError,
};
use std::alloc::{AllocError, Global};
use std::collections::HashSet;
use std::io::Write;
use std::ops::Range;
use std::rt::Files;

/// A piece of the file at a path.
type Piece<'a> = (&'a str, Range<usize>);

/// Checks the brackets of the files that `words` name, writes one report of all offences to `out`,
/// and returns how the linter ends.
///
/// Every word is a path, and a path named again is passed over. The files are read in the order of
/// the words, and `faults` gets a line for each that can't be read. Where none has an offence
/// nothing is written. Want of memory, and a fault of `out`, stand before files that were not read,
/// and these before offences. A failure of `faults` is passed over. What `out` got is told by the
/// status.
pub fn lint<R: Files, W: Write, F: Write>(
    files: &R,
    alloc: Global,
    words: &[String],
    out: &mut W,
    faults: &mut F,
) -> Status
    ensures { Ended (map string_bytes words.now) (W.contents out.old) (W.contents out.new) result }
{
    if words.is_empty() {
        return tell_fault(faults, &Fault::Usage(BRACKETS_USAGE));
    }
    match lint_files(files, alloc, words, out, faults) {
        Ok(status) => status,
        Err(fault) => tell_fault(faults, &fault),
    }
}

/// The same for words that name a file.
fn lint_files<R: Files, W: Write, F: Write>(
    files: &R,
    alloc: Global,
    words: &[String],
    out: &mut W,
    faults: &mut F,
) -> Result<Status, Fault>
    ensures { RanOver (map string_bytes words.now) (W.contents out.old) (W.contents out.new)
        result }
{
    let mut cache = FileCache::new(files, alloc);
    let checked = check_files(alloc, &mut cache, words, faults)?;
    write_report(alloc, &checked, &mut cache, out)?;
    Ok(status(&checked))
}

/// Reads the file at a path and finds its first offence. A line on `faults` tells why a file is
/// not read.
fn check_file<'a, R: Files, F: Write>(
    alloc: Global,
    cache: &mut FileCache<&R>,
    path: &'a str,
    faults: &mut F,
) -> Result<Checked<'a>, AllocError>
    ensures others { KeepsOtherIds same_path path.entry (by_text cache.old) (by_text cache.new) }
    ensures path { IfOk result (λ c. c.path ≡ path.entry) }
    ensures outcome { IfOk result (λ c. IsOutcome (held same_path (by_text cache.new)
        path.entry) c.outcome) }
{
    match cache.ensure(&path) {
        Ok(()) => check_held(alloc, cache, path),
        Err(FetchError::Memory(refused)) => Err(refused),
        Err(FetchError::Failed(error)) => Ok(tell_unread(path, &error, faults)),
    }
}

/// Finds the first offence of the file at a path, which the cache holds.
fn check_held<'a, R: Files>(
    alloc: Global,
    cache: &FileCache<&R>,
    path: &'a str,
) -> Result<Checked<'a>, AllocError>
    requires { IsSome (held same_path (by_text cache.now) path) }
    ensures path { IfOk result (λ c. c.path ≡ path.entry) }
    ensures outcome { IfOk result (λ c. IsOutcome (held same_path (by_text cache.now)
        path.entry) c.outcome) }
{
    match cache.get(&path) {
        Some(source) => {
            let outcome = check_text(alloc, source.text())?;
            Ok(Checked { path, outcome })
        }
        None => unreachable!(),
    }
}

/// The file at a path, which is not read. A line on `faults` tells why.
fn tell_unread<'a, F: Write>(path: &'a str, error: &FileError, faults: &mut F) -> Checked<'a>
    ensures path { result.path ≡ path.entry }
    ensures outcome { result.outcome ≡ Unread }
{
    let _ = writeln!(faults, "{path}: {}", FileFault::of_error(error));
    Checked {
        path,
        outcome: Outcome::Unread,
    }
}

/// Finds the first offence of a text.
fn check_text(alloc: Global, text: &str) -> Result<Outcome, AllocError>
    ensures outcome { IfOk result (IsOutcomeIn (chars text.now)) }
    ensures forward { IfOk result (λ o. outcome_first o ≤ outcome_last o) }
    ensures fits { IfOk result (λ o. outcome_last o + 1 < 2 ^ 64) }
{
    match first_offence(alloc, text)? {
        Some(offence) => Ok(Outcome::Offends(offence)),
        None => Ok(Outcome::Balanced),
    }
}

/// Checks the files that words name, in the order of the words. A path named again is passed over.
fn check_files<'a, R: Files, F: Write>(
    alloc: Global,
    cache: &mut FileCache<&R>,
    words: &'a [String],
    faults: &mut F,
) -> Result<Vec<Checked<'a>>, AllocError>
    ensures { IfOk result (λ checked. AreChecked (map string_bytes words.now) (by_text cache.new)
        checked.items) }
{
    let mut seen: HashSet<&'a str> = HashSet::new(alloc);
    let mut checked: Vec<Checked<'a>> = Vec::new(alloc);
    for word in words {
        let path = word.as_str();
        if seen.insert(path)? {
            checked.push(check_file(alloc, cache, path, faults)?)?;
        }
    }
    Ok(checked)
}

/// The report with a label more, at a place of a file.
fn marked<'a>(
    alloc: Global,
    builder: ReportBuilder<'static, Piece<'a>>,
    path: &'a str,
    place: Range<usize>,
    message: &str,
) -> Result<ReportBuilder<'static, Piece<'a>>, AllocError>
    requires { place.start ≤ place.end }
    ensures { IfOk result (λ report. report ≡ record builder.entry {
      labels = builder.entry.labels
          ++ saying path.entry place.start place.end message.now ∷ [];
    }) }
{
    let label = Label::new((path, place)).with_message(alloc, message)?;
    builder.with_label(label)
}

/// The report with the labels of one file more.
fn with_labels_of<'a>(
    alloc: Global,
    builder: ReportBuilder<'static, Piece<'a>>,
    checked: &Checked<'a>,
) -> Result<ReportBuilder<'static, Piece<'a>>, AllocError>
    ensures { IfOk result (λ report. report ≡ record builder.entry
        { labels = builder.entry.labels ++ labels_of checked.now }) }
{
    let Checked { path, outcome } = *checked;
    let Outcome::Offends(offence) = outcome else {
        return Ok(builder);
    };
    match offence {
        Offence::Unopened(p) => marked(alloc, builder, path, p..p + 1, "never opened"),
        Offence::Mismatched(o, p) => {
            let builder = marked(alloc, builder, path, o..o + 1, "opened here")?;
            marked(
                alloc,
                builder,
                path,
                o..p + 1,
                "closed by another bracket here",
            )
        }
        Offence::Unclosed(o) => marked(alloc, builder, path, o..o + 1, "never closed"),
    }
}

/// What the first label of all points at, if there is one.
fn first_piece<'a>(checked: &[Checked<'a>]) -> Option<Piece<'a>>
    ensures { result ≡ option_map (λ label. label.span)
        (slice_get (flat_map labels_of checked.now) 0) }
{
    for it in checked {
        if let Outcome::Offends(offence) = it.outcome {
            let first = match offence {
                Offence::Unopened(offset)
                | Offence::Mismatched(offset, _)
                | Offence::Unclosed(offset) => offset,
            };
            return Some((it.path, first..first + 1));
        }
    }
    None
}

/// The report of the offences that were found, if there are any.
fn offences_report<'a>(
    alloc: Global,
    checked: &[Checked<'a>],
) -> Result<Option<Report<'static, Piece<'a>>>, AllocError>
    ensures { IfOk result (λ report. report ≡ report_of checked.now) }
{
    let Some(piece) = first_piece(checked) else {
        return Ok(None);
    };
    let builder = report_at(alloc, piece)?;
    Ok(Some(with_labels_of_all(alloc, builder, checked)?.finish()))
}

/// The report before it has labels, which points at a place of a file.
fn report_at<'a>(
    alloc: Global,
    piece: Piece<'a>,
) -> Result<ReportBuilder<'static, Piece<'a>>, AllocError>
    ensures { IfOk result (λ report. report ≡ record (new_report error piece.entry)
        { message = Some (codes "unbalanced brackets"); config = plain_config }) }
{
    let config = Config::new()
        .with_char_set(CharSet::Ascii)
        .with_color(false);
    Report::build(alloc, ReportKind::Error, piece)
        .with_config(config)
        .with_message("unbalanced brackets")
}

/// The report with the labels of these files more.
fn with_labels_of_all<'a>(
    alloc: Global,
    mut builder: ReportBuilder<'static, Piece<'a>>,
    checked: &[Checked<'a>],
) -> Result<ReportBuilder<'static, Piece<'a>>, AllocError>
    ensures { IfOk result (λ report. report ≡ record builder.entry
        { labels = builder.entry.labels ++ flat_map labels_of checked.now }) }
{
    for it in checked {
        builder = with_labels_of(alloc, builder, it)?;
    }
    Ok(builder)
}

/// Writes the report of the offences that were found, if there are any.
fn write_report<R: Files, W: Write>(
    alloc: Global,
    checked: &[Checked<'_>],
    cache: &mut FileCache<&R>,
    out: &mut W,
) -> Result<(), Fault>
    requires { AreOutcomes (by_text cache.old) checked.now }
    ensures outcomes { AreOutcomes (by_text cache.new) checked.now }
    ensures wrote { Wrote (by_text cache.new) checked.now (W.contents out.old) (W.contents out.new)
        result }
{
    match offences_report(alloc, checked)? {
        Some(report) => write_offences(&report, checked, cache, out),
        None => Ok(()),
    }
}

/// Writes the report of the offences in these files.
fn write_offences<R: Files, W: Write>(
    report: &Report<'static, Piece<'_>>,
    checked: &[Checked<'_>],
    cache: &mut FileCache<&R>,
    out: &mut W,
) -> Result<(), Fault>
    requires found { AreOutcomes (by_text cache.old) checked.now }
    requires report { Some report.now ≡ report_of checked.now }
    ensures outcomes { AreOutcomes (by_text cache.new) checked.now }
    ensures wrote { Wrote (by_text cache.new) checked.now (W.contents out.old) (W.contents out.new)
        result }
{
    // (every file with an offence is held, so that no label is left out)
    match report.write(cache, out) {
        Ok(_) => Ok(()),
        Err(WriteError::Memory(refused)) => Err(Fault::Memory(refused)),
        Err(WriteError::Io { sent, fault: _ }) => Err(Fault::Writer { sent }),
    }
}

/// Whether each file was read.
fn are_read(checked: &[Checked<'_>]) -> bool
    ensures { result ≡ list_all (λ c. was_read c.outcome) checked.now }
{
    checked.iter().all(|it| it.outcome.was_read())
}

/// Whether a file has an offence.
fn have_offences(checked: &[Checked<'_>]) -> bool
    ensures { result ≡ list_any (λ c. offends c.outcome) checked.now }
{
    checked.iter().any(|it| it.outcome.offends())
}

/// The status that the files make.
fn status(checked: &[Checked<'_>]) -> Status
    ensures { result ≡ status_of checked.now }
{
    if !are_read(checked) {
        Status::BadInput
    } else if have_offences(checked) {
        Status::Findings
    } else {
        Status::Clean
    }
}
