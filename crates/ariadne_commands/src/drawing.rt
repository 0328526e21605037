//! The program over the streams that it is handed: words in, a report and a status out.

ghost use Rattle.std.specs.Prelude.{◌≡◌, ◌++◌, [], ◌∷◌, None, false, IfErr, IfNone, IfOk, IfSome};
ghost use Rattle.std.specs.Prelude.{◌≢◌, ◌⊎◌, alloc_error, map, string_bytes, true};
ghost use Rattle.std.specs.IoError.{error_kind};
ghost use Rattle.std.specs.Str.{IsUtf8};
ghost use Rattle.ariadne.specs.Cache.{Grows, KeepsOtherIds};
ghost use Rattle.ariadne_commands.specs.ReadWords.{asking, label_asking, options_asking};
ghost use Rattle.ariadne_commands.specs.Drawn.{colored, config_of, own_span, reads_input, report_of};
ghost use Rattle.ariadne_commands.specs.Drawn.{sources, Ended, EndedOver, Leaves, OverFile};
ghost use Rattle.ariadne_commands.specs.Faults.{IsFaultOfInput, reason_text, status_of_written};
ghost use Rattle.ariadne_commands.specs.HelpPages.{IsShown, page_asked, page_text};
ghost use Rattle.ariadne_commands.specs.Watching.{has_failed, reader_of};
ghost use Rattle.ariadne_commands.specs.Words.{asking_of};
ghost use Rattle.ariadne_commands.specs.declared.fault.Fault.TheVariants.{Memory, Unread};

use super::asked::{Request, RequestedLabel, RequestedOptions};
use super::fault::{Fault, Status, tell_fault};
use super::pages::{asked_page, show};
use super::watched::Watched;
use super::words::read_words;
use ariadne::{
    Cache, CharSet, Color, ColorGenerator, Config, FileCache, IndexType, Label, LeftOut, Reason,
    Report, ReportBuilder, ReportKind, Source, WriteError,
};
use std::alloc::{AllocError, Global};
use std::io;
use std::io::{ErrorKind, Read, Write};
use std::ops::Range;
use std::rt::Files;

/// Draws the report that `words` ask for over the text of `input`, or over the file in `files` that
/// they name, and returns how the program ends.
///
/// The words are those of the command line without the program's name. They are judged first, then
/// the input is read, if no file is named, then the report is written to `out`. At last `faults`
/// gets a line for each label that was left out, or the one line that says why nothing could be
/// drawn. A failure of `faults` is passed over. What `out` got is told by the status. Words that ask for a
/// report are refused only where a read of the input has failed, or what it gave is no text.
///
/// Where the only word is `--help` or `--version` nothing is drawn or read: `out` gets that text.
pub fn draw<R: Files, I: Read, W: Write, F: Write>(
    files: &R,
    alloc: Global,
    words: &[String],
    input: &mut Watched<I>,
    out: &mut W,
    faults: &mut F,
) -> Status
    ensures page { IfSome (page_asked (map string_bytes words.now)) (λ page.
        IsShown (page_text page) (W.contents out.old) (W.contents out.new) result) }
    ensures ended { IfNone (page_asked (map string_bytes words.now))
        (Ended (asking_of (map string_bytes words.now)) (has_failed input.new)
        (I.remaining (reader_of input.old)) (W.contents out.old) (W.contents out.new) result) }
    ensures unread { reads_input (asking_of (map string_bytes words.now)) ≡ false
        → input.new ≡ input.old }
{
    match asked_page(words) {
        Some(page) => show(page, out, faults),
        None => draw_report(files, alloc, words, input, out, faults),
    }
}

/// Draws the report that `words` ask for, whatever page they may name.
fn draw_report<R: Files, I: Read, W: Write, F: Write>(
    files: &R,
    alloc: Global,
    words: &[String],
    input: &mut Watched<I>,
    out: &mut W,
    faults: &mut F,
) -> Status
    ensures ended { Ended (asking_of (map string_bytes words.now)) (has_failed input.new)
        (I.remaining (reader_of input.old)) (W.contents out.old) (W.contents out.new) result }
    ensures unread { reads_input (asking_of (map string_bytes words.now)) ≡ false
        → input.new ≡ input.old }
{
    let asked = match read_words(alloc, words) {
        Ok(asked) => asked,
        Err(fault) => return tell_fault(faults, &fault),
    };
    match asked.options.path {
        Some(path) => draw_file(files, alloc, &asked, path, out, faults),
        None => draw_input(alloc, &asked, input, out, faults),
    }
}

/// Draws the report that is asked for over the file at a path.
fn draw_file<R: Files, W: Write, F: Write>(
    files: &R,
    alloc: Global,
    asked: &Request<'_>,
    path: &str,
    out: &mut W,
    faults: &mut F,
) -> Status
    ensures { OverFile (asking asked.now) path.now (W.contents out.old) (W.contents out.new)
        result }
{
    let mut cache = FileCache::new(files, alloc);
    draw_over(alloc, asked, path, &mut cache, out, faults)
}

/// Draws the report that is asked for over the text of `input`.
fn draw_input<I: Read, W: Write, F: Write>(
    alloc: Global,
    asked: &Request<'_>,
    input: &mut Watched<I>,
    out: &mut W,
    faults: &mut F,
) -> Status
    ensures { EndedOver None (asking asked.now) (has_failed input.new)
        (I.remaining (reader_of input.old)) (W.contents out.old) (W.contents out.new) result }
{
    match read_source(alloc, input) {
        Ok(mut source) => draw_over(alloc, asked, (), &mut source, out, faults),
        Err(fault) => tell_fault(faults, &fault),
    }
}

/// The text of a reader, to its end, as a source.
fn read_source<I: Read>(alloc: Global, input: &mut Watched<I>) -> Result<Source<String>, Fault>
    ensures read { IfOk result (λ source. IfSome (I.remaining (reader_of input.old))
        (λ bytes. source.text ≡ bytes)) }
    ensures text { IfOk result (λ source. IsUtf8 source.text) }
    ensures lines { IfOk result (λ source. source.display_offset ≡ 0) }
    ensures refused { IfErr result
        (IsFaultOfInput (has_failed input.new) (I.remaining (reader_of input.old))) }
{
    let mut bytes = Vec::new(alloc);
    if let Err(error) = input.read_to_end(&mut bytes) {
        return Err(reading_fault(&error, input.has_failed()));
    }
    match String::from_utf8(bytes) {
        Ok(text) => Ok(Source::from(alloc, text)?),
        Err(_) => Err(Fault::NotUtf8),
    }
}

/// What an error of reading to the end means: want of memory, unless a read has failed.
fn reading_fault(error: &io::Error, has_failed: bool) -> Fault
    ensures unread { error_kind error.now ≢ ErrorKind.OutOfMemory → has_failed ≡ true
        → result ≡ Unread }
    ensures refused { ((result ≡ Unread) × (has_failed ≡ true)) ⊎ (result ≡ Memory alloc_error) }
{
    if has_failed {
        Fault::of_error(error, Fault::Unread)
    } else {
        // (or std gave up after 2^64 reads)
        Fault::Memory(AllocError)
    }
}

/// Draws the report that is asked for over the source with this id in a cache, tells what could not
/// be drawn, and returns how the program ends.
fn draw_over<Id: Eq + Copy, C: Cache<Id>, W: Write, F: Write>(
    alloc: Global,
    asked: &Request<'_>,
    id: Id,
    cache: &mut C,
    out: &mut W,
    faults: &mut F,
) -> Status
    requires { C.can_fetch cache.old }
    ensures kept { Grows Id.eq (C.contents cache.old) (C.contents cache.new) }
    ensures others { KeepsOtherIds Id.eq id (C.contents cache.old) (C.contents cache.new) }
    ensures left { Leaves C.fails (sources Id.eq (C.names cache.old) (C.contents cache.old))
        (sources Id.eq (C.names cache.new) (C.contents cache.new)) (report_of id (asking asked.now))
        (W.contents out.old) (W.contents out.new) result }
{
    match asked_report(alloc, asked, id) {
        Ok(report) => tell_written(faults, report.write(cache, out)),
        Err(refused) => tell_fault(faults, &Fault::Memory(refused)),
    }
}

/// Tells what the writing of a report could not draw, and returns how the program ends.
fn tell_written<E: Drop, F: Write>(
    faults: &mut F,
    written: Result<Vec<LeftOut<E>>, WriteError>,
) -> Status
    ensures { result ≡ status_of_written written }
{
    match written {
        Ok(left_out) if left_out.is_empty() => Status::Clean,
        Ok(left_out) => {
            tell_left_out(faults, left_out.as_slice());
            Status::Findings
        }
        Err(error) => tell_fault(faults, &Fault::from(error)),
    }
}

/// The report that is asked for, over the source with this id.
fn asked_report<Id: Eq + Copy>(
    alloc: Global,
    asked: &Request<'_>,
    id: Id,
) -> Result<Report<'static, (Id, Range<usize>)>, AllocError>
    ensures { IfOk result (λ report. report ≡ report_of id (asking asked.now)) }
{
    let mut builder = report_without_labels(alloc, asked, id)?;
    let mut colors = ColorGenerator::new();
    for label in &asked.labels {
        builder = with_asked_label(alloc, builder, label, id, colors.next())?;
    }
    Ok(builder.finish())
}

/// The report that is asked for, before it gets its labels.
fn report_without_labels<Id: Eq + Copy>(
    alloc: Global,
    asked: &Request<'_>,
    id: Id,
) -> Result<ReportBuilder<'static, (Id, Range<usize>)>, AllocError>
    ensures { IfOk result (λ report. report ≡ record (report_of id (asking asked.now))
        { labels = [] }) }
{
    Report::build(alloc, ReportKind::Error, asked_span(asked, id))
        .with_config(asked_config(&asked.options))
        .with_message(asked.message)
}

/// The report with a label more, in the source with this id and in this colour.
fn with_asked_label<Id: Eq + Copy>(
    alloc: Global,
    builder: ReportBuilder<'static, (Id, Range<usize>)>,
    label: &RequestedLabel<'_>,
    id: Id,
    color: Color,
) -> Result<ReportBuilder<'static, (Id, Range<usize>)>, AllocError>
    ensures { IfOk result (λ report. report ≡ record builder.entry
        { labels = builder.entry.labels ++ colored id color (label_asking label.now) ∷ [] }) }
{
    let place = label.place;
    let drawn = Label::new((id, place.start..place.end))
        .with_message(alloc, label.text)?
        .with_color(color);
    builder.with_label(drawn)
}

/// What the report that is asked for points at, in the source with this id.
fn asked_span<Id: Copy>(asked: &Request<'_>, id: Id) -> (Id, Range<usize>)
    ensures { result ≡ own_span id (asking asked.now).labels }
{
    match asked.labels.first() {
        Some(label) => (id, label.place.start..label.place.end),
        None => (id, 0..0),
    }
}

/// The configuration that the options ask for.
fn asked_config(options: &RequestedOptions<'_>) -> Config
    ensures { result ≡ config_of (options_asking options.now) }
{
    Config::new()
        .with_char_set(asked_char_set(options))
        .with_color(!options.is_plain)
        .with_compact(options.is_compact)
        .with_index_type(asked_index_type(options))
}

/// The characters that the options ask for.
fn asked_char_set(options: &RequestedOptions<'_>) -> CharSet
    ensures { result ≡ (config_of (options_asking options.now)).char_set }
{
    if options.is_ascii {
        CharSet::Ascii
    } else {
        CharSet::Unicode
    }
}

/// What the options ask offsets to count.
fn asked_index_type(options: &RequestedOptions<'_>) -> IndexType
    ensures { result ≡ (config_of (options_asking options.now)).index_type }
{
    if options.is_bytes {
        IndexType::Byte
    } else {
        IndexType::Char
    }
}

/// Writes a line to `faults` for each label that was left out, by its number from 1.
fn tell_left_out<E, F: Write>(faults: &mut F, left_out: &[LeftOut<E>]) {
    for it in left_out {
        let number = it.label.saturating_add(1);
        let reason = reason_text(&it.reason);
        let _ = writeln!(faults, "label {number}: {reason}");
    }
}

/// Why a label was left out, as a line of `faults` tells it.
fn reason_text<E>(reason: &Reason<E>) -> &'static str
    ensures { result.now ≡ reason_text reason.now }
{
    match reason {
        Reason::Unfetched(_) => "unfetched",
        Reason::PastSource => "past source",
        Reason::CutsCharacter => "cuts a character",
    }
}
