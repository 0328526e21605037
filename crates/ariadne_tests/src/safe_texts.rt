//! Reports whose texts have what a terminal obeys, with memory and without. Their pictures were
//! reckoned by the model in `tools/`. One in colours is a stored case of `ariadne_replay`.

use crate::asserts::{Why, assert_left_out};
use crate::comparing::{assert_same, assert_text};
use crate::refused::{MOST_REQUESTS, assert_refused, refuse_at};
use crate::safe_example::tell;
use ariadne::{CharSet, Color, Config, IndexType, Label, LeftOut, Reason, ReportKind, WriteError};
use ariadne_safe::{
    LineEnds, NoSource, SafeBuilder, SafeKind, SafeReport, SafeSource, SafeSources,
};
use std::alloc::{AllocError, Global};
use std::ops::Range;
use std::process::Abort;

const TEXT: &str = "é\u{1b}[8m\u{202e}\r\nnext\u{b}();\n";

const PICTURE: &str = "[E␇] Hint: a␉b
   ,-[ g�.txt:1:3 ]
   |
 1 | é␛[8m�
   |   ^|^  
   |    `--- one␊two
   | 
   | Help: look␛
   |       below
   | 
   | Note: n␍m
---'
";

/// The picture of docs/SAFE.md.
const EXAMPLE: &str = "Error: exfiltrates keys
   ,-[ g.txt:1:1 ]
   |
 1 | ok();␛[3A␛[1G␛[J0 errors, 0 warnings␛[8m
   | ^|  
   |  `-- sends the key
---'
";

/// One source, whose lines are those that a compiler counts.
fn sources(alloc: Global) -> Result<SafeSources, AllocError> {
    let source = SafeSource::new(alloc, TEXT, LineEnds::LineFeeds)?.with_name("g\u{9b}.txt")?;
    let mut sources = SafeSources::new(alloc);
    sources.add(source)?;
    Ok(sources)
}

/// Plain ASCII, and offsets in bytes.
fn config() -> Config {
    Config::new()
        .with_color(false)
        .with_char_set(CharSet::Ascii)
        .with_index_type(IndexType::Byte)
}

/// A label of the source.
type FileLabel = Label<(usize, Range<usize>)>;

/// A label of the source: its start, its end, which is not before it, and what it says.
fn label(
    alloc: Global,
    (start, end, message): (usize, usize, &str),
) -> Result<FileLabel, AllocError> {
    Label::new((0, start..end.max(start))).with_message(alloc, message)
}

/// Two labels, of which the second cuts a character.
fn labels(alloc: Global) -> Result<(FileLabel, FileLabel), AllocError> {
    let whole = label(alloc, (3, 6, "one\ntwo"))?;
    Ok((whole, label(alloc, (1, 2, "cut"))?))
}

/// A report with a text of each other kind.
fn described(builder: SafeBuilder<'_>) -> Result<SafeBuilder<'_>, AllocError> {
    builder
        .with_code_text("E\u{7}")?
        .with_message("a\tb")?
        .with_help("look\u{1b}\nbelow")?
        .with_note("n\rm")
}

/// The report with these texts, whose first line just fits: ` 1 | é␛[8m�` has 5 columns in front of 6.
fn fitted(builder: SafeBuilder<'_>) -> Result<SafeBuilder<'_>, AllocError> {
    let width = 11 - builder.margin_columns()?.min(11);
    described(builder.with_width(width))
}

/// The report over the source.
fn report<'s>(
    alloc: Global,
    sources: &'s SafeSources,
    kind: SafeKind<'s>,
) -> Result<SafeReport<'s>, AllocError> {
    let (whole, cut) = labels(alloc)?;
    let builder = SafeBuilder::new(alloc, sources, kind, (0, 3..3), config());
    let builder = builder.with_label(whole)?.with_label(cut)?;
    Ok(fitted(builder)?.finish())
}

/// What a report sends, and the labels that it leaves out.
type Sent = (Vec<u8>, Vec<LeftOut<NoSource>>);

/// Writes a report, and returns the labels that it leaves out.
fn written(
    report: &SafeReport<'_>,
    out: &mut Vec<u8>,
) -> Result<Vec<LeftOut<NoSource>>, WriteError> {
    let _columns = report.margin_columns()?;
    report.write(out)
}

/// What is sent of a report.
fn sent(alloc: Global, report: SafeReport<'_>) -> Result<Sent, WriteError> {
    let mut out = Vec::new(alloc);
    let left_out = written(&report, &mut out)?;
    Ok((out, left_out))
}

/// What is sent of the report.
fn drawn(alloc: Global, kind: SafeKind<'static>) -> Result<Sent, WriteError> {
    let sources = sources(alloc)?;
    sent(alloc, report(alloc, &sources, kind)?)
}

/// What is sent of a kind and a message, and a label of a source that there isn't.
fn drawn_without_source(alloc: Global, kind: SafeKind<'static>) -> Result<Sent, WriteError> {
    let sources = SafeSources::new(alloc);
    let config = Config::new().with_color(false);
    let builder = SafeBuilder::new(alloc, &sources, kind, (0, 0..0), config)
        .with_message("m")?
        .with_label(Label::new((7, 0..1)))?;
    sent(alloc, builder.finish())
}

/// The kind of the report.
fn hint(rt: &impl Abort) -> SafeKind<'static> {
    SafeKind::new(ReportKind::Custom("Hint", Color::Red)).expect(rt, "a kind")
}

/// Asserts that what was sent is this.
fn assert_sent(rt: &impl Abort, sent: &[u8], want: &str) {
    assert_same(rt, &std::str::from_utf8(sent), &Ok(want))
}

#[test]
fn every_text_shows_signs_for_what_it_hides(rt: HostRuntime) {
    let (out, left_out) = drawn(rt.alloc(), hint(&rt)).expect(&rt, "memory");
    assert_sent(&rt, out.as_slice(), PICTURE);
    assert_left_out(&left_out, &[(1, Why::CutsCharacter)]).expect(&rt, "the label")
}

#[test]
fn the_example_of_the_page_shows_its_source(rt: HostRuntime) {
    let text = "ok();\u{1b}[3A\u{1b}[1G\u{1b}[J0 errors, 0 warnings\u{1b}[8m\n";
    let mut out = Vec::new(rt.alloc());
    tell(rt.alloc(), "g.txt", text, &mut out).expect(&rt, "a picture");
    assert_sent(&rt, out.as_slice(), EXAMPLE)
}

/// The sources with one more, and its number.
fn two_sources(alloc: Global) -> Result<(SafeSources, usize), AllocError> {
    let mut sources = sources(alloc)?;
    let number = sources.add(SafeSource::new(alloc, "a\tb", LineEnds::All)?)?;
    Ok((sources, number))
}

/// Asserts that a source has this name, if it has one, and this text.
fn assert_source(rt: &impl Abort, source: Option<&SafeSource>, name: Option<&str>, text: &str) {
    let source = source.expect(rt, "a source");
    assert_same(rt, &(source.name(), source.source().text()), &(name, text))
}

#[test]
fn a_source_is_had_by_its_number(rt: HostRuntime) {
    let (sources, number) = two_sources(rt.alloc()).expect(&rt, "memory");
    let (count, has_third) = (sources.len(), sources.get(2).is_some());
    assert_same(&rt, &(number, count, has_third), &(1, 2, false));
    let text = "é␛[8m\u{fffd}\r\nnext␋();\n";
    assert_source(&rt, sources.get(0), Some("g\u{fffd}.txt"), text);
    assert_source(&rt, sources.get(1), None, "a\tb")
}

/// Offsets in bytes of the text, each with where it is in the shown one.
const OFFSETS: &[(usize, usize)] = &[
    (0, 0),
    (1, 1), // inside é
    (2, 2), // before ESC, whose symbol has three bytes
    (3, 5), // behind it
    (7, 9), // inside U+202E
    (20, 24), // at the end
    (21, 25), // one past it
    (30, 26), // farther past it
];

/// Asserts where an offset of a source is shown. One that is given in characters stays.
fn assert_offset(rt: &impl Abort, source: &SafeSource, given: usize, want: usize) {
    let in_bytes = source.shown_offset(IndexType::Byte, given);
    let in_characters = source.shown_offset(IndexType::Char, given);
    assert_same(rt, &(in_bytes, in_characters), &(want, given))
}

#[test]
fn an_offset_in_bytes_is_found_in_the_shown_text(rt: HostRuntime) {
    let source = SafeSource::new(rt.alloc(), TEXT, LineEnds::LineFeeds).expect(&rt, "memory");
    for (given, want) in OFFSETS {
        assert_offset(&rt, &source, *given, *want);
    }
}

/// Whether one label is left out, since no source has the number 7.
fn is_lost(left_out: &[LeftOut<NoSource>]) -> bool {
    left_out.len() == 1
        && matches!(
            left_out[0].reason,
            Reason::Unfetched(NoSource { number: 7 })
        )
}

/// Asserts that of a report of a kind this is sent, and that its label is left out.
fn assert_without_source(rt: &(impl Abort + AllocGlobal), kind: SafeKind<'static>, want: &str) {
    let (out, left_out) = drawn_without_source(rt.alloc(), kind).expect(rt, "memory");
    assert_sent(rt, out.as_slice(), want);
    assert_same(rt, &is_lost(&left_out), &true)
}

#[test]
fn a_label_of_a_number_without_source_is_left_out(rt: HostRuntime) {
    assert_without_source(&rt, SafeKind::error(), "Error: m\n");
    assert_without_source(&rt, SafeKind::warning(), "Warning: m\n");
    assert_without_source(&rt, SafeKind::advice(), "Advice: m\n");
    let text = NoSource { number: 7 }.to_string(rt.alloc());
    assert_text(&rt, text, "no source has the number 7")
}

#[test]
fn a_kind_that_hides_something_is_none(rt: HostRuntime) {
    let hiding = SafeKind::new(ReportKind::Custom("Hint\u{200d}", Color::Red)).is_some();
    let advice = SafeKind::new(ReportKind::Advice).is_some();
    assert_same(&rt, &(hiding, advice), &(false, true))
}

/// Refuses the nth request of the report. Else its picture is sent.
fn try_report(rt: &(impl Abort + AllocGlobal), nth: u16) -> bool {
    let kind = hint(rt);
    refuse_at(rt, nth);
    let drawn = drawn(rt.alloc(), kind);
    let is_refused = assert_refused(rt, ("a safe report", nth), drawn.is_err());
    if let Ok((out, _left_out)) = drawn {
        assert_sent(rt, out.as_slice(), PICTURE);
    }
    is_refused
}

#[test]
fn a_refused_request_of_a_safe_report_is_its_error(rt: HostRuntime) {
    for nth in 1..MOST_REQUESTS {
        if !try_report(&rt, nth) {
            return;
        }
    }
    panic!(rt; "every request was refused")
}
