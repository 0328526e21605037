//! The lines of texts, look-ups in them, and spans.

use crate::comparing::{assert_is, assert_same};
use ariadne::{Line, Place, Source, SourceLines, SourceText, Span};
use std::hash::{DefaultHasher, Hash, Hasher};
use std::ops::Range;
use std::process::Abort;
use std::rc::RcStr;

/// A source of a text.
fn source<I: SourceText + Drop>(rt: &(impl Abort + AllocGlobal), text: I) -> Source<I> {
    Source::from(rt.alloc(), text).expect(rt, "memory")
}

/// The offset of a line of a source, its length, and its text.
fn told_in<I: SourceText>(source: &Source<I>, line: Line) -> (usize, usize, Option<&str>) {
    (line.offset(), line.len(), source.get_line_text(line))
}

/// Asserts that there is a line, that it stands at an offset of its source, and is this. Returns the
/// offset behind it.
fn assert_line<I: SourceText>(
    rt: &impl Abort,
    source: &Source<I>,
    line: Option<Line>,
    offset: usize,
    want: &str,
) -> usize {
    let line = line.expect(rt, "a line");
    let len = want.chars().count();
    assert_is(rt, told_in(source, line), (offset, len, Some(want)));
    offset.saturating_add(len)
}

/// Asserts that the first lines of a source are these, each behind those before it. Returns the offset
/// behind them.
fn assert_first_lines<I: SourceText>(rt: &impl Abort, source: &Source<I>, lines: &[&str]) -> usize {
    let mut offset = 0usize;
    let mut found = source.lines();
    for (number, want) in lines.iter().enumerate() {
        let line = found.next();
        assert_same(rt, &source.line(number), &line);
        offset = assert_line(rt, source, line, offset, *want);
    }
    offset
}

/// Asserts that the lines of a source are these, each behind those before it, and no other.
fn assert_lines_of<I: SourceText>(rt: &impl Abort, source: &Source<I>, lines: &[&str]) {
    let len = assert_first_lines(rt, source, lines);
    let past = source.line(lines.len());
    assert_is(
        rt,
        (source.lines().len(), source.len(), past),
        (lines.len(), len, None),
    )
}

/// The text of these lines.
fn joined(rt: &(impl Abort + AllocGlobal), lines: &[&str]) -> String {
    lines.concat(rt.alloc()).expect(rt, "memory")
}

/// The lines of texts.
const LINES: &[&[&str]] = &[
    &[""],
    &["Single line"],
    &["Single line with LF\n"],
    &["Single line with CRLF\r\n"],
    &["Two\r\n", "lines\n"],
    &["Some\n", "more\r\n", "lines"],
    &["\n", "\r\n", "\n", "Empty Lines"],
    &["Trailing spaces  \n", "are kept\t"],
    &[
        "xa line of some sixty characters that ends just before its next.Àa line of some sixty characters that ends just before its next.ab",
    ],
    &["\n", "\r"],
    &[
        "CR\r",
        "VT\u{b}",
        "FF\u{c}",
        "NEL\u{85}",
        "LS\u{2028}",
        "PS\u{2029}",
    ],
];

#[test]
fn seven_characters_end_a_line_and_cr_lf_ends_one(rt: HostRuntime) {
    for lines in LINES {
        assert_lines_of(&rt, &source(&rt, joined(&rt, *lines)), *lines);
    }
}

/// 63 characters, in as many bytes.
const LONG: &str = "a line of some sixty characters that ends just before its next.";

/// The length of the line of a number, where there is one.
fn len_of<I: SourceText>(source: &Source<I>, number: usize) -> Option<usize> {
    Some(source.line(number)?.len())
}

/// A source with a separator behind a long text and a short one, behind a character, and alone.
fn separated(rt: &(impl Abort + AllocGlobal), fill: &str, separator: &str) -> Source<String> {
    let lines = [LONG, fill, separator, "é", separator, separator, LONG];
    source(rt, joined(rt, &lines))
}

/// The lengths of the lines of this source, by the lengths of the short text and of the separator.
fn separated_lens(fill: usize, separator: usize) -> [Option<usize>; 4] {
    [
        Some(fill.saturating_add(separator).saturating_add(63)),
        Some(separator.saturating_add(1)),
        Some(separator),
        Some(63),
    ]
}

/// The lengths of the first four lines.
fn first_lens(source: &Source<String>) -> [Option<usize>; 4] {
    [
        len_of(source, 0),
        len_of(source, 1),
        len_of(source, 2),
        len_of(source, 3),
    ]
}

/// Asserts that a separator ends its line behind a long text and a short one, and stands in a line
/// of its own.
fn assert_ended(rt: &(impl Abort + AllocGlobal), fill: &str, separator: &str) {
    let source = separated(rt, fill, separator);
    let found = (separator, fill, first_lens(&source), source.lines().len());
    let want = separated_lens(fill.chars().count(), separator.chars().count());
    assert_is(rt, found, (separator, fill, want, 4))
}

/// What ends a line.
const SEPARATORS: &[&str] = &[
    "\n", "\u{b}", "\u{c}", "\r", "\r\n", "\u{85}", "\u{2028}", "\u{2029}",
];

/// What stands in front of it.
const FILLS: &[&str] = &["", "b", "bc", "bcd", "é", "漢"];

#[test]
fn a_separator_ends_a_line_wherever_it_stands(rt: HostRuntime) {
    for separator in SEPARATORS {
        for fill in FILLS {
            assert_ended(&rt, *fill, *separator);
        }
    }
}

/// The offset of a line, its length, whether it is empty, and its characters.
fn told_of_line(line: Line) -> (usize, usize, bool, Range<usize>) {
    (line.offset(), line.len(), line.is_empty(), line.span())
}

/// Asserts how many lines are still to come.
fn assert_rest(rt: &impl Abort, lines: &SourceLines<'_>, count: usize) {
    let told = (lines.len(), lines.size_hint());
    assert_is(rt, told, (count, (count, Some(count))))
}

/// Asserts that these are two lines, and where and how long each is.
fn assert_two_lines(rt: &impl Abort, lines: &mut SourceLines<'_>) {
    assert_rest(rt, lines, 2);
    let first = lines.next().map(told_of_line);
    assert_is(rt, first, Some((0, 4, false, 0..4)));
    let second = lines.next().map(told_of_line);
    assert_is(rt, second, Some((4, 1, false, 4..5)));
    assert_rest(rt, lines, 0)
}

#[test]
fn a_line_tells_where_it_is_and_how_long(rt: HostRuntime) {
    let source = source(&rt, "\u{e9}b\r\nc");
    assert_is(&rt, (source.len(), source.is_empty()), (5, false));
    assert_two_lines(&rt, &mut source.lines())
}

/// A place in a source: a line, its number and a column in it.
type Spot = (Line, usize, usize);

/// The place of a column in the line of a number, where there is one.
fn spot_in<I: SourceText>(source: &Source<I>, number: usize, column: usize) -> Option<Spot> {
    let line = source.line(number)?;
    Some((line, number, column))
}

/// Offsets in characters, each with the number of its line and the column in it.
const OFFSETS: &[(usize, usize, usize)] = &[
    (0, 0, 0),
    (1, 1, 0),
    (2, 1, 1),
    (3, 2, 0),
    (4, 3, 0),
    (15, 3, 11),
];

/// Asserts where these offsets lie in a source.
fn assert_offsets<I: SourceText>(rt: &impl Abort, source: &Source<I>) {
    for &(offset, number, column) in OFFSETS {
        let want = spot_in(source, number, column);
        assert_is(rt, source.get_offset_line(offset), want);
    }
}

#[test]
fn an_offset_lies_in_the_last_line_that_begins_before_it(rt: HostRuntime) {
    let source = source(&rt, "\n\r\n\nEmpty Lines");
    assert_offsets(&rt, &source);
    assert_is(&rt, (source.len(), source.get_offset_line(16)), (15, None))
}

/// The starts and the ends of spans, each with the numbers of its lines, the last exclusive.
const RANGES: &[(usize, usize, Range<usize>)] = &[
    (20, 30, 0..4),
    (0, 0, 0..1),
    (5, 2, 3..4),
    (0, 2, 0..2),
    (3, 16, 2..4),
];

#[test]
fn a_span_lies_in_the_lines_of_its_characters(rt: HostRuntime) {
    let source = source(&rt, "\n\r\n\nEmpty Lines");
    for (start, end, lines) in RANGES {
        assert_same(&rt, &source.get_line_range(&(*start..*end)), lines);
    }
}

/// Offsets in bytes, each with the number of its line and the column in it.
const BYTES: &[(usize, usize, usize)] = &[(0, 0, 0), (1, 0, 1), (2, 0, 2), (3, 1, 0), (4, 1, 1)];

/// Asserts where these bytes lie in a source.
fn assert_bytes<I: SourceText>(rt: &impl Abort, source: &Source<I>) {
    for &(offset, number, column) in BYTES {
        let want = spot_in(source, number, column);
        assert_is(rt, source.get_byte_line(offset), want);
    }
}

/// Asserts that a source of `é` and of `b` below it counts both as one character.
fn assert_chars<I: SourceText>(rt: &impl Abort, source: &Source<I>) {
    let are_same = source.chars().eq("\u{e9}\nb".chars());
    assert_is(rt, (source.len(), are_same), (3, true));
    let (last, past) = (source.get_offset_line(2), source.get_offset_line(4));
    assert_is(rt, (last, past), (spot_in(source, 1, 0), None))
}

#[test]
fn bytes_are_not_taken_for_characters(rt: HostRuntime) {
    let source = source(&rt, "\u{e9}\nb");
    assert_chars(&rt, &source);
    assert_bytes(&rt, &source);
    assert_is(&rt, source.get_byte_line(5), None)
}

/// Asserts that a source of a text has no text for a line of another source.
fn assert_no_text(rt: &(impl Abort + AllocGlobal), text: &str, line: Line) {
    assert_is(rt, source(rt, text).get_line_text(line), None)
}

#[test]
fn a_line_has_no_text_where_its_bytes_are_none_of_the_source(rt: HostRuntime) {
    let line = source(&rt, "abcde").line(0).expect(&rt, "a line");
    assert_no_text(&rt, "ab", line);
    assert_no_text(&rt, "abcd\u{e9}", line)
}

/// The hash of a source.
fn hash_of<I: SourceText>(source: &Source<I>) -> u64 {
    let mut state = DefaultHasher::new();
    source.hash(&mut state);
    state.finish()
}

/// The same source with the numbers of its lines moved by so many.
fn renumbered(rt: &impl Abort, source: Source<String>, offset: usize) -> Source<String> {
    assert!(rt; source.lines().len() <= usize::MAX - offset);
    source.with_display_line_offset(offset)
}

/// Asserts that a copy of a source has its text and its offset, and equals it.
fn assert_copied(rt: &impl Abort, copy: &Source<String>, source: &Source<String>) {
    let told = (copy.text(), copy.display_line_offset());
    assert_is(rt, told, ("a\nb", 98));
    assert_same(rt, copy, source);
    assert_is(rt, hash_of(copy), hash_of(source))
}

#[test]
fn a_copy_equals_its_source_in_text_and_offset(rt: HostRuntime) {
    let source = renumbered(&rt, source(&rt, joined(&rt, &["a\nb"])), 98);
    let copy = source.clone().expect(&rt, "memory");
    assert_copied(&rt, &copy, &source);
    assert_is(&rt, renumbered(&rt, copy, 0) == source, false)
}

/// Whether a copy of a source equals it.
fn is_copied(rt: &impl Abort, source: &Source<&str>) -> bool {
    source.clone().expect(rt, "memory") == *source
}

#[test]
fn sources_of_other_texts_are_others(rt: HostRuntime) {
    let source = source(&rt, "a\nb");
    let other = Source::from(source.memory(), "a\nc").expect(&rt, "memory");
    let are_same = (other == source, is_copied(&rt, &source));
    assert_is(&rt, are_same, (false, true))
}

/// A text of four lines.
const FOUR: &[&str] = &[
    "A text\n",
    "    of four lines\n",
    "    that some\n",
    "    may share",
];

#[test]
fn a_text_may_be_shared(rt: HostRuntime) {
    let text = RcStr::from_str(rt.alloc(), joined(&rt, FOUR).as_str()).expect(&rt, "memory");
    let source = source(&rt, text);
    assert_lines_of(&rt, &source, FOUR);
    let copy = source.clone().expect(&rt, "memory");
    assert_is(&rt, copy.text(), source.text())
}

#[test]
fn a_text_may_be_lent(rt: HostRuntime) {
    let text = joined(&rt, FOUR);
    assert_lines_of(&rt, &source(&rt, text.as_str()), FOUR)
}

/// The start of a span, its end, its length, and whether it is empty.
fn told_of<S: Span>(span: &S) -> (usize, usize, usize, bool) {
    (span.start(), span.end(), span.len(), span.is_empty())
}

/// The starts and the ends of ranges, each with its length.
const HALF_OPEN: &[(usize, usize, usize)] = &[
    (2, 5, 3),
    (3, 3, 0),
    (5, 2, 0),
    (0, usize::MAX, usize::MAX),
];

#[test]
fn half_open_ranges_end_before_their_end(rt: HostRuntime) {
    for (start, end, len) in HALF_OPEN {
        let want = (*start, *end, *len, *len == 0);
        assert_is(&rt, told_of(&(*start..*end)), want);
        assert_is(&rt, told_of(&("a", *start..*end)), want)
    }
}

/// The starts and the last offsets of ranges, each with its end and its length.
const INCLUSIVE: &[(usize, usize, usize, usize)] = &[
    (0, 4, 5, 5),
    (0, usize::MAX, usize::MAX, usize::MAX), // there is no offset past it
    (3, 2, 3, 0),
    (5, 2, 3, 0),
];

#[test]
fn inclusive_ranges_end_one_past_their_last_offset(rt: HostRuntime) {
    for (start, last, end, len) in INCLUSIVE {
        let want = (*start, *end, *len, *len == 0);
        assert_is(&rt, told_of(&(*start..=*last)), want);
        assert_is(&rt, told_of(&(7u8, *start..=*last)), want)
    }
}

#[test]
fn a_place_never_runs_backwards(rt: HostRuntime) {
    assert_is(&rt, Place::new(3, 2), None);
    let place = Place::new(2, 5).expect(&rt, "a place");
    assert_is(&rt, told_of(&place), (2, 5, 3, false));
    assert_is(&rt, told_of(&("a", Place::at(3))), (3, 3, 0, true));
    assert_is(&rt, Place::at(5).to(Place::at(2)), place);
    assert_is(&rt, place.to(Place::at(3)), place)
}

/// Offsets, each with whether a span from 2 on that ends before 5 holds it.
const HELD: &[(usize, bool)] = &[(1, false), (2, true), (4, true), (5, false)];

/// Whether spans of each kind from 2 on that end before 5 hold an offset, and one that is reversed.
fn are_held(offset: usize) -> (bool, bool, bool) {
    (
        Span::contains(&(2..5), offset),
        ("a", 2..=4).contains(offset),
        Span::contains(&(5..2), offset),
    )
}

#[test]
fn a_span_has_a_source_and_holds_its_start_and_not_its_end(rt: HostRuntime) {
    assert_is(&rt, *("a", 2..5).source(), "a");
    assert_is(&rt, *(7u8, 2..=4).source(), 7);
    assert_is(&rt, *Span::source(&(2..5)), ());
    for &(offset, is_held) in HELD {
        let want = (offset, (is_held, is_held, false));
        assert_is(&rt, (offset, are_held(offset)), want)
    }
}
