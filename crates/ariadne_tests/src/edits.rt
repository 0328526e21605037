//! Suggestions: which lines change before and after, and which edits are refused.

ghost use Rattle.std.specs.Prelude.{◌<◌, ◌≤◌};

use crate::caches::owned;
use crate::comparing::{assert_is, assert_is_of};
use ariadne::{CharSet, IndexType, Source};
use ariadne_edits::{BadEdit, Edit, EditError, View, edited, suggestion};
use ariadne_testing::{refuse, was_refused};
use std::alloc::Global;
use std::process::Abort;

/// More than one suggestion takes.
const MOST_REQUESTS: usize = 1000;

/// An edit of a piece from a start to before an end.
type Piece = (usize, usize, &'static str);

/// Lines that are shown whole.
const WHOLE: View = View {
    tab_width: 4,
    width: 0,
    char_set: CharSet::Unicode,
};

/// A program.
const RUST: &str =
    "fn main() {\n    let names = vec![1];\n    let first = take(names);\n    print(names);\n}\n";

/// Sources, each with edits and what the help says.
const SHOWN: &[(&str, &[Piece], &str)] = &[
    (
        RUST,
        &[(58, 58, "&")],
        "3 -     let first = take(names);\n3 +     let first = take(&names);",
    ),
    // whole lines put in, in front of a line and behind the characters of one
    (RUST, &[(0, 0, "use std::mem;\n")], "1 + use std::mem;"),
    (RUST, &[(36, 36, "\n    let n = 1;")], "3 +     let n = 1;"),
    // a line removed, and a name replaced below it
    (
        RUST,
        &[(76, 81, "first"), (37, 66, "")],
        "3 -     let first = take(names);\n4 -     print(names);\n3 +     print(first);",
    ),
    // an edit that repeats what stands there is trimmed
    ("a\nb\nc\n", &[(0, 6, "a\nB\nc\n")], "2 - b\n2 + B"),
    // numbers and runs
    (
        "1\n2\n3\n4\n5\n6\n7\n8\n9\n10\n",
        &[(16, 17, "IX\nIXb"), (0, 1, "one")],
        " 1 - 1\n 1 + one\n...\n 9 - 9\n 9 + IX\n10 + IXb",
    ),
];

/// The same of places and ends of lines, and of what is hidden.
const SHOWN_AT_ENDS: &[(&str, &[Piece], &str)] = &[
    // two insertions at one place, and one in front of a replacement
    ("ab\n", &[(1, 1, "1"), (1, 1, "2")], "1 - ab\n1 + a12b"),
    ("ab\n", &[(1, 2, "X"), (1, 1, "2")], "1 - ab\n1 + a2X"),
    // the last line has no terminator
    ("a\nb", &[(3, 3, "\nc")], "3 + c"),
    ("a\nb", &[(1, 3, "")], "2 - b"),
    ("a\nb", &[(3, 3, "\n")], "2 - b\n2 + b\u{240a}"),
    // what ends a line, tabs, and what is hidden
    (
        "a\r\nb\r\n",
        &[(1, 2, "")],
        "1 - a\u{240d}\u{240a}\n1 + a\u{240a}",
    ),
    (
        "a\rb\rc",
        &[(2, 2, "\n")],
        "1 - a\u{240d}\n1 + a\u{240d}\u{240a}",
    ),
    ("\tx\u{2028}", &[(1, 2, "y\tz")], "1 -     x\n1 +     y   z"),
    ("a\n", &[(0, 1, "\u{1b}[31m")], "1 - a\n1 + \u{241b}[31m"),
    (
        "x = 1  \n",
        &[(5, 7, "")],
        "1 - x\u{b7}=\u{b7}1\u{b7}\u{b7}\u{240a}\n1 + x\u{b7}=\u{b7}1\u{240a}",
    ),
    // no line changes, or none is left
    ("a\nb\n", &[(0, 1, "a")], ""),
    ("a\n", &[(0, 2, "")], "1 - a\n1 + "),
];

/// The edits of pieces.
fn edits_of(rt: &(impl Abort + AllocGlobal), pieces: &[Piece]) -> Vec<Edit> {
    let mut edits = Vec::new(rt.alloc());
    for (start, end, text) in pieces {
        let text = owned(rt, *text);
        let edit = Edit {
            span: *start..*end,
            text,
        };
        edits.push(edit).expect(rt, "memory");
    }
    edits
}

/// A line with a call of many arguments.
const CALL: &str = "let total = sum_of(first, second, third);\n";

/// Sources and edits, with a width, the characters of the mark and what the help says.
const CUT: &[(&str, &[Piece], usize, CharSet, &str)] = &[
    // in front and behind
    (
        CALL,
        &[(26, 26, "&")],
        25,
        CharSet::Ascii,
        "1 - ...f(first, second, th...\n1 + ...f(first, &second, t...",
    ),
    (
        CALL,
        &[(26, 26, "&")],
        25,
        CharSet::Unicode,
        "1 - \u{2026}_of(first, second, thir\u{2026}\n1 + \u{2026}_of(first, &second, thi\u{2026}",
    ),
    // the first line alone would fit, and is cut as the other
    (
        CALL,
        &[(26, 26, "&")],
        41,
        CharSet::Ascii,
        "1 - ... = sum_of(first, second, third);\n1 + ... = sum_of(first, &second, third);",
    ),
    // both fit
    (
        CALL,
        &[(26, 26, "&")],
        42,
        CharSet::Ascii,
        "1 - let total = sum_of(first, second, third);\n1 + let total = sum_of(first, &second, third);",
    ),
];

/// The same of lines of which less is shown, and of other lines.
const CUT_SHORT: &[(&str, &[Piece], usize, CharSet, &str)] = &[
    // what is in common takes no more than half
    (
        CALL,
        &[(4, 9, "sum")],
        20,
        CharSet::Ascii,
        "1 - let total = sum_o...\n1 + let sum = sum_of(...",
    ),
    // a line without a counterpart
    (
        "a\nlet total = sum_of(first, second, third);\nb\n",
        &[(2, 44, "")],
        10,
        CharSet::Ascii,
        "2 - let tot...",
    ),
    // an accent goes with its letter, and a wide letter is shown whole
    (
        "abcde\u{301}fg = 1;;;;;;;\n",
        &[(11, 12, "2")],
        13,
        CharSet::Unicode,
        "1 - \u{2026}fg = 1;;;;;\u{2026}\n1 + \u{2026}fg = 2;;;;;\u{2026}",
    ),
    (
        "abcde\u{301}fg = 1;;;;;;;\n",
        &[(11, 12, "2")],
        14,
        CharSet::Unicode,
        "1 - \u{2026}e\u{301}fg = 1;;;;;\u{2026}\n1 + \u{2026}e\u{301}fg = 2;;;;;\u{2026}",
    ),
    (
        "let name = 漢字漢字漢字;\n",
        &[(15, 16, "x")],
        17,
        CharSet::Unicode,
        "1 - \u{2026}字漢字漢字;\n1 + \u{2026}字漢字x字;",
    ),
    // less than two marks take
    (
        CALL,
        &[(26, 26, "&")],
        1,
        CharSet::Unicode,
        "1 - \u{2026}\u{2026}\n1 + \u{2026}\u{2026}",
    ),
    (
        CALL,
        &[(26, 26, "&")],
        1,
        CharSet::Ascii,
        "1 - ......\n1 + ......",
    ),
];

/// What a help says of edits of a source, or an empty text where they are refused.
fn help_over(
    rt: &(impl Abort + AllocGlobal),
    source: &Source<&str>,
    counts: IndexType,
    pieces: &[Piece],
    view: View,
) -> String
    requires { 1 ≤ view.tab_width }
{
    let edits = edits_of(rt, pieces);
    match suggestion(rt.alloc(), source, counts, view, edits.as_slice()) {
        Ok(help) => help,
        Err(_) => String::new(rt.alloc()),
    }
}

/// What a help says of edits of a text, whose offsets count characters.
fn help_of(rt: &(impl Abort + AllocGlobal), text: &str, pieces: &[Piece], view: View) -> String
    requires { 1 ≤ view.tab_width }
{
    let source = Source::from(rt.alloc(), text).expect(rt, "memory");
    help_over(rt, &source, IndexType::Char, pieces, view)
}

/// Asserts what the help says of each source with its edits.
fn assert_each_shown(rt: &(impl Abort + AllocGlobal), table: &[(&str, &[Piece], &str)]) {
    for &(text, pieces, want) in table {
        let help = help_of(rt, text, pieces, WHOLE);
        assert_is_of(rt, text, help.as_str(), want)
    }
}

#[test]
fn lines_are_shown_before_and_after(rt: HostRuntime) {
    assert_each_shown(&rt, SHOWN);
    assert_each_shown(&rt, SHOWN_AT_ENDS)
}

/// Asserts what the help says of each source with its edits in a width.
fn assert_each_cut(
    rt: &(impl Abort + AllocGlobal),
    table: &[(&str, &[Piece], usize, CharSet, &str)],
) {
    for &(text, pieces, width, char_set, want) in table {
        let view = View {
            tab_width: 4,
            width,
            char_set,
        };
        let help = help_of(rt, text, pieces, view);
        assert_is_of(rt, text, help.as_str(), want)
    }
}

#[test]
fn lines_are_cut_around_their_first_difference(rt: HostRuntime) {
    assert_each_cut(&rt, CUT);
    assert_each_cut(&rt, CUT_SHORT)
}

/// A source of two lines, of which the first has the number 9.
fn offset_source(rt: &(impl Abort + AllocGlobal)) -> Source<&'static str> {
    let source = Source::from(rt.alloc(), "a\nb\n").expect(rt, "memory");
    assert!(rt; source.lines().len() < 9);
    source.with_display_line_offset(8)
}

#[test]
fn numbers_have_the_display_offset(rt: HostRuntime) {
    let source = offset_source(&rt);
    let pieces: &[Piece] = &[(0, 1, "A"), (2, 3, "B")];
    let help = help_over(&rt, &source, IndexType::Byte, pieces, WHOLE);
    assert_is(&rt, help.as_str(), " 9 - a\n10 - b\n 9 + A\n10 + B")
}

/// Texts and edits that are refused, by what their offsets count, and why.
const REFUSED: &[(&str, IndexType, &[Piece], BadEdit)] = &[
    (
        "abc",
        IndexType::Char,
        &[(0, 9, ""), (2, 1, "")],
        BadEdit::Reversed(1),
    ),
    (
        "abc",
        IndexType::Char,
        &[(1, 9, ""), (0, 2, "")],
        BadEdit::Overlaps(0),
    ),
    (
        "é",
        IndexType::Char,
        &[(0, 1, ""), (1, 2, "")],
        BadEdit::PastSource(1),
    ),
    (
        "é",
        IndexType::Byte,
        &[(0, 2, ""), (2, 3, "")],
        BadEdit::PastSource(1),
    ),
    (
        "é",
        IndexType::Byte,
        &[(1, 2, "")],
        BadEdit::CutsCharacter(0),
    ),
];

/// Why edits of a text are refused, where they are.
fn refusal(alloc: Global, text: &str, counts: IndexType, edits: &[Edit]) -> Option<BadEdit> {
    match edited(alloc, text, counts, edits) {
        Err(EditError::Refused(bad)) => Some(bad),
        _ => None,
    }
}

#[test]
fn faulty_edits_are_told_by_number(rt: HostRuntime) {
    for (text, counts, pieces, want) in REFUSED {
        let edits = edits_of(&rt, *pieces);
        let found = refusal(rt.alloc(), *text, *counts, edits.as_slice());
        assert_is_of(&rt, *text, found, Some(*want))
    }
}

/// Asserts that a suggestion tells whether its nth request for memory was refused. Returns whether
/// it was made.
fn is_made_without(rt: &(impl Abort + AllocGlobal), nth: usize) -> bool
    requires { nth < 100000 }
{
    let source = Source::from(rt.alloc(), "a\nb\n").expect(rt, "memory");
    let edits = edits_of(rt, &[(2, 3, "B"), (0, 1, " a")]);
    refuse(rt.alloc(), nth);
    let help = suggestion(
        rt.alloc(),
        &source,
        IndexType::Char,
        WHOLE,
        edits.as_slice(),
    );
    let is_refused = was_refused(rt.alloc());
    let is_memory = matches!(help, Err(EditError::Memory(_)));
    assert_is(rt, (nth, is_memory), (nth, is_refused));
    !is_refused
}

#[test]
fn a_refused_request_of_a_suggestion_is_its_error(rt: HostRuntime) {
    for nth in 1..MOST_REQUESTS {
        if is_made_without(&rt, nth) {
            return;
        }
    }
    panic!(rt; "every request was refused")
}
