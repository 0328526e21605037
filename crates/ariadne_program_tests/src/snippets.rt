//! Lines of snippets as gcc, clang and others write them, and beside each what is to be learned of it.

use crate::learned::{Rows, assert_each_learned, assert_learned};
use std::process::Abort;

/// A file of C.
const C: &[&str] = &[
    "#include <string.h>",
    "struct point { int colour; int y; };",
    "int\tf(struct point *p, int n)",
    "{",
    "\tint x = p->color + n;",
    "    char *s = \"漢字\" + n * p;",
    "\tif (n = 3) return x\t+ s;",
    "    printf(\"%s %d\\n\", n, \"é\");",
    "    return strlen(n) + undeclared;",
];

/// Rows of gcc with ranges, labels and fixes.
const GCC: &[Rows] = &[
    Rows {
        file: C,
        line: 5,
        caret: Some(19),
        text: r"
    5 |         int x = p->color + n;
      |                    ^~~~~
=> 5:12..17^
      |                    colour
=> put 5:12 `colour`
a.c:6:26: error: invalid operands
=> no
",
    },
    Rows {
        file: C,
        line: 7,
        caret: Some(21),
        text: r"
    7 |         if (n = 3) return x     + s;
      |                           ~~~~~~^~~
=> 7:19..24^
",
    },
    Rows {
        file: C,
        line: 8,
        caret: Some(13),
        text: r#"
    8 |     printf("%s %d\n", n, "é");
      |             ~^        ~
=> 8:12..14^ 8:22..23
      |              |        |
      |              char *   int
=> 0=char * 1=int
      |             %d
=> put 8:12 `%d`
"#,
    },
    Rows {
        file: C,
        line: 2,
        caret: Some(0),
        text: r"
    1 | #include <string.h>
  +++ |+#include <stdio.h>
=> line 2:0 `#include <stdio.h>`
    2 | struct point { int colour; int y; };
",
    },
];

#[test]
fn ranges_labels_and_fixes_of_gcc(rt: HostRuntime) {
    assert_each_learned(&rt, GCC)
}

#[test]
fn labels_over_lines_of_gcc(rt: HostRuntime) {
    let file = [
        "void f() {",
        "  int z = (y +",
        "     x) * 2 +",
        "       5--;",
    ];
    assert_learned(
        &rt,
        &file,
        2,
        Some(13),
        "
    2 |   int z = (y +
      |            ~ ^
=> 2:11..12 2:13..14^
      |            |
      |            int
=> 0=int
    3 |      x) * 2 +
      |      ~       \x20
=> 3:5..6
      |      |
      |      A
=> 0=A
......
    4 |        5--;
      |        ~^~
=> 4:7..10^
      |         --
=> remove 4:8 ``
    4 |        6--;
=> no
",
    );
}

#[test]
fn ranges_over_lines_of_gcc(rt: HostRuntime) {
    let file = [
        "  int w = (text +",
        "      text)",
        "    * (text",
        "       + text);",
    ];
    assert_learned(
        &rt,
        &file,
        3,
        Some(4),
        r"
    1 |   int w = (text +
      |           ~~~~~~~
=> 1:10..17
      |                 |
      |                 Text
=> 0=Text
    2 |       text)
      |       ~~~~~
=> +2:6..11
    3 |     * (text
      |     ^ ~~~~~
=> 3:4..5^ 3:6..11
    4 |        + text);
      |        ~~~~~~~
=> +4:7..14
",
    );
}

/// A file of C whose first line has characters that clang shows by their numbers.
const HIDDEN: &[&str] = &[
    "int a\u{c}b = \"x\u{1}\u{7f}\u{200b}\u{202e}\";  ",
    "int x;",
];

/// Rows of clang with ranges and fixes.
const CLANG: &[Rows] = &[
    Rows {
        file: C,
        line: 6,
        caret: Some(23),
        text: r#"
    char *s = "漢字" + n * p;
                       ~ ^ ~
=> 6:21..22 6:23..24^ 6:25..26
a.c:7:8: warning: using
=> no
"#,
    },
    Rows {
        file: C,
        line: 7,
        caret: Some(7),
        text: r"
        if (n = 3) return x     + s;
              ^
=> 7:7..8^
            (    )
=> put 7:5 `(` put 7:10 `)`
            (    )
=> no
",
    },
    Rows {
        file: C,
        line: 5,
        caret: Some(12),
        text: r"
    return strlen(n) + undeclared;
=> no
",
    },
    Rows {
        file: HIDDEN,
        line: 1,
        caret: Some(5),
        text: r#"
int a<U+000C>b = "x<U+0001><U+007F><U+200B><U+202E>";
     ^
=> 1:5..6^
     ;
=> put 1:5 `;`
"#,
    },
    Rows {
        file: HIDDEN,
        line: 2,
        caret: Some(6),
        text: r"
int x;
      ^
=> 2:6..7^
",
    },
];

#[test]
fn ranges_and_fixes_of_clang(rt: HostRuntime) {
    assert_each_learned(&rt, CLANG)
}

/// Rows of other tools with ranges.
const OTHERS: &[Rows] = &[
    Rows {
        file: &["\t\tint x = s;\tint y = \"é漢\" + undefined;"],
        line: 1,
        caret: None,
        text: "
\t\tint x = s;\tint y = \"é漢\" + undefined;
\t\t          \t               ^
=> 1:28..29^
  symbol:   variable undefined
=> note symbol:   variable undefined
  location: class B
=> more location: class B
B.java:5: error: incompatible types
=> no
",
    },
    Rows {
        file: &["\tstd::string s = 5 + \"é\"; const char *z = s;"],
        line: 1,
        caret: Some(40),
        text: r#"
 std::string s = 5 + "é"; const char *z = s;
                                         ^
=> 1:40..41^
"#,
    },
    Rows {
        file: &["def f():", "\tx: int = \"a\""],
        line: 2,
        caret: Some(10),
        text: r#"
            x: int = "a"
                     ^~~
=> 2:10..13^
"#,
    },
    Rows {
        file: &["f(X) -> Y = 1, Z."],
        line: 1,
        caret: Some(15),
        text: r"
%    1| f(X) -> Y = 1, Z.
%     |                ^
=> 1:15..16^


=> no
",
    },
];

#[test]
fn ranges_of_others(rt: HostRuntime) {
    assert_each_learned(&rt, OTHERS)
}

#[test]
fn details_of_javac(rt: HostRuntime) {
    assert_learned(
        &rt,
        &["        List<Integer> li = List.of(\"a\", \"b\");"],
        1,
        None,
        r#"
        List<Integer> li = List.of("a", "b");
                                  ^
=> 1:34..35^
    equality constraints: Integer
=> note   equality constraints: Integer
    lower bounds: String
=> more   lower bounds: String
  where E is a type-variable:
=> more where E is a type-variable:
    E extends Object declared in method <E>of(E,E)
=> more   E extends Object declared in method <E>of(E,E)
J.java:14: error: for-each not applicable
=> no
"#,
    );
}

/// Asserts what marks below the quote of a line cover.
fn assert_marked(
    rt: &(impl AllocGlobal + Abort),
    file: &[&str],
    line: usize,
    caret: Option<usize>,
    quote: &str,
    marks: (&str, &str),
) {
    let (marks, covered) = marks;
    let text = format!(in rt.alloc(); "\n{quote}\n{marks}\n=> {covered}\n").expect(rt, "memory");
    assert_learned(rt, file, line, caret, text.as_str())
}

/// A file of Python, and its quote.
const PYTHON: &[&str] = &["漢字: int = \"größe\"; zwei: str = 3 + \"漢字\" + maybe(4, k=2)"];

const PYTHON_QUOTE: &str = "    漢字: int = \"größe\"; zwei: str = 3 + \"漢字\" + maybe(4, k=2)";

/// Where a head's caret is, if it tells that, marks, and what they cover.
const MARKS_IN_BYTES: &[(Option<usize>, &str, &str)] = &[
    (None, "                  ^~~~~~~~~", "1:10..17^"),
    (Some(10), "                  ^~~~~~~~~", "1:10..17^"),
    (
        None,
        "                                             ^~~~~~~~",
        "1:35..39^",
    ),
    (
        Some(48),
        "                                                           ^",
        "1:48..49^",
    ),
];

/// mypy counts bytes, and a row is no longer than the line has characters: a head says then where it is.
#[test]
fn bytes_in_marks_of_mypy(rt: HostRuntime) {
    for &(caret, marks, want) in MARKS_IN_BYTES {
        assert_marked(&rt, PYTHON, 1, caret, PYTHON_QUOTE, (marks, want));
    }
}

/// Lines, each with its quote, its marks, and what these cover.
const MARKS_IN_WHITE_SPACE: &[(&str, &str, &str, &str)] = &[
    (
        "    import notamodule",
        "        import notamodule",
        "    ^",
        "1:0..1^",
    ),
    (
        "\t\timport not_there",
        "                    import not_there",
        "    ^~~~~~~~",
        "1:0..1^",
    ),
    (
        "\t  import not_there",
        "              import not_there",
        "            ^",
        "1:1..2^",
    ),
];

/// mypy's column of an import that isn't found is the first of the line, in the white space in front of it: blanks, or
/// tabs that it shows as 8 blanks each.
#[test]
fn marks_in_white_space_of_mypy(rt: HostRuntime) {
    for &(line, quote, marks, want) in MARKS_IN_WHITE_SPACE {
        assert_marked(&rt, &[line], 1, None, quote, (marks, want));
    }
}

/// A note of clang-tidy and g++ may name no span: it stands behind marks, or behind what is to be put there.
const NOTES: &[Rows] = &[
    Rows {
        file: &["    if (n > 3)"],
        line: 1,
        caret: Some(14),
        text: r"
    if (n > 3)
              ^
=> 1:14..15^
               {
=> put 1:14 `{`
note: this fix will not be applied because it overlaps with another fix
=> note this fix will not be applied because it overlaps with another fix
               {
=> no
",
    },
    Rows {
        file: &["    show(1);"],
        line: 1,
        caret: Some(8),
        text: r"
    1 |     show(1);
      |     ~~~~^~~
=> 1:4..11^
cc1plus: note: set more
=> note set more
cc1: note: set more
=> note set more
      |     ~~~~^~~
=> no
",
    },
    Rows {
        file: &["    show(1);"],
        line: 1,
        caret: Some(8),
        text: r"
    show(1);
note: this fix will not be applied because it overlaps with another fix
=> no
",
    },
];

#[test]
fn notes_without_a_span(rt: HostRuntime) {
    assert_each_learned(&rt, NOTES)
}

/// Where events share a mark, one bar stands above all of them.
#[test]
fn events_at_one_mark(rt: HostRuntime) {
    assert_learned(
        &rt,
        &["    free(b); free(a);"],
        1,
        None,
        r"
    1 |     free(b); free(a);
      |     ~~~~~~~  ~~~~~~~
=> 1:4..11 1:13..20
      |     |        |
      |     |        (2) ...to here
=> 1=(2) ...to here
      |     |        (3) freed here
=> 1=(3) freed here
      |     (1) first
=> 0=(1) first
      |     (4) more
=> 0=(4) more
      |     if
=> put 1:4 `if`
",
    );
}

/// In colours gcc moves an event behind another in its row to the left.
#[test]
fn events_that_were_moved(rt: HostRuntime) {
    assert_learned(
        &rt,
        &["    free(b); free(a);"],
        1,
        None,
        r"
    1 |     free(b); free(a);
      |     ~~~~~~~  ~~~~~~~
=> 1:4..11 1:13..20
      |     |        |
      |     (1) x  (2) y
=> 0=(1) x 1=(2) y
",
    );
}

/// clang notes what stands in no file, and quotes it: the note goes on with that.
#[test]
fn notes_about_text_in_no_file(rt: HostRuntime) {
    assert_learned(
        &rt,
        &["\tNAME(foo);"],
        1,
        Some(1),
        r"
        NAME(foo);
        ^
=> 1:1..2^
<scratch space>:2:1: note: expanded from here
=> note expanded from here
        foo_t
=> more foo_t
        ^~~~~
<inline asm>:1:2: note: instantiated into assembly here
=> note instantiated into assembly here
a.c:1:2: error: m
=> no
",
    );
    assert_learned(
        &rt,
        &["x"],
        1,
        Some(0),
        r"
<scratch space>:2:1: note: expanded from here
=> no
",
    );
}

/// clang doesn't quote a line that has nothing, and cppcheck quotes nothing where its head names no line.
const BELOW_NOTHING: &[Rows] = &[
    Rows {
        file: &["a", ""],
        line: 2,
        caret: Some(0),
        text: r"
^
=> 2:0..1^
",
    },
    Rows {
        file: &["a", ""],
        line: 1,
        caret: Some(0),
        text: r"
^
=> no
",
    },
    Rows {
        file: &["a"],
        line: 0,
        caret: None,
        text: r"

^
^
=> no
",
    },
    Rows {
        file: &["a"],
        line: 0,
        caret: None,
        text: r"

a
=> no
",
    },
];

#[test]
fn marks_below_nothing(rt: HostRuntime) {
    assert_each_learned(&rt, BELOW_NOTHING)
}

/// Where clang names ranges in its heads, a blank stands in front of the quote and of the marks.
#[test]
fn marks_behind_a_blank_of_clang(rt: HostRuntime) {
    assert_learned(
        &rt,
        &["\tx = a + 1"],
        1,
        Some(7),
        r"
        x = a + 1
             ~ ^ ~
=> 1:5..6 1:7..8^ 1:9..10
                 ;
=> put 1:10 `;`
",
    );
    assert_learned(
        &rt,
        &["x = a + 1"],
        1,
        Some(9),
        r"
 x = a + 1
          ^
=> 1:9..10^
         ;
=> put 1:9 `;`
",
    );
}

/// Where an encoding doesn't have a character, `?` stands for it; gcc cuts the front of a line off without dots.
#[test]
fn quotes_that_lack_something(rt: HostRuntime) {
    assert_learned(
        &rt,
        &["int x = \"é漢\" + u;"],
        1,
        None,
        r#"
int x = "??" + u;
               ^
=> 1:15..16^
"#,
    );
    assert_learned(
        &rt,
        &["int first_name = 1, second_name = 2;"],
        1,
        Some(20),
        r"
    1 | ame = 1, second_name = 2;
      |          ^~~~~~~~~~~
=> 1:20..31^
",
    );
}

const TABBED_JAVA: &str = "\tint c = /* 🍐 漢 é */\tdelta;";

const PAIRED_JAVA: &str = "int b = /* 🍐🍎 */ cedar;";

const LATIN_JAVA: &str = "// größe: 🍐 漢";

/// A file of Java.
const JAVA: &[&str] = &[TABBED_JAVA, PAIRED_JAVA, LATIN_JAVA];

/// Lines of the file, how they are quoted, carets below that, and what these mean.
const UNITS: &[(usize, &str, &str, &str)] = &[
    (1, TABBED_JAVA, "\t                    \t^", "1:21..22^"),
    (
        1,
        "\tint c = /* ? ? ? */\tdelta;",
        "\t                    \t^",
        "1:21..22^",
    ),
    (2, PAIRED_JAVA, "                   ^", "2:17..18^"),
    (
        2,
        "int b = /* ?? */ cedar;",
        "                   ^",
        "2:17..18^",
    ),
    (3, LATIN_JAVA, "            ^", "3:11..12^"),
    (3, "// gr????e: ???? ???", "        ^", "3:6..7^"),
    (3, "// gr????e: ???? ???", "                 ^", "3:12..13^"),
];

/// javac's caret counts units of UTF-16, in tabs as they are, whether the quote has its letters or `?` for each; or
/// bytes, where a file was read as ASCII, which has `?` for each then.
#[test]
fn units_of_javac(rt: HostRuntime) {
    for (line, quote, marks, want) in UNITS {
        assert_marked(&rt, JAVA, *line, None, *quote, (*marks, *want));
    }
}

const FIRST_CPP: &str = "auto e = \"😀\" + \"😀\"; /* 😀 */ int q = qq;";

const SECOND_CPP: &str = "auto e = \"漢😀\" + nope; /* 😀 */ int q = qq;";

/// A file of C++.
const CPP: &[&str] = &[FIRST_CPP, SECOND_CPP];

/// Lines of the file and carets in them, each with its marks, and what these cover.
const WIDE_MARKS: &[(usize, usize, &str, &str)] = &[
    (1, 13, "         ~~~ ^ ~~~", "1:9..12 1:13..14^ 1:15..18"),
    (1, 36, "                                    ^", "1:36..37^"),
    (2, 16, "                 ^", "2:16..17^"),
    (
        2,
        38,
        "                                       ^",
        "2:38..39^",
    ),
];

/// clang gives one of these wide characters two columns, and the other one.
#[test]
fn wide_characters_of_clang(rt: HostRuntime) {
    for &(line, caret, marks, want) in WIDE_MARKS {
        let quote = if line == 1 { FIRST_CPP } else { SECOND_CPP };
        assert_marked(&rt, CPP, line, Some(caret), quote, (marks, want));
    }
}

/// Lines, each with a row that shows it whole.
const WHOLE_ROWS: &[(&str, &str)] = &[
    ("", ""),
    ("\u{feff}\tx\t漢", "\u{feff}\tx\t漢"),
    ("| a", "7 | | a"),
    (" \r", "7 |  \r"),
];

/// Asserts that a first row shows the seventh line of a file whole.
fn assert_whole(rt: &(impl AllocGlobal + Abort), line: &str, row: &str) {
    let text = format!(in rt.alloc(); "\n{row}\n").expect(rt, "memory");
    assert_learned(rt, &["", "", "", "", "", "", line], 7, None, text.as_str())
}

#[test]
fn lines_that_a_first_row_shows_whole(rt: HostRuntime) {
    for &(line, row) in WHOLE_ROWS {
        assert_whole(&rt, line, row);
    }
}

#[test]
fn fixes_behind_a_line_and_escapes_of_erlc(rt: HostRuntime) {
    assert_learned(
        &rt,
        &["    if (n > 3)"],
        1,
        Some(14),
        r"
    if (n > 3)
              ^
=> 1:14..15^
               {
=> put 1:14 `{`
",
    );
    assert_learned(
        &rt,
        &["    1 -> \"漢\" ok"],
        1,
        Some(13),
        r#"
%    1|     1 -> "\x{6F22}" ok
%     |              ^
=> 1:13..14^
"#,
    );
}
