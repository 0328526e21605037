//! What the rows that gcc and clang write for programs propose, as changes of files.

use crate::comparing::assert_text_of;
use crate::parsed_lines::answer_of;
use crate::parsed_proposals::proposals_text;
use ariadne_blocks::{Block, Line, QuotedFile};
use ariadne_parse::{Answer, Columns, Diagnostic, Unit};
use std::alloc::{AllocError, Global};
use std::process::Abort;
use std::slice;

/// Lines of one diagnostic, and what they propose.
const BLOCKS: &[(&[&str], &str)] = &[
    // gcc, without a snippet
    (
        &[
            "01_fixes.c:4:28: error: 'struct fruit' has no member named 'gr\u{f6}\u{df}'",
            "fix-it:\"01_fixes.c\":{4:28-4:34}:\"gr\\303\\266\\303\\237e\"",
        ],
        "0..1 01_fixes.c past mark () 4:28-4:34 `gr\u{f6}\u{df}e`\n",
    ),
    // the rows below a head are one way, and a help each
    (
        &[
            "02_casts.cpp:2:44: warning: use of old-style cast",
            "fix-it:\"02_casts.cpp\":{2:44-2:45}:\"static_cast<\"",
            "fix-it:\"02_casts.cpp\":{2:48-2:50}:\"> (\"",
            "fix-it:\"02_casts.cpp\":{2:53-2:53}:\")\"",
        ],
        "0..3 02_casts.cpp past mark () 2:44-2:45 `static_cast<` 2:48-2:50 `> (` 2:53-2:53 `)`\n",
    ),
    // those below a note are one help, which says why
    (
        &[
            "01_fixes.c:5:11: warning: using the result of an assignment as a condition",
            "01_fixes.c:5:11: note: place parentheses around the assignment",
            "fix-it:\"01_fixes.c\":{5:9-5:9}:\"(\"",
            "fix-it:\"01_fixes.c\":{5:14-5:14}:\")\"",
            "01_fixes.c:5:11: note: use '==' to turn this into an equality comparison",
            "fix-it:\"01_fixes.c\":{5:11-5:12}:\"==\"",
        ],
        "0..1 01_fixes.c past mark (place parentheses around the assignment) 5:9-5:9 `(` 5:14-5:14 `)`\n\
         1..2 01_fixes.c past mark (use '==' to turn this into an equality comparison) 5:11-5:12 `==`\n",
    ),
];

/// The file that the lines below quote.
const FILE: &str = "#include <stdio.h>\n\
    struct fruit { int weight; int gr\u{f6}\u{df}e; };\n\
    int weigh(struct fruit *p) {\n    int x = p->wieght + p->gr\u{f6}\u{df}, y;\n    if (y = x) printf(\u{e9});\n    /* \u{e9} */ return x\n}\n\
    int whole(double \u{e9}) { const const int n = (int)\u{e9}; if ((n == 3)) return 1; return n; }\n";

/// Lines of one diagnostic that quote the file and draw changes, and what they propose.
const QUOTING: &[(&[&str], &str)] = &[
    // the help that says what is drawn says the row
    (
        &[
            "01_fixes.c:4:28: error: \u{2018}struct fruit\u{2019} has no member named \u{2018}gr\u{f6}\u{df}\u{2019}",
            "    4 |     int x = p->wieght + p->gr\u{f6}\u{df}, y;",
            "      |                            ^~~~",
            "      |                            gr\u{f6}\u{df}e",
            "fix-it:\"01_fixes.c\":{4:28-4:34}:\"gr\\303\\266\\303\\237e\"",
        ],
        "0..1 01_fixes.c past mark () 4:28-4:34 `gr\u{f6}\u{df}e`\n",
    ),
    // two helps say what is drawn, and three rows
    (
        &[
            "01_fixes.c:8:48: warning: use of old-style cast to \u{2018}int\u{2019}",
            "    8 | int whole(double \u{e9}) { const const int n = (int)\u{e9}; if ((n == 3)) return 1; return n; }",
            "      |                                                ^",
            "      |                                           ------",
            "      |                                           static_cast<int> (\u{e9})",
            "fix-it:\"01_fixes.c\":{8:44-8:45}:\"static_cast<\"",
            "fix-it:\"01_fixes.c\":{8:48-8:49}:\"> (\"",
            "fix-it:\"01_fixes.c\":{8:51-8:51}:\")\"",
        ],
        "0..2 01_fixes.c past mark () 8:44-8:45 `static_cast<` 8:48-8:49 `> (` 8:51-8:51 `)`\n",
    ),
    // below clang's notes
    (
        &[
            "01_fixes.c:5:11: warning: using the result of an assignment as a condition",
            "    if (y = x) printf(\u{e9});",
            "        ~~^~~",
            "01_fixes.c:5:11: note: place parentheses around the assignment",
            "    if (y = x) printf(\u{e9});",
            "          ^",
            "        (    )",
            "fix-it:\"01_fixes.c\":{5:9-5:9}:\"(\"",
            "fix-it:\"01_fixes.c\":{5:14-5:14}:\")\"",
            "01_fixes.c:5:11: note: use '==' to turn this into an equality comparison",
            "    if (y = x) printf(\u{e9});",
            "          ^",
            "          ==",
            "fix-it:\"01_fixes.c\":{5:11-5:12}:\"==\"",
        ],
        "0..1 01_fixes.c past mark (place parentheses around the assignment) 5:9-5:9 `(` 5:14-5:14 `)`\n\
         1..2 01_fixes.c past mark (use '==' to turn this into an equality comparison) 5:11-5:12 `==`\n",
    ),
    // no row changes the line that is drawn: the help stays
    (
        &[
            "01_fixes.c:4:28: error: no member named 'gr\u{f6}\u{df}' in 'struct fruit'",
            "    int x = p->wieght + p->gr\u{f6}\u{df}, y;",
            "                           ^~~~",
            "                           gr\u{f6}\u{df}e",
            "fix-it:\"01_fixes.c\":{6:22-6:22}:\";\"",
        ],
        "0..0 01_fixes.c past mark () 6:22-6:22 `;`\n",
    ),
    // with the row for that line it is said too
    (
        &[
            "01_fixes.c:4:28: error: no member named 'gr\u{f6}\u{df}' in 'struct fruit'",
            "    int x = p->wieght + p->gr\u{f6}\u{df}, y;",
            "                           ^~~~",
            "                           gr\u{f6}\u{df}e",
            "fix-it:\"01_fixes.c\":{6:22-6:22}:\";\"",
            "fix-it:\"01_fixes.c\":{4:28-4:34}:\"gr\\303\\266\\303\\237e\"",
        ],
        "0..2 01_fixes.c past mark () 6:22-6:22 `;` 4:28-4:34 `gr\u{f6}\u{df}e`\n",
    ),
];

/// The character of its line, from 0, that a diagnostic points at, if its file is held.
fn caret_of(file: Option<QuotedFile<'_>>, it: &Diagnostic) -> Option<usize> {
    let columns = file?.columns;
    let start = it.spans.first()?.start;
    let offset = columns.offset(Unit::Byte, start.line, start.column?)?;
    Some(columns.location_at(Unit::Char, offset).1.saturating_sub(1))
}

/// Takes in a line as a row.
fn take_row(
    alloc: Global,
    block: &mut Block,
    file: Option<QuotedFile<'_>>,
    text: &str,
) -> Result<(), AllocError> {
    let line = Line {
        bytes: text.as_bytes(),
        whole: text,
        text,
    };
    block.take_row(alloc, file, line)?;
    Ok(())
}

/// Takes in a note.
fn take_note(
    alloc: Global,
    block: &mut Block,
    file: Option<QuotedFile<'_>>,
    note: Diagnostic,
) -> Result<(), AllocError> {
    let caret = caret_of(file, &note);
    block.add_note(alloc, note, caret)
}

/// Takes in a line: as a note, or as a row.
fn take(
    alloc: Global,
    block: &mut Block,
    file: Option<QuotedFile<'_>>,
    text: &str,
) -> Result<(), AllocError> {
    match answer_of(alloc, text)? {
        Answer::Note(note) => take_note(alloc, block, file, note),
        _ => take_row(alloc, block, file, text),
    }
}

/// Takes in lines.
fn take_all(
    alloc: Global,
    block: &mut Block,
    file: Option<QuotedFile<'_>>,
    lines: &[&str],
) -> Result<(), AllocError> {
    for line in lines {
        take(alloc, block, file, *line)?;
    }
    Ok(())
}

/// What a block proposes.
fn finished_text(alloc: Global, block: Block) -> Result<String, AllocError> {
    let (it, _) = block.finish();
    proposals_text(alloc, slice::from_ref(&it))
}

/// What a block proposes after it has taken in lines.
fn taken_text(
    alloc: Global,
    file: Option<QuotedFile<'_>>,
    block: Block,
    lines: &[&str],
) -> Result<String, AllocError> {
    let mut block = block;
    let taken = take_all(alloc, &mut block, file, lines);
    let text = finished_text(alloc, block);
    taken.and(text)
}

/// What a diagnostic proposes, behind whose head stand lines.
fn diagnostic_text(
    alloc: Global,
    file: Option<QuotedFile<'_>>,
    it: Diagnostic,
    head: &str,
    lines: &[&str],
) -> Result<String, AllocError> {
    let caret = caret_of(file, &it);
    let block = Block::new(alloc, it, head, caret)?;
    taken_text(alloc, file, block, lines)
}

/// What the lines of a diagnostic propose; nothing where the first is no head of one.
fn block_text(
    alloc: Global,
    file: Option<QuotedFile<'_>>,
    lines: &[&str],
) -> Result<String, AllocError> {
    let (head, others) = lines.split_first().unwrap_or((&"", &[]));
    match answer_of(alloc, *head)? {
        Answer::Head(it) => diagnostic_text(alloc, file, it, *head, others),
        _ => Ok(String::new(alloc)),
    }
}

/// Asserts what the lines of each diagnostic propose.
fn assert_proposed(
    rt: &(impl AllocGlobal + Abort),
    file: Option<QuotedFile<'_>>,
    table: &[(&[&str], &str)],
) {
    for &(lines, want) in table {
        assert_text_of(rt, want, block_text(rt.alloc(), file, lines), want);
    }
}

#[test]
fn proposals_of_rows(rt: HostRuntime) {
    assert_proposed(&rt, None, BLOCKS)
}

#[test]
fn proposals_of_rows_below_drawn_ones(rt: HostRuntime) {
    let columns = Columns::new(rt.alloc(), FILE).expect(&rt, "no memory");
    let file = QuotedFile {
        columns: &columns,
        byte_unit: Unit::Byte,
        above: 0,
    };
    assert_proposed(&rt, Some(file), QUOTING)
}
