//! Rows below a head of text that quote nothing: further rows of rustc's messages, and rows that tell programs what
//! to change.

use crate::one_file::OneFile;
use crate::show::assert_each_shown_of;

/// What stands in the file of Rust.
const RUST: &[u8] = b"old();\nlet x = 1;\n";

/// What stands in the file of C.
const C: &str = "int \u{e9} = p->feild\nreturn (int)x;\n";

/// Words by which diagnostics are written in lines.
const WORDS: &[&str] = &["--output", "short"];

/// Lines of rustc's short form, and what is written of them.
const SHORT: &[(&str, &str)] = &[
    // a row as far to the right as the message, one that has nothing, and one that begins with blanks
    (
        "@:1:1: error: first\n       second\n       \n         fourth: row\n",
        "@:1:1: error: first\u{240a}second\u{240a}\u{240a}  fourth: row\n1 error\n",
    ),
    // a code is counted; a line that stands less far to the right is no row
    (
        "@:2:5: error[E0308]: a\n              b\n             c\n              d\n",
        "@:2:5: error: a\u{240a}b [E0308]\n             c\n              d\n1 error\n",
    ),
    // two one behind the other, and cargo's own words
    (
        "@:1:1: warning: a\n         b\n@:1:1: error: c\n       Fresh x v0.1.0 (/x)\n       d\n",
        "@:1:1: warning: a\u{240a}b\n@:1:1: error: c\n       Fresh x v0.1.0 (/x)\n       d\n1 error, 1 warning\n",
    ),
    (
        "@:1:1: error: c\n       Fresher ones\n       Dirty x v0.1.0\n       Fixed src/lib.rs\n",
        "@:1:1: error: c\u{240a}Fresher ones\n       Dirty x v0.1.0\n       Fixed src/lib.rs\n1 error\n",
    ),
    // a head without a kind, and one whose span has no column
    (
        "@:1:1: c d: e\n     f\n@:1: error: g\n       h\n",
        "@:1:1: error: c d: e\n     f\n@:1:1: error: g\n       h\n2 errors\n",
    ),
];

#[test]
fn further_rows_of_messages_of_rustc(rt: HostRuntime) {
    let file = OneFile::new(&rt, "a.rs", RUST);
    assert_each_shown_of(&rt, file.path(), WORDS, SHORT);
    file.remove(&rt)
}

/// Lines with rows that tell programs what to change, and what is written of them.
const FIXES: &[(&str, &str)] = &[
    // a change, a line that is put in, a removal, and escapes; another file's row passes
    (
        "@:1:10: error: m\n\
         fix-it:\"@\":{1:13-1:18}:\"field\"\n\
         fix-it:\"@\":{2:1-2:1}:\"#include <a.h>\\n\"\n\
         fix-it:\"@\":{2:8-2:13}:\"\"\n\
         fix-it:\"@\":{2:8-2:8}:\"\\\"gr\\303\\266\\\\n\\t\\\"\"\n\
         fix-it:\"@.other\":{2:8-2:13}:\"x\"\n",
        "@:1:10: error: m\n\
         @:1:10: note: put `field` at 1:13\n\
         @:1:10: note: put the line `#include <a.h>` in front of line 2\n\
         @:1:10: note: remove what stands at 2:8\n\
         @:1:10: note: put `\"gr\u{f6}\\n\u{2409}\"` at 2:8\n\
         fix-it:\"@.other\":{2:8-2:13}:\"x\"\n\
         1 error\n",
    ),
    // what the snippet shows of a line isn't told again; but what is removed, texts of several lines, and other lines
    (
        "@:1:10: error: m\n\
         int \u{e9} = p->feild\n        ^\n        q\n\
         fix-it:\"@\":{1:10-1:11}:\"q\"\n\
         fix-it:\"@\":{1:10-1:11}:\"\"\n\
         fix-it:\"@\":{1:10-1:10}:\"a\\nb\"\n\
         fix-it:\"@\":{2:1-2:2}:\"r\"\n",
        "@:1:10: error: m\n\
         @:1:10: note: put `q` at 1:10\n\
         @:1:10: note: remove what stands at 1:10\n\
         @:1:10: note: put `a\u{240a}b` at 1:10\n\
         @:1:10: note: put `r` at 2:1\n\
         1 error\n",
    ),
    // below a note, behind what it says; what the snippet above it showed counts no more
    (
        "@:1:10: error: m\n\
         int \u{e9} = p->feild\n        ^\n        q\n\
         @:1:1: note: why\n\
         fix-it:\"@\":{1:1-1:4}:\"long\"\n\
         fix-it:\"@\":{1:10-1:10}:\"*\"\n",
        "@:1:10: error: m\n\
         @:1:1: note: why\n\
         @:1:10: note: put `q` at 1:10\n\
         @:1:10: note: why: put `long` at 1:1,\u{240a}put `*` at 1:10\n\
         1 error\n",
    ),
    // behind another line it belongs to nothing
    (
        "@:1:10: error: m\nmake: done\nfix-it:\"@\":{1:13-1:18}:\"field\"\n",
        "@:1:10: error: m\nmake: done\nfix-it:\"@\":{1:13-1:18}:\"field\"\n1 error\n",
    ),
    // no row of another tool's message stands to the right
    (
        "@:1:10: error: m\n       row\n",
        "@:1:10: error: m\n       row\n1 error\n",
    ),
];

#[test]
fn rows_that_tell_programs_what_to_change(rt: HostRuntime) {
    let file = OneFile::new(&rt, "a.c", C.as_bytes());
    assert_each_shown_of(&rt, file.path(), WORDS, FIXES);
    file.remove(&rt)
}
