//! Pictures with what tools propose: lines before and after, or words where those can't be drawn.

use crate::one_file::OneFile;
use crate::show::assert_shown_of;
use std::process::Abort;
use std::rt::Files;

/// What stands in the file.
const FILE: &[u8] = b"a = b;\nlet c = d;\n";

/// gcc's JSON of an error at the `d`, with fix-its at it and behind it.
const TWO_FIXITS: &str =
    "[{\"kind\":\"error\",\"message\":\"m\",\"locations\":[{\"caret\":{\"file\":\"@\",\"line\":2,\"byte-column\":9}}],\
     \"fixits\":[{\"start\":{\"file\":\"@\",\"line\":2,\"byte-column\":9},\"next\":{\"file\":\"@\",\"line\":2,\"byte-column\":10},\"string\":\"e\"},\
     {\"start\":{\"file\":\"@\",\"line\":1,\"byte-column\":1},\"next\":{\"file\":\"@\",\"line\":1,\"byte-column\":1},\"string\":\"let \"}],\
     \"children\":[]}]\n";

/// The picture of it up to its helps.
const PICTURE: &str = "Error: m\n   ,-[ @:2:9 ]\n   |\n 2 | let c = d;\n   |         ^  \n   | \n";

/// By which words what is drawn in the place of its helps.
const HELPS: &[(&[&str], &str)] = &[
    // both changes are one suggestion, and both lines stand before those that replace them
    (
        &["--ascii"],
        "   | Help: 1 - a = b;\n   |       2 - let c = d;\n   |       1 + let a = b;\n   |       2 + let c = e;\n---'\n1 error\n",
    ),
    // a row of 14 columns fits where the name takes 8 and the margin 5
    (
        &["--ascii", "--width", "27"],
        "   | Help: 1 - a = b;\n   |       2 - let c = d;\n   |       1 + let a = b;\n   |       2 + let c = e;\n---'\n1 error\n",
    ),
    // in one column less, lines are cut around their first difference
    (
        &["--ascii", "--width", "26"],
        "   | Help: 1 - a = b;\n   |       2 - ... d;\n   |       1 + let a ...\n   |       2 + ... e;\n---'\n1 error\n",
    ),
    // where no line with two marks fits, words say it
    (
        &["--ascii", "--width", "22"],
        "   | Help 1: put `e`\n   |         at 2:9\n   | \n   | Help 2: put `let\n   |         ` at 1:1\n---'\n1 error\n",
    ),
];

/// Asserts what these words draw in the place of its helps, with the file at this path.
fn assert_helps(rt: &(impl Files + AllocGlobal + Abort), path: &str, words: &[&str], helps: &str) {
    let want = format!(in rt.alloc(); "{PICTURE}{helps}").expect(rt, "memory");
    assert_shown_of(rt, path, words, TWO_FIXITS, want.as_str())
}

/// Asserts what is drawn in the place of its helps by all words.
fn assert_each_help(rt: &(impl Files + AllocGlobal + Abort), path: &str) {
    for &(words, helps) in HELPS {
        assert_helps(rt, path, words, helps)
    }
}

#[test]
fn proposals_are_drawn_where_their_rows_fit(rt: HostRuntime) {
    let file = OneFile::new(&rt, "a.c", FILE);
    assert_each_help(&rt, file.path());
    file.remove(&rt)
}

/// rustc's JSON of an error at the `b`, for which a help lists two texts.
const TWO_WAYS: &str =
    "{\"message\":\"m\",\"code\":null,\"level\":\"error\",\"spans\":[{\"file_name\":\"@\",\"line_start\":1,\"line_end\":1,\
     \"column_start\":5,\"column_end\":6,\"is_primary\":true,\"label\":null,\"text\":[]}],\"children\":[{\"message\":\"try\",\
     \"code\":null,\"level\":\"help\",\"spans\":[{\"file_name\":\"@\",\"line_start\":1,\"line_end\":1,\"column_start\":5,\
     \"column_end\":6,\"is_primary\":true,\"text\":[],\"suggested_replacement\":\"x\"},{\"file_name\":\"@\",\"line_start\":1,\
     \"line_end\":1,\"column_start\":5,\"column_end\":6,\"is_primary\":true,\"text\":[],\"suggested_replacement\":\"y\"}],\
     \"children\":[],\"rendered\":null}]}\n";

#[test]
fn each_way_is_a_help_below_its_reason(rt: HostRuntime) {
    let file = OneFile::new(&rt, "a.rs", FILE);
    let want = "Error: m\n   ,-[ @:1:5 ]\n   |\n 1 | a = b;\n   |     ^  \n   | \n   | \
                Help 1: try\n   |         1 - a = b;\n   |         1 + a = x;\n   | \n   | \
                Help 2: try\n   |         1 - a = b;\n   |         1 + a = y;\n---'\n1 error\n";
    assert_shown_of(&rt, file.path(), &["--ascii"], TWO_WAYS, want);
    file.remove(&rt)
}
