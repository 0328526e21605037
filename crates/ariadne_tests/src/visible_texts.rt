//! Texts that are made visible, with memory and without.

use crate::comparing::{assert_same, assert_text};
use crate::refused::{MOST_REQUESTS, assert_refused, refuse_at};
use ariadne_safe::{TextKind, is_seen, visible};
use std::process::Abort;

/// Texts, each with what is shown of it.
const SHOWN: &[(&str, TextKind, &str)] = &[
    ("a\u{1b}[8mb\t\n", TextKind::OneRow, "a␛[8mb␉␊"),
    ("look\u{7f}\nbelow", TextKind::Aside, "look␡\nbelow"),
    ("é\u{202e}\tx\r\n", TextKind::Lines, "é\u{fffd}\tx\r\n"),
    ("a\u{85}b\r\nc\r", TextKind::CompilerLines, "a␤b\r\nc␍"),
    (
        "g\u{180b}\u{fff9}\u{fffb}\u{e0041}\u{e0100}\u{e0fff}",
        TextKind::Lines,
        "g\u{fffd}\u{fffd}\u{fffd}\u{fffd}\u{fffd}\u{fffd}",
    ),
    ("\u{fffc}\u{1810}", TextKind::OneRow, "\u{fffc}\u{1810}"),
    (
        "\u{ad}\u{34f}\u{115f}\u{1160}\u{17b5}\u{2800}\u{3164}\u{ffa0}\u{16fe4}\u{1d159}",
        TextKind::Lines,
        "\u{fffd}\u{fffd}\u{fffd}\u{fffd}\u{fffd}\u{fffd}\u{fffd}\u{fffd}\u{fffd}\u{fffd}",
    ),
    (
        "\u{fe00}\u{fe0d}\u{13430}\u{1345f}\u{1bca0}\u{1bca3}\u{1d173}\u{1d17a}",
        TextKind::OneRow,
        "\u{fffd}\u{fffd}\u{fffd}\u{fffd}\u{fffd}\u{fffd}\u{fffd}\u{fffd}",
    ),
];

#[test]
fn hidden_characters_have_signs(rt: HostRuntime) {
    for (text, kind, want) in SHOWN {
        assert_text(&rt, visible(rt.alloc(), *text, *kind), *want);
    }
    let signs = "\u{26a0}\u{fe0f}\u{fe0e}\u{2801}\u{1161}\u{1342f}";
    let seen = (is_seen(signs), is_seen("é漢"), is_seen("a\u{200d}b"));
    assert_same(&rt, &seen, &(true, true, false))
}

/// Refuses the nth request of showing a text with a sign.
fn try_sign(rt: &(impl Abort + AllocGlobal), nth: u16) -> bool {
    refuse_at(rt, nth);
    let shown = visible(rt.alloc(), "a\u{1b}b", TextKind::OneRow);
    let is_refused = assert_refused(rt, ("visible", nth), shown.is_err());
    if !is_refused {
        assert_text(rt, shown, "a␛b");
    }
    is_refused
}

#[test]
fn a_refused_sign_is_an_error(rt: HostRuntime) {
    for nth in 1..MOST_REQUESTS {
        if !try_sign(&rt, nth) {
            return;
        }
    }
    panic!(rt; "every request was refused")
}
