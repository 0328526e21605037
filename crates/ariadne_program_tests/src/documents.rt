//! Documents of one form each, and what they tell.

use crate::showing::{Told, assert_each_told};

/// `shellcheck 0.9.0 -f json1`, of `\techo $1 "é" $2` in the second line, cut to two comments.
const SHELLCHECK: &str =
    r#"{"comments":[{"file":"a.sh","line":2,"endLine":2,"column":14,"endColumn":16,
"level":"info","code":2086,"message":"Double quote to prevent globbing and word splitting.",
"fix":{"replacements":[
{"column":14,"endColumn":14,"endLine":2,"insertionPoint":"afterEnd","line":2,"precedence":7,"replacement":"\""},
{"column":16,"endColumn":16,"endLine":2,"insertionPoint":"beforeStart","line":2,"precedence":7,"replacement":"\""}]}},
{"file":"a.sh","line":3,"endLine":3,"column":10,"endColumn":16,"level":"error","code":2045,
"message":"Iterating over ls output is fragile. Use globs.","fix":null}]}"#;

/// Documents of shellcheck's, and what they tell.
const OF_SHELLCHECK: &[Told] = &[
    Told {
        document: SHELLCHECK,
        rows: &[
            "Note (SC2086) Double quote to prevent globbing and word splitting.",
            "  at a.sh 2:14-2:16 ",
            "  help put `\"` at 2:14",
            "  help put `\"` at 2:16",
            "  fix 0..2 a.sh () 2:14-2:14 `\"` 2:16-2:16 `\"`",
            "Error (SC2045) Iterating over ls output is fragile. Use globs.",
            "  at a.sh 3:10-3:16 ",
        ],
    },
    Told {
        document: r#"{"comments":[]}"#,
        rows: &[],
    },
    Told {
        document: r#"{"comments":[],"id":1}"#,
        rows: &["no form"],
    },
    Told {
        document: r#"{"comments":[{"line":1}]}"#,
        rows: &["no form"],
    },
];

#[test]
fn shellcheck(rt: HostRuntime) {
    assert_each_told(&rt, OF_SHELLCHECK)
}

/// By the documentation of eslint's formatter `json`.
const ESLINT: &str = r#"[{"filePath":"/p/a.js","messages":[
{"ruleId":"no-unused-vars","severity":2,"message":"'addOne' is defined but never used.","line":1,"column":10,
"nodeType":"Identifier","messageId":"unusedVar","endLine":1,"endColumn":16},
{"ruleId":"use-isnan","severity":1,"message":"Use the isNaN function to compare with NaN.","line":2,"column":9,
"endLine":2,"endColumn":17,"fix":{"range":[3,4],"text":"x"},
"suggestions":[{"messageId":"replace","desc":"Replace with Number.isNaN.","fix":{"range":[8,10],"text":"y"}},
{"desc":"Look at it.","fix":{"range":[36,44],"text":"y"}}]},
{"ruleId":null,"fatal":true,"severity":2,"message":"Parsing error: Unexpected token","line":3,"column":1},
{"fatal":false,"severity":1,"message":"File ignored because of a matching ignore pattern."}],
"suppressedMessages":[],"errorCount":2,"warningCount":2,"source":"\u00e9\ud83c\udf50b\r\ncd\ud83c\udf50"},
{"filePath":"/p/b.js","messages":[],"errorCount":0}]"#;

/// Documents of eslint's, and what they tell.
const OF_ESLINT: &[Told] = &[
    Told {
        document: ESLINT,
        rows: &[
            "Error (no-unused-vars) 'addOne' is defined but never used.",
            "  at /p/a.js 1:10-1:16 utf16 ",
            "Warning (use-isnan) Use the isNaN function to compare with NaN.",
            "  at /p/a.js 2:9-2:17 utf16 ",
            "  help put `x` in place of what stands from 1:4 to 1:5",
            "  help Replace with Number.isNaN.: put `y` in place of what stands from 2:3 to 2:5",
            "  help Look at it.",
            "  fix 0..1 /p/a.js utf16 () 1:4-1:5 `x`",
            "  fix 1..2 /p/a.js utf16 (Replace with Number.isNaN.) 2:3-2:5 `y`",
            "Error () Parsing error: Unexpected token",
            "  at /p/a.js 3:1 utf16 ",
            "Warning () File ignored because of a matching ignore pattern.",
            "  note /p/a.js",
        ],
    },
    Told {
        document: r#"[{"filePath":"/p/b.js","messages":[]}]"#,
        rows: &[],
    },
    Told {
        document: "[]",
        rows: &["no form"],
    },
];

#[test]
fn eslint(rt: HostRuntime) {
    assert_each_told(&rt, OF_ESLINT)
}

/// By the documentation of ruff's output format `json`.
const RUFF: &str =
    r#"[{"cell":null,"code":"F401","end_location":{"column":10,"row":1},"filename":"/p/a.py",
"fix":{"applicability":"safe","edits":[{"content":"","end_location":{"column":1,"row":2},"location":{"column":1,"row":1}}],
"message":"Remove unused import: `os`"},"location":{"column":8,"row":1},"message":"`os` imported but unused",
"noqa_row":1,"url":"https://docs.astral.sh/ruff/rules/unused-import"},
{"cell":null,"code":null,"end_location":{"column":1,"row":4},"filename":"/p/a.py","fix":null,
"location":{"column":7,"row":3},"message":"SyntaxError: Expected an expression","noqa_row":null,"url":null},
{"cell":2,"code":"F401","end_location":{"column":10,"row":1},"filename":"/p/n.ipynb",
"fix":{"edits":[{"content":"","end_location":{"column":1,"row":2},"location":{"column":1,"row":1}}],"message":"Remove"},
"location":{"column":8,"row":1},"message":"`os` imported but unused"}]"#;

/// Documents of ruff's, and what they tell.
const OF_RUFF: &[Told] = &[Told {
    document: RUFF,
    rows: &[
        "Error (F401) `os` imported but unused",
        "  at /p/a.py 1:8-1:10 ",
        "  help Remove unused import: `os`: remove what stands from 1:1 to 2:1",
        "  fix 0..1 /p/a.py (Remove unused import: `os`) 1:1-2:1 ``",
        "Error () SyntaxError: Expected an expression",
        "  at /p/a.py 3:7-4:1 ",
        "Error (F401) `os` imported but unused",
        "  note /p/n.ipynb",
        "  help Remove",
    ],
}];

#[test]
fn ruff(rt: HostRuntime) {
    assert_each_told(&rt, OF_RUFF)
}

/// By the documentation of pyright's `--outputjson`.
const PYRIGHT: &str = r#"{"version":"1.1.300","time":"1680000000000","generalDiagnostics":[
{"file":"/p/a.py","severity":"error","message":"\"x\" is not defined",
"range":{"start":{"line":0,"character":6},"end":{"line":0,"character":7}},"rule":"reportUndefinedVariable"},
{"file":"/p/a.py","severity":"information","message":"Analysis took long"}],
"summary":{"filesAnalyzed":1,"errorCount":1,"warningCount":0,"informationCount":1,"timeInSec":0.4}}"#;

/// Documents of pyright's, and what they tell.
const OF_PYRIGHT: &[Told] = &[Told {
    document: PYRIGHT,
    rows: &[
        "Error (reportUndefinedVariable) \"x\" is not defined",
        "  at /p/a.py 1:7-1:8 utf16 ",
        "Note () Analysis took long",
        "  note /p/a.py",
    ],
}];

#[test]
fn pyright(rt: HostRuntime) {
    assert_each_told(&rt, OF_PYRIGHT)
}

/// By the specification of LSP.
const LSP: &str = r#"{"jsonrpc":"2.0","method":"textDocument/publishDiagnostics","params":{
"uri":"file:///p/a%20b/%C3%A9.ts","version":3,"diagnostics":[
{"range":{"start":{"line":4,"character":2},"end":{"line":5,"character":0}},"severity":2,"code":6133,"source":"ts",
"message":"'x' is declared but its value is never read.","tags":[1],
"relatedInformation":[{"location":{"uri":"file://localhost/p/c.ts","range":{"start":{"line":0,"character":0},
"end":{"line":0,"character":3}}},"message":"declared here"}]},
{"range":{"start":{"line":0,"character":0},"end":{"line":0,"character":0}},"severity":4,"code":"hint","message":"m"},
{"range":{"start":{"line":0,"character":0},"end":{"line":0,"character":0}},"message":"n"}]}}"#;

/// Notifications of LSP, and what they tell.
const OF_LSP: &[Told] = &[
    Told {
        document: LSP,
        rows: &[
            "Warning (6133) 'x' is declared but its value is never read.",
            "  at /p/a b/é.ts 5:3-6:1 utf16 ",
            "  also /p/c.ts 1:1-1:4 utf16 declared here",
            "Note (hint) m",
            "  at /p/a b/é.ts 1:1-1:1 utf16 ",
            "Error () n",
            "  at /p/a b/é.ts 1:1-1:1 utf16 ",
        ],
    },
    Told {
        document: r#"{"uri":"file:///p/a.c","diagnostics":[{"range":{"start":{"line":1,"character":0}},"message":"m"}]}"#,
        rows: &["Error () m", "  at /p/a.c 2:1 utf16 "],
    },
    Told {
        document: r#"{"jsonrpc":"2.0","method":"window/logMessage","params":{"type":3,"message":"m"}}"#,
        rows: &["no form"],
    },
];

#[test]
fn lsp(rt: HostRuntime) {
    assert_each_told(&rt, OF_LSP)
}

/// `go vet -json` of go 1.19.8, and by its documentation an end, and an analyzer that failed.
const VET: &str =
    r#"{"example.com/p":{"assign":[{"posn":"/p/a.go:7:21","message":"self-assignment of i to i"}],
"printf":[{"posn":"/p/a.go:6:14","message":"fmt.Printf format %d has arg é of wrong type string"},
{"posn":"/p/a.go:9","message":"m"},{"posn":"/p/a.go:9:2","end":"/p/a.go:10:4","message":"e"},
{"posn":"-","message":"n"}],
"shift":{"error":"analysis failed"}}}"#;

/// Documents of go vet's, and what they tell.
const OF_VET: &[Told] = &[
    Told {
        document: VET,
        rows: &[
            "Error (assign) self-assignment of i to i",
            "  at /p/a.go 7:21 bytes ",
            "Error (printf) fmt.Printf format %d has arg é of wrong type string",
            "  at /p/a.go 6:14 bytes ",
            "Error (printf) m",
            "  at /p/a.go 9 bytes ",
            "Error (printf) e",
            "  at /p/a.go 9:2-10:4 bytes ",
            "Error (printf) n",
            "  note -",
            "Error (shift) analysis failed",
        ],
    },
    Told {
        document: "{}",
        rows: &["no form"],
    },
    Told {
        document: r#"{"a":{"b":[{"message":"m"}]}}"#,
        rows: &["no form"],
    },
    Told {
        document: r#"{"a":{}}"#,
        rows: &["no form"],
    },
    Told {
        document: r#"{"a":{"b":[]}}"#,
        rows: &["no form"],
    },
    Told {
        document: r#"{"a":{"b":{"error":"m"}}}"#,
        rows: &["no form"],
    },
];

#[test]
fn vet(rt: HostRuntime) {
    assert_each_told(&rt, OF_VET)
}
