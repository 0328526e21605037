//! Logs of SARIF, and what they tell.

use crate::showing::{Told, assert_each_told};

/// `clang 16.0.6 -fdiagnostics-format=sarif`, cut to its first result.
const CLANG: &str =
    r#"{"$schema":"https://docs.oasis-open.org/sarif/sarif/v2.1.0/cos02/schemas/sarif-schema-2.1.0.json",
"runs":[{"artifacts":[{"length":102,"location":{"index":0,"uri":"file:///p/b.c"},"mimeType":"text/plain",
"roles":["resultFile"]}],"columnKind":"unicodeCodePoints","results":[{"level":"error",
"locations":[{"physicalLocation":{"artifactLocation":{"index":0,"uri":"file:///p/b.c"},
"region":{"endColumn":19,"startColumn":19,"startLine":3}}}],"message":{"text":"use of undeclared identifier 'x'"},
"ruleId":"4631","ruleIndex":0}],"tool":{"driver":{"fullName":"","name":"clang","rules":[
{"defaultConfiguration":{"enabled":true,"level":"error","rank":50},"id":"4631","name":""}],"version":"16.0.6"}}}],
"version":"2.1.0"}"#;

/// What it tells.
const OF_CLANG: &[Told] = &[Told {
    document: CLANG,
    rows: &[
        "Error (4631) use of undeclared identifier 'x'",
        "  at /p/b.c 3:19-3:19 ",
    ],
}];

#[test]
fn a_log_of_clang(rt: HostRuntime) {
    assert_each_told(&rt, OF_CLANG)
}

/// By the standard: two runs, bases, artifacts, rules, regions, related locations and fixes.
const WHOLE: &str = r#"{"version":"2.1.0","runs":[
{"tool":{"driver":{"name":"t","rules":[
{"id":"R0","defaultConfiguration":{"level":"note"}},
{"id":"R1","defaultConfiguration":{"level":"error"},"messageStrings":{"default":{"text":"said by the rule"}}}]}},
"originalUriBaseIds":{"ROOT":{"uri":"file:///p/"},"SRC":{"uri":"s%20c","uriBaseId":"ROOT"}},
"artifacts":[{"location":{"uri":"a.c","uriBaseId":"SRC"}}],
"results":[
{"ruleId":"R1","message":{"id":"default"},"locations":[{"physicalLocation":{"artifactLocation":{"index":0},
"region":{"startLine":2,"startColumn":3,"endLine":4,"endColumn":5}},"message":{"text":"own"}}],
"relatedLocations":[{"id":1,"physicalLocation":{"artifactLocation":{"uri":"b.c","uriBaseId":"NONE"},
"region":{"startLine":7}},"message":{"text":"see"}},
{"physicalLocation":{"artifactLocation":{"uri":"/q/c.c"}},"message":{"text":"made here"}},
{"message":{"text":"only said"}}]},
{"rule":{"index":0},"message":{"text":"m"},"locations":[{"physicalLocation":{"artifactLocation":{"uri":"d.c",
"uriBaseId":"ROOT"}}}]},
{"ruleId":"R9","message":{"text":"w"},"kind":"fail","suppressions":[{"kind":"inSource","status":"rejected"}],
"fixes":[{"description":{"text":"why"},"artifactChanges":[{"artifactLocation":{"uri":"e.c"},"replacements":[
{"deletedRegion":{"startLine":1,"startColumn":2,"endColumn":4},"insertedContent":{"text":"new"}},
{"deletedRegion":{"startLine":5,"startColumn":1,"endLine":5,"endColumn":1},"insertedContent":{"text":"in"}}]}]},
{"description":{"text":"other"},"artifactChanges":[{"artifactLocation":{"uri":"e.c"},"replacements":[
{"deletedRegion":{"charOffset":3,"charLength":2}}]}]}]},
{"message":{"text":"passed"},"kind":"pass"},
{"message":{"text":"left out"},"suppressions":[{"kind":"external"}]},
{"level":"none","message":{"markdown":"n"}}]},
{"tool":{"driver":{"name":"u"}},"columnKind":"unicodeCodePoints","results":[
{"level":"note","message":{"text":"second"},"locations":[{"physicalLocation":{"artifactLocation":{"uri":"x.y"},
"region":{"startLine":1,"startColumn":2}}}]}]},
{"tool":{"driver":{"name":"v"}}}]}"#;

/// What it tells, and logs without runs or of other versions.
const BY_THE_STANDARD: &[Told] = &[
    Told {
        document: WHOLE,
        rows: &[
            "Error (R1) said by the rule",
            "  at /p/s c/a.c 2:3-4:5 utf16 own",
            "  also b.c 7-7 utf16 see",
            "  note /q/c.c: made here",
            "  note only said",
            "Note (R0) m",
            "  note /p/d.c",
            "Warning (R9) w",
            "  help why: put `new` in place of what stands from 1:2 to 1:4,",
            "put `in` at 5:1",
            "  help other",
            "  fix 0..1 e.c utf16 (why) 1:2-1:4 `new` 5:1-5:1 `in`",
            "Note () n",
            "Note () second",
            "  at x.y 1:2-1 ",
        ],
    },
    Told {
        document: r#"{"version":"2.1.0","runs":[]}"#,
        rows: &[],
    },
    Told {
        document: r#"{"version":"2.1.0","runs":[{"results":[]}]}"#,
        rows: &["no form"],
    },
    Told {
        document: r#"{"runs":[]}"#,
        rows: &["no form"],
    },
    Told {
        document: r#"{"version":"1.0","runs":[]}"#,
        rows: &["no form"],
    },
    Told {
        document: r#"{"$schema":"https://json.schemastore.org/sarif-2.1.0.json","runs":[]}"#,
        rows: &[],
    },
];

#[test]
fn a_log_by_the_standard(rt: HostRuntime) {
    assert_each_told(&rt, BY_THE_STANDARD)
}

/// By the standard: arguments, a rule of an extension, a result that tells of no failure, one that is gone, and the steps of
/// code flows.
const SAID: &str =
    r#"{"version":"2.1.0","runs":[{"tool":{"driver":{"name":"t","rules":[{"id":"D0"},{"id":"D1"}]},
"extensions":[{"name":"x","rules":[{"id":"X0"},{"id":"X1","defaultConfiguration":{"level":"error"},
"messageStrings":{"one":{"text":"{0} is {1}{1}, not {2}, {x}, {{0}}, {{{0}}} or {"}}}]}]},
"results":[
{"rule":{"index":1,"toolComponent":{"index":0}},"message":{"id":"one","arguments":["a","b{0}"]},
"relatedLocations":[{"physicalLocation":{"artifactLocation":{"uri":"a.c"},"region":{"startLine":2}},
"message":{"text":"by {0}","arguments":["hand"]}}],
"fixes":[{"description":{"text":"use {0}","arguments":["c"]},"artifactChanges":[{"artifactLocation":{"uri":"a.c"},
"replacements":[]}]}]},
{"ruleIndex":1,"kind":"review","message":{"text":"{0} and {{"}},
{"ruleId":"D0","baselineState":"absent","message":{"text":"gone"}},
{"ruleId":"D0","baselineState":"new","message":{"text":"led to"},"codeFlows":[{"threadFlows":[{"locations":[
{"location":{"physicalLocation":{"artifactLocation":{"uri":"a.c"},"region":{"startLine":3,"startColumn":4}},
"message":{"text":"made here"}}},
{"state":{}},
{"location":{"physicalLocation":{"artifactLocation":{"uri":"b.c"},"region":{"startLine":5}}}}]},
{"locations":[{"location":{"message":{"text":"another thread"}}}]}]},{"threadFlows":[]}]}]}]}"#;

/// What its results say.
const OF_RESULTS: &[Told] = &[Told {
    document: SAID,
    rows: &[
        "Error (X1) a is b{0}b{0}, not {2}, {x}, {0}, {a} or {",
        "  also a.c 2-2 utf16 by hand",
        "  help use c",
        "Note (D1) {0} and {{",
        "Warning (D0) led to",
        "  also a.c 3:4-3 utf16 (1) made here",
        "  also b.c 5-5 utf16 (3) ",
    ],
}];

#[test]
fn what_results_say(rt: HostRuntime) {
    assert_each_told(&rt, OF_RESULTS)
}
