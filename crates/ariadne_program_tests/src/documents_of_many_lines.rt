//! Documents that go over many lines, as `jq .` writes them, from their lines to what they tell.

use crate::document_lines::gathered;
use crate::showing::{Told, all_text, assert_rows};
use ariadne_documents::{Document, Step, document_answer, line_answer};
use ariadne_parse::{Answer, Counting, Format, Reading, Sent, Unit};
use std::alloc::{AllocError, Global};

/// `gcc 12.2.0 -fdiagnostics-format=json` through `jq .`, without its second location.
const GCC: &str = r#"[
  {
    "kind": "error",
    "column-origin": 1,
    "children": [],
    "fixits": [
      {
        "next": {
          "byte-column": 23,
          "display-column": 23,
          "line": 1,
          "file": "c.c",
          "column": 23
        },
        "string": ";",
        "start": {
          "byte-column": 23,
          "display-column": 23,
          "line": 1,
          "file": "c.c",
          "column": 23
        }
      }
    ],
    "locations": [
      {
        "caret": {
          "byte-column": 23,
          "display-column": 23,
          "line": 1,
          "file": "c.c",
          "column": 23
        }
      }
    ],
    "message": "expected ‘;’ before ‘}’ token",
    "escape-source": false
  }
]
"#;

/// `rustc 1.95.0 --error-format=json` through `jq .`, without its children and the text that it draws.
const RUSTC: &str = r#"{
  "$message_type": "diagnostic",
  "message": "unused variable: `x`",
  "code": {
    "code": "unused_variables",
    "explanation": null
  },
  "level": "warning",
  "spans": [
    {
      "file_name": "r.rs",
      "byte_start": 16,
      "byte_end": 17,
      "line_start": 1,
      "line_end": 1,
      "column_start": 17,
      "column_end": 18,
      "is_primary": true,
      "text": [
        {
          "text": "fn main() { let x = 1; }",
          "highlight_start": 17,
          "highlight_end": 18
        }
      ],
      "label": null,
      "suggested_replacement": null,
      "suggestion_applicability": null,
      "expansion": null
    }
  ],
  "children": []
}
"#;

/// `go vet -json` of go 1.19.8 through `jq .`, without its comment `# example.com/p`.
const VET: &str = r#"{
  "example.com/p": {
    "printf": [
      {
        "posn": "/p/a.go:6:14",
        "message": "fmt.Printf format %d has arg é of wrong type string"
      }
    ]
  }
}
"#;

/// An answer in rows.
fn answer_text(alloc: Global, answer: &Answer) -> Result<String, AllocError> {
    match answer {
        Answer::Diagnostics(all) => all_text(alloc, all.as_slice()),
        Answer::Dropped => String::from_str(alloc, "dropped\n"),
        Answer::Nothing => String::from_str(alloc, "nothing\n"),
        Answer::Head(_) | Answer::Note(_) => String::from_str(alloc, "a head\n"),
    }
}

/// The same of an answer that is given away.
fn owned_text(alloc: Global, answer: Answer) -> Result<String, AllocError> {
    answer_text(alloc, &answer)
}

/// The answer to a whole document.
fn answer_to(alloc: Global, document: &Document) -> Result<Answer, AllocError> {
    document_answer(alloc, Format::Auto, &mut Sent::new(alloc), document)
}

/// What a whole document tells, in rows.
fn document_text(alloc: Global, document: &Document) -> Result<String, AllocError> {
    owned_text(alloc, answer_to(alloc, document)?)
}

/// What a text tells that is one document, in rows.
fn told_text(alloc: Global, text: &str) -> Result<String, AllocError> {
    match gathered(alloc, text)? {
        (document, Some(Step::Ended)) => document_text(alloc, &document),
        _ => String::from_str(alloc, "no document\n"),
    }
}

/// Documents, each with its rows.
const DOCUMENTS: &[Told] = &[
    Told {
        document: GCC,
        rows: &[
            "Error () expected ‘;’ before ‘}’ token",
            "  at c.c 1:23 bytes ",
            "  help put `;` at 1:23",
            "  fix 0..1 c.c bytes () 1:23-1:23 `;`",
        ],
    },
    Told {
        document: RUSTC,
        rows: &[
            "Warning (unused_variables) unused variable: `x`",
            "  at r.rs 1:17-1:18 ",
        ],
    },
    Told {
        document: VET,
        rows: &[
            "Error (printf) fmt.Printf format %d has arg é of wrong type string",
            "  at /p/a.go 6:14 bytes ",
        ],
    },
    Told {
        document: "{}\n",
        rows: &["no document"],
    },
    Told {
        document: "{\n}\n{\n}\n",
        rows: &["no document"],
    },
    Told {
        document: "{\n\"a\": 1\n}\n",
        rows: &["nothing"],
    },
    Told {
        document: "{\n\"a\"\n}\n",
        rows: &["nothing"],
    },
];

#[test]
fn documents_told_by_their_lines(rt: HostRuntime) {
    for it in DOCUMENTS {
        let found = told_text(rt.alloc(), it.document).expect(&rt, "memory");
        assert_rows(&rt, it.document, found.as_str(), it.rows);
    }
}

/// A document of shellcheck's in one line.
const LINE: &str = r#"{"comments":[{"file":"a.sh","line":2,"level":"error","message":"m"}]}"#;

/// Lines in a form, each with its rows.
const LINES: &[(Format, &str, &[&str])] = &[
    (Format::Auto, LINE, &["Error () m", "  at a.sh 2 "]),
    (Format::Gcc, LINE, &["nothing"]),
    (Format::Lines, LINE, &["nothing"]),
    (Format::Auto, "[]", &["nothing"]),
    (Format::Auto, "{\"a\": 1}", &["nothing"]),
    (
        Format::Auto,
        "{\"reason\":\"build-finished\",\"success\":true}",
        &["dropped"],
    ),
    (Format::Auto, "a.c:1:2: error: m", &["a head"]),
];

/// How columns are counted.
const COUNTING: Counting = Counting {
    unit: Unit::Byte,
    is_from_zero: false,
};

/// The answer to a line in a form.
fn line_answer_of(alloc: Global, format: Format, line: &str) -> Result<Answer, AllocError> {
    let counting = COUNTING;
    let reading = Reading { format, counting };
    line_answer(alloc, reading, &mut Sent::new(alloc), line)
}

/// What a line tells in a form, in rows.
fn line_text(alloc: Global, format: Format, line: &str) -> Result<String, AllocError> {
    owned_text(alloc, line_answer_of(alloc, format, line)?)
}

#[test]
fn lines_told_by_their_forms(rt: HostRuntime) {
    for &(format, line, rows) in LINES {
        let found = line_text(rt.alloc(), format, line).expect(&rt, "memory");
        assert_rows(&rt, line, found.as_str(), rows);
    }
}
