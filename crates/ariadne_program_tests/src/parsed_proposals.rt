//! What rustc and gcc propose in their JSON, as changes of files.

use crate::comparing::assert_text_of;
use crate::showing::{push_made, ways_text};
use ariadne_parse::{Answer, Counting, Diagnostic, Format, Proposal, Reading, Sent, Unit, parsed};
use std::alloc::{AllocError, Global};

/// Lines, and what each proposes, in a row each.
const LINES: &[(&str, &str)] = &[
    // rustc suggests several ways, each of two parts
    (
        "{\"message\":\"m\",\"code\":null,\"level\":\"error\",\"spans\":[],\"children\":[{\"message\":\"try wrapping the expression in a variant of `Size`\",\"code\":null,\"level\":\"help\",\"spans\":[{\"file_name\":\"corpus/helps/02_choices.rs\",\"line_start\":9,\"line_end\":9,\"column_start\":30,\"column_end\":30,\"is_primary\":true,\"text\":[],\"suggested_replacement\":\"fruit::Size::Big(\"},{\"file_name\":\"corpus/helps/02_choices.rs\",\"line_start\":9,\"line_end\":9,\"column_start\":33,\"column_end\":33,\"is_primary\":true,\"text\":[],\"suggested_replacement\":\")\"},{\"file_name\":\"corpus/helps/02_choices.rs\",\"line_start\":9,\"line_end\":9,\"column_start\":30,\"column_end\":30,\"is_primary\":true,\"text\":[],\"suggested_replacement\":\"fruit::Size::Small(\"},{\"file_name\":\"corpus/helps/02_choices.rs\",\"line_start\":9,\"line_end\":9,\"column_start\":33,\"column_end\":33,\"is_primary\":true,\"text\":[],\"suggested_replacement\":\")\"}],\"children\":[],\"rendered\":null}]}",
        "0..1 corpus/helps/02_choices.rs (try wrapping the expression in a variant of `Size`) 9:30-9:30 `fruit::Size::Big(` 9:33-9:33 `)` or 9:30-9:30 `fruit::Size::Small(` 9:33-9:33 `)`\n",
    ),
    // a help in front of both, which suggests nothing
    (
        "{\"message\":\"m\",\"code\":null,\"level\":\"error\",\"spans\":[],\"children\":[{\"message\":\"to force the name, use `_x`\",\"code\":null,\"level\":\"help\",\"spans\":[],\"children\":[],\"rendered\":null},{\"message\":\"remove these parentheses\",\"code\":null,\"level\":\"help\",\"spans\":[{\"file_name\":\"corpus/helps/03_changes.rs\",\"line_start\":6,\"line_end\":6,\"column_start\":11,\"column_end\":12,\"is_primary\":true,\"text\":[],\"suggested_replacement\":\"\"},{\"file_name\":\"corpus/helps/03_changes.rs\",\"line_start\":6,\"line_end\":6,\"column_start\":25,\"column_end\":26,\"is_primary\":true,\"text\":[],\"suggested_replacement\":\" \"}],\"children\":[],\"rendered\":null},{\"message\":\"remove this `mut`\",\"code\":null,\"level\":\"help\",\"spans\":[{\"file_name\":\"corpus/helps/03_changes.rs\",\"line_start\":4,\"line_end\":4,\"column_start\":9,\"column_end\":13,\"is_primary\":true,\"text\":[],\"suggested_replacement\":\"\"}],\"children\":[],\"rendered\":null}]}",
        "1..2 corpus/helps/03_changes.rs (remove these parentheses) 6:11-6:12 `` 6:25-6:26 ` `\n2..3 corpus/helps/03_changes.rs (remove this `mut`) 4:9-4:13 ``\n",
    ),
    // parts of two files
    (
        "{\"message\":\"m\",\"code\":null,\"level\":\"error\",\"spans\":[],\"children\":[{\"message\":\"move it\",\"code\":null,\"level\":\"help\",\"spans\":[{\"file_name\":\"corpus/helps/02_choices.rs\",\"line_start\":1,\"line_end\":2,\"column_start\":1,\"column_end\":1,\"is_primary\":true,\"text\":[],\"suggested_replacement\":\"\"},{\"file_name\":\"corpus/helps/03_changes.rs\",\"line_start\":1,\"line_end\":1,\"column_start\":1,\"column_end\":1,\"is_primary\":true,\"text\":[],\"suggested_replacement\":\"x\"}],\"children\":[],\"rendered\":null}]}",
        "",
    ),
    // gcc's note says why
    (
        "[{\"kind\":\"warning\",\"message\":\"implicit declaration of function ‘printf’\",\"children\":[{\"kind\":\"note\",\"message\":\"include ‘<stdio.h>’ or provide a declaration of ‘printf’\",\"children\":[],\"locations\":[],\"fixits\":[{\"start\":{\"file\":\"corpus/c/18_fixit.c\",\"line\":1,\"column\":1,\"byte-column\":1,\"display-column\":1},\"string\":\"#include <stdio.h>\\n\",\"next\":{\"file\":\"corpus/c/18_fixit.c\",\"line\":1,\"column\":1,\"byte-column\":1,\"display-column\":1}}]}],\"locations\":[],\"fixits\":[]}]",
        "0..1 corpus/c/18_fixit.c past mark (include ‘<stdio.h>’ or provide a declaration of ‘printf’) 1:1-1:1 `#include <stdio.h>\n`\n",
    ),
    // the changes of a diagnostic of gcc's are one way, a help each; those of its note stand behind
    (
        "[{\"kind\":\"warning\",\"message\":\"use of old-style cast\",\"children\":[{\"kind\":\"note\",\"message\":\"n\",\"children\":[],\"locations\":[],\"fixits\":[{\"start\":{\"file\":\"corpus/fixits/02_casts.cpp\",\"line\":2,\"column\":53,\"byte-column\":53,\"display-column\":53},\"string\":\")\",\"next\":{\"file\":\"corpus/fixits/02_casts.cpp\",\"line\":2,\"column\":53,\"byte-column\":53,\"display-column\":53}}]}],\"locations\":[],\"fixits\":[{\"start\":{\"file\":\"corpus/fixits/02_casts.cpp\",\"line\":2,\"column\":44,\"byte-column\":44,\"display-column\":44},\"string\":\"static_cast<\",\"next\":{\"file\":\"corpus/fixits/02_casts.cpp\",\"line\":2,\"column\":45,\"byte-column\":45,\"display-column\":45}},{\"start\":{\"file\":\"corpus/fixits/02_casts.cpp\",\"line\":2,\"column\":48,\"byte-column\":48,\"display-column\":48},\"string\":\"> (\",\"next\":{\"file\":\"corpus/fixits/02_casts.cpp\",\"line\":2,\"column\":50,\"byte-column\":50,\"display-column\":50}}]}]",
        "0..2 corpus/fixits/02_casts.cpp past mark () 2:44-2:45 `static_cast<` 2:48-2:50 `> (`\n2..3 corpus/fixits/02_casts.cpp past mark (n) 2:53-2:53 `)`\n",
    ),
    // a fix-it that doesn't say where it ends
    (
        "[{\"kind\":\"error\",\"message\":\"m\",\"children\":[],\"locations\":[],\"fixits\":[{\"start\":{\"file\":\"corpus/fixits/02_casts.cpp\",\"line\":2,\"column\":44,\"byte-column\":44,\"display-column\":44},\"string\":\"a\",\"next\":{\"file\":\"corpus/fixits/02_casts.cpp\",\"line\":2,\"column\":45,\"byte-column\":45,\"display-column\":45}},{\"start\":{\"file\":\"corpus/fixits/02_casts.cpp\",\"line\":2,\"column\":48,\"byte-column\":48,\"display-column\":48},\"string\":\"b\"}]}]",
        "",
    ),
];

/// What the columns of a proposal count; nothing where that is characters.
fn unit_text(it: &Proposal) -> &'static str {
    match it.unit {
        Unit::Byte if it.is_past_mark => " past mark",
        Unit::Char if !it.is_past_mark => "",
        _ => " in another unit",
    }
}

/// A proposal in a row.
fn proposal_text(alloc: Global, it: &Proposal) -> Result<String, AllocError> {
    let (first, last) = (it.helps.start, it.helps.end);
    let (file, why) = (it.file.as_str(), it.why.as_str());
    let unit = unit_text(it);
    let ways = ways_text(alloc, it.ways.as_slice())?;
    format!(in alloc; "{first}..{last} {file}{unit} ({why}){ways}\n")
}

/// Adds what a diagnostic proposes, in a row each.
fn push_proposals(alloc: Global, text: &mut String, all: &[Proposal]) -> Result<(), AllocError> {
    for it in all {
        push_made(text, proposal_text(alloc, it))?;
    }
    Ok(())
}

/// What diagnostics propose, in a row each.
pub fn proposals_text(alloc: Global, all: &[Diagnostic]) -> Result<String, AllocError> {
    let mut text = String::new(alloc);
    for parsed in all {
        push_proposals(alloc, &mut text, parsed.proposals.as_slice())?;
    }
    Ok(text)
}

/// How the lines are read.
const READING: Reading = Reading {
    format: Format::Auto,
    counting: Counting {
        unit: Unit::Byte,
        is_from_zero: false,
    },
};

/// What a line proposes.
fn line_text(alloc: Global, line: &str) -> Result<String, AllocError> {
    match parsed(alloc, READING, &mut Sent::new(alloc), line)? {
        Answer::Diagnostics(all) => proposals_text(alloc, all.as_slice()),
        Answer::Nothing | Answer::Dropped | Answer::Head(_) | Answer::Note(_) => {
            Ok(String::new(alloc))
        }
    }
}

#[test]
fn proposals_of_tools(rt: HostRuntime) {
    for (line, want) in LINES {
        assert_text_of(&rt, *line, line_text(rt.alloc(), *line), *want);
    }
}
