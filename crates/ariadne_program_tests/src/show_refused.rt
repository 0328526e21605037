//! `show` with each of its requests for memory refused in turn.

ghost use Rattle.std.specs.Prelude.{◌<◌};

use crate::comparing::assert_same_of;
use crate::outcome::{Outcome, assert_same_at};
use crate::show::{
    FILE, options_of, outcome_of, run, shown, status_of_words, streams_with, with_path,
};
use ariadne_show::{Environment, Fault, Input, Inputs, Options, Status, Streams, Sum};
use ariadne_testing::{Folder, Given, Taker, refuse, texts, was_refused};
use std::alloc::{AllocError, Global};
use std::process::Abort;
use std::rt::{Env, Files};

/// What standard error gets of want of memory.
const NO_MEMORY: &[u8] = b"ariadne-show: no memory\n";

/// What tools print, with a `@` for the folder of its files: JSON of cargo's about a file that is gone,
/// with half of a pair that stands alone; a line of make's; a report with a name of its own; gcc's JSON with a
/// fix-it; gcc's text with lines in front, a snippet and notes, and with rows that tell programs what to change;
/// rustc's text, with a message of two rows and a span that isn't here; a line that its file lacks; mypy's
/// text; and a line that passes.
///
/// The longest line stands first. Where there is no memory for a line, a diagnostic that is held is shown
/// as it was read, as in front of a line that can't be read: that is no beginning of the whole.
const PRINTED: &str =
    "{\"reason\":\"compiler-message\",\"manifest_path\":\"/p/q/Cargo.toml\",\"message\":{\"message\":\"\\ud800\",\"level\":\"error\",\"spans\":[{\"file_name\":\"gone\",\"line_start\":1,\"column_start\":1,\"line_end\":1,\"column_end\":3,\"is_primary\":true,\"text\":[{\"text\":\"ab\"}]}],\"children\":[]}}
make: Entering directory '@'
{\"kind\":\"error\",\"name\":\"n\",\"message\":\"m\",\"labels\":[{\"file\":\"a.c\",\"start\":[1,5]}]}
[{\"kind\":\"error\",\"message\":\"m\",\"locations\":[{\"caret\":{\"file\":\"a.c\",\"line\":1,\"byte-column\":5}}],\"fixits\":[{\"start\":{\"file\":\"a.c\",\"line\":1,\"byte-column\":5},\"next\":{\"file\":\"a.c\",\"line\":1,\"byte-column\":6},\"string\":\"z\"}]}]
In file included from b.c:1:
a.c: In function 'f':
\x1b[1ma.c:1:9:\x1b[m error: m [-Wm]
    1 | let x = y;
      |         ^
      |         |
      |         int
      |         z
b.c:1:5: note: n
    1 | let x = y;
      |     ^
b.c:9:1: note: o
a.c:1:9: error: m
fix-it:\"a.c\":{1:5-1:6}:\"z\"
fix-it:\"a.c\":{1:9-1:10}:\"z\"
error[E1]: m
           o
 --> a.c:1:5
  |
1 | let x = y;
  |     ^   - l
  |
 ::: b.c:1:9
  |
1 | let x = y;
  |         - k
  |
note: n
 --> b.c:1:5
  |
1 | let x = y;
  |     ^
  = help: h
note: p
 --> gone.c:1:5
a.c:9:1: error: m
b.py:1: error: m
aaaaaaaaaaaaaaaaaaaaaaaaaaaaaaaaaaaaaaaaaaaaaaaaaaaaaaaaaaaaaaaaaaaaaaaaaaaaaaaaa
let x = y;
        ^
::a line\n";

/// Documents of JSON with fixes, with a `@` for the folder of their files: eslint's, in the longest line, SARIF's and
/// shellcheck's; and lines that begin as a document.
const DOCUMENTS: &str =
    "[{\"filePath\":\"@/a.c\",\"source\":\"int x = y;\",\"messages\":[{\"severity\":2,\"message\":\"m\",\"line\":1,\"column\":5,\"fix\":{\"range\":[4,5],\"text\":\"z\"}}]}]
{\"version\":\"2.1.0\",\"runs\":[{\"tool\":{},\"originalUriBaseIds\":{\"R\":{\"uri\":\"file://@/\"}},\"results\":[
{\"message\":{\"text\":\"m {0}\",\"arguments\":[\"n\"]},
\"locations\":[{\"physicalLocation\":{\"artifactLocation\":{\"uri\":\"a%2Ec\",\"uriBaseId\":\"R\"},
\"region\":{\"startLine\":1,\"startColumn\":5}}}],
\"codeFlows\":[{\"threadFlows\":[{\"locations\":[{\"location\":{
\"physicalLocation\":{\"artifactLocation\":{\"uri\":\"a.c\"},\"region\":{\"startLine\":1}}}}]}]}],
\"fixes\":[{\"description\":{\"text\":\"d\"},\"artifactChanges\":[{\"artifactLocation\":{\"uri\":\"a.c\"},
\"replacements\":[{\"deletedRegion\":{\"startLine\":1,\"startColumn\":5,\"endColumn\":6}}]}]}]}]}]}
{\"comments\":[{\"file\":\"@/a.c\",\"line\":1,\"column\":5,\"level\":\"error\",\"code\":1,\"message\":\"m\",
\"fix\":{\"replacements\":[{\"line\":1,\"endLine\":1,\"column\":5,\"endColumn\":6,\"replacement\":\"z\"}]}}]}
{
  a line\n";

/// The names of its files.
const FILES: &[&str] = &["a.c", "b.c", "b.py"];

/// Words, with a `@` for the folder, by which all that is written of a diagnostic is written.
const WORDS: &[&[&str]] = &[
    &["--ascii"],
    &["--ascii", "--width", "22"],
    &["--base", "@", "--max", "3"],
    &["--output", "short"],
    &["--output", "github"],
    &["--output", "sarif"],
];

/// Whether these bytes end where a line ends, or a result of a SARIF log, which the rest stands behind.
fn are_uncut(shown: &[u8], rest: &[u8]) -> bool {
    shown.is_empty()
        || shown.ends_with(b"\n")
        || rest.starts_with(b",\n")
        || rest.starts_with(b"\n]")
}

/// What is found of a beginning that cuts no line.
const UNCUT: &str = "whole lines";

/// Asserts that what was shown is a beginning of the whole, and that no line was cut.
fn assert_beginning(rt: &impl Abort, shown: &[u8], whole: &[u8], nth: usize) {
    let found = match whole.strip_prefix(shown) {
        Some(rest) if are_uncut(shown, rest) => UNCUT,
        Some(_) => "a cut line",
        None => "no beginning",
    };
    assert_same_at(rt, nth, &found, &UNCUT)
}

/// Asserts that a run with a request refused, which told that behind these bytes, cut no line.
fn assert_uncut(rt: &impl Abort, outcome: &Outcome, beside: &[u8], whole: &Outcome) {
    outcome.assert_status(rt, Status::Failed as u8);
    assert_beginning(
        rt,
        outcome.out.as_slice(),
        whole.out.as_slice(),
        outcome.nth,
    );
    assert_beginning(rt, beside, whole.faults.as_slice(), outcome.nth)
}

/// Asserts that a run came to the same as another.
fn assert_same_run(rt: &impl Abort, outcome: &Outcome, whole: &Outcome) {
    let (out, faults) = (whole.out.as_slice(), whole.faults.as_slice());
    outcome.assert_is(rt, whole.status, out, faults)
}

/// Asserts that a run with one request refused told that, and cut no line, or that it came to the same
/// as with memory. Where there was no such request the result is true.
fn is_whole(rt: &(impl AllocGlobal + Abort), outcome: &Outcome, whole: &Outcome) -> bool {
    let is_refused = was_refused(rt.alloc());
    match outcome.faults.as_slice().strip_suffix(NO_MEMORY) {
        Some(beside) if is_refused => assert_uncut(rt, outcome, beside, whole),
        // A vector that is collected asks again, for less, where it was refused what it may need.
        _ => assert_same_run(rt, outcome, whole),
    }
    !is_refused
}

/// Words with this folder in place of each `@`.
fn words_in<'a>(
    alloc: Global,
    words: &[&'a str],
    folder: &'a str,
) -> Result<Vec<&'a str>, AllocError> {
    let mut own = Vec::new(alloc);
    for word in words {
        own.push(if *word == "@" { folder } else { *word })?;
    }
    Ok(own)
}

/// Shows what tools print, with this request refused, counted from 1, or with none where it is 0.
fn show_refused(
    rt: &(impl Files + AllocGlobal + Abort),
    printed: &str,
    words: &[&str],
    folder: &str,
    nth: usize,
) -> Outcome
    requires { nth < 100000 }
{
    let own = words_in(rt.alloc(), words, folder).expect(rt, "memory");
    let input = with_path(rt.alloc(), printed, folder).expect(rt, "memory");
    let out = Taker::whole(rt.alloc()).expect(rt, "memory");
    run(rt, own.as_slice(), Given::whole(input.as_bytes()), out, nth)
}

/// Refuses each request of showing what tools print in turn, up to the one that there is none of.
fn refuse_each(
    rt: &(impl Files + AllocGlobal + Abort),
    printed: &str,
    words: &[&str],
    folder: &str,
) {
    let whole = show_refused(rt, printed, words, folder, 0);
    whole.assert_status(rt, Status::WithErrors as u8);
    for nth in 1..10000 {
        if is_whole(rt, &show_refused(rt, printed, words, folder, nth), &whole) {
            return;
        }
    }
    panic!(rt; "a request was refused each time")
}

/// A folder with the files.
fn folder_of_files(rt: &(impl Env + Files + AllocGlobal + Abort)) -> Folder {
    let folder = Folder::new(rt).expect(rt, "a folder");
    for name in FILES {
        folder.file_of(rt, *name, FILE).expect(rt, "a file");
    }
    folder
}

/// Refuses each request of showing all of this in turn, of files in this folder.
fn refuse_each_of_all(rt: &(impl Files + AllocGlobal + Abort), folder: &str) {
    for words in WORDS {
        refuse_each(rt, PRINTED, *words, folder)
    }
    refuse_each(rt, DOCUMENTS, &["--output", "short"], folder)
}

#[test]
fn a_refused_request_is_told_and_no_line_is_cut(rt: HostRuntime) {
    let folder = folder_of_files(&rt);
    let path = folder.path_of(&rt, ".").expect(&rt, "memory");
    refuse_each_of_all(&rt, path.as_str());
    folder.remove(&rt).expect(&rt, "no folder")
}

/// Words, and what is told of them; nothing where they ask for something.
const READ: &[(&[&str], &str)] = &[
    (
        &["--max", "4", "--color", "red", "a"],
        "ariadne-show: invalid value 'red' for '--color <WHEN>'\n  \
         [possible values: auto, always, never]\n\nFor more information, try '--help'.\n",
    ),
    (
        &["--odd"],
        "ariadne-show: unexpected argument '--odd' found\n\n  \
         tip: to pass '--odd' as a value, use '-- --odd'\n\n\
         Usage: ariadne-show [OPTIONS] [FILE]...\n\nFor more information, try '--help'.\n",
    ),
    (
        &["--width", "odd"],
        "ariadne-show: invalid value 'odd' for '--width <N>'\n  \
         [possible values: auto, full, and numbers of columns]\n\n\
         For more information, try '--help'.\n",
    ),
    (&["--base", "b", "--max", "4", "--width", "9", "a", "-"], ""),
];

/// What is told of these words, with this request refused.
fn told_of_words(rt: &(impl AllocGlobal + Abort), words: &[String], nth: usize) -> Taker
    requires { nth < 100000 }
{
    let mut faults = Taker::whole(rt.alloc()).expect(rt, "memory");
    refuse(rt.alloc(), nth);
    status_of_words(rt.alloc(), words, &mut faults);
    faults
}

/// Refuses the nth request of reading words. Where there is none this is told of them, and the result is
/// true.
fn is_read(rt: &(impl AllocGlobal + Abort), words: &[String], told: &[u8], nth: usize) -> bool
    requires { nth < 100000 }
{
    let faults = told_of_words(rt, words, nth);
    let is_refused = was_refused(rt.alloc());
    let found = faults.held.as_slice();
    let is_right = found == told || (is_refused && found == NO_MEMORY);
    assert_same_at(rt, nth, &is_right, &true);
    !is_refused
}

/// Refuses each request of reading words in turn, up to the one that there is none of.
fn refuse_each_of_words(rt: &(impl AllocGlobal + Abort), words: &[&str], told: &[u8]) {
    let words = texts(rt.alloc(), words).expect(rt, "memory");
    for nth in 1..1000 {
        if is_read(rt, words.as_slice(), told, nth) {
            return;
        }
    }
    panic!(rt; "a request was refused each time")
}

#[test]
fn a_refused_request_of_reading_words_is_want_of_memory(rt: HostRuntime) {
    for (words, told) in READ {
        refuse_each_of_words(&rt, *words, told.as_bytes())
    }
}

/// Shows what inputs tell. Where one can't be read, that is told before another fault.
fn shown_inputs(
    rt: &(impl Files + AllocGlobal + Abort),
    options: &Options<'_>,
    inputs: &[Input<'_>],
    streams: &mut Streams<Taker, Taker>,
) -> Result<Sum, Fault> {
    let mut inputs = Inputs::new(rt, rt.alloc(), Given::whole(b"a"), inputs);
    let sum = shown(rt, options, &mut inputs, streams);
    let unread = inputs.into_fault();
    sum.map_err(|fault| unread.unwrap_or(fault))
}

/// Does this as the program does, which reads the environment first.
fn shown_as_by_main(
    rt: &(impl Env + Files + AllocGlobal + Abort),
    options: &Options<'_>,
    inputs: &[Input<'_>],
    streams: &mut Streams<Taker, Taker>,
) -> Result<Sum, Fault> {
    let _environment = Environment::of(rt)?;
    shown_inputs(rt, options, inputs, streams)
}

/// Shows what inputs tell, with this request refused, counted from 1, or with none where it is 0.
fn show_inputs_refused(
    rt: &(impl Env + Files + AllocGlobal + Abort),
    inputs: &[Input<'_>],
    nth: usize,
) -> Outcome
    requires { nth < 100000 }
{
    let options = options_of(rt, &[]);
    let out = Taker::whole(rt.alloc()).expect(rt, "memory");
    let mut streams = streams_with(rt, out);
    refuse(rt.alloc(), nth);
    let sum = shown_as_by_main(rt, &options, inputs, &mut streams);
    outcome_of(sum, options.fail_on, streams, nth)
}

/// Refuses each request of showing what inputs tell in turn, up to the one that there is none of.
fn refuse_each_of_inputs(rt: &(impl Env + Files + AllocGlobal + Abort), inputs: &[Input<'_>]) {
    let whole = show_inputs_refused(rt, inputs, 0);
    let shown: &[u8] = b"a\nlet x = y;\nlast\n";
    assert_same_of(rt, "the inputs", &whole.out.as_slice(), &shown);
    whole.assert_status(rt, Status::Failed as u8);
    for nth in 1..1000 {
        if is_whole(rt, &show_inputs_refused(rt, inputs, nth), &whole) {
            return;
        }
    }
    panic!(rt; "a request was refused each time")
}

#[test]
fn a_refused_request_of_the_environment_or_an_input_is_told(rt: HostRuntime) {
    let folder = Folder::new(&rt).expect(&rt, "a folder");
    let path = folder.file_of(&rt, "a", FILE).expect(&rt, "a file");
    let gone = folder.path_of(&rt, "gone").expect(&rt, "memory");
    let inputs = [
        Input::Standard,
        Input::File(path.as_str()),
        Input::File(gone.as_str()),
    ];
    refuse_each_of_inputs(&rt, &inputs);
    folder.remove(&rt).expect(&rt, "no folder")
}
