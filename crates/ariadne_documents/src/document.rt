//! Documents of JSON that go over many lines, gathered line by line.

ghost use Rattle.std.specs.Prelude.{◌≡◌, ◌≤◌, if◌then◌else◌, nat_lt, length, IfOk, IfSome, OnOk, OnErr, [], option_map};
ghost use Rattle.std.specs.List.{prefix_len};
ghost use Rattle.serde_json.specs.Data.{depth as nesting};
ghost use Rattle.serde_json.specs.Read.{max_depth};
ghost use Rattle.serde_json.specs.View.{view};
ghost use Rattle.ariadne_documents.specs.Brackets as brackets;
ghost use Rattle.ariadne_documents.specs.Documents as documents;
ghost use Rattle.ariadne_documents.specs.declared.document.Step.TheVariants.{Broken, Ended, GoesOn};

use crate::scan::{Scan, is_blank, opens, scan_line};
use ariadne_json::read_value;
use serde_json::Value;
use std::alloc::{AllocError, Global};
use std::marker::Model;

/// How many bytes a document may have.
pub const MOST_BYTES: usize = 1 << 25;

/// What a document does with a line.
#[derive(Clone, Copy)]
pub enum Step {
    /// The line is one of it, and it goes on behind it.
    GoesOn,
    /// The line is its last.
    Ended,
    /// The line can't be one of it, or it has become too long: so it is no document, and its lines are for the
    /// reader as they are. The line isn't taken.
    Broken,
}

/// A document of JSON of which the first lines were taken.
#[derive(Drop)]
pub struct Document {
    bytes: Vec<u8>,
    opened: usize,
    closed: usize,
}

impl Model for Document {
    ghost use Rattle.std.specs.Prelude.{List, ℕ};
    ghost use Rattle.ariadne_documents.specs.Documents.{IsGathered};

    ghost Value = { List ℕ };

    ghost view = { λ a. a.bytes.items };

    ghost invariant = { λ a. IsGathered a.bytes.items a.opened a.closed };
}

impl Document {
    /// A document of which no line was taken.
    pub fn new(alloc: Global) -> Document
        ensures { result ≡ [] }
    {
        Document {
            bytes: Vec::new(alloc),
            opened: 0,
            closed: 0,
        }
    }

    /// A document of which one line was taken, with what ends it. On `Err` there was no memory.
    pub fn of_line(alloc: Global, line: &[u8]) -> Result<Document, AllocError>
        ensures { IfOk result (λ document. document ≡ documents.text_with [] line.now) }
    {
        let mut document = Document::new(alloc);
        document.take(line)?;
        Ok(document)
    }

    /// Takes a line, with what ends it, if it can be one of the document: its texts in quotes end in it, and only such
    /// bytes stand outside of them as JSON has there.
    ///
    /// On `Err` there was no memory, and the line isn't taken.
    pub fn take(&mut self, line: &[u8]) -> Result<Step, AllocError>
        ensures step { IfOk result (λ step. step ≡ documents.step_of self.old line.now) }
        ensures ok { OnOk result (self.new ≡ documents.text_with self.old line.now) }
        ensures broken { IfOk result (λ step. step ≡ Broken → self.new ≡ self.old) }
        ensures err { OnErr result (self.new ≡ self.old) }
    {
        let scan = scan_line(line);
        if !fits(self.bytes.as_slice(), line, &scan) {
            return Ok(Step::Broken);
        }
        self.bytes.extend_from_slice(line)?;
        self.opened += scan.opened;
        self.closed += scan.closed;
        Ok(behind_line(self.opened, self.closed))
    }

    /// The lines that were taken, with what ends them.
    pub fn bytes(&self) -> &[u8]
        ensures { result.now ≡ self.now }
    {
        self.bytes.as_slice()
    }

    /// The value that the lines are, if they are one; bytes that are no UTF-8 stand as U+FFFD.
    ///
    /// On `Err` there was no memory.
    pub fn value(&self, alloc: Global) -> Result<Option<Value>, AllocError>
        ensures value { IfOk result (λ value. option_map view value ≡ documents.value_of self.now) }
        ensures nests { IfOk result (λ value. IfSome value (λ v. nesting (view v) ≤ max_depth)) }
    {
        let text = String::from_utf8_lossy(alloc, self.bytes.as_slice())?;
        read_value(alloc, text.as_str())
    }
}

/// Whether a line begins a document that goes on behind it: its first character behind blanks is a brace or a bracket,
/// and it opens more of these than it closes.
pub fn begins(line: &[u8]) -> bool
    ensures { result ≡ documents.begins line.now }
{
    opens_first(line) && goes_on(line)
}

/// Whether a line may be the first of a document that goes on behind it.
fn goes_on(line: &[u8]) -> bool
    ensures { result ≡ documents.goes_on line.now }
{
    let scan = scan_line(line);
    fits(&[], line, &scan) && scan.closed < scan.opened
}

/// Whether a line begins with a brace or a bracket, behind blanks.
fn opens_first(line: &[u8]) -> bool
    ensures { result ≡ documents.opens_first line.now }
{
    match line.get(blanks_len(line)).copied() {
        Some(first) => opens(first),
        None => false,
    }
}

/// How many blanks a line begins with.
fn blanks_len(line: &[u8]) -> usize
    ensures { result ≡ prefix_len brackets.is_blank line.now }
{
    line.iter().take_while(|byte| is_blank(**byte)).count()
}

/// Whether a line of which this is known may be one of a document that has this text.
fn fits(text: &[u8], line: &[u8], scan: &Scan) -> bool
    requires bound { length text.now ≤ documents.most_bytes }
    requires scan { scan.now ≡ brackets.scanned brackets.unscanned line.now }
    ensures { result ≡ documents.fits text.now line.now }
{
    line.len() <= MOST_BYTES - text.len() && scan.is_line()
}

/// What a document does behind its last line, which has opened and closed so many lists and objects.
fn behind_line(opened: usize, closed: usize) -> Step
    ensures { result ≡ (if nat_lt closed opened then GoesOn else Ended) }
{
    if closed < opened {
        Step::GoesOn
    } else {
        Step::Ended
    }
}
