//! Lines that wait, and what is ready of them: a report in the place of the lines of each diagnostic that matchers read,
//! and all other lines as they are.

ghost use Rattle.std.specs.Prelude.{◌≡◌, ◌∷◌, [], true, false, IfOk, OnOk};
ghost use Rattle.ariadne_show.specs.InputLines.{bare_text as text_of_line};
ghost use Rattle.ariadne_matching.specs.OwnTables.{is_any};
ghost use Rattle.ariadne_matching.specs.SettledLines.{AreSettled, IsHandedFor, IsTaken};
ghost use Rattle.ariadne_matching.specs.TriedMatchers.{may_begin_with};

use crate::lines::{Waiting, text_in_place};
use crate::matchers::{EntryAt, Matchers};
use crate::reading::{LineReader, Report, Told};
use ariadne_parse::{
    Answer, Diagnostic, Format, Reading, Sent, arrow_of, front_of, is_scope_line,
    parsed as parsed_by_forms,
};
use ariadne_show::Options;
use std::alloc::{AllocError, Global};
use std::rt::Files;

/// How lines are read.
#[derive(Clone, Copy)]
struct How {
    /// How the program's own forms read them.
    reading: Reading,
    /// Whether the program's own forms come first. Else a tool is named, whose matchers alone read lines.
    has_forms: bool,
    /// Whether matchers read lines.
    has_matchers: bool,
}

/// The lines of an entry in front of its loop.
#[derive(Drop)]
struct Loop {
    place: EntryAt,
    front: Vec<Waiting>,
}

/// Lines that are read by matchers.
#[derive(Drop)]
pub(crate) struct MatchedLines<'a, R: Files> {
    alloc: Global,
    how: How,
    reader: LineReader<'a, R>,
    // The lines that are read and not ready yet, and the loop that may go on with them.
    waiting: Vec<Waiting>,
    repeats: Option<Loop>,
    // What is to be handed over.
    ready: Vec<u8>,
}

impl<'a, R: Files> MatchedLines<'a, R> {
    /// No line yet, and these matchers to read them. On `Err` there was no memory.
    pub(crate) fn new(
        files: &'a R,
        alloc: Global,
        options: &Options<'_>,
        matchers: Matchers<'a>,
    ) -> Result<MatchedLines<'a, R>, AllocError> {
        Ok(MatchedLines {
            alloc,
            how: How {
                reading: options.reading,
                has_forms: options.tool.is_none(),
                has_matchers: has_matchers(options),
            },
            reader: LineReader::new(files, alloc, matchers, options.base)?,
            waiting: Vec::new(alloc),
            repeats: None,
            ready: Vec::new(alloc),
        })
    }

    /// What is ready.
    pub(crate) fn ready(&self) -> &[u8] {
        self.ready.as_slice()
    }

    /// Room for the next line, in place of what was ready.
    pub(crate) fn room(&mut self) -> Vec<u8> {
        let mut bytes = std::mem::replace(&mut self.ready, Vec::new(self.alloc));
        bytes.clear();
        bytes
    }

    /// Has a line wait, or makes it ready at once, if no other waits and no matcher needs a look at it.
    #[tactic(auto, using(crate::proofs::Taken::taken_last, crate::proofs::Taken::taken_at_once))]
    pub(crate) fn take(&mut self, bytes: Vec<u8>) -> Result<(), AllocError>
        ensures { OnOk result (IsTaken bytes.items self.old.waiting.items self.old.ready.items
            self.new.waiting.items self.new.ready.items) }
    {
        if self.waiting.is_empty() && self.passes_at_once(bytes.as_slice())? {
            self.ready = bytes;
        } else {
            self.waiting.push(Waiting::new(self.alloc, bytes)?)?;
        }
        Ok(())
    }

    /// Whether a line passes without waiting: no matcher reads lines, or none may begin there and no loop may go on.
    fn passes_at_once(&mut self, bytes: &[u8]) -> Result<bool, AllocError>
        ensures waiting { self.new.waiting ≡ self.old.waiting }
        ensures ready { self.new.ready ≡ self.old.ready }
        ensures passes { IfOk result (λ passes. passes ≡ true → self.old.how.has_matchers ≡ true
            → may_begin_with self.old.reader.matchers (text_of_line bytes.now ∷ []) ≡ false) }
    {
        if !self.how.has_matchers {
            return Ok(true);
        }
        let Some(line) = text_in_place(bytes) else {
            return Ok(false);
        };
        if self.repeats.is_some() || self.reader.may_begin(line) {
            return Ok(false);
        }
        self.reader.follow(line)?;
        Ok(true)
    }

    /// Makes ready what the lines that wait tell, as far as it needs no further line. They are all that there are, or
    /// the first of them.
    #[tactic(auto, using(crate::proofs::Settled::settled_trans))]
    pub(crate) fn settle(&mut self, is_all: bool) -> Result<(), AllocError>
        ensures { OnOk result (AreSettled self.old.waiting.items self.old.ready.items
            self.new.waiting.items self.new.ready.items) }
    {
        for _ in 0..self.waiting.len() {
            if self.waiting.is_empty() {
                return Ok(());
            }
            if !self.settle_first(is_all)? {
                return Ok(());
            }
        }
        Ok(())
    }

    /// Makes ready what the first lines that wait tell, unless the next line tells what that is.
    fn settle_first(&mut self, is_all: bool) -> Result<bool, AllocError>
        ensures { OnOk result (AreSettled self.old.waiting.items self.old.ready.items
            self.new.waiting.items self.new.ready.items) }
    {
        if self.go_on()? {
            return Ok(true);
        }
        if self.passes()? {
            self.pass_first()?;
            return Ok(true);
        }
        match self.reader.told(self.waiting.as_slice(), is_all)? {
            Told::Nothing => self.pass_first()?,
            Told::Open => return Ok(false),
            Told::Report(report) => self.hand_over(report)?,
        }
        Ok(true)
    }

    /// Makes ready what the first line tells, if a loop goes on with it. Else the loop is over.
    fn go_on(&mut self) -> Result<bool, AllocError>
        ensures { OnOk result (AreSettled self.old.waiting.items self.old.ready.items
            self.new.waiting.items self.new.ready.items) }
    {
        let (Some(found), Some(line)) = (self.repeats.take(), self.waiting.first()) else {
            return Ok(false);
        };
        match self
            .reader
            .told_again(found.place, found.front.as_slice(), line)?
        {
            Some(report) => {
                self.ready.extend_from_slice(report.as_bytes())?;
                let _taken = self.waiting.remove(0);
                self.repeats = Some(found);
                Ok(true)
            }
            None => Ok(false),
        }
    }

    /// Whether no matcher is to read the first line: none may begin there, or the program reads it without one.
    fn passes(&mut self) -> Result<bool, AllocError>
        ensures waiting { self.new.waiting ≡ self.old.waiting }
        ensures ready { self.new.ready ≡ self.old.ready }
    {
        let Some(line) = self.waiting.first() else {
            return Ok(true);
        };
        if !self.reader.may_begin(line.text.as_str()) {
            return Ok(true);
        }
        match by_forms(self.alloc, self.how, line.text.as_str())? {
            ByForms::Nothing => Ok(false),
            ByForms::Head(head) => self.reader.is_told_by(&head),
            ByForms::All => Ok(true),
        }
    }

    /// Makes the first line ready as it is.
    fn pass_first(&mut self) -> Result<(), AllocError>
        ensures { OnOk result (AreSettled self.old.waiting.items self.old.ready.items
            self.new.waiting.items self.new.ready.items) }
    {
        if self.waiting.is_empty() {
            return Ok(());
        }
        let line = self.waiting.remove(0);
        self.reader.follow(line.text.as_str())?;
        self.ready.extend_from_slice(line.bytes.as_slice())?;
        Ok(())
    }

    /// Makes a report ready in the place of its lines, which wait no more.
    fn hand_over(&mut self, report: Report) -> Result<(), AllocError>
        requires { IsHandedFor self.old.waiting.items report }
        ensures { OnOk result (AreSettled self.old.waiting.items self.old.ready.items
            self.new.waiting.items self.new.ready.items) }
    {
        let Report {
            mut bytes,
            count,
            repeats,
        } = report;
        self.ready.append(&mut bytes)?;
        let behind = self.waiting.split_off(count.min(self.waiting.len()))?;
        let mut front = std::mem::replace(&mut self.waiting, behind);
        let _last = front.pop();
        self.repeats = match repeats {
            Some(place) => Some(Loop { place, front }),
            None => None,
        };
        Ok(())
    }
}

/// Whether matchers read lines.
pub(crate) fn has_matchers(options: &Options<'_>) -> bool
    ensures { result ≡ is_any options.now.reading.format }
{
    matches!(options.reading.format, Format::Auto)
}

/// What the program's own forms read of a line.
#[derive(Drop)]
enum ByForms {
    /// Nothing.
    Nothing,
    /// The head of a diagnostic or of a note.
    Head(Diagnostic),
    /// All that it tells.
    All,
}

/// What the program's own forms read of a line, where they come first.
fn by_forms(alloc: Global, how: How, line: &str) -> Result<ByForms, AllocError> {
    if !how.has_forms {
        return Ok(ByForms::Nothing);
    }
    if line.starts_with('{') {
        return Ok(ByForms::All);
    }
    if front_of(line).is_some() || arrow_of(line).is_some() || is_scope_line(line) {
        return Ok(ByForms::All);
    }
    let mut sent = Sent::new(alloc);
    match parsed_by_forms(alloc, how.reading, &mut sent, line)? {
        Answer::Nothing => Ok(ByForms::Nothing),
        Answer::Head(head) => Ok(ByForms::Head(head)),
        Answer::Note(head) => Ok(ByForms::Head(head)),
        _ => Ok(ByForms::All),
    }
}
