//! What lines tell by matchers, as what is handed over for them.

ghost use Rattle.std.specs.Prelude.{◌≡◌, ◌∷◌, [], map, string_bytes, IfOk, IfSome};
ghost use Rattle.ariadne_matchers.specs.Catches.{caught_at};
ghost use Rattle.ariadne_matching.specs.SettledLines.{IsReportAt, IsReportOfFit, IsTold, IsToldAgain};
ghost use Rattle.ariadne_matching.specs.TriedMatchers.{may_begin_with, renumbered};

use crate::files::TextFiles;
use crate::handing::handed_over;
use crate::lines::{Waiting, texts_of};
use crate::matchers::{EntryAt, Matchers, Search};
use ariadne_matchers::{Fit, Often};
use ariadne_parse::{Diagnostic, Severity};
use std::alloc::{AllocError, Global};
use std::rt::Files;

/// What is handed over for the first lines that wait.
#[derive(Drop)]
pub struct Report {
    /// The bytes.
    pub bytes: Vec<u8>,
    /// How many lines they stand for.
    pub count: usize,
    /// The entry, if each further line that fits its last row tells one more diagnostic.
    pub repeats: Option<EntryAt>,
}

/// What the first lines that wait tell.
#[derive(Drop)]
pub enum Told {
    /// No entry fits them whose file can be read and has its line.
    Nothing,
    /// The next line tells.
    Open,
    /// This.
    Report(Report),
}

/// What reads lines by matchers.
#[derive(Drop)]
pub struct LineReader<'a, R: Files> {
    files: &'a R,
    alloc: Global,
    matchers: Matchers<'a>,
    texts: TextFiles,
}

impl<'a, R: Files> LineReader<'a, R> {
    /// Lines are read by these matchers, and with a folder as `base` no file outside of it. On `Err` there was no
    /// memory.
    pub fn new(
        files: &'a R,
        alloc: Global,
        matchers: Matchers<'a>,
        base: Option<&str>,
    ) -> Result<LineReader<'a, R>, AllocError> {
        Ok(LineReader {
            files,
            alloc,
            matchers,
            texts: TextFiles::new(files, alloc, base)?,
        })
    }

    /// Follows make where a line that passes says that it goes.
    pub fn follow(&mut self, line: &str) -> Result<(), AllocError> {
        self.texts.follow(line)
    }

    /// Whether an entry may begin with a line: others need no look.
    pub fn may_begin(&mut self, line: &str) -> bool
        ensures { result ≡ may_begin_with self.old.matchers (line.now ∷ []) }
    {
        self.matchers.may_begin(&[line])
    }

    /// Whether a line tells enough that the program's own forms read as the head of a diagnostic: its file can be read,
    /// and it says what the diagnostic is about. On `Err` there was no memory.
    pub fn is_told_by(&mut self, head: &Diagnostic) -> Result<bool, AllocError> {
        match head.main_span() {
            Some(span) if !is_begun(head, span.file.as_str()) => {
                self.texts.has(self.files, span.file.as_str())
            }
            Some(_) => Ok(false),
            None => Ok(true),
        }
    }

    /// What lines tell, from the first one on: by the first entry that fits them, and whose file can be read and has
    /// its line. They are all that there are, or the first of them. On `Err` there was no memory.
    pub fn told(&mut self, lines: &[Waiting], is_all: bool) -> Result<Told, AllocError>
        ensures { IfOk result (IsTold self.new.matchers is_all lines.now) }
    {
        let texts = texts_of(self.alloc, lines)?;
        let mut from = EntryAt::Own(0);
        for _ in 0..u64::MAX {
            match self
                .matchers
                .fit(self.alloc, from, texts.as_slice(), is_all)?
            {
                Search::Nothing => return Ok(Told::Nothing),
                Search::Open(_) => return Ok(Told::Open),
                Search::Fits(place, fit) => {
                    if let Some(report) = self.report(place, lines, &fit)? {
                        return Ok(Told::Report(report));
                    }
                    from = place.next();
                }
            }
        }
        Err(AllocError) // (No memory has so many entries.)
    }

    /// What a line tells behind the front of a loop, with which an entry fits it. On `Err` there was no memory.
    pub fn told_again(
        &mut self,
        place: EntryAt,
        front: &[Waiting],
        line: &Waiting,
    ) -> Result<Option<String>, AllocError>
        ensures { IfOk result (λ report. IfSome report
            (λ it. IsToldAgain self.new.matchers place front.now line.now (string_bytes it))) }
    {
        let mut texts = texts_of(self.alloc, front)?;
        texts.push(line.text.as_str())?;
        match self
            .matchers
            .fit(self.alloc, place, texts.as_slice(), true)?
        {
            Search::Fits(found, fit) if found.is(place) && fit.lines.len() == texts.len() => {
                self.report_line(place, &fit)
            }
            _ => Ok(None),
        }
    }

    /// What is handed over for lines that an entry fits, if its file can be read and has its line.
    fn report(
        &mut self,
        place: EntryAt,
        lines: &[Waiting],
        fit: &Fit<'_>,
    ) -> Result<Option<Report>, AllocError>
        ensures report { IfOk result (λ report. IfSome report
            (IsReportOfFit self.old.matchers (renumbered place fit.now.entry) lines.now fit.now)) }
        ensures same { self.new.matchers ≡ self.old.matchers }
    {
        match self.report_line(place, fit)? {
            Some(report) => Ok(Some(Report {
                bytes: handed_over(self.alloc, lines, fit, report.as_str())?,
                count: fit.lines.len(),
                repeats: self.repeats(place),
            })),
            None => Ok(None),
        }
    }

    /// The report of what lines tell that an entry fits, if its file can be read and has its line.
    fn report_line(&mut self, place: EntryAt, fit: &Fit<'_>) -> Result<Option<String>, AllocError>
        ensures report { IfOk result (λ line. IfSome line (λ it. IsReportAt self.old.matchers
            (renumbered place fit.now.entry) (map caught_at fit.now.lines.items) (string_bytes it))) }
        ensures same { self.new.matchers ≡ self.old.matchers }
    {
        match self.matchers.measured(self.alloc, place, fit)? {
            Some(measured) => self.texts.report(self.files, &measured),
            None => Ok(None),
        }
    }

    /// An entry, if its last row is a loop.
    fn repeats(&self, place: EntryAt) -> Option<EntryAt> {
        match self.matchers.entry(place)?.rows.as_slice().last() {
            Some(row) if row.often == Often::Loop => Some(place),
            _ => None,
        }
    }
}

/// Whether a diagnostic in a file is only begun, so that the next lines say what it is about. Notes are read as they
/// stand.
fn is_begun(head: &Diagnostic, file: &str) -> bool {
    match head.severity {
        Severity::Error | Severity::Warning => is_cut_off(head.message.as_str(), file),
        Severity::Note => false,
    }
}

/// Whether a message goes on: it is a word and a colon, or a code in brackets, or ends in a semicolon. Of javac's
/// messages, which may end in one too, the program's forms read the next lines.
fn is_cut_off(message: &str, file: &str) -> bool {
    match message.strip_suffix(':') {
        Some(word) => !word.contains(' '),
        None => {
            message.ends_with(';') && !file.ends_with(".java")
                || message.starts_with('[') && message.ends_with(']')
        }
    }
}
