//! What a tool tells: a diagnostic, and the spans that it is about.

ghost use Rattle.std.specs.Prelude.{◌≡◌, [], false, IfOk, None, string_bytes};
ghost use Rattle.std.specs.Option.{option_copied};
ghost use Rattle.ariadne_parse.specs.Severities.{severity_of};
ghost use Rattle.ariadne_parse.specs.ParsedDiagnostics.{main_of};
ghost use Rattle.ariadne_parse.specs.ParsedDiagnostics.{first_primary as first_primary_of};

use crate::names::{is_error, is_note, is_warning};
use crate::unit::Unit;
use ariadne_color::Color;
use std::alloc::{AllocError, Global};
use std::ops::Range;

/// How bad a diagnostic is.
#[derive(Clone, Copy)]
pub enum Severity {
    /// It stops the tool, or makes it fail.
    Error,
    /// It may be a mistake.
    Warning,
    /// It only says something.
    Note,
}

impl Severity {
    /// The severity that tools give this name, in any case of letters, if it is one.
    #[tactic(auto, unfolding(crate::specs::Severities::severity_of))]
    pub fn of(name: &str) -> Option<Severity>
        ensures { result ≡ severity_of name.now }
    {
        if is_error(name) {
            Some(Severity::Error)
        } else if is_warning(name) {
            Some(Severity::Warning)
        } else if is_note(name) {
            Some(Severity::Note)
        } else {
            None
        }
    }
}

/// A line of a file, and a column of it. Both count from 1. Without a column it is the line from its
/// start.
#[derive(Clone, Copy, PartialEq, Eq)]
pub struct Location {
    /// The line.
    pub line: usize,
    /// The column, in the unit of the span.
    pub column: Option<usize>,
}

/// Where a span ends.
#[derive(Clone, Copy, PartialEq, Eq)]
pub enum End {
    /// In front of the character that stands there.
    Before(Location),
    /// Behind the character that stands there.
    Behind(Location),
    /// Behind the word that it begins with; or at the end of its line, where it has no column.
    OfWord,
}

/// How a span is drawn.
#[derive(Clone, Copy, Default)]
pub struct Look {
    /// Its label's order: those of a lower one are drawn first. It is 0 where none is told.
    pub order: i32,
    /// Its label's priority: that of the highest is seen where labels overlap. It is 0 where none is
    /// told.
    pub priority: i32,
    /// Its colour, if one is told.
    pub color: Option<Color>,
}

/// A piece of a file, and what is said of it.
#[derive(Drop)]
pub struct Span {
    /// The file's path, as the tool wrote it.
    pub file: String,
    /// Where the tool points.
    pub caret: Location,
    /// Where it begins.
    pub start: Location,
    /// Where it ends.
    pub end: End,
    /// What its columns count.
    pub unit: Unit,
    /// Whether they leave out a byte order mark at the start of the file, as gcc's columns of bytes do.
    pub is_past_mark: bool,
    /// What is said of it; nothing where it is empty.
    pub text: String,
    /// Whether the diagnostic is about this span.
    pub is_primary: bool,
    /// How it is drawn.
    pub look: Look,
    /// From where to where the tool's own marks cover it, if it draws some: in front of the character at
    /// the second location they end. Their columns count characters. They are surer than `start` and `end`.
    pub marks: Option<(Location, Location)>,
}

/// A kind of the tool's own.
#[derive(Drop)]
pub struct OwnKind {
    /// What it is called.
    pub name: String,
    /// Its colour, if one is told.
    pub color: Option<Color>,
}

/// A line of a file as a tool quotes it.
#[derive(Drop)]
pub struct QuotedLine {
    /// The file's path, as the tool wrote it.
    pub file: String,
    /// The line, from 1.
    pub line: usize,
    /// Its text, without what ends it.
    pub text: String,
}

/// A piece of a file, and the text that is put in its place.
#[derive(Drop)]
pub struct Change {
    /// Where the piece begins.
    pub start: Location,
    /// Where it ends: in front of this. It is `start` for an insertion.
    pub end: Location,
    /// The text put there.
    pub put_in: String,
}

/// The changes that a tool proposes, in one or several ways, each a list of changes of one file.
#[derive(Drop)]
pub struct Proposal {
    /// The helps that say the same in words: from the first to before the last, by their numbers from 0.
    pub helps: Range<usize>,
    /// Why: what the tool says beside; nothing if it is empty.
    pub why: String,
    /// The file's path, as the tool wrote it.
    pub file: String,
    /// What the columns of its changes count.
    pub unit: Unit,
    /// Whether they leave out a byte order mark at the start of the file.
    pub is_past_mark: bool,
    /// The ways: of each, its changes in the tool's order.
    pub ways: Vec<Vec<Change>>,
}

/// What a tool tells.
#[derive(Drop)]
pub struct Diagnostic {
    /// How bad it is.
    pub severity: Severity,
    /// What it is called in place of its severity, if anything.
    pub own_kind: Option<OwnKind>,
    /// Its code, as `E0308` or `-Wunused`.
    pub code: Option<String>,
    /// What it says.
    pub message: String,
    /// The spans that it is about.
    pub spans: Vec<Span>,
    /// What it says beside.
    pub notes: Vec<String>,
    /// What it proposes.
    pub helps: Vec<String>,
    /// What it proposes, as changes of files.
    pub proposals: Vec<Proposal>,
    /// The lines of files that it quotes.
    pub quoted: Vec<QuotedLine>,
    /// The path of the manifest of the package that it is about, where cargo hands it on.
    pub manifest: Option<String>,
    /// Whether it sums up others, as rustc's `aborting due to 2 previous errors`. It counts as none.
    pub is_sum: bool,
}

impl Diagnostic {
    /// A diagnostic that says this, and has nothing else yet.
    pub fn new(alloc: Global, severity: Severity, message: &str) -> Result<Diagnostic, AllocError>
        ensures severity { IfOk result (λ parsed. parsed.severity ≡ severity) }
        ensures own_kind { IfOk result (λ parsed. parsed.own_kind ≡ None) }
        ensures code { IfOk result (λ parsed. parsed.code ≡ None) }
        ensures message { IfOk result (λ parsed. string_bytes parsed.message ≡ message.now) }
        ensures spans { IfOk result (λ parsed. parsed.spans.items ≡ []) }
        ensures notes { IfOk result (λ parsed. parsed.notes.items ≡ []) }
        ensures helps { IfOk result (λ parsed. parsed.helps.items ≡ []) }
        ensures proposals { IfOk result (λ parsed. parsed.proposals.items ≡ []) }
        ensures quoted { IfOk result (λ parsed. parsed.quoted.items ≡ []) }
        ensures manifest { IfOk result (λ parsed. parsed.manifest ≡ None) }
        ensures counted { IfOk result (λ parsed. parsed.is_sum ≡ false) }
    {
        let message = String::from_str(alloc, message)?;
        Ok(Diagnostic::begun(alloc, severity, None, None, message))
    }

    /// A diagnostic with this kind, code and message, and nothing else yet.
    pub(crate) fn begun(
        alloc: Global,
        severity: Severity,
        own_kind: Option<OwnKind>,
        code: Option<String>,
        message: String,
    ) -> Diagnostic
        ensures severity { result.severity ≡ severity }
        ensures own_kind { result.own_kind ≡ own_kind }
        ensures code { result.code ≡ code }
        ensures message { result.message ≡ message }
        ensures spans { result.spans.items ≡ [] }
        ensures notes { result.notes.items ≡ [] }
        ensures helps { result.helps.items ≡ [] }
        ensures proposals { result.proposals.items ≡ [] }
        ensures quoted { result.quoted.items ≡ [] }
        ensures manifest { result.manifest ≡ None }
        ensures counted { result.is_sum ≡ false }
    {
        Diagnostic {
            severity,
            own_kind,
            code,
            message,
            spans: Vec::new(alloc),
            notes: Vec::new(alloc),
            helps: Vec::new(alloc),
            proposals: Vec::new(alloc),
            quoted: Vec::new(alloc),
            manifest: None,
            is_sum: false,
        }
    }

    /// The span that it is about: the first primary one, or the first.
    pub fn main_span(&self) -> Option<&Span>
        ensures { option_copied result ≡ main_of self.now.spans.items }
    {
        match first_primary(self.spans.as_slice()) {
            Some(span) => Some(span),
            None => self.spans.first(),
        }
    }
}

/// The first primary one of spans.
fn first_primary(spans: &[Span]) -> Option<&Span>
    ensures { option_copied result ≡ first_primary_of spans.now }
{
    spans.iter().find(|span| span.is_primary)
}
