//! The files that diagnostics name, each read once.

ghost use Rattle.std.specs.Prelude.{◌≡◌, ℕ, List, [], ◌∷◌, None, option_map, string_bytes};
ghost use Rattle.std.specs.Prelude.{IfOk, OnOk};
ghost use Rattle.std.specs.Option.{option_copied};
ghost use Rattle.ariadne_safe.specs.Sources.{sources_of};
ghost use Rattle.ariadne_search.specs.Search.{candidates as all_candidates};
ghost use Rattle.ariadne_blocks.specs.Files.{file_of};
ghost use Rattle.ariadne_show.specs.Finding.{file_at};
ghost use Rattle.ariadne_show.specs.FoundSpans.{files_of, held_at, read_in};
ghost use Rattle.ariadne_show.specs.LinesAndColumns.{caret_in_line as caret_in_its_line};
ghost use Rattle.ariadne_show.specs.ReadFiles.{is_read as is_read_in, sources_in, AreQuoted, HaveSearched};
ghost use Rattle.ariadne_show.specs.ReadFiles.{HaveSources, HaveTried, AreOpened, IsHeldBehind};
ghost use Rattle.ariadne_show.specs.ReadFiles.{AreFilesSettled, AreQuotedIn, IsFileSettledNow};
ghost use Rattle.ariadne_show.specs.ReadFiles.{IsQuotedNow, IsSettledNow, IsTried};

use crate::bounds::Bounds;
use crate::held::{FileText, HeldFile};
use crate::quoted::hold_quoted;
use ariadne_blocks::QuotedFile;
use ariadne_parse::{Columns, Proposal, QuotedLine, Span, Unit};
use ariadne_safe::{LineEnds, SafeSource, SafeSources};
use ariadne_search::{Search, candidates};
use std::alloc::{AllocError, Global};
use std::collections::HashMap;
use std::rt::Files;

/// Files by their paths, and their sources as they can be shown.
#[derive(Drop)]
pub struct Shelf {
    sources: SafeSources,
    files: HashMap<String, Option<HeldFile>>,
    quoted: HashMap<String, HeldFile>,
    bounds: Bounds,
    alloc: Global,
}

impl Shelf {
    /// A shelf without files, which reads those within these bounds.
    pub fn new(alloc: Global, bounds: Bounds) -> Shelf
        ensures empty { (path : List ℕ) → files_of result path ≡ None }
        ensures sources { HaveSources result }
    {
        Shelf {
            sources: SafeSources::new(alloc),
            files: HashMap::new(alloc),
            quoted: HashMap::new(alloc),
            bounds,
            alloc,
        }
    }

    /// The sources, by the numbers of the files.
    pub fn sources(&self) -> &SafeSources
        ensures { sources_of result.now ≡ sources_in self.now }
    {
        &self.sources
    }

    /// The file at a path, if it could be read, or else what is quoted of it.
    pub fn get(&self, path: &str) -> Option<&HeldFile>
        ensures { option_copied result ≡ held_at (files_of self.now) path.now }
    {
        match self.files.get(path) {
            Some(Some(held)) => Some(held),
            _ => self.quoted.get(path),
        }
    }

    /// The file at a path as rows quote it, if it is held.
    pub fn quoted_file(&self, path: &str) -> Option<QuotedFile<'_>>
        ensures { option_map file_of result ≡ file_at self.now path.now }
    {
        let held = self.get(path)?;
        Some(QuotedFile {
            columns: &held.columns,
            byte_unit: held.unit(Unit::Byte),
            above: held.above,
        })
    }

    /// The character of its line, from 0, that the tool points at in a span, if that names a column and its
    /// file is held.
    pub fn caret_in_line(&self, span: &Span) -> Option<usize>
        ensures { result ≡ caret_in_its_line (files_of self.now) span.now }
    {
        span.caret.column?;
        let held = self.get(span.file.as_str())?;
        let (_, column) = held.columns.location_at(Unit::Char, held.caret(span)?);
        Some(column - 1)
    }

    /// Whether the file at a path was read.
    fn is_read(&self, path: &str) -> bool
        ensures { result ≡ is_read_in (read_in self.now) path.now }
    {
        match self.files.get(path) {
            Some(held) => held.is_some(),
            None => false,
        }
    }

    /// Has the file at a path read, where that was not tried before. On `Err` there was no memory.
    pub fn read<R: Files>(&mut self, files: &R, path: &str) -> Result<(), AllocError>
        requires { HaveSources self.old }
        ensures { OnOk result (HaveTried (path.now ∷ []) self.old self.new) }
    {
        if self.files.contains_key(path) {
            return Ok(());
        }
        let key = String::from_str(self.alloc, path)?;
        let held = try_file(files, self.alloc, &self.bounds, &mut self.sources, path)?;
        drop(self.files.insert(key, held)?);
        Ok(())
    }

    /// The path of the file that a name means, which was read then: the first of its candidates that can
    /// be. On `Err` there was no memory.
    pub fn find<R: Files>(
        &mut self,
        files: &R,
        search: &Search<'_>,
        name: &str,
    ) -> Result<Option<String>, AllocError>
        requires { HaveSources self.old }
        ensures { IfOk result (λ found. HaveSearched (all_candidates search.now name.now)
            (option_map string_bytes found) self.old self.new) }
    {
        let paths = candidates(self.alloc, search, name)?;
        for path in &paths {
            let path = path.as_str();
            self.read(files, path)?;
            if self.is_read(path) {
                return Ok(Some(String::from_str(self.alloc, path)?));
            }
        }
        Ok(None)
    }

    /// Has the files of spans read, and gives the spans the paths at which they were found. A file that
    /// can't be read is held as it is quoted, until this is called again.
    ///
    /// On `Err` there was no memory.
    pub fn open<R: Files>(
        &mut self,
        files: &R,
        search: &Search<'_>,
        spans: &mut [Span],
        quoted: &[QuotedLine],
    ) -> Result<(), AllocError>
        requires { HaveSources self.old }
        ensures { OnOk result
            (AreOpened search.now quoted.now spans.old spans.new self.old self.new) }
    {
        for span in spans.iter_mut() {
            self.settle(files, search, span)?;
        }
        self.quote(spans, quoted)
    }

    /// Has the file of a span read, and gives the span the path at which it was found.
    pub fn settle<R: Files>(
        &mut self,
        files: &R,
        search: &Search<'_>,
        span: &mut Span,
    ) -> Result<(), AllocError>
        requires { HaveSources self.old }
        ensures { OnOk result (IsSettledNow search.now span.old span.new self.old self.new) }
    {
        if let Some(path) = self.find(files, search, span.file.as_str())? {
            span.file = path;
        }
        Ok(())
    }

    /// Has the files of proposals read, and gives the proposals the paths at which they were found.
    ///
    /// On `Err` there was no memory.
    pub fn settle_files<R: Files>(
        &mut self,
        files: &R,
        search: &Search<'_>,
        proposals: &mut [Proposal],
    ) -> Result<(), AllocError>
        requires { HaveSources self.old }
        ensures { OnOk result
            (AreFilesSettled search.now proposals.old proposals.new self.old self.new) }
    {
        for proposal in proposals.iter_mut() {
            self.settle_file(files, search, proposal)?;
        }
        Ok(())
    }

    /// Has the file of a proposal read, and gives the proposal the path at which it was found.
    fn settle_file<R: Files>(
        &mut self,
        files: &R,
        search: &Search<'_>,
        proposal: &mut Proposal,
    ) -> Result<(), AllocError>
        requires { HaveSources self.old }
        ensures { OnOk result
            (IsFileSettledNow search.now proposal.old proposal.new self.old self.new) }
    {
        if let Some(path) = self.find(files, search, proposal.file.as_str())? {
            proposal.file = path;
        }
        Ok(())
    }

    /// Holds what is quoted of the files of spans that were not read, and nothing else that is quoted.
    fn quote(&mut self, spans: &[Span], quoted: &[QuotedLine]) -> Result<(), AllocError>
        requires { HaveSources self.old }
        ensures { OnOk result (AreQuoted quoted.now spans.now self.old self.new) }
    {
        self.quoted.clear();
        for span in spans {
            self.quote_file(span.file.as_str(), quoted)?;
        }
        Ok(())
    }

    /// Holds what is quoted of the file at a path, if that was not read.
    fn quote_file(&mut self, path: &str, quoted: &[QuotedLine]) -> Result<(), AllocError>
        requires sources { HaveSources self.old }
        requires quoted { AreQuotedIn quoted.now self.old }
        ensures { OnOk result (IsQuotedNow quoted.now path.now self.old self.new) }
    {
        if self.get(path).is_some() {
            return Ok(());
        }
        if let Some(held) = hold_quoted(self.alloc, &mut self.sources, path, quoted)? {
            let key = String::from_str(self.alloc, path)?;
            self.quoted.insert(key, held)?;
        }
        Ok(())
    }
}

/// Has the file at a path read, and its source added to others; nothing where it can't be read.
fn try_file<R: Files>(
    files: &R,
    alloc: Global,
    bounds: &Bounds,
    sources: &mut SafeSources,
    path: &str,
) -> Result<Option<HeldFile>, AllocError>
    ensures { IfOk result (λ held.
        IsTried (sources_of sources.old) (sources_of sources.new) path.now held) }
{
    match bounds.read(files, alloc, path)? {
        Some(bytes) => Ok(Some(hold(alloc, sources, path, bytes.as_slice())?)),
        None => Ok(None),
    }
}

/// Holds the bytes of the file at a path, and adds its source to others.
fn hold(
    alloc: Global,
    sources: &mut SafeSources,
    path: &str,
    bytes: &[u8],
) -> Result<HeldFile, AllocError>
    ensures { IfOk result (λ held.
        IsHeldBehind (sources_of sources.old) (sources_of sources.new) path.now bytes.now held) }
{
    let file = FileText::new(alloc, bytes)?;
    let columns = Columns::new(alloc, file.text.as_str())?;
    let source = SafeSource::new(alloc, file.text.as_str(), LineEnds::LineFeeds)?;
    let number = sources.add(source.with_name(path)?)?;
    Ok(HeldFile {
        number,
        columns,
        is_utf8: file.is_utf8,
        has_mark: file.has_mark,
        above: 0,
        is_read: true,
    })
}
