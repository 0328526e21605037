//! Where the files are that diagnostics name, and which of them were read.

ghost use Rattle.std.specs.Prelude.{◌≡◌, IfOk, OnOk};
ghost use Rattle.ariadne_show.specs.Finding.{caret_at, is_first_held, is_held, IsNewFinder, IsOpened};
ghost use Rattle.ariadne_show.specs.Finding.{AreChangedFound, IsOpenedIfHeld, IsSpanSettled};
ghost use Rattle.ariadne_show.specs.ReadFiles.{HaveSources};

use crate::bounds::Bounds;
use crate::options::Options;
use crate::shelf::Shelf;
use ariadne_parse::{Diagnostic, Span};
use ariadne_search::{Folders, Origin};
use std::alloc::{AllocError, Global};
use std::rt::Files;

/// Where the files are that a run reads, and those that it has read.
#[derive(Drop)]
pub struct Finder {
    /// The files that were read.
    pub shelf: Shelf,
    /// The folder that names start at.
    pub origin: Origin,
    /// The folders that make has entered.
    pub folders: Folders,
}

impl Finder {
    /// Nothing was read yet. On `Err` there was no memory.
    pub fn new<R: Files>(
        files: &R,
        alloc: Global,
        options: &Options<'_>,
    ) -> Result<Finder, AllocError>
        ensures new { IfOk result IsNewFinder }
        ensures sources { IfOk result (λ finder. HaveSources finder.shelf) }
    {
        let origin = Origin::new(files, alloc, options.base)?;
        let bounds = match options.base {
            Some(base) => Bounds::below(files, alloc, base)?,
            None => Bounds::Anywhere,
        };
        Ok(Finder {
            shelf: Shelf::new(alloc, bounds),
            origin,
            folders: Folders::new(alloc),
        })
    }

    /// Has the files of a diagnostic read, gives its spans the paths at which they were found, and
    /// returns whether the file of its first span is held.
    pub fn open<R: Files>(&mut self, files: &R, parsed: &mut Diagnostic) -> Result<bool, AllocError>
        requires { HaveSources self.old.shelf }
        ensures opened { OnOk result (IsOpened parsed.old parsed.new self.old self.new) }
        ensures held { IfOk result (λ is_held. is_held ≡ is_first_held self.new parsed.new) }
        ensures sources { OnOk result (HaveSources self.new.shelf) }
    {
        let search = self
            .origin
            .search(parsed.manifest.as_deref(), self.folders.as_slice());
        let spans = parsed.spans.as_mut_slice();
        self.shelf
            .open(files, &search, spans, parsed.quoted.as_slice())?;
        Ok(self.holds_first(parsed))
    }

    /// A diagnostic whose files were read and given their paths, if the file of its first span is held.
    pub(crate) fn opened<R: Files>(
        &mut self,
        files: &R,
        mut parsed: Diagnostic,
    ) -> Result<Option<Diagnostic>, AllocError>
        requires { HaveSources self.old.shelf }
        ensures opened { IfOk result (IsOpenedIfHeld parsed self.old self.new) }
        ensures sources { OnOk result (HaveSources self.new.shelf) }
    {
        if self.open(files, &mut parsed)? {
            Ok(Some(parsed))
        } else {
            drop(parsed);
            Ok(None)
        }
    }

    /// Has the files read that a diagnostic proposes to change, and gives its proposals the paths at which
    /// they were found. On `Err` there was no memory.
    pub fn find_changed<R: Files>(
        &mut self,
        files: &R,
        parsed: &mut Diagnostic,
    ) -> Result<(), AllocError>
        requires { HaveSources self.old.shelf }
        ensures { OnOk result (AreChangedFound parsed.old parsed.new self.old self.new) }
    {
        let search = self
            .origin
            .search(parsed.manifest.as_deref(), self.folders.as_slice());
        self.shelf
            .settle_files(files, &search, parsed.proposals.as_mut_slice())
    }

    /// Whether the file of the first span of a diagnostic is held.
    fn holds_first(&self, parsed: &Diagnostic) -> bool
        ensures { result ≡ is_first_held self.now parsed.now }
    {
        match parsed.spans.first() {
            Some(span) => self.holds(span),
            None => false,
        }
    }

    /// Whether the file of a span is held.
    fn holds(&self, span: &Span) -> bool
        ensures { result ≡ is_held self.now span.now }
    {
        self.shelf.get(span.file.as_str()).is_some()
    }

    /// Has the file of a span read that no tool's manifest goes with, gives the span the path at which
    /// it was found, and returns whether it is held.
    pub fn settle<R: Files>(&mut self, files: &R, span: &mut Span) -> Result<bool, AllocError>
        requires { HaveSources self.old.shelf }
        ensures settled { OnOk result (IsSpanSettled span.old span.new self.old self.new) }
        ensures held { IfOk result (λ is_span_held. is_span_held ≡ is_held self.new span.new) }
        ensures sources { OnOk result (HaveSources self.new.shelf) }
    {
        let search = self.origin.search(None, self.folders.as_slice());
        self.shelf.settle(files, &search, span)?;
        Ok(self.holds(span))
    }

    /// The character, from 0 in its line, that the tool points at in the first span of a diagnostic, if
    /// that names a column and its file is held.
    pub fn caret_of(&self, parsed: &Diagnostic) -> Option<usize>
        ensures { result ≡ caret_at self.now parsed.now }
    {
        self.shelf.caret_in_line(parsed.spans.first()?)
    }
}
