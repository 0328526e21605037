//! A run: what it knows behind the lines that it has read, and what was shown of them.

ghost use Rattle.std.specs.Prelude.{◌≡◌, IfOk};
ghost use Rattle.ariadne_show.specs.DroppedTallies.{ends_in_diagnostic as is_behind_one, is_tally_behind};
ghost use Rattle.ariadne_show.specs.Known.{IsNew};
ghost use Rattle.ariadne_show.specs.ReadFiles.{HaveSources};
ghost use Rattle.ariadne_show.specs.Writing.{nothing_shown};

use crate::known::Known;
use crate::options::Options;
use crate::writing::Shown;
use ariadne_parse::is_tally;
use std::alloc::{AllocError, Global};
use std::rt::Files;

/// A run behind the lines that it has read.
#[derive(Drop)]
pub struct Run {
    /// What it knows.
    pub known: Known,
    /// What was shown.
    pub shown: Shown,
}

impl Run {
    /// Nothing was read yet. On `Err` there was no memory.
    pub fn new<R: Files>(files: &R, alloc: Global, options: &Options<'_>) -> Result<Run, AllocError>
        ensures known { IfOk result (λ run. IsNew run.known) }
        ensures sources { IfOk result (λ run. HaveSources run.known.finder.shelf) }
        ensures shown { IfOk result (λ run. run.shown ≡ nothing_shown) }
    {
        Ok(Run {
            known: Known::new(files, alloc, options)?,
            shown: Shown::nothing(),
        })
    }

    /// Whether a line is a tool's own sum, behind a diagnostic or another sum.
    pub fn is_tally(&self, text: &str) -> bool
        ensures { result ≡ is_tally_behind text.now self.now.known self.now.shown }
    {
        self.ends_in_diagnostic() && is_tally(text)
    }

    /// Whether the last line that was read is of a diagnostic, or of a sum behind one.
    fn ends_in_diagnostic(&self) -> bool
        ensures { result ≡ is_behind_one self.now.known self.now.shown }
    {
        !self.known.lines_wait() && (self.known.block.is_some() || self.shown.is_told_last)
    }
}
