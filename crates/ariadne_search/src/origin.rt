//! The folders that names start at, whatever a tool is about.

ghost use Rattle.std.specs.Prelude.{◌≡◌, ◌↔◌, option_map, string_bytes, IfOk, IsTrue};
ghost use Rattle.ariadne_search.specs.Search.{outer_of, texts_of, IsElsewhere};

use crate::search::Search;
use std::alloc::{AllocError, Global};
use std::fs;
use std::io::ErrorKind;
use std::path::{Path, PathBuf};
use std::rt::Files;

/// The folder that the program runs in, and the base of names, if one is set.
#[derive(Drop)]
pub struct Origin {
    here: Option<PathBuf>,
    base: Option<String>,
}

impl Origin {
    /// Where names start, with this base. On `Err` there was no memory.
    pub fn new<R: Files>(files: &R, alloc: Global, base: Option<&str>) -> Result<Origin, AllocError>
        ensures { IfOk result (λ origin. option_map string_bytes origin.base
            ≡ option_map (λ base. base.now) base.entry) }
    {
        let here = match fs::canonicalize(&(files, alloc), ".") {
            Ok(here) => Some(here),
            Err(error) if error.kind() == ErrorKind::OutOfMemory => return Err(AllocError),
            Err(_) => None,
        };
        let base = copied(alloc, base)?;
        Ok(Origin { here, base })
    }

    /// Where a tool's files are looked for: cargo's, if it names a manifest; below make's folders, the
    /// innermost first; and above the folder of the run, if no manifest is named.
    pub fn search<'a>(&'a self, manifest: Option<&'a str>, entered: &'a [String]) -> Search<'a>
        ensures base { option_map (λ base. base.now) result.base
            ≡ option_map string_bytes self.now.base }
        ensures manifest { result.manifest ≡ manifest.entry }
        ensures elsewhere { IsTrue result.is_elsewhere
            ↔ IsElsewhere self.now (option_map (λ manifest. manifest.now) manifest.entry) }
        ensures entered { result.entered.now ≡ entered.now }
        ensures outer { option_map (λ outer. outer.now) result.outer
            ≡ outer_of self.now (option_map (λ manifest. manifest.now) manifest.entry) }
    {
        Search {
            base: self.base.as_deref(),
            manifest,
            is_elsewhere: self.is_elsewhere(manifest),
            entered,
            outer: self.outer(manifest),
        }
    }

    /// Whether a manifest lies in no folder below the one that the program runs in.
    fn is_elsewhere(&self, manifest: Option<&str>) -> bool
        ensures { IsTrue result
            ↔ IsElsewhere self.now (option_map (λ manifest. manifest.now) manifest.entry) }
    {
        match (manifest, &self.here) {
            (Some(manifest), Some(here)) => !Path::new(manifest).starts_with(here),
            _ => false,
        }
    }

    /// The folder that the program runs in, if no manifest is named.
    fn outer(&self, manifest: Option<&str>) -> Option<&str>
        ensures { option_map (λ outer. outer.now) result
            ≡ outer_of self.now (option_map (λ manifest. manifest.now) manifest.entry) }
    {
        match manifest {
            Some(_) => None,
            None => Some(self.here.as_ref()?.as_str()),
        }
    }
}

/// A copy of a text, if there is one.
fn copied(alloc: Global, text: Option<&str>) -> Result<Option<String>, AllocError>
    ensures { IfOk result (λ copy. option_map string_bytes copy
        ≡ option_map (λ text. text.now) text.entry) }
{
    match text {
        Some(text) => Ok(Some(String::from_str(alloc, text)?)),
        None => Ok(None),
    }
}
