//! The files that matched lines name, each read once.

ghost use Rattle.std.specs.Prelude.{◌≡◌, option_map, string_bytes, IfOk, IfSome};
ghost use Rattle.ariadne_matching.specs.MatchedFiles.{measure_in as measure_of_file, report_in as report_in_file, IsReportOf};

use crate::matchers::Measured;
use crate::reports::report_line;
use ariadne_matchers::{Measure, Unit, place};
use ariadne_parse::Columns;
use ariadne_search::{Folders, Origin, candidates};
use ariadne_show::{Bounds, FileText};
use std::alloc::{AllocError, Global};
use std::collections::HashMap;
use std::rt::Files;

/// A file that was read.
#[derive(Drop)]
pub struct TextFile {
    /// Its characters.
    pub columns: Columns,
    /// Whether it is UTF-8. Else each byte is a character.
    pub is_utf8: bool,
}

/// Files by their paths, and where they are looked for.
#[derive(Drop)]
pub struct TextFiles {
    files: HashMap<String, Option<TextFile>>,
    bounds: Bounds,
    origin: Origin,
    folders: Folders,
    alloc: Global,
}

impl TextFiles {
    /// Nothing was read yet. With a folder as `base` no file outside of it is read. On `Err` there was no memory.
    pub fn new<R: Files>(
        files: &R,
        alloc: Global,
        base: Option<&str>,
    ) -> Result<TextFiles, AllocError> {
        let bounds = match base {
            Some(base) => Bounds::below(files, alloc, base)?,
            None => Bounds::Anywhere,
        };
        Ok(TextFiles {
            files: HashMap::new(alloc),
            bounds,
            origin: Origin::new(files, alloc, base)?,
            folders: Folders::new(alloc),
            alloc,
        })
    }

    /// Follows make where a line says that it goes.
    pub fn follow(&mut self, line: &str) -> Result<(), AllocError> {
        self.folders.follow(line)
    }

    /// Whether there is a file of a name, which was read then.
    pub fn has<R: Files>(&mut self, files: &R, name: &str) -> Result<bool, AllocError> {
        Ok(self.find(files, name)?.is_some())
    }

    /// The report of a diagnostic as a line, if its file can be read and has its line.
    pub fn report<R: Files>(
        &mut self,
        files: &R,
        measured: &Measured,
    ) -> Result<Option<String>, AllocError>
        ensures { IfOk result (λ line. IfSome line (λ it. IsReportOf measured.now (string_bytes it))) }
    {
        let Some(path) = self.find(files, measured.matched.file.as_str())? else {
            return Ok(None);
        };
        match self.files.get(path.as_str()) {
            Some(Some(file)) => report_in(self.alloc, measured, file),
            _ => Ok(None),
        }
    }

    /// The path of the file that a name means: the first at which one can be read.
    fn find<R: Files>(&mut self, files: &R, name: &str) -> Result<Option<String>, AllocError> {
        let search = self.origin.search(None, self.folders.as_slice());
        let paths = candidates(self.alloc, &search, name)?;
        for path in &paths {
            let path = path.as_str();
            self.read(files, path)?;
            if self.is_read(path) {
                return Ok(Some(String::from_str(self.alloc, path)?));
            }
        }
        Ok(None)
    }

    /// Whether the file at a path was read.
    fn is_read(&self, path: &str) -> bool {
        matches!(self.files.get(path), Some(Some(_)))
    }

    /// Has the file at a path read, where that was not tried before.
    fn read<R: Files>(&mut self, files: &R, path: &str) -> Result<(), AllocError> {
        if self.files.contains_key(path) {
            return Ok(());
        }
        let key = String::from_str(self.alloc, path)?;
        let file = self.file_at(files, path)?;
        drop(self.files.insert(key, file)?);
        Ok(())
    }

    /// The file at a path, if it can be read.
    fn file_at<R: Files>(&self, files: &R, path: &str) -> Result<Option<TextFile>, AllocError> {
        match self.bounds.read(files, self.alloc, path)? {
            Some(bytes) => Ok(Some(text_file(self.alloc, bytes.as_slice())?)),
            None => Ok(None),
        }
    }
}

/// The file of these bytes.
fn text_file(alloc: Global, bytes: &[u8]) -> Result<TextFile, AllocError> {
    let file = FileText::new(alloc, bytes)?;
    Ok(TextFile {
        columns: Columns::new(alloc, file.text.as_str())?,
        is_utf8: file.is_utf8,
    })
}

/// The report of a diagnostic as a line, if a file has its line.
fn report_in(
    alloc: Global,
    measured: &Measured,
    file: &TextFile,
) -> Result<Option<String>, AllocError>
    ensures { IfOk result (λ line.
        option_map string_bytes line ≡ report_in_file measured.now file.now) }
{
    let Measured { matched, measure } = measured;
    match place(matched, measure_in(file, *measure), &file.columns) {
        Some(placed) => Ok(Some(report_line(alloc, matched, &placed, &file.columns)?)),
        None => Ok(None),
    }
}

/// What columns count in a file: characters in place of bytes, where it is no UTF-8.
fn measure_in(file: &TextFile, measure: Measure) -> Measure
    ensures { result ≡ measure_of_file file.now measure }
{
    let mut measure = measure;
    if measure.unit == Unit::Bytes && !file.is_utf8 {
        measure.unit = Unit::Characters;
    }
    measure
}
