//! Which files are read, and the bytes of those that are.

ghost use Rattle.std.specs.Prelude.{◌≡◌, ◌≢◌, ◌↔◌, IfOk, IsTrue};
ghost use Rattle.std.specs.Path.{path_bytes};
ghost use Rattle.ariadne_show.specs.Bounds.{IsAllowed, IsWithin};
ghost use Rattle.ariadne_show.specs.declared.bounds.Bounds.TheVariants.{Anywhere};

use std::alloc::{AllocError, Global};
use std::fs::File;
use std::io::{ErrorKind, Read};
use std::path::{Path, PathBuf};
use std::rt::Files;
use std::{fs, io};

/// Where the files lie that are read. Those below `/proc` and `/sys` are never read.
#[derive(Drop)]
pub enum Bounds {
    /// Anywhere.
    Anywhere,
    /// Below this folder, which is a path from the root without links.
    Below(PathBuf),
    /// Nowhere: there is no such folder.
    Nowhere,
}

impl Bounds {
    /// The files below a folder: none, if there is no such folder. On `Err` there was no memory.
    pub fn below<R: Files>(files: &R, alloc: Global, base: &str) -> Result<Bounds, AllocError>
        ensures { IfOk result (λ bounds. bounds ≢ Anywhere) }
    {
        match fs::canonicalize(&(files, alloc), base) {
            Ok(folder) => Ok(Bounds::Below(folder)),
            Err(error) if error.kind() == ErrorKind::OutOfMemory => Err(AllocError),
            Err(_) => Ok(Bounds::Nowhere),
        }
    }

    /// Whether the file at a path from the root without links is read.
    fn allows(&self, path: Path<'_>) -> bool
        ensures { IsTrue result ↔ IsAllowed self.now (path_bytes path.entry) }
    {
        self.has(path) && !path.starts_with("/proc") && !path.starts_with("/sys")
    }

    /// Whether it lies within the bounds.
    fn has(&self, path: Path<'_>) -> bool
        ensures { IsTrue result ↔ IsWithin self.now (path_bytes path.entry) }
    {
        match self {
            Bounds::Anywhere => true,
            Bounds::Below(folder) => path.starts_with(folder),
            Bounds::Nowhere => false,
        }
    }

    /// The bytes of the file at a path: nothing where that is no regular file, as a folder or a pipe, is
    /// not to be read, or can't be. On `Err` there was no memory.
    ///
    /// It has as many bytes at most as it had when it was opened.
    pub fn read<R: Files>(
        &self,
        files: &R,
        alloc: Global,
        path: &str,
    ) -> Result<Option<Vec<u8>>, AllocError> {
        match self.try_read(files, alloc, path) {
            Ok(bytes) => Ok(bytes),
            Err(error) if error.kind() == ErrorKind::OutOfMemory => Err(AllocError),
            Err(_) => Ok(None),
        }
    }

    /// The bytes of the file at a path, if it is a regular one that is to be read.
    fn try_read<R: Files>(
        &self,
        files: &R,
        alloc: Global,
        path: &str,
    ) -> io::Result<Option<Vec<u8>>> {
        match fs::canonicalize(&(files, alloc), path) {
            Ok(real) if self.allows(real.as_path()) => {
                self.read_allowed(files, alloc, real.as_path())
            }
            Ok(_) => Ok(None),
            Err(error) if self.is_unnamed(&error) => self.read_unnamed(files, alloc, path),
            Err(error) => Err(error),
        }
    }

    /// The bytes of the file at a path from the root without links, which is to be read.
    fn read_allowed<R: Files>(
        &self,
        files: &R,
        alloc: Global,
        path: Path<'_>,
    ) -> io::Result<Option<Vec<u8>>>
        requires { IsAllowed self.now (path_bytes path) }
    {
        read_regular(files, alloc, path)
    }

    /// The bytes of the file at a path, whose path from the root is no UTF-8. It may lie anywhere.
    fn read_unnamed<R: Files>(
        &self,
        files: &R,
        alloc: Global,
        path: &str,
    ) -> io::Result<Option<Vec<u8>>>
        requires { self.now ≡ Anywhere }
    {
        read_regular(files, alloc, Path::new(path))
    }

    /// Whether a file may be read though its path from the root is no UTF-8: such a path is not below
    /// `/proc` or `/sys`.
    fn is_unnamed(&self, error: &io::Error) -> bool
        ensures { IsTrue result → self.now ≡ Anywhere }
    {
        match self {
            Bounds::Anywhere => error.kind() == ErrorKind::InvalidFilename,
            Bounds::Below(_) | Bounds::Nowhere => false,
        }
    }
}

/// The bytes of the file at a path, if it is a regular one.
fn read_regular<R: Files>(files: &R, alloc: Global, path: Path<'_>) -> io::Result<Option<Vec<u8>>> {
    let data = fs::metadata(files, path)?;
    if !data.is_file() {
        return Ok(None);
    }
    let mut bytes = Vec::new(alloc);
    let mut file = File::open(files, path)?.take(data.len());
    file.read_to_end(&mut bytes)?;
    Ok(Some(bytes))
}
