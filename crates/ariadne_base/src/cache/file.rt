//! A cache of files: an id is a path, and each file is read whole at its first fetch.

ghost use Rattle.std.specs.Prelude.{◌≡◌, List, [], Some, ⊤, string_bytes, OnOk, OnErr};
ghost use Rattle.std.specs.Prelude.{None};
ghost use Rattle.std.specs.Cmp.Lexicographic.{bytes_decides};
ghost use Rattle.std.specs.Option.{option_copied};
ghost use Rattle.std.specs.Str.{bytes_eq};
ghost use Rattle.std.proofs.Common.{ap};
ghost use Rattle.std.specs.Prelude.{◌≢◌, alloc_error};
ghost use Rattle.std.specs.IoError.{error_kind};
ghost use Rattle.ariadne_base.specs.declared.cache.FetchError.TheVariants.{Memory, Failed};
ghost use Rattle.ariadne_base.specs.declared.cache.file.FileError.TheVariants.{Read, NotUtf8};
ghost use Rattle.ariadne_base.specs.Cache.{Fetched, held, Grows, SameHeld, KeepsOtherIds};
ghost use Rattle.ariadne_base.specs.Cache.{listing_of};
ghost use Rattle.ariadne_base.specs.Files.{by_path, by_text, file_error_text, file_fault};

use crate::cache::put::put;
use crate::cache::{Cache, FetchError};
use crate::source::Source;
use std::alloc::{AllocError, Global};
use std::collections::HashMap;
use std::error::Error;
use std::io::ErrorKind;
use std::marker::Model;
use std::rt::Files;
use std::{fmt, fs, io};

/// Why a file can't be a source.
///
/// ```rust
/// match &left.reason {
///     Reason::Unfetched(error) => error.fault(),
///     Reason::PastSource | Reason::CutsCharacter => None,
/// }
/// ```
#[derive(Debug, Drop)]
pub enum FileError {
    /// The file can't be opened or read, for this reason.
    Read(io::Error),
    /// The bytes of the file are not text in UTF-8.
    NotUtf8,
}

impl FileError {
    /// The system's reason, if the file can't be opened or read: printed, for example `No such file
    /// or directory (os error 2)`. `None` if the file isn't UTF-8.
    pub fn fault(&self) -> Option<&io::Error>
        ensures fault { option_copied result ≡ file_fault self.now }
    {
        match self {
            FileError::Read(fault) => Some(fault),
            FileError::NotUtf8 => None,
        }
    }
}

/// `file can't be read`, or `file isn't UTF-8`. `fault` returns the system's reason.
impl fmt::Display for FileError {
    ghost output = { λ e. Some (file_error_text e) };

    fn fmt<W: fmt::Write>(&self, f: &mut fmt::Formatter<W>) -> fmt::Result {
        match self {
            FileError::Read(_) => write!(f, "file can't be read"),
            FileError::NotUtf8 => write!(f, "file isn't UTF-8"),
        }
    }
}

impl Error for FileError {}

/// Files, each read at its first fetch.
///
/// An id is a path as text, a `String` or a `&str`, and one cache takes both. A file is read whole,
/// and the text is not changed: a byte order mark is a character. Later changes of the file are not
/// seen.
///
/// ```rust
/// let mut cache = FileCache::new(files, alloc);
/// report(alloc, pie, fruit)?.write(&mut cache, out)
/// ```
#[derive(Drop)]
#[derive_where(Debug)]
pub struct FileCache<R: Files + Drop> {
    #[derive_where(skip)]
    files: R,
    sources: HashMap<String, Source<String>>,
    alloc: Global,
}

impl<R: Files + Drop> Model for FileCache<R> {
    ghost use Rattle.std.specs.Prelude.{List, String};
    ghost use Rattle.std.specs.declared.alloc.Global.{Global};
    ghost use Rattle.ariadne_base.specs.Listing.{Listing};

    ghost Value = { List (String Global × Listing) };

    ghost view = { λ a. a.sources.entries };
}

impl<R: Files + Drop> FileCache<R> {
    /// A cache without files.
    pub fn new(files: R, alloc: Global) -> FileCache<R>
        ensures { result ≡ [] }
    {
        FileCache {
            files,
            sources: HashMap::new(alloc),
            alloc,
        }
    }

    /// Loads the file at a path, if necessary.
    fn load(&mut self, path: &str) -> Result<(), FetchError<FileError>>
        ensures { Fetched bytes_eq (λ _ _. ⊤)
            (by_path self.old) (by_path self.new) path.now result }
    {
        if self.sources.contains_key(path) {
            return Ok(());
        }
        let text = match read_text(&self.files, self.alloc, path) {
            Ok(text) => text,
            Err(error) => return Err(error),
        };
        match self.keep(path, text) {
            Ok(()) => Ok(()),
            Err(refused) => Err(FetchError::Memory(refused)),
        }
    }

    /// Holds a text as the source of a path without a source.
    fn keep(&mut self, path: &str, text: String) -> Result<(), AllocError>
        requires { held bytes_eq (by_path self.old) path.now ≡ None }
        ensures ok { OnOk result (held bytes_eq (by_path self.new) path.now
            ≡ Some (listing_of (string_bytes text))) }
        ensures others { KeepsOtherIds bytes_eq path.now (by_path self.old) (by_path self.new) }
        ensures grows { Grows bytes_eq (by_path self.old) (by_path self.new) }
        ensures err { OnErr result (SameHeld bytes_eq (by_path self.old) (by_path self.new)) }
    {
        let key = String::from_str(self.alloc, path)?;
        put(&mut self.sources, self.alloc, key, text)
    }
}

/// The text of the file at a path.
fn read_text<R: Files>(
    files: &R,
    alloc: Global,
    path: &str,
) -> Result<String, FetchError<FileError>> {
    match fs::read(&(files, alloc), path) {
        Ok(bytes) => match String::from_utf8(bytes) {
            Ok(text) => Ok(text),
            Err(_) => Err(FetchError::Failed(FileError::NotUtf8)),
        },
        Err(fault) => Err(reading_error(fault)),
    }
}

/// The error of a failed read. Lack of memory is `Memory`.
fn reading_error(fault: io::Error) -> FetchError<FileError>
    ensures memory { error_kind fault ≡ ErrorKind.OutOfMemory → result ≡ Memory alloc_error }
    ensures read { error_kind fault ≢ ErrorKind.OutOfMemory → result ≡ Failed (Read fault) }
{
    match fault.kind() {
        ErrorKind::OutOfMemory => FetchError::Memory(AllocError),
        _ => FetchError::Failed(FileError::Read(fault)),
    }
}

impl<R: Files + Drop> Cache<String> for FileCache<R> {
    type Storage = String;

    type Error = FileError;

    ghost contents = { λ c. c };

    ghost names = { λ _ id. Some (string_bytes id) };

    ghost fails = { λ _ _. ⊤ };

    ghost names_respect_eq = { λ _ p q h.
        ap Some ((bytes_decides (string_bytes p) (string_bytes q)).0 h) };

    fn ensure(&mut self, id: &String) -> Result<(), FetchError<FileError>> {
        self.load(id.as_str())
    }

    fn get(&self, id: &String) -> Option<&Source<String>> {
        self.sources.get(id.as_str())
    }

    fn display<'a>(&'a self, id: &'a String) -> Option<&'a str> {
        Some(id.as_str())
    }
}

impl<'s, R: Files + Drop> Cache<&'s str> for FileCache<R> {
    type Storage = String;

    type Error = FileError;

    ghost contents = { λ c. by_text c };

    ghost names = { λ _ id. Some id.now };

    ghost fails = { λ _ _. ⊤ };

    ghost names_respect_eq = { λ _ p q h. ap Some ((bytes_decides p.now q.now).0 h) };

    fn ensure(&mut self, id: &&'s str) -> Result<(), FetchError<FileError>> {
        let path: &str = *id;
        self.load(path)
    }

    fn get(&self, id: &&'s str) -> Option<&Source<String>> {
        let path: &str = *id;
        self.sources.get(path)
    }

    fn display<'a>(&'a self, id: &'a &'s str) -> Option<&'a str> {
        let path: &str = *id;
        Some(path)
    }
}
