//! Folders for the files of tests.

use std::alloc::AllocError;
use std::io::ErrorKind;
use std::path::PathBuf;
use std::rt::{Env, Files};
use std::{env, fs, io};

/// A folder of one test alone, in the one for files that don't last.
#[derive(Drop)]
pub struct Folder {
    path: PathBuf,
}

impl Folder {
    /// A folder that was not there before. On `Err` there is none: no folder can be made, or a
    /// thousand stand there that were not removed.
    pub fn new<R: Env + Files + AllocGlobal>(rt: &R) -> io::Result<Folder> {
        let folder = env::temp_dir(rt)?;
        for number in 0..1000u32 {
            let name = format!(in rt.alloc(); "ariadne-tests-{number}")?;
            let path = folder.join(rt.alloc(), name.as_str())?;
            match fs::create_dir(rt, path.as_path()) {
                Ok(()) => return Ok(Folder { path }),
                Err(fault) if fault.kind() == ErrorKind::AlreadyExists => {}
                Err(fault) => return Err(fault),
            }
        }
        Err(io::Error::from(ErrorKind::AlreadyExists))
    }

    /// The path of a file of this name in it, which may not be there.
    pub fn path_of<R: AllocGlobal>(&self, rt: &R, name: &str) -> Result<PathBuf, AllocError> {
        self.path.join(rt.alloc(), name)
    }

    /// The path of a file of this name in it, after this was written to it.
    pub fn file_of<R: Files + AllocGlobal>(
        &self,
        rt: &R,
        name: &str,
        content: &[u8],
    ) -> io::Result<PathBuf> {
        let path = self.path_of(rt, name)?;
        fs::write(rt, path.as_path(), content)?;
        Ok(path)
    }

    /// Removes it with all that is in it.
    pub fn remove<R: Files + AllocGlobal>(self, rt: &R) -> io::Result<()> {
        fs::remove_dir_all(&(rt, rt.alloc()), self.path.as_path())
    }
}
