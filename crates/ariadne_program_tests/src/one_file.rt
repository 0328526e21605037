//! A file of a test, in a folder of its own.

use ariadne_testing::Folder;
use std::path::PathBuf;
use std::process::Abort;
use std::rt::{Env, Files};

/// A file in a folder of its own.
#[derive(Drop)]
pub struct OneFile {
    folder: Folder,
    path: PathBuf,
}

impl OneFile {
    /// A file of this name, after this was written to it.
    pub fn new(
        rt: &(impl Env + Files + AllocGlobal + Abort),
        name: &str,
        content: &[u8],
    ) -> OneFile {
        let folder = Folder::new(rt).expect(rt, "a folder");
        let path = folder.file_of(rt, name, content).expect(rt, "a file");
        OneFile { folder, path }
    }

    /// Its path.
    pub fn path(&self) -> &str {
        self.path.as_str()
    }

    /// Removes it.
    pub fn remove(self, rt: &(impl Files + AllocGlobal + Abort)) {
        self.folder.remove(rt).expect(rt, "no folder")
    }
}
