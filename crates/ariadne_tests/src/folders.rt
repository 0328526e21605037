//! Folders for the files of tests, with what is done where the system gives none.

use ariadne_testing::Folder;
use std::fs;
use std::path::PathBuf;
use std::process::Abort;
use std::rt::{Env, Files};

/// A folder of one test alone.
pub(crate) fn new_folder(rt: &(impl Abort + AllocGlobal + Env + Files)) -> Folder {
    Folder::new(rt).expect(rt, "a folder")
}

/// The path of a file of this name in it, with this content.
pub(crate) fn file_in(
    rt: &(impl Abort + AllocGlobal + Files),
    folder: &Folder,
    name: &str,
    content: &[u8],
) -> PathBuf {
    folder.file_of(rt, name, content).expect(rt, "a file")
}

/// Writes this to the file at a path, in place of what it has.
pub(crate) fn write_file(rt: &(impl Abort + Files), path: &str, content: &str) {
    fs::write(rt, path, content).expect(rt, "a file")
}

/// Removes a folder with all that is in it.
pub(crate) fn remove(rt: &(impl Abort + AllocGlobal + Files), folder: Folder) {
    folder.remove(rt).expect(rt, "no folder")
}
