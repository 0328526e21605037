//! The folders that make has entered and not left.

ghost use Rattle.std.specs.Prelude.{◌≡◌, [], ◌∷◌, take, string_bytes, OnOk};
ghost use Rattle.std.specs.List.{position};
ghost use Rattle.std.specs.Str.{bytes_eq};
ghost use Rattle.ariadne_search.specs.Folders.{entered_in, followed, left_of};
ghost use Rattle.ariadne_search.specs.Make.{move_in};
ghost use Rattle.ariadne_search.specs.Search.{texts_of};

use crate::make::{Move, moved};
use std::alloc::{AllocError, Global};

/// How many folders are held.
const MOST: usize = 64;

/// The folders that make has entered and not left, as lines tell it, 64 at most.
#[derive(Drop)]
pub struct Folders {
    entered: Vec<String>,
    alloc: Global,
}

impl Folders {
    /// None yet.
    pub fn new(alloc: Global) -> Folders
        ensures { entered_in result ≡ [] }
    {
        Folders {
            entered: Vec::new(alloc),
            alloc,
        }
    }

    /// The folders, the innermost first.
    pub fn as_slice(&self) -> &[String]
        ensures { texts_of result.now ≡ entered_in self.now }
    {
        self.entered.as_slice()
    }

    /// Follows make where a line says that it goes. What is left is the innermost folder of that name.
    /// On `Err` there was no memory.
    pub fn follow(&mut self, line: &str) -> Result<(), AllocError>
        ensures { OnOk result (entered_in self.new
            ≡ followed (move_in line.now) (entered_in self.old)) }
    {
        match moved(line) {
            Some(Move::Into(folder)) => self.enter(folder),
            Some(Move::OutOf(folder)) => {
                self.leave(folder);
                Ok(())
            }
            None => Ok(()),
        }
    }

    /// Enters a folder. Where 64 are held, the outermost is not held any more.
    fn enter(&mut self, folder: &str) -> Result<(), AllocError>
        ensures { OnOk result (entered_in self.new
            ≡ take 64 (folder.now ∷ entered_in self.old)) }
    {
        let folder = String::from_str(self.alloc, folder)?;
        self.entered.insert(0, folder)?;
        self.entered.truncate(MOST);
        Ok(())
    }

    /// Leaves the innermost folder of this name, if there is one.
    fn leave(&mut self, folder: &str)
        ensures { entered_in self.new ≡ left_of folder.now (entered_in self.old) }
    {
        if let Some(place) = place_of(self.entered.as_slice(), folder) {
            let _left = self.entered.remove(place);
        }
    }
}

/// The place of the first of these folders that has this name.
fn place_of(folders: &[String], name: &str) -> Option<usize>
    ensures { result ≡ position (λ folder. bytes_eq (string_bytes folder) name.now) folders.now }
{
    folders.iter().position(|folder| folder.as_str() == name)
}
