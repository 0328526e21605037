//! Where a file is looked for that a tool names.

ghost use Rattle.std.specs.Prelude.{◌≡◌, ◌++◌, ◌∷◌, [], filter, map, not, string_bytes, IfOk, OnOk};
ghost use Rattle.std.specs.Option.{option_to_list};
ghost use Rattle.std.specs.Prelude.{option_map};
ghost use Rattle.ariadne_search.specs.Search.{above, below, candidates as all_candidates, folders_of};
ghost use Rattle.ariadne_search.specs.Search.{is_text as is_all_text, joined, parent_of as is_parent_of, texts_of};

use std::alloc::{AllocError, Global};
use std::path::Path;

/// How many folders above a path are looked into.
const PARENTS: u8 = 64;

/// Where files are looked for beside the folder that the program runs in.
#[derive(Clone, Copy)]
pub struct Search<'a> {
    /// `--base`: a folder that names may start at.
    pub base: Option<&'a str>,
    /// The path of cargo's manifest: names may start at each folder above it.
    pub manifest: Option<&'a str>,
    /// Whether that lies elsewhere than below the folder that the program runs in: a file there may have
    /// the same name, and is not meant.
    pub is_elsewhere: bool,
    /// The folders that make has entered and not left, the innermost first.
    pub entered: &'a [String],
    /// The folder that the program runs in, where no manifest is named: names may start at each folder
    /// above it, as those in cargo's text do in the folder of one member of a workspace.
    pub outer: Option<&'a str>,
}

/// The paths at which a file of this name is looked for, in their order: the name itself, and below each
/// folder. The name itself is the last one where cargo's manifest lies elsewhere, and stands alone where it
/// begins with a slash.
///
/// A path with U+FFFD, which stands where bytes are no UTF-8, is left out: its file has another name.
/// On `Err` there was no memory.
pub fn candidates(alloc: Global, search: &Search<'_>, name: &str) -> Result<Vec<String>, AllocError>
    ensures { IfOk result (λ paths. texts_of paths.items ≡ all_candidates search.now name.now) }
{
    let mut paths = Vec::new(alloc);
    if search.is_elsewhere {
        push_below(alloc, &mut paths, search, name)?;
        push_text(alloc, &mut paths, name)?;
    } else {
        push_text(alloc, &mut paths, name)?;
        push_below(alloc, &mut paths, search, name)?;
    }
    Ok(paths)
}

/// Adds a path, if it is text throughout.
fn push_text(alloc: Global, paths: &mut Vec<String>, path: &str) -> Result<(), AllocError>
    ensures { OnOk result (texts_of paths.new.items
        ≡ texts_of paths.old.items ++ filter is_all_text (path.now ∷ [])) }
{
    if is_text(path) {
        paths.push(String::from_str(alloc, path)?)?;
    }
    Ok(())
}

/// Whether a path has no sign that stands where bytes are no UTF-8.
fn is_text(path: &str) -> bool
    ensures { result ≡ is_all_text path.now }
{
    path.chars().all(|c| c != '\u{fffd}')
}

/// Adds the paths of a name below each folder, if it does not begin with a slash.
fn push_below(
    alloc: Global,
    paths: &mut Vec<String>,
    search: &Search<'_>,
    name: &str,
) -> Result<(), AllocError>
    ensures { OnOk result (texts_of paths.new.items
        ≡ texts_of paths.old.items ++ below search.now name.now) }
{
    if Path::new(name).is_absolute() {
        return Ok(());
    }
    let folders = folders(alloc, search)?;
    push_joined(alloc, paths, folders.as_slice(), name)
}

/// Adds the paths of a name below each of these folders.
fn push_joined(
    alloc: Global,
    paths: &mut Vec<String>,
    folders: &[&str],
    name: &str,
) -> Result<(), AllocError>
    ensures { OnOk result (texts_of paths.new.items
        ≡ texts_of paths.old.items ++ joined (map (λ folder. folder.now) folders.now) name.now) }
{
    for folder in folders {
        let path = Path::new(folder).join(alloc, name)?;
        push_text(alloc, paths, path.as_str())?;
    }
    Ok(())
}

/// The folders, in the order in which they are looked into.
fn folders<'a>(alloc: Global, search: &Search<'a>) -> Result<Vec<&'a str>, AllocError>
    ensures { IfOk result (λ folders.
        map (λ folder. folder.now) folders.items ≡ folders_of search.now) }
{
    let mut folders = Vec::new(alloc);
    push_if_any(&mut folders, search.base)?;
    push_above(&mut folders, search.manifest)?;
    push_entered(&mut folders, search.entered)?;
    push_above(&mut folders, search.outer)?;
    Ok(folders)
}

/// Adds a folder, if there is one.
fn push_if_any<'a>(folders: &mut Vec<&'a str>, folder: Option<&'a str>) -> Result<(), AllocError>
    ensures { OnOk result (map (λ folder. folder.now) folders.new.items
        ≡ map (λ folder. folder.now) folders.old.items
        ++ option_to_list (option_map (λ folder. folder.now) folder.entry)) }
{
    if let Some(folder) = folder {
        folders.push(folder)?;
    }
    Ok(())
}

/// Adds the folders above a path, if there is one: the nearest first, 64 at most.
fn push_above<'a>(folders: &mut Vec<&'a str>, path: Option<&'a str>) -> Result<(), AllocError>
    ensures { OnOk result (map (λ folder. folder.now) folders.new.items
        ≡ map (λ folder. folder.now) folders.old.items
        ++ above 64 (option_map (λ path. path.now) path.entry)) }
{
    let mut next = path;
    for turn in 0..PARENTS {
        next = parent_of(next);
        push_if_any(folders, next)?;
    }
    Ok(())
}

/// The folder that a path lies in, if there is a path, and it names one.
fn parent_of(path: Option<&str>) -> Option<&str>
    ensures { option_map (λ folder. folder.now) result
        ≡ is_parent_of (option_map (λ path. path.now) path.entry) }
{
    Some(Path::new(path?).parent()?.as_str())
}

/// Adds the folders that make has entered.
fn push_entered<'a>(folders: &mut Vec<&'a str>, entered: &'a [String]) -> Result<(), AllocError>
    ensures { OnOk result (map (λ folder. folder.now) folders.new.items
        ≡ map (λ folder. folder.now) folders.old.items ++ texts_of entered.now) }
{
    for folder in entered {
        folders.push(folder.as_str())?;
    }
    Ok(())
}
