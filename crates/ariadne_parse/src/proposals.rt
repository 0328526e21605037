//! What tools propose: changes of one file, in one or several ways.

ghost use Rattle.std.specs.Prelude.{◌≡◌, map, option_map, IfOk, OnOk};
ghost use Rattle.std.specs.List.{list_all};
ghost use Rattle.std.specs.Str.{bytes_eq};
ghost use Rattle.ariadne_parse.specs.Proposed as proposed;
ghost use Rattle.ariadne_parse.specs.Proposed.{edit_of, filed, way_of};

use crate::diagnostic::{Change, Location, Proposal};
use crate::heads::is_same;
use std::alloc::{AllocError, Global};

/// A change of a file, in pieces of what tells it.
#[derive(Clone, Copy)]
pub(crate) struct FileChange<'a> {
    /// The file's path.
    pub(crate) file: &'a str,
    /// Where the piece begins that is changed.
    pub(crate) start: Location,
    /// In front of what it ends.
    pub(crate) end: Location,
    /// The text that is put there.
    pub(crate) put_in: &'a str,
}

impl FileChange<'_> {
    /// The change, without its file.
    fn change(&self, alloc: Global) -> Result<Change, AllocError>
        ensures { IfOk result (λ change. edit_of change ≡ (filed self.now).1) }
    {
        Ok(Change {
            start: self.start,
            end: self.end,
            put_in: String::from_str(alloc, self.put_in)?,
        })
    }
}

impl Proposal {
    /// Has the last of its ways go on with a change, if it has one. On `Err` there was no memory.
    pub fn add(&mut self, change: Change) -> Result<(), AllocError>
        ensures { OnOk result (proposed.proposed self.new ≡ record (proposed.proposed self.old) {
          ways = proposed.gone_on (edit_of change) (map way_of self.old.ways.items);
        }) }
    {
        go_on(&mut self.ways, change)
    }
}

/// The file of changes, if there are some, and all are of one.
pub(crate) fn one_file<'a>(changes: &[FileChange<'a>]) -> Option<&'a str>
    ensures { option_map (λ file. file.now) result ≡ proposed.one_file (map filed changes.now) }
{
    let (first, others) = changes.split_first()?;
    if are_of(others, first.file) {
        Some(first.file)
    } else {
        None
    }
}

/// Whether all of these changes are of a file.
fn are_of(changes: &[FileChange<'_>], file: &str) -> bool
    ensures { result ≡ list_all (λ change. bytes_eq change.file.now file.now) changes.now }
{
    changes.iter().all(|change| change.file == file)
}

/// The way that is all of these changes.
pub(crate) fn way_of_all(
    alloc: Global,
    changes: &[FileChange<'_>],
) -> Result<Vec<Change>, AllocError>
    ensures { IfOk result (λ way. way_of way ≡ map (λ change. change.1) (map filed changes.now)) }
{
    let mut way = Vec::new(alloc);
    for change in changes {
        way.push(change.change(alloc)?)?;
    }
    Ok(way)
}

/// The ways that changes are: one that begins where the first does begins another way.
pub(crate) fn ways_of(
    alloc: Global,
    changes: &[FileChange<'_>],
) -> Result<Vec<Vec<Change>>, AllocError>
    ensures { IfOk result (λ ways. map way_of ways.items ≡ proposed.ways_of (map filed changes.now)) }
{
    let mut ways = Vec::new(alloc);
    for change in changes {
        push_change(alloc, &mut ways, change.change(alloc)?)?;
    }
    Ok(ways)
}

/// Adds a change to ways: as the first of another way, or to the last.
fn push_change(alloc: Global, ways: &mut Vec<Vec<Change>>, change: Change) -> Result<(), AllocError>
    ensures { OnOk result (map way_of ways.new.items
        ≡ proposed.with_edit (map way_of ways.old.items) (edit_of change)) }
{
    if !begins_way(ways.as_slice(), &change) {
        return go_on(ways, change);
    }
    let mut way = Vec::new(alloc);
    way.push(change)?;
    ways.push(way)?;
    Ok(())
}

/// Whether a change begins another way than these: it is the first of all, or begins where that does.
fn begins_way(ways: &[Vec<Change>], change: &Change) -> bool
    ensures { result ≡ proposed.begins_way (map way_of ways.now) (edit_of change.now) }
{
    match ways.first() {
        Some(way) => begins_behind(way.as_slice(), change),
        None => true,
    }
}

/// Whether a change begins where the first of a way does, if there is one.
fn begins_behind(way: &[Change], change: &Change) -> bool
    ensures { result ≡ proposed.begins_behind (map edit_of way.now) (edit_of change.now) }
{
    match way.first() {
        Some(first) => is_same(first.start, change.start),
        None => true,
    }
}

/// Has the last way go on with a change.
fn go_on(ways: &mut Vec<Vec<Change>>, change: Change) -> Result<(), AllocError>
    ensures { OnOk result (map way_of ways.new.items
        ≡ proposed.gone_on (edit_of change) (map way_of ways.old.items)) }
{
    if let Some(mut last) = ways.pop() {
        last.push(change)?;
        ways.push(last)?;
    }
    Ok(())
}
