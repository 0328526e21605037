//! What is drawn of the changes that a diagnostic proposes: each changed line before and after.

ghost use Rattle.std.specs.Prelude.{◌≡◌, ◌++◌, option_map, string_bytes, IfOk, OnOk};
ghost use Rattle.std.specs.Option.{option_to_list};
ghost use Rattle.ariadne_show.specs.FoundSpans.{files_of};
ghost use Rattle.ariadne_show.specs.DrawnProposals.{are_shown as can_be_shown, page_at, way_text as text_of_way};
ghost use Rattle.ariadne_show.specs.DrawnProposals.{AreEdits, AreRows, AreSketched, AreWaysDrawn, IsSketched};
ghost use Rattle.ariadne_show.specs.DrawnProposals.{line_columns as columns_of_line, number_columns as columns_of_numbers};
ghost use Rattle.ariadne_show.specs.DrawnProposals.{view_in as view_of, IsWayDrawn};
ghost use Rattle.ariadne_show.specs.ReadFiles.{sources_in};

use crate::held::HeldFile;
use crate::shelf::Shelf;
use crate::wrapping::{aside_columns, fits, wrapped};
use ariadne::{CharSet, IndexType};
use ariadne_edits::{Edit, EditError, View, suggestion};
use ariadne_parse::{Change, Proposal};
use ariadne_safe::SafeSource;
use std::alloc::{AllocError, Global};
use std::ops::Range;

/// How many columns stand from one tab stop to the next, as in pictures.
const TAB_WIDTH: usize = 4;

/// How many columns stand between the number of a line and its text.
const SIGN: usize = 3;

/// The room for what is drawn of proposals.
#[derive(Clone, Copy)]
pub struct Room {
    /// How many columns a row takes at most; 0 is any number.
    pub columns: usize,
    /// The characters of the mark in place of what is left out of a line.
    pub char_set: CharSet,
}

/// A proposal as it is drawn.
#[derive(Drop)]
pub struct Sketch {
    /// The helps in whose place it stands, by their numbers from 0.
    pub helps: Range<usize>,
    /// The text of each of its ways.
    pub texts: Vec<String>,
}

/// What is drawn of proposals whose files were looked for, in this room. A proposal that can't be drawn
/// whole is left out.
pub fn sketches(
    alloc: Global,
    shelf: &Shelf,
    proposals: &[Proposal],
    room: Room,
) -> Result<Vec<Sketch>, AllocError>
    ensures { IfOk result (λ all. AreSketched room (files_of shelf.now) (sources_in shelf.now)
        proposals.now all.items) }
{
    let mut all = Vec::new(alloc);
    for proposal in proposals {
        push_sketch(&mut all, sketch_of(alloc, shelf, proposal, room)?)?;
    }
    Ok(all)
}

/// Adds what is drawn of a proposal, if something is.
fn push_sketch(all: &mut Vec<Sketch>, sketch: Option<Sketch>) -> Result<(), AllocError>
    ensures { OnOk result (all.new.items ≡ all.old.items ++ option_to_list sketch) }
{
    if let Some(sketch) = sketch {
        all.push(sketch)?;
    }
    Ok(())
}

/// What is drawn of a proposal, if its file was read and each of its ways can be shown.
fn sketch_of(
    alloc: Global,
    shelf: &Shelf,
    proposal: &Proposal,
    room: Room,
) -> Result<Option<Sketch>, AllocError>
    ensures { IfOk result
        (IsSketched room (files_of shelf.now) (sources_in shelf.now) proposal.now) }
{
    let Some((held, source)) = page_of(shelf, proposal.file.as_str()) else {
        return Ok(None);
    };
    let Some(texts) = texts_of(alloc, held, source, proposal, room)? else {
        return Ok(None);
    };
    Ok(Some(Sketch {
        helps: proposal.helps.start..proposal.helps.end,
        texts,
    }))
}

/// The file at a path and its source, if that was read.
fn page_of<'a>(shelf: &'a Shelf, path: &str) -> Option<(&'a HeldFile, &'a SafeSource)>
    ensures { option_map (λ page. (page.0.now, page.1.now)) result
        ≡ page_at (files_of shelf.now) (sources_in shelf.now) path.now }
{
    let held = shelf.get(path)?;
    if !held.is_read {
        return None;
    }
    Some((held, shelf.sources().get(held.number)?))
}

/// The texts of the ways of a proposal; nothing where it has no way, or some way can't be shown.
fn texts_of(
    alloc: Global,
    held: &HeldFile,
    source: &SafeSource,
    proposal: &Proposal,
    room: Room,
) -> Result<Option<Vec<String>>, AllocError>
    ensures { IfOk result (AreWaysDrawn room held.now source.now proposal.now) }
{
    if proposal.ways.is_empty() {
        return Ok(None);
    }
    let mut texts = Vec::new(alloc);
    for way in &proposal.ways {
        let Some(text) = text_of(alloc, held, source, proposal, way.as_slice(), room)? else {
            return Ok(None);
        };
        texts.push(text)?;
    }
    Ok(Some(texts))
}

/// The text of a way, if the file has its changes and their rows can be shown.
fn text_of(
    alloc: Global,
    held: &HeldFile,
    source: &SafeSource,
    proposal: &Proposal,
    changes: &[Change],
    room: Room,
) -> Result<Option<String>, AllocError>
    ensures { IfOk result (λ text. IsWayDrawn room held.now source.now proposal.now changes.now
        (option_map string_bytes text)) }
{
    let Some(edits) = edits_of(alloc, held, proposal, changes)? else {
        return Ok(None);
    };
    let Some(rows) = rows_of(alloc, room, source, edits.as_slice())? else {
        return Ok(None);
    };
    if !are_shown(alloc, rows.as_str(), room.columns)? {
        return Ok(None);
    }
    Ok(Some(way_text(alloc, proposal.why.as_str(), rows.as_str(), room.columns)?))
}

/// The edits that changes are, if the file has all of them.
fn edits_of(
    alloc: Global,
    held: &HeldFile,
    proposal: &Proposal,
    changes: &[Change],
) -> Result<Option<Vec<Edit>>, AllocError>
    ensures { IfOk result (λ edits. AreEdits held.now proposal.now changes.now
        (option_map (λ edits. edits.items) edits)) }
{
    let mut edits = Vec::new(alloc);
    for change in changes {
        let Some(span) = held.changed(proposal, change) else {
            return Ok(None);
        };
        let text = change.put_in.clone()?;
        edits.push(Edit { span, text })?;
    }
    Ok(Some(edits))
}

/// The rows that show edits of a source, if these can be made.
fn rows_of(
    alloc: Global,
    room: Room,
    source: &SafeSource,
    edits: &[Edit],
) -> Result<Option<String>, AllocError>
    ensures { IfOk result (λ rows. AreRows room source.now edits.now (option_map string_bytes rows)) }
{
    let view = view_in(alloc, room, source)?;
    match suggestion(alloc, source.source(), IndexType::Char, view, edits) {
        Ok(rows) => Ok(Some(rows)),
        Err(EditError::Refused(_)) => Ok(None),
        Err(EditError::Memory(error)) => Err(error),
    }
}

/// How changed lines are shown: with tab stops as in pictures, and cut where a row has no room for them.
fn view_in(alloc: Global, room: Room, source: &SafeSource) -> Result<View, AllocError>
    ensures { IfOk result (λ view. view ≡ view_of room source.now) }
{
    Ok(View {
        tab_width: TAB_WIDTH,
        width: line_columns(alloc, room.columns, source)?,
        char_set: room.char_set,
    })
}

/// How many columns of its text a line may take in a row of so many, behind its number and its sign; 0 is any
/// number of both.
fn line_columns(alloc: Global, columns: usize, source: &SafeSource) -> Result<usize, AllocError>
    ensures { IfOk result (λ width. width ≡ columns_of_line columns source.now) }
{
    if columns == 0 {
        return Ok(0);
    }
    let taken = number_columns(alloc, source)?.saturating_add(SIGN);
    Ok(aside_columns(columns).saturating_sub(taken).max(1))
}

/// How many columns the number of a source's last line takes.
fn number_columns(alloc: Global, source: &SafeSource) -> Result<usize, AllocError>
    ensures { IfOk result (λ columns. columns ≡ columns_of_numbers source.now) }
{
    let source = source.source();
    let last = source
        .display_line_offset()
        .saturating_add(source.lines().len());
    Ok(format!(in alloc; "{last}")?.len())
}

/// Whether rows can be shown: there are some, and they fit.
fn are_shown(alloc: Global, rows: &str, columns: usize) -> Result<bool, AllocError>
    ensures { IfOk result (λ they_are. they_are ≡ can_be_shown columns rows.now) }
{
    if rows.is_empty() {
        Ok(false)
    } else {
        fits(alloc, rows, columns)
    }
}

/// Rows below why they are proposed, if that is told.
#[tactic(auto, unfolding(crate::specs::DrawnProposals::way_text))]
fn way_text(alloc: Global, why: &str, rows: &str, columns: usize) -> Result<String, AllocError>
    ensures { IfOk result (λ text. string_bytes text ≡ text_of_way columns why.now rows.now) }
{
    if why.is_empty() {
        return String::from_str(alloc, rows);
    }
    let mut text = wrapped(alloc, why, columns)?;
    text.push('\n')?;
    text.push_str(rows)?;
    Ok(text)
}
