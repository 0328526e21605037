//! What is wrong in a text of settings, and where. It draws nothing.

use ariadne::Place;
use std::alloc::{AllocError, Global};
use std::collections::HashMap;

/// What a setting has to be, and what a report says if it isn't.
#[derive(Clone, Copy)]
pub(crate) struct Rule {
    pub(crate) code: &'static str,
    pub(crate) message: &'static str,
    pub(crate) hint: &'static str,
    pub(crate) note: &'static str,
}

const IS_SETTING: Rule = Rule {
    code: "S01",
    message: "no setting",
    hint: "`=` is missing",
    note: "a setting is a name, `=` and a number",
};

const IS_NUMBER: Rule = Rule {
    code: "S02",
    message: "no number",
    hint: "not a number",
    note: "a value is a number from 0 to 4294967295",
};

const IS_SET_ONCE: Rule = Rule {
    code: "S03",
    message: "set twice",
    hint: "set once more",
    note: "a name is set once",
};

/// A fault: the broken rule, the place, and the place of the setting before if a name is set twice.
/// Places count bytes of the text.
#[derive(Clone, Copy)]
pub(crate) struct Fault {
    pub(crate) rule: Rule,
    pub(crate) place: Place,
    pub(crate) before: Option<Place>,
}

/// The faults of a text, in its order: a line without `=`, a value that is no number, and a name that
/// was set before. Empty lines say nothing.
pub(crate) fn faults_of(alloc: Global, text: &str) -> Result<Vec<Fault>, AllocError> {
    let mut faults = Vec::new(alloc);
    let mut names: HashMap<&str, Place> = HashMap::new(alloc);
    let mut start = 0usize;
    for line in text.split('\n') {
        if !line.is_empty() {
            add_faults(&mut faults, &mut names, line, start)?;
        }
        start = start.saturating_add(line.len()).saturating_add(1);
    }
    Ok(faults)
}

/// Adds the faults of a line that begins at an offset, and the name that it sets.
fn add_faults<'t>(
    faults: &mut Vec<Fault>,
    names: &mut HashMap<&'t str, Place>,
    line: &'t str,
    start: usize,
) -> Result<(), AllocError> {
    let Some((name, value)) = line.split_once('=') else {
        let place = place_of(line, start);
        return push(faults, IS_SETTING, place, None);
    };
    let (name, place) = trimmed(name, start);
    let behind = start.saturating_add(line.len().saturating_sub(value.len()));
    let (value, value_place) = trimmed(value, behind);
    if value.parse::<u32>().is_err() {
        push(faults, IS_NUMBER, value_place, None)?;
    }
    if let Some(before) = names.insert(name, place)? {
        push(faults, IS_SET_ONCE, place, Some(before))?;
    }
    Ok(())
}

/// A piece of a line without the blanks around it, and its place; the piece begins at an offset.
fn trimmed(piece: &str, start: usize) -> (&str, Place) {
    let blanks = piece.len().saturating_sub(piece.trim_start().len());
    let start = start.saturating_add(blanks);
    let piece = piece.trim();
    (piece, place_of(piece, start))
}

/// The place of a piece that begins at an offset.
fn place_of(piece: &str, start: usize) -> Place {
    Place::at(start).to(Place::at(start.saturating_add(piece.len())))
}

/// Adds a fault.
fn push(
    faults: &mut Vec<Fault>,
    rule: Rule,
    place: Place,
    before: Option<Place>,
) -> Result<(), AllocError> {
    faults.push(Fault {
        rule,
        place,
        before,
    })?;
    Ok(())
}
