//! Labels and builders when memory is refused: each request in turn, until a call meets no refusal.

use crate::asserts::{assert_picture, plain_error};
use crate::comparing::assert_same_of;
use ariadne::{Label, Report, ReportBuilder};
use ariadne_testing::{refuse, was_refused};
use std::alloc::{AllocError, Global};
use std::process::Abort;

/// More than any call here makes.
pub(crate) const MOST_REQUESTS: u16 = 1000;

/// Has the nth request from here on refused.
pub(crate) fn refuse_at(rt: &impl AllocGlobal, nth: u16) {
    refuse(rt.alloc(), usize::from(nth))
}

/// The name of a call, and which of its requests is refused.
pub(crate) type At<'a> = (&'a str, u16);

/// Asserts that a call has failed exactly where its request was refused, and returns whether it
/// was.
pub(crate) fn assert_refused(
    rt: &(impl Abort + AllocGlobal),
    (name, nth): At<'_>,
    has_failed: bool,
) -> bool {
    let is_refused = was_refused(rt.alloc());
    assert_same_of(rt, name, &(nth, has_failed), &(nth, is_refused));
    is_refused
}

/// Asserts that something is right once a call has returned.
pub(crate) fn assert_at(rt: &impl Abort, (name, nth): At<'_>, what: &str, is_right: bool) {
    assert!(rt; is_right, "{what} of {name} at request {nth}")
}

/// Asserts that a call has failed exactly where its request was refused, and that what it made is
/// right. Returns whether it was refused.
pub(crate) fn assert_tried(
    rt: &(impl Abort + AllocGlobal),
    at: At<'_>,
    is_right: Result<bool, AllocError>,
) -> bool {
    assert_at(rt, at, "what was made", is_right.unwrap_or(true));
    assert_refused(rt, at, is_right.is_err())
}

/// The rows of a picture over `ab`, in pieces.
type Rows = &'static [&'static [&'static str]];

/// The header of a report that says nothing.
const HEADER: &[&str] = &["Error:"];

/// The rows of one label that says `x`.
const LABEL: &[&str] = &[
    "   ,-[ <unknown>:1:1 ]",
    "   |",
    " 1 | ab",
    "   | ^|",
    "   |  `-- x",
];

/// The rows of labels that say nothing.
const SILENT: &[&str] = &["   ,-[ <unknown>:1:1 ]", "   |", " 1 | ab"];

/// The last row.
const TAIL: &[&str] = &["---'"];

/// The picture of a label and no more.
const LABELLED: Rows = &[HEADER, LABEL, TAIL];

/// The rows of these pieces.
fn rows_of(alloc: Global, pieces: Rows) -> Result<Vec<&'static str>, AllocError> {
    let mut rows = Vec::new(alloc);
    for piece in pieces {
        rows.extend_from_slice(*piece)?;
    }
    Ok(rows)
}

/// Asserts that over `ab` a report has these rows.
fn assert_seen(rt: &(impl Abort + AllocGlobal), name: &str, report: &Report<'_>, pieces: Rows) {
    let rows = rows_of(rt.alloc(), pieces).expect(rt, "memory");
    assert_picture(rt, report, "ab", &rows).expect(rt, name)
}

/// Asserts that a report was refused exactly where a request was, and returns whether it was. Where
/// it was not, it has these rows.
fn assert_made(
    rt: &(impl Abort + AllocGlobal),
    at: At<'_>,
    made: Result<ReportBuilder<'_>, AllocError>,
    pieces: Rows,
) -> bool {
    let is_refused = assert_refused(rt, at, made.is_err());
    if let Ok(builder) = made {
        assert_seen(rt, at.0, &builder.finish(), pieces);
    }
    is_refused
}

/// A label that says `x`.
fn label(alloc: Global) -> Result<Label, AllocError> {
    Label::new(0..2).with_message(alloc, "x")
}

/// A report in the making with this label.
fn labelled(alloc: Global) -> Result<ReportBuilder<'static>, AllocError> {
    let label = label(alloc)?;
    plain_error(alloc).with_label(label)
}

/// Refuses the nth request of giving a label a message, and the label to a report.
fn try_message(rt: &(impl Abort + AllocGlobal), nth: u16) -> bool {
    refuse_at(rt, nth);
    assert_made(rt, ("with_message", nth), labelled(rt.alloc()), LABELLED)
}

/// Copies a label, and returns whether the copy equals it.
fn copy_equals(label: &Label) -> Result<bool, AllocError> {
    Ok(label.clone()? == *label)
}

/// Refuses the nth request of a copy of a label, which stays as it was.
fn try_copy(rt: &(impl Abort + AllocGlobal), nth: u16) -> bool {
    let label = label(rt.alloc()).expect(rt, "memory");
    refuse_at(rt, nth);
    let is_refused = assert_tried(rt, ("clone", nth), copy_equals(&label));
    let builder = plain_error(rt.alloc()).with_label(label);
    assert_made(rt, ("clone", nth), builder, LABELLED);
    is_refused
}

#[test]
fn a_refused_label_is_an_error(rt: HostRuntime) {
    for nth in 1..MOST_REQUESTS {
        if !try_message(&rt, nth) {
            break;
        }
    }
    for nth in 1..MOST_REQUESTS {
        if !try_copy(&rt, nth) {
            return;
        }
    }
    panic!(rt; "every request was refused")
}

/// A call of the builder by value.
enum Step {
    Code,
    CodeText,
    Message,
    Note,
    Help,
    Label,
    Labels,
}

/// Each such call, its name, and the picture behind it. The labels that are added say nothing.
const STEPS: &[(Step, &str, Rows)] = &[
    (Step::Code, "with_code", &[&["[03] Error:"], LABEL, TAIL]),
    (
        Step::CodeText,
        "with_code_text",
        &[&["[E ] Error:"], LABEL, TAIL],
    ),
    (
        Step::Message,
        "with_message",
        &[&["Error: new"], LABEL, TAIL],
    ),
    (
        Step::Note,
        "with_note",
        &[HEADER, LABEL, &["   |", "   | Note: new"], TAIL],
    ),
    (
        Step::Help,
        "with_help",
        &[HEADER, LABEL, &["   |", "   | Help: new"], TAIL],
    ),
    (Step::Label, "with_label", &[HEADER, SILENT, TAIL]),
    (Step::Labels, "with_labels", &[HEADER, SILENT, TAIL]),
];

/// The report in the making that such a call is made of.
fn begun(alloc: Global, step: &Step) -> Result<ReportBuilder<'static>, AllocError> {
    match step {
        Step::Label | Step::Labels => Ok(plain_error(alloc)),
        _ => labelled(alloc),
    }
}

/// Five labels that say nothing.
fn five_labels() -> [Label; 5] {
    [
        Label::new(0..2),
        Label::new(0..2),
        Label::new(0..2),
        Label::new(0..2),
        Label::new(0..2),
    ]
}

/// Makes a call of the builder by value.
fn take<'a>(step: &Step, builder: ReportBuilder<'a>) -> Result<ReportBuilder<'a>, AllocError> {
    match step {
        Step::Code => builder.with_code(3),
        Step::CodeText => builder.with_code_text("E"),
        Step::Message => builder.with_message("new"),
        Step::Note => builder.with_note("new"),
        Step::Help => builder.with_help("new"),
        Step::Label => builder.with_label(Label::new(0..2)),
        Step::Labels => builder.with_labels(five_labels()),
    }
}

/// Refuses the nth request of a call by value, of which a refusal drops the report.
fn try_step(rt: &(impl Abort + AllocGlobal), row: &(Step, &str, Rows), nth: u16) -> bool {
    let (step, name, pieces) = row;
    let builder = begun(rt.alloc(), step).expect(rt, "memory");
    refuse_at(rt, nth);
    assert_made(rt, (*name, nth), take(step, builder), *pieces)
}

#[test]
fn a_refused_call_by_value_is_an_error(rt: HostRuntime) {
    for row in STEPS {
        for nth in 1..MOST_REQUESTS {
            if !try_step(&rt, row, nth) {
                break;
            }
        }
    }
}

/// A call of the builder by reference.
enum Call {
    SetMessage,
    SetNote,
    AddNote,
    SetHelp,
    AddHelp,
    AddLabel,
    WithHelps,
    WithNotes,
}

/// The header of a report that says `old`.
const OLD: &[&str] = &["Error: old"];

/// The rows of a help that says `old`.
const HELP: &[&str] = &["   |", "   | Help: old"];

/// The rows of a note that says `old`.
const NOTE: &[&str] = &["   |", "   | Note: old"];

/// The picture of a label, a help and a note.
const WHOLE: Rows = &[OLD, LABEL, HELP, NOTE, TAIL];

/// Such a call, its name, and the picture before it and behind it.
struct Change {
    call: Call,
    name: &'static str,
    before: Rows,
    behind: Rows,
}

/// The calls that set or add one thing.
const CHANGES: &[Change] = &[
    Change {
        call: Call::SetMessage,
        name: "set_message",
        before: WHOLE,
        behind: &[&["Error: new"], LABEL, HELP, NOTE, TAIL],
    },
    Change {
        call: Call::SetNote,
        name: "set_note",
        before: WHOLE,
        behind: &[OLD, LABEL, HELP, &["   |", "   | Note: new"], TAIL],
    },
    Change {
        call: Call::AddNote,
        name: "add_note",
        before: WHOLE,
        behind: &[
            OLD,
            LABEL,
            HELP,
            &["   |", "   | Note 1: old", "   |", "   | Note 2: new"],
            TAIL,
        ],
    },
    Change {
        call: Call::SetHelp,
        name: "set_help",
        before: WHOLE,
        behind: &[OLD, LABEL, &["   |", "   | Help: new"], NOTE, TAIL],
    },
    Change {
        call: Call::AddHelp,
        name: "add_help",
        before: WHOLE,
        behind: &[
            OLD,
            LABEL,
            &["   |", "   | Help 1: old", "   |", "   | Help 2: new"],
            NOTE,
            TAIL,
        ],
    },
    Change {
        call: Call::AddLabel,
        name: "add_label",
        before: &[OLD],
        behind: &[OLD, SILENT, TAIL],
    },
];

/// The texts of helps or notes.
const TEXTS: [&str; 3] = ["first", "second", "third"];

/// A report in the making with a label, a help, a note and a message.
fn whole(alloc: Global) -> Result<ReportBuilder<'static>, AllocError> {
    labelled(alloc)?
        .with_help("old")?
        .with_note("old")?
        .with_message("old")
}

/// The report in the making that such a call is made of.
fn called(alloc: Global, call: &Call) -> Result<ReportBuilder<'static>, AllocError> {
    match call {
        Call::AddLabel => plain_error(alloc).with_message("old"),
        _ => whole(alloc),
    }
}

/// Makes a call of the builder by reference.
fn make(call: &Call, builder: &mut ReportBuilder<'_>) -> Result<(), AllocError> {
    match call {
        Call::SetMessage => builder.set_message("new"),
        Call::SetNote => builder.set_note("new"),
        Call::AddNote => builder.add_note("new"),
        Call::SetHelp => builder.set_help("new"),
        Call::AddHelp => builder.add_help("new"),
        Call::AddLabel => builder.add_label(Label::new(0..2)),
        Call::WithHelps => builder.with_helps(TEXTS),
        Call::WithNotes => builder.with_notes(TEXTS),
    }
}

/// Refuses the nth request of a call by reference, and returns whether it was refused.
fn is_refused(
    rt: &(impl Abort + AllocGlobal),
    at: At<'_>,
    call: &Call,
    builder: &mut ReportBuilder<'_>,
) -> bool {
    refuse_at(rt, at.1);
    assert_refused(rt, at, make(call, builder).is_err())
}

/// Refuses the nth request of a call by reference, of which a refusal changes nothing.
fn try_change(rt: &(impl Abort + AllocGlobal), change: &Change, nth: u16) -> bool {
    let mut builder = called(rt.alloc(), &change.call).expect(rt, "memory");
    let is_refused = is_refused(rt, (change.name, nth), &change.call, &mut builder);
    let rows = if is_refused {
        change.before
    } else {
        change.behind
    };
    assert_seen(rt, change.name, &builder.finish(), rows);
    is_refused
}

#[test]
fn a_refused_call_by_reference_changes_nothing(rt: HostRuntime) {
    for change in CHANGES {
        for nth in 1..MOST_REQUESTS {
            if !try_change(&rt, change, nth) {
                break;
            }
        }
    }
}

/// The pictures of none of these helps, of the first, of two and of all.
const HELPS: &[Rows] = &[
    LABELLED,
    &[HEADER, LABEL, &["   |", "   | Help: first"], TAIL],
    &[
        HEADER,
        LABEL,
        &["   |", "   | Help 1: first", "   |", "   | Help 2: second"],
        TAIL,
    ],
    &[
        HEADER,
        LABEL,
        &["   |", "   | Help 1: first", "   |", "   | Help 2: second"],
        &["   |", "   | Help 3: third"],
        TAIL,
    ],
];

/// The pictures of none of these notes, of the first, of two and of all.
const NOTES: &[Rows] = &[
    LABELLED,
    &[HEADER, LABEL, &["   |", "   | Note: first"], TAIL],
    &[
        HEADER,
        LABEL,
        &["   |", "   | Note 1: first", "   |", "   | Note 2: second"],
        TAIL,
    ],
    &[
        HEADER,
        LABEL,
        &["   |", "   | Note 1: first", "   |", "   | Note 2: second"],
        &["   |", "   | Note 3: third"],
        TAIL,
    ],
];

/// Asserts that a report has so many of what was added to it, and all where none was refused. The
/// pictures are those of none of them, of the first, and so on. Returns how many there are.
fn assert_added(
    rt: &(impl Abort + AllocGlobal),
    name: &str,
    report: &Report<'_>,
    added: usize,
    pictures: &[Rows],
    is_refused: bool,
) -> usize {
    let has_all = added.saturating_add(1) == pictures.len();
    assert_same_of(rt, name, &is_refused, &!has_all);
    let rows = pictures.get(added).expect(rt, "no more than were added");
    assert_seen(rt, name, report, *rows);
    added
}

/// The same of helps or notes.
fn assert_texts(
    rt: &(impl Abort + AllocGlobal),
    report: &Report<'_>,
    is_help: bool,
    is_refused: bool,
) -> usize {
    if is_help {
        assert_added(rt, "texts", report, report.helps().len(), HELPS, is_refused)
    } else {
        assert_added(rt, "texts", report, report.notes().len(), NOTES, is_refused)
    }
}

/// Refuses the nth request of adding helps or notes, and returns how many were added.
fn try_texts(rt: &(impl Abort + AllocGlobal), is_help: bool, nth: u16) -> usize {
    let call = if is_help {
        &Call::WithHelps
    } else {
        &Call::WithNotes
    };
    let mut builder = labelled(rt.alloc()).expect(rt, "memory");
    let is_refused = is_refused(rt, ("texts", nth), call, &mut builder);
    assert_texts(rt, &builder.finish(), is_help, is_refused)
}

/// Refuses each request of adding helps or notes. A later one leaves no fewer of them.
fn try_each_text(rt: &(impl Abort + AllocGlobal), is_help: bool) {
    let mut most = 0;
    for nth in 1..MOST_REQUESTS {
        let added = try_texts(rt, is_help, nth);
        assert_at(rt, ("texts", nth), "the count", added >= most);
        most = added;
        if added == 3 {
            return;
        }
    }
    panic!(rt; "every request was refused")
}

#[test]
fn of_refused_helps_and_notes_those_before_stay(rt: HostRuntime) {
    try_each_text(&rt, true);
    try_each_text(&rt, false)
}

/// Nine labels of one character that say `x`.
fn nine_labels(alloc: Global) -> Result<Vec<Label>, AllocError> {
    let mut labels = Vec::new(alloc);
    for _ in 0..9 {
        labels.push(Label::new(0..1).with_message(alloc, "x")?)?;
    }
    Ok(labels)
}

/// The rows of one of them, below the line.
const ONE: &[&str] = &["   | |", "   | `-- x"];

/// The pictures of none of them, of the first, and so on to all.
const LABELS: &[Rows] = &[
    &[HEADER],
    &[HEADER, SILENT, ONE, TAIL],
    &[HEADER, SILENT, ONE, ONE, TAIL],
    &[HEADER, SILENT, ONE, ONE, ONE, TAIL],
    &[HEADER, SILENT, ONE, ONE, ONE, ONE, TAIL],
    &[HEADER, SILENT, ONE, ONE, ONE, ONE, ONE, TAIL],
    &[HEADER, SILENT, ONE, ONE, ONE, ONE, ONE, ONE, TAIL],
    &[HEADER, SILENT, ONE, ONE, ONE, ONE, ONE, ONE, ONE, TAIL],
    &[HEADER, SILENT, ONE, ONE, ONE, ONE, ONE, ONE, ONE, ONE, TAIL],
    &[
        HEADER, SILENT, ONE, ONE, ONE, ONE, ONE, ONE, ONE, ONE, ONE, TAIL,
    ],
];

/// Refuses the nth request of adding them to a report, and returns whether it was refused.
fn are_refused(rt: &(impl Abort + AllocGlobal), builder: &mut ReportBuilder<'_>, nth: u16) -> bool {
    let labels = nine_labels(rt.alloc()).expect(rt, "memory");
    refuse_at(rt, nth);
    assert_refused(rt, ("add_labels", nth), builder.add_labels(labels).is_err())
}

/// Refuses the nth request of adding labels, and returns how many were added.
fn try_labels(rt: &(impl Abort + AllocGlobal), nth: u16) -> usize {
    let mut builder = plain_error(rt.alloc());
    let is_refused = are_refused(rt, &mut builder, nth);
    let report = builder.finish();
    assert_added(
        rt,
        "add_labels",
        &report,
        report.labels().len(),
        LABELS,
        is_refused,
    )
}

#[test]
fn of_refused_labels_those_before_stay(rt: HostRuntime) {
    let mut most = 0;
    for nth in 1..MOST_REQUESTS {
        let added = try_labels(&rt, nth);
        let has_more = nth == 1 || added > most;
        assert_at(&rt, ("add_labels", nth), "the count", has_more);
        most = added;
        if added == 9 {
            return;
        }
    }
    panic!(rt; "every request was refused")
}
