//! What the workloads draw that have many labels on one line, or many groups or lines of them.

use crate::job::{Job, Row};
use crate::order::ManyLabels;
use crate::texts::{narrow, words};
use std::alloc::{AllocError, Global};

/// The lines of a text that has labels without message in each.
const SILENT_LINES: u8 = 40;

/// The job of a report with many labels over one source.
pub fn job(alloc: Global, labels: ManyLabels, number: u16) -> Result<Job, AllocError> {
    match labels {
        ManyLabels::Under => under(alloc, number),
        ManyLabels::SilentLines => silent_lines(alloc, number),
        ManyLabels::SilentWide => silent_wide(alloc, number),
        ManyLabels::Context => in_context(alloc, number),
        ManyLabels::OneCharacter => {
            Job::in_lines(alloc, "onechar", 1, number, Row::said("m", 14, 15, 0))
        }
        ManyLabels::Falling => falling(alloc, number),
        ManyLabels::CrossingInLine => crossing(alloc, number),
        ManyLabels::LongMessages => long_messages(alloc, number),
        ManyLabels::Empty => empty(alloc, number),
        ManyLabels::LeftOut => left_out(alloc, number),
    }
}

/// Labels with a message on every second line, and over these lines as many nested ones without.
fn under(alloc: Global, count: u16) -> Result<Job, AllocError> {
    let lines = u32::from(count);
    let row = Row::said("u", 50 * lines + 14, 50 * lines + 19, 100);
    let mut job = Job::in_lines(alloc, "under", 4 * lines, count, row)?;
    job.add_nested(alloc, count, 3 * lines, None)?;
    Ok(job)
}

/// Adds labels over words side by side, in one of several equal lines: one with a message, and
/// behind it so many without.
fn add_line(job: &mut Job, alloc: Global, line: u8, count: u16) -> Result<(), AllocError> {
    let offset = u32::from(line) * (10 * (u32::from(count) + 1) + 1);
    job.say(alloc, offset as usize..offset as usize + 7, "first")?;
    job.add(alloc, count, Row::silent(offset + 10, offset + 17, 10))
}

/// Lines with labels side by side, of which the first of each has a message.
fn silent_lines(alloc: Global, count: u16) -> Result<Job, AllocError> {
    let mut job = Job::new(alloc, "silentlines", equal_lines(alloc, count)?);
    for number in 0..SILENT_LINES {
        add_line(&mut job, alloc, number, count)?;
    }
    Ok(job)
}

/// Their text: equal lines with one word more than that.
fn equal_lines(alloc: Global, count: u16) -> Result<String, AllocError> {
    let mut line = words(alloc, u32::from(count) + 1)?;
    line.push('\n')?;
    line.as_str().repeat(alloc, usize::from(SILENT_LINES))
}

/// One such line.
fn silent_wide(alloc: Global, count: u16) -> Result<Job, AllocError> {
    let mut job = Job::new(alloc, "silentwide", words(alloc, u32::from(count) + 1)?);
    add_line(&mut job, alloc, 0, count)?;
    Ok(job)
}

/// A label on every fourth line, and each is shown with the lines next to it. So every fourth line is
/// hidden.
fn in_context(alloc: Global, count: u16) -> Result<Job, AllocError> {
    let row = Row::said("line ", 14, 19, 200);
    let mut job = Job::in_lines(alloc, "context", 4 * u32::from(count), count, row)?;
    job.context_lines = 1;
    Ok(job)
}

/// A label on each line, from the last line to the first.
fn falling(alloc: Global, count: u16) -> Result<Job, AllocError> {
    let mut job = Job::new(alloc, "falling", narrow(alloc, u32::from(count))?);
    job.add_falling(alloc, count, Row::said("m", 14, 19, 50))?;
    Ok(job)
}

/// Labels over one line, of which each crosses all others.
fn crossing(alloc: Global, number: u16) -> Result<Job, AllocError> {
    let count = u32::from(number);
    let row = Row::said("c", 0, 10 * count + 7, 10);
    Job::of_row(alloc, "linecross", words(alloc, 2 * count)?, number, row)
}

/// A label with a message of 9,000 characters on each line.
fn long_messages(alloc: Global, count: u16) -> Result<Job, AllocError> {
    let mut job = Job::new(alloc, "longmsg", narrow(alloc, u32::from(count))?);
    for number in 0..count {
        let start = 50 * usize::from(number);
        job.tell(start + 14..start + 19, long_message(alloc, number))?;
    }
    Ok(job)
}

/// The message of a number.
fn long_message(alloc: Global, number: u16) -> Result<String, AllocError> {
    let piece = format!(in alloc; "{number:08} ")?;
    piece.as_str().repeat(alloc, 1000)
}

/// An empty label at each place of a line.
fn empty(alloc: Global, count: u16) -> Result<Job, AllocError> {
    let mut text = "x".repeat(alloc, usize::from(count))?;
    text.push('\n')?;
    Job::of_row(alloc, "zeroline", text, count, Row::said("z", 0, 0, 1))
}

/// A label that is drawn, and labels past the text.
fn left_out(alloc: Global, count: u16) -> Result<Job, AllocError> {
    let mut job = Job::of_mark(alloc, "leftout", narrow(alloc, 1)?, 14..19, "m")?;
    job.add(alloc, count, Row::said("x", 1000, 1001, 0))?;
    Ok(job)
}
