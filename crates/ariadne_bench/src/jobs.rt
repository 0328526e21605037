//! What the workloads draw that have few labels, or many over many lines.

use crate::job::{Job, Row};
use crate::order::Shape;
use crate::texts::{large_text, narrow, tabbed_words, words};
use std::alloc::{AllocError, Global};

/// Where the words `alpha`, `beta`, `gamma` and `delta` stand in a line.
const WORDS: &[(usize, usize)] = &[(14, 19), (22, 26), (29, 34), (37, 42)];

/// The lines of a large text that have a label.
const FAR_LINES: &[usize] = &[99, 99_999, 199_899];

/// The job of a report over one source.
pub fn job(alloc: Global, shape: Shape, number: u16) -> Result<Job, AllocError> {
    let count = u32::from(number);
    match shape {
        Shape::Two => two(alloc, false),
        Shape::TwoColored => two(alloc, true),
        Shape::Nested => nested(alloc, number, false),
        Shape::NestedColored => nested(alloc, number, true),
        Shape::Wide => side_by_side(alloc, words(alloc, count), number),
        Shape::Tabbed => side_by_side(alloc, tabbed_words(alloc, count), number),
        Shape::Large => large(alloc, false),
        Shape::LargeBytes => large(alloc, true),
        Shape::Lines => {
            let row = Row::said("line ", 14, 19, 100);
            Job::in_lines(alloc, "lines", 2 * count, number, row)
        }
        Shape::Deep => deep(alloc, number),
        Shape::Crossing => {
            let row = Row::said("crossing ", 4, 50 * count + 48, 50);
            Job::in_lines(alloc, "crossing", 2 * count, number, row)
        }
        Shape::Same => Job::in_lines(alloc, "same", 1, number, Row::said("same ", 14, 19, 0)),
        Shape::Silent => said_and_silent(alloc, number),
    }
}

/// Two labels in one line.
fn two(alloc: Global, is_colored: bool) -> Result<Job, AllocError> {
    let text = String::from_str(alloc, "apple == orange;")?;
    let mut job = Job::new(alloc, "can't compare apples with oranges", text);
    job.say(alloc, 0..5, "This is an apple")?;
    job.say(alloc, 9..15, "This is an orange")?;
    job.is_colored = is_colored;
    Ok(job)
}

/// A label over the first seven of each ten characters of a line, if there was memory for it.
fn side_by_side(
    alloc: Global,
    line: Result<String, AllocError>,
    count: u16,
) -> Result<Job, AllocError> {
    Job::of_row(alloc, "wide", line?, count, Row::said("wide ", 0, 7, 10))
}

/// Four labels in each of `50 * times` lines, and behind those of the last ones `20 * times` labels
/// over several lines, of which each lies inside the next.
fn nested(alloc: Global, times: u16, is_colored: bool) -> Result<Job, AllocError> {
    let lines = 50 * u32::from(times);
    let mut job = Job::new(alloc, "nested", narrow(alloc, lines)?);
    for line in 0..lines {
        add_words(&mut job, alloc, line)?;
        let first = lines - 1 - line;
        if first < 20 * u32::from(times) {
            add_outer(&mut job, alloc, first, line)?;
        }
    }
    job.is_colored = is_colored;
    Ok(job)
}

/// Adds the four labels in a line.
fn add_words(job: &mut Job, alloc: Global, line: u32) -> Result<(), AllocError> {
    let start = 50 * line as usize;
    for (word, (from, to)) in WORDS.iter().enumerate() {
        let message = format!(in alloc; "inline {line} {word}");
        job.tell(start + *from..start + *to, message)?;
    }
    Ok(())
}

/// Adds a label from one line to another.
fn add_outer(job: &mut Job, alloc: Global, first: u32, last: u32) -> Result<(), AllocError> {
    let (start, end) = (50 * first as usize + 4, 50 * last as usize + 48);
    job.tell(start..end, format!(in alloc; "nested {first}"))
}

/// Three labels far apart in a large text.
fn large(alloc: Global, in_bytes: bool) -> Result<Job, AllocError> {
    let mut job = Job::new(alloc, "large", large_text(alloc, in_bytes)?);
    add_far(&mut job, alloc, in_bytes)?;
    job.in_bytes = in_bytes;
    Ok(job)
}

/// Adds a label near the end of each of the far lines.
fn add_far(job: &mut Job, alloc: Global, in_bytes: bool) -> Result<(), AllocError> {
    let len = if in_bytes { 65 } else { 50 };
    for line in FAR_LINES {
        let end = len * (*line + 1);
        let message = format!(in alloc; "line {line}");
        job.tell(end - 7..end - 2, message)?;
    }
    Ok(())
}

/// Labels over several lines, of which each lies inside the next.
fn deep(alloc: Global, count: u16) -> Result<Job, AllocError> {
    let lines = u32::from(count);
    let mut job = Job::new(alloc, "deep", narrow(alloc, 2 * lines)?);
    job.add_nested(alloc, count, lines, Some("deep "))?;
    Ok(job)
}

/// Labels over two lines without message, and labels with one on the lines between them.
fn said_and_silent(alloc: Global, count: u16) -> Result<Job, AllocError> {
    let silent = Row::silent(14, 60, 200);
    let said = Row::said("said ", 114, 119, 200);
    let mut job = Job::new(alloc, "silent", narrow(alloc, 4 * u32::from(count))?);
    for number in 0..count {
        job.add_one(alloc, silent, number)?;
        job.add_one(alloc, said, number)?;
    }
    Ok(job)
}
