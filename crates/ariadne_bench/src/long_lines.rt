//! What the workloads draw that have a long line.

use crate::job::{Job, Row};
use crate::order::LongLine;
use crate::texts::{narrow, words};
use std::alloc::{AllocError, Global};

/// The bytes of a long line of two characters in turn of two bytes and of one, with its line feed.
const HEADER_LINE_LEN: u32 = 150_001;

/// The characters of a word with many blanks behind it, and its line feed.
const TRAILING_LINE_LEN: u32 = 100_005;

/// The job of a report over a source that has a long line.
pub fn job(alloc: Global, line: LongLine, number: u16) -> Result<Job, AllocError> {
    match line {
        LongLine::Header => header(alloc, number),
        LongLine::Bytes => bytes(alloc, number),
        LongLine::Trailing => trailing(alloc, number),
        LongLine::Chinese => at_end(alloc, "\u{6f22}\u{5b57}", "cjkline", number),
        LongLine::Latin => at_end(alloc, "\u{e9}a", "latinline", number),
        LongLine::Minified => minified(alloc, number),
    }
}

/// The report's own span near the end of a long line, and below that line a group for each label,
/// from the last to the first.
fn header(alloc: Global, count: u16) -> Result<Job, AllocError> {
    let own = Row::silent(HEADER_LINE_LEN - 7, HEADER_LINE_LEN - 4, 0);
    let below = Row::said("m", HEADER_LINE_LEN + 14, HEADER_LINE_LEN + 19, 50);
    let mut job = Job::of_row(alloc, "byteheader", header_text(alloc, count)?, 1, own)?;
    job.add_falling(alloc, count, below)?;
    job.in_bytes = true;
    Ok(job)
}

/// Its text: the long line, and numbered lines below it.
fn header_text(alloc: Global, count: u16) -> Result<String, AllocError> {
    let line = "\u{e9}b".repeat(alloc, 50_000)?;
    let below = narrow(alloc, u32::from(count))?;
    format!(in alloc; "{line}\n{below}")
}

/// Words of ten bytes and nine characters, with a label each. The first one has a message.
fn bytes(alloc: Global, count: u16) -> Result<Job, AllocError> {
    let text = "\u{e9}bcdefg ,".repeat(alloc, usize::from(count))?;
    let mut job = Job::of_mark(alloc, "bytesilent", text, 2..5, "first")?;
    job.add(alloc, count.saturating_sub(1), Row::silent(12, 15, 10))?;
    job.in_bytes = true;
    Ok(job)
}

/// A line with 100,000 blanks behind its word, and a line below it: labels in one and the other.
fn trailing(alloc: Global, count: u16) -> Result<Job, AllocError> {
    let mut job = Job::new(alloc, "trailing", trailing_text(alloc)?);
    for number in 0..count {
        job.add_one(alloc, trailing_row(number), number)?;
    }
    Ok(job)
}

/// Both lines.
fn trailing_text(alloc: Global) -> Result<String, AllocError> {
    let blanks = " ".repeat(alloc, 100_000)?;
    format!(in alloc; "word{blanks}\nnext\n")
}

/// The mark of a number in that text: in the line below, or in the long one.
fn trailing_row(number: u16) -> Row {
    if number % 2 == 0 {
        Row::said("m", TRAILING_LINE_LEN, TRAILING_LINE_LEN + 4, 0)
    } else {
        Row::said("m", 0, 4, 0)
    }
}

/// A line of so many words of ten characters, which is cut to 80 columns round a label in its middle.
fn minified(alloc: Global, count: u16) -> Result<Job, AllocError> {
    let start = 10 * (usize::from(count) / 2);
    let line = words(alloc, u32::from(count))?;
    let mut job = Job::of_mark(alloc, "minified", line, start..start + 7, "in the middle")?;
    job.width = 80;
    Ok(job)
}

/// A line of so many characters, two in turn, and a label near its end.
fn at_end(alloc: Global, two: &str, message: &'static str, count: u16) -> Result<Job, AllocError> {
    let len = usize::from(count);
    let line = two.repeat(alloc, len / 2)?;
    let piece = len.saturating_sub(8)..len.saturating_sub(2);
    Job::of_mark(alloc, message, line, piece, "end")
}
