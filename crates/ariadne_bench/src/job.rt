//! What a workload draws over one source: a text, and pieces of it with messages.

use crate::texts::narrow;
use std::alloc::{AllocError, Global};
use std::ops::Range;

/// A piece of a text, by its offsets, and what is said of it.
#[derive(Drop)]
pub struct Mark {
    pub start: usize,
    pub end: usize,
    pub message: Option<String>,
}

/// Marks by number, from 0: each stands `step` behind the one before.
#[derive(Clone, Copy)]
pub struct Row {
    /// What each says in front of its number, if it says anything.
    word: Option<&'static str>,
    /// The offsets of number 0.
    start: u32,
    end: u32,
    step: u16,
}

impl Row {
    /// Marks that say a word and their number.
    pub fn said(word: &'static str, start: u32, end: u32, step: u16) -> Row {
        Row {
            word: Some(word),
            start,
            end,
            step,
        }
    }

    /// Marks that say nothing.
    pub fn silent(start: u32, end: u32, step: u16) -> Row {
        Row {
            word: None,
            start,
            end,
            step,
        }
    }

    /// The mark of a number.
    pub fn mark(&self, alloc: Global, number: u16) -> Result<Mark, AllocError> {
        let behind = usize::from(self.step) * usize::from(number);
        Ok(Mark {
            start: self.start as usize + behind,
            end: self.end as usize + behind,
            message: numbered(alloc, self.word, number)?,
        })
    }
}

/// This word and a number, where there is a word.
fn numbered(
    alloc: Global,
    word: Option<&'static str>,
    number: u16,
) -> Result<Option<String>, AllocError> {
    match word {
        Some(word) => format!(in alloc; "{word}{number}").map(Some),
        None => Ok(None),
    }
}

/// A report in the making, over one source.
#[derive(Drop)]
pub struct Job {
    pub text: String,
    pub message: &'static str,
    /// In the order in which they are added.
    pub marks: Vec<Mark>,
    /// Whether it is drawn in colours, and with box drawing characters.
    pub is_colored: bool,
    /// Whether offsets count bytes.
    pub in_bytes: bool,
    /// How many lines are shown above and below those with a label.
    pub context_lines: usize,
    /// How many columns a line may take; 0 is any number.
    pub width: usize,
}

impl Job {
    /// A job without marks, colours and context lines, whose offsets count characters and whose lines are
    /// shown whole.
    pub fn new(alloc: Global, message: &'static str, text: String) -> Job {
        Job {
            text,
            message,
            marks: Vec::new(alloc),
            is_colored: false,
            in_bytes: false,
            context_lines: 0,
            width: 0,
        }
    }

    /// A job over the first marks of a row.
    pub fn of_row(
        alloc: Global,
        message: &'static str,
        text: String,
        count: u16,
        row: Row,
    ) -> Result<Job, AllocError> {
        let mut job = Job::new(alloc, message, text);
        job.add(alloc, count, row)?;
        Ok(job)
    }

    /// A job with one mark, which has a message.
    pub fn of_mark(
        alloc: Global,
        message: &'static str,
        text: String,
        piece: Range<usize>,
        said: &str,
    ) -> Result<Job, AllocError> {
        let mut job = Job::new(alloc, message, text);
        job.say(alloc, piece, said)?;
        Ok(job)
    }

    /// A job over the first marks of a row, in a text of so many numbered lines.
    pub fn in_lines(
        alloc: Global,
        message: &'static str,
        lines: u32,
        count: u16,
        row: Row,
    ) -> Result<Job, AllocError> {
        Job::of_row(alloc, message, narrow(alloc, lines)?, count, row)
    }

    /// Adds a mark with a message, if there was memory for it.
    pub fn tell(
        &mut self,
        piece: Range<usize>,
        message: Result<String, AllocError>,
    ) -> Result<(), AllocError> {
        self.marks.push(Mark {
            start: piece.start,
            end: piece.end,
            message: Some(message?),
        })?;
        Ok(())
    }

    /// Adds a mark with this message.
    pub fn say(
        &mut self,
        alloc: Global,
        piece: Range<usize>,
        message: &str,
    ) -> Result<(), AllocError> {
        self.tell(piece, String::from_str(alloc, message))
    }

    /// Adds the mark of a row that has this number.
    pub fn add_one(&mut self, alloc: Global, row: Row, number: u16) -> Result<(), AllocError> {
        self.marks.push(row.mark(alloc, number)?)?;
        Ok(())
    }

    /// Adds the first marks of a row.
    pub fn add(&mut self, alloc: Global, count: u16, row: Row) -> Result<(), AllocError> {
        for number in 0..count {
            self.add_one(alloc, row, number)?;
        }
        Ok(())
    }

    /// The same, from the last of them to number 0.
    pub fn add_falling(&mut self, alloc: Global, count: u16, row: Row) -> Result<(), AllocError> {
        for turn in 0..count {
            self.add_one(alloc, row, count - 1 - turn)?;
        }
        Ok(())
    }

    /// Adds marks over several lines of 50 characters, of which each lies inside the next. The first
    /// ends in the line of number `last`.
    pub fn add_nested(
        &mut self,
        alloc: Global,
        count: u16,
        last: u32,
        word: Option<&'static str>,
    ) -> Result<(), AllocError> {
        for turn in 0..count {
            let first = count - 1 - turn;
            self.marks.push(Mark {
                start: 50 * usize::from(first) + 4,
                end: 50 * (last as usize + usize::from(turn)) + 48,
                message: numbered(alloc, word, first)?,
            })?;
        }
        Ok(())
    }
}
