//! What a caller gives, and what it is told of labels that are left out, as C lays them out.

/// A text in UTF-8.
#[repr(C)]
#[derive(Clone, Copy)]
pub struct Text<'a> {
    pub bytes: &'a [u8],
}

/// A text, or none: `text` counts only where `is_given` is not 0.
#[repr(C)]
#[derive(Clone, Copy)]
pub struct OptionalText<'a> {
    pub text: Text<'a>,
    pub is_given: u32,
}

/// A source.
#[repr(C)]
#[derive(Clone, Copy)]
pub struct GivenSource<'a> {
    /// What is shown in front of its lines.
    pub name: OptionalText<'a>,
    pub text: Text<'a>,
    /// What is added to the number of each line.
    pub line_offset: usize,
}

/// A label.
#[repr(C)]
#[derive(Clone, Copy)]
pub struct GivenLabel<'a> {
    /// The number of its source, from 0.
    pub source: usize,
    /// Offsets into the source's text from 0, the end exclusive: in characters, or in bytes where
    /// the report's flags say so.
    pub start: usize,
    pub end: usize,
    pub message: OptionalText<'a>,
    /// A colour by its number, as `specs/ColorNumbers.antt` has it. 0 is none.
    pub color: u32,
    /// Labels of lower order are drawn first.
    pub order: i32,
    /// Where labels overlap, the higher one is seen.
    pub priority: i32,
}

/// A report.
#[repr(C)]
#[derive(Clone, Copy)]
pub struct GivenReport<'a> {
    /// 0 an error, 1 a warning, 2 an advice, 3 of the name and the colour that follow.
    pub kind: u32,
    pub kind_color: u32,
    pub kind_name: Text<'a>,
    pub code: OptionalText<'a>,
    pub message: Text<'a>,
    /// The place that the header names: the number of a source, and an offset as those of labels.
    pub source: usize,
    pub start: usize,
    pub labels: &'a [GivenLabel<'a>],
    pub helps: &'a [Text<'a>],
    pub notes: &'a [Text<'a>],
    /// Bits, by the constants of `flag.rt`. Without `RAW` a sign stands for each hidden character.
    pub flags: u32,
    /// Where strokes are attached to labels: 0 in the middle, 1 at the start, 2 at the end.
    pub attach: u32,
    /// In columns; 0 is the usual 4.
    pub tab_width: usize,
    /// How many lines are shown above and below each line with a label.
    pub context_lines: usize,
    /// How many columns the text of a line may take; 0 is any number.
    pub width: usize,
}

/// An edit of a source: what stands in place of a piece of it.
#[repr(C)]
#[derive(Clone, Copy)]
pub struct GivenEdit<'a> {
    /// Offsets into the source's text from 0, the end exclusive: in characters, or in bytes where the
    /// flags say so. They are equal for an insertion.
    pub start: usize,
    pub end: usize,
    /// What is put there.
    pub text: Text<'a>,
}

/// Edits of a source that are suggested.
#[repr(C)]
#[derive(Clone, Copy)]
pub struct GivenSuggestion<'a> {
    /// The source, whose name is not read.
    pub source: GivenSource<'a>,
    pub edits: &'a [GivenEdit<'a>],
    /// Bits as those of a report, of which two are read: `ASCII`, of the mark, and `BYTE_OFFSETS`.
    pub flags: u32,
    /// In columns; 0 is the usual 4.
    pub tab_width: usize,
    /// In columns of the text of a line; 0 is any.
    pub width: usize,
}

/// A label that is left out of the picture.
#[repr(C)]
#[derive(Clone, Copy)]
pub struct ToldLeftOut {
    /// Its number, from 0.
    pub label: usize,
    /// 1 it is past its source, 2 it cuts a character.
    pub reason: u32,
}
