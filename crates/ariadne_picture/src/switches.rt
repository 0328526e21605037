//! The switches that the definitions of a picture read.

/// Where the arrow of a label within one line is attached.
#[derive(Clone, Copy, Debug, PartialEq, Eq)]
pub enum LabelAttach {
    /// At the first character of its span.
    Start,
    /// At the middle of its span.
    Middle,
    /// At the last character of its span.
    End,
}

/// The characters that strokes are drawn with.
#[derive(Clone, Copy, Debug, PartialEq, Eq)]
pub enum CharSet {
    /// Box drawing characters.
    Unicode,
    /// ASCII alone.
    Ascii,
}

/// What the offsets of spans count.
#[derive(Clone, Copy, Debug, PartialEq, Eq)]
pub enum IndexType {
    /// Bytes of the source's text in UTF-8.
    Byte,
    /// Characters of the source.
    Char,
}

/// What the layout reads of a configuration: neither colours nor what offsets count.
#[derive(Clone, Copy)]
pub struct Switches {
    pub cross_gap: bool,
    pub compact: bool,
    pub underlines: bool,
    pub lone_underlines: bool,
    pub tab_width: usize,
    /// How many lines without labels are shown before and behind each that has some.
    pub context_lines: usize,
    /// How many columns of its text a line may take, or 0 where it may take any.
    pub width: usize,
    pub char_set: CharSet,
}
