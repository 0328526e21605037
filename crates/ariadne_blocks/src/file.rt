//! A file whose lines a snippet quotes.

ghost use Rattle.std.specs.Prelude.{◌≡◌, option_map};
ghost use Rattle.std.specs.Option.{option_copied};
ghost use Rattle.ariadne_blocks.specs.Files as files;

use ariadne_parse::{Columns, Unit};
use ariadne_snippets::Point;

/// A file whose lines rows quote, as it is held.
#[derive(Clone, Copy)]
pub struct QuotedFile<'a> {
    /// Its characters, by lines and columns.
    pub columns: &'a Columns,
    /// What a column in bytes counts: characters, where the file is no UTF-8.
    pub byte_unit: Unit,
    /// How many of its lines stand above those that are held.
    pub above: usize,
}

impl<'a> QuotedFile<'a> {
    /// The characters of a line, which count from 1, without the LF or CR LF that ends it; `None` where the
    /// file has no such line.
    pub fn line(self, line: usize) -> Option<&'a [char]>
        ensures { option_copied result ≡ files.line_in (files.file_of self.entry) line }
    {
        self.columns.line(line.saturating_sub(self.above))
    }

    /// The column of a point, from 1, by what it counts. Where the file has no such line, that is characters.
    pub fn column(self, unit: Unit, at: Point) -> usize
        ensures { result ≡ files.column_in_file (files.file_of self.entry) unit at }
    {
        let column = at.offset.saturating_add(1);
        let line = at.line.saturating_sub(self.above);
        match self.columns.offset(Unit::Char, line, column) {
            Some(offset) => self.columns.location_at(self.unit(unit), offset).1,
            None => column,
        }
    }

    /// What columns count in it.
    fn unit(self, unit: Unit) -> Unit
        ensures { result ≡ files.unit_in (files.file_of self.entry) unit }
    {
        match unit {
            Unit::Byte => self.byte_unit,
            Unit::Char | Unit::Utf16 | Unit::Display => unit,
        }
    }
}

/// The column of a point, from 1, by what it counts: characters, where the file is not held.
pub(crate) fn column_in(file: Option<QuotedFile<'_>>, unit: Unit, at: Point) -> usize
    ensures { result ≡ files.column_in (option_map files.file_of file.entry) unit at }
{
    match file {
        Some(file) => file.column(unit, at),
        None => at.offset.saturating_add(1),
    }
}
