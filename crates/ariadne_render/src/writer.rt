//! What the rows of a picture are written with.

ghost use Rattle.std.specs.Prelude.{◌≡◌, [], string_bytes};

use crate::gutter::Gutter;
use crate::page::Page;
use crate::pen::Pen;
use std::alloc::Global;

/// A pen, and the gutter that stands in front of the text in the rows that it writes.
#[derive(Drop)]
pub struct Writer<'a> {
    pub pen: Pen<'a>,
    pub gutter: Gutter<'a>,
}

impl<'a> Writer<'a> {
    /// A pen at the start of a page, and a gutter of this page that has no columns.
    pub fn new(alloc: Global, page: &'a Page) -> Writer<'a>
        ensures pen { result.pen ≡ record { page = page.now; bytes = [] } }
        ensures gutter { result.gutter ≡ record { page = page.now; positions = []; bars = [] } }
    {
        Writer {
            pen: Pen::new(alloc, page),
            gutter: Gutter::new(alloc, page),
        }
    }

    /// What the pen has written.
    pub fn into_text(self) -> String
        ensures { string_bytes result ≡ self.entry.pen.bytes }
    {
        let Writer {
            pen,
            gutter: _gutter,
        } = self;
        pen.into_text()
    }
}
