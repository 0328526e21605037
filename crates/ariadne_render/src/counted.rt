//! The columns that the places of a line begin at where it is shown whole, counted as far as they are
//! asked for.

ghost use Rattle.std.specs.Prelude.{◌≡◌, ◌<◌, ◌≤◌, IfOk, OnOk, Some, chars, length, slice_index};
ghost use Rattle.ariadne_picture.specs.declared.switches.Switches.{Switches};
ghost use Rattle.ariadne_picture.specs.Columns.{Layout, shown};
ghost use Rattle.ariadne_render.specs.Counted.{IsCounted};

use ariadne_layout::columns::shown_columns;
use std::alloc::AllocError;
use std::str::Chars;

/// How far the columns of a line's shown characters are counted. A line that is shown whole and has no
/// tab needs none of them, and is not looked at; nor is one of printable ASCII.
#[derive(Drop)]
pub(crate) struct Counted<'a> {
    /// The characters from `place` on.
    pub(crate) rest: Chars<'a>,
    pub(crate) place: usize,
    /// The column that `place` begins at.
    pub(crate) column: usize,
}

impl<'a> Counted<'a> {
    /// No character of a shown text is counted yet.
    pub(crate) fn new(text: &'a str) -> Counted<'a>
        ensures counted { (s : Switches) (y : Layout) → chars text.now ≡ shown y → IsCounted s y result }
        ensures place { result.place ≡ 0 }
    {
        Counted {
            rest: text.chars(),
            place: 0,
            column: 0,
        }
    }

    /// Counts on to a later place. On `Err` no memory holds so many columns.
    pub(crate) fn go_to(&mut self, tab_width: usize, place: usize) -> Result<(), AllocError>
        requires tabs { 1 ≤ tab_width }
        requires later { self.old.place ≤ place }
        ensures place { OnOk result (self.new.place ≤ place) }
        ensures counted { (s : Switches) (y : Layout) → s.tab_width ≡ tab_width →
            IsCounted s y self.old → place ≤ length (shown y) →
            OnOk result (IsCounted s y self.new × (self.new.place ≡ place)) }
    {
        while self.place < place {
            let Some(c) = self.rest.next() else {
                return Ok(());
            };
            let columns = shown_columns(tab_width, self.column, c);
            self.column = self.column.checked_add(columns).ok_or(AllocError)?;
            self.place += 1;
        }
        Ok(())
    }

    /// The character at a later place, if the text has it. On `Err` no memory holds so many columns.
    pub(crate) fn char_at(
        &mut self,
        tab_width: usize,
        place: usize,
    ) -> Result<Option<char>, AllocError>
        requires tabs { 1 ≤ tab_width }
        requires later { self.old.place ≤ place }
        ensures place { OnOk result (self.new.place ≤ place) }
        ensures found { (s : Switches) (y : Layout) → s.tab_width ≡ tab_width →
            IsCounted s y self.old → place < length (shown y) →
            IfOk result (λ c. c ≡ Some (slice_index (shown y) place)) }
        ensures counted { (s : Switches) (y : Layout) → s.tab_width ≡ tab_width →
            IsCounted s y self.old → place < length (shown y) → OnOk result (IsCounted s y self.new) }
    {
        self.go_to(tab_width, place)?;
        Ok(self.rest.clone()?.next())
    }
}
