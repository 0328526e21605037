//! What is to be changed, by a row of a snippet or one for programs: helps of a block.

ghost use Rattle.std.specs.Prelude.{◌≡◌, option_map, slice_get, string_bytes, true, None, IfOk, OnOk, Some};
ghost use Rattle.ariadne_parse.specs.FixRows.{fix_row_parsed};
ghost use Rattle.ariadne_blocks.specs.Blocks as blocks;
ghost use Rattle.ariadne_blocks.specs.Blocks.{view_of};
ghost use Rattle.ariadne_blocks.specs.Files.{file_of};
ghost use Rattle.ariadne_blocks.specs.declared.block.Aside.TheVariants as aside;

use crate::asides::go_on;
use crate::block::{Aside, Block};
use crate::file::QuotedFile;
use crate::fix_rows::{ParsedChange, column_of, fix_of, is_parsed, is_path_of, unescaped};
use crate::fixes::{change_unit, fix_text, fix_words};
use ariadne_parse::{FixRow, Unit, fix_row_of};
use ariadne_snippets::Fix;
use std::alloc::{AllocError, Global};

impl Block {
    /// What a text tells programs to change in the file that its rows quote, if it is a row that does.
    pub(crate) fn fix_row<'t>(
        &self,
        alloc: Global,
        text: &'t str,
    ) -> Result<Option<FixRow<'t>>, AllocError>
        ensures { IfOk result (λ row. option_map fix_row_parsed row
            ≡ blocks.fix_row_of text.now (view_of self.now)) }
    {
        let Some(row) = fix_row_of(text) else {
            return Ok(None);
        };
        let file = unescaped(alloc, row.file)?;
        if is_path_of(self.path(), file.as_str()) {
            Ok(Some(row))
        } else {
            Ok(None)
        }
    }

    /// Takes in a row that tells programs what to change: as a help, and as a part of what is proposed.
    pub(crate) fn add_fix_row(&mut self, alloc: Global, row: &FixRow<'_>) -> Result<(), AllocError>
        ensures { OnOk result (view_of self.new
            ≡ blocks.with_fix_row (fix_row_parsed row.now) (view_of self.old)) }
    {
        let text = unescaped(alloc, row.text)?;
        self.add_help_of_row(alloc, row, text.as_str())?;
        self.propose(alloc, row, text.as_str())
    }

    /// Has a help say what a row changes, which has this text without escapes, unless a row of the snippet told it.
    fn add_help_of_row(
        &mut self,
        alloc: Global,
        row: &FixRow<'_>,
        text: &str,
    ) -> Result<(), AllocError>
        ensures { OnOk result (view_of self.new
            ≡ blocks.with_help_of_row (fix_row_parsed row.now) text.now (view_of self.old)) }
    {
        let fix = fix_of(row, text);
        if is_parsed(self.changes.as_slice(), &fix) {
            return Ok(());
        }
        self.add_reason(alloc)?;
        let change = fix_words(alloc, &fix, column_of(row))?;
        self.add_change(change)
    }

    /// Takes in what is to be changed.
    pub(crate) fn add_fixes(
        &mut self,
        alloc: Global,
        file: Option<QuotedFile<'_>>,
        fixes: &[Fix<'_>],
    ) -> Result<(), AllocError>
        ensures view { OnOk result (view_of self.new
            ≡ blocks.with_fixes (option_map file_of file.entry) fixes.now (view_of self.old)) }
        ensures rows { OnOk result (self.new.rows ≡ self.old.rows) }
    {
        self.add_reason(alloc)?;
        self.add_changes(alloc, file, fixes)
    }

    /// Has a help begin with what the note says below which a change is told, unless a help says why already.
    fn add_reason(&mut self, alloc: Global) -> Result<(), AllocError>
        ensures view { OnOk result (view_of self.new ≡ blocks.with_reason (view_of self.old)) }
        ensures rows { OnOk result (self.new.rows ≡ self.old.rows) }
    {
        match self.aside {
            Aside::Note => self.add_reason_of_note(alloc),
            Aside::Help | Aside::Change => Ok(()),
        }
    }

    /// Has a help begin with what the note says of which the rows are, if they are of one.
    #[tactic(auto, using(crate::proofs::Lists::span_mapped))]
    fn add_reason_of_note(&mut self, alloc: Global) -> Result<(), AllocError>
        ensures view { OnOk result (view_of self.new ≡ blocks.with_reason_of_note (view_of self.old)) }
        ensures rows { OnOk result (self.new.rows ≡ self.old.rows) }
    {
        if self.rows.at == 0 {
            return Ok(());
        }
        match self.parsed.spans.get(self.rows.at) {
            Some(span) => {
                let why = span.text.clone()?;
                self.add_why(alloc, why.as_str())
            }
            None => Ok(()),
        }
    }

    /// Has a help begin with a text, if that is not empty.
    fn add_why(&mut self, alloc: Global, why: &str) -> Result<(), AllocError>
        ensures view { OnOk result (view_of self.new ≡ blocks.with_why why.now (view_of self.old)) }
        ensures rows { OnOk result (self.new.rows ≡ self.old.rows) }
    {
        if why.is_empty() {
            return Ok(());
        }
        self.add_text(alloc, Aside::Help, why)
    }

    /// Takes in changes, each of which is told.
    fn add_changes(
        &mut self,
        alloc: Global,
        file: Option<QuotedFile<'_>>,
        fixes: &[Fix<'_>],
    ) -> Result<(), AllocError>
        ensures view { OnOk result (view_of self.new
            ≡ blocks.with_changes (option_map file_of file.entry) fixes.now (view_of self.old)) }
        ensures rows { OnOk result (self.new.rows ≡ self.old.rows) }
    {
        for fix in fixes {
            self.add_fix(alloc, file, fix)?;
        }
        Ok(())
    }

    /// Takes in a change.
    fn add_fix(
        &mut self,
        alloc: Global,
        file: Option<QuotedFile<'_>>,
        fix: &Fix<'_>,
    ) -> Result<(), AllocError>
        ensures view { OnOk result (view_of self.new
            ≡ blocks.with_fix (option_map file_of file.entry) (view_of self.old) fix.now) }
        ensures rows { OnOk result (self.new.rows ≡ self.old.rows) }
    {
        let unit = self.unit_of_changes();
        let change = fix_text(alloc, file, unit, fix)?;
        self.changes.push(ParsedChange::of(fix))?;
        self.add_change(change)
    }

    /// What the columns of changes count.
    fn unit_of_changes(&self) -> Unit
        ensures { result ≡ blocks.unit_of_changes (slice_get (view_of self.now).parsed.spans 0) }
    {
        match self.parsed.spans.first() {
            Some(span) => change_unit(span.unit),
            None => Unit::Byte,
        }
    }

    /// Takes in what one change is: a help, or what the last help goes on with.
    fn add_change(&mut self, change: String) -> Result<(), AllocError>
        ensures view { OnOk result (view_of self.new
            ≡ blocks.with_change_by self.old.aside (string_bytes change) (view_of self.old)) }
        ensures rows { OnOk result (self.new.rows ≡ self.old.rows) }
    {
        match self.aside {
            Aside::Note => {
                self.parsed.helps.push(change)?;
                Ok(())
            }
            Aside::Help => {
                self.aside = Aside::Change;
                go_on(&mut self.parsed.helps, ": ", change.as_str())
            }
            Aside::Change => go_on(&mut self.parsed.helps, ",\n", change.as_str()),
        }
    }
}
