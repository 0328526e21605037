//! Helps and notes in rows of so many columns.

ghost use Rattle.std.specs.Prelude.{◌≡◌, ◌++◌, ◌∷◌, ℕ, List, string_bytes, IfOk, OnOk};
ghost use Rattle.std.specs.List.{list_all};
ghost use Rattle.ariadne_show.specs.Wrapped.{aside_columns as columns_left, fits as fits_in, is_within};
ghost use Rattle.ariadne_show.specs.Wrapped.{behind_words, in_one_line, lines_in, word_columns, wrapped_line, wrapped_lines};
ghost use Rattle.ariadne_show.specs.Wrapped.{wrapped as wrapped_text};

use ariadne_safe::{TextKind, visible};
use std::alloc::{AllocError, Global};
use unicode_width::UnicodeWidthChar;

/// The columns of a row that are for the name in front of a help or a note, as `Note 1: `.
const NAME: usize = 8;

/// A help or a note whose rows take at most so many columns, with the name in front; 0 is any number.
///
/// Each of its lines is cut at blanks, and a word that is wider stands alone. But for these blanks the
/// text stays as it is.
pub fn wrapped(alloc: Global, text: &str, columns: usize) -> Result<String, AllocError>
    ensures rows { IfOk result (λ rows. string_bytes rows ≡ wrapped_text columns text.now) }
    ensures kept { IfOk result (λ rows. in_one_line (string_bytes rows) ≡ in_one_line text.now) }
{
    let rows = in_rows(alloc, text, columns)?;
    Ok(rows)
}

/// A help or a note whose rows take so many columns.
#[tactic(auto, unfolding(crate::specs::Wrapped::wrapped))]
fn in_rows(alloc: Global, text: &str, columns: usize) -> Result<String, AllocError>
    ensures { IfOk result (λ rows. string_bytes rows ≡ wrapped_text columns text.now) }
{
    if columns == 0 {
        return String::from_str(alloc, text);
    }
    let mut rows = String::new(alloc);
    push_lines(alloc, &mut rows, text, aside_columns(columns))?;
    Ok(rows)
}

/// Adds the lines of a text, in rows of `width` columns.
fn push_lines(alloc: Global, rows: &mut String, text: &str, width: usize) -> Result<(), AllocError>
    ensures { OnOk result (string_bytes rows.new
        ≡ string_bytes rows.old ++ wrapped_lines width (lines_in text.now)) }
{
    let mut lines = text.split('\n');
    let Some(first) = lines.next() else {
        return Ok(());
    };
    push_words(alloc, rows, first, width)?;
    for line in lines {
        rows.push('\n')?;
        push_words(alloc, rows, line, width)?;
    }
    Ok(())
}

/// Adds the words of a line, in rows of `width` columns.
fn push_words(alloc: Global, rows: &mut String, line: &str, width: usize) -> Result<(), AllocError>
    ensures { OnOk result (string_bytes rows.new
        ≡ string_bytes rows.old ++ wrapped_line width line.now) }
{
    let mut words = line.split(' ');
    let Some(first) = words.next() else {
        return Ok(());
    };
    rows.push_str(first)?;
    let mut taken = columns_of(alloc, first)?;
    for word in words {
        taken = push_word(alloc, rows, word, taken, width)?;
    }
    Ok(())
}

/// Adds a word to a row of which so many columns are taken, or to the next one, and tells how many are
/// taken of the row that it stands in.
#[tactic(auto, unfolding(crate::specs::Wrapped::behind_words))]
fn push_word(
    alloc: Global,
    rows: &mut String,
    word: &str,
    taken: usize,
    width: usize,
) -> Result<usize, AllocError>
    ensures { (words : List (List ℕ)) → IfOk result (λ after.
        string_bytes rows.new ++ behind_words width after words
        ≡ string_bytes rows.old ++ behind_words width taken (word.now ∷ words)) }
{
    let columns = columns_of(alloc, word)?;
    if columns < width && taken < width - columns {
        rows.push(' ')?;
        rows.push_str(word)?;
        return Ok(taken + 1 + columns);
    }
    rows.push('\n')?;
    rows.push_str(word)?;
    Ok(columns)
}

/// How many columns of a row of so many are left behind the name in front.
pub fn aside_columns(columns: usize) -> usize
    ensures { result ≡ columns_left columns }
{
    columns.saturating_sub(NAME).max(1)
}

/// Whether each row of a text takes at most so many columns, with the name in front; 0 is any number.
pub fn fits(alloc: Global, rows: &str, columns: usize) -> Result<bool, AllocError>
    ensures { IfOk result (λ they_do. they_do ≡ fits_in columns rows.now) }
{
    if columns == 0 {
        return Ok(true);
    }
    are_within(alloc, rows, aside_columns(columns))
}

/// Whether each row of a text takes at most so many columns.
fn are_within(alloc: Global, rows: &str, width: usize) -> Result<bool, AllocError>
    ensures { IfOk result (λ they_are. they_are ≡ list_all (is_within width) (lines_in rows.now)) }
{
    for row in rows.split('\n') {
        if columns_of(alloc, row)? > width {
            return Ok(false);
        }
    }
    Ok(true)
}

/// The columns of a word as it is shown. On `Err` there was no memory for that, or none holds so many.
fn columns_of(alloc: Global, word: &str) -> Result<usize, AllocError>
    ensures { IfOk result (λ n. n ≡ word_columns word.now) }
{
    let shown = visible(alloc, word, TextKind::Aside)?;
    let mut columns: usize = 0;
    for c in shown.chars() {
        columns = columns
            .checked_add(c.width().unwrap_or(1))
            .ok_or(AllocError)?;
    }
    Ok(columns)
}
