//! The lines in which make says that it enters and leaves folders.

ghost use Rattle.std.specs.Prelude.{◌≡◌, option_map};
ghost use Rattle.ariadne_search.specs.Make.{behind_words, going_in, move_in, move_of, opened_in};
ghost use Rattle.ariadne_search.specs.Make.{entered_in as is_entered, left_in as is_left};
ghost use Rattle.ariadne_search.specs.Make.{folder_in as quoted_folder, is_program as is_programs};
ghost use Rattle.ariadne_search.specs.Make.{in_front_of_words};

/// Where make says that it goes.
#[derive(Clone, Copy)]
pub enum Move<'a> {
    /// Into this folder.
    Into(&'a str),
    /// Out of this one.
    OutOf(&'a str),
}

/// Where a line says that make goes, as `make[1]: Entering directory '/x'` does. ninja's are read too.
///
/// The name of the program is not empty and has no blank. The folder stands between a `'` or a backtick
/// and a `'`.
#[tactic(auto, unfolding(crate::specs::Make::move_in))]
pub fn moved(line: &str) -> Option<Move<'_>>
    ensures { option_map move_of result ≡ move_in line.now }
{
    let (program, said) = line.split_once(':')?;
    if !is_program(program) {
        return None;
    }
    going(said)
}

/// Where make goes that says this.
fn going(said: &str) -> Option<Move<'_>>
    ensures { option_map move_of result ≡ going_in said.now }
{
    match entered(said) {
        Some(folder) => Some(Move::Into(folder)),
        None => Some(Move::OutOf(left(said)?)),
    }
}

/// Whether a text may be the name of a program.
fn is_program(name: &str) -> bool
    ensures { result ≡ is_programs name.now }
{
    !name.is_empty() && !name.as_bytes().contains(&b' ')
}

/// The folder that make enters that says this.
fn entered(said: &str) -> Option<&str>
    ensures { option_map (λ folder. folder.now) result ≡ is_entered said.now }
{
    folder_in(behind(said, " Entering directory ")?)
}

/// The folder that it leaves.
fn left(said: &str) -> Option<&str>
    ensures { option_map (λ folder. folder.now) result ≡ is_left said.now }
{
    folder_in(behind(said, " Leaving directory ")?)
}

/// The folder that stands in quotes.
fn folder_in(text: &str) -> Option<&str>
    ensures { option_map (λ folder. folder.now) result ≡ quoted_folder text.now }
{
    in_front_of(opened(text)?, "'")
}

/// What stands behind the quote that a text begins with.
fn opened(text: &str) -> Option<&str>
    ensures { option_map (λ rest. rest.now) result ≡ opened_in text.now }
{
    match behind(text, "'") {
        Some(rest) => Some(rest),
        None => behind(text, "`"),
    }
}

/// What stands behind these words, if a text begins with them.
fn behind<'t>(text: &'t str, words: &str) -> Option<&'t str>
    ensures { option_map (λ rest. rest.now) result ≡ behind_words words.now text.now }
{
    text.strip_prefix(words)
}

/// What stands in front of these words, if a text ends with them.
fn in_front_of<'t>(text: &'t str, words: &str) -> Option<&'t str>
    ensures { option_map (λ front. front.now) result ≡ in_front_of_words words.now text.now }
{
    text.strip_suffix(words)
}
