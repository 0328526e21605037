//! Sources that can be shown, by their numbers.

ghost use Rattle.std.specs.Prelude.{◌≡◌, true, ◌+◌, ◌-◌, ◌<◌, ◌^◌, ◌++◌, ◌∷◌, [], None, Some};
ghost use Rattle.std.specs.Prelude.{IfOk, OnOk, OnErr};
ghost use Rattle.std.specs.Prelude.{option_map, string_bytes, unwrap_or, length, min, slice_get};
ghost use Rattle.std.specs.Prelude.{codes, decimal};
ghost use Rattle.std.specs.Option.{option_copied};
ghost use Rattle.ariadne.specs.Listing.{listed_lines};
ghost use Rattle.ariadne_safe.specs.Visible.{is_shown, visible_bytes};
ghost use Rattle.ariadne_safe.specs.Pictures.{is_shown_if_any};
ghost use Rattle.ariadne_safe.specs.declared.text.TextKind.TheVariants.{Lines, OneRow};

mod offsets;

use crate::text::{TextKind, visible};
use ariadne::{Cache, FetchError, IndexType, Source};
use offsets::shown_offset;
use std::alloc::{AllocError, Global};
use std::error::Error;
use std::fmt;

/// What ends a line of a source.
#[derive(Clone, Copy, Debug, PartialEq, Eq)]
pub enum LineEnds {
    /// What the library takes for one: CR, LF, CR LF, U+000B, U+000C, U+0085, U+2028 and U+2029.
    All,
    /// What compilers take for one: LF and CR LF. The others are shown by their signs, and line
    /// numbers are those that a compiler counts.
    LineFeeds,
}

impl LineEnds {
    ghost use Rattle.ariadne_safe.specs.Sources.{kind_of};

    /// The kind of text whose lines end so.
    fn kind(self) -> TextKind
        ensures { result ≡ kind_of self }
    {
        match self {
            LineEnds::All => TextKind::Lines,
            LineEnds::LineFeeds => TextKind::CompilerLines,
        }
    }
}

/// A source whose text and name hide nothing.
///
/// It is made of any text: a sign stands for each hidden character. Offsets in characters are those
/// of the given text; offsets in bytes are too, and are found in the shown one where a label is
/// added to a report.
#[derive(Debug, Drop)]
pub struct SafeSource {
    name: Option<String>,
    source: Source,
    given: Option<String>,
    lines: LineEnds,
    ghost name_is_shown: { is_shown_if_any (option_map string_bytes name) ≡ true },
    ghost text_is_shown: { is_shown Lines source.text ≡ true },
}

impl SafeSource {
    ghost use Rattle.ariadne_safe.specs.Sources.{kind_of, listing_of, name_of, given_of};
    ghost use Rattle.ariadne_safe.specs.Sources.{line_ends_of, offset_in};

    /// A source of a text, without a name. Its display offset is 0.
    ///
    /// On `Err` there was no memory for it.
    pub fn new(alloc: Global, text: &str, lines: LineEnds) -> Result<SafeSource, AllocError>
        ensures text { IfOk result (λ s. listing_of s ≡ record
            { text = visible_bytes (kind_of lines) text.now; display_offset = 0 }) }
        ensures given { IfOk result (λ s. given_of s ≡ text.now) }
        ensures lines { IfOk result (λ s. line_ends_of s ≡ lines) }
        ensures unnamed { IfOk result (λ s. name_of s ≡ None) }
    {
        let shown = visible(alloc, text, lines.kind())?;
        let given = given_if_other(alloc, text, shown.as_str())?;
        let source = Source::from(alloc, shown)?;
        Ok(SafeSource {
            name: None,
            source,
            given,
            lines,
        })
    }

    /// The source under a name, which the header of its group shows. On `Err` there was no memory
    /// for the name, and the source is dropped.
    pub fn with_name(self, name: &str) -> Result<SafeSource, AllocError>
        ensures name { IfOk result (λ s. name_of s ≡ Some (visible_bytes OneRow name.now)) }
        ensures text { IfOk result (λ s. listing_of s ≡ listing_of self) }
        ensures given { IfOk result (λ s. given_of s ≡ given_of self) }
        ensures lines { IfOk result (λ s. line_ends_of s ≡ line_ends_of self) }
    {
        let SafeSource {
            name: _,
            source,
            given,
            lines,
        } = self;
        let name = Some(visible(source.memory(), name, TextKind::OneRow)?);
        Ok(SafeSource {
            name,
            source,
            given,
            lines,
        })
    }

    /// The same source, whose line numbers are shown with an offset added.
    ///
    /// The offset and the number of lines, `source().lines().len()`, are together within `usize`.
    pub fn with_display_line_offset(self, offset: usize) -> SafeSource
        requires { offset + length (listed_lines (listing_of self)) < 2 ^ 64 }
        ensures text { listing_of result ≡ record (listing_of self) { display_offset = offset } }
        ensures name { name_of result ≡ name_of self }
        ensures given { given_of result ≡ given_of self }
        ensures lines { line_ends_of result ≡ line_ends_of self }
    {
        let SafeSource {
            name,
            source,
            given,
            lines,
        } = self;
        SafeSource {
            name,
            source: source.with_display_line_offset(offset),
            given,
            lines,
        }
    }

    /// The source as it is shown.
    pub fn source(&self) -> &Source
        ensures { result.now ≡ listing_of self.now }
    {
        &self.source
    }

    /// What it is called, as that is shown.
    pub fn name(&self) -> Option<&str>
        ensures { option_copied result ≡ name_of self.now }
    {
        self.name.as_deref()
    }

    /// Where an offset into the given text stands in the shown one. Both count from 0, and serve as
    /// the start of a piece, or as its end, which is exclusive.
    ///
    /// An offset in characters stays. One in bytes stands before the sign of its character, or
    /// inside the sign where it lies inside the character; one past the text stands past the shown
    /// text.
    #[tactic(auto, unfolding(crate::specs::Sources::offset_in))]
    pub fn shown_offset(&self, index_type: IndexType, offset: usize) -> usize
        ensures { result ≡ min (offset_in index_type self.now offset) (2 ^ 64 - 1) }
    {
        match (index_type, &self.given) {
            (IndexType::Byte, Some(given)) => shown_offset(
                self.lines.kind(),
                given.as_str(),
                offset,
            ),
            _ => offset,
        }
    }
}

/// The given text, where it is another than the shown one.
fn given_if_other(alloc: Global, text: &str, shown: &str) -> Result<Option<String>, AllocError>
    ensures { IfOk result (λ given.
        unwrap_or (option_map string_bytes given) shown.now ≡ text.now) }
{
    if text == shown {
        return Ok(None);
    }
    Ok(Some(String::from_str(alloc, text)?))
}

/// Sources that can be shown, by their numbers, which count from 0. They are a cache over `usize`.
#[derive(Debug, Drop)]
pub struct SafeSources {
    sources: Vec<SafeSource>,
}

impl SafeSources {
    ghost use Rattle.ariadne_safe.specs.Sources.{sources_of};

    /// No sources yet.
    pub fn new(alloc: Global) -> SafeSources
        ensures { sources_of result ≡ [] }
    {
        SafeSources {
            sources: Vec::new(alloc),
        }
    }

    /// Adds a source, and returns its number. On `Err` there was no memory for it: it is dropped,
    /// and the others are as they were.
    pub fn add(&mut self, source: SafeSource) -> Result<usize, AllocError>
        ensures ok { OnOk result (sources_of self.new ≡ sources_of self.old ++ source ∷ []) }
        ensures number { IfOk result (λ number. number ≡ length (sources_of self.old)) }
        ensures err { OnErr result (sources_of self.new ≡ sources_of self.old) }
    {
        let number = self.sources.len();
        self.sources.push(source)?;
        Ok(number)
    }

    /// How many there are.
    pub fn len(&self) -> usize
        ensures { result ≡ length (sources_of self.now) }
    {
        self.sources.len()
    }

    /// The source with a number, if there is one.
    pub fn get(&self, number: usize) -> Option<&SafeSource>
        ensures { option_copied result ≡ slice_get (sources_of self.now) number }
    {
        self.sources.get(number)
    }
}

/// No source has the number that was asked for.
#[derive(Debug, Drop)]
pub struct NoSource {
    /// The number that was asked for.
    pub number: usize,
}

impl fmt::Display for NoSource {
    ghost output = { λ e. Some (codes "no source has the number " ++ decimal e.number) };

    fn fmt<W: fmt::Write>(&self, f: &mut fmt::Formatter<W>) -> fmt::Result {
        let number = self.number;
        write!(f, "no source has the number {number}")
    }
}

impl Error for NoSource {}

impl<'s> Cache<usize> for &'s SafeSources {
    ghost use Rattle.std.proofs.Common.{ap, eqb-true};
    ghost use Rattle.ariadne_safe.specs.Sources.{name_at, numbered};

    type Storage = String;

    type Error = NoSource;

    ghost contents = { λ c. numbered c.now.sources.items };

    ghost names = { λ c k. name_at c.now.sources.items k };

    ghost fails = { λ k e. e.number ≡ k };

    ghost names_respect_eq = { λ c p q h. ap (name_at c.now.sources.items) (eqb-true p q h) };

    fn ensure(&mut self, id: &usize) -> Result<(), FetchError<NoSource>> {
        if *id < self.sources.len() {
            Ok(())
        } else {
            Err(FetchError::Failed(NoSource { number: *id }))
        }
    }

    fn get(&self, id: &usize) -> Option<&Source> {
        match self.sources.get(*id) {
            Some(found) => Some(&found.source),
            None => None,
        }
    }

    fn display<'a>(&'a self, id: &'a usize) -> Option<&'a str> {
        match self.sources.get(*id) {
            Some(found) => found.name.as_deref(),
            None => None,
        }
    }
}
