//! Strokes and their colours: what one cell of a picture shows.

ghost use Rattle.std.specs.Prelude.{◌≡◌};
ghost use Rattle.ariadne_picture.specs.declared.switches.CharSet.TheVariants.{Unicode, Ascii};
ghost use Rattle.ariadne_picture.specs.Cells.{glyph_code};

use crate::switches::CharSet;

/// A stroke of the picture, whatever the character set.
#[derive(Clone, Copy)]
pub enum Glyph {
    Blank,
    Hbar,
    Vbar,
    Xbar,
    VbarGap,
    Uarrow,
    Rarrow,
    Ltop,
    Lbot,
    Rbot,
    Mbot,
    Lbox,
    Rbox,
    Lcross,
    Underbar,
    Underline,
}

impl Glyph {
    /// Its character in a character set.
    pub fn to_char(self, set: CharSet) -> char
        ensures { result ≡ glyph_code set self }
    {
        match set {
            CharSet::Unicode => self.to_unicode(),
            CharSet::Ascii => self.to_ascii(),
        }
    }

    #[tactic(auto, unfolding(crate::specs::Cells::glyph_code))]
    fn to_unicode(self) -> char
        ensures { result ≡ glyph_code Unicode self }
    {
        match self {
            Glyph::Blank => ' ',
            Glyph::Hbar => '─',
            Glyph::Vbar => '│',
            Glyph::Xbar => '┼',
            Glyph::VbarGap => '┆',
            Glyph::Uarrow => '▲',
            Glyph::Rarrow => '▶',
            Glyph::Ltop => '╭',
            Glyph::Lbot => '╰',
            Glyph::Rbot => '╯',
            Glyph::Mbot => '┴',
            Glyph::Lbox => '[',
            Glyph::Rbox => ']',
            Glyph::Lcross => '├',
            Glyph::Underbar => '┬',
            Glyph::Underline => '─',
        }
    }

    #[tactic(auto, unfolding(crate::specs::Cells::glyph_code))]
    fn to_ascii(self) -> char
        ensures { result ≡ glyph_code Ascii self }
    {
        match self {
            Glyph::Blank => ' ',
            Glyph::Hbar => '-',
            Glyph::Vbar | Glyph::Lcross | Glyph::Underbar => '|',
            Glyph::Xbar => '+',
            Glyph::VbarGap => ':',
            Glyph::Uarrow | Glyph::Mbot | Glyph::Underline => '^',
            Glyph::Rarrow => '>',
            Glyph::Ltop => ',',
            Glyph::Lbot => '`',
            Glyph::Rbot => '\'',
            Glyph::Lbox => '[',
            Glyph::Rbox => ']',
        }
    }
}

/// Whose colour a piece of the picture has.
#[derive(Clone, Copy)]
pub enum Paint {
    /// No colour.
    Plain,
    /// The colour of the report's label at this position, from 0.
    Label(usize),
    /// The colour of the report's kind.
    Kind,
    /// The colour of line numbers and of the strokes round the lines of a group.
    Margin,
    /// The colour of the margins of rows without a line number.
    SkippedMargin,
    /// The colour of source text outside all labels.
    Unimportant,
    /// The colour of the word in front of a help or a note.
    Note,
}

/// The first cell of a place or column, and all the cells behind it.
#[derive(Clone, Copy)]
pub struct Ink {
    pub first: Glyph,
    pub first_paint: Paint,
    pub rest: Glyph,
    pub rest_paint: Paint,
}
