//! The colours of a report's pieces.

ghost use Rattle.std.specs.Prelude.{◌≡◌};
ghost use Rattle.ariadne_picture.specs.Canvas.{color_of};

use ariadne_color::Color;
use ariadne_picture::cell::Paint;
use std::marker::Model;

/// The colour of line numbers, and of the strokes round the lines of a group.
const MARGIN: Color = Color::Fixed(246);
/// The colour of the margins of rows without a line number.
const SKIPPED_MARGIN: Color = Color::Fixed(240);
/// The colour of source text outside all labels.
const UNIMPORTANT: Color = Color::Fixed(249);
/// The colour of the word in front of a help or a note.
const NOTE: Color = Color::Fixed(115);

/// The colours that the pieces of a report's picture may have.
#[derive(Drop)]
pub struct Palette {
    /// Whether there are colours at all.
    pub is_on: bool,
    /// The colour of the report's kind.
    pub kind: Color,
    /// The colours of its labels, by position.
    pub labels: Vec<Option<Color>>,
}

impl Model for Palette {
    ghost use Rattle.ariadne_picture.specs.Canvas.{Palette};

    ghost Value = { Palette };

    ghost view = { λ a. record { is_on = a.is_on; kind = a.kind; labels = a.labels.items } };
}

impl Palette {
    /// The colour of a piece, if it has one.
    #[tactic(auto, unfolding(ariadne_picture::specs::Canvas::color_of, ariadne_picture::specs::Canvas::paint_color))]
    pub fn color_of(&self, paint: Paint) -> Option<Color>
        ensures { result ≡ color_of self.now paint }
    {
        if !self.is_on {
            return None;
        }
        match paint {
            Paint::Plain => None,
            Paint::Label(position) => self.labels.get(position).copied().flatten(),
            Paint::Kind => Some(self.kind),
            Paint::Margin => Some(MARGIN),
            Paint::SkippedMargin => Some(SKIPPED_MARGIN),
            Paint::Unimportant => Some(UNIMPORTANT),
            Paint::Note => Some(NOTE),
        }
    }
}
