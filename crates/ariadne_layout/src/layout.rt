//! What is drawn at one line of a source: its labels, and its characters.

ghost use Rattle.std.specs.Prelude.{◌≡◌, ◌≤◌, ◌<◌, ◌^◌, ◌↔◌, IsFalse, IsTrue, chars, length, map, nat_lt, not};
ghost use Rattle.std.specs.Prelude.{[], ◌++◌, option_to_list};
ghost use Rattle.std.specs.Str.{drop_trailing_whitespace};
ghost use Rattle.std.specs.List.{AllByRecursion, list_any};
ghost use Rattle.ariadne_picture.specs.Columns.{arrow_len, places_to_end, shown};
ghost use Rattle.ariadne_picture.specs.Groups.{greatest};
ghost use Rattle.ariadne_picture.specs.Ranks.{is_inline, is_margin};
ghost use Rattle.ariadne_picture.specs.Rows.{are_lone};
ghost use Rattle.ariadne_layout.specs.Cuts.{AreApart, sights_in};

use crate::line_text::LineText;
use ariadne_picture::label_info::LineLabel;
use ariadne_picture::sight::Part;
use ariadne_picture::switches::Switches;
use std::marker::Model;

/// The labels of a line and its characters.
#[derive(Drop)]
pub struct LineLayout<'a> {
    margin: Option<LineLabel>,
    labels: &'a [LineLabel],
    offset: usize,
    text: &'a LineText<'a>,
    /// The parts of it that are shown, in their order, or none where it is shown whole.
    parts: &'a [Part],
}

impl<'a> Model for LineLayout<'a> {
    ghost use Rattle.std.specs.Prelude.{length};
    ghost use Rattle.std.specs.Str.{drop_trailing_whitespace};
    ghost use Rattle.ariadne_layout.specs.Cuts.{AreApart, sights_in};
    ghost use Rattle.ariadne_picture.specs.Columns.{Layout};

    ghost Value = { Layout };

    ghost view = { λ a. record {
      margin = a.margin;
      labels = a.labels.now;
      offset = a.offset;
      text = a.text.now;
      sights = sights_in a.parts.now (length (drop_trailing_whitespace a.text.now));
    } };

    ghost invariant = { λ a. AreApart a.parts.now };
}

impl<'a> LineLayout<'a> {
    /// The layout of a line with these labels, of which these parts are shown, or the whole where
    /// there are none. `offset` counts the characters of the source before the line.
    pub fn new(
        margin: Option<LineLabel>,
        labels: &'a [LineLabel],
        offset: usize,
        text: &'a LineText<'a>,
        parts: &'a [Part],
    ) -> LineLayout<'a>
        requires apart { AreApart parts.now }
        ensures { result ≡ record {
          margin = margin;
          labels = labels.now;
          offset = offset;
          text = text.now;
          sights = sights_in parts.now (length (drop_trailing_whitespace text.now));
        } }
    {
        LineLayout {
            margin,
            labels,
            offset,
            text,
            parts,
        }
    }

    /// The label whose arrow leaves the gutter beside the source row.
    pub fn margin(&self) -> Option<LineLabel>
        ensures { result ≡ self.now.margin }
    {
        self.margin
    }

    /// The labels that have rows below the line, in the order of these rows.
    pub fn labels(&self) -> &'a [LineLabel]
        ensures { result.now ≡ self.now.labels }
    {
        self.labels
    }

    /// How many characters of the source stand before the line.
    pub fn offset(&self) -> usize
        ensures { result ≡ self.now.offset }
    {
        self.offset
    }

    /// Its characters without the white space at the end.
    #[tactic(auto, unfolding(ariadne_picture::specs::Columns::shown))]
    pub fn shown(&self) -> &'a str
        ensures { chars result.now ≡ shown self.now }
    {
        self.text.shown()
    }

    /// How many characters are shown.
    #[tactic(auto, unfolding(ariadne_picture::specs::Columns::shown))]
    pub fn shown_len(&self) -> usize
        ensures { result ≡ length (shown self.now) }
    {
        self.text.shown_len()
    }

    /// Whether each shown character is printable ASCII, and so takes one column.
    #[tactic(auto, unfolding(ariadne_picture::specs::Columns::shown))]
    pub fn is_plain(&self) -> bool
        ensures { IsTrue result ↔ AllByRecursion (λ c. (32 ≤ c) × (c ≤ 126)) (shown self.now) }
    {
        self.text.is_plain()
    }

    /// The parts of the shown characters that are seen, in their order, or none where all are. A
    /// mark stands before each of them, and behind the last, where there is anything to cut.
    #[tactic(auto, unfolding(ariadne_picture::specs::Columns::shown))]
    pub fn parts(&self) -> &'a [Part]
        ensures apart { AreApart result.now }
        ensures sights { self.now.sights ≡ sights_in result.now (length (shown self.now)) }
    {
        self.parts
    }

    /// Whether not all of them are seen.
    pub fn is_cut(&self) -> bool
        ensures { IsFalse result ↔ (self.now.sights ≡ []) }
    {
        !self.parts.is_empty() && self.shown_len() > 0
    }

    /// Whether each place takes one column: all of them are seen, and none is a tab or a wide
    /// character.
    pub fn is_even(&self) -> bool
        ensures whole { IsTrue result → self.now.sights ≡ [] }
        ensures plain { IsTrue result → AllByRecursion (λ c. (32 ≤ c) × (c ≤ 126)) (shown self.now) }
    {
        self.is_plain() && !self.is_cut()
    }

    /// How many characters the line has, its terminator among them.
    pub fn len(&self) -> usize
        ensures { result ≡ length self.now.text }
    {
        self.text.len()
    }

    /// Whether a label of the line is its margin label.
    #[tactic(auto, unfolding(ariadne_picture::specs::Ranks::is_margin, ariadne_picture::specs::Ranks::is_of_gutter_label))]
    pub fn is_margin(&self, label: &LineLabel) -> bool
        ensures { result ≡ is_margin self.now.margin label.now }
    {
        match &self.margin {
            Some(margin) => !label.side.is_inline() && margin.gutter_column == label.gutter_column,
            None => false,
        }
    }

    /// Whether one of its labels has a message, be it the margin label.
    pub fn has_told(&self) -> bool
        ensures { result ≡ list_any (λ x. x.info.has_message) (option_to_list self.now.margin ++ self.now.labels) }
    {
        match &self.margin {
            Some(margin) => margin.info.has_message || self.has_rows(),
            None => self.has_rows(),
        }
    }

    /// Whether there are rows below the line: one of its labels has a message.
    pub fn has_rows(&self) -> bool
        ensures { result ≡ list_any (λ x. x.info.has_message) self.now.labels }
    {
        self.labels.iter().any(|label| label.info.has_message)
    }

    /// Whether a row of underlines alone stands below the line: they are asked for, one of its labels
    /// holds a character, and none has a message.
    pub fn is_lone(&self, switches: &Switches) -> bool
        ensures { result ≡ are_lone switches.now self.now.labels }
    {
        switches.lone_underlines
            && switches.underlines
            && !switches.compact
            && self.has_span()
            && !self.has_rows()
    }

    /// Whether a label of the line holds a character.
    fn has_span(&self) -> bool
        ensures { result ≡ list_any (λ x. nat_lt x.info.start x.info.end) self.now.labels }
    {
        self.labels
            .iter()
            .any(|label| label.info.start < label.info.end)
    }

    /// How many places the rows below the line have.
    #[tactic(auto, unfolding(ariadne_picture::specs::Columns::arrow_len))]
    pub fn arrow_len(&self, switches: &Switches) -> usize
        requires fits { arrow_len switches.now self.now < 2 ^ 64 }
        ensures { result ≡ arrow_len switches.now self.now }
    {
        let len = if self.has_long_label() {
            self.len()
        } else {
            self.greatest_end()
        };
        if switches.compact { len + 1 } else { len + 2 }
    }

    /// Whether a label of several lines has rows below the line.
    fn has_long_label(&self) -> bool
        ensures { result ≡ list_any (λ x. not (is_inline x.side)) self.now.labels }
    {
        self.labels.iter().any(|label| !label.side.is_inline())
    }

    /// How far behind the line's start the last of its labels ends.
    fn greatest_end(&self) -> usize
        ensures { result ≡ greatest (map (places_to_end self.now) self.now.labels) }
    {
        let mut greatest = 0usize;
        for label in self.labels {
            greatest = greatest.max(label.info.end.saturating_sub(self.offset));
        }
        greatest
    }
}
