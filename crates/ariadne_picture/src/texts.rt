//! The texts of a report, as its picture shows them.

ghost use Rattle.std.specs.Prelude.{◌≡◌, map, string_bytes};
ghost use Rattle.ariadne_picture.specs.Pieces.{message_at};

use crate::switches::Switches;
use std::marker::Model;

/// What a picture reads of a report beside the labels: its switches and its texts. Who reads the
/// report sets the fields, and rows read them by calls.
#[derive(Drop)]
pub struct Texts<'a> {
    /// The switches of the picture.
    pub switches: Switches,
    /// Whether labels over several lines have arrow heads.
    pub multiline_arrows: bool,
    /// The code, shown in brackets before the kind.
    pub code: Option<&'a str>,
    /// The word of the kind.
    pub kind: &'a str,
    /// The message of the header.
    pub message: Option<&'a str>,
    /// The helps.
    pub helps: &'a [String],
    /// The notes.
    pub notes: &'a [String],
    /// The messages of the labels, by position; without a message a label has an empty text.
    pub messages: &'a [&'a str],
}

impl<'a> Model for Texts<'a> {
    ghost use Rattle.std.specs.Prelude.{◌++◌, codes, map, string_bytes};
    ghost use Rattle.std.specs.Option.{option_copied};
    ghost use Rattle.ariadne_picture.specs.Canvas.{code_text};
    ghost use Rattle.ariadne_picture.specs.Pieces.{Texts};

    ghost Value = { Texts };

    ghost view = { λ a. record {
      switches = a.switches;
      multiline_arrows = a.multiline_arrows;
      kind_text = code_text (option_copied a.code) ++ a.kind.now ++ codes ":";
      message = option_copied a.message;
      helps = map string_bytes a.helps.now;
      notes = map string_bytes a.notes.now;
      messages = map (λ m. m.now) a.messages.now;
    } };
}

impl<'a> Texts<'a> {
    /// The switches of the picture.
    pub fn switches(&'a self) -> &'a Switches
        ensures { result.now ≡ self.now.switches }
    {
        &self.switches
    }

    /// The helps.
    pub fn helps(&self) -> &'a [String]
        ensures { map string_bytes result.now ≡ self.now.helps }
    {
        self.helps
    }

    /// The notes.
    pub fn notes(&self) -> &'a [String]
        ensures { map string_bytes result.now ≡ self.now.notes }
    {
        self.notes
    }

    /// The message of the label at a position, or an empty text.
    #[tactic(auto, unfolding(crate::specs::Pieces::message_at))]
    pub fn message_of(&self, position: usize) -> &'a str
        ensures { result.now ≡ message_at self.now position }
    {
        match self.messages.get(position) {
            Some(message) => *message,
            None => "",
        }
    }
}
