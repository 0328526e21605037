//! Laws of safe texts and of the pictures that are drawn of them. Each is the contract of a
//! function that does nothing.

ghost use Rattle.std.specs.Prelude.{◌≡◌, ◌≢◌, ℕ, true, List, length};
ghost use Rattle.std.specs.List.{list_all};
ghost use Rattle.ariadne_picture.specs.declared.label_info.LabelInfo.{LabelInfo};
ghost use Rattle.ariadne_picture.specs.Report.{ReportFields, World};
ghost use Rattle.ariadne_picture.specs.Canvas.{canvas};
ghost use Rattle.ariadne_picture.specs.Print.{printed};
ghost use Rattle.ariadne_safe.specs.declared.text.TextKind.{TextKind};
ghost use Rattle.ariadne_safe.specs.Visible.{is_seen_in, stays_anywhere, symbol_of};
ghost use Rattle.ariadne_safe.specs.Visible.{visible_text};
ghost use Rattle.ariadne_safe.specs.Pictures.{AreCellsShown, HideNothing, HidesNothing};
ghost use Rattle.ariadne_safe.specs.Pictures.{HasNoControl, IsDrawnSafely};

/// Each character has one sign, so offsets in characters stay.
pub fn signs_stand_one_for_one()
    ensures { (kind : TextKind) (t : List ℕ) → length (visible_text kind t) ≡ length t }
{}

/// A text is shown as it is, where nothing of it is hidden but what stays in such a text: line
/// feeds in a help or a note, tabs and the ends of lines in a source. Where compilers count the
/// lines, tabs and line feeds.
pub fn what_is_seen_stays()
    ensures { (kind : TextKind) (t : List ℕ) → list_all (stays_anywhere kind) t ≡ true
        → visible_text kind t ≡ t }
{}

/// A text that was made visible is visible: once more changes nothing.
pub fn visible_twice_is_visible_once()
    ensures { (kind : TextKind) (t : List ℕ) → visible_text kind (visible_text kind t)
        ≡ visible_text kind t }
{}

/// Hidden characters that have symbols are told apart by them.
pub fn symbols_tell_characters_apart()
    ensures { (c d : ℕ) → symbol_of c ≡ symbol_of d → symbol_of c ≢ 0xFFFD → c ≡ d }
{}

/// Whatever a text has, what is shown of it hides nothing but what lays it out.
pub fn visible_texts_are_seen()
    ensures { (kind : TextKind) (t : List ℕ)
        → list_all (is_seen_in kind) (visible_text kind t) ≡ true }
{}

/// Where no text that was handed in hides anything, no text of a cell does. Beside its text a cell
/// is printed as the sequences of its colour, so each escape of a picture is the library's own.
pub fn cells_hide_nothing<S, Id>()
    ensures { (w : World S Id) (r : ReportFields S) (infos : List LabelInfo) → HideNothing w r
        → AreCellsShown (canvas w r infos) }
{}

/// Nor does any picture of them: outside of the sequences `ESC [ digits and semicolons m` its only
/// hidden characters are the line feeds at the ends of rows.
pub fn pictures_hide_nothing<S, Id>()
    ensures { (w : World S Id) (r : ReportFields S) (infos : List LabelInfo) → HideNothing w r
        → HidesNothing (printed (canvas w r infos)) }
{}

/// So such a report is drawn safely. Without colours its pictures have no escape at all, and their
/// rows are the lines that are sent, since no text has an escape, nor a line feed where a row shows
/// it whole.
pub fn such_reports_are_drawn_safely<S, Id>()
    ensures { (w : World S Id) (r : ReportFields S) → HideNothing w r → IsDrawnSafely w r }
{}

/// And no byte of such a picture is a control of ASCII, or DEL, but these line feeds and those of
/// the sequences. One that a terminal of 8 bits obeys may be a byte of a letter.
pub fn such_bytes_have_no_control()
    ensures { (picture : List ℕ) → HidesNothing picture → HasNoControl picture }
{}
