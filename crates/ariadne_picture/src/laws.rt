//! Laws of the definitions that a picture is drawn by. Each is the contract of a function that does
//! nothing: calling it tells the law.

ghost use Rattle.std.specs.Prelude.{◌≡◌, ◌↔◌, ◌⊎◌, ℕ, Bool, true, List, [], Some, None};
ghost use Rattle.std.specs.Prelude.{◌<◌, ◌≤◌, nat_lt, int_lt, length, slice_get, IsTrue, IsFalse};
ghost use Rattle.std.specs.Prelude.{◌+◌, ◌++◌, map, is_some, option_and_then, option_to_list};
ghost use Rattle.std.specs.Prelude.{All, AllPairs, Contains, IsPermutation, IsSortedBy};
ghost use Rattle.std.specs.Cmp.{IsStrictWeakOrder};
ghost use Rattle.std.specs.List.{AllByRecursion, IsFirstBest};
ghost use Rattle.std.specs.List.Sorted.{IsStableBy};
ghost use Rattle.ariadne_picture.specs.declared.cell.Glyph.TheVariants.{Blank, Hbar, Vbar, Xbar};
ghost use Rattle.ariadne_picture.specs.declared.cell.Glyph.TheVariants.{Lbot, Lcross, Ltop};
ghost use Rattle.ariadne_picture.specs.declared.cell.Glyph.TheVariants.{Rarrow, VbarGap};
ghost use Rattle.ariadne_picture.specs.declared.label_info.LabelInfo.{LabelInfo};
ghost use Rattle.ariadne_picture.specs.declared.label_info.LineLabel.{LineLabel};
ghost use Rattle.ariadne_picture.specs.declared.label_info.Side.TheVariants.{Starts, Ends};
ghost use Rattle.ariadne_picture.specs.declared.sight.Sight.TheVariants.{Seen};
ghost use Rattle.ariadne_picture.specs.declared.switches.Switches.{Switches};
ghost use Rattle.ariadne_picture.specs.Accept.{AreAccepted};
ghost use Rattle.ariadne_picture.specs.Bars.{BarBesideAlternate, BarBesideArrow, BarBesideLine};
ghost use Rattle.ariadne_picture.specs.Bars.{EndsNoEarlier, IsLineLabel, IsMarginLabel};
ghost use Rattle.ariadne_picture.specs.Bars.{IsGutterLabel, IsOfLine};
ghost use Rattle.ariadne_picture.specs.Bars.{IsInside, IsOutside, Shows};
ghost use Rattle.ariadne_picture.specs.Blocks.{has_whole_blocks};
ghost use Rattle.ariadne_picture.specs.Canvas.{Cell, canvas, color_of, group_id, groups, palette_of};
ghost use Rattle.ariadne_picture.specs.Canvas.{sections, texts_of};
ghost use Rattle.ariadne_picture.specs.Causes.{has_no_other_strokes};
ghost use Rattle.ariadne_picture.specs.Columns.{cut_columns, goes_on, layout_of, needed_labels};
ghost use Rattle.ariadne_picture.specs.Columns.{column_of, or_begin, parts_of, place_part, shown};
ghost use Rattle.ariadne_picture.specs.Columns.{sight_of, widened};
ghost use Rattle.ariadne_picture.specs.GutterCauses.{has_no_other_gutter_strokes};
ghost use Rattle.ariadne_picture.specs.Groups.{AreGroupsOf, group_start_line, groups_of, ordered};
ghost use Rattle.ariadne_picture.specs.Headline.{AreReadInOneWay, CanBeRead, IsReadBy, IsTraced};
ghost use Rattle.ariadne_picture.specs.LabelColors.{has_label_colors, label_color};
ghost use Rattle.ariadne_picture.specs.Lists.{best, in_order, total};
ghost use Rattle.ariadne_picture.specs.LoneLines.{has_lone_underlines};
ghost use Rattle.ariadne_picture.specs.Margins.{columns_before_text, margin_columns};
ghost use Rattle.ariadne_picture.specs.Pieces.{Section, Texts, row_pieces, message_at};
ghost use Rattle.ariadne_picture.specs.Placing.{has_ends_of_gutter_traces, has_gutter_bars};
ghost use Rattle.ariadne_picture.specs.Placing.{has_inline_traces, has_message_rows, is_aligned};
ghost use Rattle.ariadne_picture.specs.Placing.{Placing, is_placing};
ghost use Rattle.ariadne_picture.specs.Ranks.{Sheet, is_before, is_hidden_line, is_nearer_margin};
ghost use Rattle.ariadne_picture.specs.Ranks.{gutter_labels, line_labels, margin_label};
ghost use Rattle.ariadne_picture.specs.Ranks.{span_len};
ghost use Rattle.ariadne_picture.specs.ReadBack.{HaveShortNumbers, HaveWholeLines};
ghost use Rattle.ariadne_picture.specs.ReadBack.{IsReadBack, IsReadBackByGutters};
ghost use Rattle.ariadne_picture.specs.Readings.{AgreeOnEnds, AgreeOnHeads, AgreeOnLines};
ghost use Rattle.ariadne_picture.specs.Report.{AreForward, HaveOneSource, ReportFields, World};
ghost use Rattle.ariadne_picture.specs.RowNames.{HasRow};
ghost use Rattle.ariadne_picture.specs.Rows.{Row, source, alternate, arrow, gap, before, rows};
ghost use Rattle.ariadne_picture.specs.Sent.{HaveColumnsOfTexts, HaveNoLineFeeds, RowsAreLines};
ghost use Rattle.ariadne_picture.specs.Strokes.{bar_at, first_row, is_preferred, last_row};
ghost use Rattle.ariadne_picture.specs.Variants.{BytesDrawAsCharacters, ColorsMoveNothing};
ghost use Rattle.ariadne_picture.specs.Variants.{HasNoEscape, HaveNoEscapes};

/// `in_order` is a stable sort by any strict weak order. It keeps the elements, and leaves none less
/// than the one before it. Those of which neither is less stay in the order that they had.
pub fn in_order_is_a_stable_sort<T>()
    ensures permutation { (less : T → T → Bool) (xs : List T)
        → IsPermutation xs (in_order less xs) }
    ensures sorted { (less : T → T → Bool) (xs : List T)
        → IsStrictWeakOrder less → IsSortedBy less (in_order less xs) }
    ensures stable { (less : T → T → Bool) (xs : List T)
        → IsStrictWeakOrder less → IsStableBy less xs (in_order less xs) }
{}

/// `best` is the first element that no other beats, by any strict weak order. Only an empty list
/// has none.
pub fn best_is_the_first_unbeaten<T>()
    ensures some { (beats : T → T → Bool) (xs : List T) (b : T)
        → IsStrictWeakOrder beats → best beats xs ≡ Some b
        → (k : ℕ) × (slice_get xs k ≡ Some b) × IsFirstBest beats xs (length xs) k }
    ensures none { (beats : T → T → Bool) (xs : List T) → best beats xs ≡ None → xs ≡ [] }
{}

/// The orders that a picture sorts and chooses by are strict weak orders. They are those of the
/// labels, of the gutter labels by falling length, of the line labels, of the margin label, and of
/// the underline that is seen.
pub fn orders_of_a_picture()
    ensures labels { IsStrictWeakOrder (λ (a b : LabelInfo). int_lt a.order b.order) }
    ensures lengths { IsStrictWeakOrder (λ (a b : LabelInfo). nat_lt (span_len b) (span_len a)) }
    ensures line_labels { IsStrictWeakOrder is_before }
    ensures margin_label { IsStrictWeakOrder is_nearer_margin }
    ensures underline { IsStrictWeakOrder is_preferred }
{}

/// Labels in order are cut into groups in exactly one way: `groups_of` is such a cutting, and there
/// is no other.
pub fn groups_are_the_only_cutting()
    ensures exists { (same_source : ℕ → ℕ → Bool) (labels : List LabelInfo)
        → AreGroupsOf same_source labels (groups_of same_source labels) }
    ensures only { (same_source : ℕ → ℕ → Bool) (labels : List LabelInfo)
        (groups : List (List LabelInfo))
        → AreGroupsOf same_source labels groups → groups ≡ groups_of same_source labels }
{}

/// A group begins at the least line where one of its labels starts: none starts on an earlier line,
/// and one starts there.
pub fn groups_begin_at_their_least_line()
    ensures least { (group : List LabelInfo) (a : LabelInfo)
        → Contains group a → group_start_line group ≤ a.start_line }
    ensures reached { (group : List LabelInfo) (a : LabelInfo)
        → Contains group a → All EndsNoEarlier group
        → (b : LabelInfo) × Contains group b × (b.start_line ≡ group_start_line group) }
{}

/// The source of each group is held, so `group_source` never takes its default.
pub fn groups_have_their_sources<S, Id>()
    ensures { (w : World S Id) (r : ReportFields S) (infos : List LabelInfo)
        → AreAccepted w r infos
        → AllByRecursion (λ group. is_some (option_and_then w.source_of (group_id w r group)) ≡ true)
        (groups w r infos) }
{}

/// Each label that is drawn ends on the line where it starts or on a later one, and so does each
/// that owns a gutter column of a group of such labels.
pub fn labels_end_no_earlier<S, Id>()
    ensures drawn { (w : World S Id) (r : ReportFields S) (infos : List LabelInfo)
        → AreAccepted w r infos → All EndsNoEarlier infos }
    ensures gutter_labels { (same_source : ℕ → ℕ → Bool) (labels : List LabelInfo)
        (s : Sheet) (k i : ℕ) (a : LabelInfo)
        → All EndsNoEarlier labels
        → slice_get (groups_of same_source (ordered labels)) k ≡ Some s.labels
        → slice_get (gutter_labels s.labels) i ≡ Some a → IsGutterLabel s i a }
{}

/// The rows of a group stand in the order of their names, each before every later one; so none
/// stands twice.
pub fn rows_stand_in_order()
    ensures increasing { (s : Sheet) (is_last : Bool) (helps notes : List (List ℕ))
        → AllPairs (λ a b. IsTrue (before a b)) (rows s is_last helps notes) }
    ensures not_itself { (a : Row) → IsFalse (before a a) }
    ensures chain { (a b c : Row)
        → IsTrue (before a b) → IsTrue (before b c) → IsTrue (before a c) }
{}

/// The rows of a group are the only list in that order whose members are those that it has, case by
/// case.
pub fn rows_are_the_only_list()
    ensures members { (s : Sheet) (is_last : Bool) (helps notes : List (List ℕ)) (x : Row)
        → Contains (rows s is_last helps notes) x ↔ HasRow s is_last helps notes x }
    ensures only { (s : Sheet) (is_last : Bool) (helps notes : List (List ℕ)) (xs : List Row)
        → AllPairs (λ a b. IsTrue (before a b)) xs
        → ((x : Row) → Contains xs x ↔ HasRow s is_last helps notes x)
        → xs ≡ rows s is_last helps notes }
{}

/// A gutter label starts as the margin label of its start line or as a line label there, and ends
/// as a line label of its end line. These give its first row and its last, which are rows of the
/// group, the first before the last.
pub fn gutter_labels_have_a_first_and_a_last_row()
    ensures starts { (s : Sheet) (i : ℕ) (a : LabelInfo) → IsGutterLabel s i a
        → IsMarginLabel s a.start_line Starts i
        ⊎ ((n : ℕ) × IsLineLabel s a.start_line Starts i n) }
    ensures ends { (s : Sheet) (i : ℕ) (a : LabelInfo) → IsGutterLabel s i a
        → (n : ℕ) × IsLineLabel s a.end_line Ends i n }
    ensures from_margin { (s : Sheet) (i : ℕ) (a : LabelInfo)
        → IsMarginLabel s a.start_line Starts i → first_row s i a ≡ source a.start_line }
    ensures from_label { (s : Sheet) (i n : ℕ) (a : LabelInfo)
        → IsLineLabel s a.start_line Starts i n → first_row s i a ≡ arrow a.start_line n }
    ensures to_label { (s : Sheet) (i n : ℕ) (a : LabelInfo)
        → IsLineLabel s a.end_line Ends i n → last_row s i a ≡ arrow a.end_line n }
    ensures first_is_there { (s : Sheet) (is_last : Bool) (helps notes : List (List ℕ))
        (i : ℕ) (a : LabelInfo) → IsGutterLabel s i a
        → Contains (rows s is_last helps notes) (first_row s i a) }
    ensures last_is_there { (s : Sheet) (is_last : Bool) (helps notes : List (List ℕ))
        (i : ℕ) (a : LabelInfo) → IsGutterLabel s i a
        → Contains (rows s is_last helps notes) (last_row s i a) }
    ensures first_before_last { (s : Sheet) (i : ℕ) (a : LabelInfo) → IsGutterLabel s i a
        → IsTrue (before (first_row s i a) (last_row s i a)) }
{}

/// The gutter bar of a gutter label stands in the rows where a reader of the picture follows it,
/// and in no others. Beside a source row, or the gap row of a hidden line: where the gutter label
/// covers the line, is not its margin label and does not start there. Beside the rows of a line
/// label there are three cases. The gutter label starts on an earlier line and ends on a later one.
/// Or it starts on this line as the margin label, or as a line label of a lower number. Or it ends
/// on this line as a line label whose arrow row is further down.
pub fn bars_stand_case_by_case()
    ensures source { (s : Sheet) (i l : ℕ) (a : LabelInfo) → IsGutterLabel s i a
        → (IsTrue (bar_at s (source l) i) ↔ BarBesideLine s i a l) }
    ensures gap { (s : Sheet) (i l : ℕ) (a : LabelInfo) → IsGutterLabel s i a
        → IsTrue (is_hidden_line s l)
        → (IsTrue (bar_at s (gap l) i) ↔ BarBesideLine s i a l) }
    ensures alternate { (s : Sheet) (i l r : ℕ) (a : LabelInfo) → IsGutterLabel s i a
        → (IsTrue (bar_at s (alternate l r) i) ↔ BarBesideAlternate s i a l r) }
    ensures arrow { (s : Sheet) (i l r : ℕ) (a : LabelInfo) → IsGutterLabel s i a
        → (IsTrue (bar_at s (arrow l r) i) ↔ BarBesideArrow s i a l r) }
    ensures elsewhere { (s : Sheet) (x : Row) (i : ℕ) → IsTrue (bar_at s x i) → IsOfLine x }
{}

/// What the column of a gutter label shows, row by row: its head in its first row and its corner in
/// its last. Between these it shows a bar, a tee, a broken bar beside hidden lines, or a horizontal
/// that crosses it. Outside of these it shows nothing but a horizontal that crosses it.
pub fn gutter_columns_show_their_strokes()
    ensures head { (s : Sheet) (i : ℕ) (a : LabelInfo) → IsGutterLabel s i a
        → Shows s (first_row s i a) i Ltop }
    ensures corner { (s : Sheet) (i : ℕ) (a : LabelInfo) → IsGutterLabel s i a
        → Shows s (last_row s i a) i Lbot }
    ensures beside_a_line { (s : Sheet) (i l : ℕ) (a : LabelInfo) → IsGutterLabel s i a
        → IsInside s i a (source l)
        → Shows s (source l) i Vbar ⊎ Shows s (source l) i Lcross }
    ensures beside_hidden_lines { (s : Sheet) (i l : ℕ) (a : LabelInfo) → IsGutterLabel s i a
        → IsInside s i a (gap l) → Shows s (gap l) i VbarGap }
    ensures in_alternate_rows { (s : Sheet) (i l r : ℕ) (a : LabelInfo) → IsGutterLabel s i a
        → IsInside s i a (alternate l r) → Shows s (alternate l r) i Vbar }
    ensures in_arrow_rows { (s : Sheet) (i l r : ℕ) (a : LabelInfo) → IsGutterLabel s i a
        → IsInside s i a (arrow l r)
        → Shows s (arrow l r) i Vbar ⊎ Shows s (arrow l r) i Hbar ⊎ Shows s (arrow l r) i Xbar }
    ensures outside { (s : Sheet) (i : ℕ) (a : LabelInfo) (x : Row) → IsGutterLabel s i a
        → IsOutside s i a x → Shows s x i Blank ⊎ Shows s x i Hbar }
{}

/// The column of arrow heads has no bar: each row shows nothing there, a horizontal, or a head.
pub fn the_last_gutter_column_has_no_bar()
    ensures { (s : Sheet) (x : Row) → let last = length (gutter_labels s.labels) in
        Shows s x last Blank ⊎ Shows s x last Hbar ⊎ Shows s x last Rarrow }
{}

/// Each accepted message has one row of its own, which ends in it; every other row below a line
/// ends with its text.
pub fn messages_have_rows_of_their_own<S, Id>()
    ensures { (w : World S Id) (r : ReportFields S) (infos : List LabelInfo)
        → AreAccepted w r infos → HaveOneSource w → AreForward w r
        → let rows = canvas w r infos in let groups = sections w r infos in
        CanBeRead rows groups (λ placing. has_message_rows rows groups placing
        (message_at (texts_of r))) }
{}

/// From the message of a label within one line strokes lead to its attach character.
pub fn inline_labels_are_traced<S, Id>()
    ensures { (w : World S Id) (r : ReportFields S) (infos : List LabelInfo)
        → AreAccepted w r infos → HaveOneSource w → AreForward w r
        → let rows = canvas w r infos in let groups = sections w r infos in
        CanBeRead rows groups (λ placing. has_inline_traces rows groups placing) }
{}

/// From the message of a label over several lines strokes lead into its gutter column, and out of
/// it to the line where the label starts.
pub fn ends_of_gutter_labels_are_traced<S, Id>()
    ensures { (w : World S Id) (r : ReportFields S) (infos : List LabelInfo)
        → AreAccepted w r infos → HaveOneSource w → AreForward w r
        → let rows = canvas w r infos in let groups = sections w r infos in
        CanBeRead rows groups (λ placing. has_ends_of_gutter_traces rows groups placing) }
{}

/// The gutter column of a label has a stroke in each row from its head to its message, and none
/// elsewhere.
pub fn gutter_bars_are_whole<S, Id>()
    ensures { (w : World S Id) (r : ReportFields S) (infos : List LabelInfo)
        → AreAccepted w r infos → HaveOneSource w → AreForward w r
        → let rows = canvas w r infos in let groups = sections w r infos in
        CanBeRead rows groups (λ placing. has_gutter_bars rows groups placing) }
{}

/// Below a line each place stands in the columns where the source row shows its character.
pub fn rows_keep_the_columns_of_their_line<S, Id>()
    ensures { (w : World S Id) (r : ReportFields S) (infos : List LabelInfo)
        → AreAccepted w r infos → HaveOneSource w → AreForward w r
        → let rows = canvas w r infos in let groups = sections w r infos in
        CanBeRead rows groups (λ placing. is_aligned rows groups placing) }
{}

/// The block of a line has the rows of its labels and no other.
pub fn blocks_are_whole<S, Id>()
    ensures { (w : World S Id) (r : ReportFields S) (infos : List LabelInfo)
        → AreAccepted w r infos → HaveOneSource w → AreForward w r
        → let rows = canvas w r infos in let groups = sections w r infos in
        CanBeRead rows groups (λ placing. has_whole_blocks groups placing) }
{}

/// No stroke without a cause: in the rows below a line each cell of a place is blank, or shows a
/// vertical, a corner, a horizontal or an underline that a label has there.
pub fn no_stroke_is_without_a_cause<S, Id>()
    ensures { (w : World S Id) (r : ReportFields S) (infos : List LabelInfo)
        → AreAccepted w r infos → HaveOneSource w → AreForward w r
        → let rows = canvas w r infos in let groups = sections w r infos in
        CanBeRead rows groups (λ placing. has_no_other_strokes rows groups placing) }
{}

/// No stroke without a cause in the gutter. Each cell of a gutter column is blank, or shows a head, a
/// corner, a tee or a bar of the column's own label. Or it shows an arrow head, or a horizontal of a
/// label that owns a column in front of it.
pub fn no_gutter_stroke_is_without_a_cause<S, Id>()
    ensures { (w : World S Id) (r : ReportFields S) (infos : List LabelInfo)
        → AreAccepted w r infos → HaveOneSource w → AreForward w r
        → let rows = canvas w r infos in let groups = sections w r infos in
        CanBeRead rows groups (λ placing. has_no_other_gutter_strokes rows groups placing) }
{}

/// Colours lead too: the strokes in a label's own rows, its bars, and its verticals where no other is
/// seen, have its colour.
pub fn strokes_have_the_colors_of_their_labels<S, Id>()
    ensures { (w : World S Id) (r : ReportFields S) (infos : List LabelInfo)
        → AreAccepted w r infos → HaveOneSource w → AreForward w r
        → let rows = canvas w r infos in let groups = sections w r infos in
        CanBeRead rows groups (λ placing.
        has_label_colors rows groups placing (label_color r)) }
{}

/// Where lines whose labels have no message are to be underlined, each has one row below it. This
/// marks every place that a label within the line holds, in the colour of the one that is preferred
/// there, and no other place.
pub fn lone_lines_are_underlined<S, Id>()
    ensures { (w : World S Id) (r : ReportFields S) (infos : List LabelInfo)
        → AreAccepted w r infos → HaveOneSource w → AreForward w r
        → let rows = canvas w r infos in let groups = sections w r infos in
        CanBeRead rows groups (λ placing.
        has_lone_underlines rows groups placing (label_color r)) }
{}

/// Every picture can be read, under one choice of row numbers for all of this. Its rows belong
/// together. Each accepted message has a row of its own, and strokes lead from it to its label, in
/// the columns where the source row shows them and in the label's colour. No stroke stands elsewhere.
/// Where that is asked for, lines whose labels have no message are underlined. Characters and
/// underlines have the colours of their labels too. The rows that no line has show what is theirs.
/// The premises hold of the labels that are drawn, wherever sources are looked up by their ids, and
/// each label's start is at most its end.
pub fn every_picture_can_be_read<S, Id>()
    ensures { (w : World S Id) (r : ReportFields S) (infos : List LabelInfo)
        → AreAccepted w r infos → HaveOneSource w → AreForward w r
        → IsTraced (canvas w r infos) (sections w r infos) (texts_of r) (color_of (palette_of r)) }
{}

/// The source row of each line is found in one way: row numbers under which the rows of a picture
/// belong together have the same row for it.
pub fn lines_are_found_in_one_way<S, Id>()
    ensures { (w : World S Id) (r : ReportFields S) (infos : List LabelInfo)
        → AreAccepted w r infos → AreForward w r
        → let rows = canvas w r infos in let groups = sections w r infos in
        (p q : Placing) → is_placing rows groups p ≡ true → is_placing rows groups q ≡ true
        → AgreeOnLines groups p q }
{}

/// Labels over several lines are read in one way: row numbers that a picture is read by agree on the
/// head and the message of each such label that has one.
pub fn gutter_labels_are_read_in_one_way<S, Id>()
    ensures heads { (w : World S Id) (r : ReportFields S) (infos : List LabelInfo)
        → AreAccepted w r infos → AreForward w r
        → let rows = canvas w r infos in let groups = sections w r infos in
        let message_of = message_at (texts_of r) in
        (p q : Placing) → IsReadBy rows groups message_of p → IsReadBy rows groups message_of q
        → AgreeOnHeads groups p q }
    ensures ends { (w : World S Id) (r : ReportFields S) (infos : List LabelInfo)
        → AreAccepted w r infos → AreForward w r
        → let rows = canvas w r infos in let groups = sections w r infos in
        let message_of = message_at (texts_of r) in
        (p q : Placing) → IsReadBy rows groups message_of p → IsReadBy rows groups message_of q
        → AgreeOnEnds groups p q }
{}

/// Pictures are read in one way: row numbers that a picture is read by agree on source rows, on
/// heads and on messages, but that those of twins may change places. Twins are two labels within one
/// line, with one message, attached at one column.
pub fn pictures_are_read_in_one_way<S, Id>()
    ensures { (w : World S Id) (r : ReportFields S) (infos : List LabelInfo)
        → AreAccepted w r infos → HaveOneSource w → AreForward w r
        → AreReadInOneWay (canvas w r infos) (sections w r infos) (message_at (texts_of r)) }
{}

/// Where a line is cut, what strokes lead to is seen: the place of each of its labels that has a
/// message, and of its margin label.
pub fn strokes_lead_to_what_is_seen()
    ensures { (s : Sheet) (l k : ℕ) (x : LineLabel)
        → slice_get (option_to_list (margin_label s.labels l) ++ line_labels s.labels l) k ≡ Some x
        → x.info.has_message ≡ true → sight_of (layout_of s l) x.place ≡ Seen }
{}

/// Letters are seen whole: a place that goes on with a letter, as an accent does, is seen where that
/// letter is, and nowhere else. So no mark takes the accent of a letter that is cut.
pub fn letters_are_seen_whole()
    ensures { (s : Sheet) (l k : ℕ) → let y = layout_of s l in
        goes_on s.switches.tab_width (shown y) (k + 1) ≡ true
        → (sight_of y k ≡ Seen) ↔ (sight_of y (k + 1) ≡ Seen) }
{}

/// A line that is cut takes no more columns than are asked for, or it shows the letters that strokes
/// lead to and no others.
pub fn cut_lines_fit()
    ensures { (switches : Switches) (offset : ℕ) (labels : List LineLabel) (text : List ℕ)
        → let parts = parts_of switches offset labels text in
        (cut_columns switches text parts ≤ switches.width)
        ⊎ (parts ≡ widened switches.tab_width text 0
        (or_begin (map place_part (needed_labels labels)))) }
{}

/// The text of a source row stands behind the columns of its margin and its gutter, and takes those of
/// the places of its line.
pub fn texts_stand_behind_margin_and_gutter()
    ensures { (t : Texts) (digits l : ℕ) (s : Section) → let y = layout_of s.sheet l in
        t.switches ≡ s.sheet.switches → total (λ p. p.columns) (row_pieces t digits s (source l))
        ≡ columns_before_text digits s.sheet + column_of s.sheet.switches y (length (shown y)) }
{}

/// Where a width is asked for, a source row takes no more columns than that and those in front of its
/// text, or of its line the letters are shown that strokes lead to and no others.
pub fn source_rows_fit()
    ensures { (t : Texts) (digits l : ℕ) (s : Section) → let switches = s.sheet.switches in
        t.switches ≡ switches → 0 < switches.width → let y = layout_of s.sheet l in
        let labels = option_to_list y.margin ++ y.labels in
        (total (λ p. p.columns) (row_pieces t digits s (source l))
        ≤ columns_before_text digits s.sheet + switches.width)
        ⊎ (parts_of switches y.offset labels (shown y) ≡ widened switches.tab_width (shown y) 0
        (or_begin (map place_part (needed_labels labels)))) }
{}

/// How many columns stand in front of the source texts of a picture doesn't depend on the width that
/// lines are cut to. So a program may ask for that first, and for the width that is left then.
pub fn margins_have_no_width<S, Id>()
    ensures { (w : World S Id) (r : ReportFields S) (infos : List LabelInfo) (n : ℕ) →
        margin_columns w (record r { config = record r.config { width = n } }) infos
        ≡ margin_columns w r infos }
{}

/// Where no width is asked for, lines are shown whole.
pub fn lines_are_whole_without_a_width()
    ensures { (s : Sheet) (l k : ℕ) → s.switches.width ≡ 0 → sight_of (layout_of s l) k ≡ Seen }
{}

/// Pictures can be read back: from the rows, the sources of the groups and the switches alone, without
/// any label, each message is found with the line and the column, or the two ends, that its strokes
/// lead to. That is what the labels are, in another order. The numbers of lines have to be below
/// 2 ^ 64, as those of a `Source` are, so that no two are printed alike. No line of a group may be
/// cut: the cells of a cut one don't tell how many stand before its text.
pub fn pictures_can_be_read_back<S, Id>()
    ensures { (w : World S Id) (r : ReportFields S) (infos : List LabelInfo)
        → AreAccepted w r infos → HaveOneSource w → AreForward w r → HaveShortNumbers w
        → HaveWholeLines w r infos → IsReadBack w r infos }
{}

/// Also where lines are cut, pictures can be read back by one who knows besides how many gutter
/// columns each group has. The columns are then those of the text as it is shown.
pub fn cut_pictures_can_be_read_back<S, Id>()
    ensures { (w : World S Id) (r : ReportFields S) (infos : List LabelInfo)
        → AreAccepted w r infos → HaveOneSource w → AreForward w r → HaveShortNumbers w
        → IsReadBackByGutters w r infos }
{}

/// Each cell of a picture takes the columns of the characters of its text. So alignment is a fact of
/// the texts that are sent.
pub fn cells_take_the_columns_of_their_texts<S, Id>()
    ensures { (w : World S Id) (r : ReportFields S) (infos : List LabelInfo)
        → HaveColumnsOfTexts (canvas w r infos) }
{}

/// The rows of a picture are the lines that are sent, and behind the last line feed stands nothing.
/// For that no text that was handed in may have the byte that begins an escape sequence, and none
/// that a row shows whole may have a line feed.
pub fn rows_are_lines<S, Id>()
    ensures { (w : World S Id) (r : ReportFields S) (infos : List LabelInfo)
        → HaveNoEscapes w r → HaveNoLineFeeds w r → RowsAreLines (canvas w r infos) }
{}

/// Colours move nothing: without them the picture is that of the report without colours, and where
/// no text holds the byte that begins an escape sequence the same is true of its bytes.
pub fn colors_move_nothing<S, Id>()
    ensures { (w : World S Id) (r : ReportFields S) (infos : List LabelInfo)
        → ColorsMoveNothing w r infos }
{}

/// Where no text that was handed in has the byte that begins an escape sequence, no cell has it.
pub fn cells_hold_no_escapes<S, Id>()
    ensures { (w : World S Id) (r : ReportFields S) (infos : List LabelInfo) → HaveNoEscapes w r
        → AllByRecursion (AllByRecursion (λ (cell : Cell). HasNoEscape cell.text))
        (canvas w r infos) }
{}

/// Bytes draw as characters: the report with the same offsets in characters accepts each label as
/// it is, and has the same picture where its own start is a boundary.
pub fn bytes_draw_as_characters<S, Id>()
    ensures { (w : World S Id) (r : ReportFields S) (infos : List LabelInfo)
        → AreAccepted w r infos → HaveOneSource w → BytesDrawAsCharacters w r infos }
{}
