//! What is seen of a line that takes more columns than are asked for.
//!
//! ```text
//!  1 | ... = sum_of(fi...", fourth_argument)?;      a part, a mark, a part
//!    |       ^^^|^^         ^^^^^^^|^^^^^^^
//! ```

ghost use Rattle.std.specs.Prelude.{◌≡◌, ◌≤◌, ◌<◌, ◌+◌, ◌-◌, ◌++◌, ◌&&◌, ◌||◌, ◌^◌, ℕ, List, [], ◌∷◌, OnOk, IfOk};
ghost use Rattle.std.specs.Prelude.{IfSome, None, Some, length, min, nat_le, nat_lt, option_to_list, true};
ghost use Rattle.std.specs.List.{All};
ghost use Rattle.std.specs.Str.{drop_trailing_whitespace};
ghost use Rattle.std.specs.List.Sorted.{IsNonDecreasingBy, IsPermutation};
ghost use Rattle.ariadne_picture.specs.Columns.{context, cut_columns, fits_with, goes_on};
ghost use Rattle.ariadne_picture.specs.Columns.{letter_end, letter_start, needed_parts, or_begin, shown};
ghost use Rattle.ariadne_picture.specs.Columns.{sights_of, whole_column, whole_width, widened, widened_part};
ghost use Rattle.ariadne_layout.specs.Cuts.{AreApart, AreSeenAlike, BeginBy, HasPlace, label_part, mark_before};
ghost use Rattle.ariadne_layout.specs.Cuts.{mark_behind, needed, parts_of_labels, sights_in};
ghost use Rattle.ariadne_layout.specs.Tables.{AreWholeColumns};

use crate::columns::{WholeColumns, mark_columns};
use crate::layout::LineLayout;
use crate::line_text::LineText;
use ariadne_picture::label_info::LineLabel;
use ariadne_picture::sight::Part;
use ariadne_picture::switches::{CharSet, Switches};
use std::alloc::{AllocError, Global};

/// What is seen of the line that is drawn. It is filled anew for each line.
#[derive(Drop)]
pub struct Cuts {
    /// The parts of it that are shown, in their order, or none where it is shown whole.
    parts: Vec<Part>,
    /// The column that each place begins at where the line is shown whole.
    columns: WholeColumns,
    /// The parts that have to be shown, in the order that they begin in.
    needed: Vec<Part>,
}

impl Cuts {
    /// Nothing is found yet.
    pub fn new(alloc: Global) -> Cuts {
        Cuts {
            parts: Vec::new(alloc),
            columns: WholeColumns::new(alloc),
            needed: Vec::new(alloc),
        }
    }

    /// The parts of a line that are shown, or none where it is shown whole: no width is asked for,
    /// or it takes no more columns. `offset` counts the characters of the source before the line.
    ///
    /// On `Err` there was no memory for them, or none holds as many columns as the line would take
    /// if it were shown whole.
    pub fn parts_of(
        &mut self,
        switches: &Switches,
        margin: Option<LineLabel>,
        labels: &[LineLabel],
        offset: usize,
        text: &LineText<'_>,
    ) -> Result<&[Part], AllocError>
        requires tabs { 1 ≤ switches.now.tab_width }
        ensures apart { IfOk result (λ parts. AreApart parts.now) }
        ensures sights { let shown = drop_trailing_whitespace text.now in
            IfOk result (λ parts. sights_in parts.now (length shown)
            ≡ sights_of switches.now offset (option_to_list margin ++ labels.now) shown) }
    {
        if switches.width == 0 {
            return Ok(&[]);
        }
        self.cut_parts(switches, margin, labels, offset, text)
    }

    /// The parts of a line that are shown, as `parts_of` gives them, where a width is asked for.
    #[cold]
    #[inline(never)]
    fn cut_parts(
        &mut self,
        switches: &Switches,
        margin: Option<LineLabel>,
        labels: &[LineLabel],
        offset: usize,
        text: &LineText<'_>,
    ) -> Result<&[Part], AllocError>
        requires asked { 0 < switches.now.width }
        requires tabs { 1 ≤ switches.now.tab_width }
        ensures apart { IfOk result (λ parts. AreApart parts.now) }
        ensures sights { let shown = drop_trailing_whitespace text.now in
            IfOk result (λ parts. sights_in parts.now (length shown)
            ≡ sights_of switches.now offset (option_to_list margin ++ labels.now) shown) }
    {
        let whole = LineLayout::new(margin, labels, offset, text, &[]);
        self.find(switches, &whole)?;
        Ok(&self.parts)
    }

    /// Finds the parts of a line that are shown.
    fn find(&mut self, switches: &Switches, layout: &LineLayout<'_>) -> Result<(), AllocError>
        requires asked { 0 < switches.now.width }
        requires tabs { 1 ≤ switches.now.tab_width }
        ensures apart { OnOk result (AreApart self.new.parts.items) }
        ensures sights { let y = layout.now in
            OnOk result (sights_in self.new.parts.items (length (shown y))
            ≡ sights_of switches.now y.offset (option_to_list y.margin ++ y.labels) (shown y)) }
    {
        self.parts.clear();
        let len = layout.shown_len();
        self.columns.fill(switches, layout)?;
        if self.columns.column(len) <= switches.width {
            return Ok(());
        }
        self.find_needed(switches, layout, len)?;
        let context = self.context(switches, len)?;
        widen(&mut self.parts, &self.columns, len, &self.needed, context)
    }

    /// Finds the parts that have to be shown: what the labels span, if that fits, or else the places
    /// that their strokes lead to.
    #[cold]
    #[inline(never)]
    fn find_needed(
        &mut self,
        switches: &Switches,
        layout: &LineLayout<'_>,
        len: usize,
    ) -> Result<(), AllocError>
        requires counted { AreWholeColumns switches.now.tab_width (shown layout.now) self.old.columns }
        requires len { length (shown layout.now) ≡ len }
        ensures needed { let y = layout.now in OnOk result (IsPermutation
            (needed_parts switches.now y.offset (option_to_list y.margin ++ y.labels) (shown y))
            self.new.needed.items) }
        ensures order { OnOk result (IsNonDecreasingBy (λ p. p.from) self.new.needed.items) }
        ensures places { OnOk result (All HasPlace self.new.needed.items) }
        ensures columns { self.new.columns ≡ self.old.columns }
    {
        push_needed(&mut self.needed, layout, true)?;
        let fits = self.fits_with(switches, len, 0)?;
        if fits {
            return Ok(());
        }
        push_needed(&mut self.needed, layout, false)
    }

    /// How many places are shown on either side of the parts: the most with which, and with each
    /// lesser number, the line fits; none if it doesn't fit at all.
    #[cold]
    #[inline(never)]
    fn context(&mut self, switches: &Switches, len: usize) -> Result<usize, AllocError>
        requires order { IsNonDecreasingBy (λ p. p.from) self.old.needed.items }
        requires places { All HasPlace self.old.needed.items }
        ensures context { (text : List ℕ)
            → AreWholeColumns switches.now.tab_width text self.old.columns → length text ≡ len →
            IfOk result (λ n. n ≡ context switches.now text self.old.needed.items) }
        ensures others { record self.new { parts = self.old.parts } ≡ self.old }
    {
        let mut count = 0;
        while count < len {
            let fits = self.fits_with(switches, len, count)?;
            if !fits {
                return Ok(count.saturating_sub(1));
            }
            count += 1;
        }
        Ok(count.saturating_sub(1))
    }

    /// Whether the line fits with so many places more on either side of its parts.
    fn fits_with(
        &mut self,
        switches: &Switches,
        len: usize,
        count: usize,
    ) -> Result<bool, AllocError>
        requires order { IsNonDecreasingBy (λ p. p.from) self.old.needed.items }
        requires places { All HasPlace self.old.needed.items }
        ensures fits { (text : List ℕ)
            → AreWholeColumns switches.now.tab_width text self.old.columns → length text ≡ len →
            IfOk result (λ fits. fits ≡ fits_with switches.now text self.old.needed.items count) }
        ensures others { record self.new { parts = self.old.parts } ≡ self.old }
    {
        widen(&mut self.parts, &self.columns, len, &self.needed, count)?;
        Ok(fits(switches, &self.columns, len, &self.parts))
    }
}

// ---- the parts

/// Lists the parts of the labels that a line is cut round, in the order that they begin in: what
/// they span, or the places that their strokes lead to. They are those with a message, or all if none
/// has one. Where a line has no labels, it is its first place.
fn push_needed(list: &mut Vec<Part>, layout: &LineLayout<'_>, spans: bool) -> Result<(), AllocError>
    ensures needed { let y = layout.now in OnOk result (IsPermutation
        (needed spans y.offset (option_to_list y.margin ++ y.labels)) list.new.items) }
    ensures order { OnOk result (IsNonDecreasingBy (λ p. p.from) list.new.items) }
    ensures places { OnOk result (All HasPlace list.new.items) }
{
    list_needed(list, layout, spans)?;
    list.sort_by_key(|part| part.from)
}

/// Lists the parts of the labels that a line is cut round, as `push_needed` does, in the order of the
/// labels.
fn list_needed(list: &mut Vec<Part>, layout: &LineLayout<'_>, spans: bool) -> Result<(), AllocError>
    ensures { let y = layout.now in OnOk result
        (list.new.items ≡ needed spans y.offset (option_to_list y.margin ++ y.labels)) }
{
    list.clear();
    let all = !layout.has_told();
    push_margin(list, layout, spans, all)?;
    push_parts(list, layout.labels(), layout.offset(), spans, all)?;
    push_begin(list)
}

/// Appends the part of the margin label of a line, if it has one that the line is cut round.
fn push_margin(
    list: &mut Vec<Part>,
    layout: &LineLayout<'_>,
    spans: bool,
    all: bool,
) -> Result<(), AllocError>
    ensures { let y = layout.now in OnOk result (list.new.items
        ≡ list.old.items ++ parts_of_labels spans all y.offset (option_to_list y.margin)) }
{
    match layout.margin() {
        Some(margin) => push_part(list, &margin, layout.offset(), spans, all),
        None => Ok(()),
    }
}

/// Appends the first place of a line where no parts are listed.
#[tactic(auto, unfolding(ariadne_picture::specs::Columns::or_begin))]
fn push_begin(list: &mut Vec<Part>) -> Result<(), AllocError>
    ensures { OnOk result (list.new.items ≡ or_begin list.old.items) }
{
    if !list.is_empty() {
        return Ok(());
    }
    list.push(Part { from: 0, to: 1 })?;
    Ok(())
}

/// Appends the parts of the labels that their line is cut round: all of them, or those with a
/// message.
fn push_parts(
    list: &mut Vec<Part>,
    labels: &[LineLabel],
    offset: usize,
    spans: bool,
    all: bool,
) -> Result<(), AllocError>
    ensures { OnOk result (list.new.items
        ≡ list.old.items ++ parts_of_labels spans all offset labels.now) }
{
    for label in labels {
        push_part(list, label, offset, spans, all)?;
    }
    Ok(())
}

/// Appends the part of a label, if it is one that its line is cut round.
fn push_part(
    list: &mut Vec<Part>,
    label: &LineLabel,
    offset: usize,
    spans: bool,
    all: bool,
) -> Result<(), AllocError>
    ensures { OnOk result (list.new.items
        ≡ list.old.items ++ parts_of_labels spans all offset (label.now ∷ [])) }
{
    if !is_asked(label, all) {
        return Ok(());
    }
    let part = label_part(label, offset, spans)?;
    list.push(part)?;
    Ok(())
}

/// Whether a label is one that its line is cut round: all are, or it has a message.
fn is_asked(label: &LineLabel, all: bool) -> bool
    ensures { result ≡ all || label.now.info.has_message }
{
    all || label.info.has_message
}

/// The place that a label's strokes lead to, with all that it spans if that is asked for and it lies
/// within its line. On `Err` no line has so many places.
#[tactic(auto, unfolding(crate::specs::Cuts::label_part, ariadne_picture::specs::Columns::span_part, ariadne_picture::specs::Columns::place_part))]
fn label_part(label: &LineLabel, offset: usize, spans: bool) -> Result<Part, AllocError>
    ensures { IfOk result (λ part. part ≡ label_part spans offset label.now) }
{
    let behind = label.place.checked_add(1).ok_or(AllocError)?;
    if spans && label.side.is_inline() {
        let start = label.info.start.saturating_sub(offset);
        let end = label.info.end.saturating_sub(offset);
        return Ok(Part {
            from: start.min(label.place),
            to: end.max(behind),
        });
    }
    Ok(Part {
        from: label.place,
        to: behind,
    })
}

/// Lists parts with `count` more places on either side, those that meet as one.
#[cold]
#[inline(never)]
fn widen(
    list: &mut Vec<Part>,
    columns: &WholeColumns,
    len: usize,
    needed: &[Part],
    count: usize,
) -> Result<(), AllocError>
    requires order { IsNonDecreasingBy (λ p. p.from) needed.now }
    requires places { All HasPlace needed.now }
    ensures apart { (t : ℕ) (text : List ℕ) → AreWholeColumns t text columns.now → length text ≡ len →
        OnOk result (AreApart list.new.items) }
    ensures alike { (t : ℕ) (text : List ℕ) → AreWholeColumns t text columns.now → length text ≡ len →
        OnOk result (AreSeenAlike list.new.items (widened t text count needed.now)) }
    ensures some { 0 < length needed.now → OnOk result (0 < length list.new.items) }
{
    list.clear();
    for part in needed {
        let wide = widened_part(columns, len, part, count)?;
        push_joined(list, wide)?;
    }
    Ok(())
}

/// Appends a part that begins no earlier than the last, or joins it to the last if no place stands
/// between them.
fn push_joined(list: &mut Vec<Part>, part: Part) -> Result<(), AllocError>
    ensures apart { AreApart list.old.items → BeginBy list.old.items part.from → HasPlace part →
        OnOk result (AreApart list.new.items) }
    ensures alike { BeginBy list.old.items part.from →
        OnOk result (AreSeenAlike list.new.items (list.old.items ++ part ∷ [])) }
    ensures order { BeginBy list.old.items part.from →
        OnOk result (BeginBy list.new.items part.from) }
    ensures some { OnOk result (0 < length list.new.items) }
{
    if let Some(last) = list.last_mut() {
        if part.from <= last.to {
            last.to = last.to.max(part.to);
            return Ok(());
        }
    }
    list.push(part)?;
    Ok(())
}

/// A part with `count` more places on either side, and with all of the letters at its ends. On `Err`
/// no line has so many places.
fn widened_part(
    columns: &WholeColumns,
    len: usize,
    part: &Part,
    count: usize,
) -> Result<Part, AllocError>
    ensures { (t : ℕ) (text : List ℕ) → AreWholeColumns t text columns.now → length text ≡ len →
        IfOk result (λ wide. wide ≡ widened_part t text count part.now) }
{
    let to = part.to.checked_add(count).ok_or(AllocError)?;
    Ok(Part {
        from: letter_start(columns, len, part.from.saturating_sub(count)),
        to: letter_end(columns, len, to),
    })
}

// ---- letters

/// Whether a place goes on with the letter before it: it takes no columns.
fn goes_on(columns: &WholeColumns, len: usize, place: usize) -> bool
    ensures within { result ≡ true → place < len }
    ensures goes_on { (t : ℕ) (text : List ℕ) → AreWholeColumns t text columns.now → length text ≡ len →
        result ≡ goes_on t text place }
{
    place < len && place_width(columns, place) == 0
}

/// How many columns a place has where its line is shown whole.
fn place_width(columns: &WholeColumns, place: usize) -> usize
    requires { place + 1 < 2 ^ 64 }
    ensures { (t : ℕ) (text : List ℕ) → AreWholeColumns t text columns.now → place < length text →
        result ≡ whole_width t text place }
{
    columns.width(place, place + 1)
}

/// Where the letter begins that a place is of. The places of a letter end at one column.
fn letter_start(columns: &WholeColumns, len: usize, place: usize) -> usize
    ensures { (t : ℕ) (text : List ℕ) → AreWholeColumns t text columns.now → length text ≡ len →
        result ≡ letter_start t text place }
{
    if !goes_on(columns, len, place) {
        return place;
    }
    match columns.column(place).checked_sub(1) {
        Some(before) => first_behind(columns, 0, place, before),
        None => 0,
    }
}

/// The first place from `place` on that goes on with no letter.
fn letter_end(columns: &WholeColumns, len: usize, place: usize) -> usize
    ensures { (t : ℕ) (text : List ℕ) → AreWholeColumns t text columns.now → length text ≡ len →
        result ≡ letter_end t text place }
{
    if !goes_on(columns, len, place) {
        return place;
    }
    first_behind(columns, place, len, columns.column(place))
}

/// The first place from `from` on and before `to` that ends behind a column, or `to` if none does.
fn first_behind(columns: &WholeColumns, from: usize, to: usize, column: usize) -> usize
    requires order { from ≤ to }
    ensures from { from ≤ result }
    ensures to { result ≤ to }
    ensures before { (t : ℕ) (text : List ℕ) → AreWholeColumns t text columns.now → to ≤ length text →
        (k : ℕ) → from ≤ k → k < result → whole_column t text (k + 1) ≤ column }
    ensures there { (t : ℕ) (text : List ℕ) → AreWholeColumns t text columns.now → to ≤ length text →
        result < to → column < whole_column t text (result + 1) }
{
    let mut first = from;
    let mut behind = to;
    while first < behind {
        let middle = first + (behind - first) / 2;
        if columns.column(middle + 1) > column {
            behind = middle;
        } else {
            first = middle + 1;
        }
    }
    first
}

// ---- how many columns they take

/// Whether a line of which these parts are shown takes no more columns than are asked for.
fn fits(switches: &Switches, columns: &WholeColumns, len: usize, parts: &[Part]) -> bool
    ensures { (text : List ℕ) → AreWholeColumns switches.now.tab_width text columns.now →
        length text ≡ len → AreApart parts.now → result ≡ nat_le (cut_columns switches.now text parts.now) switches.now.width }
{
    columns_within(switches, columns, len, parts).is_some()
}

/// How many columns a line takes of which these parts are shown, if they are no more than are asked
/// for.
fn columns_within(
    switches: &Switches,
    columns: &WholeColumns,
    len: usize,
    parts: &[Part],
) -> Option<usize>
    ensures some { (text : List ℕ) → AreWholeColumns switches.now.tab_width text columns.now →
        length text ≡ len → AreApart parts.now →
        IfSome result (λ _. cut_columns switches.now text parts.now ≤ switches.now.width) }
    ensures none { (text : List ℕ) → AreWholeColumns switches.now.tab_width text columns.now →
        length text ≡ len → AreApart parts.now → result ≡ None → switches.now.width < cut_columns switches.now text parts.now }
{
    let mut total = 0usize;
    for part in parts {
        total = sum_within(
            total,
            mark_before(switches.char_set, part, len),
            switches.width,
        )?;
        let width = columns.width(part.from.min(len), part.to.min(len));
        total = sum_within(total, width, switches.width)?;
    }
    sum_within(
        total,
        mark_behind(switches.char_set, parts, len),
        switches.width,
    )
}

/// How many columns the mark before a part has, if it stands before place `end`.
#[tactic(auto, unfolding(crate::specs::Cuts::mark_before))]
fn mark_before(set: CharSet, part: &Part, end: usize) -> usize
    ensures { result ≡ mark_before set part.now end }
{
    if is_marked_before(part, end) {
        mark_columns(set)
    } else {
        0
    }
}

/// Whether a mark stands before a part, and before place `end`.
pub fn is_marked_before(part: &Part, end: usize) -> bool
    ensures { result ≡ nat_lt 0 part.now.from && nat_le part.now.from end }
{
    part.from > 0 && part.from <= end
}

/// How many columns the mark behind some parts has, if it stands before place `end`.
fn mark_behind(set: CharSet, parts: &[Part], end: usize) -> usize
    ensures { result ≡ mark_behind set parts.now end }
{
    match parts.last() {
        Some(part) if part.to < end => mark_columns(set),
        _ => 0,
    }
}

/// A sum, if it is no more than `most`.
fn sum_within(total: usize, width: usize, most: usize) -> Option<usize>
    ensures some { IfSome result (λ sum. (sum ≡ total + width) × (sum ≤ most)) }
    ensures none { result ≡ None → most < total + width }
{
    match total.checked_add(width) {
        Some(sum) if sum <= most => Some(sum),
        _ => None,
    }
}
