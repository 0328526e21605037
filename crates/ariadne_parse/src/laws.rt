//! A law of columns. It is the contract of a function that does nothing.

ghost use Rattle.std.specs.Prelude.{◌≡◌, ℕ, ◌<◌, ◌==◌, List, length, not, true, slice_index, take};
ghost use Rattle.std.specs.List.{list_all};
ghost use Rattle.ariadne_parse.specs.Columns.{columns_before, columns_of, passed};
ghost use Rattle.ariadne_parse.specs.declared.unit.Unit.{Unit};

/// The column of a character leads back to it, in each unit, if the character has a width there.
pub fn columns_lead_back()
    ensures { (unit : Unit) (line : List ℕ) (k : ℕ) → k < length line
        → list_all (λ c. not (c == 10)) (take k line) ≡ true
        → 0 < columns_of unit (columns_before unit 0 k line) (slice_index line k)
        → passed unit (columns_before unit 0 k line) 0 line ≡ k }
{}
