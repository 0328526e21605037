//! Labels are equal by all that they hold, and equal ones have one hash.

ghost use Rattle.std.specs.Prelude.{◌≤◌};

use crate::comparing::{assert_is, assert_same};
use ariadne::{Color, Label, Span};
use std::alloc::{AllocError, Global};
use std::hash::{DefaultHasher, Hash, Hasher};
use std::process::Abort;

/// A label with all that a label may have.
fn full(alloc: Global) -> Result<Label, AllocError> {
    let label = Label::new(1..3).with_message(alloc, "m")?;
    let label = label.with_color(Color::Rgb(1, 2, 3));
    Ok(label.with_order(-4).with_priority(5))
}

/// The hash of a label.
fn hash_of(label: &Label) -> u64 {
    let mut state = DefaultHasher::new();
    label.hash(&mut state);
    state.finish()
}

/// Asserts that a copy of a label equals it, and has its hash.
fn assert_copied(rt: &(impl Abort + AllocGlobal), label: &Label) {
    let copy = label.clone().expect(rt, "memory");
    assert_same(rt, &copy, label);
    assert_is(rt, hash_of(&copy), hash_of(label))
}

#[test]
fn a_copy_equals_its_label(rt: HostRuntime) {
    assert_copied(&rt, &full(rt.alloc()).expect(&rt, "memory"));
    assert_copied(&rt, &Label::new(0..0))
}

/// A label without the other fields, or the full one with another field: its span, its message, its
/// colour, its order or its priority.
fn other(alloc: Global, field: u8) -> Result<Label, AllocError> {
    match field {
        0 => Ok(Label::new(1..3)),
        1 => Label::new(1..4).with_message(alloc, "m"),
        2 => full(alloc)?.with_message(alloc, ""),
        _ => Ok(changed(full(alloc)?, field)),
    }
}

/// A label with another colour, order or priority.
fn changed(label: Label, field: u8) -> Label {
    match field {
        3 => label.with_color(Color::Rgb(1, 2, 4)),
        4 => label.with_order(-3),
        _ => label.with_priority(4),
    }
}

/// Whether the full label equals another one.
fn is_full(rt: &(impl Abort + AllocGlobal), label: Result<Label, AllocError>) -> bool {
    full(rt.alloc()).expect(rt, "memory") == label.expect(rt, "memory")
}

#[test]
fn each_field_makes_a_label_another(rt: HostRuntime) {
    assert_is(&rt, is_full(&rt, full(rt.alloc())), true);
    for field in 0..6u8 {
        let is_full = is_full(&rt, other(rt.alloc(), field));
        assert_is(&rt, (field, is_full), (field, false))
    }
}

/// Whether the labels of two spans are equal.
fn are_same<S: Span + Eq + Drop>(first: S, second: S) -> bool
    requires first_rises { S.start_of first ≤ S.end_of first }
    requires second_rises { S.start_of second ≤ S.end_of second }
{
    Label::new(first) == Label::new(second)
}

#[test]
fn labels_are_compared_by_their_spans_too(rt: HostRuntime) {
    let are_same = (
        are_same((7u8, 0..1), (7u8, 0..1)),
        are_same((7u8, 0..1), (8u8, 0..1)),
        are_same(0..=1, 0..=2),
    );
    assert_is(&rt, are_same, (true, false, false))
}
