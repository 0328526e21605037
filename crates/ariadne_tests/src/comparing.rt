//! How values and texts are compared, with a line that shows both where they differ.

use std::alloc::AllocError;
use std::fmt::Debug;
use std::process::Abort;

/// Asserts that what was found is what is wanted.
pub(crate) fn assert_same<T: Debug + PartialEq>(rt: &impl Abort, found: &T, wanted: &T) {
    assert_eq!(rt; *found, *wanted)
}

/// The same of values that are given away, as numbers are.
pub(crate) fn assert_is<T: Debug + PartialEq + Drop>(rt: &impl Abort, found: T, wanted: T) {
    assert_same(rt, &found, &wanted)
}

/// Asserts that what was found of something of a name is what is wanted.
pub(crate) fn assert_same_of<T: Debug + PartialEq>(
    rt: &impl Abort,
    name: &str,
    found: &T,
    wanted: &T,
) {
    assert_eq!(rt; *found, *wanted, "of {name:?}")
}

/// The same of values that are given away.
pub(crate) fn assert_is_of<T: Debug + PartialEq + Drop>(
    rt: &impl Abort,
    name: &str,
    found: T,
    wanted: T,
) {
    assert_same_of(rt, name, &found, &wanted)
}

/// Asserts that the text of something of a name was made, and is this.
pub(crate) fn assert_text_of(
    rt: &impl Abort,
    name: &str,
    text: Result<String, AllocError>,
    wanted: &str,
) {
    assert_is_of(rt, name, text.expect(rt, "memory").as_str(), wanted)
}

/// Asserts that a text was made, and is this.
pub(crate) fn assert_text(rt: &impl Abort, text: Result<String, AllocError>, wanted: &str) {
    assert_is(rt, text.expect(rt, "memory").as_str(), wanted)
}
