//! How what was found of something is compared, with a line that shows both where they differ.

use std::alloc::AllocError;
use std::fmt::Debug;
use std::process::Abort;

/// Asserts that what was found of something of a name is what is wanted.
pub fn assert_same_of<T: Debug + PartialEq>(rt: &impl Abort, name: &str, found: &T, wanted: &T) {
    assert_eq!(rt; *found, *wanted, "of {name:?}")
}

/// Asserts that the text of a line was made, and is this.
pub fn assert_text_of(rt: &impl Abort, line: &str, text: Result<String, AllocError>, wanted: &str) {
    assert_same_of(rt, line, &text.expect(rt, "memory").as_str(), &wanted)
}
