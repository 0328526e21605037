//! The example of README.md draws the picture of README.md. `tools/check-gallery` compares the page
//! with this file.

use crate::asserts::assert_trimmed;
use crate::readme::write_type_error;
use ariadne::WriteError;
use std::alloc::Global;

/// The picture of README.md.
const README: [&str; 14] = [
    "Error: Incompatible types",
    "   ,-[ <unknown>:2:8 ]",
    "   |",
    " 1 | ,-> def five = match () in {",
    " 2 | |       () => 5,",
    "   | |             |",
    "   | |             `-- This is of type Nat",
    " 3 | |       () => \"5\",",
    "   | |             ^|^",
    "   | |              `--- This is of type Str",
    " 4 | |-> }",
    "   | |",
    "   | `------- The values are outputs of this match expression",
    "---'",
];

/// What the example draws over its text.
fn picture(alloc: Global) -> Result<Vec<u8>, WriteError> {
    let text =
        "def five = match () in {\n\t() => 5,\n\t() => \"5\",\n}\n\ndef six =\n    five\n    + 1\n";
    let mut out = Vec::new(alloc);
    write_type_error(alloc, text, &mut out)?;
    Ok(out)
}

#[test]
fn the_example_of_the_readme(rt: HostRuntime) {
    let picture = picture(rt.alloc()).expect(&rt, "a picture");
    let picture = String::from_utf8(picture).expect(&rt, "text");
    assert_trimmed(&rt, picture.as_str(), &README).expect(&rt, "the picture")
}
