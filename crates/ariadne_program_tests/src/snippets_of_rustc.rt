//! Lines of snippets as rustc writes them, and beside each what is to be learned of it.

use crate::learned::{Rows, assert_each_learned, assert_learned};

/// A file of Rust.
const RUST: &[&str] = &[
    "fn f(x: i32,",
    "     y: &str) -> i32 {",
    "    let z: i32 = \"漢字é\";",
    "\tlet t: u8 =\ty;\tlet q = undefined;",
    "    g(1, 2,",
    "      3)",
    "}",
    "fn g(a: i32) -> i32 { a }",
];

#[test]
fn ranges_and_labels_of_rustc(rt: HostRuntime) {
    assert_learned(
        &rt,
        RUST,
        3,
        Some(17),
        r#"
  |
3 |     let z: i32 = "漢字é";
  |            ---   ^^^^^^^ expected `i32`, found `&str`
=> 3:11..14 3:17..22^expected `i32`, found `&str`
  |            |
  |            expected due to this
=> 0=expected due to this

error[E0308]: mismatched types
=> no
"#,
    );
    assert_learned(
        &rt,
        RUST,
        4,
        Some(24),
        r"
  |
4 |     let t: u8 =    y;    let q = undefined;
  |                                  ^^^^^^^^^ not found in this scope
=> 4:24..33^not found in this scope
  |
  = note: `#[warn(unused_variables)]` on by default
=> note `#[warn(unused_variables)]` on by default
  = note: expected reference `&str`
=> note expected reference `&str`
                  found type `i32`
=> more         found type `i32`
",
    );
}

#[test]
fn ranges_over_lines_of_rustc(rt: HostRuntime) {
    let file = [
        "fn f(c: bool) {",
        "    let x = if c {",
        "        1",
        "    } else { \"two\" };",
        "    match x {",
        "        1 => {}",
        "    }",
        "}",
    ];
    assert_learned(
        &rt,
        &file,
        4,
        Some(13),
        "
  |
2 |       let x = if c {
  |  _____________-
=> 2:12..13
3 | |         1
  | |         - because of this
=> 3:8..9because of this
4 | |     } else { \"two\" };
  | |              ^^^^^ \x20
=> 4:13..18^
  | |_____- not the same
=> 2:12..4:5not the same
...
5 | /     match x {
6 | |         1 => {}
7 | |     }
  | |_____^ expected `()`
=> 5:4..7:5^expected `()`
",
    );
}

#[test]
fn marks_over_others_of_rustc(rt: HostRuntime) {
    assert_learned(
        &rt,
        &["    let mut s = 1;"],
        1,
        Some(8),
        r"
  |
1 |     let mut s = 1;
  |         ----^
=> 1:8..12 1:8..13^
  |         |
  |         help: remove this `mut`
=> 0=help: remove this `mut`
",
    );
}

#[test]
fn texts_stacked_below_marks_of_rustc(rt: HostRuntime) {
    assert_learned(
        &rt,
        &["    for x in &v { v.push(*x); }"],
        1,
        Some(18),
        r"
  |
1 |     for x in &v { v.push(*x); }
  |              --   ^^^^^^^^^^ changed
=> 1:13..15 1:18..28^changed
  |              |
  |              borrowed here
=> 0=borrowed here
  |              and used here
=> 0=and used here
1 |     for x in &v { v.push(*x); }
  |              --   ^^^^^^^^^^
=> 1:13..15 1:18..28^
  |              |    |
  |              |    changed
=> 1=changed
  |              |    again
=> 1=again
  |              borrowed here
=> 0=borrowed here
  |               too far right
=> no
",
    );
}

#[test]
fn texts_between_marks_of_rustc(rt: HostRuntime) {
    assert_learned(
        &rt,
        &["fn with<'漢>(&'漢 self, other: &'漢 str) -> &'a str { other }"],
        1,
        Some(51),
        r"
  |
1 | fn with<'漢>(&'漢 self, other: &'漢 str) -> &'a str { other }
  |         --- `'漢` of it                       --       ^^^^^ said twice
=> 1:8..10`'漢` of it 1:42..44 1:51..56^said twice
  |                                              |
  |                                              the other
=> 1=the other
1 | fn with<'漢>(&'漢 self, other: &'漢 str) -> &'a str { other }
  |         ^^^ a - b,  -c  -
=> 1:8..10^a - b,  -c 1:22..23
",
    );
}

/// A file of one line.
const LETS: &[&str] = &["    let aaaa = 1; let bbbb: i32 = \"cccc\"; let dddd = 2;"];

/// Rows with parts of it.
const PARTS: &[Rows] = &[
    Rows {
        file: LETS,
        line: 1,
        caret: Some(34),
        text: r#"
  |
1 | ... bbbb: i32 = "cccc"; let dddd = 2;
  |           ---   ^^^^^^ expected
=> 1:28..31 1:34..40^expected
"#,
    },
    Rows {
        file: LETS,
        line: 1,
        caret: Some(34),
        text: r#"
    ... bbbb: i32 = "cccc"; l...
                    ^~~~~~~~...
=> 1:34..42^
"#,
    },
    Rows {
        file: LETS,
        line: 1,
        caret: Some(8),
        text: r"
    let aaaa = 1; ...
        ^~~~
=> 1:8..12^
",
    },
    Rows {
        file: LETS,
        line: 1,
        caret: Some(8),
        text: r"
    ...let b...
=> no
",
    },
];

#[test]
fn parts_of_lines(rt: HostRuntime) {
    assert_each_learned(&rt, PARTS)
}

#[test]
fn notes_and_helps_of_rustc(rt: HostRuntime) {
    assert_learned(
        &rt,
        RUST,
        5,
        Some(4),
        r"
  |
5 |     g(1, 2,
  |     ^    - unexpected argument #2
=> 5:4..5^ 5:9..10unexpected argument #2
6 |       3)
  |       - unexpected argument #3
=> 6:6..7unexpected argument #3
  |
note: function defined here
=> note function defined here
 --> r.rs:8:4
=> at r.rs:8:4
  |
8 | fn g(a: i32) -> i32 { a }
  |    ^
=> 8:3..4^
help: remove the extra arguments
=> help remove the extra arguments
  |
5 -     g(1, 2,
6 -       3)
5 +     g(1)
=> become 5:0 `g(1)`
  |
help: consider
=> help consider
  |
8 | fn g(a: i64) -> i32 { a }
=> become 8:0 `fn g(a: i64) -> i32 { a }`
  |           ~~


=> no
",
    );
}

#[test]
fn lines_that_helps_of_rustc_put_in(rt: HostRuntime) {
    let file = ["struct Fruit;", "\tlet map = 1;", "impl Fruit {"];
    assert_learned(
        &rt,
        &file,
        1,
        Some(7),
        "
  |
help: consider importing one of these
=> help consider importing one of these
  |
1 + use a::B;
=> line 1:0 `use a::B;`
2 +     // it is here\x20
=> line 1:0 `// it is here`
3 | struct Fruit;
  |
1 + use d::B;
=> line 1:0 `use d::B;`
  |
help: make it mutable
=> help make it mutable
  |
2 |     let mut map = 1;
=> put 2:5 `mut `
  |         +++
help: make it another
=> help make it another
  |
2 -     let map = 1;
2 +     let map = 2;
=> become 2:0 `let map = 2;`
3 | }
help: close it
=> help close it
  |
3 ~ impl Fruit {
4 + }
=> line 4:0 `}`
  |
help: add it
=> help add it
  |
1 ~ #[must_use]
=> line 1:0 `#[must_use]`
2 ~ struct Fruits;
=> become 1:0 `struct Fruits;`
  |

",
    );
}

#[test]
fn notes_of_rustc_over_lines(rt: HostRuntime) {
    assert_learned(
        &rt,
        RUST,
        8,
        Some(3),
        r"
  |
8 | fn g(a: i32) -> i32 { a }
  |    ^
=> 8:3..4^
  |
  = note: expected type `A`
=> note expected type `A`
               found `B`
=> more      found `B`
     and more
=> more and more
  and nothing
=> no
",
    );
}

#[test]
fn two_ranges_over_the_same_lines_of_rustc(rt: HostRuntime) {
    assert_learned(
        &rt,
        &["    let f = |x: i32| {", "        x + 1", "    }(\"a\");"],
        1,
        Some(21),
        r#"
  |
1 |        let f = |x: i32| {
  |   ______________________^
=> 1:21..22^
  |  |______________________|
2 | ||         x + 1
3 | ||     }("a");
  | ||_____^____- call expression requires function
=> 1:21..3:5^ 1:21..3:10call expression requires function
  |  |_____|
  |
"#,
    );
}

#[test]
fn what_a_help_of_rustc_puts_in(rt: HostRuntime) {
    let file = ["fn main() {", "    if x as usize < y {}", "}"];
    assert_learned(
        &rt,
        &file,
        2,
        Some(18),
        r"
  |
2 |     if x as usize < y {}
  |                   ^
=> 2:18..19^
  |
help: try comparing the cast value
=> help try comparing the cast value
  |
2 |     if (x as usize) < y {}
=> put 2:7 `(` put 2:17 `)`
  |        +          +
help: consider importing this
=> help consider importing this
  |
1 | use std::collections::HashMap;
=> line 1:0 `use std::collections::HashMap;`
  |
help: use another name
=> help use another name
  |
1 | fn start() {
=> become 1:0 `fn start() {`
  |    ~~~~~
",
    );
}
