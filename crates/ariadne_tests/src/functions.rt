//! Reports over functions that give the texts of their sources: how often each is called.

use crate::asserts::{Why, assert_shown, written};
use crate::caches::{SECOND, TWO, assert_over, assert_two, given, report_at, two_labels};
use crate::comparing::{assert_is, assert_is_of, assert_text_of};
use ariadne::{Cache, FnCache, LeftOut};
use std::cell::Cell;
use std::process::Abort;

/// What comes of writing the two labels once more.
struct Round {
    rows: &'static [&'static str],
    is_whole: bool,
    /// The labels that are left out, each with the number that is told of it, as they are printed.
    left_out: &'static str,
    /// How often the function was called by now.
    calls: u8,
}

/// A function whose first calls fail, and what comes of it.
struct Faulty {
    name: &'static str,
    /// How many of its first calls fail.
    faults: u8,
    /// The first of them tells the number behind this one, and so on.
    told: u8,
    rounds: &'static [Round],
    /// Whether the cache holds the source at the end.
    is_held: bool,
}

/// Functions that are asked for the text of `x`.
const FAULTY: &[Faulty] = &[
    Faulty {
        name: "a function is called once for all labels and reports",
        faults: 0,
        told: 0,
        rounds: &[
            Round {
                rows: TWO,
                is_whole: false,
                left_out: "[]",
                calls: 1,
            },
            Round {
                rows: TWO,
                is_whole: false,
                left_out: "[]",
                calls: 1,
            },
        ],
        is_held: true,
    },
    Faulty {
        name: "a function that failed is called for the next label",
        faults: 1,
        told: 6,
        rounds: &[
            Round {
                rows: SECOND,
                is_whole: false,
                left_out: "[LeftOut { label: 0, reason: Unfetched(7) }]",
                calls: 2,
            },
            // By now the source is held.
            Round {
                rows: TWO,
                is_whole: false,
                left_out: "[]",
                calls: 2,
            },
        ],
        is_held: true,
    },
    Faulty {
        name: "of a function that fails always nothing is drawn",
        faults: u8::MAX,
        told: 0,
        rounds: &[Round {
            rows: &["Error: "],
            is_whole: true,
            left_out: "[LeftOut { label: 0, reason: Unfetched(1) }, \
                       LeftOut { label: 1, reason: Unfetched(2) }]",
            calls: 2,
        }],
        is_held: false,
    },
];

/// A function that counts its calls.
#[derive(Drop)]
struct Counted {
    calls: Cell<u8>,
    faulty: &'static Faulty,
}

impl Counted {
    /// What the next call returns.
    fn answer(&self) -> Result<&'static str, u8> {
        self.calls.set(self.calls.get().wrapping_add(1));
        if self.calls.get() <= self.faulty.faults {
            Err(self.calls.get().wrapping_add(self.faulty.told))
        } else {
            Ok("ab")
        }
    }
}

/// Asserts that this picture and these labels that are left out are those of a round.
fn assert_round(
    rt: &(impl Abort + AllocGlobal),
    name: &str,
    round: &Round,
    (picture, left_out): (String, Vec<LeftOut<u8>>),
) {
    assert_shown(rt, picture.as_str(), round.rows, round.is_whole).expect(rt, name);
    let left_out = format!(in rt.alloc(); "{left_out:?}");
    assert_text_of(rt, name, left_out, round.left_out)
}

/// Asserts what comes of a function.
fn assert_called(rt: &(impl Abort + AllocGlobal), faulty: &'static Faulty) {
    let name = faulty.name;
    let counted = Counted {
        calls: Cell::new(0),
        faulty,
    };
    let mut cache: FnCache<&str, _, &str> = FnCache::new(
        rt.alloc(),
        |_id: &&str| -> Result<&str, u8> { counted.answer() },
    );
    let report = two_labels(rt);
    for round in faulty.rounds {
        let answer = written(rt, &report, &mut cache).expect(rt, "a picture");
        assert_round(rt, name, round, answer);
        assert_is_of(rt, name, counted.calls.get(), round.calls);
    }
    assert_is_of(rt, name, cache.get(&"x").is_some(), faulty.is_held);
}

#[test]
fn a_function_is_called_until_it_returns_a_text(rt: HostRuntime) {
    for faulty in FAULTY {
        assert_called(&rt, faulty);
    }
}

/// Labels, of which the first is in a source that can't be had.
const LOST: &[(&str, usize, usize, &str)] = &[("z", 0, 1, "l"), ("x", 0, 1, "m")];

/// The picture of the other.
const ONE: &[&str] = &[
    "Error:",
    "   ,-[ x:1:1 ]",
    "   |",
    " 1 | ab",
    "   | |",
    "   | `-- m",
    "---'",
];

/// Whether a cache holds a source.
fn holds<C: Cache<&'static str>>(cache: &C, id: &'static str) -> bool {
    cache.get(&id).is_some()
}

#[test]
fn the_sources_of_labels_are_fetched_and_that_of_the_report_is_not(rt: HostRuntime) {
    let calls = Cell::new(0u8);
    let mut cache: FnCache<&str, _, &str> = FnCache::new(
        rt.alloc(),
        |id: &&str| -> Result<&str, u8> {
            calls.set(calls.get().wrapping_add(1));
            if *id == "z" { Err(7) } else { Ok("ab") }
        },
    );
    let report = report_at(&rt, "r", LOST);
    assert_over(&rt, report, &mut cache, &[(0, Why::Unfetched)], ONE);
    let held = (holds(&cache, "x"), holds(&cache, "z"), holds(&cache, "r"));
    assert_is(&rt, (calls.get(), held), (2, (true, false, false)))
}

/// Fails for every id.
fn missing(_id: &&'static str) -> Result<&'static str, ()> {
    Err(())
}

#[test]
fn sources_that_were_given_are_drawn_without_a_call(rt: HostRuntime) {
    let cache: FnCache<&'static str, _, &'static str> = FnCache::new(rt.alloc(), missing);
    let given = given(&rt, "x", "ab");
    assert_two(&rt, &mut cache.with_sources(given).expect(&rt, "memory"))
}

/// A function that fails once for each id.
#[derive(Drop)]
struct Hesitant {
    has_asked_x: Cell<bool>,
    has_asked_y: Cell<bool>,
}

impl Hesitant {
    /// What the next call for an id returns.
    fn answer(&self, id: &str) -> Result<&'static str, u8> {
        let has_asked = if id == "x" {
            &self.has_asked_x
        } else {
            &self.has_asked_y
        };
        if has_asked.replace(true) {
            Ok("ab")
        } else {
            Err(7)
        }
    }
}

/// Two labels on each of two sources.
const FOUR: &[(&str, usize, usize, &str)] = &[
    ("x", 0, 1, "p"),
    ("y", 0, 1, "p"),
    ("x", 1, 2, "q"),
    ("y", 1, 2, "q"),
];

/// The picture of the second label on each.
const SECONDS: &[&str] = &[
    "Error:",
    "   ,-[ x:1:1 ]",
    "   |",
    " 1 | ab",
    "   |  |",
    "   |  `-- q",
    "   |",
    "   |-[ y:1:2 ]",
    "   |",
    " 1 | ab",
    "   |  |",
    "   |  `-- q",
    "---'",
];

#[test]
fn each_id_that_failed_is_asked_for_again(rt: HostRuntime) {
    let hesitant = Hesitant {
        has_asked_x: Cell::new(false),
        has_asked_y: Cell::new(false),
    };
    let mut cache: FnCache<&str, _, &str> = FnCache::new(
        rt.alloc(),
        |id: &&str| -> Result<&str, u8> { hesitant.answer(*id) },
    );
    let left_out = [(0, Why::Unfetched), (1, Why::Unfetched)];
    assert_over(
        &rt,
        report_at(&rt, "x", FOUR),
        &mut cache,
        &left_out,
        SECONDS,
    )
}
