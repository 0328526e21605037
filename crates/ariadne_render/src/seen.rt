//! The places of a cut line of which anything is seen, in their order.

ghost use Rattle.std.specs.Prelude.{◌≡◌, ◌<◌, ◌≤◌, IfSome, List, None, Some, slice_get, take};
ghost use Rattle.ariadne_picture.specs.declared.sight.Part.{Part};
ghost use Rattle.ariadne_layout.specs.Cuts.{AreApart, end_of};
ghost use Rattle.ariadne_render.specs.Seen.{AreUnseen, AreUnseenFrom, IsSeenNext};

use ariadne_picture::sight::{Part, Sight};

/// A place of a line of which anything is seen.
#[derive(Clone, Copy)]
pub(crate) struct SeenPlace {
    pub(crate) place: usize,
    /// What is seen of it.
    pub(crate) sight: Sight,
    /// The number of the part that it is of or stands before, or how many parts there are.
    pub(crate) part: usize,
}

/// The first place from `place` on and before `end` of which anything is seen, where these parts of a
/// line are shown. Those before number `first` end by `place`.
pub(crate) fn next_seen(parts: &[Part], first: usize, place: usize, end: usize) -> Option<SeenPlace>
    requires apart { AreApart parts.now }
    requires passed { end_of 0 (take first parts.now) ≤ place }
    ensures seen { IfSome result (λ x. IsSeenNext parts.now place x × (x.place < end)) }
    ensures none { result ≡ None → AreUnseen parts.now place end }
{
    let part = part_at(parts, first, place);
    let seen = match parts.get(part) {
        Some(there) => seen_by(there, part, place),
        None => seen_behind(parts, place)?,
    };
    if seen.place < end { Some(seen) } else { None }
}

/// The number of the first part from number `first` on that ends behind a place.
fn part_at(parts: &[Part], first: usize, place: usize) -> usize
    ensures passed { end_of 0 (take first parts.now) ≤ place →
        end_of 0 (take result parts.now) ≤ place }
    ensures reaches { (p : Part) → slice_get parts.now result ≡ Some p → place < p.to }
{
    let mut number = first;
    while number < parts.len() && parts[number].to <= place {
        number += 1;
    }
    number
}

/// The first place from `place` on of which anything is seen, before a part that begins behind it or
/// within one that has it.
fn seen_by(there: &Part, part: usize, place: usize) -> SeenPlace
    requires { place < there.now.to }
    ensures { (parts : List Part) → AreApart parts → slice_get parts part ≡ Some there.now →
        end_of 0 (take part parts) ≤ place → IsSeenNext parts place result }
{
    if place < there.from {
        SeenPlace {
            place: there.from - 1,
            sight: Sight::Marked,
            part,
        }
    } else {
        SeenPlace {
            place,
            sight: Sight::Seen,
            part,
        }
    }
}

/// The place behind all parts, if it is this one: a mark stands there.
fn seen_behind(parts: &[Part], place: usize) -> Option<SeenPlace>
    requires apart { AreApart parts.now }
    requires passed { end_of 0 parts.now ≤ place }
    ensures seen { IfSome result (λ x. IsSeenNext parts.now place x) }
    ensures none { result ≡ None → AreUnseenFrom parts.now place }
{
    let last = parts.last()?;
    if last.to != place {
        return None;
    }
    Some(SeenPlace {
        place,
        sight: Sight::Marked,
        part: parts.len(),
    })
}
