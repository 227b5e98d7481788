//! The counting drivers among the wires of a row.

ghost use Rattle.std.specs.Prelude.{◌≡◌, ℕ, ◌<◌, length, filter, get_or, None};
ghost use Rattle.words.specs.Members.{In};
ghost use Rattle.wire_contests.specs.Contests.{first_of, is_fed as is_fed_of, second_of};

use rr_ids::{Id, WireId};

/// The first wire of a list and the second one, where they are.
#[derive(Clone, Copy)]
pub struct FirstTwo {
    pub first: Option<WireId>,
    pub second: Option<WireId>,
}

/// Whether a wire has a feed.
pub(crate) fn is_fed(feeds: &[Option<WireId>], wire: WireId) -> bool
    requires { wire < length feeds.now }
    ensures { result ≡ is_fed_of feeds.now wire }
{
    feeds[wire.to_u32() as usize].is_some()
}

/// The first two wires of a row that have a feed.
pub(crate) fn first_two(row: &[WireId], feeds: &[Option<WireId>]) -> FirstTwo
    requires within { (x : ℕ) → In row.now x → x < length feeds.now }
    ensures first { result.first ≡ first_of (filter (is_fed_of feeds.now) row.now) }
    ensures second { result.second ≡ second_of (filter (is_fed_of feeds.now) row.now) }
{
    let mut first = None;
    for x in row {
        if !is_fed(feeds, *x) {
            continue;
        }
        if first.is_some() {
            return FirstTwo {
                first,
                second: Some(*x),
            };
        }
        first = Some(*x);
    }
    FirstTwo {
        first,
        second: None,
    }
}
