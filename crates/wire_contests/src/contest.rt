//! What contests a wire.

ghost use Rattle.std.specs.Prelude.{◌≡◌, ℕ, ◌<◌, ◌↔◌, length, true, Some, get_or, None};
ghost use Rattle.words.specs.Members.{In};
ghost use Rattle.fabric.specs.InOrder.{IsRising};
ghost use Rattle.std.specs.Ordering.{nat_cmp};
ghost use Rattle.links.specs.Links.{Routing};
ghost use Rattle.wire_feeds.specs.Rows.{AreFeeds};
ghost use Rattle.wire_contests.specs.Contests.{Decides, IsRowOf, contest_beside, contest_of};

use crate::two::{FirstTwo, first_two};
use rr_ids::{Id, WireId};

/// A wire and the two least wires that drive it, in order. A cell output drives itself; where nothing else does, both are
/// the wire.
#[derive(Clone, Copy, Debug, PartialEq, Eq)]
pub struct Contest {
    pub wire: WireId,
    pub first: WireId,
    pub second: WireId,
}

// A cell output beside its first counting driver, and the second if there is one.
fn beside(wire: WireId, first: WireId, second: Option<WireId>) -> Contest
    ensures { result ≡ contest_beside wire first second }
{
    if wire.to_u32() < first.to_u32() {
        return Contest {
            wire,
            first: wire,
            second: first,
        };
    }
    match second {
        Some(second) if first.to_u32() == wire.to_u32() || second.to_u32() < wire.to_u32() => {
            Contest {
                wire,
                first,
                second,
            }
        }
        _ => Contest {
            wire,
            first,
            second: wire,
        },
    }
}

// What contests a wire, by its first two counting drivers.
fn contest_by(wire: WireId, is_output: bool, two: &FirstTwo) -> Option<Contest>
    ensures { result ≡ contest_of wire is_output two.now.first two.now.second }
{
    let first = two.first?;
    if is_output {
        return Some(beside(wire, first, two.second));
    }
    let second = two.second?;
    Some(Contest {
        wire,
        first,
        second,
    })
}

// Whether a wire has itself as its feed, as a cell output does.
fn feeds_itself(feeds: &[Option<WireId>], wire: WireId) -> bool
    requires { wire < length feeds.now }
    ensures { (result ≡ true) ↔ (get_or feeds.now wire None ≡ Some wire) }
{
    match feeds[wire.to_u32() as usize] {
        Some(feed) => feed.to_u32() == wire.to_u32(),
        None => false,
    }
}

/// What contests a wire that the wires of a row drive.
pub(crate) fn contest_at(row: &[WireId], feeds: &[Option<WireId>], wire: WireId) -> Option<Contest>
    requires within { (x : ℕ) → In row.now x → x < length feeds.now }
    requires wire { wire < length feeds.now }
    requires rising { IsRising nat_cmp row.now }
    ensures { (r : Routing) → IsRowOf r wire row.now → AreFeeds r feeds.now → Decides r wire result }
{
    let two = first_two(row, feeds);
    contest_by(wire, feeds_itself(feeds, wire), &two)
}
