//! The search for a contested wire.

ghost use Rattle.std.specs.Prelude.{◌≡◌, ℕ, ◌<◌, ◌^◌, length, get_or, [], MatchOption};
ghost use Rattle.std.specs.Ordering.{nat_cmp};
ghost use Rattle.words.specs.Members.{In};
ghost use Rattle.fabric.specs.InOrder.{IsRising};
ghost use Rattle.links.specs.Links.{IsClean, Routing};
ghost use Rattle.wire_feeds.specs.Rows.{AreFeeds};
ghost use Rattle.wire_contests.specs.Contests.{AreDriverRows, HasDrivers, IsContest};

use crate::contest::{Contest, contest_at};
use grouped::Grouped;
use rr_ids::{Id, WireId};

/// The least wire that isn't clean, with the two least wires that drive it: counting drivers, and a cell output itself.
/// `None` exactly where the routing is clean. `drivers` has for each wire its drivers in order, `feeds` the feed of each.
pub fn first_contest(drivers: &Grouped<WireId, WireId>, feeds: &[Option<WireId>]) -> Option<Contest>
    requires rows { AreDriverRows drivers.now }
    requires long { length feeds.now ≡ length drivers.now }
    requires few { length drivers.now < 2 ^ 32 }
    ensures { (r : Routing) → HasDrivers r drivers.now → AreFeeds r feeds.now
        → MatchOption result (IsClean r) (IsContest r) }
{
    for number in 0..drivers.len() as u32 {
        let wire = WireId::from_u32(number);
        let contest = contest_at(drivers.row(wire), feeds, wire);
        if contest.is_some() {
            return contest;
        }
    }
    None
}
