//! The driver that counts.

ghost use Rattle.std.specs.Prelude.{◌≡◌, ℕ, ◌<◌, length, MatchOption, true, false};
ghost use Rattle.words.specs.Members.{In};
ghost use Rattle.wire_contests.specs.Contests.{is_fed as is_fed_of};

use rr_ids::{Id, WireId};

// Whether a wire has a feed.
fn is_fed(feeds: &[Option<WireId>], wire: WireId) -> bool
    requires { wire < length feeds.now }
    ensures { result ≡ is_fed_of feeds.now wire }
{
    feeds[wire.to_u32() as usize].is_some()
}

/// The first wire of a row that has a feed.
pub(crate) fn first_fed(row: &[WireId], feeds: &[Option<WireId>]) -> Option<WireId>
    requires within { (x : ℕ) → In row.now x → x < length feeds.now }
    ensures { MatchOption result ((x : ℕ) → In row.now x → is_fed_of feeds.now x ≡ false)
        (λ x. In row.now x × (is_fed_of feeds.now x ≡ true)) }
{
    for x in row {
        if is_fed(feeds, *x) {
            return Some(*x);
        }
    }
    None
}
