//! Wires that are found to have a feed.

ghost use Rattle.std.specs.Prelude.{◌≡◌, ◌<◌, length, get_or, slice_set, None, Some, OnOk};
ghost use Rattle.wire_feeds.specs.Walks.{feeds_with, waiting_with};

use rr_ids::{Id, WireId};
use std::alloc::AllocError;

/// A wire and its feed.
#[derive(Clone, Copy)]
pub struct FedWire {
    pub wire: WireId,
    pub feed: WireId,
}

/// The feed of a wire so far.
pub(crate) fn feed_at(feeds: &[Option<WireId>], wire: WireId) -> Option<WireId>
    requires { wire < length feeds.now }
    ensures { result ≡ get_or feeds.now wire None }
{
    feeds[wire.to_u32() as usize]
}

// Writes the feed of a wire.
fn put_feed(feeds: &mut [Option<WireId>], wire: WireId, feed: WireId)
    requires { wire < length feeds.old }
    ensures { feeds.new ≡ slice_set feeds.old wire (Some feed) }
{
    feeds[wire.to_u32() as usize] = Some(feed);
}

/// Gives a wire a feed and lets it wait, unless it has one.
pub(crate) fn note(
    feeds: &mut [Option<WireId>],
    waiting: &mut Vec<FedWire>,
    wire: WireId,
    feed: WireId,
) -> Result<(), AllocError>
    requires { wire < length feeds.old }
    ensures feeds { OnOk result (feeds.new ≡ feeds_with (get_or feeds.old wire None) feeds.old wire feed) }
    ensures waiting { OnOk result (waiting.new.items ≡ waiting_with (get_or feeds.old wire None) waiting.old.items wire feed) }
{
    if feed_at(feeds, wire).is_some() {
        return Ok(());
    }
    put_feed(feeds, wire, feed);
    waiting.push(FedWire { wire, feed })?;
    Ok(())
}
