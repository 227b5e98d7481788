//! Feeds are given to the wires below one, and cleared again.

ghost use Rattle.std.specs.Prelude.{◌≡◌, ℕ, ◌+◌, ◌<◌, ◌≤◌, List, [], length, drop, get_or, slice_get, slice_set, None, Some, OnErr, OnOk};
ghost use Rattle.words.specs.Members.{In};
ghost use Rattle.wire_feeds.specs.Rows.{AreRowsWithin};
ghost use Rattle.wire_feeds.specs.Walks.{IsFed, Walk, feeds_with, open_count};
ghost use Rattle.live_links.specs.Feeding.{cleared, fed_with, waiting};

use open_rows::OpenRows;
use rr_ids::{Id, WireId};
use std::alloc::AllocError;

// Takes the feed of a wire away.
fn clear_one(feeds: &mut [Option<WireId>], wire: WireId)
    ensures { feeds.new ≡ slice_set feeds.old wire None }
{
    let place = wire.to_u32() as usize;
    if place < feeds.len() {
        feeds[place] = None;
    }
}

/// Takes the feeds of wires away.
#[tactic(auto, using(crate::proofs::Clearing::cleared_push))]
pub(crate) fn clear(feeds: &mut [Option<WireId>], mut fed: Vec<WireId>)
    ensures { feeds.new ≡ cleared fed.items feeds.old }
{
    'clear: while let Some(wire) = fed.pop() {
        clear_one(feeds, wire);
    }
}

// The feed of a wire.
fn feed_at(feeds: &[Option<WireId>], wire: WireId) -> Option<WireId>
    requires { wire < length feeds.now }
    ensures { result ≡ get_or feeds.now wire None }
{
    feeds[wire.to_u32() as usize]
}

/// The feed of a wire; none also where there is no such wire.
pub(crate) fn feed_or_none(feeds: &[Option<WireId>], wire: WireId) -> Option<WireId>
    ensures { result ≡ get_or feeds.now wire None }
{
    let place = wire.to_u32() as usize;
    if place >= feeds.len() {
        return None;
    }
    feeds[place]
}

/// The feed of a wire that has one.
pub(crate) fn feed_of(feeds: &[Option<WireId>], wire: WireId) -> WireId
    requires { IsFed feeds.now wire }
    ensures { get_or feeds.now wire None ≡ Some result }
{
    feed_or_none(feeds, wire).unwrap()
}

/// Gives a wire a feed.
pub(crate) fn put_feed(feeds: &mut [Option<WireId>], wire: WireId, feed: WireId)
    requires { wire < length feeds.old }
    ensures { feeds.new ≡ slice_set feeds.old wire (Some feed) }
{
    feeds[wire.to_u32() as usize] = Some(feed);
}

// Gives a wire a feed and lists it, unless it has one.
fn note(
    feeds: &mut [Option<WireId>],
    fed: &mut Vec<WireId>,
    wire: WireId,
    feed: WireId,
) -> Result<(), AllocError>
    requires { wire < length feeds.old }
    ensures feeds { OnOk result (feeds.new ≡ feeds_with (get_or feeds.old wire None) feeds.old wire feed) }
    ensures fed { OnOk result (fed.new.items ≡ fed_with (get_or feeds.old wire None) fed.old.items wire) }
    ensures err { OnErr result ((feeds.new ≡ feeds.old) × (fed.new.items ≡ fed.old.items)) }
{
    if feed_at(feeds, wire).is_some() {
        return Ok(());
    }
    fed.push(wire)?;
    put_feed(feeds, wire, feed);
    Ok(())
}

// Notes each wire of a row, which is next to one that has the feed. Once those that are listed are cleared, all is as before.
fn spread_row(
    row: &[WireId],
    feed: WireId,
    feeds: &mut [Option<WireId>],
    fed: &mut Vec<WireId>,
) -> Result<(), AllocError>
    requires within { (w : ℕ) → In row.now w → w < length feeds.old }
    ensures walk { OnOk result ((rows : List (List ℕ)) (outputs : List ℕ) (from at : ℕ) → at ≤ length fed.old.items → get_or rows from [] ≡ row.now
        → get_or feeds.old from None ≡ Some feed → Walk rows outputs from feeds.old (waiting feed (drop at fed.old.items))
        → Walk rows outputs (length rows) feeds.new (waiting feed (drop at fed.new.items))) }
    ensures count { OnOk result (open_count feeds.new + length fed.new.items ≡ open_count feeds.old + length fed.old.items) }
    ensures grows { OnOk result (length fed.old.items ≤ length fed.new.items) }
    ensures undo { cleared fed.new.items feeds.new ≡ cleared fed.old.items feeds.old }
{
    for w in row {
        note(feeds, fed, *w, feed)?;
    }
    Ok(())
}

// The wire at a place; none where no wire stands there.
fn wire_at(fed: &Vec<WireId>, at: usize) -> Option<WireId>
    ensures { result ≡ slice_get fed.now.items at }
{
    fed.as_slice().get(at).copied()
}

/// The row of a wire, empty where the wire has none.
pub(crate) fn row_of(rows: &OpenRows<WireId, WireId>, w: WireId) -> &[WireId]
    ensures { result.now ≡ get_or rows.now.rows w [] }
{
    if w.to_u32() as usize >= rows.len() {
        return &[];
    }
    rows.row(w)
}

/// Gives the feed to all wires below those that are listed and have it, and lists these too. Once those that are listed are
/// cleared, all is as before.
pub(crate) fn spread(
    next: &OpenRows<WireId, WireId>,
    feed: WireId,
    feeds: &mut [Option<WireId>],
    fed: &mut Vec<WireId>,
) -> Result<(), AllocError>
    requires within { AreRowsWithin next.now.rows }
    requires long { length feeds.old ≡ length next.now.rows }
    ensures walk { OnOk result ((outputs : List ℕ) → Walk next.now.rows outputs (length next.now.rows) feeds.old (waiting feed fed.old.items)
        → Walk next.now.rows outputs (length next.now.rows) feeds.new []) }
    ensures undo { cleared fed.new.items feeds.new ≡ cleared fed.old.items feeds.old }
{
    let mut at = 0;
    'walk: while let Some(wire) = wire_at(fed, at) {
        spread_row(row_of(next, wire), feed, feeds, fed)?;
        at += 1;
    }
    Ok(())
}
