//! A walk from all cell outputs along links, each wire once.

ghost use Rattle.std.specs.Prelude.{◌≡◌, ℕ, ◌+◌, ◌<◌, List, [], length, get_or, None, Some, OnOk};
ghost use Rattle.words.specs.Members.{In};
ghost use Rattle.wire_feeds.specs.Rows.{AreRowsWithin};
ghost use Rattle.wire_feeds.specs.Walks.{Walk, IsUnfed, open_count};

use crate::noted::{FedWire, note};
use grouped::Grouped;
use rr_ids::WireId;
use std::alloc::AllocError;

// Notes each cell output as fed by itself.
fn begin(
    outputs: &[WireId],
    feeds: &mut [Option<WireId>],
    waiting: &mut Vec<FedWire>,
) -> Result<(), AllocError>
    requires within { (c : ℕ) → In outputs.now c → c < length feeds.old }
    requires unfed { IsUnfed feeds.old }
    requires none { waiting.old.items ≡ [] }
    ensures { OnOk result ((rows : List (List ℕ)) → length rows ≡ length feeds.old
        → Walk rows outputs.now (length rows) feeds.new waiting.new.items) }
{
    for c in outputs {
        note(feeds, waiting, *c, *c)?;
    }
    Ok(())
}

// Notes each wire of a row, which is next to one that has the feed.
fn spread(
    row: &[WireId],
    feed: WireId,
    feeds: &mut [Option<WireId>],
    waiting: &mut Vec<FedWire>,
) -> Result<(), AllocError>
    requires within { (w : ℕ) → In row.now w → w < length feeds.old }
    ensures walk { OnOk result ((rows : List (List ℕ)) (outputs : List ℕ) (from : ℕ) → get_or rows from [] ≡ row.now
        → get_or feeds.old from None ≡ Some feed → Walk rows outputs from feeds.old waiting.old.items
        → Walk rows outputs (length rows) feeds.new waiting.new.items) }
    ensures count { OnOk result (open_count feeds.new + length waiting.new.items ≡ open_count feeds.old + length waiting.old.items) }
{
    for w in row {
        note(feeds, waiting, *w, feed)?;
    }
    Ok(())
}

/// Walks from the cell outputs along the links of rows until no wire waits.
pub(crate) fn walk(
    next: &Grouped<WireId, WireId>,
    outputs: &[WireId],
    feeds: &mut [Option<WireId>],
    waiting: &mut Vec<FedWire>,
) -> Result<(), AllocError>
    requires rows { AreRowsWithin next.now }
    requires outputs { (c : ℕ) → In outputs.now c → c < length next.now }
    requires long { length feeds.old ≡ length next.now }
    requires unfed { IsUnfed feeds.old }
    requires none { waiting.old.items ≡ [] }
    ensures { OnOk result (Walk next.now outputs.now (length next.now) feeds.new []) }
{
    begin(outputs, feeds, waiting)?;
    'walk: while let Some(from) = waiting.pop() {
        spread(next.row(from.wire), from.feed, feeds, waiting)?;
    }
    Ok(())
}
