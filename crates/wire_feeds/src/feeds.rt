//! The feeds of all wires.

ghost use Rattle.std.specs.Prelude.{◌≡◌, ℕ, ◌<◌, length, IfOk};
ghost use Rattle.words.specs.Members.{In};
ghost use Rattle.links.specs.Links.{Routing};
ghost use Rattle.wire_feeds.specs.Rows.{AreFeeds, AreRowsWithin, HasNext};
ghost use Rattle.wire_feeds.specs.Walks.{IsUnfed};

use crate::noted::FedWire;
use crate::walk::walk;
use grouped::Grouped;
use rr_ids::WireId;
use std::alloc::{AllocError, Global};

// No feeds yet.
fn none(alloc: Global, count: usize) -> Result<Vec<Option<WireId>>, AllocError>
    ensures { IfOk result (λ v. (length v.items ≡ count) × IsUnfed v.items) }
{
    vec![in alloc; None; count]
}

/// For each wire a cell output that feeds it, where there is one, and for a cell output itself. `next` has for each wire
/// those to which a link leads. Takes time in proportion to the wires and links.
pub fn feeds_along(
    alloc: Global,
    next: &Grouped<WireId, WireId>,
    outputs: &[WireId],
) -> Result<Vec<Option<WireId>>, AllocError>
    requires rows { AreRowsWithin next.now }
    requires outputs { (c : ℕ) → In outputs.now c → c < length next.now }
    ensures long { IfOk result (λ v. length v.items ≡ length next.now) }
    ensures feeds { IfOk result (λ v. (r : Routing) → HasNext r next.now → r.outputs ≡ outputs.now → AreFeeds r v.items) }
{
    let mut feeds = none(alloc, next.len())?;
    let mut waiting: Vec<FedWire> = Vec::new(alloc);
    walk(next, outputs, &mut feeds, &mut waiting)?;
    Ok(feeds)
}
