//! Links in rows: into each wire, and out of each.

ghost use Rattle.std.specs.Prelude.{◌≡◌, ◌<◌, ◌^◌, [], get_or, length, IfOk};
ghost use Rattle.fabric.specs.InOrder.{IsRising};
ghost use Rattle.link_order.specs.Order.{AreWithin, link_cmp};
ghost use Rattle.wire_links.specs.Rows.{AreLinkRows};

use grouped::Grouped;
use link_order::{Link, sinks, sources};
use rr_ids::{Id, WireId};
use std::alloc::{AllocError, Global};

/// For each wire its drivers, and the wires to which its links lead, each in order.
#[derive(Drop)]
pub struct LinkRows {
    pub drivers: Grouped<WireId, WireId>,
    pub next: Grouped<WireId, WireId>,
}

impl LinkRows {
    /// The rows of links that are in order.
    pub(crate) fn new(alloc: Global, wires: u32, links: &[Link]) -> Result<LinkRows, AllocError>
        requires within { AreWithin wires links.now }
        requires few { length links.now < 2 ^ 32 }
        requires rising { IsRising link_cmp links.now }
        ensures { IfOk result (λ rows. AreLinkRows wires links.now rows.drivers rows.next) }
    {
        let sources = sources(alloc, links)?;
        let sinks = sinks(alloc, links)?;
        let drivers = Grouped::new(alloc, wires, &sinks, &sources)?;
        let next = Grouped::new(alloc, wires, &sources, &sinks)?;
        Ok(LinkRows { drivers, next })
    }
}

/// The row of a wire, empty where the wire has none.
pub(crate) fn row_of(rows: &Grouped<WireId, WireId>, w: WireId) -> &[WireId]
    ensures { result.now ≡ get_or rows.now w [] }
{
    if w.to_u32() as usize >= rows.len() {
        return &rows.items()[..0];
    }
    rows.row(w)
}
