//! The rows and the feeds of links that are joined.

ghost use Rattle.std.specs.Prelude.{◌≡◌, ℕ, ◌<◌, ◌^◌, length, IfOk, MatchResult};
ghost use Rattle.words.specs.Members.{In};
ghost use Rattle.links.specs.Links.{IsClean};
ghost use Rattle.fabric.specs.InOrder.{InOrderOnce};
ghost use Rattle.link_order.specs.Order.{AreWithin, link_cmp};
ghost use Rattle.wire_links.specs.Refused.{Refuses, as_routing};
ghost use Rattle.wire_links.specs.Rows.{AreJoined, links_of_rows};

use crate::LinksError;
use crate::rows::LinkRows;
use grouped::Grouped;
use link_order::{Link, in_order};
use rr_ids::WireId;
use std::alloc::Global;
use wire_contests::first_contest;
use wire_feeds::feeds_along;

/// For each wire its drivers and the wires to which its links lead, each in order, and the cell output that feeds it.
#[derive(Drop)]
pub struct JoinedRows {
    pub drivers: Grouped<WireId, WireId>,
    pub next: Grouped<WireId, WireId>,
    pub feeds: Vec<Option<WireId>>,
}

impl JoinedRows {
    /// Joins links between wires whose numbers are below `wires`, as `WireLinks::new` does.
    pub fn new(
        alloc: Global,
        wires: u32,
        links: &[Link],
        outputs: &[WireId],
    ) -> Result<JoinedRows, LinksError>
        requires within { AreWithin wires links.now }
        requires few { length links.now < 2 ^ 32 }
        requires outputs { (c : ℕ) → In outputs.now c → c < wires }
        ensures long { IfOk result (λ r. length r.drivers ≡ wires) }
        ensures links { IfOk result (λ r. InOrderOnce link_cmp links.now (links_of_rows 0 r.drivers)) }
        ensures joined { IfOk result (λ r. AreJoined r.drivers r.next r.feeds.items outputs.now) }
        ensures answer { MatchResult result (λ _. IsClean (as_routing links.now outputs.now)) (Refuses (as_routing links.now outputs.now)) }
    {
        let ordered = in_order(alloc, wires, links)?;
        let rows = LinkRows::new(alloc, wires, &ordered)?;
        let feeds = feeds_along(alloc, &rows.next, outputs)?;
        if let Some(contest) = first_contest(&rows.drivers, &feeds) {
            return Err(LinksError::Contested(contest));
        }
        Ok(JoinedRows {
            drivers: rows.drivers,
            next: rows.next,
            feeds,
        })
    }
}
