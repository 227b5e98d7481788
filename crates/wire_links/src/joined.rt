//! Links that are joined.

ghost use Rattle.std.specs.Prelude.{◌≡◌, ℕ, ◌<◌, ◌↔◌, ◌^◌, length, get_or, [], None, IfOk, MatchOption, MatchResult};
ghost use Rattle.std.specs.Ordering.{nat_cmp};
ghost use Rattle.words.specs.Members.{In};
ghost use Rattle.words.specs.Twice.{HasNoneTwice};
ghost use Rattle.links.specs.Links.{Below, Counting, Drives, Fed, Feeds, IsClean};
ghost use Rattle.fabric.specs.InOrder.{InOrderOnce, IsRising};
ghost use Rattle.link_order.specs.Order.{AreWithin, link_cmp};
ghost use Rattle.wire_feeds.specs.Rows.{AreFeeds};
ghost use Rattle.wire_links.specs.Refused.{Refuses, as_routing};

use crate::LinksError;
use crate::drivers::first_fed;
use crate::parts::JoinedRows;
use crate::reached::below_along;
use crate::rows::row_of;
use grouped::Grouped;
use link_order::Link;
use rr_ids::{Id, WireId};
use std::alloc::{AllocError, Global};
use std::marker::Model;

/// Links that are joined to a clean routing. Contracts see the links, in order by sink, then by source, each once, and the
/// cell outputs.
#[derive(Drop)]
pub struct WireLinks {
    drivers: Grouped<WireId, WireId>,
    next: Grouped<WireId, WireId>,
    // the cell output that feeds a wire
    feeds: Vec<Option<WireId>>,
    outputs: Vec<WireId>,
}

impl Model for WireLinks {
    ghost use Rattle.links.specs.Links.{Routing};
    ghost use Rattle.wire_links.specs.Rows.{AreJoined, routing_of_rows};

    ghost Value = { Routing };

    ghost view = { λ w. routing_of_rows w.drivers w.outputs.items };

    ghost invariant = { λ w. AreJoined w.drivers w.next w.feeds.items w.outputs.items };
}

impl WireLinks {
    /// Joins links between wires whose numbers are below `wires`. `Contested` exactly where they aren't clean: where two
    /// counting drivers lead into a wire, or one into a cell output; it names the least such wire with the two least
    /// that drive it, a cell output being its own driver. Takes time in proportion to the wires, links and outputs.
    pub fn new(
        alloc: Global,
        wires: u32,
        links: &[Link],
        outputs: &[WireId],
    ) -> Result<WireLinks, LinksError>
        requires within { AreWithin wires links.now }
        requires few { length links.now < 2 ^ 32 }
        requires outputs { (c : ℕ) → In outputs.now c → c < wires }
        ensures links { IfOk result (λ r. InOrderOnce link_cmp links.now r.links) }
        ensures outputs { IfOk result (λ r. r.outputs ≡ outputs.now) }
        ensures answer { MatchResult result (λ _. IsClean (as_routing links.now outputs.now)) (Refuses (as_routing links.now outputs.now)) }
    {
        let rows = JoinedRows::new(alloc, wires, links, outputs)?;
        let outputs = Vec::from_slice(alloc, outputs)?;
        Ok(WireLinks {
            drivers: rows.drivers,
            next: rows.next,
            feeds: rows.feeds,
            outputs,
        })
    }

    /// The drivers of a wire, with or without a feed, in order.
    pub fn drivers(&self, w: WireId) -> &[WireId]
        ensures all { (x : ℕ) → In result.now x ↔ Drives self.now x w }
        ensures order { IsRising nat_cmp result.now }
    {
        row_of(&self.drivers, w)
    }

    /// The wires to which links lead from a wire, in order.
    pub fn next(&self, w: WireId) -> &[WireId]
        ensures all { (x : ℕ) → In result.now x ↔ Drives self.now w x }
        ensures order { IsRising nat_cmp result.now }
    {
        row_of(&self.next, w)
    }

    /// The driver of a wire that counts, since it has a feed; it is the only one, for the links are clean.
    pub fn driver(&self, w: WireId) -> Option<WireId>
        ensures driver { MatchOption result ((x : ℕ) → Counting self.now x w → ⊥) (λ x. Counting self.now x w) }
        ensures clean { IsClean self.now }
    {
        first_fed(row_of(&self.drivers, w), &self.feeds)
    }

    /// The cell output that feeds a wire; it is the only one, for the links are clean.
    pub fn feed(&self, w: WireId) -> Option<WireId>
        ensures feed { MatchOption result (Fed self.now w → ⊥) (λ c. Feeds self.now c w) }
        ensures clean { IsClean self.now }
    {
        feed_at(&self.feeds, w)
    }

    /// For each wire the cell output that feeds it.
    pub fn feeds(&self) -> &[Option<WireId>]
        ensures feeds { AreFeeds self.now result.now }
        ensures clean { IsClean self.now }
    {
        &self.feeds
    }

    /// A wire and all wires that are reached from it along links, each once, in order of distance. It costs what it comes to.
    pub fn below(&self, alloc: Global, w: WireId) -> Result<Vec<WireId>, AllocError>
        ensures all { IfOk result (λ v. (x : ℕ) → In v.items x ↔ Below self.now w x) }
        ensures once { IfOk result (λ v. HasNoneTwice v.items) }
    {
        below_along(alloc, &self.next, w)
    }
}

// What feeds a wire.
fn feed_at(feeds: &[Option<WireId>], w: WireId) -> Option<WireId>
    ensures { result ≡ get_or feeds.now w None }
{
    let place = w.to_u32() as usize;
    if place >= feeds.len() {
        return None;
    }
    feeds[place]
}
