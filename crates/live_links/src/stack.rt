//! Links that are added one after the other, and taken back in reverse.

ghost use Rattle.std.specs.Prelude.{◌≡◌, ℕ, ◌<◌, ◌^◌, ◌↔◌, [], length, IfOk, OnErr, OnOk, MatchOption, MatchResult};
ghost use Rattle.std.specs.Ordering.{nat_cmp};
ghost use Rattle.words.specs.Members.{In};
ghost use Rattle.words.specs.Twice.{HasNoneTwice};
ghost use Rattle.fabric.specs.InOrder.{InOrderOnce, IsRising};
ghost use Rattle.link_order.specs.Order.{AreWithin, link_cmp};
ghost use Rattle.links.specs.Links.{Drives, Fed, Feeds, IsClean};
ghost use Rattle.wire_links.specs.Refused.{Refuses, as_routing};
ghost use Rattle.live_links.specs.Live.{IsAddable, present, with_link, without_last};

use crate::added::AddedLink;
use crate::feeds::{feed_of, feed_or_none, row_of};
use crate::grow::{put_on, take_back};
use crate::opened::{ones, opened};
use link_order::Link;
use open_rows::OpenRows;
use rr_ids::WireId;
use std::alloc::{AllocError, Global};
use std::marker::Model;
use wire_links::{JoinedRows, LinksError};

/// Links that are joined to a clean routing, and grow and shrink link by link. Contracts see the routing that it was made
/// of, the links that were added, the last one first, and how many may be added out of each wire.
#[derive(Drop)]
pub struct LinkStack {
    alloc: Global,
    drivers: OpenRows<WireId, WireId>,
    next: OpenRows<WireId, WireId>,
    // the cell output that feeds a wire
    feeds: Vec<Option<WireId>>,
    outputs: Vec<WireId>,
    // the last one stands at the end
    added: Vec<AddedLink>,
}

impl Model for LinkStack {
    ghost use Rattle.std.specs.Prelude.{reverse};
    ghost use Rattle.wire_links.specs.Refused.{Refuses, as_routing};
    ghost use Rattle.live_links.specs.Live.{Stacked};
    ghost use Rattle.live_links.specs.Joined.{IsLinkStack, stacked};

    ghost Value = { Stacked };

    ghost view = { λ l. stacked (reverse l.added.items) l.drivers l.next l.outputs.items };

    ghost invariant = { λ l. IsLinkStack (reverse l.added.items) l.drivers l.next l.feeds.items l.outputs.items };
}

impl LinkStack {
    /// Joins links between wires whose numbers are below `wires`, with room for so many `more` links out of each wire.
    /// `Contested` exactly where the links aren't clean, as `WireLinks::new`. Want of memory also where the room passes
    /// 4,294,967,295 links. Takes time in proportion to the wires, links, outputs and the room.
    pub fn new(
        alloc: Global,
        wires: u32,
        links: &[Link],
        outputs: &[WireId],
        more: &[u32],
    ) -> Result<LinkStack, LinksError>
        requires within { AreWithin wires links.now }
        requires few { length links.now < 2 ^ 32 }
        requires outputs { (c : ℕ) → In outputs.now c → c < wires }
        requires more { length more.now ≡ wires }
        ensures links { IfOk result (λ s. InOrderOnce link_cmp links.now s.base.links) }
        ensures outputs { IfOk result (λ s. s.base.outputs ≡ outputs.now) }
        ensures none { IfOk result (λ s. s.links ≡ []) }
        ensures more { IfOk result (λ s. s.more ≡ more.now) }
        ensures answer { MatchResult result (λ _. IsClean (as_routing links.now outputs.now)) (Refuses (as_routing links.now outputs.now)) }
    {
        let rows = JoinedRows::new(alloc, wires, links, outputs)?;
        let one_each = ones(alloc, wires)?;
        let drivers = opened(alloc, &rows.drivers, &one_each)?;
        let next = opened(alloc, &rows.next, more)?;
        let outputs = Vec::from_slice(alloc, outputs)?;
        Ok(LinkStack {
            alloc,
            drivers,
            next,
            feeds: rows.feeds,
            outputs,
            added: Vec::new(alloc),
        })
    }

    /// Adds a link, and gives the feed of its source to all wires below its sink. Where memory runs out, all stays. It costs
    /// the wires below the sink and the links between them.
    pub fn add(&mut self, link: Link) -> Result<(), AllocError>
        requires { IsAddable self.old link }
        ensures ok { OnOk result (self.new ≡ with_link self.old link) }
        ensures err { OnErr result (self.new ≡ self.old) }
        ensures clean { IsClean (present self.new) }
    {
        let feed = feed_of(&self.feeds, link.source);
        put_on(
            self.alloc,
            &mut self.added,
            &mut self.drivers,
            &mut self.next,
            &mut self.feeds,
            link,
            feed,
        )?;
        Ok(())
    }

    /// Takes the link back that was added last, so that all is as before it was added; takes no memory.
    pub fn drop_last(&mut self)
        requires { 0 < length self.old.links }
        ensures last { self.new ≡ without_last self.old }
        ensures clean { IsClean (present self.new) }
    {
        let added = self.added.pop().unwrap();
        take_back(&mut self.drivers, &mut self.next, &mut self.feeds, added);
    }

    /// The drivers of a wire, with or without a feed, in order.
    pub fn drivers(&self, w: WireId) -> &[WireId]
        ensures all { (x : ℕ) → In result.now x ↔ Drives (present self.now) x w }
        ensures order { IsRising nat_cmp result.now }
    {
        row_of(&self.drivers, w)
    }

    /// The wires to which links lead from a wire, each once, in no order.
    pub fn next(&self, w: WireId) -> &[WireId]
        ensures all { (x : ℕ) → In result.now x ↔ Drives (present self.now) w x }
        ensures once { HasNoneTwice result.now }
    {
        row_of(&self.next, w)
    }

    /// The cell output that feeds a wire; it is the only one, for the links are clean.
    pub fn feed(&self, w: WireId) -> Option<WireId>
        ensures feed { MatchOption result (Fed (present self.now) w → ⊥) (λ c. Feeds (present self.now) c w) }
        ensures clean { IsClean (present self.now) }
    {
        feed_or_none(&self.feeds, w)
    }
}
