//! Links in order, with rows both ways.

ghost use Rattle.std.specs.Prelude.{◌≡◌, ◌<◌, ◌^◌, length, map, IfOk};
ghost use Rattle.fabric.specs.GraphOf.{link_cmp};
ghost use Rattle.fabric.specs.InOrder.{InOrderOnce};
ghost use Rattle.graph_lists.specs.FixedLists.{links_from, links_into};
ghost use Rattle.grouped.specs.Rows.{grouped};
ghost use Rattle.link_order.specs.Order.{AreWithin};

use grouped::Grouped;
use link_order::{Link, in_order, sinks, sources};
use rr_ids::WireId;
use std::alloc::{AllocError, Global};
use std::marker::Model;

/// Links in order by sink, then by source, each once, with the sources of the links into each wire and the sinks of those
/// from it. Contracts see how many wires there are, and the links.
#[derive(Drop)]
pub struct LinkRows {
    links: Vec<Link>,
    sources: Grouped<WireId, WireId>,
    sinks: Grouped<WireId, WireId>,
}

impl Model for LinkRows {
    ghost use Rattle.std.specs.Prelude.{length};
    ghost use Rattle.link_rows.specs.Kept.{AreEndsOf, LinkTable};

    ghost Value = { LinkTable };

    ghost view = { λ r. record { wires = length r.sources; links = r.links.items } };

    ghost invariant = { λ r. AreEndsOf r.links.items r.sources r.sinks };
}

// The sources of the links into each wire.
fn rows_by_sink(
    alloc: Global,
    wires: u32,
    links: &[Link],
) -> Result<Grouped<WireId, WireId>, AllocError>
    requires within { AreWithin wires links.now }
    requires few { length links.now < 2 ^ 32 }
    ensures { IfOk result (λ rows. rows ≡ grouped (λ k. k) wires (map (λ l. l.sink) links.now) (map (λ l. l.source) links.now)) }
{
    let keys = sinks(alloc, links)?;
    let ends = sources(alloc, links)?;
    Grouped::new(alloc, wires, &keys, &ends)
}

// The sinks of the links from each wire.
fn rows_by_source(
    alloc: Global,
    wires: u32,
    links: &[Link],
) -> Result<Grouped<WireId, WireId>, AllocError>
    requires within { AreWithin wires links.now }
    requires few { length links.now < 2 ^ 32 }
    ensures { IfOk result (λ rows. rows ≡ grouped (λ k. k) wires (map (λ l. l.source) links.now) (map (λ l. l.sink) links.now)) }
{
    let keys = sources(alloc, links)?;
    let ends = sinks(alloc, links)?;
    Grouped::new(alloc, wires, &keys, &ends)
}

// Links that are in order, with their rows.
fn with_rows(alloc: Global, wires: u32, links: Vec<Link>) -> Result<LinkRows, AllocError>
    requires within { AreWithin wires links.items }
    requires few { length links.items < 2 ^ 32 }
    ensures { IfOk result (λ rows. rows ≡ record { wires = wires; links = links.items }) }
{
    let sources = rows_by_sink(alloc, wires, &links)?;
    let sinks = rows_by_source(alloc, wires, &links)?;
    Ok(LinkRows {
        links,
        sources,
        sinks,
    })
}

impl LinkRows {
    /// Links between as many wires as there are, in order; 2^32 links or more are answered as want of memory. Takes time in
    /// proportion to links and wires.
    pub fn new(alloc: Global, wires: u32, links: &[Link]) -> Result<LinkRows, AllocError>
        requires within { AreWithin wires links.now }
        ensures links { IfOk result (λ rows. InOrderOnce link_cmp links.now rows.links) }
        ensures wires { IfOk result (λ rows. rows.wires ≡ wires) }
    {
        if links.len() >= 4_294_967_296 {
            return Err(AllocError);
        }
        let ordered = in_order(alloc, wires, links)?;
        with_rows(alloc, wires, ordered)
    }

    /// How many wires there are.
    pub fn wires(&self) -> usize
        ensures { result ≡ self.now.wires }
    {
        self.sources.len()
    }

    /// The links in order by sink, then by source, each once.
    pub fn links(&self) -> &[Link]
        ensures { result.now ≡ self.now.links }
    {
        &self.links
    }

    /// The wires from which a link leads into a wire, in wire order.
    pub fn sources(&self, w: WireId) -> &[WireId]
        requires { w < self.now.wires }
        ensures { result.now ≡ links_into self.now.links w }
    {
        self.sources.row(w)
    }

    /// The wires into which a link leads from a wire, in wire order.
    pub fn sinks(&self, w: WireId) -> &[WireId]
        requires { w < self.now.wires }
        ensures { result.now ≡ links_from self.now.links w }
    {
        self.sinks.row(w)
    }
}
