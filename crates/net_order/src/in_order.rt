//! Parts in order.

ghost use Rattle.std.specs.Prelude.{◌≡◌, ℕ, ◌<◌, ◌^◌, length, IfOk, MatchResult};
ghost use Rattle.circuit.specs.Circuits.{Circuit};
ghost use Rattle.circuit.specs.Parts.{sources as sources_of};
ghost use Rattle.circuit.specs.Pins.{pins as pins_in};
ghost use Rattle.cycle_order.specs.Orders.{IsOnCycle, IsOrder, Refuses as RefusesNodes};
ghost use Rattle.design_checks.specs.Checks.{Passes};
ghost use Rattle.design_checks.specs.PinChecks.{TablesLoop};
ghost use Rattle.net_order.specs.Links.{links_with};
ghost use Rattle.net_order.specs.Orders.{AreInNameOrder, AreKnown, IsLinked, Refuses};
ghost use Rattle.pin_feeds.specs.Told.{Tells};

use crate::ends::{link_sources, link_tables};
use crate::feeding::{TableLink, table_links};
use circuit_parts::{Parts, SourceId};
use cycle_order::{NodeId, OrderError, order};
use rr_ids::Id;
use std::alloc::{AllocError, Global};

// The links into tables, of which there are no more than pins.
#[tactic(auto, using(crate::proofs::Few::links_few))]
fn few_links(
    alloc: Global,
    parts: &Parts<'_>,
    feeds: &[Option<SourceId>],
) -> Result<Vec<TableLink>, AllocError>
    requires { length feeds.now ≡ length (pins_in parts.now) }
    ensures links { IfOk result (λ links. links.items ≡ links_with parts.now feeds.now) }
    ensures few { IfOk result (λ links. length links.items < 2 ^ 32) }
{
    let pins = parts.pins();
    prove!(pins.len() < 4_294_967_296);
    let links = table_links(alloc, parts, feeds)?;
    Ok(links)
}

// All parts in order, as nodes.
fn nodes_in_order(
    alloc: Global,
    parts: &Parts<'_>,
    feeds: &[Option<SourceId>],
) -> Result<Vec<NodeId>, OrderError>
    requires long { length feeds.now ≡ length (pins_in parts.now) }
    requires known { AreKnown parts.now feeds.now }
    ensures order { IfOk result (λ v. IsOrder (length (sources_of parts.now)) (IsLinked parts.now feeds.now) v.items) }
    ensures answer { MatchResult result (λ _. (k : ℕ) → IsOnCycle (IsLinked parts.now feeds.now) k → ⊥) (RefusesNodes (IsLinked parts.now feeds.now)) }
{
    let links = few_links(alloc, parts, feeds)?;
    let sources = link_sources(alloc, &links)?;
    let tables = link_tables(alloc, &links)?;
    order(alloc, parts.sources().len() as u32, &sources, &tables)
}

// Nodes as parts.
fn parts_of_nodes(alloc: Global, nodes: &[NodeId]) -> Result<Vec<SourceId>, AllocError>
    ensures { IfOk result (λ v. v.items ≡ nodes.now) }
{
    let mut parts = Vec::with_capacity(alloc, nodes.len())?;
    for node in nodes {
        parts.push(SourceId::from_u32(node.to_u32()))?;
    }
    Ok(parts)
}

/// All parts with an output, by number, each table after the parts that feed its pins. `Loop` exactly where a table reaches
/// itself, with the number of the least that does; `feeds` has for each pin the part that feeds it. Takes time in proportion to parts and pins
/// where no table feeds many; before a `Loop` also a walk along all links for each table below it that lies between two loops.
pub fn levels(
    alloc: Global,
    parts: &Parts<'_>,
    feeds: &[Option<SourceId>],
) -> Result<Vec<SourceId>, OrderError>
    requires long { length feeds.now ≡ length (pins_in parts.now) }
    requires known { AreKnown parts.now feeds.now }
    ensures order { IfOk result (λ v. IsOrder (length (sources_of parts.now)) (IsLinked parts.now feeds.now) v.items) }
    ensures answer { (c : Circuit) → c.cells ≡ parts.now → Tells c feeds.now → AreInNameOrder parts.now → MatchResult result (λ _. Passes (TablesLoop c)) (Refuses c) }
{
    let nodes = nodes_in_order(alloc, parts, feeds)?;
    let order = parts_of_nodes(alloc, &nodes)?;
    Ok(order)
}
