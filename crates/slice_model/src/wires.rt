//! The wires that names of kinds stand for at sites.

ghost use Rattle.std.specs.Prelude.{◌≡◌, ◌<◌, Some, IfOk, length, map, slice_get};
ghost use Rattle.cells.specs.Takes.{wire_number as wire_number_of};
ghost use Rattle.records.specs.Grid.{Tile as Record};

use routing_graph::RoutingGraph;
use rr_ids::{Id, List, Name, TileId, WireId};
use std::alloc::{AllocError, Global};

/// The number of the wire that a name of a kind stands for in a tile; one past the last wire where it stands for none.
pub(crate) fn wire_number<G: RoutingGraph>(graph: &G, t: TileId, name: &Name) -> WireId
    requires { t < length (G.graph graph.now).grid.tiles }
    ensures { (tile : Record) → slice_get (G.graph graph.now).grid.tiles t ≡ Some tile
        → result ≡ wire_number_of (G.graph graph.now) (G.device graph.now).profile.rules tile name.now }
{
    match graph.wire_named(t, name) {
        Some(wire) => wire,
        None => WireId::from_u32(graph.wires()),
    }
}

/// The numbers of the wires that names stand for, in their order.
#[tactic(auto, using(crate::proofs::Walking::map_more, crate::proofs::Walking::map_all))]
pub(crate) fn wire_numbers<G: RoutingGraph>(
    alloc: Global,
    graph: &G,
    t: TileId,
    names: &[Name],
) -> Result<List<WireId>, AllocError>
    requires { t < length (G.graph graph.now).grid.tiles }
    ensures { (tile : Record) → slice_get (G.graph graph.now).grid.tiles t ≡ Some tile
        → IfOk result (λ wires. wires ≡ map (wire_number_of (G.graph graph.now) (G.device graph.now).profile.rules tile) names.now) }
{
    let mut wires = Vec::with_capacity(alloc, names.len())?;
    for name in names {
        wires.push(wire_number(graph, t, name))?;
    }
    Ok(List::from_vec(wires))
}
