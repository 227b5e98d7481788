//! The lower of two muxes by the names of their tiles and sinks.

ghost use Rattle.std.specs.Prelude.{◌≡◌, ◌<◌, ℕ, IfSome, Some, length};
ghost use Rattle.std.specs.Ordering.{is_gt};
ghost use Rattle.arc_lines.specs.Differing.{lower_mux, name_at};
ghost use Rattle.design_checks.specs.RoutingChecks.{mux_name_cmp};

use routing_graph::RoutingGraph;
use rr_ids::{MuxId, Name};
use std::cmp::Ordering;

/// The name of the tile of a mux.
pub fn tile_name<G: RoutingGraph>(graph: &G, m: MuxId) -> &Name
    requires { m < length (G.graph graph.now).muxes }
    ensures { result.now ≡ (name_at (G.graph graph.now) m).tile }
{
    graph.is_of_device();
    let tile = graph.tile(graph.tile_of(m));
    &tile.name
}

/// What the database calls the sink of a mux.
pub fn sink_name<G: RoutingGraph>(graph: &G, m: MuxId) -> &Name
    requires { m < length (G.graph graph.now).muxes }
    ensures { result.now ≡ (name_at (G.graph graph.now) m).sink }
{
    graph.sink_name(m)
}

// How the names of two muxes are ordered.
fn order<G: RoutingGraph>(graph: &G, a: MuxId, b: MuxId) -> Ordering
    requires a { a < length (G.graph graph.now).muxes }
    requires b { b < length (G.graph graph.now).muxes }
    ensures { result ≡ mux_name_cmp (name_at (G.graph graph.now) a) (name_at (G.graph graph.now) b) }
{
    let tiles = tile_name(graph, a).cmp(tile_name(graph, b));
    tiles.then(sink_name(graph, a).cmp(sink_name(graph, b)))
}

/// Of a mux that may be there and another one that of the lower name: by tile, then by sink.
pub(crate) fn lower<G: RoutingGraph>(graph: &G, least: Option<MuxId>, m: MuxId) -> MuxId
    requires least { IfSome least (λ k. k < length (G.graph graph.now).muxes) }
    requires m { m < length (G.graph graph.now).muxes }
    ensures { result ≡ lower_mux (G.graph graph.now) least m }
{
    match least {
        None => m,
        Some(least) => {
            if order(graph, least, m) == Ordering::Greater {
                m
            } else {
                least
            }
        }
    }
}
