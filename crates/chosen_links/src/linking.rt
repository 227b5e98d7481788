//! The links of an image.

ghost use Rattle.std.specs.Prelude.{◌≡◌, ◌<◌, ◌++◌, ◌∷◌, [], Bool, Some, IfOk, OnOk, filter, length, map, option_map, slice_get, if◌then◌else◌};
ghost use Rattle.fabric.specs.Graph.{GraphArc};
ghost use Rattle.fabric.specs.Links.{link_of};

use link_order::Link;
use routing_graph::RoutingGraph;
use rr_ids::{ArcId, Id};
use std::alloc::{AllocError, Global};

// An arc as a link.
fn link_at<G: RoutingGraph>(graph: &G, a: ArcId) -> Link
    requires { a < length (G.graph graph.now).arcs }
    ensures { option_map link_of (slice_get (G.graph graph.now).arcs a) ≡ Some result }
{
    let arc = graph.arc(a);
    Link {
        source: arc.source,
        sink: arc.sink,
    }
}

// Adds a link, if it is chosen.
fn add_if(links: &mut Vec<Link>, chosen: bool, link: Link) -> Result<(), AllocError>
    ensures { OnOk result (links.new.items ≡ (if chosen then links.old.items ++ link ∷ [] else links.old.items)) }
{
    if chosen {
        links.push(link)?;
    }
    Ok(())
}

// The arcs that are chosen, as links.
fn arc_links<G: RoutingGraph>(
    alloc: Global,
    graph: &G,
    chosen: &[bool],
) -> Result<Vec<Link>, AllocError>
    requires { length chosen.now ≡ length (G.graph graph.now).arcs }
    ensures { (test : GraphArc → Bool) → chosen.now ≡ map test (G.graph graph.now).arcs
        → IfOk result (λ v. v.items ≡ map link_of (filter test (G.graph graph.now).arcs)) }
{
    let mut links = Vec::new(alloc);
    for a in 0..graph.arcs() {
        add_if(
            &mut links,
            chosen[a as usize],
            link_at(graph, ArcId::from_u32(a)),
        )?;
    }
    Ok(links)
}

/// The links of the arcs that are chosen, in arc order, and behind them the fixed connections and joins. `chosen` says of each arc
/// whether it is, as `chosen_arcs` does. Takes time in proportion to the arcs and the fixed connections.
pub fn all_links<G: RoutingGraph>(
    alloc: Global,
    graph: &G,
    chosen: &[bool],
) -> Result<Vec<Link>, AllocError>
    requires { length chosen.now ≡ length (G.graph graph.now).arcs }
    ensures { (test : GraphArc → Bool) → chosen.now ≡ map test (G.graph graph.now).arcs
        → IfOk result (λ v. v.items ≡ map link_of (filter test (G.graph graph.now).arcs) ++ (G.graph graph.now).fixed) }
{
    let mut links = arc_links(alloc, graph, chosen)?;
    links.extend_from_slice(graph.fixed())?;
    Ok(links)
}
