//! Chosen arcs.

ghost use Rattle.std.specs.Prelude.{◌≡◌, ◌<◌, Some, IfOk, length, map, option_map, slice_get};
ghost use Rattle.chosen_links.specs.Fitting.{AreMost, fits_in};
ghost use Rattle.cram_image.specs.Image.{bits};
ghost use Rattle.fabric.specs.Links.{is_chosen as is_chosen_of};
ghost use Rattle.patterns.specs.Bits.{Bits};

use crate::fitting::fitting;
use crate::most::most_bits;
use cram_image::Image;
use routing_graph::RoutingGraph;
use rr_ids::{ArcId, Id};
use std::alloc::{AllocError, Global};

// Whether an arc is chosen: it fits with the most bits of its mux.
fn is_chosen<G: RoutingGraph>(graph: &G, fitting: &[bool], most: &[usize], a: ArcId) -> bool
    requires there { a < length (G.graph graph.now).arcs }
    requires fitting { length fitting.now ≡ length (G.graph graph.now).arcs }
    requires most { length most.now ≡ length (G.graph graph.now).muxes }
    ensures { (image : Bits) → fitting.now ≡ map (fits_in image) (G.graph graph.now).arcs → AreMost (G.graph graph.now) image most.now
        → option_map (is_chosen_of (G.graph graph.now) image) (slice_get (G.graph graph.now).arcs a) ≡ Some result }
{
    graph.is_of_device();
    let longest = most[graph.arc(a).mux.to_u32() as usize];
    longest <= graph.pattern(a).len() && fitting[a.to_u32() as usize]
}

// Of each arc whether it is chosen.
fn longest<G: RoutingGraph>(
    alloc: Global,
    graph: &G,
    fitting: &[bool],
    most: &[usize],
) -> Result<Vec<bool>, AllocError>
    requires fitting { length fitting.now ≡ length (G.graph graph.now).arcs }
    requires most { length most.now ≡ length (G.graph graph.now).muxes }
    ensures { (image : Bits) → fitting.now ≡ map (fits_in image) (G.graph graph.now).arcs → AreMost (G.graph graph.now) image most.now
        → IfOk result (λ v. v.items ≡ map (is_chosen_of (G.graph graph.now) image) (G.graph graph.now).arcs) }
{
    let mut chosen = Vec::new(alloc);
    for a in 0..graph.arcs() {
        chosen.push(is_chosen(graph, fitting, most, ArcId::from_u32(a)))?;
    }
    Ok(chosen)
}

/// Of each arc of the graph, in order, whether the image chooses it among those of its mux. Takes time in proportion to the arcs,
/// the bits of their patterns and the muxes; each bit of a pattern is looked up once.
pub fn chosen_arcs<G: RoutingGraph>(
    alloc: Global,
    graph: &G,
    image: &Image,
) -> Result<Vec<bool>, AllocError>
    ensures { IfOk result (λ v. v.items ≡ map (is_chosen_of (G.graph graph.now) (bits image.now)) (G.graph graph.now).arcs) }
{
    let fitting = fitting(alloc, graph, image)?;
    let most = most_bits(alloc, graph, &fitting)?;
    longest(alloc, graph, &fitting, &most)
}
