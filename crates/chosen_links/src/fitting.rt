//! Which arcs fit.

ghost use Rattle.std.specs.Prelude.{◌≡◌, ◌<◌, Some, IfOk, length, map, option_map, slice_get};
ghost use Rattle.chosen_links.specs.Fitting.{fits_in};
ghost use Rattle.cram_image.specs.Image.{bits};
ghost use Rattle.records.specs.Grid.{origin_of};

use cram_image::Image;
use routing_graph::RoutingGraph;
use rr_ids::{ArcId, Id};
use std::alloc::{AllocError, Global};
use tile_grid::Tile;

// The tile of an arc.
fn tile_of<G: RoutingGraph>(graph: &G, a: ArcId) -> &Tile
    requires { a < length (G.graph graph.now).arcs }
    ensures { option_map (λ arc. arc.origin) (slice_get (G.graph graph.now).arcs a) ≡ Some (origin_of result.now) }
{
    graph.is_of_device();
    graph.tile(graph.tile_of(graph.arc(a).mux))
}

// Whether an arc fits.
fn fits<G: RoutingGraph>(graph: &G, image: &Image, a: ArcId) -> bool
    requires { a < length (G.graph graph.now).arcs }
    ensures { option_map (fits_in (bits image.now)) (slice_get (G.graph graph.now).arcs a) ≡ Some result }
{
    image.fits(graph.pattern(a), tile_of(graph, a))
}

/// Of each arc whether it fits.
pub(crate) fn fitting<G: RoutingGraph>(
    alloc: Global,
    graph: &G,
    image: &Image,
) -> Result<Vec<bool>, AllocError>
    ensures { IfOk result (λ v. v.items ≡ map (fits_in (bits image.now)) (G.graph graph.now).arcs) }
{
    let mut fitting = Vec::new(alloc);
    for a in 0..graph.arcs() {
        fitting.push(fits(graph, image, ArcId::from_u32(a)))?;
    }
    Ok(fitting)
}
