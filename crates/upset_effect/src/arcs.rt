//! Tests of arcs.

ghost use Rattle.std.specs.Prelude.{◌≡◌, ◌<◌, Some, length, option_map, slice_get};
ghost use Rattle.patterns.specs.Bits.{bits_of_list, flipped};
ghost use Rattle.records.specs.Grid.{origin_of};
ghost use Rattle.cram_image.specs.Image.{bits as bits_of};
ghost use Rattle.chosen_links.specs.Fitting.{fits_in};
ghost use Rattle.upset_effect.specs.Passing.{fits_with as fits_with_of, present_in};

use crate::bits::is_present;
use cram_image::Image;
use routing_graph::RoutingGraph;
use rr_ids::{ArcId, DeviceBit};
use tile_grid::Tile;

// The tile of an arc.
fn tile_of<G: RoutingGraph>(graph: &G, a: ArcId) -> &Tile
    requires { a < length (G.graph graph.now).arcs }
    ensures { option_map (λ arc. arc.origin) (slice_get (G.graph graph.now).arcs a) ≡ Some (origin_of result.now) }
{
    graph.is_of_device();
    graph.tile(graph.tile_of(graph.arc(a).mux))
}

/// Whether an arc fits.
pub(crate) fn fits<G: RoutingGraph>(graph: &G, image: &Image, a: ArcId) -> bool
    requires { a < length (G.graph graph.now).arcs }
    ensures { option_map (fits_in (bits_of image.now)) (slice_get (G.graph graph.now).arcs a) ≡ Some result }
{
    image.fits(graph.pattern(a), tile_of(graph, a))
}

/// Whether an arc fits with at least so many bits.
pub(crate) fn fits_with<G: RoutingGraph>(graph: &G, image: &Image, bits: usize, a: ArcId) -> bool
    requires { a < length (G.graph graph.now).arcs }
    ensures { option_map (fits_with_of (bits_of image.now) bits) (slice_get (G.graph graph.now).arcs a) ≡ Some result }
{
    bits <= graph.pattern(a).len() && fits(graph, image, a)
}

/// Whether an arc is present once the bits of a list are flipped.
pub(crate) fn is_present_at<G: RoutingGraph>(
    graph: &G,
    image: &Image,
    flips: &[DeviceBit],
    a: ArcId,
) -> bool
    requires { a < length (G.graph graph.now).arcs }
    ensures { option_map (present_in (flipped (bits_of_list flips.now) (bits_of image.now))) (slice_get (G.graph graph.now).arcs a) ≡ Some result }
{
    is_present(image, flips, tile_of(graph, a), graph.pattern(a))
}
