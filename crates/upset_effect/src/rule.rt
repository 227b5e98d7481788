//! Which arcs of a mux conduct after a flip.

ghost use Rattle.std.specs.Prelude.{◌≡◌, ◌<◌, Some, length, max, option_map, slice_get, if◌then◌else◌};
ghost use Rattle.patterns.specs.Bits.{bits_of_list};
ghost use Rattle.graph_lists.specs.ArcLists.{arcs_in};
ghost use Rattle.upset.specs.After.{is_affected as is_affected_of};
ghost use Rattle.cram_image.specs.Image.{bits as bits_of};
ghost use Rattle.chosen_arcs.specs.Places.{IsMost};
ghost use Rattle.upset_effect.specs.Passing.{IsRuleOf, bits_at, fits_at, passes as passes_of};

use crate::arcs::{fits, fits_with, is_present_at};
use crate::bits::is_one_among;
use cram_image::Image;
use routing_graph::RoutingGraph;
use rr_ids::{ArcId, DeviceBit, MuxId};

/// Which arcs of a mux conduct after a flip: of an affected mux those that are then present, of another those that fit with
/// at least so many bits.
#[derive(Clone, Copy)]
pub(crate) enum MuxRule {
    Present,
    Fits(usize),
}

/// Whether an arc conducts by the rule of its mux.
pub(crate) fn passes<G: RoutingGraph>(
    graph: &G,
    image: &Image,
    flips: &[DeviceBit],
    rule: MuxRule,
    a: ArcId,
) -> bool
    requires { a < length (G.graph graph.now).arcs }
    ensures { option_map (passes_of (bits_of image.now) (bits_of_list flips.now) rule) (slice_get (G.graph graph.now).arcs a) ≡ Some result }
{
    match rule {
        MuxRule::Present => is_present_at(graph, image, flips, a),
        MuxRule::Fits(bits) => fits_with(graph, image, bits, a),
    }
}

// The greater of two numbers, if an arc fits, else the second one.
fn longer(fits: bool, bits: usize, longest: usize) -> usize
    ensures { result ≡ (if fits then max bits longest else longest) }
{
    if fits {
        return bits.max(longest);
    }
    longest
}

// The most bits of an arc of a mux that fits, or 0 where none does.
fn longest_fit<G: RoutingGraph>(graph: &G, image: &Image, m: MuxId) -> usize
    requires { m < length (G.graph graph.now).muxes }
    ensures { IsMost (fits_at (G.graph graph.now) (bits_of image.now)) (bits_at (G.graph graph.now)) (arcs_in (G.graph graph.now) m) result }
{
    let mut longest = 0;
    for a in graph.arcs_of(m) {
        longest = longer(fits(graph, image, *a), graph.pattern(*a).len(), longest);
    }
    longest
}

/// Whether a pattern of a mux names one of the bits of a list.
pub(crate) fn is_affected<G: RoutingGraph>(graph: &G, flips: &[DeviceBit], m: MuxId) -> bool
    requires { m < length (G.graph graph.now).muxes }
    ensures { result ≡ is_affected_of (G.graph graph.now) (bits_of_list flips.now) m }
{
    is_one_among(flips, graph.bits_of(m))
}

/// The rule of a mux.
pub(crate) fn rule_of<G: RoutingGraph>(
    graph: &G,
    image: &Image,
    flips: &[DeviceBit],
    m: MuxId,
) -> MuxRule
    requires { m < length (G.graph graph.now).muxes }
    ensures { IsRuleOf (G.graph graph.now) (bits_of image.now) (bits_of_list flips.now) m result }
{
    graph.is_of_device();
    if is_affected(graph, flips, m) {
        return MuxRule::Present;
    }
    MuxRule::Fits(longest_fit(graph, image, m))
}
