//! Whether a flip shorts a wire.

ghost use Rattle.std.specs.Prelude.{◌≡◌, ◌<◌, ◌↔◌, IfOk, IsTrue, length};
ghost use Rattle.patterns.specs.Bits.{bits_of_list};
ghost use Rattle.cram_image.specs.Image.{bits as bits_of};
ghost use Rattle.upset.specs.Configured.{Configured};
ghost use Rattle.upset.specs.Effect.{IsShorted};
ghost use Rattle.upset_effect.specs.Reach.{IsChanged, IsDriven, IsJoined};

use crate::hits::{is_changed, live_after};
use crate::rule::is_affected;
use crate::shorts::is_joined;
use live_routing::Live;
use routing_graph::RoutingGraph;
use rr_ids::{DeviceBit, Id, WireId};
use std::alloc::{AllocError, Global};

// Whether an affected mux drives a wire.
fn is_driven<G: RoutingGraph>(graph: &G, flips: &[DeviceBit], w: WireId) -> bool
    requires { w < length (G.graph graph.now).wires }
    ensures { IsTrue result ↔ IsDriven (G.graph graph.now) (bits_of_list flips.now) w }
{
    graph.is_of_device();
    for m in graph.muxes_into(w) {
        if is_affected(graph, flips, *m) {
            return true;
        }
    }
    false
}

// Whether a wire has two sources after the flip, or is a cell output and has one.
fn is_joined_after<G: RoutingGraph>(
    alloc: Global,
    live: &Live<'_, G>,
    flips: &[DeviceBit],
    w: WireId,
) -> Result<bool, AllocError>
    requires { w < length live.now.graph.wires }
    ensures { IfOk result (λ b. IsTrue b ↔ IsJoined live.now.graph (bits_of live.now.image) (bits_of_list flips.now) w) }
{
    let after = live_after(alloc, live, flips, w)?;
    Ok(is_joined(&after, live.graph().is_output(w)))
}

// Whether a wire that an affected mux drives is shorted.
fn is_shorted_there<G: RoutingGraph>(
    alloc: Global,
    live: &Live<'_, G>,
    flips: &[DeviceBit],
    w: WireId,
) -> Result<bool, AllocError>
    requires { w < length live.now.graph.wires }
    ensures { IfOk result (λ b. IsTrue b ↔ (IsChanged live.now.graph (bits_of live.now.image) (bits_of_list flips.now) w
        × IsJoined live.now.graph (bits_of live.now.image) (bits_of_list flips.now) w)) }
{
    let changes = is_changed(alloc, live, flips, w)?;
    let joined = is_joined_after(alloc, live, flips, w)?;
    Ok(changes && joined)
}

/// Whether a flip of device bits shorts a wire: an affected mux drives it, its sources are others than before, and they are two,
/// or it is a cell output and has one. It costs what leads into the wire.
pub fn is_shorted<G: RoutingGraph>(
    alloc: Global,
    live: &Live<'_, G>,
    flips: &[DeviceBit],
    w: WireId,
) -> Result<bool, AllocError>
    ensures { IfOk result (λ b. (k : Configured) → k.graph ≡ live.now.graph → k.image ≡ bits_of live.now.image
        → IsTrue b ↔ IsShorted k (bits_of_list flips.now) w) }
{
    let graph = live.graph();
    graph.is_of_device();
    if w.to_u32() >= graph.wires() {
        return Ok(false);
    }
    if !is_driven(graph, flips, w) {
        return Ok(false);
    }
    is_shorted_there(alloc, live, flips, w)
}
