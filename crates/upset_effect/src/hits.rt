//! The wires that are hit.

ghost use Rattle.std.specs.Prelude.{◌≡◌, ◌<◌, ◌↔◌, ℕ, IfOk, IsTrue, length};
ghost use Rattle.std.specs.Ordering.{nat_cmp};
ghost use Rattle.words.specs.Members.{In};
ghost use Rattle.patterns.specs.Bits.{bits_of_list};
ghost use Rattle.fabric.specs.InOrder.{IsRising};
ghost use Rattle.cram_image.specs.Image.{bits as bits_of};
ghost use Rattle.upset_effect.specs.Reach.{AreThose, IsAfter, IsChanged, IsHitIn};

use crate::sinks::affected_sinks;
use crate::sources::{add_if, sources_after};
use live_routing::Live;
use routing_graph::RoutingGraph;
use rr_ids::{DeviceBit, WireId};
use std::alloc::{AllocError, Global};

/// The sources of a wire of a live routing once the bits of a list are flipped, in order.
pub(crate) fn live_after<G: RoutingGraph>(
    alloc: Global,
    live: &Live<'_, G>,
    flips: &[DeviceBit],
    w: WireId,
) -> Result<Vec<WireId>, AllocError>
    requires { w < length live.now.graph.wires }
    ensures { IfOk result (λ v. AreThose (IsAfter live.now.graph (bits_of live.now.image) (bits_of_list flips.now) w) v.items) }
{
    sources_after(alloc, live.graph(), live.image(), flips, w)
}

// Whether two lists of wires are the same.
fn are_same(first: &[WireId], second: &[WireId]) -> bool
    ensures { IsTrue result ↔ (first.now ≡ second.now) }
{
    first == second
}

/// Whether the sources of a wire are others after the flip than before.
pub(crate) fn is_changed<G: RoutingGraph>(
    alloc: Global,
    live: &Live<'_, G>,
    flips: &[DeviceBit],
    w: WireId,
) -> Result<bool, AllocError>
    requires { w < length live.now.graph.wires }
    ensures { IfOk result (λ b. IsTrue b ↔ IsChanged live.now.graph (bits_of live.now.image) (bits_of_list flips.now) w) }
{
    let after = live_after(alloc, live, flips, w)?;
    Ok(!are_same(&after, live.drivers(w)))
}

// Those of some wires whose sources are others after the flip.
fn changed<G: RoutingGraph>(
    alloc: Global,
    live: &Live<'_, G>,
    flips: &[DeviceBit],
    wires: &[WireId],
) -> Result<Vec<WireId>, AllocError>
    requires within { (w : ℕ) → In wires.now w → w < length live.now.graph.wires }
    requires rising { IsRising nat_cmp wires.now }
    ensures { IfOk result (λ v. AreThose (λ w. In wires.now w × IsChanged live.now.graph (bits_of live.now.image) (bits_of_list flips.now) w) v.items) }
{
    let mut hit = Vec::new(alloc);
    for w in wires {
        let changes = is_changed(alloc, live, flips, *w)?;
        add_if(&mut hit, changes, *w)?;
    }
    Ok(hit)
}

/// The wires that are hit, in order.
pub(crate) fn hit_wires<G: RoutingGraph>(
    alloc: Global,
    live: &Live<'_, G>,
    flips: &[DeviceBit],
) -> Result<Vec<WireId>, AllocError>
    ensures { IfOk result (λ v. AreThose (IsHitIn live.now.graph (bits_of live.now.image) (bits_of_list flips.now)) v.items) }
{
    let graph = live.graph();
    graph.is_of_device();
    let sinks = affected_sinks(alloc, graph, flips)?;
    changed(alloc, live, flips, &sinks)
}
