//! The sources of shorted wires.

ghost use Rattle.std.specs.Prelude.{◌≡◌, ◌<◌, ◌↔◌, ◌⊎◌, ◌++◌, ℕ, IfOk, OnOk, IsTrue, length, nat_le, if◌then◌else◌};
ghost use Rattle.words.specs.Members.{In};
ghost use Rattle.patterns.specs.Bits.{bits_of_list};
ghost use Rattle.cram_image.specs.Image.{bits as bits_of};
ghost use Rattle.upset_effect.specs.Reach.{IsAfter, IsHitIn, IsJoined, IsShortSourceIn};

use crate::hits::live_after;
use live_routing::Live;
use routing_graph::RoutingGraph;
use rr_ids::{DeviceBit, WireId};
use std::alloc::{AllocError, Global};

// How many sources short a wire: two, or one where it is a cell output.
fn too_many(is_output: bool) -> usize
    ensures { result ≡ (if is_output then 1 else 2) }
{
    if is_output { 1 } else { 2 }
}

/// Whether sources short a wire.
pub(crate) fn is_joined(after: &[WireId], is_output: bool) -> bool
    ensures { result ≡ nat_le (if is_output then 1 else 2) (length after.now) }
{
    too_many(is_output) <= after.len()
}

// Adds sources, if they short their wire.
fn add_all(sources: &mut Vec<WireId>, is_joined: bool, after: &[WireId]) -> Result<(), AllocError>
    ensures { OnOk result (sources.new.items ≡ (if is_joined then sources.old.items ++ after.now else sources.old.items)) }
{
    if is_joined {
        sources.extend_from_slice(after)?;
    }
    Ok(())
}

// Adds the sources of a wire after the flip, if they short it.
fn add_short<G: RoutingGraph>(
    alloc: Global,
    live: &Live<'_, G>,
    flips: &[DeviceBit],
    w: WireId,
    sources: &mut Vec<WireId>,
) -> Result<(), AllocError>
    requires { w < length live.now.graph.wires }
    ensures { OnOk result ((x : ℕ) → In sources.new.items x ↔ (In sources.old.items x
        ⊎ (IsJoined live.now.graph (bits_of live.now.image) (bits_of_list flips.now) w
        × IsAfter live.now.graph (bits_of live.now.image) (bits_of_list flips.now) w x))) }
{
    let after = live_after(alloc, live, flips, w)?;
    let joined = is_joined(&after, live.graph().is_output(w));
    add_all(sources, joined, &after)
}

/// The sources of shorted wires among those that are hit, which costs what leads into these.
pub(crate) fn short_sources<G: RoutingGraph>(
    alloc: Global,
    live: &Live<'_, G>,
    flips: &[DeviceBit],
    hit: &[WireId],
) -> Result<Vec<WireId>, AllocError>
    requires { (w : ℕ) → In hit.now w ↔ IsHitIn live.now.graph (bits_of live.now.image) (bits_of_list flips.now) w }
    ensures { IfOk result (λ v. (x : ℕ) → In v.items x ↔ IsShortSourceIn live.now.graph (bits_of live.now.image) (bits_of_list flips.now) x) }
{
    live.graph().is_of_device();
    let mut sources = Vec::new(alloc);
    for w in hit {
        add_short(alloc, live, flips, *w, &mut sources)?;
    }
    Ok(sources)
}
