//! The wires that affected muxes drive.

ghost use Rattle.std.specs.Prelude.{◌≡◌, ◌<◌, ◌++◌, ℕ, IfOk, OnOk, flat_map, length};
ghost use Rattle.words.specs.Members.{In};
ghost use Rattle.patterns.specs.Bits.{bits_of_list};
ghost use Rattle.upset_effect.specs.Driven.{bit_sinks, sink_at};
ghost use Rattle.upset_effect.specs.Reach.{AreThose, IsDriven};

use crate::order::in_order;
use routing_graph::RoutingGraph;
use rr_ids::{DeviceBit, MuxId, WireId};
use std::alloc::{AllocError, Global};

// Adds the wires that some muxes drive.
fn add_sinks<G: RoutingGraph>(
    graph: &G,
    muxes: &[MuxId],
    sinks: &mut Vec<WireId>,
) -> Result<(), AllocError>
    requires { (m : ℕ) → In muxes.now m → m < length (G.graph graph.now).muxes }
    ensures { OnOk result (sinks.new.items ≡ sinks.old.items ++ flat_map (sink_at (G.graph graph.now)) muxes.now) }
{
    for m in muxes {
        sinks.push(graph.sink_of(*m))?;
    }
    Ok(())
}

// Adds the wires that the muxes with one of some bits drive.
fn add_bits<G: RoutingGraph>(
    graph: &G,
    flips: &[DeviceBit],
    sinks: &mut Vec<WireId>,
) -> Result<(), AllocError>
    ensures { OnOk result (sinks.new.items ≡ sinks.old.items ++ flat_map (bit_sinks (G.graph graph.now)) flips.now) }
{
    for b in flips {
        add_sinks(graph, graph.muxes_of_bit(*b), sinks)?;
    }
    Ok(())
}

/// The wires that affected muxes drive, in order.
pub(crate) fn affected_sinks<G: RoutingGraph>(
    alloc: Global,
    graph: &G,
    flips: &[DeviceBit],
) -> Result<Vec<WireId>, AllocError>
    ensures { IfOk result (λ v. AreThose (IsDriven (G.graph graph.now) (bits_of_list flips.now)) v.items) }
{
    graph.is_of_device();
    let mut sinks = Vec::new(alloc);
    add_bits(graph, flips, &mut sinks)?;
    Ok(in_order(sinks))
}
