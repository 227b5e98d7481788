//! The sources of a wire after a flip.

ghost use Rattle.std.specs.Prelude.{◌≡◌, ◌<◌, ◌++◌, ◌∷◌, [], ℕ, IfOk, OnOk, flat_map, length, if◌then◌else◌};
ghost use Rattle.words.specs.Members.{In};
ghost use Rattle.patterns.specs.Bits.{bits_of_list};
ghost use Rattle.cram_image.specs.Image.{bits as bits_of};
ghost use Rattle.upset_effect.specs.Passing.{mux_sources, passes as passes_of, source_by};
ghost use Rattle.upset_effect.specs.Reach.{AreThose, IsAfter};

use crate::order::in_order;
use crate::rule::{MuxRule, passes, rule_of};
use cram_image::Image;
use routing_graph::RoutingGraph;
use rr_ids::{ArcId, DeviceBit, MuxId, WireId};
use std::alloc::{AllocError, Global};

/// Adds a wire, if it passes.
pub(crate) fn add_if(wires: &mut Vec<WireId>, passes: bool, w: WireId) -> Result<(), AllocError>
    ensures { OnOk result (wires.new.items ≡ (if passes then wires.old.items ++ w ∷ [] else wires.old.items)) }
{
    if passes {
        wires.push(w)?;
    }
    Ok(())
}

// Adds the source of an arc, if it conducts by the rule of its mux.
fn add_arc<G: RoutingGraph>(
    graph: &G,
    image: &Image,
    flips: &[DeviceBit],
    rule: MuxRule,
    a: ArcId,
    sources: &mut Vec<WireId>,
) -> Result<(), AllocError>
    requires { a < length (G.graph graph.now).arcs }
    ensures { OnOk result (sources.new.items
        ≡ sources.old.items ++ source_by (G.graph graph.now) (passes_of (bits_of image.now) (bits_of_list flips.now) rule) a) }
{
    let source = graph.arc(a).source;
    add_if(sources, passes(graph, image, flips, rule, a), source)
}

// Adds the sources of those arcs that conduct by the rule of their mux.
fn add_arcs<G: RoutingGraph>(
    graph: &G,
    image: &Image,
    flips: &[DeviceBit],
    rule: MuxRule,
    arcs: &[ArcId],
    sources: &mut Vec<WireId>,
) -> Result<(), AllocError>
    requires { (a : ℕ) → In arcs.now a → a < length (G.graph graph.now).arcs }
    ensures { OnOk result (sources.new.items
        ≡ sources.old.items ++ flat_map (source_by (G.graph graph.now) (passes_of (bits_of image.now) (bits_of_list flips.now) rule)) arcs.now) }
{
    for a in arcs {
        add_arc(graph, image, flips, rule, *a, sources)?;
    }
    Ok(())
}

// Adds the sources of the arcs of a mux that conduct after the flip.
fn add_mux<G: RoutingGraph>(
    graph: &G,
    image: &Image,
    flips: &[DeviceBit],
    m: MuxId,
    sources: &mut Vec<WireId>,
) -> Result<(), AllocError>
    requires { m < length (G.graph graph.now).muxes }
    ensures { OnOk result (sources.new.items
        ≡ sources.old.items ++ mux_sources (G.graph graph.now) (bits_of image.now) (bits_of_list flips.now) m) }
{
    let rule = rule_of(graph, image, flips, m);
    add_arcs(graph, image, flips, rule, graph.arcs_of(m), sources)
}

// Adds those of some muxes.
fn add_muxes<G: RoutingGraph>(
    graph: &G,
    image: &Image,
    flips: &[DeviceBit],
    muxes: &[MuxId],
    sources: &mut Vec<WireId>,
) -> Result<(), AllocError>
    requires { (m : ℕ) → In muxes.now m → m < length (G.graph graph.now).muxes }
    ensures { OnOk result (sources.new.items
        ≡ sources.old.items ++ flat_map (mux_sources (G.graph graph.now) (bits_of image.now) (bits_of_list flips.now)) muxes.now) }
{
    for m in muxes {
        add_mux(graph, image, flips, *m, sources)?;
    }
    Ok(())
}

/// The sources of a wire once the bits of a list are flipped, in order. It costs what leads into the wire.
pub(crate) fn sources_after<G: RoutingGraph>(
    alloc: Global,
    graph: &G,
    image: &Image,
    flips: &[DeviceBit],
    w: WireId,
) -> Result<Vec<WireId>, AllocError>
    requires { w < length (G.graph graph.now).wires }
    ensures { IfOk result (λ v. AreThose (IsAfter (G.graph graph.now) (bits_of image.now) (bits_of_list flips.now) w) v.items) }
{
    graph.is_of_device();
    let mut sources = Vec::new(alloc);
    add_muxes(graph, image, flips, graph.muxes_into(w), &mut sources)?;
    sources.extend_from_slice(graph.fixed_into(w))?;
    Ok(in_order(sources))
}
