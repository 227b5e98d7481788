//! The effect of a flip.

ghost use Rattle.std.specs.Prelude.{◌≡◌, ◌⊎◌, ℕ, IfOk};
ghost use Rattle.words.specs.Members.{In};
ghost use Rattle.patterns.specs.Bits.{bits_of_list};
ghost use Rattle.cram_image.specs.Image.{bits as bits_of};
ghost use Rattle.upset.specs.Configured.{Configured};
ghost use Rattle.upset.specs.Roots.{IsRoot};
ghost use Rattle.upset_effect.specs.Effects.{IsEffectOf};
ghost use Rattle.upset_effect.specs.Reach.{AreThose, IsDisturbedIn, IsHitIn};

use crate::Effect;
use crate::behind::behind;
use crate::hits::hit_wires;
use crate::order::in_order;
use crate::shorts::short_sources;
use crate::touched::touched_cells;
use cell_parts::Cells;
use live_routing::Live;
use routing_graph::RoutingGraph;
use rr_ids::{DeviceBit, WireId};
use std::alloc::{AllocError, Global};

// The wires of two lists, in order, each once.
fn joined(alloc: Global, first: &[WireId], second: &[WireId]) -> Result<Vec<WireId>, AllocError>
    ensures { IfOk result (λ v. AreThose (λ w. In first.now w ⊎ In second.now w) v.items) }
{
    let mut wires = Vec::new(alloc);
    wires.extend_from_slice(first)?;
    wires.extend_from_slice(second)?;
    Ok(in_order(wires))
}

// The wires that are disturbed, in order, once those are known that are hit.
fn disturbed_wires<G: RoutingGraph>(
    alloc: Global,
    live: &Live<'_, G>,
    flips: &[DeviceBit],
    hit: &[WireId],
) -> Result<Vec<WireId>, AllocError>
    requires { AreThose (IsHitIn live.now.graph (bits_of live.now.image) (bits_of_list flips.now)) hit.now }
    ensures { IfOk result (λ v. AreThose (IsDisturbedIn live.now.graph (bits_of live.now.image) (bits_of_list flips.now)) v.items) }
{
    let sources = short_sources(alloc, live, flips, hit)?;
    let behind = behind(alloc, live, &sources)?;
    joined(alloc, hit, &behind)
}

/// The wires where the disturbance of a flip begins, in order, each once: those that are hit, and the sources of shorted ones.
/// They have all the domains that the disturbed wires have.
pub fn roots<G: RoutingGraph>(
    alloc: Global,
    live: &Live<'_, G>,
    flips: &[DeviceBit],
) -> Result<Vec<WireId>, AllocError>
    ensures { IfOk result (λ v. (k : Configured) → k.graph ≡ live.now.graph → k.image ≡ bits_of live.now.image
        → AreThose (IsRoot k (bits_of_list flips.now)) v.items) }
{
    let hit = hit_wires(alloc, live, flips)?;
    let sources = short_sources(alloc, live, flips, &hit)?;
    joined(alloc, &hit, &sources)
}

/// What a flip of device bits does in a live routing, from scratch and exactly. A bit that stands twice in the list flips once.
/// It costs what it touches: what leads into the wires that affected muxes drive, what lies behind shorts, and the cells; each
/// bit of a pattern there is looked for among the flips, which are few.
pub fn effect<'c, G: RoutingGraph>(
    alloc: Global,
    live: &Live<'_, G>,
    cells: &'c Cells,
    flips: &[DeviceBit],
) -> Result<Effect<'c>, AllocError>
    ensures { IfOk result (λ e. (k : Configured) → k.graph ≡ live.now.graph → k.image ≡ bits_of live.now.image → k.cells ≡ cells.now
        → IsEffectOf k (bits_of_list flips.now) e) }
{
    let hit = hit_wires(alloc, live, flips)?;
    let disturbed = disturbed_wires(alloc, live, flips, &hit)?;
    let touched = touched_cells(alloc, cells, flips)?;
    Ok(Effect {
        hit,
        disturbed,
        touched,
    })
}
