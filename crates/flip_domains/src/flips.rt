//! The domains of a flip.

ghost use Rattle.std.specs.Prelude.{◌≡◌, ◌↔◌, IfOk, IsTrue, true};
ghost use Rattle.patterns.specs.Bits.{bits_of_list};
ghost use Rattle.records.specs.Side.{Domain as Copy};
ghost use Rattle.circuit.specs.WellFormed.{NamesApart};
ghost use Rattle.upset.specs.Configured.{Configured, circuit_of};
ghost use Rattle.upset.specs.Safe.{FlipsHave, IsBad};
ghost use Rattle.cram_image.specs.Image.{bits as bits_of};
ghost use Rattle.domain_map.specs.Labels.{AreLabels};
ghost use Rattle.flip_domains.specs.Sets.{has_domain};

use crate::Domains;
use crate::gathered::{add_pads, add_slices, add_wires};
use cell_parts::Cells;
use domain_map::Labels;
use live_routing::Live;
use routing_graph::RoutingGraph;
use rr_ids::DeviceBit;
use std::alloc::{AllocError, Global};
use upset_effect::roots;

/// The domains of a flip of device bits, exactly, where labels are those of the wires and no two cells have one name: those of the
/// wires that are hit, of the sources of shorted ones and of the touched cells, since those further back add none. It costs what
/// the flip touches.
pub fn domains_of_flips<G: RoutingGraph>(
    alloc: Global,
    live: &Live<'_, G>,
    labels: &Labels,
    cells: &Cells,
    flips: &[DeviceBit],
) -> Result<Domains, AllocError>
    ensures { IfOk result (λ s. (k : Configured) → k.graph ≡ live.now.graph → k.image ≡ bits_of live.now.image → k.cells ≡ cells.now
        → AreLabels (circuit_of k) labels.now → NamesApart k.cells
        → (d : Copy) → (has_domain s d ≡ true) ↔ FlipsHave k (bits_of_list flips.now) d) }
{
    live.feeds();
    let wires = roots(alloc, live, flips)?;
    let mut domains = Domains::none();
    add_wires(&mut domains, labels, &wires);
    add_slices(&mut domains, cells.slices.as_slice(), flips);
    add_pads(&mut domains, cells.pads.as_slice(), flips);
    Ok(domains)
}

/// Whether a flip of device bits is bad, so that it has two domains, where labels are those of the wires and no two cells have one
/// name.
pub fn is_bad<G: RoutingGraph>(
    alloc: Global,
    live: &Live<'_, G>,
    labels: &Labels,
    cells: &Cells,
    flips: &[DeviceBit],
) -> Result<bool, AllocError>
    ensures { IfOk result (λ b. (k : Configured) → k.graph ≡ live.now.graph → k.image ≡ bits_of live.now.image → k.cells ≡ cells.now
        → AreLabels (circuit_of k) labels.now → NamesApart k.cells → IsTrue b ↔ IsBad k (bits_of_list flips.now)) }
{
    let domains = domains_of_flips(alloc, live, labels, cells, flips)?;
    Ok(domains.has_two())
}
