//! All bad bits.

ghost use Rattle.std.specs.Prelude.{◌≡◌, IfOk, List, option_map};
ghost use Rattle.circuit.specs.WellFormed.{NamesApart};
ghost use Rattle.cram_image.specs.Image.{bits as bits_of};
ghost use Rattle.design_answers.specs.BadBits.{AreBadPlaces};
ghost use Rattle.domain_map.specs.Labels.{AreLabels};
ghost use Rattle.flip_domains.specs.Sets.{has_domain};
ghost use Rattle.records.specs.Side.{D0, D1, D2};
ghost use Rattle.reports.specs.Reports.{BadPlace};
ghost use Rattle.rr_ids.specs.Domains.{domain_of};
ghost use Rattle.upset.specs.Configured.{Configured, circuit_of};
ghost use Rattle.bad_bits.specs.Found.{BadOrNone, two_of};
ghost use Rattle.bad_bits.specs.Placed.{ArePlaced};

use crate::BadBit;
use crate::places::bad_at;
use cell_parts::Cells;
use domain_map::Labels;
use flip_domains::{Domains, domains_of_flips};
use live_routing::Live;
use routing_graph::RoutingGraph;
use rr_ids::{DeviceBit, Domain};
use std::alloc::{AllocError, Global};
use upset_effect::effect;

// The two least domains of a set; none where it has fewer than two.
fn two_least(domains: Domains) -> Option<(Domain, Domain)>
    ensures { option_map (λ p. (domain_of p.0, domain_of p.1)) result ≡ two_of (has_domain domains D0) (has_domain domains D1) (has_domain domains D2) }
{
    match (
        domains.has(Domain::D0),
        domains.has(Domain::D1),
        domains.has(Domain::D2),
    ) {
        (true, true, _) => Some((Domain::D0, Domain::D1)),
        (true, false, true) => Some((Domain::D0, Domain::D2)),
        (false, true, true) => Some((Domain::D1, Domain::D2)),
        _ => None,
    }
}

// A bit that is bad, with its two least domains and their places; none where it isn't bad.
fn bad_bit<'c, G: RoutingGraph>(
    alloc: Global,
    live: &Live<'_, G>,
    labels: &Labels,
    cells: &'c Cells,
    bit: DeviceBit,
) -> Result<Option<BadBit<'c>>, AllocError>
    ensures { IfOk result (λ found. (k : Configured) → k.graph ≡ live.now.graph → k.image ≡ bits_of live.now.image → k.cells ≡ cells.now
        → AreLabels (circuit_of k) labels.now → NamesApart k.cells → BadOrNone k bit found) }
{
    let flips = [bit];
    let domains = domains_of_flips(alloc, live, labels, cells, &flips)?;
    let Some((first, second)) = two_least(domains) else {
        return Ok(None);
    };
    let effect = effect(alloc, live, cells, &flips)?;
    Ok(bad_at(labels, cells, &effect, &flips, bit, first, second))
}

/// All bad bits of a live routing, in order, each with its two least domains and the place of each, where labels are those of the
/// wires and no two cells have one name. It takes memory in proportion to them. Each bit costs what its flip touches.
pub fn bad_bits<'c, G: RoutingGraph>(
    alloc: Global,
    live: &Live<'_, G>,
    labels: &Labels,
    cells: &'c Cells,
) -> Result<Vec<BadBit<'c>>, AllocError>
    ensures { IfOk result (λ v. (k : Configured) → k.graph ≡ live.now.graph → k.image ≡ bits_of live.now.image → k.cells ≡ cells.now
        → AreLabels (circuit_of k) labels.now → NamesApart k.cells → (bad : List BadPlace) × (ArePlaced k.graph v.items bad × AreBadPlaces k bad)) }
{
    let graph = live.graph();
    graph.is_of_device();
    let mut bad = Vec::new(alloc);
    for bit in graph.bits() {
        if let Some(found) = bad_bit(alloc, live, labels, cells, *bit)? {
            bad.push(found)?;
        }
    }
    Ok(bad)
}
