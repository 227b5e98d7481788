//! The place of a domain.

ghost use Rattle.std.specs.Prelude.{◌≡◌, find, option_map};
ghost use Rattle.circuit.specs.WellFormed.{NamesApart};
ghost use Rattle.domain_map.specs.Labels.{AreLabels};
ghost use Rattle.patterns.specs.Bits.{bits_of_list};
ghost use Rattle.rr_ids.specs.Domains.{domain_of};
ghost use Rattle.upset.specs.Configured.{Configured, circuit_of};
ghost use Rattle.upset_effect.specs.Effects.{IsEffectOf};
ghost use Rattle.bad_bits.specs.Found.{PlaceOrNone, PlacesOrNone};
ghost use Rattle.bad_bits.specs.Least.{has_label};
ghost use Rattle.bad_bits.specs.Views.{place_view};

use crate::touched::{least_touched, same_domain};
use crate::{BadBit, Place};
use cell_parts::Cells;
use domain_map::Labels;
use rr_ids::{DeviceBit, Domain, WireId};
use upset_effect::Effect;

// Whether a wire has a domain.
fn is_of(labels: &Labels, wire: WireId, domain: Domain) -> bool
    ensures { result ≡ has_label labels.now (domain_of domain) wire }
{
    match labels.of(wire) {
        Some(other) => same_domain(domain, other),
        None => false,
    }
}

// The first of some wires that has a domain.
fn first_of(labels: &Labels, wires: &[WireId], domain: Domain) -> Option<WireId>
    ensures { result ≡ find (has_label labels.now (domain_of domain)) wires.now }
{
    wires
        .iter()
        .copied()
        .find(|wire| is_of(labels, *wire, domain))
}

/// The place of a domain of flips with their effect: the least disturbed wire of the domain, or where there is none the least
/// touched cell; none where the flips don't have the domain.
pub(crate) fn place_of<'c>(
    labels: &Labels,
    cells: &'c Cells,
    effect: &Effect<'_>,
    flips: &[DeviceBit],
    domain: Domain,
) -> Option<Place<'c>>
    ensures { (k : Configured) → k.cells ≡ cells.now → AreLabels (circuit_of k) labels.now → NamesApart k.cells
        → IsEffectOf k (bits_of_list flips.now) effect.now
        → PlaceOrNone k (bits_of_list flips.now) (domain_of domain) (option_map place_view result) }
{
    if let Some(wire) = first_of(labels, &effect.disturbed, domain) {
        return Some(Place::Wire(wire));
    }
    match least_touched(cells, flips, domain) {
        Some(name) => Some(Place::Cell(name)),
        None => None,
    }
}

/// A bit with two domains of its flips, with their effect, and the place of each; none where the flips don't have both.
pub(crate) fn bad_at<'c>(
    labels: &Labels,
    cells: &'c Cells,
    effect: &Effect<'_>,
    flips: &[DeviceBit],
    bit: DeviceBit,
    first: Domain,
    second: Domain,
) -> Option<BadBit<'c>>
    ensures { (k : Configured) → k.cells ≡ cells.now → AreLabels (circuit_of k) labels.now → NamesApart k.cells
        → IsEffectOf k (bits_of_list flips.now) effect.now
        → PlacesOrNone k (bits_of_list flips.now) bit (domain_of first) (domain_of second) result }
{
    match place_of(labels, cells, effect, flips, first) {
        None => None,
        Some(first_at) => match place_of(labels, cells, effect, flips, second) {
            None => None,
            Some(second_at) => Some(BadBit {
                bit,
                first,
                first_at,
                second,
                second_at,
            }),
        },
    }
}
