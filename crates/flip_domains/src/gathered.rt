//! The domains of wires and of touched cells.

ghost use Rattle.std.specs.Prelude.{◌≡◌, ℕ, None, Some, get_or, true};
ghost use Rattle.std.specs.List.{list_any};
ghost use Rattle.words.specs.Members.{In};
ghost use Rattle.patterns.specs.Bits.{bits_of_list};
ghost use Rattle.circuit.specs.Cells.{PadCell as Pad, SliceCell as Slice};
ghost use Rattle.flip_domains.specs.Sets.{Gains};

use crate::Domains;
use cell_parts::{PadCell, SliceCell};
use domain_map::Labels;
use rr_ids::{DeviceBit, WireId};
use upset_effect::is_one_among;

/// Adds the domains of wires.
pub(crate) fn add_wires(domains: &mut Domains, labels: &Labels, wires: &[WireId])
    ensures { Gains domains.old domains.new (λ d. (w : ℕ) × (In wires.now w × (get_or labels.now.domains w None ≡ Some d))) }
{
    for w in wires {
        domains.add_some(labels.of(*w));
    }
}

/// Adds the domains of the slices with a setting that names a bit that flips.
pub(crate) fn add_slices(domains: &mut Domains, slices: &[SliceCell], flips: &[DeviceBit])
    ensures { Gains domains.old domains.new
        (λ d. (s : Slice) × (In slices.now s × ((list_any (bits_of_list flips.now) s.bits ≡ true) × (s.domain ≡ d)))) }
{
    for slice in slices {
        let is_touched = is_one_among(flips, slice.bits.as_slice());
        domains.add_if(is_touched, slice.domain);
    }
}

/// Adds the domains of the pads with a setting that names a bit that flips.
pub(crate) fn add_pads(domains: &mut Domains, pads: &[PadCell], flips: &[DeviceBit])
    ensures { Gains domains.old domains.new
        (λ d. (p : Pad) × (In pads.now p × ((list_any (bits_of_list flips.now) p.bits ≡ true) × (p.domain ≡ d)))) }
{
    for pad in pads {
        let is_touched = is_one_among(flips, pad.bits.as_slice());
        domains.add_if(is_touched, pad.domain);
    }
}
