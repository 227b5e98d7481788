//! The least touched cell of a domain.

ghost use Rattle.std.specs.Prelude.{◌≡◌, option_copied, if◌then◌else◌};
ghost use Rattle.circuit.specs.WellFormed.{NamesApart};
ghost use Rattle.fabric.specs.Wires.{name_cmp};
ghost use Rattle.patterns.specs.Bits.{bits_of_list};
ghost use Rattle.rr_ids.specs.Domains.{domain_of};
ghost use Rattle.side_form.specs.Side.{same_domain as same_domain_of};
ghost use Rattle.bad_bits.specs.Least.{LeastOrNone, NamesOf, TouchedOf, lesser_of, pad_name, slice_name};

use cell_parts::{Cells, PadCell, SliceCell};
use rr_ids::{DeviceBit, Domain, Name};
use std::cmp::Ordering;
use upset_effect::is_one_among;

/// Whether two domains are the same.
pub(crate) fn same_domain(a: Domain, b: Domain) -> bool
    ensures { result ≡ same_domain_of (domain_of a) (domain_of b) }
{
    match (a, b) {
        (Domain::D0, Domain::D0) => true,
        (Domain::D1, Domain::D1) => true,
        (Domain::D2, Domain::D2) => true,
        _ => false,
    }
}

// The lesser of two names that may be there, by their bytes.
fn lesser<'c>(a: Option<&'c Name>, b: Option<&'c Name>) -> Option<&'c Name>
    ensures { option_copied result ≡ lesser_of (option_copied a.entry) (option_copied b.entry) }
{
    match (a, b) {
        (None, _) => b,
        (_, None) => a,
        (Some(first), Some(second)) => {
            if first.cmp(second) == Ordering::Greater {
                b
            } else {
                a
            }
        }
    }
}

// The name of a slice of the domain with a setting that names a bit that flips.
fn touched_slice<'c>(slice: &'c SliceCell, flips: &[DeviceBit], domain: Domain) -> Option<&'c Name>
    ensures { option_copied result ≡ slice_name (bits_of_list flips.now) (domain_of domain) slice.now }
{
    if same_domain(domain, slice.domain) && is_one_among(flips, slice.bits.as_slice()) {
        Some(&slice.name)
    } else {
        None
    }
}

// The name of a pad of the domain with a setting that names a bit that flips.
fn touched_pad<'c>(pad: &'c PadCell, flips: &[DeviceBit], domain: Domain) -> Option<&'c Name>
    ensures { option_copied result ≡ pad_name (bits_of_list flips.now) (domain_of domain) pad.now }
{
    if same_domain(domain, pad.domain) && is_one_among(flips, pad.bits.as_slice()) {
        Some(&pad.name)
    } else {
        None
    }
}

// The least name of the touched slices of a domain.
fn least_slice<'c>(slices: &'c [SliceCell], flips: &[DeviceBit], domain: Domain) -> Option<&'c Name>
    ensures { LeastOrNone name_cmp (NamesOf (slice_name (bits_of_list flips.now) (domain_of domain)) slices.now) (option_copied result) }
{
    let mut least = None;
    for slice in slices {
        least = lesser(least, touched_slice(slice, flips, domain));
    }
    least
}

// The least name of the touched pads of a domain.
fn least_pad<'c>(pads: &'c [PadCell], flips: &[DeviceBit], domain: Domain) -> Option<&'c Name>
    ensures { LeastOrNone name_cmp (NamesOf (pad_name (bits_of_list flips.now) (domain_of domain)) pads.now) (option_copied result) }
{
    let mut least = None;
    for pad in pads {
        least = lesser(least, touched_pad(pad, flips, domain));
    }
    least
}

/// The least name of the touched cells of a domain, where no two cells have one name.
pub(crate) fn least_touched<'c>(
    cells: &'c Cells,
    flips: &[DeviceBit],
    domain: Domain,
) -> Option<&'c Name>
    ensures { NamesApart cells.now → LeastOrNone name_cmp (TouchedOf cells.now (bits_of_list flips.now) (domain_of domain)) (option_copied result) }
{
    let slice = least_slice(cells.slices.as_slice(), flips, domain);
    let pad = least_pad(cells.pads.as_slice(), flips, domain);
    lesser(slice, pad)
}
