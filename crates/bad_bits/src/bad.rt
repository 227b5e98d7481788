//! Bad bits and places.

use rr_ids::{DeviceBit, Domain, Name, WireId};
use std::marker::Model;

/// Where a domain is disturbed: at a wire, or where there is none in a touched cell, by its name.
#[derive(Drop)]
pub enum Place<'c> {
    Wire(WireId),
    Cell(&'c Name),
}

/// A bad bit, with its two least domains and a place of each. Contracts see the record of the fields, with wires by number.
#[derive(Drop)]
pub struct BadBit<'c> {
    pub bit: DeviceBit,
    pub first: Domain,
    pub first_at: Place<'c>,
    pub second: Domain,
    pub second_at: Place<'c>,
}

impl<'c> Model for BadBit<'c> {
    ghost use Rattle.bad_bits.specs.Numbered.{NumberedBad};
    ghost use Rattle.bad_bits.specs.Views.{place_view};
    ghost use Rattle.rr_ids.specs.Domains.{domain_of};

    ghost Value = { NumberedBad };

    ghost view = { λ b. record {
      bit = b.bit;
      first = domain_of b.first;
      first_at = place_view b.first_at;
      second = domain_of b.second;
      second_at = place_view b.second_at;
    } };
}
