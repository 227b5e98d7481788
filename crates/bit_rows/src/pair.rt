//! Device bits of muxes, one by one.

use rr_ids::{DeviceBit, MuxId};
use std::marker::Model;

/// A device bit of a mux.
#[derive(Clone, Copy, Debug, PartialEq, Eq)]
pub struct MuxBit {
    pub mux: MuxId,
    pub bit: DeviceBit,
}

impl Model for MuxBit {
    ghost use Rattle.bit_rows.specs.MuxBits.{MuxBit as Pair};

    ghost Value = { Pair };

    ghost view = { λ p. record { mux = p.mux; bit = p.bit } };

    ghost inverse = { λ p. record { mux = p.mux; bit = p.bit } };
}
