//! The device bits of muxes in rows.

ghost use Rattle.std.specs.Prelude.{◌≡◌, ◌<◌, ◌^◌, Some, flat_map, length, slice_get, vec_len, IfOk};
ghost use Rattle.fabric.specs.InOrder.{InOrderOnce, IsRising};
ghost use Rattle.fabric.specs.MuxBits.{bit_cmp};
ghost use Rattle.words.specs.Members.{In};
ghost use Rattle.bit_rows.specs.MuxBits.{MuxBit as Pair, bits_by_mux, mux_first, muxes_with};

use crate::MuxBit;
use crate::grouping::{rows_by_bit, rows_by_mux};
use crate::numbered::{BitId, number_bits};
use crate::sorted::in_bit_order;
use grouped::Grouped;
use rr_ids::{DeviceBit, Id, MuxId};
use std::alloc::{AllocError, Global};
use std::marker::Model;

/// The device bits of muxes. Contracts see for each mux the list of its bits.
#[derive(Drop)]
pub struct BitRows {
    by_mux: Grouped<MuxId, DeviceBit>,
    // in bit order, each once
    bits: Vec<DeviceBit>,
    by_bit: Grouped<BitId, MuxId>,
}

impl Model for BitRows {
    ghost use Rattle.std.specs.Prelude.{List};
    ghost use Rattle.patterns.specs.Bits.{DeviceBit as Bit};
    ghost use Rattle.bit_rows.specs.Numbered.{AreInverse};

    ghost Value = { List (List Bit) };

    ghost view = { λ b. b.by_mux };

    ghost invariant = { λ b. AreInverse b.by_mux b.bits.items b.by_bit };
}

impl BitRows {
    /// The bits of so many muxes, from pairs of a mux and a bit that are in order by mux, then bit. Takes time in proportion
    /// to pairs and muxes.
    pub fn new(alloc: Global, count: u32, pairs: Vec<MuxBit>) -> Result<BitRows, AllocError>
        requires order { IsRising mux_first pairs.items }
        requires known { (p : Pair) → In pairs.items p → p.mux < count }
        requires few { vec_len pairs < 2 ^ 32 }
        ensures { IfOk result (λ rows. rows ≡ bits_by_mux count pairs.items) }
    {
        let by_mux = rows_by_mux(alloc, count, &pairs)?;
        let sorted = in_bit_order(alloc, pairs)?;
        let numbered = number_bits(alloc, &sorted)?;
        let by_bit = rows_by_bit(alloc, &numbered, &sorted)?;
        Ok(BitRows {
            by_mux,
            bits: numbered.bits,
            by_bit,
        })
    }

    /// All bits in bit order, each once; takes no memory.
    pub fn bits(&self) -> &[DeviceBit]
        ensures { InOrderOnce bit_cmp (flat_map (λ row. row) self.now) result.now }
    {
        &self.bits
    }

    /// The bits of a mux in bit order, each once; takes no memory.
    pub fn bits_of(&self, m: MuxId) -> &[DeviceBit]
        requires { m < length self.now }
        ensures { Some result.now ≡ slice_get self.now m }
    {
        self.by_mux.row(m)
    }

    /// The muxes that have a bit, in order; none where no mux has it. Takes no memory, and time in proportion to the
    /// logarithm of the number of bits.
    pub fn muxes_of_bit(&self, b: DeviceBit) -> &[MuxId]
        ensures { result.now ≡ muxes_with self.now b }
    {
        match self.bits.binary_search(&b) {
            Ok(place) => self.by_bit.row(BitId::from_u32(place as u32)),
            Err(_) => &[],
        }
    }
}
