//! Bits in rows by mux, and muxes in rows by bit.

ghost use Rattle.std.specs.Prelude.{◌≡◌, ◌<◌, ◌^◌, filter, length, map, IfOk};
ghost use Rattle.patterns.specs.Bits.{same_bit};
ghost use Rattle.words.specs.Members.{In};
ghost use Rattle.bit_rows.specs.MuxBits.{MuxBit as Pair, bits_by_mux};
ghost use Rattle.bit_rows.specs.Numbered.{AreNumbered};

use crate::MuxBit;
use crate::numbered::{BitId, NumberedBits};
use grouped::Grouped;
use rr_ids::{DeviceBit, MuxId};
use std::alloc::{AllocError, Global};

// The muxes of pairs, in order.
fn muxes_of(alloc: Global, pairs: &[MuxBit]) -> Result<Vec<MuxId>, AllocError>
    ensures { IfOk result (λ muxes. muxes.items ≡ map (λ p. p.mux) pairs.now) }
{
    pairs.iter().map(|pair| pair.mux).collect(alloc)
}

// The bits of pairs, in order.
fn bits_of(alloc: Global, pairs: &[MuxBit]) -> Result<Vec<DeviceBit>, AllocError>
    ensures { IfOk result (λ bits. bits.items ≡ map (λ p. p.bit) pairs.now) }
{
    pairs.iter().map(|pair| pair.bit).collect(alloc)
}

/// The bits of each mux.
pub(crate) fn rows_by_mux(
    alloc: Global,
    count: u32,
    pairs: &[MuxBit],
) -> Result<Grouped<MuxId, DeviceBit>, AllocError>
    requires known { (p : Pair) → In pairs.now p → p.mux < count }
    requires few { length pairs.now < 2 ^ 32 }
    ensures { IfOk result (λ rows. rows ≡ bits_by_mux count pairs.now) }
{
    let muxes = muxes_of(alloc, pairs)?;
    let bits = bits_of(alloc, pairs)?;
    Grouped::new(alloc, count, &muxes, &bits)
}

/// The muxes of each bit.
pub(crate) fn rows_by_bit(
    alloc: Global,
    numbered: &NumberedBits,
    pairs: &[MuxBit],
) -> Result<Grouped<BitId, MuxId>, AllocError>
    requires numbered { AreNumbered pairs.now numbered.now.bits.items numbered.now.numbers.items }
    requires few { length pairs.now < 2 ^ 32 }
    requires bits { length numbered.now.bits.items < 2 ^ 32 }
    ensures { IfOk result (λ rows. rows
        ≡ map (λ b. map (λ p. p.mux) (filter (λ p. same_bit b p.bit) pairs.now)) numbered.now.bits.items) }
{
    let muxes = muxes_of(alloc, pairs)?;
    let count = numbered.bits.len() as u32;
    Grouped::new(alloc, count, &numbered.numbers, &muxes)
}
