//! Bits under dense numbers.

ghost use Rattle.std.specs.Prelude.{◌≡◌, ◌<◌, ◌^◌, length, OnOk, IfOk};
ghost use Rattle.fabric.specs.InOrder.{IsRising};
ghost use Rattle.bit_rows.specs.MuxBits.{bit_first};
ghost use Rattle.bit_rows.specs.Numbered.{AreNumbered, ends_with, with_last};

use crate::MuxBit;
use rr_ids::{DeviceBit, Id, Number};
use std::alloc::{AllocError, Global};

/// Marks the numbers of routing-mux bits.
pub(crate) struct OfBit;

/// The number of a routing-mux bit.
pub(crate) type BitId = Number<OfBit>;

/// Bits in bit order, each once, and the number of each pair's bit among them.
#[derive(Drop)]
pub(crate) struct NumberedBits {
    pub(crate) bits: Vec<DeviceBit>,
    pub(crate) numbers: Vec<BitId>,
}

// Whether a bit is the last one.
fn is_last(bits: &[DeviceBit], bit: DeviceBit) -> bool
    ensures { result ≡ ends_with bits.now bit }
{
    match bits.last() {
        Some(last) => bit.frame == last.frame && bit.bit == last.bit,
        None => false,
    }
}

// Adds a bit at the end unless it is the last one already.
fn push_new(bits: &mut Vec<DeviceBit>, bit: DeviceBit) -> Result<(), AllocError>
    ensures { OnOk result (bits.new.items ≡ with_last bits.old.items bit) }
{
    if is_last(bits, bit) {
        return Ok(());
    }
    bits.push(bit)?;
    Ok(())
}

/// The bits of pairs that are in bit order, and the number of each pair's bit.
pub(crate) fn number_bits(alloc: Global, pairs: &[MuxBit]) -> Result<NumberedBits, AllocError>
    requires order { IsRising bit_first pairs.now }
    requires few { length pairs.now < 2 ^ 32 }
    ensures { IfOk result (λ n. AreNumbered pairs.now n.bits.items n.numbers.items) }
{
    let mut bits = Vec::new(alloc);
    let mut numbers = Vec::with_capacity(alloc, pairs.len())?;
    for pair in pairs {
        push_new(&mut bits, pair.bit)?;
        numbers.push(BitId::from_u32((bits.len() - 1) as u32))?;
    }
    Ok(NumberedBits { bits, numbers })
}
