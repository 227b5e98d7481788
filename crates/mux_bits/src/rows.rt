//! The bits of muxes in rows.

ghost use Rattle.fabric.specs.Graph.{Graph};
ghost use Rattle.record_laws.specs.KeptBits.{mux_pairs, pairs_from};
ghost use Rattle.record_laws.specs.Records.{AreMuxesOf};
ghost use Rattle.row_laws.specs.BitRows.{AreBitRows};
ghost use Rattle.std.specs.Prelude.{◌≡◌, ◌<◌, ◌^◌, ◌++◌, IfOk, OnOk, length, vec_len};

use crate::TileBits;
use bit_rows::{BitRows, MuxBit};
use kept_bits::add_pairs;
use mux_rows::MuxInfo;
use rr_ids::{Id, MuxId};
use std::alloc::{AllocError, Global};

// Adds the mux of a number with each of its bits.
fn add_mux<D: TileBits>(
    device: &D,
    pairs: &mut Vec<MuxBit>,
    number: MuxId,
    mux: &MuxInfo,
) -> Result<(), AllocError>
    ensures { OnOk result (pairs.new.items ≡ pairs.old.items ++ mux_pairs (D.device device.now) number mux.now) }
{
    let Some(tile) = device.tile(mux.tile) else {
        return Ok(());
    };
    let Some(bits) = device.bits(mux.tile, mux.place) else {
        return Ok(());
    };
    add_pairs(pairs, number, tile, bits)
}

// The same, unless there are more pairs then than there are numbers: the muxes of at most 2^25 arcs with at most 32 bits each have
// fewer.
fn add_few<D: TileBits>(
    device: &D,
    pairs: &mut Vec<MuxBit>,
    number: MuxId,
    mux: &MuxInfo,
) -> Result<(), AllocError>
    ensures pairs { OnOk result (pairs.new.items ≡ pairs.old.items ++ mux_pairs (D.device device.now) number mux.now) }
    ensures few { OnOk result (length pairs.new.items < 2 ^ 32) }
{
    add_mux(device, pairs, number, mux)?;
    if pairs.len() >= 4_294_967_296 {
        return Err(AllocError);
    }
    Ok(())
}

// Muxes with each of their bits, in order.
#[tactic(auto, using(record_laws::proofs::Pairs::one_mux_more, record_laws::proofs::Pairs::no_mux_left))]
fn pairs_of<D: TileBits>(
    alloc: Global,
    device: &D,
    muxes: &[MuxInfo],
) -> Result<Vec<MuxBit>, AllocError>
    requires { length muxes.now < 2 ^ 32 }
    ensures pairs { IfOk result (λ pairs. pairs.items ≡ pairs_from (D.device device.now) 0 muxes.now) }
    ensures few { IfOk result (λ pairs. vec_len pairs < 2 ^ 32) }
{
    let mut pairs = Vec::new(alloc);
    for (number, mux) in muxes.iter().enumerate() {
        add_few(device, &mut pairs, MuxId::from_u32(number as u32), mux)?;
    }
    Ok(pairs)
}

/// The device bits of muxes in rows: where the muxes are those of the graph of the device, those of its muxes, in order, each once.
/// Takes time in proportion to the bits of rows.
pub fn bits_of_graph<D: TileBits>(
    alloc: Global,
    device: &D,
    muxes: &[MuxInfo],
) -> Result<BitRows, AllocError>
    requires { length muxes.now < 2 ^ 32 }
    ensures { IfOk result (λ rows. (g : Graph) → AreMuxesOf (D.device device.now) g muxes.now → AreBitRows g rows) }
{
    let pairs = pairs_of(alloc, device, muxes)?;
    let rows = BitRows::new(alloc, muxes.len() as u32, pairs)?;
    Ok(rows)
}
