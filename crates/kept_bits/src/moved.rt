//! The bits of muxes, moved to their tiles.

ghost use Rattle.record_laws.specs.KeptBits.{pairs_in};
ghost use Rattle.std.specs.Prelude.{◌≡◌, ◌++◌, OnOk};

use crate::PlaceBit;
use bit_rows::MuxBit;
use rr_ids::MuxId;
use std::alloc::AllocError;
use tile_grid::Tile;

/// Adds a mux with each of its bits in a tile, in their order.
pub fn add_pairs(
    pairs: &mut Vec<MuxBit>,
    mux: MuxId,
    tile: &Tile,
    bits: &[PlaceBit],
) -> Result<(), AllocError>
    ensures { OnOk result (pairs.new.items ≡ pairs.old.items ++ pairs_in mux tile.now bits.now) }
{
    for bit in bits {
        pairs.push(MuxBit {
            mux,
            bit: bit.in_tile(tile),
        })?;
    }
    Ok(())
}
