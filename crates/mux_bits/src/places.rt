//! What the bits of muxes are made of.

ghost use Rattle.fabric.specs.Device.{Device};
ghost use Rattle.record_laws.specs.KeptBits.{bits_at};
ghost use Rattle.std.specs.Option.{option_copied};
ghost use Rattle.std.specs.Prelude.{◌≡◌, option_map, slice_get};

use kept_bits::PlaceBit;
use rr_ids::TileId;
use tile_grid::Tile;

/// A device whose tiles are lent, with the bits of the muxes of their databases.
pub trait TileBits {
    /// The device.
    ghost device: { Self → Device };

    /// The tile of a number; `None` exactly where there is no such tile.
    fn tile(&self, t: TileId) -> Option<&Tile>
        ensures { option_copied result ≡ slice_get (device self.now).grid.tiles t };

    /// The bits of the mux at a place of the database of a tile, from the place where the tile's bits begin; `None` exactly where
    /// there is no such mux.
    fn bits(&self, t: TileId, place: u32) -> Option<&[PlaceBit]>
        ensures { option_map (λ bits. bits.now) result ≡ bits_at (device self.now) t place };
}
