//! Bits counted from the place where their tile's bits begin.

ghost use Rattle.std.specs.Prelude.{◌≡◌};
ghost use Rattle.record_laws.specs.KeptBits.{moved, place_bit};
ghost use Rattle.records.specs.Grid.{origin_of};

use rr_ids::DeviceBit;
use std::marker::Model;
use text_cut::PatternBit;
use tile_grid::Tile;

/// A bit of a tile, ordered by frame, then bit.
#[derive(Clone, Copy, PartialEq, Eq, PartialOrd, Ord)]
pub struct PlaceBit {
    frame: u16,
    bit: u16,
}

impl Model for PlaceBit {
    ghost use Rattle.patterns.specs.Bits.{DeviceBit as Bit};

    ghost Value = { Bit };

    ghost view = { λ b. record { frame = b.frame; bit = b.bit } };

    ghost inverse = { λ b. record { frame = b.frame; bit = b.bit } };
}

impl PlaceBit {
    /// Where a bit of a pattern stands.
    pub fn of(p: &PatternBit) -> PlaceBit
        ensures { result ≡ place_bit p.now }
    {
        PlaceBit {
            frame: p.frame,
            bit: p.bit,
        }
    }

    /// The device bit in a tile.
    pub fn in_tile(&self, tile: &Tile) -> DeviceBit
        ensures { result ≡ moved (origin_of tile.now) self.now }
    {
        DeviceBit {
            frame: tile.start_frame + u32::from(self.frame),
            bit: tile.start_bit + u32::from(self.bit),
        }
    }
}
