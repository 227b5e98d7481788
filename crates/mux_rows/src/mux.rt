//! Muxes by numbers.

use rr_ids::{TileId, WireId};
use std::marker::Model;

/// A mux: its tile, its place among the muxes of the tile's database, and the wire that it drives.
#[derive(Clone, Copy, Debug, PartialEq, Eq)]
pub struct MuxInfo {
    pub tile: TileId,
    pub place: u32,
    pub sink: WireId,
}

impl Model for MuxInfo {
    ghost use Rattle.mux_rows.specs.MuxTable.{MuxNumbers};

    ghost Value = { MuxNumbers };

    ghost view = { λ m. record { tile = m.tile; place = m.place; sink = m.sink } };

    ghost inverse = { λ m. record { tile = m.tile; place = m.place; sink = m.sink } };
}
