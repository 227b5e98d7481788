//! Muxes with their rows.

ghost use Rattle.std.specs.Prelude.{◌≡◌, ◌==◌, ◌<◌, ◌^◌, Some, length, slice_get, vec_len, IfOk};
ghost use Rattle.graph_lists.specs.Places.{places};
ghost use Rattle.mux_rows.specs.MuxTable.{AreBelow};

use crate::MuxInfo;
use crate::keys::{rows_by_sink, rows_by_tile};
use grouped::Grouped;
use rr_ids::{Id, MuxId, TileId, WireId};
use std::alloc::{AllocError, Global};
use std::marker::Model;

/// The muxes of a graph under their numbers. Contracts see how many tiles and wires there are, and the list of the muxes.
#[derive(Debug, Drop)]
pub struct MuxRows {
    muxes: Vec<MuxInfo>,
    of_tile: Grouped<TileId, MuxId>,
    of_sink: Grouped<WireId, MuxId>,
}

impl Model for MuxRows {
    ghost use Rattle.std.specs.Prelude.{length};
    ghost use Rattle.mux_rows.specs.MuxTable.{AreRowsOf, MuxTable};

    ghost Value = { MuxTable };

    ghost view = { λ m. record { tiles = length m.of_tile; wires = length m.of_sink; muxes = m.muxes.items } };

    ghost invariant = { λ m. AreRowsOf m.muxes.items m.of_tile m.of_sink };
}

impl MuxRows {
    /// The muxes of a graph with so many tiles and wires, in the order of their numbers. Takes time in proportion to muxes,
    /// tiles and wires.
    pub fn new(
        alloc: Global,
        tiles: u32,
        wires: u32,
        muxes: Vec<MuxInfo>,
    ) -> Result<MuxRows, AllocError>
        requires tiles { AreBelow (λ m. m.tile) tiles muxes.items }
        requires sinks { AreBelow (λ m. m.sink) wires muxes.items }
        requires few { vec_len muxes < 2 ^ 32 }
        ensures { IfOk result (λ rows. rows ≡ record { tiles = tiles; wires = wires; muxes = muxes.items }) }
    {
        let of_tile = rows_by_tile(alloc, tiles, &muxes)?;
        let of_sink = rows_by_sink(alloc, wires, &muxes)?;
        Ok(MuxRows {
            muxes,
            of_tile,
            of_sink,
        })
    }

    /// How many muxes there are.
    pub fn len(&self) -> usize
        ensures { result ≡ length self.now.muxes }
    {
        self.muxes.len()
    }

    /// All muxes in the order of their numbers.
    pub fn muxes(&self) -> &[MuxInfo]
        ensures { result.now ≡ self.now.muxes }
    {
        &self.muxes
    }

    /// The mux of a number.
    pub fn mux(&self, m: MuxId) -> MuxInfo
        requires { m < length self.now.muxes }
        ensures { slice_get self.now.muxes m ≡ Some result }
    {
        self.muxes[m.to_u32() as usize]
    }

    /// The muxes of a tile, in order.
    pub fn of_tile(&self, t: TileId) -> &[MuxId]
        requires { t < self.now.tiles }
        ensures { result.now ≡ places (λ m. m.tile == t) self.now.muxes }
    {
        self.of_tile.row(t)
    }

    /// The muxes that drive a wire, in order.
    pub fn of_sink(&self, w: WireId) -> &[MuxId]
        requires { w < self.now.wires }
        ensures { result.now ≡ places (λ m. m.sink == w) self.now.muxes }
    {
        self.of_sink.row(w)
    }
}
