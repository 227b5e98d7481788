//! The rows of muxes under their numbers.

ghost use Rattle.std.specs.Prelude.{◌≡◌, ◌<◌, ◌^◌, length, map, IfOk};
ghost use Rattle.mux_rows.specs.MuxTable.{AreBelow};
ghost use Rattle.place_rows.specs.PlaceRows.{rows_by};

use crate::MuxInfo;
use grouped::Grouped;
use place_rows::rows_of_places;
use rr_ids::{MuxId, TileId, WireId};
use std::alloc::{AllocError, Global};

// The tiles of muxes, in order.
fn tiles_of(alloc: Global, muxes: &[MuxInfo]) -> Result<Vec<TileId>, AllocError>
    ensures { IfOk result (λ keys. keys.items ≡ map (λ m. m.tile) muxes.now) }
{
    muxes.iter().map(|mux| mux.tile).collect(alloc)
}

// The sinks of muxes, in order.
fn sinks_of(alloc: Global, muxes: &[MuxInfo]) -> Result<Vec<WireId>, AllocError>
    ensures { IfOk result (λ keys. keys.items ≡ map (λ m. m.sink) muxes.now) }
{
    muxes.iter().map(|mux| mux.sink).collect(alloc)
}

/// The muxes of each tile.
pub(crate) fn rows_by_tile(
    alloc: Global,
    count: u32,
    muxes: &[MuxInfo],
) -> Result<Grouped<TileId, MuxId>, AllocError>
    requires known { AreBelow (λ m. m.tile) count muxes.now }
    requires few { length muxes.now < 2 ^ 32 }
    ensures { IfOk result (λ rows. rows ≡ rows_by (λ m. m.tile) count muxes.now) }
{
    let keys = tiles_of(alloc, muxes)?;
    rows_of_places(alloc, count, &keys)
}

/// The muxes into each wire.
pub(crate) fn rows_by_sink(
    alloc: Global,
    count: u32,
    muxes: &[MuxInfo],
) -> Result<Grouped<WireId, MuxId>, AllocError>
    requires known { AreBelow (λ m. m.sink) count muxes.now }
    requires few { length muxes.now < 2 ^ 32 }
    ensures { IfOk result (λ rows. rows ≡ rows_by (λ m. m.sink) count muxes.now) }
{
    let keys = sinks_of(alloc, muxes)?;
    rows_of_places(alloc, count, &keys)
}
