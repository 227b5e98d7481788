//! The muxes of a tile.

ghost use Rattle.std.specs.Prelude.{◌≡◌, ◌<◌, ◌^◌, ◌++◌, OnOk, length, option_map, option_to_list};
ghost use Rattle.tile_parts.specs.Slots.{muxes_in};

use crate::slots::{MuxSlots, wire_of};
use mux_rows::MuxInfo;
use rr_ids::{TileId, WireId};
use std::alloc::AllocError;

// Adds the mux at a place where its sink has a wire.
fn add_mux(
    muxes: &mut Vec<MuxInfo>,
    tile: TileId,
    place: u32,
    sink: Option<WireId>,
) -> Result<(), AllocError>
    ensures { OnOk result (muxes.new.items ≡ muxes.old.items ++ option_to_list (option_map (λ s. record { tile = tile; place = place; sink = s }) sink)) }
{
    if let Some(sink) = sink {
        muxes.push(MuxInfo { tile, place, sink })?;
    }
    Ok(())
}

/// Adds the muxes of a tile, in file order, without those whose sink has no wire.
pub fn add_muxes(
    muxes: &mut Vec<MuxInfo>,
    tile: TileId,
    row: &[Option<WireId>],
    shapes: &[MuxSlots],
) -> Result<(), AllocError>
    requires { length shapes.now < 2 ^ 32 }
    ensures { OnOk result (muxes.new.items ≡ muxes.old.items ++ muxes_in tile row.now shapes.now) }
{
    for (place, shape) in shapes.iter().enumerate() {
        add_mux(muxes, tile, place as u32, wire_of(row, shape.sink))?;
    }
    Ok(())
}
