//! The muxes of a device by numbers.

ghost use Rattle.std.specs.Prelude.{◌≡◌, ◌<◌, ◌≤◌, ◌++◌, IfOk, IsErrOf, OnOk, length};
ghost use Rattle.device_numbers.specs.Numbered.{muxes_at, row_at, shape_at};
ghost use Rattle.graph_numbers.specs.Numbers.{mux_numbers};
ghost use Rattle.records.specs.Limits.{most_muxes};
ghost use Rattle.tile_parts.specs.Slots.{muxes_in};

use crate::{CountError, DeviceNumbers};
use mux_rows::MuxInfo;
use rr_ids::{Id, TileId, WireId};
use std::alloc::Global;
use tile_parts::{MuxSlots, add_muxes};

// The most muxes of a graph.
const MOST_MUXES: usize = 8_388_608;

// Adds the muxes of a tile, unless there are too many then.
fn add_tile(
    muxes: &mut Vec<MuxInfo>,
    tile: TileId,
    row: &[Option<WireId>],
    shape: &[MuxSlots],
) -> Result<(), CountError>
    ensures ok { OnOk result (muxes.new.items ≡ muxes.old.items ++ muxes_in tile row.now shape.now) }
    ensures few { OnOk result (length muxes.new.items ≤ most_muxes) }
    ensures too_many { IsErrOf result CountError.TooMany → most_muxes < length (muxes.old.items ++ muxes_in tile row.now shape.now) }
{
    if shape.len() >= 4_294_967_296 {
        return Err(CountError::Memory);
    }
    add_muxes(muxes, tile, row, shape)?;
    if muxes.len() > MOST_MUXES {
        return Err(CountError::TooMany);
    }
    Ok(())
}

impl<'a> DeviceNumbers<'a> {
    /// The wires of the slots of a tile, in order of the slots.
    pub fn row(&self, tile: TileId) -> &[Option<WireId>]
        requires { tile < length self.now.device.grid.tiles }
        ensures { result.now ≡ row_at self.now tile }
    {
        self.slots.tile(tile)
    }

    // The muxes of the type of a tile by slots.
    pub(crate) fn shape(&self, tile: TileId) -> &[MuxSlots]
        requires { tile < length self.now.device.grid.tiles }
        ensures { result.now ≡ shape_at self.now tile }
    {
        self.shapes.of_tile(&self.types, tile).unwrap()
    }

    // Adds the muxes of the tile of a number.
    #[tactic(auto, using(crate::proofs::Tiles::tile_muxes))]
    fn add_muxes_of(&self, muxes: &mut Vec<MuxInfo>, tile: TileId) -> Result<(), CountError>
        requires { tile < length self.now.device.grid.tiles }
        ensures ok { OnOk result (muxes.new.items ≡ muxes.old.items ++ muxes_at self.now tile) }
        ensures few { OnOk result (length muxes.new.items ≤ most_muxes) }
        ensures too_many { IsErrOf result CountError.TooMany → most_muxes < length (muxes.old.items ++ muxes_at self.now tile) }
    {
        add_tile(muxes, tile, self.row(tile), self.shape(tile))
    }

    /// How many tiles there are.
    pub fn tiles(&self) -> u32
        ensures { result ≡ length self.now.device.grid.tiles }
    {
        let device = self.device;
        let grid = device.grid;
        grid.tiles.len()
    }

    /// The muxes of the device by tile, then in file order, without those whose sink is ignored; `TooMany` exactly where they are
    /// more than 2^23.
    #[tactic(auto, using(crate::proofs::Tiles::one_tile_more, crate::proofs::Tiles::none_left, crate::proofs::Tiles::too_many))]
    pub fn muxes(&self, alloc: Global) -> Result<Vec<MuxInfo>, CountError>
        ensures ok { IfOk result (λ muxes. muxes.items ≡ mux_numbers self.now.device self.now.wires) }
        ensures few { IfOk result (λ muxes. length muxes.items ≤ most_muxes) }
        ensures too_many { IsErrOf result CountError.TooMany → most_muxes < length (mux_numbers self.now.device self.now.wires) }
    {
        let mut muxes = Vec::new(alloc);
        for number in 0..self.tiles() {
            self.add_muxes_of(&mut muxes, TileId::from_u32(number))?;
        }
        Ok(muxes)
    }
}
