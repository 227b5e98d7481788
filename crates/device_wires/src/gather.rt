//! The wires that the tiles of a device name.

ghost use Rattle.std.specs.Prelude.{◌≡◌, ◌<◌, [], Some, filter_map, flat_map, length, option_map, IfErr, IfOk, IsErrOf, OnOk};
ghost use Rattle.std.specs.List.{All};
ghost use Rattle.records.specs.Limits.{most_wires};
ghost use Rattle.fabric.specs.TileWires.{named_wire, wire_in};
ghost use Rattle.wire_names.specs.Slots.{slot_at};
ghost use Rattle.tile_types.specs.Types.{AreTypesOf};
ghost use Rattle.device_wires.specs.Gathered.{gathered};
ghost use Rattle.device_wires.specs.Slots.{CanBeKeptAnywhere, slot_wires};

use crate::WiresError;
use crate::gathered::Gathered;
use device_names::Device;
use rr_ids::{Id, TileId};
use std::alloc::Global;
use tile_grid::Tile;
use tile_types::{TileType, TileTypes};
use wire_names::Slot;

// Puts in the wires that slots stand for at a place.
fn add_slots<'a>(
    wires: &mut Gathered<'a>,
    row: u8,
    col: u8,
    slots: &[Slot<'a>],
) -> Result<(), WiresError>
    requires { All CanBeKeptAnywhere slots.now }
    ensures ok { OnOk result (wires.new ≡ gathered wires.old (filter_map (λ slot. named_wire (slot_at (row, col) slot)) slots.now)) }
    ensures many { IsErrOf result WiresError.TooMany
        → most_wires < length (gathered wires.old (filter_map (λ slot. named_wire (slot_at (row, col) slot)) slots.now)) }
{
    for slot in slots {
        wires.add(&slot.at(row, col))?;
    }
    Ok(())
}

// Puts in the wires that the slots of a type stand for in a tile, which are none where it has no place.
fn add_tile<'a>(
    wires: &mut Gathered<'a>,
    tile: &Tile,
    kind: &TileType<'a>,
) -> Result<(), WiresError>
    ensures ok { OnOk result (wires.new ≡ gathered wires.old (filter_map (wire_in kind.now.rules tile.now) kind.now.names)) }
    ensures many { IsErrOf result WiresError.TooMany
        → most_wires < length (gathered wires.old (filter_map (wire_in kind.now.rules tile.now) kind.now.names)) }
{
    let Some((row, col)) = tile.place else {
        return Ok(());
    };
    add_slots(wires, row, col, kind.slots())
}

/// The wires that the tiles of a device name, slot by slot. `TooMany` only where they are more than there are numbers.
pub(crate) fn gather<'a>(
    alloc: Global,
    device: &Device<'_>,
    types: &TileTypes<'a>,
) -> Result<Gathered<'a>, WiresError>
    requires { AreTypesOf device.now types.now }
    ensures ok { IfOk result (λ wires. wires ≡ gathered [] (flat_map (slot_wires device.now) device.now.grid.tiles)) }
    ensures many { IsErrOf result WiresError.TooMany
        → most_wires < length (gathered [] (flat_map (slot_wires device.now) device.now.grid.tiles)) }
{
    let mut wires = Gathered::new(alloc);
    let grid = device.grid;
    let tiles = grid.tiles.as_slice();
    for number in 0..grid.tiles.len() {
        let kind = types.of_tile(TileId::from_u32(number)).unwrap();
        add_tile(&mut wires, &tiles[number as usize], kind)?;
    }
    Ok(wires)
}
