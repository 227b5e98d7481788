//! The numbers of the wires of slots in one tile.

ghost use Rattle.std.specs.Prelude.{◌≡◌, ◌++◌, None, length, map, replicate, OnOk};
ghost use Rattle.fabric.specs.GraphOf.{number_in};
ghost use Rattle.wire_names.specs.Kept.{number_of_name};
ghost use Rattle.wire_names.specs.Slots.{slot_at};

use device_wires::Wires;
use rr_ids::WireId;
use std::alloc::AllocError;
use tile_grid::Tile;
use tile_types::TileType;
use wire_names::Slot;

// Adds the numbers of slots at a place.
fn add_at_place(
    numbers: &mut Vec<Option<WireId>>,
    wires: &Wires,
    row: u8,
    col: u8,
    slots: &[Slot<'_>],
) -> Result<(), AllocError>
    ensures { OnOk result (numbers.new.items ≡ numbers.old.items ++ map (λ slot. number_of_name wires.now (slot_at (row, col) slot)) slots.now) }
{
    for slot in slots {
        numbers.push(wires.find(&slot.at(row, col)))?;
    }
    Ok(())
}

// Adds that slots have no wire.
fn add_none(numbers: &mut Vec<Option<WireId>>, slots: &[Slot<'_>]) -> Result<(), AllocError>
    ensures { OnOk result (numbers.new.items ≡ numbers.old.items ++ map (λ slot. None) slots.now) }
{
    for _slot in slots {
        numbers.push(None)?;
    }
    Ok(())
}

/// Adds the numbers of the wires of the slots of a type in a tile of it: `None` where the tile has no place, the name is
/// ignored, or the wire isn't there.
pub(crate) fn add_tile(
    numbers: &mut Vec<Option<WireId>>,
    wires: &Wires,
    tile: &Tile,
    kind: &TileType<'_>,
) -> Result<(), AllocError>
    ensures { OnOk result (numbers.new.items ≡ numbers.old.items ++ map (number_in wires.now kind.now.rules tile.now) kind.now.names) }
{
    let Some((row, col)) = tile.place else {
        return add_none(numbers, kind.slots());
    };
    add_at_place(numbers, wires, row, col, kind.slots())
}
