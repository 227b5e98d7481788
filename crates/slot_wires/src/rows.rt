//! The numbers of the wires of slots, tile by tile.

ghost use Rattle.std.specs.Prelude.{◌≡◌, ◌<◌, ◌≤◌, Some, length, map, slice_get, slice_index, slice_range, IfOk};
ghost use Rattle.grouped.specs.Rows.{AreEnds, start_at};
ghost use Rattle.tile_types.specs.Types.{AreTypesOf};
ghost use Rattle.slot_wires.specs.Numbers.{number_at, slot_numbers};

use crate::numbers::add_tile;
use device_names::Device;
use device_wires::Wires;
use rr_ids::{Id, TileId, WireId};
use std::alloc::{AllocError, Global};
use std::marker::Model;
use tile_types::{SlotId, TileTypes};

/// The number of the wire of each slot of each tile, a row for each tile, in one vector. Contracts see the list of the
/// rows.
#[derive(Drop)]
pub struct SlotWires {
    // where the row of each tile ends
    ends: Vec<usize>,
    numbers: Vec<Option<WireId>>,
}

impl Model for SlotWires {
    ghost use Rattle.std.specs.Prelude.{ℕ, List, Option, length};
    ghost use Rattle.grouped.specs.Rows.{rows_from, AreEnds};

    ghost Value = { List (List (Option ℕ)) };

    ghost view = { λ s. rows_from 0 s.ends.items s.numbers.items };

    ghost invariant = { λ s. AreEnds 0 s.ends.items (length s.numbers.items) };
}

impl SlotWires {
    /// The numbers of the wires of a device's slots: each slot of each tile is looked up once.
    pub fn of(
        alloc: Global,
        device: &Device<'_>,
        types: &TileTypes<'_>,
        wires: &Wires,
    ) -> Result<SlotWires, AllocError>
        requires { AreTypesOf device.now types.now }
        ensures { IfOk result (λ slots. slots ≡ map (slot_numbers device.now wires.now) device.now.grid.tiles) }
    {
        let grid = device.grid;
        let tiles = grid.tiles.as_slice();
        let mut ends = Vec::with_capacity(alloc, tiles.len())?;
        let mut numbers = Vec::new(alloc);
        for number in 0..grid.tiles.len() {
            let kind = types.of_tile(TileId::from_u32(number)).unwrap();
            add_tile(&mut numbers, wires, &tiles[number as usize], kind)?;
            ends.push(numbers.as_slice().len())?;
        }
        Ok(SlotWires { ends, numbers })
    }

    /// How many tiles there are.
    pub fn len(&self) -> usize
        ensures { result ≡ length self.now }
    {
        self.ends.as_slice().len()
    }

    /// The numbers of the slots of a tile, in order of the slots.
    pub fn tile(&self, tile: TileId) -> &[Option<WireId>]
        requires { tile < length self.now }
        ensures { Some result.now ≡ slice_get self.now tile }
    {
        row_at(&self.ends, &self.numbers, tile.to_u32() as usize)
    }

    /// The number of the wire of a slot in a tile; `None` where it has none, or there is no such slot.
    pub fn number(&self, tile: TileId, slot: SlotId) -> Option<WireId>
        requires { tile < length self.now }
        ensures { result ≡ number_at self.now tile slot }
    {
        *self.tile(tile).get(slot.to_u32() as usize)?
    }
}

// The row of a place.
#[tactic(auto, using(grouped::proofs::Cut::row_within))]
fn row_at<'a>(ends: &[usize], numbers: &'a [Option<WireId>], place: usize) -> &'a [Option<WireId>]
    requires ends { AreEnds 0 ends.now (length numbers.now) }
    requires known { place < length ends.now }
    ensures { result.now ≡ slice_range numbers.now (start_at 0 ends.now place) (slice_index ends.now place) }
{
    part(numbers, start_of(ends, place), ends[place])
}

// Where the row of a place begins.
fn start_of(ends: &[usize], place: usize) -> usize
    requires { place < length ends.now }
    ensures { result ≡ start_at 0 ends.now place }
{
    if place == 0 { 0 } else { ends[place - 1] }
}

// The numbers from one place up to another one.
fn part(numbers: &[Option<WireId>], start: usize, end: usize) -> &[Option<WireId>]
    requires order { start ≤ end }
    requires within { end ≤ length numbers.now }
    ensures { result.now ≡ slice_range numbers.now start end }
{
    &numbers[start..end]
}
