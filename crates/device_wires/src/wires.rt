//! The wires of a device under numbers.

ghost use Rattle.std.specs.Prelude.{◌≡◌, ◌≤◌, length, option_map, slice_get, IfOk, IsErrOf};
ghost use Rattle.records.specs.Limits.{most_wires};
ghost use Rattle.fabric.specs.GraphOf.{number_in as number_in_of};
ghost use Rattle.fabric.specs.InOrder.{InOrderOnce, IsRising};
ghost use Rattle.fabric.specs.WireNames.{Named};
ghost use Rattle.fabric.specs.Wires.{wire_cmp};
ghost use Rattle.wire_names.specs.Kept.{number_of_name};
ghost use Rattle.wire_names.specs.LentNames.{wire_name};
ghost use Rattle.tile_types.specs.Types.{AreTypesOf};
ghost use Rattle.device_wires.specs.Named.{named_wires, NamesTooMany};

use crate::WiresError;
use crate::gather::gather;
use device_names::Device;
use rr_ids::{Name, Rules, WireId};
use std::alloc::Global;
use std::marker::Model;
use tile_grid::Tile;
use tile_types::TileTypes;
use wire_names::{Names, WireName, place};

/// Wires in wire order, each once, under numbers from 0: local wires before wide ones, local ones by row, column, then
/// base, wide ones by base. Contracts see the list of the wires.
#[derive(Drop)]
pub struct Wires {
    names: Names,
    count: u32,
}

impl Model for Wires {
    ghost use Rattle.std.specs.Prelude.{List};
    ghost use Rattle.fabric.specs.Wires.{Wire};
    ghost use Rattle.device_wires.specs.Gathered.{AreCounted};

    ghost Value = { List Wire };

    ghost view = { λ w. w.names };

    ghost invariant = { λ w. AreCounted w.names w.count };
}

impl Wires {
    /// The number of a wire; `None` exactly where it isn't there. Takes no memory.
    pub fn find(&self, w: &WireName<'_>) -> Option<WireId>
        ensures { result ≡ number_of_name self.now (wire_name w.now) }
    {
        self.names.find(w)
    }

    /// The wire of a number; `None` exactly where the number isn't below the number of wires. Takes no memory.
    pub fn name(&self, id: WireId) -> Option<WireName<'_>>
        ensures { option_map wire_name result ≡ option_map Named (slice_get self.now id) }
    {
        self.names.name(id)
    }

    /// How many wires there are.
    pub fn len(&self) -> u32
        ensures len { result ≡ length self.now }
        ensures few { length self.now ≤ most_wires }
        ensures order { IsRising wire_cmp self.now }
    {
        self.count
    }

    /// The number of the wire that a name stands for in a tile; `None` exactly where the tile has no place, the name
    /// is ignored, or the wire isn't there. Takes no memory.
    pub fn number_in(&self, rules: &Rules, tile: &Tile, name: &Name) -> Option<WireId>
        ensures { result ≡ number_in_of self.now rules.now tile.now name.now }
    {
        let (row, col) = tile.place?;
        self.find(&place(row, col, name.bytes(), rules))
    }
}

/// The wires that a device names: the sinks and sources of its muxes, but for muxes whose sink is ignored, the ends of
/// its fixed connections and joins, but where one is ignored, and the outputs and inputs of the kinds at its sites.
/// `TooMany` exactly where they are more than 2^24.
pub fn wires_of(alloc: Global, device: &Device<'_>) -> Result<Wires, WiresError>
    ensures ok { IfOk result (λ wires. InOrderOnce wire_cmp (named_wires device.now) wires) }
    ensures few { IfOk result (λ wires. length wires ≤ most_wires) }
    ensures too_many { IsErrOf result WiresError.TooMany → NamesTooMany device.now }
{
    let types = TileTypes::of(alloc, device)?;
    wires_with(alloc, device, &types)
}

/// The wires that a device names, as `wires_of` gives them, from the types of its tiles.
pub fn wires_with(
    alloc: Global,
    device: &Device<'_>,
    types: &TileTypes<'_>,
) -> Result<Wires, WiresError>
    requires { AreTypesOf device.now types.now }
    ensures ok { IfOk result (λ wires. InOrderOnce wire_cmp (named_wires device.now) wires) }
    ensures few { IfOk result (λ wires. length wires ≤ most_wires) }
    ensures too_many { IsErrOf result WiresError.TooMany → NamesTooMany device.now }
{
    let gathered = gather(alloc, device, types)?;
    let names = gathered.numbered(alloc)?;
    let count = gathered.len();
    Ok(Wires { names, count })
}
