//! The wires that names stand for.

ghost use Rattle.fabric.specs.GraphOf.{number_in as number_in_of};
ghost use Rattle.std.specs.Prelude.{◌≡◌, option_and_then, slice_get};

use crate::NamedDevice;
use device_wires::Wires;
use rr_ids::{Name, TileId, WireId};
use tile_grid::Tile;
use wire_names::LentRules;

// The number of the wire that a name stands for in a tile.
fn number_in(wires: &Wires, rules: &LentRules<'_>, tile: &Tile, name: &Name) -> Option<WireId>
    ensures { result ≡ number_in_of wires.now rules.now tile.now name.now }
{
    let (row, col) = tile.place?;
    wires.find(&rules.slot(name.bytes()).at(row, col))
}

impl<'a> NamedDevice<'a> {
    /// The number of the wire that a name stands for in a tile; `None` exactly where there is no such tile, the tile has no place, the
    /// name is ignored, or the wire isn't one of the device. Takes no memory, and time in proportion to the name.
    pub fn wire_named(&self, t: TileId, name: &Name) -> Option<WireId>
        ensures { result ≡ option_and_then (λ tile. number_in_of self.now.wires self.now.device.profile.rules tile name.now)
            (slice_get self.now.device.grid.tiles t) }
    {
        let tile = self.tile(t)?;
        number_in(self.numbers.wires(), &self.rules, tile, name)
    }
}
