//! Devices that are looked up by names.

ghost use Rattle.std.specs.Option.{option_copied};
ghost use Rattle.std.specs.Prelude.{◌≡◌, ◌<◌, IfOk, IfSome, length, position, slice_get};
ghost use Rattle.std.specs.Str.{bytes_eq};

use crate::kept::names_of_types;
use database_names::DatabaseNames;
use device_numbers::DeviceNumbers;
use rr_ids::{Name, TileId};
use std::alloc::{AllocError, Global};
use std::marker::Model;
use tile_grid::Tile;
use tile_names::TileNames;
use wire_names::LentRules;

/// A device with its numbers, the names of its tiles, and the names of the database of each type of tile, in order. Contracts see
/// the device and the list of its wires.
#[derive(Drop)]
pub struct NamedDevice<'a> {
    pub(crate) numbers: DeviceNumbers<'a>,
    pub(crate) rules: LentRules<'a>,
    pub(crate) tiles: TileNames<'a>,
    pub(crate) names: Vec<Option<DatabaseNames<'a>>>,
}

impl<'a> Model for NamedDevice<'a> {
    ghost use Rattle.device_numbers.specs.Numbered.{Numbered};
    ghost use Rattle.named_device.specs.Kept.{IsNamed};

    ghost Value = { Numbered };

    ghost view = { λ d. d.numbers };

    ghost invariant = { λ d. IsNamed d.numbers d.rules d.tiles d.names.items };
}

impl<'a> NamedDevice<'a> {
    /// The look-ups in a device with its numbers. Takes time in proportion to the names of its tiles and of the databases, and the
    /// logarithm of how many there are.
    #[tactic(auto, using(crate::proofs::OfTypes::dbs_of_types))]
    pub fn new(alloc: Global, numbers: DeviceNumbers<'a>) -> Result<NamedDevice<'a>, AllocError>
        ensures { IfOk result (λ named. named ≡ numbers.entry) }
    {
        let device = numbers.device();
        let profile = device.profile;
        let rules = LentRules::new(alloc, &profile.rules)?;
        let tiles = TileNames::new(alloc, device.grid)?;
        let names = names_of_types(alloc, numbers.types().types())?;
        Ok(NamedDevice {
            numbers,
            rules,
            tiles,
            names,
        })
    }

    /// The device with its numbers.
    pub fn numbers(&self) -> &DeviceNumbers<'a>
        ensures { result.now ≡ self.now }
    {
        &self.numbers
    }

    /// The tile of a number; `None` exactly where the grid has none.
    pub fn tile(&self, t: TileId) -> Option<&'a Tile>
        ensures { option_copied result ≡ slice_get self.now.device.grid.tiles t }
    {
        let device = self.numbers.device();
        let grid = device.grid;
        grid.tiles.get(t)
    }

    /// The tile of a name; `None` exactly where the grid has none. Takes no memory.
    pub fn tile_named(&self, name: &Name) -> Option<TileId>
        ensures named { result ≡ position (λ t. bytes_eq t.name name.now) self.now.device.grid.tiles }
        ensures there { IfSome result (λ t. t < length self.now.device.grid.tiles) }
    {
        self.tiles.tile_named(name)
    }
}
