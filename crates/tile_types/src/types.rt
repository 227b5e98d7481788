//! The types of the tiles of a device.

ghost use Rattle.std.specs.Prelude.{◌≡◌, map, Some, IfOk, OnOk};
ghost use Rattle.std.specs.Option.{option_copied};
ghost use Rattle.name_numbers.specs.Numbers.{number_of, with_name};
ghost use Rattle.tile_types.specs.Types.{AreTypesOf, types_of, type_of_tile};

use crate::{TileType, TypeId};
use device_names::Device;
use name_numbers::NameNumbers;
use rr_ids::{Id, TileId};
use std::alloc::{AllocError, Global};
use std::marker::Model;
use tile_grid::Tile;
use wire_names::LentRules;

/// The types of the tiles of a device, each once, numbered from 0 in order of first use, and the number of the type of
/// each tile. Contracts see both lists.
#[derive(Drop)]
pub struct TileTypes<'a> {
    types: Vec<TileType<'a>>,
    tiles: Vec<TypeId>,
}

impl<'a> Model for TileTypes<'a> {
    ghost use Rattle.tile_types.specs.Types.{Types};

    ghost Value = { Types };

    ghost view = { λ t. record { types = t.types.items; tiles = t.tiles.items } };
}

// The number of the type of a tile, which is added where it isn't known.
fn add_type<'a>(
    alloc: Global,
    device: &Device<'a>,
    rules: &LentRules<'_>,
    kinds: &mut NameNumbers<'a>,
    types: &mut Vec<TileType<'a>>,
    tile: &'a Tile,
) -> Result<TypeId, AllocError>
    requires rules { rules.now ≡ device.now.profile.rules }
    requires types { types.old.items ≡ types_of device.now kinds.old }
    ensures types { OnOk result (types.new.items ≡ types_of device.now kinds.new) }
    ensures kinds { OnOk result (kinds.new ≡ with_name kinds.old tile.now.kind) }
    ensures number { IfOk result (λ n. Some n ≡ number_of kinds.new tile.now.kind) }
{
    if let Some(number) = kinds.number(tile.kind.bytes()) {
        return Ok(TypeId::from_u32(number));
    }
    let number = kinds.add(&tile.kind)?;
    types.push(TileType::of(alloc, device, rules, tile)?)?;
    Ok(TypeId::from_u32(number))
}

impl<'a> TileTypes<'a> {
    /// The types of the tiles of a device: each name of a type is read once, however many tiles are of the type.
    pub fn of(alloc: Global, device: &Device<'a>) -> Result<TileTypes<'a>, AllocError>
        ensures { IfOk result (AreTypesOf device.now) }
    {
        let profile = device.profile;
        let rules = LentRules::new(alloc, &profile.rules)?;
        let grid = device.grid;
        types_of_tiles(alloc, device, &rules, grid.tiles.as_slice())
    }

    /// The type of a tile; `None` exactly where there is no such tile.
    pub fn of_tile(&self, tile: TileId) -> Option<&TileType<'a>>
        ensures { option_copied result ≡ type_of_tile self.now tile }
    {
        let number = self.tiles.get(tile.to_u32() as usize)?;
        self.types.get(number.to_u32() as usize)
    }

    /// The types in order of their numbers.
    pub fn types(&self) -> &[TileType<'a>]
        ensures { result.now ≡ self.now.types }
    {
        self.types.as_slice()
    }

    /// The number of the type of each tile, in order of the tiles.
    pub fn tiles(&self) -> &[TypeId]
        ensures { result.now ≡ self.now.tiles }
    {
        self.tiles.as_slice()
    }
}

// The types of tiles.
fn types_of_tiles<'a>(
    alloc: Global,
    device: &Device<'a>,
    rules: &LentRules<'_>,
    tiles: &'a [Tile],
) -> Result<TileTypes<'a>, AllocError>
    requires rules { rules.now ≡ device.now.profile.rules }
    requires all { tiles.now ≡ device.now.grid.tiles }
    ensures { IfOk result (AreTypesOf device.now) }
{
    let mut kinds = NameNumbers::new(alloc);
    let mut types = Vec::new(alloc);
    let mut of_tiles = Vec::with_capacity(alloc, tiles.len())?;
    for tile in tiles {
        let number = add_type(alloc, device, rules, &mut kinds, &mut types, tile)?;
        of_tiles.push(number)?;
    }
    Ok(TileTypes {
        types,
        tiles: of_tiles,
    })
}
