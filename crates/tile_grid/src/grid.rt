//! Grids.

ghost use Rattle.std.specs.Prelude.{◌≡◌, map, length, IfOk};
ghost use Rattle.serde_json.specs.View.{members_view};
ghost use Rattle.words.specs.OrMemory.{OrMemory};
ghost use Rattle.words.specs.Firsts.{unless_fault};
ghost use Rattle.json_forms.specs.Values.{members};
ghost use Rattle.json_forms.specs.Each.{each_or_fault};
ghost use Rattle.json_forms.specs.Tiles.{tile_of};
ghost use Rattle.json_forms.specs.Grid.{grid_of, grid_of_members as grid_of_members_spec, count_fault, extent_of, places_of, type_count as type_count_of};
ghost use Rattle.tile_grid.specs.Faults.{fault_of};

use crate::tiles::read_tile;
use crate::{GridError, Tile};
use json_values::FormError;
use rr_ids::{Limit, Text, TileId, TypedVec};
use serde_json::{Map, Value};
use std::alloc::{AllocError, Global};
use std::collections::BTreeSet;
use std::marker::Model;

/// The grid of a device: its tiles in byte order of their names, and the height and width that hold all their
/// places. Contracts see the record of the fields.
#[derive(Drop)]
pub struct Grid {
    pub tiles: TypedVec<TileId, Tile>,
    pub height: u16,
    pub width: u16,
}

impl Model for Grid {
    ghost use Rattle.records.specs.Grid.{Grid as Record};

    ghost Value = { Record };

    ghost view = { λ g. record { tiles = g.tiles; height = g.height; width = g.width } };
}

// The most tiles of a grid, and the most types of tiles.
const MOST_TILES: usize = 65_536;

const MOST_TYPES: usize = 512;

// The tiles that the members of a file are.
fn tiles_of(alloc: Global, file: &Map<String, Value>) -> Result<Vec<Tile>, GridError>
    ensures { OrMemory (λ tiles. tiles.items) fault_of result
        (each_or_fault tile_of (members (members_view file.now.entries))) }
{
    let mut tiles = Vec::with_capacity(alloc, file.len())?;
    for (name, value) in file {
        tiles.push(read_tile(alloc, name.as_str(), value)?)?;
    }
    Ok(tiles)
}

// How many types tiles have.
fn type_count(alloc: Global, tiles: &[Tile]) -> Result<usize, AllocError>
    ensures { IfOk result (λ count. count ≡ type_count_of tiles.now) }
{
    let mut kinds = BTreeSet::<&[u8]>::new(alloc);
    for tile in tiles {
        kinds.insert(tile.kind.bytes())?;
    }
    Ok(kinds.len())
}

// The height and width that hold the places of tiles.
fn extents(tiles: &[Tile]) -> (u16, u16)
    ensures height { result.0 ≡ extent_of (map (λ place. place.0) (places_of tiles.now)) }
    ensures width { result.1 ≡ extent_of (map (λ place. place.1) (places_of tiles.now)) }
{
    let mut height = 0;
    let mut width = 0;
    for tile in tiles {
        if let Some((row, col)) = tile.place {
            height = height.max(u16::from(row) + 1);
            width = width.max(u16::from(col) + 1);
        }
    }
    (height, width)
}

// The fault of too many tiles, or else of too many types.
fn counted(alloc: Global, tiles: &[Tile]) -> Result<(), GridError>
    ensures { OrMemory (λ done. done) fault_of result (unless_fault (count_fault tiles.now) tt) }
{
    if tiles.len() > MOST_TILES {
        return Err(GridError::TooLarge(Limit::Tiles));
    }
    if type_count(alloc, tiles)? > MOST_TYPES {
        return Err(GridError::TooLarge(Limit::Types));
    }
    Ok(())
}

// The grid that the members of a file are.
#[tactic(auto, unfolding(json_forms::specs::Grid::grid_of_members))]
fn grid_of_members(alloc: Global, file: &Map<String, Value>) -> Result<Grid, GridError>
    ensures { OrMemory (λ grid. grid) fault_of result
        (grid_of_members_spec (members (members_view file.now.entries))) }
{
    let tiles = tiles_of(alloc, file)?;
    counted(alloc, tiles.as_slice())?;
    let (height, width) = extents(tiles.as_slice());
    Ok(Grid {
        tiles: TypedVec::from_vec(tiles),
        height,
        width,
    })
}

/// The grid that the bytes of a file are read as, with `serde_json`; else their first fault.
pub fn read(alloc: Global, bytes: &[u8]) -> Result<Grid, GridError>
    ensures { OrMemory (λ grid. grid) fault_of result (grid_of bytes.now) }
{
    let value = match json_values::reading(alloc, bytes) {
        Ok(value) => value,
        Err(FormError::Unfit) => return Err(GridError::NotJson),
        Err(FormError::Memory) => return Err(GridError::Memory),
    };
    let Some(file) = value.as_object() else {
        return Err(GridError::BadShape(Text::new(alloc, b".")?));
    };
    grid_of_members(alloc, file)
}
