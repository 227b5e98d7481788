//! Tiles by their names.

ghost use Rattle.database_names.specs.Places.{HoldsPlaces, place_in};
ghost use Rattle.std.specs.Prelude.{◌≡◌, ◌++◌, ◌∷◌, ◌<◌, [], ℕ, List, IfOk, IfSome, OnOk, length, map, position};
ghost use Rattle.std.specs.Str.{bytes_eq};

use rr_ids::{Id, Name, TileId};
use std::alloc::{AllocError, Global};
use std::collections::BTreeMap;
use std::marker::Model;
use tile_grid::Grid;

// The number of the first tile of each name.
type Numbers<'a> = BTreeMap<&'a [u8], u32>;

/// A grid that is lent, and the names of its tiles in order. Contracts see the record of the grid.
#[derive(Drop)]
pub struct TileNames<'a> {
    grid: &'a Grid,
    numbers: Numbers<'a>,
}

impl<'a> Model for TileNames<'a> {
    ghost use Rattle.std.specs.Prelude.{map};
    ghost use Rattle.records.specs.Grid.{Grid as Record};
    ghost use Rattle.database_names.specs.Places.{HoldsPlaces};

    ghost Value = { Record };

    ghost view = { λ n. n.grid.now };

    ghost invariant = { λ n. HoldsPlaces (map (λ t. t.name) n.grid.now.tiles) n.numbers };
}

// Adds a tile, where none of its name is there yet.
fn add<'a>(numbers: &mut Numbers<'a>, name: &'a [u8], number: u32) -> Result<(), AllocError>
    ensures { OnOk result ((names : List (List ℕ)) → length names ≡ number → HoldsPlaces names numbers.old → HoldsPlaces (names ++ name.now ∷ []) numbers.new) }
{
    if !numbers.contains_key(name) {
        numbers.insert(name, number)?;
    }
    Ok(())
}

// The number of the first tile of each name of a grid.
fn numbers_of<'a>(alloc: Global, grid: &'a Grid) -> Result<Numbers<'a>, AllocError>
    ensures { IfOk result (HoldsPlaces (map (λ t. t.name) grid.now.tiles)) }
{
    let mut numbers = Numbers::new(alloc);
    let tiles = grid.tiles.as_slice();
    for number in 0..grid.tiles.len() {
        let tile = &tiles[number as usize];
        add(&mut numbers, tile.name.bytes(), number)?;
    }
    Ok(numbers)
}

// The number of the first tile of a name.
fn number_of(numbers: &Numbers<'_>, name: &Name) -> Option<u32>
    ensures { (names : List (List ℕ)) → HoldsPlaces names numbers.now → result ≡ place_in names name.now }
{
    numbers.get(name.bytes()).copied()
}

impl<'a> TileNames<'a> {
    /// The names of the tiles of a grid.
    pub fn new(alloc: Global, grid: &'a Grid) -> Result<TileNames<'a>, AllocError>
        ensures { IfOk result (λ names. names ≡ grid.now) }
    {
        let numbers = numbers_of(alloc, grid)?;
        Ok(TileNames { grid, numbers })
    }

    /// The tile of a name; `None` exactly where the grid has none. Takes no memory.
    pub fn tile_named(&self, name: &Name) -> Option<TileId>
        ensures named { result ≡ position (λ t. bytes_eq t.name name.now) self.now.tiles }
        ensures there { IfSome result (λ t. t < length self.now.tiles) }
    {
        match number_of(&self.numbers, name) {
            Some(number) => Some(TileId::from_u32(number)),
            None => None,
        }
    }
}
