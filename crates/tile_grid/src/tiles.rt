//! Tiles.

ghost use Rattle.std.specs.Prelude.{◌≡◌, ◌≤◌, IfSome};
ghost use Rattle.serde_json.specs.View.{view};
ghost use Rattle.json_forms.specs.Tiles.{tile_number_in, tile_in, tile_of};
ghost use Rattle.json_forms.specs.Places.{place_of};
ghost use Rattle.json_values.specs.Reads.{Reads};
ghost use Rattle.words.specs.OrMemory.{OrMemory};
ghost use Rattle.records.specs.Limits.{most_in_tile};
ghost use Rattle.tile_grid.specs.Placed.{with_place, place_if_fits};
ghost use Rattle.tile_grid.specs.Faults.{fault_of};

use crate::{GridError, places};
use json_values::{FormError, member_as};
use rr_ids::{Limit, Name, Text};
use serde_json::Value;
use std::alloc::Global;
use std::marker::Model;

/// A tile of a grid: its name, its type, its row and column where its name has them, its number of frames
/// (`cols`) and of bits in a frame (`rows`), and the first frame and bit. The four numbers are at most
/// 2,147,483,647. Contracts see the record of the fields.
#[derive(Drop)]
pub struct Tile {
    pub name: Name,
    pub kind: Name,
    pub place: Option<(u8, u8)>,
    pub cols: u32,
    pub rows: u32,
    pub start_frame: u32,
    pub start_bit: u32,
}

impl Model for Tile {
    ghost use Rattle.records.specs.Grid.{Tile as Record};
    ghost use Rattle.tile_grid.specs.Small.{IsSmall};

    ghost Value = { Record };

    ghost view = { λ t. record { name = t.name; kind = t.kind; place = t.place; cols = t.cols; rows = t.rows; start_frame = t.start_frame; start_bit = t.start_bit } };

    ghost invariant = { λ t. IsSmall t.cols t.rows t.start_frame t.start_bit };
}

// The greatest number of a tile.
const MOST_IN_TILE: u32 = 2_147_483_647;

// A number of a tile; none where it is missing, not whole or too great.
fn number(tile: &Value, name: &str) -> Option<u32>
    ensures number { result ≡ tile_number_in name.now (view tile.now) }
    ensures small { IfSome result (λ n. n ≤ most_in_tile) }
{
    json_values::whole(tile.get(name)?, MOST_IN_TILE)
}

// The tile that a member of the file is, but for its place.
#[tactic(auto, unfolding(json_forms::specs::Tiles::tile_in))]
fn unplaced(alloc: Global, name: &str, tile: &Value) -> Result<Tile, FormError>
    ensures { Reads (with_place (place_of name.now)) result
        (tile_in (record { name = name.now; value = view tile.now })) }
{
    Ok(Tile {
        name: json_values::named(alloc, name.as_bytes())?,
        kind: member_as::<Name>(alloc, tile, "type")?,
        place: None,
        cols: number(tile, "cols").ok_or(FormError::Unfit)?,
        rows: number(tile, "rows").ok_or(FormError::Unfit)?,
        start_frame: number(tile, "start_frame").ok_or(FormError::Unfit)?,
        start_bit: number(tile, "start_bit").ok_or(FormError::Unfit)?,
    })
}

// The place of a tile by its name, or that it has none; nothing where its row or column is above 255.
fn place(name: &str) -> Option<Option<(u8, u8)>>
    ensures { result ≡ place_if_fits (place_of name.now) }
{
    let Some((row, col)) = places::place_of(name.as_bytes()) else {
        return Some(None);
    };
    match (u8::try_from(row), u8::try_from(col)) {
        (Ok(row), Ok(col)) => Some(Some((row, col))),
        _ => None,
    }
}

/// The tile that a member of the file is read as.
#[tactic(auto, unfolding(json_forms::specs::Tiles::tile_of))]
pub(crate) fn read_tile(alloc: Global, name: &str, value: &Value) -> Result<Tile, GridError>
    ensures { OrMemory (λ tile. tile) fault_of result
        (tile_of (record { name = name.now; value = view value.now })) }
{
    let mut tile = match unplaced(alloc, name, value) {
        Ok(tile) => tile,
        Err(FormError::Unfit) => {
            return Err(GridError::BadShape(Text::new(alloc, name.as_bytes())?));
        }
        Err(FormError::Memory) => return Err(GridError::Memory),
    };
    tile.place = place(name).ok_or(GridError::TooLarge(Limit::Place))?;
    Ok(tile)
}
