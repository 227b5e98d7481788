//! The bits of the muxes of tile types.

ghost use Rattle.std.specs.Prelude.{◌≡◌, IfOk, map, option_map, slice_get};
ghost use Rattle.type_bits.specs.TypeBits.{kept_at, type_bits};

use kept_bits::{PlaceBit, bits_of_muxes};
use rr_ids::{Id, List, TileId};
use std::alloc::{AllocError, Global};
use tile_types::{TileType, TileTypes};
use wire_names::LentRules;

/// The bits of each mux of a database.
pub(crate) type DatabaseBits = List<List<PlaceBit>>;

// The bits of the muxes of a type; none where it has no database.
fn bits_of_type(
    alloc: Global,
    rules: &LentRules<'_>,
    kind: &TileType<'_>,
) -> Result<DatabaseBits, AllocError>
    ensures { IfOk result (λ bits. bits ≡ type_bits rules.now kind.now) }
{
    match kind.database() {
        Some(db) => bits_of_muxes(alloc, rules, db.muxes.as_slice()),
        None => Ok(List::new(alloc)),
    }
}

/// The bits of the muxes of each type.
pub(crate) fn bits_of_types(
    alloc: Global,
    rules: &LentRules<'_>,
    types: &[TileType<'_>],
) -> Result<Vec<DatabaseBits>, AllocError>
    ensures { IfOk result (λ bits. bits.items ≡ map (type_bits rules.now) types.now) }
{
    let mut bits = Vec::with_capacity(alloc, types.len())?;
    for kind in types {
        bits.push(bits_of_type(alloc, rules, kind)?)?;
    }
    Ok(bits)
}

// The bits of the mux at a place.
fn bits_at_place(muxes: &DatabaseBits, place: u32) -> Option<&[PlaceBit]>
    ensures { option_map (λ bits. bits.now) result ≡ slice_get muxes.now place }
{
    let bits = muxes.get(place as usize)?;
    Some(bits.as_slice())
}

/// The bits of the mux at a place of the database of a tile, by the number of the tile's type.
pub(crate) fn bits_of_tile<'n>(
    bits: &'n [DatabaseBits],
    types: &TileTypes<'_>,
    tile: TileId,
    place: u32,
) -> Option<&'n [PlaceBit]>
    ensures { option_map (λ bits. bits.now) result ≡ kept_at bits.now types.now tile place }
{
    let number = *types.tiles().get(tile.to_u32() as usize)?;
    let muxes = bits.get(number.to_u32() as usize)?;
    bits_at_place(muxes, place)
}
