//! The names of the databases of tile types.

ghost use Rattle.named_device.specs.Kept.{kept_at};
ghost use Rattle.std.specs.Option.{option_copied};
ghost use Rattle.std.specs.Prelude.{◌≡◌, IfOk, map};

use database_names::DatabaseNames;
use rr_ids::{Id, TileId};
use std::alloc::{AllocError, Global};
use tile_types::{TileType, TileTypes};

// The names of the database of a type, where it has one.
fn names_of_type<'a>(
    alloc: Global,
    kind: &TileType<'a>,
) -> Result<Option<DatabaseNames<'a>>, AllocError>
    ensures { IfOk result (λ names. names ≡ kind.now.db) }
{
    match kind.database() {
        Some(db) => Ok(Some(DatabaseNames::new(alloc, db)?)),
        None => Ok(None),
    }
}

/// The names of the database of each type.
pub(crate) fn names_of_types<'a>(
    alloc: Global,
    types: &[TileType<'a>],
) -> Result<Vec<Option<DatabaseNames<'a>>>, AllocError>
    ensures { IfOk result (λ names. names.items ≡ map (λ t. t.db) types.now) }
{
    let mut names = Vec::with_capacity(alloc, types.len())?;
    for kind in types {
        names.push(names_of_type(alloc, kind)?)?;
    }
    Ok(names)
}

/// The names of the database of a tile, by the number of its type.
pub(crate) fn names_of_tile<'n, 'a>(
    names: &'n [Option<DatabaseNames<'a>>],
    types: &TileTypes<'_>,
    tile: TileId,
) -> Option<&'n DatabaseNames<'a>>
    ensures { option_copied result ≡ kept_at names.now types.now tile }
{
    let number = *types.tiles().get(tile.to_u32() as usize)?;
    let kept = names.get(number.to_u32() as usize)?;
    kept.as_ref()
}
