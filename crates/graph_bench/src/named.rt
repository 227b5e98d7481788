//! Names that are found in databases.

ghost use Rattle.std.specs.Prelude.{◌≡◌};

use anyhow::Result;
use bits_db::{EnumSetting, Mux, TileDb};
use database_names::DatabaseNames;
use device_names::Databases;
use std::alloc::Global;
use tile_grid::Grid;

// How many sources of a mux are found.
fn sources_found(names: &DatabaseNames<'_>, db: &TileDb, mux: &Mux) -> u32
    requires { names.now ≡ db.now }
{
    let Some(place) = names.mux(&mux.sink) else {
        return 0;
    };
    if place >= db.muxes.len() {
        return 0;
    }
    let mut count = 0u32;
    for arc in mux.arcs.as_slice() {
        if names.arc(place, &arc.source).is_some() {
            count = count.saturating_add(1);
        }
    }
    count
}

// How many values of an enum are found.
fn values_found(names: &DatabaseNames<'_>, setting: &EnumSetting) -> u32 {
    if names.enum_setting(&setting.name).is_none() {
        return 0;
    }
    let mut count = 0u32;
    for option in setting.options.as_slice() {
        if names.option(&setting.name, &option.value).is_some() {
            count = count.saturating_add(1);
        }
    }
    count
}

// How many names of muxes are found.
fn muxes_found(names: &DatabaseNames<'_>, db: &TileDb) -> u32
    requires { names.now ≡ db.now }
{
    let mut count = 0u32;
    for mux in db.muxes.as_slice() {
        count = count.saturating_add(sources_found(names, db, mux));
    }
    count
}

// How many words, and values of enums, are found.
fn settings_found(names: &DatabaseNames<'_>, db: &TileDb) -> u32 {
    let mut count = 0u32;
    for word in db.words.as_slice() {
        if names.word(&word.name).is_some() {
            count = count.saturating_add(1);
        }
    }
    for setting in db.enums.as_slice() {
        count = count.saturating_add(values_found(names, setting));
    }
    count
}

// How many names of a database are found in it.
fn found(alloc: Global, db: &TileDb) -> Result<u32> {
    let names = DatabaseNames::new(alloc, db)?;
    Ok(muxes_found(&names, db).saturating_add(settings_found(&names, db)))
}

/// How many names are found in the databases of the first tiles of a grid.
pub fn found_in(alloc: Global, grid: &Grid, databases: &Databases) -> Result<u32> {
    let mut count = 0u32;
    for tile in grid.tiles.as_slice().iter().take(16) {
        if let Some(db) = databases.get(&tile.kind) {
            count = count.saturating_add(found(alloc, db)?);
        }
    }
    Ok(count)
}
