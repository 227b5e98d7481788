//! The files of a device.

use anyhow::{Context, Result};
use cell_profile::Profile;
use device_names::Databases;
use rr_ids::Name;
use std::alloc::Global;
use std::fs;
use std::rt::Files;
use tile_grid::Grid;

// The bytes of a file.
fn bytes_of<R: Files + AllocGlobal>(rt: &R, path: &str) -> Result<Vec<u8>> {
    fs::read(rt, path).context(format_args!("reading {path}"))
}

/// The grid of a device.
pub fn grid_of<R: Files + AllocGlobal>(rt: &R, family: &str, device: &str) -> Result<Grid> {
    let path = format!(in rt.alloc(); "{family}/{device}/tilegrid.json")?;
    let bytes = bytes_of(rt, path.as_str())?;
    tile_grid::read(rt.alloc(), bytes.as_slice()).context(format_args!("in {path}"))
}

/// The profile of the cells.
pub fn profile_of<R: Files + AllocGlobal>(rt: &R, path: &str) -> Result<Profile> {
    let bytes = bytes_of(rt, path)?;
    cell_profile::read(rt.alloc(), bytes.as_slice()).context(format_args!("in {path}"))
}

// The name of a tile type as text.
fn text_of(alloc: Global, name: &Name) -> Result<String> {
    let text = std::str::from_utf8(name.bytes()).context("a tile type that is no text")?;
    Ok(String::from_str(alloc, text)?)
}

// Reads the database of a type.
fn add_database<R: Files + AllocGlobal>(
    rt: &R,
    family: &str,
    databases: &mut Databases,
    kind: &Name,
) -> Result<()> {
    let text = text_of(rt.alloc(), kind)?;
    let path = format!(in rt.alloc(); "{family}/tiledata/{text}/bits.db")?;
    let bytes = bytes_of(rt, path.as_str())?;
    let db = bits_db::read(rt.alloc(), bytes.as_slice()).context(format_args!("in {path}"))?;
    databases.insert(kind.copy()?, db)?;
    Ok(())
}

/// The databases of the types of the tiles of a grid.
pub fn databases_of<R: Files + AllocGlobal>(
    rt: &R,
    family: &str,
    grid: &Grid,
) -> Result<Databases> {
    let mut databases = Databases::new(rt.alloc());
    for tile in grid.tiles.as_slice() {
        if databases.get(&tile.kind).is_none() {
            add_database(rt, family, &mut databases, &tile.kind)?;
        }
    }
    Ok(databases)
}
