//! What each reader finds, in counts.

use anyhow::{Context, Result};
use bits_db::Mux;
use config_text::TileText;
use std::alloc::Global;
use std::fs;
use std::rt::Files;

/// The bytes of a file.
pub fn bytes_of<R: Files + AllocGlobal>(rt: &R, path: &str) -> Result<Vec<u8>> {
    fs::read(rt, path).context(format_args!("reading {path}"))
}

// How many lines of arcs sections have.
fn arc_lines(tiles: &[TileText]) -> usize {
    let mut count: usize = 0;
    for tile in tiles {
        count = count.saturating_add(tile.arcs.len());
    }
    count
}

/// The counts of a configuration.
pub fn config_line(alloc: Global, text: &[u8]) -> Result<String> {
    let config = config_text::read(alloc, text)?;
    let heads = config.heads.len();
    let tiles = config.tiles.len();
    let arcs = arc_lines(config.tiles.as_slice());
    Ok(format!(in alloc; " heads {heads} tiles {tiles} arcs {arcs}")?)
}

/// The counts of a side file.
pub fn side_line(alloc: Global, text: &[u8]) -> Result<String> {
    let side = side_file::read(alloc, text)?;
    let slices = side.slices.len();
    let pads = side.pads.len();
    let triples = side.triples.len();
    let voters = side.voters.len();
    Ok(format!(in alloc; " slices {slices} pads {pads} triples {triples} voters {voters}")?)
}

/// The counts of a grid.
pub fn grid_line(alloc: Global, text: &[u8]) -> Result<String> {
    let grid = tile_grid::read(alloc, text)?;
    let tiles = grid.tiles.len();
    let height = grid.height;
    let width = grid.width;
    Ok(format!(in alloc; " tiles {tiles} height {height} width {width}")?)
}

/// The counts of a cell profile.
pub fn profile_line(alloc: Global, text: &[u8]) -> Result<String> {
    let profile = cell_profile::read(alloc, text)?;
    let joins = profile.joins.len();
    let slices = profile.slices.len();
    let pads = profile.pads.len();
    Ok(format!(in alloc; " joins {joins} slices {slices} pads {pads}")?)
}

// How many arcs muxes have.
fn arcs_of(muxes: &[Mux]) -> usize {
    let mut count: usize = 0;
    for mux in muxes {
        count = count.saturating_add(mux.arcs.len());
    }
    count
}

/// The counts of a database.
pub fn database_line(alloc: Global, text: &[u8]) -> Result<String> {
    let db = bits_db::read(alloc, text)?;
    let muxes = db.muxes.len();
    let arcs = arcs_of(db.muxes.as_slice());
    let words = db.words.len();
    let enums = db.enums.len();
    let fixed = db.fixed.len();
    Ok(format!(in alloc; " muxes {muxes} arcs {arcs} words {words} enums {enums} fixed {fixed}")?)
}
