//! Grids.

use anyhow::Result;
use case_tables::{fault, plain_fault, push_line, push_number, push_word};
use std::alloc::Global;
use tile_grid::{Grid, GridError, Tile};

// Adds the row and column of a tile, or `-`.
fn push_place(alloc: Global, text: &mut Vec<u8>, place: Option<(u8, u8)>) -> Result<()> {
    match place {
        Some((row, col)) => {
            push_number(alloc, text, u32::from(row))?;
            push_number(alloc, text, u32::from(col))
        }
        None => push_word(text, b"-"),
    }
}

fn push_tile(alloc: Global, text: &mut Vec<u8>, tile: &Tile) -> Result<()> {
    push_line(text, 1, "tile")?;
    push_word(text, tile.name.bytes())?;
    push_word(text, tile.kind.bytes())?;
    push_place(alloc, text, tile.place)?;
    push_number(alloc, text, tile.cols)?;
    push_number(alloc, text, tile.rows)?;
    push_number(alloc, text, tile.start_frame)?;
    push_number(alloc, text, tile.start_bit)
}

fn text_of(alloc: Global, grid: &Grid) -> Result<Vec<u8>> {
    let mut text = Vec::from_slice(alloc, b"grid")?;
    push_number(alloc, &mut text, u32::from(grid.height))?;
    push_number(alloc, &mut text, u32::from(grid.width))?;
    for tile in grid.tiles.as_slice() {
        push_tile(alloc, &mut text, tile)?;
    }
    Ok(text)
}

fn text_of_error(alloc: Global, error: &GridError) -> Result<Vec<u8>> {
    match error {
        GridError::NotJson => plain_fault(alloc, "NotJson"),
        GridError::BadShape(key) => fault(alloc, "BadShape", key.bytes()),
        GridError::TooLarge(limit) => fault(alloc, "TooLarge", limit.text().as_bytes()),
        GridError::Memory => plain_fault(alloc, "Memory"),
    }
}

/// What the reader of grids answers: the height and width, and each tile with its name, type, row, column, frames, bits of
/// a frame, first frame and first bit.
pub fn answer_to(alloc: Global, bytes: &[u8]) -> Result<Vec<u8>> {
    match tile_grid::read(alloc, bytes) {
        Ok(grid) => text_of(alloc, &grid),
        Err(error) => text_of_error(alloc, &error),
    }
}
