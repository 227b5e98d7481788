//! Sites.

use cell_profile::{PadKind, SliceKind};
use rr_ids::TileId;
use std::marker::Model;
use tile_grid::Tile;

/// A site of a slice: its tile, with the tile's number in the grid, and its kind. Contracts see the record of the three.
#[derive(Drop)]
pub struct SliceSite<'a> {
    pub number: TileId,
    pub tile: &'a Tile,
    pub kind: &'a SliceKind,
}

impl<'a> Model for SliceSite<'a> {
    ghost use Rattle.records.specs.Profile.{SliceKind as Kind};
    ghost use Rattle.cells.specs.Sites.{Site};

    ghost Value = { Site Kind };

    ghost view = { λ s. record { number = s.number; tile = s.tile.now; kind = s.kind.now } };
}

/// A site of a pad: its tile, with the tile's number in the grid, and its kind. Contracts see the record of the three.
#[derive(Drop)]
pub struct PadSite<'a> {
    pub number: TileId,
    pub tile: &'a Tile,
    pub kind: &'a PadKind,
}

impl<'a> Model for PadSite<'a> {
    ghost use Rattle.records.specs.Profile.{PadKind as Kind};
    ghost use Rattle.cells.specs.Sites.{Site};

    ghost Value = { Site Kind };

    ghost view = { λ s. record { number = s.number; tile = s.tile.now; kind = s.kind.now } };
}
