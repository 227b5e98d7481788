//! The kinds of pads in rows by their types of tiles.

ghost use Rattle.std.specs.Prelude.{◌≡◌, IfOk, filter};
ghost use Rattle.std.specs.Option.{option_copied};
ghost use Rattle.std.specs.Str.{bytes_eq};
ghost use Rattle.words.specs.Ordered.{in_order};
ghost use Rattle.cell_sites.specs.Rows.{row_items};

use crate::in_order::in_name_order;
use crate::rows::{Rows, row, rows_of};
use cell_profile::{PadKind, Profile};
use rr_ids::List;
use std::alloc::{AllocError, Global};
use std::marker::Model;
use tile_grid::Tile;

/// A profile that is lent, and its kinds of pads in rows by type of tile, each row in byte order of names. Contracts see the
/// record of the profile.
#[derive(Drop)]
pub struct PadRows<'a> {
    profile: &'a Profile,
    rows: Rows<'a, PadKind>,
}

impl<'a> Model for PadRows<'a> {
    ghost use Rattle.records.specs.Profile.{Profile as Record};
    ghost use Rattle.cell_sites.specs.Rows.{HoldsPadRows};

    ghost Value = { Record };

    ghost view = { λ r. r.profile.now };

    ghost invariant = { λ r. HoldsPadRows r.profile.now r.rows };
}

impl<'a> PadRows<'a> {
    /// The kinds of pads of a profile.
    pub fn new(alloc: Global, profile: &'a Profile) -> Result<PadRows<'a>, AllocError>
        ensures { IfOk result (λ rows. rows ≡ profile.now) }
    {
        let ordered = in_name_order(alloc, profile.pads.as_slice())?;
        Ok(PadRows {
            profile,
            rows: rows_of(alloc, ordered.as_slice())?,
        })
    }

    /// The kinds of pads of the type of a tile, in byte order of names; `None` where there are none.
    pub fn kinds_in(&self, tile: &'a Tile) -> Option<&List<&'a PadKind>>
        ensures { row_items (option_copied result) ≡ in_order (λ k. k.name) (filter (λ k. bytes_eq k.tile tile.now.kind) self.now.pads) }
    {
        row(&self.rows, &tile.kind)
    }
}
