//! The kinds of a profile by their types of tiles and their names.

ghost use Rattle.std.specs.Prelude.{◌≡◌, IfOk};
ghost use Rattle.std.specs.Option.{option_copied};
ghost use Rattle.cells.specs.Sites.{pad_kind as pad_kind_of, pad_site, slice_kind as slice_kind_of, slice_site};

use crate::pairs::{ByPair, by_pair, pair_named};
use crate::sites::{PadSite, SliceSite};
use cell_profile::{PadKind, Profile, SliceKind};
use named_graph::NamedGraph;
use rr_ids::Name;
use side_file::Placed;
use std::alloc::{AllocError, Global};
use std::marker::Model;
use tile_grid::Tile;

/// A profile that is lent, and its kinds by type of tile and name. Contracts see the record of the profile.
#[derive(Drop)]
pub struct Kinds<'a> {
    profile: &'a Profile,
    slices: ByPair<'a, SliceKind>,
    pads: ByPair<'a, PadKind>,
}

impl<'a> Model for Kinds<'a> {
    ghost use Rattle.records.specs.Profile.{Profile as Record};
    ghost use Rattle.cell_sites.specs.Pairs.{HoldsKinds};

    ghost Value = { Record };

    ghost view = { λ k. k.profile.now };

    ghost invariant = { λ k. HoldsKinds k.profile.now k.slices k.pads };
}

impl<'a> Kinds<'a> {
    /// The kinds of a profile.
    pub fn new(alloc: Global, profile: &'a Profile) -> Result<Kinds<'a>, AllocError>
        ensures { IfOk result (λ kinds. kinds ≡ profile.now) }
    {
        Ok(Kinds {
            profile,
            slices: by_pair(alloc, profile.slices.as_slice())?,
            pads: by_pair(alloc, profile.pads.as_slice())?,
        })
    }

    // The kind of slice of a name in a tile.
    fn slice_kind(&self, tile: &'a Tile, name: &'a Name) -> Option<&'a SliceKind>
        ensures { option_copied result ≡ slice_kind_of self.now name.now tile.now }
    {
        pair_named(&self.slices, &tile.kind, name)
    }

    // The kind of pad of a name in a tile.
    fn pad_kind(&self, tile: &'a Tile, name: &'a Name) -> Option<&'a PadKind>
        ensures { option_copied result ≡ pad_kind_of self.now name.now tile.now }
    {
        pair_named(&self.pads, &tile.kind, name)
    }

    /// The site at which a placed slice stands; `None` exactly where its tile or kind isn't there, or the tile has no row
    /// and column.
    pub fn slice_site<G: NamedGraph>(&self, graph: &'a G, cell: &'a Placed) -> Option<SliceSite<'a>>
        ensures { result ≡ slice_site (G.graph graph.now) self.now cell.now }
    {
        let number = graph.tile_named(&cell.tile)?;
        let tile = graph.tile(number);
        let kind = self.slice_kind(tile, &cell.kind)?;
        tile.place?;
        Some(SliceSite { number, tile, kind })
    }

    /// The site at which a placed pad stands, in the same way.
    pub fn pad_site<G: NamedGraph>(&self, graph: &'a G, cell: &'a Placed) -> Option<PadSite<'a>>
        ensures { result ≡ pad_site (G.graph graph.now) self.now cell.now }
    {
        let number = graph.tile_named(&cell.tile)?;
        let tile = graph.tile(number);
        let kind = self.pad_kind(tile, &cell.kind)?;
        tile.place?;
        Some(PadSite { number, tile, kind })
    }
}
