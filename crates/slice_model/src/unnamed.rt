//! The pads at which no named pad stands.

ghost use Rattle.std.specs.Prelude.{◌≡◌, ◌<◌, ◌++◌, ◌∷◌, [], IfOk, OnOk, filter, length, map, not, slice_get, if◌then◌else◌};
ghost use Rattle.records.specs.Profile.{PadKind as Kind};
ghost use Rattle.cells.specs.Sites.{Site, is_named, tile_pad_sites, unnamed_pads as unnamed_pads_of};
ghost use Rattle.slice_model.specs.Unnamed.{unnamed_in, unnamed_of};

use cell_profile::{PadKind, Profile};
use cell_sites::{PadRows, PadSite, SideNames};
use routing_graph::RoutingGraph;
use rr_ids::{Id, TileId};
use std::alloc::{AllocError, Global};
use tile_grid::Tile;

// Adds a site, if no named pad stands there.
fn add_unnamed<'a>(
    sites: &mut Vec<PadSite<'a>>,
    names: &SideNames<'a>,
    site: PadSite<'a>,
) -> Result<(), AllocError>
    ensures { OnOk result (sites.new.items ≡ sites.old.items ++ (if is_named names.now site.entry then [] else (site.entry ∷ []))) }
{
    let tile = site.tile;
    let kind = site.kind;
    if !names.has_pad_at(&tile.name, &kind.name) {
        sites.push(site)?;
    }
    Ok(())
}

// Adds the sites of kinds in a tile at which no named pad stands.
#[tactic(auto, using(crate::proofs::OtherPads::kind_more, crate::proofs::OtherPads::kind_all))]
fn add_kinds<'a>(
    sites: &mut Vec<PadSite<'a>>,
    names: &SideNames<'a>,
    number: TileId,
    tile: &'a Tile,
    kinds: &[&'a PadKind],
) -> Result<(), AllocError>
    ensures { OnOk result (sites.new.items ≡ sites.old.items ++ unnamed_of names.now number tile.now (map (λ k. k.now) kinds.now)) }
{
    for kind in kinds {
        add_unnamed(
            sites,
            names,
            PadSite {
                number,
                tile,
                kind: *kind,
            },
        )?;
    }
    Ok(())
}

// Adds the sites in a tile at which no named pad stands.
fn add_tile<'a>(
    sites: &mut Vec<PadSite<'a>>,
    rows: &PadRows<'a>,
    names: &SideNames<'a>,
    number: TileId,
    tile: &'a Tile,
) -> Result<(), AllocError>
    ensures { OnOk result (sites.new.items ≡ sites.old.items ++ filter (λ s. not (is_named names.now s)) (tile_pad_sites rows.now number tile.now)) }
{
    if tile.place.is_none() {
        return Ok(());
    }
    match rows.kinds_in(tile) {
        Some(kinds) => add_kinds(sites, names, number, tile, kinds.as_slice()),
        None => Ok(()),
    }
}

/// The pad sites at which no named pad stands, by the names of their tiles, then of their kinds.
pub(crate) fn unnamed_pads<'a, G: RoutingGraph>(
    alloc: Global,
    graph: &'a G,
    profile: &'a Profile,
    names: &SideNames<'a>,
) -> Result<Vec<PadSite<'a>>, AllocError>
    ensures { IfOk result (λ sites. sites.items ≡ unnamed_pads_of (G.graph graph.now) profile.now names.now) }
{
    let rows = PadRows::new(alloc, profile)?;
    let mut sites = Vec::new(alloc);
    for n in 0..graph.tiles() {
        let number = TileId::from_u32(n);
        add_tile(&mut sites, &rows, names, number, graph.tile(number))?;
    }
    Ok(sites)
}
