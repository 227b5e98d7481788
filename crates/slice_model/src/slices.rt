//! Slices at sites.

ghost use Rattle.std.specs.Prelude.{◌≡◌, ◌<◌, IfOk, length, map};
ghost use Rattle.cells.specs.Resolved.{slice_cell as slice_cell_of};
ghost use Rattle.cram_image.specs.Image.{bits};
ghost use Rattle.named_graph.specs.Standing.{StandsInTiles};
ghost use Rattle.slice_model.specs.Grid.{AllHaveSmallWords, AllPlaced, HaveSmallWords, StandsInGrid};

use crate::placing::PlacedSlice;
use crate::registers::register_cells;
use crate::setting_bits::bits_of_settings;
use crate::tables::table_cells;
use cell_parts::SliceCell;
use cell_sites::SliceSite;
use cram_image::Image;
use routing_graph::RoutingGraph;
use rr_ids::List;
use side_file::Placed;
use std::alloc::{AllocError, Global};

// A placed slice at its site.
fn slice_cell<G: RoutingGraph>(
    alloc: Global,
    graph: &G,
    image: &Image,
    placed: &Placed,
    site: &SliceSite<'_>,
) -> Result<SliceCell, AllocError>
    requires stands { StandsInTiles (G.graph graph.now) }
    requires at { StandsInGrid (G.graph graph.now) site.now }
    requires there { site.now.number < length (G.graph graph.now).grid.tiles }
    requires small { HaveSmallWords (G.graph graph.now) (bits image.now) site.now.number site.now.kind.tables }
    ensures { IfOk result (λ cell. cell ≡ slice_cell_of (G.graph graph.now) (G.device graph.now).profile.rules (bits image.now) placed.now site.now) }
{
    let kind = site.kind;
    let name = placed.name.copy()?;
    let tables = table_cells(alloc, graph, image, site, kind.tables.as_slice())?;
    let registers = register_cells(alloc, graph, image, site, kind.registers.as_slice())?;
    let bits = bits_of_settings(
        alloc,
        graph,
        site.number,
        site.tile,
        kind.settings.as_slice(),
    )?;
    Ok(SliceCell {
        name,
        domain: placed.domain,
        tables,
        registers,
        bits,
    })
}

/// Placed slices at their sites, in their order.
#[tactic(auto, using(crate::proofs::Walking::map_more, crate::proofs::Walking::map_all))]
pub(crate) fn slice_cells<G: RoutingGraph>(
    alloc: Global,
    graph: &G,
    image: &Image,
    slices: &[PlacedSlice<'_>],
) -> Result<List<SliceCell>, AllocError>
    requires stands { StandsInTiles (G.graph graph.now) }
    requires at { AllPlaced (G.graph graph.now) slices.now }
    requires small { AllHaveSmallWords (G.graph graph.now) (bits image.now) slices.now }
    ensures { IfOk result (λ cells. cells ≡ map (λ q. slice_cell_of (G.graph graph.now) (G.device graph.now).profile.rules (bits image.now) q.0 q.1) slices.now) }
{
    let mut cells = Vec::with_capacity(alloc, slices.len())?;
    for slice in slices {
        cells.push(slice_cell(alloc, graph, image, slice.placed, &slice.site)?)?;
    }
    Ok(List::from_vec(cells))
}
