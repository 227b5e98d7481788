//! The first setting whose value isn't modelled.

ghost use Rattle.std.specs.Prelude.{◌≡◌, ◌<◌, length};
ghost use Rattle.words.specs.Firsts.{unless_fault};
ghost use Rattle.words.specs.OrMemory.{OrMemory};
ghost use Rattle.cell_readings.specs.Errors.{fault_of};
ghost use Rattle.cell_readings.specs.First.{first_of};
ghost use Rattle.cells.specs.Faults.{value_fault};
ghost use Rattle.cells.specs.Readings.{pad_reading, slice_readings, unnamed_reading};
ghost use Rattle.cram_image.specs.Image.{bits};
ghost use Rattle.named_graph.specs.Standing.{StandsInTiles};
ghost use Rattle.slice_model.specs.Grid.{AllPlaced, AllStand};

use crate::placing::{PlacedPad, PlacedSlice};
use cell_readings::{CellError, choice_fault, pad_fault, slice_fault};
use cell_sites::{PadSite, SideNames};
use cram_image::Image;
use named_graph::NamedGraph;
use std::alloc::Global;

// The first setting of a placed slice.
fn slice_value<G: NamedGraph>(
    alloc: Global,
    graph: &G,
    image: &Image,
    slice: &PlacedSlice<'_>,
) -> Result<(), CellError>
    requires stands { StandsInTiles (G.graph graph.now) }
    requires there { slice.now.1.number < length (G.graph graph.now).grid.tiles }
    ensures { OrMemory (λ done. done) fault_of result (unless_fault (first_of value_fault (slice_readings (G.graph graph.now) (bits image.now) slice.now.0 slice.now.1)) tt) }
{
    let placed = slice.placed;
    let site = &slice.site;
    slice_fault(alloc, graph, image, &placed.name, site.number, site.kind)
}

// The mode of a placed pad.
fn pad_value<'a, G: NamedGraph>(
    alloc: Global,
    graph: &G,
    image: &Image,
    names: &SideNames<'a>,
    pad: &PlacedPad<'a>,
) -> Result<(), CellError>
    requires stands { StandsInTiles (G.graph graph.now) }
    requires there { pad.now.1.number < length (G.graph graph.now).grid.tiles }
    ensures { OrMemory (λ done. done) fault_of result (unless_fault (value_fault (pad_reading (G.graph graph.now) (bits image.now) names.now pad.now.0 pad.now.1)) tt) }
{
    let placed = pad.placed;
    let site = &pad.site;
    let kind = site.kind;
    let role = names.role(&placed.name);
    pad_fault(
        alloc,
        graph,
        image,
        &placed.name,
        role,
        site.number,
        &kind.mode,
    )
}

// The mode of an unnamed pad.
fn unnamed_value<G: NamedGraph>(
    alloc: Global,
    graph: &G,
    image: &Image,
    site: &PadSite<'_>,
) -> Result<(), CellError>
    requires stands { StandsInTiles (G.graph graph.now) }
    requires there { site.now.number < length (G.graph graph.now).grid.tiles }
    ensures { OrMemory (λ done. done) fault_of result (unless_fault (value_fault (unnamed_reading (G.graph graph.now) (bits image.now) site.now)) tt) }
{
    let tile = site.tile;
    let kind = site.kind;
    choice_fault(alloc, graph, image, &tile.name, site.number, &kind.mode)
}

/// The first setting of placed slices.
pub(crate) fn first_of_slices<G: NamedGraph>(
    alloc: Global,
    graph: &G,
    image: &Image,
    slices: &[PlacedSlice<'_>],
) -> Result<(), CellError>
    requires stands { StandsInTiles (G.graph graph.now) }
    requires at { AllPlaced (G.graph graph.now) slices.now }
    ensures { OrMemory (λ done. done) fault_of result (unless_fault (first_of (λ q. first_of value_fault (slice_readings (G.graph graph.now) (bits image.now) q.0 q.1)) slices.now) tt) }
{
    for slice in slices {
        slice_value(alloc, graph, image, slice)?;
    }
    Ok(())
}

/// The first mode of placed pads.
pub(crate) fn first_of_pads<'a, G: NamedGraph>(
    alloc: Global,
    graph: &G,
    image: &Image,
    names: &SideNames<'a>,
    pads: &[PlacedPad<'a>],
) -> Result<(), CellError>
    requires stands { StandsInTiles (G.graph graph.now) }
    requires at { AllPlaced (G.graph graph.now) pads.now }
    ensures { OrMemory (λ done. done) fault_of result (unless_fault (first_of (λ q. value_fault (pad_reading (G.graph graph.now) (bits image.now) names.now q.0 q.1)) pads.now) tt) }
{
    for pad in pads {
        pad_value(alloc, graph, image, names, pad)?;
    }
    Ok(())
}

/// The first mode of unnamed pads.
pub(crate) fn first_of_unnamed<G: NamedGraph>(
    alloc: Global,
    graph: &G,
    image: &Image,
    sites: &[PadSite<'_>],
) -> Result<(), CellError>
    requires stands { StandsInTiles (G.graph graph.now) }
    requires at { AllStand (G.graph graph.now) sites.now }
    ensures { OrMemory (λ done. done) fault_of result (unless_fault (first_of (λ s. value_fault (unnamed_reading (G.graph graph.now) (bits image.now) s)) sites.now) tt) }
{
    for site in sites {
        unnamed_value(alloc, graph, image, site)?;
    }
    Ok(())
}
