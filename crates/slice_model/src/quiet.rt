//! Unnamed pads that drive out of the fabric.

ghost use Rattle.std.specs.Prelude.{◌≡◌, ◌<◌, false, length};
ghost use Rattle.std.specs.Option.{option_map_or};
ghost use Rattle.words.specs.Firsts.{unless_fault};
ghost use Rattle.words.specs.OrMemory.{OrMemory};
ghost use Rattle.cell_readings.specs.Errors.{fault_of};
ghost use Rattle.cell_readings.specs.First.{first_of};
ghost use Rattle.cells.specs.Faults.{unnamed_fault as unnamed_fault_of};
ghost use Rattle.cells.specs.Takes.{take_at as take_at_of, takes_out as takes_out_of};
ghost use Rattle.cram_image.specs.Image.{bits};
ghost use Rattle.named_graph.specs.Standing.{StandsInTiles};
ghost use Rattle.slice_model.specs.Grid.{AllStand};

use cell_profile::Take;
use cell_readings::{CellError, take_at};
use cell_sites::PadSite;
use cram_image::Image;
use named_graph::NamedGraph;

// Whether the pad of a site drives out of the fabric.
fn takes_out<G: NamedGraph>(graph: &G, image: &Image, site: &PadSite<'_>) -> bool
    requires stands { StandsInTiles (G.graph graph.now) }
    requires there { site.now.number < length (G.graph graph.now).grid.tiles }
    ensures { result ≡ option_map_or takes_out_of (take_at_of (G.graph graph.now) (bits image.now) site.now.number site.now.kind.mode) false }
{
    let kind = site.kind;
    matches!(
        take_at(graph, image, site.number, &kind.mode),
        Some(Take::Out)
    )
}

// The fault of an unnamed pad that drives out of the fabric.
fn unnamed_fault<G: NamedGraph>(
    graph: &G,
    image: &Image,
    site: &PadSite<'_>,
) -> Result<(), CellError>
    requires stands { StandsInTiles (G.graph graph.now) }
    requires there { site.now.number < length (G.graph graph.now).grid.tiles }
    ensures { OrMemory (λ done. done) fault_of result (unless_fault (unnamed_fault_of (G.graph graph.now) (bits image.now) site.now) tt) }
{
    if !takes_out(graph, image, site) {
        return Ok(());
    }
    let tile = site.tile;
    let kind = site.kind;
    Err(CellError::UnnamedPad(tile.name.copy()?, kind.name.copy()?))
}

/// The first of unnamed pads that drives out of the fabric.
pub(crate) fn first_driving<G: NamedGraph>(
    graph: &G,
    image: &Image,
    sites: &[PadSite<'_>],
) -> Result<(), CellError>
    requires stands { StandsInTiles (G.graph graph.now) }
    requires at { AllStand (G.graph graph.now) sites.now }
    ensures { OrMemory (λ done. done) fault_of result (unless_fault (first_of (unnamed_fault_of (G.graph graph.now) (bits image.now)) sites.now) tt) }
{
    for site in sites {
        unnamed_fault(graph, image, site)?;
    }
    Ok(())
}
