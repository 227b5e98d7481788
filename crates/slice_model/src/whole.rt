//! The cells of an image.

ghost use Rattle.std.specs.Prelude.{◌≡◌, IfOk};
ghost use Rattle.words.specs.Firsts.{unless_fault};
ghost use Rattle.words.specs.OrMemory.{OrMemory};
ghost use Rattle.cell_readings.specs.Errors.{fault_of};
ghost use Rattle.cell_readings.specs.First.{first_of};
ghost use Rattle.cells.specs.CellsOf.{cells_of};
ghost use Rattle.cells.specs.Faults.{site_fault};
ghost use Rattle.cells.specs.Readings.{pads_of, slices_of};
ghost use Rattle.cells.specs.Sites.{pad_site, slice_site};
ghost use Rattle.cram_image.specs.Image.{bits};
ghost use Rattle.named_graph.specs.Standing.{StandsInTiles};
ghost use Rattle.slice_model.specs.Grid.{AllHaveSmallWords, AllPlaced, HasFewPins, HaveFewPins};
ghost use Rattle.slice_model.specs.Standing.{standing};
ghost use Rattle.slice_model.specs.Turns.{cells_at, faults_at};

use crate::faults::first_fault;
use crate::pads::pad_cells;
use crate::placing::{PlacedPad, PlacedSlice};
use crate::shapes::first_unlike;
use crate::slices::slice_cells;
use crate::standing::{pads_at_sites, slices_at_sites};
use cell_parts::Cells;
use cell_profile::Profile;
use cell_readings::CellError;
use cell_sites::{Kinds, SideNames, in_name_order};
use cram_image::Image;
use named_graph::NamedGraph;
use routing_graph::RoutingGraph;
use side_file::Side;
use std::alloc::{AllocError, Global};

// The slices of a side file at their sites, in byte order of names; or the first that has none.
fn placed_slices<'a, G: NamedGraph>(
    alloc: Global,
    graph: &'a G,
    kinds: &Kinds<'a>,
    side: &'a Side,
) -> Result<Vec<PlacedSlice<'a>>, CellError>
    ensures { OrMemory (λ found. found.items) fault_of result
        (unless_fault (first_of (λ p. site_fault p.name (slice_site (G.graph graph.now) kinds.now p)) (slices_of side.now))
        (standing (slice_site (G.graph graph.now) kinds.now) (slices_of side.now))) }
{
    let ordered = in_name_order(alloc, side.slices.as_slice())?;
    slices_at_sites(alloc, graph, kinds, ordered.as_slice())
}

// The pads of a side file at their sites, in the same way.
fn placed_pads<'a, G: NamedGraph>(
    alloc: Global,
    graph: &'a G,
    kinds: &Kinds<'a>,
    side: &'a Side,
) -> Result<Vec<PlacedPad<'a>>, CellError>
    ensures { OrMemory (λ found. found.items) fault_of result
        (unless_fault (first_of (λ p. site_fault p.name (pad_site (G.graph graph.now) kinds.now p)) (pads_of side.now))
        (standing (pad_site (G.graph graph.now) kinds.now) (pads_of side.now))) }
{
    let ordered = in_name_order(alloc, side.pads.as_slice())?;
    pads_at_sites(alloc, graph, kinds, ordered.as_slice())
}

// The cells at their sites.
fn made<'a, G: RoutingGraph>(
    alloc: Global,
    graph: &'a G,
    image: &Image,
    names: &SideNames<'a>,
    slices: &[PlacedSlice<'a>],
    pads: &[PlacedPad<'a>],
) -> Result<Cells, AllocError>
    requires stands { StandsInTiles (G.graph graph.now) }
    requires slices_at { AllPlaced (G.graph graph.now) slices.now }
    requires pads_at { AllPlaced (G.graph graph.now) pads.now }
    requires small { AllHaveSmallWords (G.graph graph.now) (bits image.now) slices.now }
    ensures { IfOk result (λ cells. cells ≡ cells_at (G.graph graph.now) (G.device graph.now).profile (bits image.now) names.now slices.now pads.now) }
{
    Ok(Cells {
        slices: slice_cells(alloc, graph, image, slices)?,
        pads: pad_cells(alloc, graph, names, pads)?,
    })
}

// The cells at their sites, or the first fault of a value or an unnamed pad.
fn cells_at_sites<'a, G: RoutingGraph>(
    alloc: Global,
    graph: &'a G,
    image: &Image,
    profile: &'a Profile,
    names: &SideNames<'a>,
    slices: &[PlacedSlice<'a>],
    pads: &[PlacedPad<'a>],
) -> Result<Cells, CellError>
    requires profile { (G.device graph.now).profile ≡ profile.now }
    requires stands { StandsInTiles (G.graph graph.now) }
    requires slices_at { AllPlaced (G.graph graph.now) slices.now }
    requires pads_at { AllPlaced (G.graph graph.now) pads.now }
    requires few { HaveFewPins slices.now }
    ensures { OrMemory (λ cells. cells) fault_of result
        (unless_fault (faults_at (G.graph graph.now) profile.now (bits image.now) names.now slices.now pads.now)
        (cells_at (G.graph graph.now) profile.now (bits image.now) names.now slices.now pads.now)) }
{
    first_fault(alloc, graph, image, profile, names, slices, pads)?;
    Ok(made(alloc, graph, image, names, slices, pads)?)
}

// The cells of a side file, where its names are known.
fn cells_named<'a, G: RoutingGraph>(
    alloc: Global,
    graph: &'a G,
    image: &Image,
    profile: &'a Profile,
    side: &'a Side,
    kinds: &Kinds<'a>,
    names: &SideNames<'a>,
) -> Result<Cells, CellError>
    requires profile { (G.device graph.now).profile ≡ profile.now }
    requires stands { StandsInTiles (G.graph graph.now) }
    requires few { HasFewPins profile.now }
    requires kinds { kinds.now ≡ profile.now }
    requires names { names.now ≡ side.now }
    ensures { OrMemory (λ cells. cells) fault_of result (cells_of (G.graph graph.now) profile.now (bits image.now) side.now) }
{
    let slices = placed_slices(alloc, graph, kinds, side)?;
    let pads = placed_pads(alloc, graph, kinds, side)?;
    first_unlike(graph, kinds, names, side)?;
    cells_at_sites(
        alloc,
        graph,
        image,
        profile,
        names,
        slices.as_slice(),
        pads.as_slice(),
    )
}

/// The cells of an image: the tables, registers and pads at the sites that a side file names, each setting and choice resolved by
/// the image. Or the first fault: a site that isn't there, slices of unequal shape, a value that isn't modelled, an unnamed pad
/// that drives out of the fabric.
///
/// The profile is that of the graph, and has 4 pins at most to a table, as its reader sees to. Takes time in proportion to the
/// cells, their settings and the tiles of the device, and a look-up by name for each cell and each name of a triple.
pub fn cells<'a, G: RoutingGraph>(
    alloc: Global,
    graph: &'a G,
    image: &Image,
    profile: &'a Profile,
    side: &'a Side,
) -> Result<Cells, CellError>
    requires profile { (G.device graph.now).profile ≡ profile.now }
    requires stands { StandsInTiles (G.graph graph.now) }
    requires few { HasFewPins profile.now }
    ensures { OrMemory (λ cells. cells) fault_of result (cells_of (G.graph graph.now) profile.now (bits image.now) side.now) }
{
    let kinds = Kinds::new(alloc, profile)?;
    let names = SideNames::new(alloc, side)?;
    cells_named(alloc, graph, image, profile, side, &kinds, &names)
}
