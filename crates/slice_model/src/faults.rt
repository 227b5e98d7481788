//! The first fault of cells at their sites.

ghost use Rattle.std.specs.Prelude.{◌≡◌};
ghost use Rattle.words.specs.Firsts.{unless_fault};
ghost use Rattle.words.specs.OrMemory.{OrMemory};
ghost use Rattle.cell_readings.specs.Errors.{fault_of};
ghost use Rattle.cells.specs.Sites.{unnamed_pads as unnamed_pads_of};
ghost use Rattle.cram_image.specs.Image.{bits};
ghost use Rattle.named_graph.specs.Standing.{StandsInTiles};
ghost use Rattle.slice_model.specs.Grid.{AllPlaced};
ghost use Rattle.slice_model.specs.Turns.{faults_at, unnamed_faults};

use crate::placing::{PlacedPad, PlacedSlice};
use crate::quiet::first_driving;
use crate::unnamed::unnamed_pads;
use crate::values::{first_of_pads, first_of_slices, first_of_unnamed};
use cell_profile::Profile;
use cell_readings::CellError;
use cell_sites::SideNames;
use cram_image::Image;
use routing_graph::RoutingGraph;
use std::alloc::Global;

// The first fault of unnamed pads: a mode that isn't modelled, or one that drives out of the fabric.
fn first_of_others<'a, G: RoutingGraph>(
    alloc: Global,
    graph: &'a G,
    image: &Image,
    profile: &'a Profile,
    names: &SideNames<'a>,
) -> Result<(), CellError>
    requires { StandsInTiles (G.graph graph.now) }
    ensures { OrMemory (λ done. done) fault_of result (unless_fault (unnamed_faults (G.graph graph.now) (bits image.now) (unnamed_pads_of (G.graph graph.now) profile.now names.now)) tt) }
{
    let sites = unnamed_pads(alloc, graph, profile, names)?;
    first_of_unnamed(alloc, graph, image, sites.as_slice())?;
    first_driving(graph, image, sites.as_slice())
}

/// The first fault of cells at their sites: of the settings of slices, of the modes of named and of unnamed pads, and of unnamed
/// pads that drive out of the fabric.
pub(crate) fn first_fault<'a, G: RoutingGraph>(
    alloc: Global,
    graph: &'a G,
    image: &Image,
    profile: &'a Profile,
    names: &SideNames<'a>,
    slices: &[PlacedSlice<'a>],
    pads: &[PlacedPad<'a>],
) -> Result<(), CellError>
    requires stands { StandsInTiles (G.graph graph.now) }
    requires slices_at { AllPlaced (G.graph graph.now) slices.now }
    requires pads_at { AllPlaced (G.graph graph.now) pads.now }
    ensures { OrMemory (λ done. done) fault_of result (unless_fault (faults_at (G.graph graph.now) profile.now (bits image.now) names.now slices.now pads.now) tt) }
{
    first_of_slices(alloc, graph, image, slices)?;
    first_of_pads(alloc, graph, image, names, pads)?;
    first_of_others(alloc, graph, image, profile, names)
}
