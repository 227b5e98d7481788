//! The cells of an image, or the refusal of the first fault.

ghost use Rattle.std.specs.Prelude.{◌≡◌, Ok, MatchOption, MatchResult};
ghost use Rattle.cell_readings.specs.Errors.{fault_of};
ghost use Rattle.cells.specs.CellsOf.{cells_of};
ghost use Rattle.cram_image.specs.Image.{bits};
ghost use Rattle.design_checks.specs.CellChecks.{cell_refusal, refusal_of_cells};
ghost use Rattle.design_checks.specs.Checks.{Computed};
ghost use Rattle.load_routing.specs.declared.error.LoadError.TheVariants.{Memory};
ghost use Rattle.load_routing.specs.Refused.{IsRefusal, IsRefusedBy};
ghost use Rattle.named_graph.specs.Standing.{StandsInTiles};
ghost use Rattle.slice_model.specs.Grid.{HasFewPins};

use cell_parts::Cells;
use cell_profile::Profile;
use cell_readings::CellError;
use cram_image::Image;
use load_routing::{LoadError, refuse};
use report_text::Refusal;
use routing_graph::RoutingGraph;
use side_file::Side;
use slice_model::cells;
use std::alloc::Global;

// The error of cells that aren't there.
fn cells_refused(alloc: Global, error: &CellError) -> LoadError
    ensures { MatchOption (fault_of error.now) (result ≡ Memory) (λ fault. IsRefusal (refusal_of_cells fault) result) }
{
    match error {
        CellError::UnknownSite(cell) => refuse(alloc, Refusal::UnknownSite(cell.bytes())),
        CellError::ShapeDiffers(cell) => refuse(alloc, Refusal::ShapeDiffers(cell.bytes())),
        CellError::Unmodelled(cell, setting, value) => refuse(
            alloc,
            Refusal::Unmodelled(cell.bytes(), setting.bytes(), value.bytes()),
        ),
        CellError::UnnamedPad(tile, kind) => {
            refuse(alloc, Refusal::UnnamedPad(tile.bytes(), kind.bytes()))
        }
        CellError::Memory => LoadError::Memory,
    }
}

/// The cells of an image at the sites that a side file names; else the line of the first fault.
pub(crate) fn cells_or_refused<'a, G: RoutingGraph>(
    alloc: Global,
    graph: &'a G,
    image: &Image,
    profile: &'a Profile,
    side: &'a Side,
) -> Result<Cells, LoadError>
    requires profile { (G.device graph.now).profile ≡ profile.now }
    requires stands { StandsInTiles (G.graph graph.now) }
    requires few { HasFewPins profile.now }
    ensures { MatchResult result (λ cells. cells_of (G.graph graph.now) profile.now (bits image.now) side.now ≡ Ok cells)
        (IsRefusedBy (Computed (cell_refusal (G.graph graph.now) profile.now (bits image.now) side.now))) }
{
    match cells(alloc, graph, image, profile, side) {
        Ok(cells) => Ok(cells),
        Err(error) => Err(cells_refused(alloc, &error)),
    }
}
