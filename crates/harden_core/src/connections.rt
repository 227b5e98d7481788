//! The connections of the cells of a design, where the checks of its circuit pass.

ghost use Rattle.std.specs.Prelude.{◌≡◌, IfOk, Ok, MatchResult};
ghost use Rattle.cells.specs.CellsOf.{cells_of};
ghost use Rattle.cram_image.specs.Image.{bits};
ghost use Rattle.design_checks.specs.Checks.{Passes};
ghost use Rattle.design_checks.specs.DesignChecks.{CircuitRefused, configured_as};
ghost use Rattle.fabric.specs.Image.{image_of};
ghost use Rattle.fabric.specs.Links.{routing_of};
ghost use Rattle.formed_laws.specs.DatabaseRead.{IsReadDevice};
ghost use Rattle.formed_laws.specs.Readers.{IsReadSide};
ghost use Rattle.links.specs.Links.{IsClean};
ghost use Rattle.load_routing.specs.Refused.{IsRefusedBy};
ghost use Rattle.number_lists.specs.Routed.{graph_of};
ghost use Rattle.pin_feeds.specs.PinFeeds.{ArePinFeeds};
ghost use Rattle.size_laws.specs.Sizes.{OverlapsNowhere};
ghost use Rattle.upset.specs.Configured.{circuit_of};

use cell_parts::Cells;
use cells_known::{are_few, parts_number_once, slices_stand_in_order};
use circuit_checks::circuit_or_refused;
use circuit_parts::{Parts, SourceId};
use design_reader::ReadDesign;
use live_routing::Live;
use load_routing::LoadError;
use route_graph::RouteGraph;
use std::alloc::Global;

/// For each pin of the cells of a design the part that feeds it; else the line of the first check that refuses the circuit. 4,294,967,296
/// parts or pins take all memory there is.
pub(crate) fn connections_or_refused<'a, 'b>(
    alloc: Global,
    design: &'a ReadDesign,
    graph: &'a RouteGraph<'b>,
    live: &Live<'a, RouteGraph<'b>>,
    cells: &Cells,
) -> Result<Vec<Option<SourceId>>, LoadError>
    requires device { IsReadDevice design.now.device }
    requires side { IsReadSide design.now.side }
    requires its_graph { graph.now.device ≡ design.now.device }
    requires apart { OverlapsNowhere design.now.device }
    requires over { live.now.graph ≡ graph_of graph.now }
    requires image { bits live.now.image ≡ image_of (graph_of graph.now) design.now.config }
    requires cells { cells_of (graph_of graph.now) design.now.device.profile (image_of (graph_of graph.now) design.now.config) design.now.side ≡ Ok cells.now }
    ensures clean { IfOk result (λ _. IsClean (routing_of (graph_of graph.now) (image_of (graph_of graph.now) design.now.config))) }
    ensures answer { let c = circuit_of (configured_as design.now (graph_of graph.now) cells.now) in
        MatchResult result (λ v. ArePinFeeds c v.items × Passes (CircuitRefused (graph_of graph.now) c)) (IsRefusedBy (CircuitRefused (graph_of graph.now) c)) }
{
    let _device = graph.device();
    slices_stand_in_order();
    parts_number_once();
    if !are_few(cells) {
        return Err(LoadError::Memory);
    }
    match Parts::of(alloc, cells) {
        Ok(parts) => circuit_or_refused(alloc, graph, &parts, &design.side, live.feeds()),
        Err(_) => Err(LoadError::Memory),
    }
}
