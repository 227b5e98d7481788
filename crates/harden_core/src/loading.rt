//! A design that no check refuses.

ghost use Rattle.std.specs.Prelude.{◌≡◌, Ok, MatchResult};
ghost use Rattle.cells.specs.CellsOf.{cells_of};
ghost use Rattle.cram_image.specs.Image.{bits};
ghost use Rattle.design_checks.specs.CellChecks.{cell_refusal};
ghost use Rattle.design_checks.specs.Checks.{◌before◌, Computed, Passes};
ghost use Rattle.design_checks.specs.DesignChecks.{CellsRefused, TextRefused};
ghost use Rattle.fabric.specs.Image.{image_of};
ghost use Rattle.formed_laws.specs.DatabaseRead.{IsReadDevice};
ghost use Rattle.formed_laws.specs.Readers.{IsReadSide};
ghost use Rattle.load_routing.specs.Refused.{IsRefusedBy};
ghost use Rattle.number_lists.specs.Routed.{graph_of};
ghost use Rattle.size_laws.specs.Sizes.{OverlapsNowhere};

use crate::connections::connections_or_refused;
use crate::imaged::cells_or_refused;
use cell_parts::Cells;
use circuit_parts::SourceId;
use design_reader::ReadDesign;
use live_routing::Live;
use load_routing::{LoadError, live_or_refused};
use route_graph::RouteGraph;
use std::alloc::Global;
use std::marker::Model;
use text_image::graph_of_device_stands;

/// A design with its live routing, its cells and the part that feeds each of their pins. They belong together, and the circuit that they
/// are is clean, well formed and triplicated. Contracts see the four of them.
#[derive(Drop)]
pub struct Loaded<'a, 'b> {
    pub(crate) design: &'a ReadDesign,
    pub(crate) live: Live<'a, RouteGraph<'b>>,
    pub(crate) cells: Cells,
    pub(crate) feeds: Vec<Option<SourceId>>,
}

impl<'a, 'b> Model for Loaded<'a, 'b> {
    ghost use Rattle.harden_core.specs.Loaded.{IsLoaded, LoadedDesign};

    ghost Value = { LoadedDesign };

    ghost view = { λ l. record { design = l.design.now; live = l.live; cells = l.cells; feeds = l.feeds.items } };

    ghost invariant = { λ l. IsLoaded l.design.now l.live l.cells l.feeds.items };
}

// A design with its cells, where the checks of its circuit pass.
fn with_cells<'a, 'b>(
    alloc: Global,
    design: &'a ReadDesign,
    graph: &'a RouteGraph<'b>,
    live: Live<'a, RouteGraph<'b>>,
    cells: Cells,
) -> Result<Loaded<'a, 'b>, LoadError>
    requires device { IsReadDevice design.now.device }
    requires side { IsReadSide design.now.side }
    requires its_graph { graph.now.device ≡ design.now.device }
    requires apart { OverlapsNowhere design.now.device }
    requires over { live.graph ≡ graph_of graph.now }
    requires image { bits live.image ≡ image_of (graph_of graph.now) design.now.config }
    requires cells { cells_of (graph_of graph.now) design.now.device.profile (image_of (graph_of graph.now) design.now.config) design.now.side ≡ Ok cells }
    ensures { MatchResult result (λ _. Passes (CellsRefused design.now (graph_of graph.now))) (IsRefusedBy (CellsRefused design.now (graph_of graph.now))) }
{
    let _device = graph.device();
    match connections_or_refused(alloc, design, graph, &live, &cells) {
        Ok(feeds) => Ok(Loaded {
            design,
            live,
            cells,
            feeds,
        }),
        Err(error) => Err(error),
    }
}

// A design with its live routing, where the checks of its cells and of its circuit pass.
fn with_routing<'a, 'b>(
    alloc: Global,
    design: &'a ReadDesign,
    graph: &'a RouteGraph<'b>,
    live: Live<'a, RouteGraph<'b>>,
) -> Result<Loaded<'a, 'b>, LoadError>
    requires device { IsReadDevice design.now.device }
    requires side { IsReadSide design.now.side }
    requires its_graph { graph.now.device ≡ design.now.device }
    requires apart { OverlapsNowhere design.now.device }
    requires over { live.graph ≡ graph_of graph.now }
    requires image { bits live.image ≡ image_of (graph_of graph.now) design.now.config }
    ensures { let g = graph_of graph.now in let refused = Computed (cell_refusal g design.now.device.profile (image_of g design.now.config) design.now.side) before CellsRefused design.now g in
        MatchResult result (λ _. Passes refused) (IsRefusedBy refused) }
{
    let _device = graph.device();
    graph_of_device_stands();
    match cells_or_refused(alloc, graph, live.image(), &design.profile, &design.side) {
        Ok(cells) => with_cells(alloc, design, graph, live, cells),
        Err(error) => Err(error),
    }
}

/// A design over its graph, where no check refuses its text, its cells or its circuit; else the line of the first check that does.
pub fn load<'a, 'b>(
    alloc: Global,
    design: &'a ReadDesign,
    graph: &'a RouteGraph<'b>,
) -> Result<Loaded<'a, 'b>, LoadError>
    requires device { IsReadDevice design.now.device }
    requires side { IsReadSide design.now.side }
    requires its_graph { graph.now.device ≡ design.now.device }
    requires apart { OverlapsNowhere design.now.device }
    ensures { let refused = TextRefused design.now (graph_of graph.now) before CellsRefused design.now (graph_of graph.now) in
        MatchResult result (λ _. Passes refused) (IsRefusedBy refused) }
{
    match live_or_refused(alloc, graph, &design.config) {
        Ok(live) => with_routing(alloc, design, graph, live),
        Err(error) => Err(error),
    }
}
