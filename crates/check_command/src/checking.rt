//! The checks of a design, and the reply to it.

ghost use Rattle.std.specs.Prelude.{◌≡◌, IfOk};
ghost use Rattle.check_command.specs.Checked.{AnswersError, IsCheckedAs, IsCheckedBy};
ghost use Rattle.design_checks.specs.Checks.{◌before◌, Passes};
ghost use Rattle.design_checks.specs.DesignChecks.{CellsRefused, GraphRefused, TextRefused};
ghost use Rattle.formed_laws.specs.DatabaseRead.{IsReadDevice};
ghost use Rattle.formed_laws.specs.Readers.{IsReadSide};
ghost use Rattle.number_lists.specs.Routed.{graph_of};
ghost use Rattle.size_laws.specs.Sizes.{OverlapsNowhere};

use crate::accepting::accepted;
use design_reader::ReadDesign;
use harden_core::{graph_or_refused, load};
use load_routing::LoadError;
use replies::{Reply, Status};
use route_graph::RouteGraph;
use std::alloc::{AllocError, Global};

// The reply where a check refuses.
fn refused(error: LoadError) -> Result<Reply, AllocError>
    ensures { AnswersError error result }
{
    match error {
        LoadError::Refused(text) => Ok(Reply {
            status: Status::Refused,
            text,
        }),
        LoadError::Memory => Err(AllocError),
    }
}

// The reply to a design over its graph.
#[tactic(auto, using(crate::proofs::Answering::accepted_by, crate::proofs::Answering::refused_by))]
fn over_graph(
    alloc: Global,
    design: &ReadDesign,
    graph: &RouteGraph<'_>,
) -> Result<Reply, AllocError>
    requires device { IsReadDevice design.now.device }
    requires side { IsReadSide design.now.side }
    requires its_graph { graph.now.device ≡ design.now.device }
    requires apart { OverlapsNowhere design.now.device }
    ensures { IfOk result (IsCheckedBy (TextRefused design.now (graph_of graph.now) before CellsRefused design.now (graph_of graph.now)) design.now.side) }
{
    match load(alloc, design, graph) {
        Ok(_) => accepted(alloc, &design.side),
        Err(error) => refused(error),
    }
}

// The reply to a design over its graph, where the checks of the graph pass.
fn over_its_graph(
    alloc: Global,
    design: &ReadDesign,
    graph: &RouteGraph<'_>,
) -> Result<Reply, AllocError>
    requires device { IsReadDevice design.now.device }
    requires side { IsReadSide design.now.side }
    requires its_graph { graph.now.device ≡ design.now.device }
    requires apart { OverlapsNowhere design.now.device }
    ensures { Passes (GraphRefused design.now (graph_of graph.now)) → IfOk result (IsCheckedAs design.now) }
{
    let _ = graph.device();
    over_graph(alloc, design, graph)
}

/// What `check` replies to a design that is read: the counts of a design that no check refuses, or the line of the first check that
/// refuses it.
pub fn checked(alloc: Global, design: &ReadDesign) -> Result<Reply, AllocError>
    requires device { IsReadDevice design.now.device }
    requires side { IsReadSide design.now.side }
    ensures { IfOk result (IsCheckedAs design.now) }
{
    let device = design.device();
    match graph_or_refused(alloc, &device) {
        Ok(graph) => over_its_graph(alloc, design, &graph),
        Err(error) => refused(error),
    }
}
