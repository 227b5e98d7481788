//! The routing graph of a device, or the refusal of its size or of an output that stands twice.

ghost use Rattle.std.specs.Prelude.{◌≡◌, IfOk, MatchResult};
ghost use Rattle.answers.specs.Refusals as answers;
ghost use Rattle.design_checks.specs.Checks.{Passes};
ghost use Rattle.design_checks.specs.DesignChecks.{GraphRefused};
ghost use Rattle.design_checks.specs.GraphChecks.{graph_name};
ghost use Rattle.design_files.specs.Designs.{Design};
ghost use Rattle.fabric.specs.Graph.{Graph};
ghost use Rattle.fabric.specs.GraphOf.{IsGraph};
ghost use Rattle.load_routing.specs.Refused.{IsRefusal, IsRefusedBy};
ghost use Rattle.number_lists.specs.Routed.{graph_of};
ghost use Rattle.records.specs.Limits.{limit_name};
ghost use Rattle.report_text.specs.Names.{wire_view};
ghost use Rattle.route_graph.specs.Owned.{wire_of};
ghost use Rattle.route_graph.specs.Why.{IsWhy};
ghost use Rattle.rr_ids.specs.Limits.{limit_of};
ghost use Rattle.size_laws.specs.Sizes.{OverlapsNowhere};

use device_names::Device;
use load_routing::{LoadError, refuse};
use report_text::{Refusal, Wire};
use route_graph::{GraphError, OwnedWire, RouteGraph, build};
use rr_ids::Limit;
use std::alloc::Global;

// A wire as reports print it.
fn lent(wire: &OwnedWire) -> Wire<'_>
    ensures { wire_view result ≡ wire_of wire.now }
{
    match wire {
        OwnedWire::Local { row, col, base } => Wire::Local {
            row: *row,
            col: *col,
            base,
        },
        OwnedWire::Wide { base } => Wire::Wide { base },
    }
}

// The error of a graph that is too large.
fn size_refused(alloc: Global, limit: Limit) -> LoadError
    ensures { IsRefusal (answers.TooLarge graph_name (limit_name (limit_of limit))) result }
{
    refuse(alloc, Refusal::TooLarge(b"graph", limit))
}

// The error of an output that stands twice.
fn overlap_refused(alloc: Global, wire: &OwnedWire) -> LoadError
    ensures { IsRefusal (answers.OverlapShape (wire_of wire.now)) result }
{
    refuse(alloc, Refusal::OverlapShape(lent(wire)))
}

// The error where a device has no graph.
fn graph_refused(alloc: Global, error: &GraphError) -> LoadError
    ensures { (design : Design) (g : Graph) → IsGraph design.device g → IsWhy design.device error.now → IsRefusedBy (GraphRefused design g) result }
{
    match error {
        GraphError::Wires => size_refused(alloc, Limit::Wires),
        GraphError::Muxes => size_refused(alloc, Limit::Muxes),
        GraphError::Arcs => size_refused(alloc, Limit::Arcs),
        GraphError::Overlap(wire) => overlap_refused(alloc, wire),
        GraphError::Memory => LoadError::Memory,
    }
}

/// The routing graph of a device; else the line of the first refusal: that it is too large, or that a wire is the output of two cells.
pub fn graph_or_refused<'a>(
    alloc: Global,
    device: &'a Device<'a>,
) -> Result<RouteGraph<'a>, LoadError>
    ensures device { IfOk result (λ graph. graph.device ≡ device.now) }
    ensures apart { IfOk result (λ graph. OverlapsNowhere device.now) }
    ensures answer { (design : Design) → design.device ≡ device.now → MatchResult result (λ graph. Passes (GraphRefused design (graph_of graph)))
        (λ e. (g : Graph) → IsGraph design.device g → IsRefusedBy (GraphRefused design g) e) }
{
    match build(alloc, device) {
        Ok(graph) => Ok(graph),
        Err(error) => Err(graph_refused(alloc, &error)),
    }
}
