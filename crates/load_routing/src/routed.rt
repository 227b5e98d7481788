//! The live routing of a text, or the refusal of its first check.

ghost use Rattle.std.specs.Prelude.{◌≡◌, ◌<◌, Some, IfOk, MatchResult, length, slice_get};
ghost use Rattle.arc_lines.specs.Differing.{name_at};
ghost use Rattle.answers.specs.Refusals as answers;
ghost use Rattle.cram_image.specs.Image.{bits};
ghost use Rattle.design_checks.specs.Checks.{◌before◌};
ghost use Rattle.design_checks.specs.RoutingChecks.{ArcsDiffer, AreContested};
ghost use Rattle.fabric.specs.Image.{image_of};
ghost use Rattle.fabric.specs.Wires as wires;
ghost use Rattle.live_routing.specs.Refused.{Refuses};
ghost use Rattle.load_routing.specs.Refused.{IsRefusedBy};
ghost use Rattle.load_routing.specs.Routing.{RoutingPasses, RoutingRefused};
ghost use Rattle.load_routing.specs.Standing.{StandsIn};
ghost use Rattle.patterns.specs.Bits.{Bits};
ghost use Rattle.records.specs.Config as records;
ghost use Rattle.report_text.specs.Names.{wire_view};
ghost use Rattle.report_text.specs.Refused.{refusal_view};

use crate::LoadError;
use crate::error::refuse;
use crate::lines::image_or_refused;
use crate::names::wire_or_none;
use arc_lines::{ArcNames, sink_name, tile_name};
use config_text::Config;
use live_routing::{Live, LiveError};
use report_text::{Refusal, Wire};
use routing_graph::RoutingGraph;
use rr_ids::{MuxId, WireId};
use std::alloc::Global;
use text_image::graph_of_device_stands;
use wire_contests::Contest;

/// A wire of a graph by its name, as reports print it.
#[tactic(auto, using(crate::proofs::Refusing::wire_there, crate::proofs::Refusing::wire_is))]
pub fn wire_at<G: RoutingGraph>(graph: &G, w: WireId) -> Wire<'_>
    requires { w < length (G.graph graph.now).wires }
    ensures { slice_get (G.graph graph.now).wires w ≡ Some (wire_view result) }
{
    wire_or_none(graph.name(w)).unwrap()
}

// The refusal of a mux at which arcs differ from lines.
fn mux_refused<G: RoutingGraph>(graph: &G, m: MuxId) -> Refusal<'_>
    requires { m < length (G.graph graph.now).muxes }
    ensures { refusal_view result ≡ answers.ArcDiffers (name_at (G.graph graph.now) m).tile (name_at (G.graph graph.now) m).sink }
{
    Refusal::ArcDiffers(tile_name(graph, m).bytes(), sink_name(graph, m).bytes())
}

// The refusal of a wire that two drivers contest.
#[tactic(auto, using(crate::proofs::Refusing::contest_named))]
fn contest_refused<G: RoutingGraph>(graph: &G, contest: Contest) -> Refusal<'_>
    requires wire { contest.wire < length (G.graph graph.now).wires }
    requires first { contest.first < length (G.graph graph.now).wires }
    requires second { contest.second < length (G.graph graph.now).wires }
    ensures { (wire first second : wires.Wire) → slice_get (G.graph graph.now).wires contest.wire ≡ Some wire
        → slice_get (G.graph graph.now).wires contest.first ≡ Some first → slice_get (G.graph graph.now).wires contest.second ≡ Some second
        → refusal_view result ≡ answers.Contested wire first second }
{
    let wire = wire_at(graph, contest.wire);
    let first = wire_at(graph, contest.first);
    let second = wire_at(graph, contest.second);
    Refusal::Contested(wire, first, second)
}

// The refusal of a routing that isn't live.
#[tactic(auto, using(crate::proofs::Refusing::mux_refuses, crate::proofs::Refusing::contest_refuses))]
fn live_refused<G: RoutingGraph>(alloc: Global, graph: &G, error: LiveError) -> LoadError
    requires { StandsIn (G.graph graph.now) error }
    ensures { (image : Bits) (config : records.Config) → Refuses (G.graph graph.now) image config error
        → IsRefusedBy (ArcsDiffer (G.graph graph.now) image config before AreContested (G.graph graph.now) image) result }
{
    match error {
        LiveError::ArcDiffers(m) => refuse(alloc, mux_refused(graph, m)),
        LiveError::Contested(contest) => refuse(alloc, contest_refused(graph, contest)),
        LiveError::Memory => LoadError::Memory,
    }
}

/// The live routing of the image of a text. Else the line of the first refusal: of its first line that names what isn't in the graph, of
/// the least mux at which its arcs differ from the chosen ones, or of the least wire that two drivers contest. Takes time in
/// proportion to the graph and the text.
pub fn live_or_refused<'a, G: ArcNames>(
    alloc: Global,
    graph: &'a G,
    config: &Config,
) -> Result<Live<'a, G>, LoadError>
    ensures graph { IfOk result (λ live. live.graph ≡ G.graph graph.now) }
    ensures image { IfOk result (λ live. bits live.image ≡ image_of (G.graph graph.now) config.now) }
    ensures answer { MatchResult result (λ live. RoutingPasses (G.graph graph.now) config.now) (IsRefusedBy (RoutingRefused (G.graph graph.now) config.now)) }
{
    graph.is_of_device();
    graph_of_device_stands();
    let image = image_or_refused(alloc, graph, config)?;
    match Live::new(alloc, graph, config, image) {
        Ok(live) => Ok(live),
        Err(error) => Err(live_refused(alloc, graph, error)),
    }
}
