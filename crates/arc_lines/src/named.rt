//! How the arcs of a graph are looked up by the names of their sources.

ghost use Rattle.arc_lines.specs.LineArcs.{arc_place};
ghost use Rattle.std.specs.Prelude.{◌<◌, ◌≡◌, length};

use routing_graph::RoutingGraph;
use rr_ids::{ArcId, MuxId, Name};

/// A graph whose arcs are looked up by the names that the database gives their sources.
pub trait ArcNames: RoutingGraph {
    /// The first arc of a mux, in arc order, from the source of a name; `None` exactly where the mux has no such arc.
    fn arc_named(&self, m: MuxId, source: &Name) -> Option<ArcId>
        requires { m < length (Self.graph self.now).muxes }
        ensures { result ≡ arc_place (Self.graph self.now) m source.now };
}
