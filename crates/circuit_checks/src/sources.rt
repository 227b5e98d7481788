//! What feeds each pin, or the first pin that an unnamed cell feeds.

ghost use Rattle.std.specs.Prelude.{◌≡◌, ◌<◌, ℕ, IfOk, MatchResult, length};
ghost use Rattle.circuit.specs.Circuits.{Circuit};
ghost use Rattle.circuit.specs.Pins.{pins as pins_in};
ghost use Rattle.design_checks.specs.Checks.{Passes};
ghost use Rattle.design_checks.specs.PinChecks.{SourceUnnamed};
ghost use Rattle.links.specs.Links.{IsClean};
ghost use Rattle.load_routing.specs.Refused.{IsRefusedBy};
ghost use Rattle.pin_feeds.specs.PinFeeds.{ArePinFeeds};
ghost use Rattle.pin_feeds.specs.Unnamed as unnamed;
ghost use Rattle.wire_feeds.specs.Rows.{AreFeeds};
ghost use Rattle.words.specs.Members.{In};

use crate::names::{pin_name, wire_name};
use circuit_parts::{Parts, SourceId};
use load_routing::{LoadError, refuse};
use pin_feeds::{FeedError, UnnamedFeed, pin_feeds};
use report_text::Refusal;
use routing_graph::RoutingGraph;
use rr_ids::WireId;
use std::alloc::Global;

// The error of a pin that an unnamed cell feeds.
fn unnamed_refused<G: RoutingGraph>(
    alloc: Global,
    graph: &G,
    parts: &Parts<'_>,
    feed: UnnamedFeed,
) -> LoadError
    ensures { (c : Circuit) → c.cells ≡ parts.now → ((o : ℕ) → In c.routing.outputs o → o < length (G.graph graph.now).wires) → unnamed.IsUnnamedFeed c feed
        → IsRefusedBy (SourceUnnamed (G.graph graph.now) c) result }
{
    match pin_name(parts, feed.pin) {
        Some(pin) => match wire_name(graph, feed.feed) {
            Some(wire) => refuse(alloc, Refusal::UnnamedSource(pin, wire)),
            None => LoadError::Memory,
        },
        None => LoadError::Memory,
    }
}

// The error where pins have no feeds.
fn feeds_refused<G: RoutingGraph>(
    alloc: Global,
    graph: &G,
    parts: &Parts<'_>,
    error: FeedError,
) -> LoadError
    ensures { (c : Circuit) → c.cells ≡ parts.now → ((o : ℕ) → In c.routing.outputs o → o < length (G.graph graph.now).wires) → unnamed.Refuses c error
        → IsRefusedBy (SourceUnnamed (G.graph graph.now) c) result }
{
    match error {
        FeedError::Unnamed(feed) => unnamed_refused(alloc, graph, parts, feed),
        FeedError::Memory => LoadError::Memory,
    }
}

/// The part that feeds each pin; else the line of the least pin that no named cell feeds. `feeds` has the feed of each wire. Takes time
/// in proportion to wires, parts and pins.
pub fn feeds_or_refused<G: RoutingGraph>(
    alloc: Global,
    graph: &G,
    parts: &Parts<'_>,
    feeds: &[Option<WireId>],
) -> Result<Vec<Option<SourceId>>, LoadError>
    ensures long { IfOk result (λ v. length v.items ≡ length (pins_in parts.now)) }
    ensures answer { (c : Circuit) → c.cells ≡ parts.now → ((o : ℕ) → In c.routing.outputs o → o < length (G.graph graph.now).wires) → IsClean c.routing → AreFeeds c.routing feeds.now
        → MatchResult result (λ v. ArePinFeeds c v.items × Passes (SourceUnnamed (G.graph graph.now) c)) (IsRefusedBy (SourceUnnamed (G.graph graph.now) c)) }
{
    match pin_feeds(alloc, parts, feeds) {
        Ok(of_pins) => Ok(of_pins),
        Err(error) => Err(feeds_refused(alloc, graph, parts, error)),
    }
}
