//! All checks of a circuit.

ghost use Rattle.std.specs.Prelude.{◌≡◌, ◌<◌, ℕ, IfOk, MatchResult, length};
ghost use Rattle.circuit.specs.Circuits.{Circuit};
ghost use Rattle.circuit.specs.Pins.{pins as pins_in};
ghost use Rattle.circuit_checks.specs.Lists.{AreOf, IsFormed};
ghost use Rattle.circuit_checks.specs.Rules.{RulesRefused};
ghost use Rattle.design_checks.specs.Checks.{Passes};
ghost use Rattle.design_checks.specs.DesignChecks.{CircuitRefused};
ghost use Rattle.load_routing.specs.Refused.{IsRefusedBy};
ghost use Rattle.pin_feeds.specs.PinFeeds.{ArePinFeeds};
ghost use Rattle.words.specs.Members.{In};

use crate::Listed;
use crate::rules::rules_or_refused;
use crate::sources::feeds_or_refused;
use circuit_parts::{Parts, SourceId};
use load_routing::LoadError;
use routing_graph::RoutingGraph;
use rr_ids::WireId;
use side_file::Side;
use std::alloc::Global;

// The rules of triplication of parts with the part that feeds each pin.
fn rules_of(
    alloc: Global,
    parts: &Parts<'_>,
    side: &Side,
    feeds: &[Option<SourceId>],
) -> Result<(), LoadError>
    requires { length feeds.now ≡ length (pins_in parts.now) }
    ensures { (c : Circuit) → AreOf c parts.now side.now feeds.now → MatchResult result (λ _. Passes (RulesRefused c)) (IsRefusedBy (RulesRefused c)) }
{
    match Listed::new(alloc, parts, side, feeds) {
        Ok(listed) => rules_or_refused(alloc, &listed),
        Err(_) => Err(LoadError::Memory),
    }
}

// The part that feeds each pin, where the rules of triplication hold.
fn feeds_by_rules(
    alloc: Global,
    parts: &Parts<'_>,
    side: &Side,
    feeds: Vec<Option<SourceId>>,
) -> Result<Vec<Option<SourceId>>, LoadError>
    requires { length feeds.items ≡ length (pins_in parts.now) }
    ensures feeds { IfOk result (λ v. v.items ≡ feeds.items) }
    ensures answer { (c : Circuit) → AreOf c parts.now side.now feeds.items → MatchResult result (λ _. Passes (RulesRefused c)) (IsRefusedBy (RulesRefused c)) }
{
    match rules_of(alloc, parts, side, &feeds) {
        Ok(()) => Ok(feeds),
        Err(error) => Err(error),
    }
}

/// The part that feeds each pin, where all checks of the circuit pass: named cells feed all pins, no table reaches itself, and the rules
/// of triplication hold; else the line of the first check that refuses it. `feeds` has the feed of each wire.
pub fn circuit_or_refused<G: RoutingGraph>(
    alloc: Global,
    graph: &G,
    parts: &Parts<'_>,
    side: &Side,
    feeds: &[Option<WireId>],
) -> Result<Vec<Option<SourceId>>, LoadError>
    ensures { (c : Circuit) → IsFormed c parts.now side.now feeds.now → ((o : ℕ) → In c.routing.outputs o → o < length (G.graph graph.now).wires)
        → MatchResult result (λ v. ArePinFeeds c v.items × Passes (CircuitRefused (G.graph graph.now) c)) (IsRefusedBy (CircuitRefused (G.graph graph.now) c)) }
{
    match feeds_or_refused(alloc, graph, parts, feeds) {
        Ok(of_pins) => feeds_by_rules(alloc, parts, side, of_pins),
        Err(error) => Err(error),
    }
}
