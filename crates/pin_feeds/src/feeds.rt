//! What feeds each pin.

ghost use Rattle.std.specs.Prelude.{◌≡◌, ◌↔◌, IfOk, IsTrue, MatchResult, length, map};
ghost use Rattle.circuit.specs.Circuits.{Circuit};
ghost use Rattle.circuit.specs.Pins.{pins as pins_of};
ghost use Rattle.links.specs.Links.{IsClean};
ghost use Rattle.wire_feeds.specs.Rows.{AreFeeds};
ghost use Rattle.pin_feeds.specs.Outputs.{part_at};
ghost use Rattle.pin_feeds.specs.PinFeeds.{ArePinFeeds};
ghost use Rattle.pin_feeds.specs.Unnamed.{Refuses};

use crate::FeedError;
use crate::outputs::{feed_at, part_with, parts_of_outputs};
use crate::unnamed::least_unnamed;
use cell_parts::Pin;
use circuit_parts::{Parts, SourceId};
use rr_ids::{Id, WireId};
use std::alloc::{AllocError, Global};

// The part whose output feeds a wire.
fn part_of(
    feeds: &[Option<WireId>],
    of_wires: &[Option<SourceId>],
    wire: WireId,
) -> Option<SourceId>
    ensures { result ≡ part_at feeds.now of_wires.now wire }
{
    match feed_at(feeds, wire) {
        Some(feed) => part_with(of_wires, feed),
        None => None,
    }
}

// The part that feeds each pin.
#[tactic(auto, using(circuit_parts::proofs::Gathered::map_more, circuit_parts::proofs::Gathered::map_all))]
fn parts_of_pins(
    alloc: Global,
    pins: &[Pin<'_>],
    feeds: &[Option<WireId>],
    of_wires: &[Option<SourceId>],
) -> Result<Vec<Option<SourceId>>, AllocError>
    ensures { IfOk result (λ v. v.items ≡ map (λ p. part_at feeds.now of_wires.now p.wire) pins.now) }
{
    let mut parts = Vec::with_capacity(alloc, pins.len())?;
    for pin in pins {
        parts.push(part_of(feeds, of_wires, pin.wire))?;
    }
    Ok(parts)
}

/// The part that feeds each pin, by numbers, or `None`; `feeds` has the feed of each wire. `Unnamed` exactly where a pin's feed is
/// no output of a named cell. Takes time in proportion to wires, parts and pins.
pub fn pin_feeds(
    alloc: Global,
    parts: &Parts<'_>,
    feeds: &[Option<WireId>],
) -> Result<Vec<Option<SourceId>>, FeedError>
    ensures long { IfOk result (λ v. length v.items ≡ length (pins_of parts.now)) }
    ensures answer { (c : Circuit) → c.cells ≡ parts.now → IsClean c.routing → AreFeeds c.routing feeds.now
        → MatchResult result (λ v. ArePinFeeds c v.items) (Refuses c) }
{
    let of_wires = parts_of_outputs(alloc, parts, feeds.len())?;
    match least_unnamed(parts.pins(), feeds, &of_wires) {
        Some(unnamed) => Err(FeedError::Unnamed(unnamed)),
        None => {
            let of_pins = parts_of_pins(alloc, parts.pins(), feeds, &of_wires)?;
            Ok(of_pins)
        }
    }
}

// Whether two pins are fed by the same part, or none is fed.
fn same_feed(a: Option<SourceId>, b: Option<SourceId>) -> bool
    ensures { IsTrue result ↔ (a ≡ b) }
{
    match a {
        Some(first) => match b {
            Some(second) => first.to_u32() == second.to_u32(),
            None => false,
        },
        None => b.is_none(),
    }
}

/// Whether two lists of feeds are equal.
#[tactic(auto, using(crate::proofs::Equal::one_more_same, crate::proofs::Equal::all_same, crate::proofs::Equal::one_differs))]
pub fn same(a: &[Option<SourceId>], b: &[Option<SourceId>]) -> bool
    ensures { IsTrue result ↔ (a.now ≡ b.now) }
{
    if a.len() != b.len() {
        return false;
    }
    for i in 0..a.len() {
        if !same_feed(a[i], b[i]) {
            return false;
        }
    }
    true
}
