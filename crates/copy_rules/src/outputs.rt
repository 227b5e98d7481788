//! Whether the output pads of a triple are fed by different triples.

ghost use Rattle.std.specs.Prelude.{◌≡◌, ◌↔◌, ◌<◌, IsTrue, get_or, length};
ghost use Rattle.circuit.specs.Circuits.{Circuit};
ghost use Rattle.circuit.specs.Pins.{pins as pins_in};
ghost use Rattle.design_checks.specs.CopyChecks.{OutputsDiffer};
ghost use Rattle.records.specs.Side.{Triple};
ghost use Rattle.table_masks.specs.Least.{ShowsFeeds};
ghost use Rattle.copy_rules.specs.Outputs.{AreOutputPins, FedUnlike, SomeUnlike, UnlikeFrom};

use crate::feeds::fed_alike;
use circuit_parts::{Parts, PinId, SourceId};
use part_triples::PartTriples;
use rr_ids::Id;

// Whether there is a pin with a number.
fn is_known(parts: &Parts<'_>, pin: PinId) -> bool
    ensures { IsTrue result ↔ (pin < length (pins_in parts.now)) }
{
    (pin.to_u32() as usize) < parts.pins().len()
}

// Whether two pins are there that aren't fed by the same triple.
fn unlike_at(
    parts: &Parts<'_>,
    feeds: &[Option<SourceId>],
    triples: &PartTriples,
    p: PinId,
    q: PinId,
) -> bool
    ensures { (c : Circuit) → ShowsFeeds c parts.now feeds.now triples.now → IsTrue result ↔ FedUnlike c p q }
{
    if !is_known(parts, p) {
        return false;
    }
    if !is_known(parts, q) {
        return false;
    }
    !fed_alike(parts, feeds, triples, p, q)
}

// One of the pins.
fn pin_at(pins: &[PinId], place: usize) -> PinId
    requires { place < length pins.now }
    ensures { result ≡ get_or pins.now place 0 }
{
    pins[place]
}

// Whether one of the pins isn't fed by the same triple as another one.
fn unlike_from(
    parts: &Parts<'_>,
    feeds: &[Option<SourceId>],
    triples: &PartTriples,
    pins: &[PinId],
    first: PinId,
) -> bool
    ensures { (c : Circuit) → ShowsFeeds c parts.now feeds.now triples.now → IsTrue result ↔ UnlikeFrom c pins.now first }
{
    for i in 0..pins.len() {
        if unlike_at(parts, feeds, triples, first, pin_at(pins, i)) {
            return true;
        }
    }
    false
}

// Whether two of the pins aren't fed by the same triple.
fn some_unlike(
    parts: &Parts<'_>,
    feeds: &[Option<SourceId>],
    triples: &PartTriples,
    pins: &[PinId],
) -> bool
    ensures { (c : Circuit) → ShowsFeeds c parts.now feeds.now triples.now → IsTrue result ↔ SomeUnlike c pins.now }
{
    for i in 0..pins.len() {
        if unlike_from(parts, feeds, triples, pins, pin_at(pins, i)) {
            return true;
        }
    }
    false
}

/// Whether two output pads of a triple, whose pins are lent, aren't fed by the same triple.
pub fn outputs_differ(
    parts: &Parts<'_>,
    feeds: &[Option<SourceId>],
    triples: &PartTriples,
    pins: &[PinId],
) -> bool
    ensures { (c : Circuit) → ShowsFeeds c parts.now feeds.now triples.now → (t : Triple) → AreOutputPins c t pins.now → IsTrue result ↔ OutputsDiffer c t }
{
    some_unlike(parts, feeds, triples, pins)
}
