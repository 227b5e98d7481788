//! What feeds pins, and whether parts of one triple feed two of them.

ghost use Rattle.std.specs.Prelude.{◌≡◌, ◌↔◌, ◌<◌, IsTrue, None, Some, get_or, length, slice_get};
ghost use Rattle.circuit.specs.Circuits.{Circuit};
ghost use Rattle.circuit.specs.Parts.{sources as sources_of};
ghost use Rattle.circuit.specs.Pins.{Pin as PinRecord, pins as pins_in};
ghost use Rattle.circuit.specs.Registers.{FedAlike};
ghost use Rattle.part_triples.specs.Numbers.{numbers_of};
ghost use Rattle.records.specs.Side.{Side as SideRecord};
ghost use Rattle.table_masks.specs.Least.{ShowsFeeds};
ghost use Rattle.copy_rules.specs.Feeds.{IsFeedOf, IsNumbered, SameFeeds};

use cell_parts::Pin;
use circuit_parts::{Parts, PinId, SourceId};
use part_triples::PartTriples;
use rr_ids::Id;

// The part that feeds a pin.
fn feed_at(feeds: &[Option<SourceId>], place: usize) -> Option<SourceId>
    ensures { result ≡ get_or feeds.now place None }
{
    if place >= feeds.len() {
        return None;
    }
    feeds[place]
}

/// Whether two parts are there that have one triple.
pub(crate) fn same_feed(
    parts: &Parts<'_>,
    triples: &PartTriples,
    a: Option<SourceId>,
    b: Option<SourceId>,
) -> bool
    ensures { (side : SideRecord) → triples.now ≡ numbers_of side (sources_of parts.now) → IsTrue result ↔ SameFeeds side (sources_of parts.now) a b }
{
    match a {
        None => false,
        Some(first) => match b {
            None => false,
            Some(second) => triples.same(parts, first, second),
        },
    }
}

/// Whether parts of one triple feed two pins. `feeds` has the part that feeds each pin.
pub fn fed_alike(
    parts: &Parts<'_>,
    feeds: &[Option<SourceId>],
    triples: &PartTriples,
    p: PinId,
    q: PinId,
) -> bool
    ensures { (c : Circuit) → ShowsFeeds c parts.now feeds.now triples.now → (x y : PinRecord) → slice_get (pins_in parts.now) p ≡ Some x → slice_get (pins_in parts.now) q ≡ Some y
        → IsTrue result ↔ FedAlike c x y }
{
    let first = feed_at(feeds, p.to_u32() as usize);
    let second = feed_at(feeds, q.to_u32() as usize);
    same_feed(parts, triples, first, second)
}

// The place in a row of the pin with a number.
fn place_of(row: &[Pin<'_>], number: u32) -> Option<usize>
    ensures { IsNumbered row.now number result }
{
    for (place, pin) in row.iter().enumerate() {
        if pin.pin == number {
            return Some(place);
        }
    }
    None
}

/// The part that feeds the pin of a part with a number.
pub(crate) fn feed_of(
    parts: &Parts<'_>,
    feeds: &[Option<SourceId>],
    part: SourceId,
    number: u32,
) -> Option<SourceId>
    requires { part < length (sources_of parts.now) }
    ensures { (c : Circuit) → c.cells ≡ parts.now → IsFeedOf c feeds.now part number result }
{
    // Their contract says that there are few, so that places fit.
    let _ = parts.pins();
    let row = parts.pins_of(part);
    match place_of(row, number) {
        None => None,
        Some(place) => feed_at(feeds, parts.first_pin(part) + place),
    }
}
