//! What stands at the pins of a table, by the parts that feed them.

ghost use Rattle.std.specs.Prelude.{◌≡◌, ◌↔◌, ◌<◌, ◌≤◌, IfOk, IsTrue, None, get_or, length, slice_get};
ghost use Rattle.std.specs.Option.{option_copied};
ghost use Rattle.circuit.specs.Parts.{sources as sources_of};
ghost use Rattle.part_triples.specs.Numbers.{numbers_of};
ghost use Rattle.records.specs.Side.{Side as SideRecord};
ghost use Rattle.table_masks.specs.Pins.{FeedAlike, IsFirstAlike, PinTold, PinsTold, fed_by};

use crate::table_pin::TablePin;
use cell_parts::Source;
use circuit_parts::{Parts, SourceId};
use part_triples::PartTriples;
use rr_ids::Id;
use std::alloc::{AllocError, Global};

// The part that feeds a pin.
fn feed_at(feeds: &[Option<SourceId>], place: usize) -> Option<SourceId>
    requires { place < length feeds.now }
    ensures { result ≡ get_or feeds.now place None }
{
    feeds[place]
}

// Whether a part of the same triple as another one feeds a pin.
fn is_alike(
    parts: &Parts<'_>,
    triples: &PartTriples,
    feed: Option<SourceId>,
    part: SourceId,
) -> bool
    ensures { (side : SideRecord) → triples.now ≡ numbers_of side (sources_of parts.now) → IsTrue result ↔ FeedAlike side (sources_of parts.now) feed part }
{
    match feed {
        None => false,
        Some(other) => triples.same(parts, other, part),
    }
}

// The first pin that a part of the same triple feeds as the one at a place, by the part that feeds that.
fn first_alike(
    parts: &Parts<'_>,
    triples: &PartTriples,
    feeds: &[Option<SourceId>],
    part: SourceId,
    place: usize,
) -> usize
    requires { place < length feeds.now }
    ensures within { result ≤ place }
    ensures first { (side : SideRecord) → triples.now ≡ numbers_of side (sources_of parts.now) → IsFirstAlike side (sources_of parts.now) feeds.now part place result }
{
    for i in 0..place {
        if is_alike(parts, triples, feed_at(feeds, i), part) {
            return i;
        }
    }
    place
}

/// The part with a number.
pub(crate) fn source_at<'s, 'a>(sources: &'s [Source<'a>], k: SourceId) -> Option<&'s Source<'a>>
    ensures { option_copied result ≡ slice_get sources.now k }
{
    sources.get(k.to_u32() as usize)
}

// What stands at a pin.
fn table_pin(
    parts: &Parts<'_>,
    triples: &PartTriples,
    feeds: &[Option<SourceId>],
    place: usize,
) -> TablePin
    requires { place < length feeds.now }
    ensures { (side : SideRecord) → triples.now ≡ numbers_of side (sources_of parts.now) → PinTold side (fed_by (sources_of parts.now) feeds.now) place result }
{
    match feed_at(feeds, place) {
        None => TablePin::Open,
        Some(part) => match source_at(parts.sources(), part) {
            None => TablePin::Open,
            Some(source) => {
                let first = first_alike(parts, triples, feeds, part, place);
                TablePin::Fed {
                    first,
                    domain: source.domain,
                }
            }
        },
    }
}

/// What stands at the pins that these parts feed.
pub(crate) fn table_pins(
    alloc: Global,
    parts: &Parts<'_>,
    triples: &PartTriples,
    feeds: &[Option<SourceId>],
) -> Result<Vec<TablePin>, AllocError>
    ensures long { IfOk result (λ v. length v.items ≡ length feeds.now) }
    ensures told { IfOk result (λ v. (side : SideRecord) → triples.now ≡ numbers_of side (sources_of parts.now) → PinsTold side (fed_by (sources_of parts.now) feeds.now) v.items) }
{
    let mut pins = Vec::with_capacity(alloc, feeds.len())?;
    for place in 0..feeds.len() {
        pins.push(table_pin(parts, triples, feeds, place))?;
    }
    Ok(pins)
}
