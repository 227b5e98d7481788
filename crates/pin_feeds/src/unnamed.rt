//! The least pin that is fed by an unnamed cell.

ghost use Rattle.std.specs.Prelude.{◌≡◌, ◌+◌, ◌<◌, ◌^◌, Some, length, slice_get};
ghost use Rattle.circuit.specs.Pins.{Pin as PinRecord};
ghost use Rattle.attempts.specs.PinOrder.{pin_cmp};
ghost use Rattle.pin_feeds.specs.LeastUnnamed.{IsLeastOf, LeastSoFar};
ghost use Rattle.pin_feeds.specs.Outputs.{unnamed_at};

use crate::UnnamedFeed;
use crate::outputs::{feed_at, part_with};
use cell_parts::Pin;
use circuit_parts::{PinId, SourceId, compare_pins};
use rr_ids::{Id, WireId};
use std::cmp::Ordering;

// The feed of a wire, where it is the output of no part.
fn unnamed_feed(
    feeds: &[Option<WireId>],
    parts: &[Option<SourceId>],
    wire: WireId,
) -> Option<WireId>
    ensures { result ≡ unnamed_at feeds.now parts.now wire }
{
    match feed_at(feeds, wire) {
        Some(feed) => match part_with(parts, feed) {
            Some(_) => None,
            None => Some(feed),
        },
        None => None,
    }
}

// The order of two pins by their places.
fn order_at(pins: &[Pin<'_>], a: usize, b: usize) -> Ordering
    requires first { a < length pins.now }
    requires second { b < length pins.now }
    ensures { (p q : PinRecord) → slice_get pins.now a ≡ Some p → slice_get pins.now b ≡ Some q → result ≡ pin_cmp p.ref q.ref }
{
    compare_pins(&pins[a], &pins[b])
}

// Of the least pin so far with such a feed and the next one the lesser; there may be none so far.
fn lesser(
    pins: &[Pin<'_>],
    feeds: &[Option<WireId>],
    parts: &[Option<SourceId>],
    least: Option<UnnamedFeed>,
    next: UnnamedFeed,
) -> UnnamedFeed
    requires below { next.pin < length pins.now }
    requires fed { (p : PinRecord) → slice_get pins.now next.pin ≡ Some p → unnamed_at feeds.now parts.now p.wire ≡ Some next.feed }
    requires least { LeastSoFar (unnamed_at feeds.now parts.now) pins.now next.pin least }
    ensures { IsLeastOf (unnamed_at feeds.now parts.now) pins.now (next.pin + 1) result }
{
    match least {
        None => next,
        Some(first) => {
            let place = first.pin.to_u32() as usize;
            match order_at(pins, place, next.pin.to_u32() as usize) {
                Ordering::Greater => next,
                Ordering::Less => first,
                Ordering::Equal => first,
            }
        }
    }
}

// The least so far, with the pin at a place looked at behind those before it.
fn with_pin(
    pins: &[Pin<'_>],
    feeds: &[Option<WireId>],
    parts: &[Option<SourceId>],
    least: Option<UnnamedFeed>,
    place: usize,
) -> Option<UnnamedFeed>
    requires below { place < length pins.now }
    requires few { length pins.now < 2 ^ 32 }
    requires least { LeastSoFar (unnamed_at feeds.now parts.now) pins.now place least }
    ensures { LeastSoFar (unnamed_at feeds.now parts.now) pins.now (place + 1) result }
{
    let pin = &pins[place];
    match unnamed_feed(feeds, parts, pin.wire) {
        None => least,
        Some(feed) => {
            let next = UnnamedFeed {
                pin: PinId::from_u32(place as u32),
                feed,
            };
            Some(lesser(pins, feeds, parts, least, next))
        }
    }
}

/// The least pin whose feed is the output of no part, with that feed. Takes time in proportion to the pins.
pub(crate) fn least_unnamed(
    pins: &[Pin<'_>],
    feeds: &[Option<WireId>],
    parts: &[Option<SourceId>],
) -> Option<UnnamedFeed>
    requires { length pins.now < 2 ^ 32 }
    ensures { LeastSoFar (unnamed_at feeds.now parts.now) pins.now (length pins.now) result }
{
    let mut least = None;
    for place in 0..pins.len() {
        least = with_pin(pins, feeds, parts, least, place);
    }
    least
}
