//! The least pin that breaks a rule.

ghost use Rattle.std.specs.Prelude.{◌≡◌, ◌<◌, ◌^◌, None, Some, get_or, length, option_and_then, option_map, slice_get, true};
ghost use Rattle.std.specs.Option.{option_copied};
ghost use Rattle.circuit.specs.Pins.{pins as pins_of};
ghost use Rattle.pin_rules.specs.Flags.{flag_at, owner_flag, pad_flag, part_flag};
ghost use Rattle.pin_rules.specs.Least.{LeastFlagged, is_after, lesser_of, pin_order, with_next};

use crate::PinOwner;
use crate::rules::{PinRule, breaks, flag_of, pad_breaks};
use cell_parts::{PadCell, Pin, Source};
use circuit_parts::{Parts, PinId, SourceId, compare_pins};
use rr_ids::Id;

/// The part with a number, or none.
pub(crate) fn source_at<'s, 'a>(
    sources: &'s [Source<'a>],
    k: Option<SourceId>,
) -> Option<&'s Source<'a>>
    ensures { option_copied result ≡ option_and_then (slice_get sources.now) k }
{
    match k {
        None => None,
        Some(number) => sources.get(number.to_u32() as usize),
    }
}

/// The number of the part that feeds a pin.
pub(crate) fn feed_at(feeds: &[Option<SourceId>], place: usize) -> Option<SourceId>
    ensures { result ≡ get_or feeds.now place None }
{
    if place >= feeds.len() {
        return None;
    }
    feeds[place]
}

// Whether the pin of a part breaks the rule, where the part is read.
fn part_breaks(
    rule: &PinRule<'_>,
    sources: &[Source<'_>],
    read: &[bool],
    part: SourceId,
    pin: u32,
    feed: Option<&Source<'_>>,
) -> bool
    ensures { result ≡ part_flag rule.now read.now part pin (option_copied feed.entry) (slice_get sources.now part) }
{
    match sources.get(part.to_u32() as usize) {
        None => false,
        Some(source) => flag_of(read, part) && breaks(rule, part, source, pin, feed),
    }
}

// Whether the pin of the output pad with a number breaks the rule.
fn output_breaks(
    rule: &PinRule<'_>,
    pads: &[&PadCell],
    number: u32,
    feed: Option<&Source<'_>>,
) -> bool
    ensures { result ≡ pad_flag rule.now (option_copied feed.entry) (option_map (λ pad. pad.now) (slice_get pads.now number)) }
{
    match pads.get(number as usize) {
        None => false,
        Some(pad) => pad_breaks(rule, *pad, feed),
    }
}

// Whether the pin with this number in what it is of breaks the rule.
#[tactic(auto, using(crate::proofs::Finding::output_at))]
fn owner_breaks(
    rule: &PinRule<'_>,
    parts: &Parts<'_>,
    read: &[bool],
    owner: PinOwner,
    pin: u32,
    feed: Option<&Source<'_>>,
) -> bool
    ensures { result ≡ owner_flag rule.now parts.now read.now pin (option_copied feed.entry) (Some owner) }
{
    match owner {
        PinOwner::Part(part) => part_breaks(rule, parts.sources(), read, part, pin, feed),
        PinOwner::Pad(number) => output_breaks(rule, parts.outputs(), number, feed),
    }
}

// Whether a pin breaks the rule.
fn breaks_at(
    rule: &PinRule<'_>,
    parts: &Parts<'_>,
    feeds: &[Option<SourceId>],
    read: &[bool],
    owners: &[PinOwner],
    place: usize,
) -> bool
    ensures { result ≡ flag_at rule.now parts.now feeds.now read.now owners.now place }
{
    let Some(pin) = parts.pins().get(place) else {
        return false;
    };
    let feed = source_at(parts.sources(), feed_at(feeds, place));
    match owners.get(place) {
        None => false,
        Some(owner) => owner_breaks(rule, parts, read, *owner, pin.pin, feed),
    }
}

// Whether a pin comes after another one, by their numbers.
fn comes_after(pins: &[Pin<'_>], first: PinId, second: PinId) -> bool
    ensures { result ≡ is_after pin_order (slice_get pins.now first) (slice_get pins.now second) }
{
    match pins.get(first.to_u32() as usize) {
        None => false,
        Some(p) => match pins.get(second.to_u32() as usize) {
            None => false,
            Some(q) => compare_pins(p, q).is_gt(),
        },
    }
}

// Of the least pin so far and the next one the lesser; there may be none so far.
fn lesser(pins: &[Pin<'_>], least: Option<PinId>, next: PinId) -> PinId
    ensures { result ≡ lesser_of pin_order pins.now least next }
{
    match least {
        None => next,
        Some(first) => {
            if comes_after(pins, first, next) {
                next
            } else {
                first
            }
        }
    }
}

// The least pin so far, with the next one looked at.
fn with_pin(pins: &[Pin<'_>], least: Option<PinId>, place: usize, breaks: bool) -> Option<PinId>
    requires { place < 2 ^ 32 }
    ensures { result ≡ with_next pin_order pins.now least place breaks }
{
    if !breaks {
        return least;
    }
    Some(lesser(pins, least, PinId::from_u32(place as u32)))
}

/// The least pin that breaks a rule. Takes time in proportion to the pins.
pub(crate) fn least_pin(
    rule: &PinRule<'_>,
    parts: &Parts<'_>,
    feeds: &[Option<SourceId>],
    read: &[bool],
    owners: &[PinOwner],
) -> Option<PinId>
    ensures { LeastFlagged pin_order (pins_of parts.now) (λ i. flag_at rule.now parts.now feeds.now read.now owners.now i ≡ true) (length (pins_of parts.now)) result }
{
    let mut least = None;
    for place in 0..parts.pins().len() {
        let breaks = breaks_at(rule, parts, feeds, read, owners, place);
        least = with_pin(parts.pins(), least, place, breaks);
    }
    least
}
