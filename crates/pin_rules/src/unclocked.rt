//! Registers that aren't clocked.

ghost use Rattle.std.specs.Prelude.{◌≡◌, ◌<◌, ◌^◌, Some, length, slice_get, true};
ghost use Rattle.answers.specs.Refusals.{NotClocked};
ghost use Rattle.cell_parts.specs.CellViews.{input_of};
ghost use Rattle.circuit.specs.Circuits.{Circuit};
ghost use Rattle.circuit.specs.Parts.{sources as sources_of};
ghost use Rattle.design_checks.specs.PinChecks.{RegistersUnclocked};
ghost use Rattle.pin_feeds.specs.Told.{Tells};
ghost use Rattle.pin_rules.specs.Least.{FindsPart, LeastFlagged, is_after, lesser_of, part_order, with_next};
ghost use Rattle.pin_rules.specs.ReadParts.{AreReadParts};
ghost use Rattle.pin_rules.specs.Unclocked.{is_clocked as is_clocked_in, kind_unclocked, takes_wire as takes_wire_in, unclocked_at as is_unclocked_at};

use crate::least::{feed_at, source_at};
use crate::rules::{flag_of, is_clock_feed};
use cell_parts::{Input, Kind, RegisterCell, Source};
use circuit_parts::{Parts, SourceId, compare_parts};
use rr_ids::Id;

// Whether a register takes a wire.
fn takes_wire(input: Input) -> bool
    ensures { result ≡ takes_wire_in (input_of input) }
{
    match input {
        Input::Wire(_) | Input::NotWire(_) => true,
        Input::Zero | Input::One => false,
    }
}

// Whether a clock feeds the clock pin of a register, which is its last pin.
fn is_clocked(
    parts: &Parts<'_>,
    feeds: &[Option<SourceId>],
    number: SourceId,
    register: &RegisterCell,
) -> bool
    requires known { number < length (sources_of parts.now) }
    requires few { length (sources_of parts.now) < 2 ^ 32 }
    ensures { result ≡ is_clocked_in parts.now feeds.now number register.now }
{
    if !takes_wire(register.clock) {
        return false;
    }
    let end = parts.first_pin(SourceId::from_u32(number.to_u32() + 1));
    is_clock_feed(source_at(parts.sources(), feed_at(feeds, end.saturating_sub(1))))
}

// Whether a part is a register that no clock feeds.
fn is_unclocked(
    parts: &Parts<'_>,
    feeds: &[Option<SourceId>],
    number: SourceId,
    source: &Source<'_>,
) -> bool
    requires known { number < length (sources_of parts.now) }
    requires few { length (sources_of parts.now) < 2 ^ 32 }
    ensures { result ≡ kind_unclocked parts.now feeds.now number source.now.kind }
{
    match source.kind {
        Kind::Register(register) => !is_clocked(parts, feeds, number, register),
        Kind::Table(_) | Kind::Input | Kind::Clock => false,
    }
}

// Whether the part with a number is read, and a register that no clock feeds.
fn unclocked_at(parts: &Parts<'_>, feeds: &[Option<SourceId>], read: &[bool], place: usize) -> bool
    requires { place < length (sources_of parts.now) }
    ensures { result ≡ is_unclocked_at parts.now feeds.now read.now place }
{
    match parts.sources().get(place) {
        None => false,
        Some(source) => {
            let number = SourceId::from_u32(place as u32);
            flag_of(read, number) && is_unclocked(parts, feeds, number, source)
        }
    }
}

// Whether a part comes after another one, by their numbers.
fn comes_after(sources: &[Source<'_>], first: SourceId, second: SourceId) -> bool
    ensures { result ≡ is_after part_order (slice_get sources.now first) (slice_get sources.now second) }
{
    match sources.get(first.to_u32() as usize) {
        None => false,
        Some(s) => match sources.get(second.to_u32() as usize) {
            None => false,
            Some(u) => compare_parts(s, u).is_gt(),
        },
    }
}

// Of the least part so far and the next one the lesser; there may be none so far.
fn lesser(sources: &[Source<'_>], least: Option<SourceId>, next: SourceId) -> SourceId
    ensures { result ≡ lesser_of part_order sources.now least next }
{
    match least {
        None => next,
        Some(first) => {
            if comes_after(sources, first, next) {
                next
            } else {
                first
            }
        }
    }
}

// The least part so far, with the next one looked at.
fn with_part(
    sources: &[Source<'_>],
    least: Option<SourceId>,
    place: usize,
    unclocked: bool,
) -> Option<SourceId>
    requires { place < 2 ^ 32 }
    ensures { result ≡ with_next part_order sources.now least place unclocked }
{
    if !unclocked {
        return least;
    }
    Some(lesser(sources, least, SourceId::from_u32(place as u32)))
}

// The least part that is read, and a register that no clock feeds.
fn least_unclocked(parts: &Parts<'_>, feeds: &[Option<SourceId>], read: &[bool]) -> Option<SourceId>
    ensures { LeastFlagged part_order (sources_of parts.now) (λ k. is_unclocked_at parts.now feeds.now read.now k ≡ true) (length (sources_of parts.now)) result }
{
    let mut least = None;
    for place in 0..parts.sources().len() {
        let unclocked = unclocked_at(parts, feeds, read, place);
        least = with_part(parts.sources(), least, place, unclocked);
    }
    least
}

/// The least register that is read and that no clock pad clocks; `None` exactly where there is none. Takes time in proportion to the
/// parts.
pub fn not_clocked(parts: &Parts<'_>, feeds: &[Option<SourceId>], read: &[bool]) -> Option<SourceId>
    requires { AreReadParts parts.now feeds.now read.now }
    ensures { (c : Circuit) → c.cells ≡ parts.now → Tells c feeds.now → FindsPart c (RegistersUnclocked c) NotClocked result }
{
    least_unclocked(parts, feeds, read)
}
