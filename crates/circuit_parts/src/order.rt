//! The order of parts and pins.

ghost use Rattle.std.specs.Prelude.{◌≡◌};
ghost use Rattle.attempts.specs.PinOrder.{number_of as number_in, part_cmp, pin_cmp, rank_of as rank_in};
ghost use Rattle.cell_parts.specs.PartViews.{part_of};

use cell_parts::{PartKind, Pin, Source};
use std::cmp::Ordering;

// Tables come before registers.
fn rank_of(part: PartKind) -> u32
    ensures { result ≡ rank_in (part_of part) }
{
    match part {
        PartKind::Table(_) => 0,
        PartKind::Register(_) => 1,
        PartKind::Pad => 2,
    }
}

// The number of a part in its cell.
fn number_of(part: PartKind) -> u32
    ensures { result ≡ number_in (part_of part) }
{
    match part {
        PartKind::Table(number) => number,
        PartKind::Register(number) => number,
        PartKind::Pad => 0,
    }
}

/// The order of two parts: by the name of their cell, tables before registers, then by number.
pub fn compare_parts(a: &Source<'_>, b: &Source<'_>) -> Ordering
    ensures { result ≡ part_cmp a.now.part b.now.part }
{
    let ranks = rank_of(a.part).cmp(&rank_of(b.part));
    let numbers = number_of(a.part).cmp(&number_of(b.part));
    a.cell.cmp(b.cell).then(ranks.then(numbers))
}

/// The order of two pins: by their parts, then by number.
pub fn compare_pins(a: &Pin<'_>, b: &Pin<'_>) -> Ordering
    ensures { result ≡ pin_cmp a.now.ref b.now.ref }
{
    let ranks = rank_of(a.part).cmp(&rank_of(b.part));
    let numbers = number_of(a.part).cmp(&number_of(b.part));
    let parts = a.cell.cmp(b.cell).then(ranks.then(numbers));
    parts.then(a.pin.cmp(&b.pin))
}
