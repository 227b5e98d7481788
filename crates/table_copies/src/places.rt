//! Parts in order, each once, and where a part stands among them.

ghost use Rattle.std.specs.Prelude.{◌≡◌, OnOk, map};
ghost use Rattle.attempts.specs.PinOrder.{part_cmp};
ghost use Rattle.fabric_laws.specs.Insertion.{inserted};
ghost use Rattle.table_copies.specs.Places.{IsPlace};

use cell_parts::Source;
use circuit_parts::compare_parts;
use std::alloc::AllocError;
use std::cmp::Ordering;

/// Where a part stands among parts in order, or the place before which it would stand.
#[derive(Clone, Copy)]
pub(crate) enum Place {
    At(usize),
    Before(usize),
}

/// The place of a part.
pub(crate) fn place_of(parts: &[Source<'_>], part: &Source<'_>) -> Place
    ensures { IsPlace (map (λ s. s.part) parts.now) part.now.part result }
{
    for (place, other) in parts.iter().enumerate() {
        match compare_parts(part, other) {
            Ordering::Less => return Place::Before(place),
            Ordering::Equal => return Place::At(place),
            Ordering::Greater => {}
        }
    }
    Place::Before(parts.len())
}

/// Puts a part in, unless it stands there.
pub(crate) fn put_in<'s>(parts: &mut Vec<Source<'s>>, part: Source<'s>) -> Result<(), AllocError>
    ensures { OnOk result (map (λ s. s.part) parts.new.items ≡ inserted part_cmp part.entry.part (map (λ s. s.part) parts.old.items)) }
{
    match place_of(parts, &part) {
        Place::At(_) => Ok(()),
        Place::Before(place) => {
            parts.insert(place, part)?;
            Ok(())
        }
    }
}
