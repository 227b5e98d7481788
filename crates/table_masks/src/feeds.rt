//! The parts that feed the pins of a part.

ghost use Rattle.std.specs.Prelude.{◌≡◌, ◌+◌, ◌<◌, ◌≤◌, length, slice_range};
ghost use Rattle.circuit.specs.Parts.{sources as sources_of};
ghost use Rattle.circuit.specs.Pins.{pins as pins_in};
ghost use Rattle.circuit_parts.specs.Flat.{first_pin};

use circuit_parts::{Parts, SourceId};
use rr_ids::Id;

// The entries from one place up to another one.
fn part(feeds: &[Option<SourceId>], start: usize, end: usize) -> &[Option<SourceId>]
    requires order { start ≤ end }
    requires within { end ≤ length feeds.now }
    ensures { result.now ≡ slice_range feeds.now start end }
{
    &feeds[start..end]
}

/// What feeds the pins of a part, of the parts that feed all pins.
#[tactic(auto, using(circuit_parts::proofs::Starts::first_rises))]
pub(crate) fn feeds_of<'f>(
    parts: &Parts<'_>,
    feeds: &'f [Option<SourceId>],
    place: usize,
) -> &'f [Option<SourceId>]
    requires long { length feeds.now ≡ length (pins_in parts.now) }
    requires known { place < length (sources_of parts.now) }
    ensures { result.now ≡ slice_range feeds.now (first_pin parts.now place) (first_pin parts.now (place + 1)) }
{
    // Their contract says that there are few, so that numbers fit.
    let _ = parts.sources();
    let start = parts.first_pin(SourceId::from_u32(place as u32));
    let end = parts.first_pin(SourceId::from_u32(place as u32 + 1));
    part(feeds, start, end)
}
