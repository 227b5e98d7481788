//! What feeds the pins of three tables.

ghost use Rattle.std.specs.Prelude.{◌≡◌, ◌+◌, ◌<◌, ◌≤◌, None, get_or, length, slice_range};
ghost use Rattle.circuit.specs.Parts.{sources as sources_of};
ghost use Rattle.circuit.specs.Pins.{pins as pins_in};
ghost use Rattle.circuit_parts.specs.Flat.{first_pin};
ghost use Rattle.table_copies.specs.Rows.{AreRows, IsRow};

use circuit_parts::{Parts, SourceId};
use part_copies::CopyNumbers;
use rr_ids::Id;

/// For each of three parts what feeds its pins.
#[derive(Clone, Copy)]
pub(crate) struct Rows<'f> {
    pub first: &'f [Option<SourceId>],
    pub second: &'f [Option<SourceId>],
    pub third: &'f [Option<SourceId>],
}

// The entries from one place up to another one.
fn between(feeds: &[Option<SourceId>], start: usize, end: usize) -> &[Option<SourceId>]
    ensures { start ≤ end → end ≤ length feeds.now → result.now ≡ slice_range feeds.now start end }
{
    if start > end || end > feeds.len() {
        return &feeds[..0];
    }
    &feeds[start..end]
}

// What feeds the pins of a part.
#[tactic(auto, using(circuit_parts::proofs::Starts::first_rises))]
fn row_at<'f>(
    parts: &Parts<'_>,
    feeds: &'f [Option<SourceId>],
    part: SourceId,
) -> &'f [Option<SourceId>]
    ensures { part < length (sources_of parts.now) → length feeds.now ≡ length (pins_in parts.now)
        → result.now ≡ slice_range feeds.now (first_pin parts.now part) (first_pin parts.now (part + 1)) }
{
    if part.to_u32() as usize >= parts.sources().len() {
        return between(feeds, 0, 0);
    }
    let start = parts.first_pin(part);
    let end = parts.first_pin(SourceId::from_u32(part.to_u32() + 1));
    between(feeds, start, end)
}

// What feeds the pins of a part, if there is one.
fn row_of<'f>(
    parts: &Parts<'_>,
    feeds: &'f [Option<SourceId>],
    copy: Option<SourceId>,
) -> &'f [Option<SourceId>]
    ensures { IsRow parts.now feeds.now copy result.now }
{
    match copy {
        None => between(feeds, 0, 0),
        Some(part) => row_at(parts, feeds, part),
    }
}

/// What feeds the pins of three copies.
pub(crate) fn rows_of<'f>(
    parts: &Parts<'_>,
    feeds: &'f [Option<SourceId>],
    copies: &CopyNumbers,
) -> Rows<'f>
    ensures { AreRows parts.now feeds.now copies.now result.first.now result.second.now result.third.now }
{
    Rows {
        first: row_of(parts, feeds, copies.first),
        second: row_of(parts, feeds, copies.second),
        third: row_of(parts, feeds, copies.third),
    }
}

/// What feeds the pin with a number of a part.
pub(crate) fn feed_at(row: &[Option<SourceId>], pin: usize) -> Option<SourceId>
    ensures { result ≡ get_or row.now pin None }
{
    if pin >= row.len() {
        return None;
    }
    row[pin]
}
