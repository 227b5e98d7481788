//! Whether the tables of a circuit mask other domains.

ghost use Rattle.std.specs.Prelude.{◌≡◌, ◌+◌, ◌<◌, ◌≤◌, IfOk, MatchOption, Some, false, get_or, length, slice_get};
ghost use Rattle.circuit.specs.Cells.{TableCell as TableRecord};
ghost use Rattle.circuit.specs.Circuits.{Circuit};
ghost use Rattle.circuit.specs.Parts.{OfTable, sources as sources_of};
ghost use Rattle.circuit.specs.Pins.{pins as pins_in};
ghost use Rattle.table_masks.specs.Masking.{LeastReached};
ghost use Rattle.table_masks.specs.Least.{IsLesser, LeastSoFar, Reached, Shows, ShowsFeeds, TellsMasks};

use crate::feeds::feeds_of;
use crate::masking::least_reached;
use crate::pins::{source_at, table_pins};
use crate::table_pin::TablePin;
use crate::unmasked::Unmasked;
use cell_parts::{Kind, Source, TableCell};
use circuit_parts::{Parts, SourceId, compare_parts};
use part_triples::PartTriples;
use rr_ids::{Domain, Id};
use std::alloc::{AllocError, Global};
use std::cmp::Ordering;

// The table that a part is.
fn table_of<'a>(source: &Source<'a>) -> Option<&'a TableCell>
    ensures { MatchOption result ((t : TableRecord) → source.now.kind ≡ OfTable t → ⊥) (λ t. source.now.kind ≡ OfTable t.now) }
{
    match source.kind {
        Kind::Table(table) => Some(table),
        Kind::Register(_) | Kind::Input | Kind::Clock => None,
    }
}

// The least address to which another domain leads, of a table with no more than four pins.
fn least_of(word: u16, pins: &[TablePin], own: Domain) -> Option<u32>
    ensures { length pins.now ≤ 4 → LeastReached word pins.now own result }
{
    if pins.len() > 4 {
        return None;
    }
    least_reached(word, pins, own)
}

// The least address at which a table fails.
fn reached_by(
    alloc: Global,
    parts: &Parts<'_>,
    feeds: &[Option<SourceId>],
    triples: &PartTriples,
    source: &Source<'_>,
    table: &TableCell,
    place: usize,
) -> Result<Option<u32>, AllocError>
    requires long { length feeds.now ≡ length (pins_in parts.now) }
    requires known { place < length (sources_of parts.now) }
    requires at { slice_get (sources_of parts.now) place ≡ Some source.now }
    requires is_table { source.now.kind ≡ OfTable table.now }
    ensures { IfOk result (λ r. (c : Circuit) → ShowsFeeds c parts.now feeds.now triples.now → Reached c source.now r) }
{
    let pins = table_pins(alloc, parts, triples, feeds_of(parts, feeds, place))?;
    Ok(least_of(table.word, &pins, source.domain))
}

// The least address at which a part fails, where it is a table that fails.
fn reached_at(
    alloc: Global,
    parts: &Parts<'_>,
    feeds: &[Option<SourceId>],
    triples: &PartTriples,
    source: &Source<'_>,
    place: usize,
) -> Result<Option<u32>, AllocError>
    requires long { length feeds.now ≡ length (pins_in parts.now) }
    requires known { place < length (sources_of parts.now) }
    requires at { slice_get (sources_of parts.now) place ≡ Some source.now }
    ensures { IfOk result (λ r. (c : Circuit) → ShowsFeeds c parts.now feeds.now triples.now → Reached c source.now r) }
{
    match table_of(source) {
        None => Ok(None),
        Some(table) => reached_by(alloc, parts, feeds, triples, source, table, place),
    }
}

// Of the least table so far and the next one the lesser; there may be none so far.
fn lesser(
    parts: &Parts<'_>,
    least: Option<Unmasked>,
    next: Unmasked,
    source: &Source<'_>,
) -> Unmasked
    ensures { IsLesser (sources_of parts.now) least next source.now result }
{
    match least {
        None => next,
        Some(first) => match source_at(parts.sources(), first.part) {
            None => next,
            Some(earlier) => match compare_parts(earlier, source) {
                Ordering::Greater => next,
                Ordering::Less => first,
                Ordering::Equal => first,
            },
        },
    }
}

// Whether a part is read.
fn is_read(read: &[bool], place: usize) -> bool
    ensures { result ≡ get_or read.now place false }
{
    place < read.len() && read[place]
}

// The least table so far that fails, with the part at a place looked at behind those before it.
fn with_part(
    alloc: Global,
    parts: &Parts<'_>,
    feeds: &[Option<SourceId>],
    read: &[bool],
    triples: &PartTriples,
    least: Option<Unmasked>,
    place: usize,
) -> Result<Option<Unmasked>, AllocError>
    requires long { length feeds.now ≡ length (pins_in parts.now) }
    requires known { place < length (sources_of parts.now) }
    ensures { IfOk result (λ next. (c : Circuit) → Shows c parts.now feeds.now triples.now read.now → LeastSoFar c read.now place least → LeastSoFar c read.now (place + 1) next) }
{
    if !is_read(read, place) {
        return Ok(least);
    }
    let source = &parts.sources()[place];
    match reached_at(alloc, parts, feeds, triples, source, place)? {
        None => Ok(least),
        Some(reached) => {
            let part = SourceId::from_u32(place as u32);
            let next = Unmasked { part, reached };
            Ok(Some(lesser(parts, least, next, source)))
        }
    }
}

/// The least read table, by the order of parts, whose output pins that one other domain feeds change, with the least address that
/// they lead to; `None` exactly where there is none. `feeds` has the part that feeds each pin, and `read` whether each part feeds
/// one. Takes time in proportion to parts and pins.
pub fn not_masking(
    alloc: Global,
    parts: &Parts<'_>,
    feeds: &[Option<SourceId>],
    read: &[bool],
    triples: &PartTriples,
) -> Result<Option<Unmasked>, AllocError>
    requires { length feeds.now ≡ length (pins_in parts.now) }
    ensures { IfOk result (λ found. (c : Circuit) → Shows c parts.now feeds.now triples.now read.now → TellsMasks c found) }
{
    let mut least = None;
    for place in 0..parts.sources().len() {
        least = with_part(alloc, parts, feeds, read, triples, least, place)?;
    }
    Ok(least)
}
