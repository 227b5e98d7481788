//! Copies of a table by what feeds their pins.

ghost use Rattle.std.specs.Prelude.{◌≡◌, MatchOption, false, get_or, map};
ghost use Rattle.circuit.specs.Cells.{TableCell as TableRecord};
ghost use Rattle.circuit.specs.Parts.{OfTable, sources as sources_of};
ghost use Rattle.part_triples.specs.Numbers.{numbers_of};
ghost use Rattle.table_copies.specs.Firsts.{first_of};
ghost use Rattle.table_copies.specs.Copies.{ArePins, AreTables, IsCopy, IsReadWord, IsWord, NoTable, TellsPlace};

use crate::firsts::{feeder_of, source_at};
use crate::places::{Place, place_of};
use crate::rows::{Rows, feed_at};
use cell_parts::{Kind, Source, TableCell};
use circuit_parts::{Parts, SourceId};
use part_copies::CopyNumbers;
use part_triples::PartTriples;
use rr_ids::Id;
use side_file::Side;

/// For each pin of a table the place of what feeds it among the feeders, if something does.
#[derive(Clone, Copy)]
pub(crate) struct Pins {
    pub first: Option<usize>,
    pub second: Option<usize>,
    pub third: Option<usize>,
    pub fourth: Option<usize>,
}

/// A copy of a table: one that isn't read, or its word and pins.
#[derive(Clone, Copy)]
pub(crate) enum TableCopy {
    Unread,
    Read { word: u16, pins: Pins },
}

/// The three copies of a table.
#[derive(Clone, Copy)]
pub(crate) struct Tables {
    pub first: TableCopy,
    pub second: TableCopy,
    pub third: TableCopy,
}

// The place among feeders of what feeds a pin.
fn pin_place(
    parts: &Parts<'_>,
    triples: &PartTriples,
    side: &Side,
    feeders: &[Source<'_>],
    feed: Option<SourceId>,
) -> Option<usize>
    ensures { triples.now ≡ numbers_of side.now (sources_of parts.now) → TellsPlace (map (λ s. s.part) feeders.now) (first_of side.now (sources_of parts.now) feed) result }
{
    match feeder_of(parts, triples, side, feed) {
        None => None,
        Some(feeder) => match place_of(feeders, &feeder) {
            Place::At(place) => Some(place),
            Place::Before(_) => None,
        },
    }
}

// The pins of a table.
fn pins_of(
    parts: &Parts<'_>,
    triples: &PartTriples,
    side: &Side,
    feeders: &[Source<'_>],
    row: &[Option<SourceId>],
) -> Pins
    ensures { triples.now ≡ numbers_of side.now (sources_of parts.now) → ArePins side.now (sources_of parts.now) (map (λ s. s.part) feeders.now) row.now result }
{
    Pins {
        first: pin_place(parts, triples, side, feeders, feed_at(row, 0)),
        second: pin_place(parts, triples, side, feeders, feed_at(row, 1)),
        third: pin_place(parts, triples, side, feeders, feed_at(row, 2)),
        fourth: pin_place(parts, triples, side, feeders, feed_at(row, 3)),
    }
}

// The table that a part is.
fn table_of<'a>(source: &Source<'a>) -> Option<&'a TableCell>
    ensures { MatchOption result ((t : TableRecord) → source.now.kind ≡ OfTable t → ⊥) (λ t. source.now.kind ≡ OfTable t.now) }
{
    match source.kind {
        Kind::Table(table) => Some(table),
        Kind::Register(_) | Kind::Input | Kind::Clock => None,
    }
}

// The word of a part that is a table.
fn word_at(sources: &[Source<'_>], k: SourceId) -> Option<u16>
    ensures { MatchOption result (NoTable sources.now k) (λ word. IsWord sources.now k word) }
{
    match source_at(sources, k) {
        None => None,
        Some(source) => match table_of(source) {
            None => None,
            Some(table) => Some(table.word),
        },
    }
}

// Whether a part is read.
fn is_read(read: &[bool], k: SourceId) -> bool
    ensures { result ≡ get_or read.now k false }
{
    let place = k.to_u32() as usize;
    place < read.len() && read[place]
}

// The word of a part that is a read table.
fn read_word(parts: &Parts<'_>, read: &[bool], copy: Option<SourceId>) -> Option<u16>
    ensures { IsReadWord (sources_of parts.now) read.now copy result }
{
    match copy {
        None => None,
        Some(k) => {
            if !is_read(read, k) {
                return None;
            }
            word_at(parts.sources(), k)
        }
    }
}

// A copy of a table.
fn table_copy(
    parts: &Parts<'_>,
    triples: &PartTriples,
    side: &Side,
    feeders: &[Source<'_>],
    read: &[bool],
    row: &[Option<SourceId>],
    copy: Option<SourceId>,
) -> TableCopy
    ensures { triples.now ≡ numbers_of side.now (sources_of parts.now) → IsCopy side.now (sources_of parts.now) (map (λ s. s.part) feeders.now) read.now row.now copy result }
{
    match read_word(parts, read, copy) {
        None => TableCopy::Unread,
        Some(word) => {
            let pins = pins_of(parts, triples, side, feeders, row);
            TableCopy::Read { word, pins }
        }
    }
}

/// The three copies of a table.
pub(crate) fn tables_of(
    parts: &Parts<'_>,
    triples: &PartTriples,
    side: &Side,
    feeders: &[Source<'_>],
    read: &[bool],
    rows: &Rows<'_>,
    copies: &CopyNumbers,
) -> Tables
    ensures { triples.now ≡ numbers_of side.now (sources_of parts.now) → AreTables side.now (sources_of parts.now) (map (λ s. s.part) feeders.now) read.now
        rows.now.first.now rows.now.second.now rows.now.third.now copies.now result }
{
    let CopyNumbers {
        first,
        second,
        third,
    } = *copies;
    Tables {
        first: table_copy(parts, triples, side, feeders, read, rows.first, first),
        second: table_copy(parts, triples, side, feeders, read, rows.second, second),
        third: table_copy(parts, triples, side, feeders, read, rows.third, third),
    }
}
