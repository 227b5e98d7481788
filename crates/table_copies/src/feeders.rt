//! The parts that feed three tables.

ghost use Rattle.std.specs.Prelude.{◌≡◌, IfOk, OnOk, map};
ghost use Rattle.circuit.specs.Parts.{sources as sources_of};
ghost use Rattle.part_triples.specs.Numbers.{numbers_of};
ghost use Rattle.table_copies.specs.Firsts.{all_gathered, first_of, gathered, with_first};

use crate::firsts::feeder_of;
use crate::places::put_in;
use crate::rows::Rows;
use cell_parts::Source;
use circuit_parts::{Parts, SourceId};
use part_triples::PartTriples;
use side_file::Side;
use std::alloc::{AllocError, Global};

// Puts in what feeds a pin.
fn add_feed<'s>(
    parts: &'s Parts<'_>,
    triples: &PartTriples,
    side: &'s Side,
    feeders: &mut Vec<Source<'s>>,
    feed: Option<SourceId>,
) -> Result<(), AllocError>
    ensures { OnOk result (triples.now ≡ numbers_of side.now (sources_of parts.now)
        → map (λ s. s.part) feeders.new.items ≡ with_first (map (λ s. s.part) feeders.old.items) (first_of side.now (sources_of parts.now) feed)) }
{
    match feeder_of(parts, triples, side, feed) {
        None => Ok(()),
        Some(feeder) => put_in(feeders, feeder),
    }
}

// Puts in what feeds the pins of a table.
fn add_row<'s>(
    parts: &'s Parts<'_>,
    triples: &PartTriples,
    side: &'s Side,
    feeders: &mut Vec<Source<'s>>,
    row: &[Option<SourceId>],
) -> Result<(), AllocError>
    ensures { OnOk result (triples.now ≡ numbers_of side.now (sources_of parts.now)
        → map (λ s. s.part) feeders.new.items ≡ gathered side.now (sources_of parts.now) (map (λ s. s.part) feeders.old.items) row.now) }
{
    for feed in row {
        add_feed(parts, triples, side, feeders, *feed)?;
    }
    Ok(())
}

/// The parts that feed three tables, each as that of its triple in domain 0, in order, each once.
pub(crate) fn feeders_of<'s>(
    alloc: Global,
    parts: &'s Parts<'_>,
    triples: &PartTriples,
    side: &'s Side,
    rows: &Rows<'_>,
) -> Result<Vec<Source<'s>>, AllocError>
    ensures { IfOk result (λ v. triples.now ≡ numbers_of side.now (sources_of parts.now)
        → map (λ s. s.part) v.items ≡ all_gathered side.now (sources_of parts.now) rows.now.first.now rows.now.second.now rows.now.third.now) }
{
    let mut feeders = Vec::new(alloc);
    add_row(parts, triples, side, &mut feeders, rows.first)?;
    add_row(parts, triples, side, &mut feeders, rows.second)?;
    add_row(parts, triples, side, &mut feeders, rows.third)?;
    Ok(feeders)
}
