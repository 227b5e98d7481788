//! Whether the tables of a triple give different outputs.

ghost use Rattle.std.specs.Prelude.{◌≡◌, ◌≤◌, ℕ, IfOk};
ghost use Rattle.words.specs.Members.{In};
ghost use Rattle.records.specs.Side.{Triple};
ghost use Rattle.circuit.specs.Circuits.{Circuit};
ghost use Rattle.circuit.specs.Parts.{Table, sources as sources_of};
ghost use Rattle.table_masks.specs.Least.{Shows};
ghost use Rattle.part_copies.specs.Numbered.{AreCopyNumbers, AreNumberedOnce};
ghost use Rattle.table_copies.specs.Outputs.{TellsOutputs};
ghost use Rattle.table_copies.specs.Told.{TellsTables};

use crate::copies::{Tables, tables_of};
use crate::digits::Assignment;
use crate::feeders::feeders_of;
use crate::least::least_differing;
use crate::printed::text_at;
use crate::rows::rows_of;
use circuit_parts::{Parts, SourceId};
use part_copies::CopyNumbers;
use part_triples::PartTriples;
use side_file::Side;
use std::alloc::{AllocError, Global};

// The text of the least digits of so many feeders at which tables give different outputs; three tables have at most 12.
fn outputs_told(alloc: Global, tables: &Tables, count: usize) -> Result<Option<Vec<u8>>, AllocError>
    ensures { IfOk result (λ r. count ≤ 12 → TellsOutputs count tables.now r) }
{
    if count > 12 {
        return Ok(None);
    }
    match least_differing(tables, count) {
        None => Ok(None),
        Some(number) => Ok(Some(text_at(alloc, tables, Assignment { count, number })?)),
    }
}

/// Whether the tables of a triple, whose numbers are lent, give different outputs where the triples that feed them have some bits:
/// the text of the least digits of those triples, in order, and of the outputs there; `None` exactly where they don't. `feeds` has
/// the part that feeds each pin, and `read` whether each part feeds one.
pub fn tables_differ(
    alloc: Global,
    parts: &Parts<'_>,
    feeds: &[Option<SourceId>],
    triples: &PartTriples,
    read: &[bool],
    side: &Side,
    copies: &CopyNumbers,
) -> Result<Option<Vec<u8>>, AllocError>
    ensures { IfOk result (λ r. (c : Circuit) → Shows c parts.now feeds.now triples.now read.now → c.side ≡ side.now → AreNumberedOnce c.cells
        → (t : Triple) (number : ℕ) → In c.side.triples t → AreCopyNumbers (sources_of parts.now) t (Table number) copies.now → TellsTables c t number r) }
{
    let rows = rows_of(parts, feeds, copies);
    let feeders = feeders_of(alloc, parts, triples, side, &rows)?;
    let tables = tables_of(parts, triples, side, &feeders, read, &rows, copies);
    outputs_told(alloc, &tables, feeders.len())
}
