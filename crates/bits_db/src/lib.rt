//! The reader of `bits.db`, the database of a tile type (after Project Trellis).
#![tactic(auto)]

ghost use Rattle.words.specs.OrMemory.{OrMemory};
ghost use Rattle.texts.specs.Lines.{lines_of};
ghost use Rattle.grammars.specs.BitsDb.{database_of};
ghost use Rattle.grammars.specs.RowByRow.{nothing_read, read_lines};
ghost use Rattle.bits_db.specs.Faults.{fault_of};
ghost use Rattle.bits_db.specs.Readings.{reading_view};

use reader::Reader;
use std::alloc::Global;
use text_cut::lines;

mod connections;
mod database;
mod enums;
mod error;
mod head;
mod muxes;
mod pattern;
mod reader;
mod row;
mod settings;

pub use database::{Arc, EnumOption, EnumSetting, Fixed, Mux, TileDb, WordSetting};
pub use error::DbError;
pub use pattern::Pattern;

// What is read behind all lines.
fn read_all<'a>(alloc: Global, bytes: &'a [u8]) -> Result<Reader<'a>, DbError>
    ensures { OrMemory reading_view fault_of result (read_lines nothing_read (lines_of bytes.now)) }
{
    let mut reader = Reader::new(alloc);
    for line in lines(bytes) {
        reader.add_line(&line)?;
    }
    Ok(reader)
}

/// Reads a database, the bits of each pattern in the order of its row. Of faults the first line's counts:
/// `BadLine` outside the grammar or where a name stands twice, `TooLarge` for a pattern of more than 32 bits. On
/// one line `BadLine` comes before `TooLarge`.
#[tactic(auto, using(grammars::proofs::RowLemmas::read_by_lines))]
pub fn read(alloc: Global, bytes: &[u8]) -> Result<TileDb, DbError>
    ensures { OrMemory (λ db. db) fault_of result (database_of bytes.now) }
{
    match read_all(alloc, bytes) {
        Ok(reader) => Ok(reader.into_database()),
        Err(error) => Err(error),
    }
}
