//! The numbers of parts by the names of their cells and by kind, in two maps.

ghost use Rattle.std.specs.Prelude.{◌≡◌, ◌+◌, IfOk, List, OnOk, Some, slice_get};
ghost use Rattle.cell_parts.specs.PartViews.{part_of};
ghost use Rattle.circuit.specs.Parts.{Source as SourceRecord};
ghost use Rattle.part_copies.specs.Keys.{HasNumber, HoldsFirst, code_in};

use cell_parts::{PartKind, Source};
use rr_ids::Name;
use std::alloc::AllocError;
use std::collections::BTreeMap;

/// A number for the name of each cell: that of one of its parts.
pub(crate) type ByName<'a> = BTreeMap<&'a [u8], u32>;

/// The number of each part, under that of its cell and a code of its kind.
pub(crate) type ByKey = BTreeMap<(u32, u64), u32>;

/// A number for each table, each register and the pad of a cell.
pub(crate) fn code_of(part: PartKind) -> u64
    ensures { result ≡ code_in (part_of part) }
{
    match part {
        PartKind::Table(number) => 3 * u64::from(number),
        PartKind::Register(number) => 3 * u64::from(number) + 1,
        PartKind::Pad => 2,
    }
}

// The number of a name, which is a new one where the name has none yet.
fn number_of<'a>(cells: &mut ByName<'a>, name: &'a Name, place: u32) -> Result<u32, AllocError>
    ensures { IfOk result (λ number. HasNumber cells.old cells.new name.now place number) }
{
    match cells.get(name.bytes()) {
        Some(number) => Ok(*number),
        None => {
            cells.insert(name.bytes(), place)?;
            Ok(place)
        }
    }
}

/// Adds the part with a number behind those before it.
pub(crate) fn add_part<'a>(
    cells: &mut ByName<'a>,
    numbers: &mut ByKey,
    source: &Source<'a>,
    place: u32,
) -> Result<(), AllocError>
    ensures { OnOk result ((all : List SourceRecord) → slice_get all place ≡ Some source.now → HoldsFirst all place cells.old numbers.old → HoldsFirst all (place + 1) cells.new numbers.new) }
{
    let cell = number_of(cells, source.cell, place)?;
    numbers.insert((cell, code_of(source.part)), place)?;
    Ok(())
}
