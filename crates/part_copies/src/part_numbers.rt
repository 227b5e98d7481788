//! The numbers of parts by their names.

ghost use Rattle.std.specs.Prelude.{◌≡◌, ◌<◌, ◌^◌, IfOk, List, OnOk, [], length};
ghost use Rattle.cell_parts.specs.PartViews.{part_of};
ghost use Rattle.circuit.specs.Parts.{Source as SourceRecord, sources as sources_of};
ghost use Rattle.design_checks.specs.CopyChecks.{part_in};
ghost use Rattle.part_copies.specs.Keys.{HoldsAll};
ghost use Rattle.part_copies.specs.Numbered.{AreCopyNumbers, IsPartNumber};

use crate::CopyNumbers;
use crate::keys::{ByKey, ByName, add_part, code_of};
use cell_parts::{Cells, PartKind, Source};
use circuit_parts::{Parts, SourceId};
use rr_ids::{Id, Name};
use side_file::Triple;
use std::alloc::{AllocError, Global};
use std::marker::Model;

/// The number of each part by the name of its cell and its kind. Contracts see the cells.
#[derive(Drop)]
pub struct PartNumbers<'a> {
    cells: &'a Cells,
    names: ByName<'a>,
    numbers: ByKey,
}

impl<'a> Model for PartNumbers<'a> {
    ghost use Rattle.circuit.specs.Cells.{Cells as Record};
    ghost use Rattle.circuit.specs.Parts.{sources};
    ghost use Rattle.part_copies.specs.Keys.{HoldsAll};

    ghost Value = { Record };

    ghost view = { λ n. n.cells.now };

    ghost invariant = { λ n. HoldsAll (sources n.cells.now) n.names n.numbers };
}

// Adds all parts, of which none is there yet.
fn add_parts<'a>(
    names: &mut ByName<'a>,
    numbers: &mut ByKey,
    sources: &[Source<'a>],
) -> Result<(), AllocError>
    requires few { length sources.now < 2 ^ 32 }
    requires names { names.old.entries ≡ [] }
    requires numbers { numbers.old.entries ≡ [] }
    ensures { OnOk result (HoldsAll sources.now names.new numbers.new) }
{
    for (place, source) in sources.iter().enumerate() {
        add_part(names, numbers, source, place as u32)?;
    }
    Ok(())
}

// The number of the part of a kind in a cell.
fn number_in(names: &ByName<'_>, numbers: &ByKey, cell: &Name, part: PartKind) -> Option<SourceId>
    ensures { (all : List SourceRecord) → HoldsAll all names.now numbers.now → IsPartNumber all (part_in cell.now (part_of part)) result }
{
    match names.get(cell.bytes()) {
        None => None,
        Some(number) => match numbers.get(&(*number, code_of(part))) {
            None => None,
            Some(place) => Some(SourceId::from_u32(*place)),
        },
    }
}

impl<'a> PartNumbers<'a> {
    /// The numbers of the parts of cells; takes time n log n.
    pub fn new(alloc: Global, parts: &Parts<'a>) -> Result<PartNumbers<'a>, AllocError>
        ensures { IfOk result (λ numbers. numbers ≡ parts.now) }
    {
        let mut names = ByName::new(alloc);
        let mut numbers = ByKey::new(alloc);
        add_parts(&mut names, &mut numbers, parts.sources())?;
        let cells = parts.cells();
        Ok(PartNumbers {
            cells,
            names,
            numbers,
        })
    }

    /// The cells whose parts have the numbers.
    pub fn cells(&self) -> &'a Cells
        ensures { result.now ≡ self.now }
    {
        self.cells
    }

    /// The number of the part of a kind in a cell; `None` exactly where the cell has no such part.
    pub fn of(&self, cell: &Name, part: PartKind) -> Option<SourceId>
        ensures { IsPartNumber (sources_of self.now) (part_in cell.now (part_of part)) result }
    {
        number_in(&self.names, &self.numbers, cell, part)
    }

    /// The numbers of the parts of a kind in the three cells of a triple.
    pub fn copies(&self, triple: &Triple, part: PartKind) -> CopyNumbers
        ensures { AreCopyNumbers (sources_of self.now) triple.now (part_of part) result }
    {
        CopyNumbers {
            first: self.of(&triple.first, part),
            second: self.of(&triple.second, part),
            third: self.of(&triple.third, part),
        }
    }
}
