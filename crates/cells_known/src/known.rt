//! What is known of cells that are read.

ghost use Rattle.std.specs.Prelude.{◌≡◌, ◌↔◌, IsTrue, Ok};
ghost use Rattle.cells.specs.CellsOf.{cells_of};
ghost use Rattle.circuit.specs.Cells.{Cells as Record};
ghost use Rattle.circuit_parts.specs.Flat.{AreFew};
ghost use Rattle.fabric.specs.Graph.{Graph};
ghost use Rattle.formed_laws.specs.Readers.{IsReadSide};
ghost use Rattle.net_order.specs.Orders.{AreInNameOrder};
ghost use Rattle.part_copies.specs.Numbered.{AreNumberedOnce};
ghost use Rattle.patterns.specs.Bits.{Bits};
ghost use Rattle.records.specs.Profile.{Profile};
ghost use Rattle.records.specs.Side.{Side};

use crate::counts::{part_count, pin_count};
use cell_parts::Cells;

/// Whether there are less than 2^32 parts with an output and less than 2^32 pins, so that each has a number. Takes time in
/// proportion to the cells.
pub fn are_few(cells: &Cells) -> bool
    ensures { IsTrue result ↔ AreFew cells.now }
{
    part_count(cells) <= u32::MAX as usize && pin_count(cells) <= u32::MAX as usize
}

/// The slices of a side file that is read stand in byte order of their names, and no two have one name.
pub fn slices_stand_in_order()
    ensures { (g : Graph) (profile : Profile) (image : Bits) (side : Side) (cells : Record)
        → IsReadSide side → cells_of g profile image side ≡ Ok cells → AreInNameOrder cells }
{}

/// No two parts of the cells of a side file that is read have one name.
pub fn parts_number_once()
    ensures { (g : Graph) (profile : Profile) (image : Bits) (side : Side) (cells : Record)
        → IsReadSide side → cells_of g profile image side ≡ Ok cells → AreNumberedOnce cells }
{}
