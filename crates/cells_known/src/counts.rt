//! How many parts and pins there are, up to the largest number.

ghost use Rattle.std.specs.Prelude.{◌≡◌, count_by, length, not, sum_by};
ghost use Rattle.std.specs.List.{flat_map};
ghost use Rattle.cell_parts.specs.CellViews.{input_of};
ghost use Rattle.cells_known.specs.Counted.{capped, input_pins, register_pins as pins_of_register};
ghost use Rattle.circuit.specs.Parts.{is_output, slice_sources, sources};
ghost use Rattle.circuit.specs.Pins.{pins, source_pins};

use cell_parts::{Cells, Input, PadCell, RegisterCell, Role, SliceCell, TableCell};

// The parts of a slice: its tables and registers.
#[tactic(auto, using(crate::proofs::Counting::parts_of_slice))]
fn own_parts(slice: &SliceCell) -> usize
    ensures { result ≡ capped (length (slice_sources slice.now)) }
{
    slice.tables.len().saturating_add(slice.registers.len())
}

// The parts of slices.
#[tactic(auto, using(crate::proofs::Sums::sum_more_capped, crate::proofs::Sums::sum_all))]
fn slice_parts(slices: &[SliceCell]) -> usize
    ensures { result ≡ capped (sum_by (λ s. length (slice_sources s)) slices.now) }
{
    let mut count = 0usize;
    for slice in slices {
        count = count.saturating_add(own_parts(slice));
    }
    count
}

// The pins of tables.
#[tactic(auto, using(crate::proofs::Sums::sum_more, crate::proofs::Sums::sum_all))]
fn table_pins(tables: &[TableCell]) -> usize
    ensures { result ≡ capped (sum_by (λ t. length t.pins) tables.now) }
{
    let mut count = 0usize;
    for table in tables {
        count = count.saturating_add(table.pins.len());
    }
    count
}

// One where a register takes a wire.
fn input_pin(input: Input) -> usize
    ensures { result ≡ input_pins (input_of input) }
{
    match input {
        Input::Wire(_) | Input::NotWire(_) => 1,
        Input::Zero | Input::One => 0,
    }
}

// The pins of registers.
#[tactic(auto, using(crate::proofs::Sums::sum_more, crate::proofs::Sums::sum_all))]
fn register_pins(registers: &[RegisterCell]) -> usize
    ensures { result ≡ capped (sum_by pins_of_register registers.now) }
{
    let mut count = 0usize;
    for register in registers {
        let data = input_pin(register.input)
            + input_pin(register.enable)
            + input_pin(register.reset);
        count = count.saturating_add(data + input_pin(register.clock));
    }
    count
}

// The pins of a slice: those of its tables and registers.
#[tactic(auto, using(crate::proofs::Counting::pins_of_slice))]
fn own_pins(slice: &SliceCell) -> usize
    ensures { result ≡ capped (length (flat_map source_pins (slice_sources slice.now))) }
{
    let tables = table_pins(slice.tables.as_slice());
    tables.saturating_add(register_pins(slice.registers.as_slice()))
}

// The pins of slices.
#[tactic(auto, using(crate::proofs::Sums::sum_more_capped, crate::proofs::Sums::sum_all))]
fn slice_pins(slices: &[SliceCell]) -> usize
    ensures { result ≡ capped (sum_by (λ s. length (flat_map source_pins (slice_sources s))) slices.now) }
{
    let mut count = 0usize;
    for slice in slices {
        count = count.saturating_add(own_pins(slice));
    }
    count
}

// The pads into the fabric.
fn pads_in(pads: &[PadCell]) -> usize
    ensures { result ≡ count_by (λ p. not (is_output p.role)) pads.now }
{
    pads.iter().filter(|pad| pad.role != Role::Output).count()
}

// The pads out of the fabric.
fn pads_out(pads: &[PadCell]) -> usize
    ensures { result ≡ count_by (λ p. is_output p.role) pads.now }
{
    pads.iter().filter(|pad| pad.role == Role::Output).count()
}

/// How many parts have an output.
#[tactic(auto, using(crate::proofs::Counting::parts_of_cells))]
pub(crate) fn part_count(cells: &Cells) -> usize
    ensures { result ≡ capped (length (sources cells.now)) }
{
    slice_parts(cells.slices.as_slice()).saturating_add(pads_in(cells.pads.as_slice()))
}

/// How many pins there are.
#[tactic(auto, using(crate::proofs::Counting::pins_of_cells))]
pub(crate) fn pin_count(cells: &Cells) -> usize
    ensures { result ≡ capped (length (pins cells.now)) }
{
    slice_pins(cells.slices.as_slice()).saturating_add(pads_out(cells.pads.as_slice()))
}
