//! The pins of parts and output pads, one by one.

ghost use Rattle.std.specs.Prelude.{◌≡◌, ℕ, ◌<◌, ◌^◌, ◌∷◌, ◌++◌, OnOk, [], length, map};
ghost use Rattle.std.specs.List.{flat_map};
ghost use Rattle.cell_parts.specs.CellViews.{input_of};
ghost use Rattle.cell_parts.specs.PartViews.{kind_of, part_of};
ghost use Rattle.circuit.specs.Pins.{bit_pins_of, clock_pins_of, data_pins, input_pin, pad_pin, source_pins, table_pins};
ghost use Rattle.circuit_parts.specs.Flat.{starts_from};

use cell_parts::{Input, Kind, PadCell, PartKind, Pin, RegisterCell, Source, TableCell};
use rr_ids::{Name, WireId};
use std::alloc::AllocError;

// Adds the pins of a table.
#[tactic(auto, using(crate::proofs::Gathered::numbered_more, crate::proofs::Gathered::numbered_all))]
fn add_table_pins<'a>(
    pins: &mut Vec<Pin<'a>>,
    cell: &'a Name,
    part: PartKind,
    table: &TableCell,
) -> Result<(), AllocError>
    requires { length table.now.pins < 2 ^ 32 }
    ensures { OnOk result (pins.new.items ≡ pins.old.items ++ table_pins (record { cell = cell.now; part = part_of part }) table.now) }
{
    for (number, wire) in table.pins.as_slice().iter().enumerate() {
        pins.push(Pin {
            cell,
            part,
            pin: number as u32,
            wire: *wire,
        })?;
    }
    Ok(())
}

// Adds the pin of a register with this number where it takes a wire.
fn add_input_pin<'a>(
    pins: &mut Vec<Pin<'a>>,
    cell: &'a Name,
    part: PartKind,
    number: u32,
    input: Input,
) -> Result<(), AllocError>
    ensures { OnOk result (pins.new.items ≡ pins.old.items ++ input_pin (record { cell = cell.now; part = part_of part }) number (input_of input)) }
{
    let wire = match input {
        Input::Wire(wire) => wire,
        Input::NotWire(wire) => wire,
        Input::Zero => return Ok(()),
        Input::One => return Ok(()),
    };
    pins.push(Pin {
        cell,
        part,
        pin: number,
        wire,
    })?;
    Ok(())
}

// Adds the pins of a register: data, enable, reset and clock.
fn add_register_pins<'a>(
    pins: &mut Vec<Pin<'a>>,
    cell: &'a Name,
    part: PartKind,
    register: &RegisterCell,
) -> Result<(), AllocError>
    ensures { OnOk result (pins.new.items ≡ pins.old.items ++ (data_pins (record { cell = cell.now; part = part_of part }) register.now
        ++ input_pin (record { cell = cell.now; part = part_of part }) 3 register.now.clock)) }
{
    add_input_pin(pins, cell, part, 0, register.input)?;
    add_input_pin(pins, cell, part, 1, register.enable)?;
    add_input_pin(pins, cell, part, 2, register.reset)?;
    add_input_pin(pins, cell, part, 3, register.clock)
}

// Adds the pins of a part with an output.
#[tactic(auto, using(crate::proofs::Gathered::table_pins_few))]
fn add_source<'a>(pins: &mut Vec<Pin<'a>>, source: &Source<'a>) -> Result<(), AllocError>
    requires { length (source_pins source.now) < 2 ^ 32 }
    ensures { OnOk result (pins.new.items ≡ pins.old.items ++ source_pins source.now) }
{
    match source.kind {
        Kind::Table(table) => add_table_pins(pins, source.cell, source.part, table),
        Kind::Register(register) => add_register_pins(pins, source.cell, source.part, register),
        Kind::Input | Kind::Clock => Ok(()),
    }
}

/// Adds the pins of parts, and where those of each begin, with the place behind them last.
#[tactic(auto, using(crate::proofs::Gathered::flat_more, crate::proofs::Gathered::flat_all, crate::proofs::Gathered::source_few, crate::proofs::Starts::starts_more, crate::proofs::Starts::starts_all, crate::proofs::Starts::pins_few))]
pub(crate) fn add_sources<'a>(
    pins: &mut Vec<Pin<'a>>,
    starts: &mut Vec<u32>,
    sources: &[Source<'a>],
) -> Result<(), AllocError>
    requires none { pins.old.items ≡ [] }
    requires no_start { starts.old.items ≡ [] }
    requires few { length (flat_map source_pins sources.now) < 2 ^ 32 }
    ensures pins { OnOk result (pins.new.items ≡ flat_map source_pins sources.now) }
    ensures starts { OnOk result (starts.new.items ≡ starts_from 0 sources.now) }
{
    for source in sources {
        starts.push(pins.len() as u32)?;
        add_source(pins, source)?;
    }
    starts.push(pins.len() as u32)?;
    Ok(())
}

// The pin of an output pad.
fn pin_of<'a>(pad: &'a PadCell) -> Pin<'a>
    ensures { result ≡ pad_pin pad.now }
{
    Pin {
        cell: &pad.name,
        part: PartKind::Pad,
        pin: 0,
        wire: pad.wire,
    }
}

/// Adds the pins of output pads.
#[tactic(auto, using(crate::proofs::Gathered::map_more, crate::proofs::Gathered::map_all))]
pub(crate) fn add_pads<'a>(pins: &mut Vec<Pin<'a>>, pads: &[&'a PadCell]) -> Result<(), AllocError>
    ensures { OnOk result (pins.new.items ≡ pins.old.items ++ map (λ pad. pad_pin pad.now) pads.now) }
{
    for pad in pads {
        pins.push(pin_of(*pad))?;
    }
    Ok(())
}
