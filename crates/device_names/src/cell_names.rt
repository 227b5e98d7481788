//! The names of the cells of slices and pads.

ghost use Rattle.std.specs.Prelude.{◌≡◌, ◌++◌, filter, flat_map, map, option_to_list, OnOk};
ghost use Rattle.std.specs.Str.{bytes_eq};
ghost use Rattle.fabric.specs.Device.{choice_names, taken_name};
ghost use Rattle.cell_profile.specs.Takes.{take_of};
ghost use Rattle.device_names.specs.TileNames.{names_if, register_inputs, slice_inputs, slice_outputs};

use crate::names::LentNames;
use cell_profile::{Choice, PadKind, RegisterKind, SliceKind, TableKind, Take};
use rr_ids::Name;
use std::alloc::AllocError;

// Adds names in order.
fn add_each<'a>(names: &mut LentNames<'a>, more: &'a [Name]) -> Result<(), AllocError>
    ensures { OnOk result (names.new ≡ names.old ++ more.now) }
{
    for name in more {
        names.push(name)?;
    }
    Ok(())
}

// Adds a name where there is one.
fn add_if_there<'a>(names: &mut LentNames<'a>, name: &'a Option<Name>) -> Result<(), AllocError>
    ensures { OnOk result (names.new ≡ names.old ++ option_to_list name.now) }
{
    match name {
        Some(name) => names.push(name),
        None => Ok(()),
    }
}

// Adds the outputs of tables.
fn add_table_outputs<'a>(
    names: &mut LentNames<'a>,
    tables: &'a [TableKind],
) -> Result<(), AllocError>
    ensures { OnOk result (names.new ≡ names.old ++ map (λ t. t.out) tables.now) }
{
    for table in tables {
        names.push(&table.out)?;
    }
    Ok(())
}

// Adds the outputs of registers.
fn add_register_outputs<'a>(
    names: &mut LentNames<'a>,
    registers: &'a [RegisterKind],
) -> Result<(), AllocError>
    ensures { OnOk result (names.new ≡ names.old ++ map (λ r. r.out) registers.now) }
{
    for register in registers {
        names.push(&register.out)?;
    }
    Ok(())
}

// Adds the outputs of a slice kind, where it is one of a tile type.
fn add_slice_outputs<'a>(
    names: &mut LentNames<'a>,
    kind: &Name,
    slice: &'a SliceKind,
) -> Result<(), AllocError>
    ensures { OnOk result (names.new ≡ names.old ++ names_if (bytes_eq slice.now.tile kind.now) (slice_outputs slice.now)) }
{
    if slice.tile != *kind {
        return Ok(());
    }
    add_table_outputs(names, slice.tables.as_slice())?;
    add_register_outputs(names, slice.registers.as_slice())
}

/// Adds the outputs of the slice kinds of a tile type.
pub(crate) fn add_slices_outputs<'a>(
    names: &mut LentNames<'a>,
    kind: &Name,
    slices: &'a [SliceKind],
) -> Result<(), AllocError>
    ensures { OnOk result (names.new ≡ names.old ++ flat_map slice_outputs (filter (λ k. bytes_eq k.tile kind.now) slices.now)) }
{
    for slice in slices {
        add_slice_outputs(names, kind, slice)?;
    }
    Ok(())
}

// Adds the wire that a pad kind drives, where it is one of a tile type.
fn add_pad_output<'a>(
    names: &mut LentNames<'a>,
    kind: &Name,
    pad: &'a PadKind,
) -> Result<(), AllocError>
    ensures { OnOk result (names.new ≡ names.old ++ names_if (bytes_eq pad.now.tile kind.now) (option_to_list pad.now.in_wire)) }
{
    if pad.tile != *kind {
        return Ok(());
    }
    add_if_there(names, &pad.in_wire)
}

/// Adds the wires that the pad kinds of a tile type drive.
pub(crate) fn add_pads_outputs<'a>(
    names: &mut LentNames<'a>,
    kind: &Name,
    pads: &'a [PadKind],
) -> Result<(), AllocError>
    ensures { OnOk result (names.new ≡ names.old
        ++ flat_map (λ k. option_to_list k.in_wire) (filter (λ k. bytes_eq k.tile kind.now) pads.now)) }
{
    for pad in pads {
        add_pad_output(names, kind, pad)?;
    }
    Ok(())
}

// Adds the pins of tables.
fn add_pins<'a>(names: &mut LentNames<'a>, tables: &'a [TableKind]) -> Result<(), AllocError>
    ensures { OnOk result (names.new ≡ names.old ++ flat_map (λ t. t.pins) tables.now) }
{
    for table in tables {
        add_each(names, table.pins.as_slice())?;
    }
    Ok(())
}

// Adds the wire that is taken, where one is.
fn add_taken<'a>(names: &mut LentNames<'a>, take: &'a Take) -> Result<(), AllocError>
    ensures { OnOk result (names.new ≡ names.old ++ taken_name (take_of take.now)) }
{
    match take {
        Take::Wire(name) | Take::NotWire(name) => names.push(name),
        Take::Zero | Take::One | Take::Off | Take::In | Take::Out => Ok(()),
    }
}

// Adds the wires that a choice may take.
fn add_choice<'a>(names: &mut LentNames<'a>, choice: &'a Choice) -> Result<(), AllocError>
    ensures { OnOk result (names.new ≡ names.old ++ choice_names choice.now) }
{
    let cases = choice.cases.as_slice();
    for case in cases {
        add_taken(names, &case.take)?;
    }
    Ok(())
}

// Adds the wires that a register may take.
fn add_register_inputs<'a>(
    names: &mut LentNames<'a>,
    register: &'a RegisterKind,
) -> Result<(), AllocError>
    ensures { OnOk result (names.new ≡ names.old ++ register_inputs register.now) }
{
    add_choice(names, &register.input)?;
    add_choice(names, &register.enable)?;
    add_choice(names, &register.reset)?;
    add_choice(names, &register.clock)
}

// Adds the wires that registers may take.
fn add_registers_inputs<'a>(
    names: &mut LentNames<'a>,
    registers: &'a [RegisterKind],
) -> Result<(), AllocError>
    ensures { OnOk result (names.new ≡ names.old ++ flat_map register_inputs registers.now) }
{
    for register in registers {
        add_register_inputs(names, register)?;
    }
    Ok(())
}

// Adds the inputs of a slice kind, where it is one of a tile type.
fn add_slice_inputs<'a>(
    names: &mut LentNames<'a>,
    kind: &Name,
    slice: &'a SliceKind,
) -> Result<(), AllocError>
    ensures { OnOk result (names.new ≡ names.old ++ names_if (bytes_eq slice.now.tile kind.now) (slice_inputs slice.now)) }
{
    if slice.tile != *kind {
        return Ok(());
    }
    add_pins(names, slice.tables.as_slice())?;
    add_registers_inputs(names, slice.registers.as_slice())
}

/// Adds the inputs of the slice kinds of a tile type.
pub(crate) fn add_slices_inputs<'a>(
    names: &mut LentNames<'a>,
    kind: &Name,
    slices: &'a [SliceKind],
) -> Result<(), AllocError>
    ensures { OnOk result (names.new ≡ names.old ++ flat_map slice_inputs (filter (λ k. bytes_eq k.tile kind.now) slices.now)) }
{
    for slice in slices {
        add_slice_inputs(names, kind, slice)?;
    }
    Ok(())
}

// Adds the wire that a pad kind shows, where it is one of a tile type.
fn add_pad_input<'a>(
    names: &mut LentNames<'a>,
    kind: &Name,
    pad: &'a PadKind,
) -> Result<(), AllocError>
    ensures { OnOk result (names.new ≡ names.old ++ names_if (bytes_eq pad.now.tile kind.now) (option_to_list pad.now.out_wire)) }
{
    if pad.tile != *kind {
        return Ok(());
    }
    add_if_there(names, &pad.out_wire)
}

/// Adds the wires that the pad kinds of a tile type show.
pub(crate) fn add_pads_inputs<'a>(
    names: &mut LentNames<'a>,
    kind: &Name,
    pads: &'a [PadKind],
) -> Result<(), AllocError>
    ensures { OnOk result (names.new ≡ names.old
        ++ flat_map (λ k. option_to_list k.out_wire) (filter (λ k. bytes_eq k.tile kind.now) pads.now)) }
{
    for pad in pads {
        add_pad_input(names, kind, pad)?;
    }
    Ok(())
}
