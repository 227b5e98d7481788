//! The parts with an output, cell by cell.

ghost use Rattle.std.specs.Prelude.{◌≡◌, ◌<◌, ◌^◌, ◌∷◌, ◌++◌, IfOk, OnOk, [], filter, length, map};
ghost use Rattle.std.specs.List.{flat_map};
ghost use Rattle.circuit.specs.Parts.{is_output, numbered, pad_sources, register_source, slice_sources, sources as sources_of, table_source};

use cell_parts::{
    Cells, Kind, PadCell, PartKind, RegisterCell, Role, SliceCell, Source, TableCell,
};
use std::alloc::{AllocError, Global};

// A table as a part of its slice.
fn table_part<'a>(slice: &'a SliceCell, number: u32, table: &'a TableCell) -> Source<'a>
    ensures { result ≡ table_source slice.now number table.now }
{
    Source {
        cell: &slice.name,
        part: PartKind::Table(number),
        domain: slice.domain,
        kind: Kind::Table(table),
        out: table.out,
    }
}

// A register as a part of its slice.
fn register_part<'a>(slice: &'a SliceCell, number: u32, register: &'a RegisterCell) -> Source<'a>
    ensures { result ≡ register_source slice.now number register.now }
{
    Source {
        cell: &slice.name,
        part: PartKind::Register(number),
        domain: slice.domain,
        kind: Kind::Register(register),
        out: register.out,
    }
}

// Adds the tables of a slice.
#[tactic(auto, using(crate::proofs::Gathered::numbered_more, crate::proofs::Gathered::numbered_all))]
fn add_tables<'a>(sources: &mut Vec<Source<'a>>, slice: &'a SliceCell) -> Result<(), AllocError>
    requires { length slice.now.tables < 2 ^ 32 }
    ensures { OnOk result (sources.new.items ≡ sources.old.items ++ numbered (table_source slice.now) 0 slice.now.tables) }
{
    for (number, table) in slice.tables.as_slice().iter().enumerate() {
        sources.push(table_part(slice, number as u32, table))?;
    }
    Ok(())
}

// Adds the registers of a slice.
#[tactic(auto, using(crate::proofs::Gathered::numbered_more, crate::proofs::Gathered::numbered_all))]
fn add_registers<'a>(sources: &mut Vec<Source<'a>>, slice: &'a SliceCell) -> Result<(), AllocError>
    requires { length slice.now.registers < 2 ^ 32 }
    ensures { OnOk result (sources.new.items ≡ sources.old.items ++ numbered (register_source slice.now) 0 slice.now.registers) }
{
    for (number, register) in slice.registers.as_slice().iter().enumerate() {
        sources.push(register_part(slice, number as u32, register))?;
    }
    Ok(())
}

// Adds the tables and registers of a slice.
#[tactic(auto, using(crate::proofs::Gathered::tables_few, crate::proofs::Gathered::registers_few))]
fn add_slice<'a>(sources: &mut Vec<Source<'a>>, slice: &'a SliceCell) -> Result<(), AllocError>
    requires { length (slice_sources slice.now) < 2 ^ 32 }
    ensures { OnOk result (sources.new.items ≡ sources.old.items ++ slice_sources slice.now) }
{
    add_tables(sources, slice)?;
    add_registers(sources, slice)
}

// Adds a pad where it drives a wire.
fn add_pad<'a>(sources: &mut Vec<Source<'a>>, pad: &'a PadCell) -> Result<(), AllocError>
    ensures { OnOk result (sources.new.items ≡ sources.old.items ++ pad_sources pad.now) }
{
    let kind = match pad.role {
        Role::Input => Kind::Input,
        Role::Clock => Kind::Clock,
        Role::Output => return Ok(()),
    };
    sources.push(Source {
        cell: &pad.name,
        part: PartKind::Pad,
        domain: pad.domain,
        kind,
        out: pad.wire,
    })?;
    Ok(())
}

// Adds the parts of slices.
#[tactic(auto, using(crate::proofs::Gathered::flat_more, crate::proofs::Gathered::flat_all, crate::proofs::Gathered::slice_few))]
fn add_slices<'a>(sources: &mut Vec<Source<'a>>, slices: &'a [SliceCell]) -> Result<(), AllocError>
    requires { length (flat_map slice_sources slices.now) < 2 ^ 32 }
    ensures { OnOk result (sources.new.items ≡ sources.old.items ++ flat_map slice_sources slices.now) }
{
    for slice in slices {
        add_slice(sources, slice)?;
    }
    Ok(())
}

// Adds the parts of pads.
#[tactic(auto, using(crate::proofs::Gathered::flat_more, crate::proofs::Gathered::flat_all))]
fn add_pads<'a>(sources: &mut Vec<Source<'a>>, pads: &'a [PadCell]) -> Result<(), AllocError>
    ensures { OnOk result (sources.new.items ≡ sources.old.items ++ flat_map pad_sources pads.now) }
{
    for pad in pads {
        add_pad(sources, pad)?;
    }
    Ok(())
}

/// The parts with an output, those of slices before pads.
pub(crate) fn sources<'a>(alloc: Global, cells: &'a Cells) -> Result<Vec<Source<'a>>, AllocError>
    requires { length (sources_of cells.now) < 2 ^ 32 }
    ensures { IfOk result (λ v. v.items ≡ sources_of cells.now) }
{
    let mut sources = Vec::new(alloc);
    add_slices(&mut sources, cells.slices.as_slice())?;
    add_pads(&mut sources, cells.pads.as_slice())?;
    Ok(sources)
}

// Adds a pad where it is an output.
fn add_output<'a>(outputs: &mut Vec<&'a PadCell>, pad: &'a PadCell) -> Result<(), AllocError>
    ensures { OnOk result (map (λ p. p.now) outputs.new.items ≡ map (λ p. p.now) outputs.old.items ++ filter (λ p. is_output p.role) (pad.now ∷ [])) }
{
    if pad.role == Role::Output {
        outputs.push(pad)?;
    }
    Ok(())
}

/// The output pads.
#[tactic(auto, using(crate::proofs::Gathered::outputs_more, crate::proofs::Gathered::outputs_all))]
pub(crate) fn outputs<'a>(
    alloc: Global,
    pads: &'a [PadCell],
) -> Result<Vec<&'a PadCell>, AllocError>
    ensures { IfOk result (λ v. map (λ p. p.now) v.items ≡ filter (λ p. is_output p.role) pads.now) }
{
    let mut outputs = Vec::new(alloc);
    for pad in pads {
        add_output(&mut outputs, pad)?;
    }
    Ok(outputs)
}
