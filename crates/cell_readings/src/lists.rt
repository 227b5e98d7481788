//! The first setting of a slice whose value isn't modelled.

ghost use Rattle.std.specs.Prelude.{◌≡◌, ◌<◌, length};
ghost use Rattle.words.specs.Firsts.{unless_fault};
ghost use Rattle.words.specs.OrMemory.{OrMemory};
ghost use Rattle.cell_readings.specs.Errors.{fault_of};
ghost use Rattle.cell_readings.specs.First.{first_of};
ghost use Rattle.cell_readings.specs.Roles.{kind_readings};
ghost use Rattle.cells.specs.Faults.{value_fault};
ghost use Rattle.cells.specs.Readings.{register_readings, require_reading, table_reading};
ghost use Rattle.cram_image.specs.Image.{bits};
ghost use Rattle.named_graph.specs.Standing.{StandsInTiles};

use crate::errors::CellError;
use crate::faults::{choice_fault, require_fault, table_fault};
use cell_profile::{RegisterKind, Require, SliceKind, TableKind};
use cram_image::Image;
use named_graph::NamedGraph;
use rr_ids::{Name, TileId};
use std::alloc::Global;

// The first of required enums.
fn first_required<G: NamedGraph>(
    alloc: Global,
    graph: &G,
    image: &Image,
    cell: &Name,
    t: TileId,
    requirements: &[Require],
) -> Result<(), CellError>
    requires stands { StandsInTiles (G.graph graph.now) }
    requires there { t < length (G.graph graph.now).grid.tiles }
    ensures { OrMemory (λ done. done) fault_of result (unless_fault (first_of (λ r. value_fault (require_reading (G.graph graph.now) (bits image.now) cell.now t r)) requirements.now) tt) }
{
    for require in requirements {
        require_fault(alloc, graph, image, cell, t, require)?;
    }
    Ok(())
}

// The first of the words of tables.
fn first_table<G: NamedGraph>(
    alloc: Global,
    graph: &G,
    image: &Image,
    cell: &Name,
    t: TileId,
    tables: &[TableKind],
) -> Result<(), CellError>
    requires stands { StandsInTiles (G.graph graph.now) }
    requires there { t < length (G.graph graph.now).grid.tiles }
    ensures { OrMemory (λ done. done) fault_of result (unless_fault (first_of (λ k. value_fault (table_reading (G.graph graph.now) (bits image.now) cell.now t k)) tables.now) tt) }
{
    for table in tables {
        table_fault(alloc, graph, image, cell, t, table)?;
    }
    Ok(())
}

// The first of the choices of a register.
fn register_fault<G: NamedGraph>(
    alloc: Global,
    graph: &G,
    image: &Image,
    cell: &Name,
    t: TileId,
    register: &RegisterKind,
) -> Result<(), CellError>
    requires stands { StandsInTiles (G.graph graph.now) }
    requires there { t < length (G.graph graph.now).grid.tiles }
    ensures { OrMemory (λ done. done) fault_of result (unless_fault (first_of value_fault (register_readings (G.graph graph.now) (bits image.now) cell.now t register.now)) tt) }
{
    choice_fault(alloc, graph, image, cell, t, &register.input)?;
    choice_fault(alloc, graph, image, cell, t, &register.enable)?;
    choice_fault(alloc, graph, image, cell, t, &register.reset)?;
    choice_fault(alloc, graph, image, cell, t, &register.set)?;
    choice_fault(alloc, graph, image, cell, t, &register.clock)
}

// The first of the choices of registers.
fn first_register<G: NamedGraph>(
    alloc: Global,
    graph: &G,
    image: &Image,
    cell: &Name,
    t: TileId,
    registers: &[RegisterKind],
) -> Result<(), CellError>
    requires stands { StandsInTiles (G.graph graph.now) }
    requires there { t < length (G.graph graph.now).grid.tiles }
    ensures { OrMemory (λ done. done) fault_of result (unless_fault (first_of (λ r. first_of value_fault (register_readings (G.graph graph.now) (bits image.now) cell.now t r)) registers.now) tt) }
{
    for register in registers {
        register_fault(alloc, graph, image, cell, t, register)?;
    }
    Ok(())
}

/// The first setting of a slice whose value isn't modelled: of those that are required, of the words of its tables, and of the
/// choices of its registers. Takes memory only for the error.
pub fn slice_fault<G: NamedGraph>(
    alloc: Global,
    graph: &G,
    image: &Image,
    cell: &Name,
    t: TileId,
    kind: &SliceKind,
) -> Result<(), CellError>
    requires stands { StandsInTiles (G.graph graph.now) }
    requires there { t < length (G.graph graph.now).grid.tiles }
    ensures { OrMemory (λ done. done) fault_of result (unless_fault (first_of value_fault (kind_readings (G.graph graph.now) (bits image.now) cell.now t kind.now)) tt) }
{
    first_required(alloc, graph, image, cell, t, kind.require.as_slice())?;
    first_table(alloc, graph, image, cell, t, kind.tables.as_slice())?;
    first_register(alloc, graph, image, cell, t, kind.registers.as_slice())
}
