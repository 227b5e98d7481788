//! Muxes and arcs in rows.

ghost use Rattle.std.specs.Prelude.{◌≡◌, ◌<◌, ◌≤◌, IfOk, IsErrOf, length};
ghost use Rattle.fabric.specs.GraphOf.{muxes_of};
ghost use Rattle.fabric.specs.InOrder.{InOrderOnce};
ghost use Rattle.graph_lists.specs.ArcLists.{numbers_cmp};
ghost use Rattle.graph_numbers.specs.Numbers.{mux_numbers};
ghost use Rattle.graph_numbers.specs.StandFor.{arc_numbers};
ghost use Rattle.records.specs.Limits.{most_arcs, most_muxes};

use crate::RowsError;
use arc_rows::ArcRows;
use device_numbers::{CountError, DeviceNumbers};
use mux_rows::MuxRows;
use std::alloc::Global;

/// The muxes of a device by tile and by sink, and its arcs in arc order, by source, by sink and by mux.
#[derive(Drop)]
pub struct GraphRows {
    pub muxes: MuxRows,
    pub arcs: ArcRows,
}

// The muxes in rows.
#[tactic(auto, using(crate::proofs::Below::tiles_below, crate::proofs::Below::sinks_below))]
fn mux_rows_of(alloc: Global, numbers: &DeviceNumbers<'_>) -> Result<MuxRows, CountError>
    ensures muxes { IfOk result (λ rows. rows ≡ record { tiles = length numbers.now.device.grid.tiles; wires = length numbers.now.wires; muxes = mux_numbers numbers.now.device numbers.now.wires }) }
    ensures few { IfOk result (λ rows. length rows.muxes ≤ most_muxes) }
    ensures too_many { IsErrOf result CountError.TooMany → most_muxes < length (mux_numbers numbers.now.device numbers.now.wires) }
{
    let muxes = numbers.muxes(alloc)?;
    let rows = MuxRows::new(alloc, numbers.tiles(), numbers.wires().len(), muxes)?;
    Ok(rows)
}

// The arcs in rows.
#[tactic(auto, using(crate::proofs::Below::arcs_below, crate::proofs::Below::arcs_rise))]
fn arc_rows_of(
    alloc: Global,
    numbers: &DeviceNumbers<'_>,
    muxes: &MuxRows,
) -> Result<ArcRows, CountError>
    requires muxes { muxes.now.muxes ≡ mux_numbers numbers.now.device numbers.now.wires }
    requires few { length muxes.now.muxes ≤ most_muxes }
    ensures arcs { IfOk result (λ rows. InOrderOnce numbers_cmp (arc_numbers numbers.now.device numbers.now.wires (muxes_of numbers.now.device numbers.now.wires)) rows.arcs) }
    ensures counts { IfOk result (λ rows. (rows.wires ≡ length numbers.now.wires) × (rows.muxes ≡ length muxes.now.muxes)) }
    ensures few { IfOk result (λ rows. length rows.arcs ≤ most_arcs) }
    ensures too_many { IsErrOf result CountError.TooMany
        → most_arcs < length (arc_numbers numbers.now.device numbers.now.wires (muxes_of numbers.now.device numbers.now.wires)) }
{
    let arcs = numbers.arcs(alloc, muxes.muxes())?;
    let rows = ArcRows::new(alloc, numbers.wires().len(), muxes.len() as u32, arcs)?;
    Ok(rows)
}

/// The muxes and arcs of a device in rows, by as many tiles, wires and muxes as there are; `Muxes` and `Arcs` exactly where they pass their limits, in this order.
pub fn rows_of(alloc: Global, numbers: &DeviceNumbers<'_>) -> Result<GraphRows, RowsError>
    ensures muxes { IfOk result (λ rows. rows.muxes ≡ record { tiles = length numbers.now.device.grid.tiles; wires = length numbers.now.wires; muxes = mux_numbers numbers.now.device numbers.now.wires }) }
    ensures arcs { IfOk result (λ rows. InOrderOnce numbers_cmp (arc_numbers numbers.now.device numbers.now.wires (muxes_of numbers.now.device numbers.now.wires)) rows.arcs.arcs) }
    ensures counts { IfOk result (λ rows. (rows.arcs.wires ≡ length numbers.now.wires) × (rows.arcs.muxes ≡ length rows.muxes.muxes)) }
    ensures few { IfOk result (λ rows. (length rows.muxes.muxes ≤ most_muxes) × (length rows.arcs.arcs ≤ most_arcs)) }
    ensures many_muxes { IsErrOf result RowsError.Muxes → most_muxes < length (mux_numbers numbers.now.device numbers.now.wires) }
    ensures few_muxes { IsErrOf result RowsError.Arcs → length (mux_numbers numbers.now.device numbers.now.wires) ≤ most_muxes }
    ensures many_arcs { IsErrOf result RowsError.Arcs
        → most_arcs < length (arc_numbers numbers.now.device numbers.now.wires (muxes_of numbers.now.device numbers.now.wires)) }
{
    let muxes = match mux_rows_of(alloc, numbers) {
        Ok(muxes) => muxes,
        Err(CountError::TooMany) => return Err(RowsError::Muxes),
        Err(CountError::Memory) => return Err(RowsError::Memory),
    };
    match arc_rows_of(alloc, numbers, &muxes) {
        Ok(arcs) => Ok(GraphRows { muxes, arcs }),
        Err(CountError::TooMany) => Err(RowsError::Arcs),
        Err(CountError::Memory) => Err(RowsError::Memory),
    }
}
