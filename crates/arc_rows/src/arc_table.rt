//! Arcs in arc order, with their rows.

ghost use Rattle.std.specs.Prelude.{◌≡◌, ◌==◌, ◌<◌, ◌^◌, Some, length, slice_get, vec_len, IfOk};
ghost use Rattle.fabric.specs.InOrder.{InOrderOnce, IsRising};
ghost use Rattle.graph_lists.specs.ArcLists.{mux_order, numbers_cmp};
ghost use Rattle.graph_lists.specs.Places.{places};
ghost use Rattle.arc_rows.specs.ArcTable.{AreBelow};

use crate::ArcInfo;
use crate::keys::{rows_by_mux, rows_by_sink, rows_by_source};
use crate::sorted::in_arc_order;
use grouped::Grouped;
use rr_ids::{ArcId, Id, MuxId, WireId};
use std::alloc::{AllocError, Global};
use std::marker::Model;

/// The arcs of a graph in arc order: by sink, source, mux, then place in the database. Contracts see the numbers of wires and
/// muxes and the list of the arcs.
#[derive(Debug, Drop)]
pub struct ArcRows {
    arcs: Vec<ArcInfo>,
    outs: Grouped<WireId, ArcId>,
    ins: Grouped<WireId, ArcId>,
    of_mux: Grouped<MuxId, ArcId>,
}

impl Model for ArcRows {
    ghost use Rattle.std.specs.Prelude.{length};
    ghost use Rattle.arc_rows.specs.ArcTable.{ArcTable};
    ghost use Rattle.arc_rows.specs.Kept.{AreRowsOf};

    ghost Value = { ArcTable };

    ghost view = { λ a. record { wires = length a.outs; muxes = length a.of_mux; arcs = a.arcs.items } };

    ghost invariant = { λ a. AreRowsOf a.arcs.items a.outs a.ins a.of_mux };
}

// Arcs in arc order, with their rows.
fn with_rows(
    alloc: Global,
    wires: u32,
    muxes: u32,
    arcs: Vec<ArcInfo>,
) -> Result<ArcRows, AllocError>
    requires sources { AreBelow (λ a. a.source) wires arcs.items }
    requires sinks { AreBelow (λ a. a.sink) wires arcs.items }
    requires muxes { AreBelow (λ a. a.mux) muxes arcs.items }
    requires few { vec_len arcs < 2 ^ 32 }
    ensures { IfOk result (λ rows. rows ≡ record { wires = wires; muxes = muxes; arcs = arcs.items }) }
{
    let outs = rows_by_source(alloc, wires, &arcs)?;
    let ins = rows_by_sink(alloc, wires, &arcs)?;
    let of_mux = rows_by_mux(alloc, muxes, &arcs)?;
    Ok(ArcRows {
        arcs,
        outs,
        ins,
        of_mux,
    })
}

impl ArcRows {
    /// The arcs of a graph with so many wires and muxes, from arcs in mux order: by mux, then place in the database. Takes
    /// time in proportion to arcs, wires and muxes.
    pub fn new(
        alloc: Global,
        wires: u32,
        muxes: u32,
        arcs: Vec<ArcInfo>,
    ) -> Result<ArcRows, AllocError>
        requires order { IsRising mux_order arcs.items }
        requires sources { AreBelow (λ a. a.source) wires arcs.items }
        requires sinks { AreBelow (λ a. a.sink) wires arcs.items }
        requires muxes { AreBelow (λ a. a.mux) muxes arcs.items }
        requires few { vec_len arcs < 2 ^ 32 }
        ensures arcs { IfOk result (λ rows. InOrderOnce numbers_cmp arcs.items rows.arcs) }
        ensures wires { IfOk result (λ rows. rows.wires ≡ wires) }
        ensures muxes { IfOk result (λ rows. rows.muxes ≡ muxes) }
    {
        let arcs = in_arc_order(alloc, wires, arcs)?;
        with_rows(alloc, wires, muxes, arcs)
    }

    /// How many wires there are.
    pub fn wires(&self) -> usize
        ensures { result ≡ self.now.wires }
    {
        self.outs.len()
    }

    /// How many muxes there are.
    pub fn muxes(&self) -> usize
        ensures { result ≡ self.now.muxes }
    {
        self.of_mux.len()
    }

    /// All arcs in arc order.
    pub fn arcs(&self) -> &[ArcInfo]
        ensures { result.now ≡ self.now.arcs }
    {
        &self.arcs
    }

    /// The arc of a number.
    pub fn arc(&self, a: ArcId) -> ArcInfo
        requires { a < length self.now.arcs }
        ensures { slice_get self.now.arcs a ≡ Some result }
    {
        self.arcs[a.to_u32() as usize]
    }

    /// The arcs that leave a wire, in arc order.
    pub fn outs(&self, w: WireId) -> &[ArcId]
        requires { w < self.now.wires }
        ensures { result.now ≡ places (λ a. a.source == w) self.now.arcs }
    {
        self.outs.row(w)
    }

    /// The arcs that lead into a wire, in arc order.
    pub fn ins(&self, w: WireId) -> &[ArcId]
        requires { w < self.now.wires }
        ensures { result.now ≡ places (λ a. a.sink == w) self.now.arcs }
    {
        self.ins.row(w)
    }

    /// The arcs of a mux, in arc order.
    pub fn of_mux(&self, m: MuxId) -> &[ArcId]
        requires { m < self.now.muxes }
        ensures { result.now ≡ places (λ a. a.mux == m) self.now.arcs }
    {
        self.of_mux.row(m)
    }
}
