//! Cell outputs in order.

ghost use Rattle.std.specs.Prelude.{◌≡◌, ◌<◌, ◌≤◌, ◌^◌, ◌↔◌, ℕ, List, Some, length, nat_eq, slice_get, Err, IfOk, IfSome, IsFalse, IsTrue, None};
ghost use Rattle.std.specs.List.{count_by};
ghost use Rattle.std.specs.Ordering.{nat_cmp};
ghost use Rattle.fabric.specs.InOrder.{InOrderOnce};
ghost use Rattle.grouped.specs.Rows.{grouped};
ghost use Rattle.link_rows.specs.Kept.{AreBelow, IsFirstTwice};
ghost use Rattle.words.specs.Members.{In};

use crate::OutputsError;
use grouped::Grouped;
use rr_ids::{Id, WireId};
use std::alloc::{AllocError, Global};
use std::marker::Model;

/// The cell outputs of a graph in wire order, each once. Contracts see how many wires there are, and the outputs.
#[derive(Drop)]
pub struct CellOutputs {
    // the row of a wire holds the wire itself where it is an output
    rows: Grouped<WireId, WireId>,
}

impl Model for CellOutputs {
    ghost use Rattle.std.specs.Prelude.{length, flat_map};
    ghost use Rattle.link_rows.specs.Kept.{AreOutputRows, OutputTable};

    ghost Value = { OutputTable };

    ghost view = { λ o. record { wires = length o.rows; outputs = flat_map (λ row. row) o.rows } };

    ghost invariant = { λ o. AreOutputRows o.rows };
}

// Outputs in rows under themselves.
#[tactic(auto, using(crate::proofs::Outputs::keys_known))]
fn rows_of(
    alloc: Global,
    wires: u32,
    outputs: &[WireId],
) -> Result<Grouped<WireId, WireId>, AllocError>
    requires within { AreBelow wires outputs.now }
    requires few { length outputs.now < 2 ^ 32 }
    ensures { IfOk result (λ rows. rows ≡ grouped (λ k. k) wires outputs.now outputs.now) }
{
    Grouped::new(alloc, wires, outputs, outputs)
}

// Whether the row of a wire holds more than one.
fn holds_two(rows: &Grouped<WireId, WireId>, w: WireId) -> bool
    requires { w < length rows.now }
    ensures two { IsTrue result → (row : List ℕ) → slice_get rows.now w ≡ Some row → 2 ≤ length row }
    ensures fewer { IsFalse result → (row : List ℕ) → slice_get rows.now w ≡ Some row → length row < 2 }
{
    rows.row(w).len() >= 2
}

// The first wire whose row holds more than one.
fn first_of_two(rows: &Grouped<WireId, WireId>, wires: u32) -> Option<WireId>
    requires { length rows.now ≡ wires }
    ensures found { IfSome result (λ w. w < wires) }
    ensures two { IfSome result (λ w. (row : List ℕ) → slice_get rows.now w ≡ Some row → 2 ≤ length row) }
    ensures first { IfSome result (λ w. (k : ℕ) → k < w → (row : List ℕ) → slice_get rows.now k ≡ Some row → length row < 2) }
    ensures none { result ≡ None → (k : ℕ) → k < wires → (row : List ℕ) → slice_get rows.now k ≡ Some row → length row < 2 }
{
    for number in 0..wires {
        let w = WireId::from_u32(number);
        if holds_two(rows, w) {
            return Some(w);
        }
    }
    None
}

// Whether a row holds something.
fn is_there(row: &[WireId]) -> bool
    ensures { IsTrue result ↔ (0 < length row.now) }
{
    !row.is_empty()
}

impl CellOutputs {
    /// The outputs of a list in wire order; `Twice` exactly where a wire stands there twice, with the least such wire. 2^32
    /// outputs or more are answered as want of memory. Takes time in proportion to outputs and wires.
    pub fn new(alloc: Global, wires: u32, outputs: &[WireId]) -> Result<CellOutputs, OutputsError>
        requires within { AreBelow wires outputs.now }
        ensures outputs { IfOk result (λ o. InOrderOnce nat_cmp outputs.now o.outputs) }
        ensures wires { IfOk result (λ o. o.wires ≡ wires) }
        ensures once { IfOk result (λ o. (w : ℕ) → count_by (nat_eq w) outputs.now < 2) }
        ensures twice { (w : ℕ) → result ≡ Err (OutputsError.Twice w) → IsFirstTwice outputs.now w }
        ensures known { (w : ℕ) → result ≡ Err (OutputsError.Twice w) → w < wires }
    {
        if outputs.len() >= 4_294_967_296 {
            return Err(OutputsError::Memory);
        }
        let rows = rows_of(alloc, wires, outputs)?;
        if let Some(w) = first_of_two(&rows, wires) {
            return Err(OutputsError::Twice(w));
        }
        Ok(CellOutputs { rows })
    }

    /// How many wires there are.
    pub fn wires(&self) -> usize
        ensures { result ≡ self.now.wires }
    {
        self.rows.len()
    }

    /// The outputs in wire order, each once.
    pub fn outputs(&self) -> &[WireId]
        ensures { result.now ≡ self.now.outputs }
    {
        self.rows.items()
    }

    /// Whether a wire is an output.
    pub fn is_output(&self, w: WireId) -> bool
        requires { w < self.now.wires }
        ensures { IsTrue result ↔ In self.now.outputs w }
    {
        is_there(self.rows.row(w))
    }
}
