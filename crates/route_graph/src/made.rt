//! How a routing graph is made.

ghost use Rattle.std.specs.Prelude.{◌≡◌, ◌<◌, ◌≤◌, ℕ, IfErr, IfOk, length};
ghost use Rattle.std.specs.Ordering.{nat_cmp};
ghost use Rattle.fabric.specs.Graph.{Graph};
ghost use Rattle.fabric.specs.GraphOf.{IsGraph, fixed_of, link_cmp, outputs_of};
ghost use Rattle.fabric.specs.InOrder.{InOrderOnce};
ghost use Rattle.link_rows.specs.Kept.{IsFirstTwice};
ghost use Rattle.number_lists.specs.Routed.{IsRouted, graph_of, routed};
ghost use Rattle.record_laws.specs.Records.{AreMuxesOf};
ghost use Rattle.records.specs.Limits.{most_muxes};
ghost use Rattle.row_laws.specs.BitRows.{AreBitRows};
ghost use Rattle.size_laws.specs.Sizes.{IsSmall, OverlapsNowhere};
ghost use Rattle.route_graph.specs.Kept.{AreGraphEnds, AreGraphRows};
ghost use Rattle.route_graph.specs.Why.{IsWhy};

use crate::owned::owned_wire;
use crate::{GraphError, RouteGraph};
use bit_rows::BitRows;
use device_names::Device;
use device_numbers::DeviceNumbers;
use device_wires::WiresError;
use fixed_links::links_of;
use graph_rows::{GraphRows, RowsError, rows_of};
use link_order::Link;
use link_rows::{CellOutputs, LinkRows, OutputsError};
use mux_bits::bits_of_graph;
use mux_rows::MuxRows;
use named_device::NamedDevice;
use rr_ids::WireId;
use std::alloc::{AllocError, Global};
use type_bits::MovedBits;

// The wires of a device under numbers.
#[tactic(auto, using(crate::proofs::Built::too_many_wires))]
fn numbered<'a>(alloc: Global, device: &'a Device<'a>) -> Result<DeviceNumbers<'a>, GraphError>
    ensures device { IfOk result (λ n. n.device ≡ device.now) }
    ensures why { IfErr result (IsWhy device.now) }
{
    match DeviceNumbers::new(alloc, device) {
        Ok(numbers) => Ok(numbers),
        Err(WiresError::TooMany) => Err(GraphError::Wires),
        Err(WiresError::Memory) => Err(GraphError::Memory),
    }
}

// The muxes and arcs of a device in rows.
fn in_rows(alloc: Global, numbers: &DeviceNumbers<'_>) -> Result<GraphRows, GraphError>
    ensures rows { IfOk result (λ rows. AreGraphRows numbers.now.device numbers.now.wires rows.muxes rows.arcs) }
    ensures small { IfOk result (λ rows. IsSmall numbers.now.device) }
    ensures why { IfErr result (IsWhy numbers.now.device) }
{
    let _wires = numbers.wires().len();
    match rows_of(alloc, numbers) {
        Ok(rows) => Ok(rows),
        Err(RowsError::Muxes) => Err(GraphError::Muxes),
        Err(RowsError::Arcs) => Err(GraphError::Arcs),
        Err(RowsError::Memory) => Err(GraphError::Memory),
    }
}

// The fixed connections and joins of a device in rows.
fn links_in_rows(
    alloc: Global,
    numbers: &DeviceNumbers<'_>,
    links: &[Link],
) -> Result<LinkRows, AllocError>
    requires { links.now ≡ fixed_of numbers.now.device numbers.now.wires }
    ensures links { IfOk result (λ rows. InOrderOnce link_cmp (fixed_of numbers.now.device numbers.now.wires) rows.links) }
    ensures wires { IfOk result (λ rows. rows.wires ≡ length numbers.now.wires) }
{
    LinkRows::new(alloc, numbers.wires().len(), links)
}

// Why there is no graph where the wire of a number is the least that overlaps.
fn overlap(alloc: Global, numbers: &DeviceNumbers<'_>, w: WireId) -> GraphError
    requires known { w < length numbers.now.wires }
    requires small { IsSmall numbers.now.device }
    requires first { IsFirstTwice (outputs_of numbers.now.device numbers.now.wires) w }
    ensures { IsWhy numbers.now.device result }
{
    match owned_wire(alloc, numbers.wires(), w) {
        Ok(wire) => GraphError::Overlap(wire),
        Err(_) => GraphError::Memory,
    }
}

// Why there is no graph where cell outputs have no rows.
fn overlap_of(alloc: Global, numbers: &DeviceNumbers<'_>, error: &OutputsError) -> GraphError
    requires known { (w : ℕ) → error.now ≡ OutputsError.Twice w → w < length numbers.now.wires }
    requires small { IsSmall numbers.now.device }
    requires first { (w : ℕ) → error.now ≡ OutputsError.Twice w → IsFirstTwice (outputs_of numbers.now.device numbers.now.wires) w }
    ensures { IsWhy numbers.now.device result }
{
    match *error {
        OutputsError::Twice(w) => overlap(alloc, numbers, w),
        OutputsError::Memory => GraphError::Memory,
    }
}

// The cell outputs of a device, whose graph isn't too large, in rows.
fn outputs_in_rows(
    alloc: Global,
    numbers: &DeviceNumbers<'_>,
    outputs: &[WireId],
) -> Result<CellOutputs, GraphError>
    requires all { outputs.now ≡ outputs_of numbers.now.device numbers.now.wires }
    requires small { IsSmall numbers.now.device }
    ensures outputs { IfOk result (λ o. InOrderOnce nat_cmp (outputs_of numbers.now.device numbers.now.wires) o.outputs) }
    ensures wires { IfOk result (λ o. o.wires ≡ length numbers.now.wires) }
    ensures apart { IfOk result (λ o. OverlapsNowhere numbers.now.device) }
    ensures why { IfErr result (IsWhy numbers.now.device) }
{
    match CellOutputs::new(alloc, numbers.wires().len(), outputs) {
        Ok(outputs) => Ok(outputs),
        Err(error) => Err(overlap_of(alloc, numbers, &error)),
    }
}

/// The fixed connections and joins of a device, and its cell outputs, in rows.
#[derive(Drop)]
struct Ends {
    fixed: LinkRows,
    outputs: CellOutputs,
}

// The fixed connections, joins and cell outputs of a device, whose graph isn't too large, in rows.
#[tactic(auto, using(crate::proofs::Built::memory_says_nothing))]
fn ends_in_rows(alloc: Global, numbers: &DeviceNumbers<'_>) -> Result<Ends, GraphError>
    requires { IsSmall numbers.now.device }
    ensures ends { IfOk result (λ e. AreGraphEnds numbers.now.device numbers.now.wires e.fixed e.outputs) }
    ensures apart { IfOk result (λ e. OverlapsNowhere numbers.now.device) }
    ensures why { IfErr result (IsWhy numbers.now.device) }
{
    let links = links_of(alloc, numbers)?;
    let outputs = outputs_in_rows(alloc, numbers, &links.outputs)?;
    let fixed = links_in_rows(alloc, numbers, &links.fixed)?;
    Ok(Ends { fixed, outputs })
}

// The bits of the muxes of a device in rows.
fn bits_in_rows(
    alloc: Global,
    device: &NamedDevice<'_>,
    muxes: &MuxRows,
) -> Result<BitRows, AllocError>
    requires { length muxes.now.muxes ≤ most_muxes }
    ensures { IfOk result (λ bits. (g : Graph) → AreMuxesOf device.now.device g muxes.now.muxes → AreBitRows g bits) }
{
    let moved = MovedBits::new(alloc, device)?;
    bits_of_graph(alloc, &moved, muxes.muxes())
}

// The routing graph of parts that are those of a device.
fn of_parts<'a>(
    alloc: Global,
    numbers: DeviceNumbers<'a>,
    rows: GraphRows,
    ends: Ends,
) -> Result<RouteGraph<'a>, AllocError>
    requires { IsRouted numbers.device numbers.wires rows.muxes rows.arcs ends.fixed ends.outputs }
    ensures { IfOk result (λ g. g ≡ routed numbers.entry.device numbers.entry.wires rows.muxes rows.arcs ends.fixed ends.outputs) }
{
    let device = NamedDevice::new(alloc, numbers)?;
    let bits = bits_in_rows(alloc, &device, &rows.muxes)?;
    Ok(RouteGraph {
        device,
        rows,
        fixed: ends.fixed,
        outputs: ends.outputs,
        bits,
    })
}

/// The routing graph of a device. `Wires`, `Muxes` and `Arcs` exactly where the graph is too large in this quantity and in none
/// before, then `Overlap` exactly where a wire is the output of two cells, with the least such wire. Takes time in proportion
/// to the graph.
pub fn build<'a>(alloc: Global, device: &'a Device<'a>) -> Result<RouteGraph<'a>, GraphError>
    ensures device { IfOk result (λ g. g.device ≡ device.now) }
    ensures graph { IfOk result (λ g. IsGraph device.now (graph_of g)) }
    ensures small { IfOk result (λ g. IsSmall device.now) }
    ensures apart { IfOk result (λ g. OverlapsNowhere device.now) }
    ensures why { IfErr result (IsWhy device.now) }
{
    let numbers = numbered(alloc, device)?;
    let rows = in_rows(alloc, &numbers)?;
    let ends = ends_in_rows(alloc, &numbers)?;
    let graph = of_parts(alloc, numbers, rows, ends)?;
    Ok(graph)
}
