//! The routing graph.

ghost use Rattle.std.specs.Prelude.{◌≡◌};

use bit_rows::BitRows;
use device_names::Device;
use graph_rows::GraphRows;
use link_rows::{CellOutputs, LinkRows};
use named_device::NamedDevice;
use std::marker::Model;

/// The routing graph of a device. Contracts see the device and the numbers that stand for its graph over it. Ids must be
/// below the graph's counts.
#[derive(Drop)]
pub struct RouteGraph<'a> {
    pub(crate) device: NamedDevice<'a>,
    pub(crate) rows: GraphRows,
    pub(crate) fixed: LinkRows,
    pub(crate) outputs: CellOutputs,
    pub(crate) bits: BitRows,
}

impl<'a> Model for RouteGraph<'a> {
    ghost use Rattle.number_lists.specs.Routed.{Routed, routed};
    ghost use Rattle.route_graph.specs.Kept.{IsKept};

    ghost Value = { Routed };

    ghost view = { λ r. routed r.device.device r.device.wires r.rows.muxes r.rows.arcs r.fixed r.outputs };

    ghost invariant = { λ r. IsKept r.device r.rows.muxes r.rows.arcs r.fixed r.outputs r.bits };
}

impl<'a> RouteGraph<'a> {
    ghost use Rattle.fabric.specs.GraphOf.{IsGraph};
    ghost use Rattle.graph_numbers.specs.Graphs.{AreGraphNumbers};
    ghost use Rattle.number_lists.specs.Routed.{graph_of};

    /// The device whose graph it is.
    pub fn device(&self) -> &'a Device<'a>
        ensures device { result.now ≡ self.now.device }
        ensures numbers { AreGraphNumbers self.now.device self.now.numbers }
        ensures graph { IsGraph self.now.device (graph_of self.now) }
    {
        self.device.numbers().device()
    }

    /// The muxes and arcs in rows.
    pub fn rows(&self) -> &GraphRows
        ensures muxes { result.now.muxes.muxes ≡ self.now.numbers.muxes }
        ensures arcs { result.now.arcs.arcs ≡ self.now.numbers.arcs }
    {
        &self.rows
    }
}
