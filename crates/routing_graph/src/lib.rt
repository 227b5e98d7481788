//! What the crates above a routing graph ask of it, by numbers: arcs and muxes at wires, links, patterns and device bits, and
//! how wires are called. Contracts see the neutral graph and the device that it is of, however a program keeps them. No
//! call takes memory.
#![tactic(auto)]

ghost use Rattle.fabric.specs.Device.{Device};
ghost use Rattle.fabric.specs.GraphOf.{IsGraph, number_in};
ghost use Rattle.fabric.specs.WireNames.{Named};
ghost use Rattle.graph_lists.specs.ArcLists.{arcs_in, arcs_into, arcs_out, muxes_into, numbers_of};
ghost use Rattle.graph_lists.specs.BitLists.{AreBitsOf, AreMuxBits, muxes_of_bit};
ghost use Rattle.graph_lists.specs.FixedLists.{links_from, links_into};
ghost use Rattle.std.specs.Prelude.{◌<◌, ◌≡◌, ◌↔◌, IsTrue, Some, length, option_and_then, option_map, slice_get};
ghost use Rattle.wire_names.specs.LentNames.{wire_name};
ghost use Rattle.words.specs.Members.{In};

use arc_rows::ArcInfo;
use link_order::Link;
use named_graph::NamedGraph;
use rr_ids::{ArcId, DeviceBit, MuxId, Name, TileId, WireId};
use text_cut::PatternBit;
use wire_names::WireName;

/// The routing graph of a device. Numbers must be below the graph's counts.
pub trait RoutingGraph: NamedGraph {
    /// The device whose graph it is.
    ghost device: { Self → Device };

    /// The graph is that of the device.
    fn is_of_device(&self)
        ensures { IsGraph (device self.now) (Self.graph self.now) };

    /// How many tiles the grid has.
    fn tiles(&self) -> u32
        ensures { result ≡ length (Self.graph self.now).grid.tiles };

    /// How many wires there are.
    fn wires(&self) -> u32
        ensures { result ≡ length (Self.graph self.now).wires };

    /// How many muxes there are.
    fn muxes(&self) -> u32
        ensures { result ≡ length (Self.graph self.now).muxes };

    /// How many arcs there are.
    fn arcs(&self) -> u32
        ensures { result ≡ length (Self.graph self.now).arcs };

    /// The tile of a mux.
    fn tile_of(&self, m: MuxId) -> TileId
        requires { m < length (Self.graph self.now).muxes }
        ensures { option_map (λ mux. mux.tile) (slice_get (Self.graph self.now).muxes m) ≡ Some result };

    /// The wire that a mux drives.
    fn sink_of(&self, m: MuxId) -> WireId
        requires { m < length (Self.graph self.now).muxes }
        ensures { option_map (λ mux. mux.sink) (slice_get (Self.graph self.now).muxes m) ≡ Some result };

    /// What the database calls the wire that a mux drives.
    fn sink_name(&self, m: MuxId) -> &Name
        requires { m < length (Self.graph self.now).muxes }
        ensures { option_map (λ mux. mux.mux.sink) (slice_get (Self.graph self.now).muxes m) ≡ Some result.now };

    /// The mux, the place and the wires of an arc.
    fn arc(&self, a: ArcId) -> ArcInfo
        requires { a < length (Self.graph self.now).arcs }
        ensures { option_map numbers_of (slice_get (Self.graph self.now).arcs a) ≡ Some result };

    /// What the database calls the source of an arc.
    fn source_name(&self, a: ArcId) -> &Name
        requires { a < length (Self.graph self.now).arcs }
        ensures { option_map (λ arc. arc.arc.source) (slice_get (Self.graph self.now).arcs a) ≡ Some result.now };

    /// The pattern of an arc, in the bits of its tile.
    fn pattern(&self, a: ArcId) -> &[PatternBit]
        requires { a < length (Self.graph self.now).arcs }
        ensures { option_map (λ arc. arc.arc.bits) (slice_get (Self.graph self.now).arcs a) ≡ Some result.now };

    /// The arcs that leave a wire, in order.
    fn arcs_out(&self, w: WireId) -> &[ArcId]
        requires { w < length (Self.graph self.now).wires }
        ensures { result.now ≡ arcs_out (Self.graph self.now) w };

    /// The arcs that lead into a wire, in order.
    fn arcs_into(&self, w: WireId) -> &[ArcId]
        requires { w < length (Self.graph self.now).wires }
        ensures { result.now ≡ arcs_into (Self.graph self.now) w };

    /// The arcs of a mux, in order.
    fn arcs_of(&self, m: MuxId) -> &[ArcId]
        requires { m < length (Self.graph self.now).muxes }
        ensures { result.now ≡ arcs_in (Self.graph self.now) m };

    /// The muxes that drive a wire, in order.
    fn muxes_into(&self, w: WireId) -> &[MuxId]
        requires { w < length (Self.graph self.now).wires }
        ensures { result.now ≡ muxes_into (Self.graph self.now) w };

    /// All fixed connections and joins, by sink, then by source, each once.
    fn fixed(&self) -> &[Link]
        ensures { result.now ≡ (Self.graph self.now).fixed };

    /// The wires from which fixed connections and joins lead to a wire, in order.
    fn fixed_into(&self, w: WireId) -> &[WireId]
        requires { w < length (Self.graph self.now).wires }
        ensures { result.now ≡ links_into (Self.graph self.now).fixed w };

    /// The wires to which fixed connections and joins lead from a wire, in order.
    fn fixed_from(&self, w: WireId) -> &[WireId]
        requires { w < length (Self.graph self.now).wires }
        ensures { result.now ≡ links_from (Self.graph self.now).fixed w };

    /// All cell outputs, in order.
    fn outputs(&self) -> &[WireId]
        ensures { result.now ≡ (Self.graph self.now).outputs };

    /// Whether a wire is a cell output.
    fn is_output(&self, w: WireId) -> bool
        requires { w < length (Self.graph self.now).wires }
        ensures { IsTrue result ↔ In (Self.graph self.now).outputs w };

    /// The device bits of a mux in order, each once.
    fn bits_of(&self, m: MuxId) -> &[DeviceBit]
        requires { m < length (Self.graph self.now).muxes }
        ensures { AreBitsOf (Self.graph self.now) m result.now };

    /// The muxes that have a device bit, in order; none where no mux has it.
    fn muxes_of_bit(&self, b: DeviceBit) -> &[MuxId]
        ensures { result.now ≡ muxes_of_bit (Self.graph self.now) b };

    /// The routing-mux bits in order, each once.
    fn bits(&self) -> &[DeviceBit]
        ensures { AreMuxBits (Self.graph self.now) result.now };

    /// How a wire is called.
    fn name(&self, w: WireId) -> WireName<'_>
        requires { w < length (Self.graph self.now).wires }
        ensures { option_map Named (slice_get (Self.graph self.now).wires w) ≡ Some (wire_name result) };

    /// The wire that a name stands for in a tile; `None` exactly where it stands for none of the graph.
    fn wire_named(&self, t: TileId, name: &Name) -> Option<WireId>
        requires { t < length (Self.graph self.now).grid.tiles }
        ensures { result ≡ option_and_then (λ tile. number_in (Self.graph self.now).wires (device self.now).profile.rules tile name.now)
            (slice_get (Self.graph self.now).grid.tiles t) };
}
