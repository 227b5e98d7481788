//! What a routing graph is asked by numbers.

use crate::RouteGraph;
use arc_rows::ArcInfo;
use graph_names::{pattern_of, sink_name, source_name};
use link_order::Link;
use routing_graph::RoutingGraph;
use rr_ids::{ArcId, DeviceBit, MuxId, Name, TileId, WireId};
use text_cut::PatternBit;
use wire_names::WireName;

impl<'a> RoutingGraph for RouteGraph<'a> {
    ghost device = { λ r. r.device };

    fn is_of_device(&self) {
        // what is kept is the graph's
        let _ = &self.rows;
    }

    fn tiles(&self) -> u32 {
        self.device.numbers().tiles()
    }

    fn wires(&self) -> u32 {
        self.device.numbers().wires().len()
    }

    fn muxes(&self) -> u32 {
        self.rows.muxes.len() as u32
    }

    fn arcs(&self) -> u32 {
        self.rows.arcs.arcs().len() as u32
    }

    fn tile_of(&self, m: MuxId) -> TileId {
        let mux = self.rows.muxes.mux(m);
        mux.tile
    }

    fn sink_of(&self, m: MuxId) -> WireId {
        let mux = self.rows.muxes.mux(m);
        mux.sink
    }

    fn sink_name(&self, m: MuxId) -> &Name {
        let name = sink_name(&self.device, self.rows.muxes.muxes(), m);
        name.unwrap()
    }

    fn arc(&self, a: ArcId) -> ArcInfo {
        self.rows.arcs.arc(a)
    }

    fn source_name(&self, a: ArcId) -> &Name {
        let name = source_name(
            &self.device,
            self.rows.muxes.muxes(),
            self.rows.arcs.arcs(),
            a,
        );
        name.unwrap()
    }

    fn pattern(&self, a: ArcId) -> &[PatternBit] {
        let bits = pattern_of(
            &self.device,
            self.rows.muxes.muxes(),
            self.rows.arcs.arcs(),
            a,
        );
        bits.unwrap()
    }

    fn arcs_out(&self, w: WireId) -> &[ArcId] {
        self.rows.arcs.outs(w)
    }

    fn arcs_into(&self, w: WireId) -> &[ArcId] {
        self.rows.arcs.ins(w)
    }

    fn arcs_of(&self, m: MuxId) -> &[ArcId] {
        self.rows.arcs.of_mux(m)
    }

    fn muxes_into(&self, w: WireId) -> &[MuxId] {
        self.rows.muxes.of_sink(w)
    }

    fn fixed(&self) -> &[Link] {
        self.fixed.links()
    }

    fn fixed_into(&self, w: WireId) -> &[WireId] {
        self.fixed.sources(w)
    }

    fn fixed_from(&self, w: WireId) -> &[WireId] {
        self.fixed.sinks(w)
    }

    fn outputs(&self) -> &[WireId] {
        self.outputs.outputs()
    }

    fn is_output(&self, w: WireId) -> bool {
        self.outputs.is_output(w)
    }

    fn bits_of(&self, m: MuxId) -> &[DeviceBit] {
        self.bits.bits_of(m)
    }

    fn muxes_of_bit(&self, b: DeviceBit) -> &[MuxId] {
        self.bits.muxes_of_bit(b)
    }

    fn bits(&self) -> &[DeviceBit] {
        self.bits.bits()
    }

    fn name(&self, w: WireId) -> WireName<'_> {
        let wires = self.device.numbers().wires();
        wires.name(w).unwrap()
    }

    fn wire_named(&self, t: TileId, name: &Name) -> Option<WireId> {
        self.device.wire_named(t, name)
    }
}
