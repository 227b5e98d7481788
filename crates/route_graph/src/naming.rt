//! How names are looked up in a routing graph.

use crate::RouteGraph;
use arc_lines::ArcNames;
use bits_db::{EnumOption, EnumSetting, WordSetting};
use graph_names::{enum_named, mux_named, option_named, pattern_named, word_named};
use named_graph::NamedGraph;
use rr_ids::{ArcId, MuxId, Name, TileId};
use text_cut::PatternBit;
use tile_grid::Tile;

impl<'a> NamedGraph for RouteGraph<'a> {
    ghost use Rattle.number_lists.specs.Routed.{graph_of};

    ghost graph = { λ r. graph_of r };

    fn tile_named(&self, name: &Name) -> Option<TileId> {
        self.device.tile_named(name)
    }

    fn tile(&self, t: TileId) -> &Tile {
        let tile = self.device.tile(t);
        tile.unwrap()
    }

    fn mux_named(&self, t: TileId, sink: &Name) -> Option<MuxId> {
        mux_named(&self.device, &self.rows.muxes, t, sink)
    }

    fn pattern_named(&self, m: MuxId, source: &Name) -> Option<&[PatternBit]> {
        pattern_named(&self.device, self.rows.muxes.muxes(), m, source)
    }

    fn word_named(&self, t: TileId, name: &Name) -> Option<&WordSetting> {
        word_named(&self.device, t, name)
    }

    fn enum_named(&self, t: TileId, name: &Name) -> Option<&EnumSetting> {
        enum_named(&self.device, t, name)
    }

    fn option_named(&self, t: TileId, name: &Name, value: &Name) -> Option<&EnumOption> {
        option_named(&self.device, t, name, value)
    }
}

impl<'a> ArcNames for RouteGraph<'a> {
    fn arc_named(&self, m: MuxId, source: &Name) -> Option<ArcId> {
        self.device
            .arc_named(self.rows.muxes.muxes(), self.rows.arcs.arcs(), m, source)
    }
}
