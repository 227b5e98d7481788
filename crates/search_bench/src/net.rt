//! A net over a grid: each wire weighs 1 and may be entered, each arc may be taken, and no links lead on.

ghost use Rattle.std.specs.Prelude.{◌≡◌, length};

use crate::arcs::{Arcs, KINDS, forth, part};
use crate::tree::Tree;
use net_links::{ArcEnds, Links, PathRules};
use rr_ids::{ArcId, Id, WireId};

/// A grid and the tree of a net over it.
#[derive(Drop)]
pub struct Net {
    pub arcs: Arcs,
    pub tree: Tree,
    ghost same: { length tree.places.items ≡ arcs.wires },
}

impl Links for Net {
    ghost use Rattle.search_bench.specs.Grids.{network};

    ghost network = { λ n. network n.arcs.wires n.arcs.distances n.arcs.outs.items n.arcs.ins.items };

    fn wires(&self) -> u32 {
        self.arcs.wires
    }

    fn outs(&self, w: WireId) -> &[ArcId] {
        part(&self.arcs.outs, w)
    }

    fn ins(&self, w: WireId) -> &[ArcId] {
        part(&self.arcs.ins, w)
    }

    fn arc(&self, a: ArcId) -> ArcEnds {
        let source = a.to_u32() / KINDS;
        let distance = self.arcs.distances[(a.to_u32() % KINDS) as usize];
        ArcEnds {
            source: WireId::from_u32(source),
            sink: WireId::from_u32(forth(self.arcs.wires, source, distance)),
        }
    }
}

impl PathRules for Net {
    ghost use Rattle.search_bench.specs.Grids.{net_rules};

    ghost rules = { λ n. net_rules n.tree.wires.items };

    fn weight(&self, w: WireId) -> u32 {
        let _ = w;
        1
    }

    fn enterable(&self, w: WireId) -> bool {
        let _ = w;
        true
    }

    fn takes(&self, a: ArcId) -> bool {
        let _ = a;
        true
    }

    fn next(&self, w: WireId) -> &[WireId] {
        let _ = w;
        &[]
    }

    fn drivers(&self, w: WireId) -> &[WireId] {
        let _ = w;
        &[]
    }

    fn in_tree(&self, w: WireId) -> bool {
        self.tree.holds(w)
    }

    fn roots(&self) -> &[WireId] {
        &self.tree.wires
    }
}
