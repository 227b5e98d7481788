//! Four wires a, b, c and d, the numbers 0 to 3, with the arcs a to b, b to d, a to c and c to d, the numbers 0 to 3,
//! and no links: on these, searches and checks are tried.
#![tactic(auto)]

ghost use Rattle.std.specs.Prelude.{◌<◌, ◌≡◌, [], ◌∷◌};

use net_links::{ArcEnds, Links, PathRules};
use rr_ids::{ArcId, Id, WireId};

/// The four wires and their arcs, and the rules of a net whose tree is a alone: each wire weighs 1, but for b, and d may
/// be entered or not.
#[derive(Debug, Drop)]
pub struct Square {
    pub b: u32,
    pub into_d: bool,
    from_a: [ArcId; 2],
    from_b: [ArcId; 1],
    from_c: [ArcId; 1],
    to_b: [ArcId; 1],
    to_c: [ArcId; 1],
    to_d: [ArcId; 2],
    tree: [WireId; 1],
    ghost a_is: { from_a ≡ 0 ∷ 2 ∷ [] },
    ghost b_is: { from_b ≡ 1 ∷ [] },
    ghost c_is: { from_c ≡ 3 ∷ [] },
    ghost at_b: { to_b ≡ 0 ∷ [] },
    ghost at_c: { to_c ≡ 2 ∷ [] },
    ghost at_d: { to_d ≡ 1 ∷ 3 ∷ [] },
    ghost tree_is: { tree ≡ 0 ∷ [] },
}

impl Square {
    ghost use Rattle.net_links.specs.Nets.{IsConnection};
    ghost use Rattle.net_square.specs.Nets.{net_rules, network};

    /// The four wires and their arcs, and the rules of such a net.
    pub fn new(b: u32, into_d: bool) -> Square
        requires { 0 < b }
        ensures b { result.b ≡ b }
        ensures into_d { result.into_d ≡ into_d }
        ensures to_pin { IsConnection network (net_rules result.b result.into_d) 3 }
    {
        Square {
            b,
            into_d,
            from_a: [ArcId::from_u32(0), ArcId::from_u32(2)],
            from_b: [ArcId::from_u32(1)],
            from_c: [ArcId::from_u32(3)],
            to_b: [ArcId::from_u32(0)],
            to_c: [ArcId::from_u32(2)],
            to_d: [ArcId::from_u32(1), ArcId::from_u32(3)],
            tree: [WireId::from_u32(0)],
        }
    }
}

impl Links for Square {
    ghost use Rattle.net_square.specs.Nets.{network as square};

    ghost network = { λ _. square };

    fn wires(&self) -> u32 {
        4
    }

    fn outs(&self, w: WireId) -> &[ArcId] {
        match w.to_u32() {
            0 => &self.from_a,
            1 => &self.from_b,
            2 => &self.from_c,
            _ => &[],
        }
    }

    fn ins(&self, w: WireId) -> &[ArcId] {
        match w.to_u32() {
            0 => &[],
            1 => &self.to_b,
            2 => &self.to_c,
            _ => &self.to_d,
        }
    }

    fn arc(&self, a: ArcId) -> ArcEnds {
        let (source, sink) = match a.to_u32() {
            0 => (0, 1),
            1 => (1, 3),
            2 => (0, 2),
            _ => (2, 3),
        };
        ArcEnds {
            source: WireId::from_u32(source),
            sink: WireId::from_u32(sink),
        }
    }
}

impl PathRules for Square {
    ghost use Rattle.net_square.specs.Nets.{net_rules};

    ghost rules = { λ s. net_rules s.b s.into_d };

    fn weight(&self, w: WireId) -> u32 {
        match w.to_u32() {
            1 => self.b,
            _ => 1,
        }
    }

    fn enterable(&self, w: WireId) -> bool {
        match w.to_u32() {
            3 => self.into_d,
            _ => true,
        }
    }

    fn takes(&self, a: ArcId) -> bool {
        let _ = a;
        true
    }

    fn next(&self, w: WireId) -> &[WireId] {
        let _ = w;
        &[]
    }

    fn drivers(&self, w: WireId) -> &[WireId] {
        let _ = w;
        &[]
    }

    fn in_tree(&self, w: WireId) -> bool {
        w.to_u32() == 0
    }

    fn roots(&self) -> &[WireId] {
        &self.tree
    }
}
