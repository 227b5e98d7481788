//! What a search for a path and a test of a cut go by: arcs between wires, known from both ends, and the rules of one
//! net, which stand in one value with the arcs. Contracts see both as neutral records, however a program keeps them.
//! That rules and arcs go together, and the pin with them, is one condition of the calls (`IsConnection`): laws of the
//! traits would have to hold also of values that no program makes.
#![tactic(auto)]

ghost use Rattle.net_links.specs.Nets.{NetRules, Network};
ghost use Rattle.paths.specs.Wiring.{IsArcOf};
ghost use Rattle.std.specs.Prelude.{◌<◌, ◌≡◌, ◌↔◌, IsTrue};
ghost use Rattle.words.specs.Members.{In};

use rr_ids::{ArcId, WireId};

/// The two wires of an arc.
#[derive(Clone, Copy, Debug, PartialEq, Eq)]
pub struct ArcEnds {
    pub source: WireId,
    pub sink: WireId,
}

/// Arcs between wires.
pub trait Links {
    /// The wires, the arcs at each of them, and the two wires of each arc.
    ghost network: { Self → Network };

    /// How many wires there are. Their numbers are those below.
    fn wires(&self) -> u32
        ensures { result ≡ (network self.now).wiring.wires };

    /// The arcs that leave a wire.
    fn outs(&self, w: WireId) -> &[ArcId]
        requires { w < (network self.now).wiring.wires }
        ensures { result.now ≡ (network self.now).wiring.outs w };

    /// The arcs that lead into a wire.
    fn ins(&self, w: WireId) -> &[ArcId]
        requires { w < (network self.now).wiring.wires }
        ensures { result.now ≡ (network self.now).ins w };

    /// The two wires of an arc.
    fn arc(&self, a: ArcId) -> ArcEnds
        requires { IsArcOf (network self.now).wiring a }
        ensures source { result.source ≡ (network self.now).wiring.source a }
        ensures sink { result.sink ≡ (network self.now).wiring.sink a };
}

/// The rules of one net over these arcs: what wires weigh, which arcs may be taken, which wires are linked already, and
/// which are the net's. An arc may be taken where its sink may be entered and `takes` says so.
pub trait PathRules: Links {
    /// The weights, both tests, the links and the tree.
    ghost rules: { Self → NetRules };

    /// What a wire weighs.
    fn weight(&self, w: WireId) -> u32
        requires { w < (Self.network self.now).wiring.wires }
        ensures { result ≡ (rules self.now).weight w };

    /// Whether arcs may lead into a wire: all that is asked of the sink alone. A search asks this at most once of each
    /// wire before links lower its mark.
    fn enterable(&self, w: WireId) -> bool
        requires { w < (Self.network self.now).wiring.wires }
        ensures { result ≡ (rules self.now).enterable w };

    /// Whether an arc may be taken where its sink may be entered.
    fn takes(&self, a: ArcId) -> bool
        requires { IsArcOf (Self.network self.now).wiring a }
        ensures { result ≡ (rules self.now).takes a };

    /// The wires to which a link leads from a wire.
    fn next(&self, w: WireId) -> &[WireId]
        requires { w < (Self.network self.now).wiring.wires }
        ensures { result.now ≡ (rules self.now).next w };

    /// The wires from which a link leads to a wire.
    fn drivers(&self, w: WireId) -> &[WireId]
        requires { w < (Self.network self.now).wiring.wires }
        ensures { result.now ≡ (rules self.now).drivers w };

    /// Whether a wire is in the net's tree.
    fn in_tree(&self, w: WireId) -> bool
        requires { w < (Self.network self.now).wiring.wires }
        ensures { IsTrue result ↔ In (rules self.now).tree w };

    /// Wires of the tree from which links lead to all its wires.
    fn roots(&self) -> &[WireId]
        ensures { result.now ≡ (rules self.now).roots };
}
