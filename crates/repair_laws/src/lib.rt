//! Laws of repair, each the contract of a function with an empty body: a path of usable arcs keeps a routing clean
//! and safe.
#![tactic(auto)]

ghost use Rattle.fabric.specs.Device.{Device};
ghost use Rattle.fabric.specs.Graph.{GraphArc};
ghost use Rattle.fabric.specs.GraphOf.{IsGraph};
ghost use Rattle.links.specs.Links.{Feeds};
ghost use Rattle.patterns.specs.Bits.{Bits, DeviceBit};
ghost use Rattle.paths.specs.Paths.{HasNoSinkTwice};
ghost use Rattle.records.specs.Config.{Config};
ghost use Rattle.repair.specs.Added.{added_all};
ghost use Rattle.repair.specs.Plain.{bits_of_mux};
ghost use Rattle.repair.specs.Routes.{InTree, IsRoute, roads_for};
ghost use Rattle.repair.specs.Turns.{routing, Turn};
ghost use Rattle.repair.specs.Usable.{IsRoutable, IsUsable};
ghost use Rattle.repair_laws.specs.Effects.{HasNetDomain, IsAdded, KeepsEffect};
ghost use Rattle.repair_laws.specs.Kept.{AreKept};
ghost use Rattle.repair_laws.specs.Ready.{IsReadyTurn};
ghost use Rattle.std.specs.Prelude.{List, true, [], ◌∷◌, ◌≡◌, ℕ};
ghost use Rattle.upset.specs.After.{is_affected};
ghost use Rattle.upset.specs.Configured.{Configured};
ghost use Rattle.upset.specs.Safe.{IsSafe};
ghost use Rattle.words.specs.Members.{In};

/// An arc that the routing takes adds one link, whatever net it is for.
pub fn arc_adds_a_link()
    ensures { (device : Device) (k : Configured) (config : Config) (a : GraphArc) → IsGraph device k.graph
        → IsRoutable k config a → IsAdded k a }
{}

/// One usable arc from the net's tree keeps the routing clean and safe, and changes feeds and domains below its sink
/// alone.
pub fn usable_arc_keeps()
    ensures { (device : Device) (t : Turn) (a : GraphArc) → IsReadyTurn device t → IsSafe t.now
        → IsUsable t a → InTree t a.source → AreKept t (a ∷ []) }
{}

/// So does a path of arcs that are all usable in one routing; afterwards the net feeds the pin.
pub fn path_keeps()
    ensures kept { (device : Device) (t : Turn) (path : List GraphArc) (pin : ℕ) → IsReadyTurn device t
        → IsSafe t.now
        → IsRoute t path pin → HasNoSinkTwice (roads_for t) path → AreKept t path }
    ensures connected { (device : Device) (t : Turn) (path : List GraphArc) (pin : ℕ) → IsReadyTurn device t
        → IsSafe t.now
        → IsRoute t path pin → HasNoSinkTwice (roads_for t) path
        → Feeds (routing (added_all t.now path)) t.net.out pin }
{}

/// What flips of other bits do after a usable arc.
pub fn arc_keeps_other_effects()
    ensures { (device : Device) (t : Turn) (a : GraphArc) (flips : Bits) → IsReadyTurn device t
        → IsUsable t a → InTree t a.source → (is_affected t.now.graph flips a.mux ≡ true → ⊥)
        → KeepsEffect t a flips }
{}

/// What the flip of a bit of its own mux does after a usable arc.
pub fn own_flip_has_net_domain()
    ensures { (device : Device) (t : Turn) (a : GraphArc) (b : DeviceBit) → IsReadyTurn device t
        → IsUsable t a → InTree t a.source → In (bits_of_mux t.now.graph a.mux) b → HasNetDomain t a b }
{}
