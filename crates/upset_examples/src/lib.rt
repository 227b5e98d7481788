//! Worked examples of flips, each the contract of a function with an empty body.
#![tactic(auto)]

ghost use Rattle.circuit.specs.Faults.{Fault};
ghost use Rattle.circuit.specs.Right.{TwoAreRight};
ghost use Rattle.circuit.specs.Triplicated.{IsTriplicated};
ghost use Rattle.circuit.specs.WellFormed.{IsWellFormed};
ghost use Rattle.fabric.specs.Links.{routing_of};
ghost use Rattle.fabric_laws.specs.PlainGraph.{graph_of};
ghost use Rattle.links.specs.Links.{IsClean};
ghost use Rattle.mini.specs.MiniA.{mini_a};
ghost use Rattle.mini.specs.Spoken.{text_of};
ghost use Rattle.mini.specs.Toggle.{crossed, toggle};
ghost use Rattle.mini.specs.ToggleCells.{wire_at};
ghost use Rattle.records.specs.Side.{Domain, D0, D2};
ghost use Rattle.std.specs.Prelude.{codes, map, ℕ, [], ◌∷◌, ◌≡◌, ◌↔◌};
ghost use Rattle.upset.specs.Configured.{circuit_of};
ghost use Rattle.upset.specs.Effect.{IsDisturbed};
ghost use Rattle.upset.specs.Safe.{FlipsHave, IsBad, IsMuxFault, IsSafe};
ghost use Rattle.upset_examples.specs.Circuits.{flip, three_arcs, with_slices, with_toggle};
ghost use Rattle.upset_laws.specs.PlainUpset.{domains_of, fed_wires, hit_wires, short_sources};

/// In the toggle no single routing-mux bit reaches two copies.
pub fn toggle_is_safe()
    ensures clean { let k = with_toggle (graph_of mini_a) toggle in IsClean (routing_of k.graph k.image) }
    ensures safe { IsSafe (with_toggle (graph_of mini_a) toggle) }
{}

/// It meets all that masking asks for, so that after the flip of any routing-mux bit of its image at least two of
/// the three pads stay right.
pub fn toggle_is_masked()
    ensures formed { IsWellFormed (circuit_of (with_toggle (graph_of mini_a) toggle)) }
    ensures triplicated { IsTriplicated (circuit_of (with_toggle (graph_of mini_a) toggle)) }
    ensures masked { let k = with_toggle (graph_of mini_a) toggle in (f : Fault) → IsMuxFault k f
        → TwoAreRight (circuit_of k) f }
{}

/// Where copies 0 and 2 run side by side, one flip joins them: mux T of the third slice gets both as sources.
pub fn crossed_is_bad()
    ensures hit { let k = with_toggle (graph_of mini_a) crossed in map (text_of k.graph) (hit_wires k (flip 52 11)) ≡ codes "R1C3/T" ∷ codes "R1C3/T" ∷ [] }
    ensures joined { let k = with_toggle (graph_of mini_a) crossed in
        map (text_of k.graph) (short_sources k (flip 52 11)) ≡ codes "R1C3/H3" ∷ codes "R1C3/H4" ∷ codes "R1C3/H3" ∷ codes "R1C3/H4" ∷ [] }
    ensures domains { let k = with_toggle (graph_of mini_a) crossed in domains_of k (fed_wires k) (flip 52 11)
        ≡ D0 ∷ D2 ∷ [] }
    ensures bad { IsBad (with_toggle (graph_of mini_a) crossed) (flip 52 11) }
{}

/// A flip that opens an arc and leaves another one: the wire is hit, gets a source of another copy, and isn't
/// shorted, so the flip has the wire's own domain alone.
pub fn one_source_for_another()
    ensures hit { let k = with_slices (graph_of mini_a) three_arcs in map (text_of k.graph) (hit_wires k (flip 32 1)) ≡ codes "R0C2/PO" ∷ [] }
    ensures not_shorted { let k = with_slices (graph_of mini_a) three_arcs in short_sources k (flip 32 1)
        ≡ [] }
    ensures disturbed { let k = with_slices (graph_of mini_a) three_arcs in (w : ℕ) → IsDisturbed k (flip 32 1) w ↔ (w ≡ wire_at k.graph 0 2 (codes "PO")) }
    ensures domains { let k = with_slices (graph_of mini_a) three_arcs in (d : Domain)
        → FlipsHave k (flip 32 1) d ↔ (d ≡ D0) }
    ensures not_bad { IsBad (with_slices (graph_of mini_a) three_arcs) (flip 32 1) → ⊥ }
{}
