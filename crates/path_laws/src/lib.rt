//! Laws of paths and cuts, each the contract of a function with an empty body.
#![tactic(auto)]

ghost use Rattle.paths.specs.Cuts.{IsBlockedBy, IsCut, IsLeastCut};
ghost use Rattle.paths.specs.Paths.{HasNoSinkTwice, IsPath, IsThePath};
ghost use Rattle.paths.specs.Wiring.{IsRules, IsTree, IsWiring, roads_of, Rules, Wiring};
ghost use Rattle.std.specs.Prelude.{List, ◌↔◌, ◌≡◌, ◌⊎◌, ℕ};
ghost use Rattle.words.specs.Members.{In};

/// No path crosses a cut.
pub fn no_path_crosses_a_cut()
    ensures { (g : Wiring) (r : Rules) (tree inside path : List ℕ) (pin : ℕ)
        → IsCut (roads_of g r) (In tree) inside pin → IsPath (roads_of g r) (In tree) path pin → ⊥ }
{}

/// At most one path is the path.
pub fn one_path()
    ensures { (g : Wiring) (r : Rules) (tree path other : List ℕ) (pin : ℕ)
        → IsThePath (roads_of g r) r.weight (In tree) path pin
        → IsThePath (roads_of g r) r.weight (In tree) other pin
        → path ≡ other }
{}

/// At most one cut, with its rim, is the least.
pub fn one_least_cut()
    ensures { (g : Wiring) (r : Rules) (tree inside rim other edge : List ℕ) (pin : ℕ)
        → IsBlockedBy (roads_of g r) (In tree) inside rim pin
        → IsBlockedBy (roads_of g r) (In tree) other edge pin
        → (inside ≡ other) × (rim ≡ edge) }
{}

/// The least cut holds just the wires that paths lead to.
pub fn least_cut_is_what_is_reached()
    ensures { (g : Wiring) (r : Rules) (tree : List ℕ) → IsWiring g → IsRules g r → IsTree g r tree
        → (inside : List ℕ) (pin : ℕ)
        → IsLeastCut (roads_of g r) (In tree) inside pin
        ↔ (((w : ℕ) → In inside w ↔ ((path : List ℕ) × IsPath (roads_of g r) (In tree) path w))
        × (In inside pin → ⊥)) }
{}

/// The path enters no wire twice.
pub fn least_path_has_no_sink_twice()
    ensures { (g : Wiring) (r : Rules) (tree path : List ℕ) (pin : ℕ) → IsWiring g → IsRules g r
        → IsThePath (roads_of g r) r.weight (In tree) path pin → HasNoSinkTwice (roads_of g r) path }
{}

/// There is the path or the least cut, and never both.
pub fn path_or_cut()
    ensures one { (g : Wiring) (r : Rules) (tree : List ℕ) (pin : ℕ) → IsWiring g → IsRules g r
        → IsTree g r tree
        → ((path : List ℕ) × IsThePath (roads_of g r) r.weight (In tree) path pin)
        ⊎ ((inside : List ℕ) × ((rim : List ℕ) × IsBlockedBy (roads_of g r) (In tree) inside rim pin)) }
    ensures not_both { (g : Wiring) (r : Rules) (tree path inside rim : List ℕ) (pin : ℕ)
        → IsThePath (roads_of g r) r.weight (In tree) path pin
        → IsBlockedBy (roads_of g r) (In tree) inside rim pin → ⊥ }
{}
