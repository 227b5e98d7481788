//! Worked examples of paths and cuts, each the contract of a function with an empty body.
#![tactic(auto)]

ghost use Rattle.path_examples.specs.Square.{rules, square, tree};
ghost use Rattle.paths.specs.Cuts.{IsBlockedBy, IsCut};
ghost use Rattle.paths.specs.Paths.{IsThePath, weight_of};
ghost use Rattle.paths.specs.Wiring.{IsRules, IsTree, IsWiring, roads_of};
ghost use Rattle.std.specs.Prelude.{false, true, [], ◌∷◌, ◌≡◌};
ghost use Rattle.words.specs.Members.{In};

/// The four wires meet what the laws of paths and cuts ask.
pub fn square_is_wired()
    ensures wiring { IsWiring square }
    ensures rules { IsRules square (rules 2 false) }
    ensures tree { IsTree square (rules 2 false) tree }
{}

/// Of two paths of one weight the first is the path: over b.
pub fn first_of_two_paths()
    ensures path { IsThePath (roads_of square (rules 1 true)) (rules 1 true).weight (In tree) (0 ∷ 1 ∷ []) 3 }
    ensures weight { weight_of (roads_of square (rules 1 true)) (rules 1 true).weight (0 ∷ 1 ∷ []) ≡ 2 }
{}

/// Where b weighs 2, the path goes over c.
pub fn lighter_of_two_paths()
    ensures path { IsThePath (roads_of square (rules 2 true)) (rules 2 true).weight (In tree) (2 ∷ 3 ∷ []) 3 }
    ensures weight { weight_of (roads_of square (rules 2 true)) (rules 2 true).weight (2 ∷ 3 ∷ []) ≡ 2 }
{}

/// Where no arc into d may be taken, d is blocked by the cut of a, b and c.
pub fn blocked_by_a_cut()
    ensures cut { IsBlockedBy (roads_of square (rules 1 false)) (In tree) (0 ∷ 1 ∷ 2 ∷ []) (3 ∷ []) 3 }
    ensures not_all { IsCut (roads_of square (rules 1 false)) (In tree) (0 ∷ 1 ∷ 2 ∷ 3 ∷ []) 3 → ⊥ }
    ensures not_two { IsCut (roads_of square (rules 1 false)) (In tree) (0 ∷ 1 ∷ []) 3 → ⊥ }
{}
