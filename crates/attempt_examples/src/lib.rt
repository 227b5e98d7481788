//! Worked examples of the attempts of a router, each the contract of a function with an empty body.
#![tactic(auto)]

ghost use Rattle.attempt_examples.specs.MovedToggle.{at_sites, moved_toggle, moved_toggle_side, third_moves};
ghost use Rattle.attempt_examples.specs.SafeToggle.{toggle_job};
ghost use Rattle.attempt_examples.specs.SiteOrder.{empty_sites, mini_c, present, site, sites_from, stands_at, tiles_of, toggle_side_c};
ghost use Rattle.attempt_examples.specs.TwoTiles.{design, design_text, graph, job, ripped_job, state, step, two_tiles};
ghost use Rattle.attempts.specs.Attempts.{AttemptComplete, Ended, IsAnswer, Routed};
ghost use Rattle.attempts.specs.Candidates.{site_cmp, IsCandidate, IsFirst};
ghost use Rattle.attempts.specs.Jobs.{read_of};
ghost use Rattle.attempts.specs.Moves.{moved_config, moved_side, renamed};
ghost use Rattle.fabric.specs.Agree.{ArcsAgree};
ghost use Rattle.fabric_laws.specs.PlainGraph.{graph_of};
ghost use Rattle.layout_laws.specs.Named.{NamesOnce};
ghost use Rattle.mini.specs.MiniA.{mini_a};
ghost use Rattle.mini.specs.Toggle.{toggle, toggle_side};
ghost use Rattle.repair.specs.Layouts.{configured};
ghost use Rattle.repair_laws.specs.Ready.{IsReady};
ghost use Rattle.std.specs.Prelude.{codes, map, None, Some, [], ◌∷◌, ◌≡◌};
ghost use Rattle.std.specs.declared.cmp.Ordering.TheVariants.{Less};

/// The toggle is safe, so one attempt is complete and leaves it as it is.
pub fn safe_toggle_stays()
    ensures { IsAnswer toggle_job (Ended (AttemptComplete ∷ []) (Routed toggle_job.design 0)) }
{}

/// A setting goes to the one at its first position among those of the new kind.
pub fn settings_go_by_position()
    ensures first { renamed (codes "S0.K" ∷ codes "S0.MODE" ∷ codes "S0.K" ∷ []) (codes "S1.K" ∷ codes "S1.MODE" ∷ codes "S2.K" ∷ []) (codes "S0.K") ≡ Some (codes "S1.K") }
    ensures second { renamed (codes "S0.K" ∷ codes "S0.MODE" ∷ []) (codes "S1.K" ∷ codes "S1.MODE" ∷ []) (codes "S0.MODE") ≡ Some (codes "S1.MODE") }
    ensures none { renamed (codes "S0.K" ∷ codes "S0.MODE" ∷ []) (codes "S1.K" ∷ codes "S1.MODE" ∷ []) (codes "S1.K") ≡ None }
{}

/// The third slice of the toggle moves to the empty tile beside it: its word goes to a section of its own there.
pub fn slice_of_toggle_moves()
    ensures text { at_sites (graph_of mini_a) third_moves (λ old new. moved_config old new toggle)
        ≡ Some moved_toggle }
    ensures side { moved_side third_moves toggle_side ≡ moved_toggle_side }
{}

/// Sites come by their distance from the present one, then by row, column, name of kind and name of tile.
pub fn sites_come_in_order()
    ensures distance { site_cmp present (site 6 5 (codes "S") (codes "R6C5:L")) (site 4 4 (codes "S") (codes "R4C4:L")) ≡ Less }
    ensures row { site_cmp present (site 4 6 (codes "S") (codes "R4C6:L")) (site 5 3 (codes "S") (codes "R5C3:L")) ≡ Less }
    ensures column { site_cmp present (site 4 4 (codes "T") (codes "R4C4:L")) (site 4 6 (codes "S") (codes "R4C6:L")) ≡ Less }
    ensures kind { site_cmp present (site 4 4 (codes "S") (codes "R4C4:Z")) (site 4 4 (codes "T") (codes "R4C4:A")) ≡ Less }
    ensures tile { site_cmp present (site 4 4 (codes "S") (codes "R4C4:A")) (site 4 4 (codes "S") (codes "R4C4:Z")) ≡ Less }
{}

/// From the third column of MINI-C the sites of equal shape come in this order: of those beside it the left one first,
/// then the one that lies further off. The toggle's slices leave one of them empty.
pub fn third_slice_has_one_empty_site()
    ensures others { let g = graph_of mini_c in map (λ from. tiles_of (sites_from g from)) (stands_at (codes "R1C3:MLD") g)
        ≡ (codes "R1C2:MLC" ∷ codes "R1C4:MLC" ∷ codes "R1C1:MLC" ∷ []) ∷ [] }
    ensures empty { let g = graph_of mini_c in map (λ from. tiles_of (empty_sites toggle_side_c (sites_from g from))) (stands_at (codes "R1C3:MLD") g)
        ≡ (codes "R1C4:MLC" ∷ []) ∷ [] }
{}

/// On a small device a slice has a first candidate: the other tile for its kind. The move takes its word there, removes
/// the route of its register and the clock line at its old pin, and rips its three connections.
pub fn slice_has_a_first_candidate()
    ensures candidate { IsCandidate job state step }
    ensures first { IsFirst job state (codes "a") step }
{}

/// Where all nets but clocks are ripped, the two connections of the slice get their paths back in one attempt.
pub fn ripped_slice_is_routed_again()
    ensures { IsAnswer ripped_job (Ended (AttemptComplete ∷ []) (Routed design 2)) }
{}
